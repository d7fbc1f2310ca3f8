//! What is forwarded to the next hop and to a service: the framing, the end of the user's connection, and the heads
//! (RFC 9112, sections 6 and 9.6; RFC 9110, section 7.6).
ghost use Rattle.std.specs.Prelude.{◌≡◌, length, IfOk};
ghost use Rattle.std.specs.Vec.{vec_capacity};
ghost use Rattle.http_side.specs.Forward.{kept_length, has_no_place, is_response, has_body, has_own_body, is_to_old_user, unsized_framing, next_framing, closes, says_close, gets_zero, is_absolute, extra_of, forwarded, encapsulated};

use crate::body::Framing;
use crate::connection::is_named_by;
use crate::request::HttpRequest;
use crate::response::HttpResponse;
use crate::targets::authority_of;
use crate::writing::{Extra, written_head};
use std::alloc::{AllocError, Global};

/// A head to forward: a request to an origin, or a response to the user.
#[derive(Clone, Copy)]
pub enum Message<'a> {
    /// A request, the user's or an adapted one.
    Request(&'a HttpRequest),
    /// A response, an origin's or an adapted one.
    Response(&'a HttpResponse),
}

/// The body that follows the head.
#[derive(Clone, Copy)]
pub enum BodyKind {
    /// The message is the original: its own framing says.
    Own,
    /// The message is an adapted one with a body part.
    Body,
    /// The message is an adapted one with null-body.
    NullBody,
}

/// The use of a connection to an origin or a parent that a request goes out on (RFC 9112, sections 9.3 and 9.6).
#[derive(Clone, Copy)]
pub enum OriginUse {
    /// It is closed after the answer to this request, and the request's head says so.
    Once,
    /// It was opened for this request, and may carry further ones.
    Fresh,
    /// It was kept after the answer to an earlier request, and may carry further ones.
    Kept,
}

/// The server that a request goes to next (RFC 9110, section 3.7).
#[derive(Clone, Copy)]
pub enum NextServer {
    /// The origin of its target, which gets the target in origin form (RFC 9112, section 3.2.1).
    Origin,
    /// A parent proxy, which gets the target in absolute form (RFC 9112, section 3.2.2).
    Parent,
}

/// How a request goes to its origin: to which server next, and over which connection.
#[derive(Clone, Copy)]
pub struct OriginWay {
    /// The server at the connection's other end.
    pub next: NextServer,
    /// The use of the connection.
    pub connection: OriginUse,
}

/// A message on its way to the next hop.
#[derive(Clone, Copy)]
pub struct Forward<'u, 'm> {
    /// The user's own request: its target names the origin, and its version and Connection say what the user can take.
    pub user: &'u HttpRequest,
    /// The head to forward.
    pub message: Message<'m>,
    /// What follows its head.
    pub part: BodyKind,
    /// Whether the user's connection may carry a further request: the body of its request was read to its end, and the message isn't
    /// the last one of the connection.
    pub carries_on: bool,
    /// How a request goes to its origin. The head of a response doesn't rest on it.
    pub origin: OriginWay,
}

/// A message on its way to a service, within an ICAP message.
#[derive(Clone, Copy)]
pub struct Encapsulated<'u, 'm> {
    /// The user's own request: its target names the origin.
    pub user: &'u HttpRequest,
    /// What the service gets.
    pub message: Message<'m>,
}

impl OriginWay {
    /// Straight to the origin, over a connection of this use.
    pub fn straight(connection: OriginUse) -> OriginWay
        ensures { result ≡ record { next = NextServer.Origin; connection = connection } }
    {
        OriginWay {
            next: NextServer::Origin,
            connection,
        }
    }
}

impl<'a> Message<'a> {
    /// The forwarded length: a response with Transfer-Encoding loses its own.
    fn kept_length(&self) -> Option<u64>
        ensures { result ≡ kept_length self.now }
    {
        match self {
            Message::Request(request) => request.length_fields().length,
            Message::Response(response) => response.length_fields().uncoded_length(),
        }
    }

    /// Whether no body follows, whatever the fields say.
    fn has_no_place(&self) -> bool
        ensures { result ≡ has_no_place self.now }
    {
        match self {
            Message::Request(_) => false,
            Message::Response(response) => response.is_bare(),
        }
    }

    fn is_response(&self) -> bool
        ensures { result ≡ is_response self.now }
    {
        matches!(self, Message::Response(_))
    }

    /// Whether the original has a body, where it has no length.
    fn has_own_body(&self) -> bool
        ensures { result ≡ has_own_body self.now }
    {
        match self {
            Message::Request(request) => request.length_fields().chunked,
            Message::Response(_) => true,
        }
    }
}

impl<'u, 'm> Forward<'u, 'm> {
    fn has_body(&self) -> bool
        ensures { result ≡ has_body self.now.part self.now.message }
    {
        match self.part {
            BodyKind::Own => self.message.has_own_body(),
            BodyKind::Body => true,
            BodyKind::NullBody => false,
        }
    }

    /// The framing of a message without a length.
    fn unsized_framing(&self) -> Framing
        ensures { result ≡ unsized_framing self.now }
    {
        if self.has_body() {
            if self.message.is_response() && self.user.minor() == 0 {
                Framing::Close
            } else {
                Framing::Chunked
            }
        } else {
            if self.message.is_response() {
                Framing::Length(0)
            } else {
                Framing::None
            }
        }
    }

    /// The framing towards the next hop: none for a response that no body follows; else the forwarded length, if there is one; else,
    /// without a body, none for a request and the length 0 for a response; else chunked, or up to the close for a
    /// user of HTTP/1.0.
    pub fn framing(&self) -> Framing
        ensures { result ≡ next_framing self.now }
    {
        if self.message.has_no_place() {
            return Framing::None;
        }
        match self.message.kept_length() {
            Some(length) => Framing::Length(length),
            None => self.unsized_framing(),
        }
    }

    /// Whether the user's connection ends after this response, as far as its head can tell. Only a user of HTTP/1.0 gets a response that
    /// ends with the connection, so the others' framing isn't asked.
    pub fn closes(&self) -> bool
        ensures { result ≡ closes self.now }
    {
        self.user.minor() == 0 || (!self.carries_on || is_named_by(&self.user.fields(), b"close"))
    }

    /// Whether the head says that the connection ends after this message: a request's by the use of its connection.
    fn says_close(&self) -> bool
        ensures { result ≡ says_close self.now }
    {
        match self.message {
            Message::Request(_) => self.origin.connection == OriginUse::Once,
            Message::Response(_) => self.closes(),
        }
    }

    /// Whether the head gets `Content-Length: 0`.
    fn gets_zero(&self) -> bool
        ensures { result ≡ gets_zero self.now }
    {
        self.message.is_response()
            && (!self.has_body()
                && (!self.message.has_no_place() && self.message.kept_length().is_none()))
    }

    /// Whether a request's target is written in absolute form.
    fn is_absolute(&self) -> bool
        ensures { result ≡ is_absolute self.now.origin.next }
    {
        self.origin.next == NextServer::Parent
    }

    fn extra(&self) -> Extra
        ensures { result ≡ extra_of self.now }
    {
        Extra {
            empty: self.gets_zero(),
            chunked: self.framing() == Framing::Chunked,
            close: self.says_close(),
            via: true,
        }
    }
}

/// The head as the next hop gets it. A request goes as HTTP/1.1, to an origin in origin form and to a parent in absolute form,
/// with the authority of the user's target as its Host. Fields that end at a proxy are dropped, and those that Connection
/// names, but for Host and Content-Length. It gets `Connection: close` exactly where it is known by then that the connection
/// ends after it: by `OriginUse`, or by `closes`.
pub fn forward_head(alloc: Global, forward: &Forward<'_, '_>) -> Result<Vec<u8>, AllocError>
    ensures text { IfOk result (λ text. text.items ≡ forwarded forward.now) }

    // Its one allocation has just its length.
    ensures room { IfOk result (λ text. vec_capacity text ≡ length text.items) }
{
    let authority = authority_of(forward.user.target());
    let absolute = forward.is_absolute();
    written_head(alloc, forward.message, authority, absolute, forward.extra())
}

/// The head as a service gets it: a request in absolute form, and nothing added but a Host that it lacks.
pub fn encapsulated_head(alloc: Global, sent: &Encapsulated<'_, '_>) -> Result<Vec<u8>, AllocError>
    ensures text { IfOk result (λ text. text.items ≡ encapsulated sent.now) }

    // Its one allocation has just its length.
    ensures room { IfOk result (λ text. vec_capacity text ≡ length text.items) }
{
    let extra = Extra {
        empty: false,
        chunked: false,
        close: false,
        via: false,
    };
    let authority = authority_of(sent.user.target());
    written_head(alloc, sent.message, authority, true, extra)
}
