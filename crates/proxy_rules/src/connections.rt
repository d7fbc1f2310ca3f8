//! Users' and origins' connections (RFC 9112, section 9.3), and requests that may be repeated (RFC 9110, section 9.2).

ghost use Rattle.std.specs.Prelude.{◌≡◌, ◌↔◌, IsTrue};
ghost use Rattle.http_relay.specs.Reading.{response_of};
ghost use Rattle.proxy_rules.specs.Connections.{CarriesOn, Lasts, has_lasting_head, has_no_body, is_safe, repeats, may_repeat};

use adapt_turn::Outcome;
use http_relay::SourceSide;
use http_side::{Framing, HttpRequest};

/// Whether a user's connection carries a further request after an answer: the answer went out whole, it didn't say that the
/// connection closes, and the request was read to its end.
pub fn keeps_user(outcome: Outcome, closes: bool, user: &SourceSide) -> bool
    ensures { IsTrue result ↔ CarriesOn outcome closes user.now }
{
    outcome == Outcome::Done && !closes && user.ended()
}

/// Whether the head of an origin's answer lets its connection last.
fn has_lasting_head(origin: &SourceSide) -> bool
    ensures { result ≡ has_lasting_head (response_of origin.now.head) }
{
    match origin.response_head() {
        Some(head) => head.lets_last(),
        None => false,
    }
}

/// Whether another request may go out on an origin's connection: its answer was read whole, by its own framing; the answer's head
/// lets the connection last; no byte is left over; and nothing failed.
pub fn keeps_origin(outcome: Outcome, origin: &SourceSide) -> bool
    ensures { IsTrue result ↔ Lasts outcome origin.now }
{
    outcome == Outcome::Done
        && origin.ended()
        && origin.framing() != Framing::Close
        && has_lasting_head(origin)
        && origin.has_none_left()
        && origin.fault().is_none()
}

/// Whether the method asks for nothing that changes the origin: GET, HEAD, OPTIONS or TRACE (RFC 9110, section 9.2.1).
fn is_safe(method: &[u8]) -> bool
    ensures { result ≡ is_safe method.now }
{
    method == b"GET".as_slice()
        || method == b"HEAD".as_slice()
        || method == b"OPTIONS".as_slice()
        || method == b"TRACE".as_slice()
}

/// Whether no byte follows a head with this framing.
fn has_no_body(framing: Framing) -> bool
    ensures { result ≡ has_no_body framing }
{
    matches!(framing, Framing::None | Framing::Length(0))
}

/// Whether a request of this method that goes out so may be sent again: it is safe, and has no body.
pub(crate) fn repeats(method: &[u8], framing: Framing) -> bool
    ensures { result ≡ repeats method.now framing }
{
    is_safe(method) && has_no_body(framing)
}

/// Whether a user's request may be sent again where nothing of an answer came: its method is safe, and it has no body.
pub fn may_repeat(request: &HttpRequest) -> bool
    ensures { result ≡ may_repeat request.now }
{
    repeats(request.method(), request.framing())
}
