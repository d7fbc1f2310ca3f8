//! The heads with which messages go on: the original's, and those that a service made (RFC 9110, section 7.6).

ghost use Rattle.std.specs.Prelude.{◌≡◌, ◌⊎◌, IfOk, IfErr};
ghost use Rattle.http_side.specs.Forward.{forwarded, next_framing, closes};
ghost use Rattle.trace_core.specs.declared.history.Cause.TheVariants as causes;
ghost use Rattle.proxy_rules.specs.Users.{is_head_request};
ghost use Rattle.proxy_rules.specs.Onward.{IsForwarded, IsUnfit, suits, IsRequest, IsResponse, IsAdaptedRequest, IsAdaptedResponse, NoAdaptedRequest, NoAdaptedResponse, part_of, cause_of, may_answer};

use crate::connections::repeats;
use crate::expect::is_head_request;
use http_side::{
    BodyKind, Forward, Framing, HttpFault, HttpRequest, HttpResponse, Message, OriginUse,
    OriginWay, forward_head, read_request, read_response,
};
use std::alloc::Global;
use trace_core::Cause;

/// A head that goes on.
#[derive(Drop)]
pub struct Headed {
    /// Its text.
    pub head: Vec<u8>,
    /// How the body goes after it.
    pub framing: Framing,
    /// Whether the user's connection ends after the message, if that is an answer.
    pub closes: bool,
}

/// The user whose request is served, and whether its connection may carry a further one; and how a request goes to its origin.
#[derive(Clone, Copy)]
pub(crate) struct Asked<'a> {
    pub user: &'a HttpRequest,
    pub carries_on: bool,
    pub origin: OriginWay,
}

/// Whether a message may go out on a connection: on one that was kept, only a request that may be sent again.
fn suits(forward: &Forward<'_, '_>) -> bool
    ensures { result ≡ suits forward.now }
{
    match forward.message {
        Message::Request(request) if forward.origin.connection == OriginUse::Kept => {
            repeats(request.method(), forward.framing())
        }
        _ => true,
    }
}

/// What follows an adapted message's head.
fn part_of(has_body: bool) -> BodyKind
    ensures { result ≡ part_of has_body }
{
    if has_body {
        BodyKind::Body
    } else {
        BodyKind::NullBody
    }
}

/// Why a transaction fails whose service sent a head that is refused.
fn cause_of(fault: HttpFault) -> Cause
    ensures { result ≡ cause_of fault }
{
    match fault {
        HttpFault::NoMemory => Cause::Memory,
        _ => Cause::Service,
    }
}

/// The head of a message that goes on.
fn onward(alloc: Global, forward: &Forward<'_, '_>) -> Result<Headed, Cause>
    ensures head { IfOk result (λ headed. headed.head.items ≡ forwarded forward.now) }
    ensures framing { IfOk result (λ headed. headed.framing ≡ next_framing forward.now) }
    ensures closes { IfOk result (λ headed. headed.closes ≡ closes forward.now) }
    ensures memory { IfErr result (λ cause. cause ≡ causes.Memory) }
{
    match forward_head(alloc, forward) {
        Ok(head) => Ok(Headed {
            head,
            framing: forward.framing(),
            closes: forward.closes(),
        }),
        Err(_) => Err(Cause::Memory),
    }
}

/// The head of a request, for the origin of the user's target, or for the parent. On a connection that was kept only a request
/// that may be sent again goes out: for another one the fault is the next hop's, and nothing was written.
pub(crate) fn request_onward(
    alloc: Global,
    asked: Asked<'_>,
    request: &HttpRequest,
    part: BodyKind,
) -> Result<Headed, Cause>
    ensures ok { IfOk result (IsForwarded asked.entry.user.now asked.entry.carries_on asked.entry.origin part (IsRequest request.now)) }
    ensures err { IfErr result (λ cause. (cause ≡ causes.Memory)
        ⊎ ((cause ≡ causes.NextHop) × IsUnfit asked.entry.user.now asked.entry.origin part (IsRequest request.now))) }
{
    let forward = Forward {
        user: asked.user,
        message: Message::Request(request),
        part,
        carries_on: asked.carries_on,
        origin: asked.origin,
    };
    if !suits(&forward) {
        return Err(Cause::NextHop);
    }
    onward(alloc, &forward)
}

/// The head of a response, for the user.
pub(crate) fn response_onward(
    alloc: Global,
    asked: Asked<'_>,
    response: &HttpResponse,
    part: BodyKind,
) -> Result<Headed, Cause>
    ensures ok { IfOk result (IsForwarded asked.entry.user.now asked.entry.carries_on asked.entry.origin part (IsResponse response.now)) }
    ensures err { IfErr result (λ cause. cause ≡ causes.Memory) }
{
    let forward = Forward {
        user: asked.user,
        message: Message::Response(response),
        part,
        carries_on: asked.carries_on,
        origin: asked.origin,
    };
    onward(alloc, &forward)
}

/// The head of a request that a service made, for the origin of the user's target, or for the parent. The text has to be just the head.
pub(crate) fn adapted_request(
    alloc: Global,
    asked: Asked<'_>,
    text: &[u8],
    has_body: bool,
) -> Result<Headed, Cause>
    ensures ok { IfOk result (IsForwarded asked.entry.user.now asked.entry.carries_on asked.entry.origin (part_of has_body) (IsAdaptedRequest text.now)) }

    // The service is blamed only if its head can't go on, the next hop only if it can't go out on a kept connection.
    ensures err { IfErr result (λ cause. (cause ≡ causes.Memory) ⊎ ((cause ≡ causes.Service) × NoAdaptedRequest text.now)
        ⊎ ((cause ≡ causes.NextHop) × IsUnfit asked.entry.user.now asked.entry.origin (part_of has_body) (IsAdaptedRequest text.now))) }
{
    let head = match read_request(alloc, text, true) {
        Ok(head) => head,
        Err(fault) => return Err(cause_of(fault)),
    };
    if head.length != text.len() {
        return Err(Cause::Service);
    }
    request_onward(alloc, asked, &head.value, part_of(has_body))
}

/// Whether a response that a service made can be an answer: it isn't interim, and it has a body part only where a body may
/// follow.
fn may_answer(response: &HttpResponse, has_body: bool) -> bool
    ensures { result ≡ may_answer has_body response.now }
{
    let status = response.status();
    (status < 100 || status > 199) && (!has_body || !response.is_bare())
}

/// The head of a response that a service made, for the user. The text has to be just the head.
pub(crate) fn adapted_response(
    alloc: Global,
    asked: Asked<'_>,
    text: &[u8],
    has_body: bool,
) -> Result<Headed, Cause>
    ensures ok { IfOk result (IsForwarded asked.entry.user.now asked.entry.carries_on asked.entry.origin (part_of has_body) (IsAdaptedResponse (is_head_request asked.entry.user.now) has_body text.now)) }

    // The service is blamed only if its head can't go on.
    ensures err { IfErr result (λ cause. (cause ≡ causes.Memory) ⊎ ((cause ≡ causes.Service) × NoAdaptedResponse (is_head_request asked.entry.user.now) has_body text.now)) }
{
    let head = match read_response(alloc, text, is_head_request(asked.user)) {
        Ok(head) => head,
        Err(fault) => return Err(cause_of(fault)),
    };
    if head.length != text.len() {
        return Err(Cause::Service);
    }
    if !may_answer(&head.value, has_body) {
        return Err(Cause::Service);
    }
    response_onward(alloc, asked, &head.value, part_of(has_body))
}
