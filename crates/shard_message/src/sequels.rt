//! What comes of a message whose transaction is over: an answer, a further request, or the same one again.

ghost use Rattle.std.specs.Prelude.{◌≡◌, None, false, true, IfSome, IsSomeAnd, ⊤};
ghost use Rattle.trace_core.specs.declared.history.Cause.TheVariants.{NextHop};
ghost use Rattle.exchange_core.specs.declared.event.Event.TheVariants.{Withdrawn};
ghost use Rattle.adapt_sides.specs.Turns.Gift.{nothing};
ghost use Rattle.shard_message.specs.Ended.{Brings, IfAsked, IsSequel, old_where_asked};

use crate::ended::Sequel;
use crate::sides::Asked;
use adapt_sides::Hop;
use adapt_turn::Outcome;
use std::alloc::Global;
use std::boxed::Box;
use trace_core::Cause;

/// A message on the heap, where memory is found for it.
fn boxed<M: Drop>(alloc: Global, message: M) -> Option<Box<M>>
    ensures { IfSome result (λ boxed. boxed.value ≡ message) }
{
    match Box::new(alloc, message) {
        Ok(message) => Some(message),
        Err(_) => None,
    }
}

/// What comes of a message that got an answer, or failed.
fn answered<S: Asked>(
    alloc: Global,
    request: S,
    outcome: Outcome,
    closes: bool,
    lasts: bool,
) -> Sequel<S::Message>
    ensures sequel { IsSequel outcome ⊥ (S.carries_on Outcome.Done closes request) lasts false (S.is_old request) result }
    ensures brings { Brings (λ _. ⊥) (S.is_next request) (λ _. ⊥) result }
{
    match outcome {
        Outcome::Fail(cause) => Sequel::Failed {
            cause,
            is_old: request.is_old(),
        },
        Outcome::Done if request.keeps(outcome, closes) => {
            let next = match request.next_request() {
                Some(next) => boxed(alloc, next),
                None => None,
            };
            Sequel::Answered { next, lasts }
        }
        Outcome::Done => Sequel::Answered { next: None, lasts },
    }
}

/// What comes of a request whose origin's kept connection has ended: it is there again, where memory is found for it.
fn withdrawn<S: Asked>(alloc: Global, request: S) -> Sequel<S::Message>
    ensures sequel { IsSequel (Outcome.Fail NextHop) ⊥ ⊥ false true (S.is_old request) result }
    ensures brings { Brings (λ _. ⊥) (λ _. ⊥) (S.is_again request) result }
{
    Sequel::Withdrawn(match request.again() {
        Some(again) => boxed(alloc, again),
        None => None,
    })
}

/// What comes of a message whose request is lost: no further one of its user's connection.
fn unasked<M>(outcome: Outcome, lasts: bool) -> Sequel<M>
    ensures sequel { IsSequel outcome ⊥ ⊥ lasts false true result }
    ensures brings { Brings (λ _. ⊥) (λ _. ⊥) (λ _. ⊥) result }
{
    match outcome {
        Outcome::Fail(cause) => Sequel::Failed {
            cause,
            is_old: true,
        },
        Outcome::Done => Sequel::Answered { next: None, lasts },
    }
}

/// The response to a request, which goes with these field lines, where memory was found for them and for it.
fn response_to<S: Asked>(
    alloc: Global,
    request: S,
    carried: Option<Vec<u8>>,
) -> Option<Box<S::Message>>
    ensures response { IfSome result (λ boxed. S.is_response request boxed.value) }
    ensures carries { IfSome result (λ boxed. IsSomeAnd carried (λ lines. S.told boxed.value ≡ lines.items)) }
{
    match carried {
        Some(lines) => boxed(alloc, request.response(alloc, lines)),
        None => None,
    }
}

/// What comes of a request: the origin has it, unless an answer went back, and the response goes with these field lines. One that may be
/// withdrawn is there again where its connection to the origin failed.
pub(crate) fn after_request<S: Asked, K: Hop>(
    alloc: Global,
    request: S,
    carried: Option<Vec<u8>>,
    back: &K,
    outcome: Outcome,
    closes: bool,
    may_withdraw: bool,
) -> Sequel<S::Message>
    ensures sequel { IsSequel outcome (K.gift back.now ≡ nothing) (S.carries_on Outcome.Done closes request) false may_withdraw (S.is_old request) result }
    ensures brings { Brings (S.is_response request) (S.is_next request) (S.is_again request) result }
    ensures carries { Brings (λ response. IsSomeAnd carried (λ lines. S.told response ≡ lines.items)) (λ _. ⊤) (λ _. ⊤) result }
{
    match outcome {
        Outcome::Done if back.is_idle() => Sequel::Sent(response_to(alloc, request, carried)),
        Outcome::Fail(Cause::NextHop) if may_withdraw => withdrawn(alloc, request),
        _ => answered(alloc, request, outcome, closes, false),
    }
}

/// What comes of a response, by the side of the user whose request it answers.
pub(crate) fn after_response<S: Asked>(
    alloc: Global,
    request: Option<S>,
    outcome: Outcome,
    closes: bool,
    lasts: bool,
) -> Sequel<S::Message>
    ensures sequel { IsSequel outcome ⊥ (IfAsked (S.carries_on Outcome.Done closes) request) lasts false (old_where_asked S.is_old request) result }
    ensures brings { Brings (λ _. ⊥) (λ next. IfAsked (λ user. S.is_next user next) request) (λ _. ⊥) result }
{
    match request {
        Some(request) => answered(alloc, request, outcome, closes, lasts),
        None => unasked(outcome, lasts),
    }
}
