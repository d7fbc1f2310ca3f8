//! What the breakers of services are told of messages that end, also of those that end at a question for options. That a service says its
//! options is told nobody: one may do so, and leave each message unanswered.

ghost use Rattle.std.specs.Prelude.{◌≡◌, ◌||◌, false, true};
ghost use Rattle.trace_core.specs.History.{is_plain};
ghost use Rattle.shard_desk.specs.Pausing.{end_for, refusal_end};

use crate::connections::waiter_of;
use crate::shared::Shares;
use crate::words::evidence_of;
use adapt_turn::Outcome;
use exchange_report::{Reason, Why};
use service_pool::{POINTS, ServiceEnd};
use shard_message::MessageEnd;
use shard_report::failed_word;
use std::sync::Wait;
use trace_core::Point;

/// What an end for this reason says of the service. One that answers with a status that isn't taken doesn't keep its users waiting.
fn end_for(reason: Reason) -> ServiceEnd
    ensures { result ≡ end_for reason }
{
    match reason {
        Reason::ServiceRefused | Reason::ServiceBroken | Reason::ServiceDeadline => {
            ServiceEnd::Failed
        }
        Reason::ServiceStatus => ServiceEnd::Answered,
        _ => ServiceEnd::Untold,
    }
}

/// What a refusal before a message moves says of its service. Where a message is late that had no connection to it, it waited for others.
pub(crate) fn refusal_end(reason: Reason, is_leased: bool) -> ServiceEnd
    ensures { result ≡ refusal_end reason is_leased }
{
    if reason == Reason::ServiceDeadline && !is_leased {
        ServiceEnd::Untold
    } else {
        end_for(reason)
    }
}

/// What a message whose transaction is over came to at its service, whatever became of it elsewhere.
pub(crate) fn message_end(end: &MessageEnd<'_>) -> ServiceEnd
    ensures plain { is_plain end.now.seen.plan.kind ≡ true → result ≡ ServiceEnd.Untold }
    ensures answered { is_plain end.now.seen.plan.kind ≡ false → (end.now.seen.no_mod || end.now.seen.adapted_over) ≡ true → result ≡ ServiceEnd.Answered }
{
    let seen = &end.seen;
    if seen.plan.kind.is_plain() {
        return ServiceEnd::Untold;
    }
    if seen.no_mod || seen.adapted_over {
        return ServiceEnd::Answered;
    }
    let Some(Outcome::Fail(cause)) = end.outcome else {
        return ServiceEnd::Untold;
    };
    match failed_word(cause, seen, evidence_of(end)) {
        Why::Failed(reason) => end_for(reason),
        _ => ServiceEnd::Untold,
    }
}

/// Tells the breaker of a point's service what a message, or a question, of the exchange under this key came to there at this moment.
pub(crate) fn tell_breaker<S: Shares, R: Wait>(
    shared: &S,
    rt: &R,
    key: usize,
    now: u64,
    point: Point,
    end: ServiceEnd,
) {
    let who = waiter_of(shared, key);
    shared.queues().breakers.end(rt, point, who, now, end);
}

/// Tells both breakers that the exchange under this key is over, whether it tried a service or not.
pub(crate) fn tell_breakers<S: Shares, R: Wait>(shared: &S, rt: &R, key: usize) {
    for point in POINTS {
        tell_breaker(shared, rt, key, 0, point, ServiceEnd::Untold);
    }
}
