//! Why a message didn't come through, and what became of it, as its history shows.

ghost use Rattle.std.specs.Prelude.{◌≡◌};
ghost use Rattle.shard_report.specs.Reasons.{verdict_of, next_hop_owes, late_of, taker, failed_word};

use exchange_report::{Reason, Reply, Verdict, Why};
use trace_core::{Cause, Point, Seen};

/// What became of a message, as its history shows.
pub fn verdict_of(seen: &Seen) -> Verdict
    ensures { result ≡ verdict_of seen.now }
{
    Verdict {
        retried: seen.retried,
        continued: seen.continued,
        reply: if seen.plan.kind.is_plain() {
            Reply::Plain
        } else if seen.no_mod {
            Reply::Unchanged
        } else if seen.modified {
            Reply::Changed
        } else {
            Reply::Missing
        },
    }
}

/// Whether bytes of the chosen message came that the next hop hasn't taken.
fn is_next_hop_late(seen: &Seen) -> bool
    ensures { result ≡ next_hop_owes seen.now }
{
    if seen.plan.kind.is_plain() || seen.no_mod {
        seen.original_delivered < seen.received
    } else {
        seen.adapted_delivered < seen.adapted_received
    }
}

/// Who let a deadline pass: who gets the message takes no byte, the source owes some, or the service an answer.
fn late_of(seen: &Seen, to_user: bool) -> Reason
    ensures { result ≡ late_of seen.now to_user }
{
    let offered = !seen.plan.kind.is_plain();
    let served = !offered || seen.no_mod || seen.adapted_over;
    let source_owes = !seen.ended && (served || !seen.last_stop && seen.sent == seen.received);
    if is_next_hop_late(seen) {
        return taker(to_user);
    }
    match seen.plan.point {
        Point::Reqmod if source_owes => Reason::UserDeadline,
        Point::Respmod if source_owes => Reason::OriginDeadline,
        _ if !served => Reason::ServiceDeadline,
        _ => taker(to_user),
    }
}

/// That who gets the message let a deadline pass.
fn taker(to_user: bool) -> Reason
    ensures { result ≡ taker to_user }
{
    if to_user {
        Reason::UserDeadline
    } else {
        Reason::OriginDeadline
    }
}

/// What of a transaction tells why it failed, beside its history.
#[derive(Clone, Copy)]
pub struct Evidence {
    /// Why the service failed, if it did.
    pub service: Reason,
    /// Whether nothing went over the connection to the next hop.
    pub next_is_fresh: bool,
    /// Whether its message goes to the user: an answer, of the origin or of a service.
    pub to_user: bool,
}

/// Why a transaction failed.
pub fn failed_word(cause: Cause, seen: &Seen, evidence: Evidence) -> Why
    ensures { result ≡ failed_word cause seen.now evidence }
{
    let point = seen.plan.point;
    let reason = match cause {
        Cause::NextHop if evidence.to_user => return Why::UserGone,
        Cause::Source if point == Point::Reqmod => Reason::RequestBroken,
        Cause::NextHop if evidence.next_is_fresh => Reason::OriginRefused,
        Cause::Source | Cause::NextHop => Reason::OriginBroken,
        Cause::Service => evidence.service,
        Cause::Memory => Reason::NoMemory,
        Cause::Deadline => late_of(seen, evidence.to_user),
        Cause::Stopping => Reason::Stopping,
    };
    Why::Failed(reason)
}
