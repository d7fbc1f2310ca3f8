//! What the cause of a transaction's failure is to the course of its exchange.

ghost use Rattle.std.specs.Prelude.{◌≡◌};
ghost use Rattle.exchange_core.specs.Dues as dues;
ghost use Rattle.adapt_turn.specs.Refusals.{refusal_status};

use exchange_core::RefusalCause;
use trace_core::{Cause, Point};

/// Why the course of a message ends whose transaction failed by this cause: with the same status.
pub fn refusal_cause_after(cause: Cause, point: Point) -> RefusalCause
    ensures { dues.status_of result ≡ refusal_status cause point }
{
    match cause {
        Cause::Source if point == Point::Reqmod => RefusalCause::Faulty,
        Cause::Source | Cause::Service | Cause::NextHop => RefusalCause::Elsewhere,
        Cause::Memory => RefusalCause::Scarce,
        Cause::Deadline => RefusalCause::Deadline,
        Cause::Stopping => RefusalCause::Stopping,
    }
}
