//! A pass of the source's side.

ghost use Rattle.std.specs.Prelude.{◌≡◌, false, length};
ghost use Rattle.adapt_hold.specs.Holding.{shows, IsRoomy};
ghost use Rattle.adapt_turn.specs.Reports.{HasFaultReason, lending, SourceReported, source_room, source_cause};
ghost use Rattle.adapt_turn.specs.Passes.{SourcePasses};

use crate::pass::{PassAnswer, close, went_on};
use adapt_hold::{Hold, step_all};
use adapt_sides::{MAX_FILL, RelayFault, Scratch, Source, WIRE_ROOM};
use span_bank::{Bank, Ledgers};
use std::sync::Wait;
use trace_core::Cause;
use wire_kit::Wire;

/// A pass of the source's side. A source whose numbers aren't those of the history is no message of this transaction.
pub(crate) fn source_pass<B: Ledgers, S: Source, A: Wire>(
    rt: &impl Wait,
    bank: &Bank<B>,
    hold: &mut Hold<B>,
    source: &mut S,
    wire: &mut A,
    scratch: &mut Scratch,
) -> PassAnswer
    requires running { (shows hold.old.history).closed ≡ false }
    requires roomy { IsRoomy hold.old }
    ensures passes { SourcePasses S.Source A.Wire (lending hold.old source.old wire.old) (lending hold.new source.new wire.new) result }
    ensures roomy { IsRoomy hold.new }
{
    let state = hold.state();
    if source.agrees_with(state) {
        read_source(
            rt,
            bank,
            hold,
            source,
            wire,
            &mut scratch.body,
            &mut scratch.wire,
        )
    } else {
        close(rt, bank, hold, Cause::Source)
    }
}

/// Reads of a source whose numbers are those of the history, into as much of the buffer as there is room for.
#[tactic(auto, using(crate::proofs::Paced::source_fits))]
fn read_source<B: Ledgers, S: Source, A: Wire>(
    rt: &impl Wait,
    bank: &Bank<B>,
    hold: &mut Hold<B>,
    source: &mut S,
    wire: &mut A,
    body: &mut [u8; MAX_FILL],
    buffer: &mut [u8; WIRE_ROOM],
) -> PassAnswer
    requires running { (shows hold.old.history).closed ≡ false }
    requires roomy { IsRoomy hold.old }
    requires agrees { S.agrees (shows hold.old.history) source.old }
    ensures reports { SourceReported S.Source A.Wire (lending hold.old source.old wire.old) (lending hold.new source.new wire.new) result }
    ensures reason { HasFaultReason (S.fault source.old) (S.fault source.new) (λ fault. S.has_reason fault source.new) }
    ensures head { S.head source.new ≡ S.head source.old }
    ensures whole { result.broken ≡ false }
    ensures roomy { IsRoomy hold.new }
{
    // For the proof alone: a state is that of its history.
    let _state = hold.state();
    let room = hold.original_room() as usize;
    let out = &mut body[..room];
    match source.read_turn(wire, out, buffer) {
        Ok(turn) => {
            step_all(rt, bank, hold, turn.events.as_slice(), out);
            went_on(turn.waiting)
        }
        Err(fault) => close(rt, bank, hold, source_cause(fault)),
    }
}

/// The cause that a fault of the source is.
pub(crate) fn source_cause(fault: RelayFault) -> Cause
    ensures { result ≡ source_cause fault }
{
    match fault {
        RelayFault::NoMemory => Cause::Memory,
        _ => Cause::Source,
    }
}
