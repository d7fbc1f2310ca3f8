//! The turns of a message's transaction.

ghost use Rattle.std.specs.Prelude.{◌≡◌, ◌⊎◌, ℕ, is_some, true, false, Bool, Option, IfOk};
ghost use Rattle.adapt_turn.specs.declared.turn.Side.{Side as AnySide};
ghost use Rattle.adapt_turn.specs.declared.turn.TurnAnswer.{TurnAnswer as AnyAnswer};
ghost use Rattle.shard_exchange.specs.declared.answers.Round.{Round as AnyRound};
ghost use Rattle.shard_message.specs.Outset.{IsLineAfter};
ghost use Rattle.shard_message.specs.Rounds.{Adds, ComesTo, IsRenewed, IsRound, IsTurned, MayRenew, ends_round, in_turn};

use crate::connection::ServiceConnection;
use crate::outside::Outside;
use adapt_sides::Scratch;
use adapt_turn::{Answering, Side, TurnAnswer, Tx};
use proxy_rules::{Accounting, Lasting, OwnEnds, Running, Wires};
use service_pool::LendFault;
use shard_exchange::Round;
use span_bank::{Bank, Ledgers};
use std::sync::Wait;
use trace_core::{Cause, Seen};

/// The turns of a transaction of the proxy's own sides.
pub trait Turning {
    // a turn of this side at this moment, and what it answered
    ghost turned: { ℕ → Self → AnySide → AnyAnswer → Self → Type 0 };

    // it is over
    ghost is_over: { Self → Bool };
}

impl<B: Ledgers, W: Wires> Turning for Running<B, W> {
    ghost use Rattle.std.specs.Prelude.{◌≡◌, ◌+◌, ◌≤◌, false};
    ghost use Rattle.trace_core.specs.declared.history.Cause.TheVariants.{Deadline};
    ghost use Rattle.adapt_hold.specs.Holding.{shows};
    ghost use Rattle.adapt_turn.specs.declared.turn.Outcome.TheVariants.{Fail};

    ghost turned = { λ now old side answer new. ⟦<Tx<B, OwnEnds<W>> as Answering>⟧.answers old.tx side new.tx answer × ⟦<Tx<B, OwnEnds<W>> as Answering>⟧.keeps old.tx side new.tx
        × ((shows old.tx.hold.history).closed ≡ false → old.tx.pace.last_moved + old.tx.pace.deadline ≤ now → new.tx.outcome ≡ Fail Deadline) };

    ghost is_over = { λ tx. (shows tx.tx.hold.history).closed };
}

/// The rounds of a transaction of the proxy's own sides.
pub trait Rounding<W: Wires> {
    // a round at this moment, and what it came to; where the request began anew, it did so over one of these connections
    ghost rounds: { (W.ServiceWire → Type 0) → ℕ → Self → Self → AnyRound → Type 0 };

    // what was so since a beginning is so since what this round makes of it
    ghost carries: { (W.ServiceWire → Type 0) → Self → Self → AnyRound → Type 0 };
}

impl<B: Ledgers, W: Wires> Rounding<W> for Running<B, W> {
    ghost use Rattle.std.specs.Prelude.{◌≡◌};
    ghost use Rattle.proxy_rules.specs.Since.{Snapshot};

    ghost rounds = { λ opened now old new round. ComesTo (IsRound (⟦<Running<B, W> as Turning>⟧.turned now) ⟦<Running<B, W> as Turning>⟧.is_over in_turn old)
        (λ mid. IsRenewed opened mid.tx.hold new.tx.hold new.tx.ends.service new.tx.outcome) new round };

    ghost carries = { λ opened old new round. (s : Snapshot W.SourceWire W.ServiceWire W.NextWire) → ⟦<Tx<B, OwnEnds<W>> as Accounting<W>>⟧.since s old.tx
        → (line : Option W.ServiceWire) × (given : Option W.ServiceWire) × IsLineAfter opened round s.line s.given line given × ⟦<Tx<B, OwnEnds<W>> as Accounting<W>>⟧.since (record s { line = line; given = given }) new.tx };
}

/// The bytes of bodies that the sides gave and took so far.
fn body_bytes(seen: &Seen) -> u64 {
    let came = seen.received.saturating_add(seen.adapted_received);
    let offered = came.saturating_add(seen.sent);
    let delivered = seen
        .original_delivered
        .saturating_add(seen.adapted_delivered);
    offered.saturating_add(delivered)
}

/// What a turn with this answer comes to. `bodies` is what `body_bytes` said before the turn; where bytes moved, it becomes what that says
/// now.
fn after_turn<B: Ledgers, W: Wires>(
    tx: &Running<B, W>,
    answer: TurnAnswer,
    bodies: &mut u64,
) -> Round
    ensures turned { IsTurned (⟦<Running<B, W> as Turning>⟧.is_over tx.now) answer result }
    ensures broken { result ≡ Round.Broken → answer ≡ TurnAnswer.Broken }
{
    if tx.outcome().is_some() {
        return Round::Over;
    }
    match answer {
        TurnAnswer::Moved(count) => {
            let before = *bodies;
            *bodies = body_bytes(&tx.seen());
            let of_bodies = bodies.saturating_sub(before);
            Round::Moved {
                framing: count.saturating_sub(of_bodies),
            }
        }
        TurnAnswer::Waiting => Round::Waiting,
        TurnAnswer::Broken => Round::Broken,
        TurnAnswer::Finished(_) => Round::Over,
    }
}

/// What a turn and those after it come to.
fn joined(turned: Round, rest: Round) -> Round
    requires { ends_round turned ≡ false }
    ensures adds { Adds turned rest result }
    ensures broken { result ≡ Round.Broken → rest ≡ Round.Broken }
{
    match (turned, rest) {
        (Round::Moved { framing }, Round::Moved { framing: more }) => Round::Moved {
            framing: framing.saturating_add(more),
        },
        (Round::Moved { framing }, Round::Waiting) => Round::Moved { framing },
        (_, rest) => rest,
    }
}

/// Whether no further turn follows one that came to this.
fn ends(turned: Round) -> bool
    ensures { result ≡ ends_round turned }
{
    matches!(turned, Round::Over | Round::Broken)
}

/// A turn of each of these sides, up to the first one with which the transaction is over or broken: nothing more is written then. `bodies`
/// goes from turn to turn.
fn turn_each<B: Ledgers, W: Wires, R: Wait>(
    rt: &R,
    bank: &Bank<B>,
    tx: &mut Running<B, W>,
    scratch: &mut Scratch,
    sides: &[Side],
    now: u64,
    bodies: &mut u64,
) -> Round
    ensures turns { IsRound (⟦<Running<B, W> as Turning>⟧.turned now) ⟦<Running<B, W> as Turning>⟧.is_over sides.now tx.old tx.new result }
    ensures broken { result ≡ Round.Broken → MayRenew tx.new.tx.pace tx.new.tx.hold }
    ensures lasts { ⟦<Tx<B, OwnEnds<W>> as Lasting<W>>⟧.lasts (λ s. s) tx.old.tx tx.new.tx }
{
    match sides {
        [] => Round::Waiting,
        [side, later @ ..] => {
            let answer = tx.turn(rt, bank, scratch, *side, now);
            let turned = after_turn(tx, answer, bodies);
            if ends(turned) {
                return turned;
            }
            let rest = turn_each(rt, bank, tx, scratch, later, now, bodies);
            joined(turned, rest)
        }
    }
}

/// A fresh connection in place of a leased one that broke and is closed, where one may be had.
fn fresh<P, O: Outside<P>>(
    at: &P,
    out: &mut O,
    connection: &mut Option<ServiceConnection<O>>,
    may: bool,
) -> Result<O::Service, LendFault>
    ensures leased { is_some connection.new ≡ is_some connection.old }
    ensures may { IfOk result (λ _. may ≡ true) }
    ensures opened { IfOk result (λ wire. O.is_opened out.new at.now wire) }
{
    if !may {
        return Err(LendFault::Unreached);
    }
    match connection {
        Some(connection) => out.reopen(at, &mut connection.lease),
        None => Err(LendFault::Unreached),
    }
}

/// Has a request whose service's connection broke begin anew on a fresh one, where one may be had. Else it fails. The broken one is closed first:
/// its descriptor is the one that the fresh one finds.
fn renew<P, O: Outside<P>, W: Wires<ServiceWire = O::Service>, R: Wait>(
    rt: &R,
    at: &P,
    out: &mut O,
    tx: &mut Running<O::Ledgers, W>,
    connection: &mut Option<ServiceConnection<O>>,
    may: bool,
) -> Round
    requires broken { MayRenew tx.old.tx.pace tx.old.tx.hold }
    ensures leased { is_some connection.new ≡ is_some connection.old }
    ensures renewed { result ≡ Round.Broken → may ≡ true }
    ensures anew { IsRenewed (O.is_opened out.new at.now) tx.old.tx.hold tx.new.tx.hold tx.new.tx.ends.service tx.new.tx.outcome result }
    ensures carries { ⟦<Running<O::Ledgers, W> as Rounding<W>>⟧.carries (O.is_opened out.new at.now) tx.old tx.new result }
{
    drop(tx.take_broken());
    match fresh(at, out, connection, may) {
        Ok(wire) => {
            drop(tx.retry(rt, out.bank(), wire));
            return Round::Broken;
        }
        Err(LendFault::NoMemory) => tx.fail_unretried(rt, out.bank(), Cause::Memory),
        Err(_) => tx.fail_unretried(rt, out.bank(), Cause::Service),
    }
    Round::Over
}

/// A round of a transaction. Where the service's connection broke, the request begins anew on a fresh one, if it may.
pub(crate) fn round_of<P, O: Outside<P>, W: Wires<ServiceWire = O::Service>, R: Wait>(
    rt: &R,
    at: &P,
    out: &mut O,
    tx: &mut Running<O::Ledgers, W>,
    connection: &mut Option<ServiceConnection<O>>,
    scratch: &mut Scratch,
    may_renew: bool,
) -> Round
    ensures leased { is_some connection.new ≡ is_some connection.old }
    ensures renewed { result ≡ Round.Broken → may_renew ≡ true }
    ensures turns { (now : ℕ) × O.now_is out.old at.now now × ⟦<Running<O::Ledgers, W> as Rounding<W>>⟧.rounds (O.is_opened out.new at.now) now tx.old tx.new result }
    ensures carries { ⟦<Running<O::Ledgers, W> as Rounding<W>>⟧.carries (O.is_opened out.new at.now) tx.old tx.new result }
{
    let now = out.now(at);
    let sides = [Side::Source, Side::Service, Side::NextHop];
    let mut bodies = body_bytes(&tx.seen());
    match turn_each(rt, out.bank(), tx, scratch, &sides, now, &mut bodies) {
        Round::Broken => renew(rt, at, out, tx, connection, may_renew),
        round => round,
    }
}
