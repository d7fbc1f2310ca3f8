//! A pass of the side that the chosen message goes to.

ghost use Rattle.std.specs.Prelude.{◌≡◌, true, false, IfOk, IfErr, Some};
ghost use Rattle.adapt_sides.specs.Turns.Gift.{nothing};
ghost use Rattle.adapt_hold.specs.Holding.{shows, IsRoomy, IsTied};
ghost use Rattle.adapt_turn.specs.ChosenHead.{MakesAt, MakesNoneAt, response_of, is_reqmod, answers_user};
ghost use Rattle.adapt_turn.specs.Passes.{Begins, GivesOne, NextPasses, choice_of, writers};
ghost use Rattle.adapt_turn.specs.Stands.{IsChosen, chosen_span};
ghost use Rattle.adapt_hold.specs.Spans.{span_of};
ghost use Rattle.adapt_sides.specs.declared.fault.RelayFault.{RelayFault as Fault};
ghost use Rattle.adapt_sides.specs.Turns.{FailsGiving};
ghost use Rattle.adapt_turn.specs.Reports.{HasFaultReason, lending, HopReported, hop_cause};

use crate::ends::{EndTypes, ServiceEnd};
use crate::head::MakesHead;
use crate::pass::{PassAnswer, close, idle, went_on};
use adapt_hold::{Hold, step_all};
use adapt_sides::{Hop, RelayFault, Service, Source, WIRE_ROOM};
use span_bank::{Bank, Ledgers};
use span_tape::SpanTape;
use std::alloc::Global;
use std::sync::Wait;
use trace_core::{Cause, Point};
use wire_kit::Wire;

/// A pass of the next hop's side: nothing is due before a message is chosen. The first pass after that begins the message, on the
/// writer back to the user where it answers the user, else on the next hop's.
pub(crate) fn next_pass<B: Ledgers, E: EndTypes>(
    rt: &impl Wait,
    bank: &Bank<B>,
    alloc: Global,
    hold: &mut Hold<B>,
    maker: &mut E::Maker,
    source: &E::Reader,
    service: &Option<ServiceEnd<E::Client, E::ServiceWire>>,
    next: &mut E::Writer,
    next_wire: &mut E::NextWire,
    back: &mut E::Writer,
    back_wire: &mut E::SourceWire,
    buffer: &mut [u8; WIRE_ROOM],
) -> PassAnswer
    requires running { (shows hold.old.history).closed ≡ false }
    requires roomy { IsRoomy hold.old }
    ensures passes { NextPasses E.Writer.Hop E.SourceWire.Wire E.NextWire.Wire (choice_of E.Maker.MakesHead E.Client.Service maker.old maker.new (E.Reader.head source.now) service.now (shows hold.old.history))
        (writers hold.old next.old next_wire.old back.old back_wire.old) (writers hold.new next.new next_wire.new back.new back_wire.new) result }
    ensures roomy { IsRoomy hold.new }
{
    // For the proof alone: a state is that of its history.
    let _state = hold.state();
    if !is_chosen(hold) {
        return idle();
    }
    match begin::<B, E>(alloc, hold, maker, source, service, next, back) {
        Ok(()) => give_pass(rt, bank, hold, next, next_wire, back, back_wire, buffer),
        Err(cause) => close(rt, bank, hold, cause),
    }
}

/// Whether a message is chosen for the next hop.
fn is_chosen<B: Ledgers>(hold: &Hold<B>) -> bool
    ensures chosen { result ≡ true → IsChosen (shows hold.now.history) }
    ensures unchosen { result ≡ false → IsChosen (shows hold.now.history) → ⊥ }
{
    let state = hold.state();
    state.chooses_original() || state.seen().modified
}

/// Begins the chosen message, if no message is begun, or says why its head couldn't be made.
fn begin<B: Ledgers, E: EndTypes>(
    alloc: Global,
    hold: &Hold<B>,
    maker: &mut E::Maker,
    source: &E::Reader,
    service: &Option<ServiceEnd<E::Client, E::ServiceWire>>,
    next: &mut E::Writer,
    back: &mut E::Writer,
) -> Result<(), Cause>
    ensures begun { IfOk result (λ _. Begins E.Writer.Hop (choice_of E.Maker.MakesHead E.Client.Service maker.old maker.new (E.Reader.head source.now) service.now (shows hold.now.history)) next.old back.old next.new back.new) }
    ensures none { IfErr result (λ cause. MakesNoneAt E.Maker.MakesHead E.Client.Service maker.old (E.Reader.head source.now) service.now (shows hold.now.history) cause) }
    ensures unbegun { IfErr result (λ cause. (E.Writer.gift next.old ≡ nothing) × (E.Writer.gift back.old ≡ nothing) × (next.new ≡ next.old) × (back.new ≡ back.old)) }
{
    if !next.is_idle() {
        return Ok(());
    }
    if !back.is_idle() {
        return Ok(());
    }
    let answers = answers_user(hold, service);
    match forwarded::<B, E>(alloc, maker, hold, source, service) {
        Ok((head, framing)) => {
            if answers {
                back.begin(head, framing);
            } else {
                next.begin(head, framing);
            }
            Ok(())
        }
        Err(cause) => Err(cause),
    }
}

/// Whether the adapted message is an answer to the user, though a request was offered.
pub(crate) fn answers_user<B: Ledgers, V: Service, W>(
    hold: &Hold<B>,
    service: &Option<ServiceEnd<V, W>>,
) -> bool
    ensures { result ≡ answers_user (shows hold.now.history) (response_of V.is_response service.now) }
{
    let seen = hold.state().seen();
    match service {
        Some(line) => line.side.is_response() && seen.modified && is_reqmod(seen.plan.point),
        None => false,
    }
}

/// Whether requests are offered here.
fn is_reqmod(point: Point) -> bool
    ensures { result ≡ is_reqmod point }
{
    matches!(point, Point::Reqmod)
}

/// The head of the chosen message, and how its body goes.
fn forwarded<B: Ledgers, E: EndTypes>(
    alloc: Global,
    maker: &mut E::Maker,
    hold: &Hold<B>,
    source: &E::Reader,
    service: &Option<ServiceEnd<E::Client, E::ServiceWire>>,
) -> Result<(Vec<u8>, <E::Writer as Hop>::Framing), Cause>
    ensures made { IfOk result (λ made. MakesAt E.Maker.MakesHead E.Client.Service maker.new (E.Reader.head source.now) service.now (shows hold.now.history) made.0.items made.1) }
    ensures none { IfErr result (λ cause. MakesNoneAt E.Maker.MakesHead E.Client.Service maker.old (E.Reader.head source.now) service.now (shows hold.now.history) cause) }
    ensures tied { IsTied hold.now }
{
    let state = hold.state();
    match service {
        Some(line) if state.seen().modified => maker.forward(
            alloc,
            state,
            source,
            line.side.adapted_head(),
            line.side.is_response(),
        ),
        _ => maker.forward(alloc, state, source, None, false),
    }
}

/// A pass of the message's writer, which was begun.
fn give_pass<B: Ledgers, K: Hop, A: Wire, C: Wire>(
    rt: &impl Wait,
    bank: &Bank<B>,
    hold: &mut Hold<B>,
    next: &mut K,
    next_wire: &mut C,
    back: &mut K,
    back_wire: &mut A,
    buffer: &mut [u8; WIRE_ROOM],
) -> PassAnswer
    requires running { (shows hold.old.history).closed ≡ false }
    requires chosen { IsChosen (shows hold.old.history) }
    requires roomy { IsRoomy hold.old }
    ensures gives { GivesOne K.Hop A.Wire C.Wire (writers hold.old next.old next_wire.old back.old back_wire.old) (writers hold.new next.new next_wire.new back.new back_wire.new) result }
    ensures roomy { IsRoomy hold.new }
{
    if back.is_idle() {
        give(rt, bank, hold, next, next_wire, buffer)
    } else {
        give(rt, bank, hold, back, back_wire, buffer)
    }
}

/// Gives a next hop what it takes of the chosen message.
pub(crate) fn give<B: Ledgers, K: Hop, W: Wire>(
    rt: &impl Wait,
    bank: &Bank<B>,
    hold: &mut Hold<B>,
    hop: &mut K,
    wire: &mut W,
    buffer: &mut [u8; WIRE_ROOM],
) -> PassAnswer
    requires running { (shows hold.old.history).closed ≡ false }
    requires chosen { IsChosen (shows hold.old.history) }
    requires roomy { IsRoomy hold.old }
    ensures reports { HopReported K.Hop W.Wire (lending hold.old hop.old wire.old) (lending hold.new hop.new wire.new) result }
    ensures reason { HasFaultReason (K.fault hop.old) (K.fault hop.new) (FailsGiving (K.breaks_length (shows hold.old.history) (K.body_framing hop.new))) }
    ensures again { (had : Fault) → K.fault hop.old ≡ Some had → result.failed ≡ Some (hop_cause had) }
    ensures gift { K.gift hop.new ≡ K.gift hop.old }
    ensures framing { K.body_framing hop.new ≡ K.body_framing hop.old }
    ensures whole { result.broken ≡ false }
    ensures roomy { IsRoomy hold.new }
{
    let state = hold.state();
    let tape = tape_of(hold);
    match hop.write_turn(state, tape, wire, buffer) {
        Ok(turn) => {
            step_all(rt, bank, hold, turn.events.as_slice(), &[]);
            went_on(turn.waiting)
        }
        Err(fault) => close(rt, bank, hold, hop_cause(fault)),
    }
}

/// The tape of the chosen message.
pub(crate) fn tape_of<B: Ledgers>(hold: &Hold<B>) -> &SpanTape
    ensures tape { span_of result.now ≡ chosen_span hold.now }
    ensures tied { IsTied hold.now }
{
    if hold.state().chooses_original() {
        hold.original()
    } else {
        hold.adapted()
    }
}

/// The cause that a fault of the next hop is. A body of another length than its head said is the service's fault.
pub(crate) fn hop_cause(fault: RelayFault) -> Cause
    ensures { result ≡ hop_cause fault }
{
    match fault {
        RelayFault::NoMemory => Cause::Memory,
        RelayFault::Length => Cause::Service,
        _ => Cause::NextHop,
    }
}
