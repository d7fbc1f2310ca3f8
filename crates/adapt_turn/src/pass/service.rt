//! A pass of the service's side.

ghost use Rattle.std.specs.Prelude.{◌≡◌, ℕ, true, false, List, Some, [], length, None};
ghost use Rattle.trace_core.specs.declared.history.Cause.{Cause};
ghost use Rattle.trace_core.specs.declared.history.Seen.{Seen};
ghost use Rattle.adapt_hold.specs.Holding.{shows, IsRoomy, IsTied, moved};
ghost use Rattle.adapt_turn.specs.Reports.{Breaks, HasFaultReason, lending, HearReported, service_room, SendReported, service_cause};
ghost use Rattle.adapt_turn.specs.Passes.{ServicePasses, ServiceEndPasses};
ghost use Rattle.trace_core.specs.declared.history.Event.TheVariants.{Fail};
ghost use Rattle.adapt_sides.specs.declared.fault.ClientFault.TheVariants.{Device};

use crate::ends::ServiceEnd;
use crate::pass::{PassAnswer, close, idle, went_on};
use adapt_hold::{Hold, step_all};
use adapt_sides::{ClientFault, MAX_FILL, Scratch, Service, WIRE_ROOM};
use span_bank::{Bank, Ledgers};
use std::sync::Wait;
use trace_core::{Cause, Event};
use wire_kit::Wire;

/// A pass of the service's side. Nothing is due where there is no service, or its connection was given up.
pub(crate) fn service_pass<B: Ledgers, V: Service, W: Wire>(
    rt: &impl Wait,
    bank: &Bank<B>,
    hold: &mut Hold<B>,
    service: &mut Option<ServiceEnd<V, W>>,
    scratch: &mut Scratch,
    reused: bool,
) -> PassAnswer
    requires running { (shows hold.old.history).closed ≡ false }
    requires roomy { IsRoomy hold.old }
    ensures passes { ServiceEndPasses V.Service W.Wire reused hold.old service.old hold.new service.new result }
    ensures roomy { IsRoomy hold.new }
{
    match service {
        Some(line) => match &mut line.wire {
            Some(wire) => held_pass(rt, bank, hold, &mut line.side, wire, scratch, reused),
            None => idle(),
        },
        None => idle(),
    }
}

/// A pass over a connection that is held: it writes what is due, and then reads.
fn held_pass<B: Ledgers, V: Service, W: Wire>(
    rt: &impl Wait,
    bank: &Bank<B>,
    hold: &mut Hold<B>,
    service: &mut V,
    wire: &mut W,
    scratch: &mut Scratch,
    reused: bool,
) -> PassAnswer
    requires running { (shows hold.old.history).closed ≡ false }
    requires roomy { IsRoomy hold.old }
    ensures passes { ServicePasses V.Service W.Wire reused (lending hold.old service.old wire.old) (lending hold.new service.new wire.new) result }
    ensures roomy { IsRoomy hold.new }
{
    // For the proof alone: a state is that of its history.
    let _state = hold.state();
    let sent = send(rt, bank, hold, service, wire, &mut scratch.wire, reused);
    if sent.broken {
        return sent;
    }
    if is_closed(hold) {
        return sent;
    }
    let heard = hear(
        rt,
        bank,
        hold,
        service,
        wire,
        &mut scratch.body,
        &mut scratch.wire,
        reused,
    );
    PassAnswer {
        waiting: sent.waiting && heard.waiting,
        failed: heard.failed,
        broken: heard.broken,
    }
}

/// Whether Done or Fail stands.
fn is_closed<B: Ledgers>(hold: &Hold<B>) -> bool
    ensures closed { result ≡ (shows hold.now.history).closed }
    ensures tied { IsTied hold.now }
{
    hold.state().is_closed()
}

/// Reads what the service answered, into as much of the buffer as there is room for.
#[tactic(auto, using(crate::proofs::Paced::service_fits))]
fn hear<B: Ledgers, V: Service, W: Wire>(
    rt: &impl Wait,
    bank: &Bank<B>,
    hold: &mut Hold<B>,
    service: &mut V,
    wire: &mut W,
    body: &mut [u8; MAX_FILL],
    buffer: &mut [u8; WIRE_ROOM],
    reused: bool,
) -> PassAnswer
    requires running { (shows hold.old.history).closed ≡ false }
    requires roomy { IsRoomy hold.old }
    ensures reports { HearReported V.Service W.Wire (lending hold.old service.old wire.old) (lending hold.new service.new wire.new) result }
    ensures reason { HasFaultReason (V.fault service.old) (V.fault service.new) (λ fault. V.has_reason fault (shows hold.old.history) service.new) }
    ensures sent { (request came taken : List ℕ) → V.has_sent request (shows hold.old.history) came taken service.old → V.has_sent request (shows hold.old.history) came taken service.new }
    ensures rests { (x : Seen) → V.rests_writing x service.old → V.rests_writing x service.new }
    ensures head { (shows hold.old.history).modified ≡ true → V.adapted_head service.new ≡ V.adapted_head service.old }
    ensures response { (shows hold.old.history).modified ≡ true → V.is_response service.new ≡ V.is_response service.old }
    ensures roomy { IsRoomy hold.new }
    ensures unbroken { (cause : Cause) → result.failed ≡ Some cause → Breaks hold.old.history reused (V.fault service.new) → ⊥ }
    ensures breaks { result.broken ≡ true → Breaks hold.new.history reused (V.fault service.new) }
{
    let state = hold.state();
    let room = hold.adapted_room() as usize;
    let out = &mut body[..room];
    match service.read_turn(state, wire, out, buffer) {
        Ok(turn) => {
            step_all(rt, bank, hold, turn.events.as_slice(), out);
            went_on(turn.waiting)
        }
        Err(fault) => service_failed(rt, bank, hold, fault, reused),
    }
}

/// Writes what is due to the service.
pub(crate) fn send<B: Ledgers, V: Service, W: Wire>(
    rt: &impl Wait,
    bank: &Bank<B>,
    hold: &mut Hold<B>,
    service: &mut V,
    wire: &mut W,
    buffer: &mut [u8; WIRE_ROOM],
    reused: bool,
) -> PassAnswer
    requires running { (shows hold.old.history).closed ≡ false }
    requires roomy { IsRoomy hold.old }
    ensures reports { SendReported V.Service W.Wire (lending hold.old service.old wire.old) (lending hold.new service.new wire.new) result }
    ensures reason { HasFaultReason (V.fault service.old) (V.fault service.new) (λ fault. fault ≡ Device) }
    ensures heard { (x : Seen) (adapted read : List ℕ) → V.has_heard x adapted read service.old → V.has_heard x adapted read service.new }
    ensures head { V.adapted_head service.new ≡ V.adapted_head service.old }
    ensures response { V.is_response service.new ≡ V.is_response service.old }
    ensures roomy { IsRoomy hold.new }
    ensures whole { result.waiting ≡ true → result.broken ≡ false }
    ensures unbroken { (cause : Cause) → result.failed ≡ Some cause → Breaks hold.old.history reused (V.fault service.new) → ⊥ }
    ensures breaks { result.broken ≡ true → Breaks hold.new.history reused (V.fault service.new) }
{
    let state = hold.state();
    let tape = hold.original();
    match service.write_turn(state, tape, wire, buffer) {
        Ok(turn) => {
            step_all(rt, bank, hold, turn.events.as_slice(), &[]);
            went_on(turn.waiting)
        }
        Err(fault) => service_failed(rt, bank, hold, fault, reused),
    }
}

/// Whether the request may begin anew on a fresh connection, where this fault broke the one.
fn may_begin_anew<B: Ledgers>(hold: &Hold<B>, fault: ClientFault, reused: bool) -> bool
    ensures may { result ≡ true → Breaks hold.now.history reused (Some fault) }
    ensures may_not { result ≡ false → Breaks hold.now.history reused (Some fault) → ⊥ }
{
    matches!(fault, ClientFault::Closed | ClientFault::Device)
        && reused
        && hold.state().may(Event::Retry)
}

/// What a fault of the service does: it closes the transaction, or the request may begin anew.
fn service_failed<B: Ledgers>(
    rt: &impl Wait,
    bank: &Bank<B>,
    hold: &mut Hold<B>,
    fault: ClientFault,
    reused: bool,
) -> PassAnswer
    requires running { (shows hold.old.history).closed ≡ false }
    requires roomy { IsRoomy hold.old }
    ensures broken { result.broken ≡ true → (hold.new ≡ hold.old) × (result ≡ record { waiting = false; failed = None; broken = true }) }
    ensures breaks { result.broken ≡ true → Breaks hold.new.history reused (Some fault) }
    ensures closed { result.broken ≡ false → (hold.new ≡ moved hold.old (Fail (service_cause fault)) []) × (result ≡ record { waiting = false; failed = Some (service_cause fault); broken = false }) }
    ensures unbroken { result.broken ≡ false → Breaks hold.old.history reused (Some fault) → ⊥ }
    ensures roomy { IsRoomy hold.new }
{
    if may_begin_anew(hold, fault, reused) {
        PassAnswer {
            waiting: false,
            failed: None,
            broken: true,
        }
    } else {
        close(rt, bank, hold, service_cause(fault))
    }
}

/// The cause that a fault of the service is.
pub(crate) fn service_cause(fault: ClientFault) -> Cause
    ensures { result ≡ service_cause fault }
{
    match fault {
        ClientFault::NoMemory => Cause::Memory,
        _ => Cause::Service,
    }
}
