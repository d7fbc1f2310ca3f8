//! How an exchange is driven: step by step, until others get their turn.

ghost use Rattle.std.specs.Prelude.{◌≡◌, ◌+◌, ◌<◌, ◌≤◌, ◌⊎◌, true, false, cond, IfSome};
ghost use Rattle.slab.specs.Slab.{get};
ghost use Rattle.trace_core.specs.declared.history.Point.{Point as AnyPoint};
ghost use Rattle.shard_desk.specs.Driving.{Adds, Drives, IfBlocked, Leaves, Passes, is_round, weight};
ghost use Rattle.shard_desk.specs.Driving.Doing.{Did};
ghost use Rattle.shard_desk.specs.Seats.{sits_alone};
ghost use Rattle.shard_desk.specs.Sparing.{GivesWay, has_ended, is_gone};

use crate::exchanges::{Exchanges, Slotted};
use crate::seating::Seating;
use crate::seats::Seats;
use crate::spot::Spot;
use event_loop::{Driven, Stay};
use exchange_core::Phase;
use shard_exchange::{Step, Task};
use socket_wire::Dial;
use std::sync::Wait;
use std::time::Clock;
use trace_core::Point;
use wire_kit::Gate;

/// An exchange that has done so much at its connections in a drive, in steps that move bodies, goes on in the next turn of its loop only.
/// Each is one round of a transaction's turns at most.
const ROUNDS: u64 = 4;

/// This many bytes that moved and are no body's, as heads and what frames a body, take as long as a step that moves a body.
const FRAMING: u64 = 256;

/// The most steps of an exchange before others take theirs, with those that are made without its connections.
const STEPS: u32 = 2;

/// So often an exchange takes its steps in a drive where nobody else has a seat: as often as it would in the passes of a turn, with less on
/// the way.
const LONE_PASSES: u32 = 4;

/// What a user's connection is in the midst of, as far as it may be spared.
fn stay_of(phase: Phase) -> Stay {
    match phase {
        Phase::Idle => Stay::Idle,
        Phase::Head => Stay::Head,
        Phase::Closing | Phase::Gone => Stay::End,
        _ => Stay::Exchange,
    }
}

/// Whether the proxy says its last words to the user, or closes its connection.
fn is_ending(phase: Phase) -> bool {
    matches!(phase, Phase::Refusing { .. } | Phase::Closing | Phase::Gone)
}

/// Whether a step went on, and something moved that puts off the deadline.
fn has_moved(step: Step) -> bool {
    matches!(step, Step::On | Step::Turned { .. })
}

/// Whether a step here is one at a connection: a message is read, moves, or waits.
fn is_round(phase: Phase) -> bool
    ensures { result ≡ is_round phase }
{
    !matches!(
        phase,
        Phase::Planning { .. } | Phase::Preparing { .. } | Phase::AtGate { .. }
    )
}

/// What was noted of an exchange while it is driven.
#[derive(Clone, Copy)]
struct Happened {
    /// What its user's connection is in the midst of.
    stay: Option<Stay>,
    /// Whether the exchange went on: its seat was touched at this moment.
    went_on: bool,
    /// What was done at its connections in a pass, in steps that move bodies.
    rounds: u64,
}

impl Happened {
    ghost use Rattle.shard_desk.specs.Driving.{weight};

    /// Whether a step in this phase has to wait for the next turn of the loop. False where that isn't one at a connection.
    fn is_spent(&self, phase: Phase) -> bool
        ensures spent { result ≡ true → ROUNDS ≤ self.now.rounds }
        ensures room { result ≡ false → is_round phase ≡ true → self.now.rounds < ROUNDS }
    {
        is_round(phase) && self.rounds >= ROUNDS
    }

    /// How far an exchange came that has more to do after the last step of a drive: it pauses, or has done too much for that.
    fn unfinished(&self) -> Driven
        ensures paused { self.now.rounds < ROUNDS → result ≡ Driven.Paused }
        ensures spent { ROUNDS ≤ self.now.rounds → result ≡ Driven.CutShort }
    {
        if self.rounds < ROUNDS {
            Driven::Paused
        } else {
            Driven::CutShort
        }
    }

    /// Counts a step at a connection.
    fn count(&mut self, step: Step)
        requires { self.old.rounds < ROUNDS }
        ensures counted { self.new.rounds ≡ self.old.rounds + weight step }
        ensures kept { (self.new.stay ≡ self.old.stay) × (self.new.went_on ≡ self.old.went_on) }
    {
        let framed = match step {
            Step::Turned { framing } => framing / FRAMING,
            _ => 0,
        };
        self.rounds += 1 + framed;
    }
}

/// Takes note of where a step led. Where no message is under way any more, it is reported: no request was read, or its answer is over.
fn note_stay<S: Seating, R: Wait + Clock, G>(
    users: &mut S,
    at: &Spot<'_, R, G>,
    phase: Phase,
    noted: &mut Happened,
)
    ensures { noted.new.rounds ≡ noted.old.rounds }
{
    let stay = stay_of(phase);
    if noted.stay != Some(stay) {
        noted.stay = Some(stay);
        users.seats_mut().begin_stay(at.key, stay);
        if stay != Stay::Exchange {
            users.report(at.rt, at.key);
        }
    }
}

/// Takes note of the connections that an exchange in this phase awaits.
fn watch<R, G>(seats: &mut Seats, at: &Spot<'_, R, G>, phase: Phase) {
    let moves = matches!(phase, Phase::Moving { .. });
    let asks = matches!(phase, Phase::Asking { .. });
    seats.await_connections(at.key, at.now, moves, moves || asks);
}

/// Whether somebody waits in the queue for a connection to a service, and the exchange under this key has one.
fn is_awaited<S: Seating, R: Wait>(users: &S, rt: &R, key: usize) -> bool {
    match users.seats().leases(key) {
        Some(point) => users.awaits(rt, point),
        None => false,
    }
}

/// Whether the user of an exchange in this phase is lost: it is gone, or has ended its bytes in the way of others, who would wait for
/// their turn in the queue for a service's connection.
fn is_lost<S: Seating, R: Wait>(users: &S, rt: &R, key: usize, phase: Phase) -> bool
    ensures lost { result ≡ true → (is_gone (get (S.seats_of users.now).all key) ≡ true) ⊎ (has_ended (get (S.seats_of users.now).all key) ≡ true) }
    ensures found { is_gone (get (S.seats_of users.now).all key) ≡ true → result ≡ true }
{
    let seats = users.seats();
    seats.is_gone(key)
        || seats.has_ended(key)
            && (matches!(phase, Phase::InQueue { .. }) || is_awaited(users, rt, key))
}

/// The point to whose service an exchange in this phase may want a connection.
fn wanted_point(phase: Phase) -> Option<Point> {
    match phase {
        Phase::Asking { point }
        | Phase::InQueue { point }
        | Phase::Preparing {
            point,
            offered: true,
            ..
        } => Some(point),
        _ => None,
    }
}

/// The user of the thread that has ended its bytes, and has a connection to a service that an exchange in this phase wants, while none is
/// free. That user gives way to it.
fn in_way<S: Seating, R: Wait, G>(users: &S, at: &Spot<'_, R, G>, phase: Phase) -> Option<usize>
    ensures { IfSome result (λ other. (point : AnyPoint) × GivesWay (S.seats_of users.now) point other) }
{
    let point = wanted_point(phase)?;
    let key = users.seats().ended_with(point)?;
    if users.seats().leases(at.key).is_none() && users.lacks(at.rt, point) {
        Some(key)
    } else {
        None
    }
}

/// Takes note of a step of an exchange that was in the one phase before it, and is in the other one after it. One at a connection is
/// counted. Its seat is touched where it went on, and something moved; but what the proxy itself says at the end is written, and the
/// connection closed after it, within one deadline.
fn note_step<S: Seating, R: Wait + Clock, G>(
    users: &mut S,
    at: &Spot<'_, R, G>,
    before: Phase,
    after: Phase,
    step: Step,
    noted: &mut Happened,
)
    requires room { is_round before ≡ true → noted.old.rounds < ROUNDS }
    ensures counted { noted.new.rounds ≡ cond (is_round before) (noted.old.rounds + weight step) noted.old.rounds }
{
    if is_round(before) {
        noted.count(step);
    }
    if has_moved(step) && !noted.went_on && !is_ending(before) {
        noted.went_on = true;
        users.seats_mut().touch(at.key, at.now);
    }
    note_stay(users, at, after, noted);
    if after == Phase::Head && (step == Step::On || before == Phase::Idle) {
        users.seats_mut().begin_head(at.key, at.now);
    }
}

/// Has an exchange take its steps, until each of its connections waits, or others should get their turn. One whose user is lost ends, before
/// the next step at a connection. One that wants a connection which a user has that has ended its bytes goes on once that one is ended.
fn take_steps<E: Exchanges, R: Wait + Dial + Clock, G: Gate>(
    exchanges: &mut E,
    at: &Spot<'_, R, G>,
    exchange: &mut E::Exchange,
    noted: &mut Happened,
) -> Driven
    ensures passes { Passes (E.Exchange.past exchange.old) (E.Exchange.past exchange.new) result }
    ensures over { result ≡ Driven.Over → E.Exchange.is_over exchange.new ≡ true }
    ensures blocked { IfBlocked result (λ other. (point : AnyPoint) × GivesWay (E.Seating.seats_of (E.users_of exchanges.new)) point other) }
{
    noted.rounds = 0;
    for _taken in 0..STEPS {
        let phase = exchange.phase();
        if let Some(other) = in_way(exchanges.users(), at, phase) {
            return Driven::Blocked(other);
        }
        if is_round(phase) && is_lost(exchanges.users(), at.rt, at.key, phase) {
            exchanges.act(at, exchange, Task::Lose);
            return Driven::Over;
        }
        if noted.is_spent(phase) {
            return Driven::CutShort;
        }
        watch(exchanges.users_mut().seats_mut(), at, phase);
        // Here, and not in a function of its own: each one on the way down to a connection is a frame more.
        let step = exchanges.act(at, exchange, Task::Step);
        let after = exchange.phase();
        note_step(exchanges.users_mut(), at, phase, after, step, noted);
        match step {
            Step::On | Step::Turned { .. } | Step::Unmoved => {}
            Step::Waits => return Driven::Waiting,
            Step::Over => return Driven::Over,
        }
    }
    noted.unfinished()
}

/// Drives an exchange: it takes its steps, and where nobody else has a seat it takes them again, rather than pause for others. Nobody comes
/// meanwhile, so that is asked once.
pub(crate) fn drive_on<E: Exchanges, R: Wait + Dial + Clock, G: Gate>(
    exchanges: &mut E,
    at: &Spot<'_, R, G>,
    exchange: &mut E::Exchange,
) -> Driven
    ensures drives { Drives (sits_alone (E.Seating.seats_of (E.users_of exchanges.old))) (E.Exchange.past exchange.old) (E.Exchange.past exchange.new) result }
    ensures over { result ≡ Driven.Over → E.Exchange.is_over exchange.new ≡ true }
    ensures blocked { IfBlocked result (λ other. (point : AnyPoint) × GivesWay (E.Seating.seats_of (E.users_of exchanges.new)) point other) }
{
    let alone = exchanges.users().seats().sits_alone();
    let mut noted = Happened {
        stay: None,
        went_on: false,
        rounds: 0,
    };
    for _pass in 0..LONE_PASSES {
        let driven = take_steps(exchanges, at, exchange, &mut noted);
        if !alone || !driven.is_paused() {
            return driven;
        }
    }
    Driven::CutShort
}

/// Has the user of an exchange take its refusal at a stop, and drops what it still sends. `Over` where it is gone, or sends no more: then
/// nothing is held.
pub(crate) fn leave_on<E: Exchanges, R: Wait + Dial + Clock, G: Gate>(
    exchanges: &mut E,
    at: &Spot<'_, R, G>,
    exchange: &mut E::Exchange,
) -> Driven
    ensures leaves { Leaves (E.Exchange.past exchange.old) (E.Exchange.past exchange.new) result }
    ensures over { result ≡ Driven.Over → E.Exchange.is_over exchange.new ≡ true }
{
    if exchanges.users().seats().is_gone(at.key) {
        exchanges.act(at, exchange, Task::Lose);
        return Driven::Over;
    }
    match exchanges.act(at, exchange, Task::TakeLeave) {
        Step::Over => Driven::Over,
        Step::Waits => Driven::Waiting,
        Step::On | Step::Turned { .. } | Step::Unmoved => Driven::CutShort,
    }
}
