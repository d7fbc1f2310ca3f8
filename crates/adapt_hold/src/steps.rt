//! Steps the events that a side reported, one after the other.

ghost use Rattle.std.specs.Prelude.{◌≡◌, ℕ, ◌+◌, ◌≤◌, true, false, length, []};
ghost use Rattle.trace_core.specs.declared.history.Event.TheVariants.{Fail};
ghost use Rattle.trace_core.specs.Legal.{MayFollow, IsLegal};
ghost use Rattle.plan_rules.specs.Room.{IsWithinRoom};
ghost use Rattle.adapt_hold.specs.Holding.{shows, moved, IsRoomy, Brings, BringsNone};
ghost use Rattle.adapt_hold.specs.Steps.{brought, MayRun, moved_all};

use crate::hold::Hold;
use span_bank::{Bank, Ledgers};
use std::sync::Wait;
use trace_core::{Cause, Event};

/// The body bytes that an event brings.
pub fn brought(event: Event) -> u64
    ensures { result ≡ brought event }
{
    match event {
        Event::In(n) | Event::Ad(n) => n,
        _ => 0,
    }
}

/// Takes an event without bytes.
pub fn go_on<B: Ledgers>(rt: &impl Wait, bank: &Bank<B>, hold: &mut Hold<B>, event: Event)
    requires none { BringsNone event }
    requires may { MayFollow hold.old.history.plan hold.old.history.events event }
    requires roomy { IsRoomy hold.old }
    ensures stepped { hold.new ≡ moved hold.old event [] }
    ensures roomy { IsRoomy hold.new }
{
    // For the proof alone: a state is that of its history.
    let _state = hold.state();
    match hold.move_on(rt, bank, event) {
        Ok(()) => {}
        Err(_) => unreachable!(),
    }
}

/// Ends the transaction.
pub fn fail<B: Ledgers>(rt: &impl Wait, bank: &Bank<B>, hold: &mut Hold<B>, cause: Cause)
    requires running { (shows hold.old.history).closed ≡ false }
    requires roomy { IsRoomy hold.old }
    ensures moved { hold.new ≡ moved hold.old (Fail cause) [] }
    ensures roomy { IsRoomy hold.new }
{
    go_on(rt, bank, hold, Event::Fail(cause));
}

/// Takes In or Ad with its bytes.
fn bring<B: Ledgers>(rt: &impl Wait, bank: &Bank<B>, hold: &mut Hold<B>, event: Event, bytes: &[u8])
    requires brings { Brings event bytes.now }
    requires may { MayFollow hold.old.history.plan hold.old.history.events event }
    requires room { IsWithinRoom (shows hold.old.history) hold.old.claim hold.old.limits.window hold.old.limits.turn event }
    requires roomy { IsRoomy hold.old }
    ensures stepped { hold.new ≡ moved hold.old event bytes.now }
    ensures roomy { IsRoomy hold.new }
{
    // For the proof alone: a state is that of its history.
    let _state = hold.state();
    match hold.put_in(rt, bank, event, bytes) {
        Ok(()) => {}
        Err(_) => unreachable!(),
    }
}

/// Takes one event with its bytes, if any.
pub fn step_one<B: Ledgers>(
    rt: &impl Wait,
    bank: &Bank<B>,
    hold: &mut Hold<B>,
    event: Event,
    bytes: &[u8],
)
    requires carried { length bytes.now ≡ brought event }
    requires may { MayFollow hold.old.history.plan hold.old.history.events event }
    requires room { IsWithinRoom (shows hold.old.history) hold.old.claim hold.old.limits.window hold.old.limits.turn event }
    requires roomy { IsRoomy hold.old }
    ensures stepped { hold.new ≡ moved hold.old event bytes.now }
    ensures roomy { IsRoomy hold.new }
{
    match event {
        Event::In(_) | Event::Ad(_) => bring(rt, bank, hold, event, bytes),
        _ => go_on(rt, bank, hold, event),
    }
}

/// Takes events in their order; `bytes` are those of all of them, one after the other.
#[inline(always)]
pub fn step_all<B: Ledgers>(
    rt: &impl Wait,
    bank: &Bank<B>,
    hold: &mut Hold<B>,
    events: &[Event],
    bytes: &[u8],
)
    requires { MayRun hold.old events.now bytes.now }
    ensures stepped { hold.new ≡ moved_all hold.old events.now bytes.now }
    ensures roomy { IsRoomy hold.new }
{
    // For the proof alone: a state is that of its history.
    let _state = hold.state();
    match events {
        [] => {}
        [event, rest @ ..] => {
            let (own, others) = bytes.split_at(brought(*event) as usize);
            step_one(rt, bank, hold, *event, own);
            step_all(rt, bank, hold, rest, others);
        }
    }
}
