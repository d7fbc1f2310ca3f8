//! A transaction sends a held byte by its script, whatever the locks hold. No program does so: it is the proof of it.

ghost use Rattle.std.specs.Prelude.{◌≡◌, ◌≤◌, length};
ghost use Rattle.trace_core.specs.Held.{IsIn, held_on};
ghost use Rattle.need_witness.specs.Table.{script_of};
ghost use Rattle.adapt_hold.specs.Holding.{shows, moved, byte_at};
ghost use Rattle.adapt_hold.specs.Steps.{brought_all, moved_all};
ghost use Rattle.world_ties.specs.Alone.{IsWide, IsTaken, RunsAlone, SendsByte, tape_of};

use adapt_hold::{Hold, brought};
use need_witness::witness;
use span_bank::{Bank, Ledgers};
use std::sync::Wait;
use trace_core::{Event, Tape};

/// Takes an event by the call that is for it.
fn take_one<B: Ledgers>(
    rt: &impl Wait,
    bank: &Bank<B>,
    hold: &mut Hold<B>,
    event: Event,
    bytes: &[u8],
)
    requires { IsTaken hold.old event bytes.now }
    ensures { hold.new ≡ moved hold.old event bytes.now }
{
    let _state = hold.state();
    match event {
        Event::In(_) | Event::Ad(_) => match hold.put_in(rt, bank, event, bytes) {
            Ok(()) => {}
            Err(_) => unreachable!(),
        },
        _ => match hold.move_on(rt, bank, event) {
            Ok(()) => {}
            Err(_) => unreachable!(),
        },
    }
}

/// Takes events one after the other, each by the call that is for it. `bytes` are those that they bring.
fn run_alone<B: Ledgers>(
    rt: &impl Wait,
    bank: &Bank<B>,
    hold: &mut Hold<B>,
    script: &[Event],
    bytes: &[u8],
)
    requires { RunsAlone hold.old script.now bytes.now }
    ensures { hold.new ≡ moved_all hold.old script.now bytes.now }
{
    match script {
        [] => {}
        [event, rest @ ..] => {
            let (own, others) = bytes.split_at(brought(*event) as usize);
            take_one(rt, bank, hold, *event, own);
            run_alone(rt, bank, hold, rest, others);
        }
    }
}

/// Sends a held byte: takes the events of its script, each by `put_in` or `move_on`. `bytes` are the body bytes that the
/// source brings meanwhile. Other threads may do anything between two of these calls.
pub fn send_held<B: Ledgers>(
    rt: &impl Wait,
    bank: &Bank<B>,
    hold: &mut Hold<B>,
    tape: Tape,
    place: u64,
    bytes: &[u8],
)
    requires held { IsIn (held_on tape (shows hold.old.history)) place }
    requires wide { IsWide hold.old }
    requires bytes { brought_all (script_of tape (shows hold.old.history) place) ≤ length bytes.now }
    ensures moves { hold.new ≡ moved_all hold.old (script_of tape (shows hold.old.history) place) bytes.now }
    ensures sends { SendsByte tape place (byte_at (tape_of tape hold.old) place) hold.old
        (script_of tape (shows hold.old.history) place) bytes.now }
{
    match witness(hold.state(), tape, place) {
        Some(script) => run_alone(rt, bank, hold, script.as_slice(), bytes),
        None => unreachable!(),
    }
}
