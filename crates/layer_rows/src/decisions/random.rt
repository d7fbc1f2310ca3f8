//! Random histories, from a written seed: what follows, what is held, and that each held byte has a script.
use need_witness::{check, fits, fits_next, witness};
use test_rows::{NoMemory, Random, Row, put_line, put_number};
use trace_core::{Cause, Event, Kind, Payload, Plan, Point, State, Tape};

fn plan(random: &mut Random) -> Option<Plan> {
    let kind = match random.below(4) {
        0 => Kind::Plain,
        1 => Kind::Whole,
        _ => Kind::Preview(random.below(7)),
    };
    let allow = random.truth();
    let len = if random.truth() {
        Some(random.below(12))
    } else {
        None
    };
    Plan::new(kind, allow, random.truth(), len, Point::Respmod)
}

fn mark(random: &mut Random) -> Event {
    match random.below(11) {
        0 => Event::End,
        1 | 2 => Event::Stop,
        3 => Event::Heard,
        4 => Event::Continue,
        5 => Event::NoMod,
        6 => Event::Mod(Payload::Body),
        7 => Event::Mod(Payload::NullBody),
        8 => Event::AdEnd,
        9 => Event::Retry,
        _ => Event::Done,
    }
}

fn event(random: &mut Random) -> Event {
    let count = random.below(6);
    match random.below(9) {
        0 | 1 => Event::In(count),
        2 | 3 => Event::Svc(count),
        4 => Event::Ad(count),
        5 => Event::Usr(count),
        _ => {
            if random.below(60) == 0 {
                Event::Fail(Cause::Source)
            } else {
                mark(random)
            }
        }
    }
}

/// Whether a place has a script exactly where it is held, and the script is taken and needs no more than all room there is.
fn is_needed_so(state: &State, tape: Tape, place: u64, is_held: bool) -> bool {
    match witness(state, tape, place) {
        Some(script) => {
            is_held
                && check(state.trace(), &script, tape, place)
                && fits(state.trace(), &script, u64::MAX)
        }
        None => !is_held,
    }
}

/// Whether this is so of each place up to one after those that are held.
fn are_needed_so(state: &State, tape: Tape, held: (u64, u64)) -> bool {
    for place in 0..=held.1 {
        let is_held = held.0 <= place && place < held.1;
        if !is_needed_so(state, tape, place, is_held) {
            return false;
        }
    }
    true
}

/// Whether the short form of a history leads to the same state.
fn is_replayed(state: &State) -> bool {
    let mut other = State::begin(state.trace().plan());
    for event in state.trace().events() {
        if other.step(*event).is_err() {
            return false;
        }
    }
    other.seen() == state.seen()
        && other.held_original() == state.held_original()
        && other.held_adapted() == state.held_adapted()
}

/// What random histories have shown so far.
#[derive(Drop)]
struct Tally {
    good: u64,
    taken: u64,
}

impl Tally {
    /// Takes an event, where it may follow. Whether all is as it should be.
    fn is_step_good(&mut self, state: &mut State, event: Event) -> bool {
        let is_legal = state.may(event);
        let is_foretold = state.fault(event).is_none() == is_legal
            && fits_next(state, event, u64::MAX) == is_legal;
        if state.step(event).is_ok() {
            self.taken = self.taken.saturating_add(1);
        }
        is_foretold
            && is_replayed(state)
            && are_needed_so(state, Tape::Original, state.held_original())
            && are_needed_so(state, Tape::Adapted, state.held_adapted())
    }

    fn is_history_good(&mut self, random: &mut Random, plan: Plan) -> bool {
        let mut state = State::begin(plan);
        for _ in 0..80 {
            if !self.is_step_good(&mut state, event(random)) {
                return false;
            }
        }
        true
    }

    fn add(&mut self, random: &mut Random) {
        if let Some(plan) = plan(random) {
            if self.is_history_good(random, plan) {
                self.good = self.good.saturating_add(1);
            }
        }
    }
}

/// Adds how many of some random histories were as they should be, and whether they took several events each.
pub fn put_histories(row: &Row<'_>, out: &mut Vec<u8>) -> Result<(), NoMemory> {
    let mut random = Random::new(row.number(b"seed").unwrap_or(0));
    let count = row.number(b"count").unwrap_or(0);
    let mut tally = Tally { good: 0, taken: 0 };
    for _ in 0..count {
        tally.add(&mut random);
    }
    put_number(out, b"good", tally.good)?;
    let is_deep = tally.taken / 8 > count;
    put_line(
        out,
        if is_deep {
            b"of many events"
        } else {
            b"of few events"
        },
    )
}
