//! A history that is printed, and run again from its text.
use crate::decisions::events::{read_event, read_plan};
use crate::questions::cut;
use exchange_report::write_history;
use std::alloc::Global;
use test_rows::{NoMemory, lines_of};
use trace_core::{Event, Payload, State};

/// An event of each kind but a failure, which may always come until the history is closed.
const NEXT: [Event; 14] = [
    Event::In(1),
    Event::End,
    Event::Svc(1),
    Event::Stop,
    Event::Heard,
    Event::Continue,
    Event::NoMod,
    Event::Mod(Payload::Body),
    Event::Mod(Payload::NullBody),
    Event::Ad(1),
    Event::AdEnd,
    Event::Usr(1),
    Event::Done,
    Event::Retry,
];

/// The state that a script without questions leads to; none where a line is no event, or one that is refused.
fn state_of(script: &[u8]) -> Option<State> {
    let (first, rest) = cut(script, b"\n");
    let mut state = State::begin(read_plan(first.strip_prefix(b"plan ")?)?);
    for line in lines_of(rest) {
        if !line.is_empty() {
            state.step(read_event(line)?).ok()?;
        }
    }
    Some(state)
}

/// Whether two states hold the same bytes, and answer each next event alike.
fn are_alike(one: &State, other: &State) -> bool {
    for event in NEXT {
        if one.fault(event) != other.fault(event) {
            return false;
        }
    }
    one.held_original() == other.held_original() && one.held_adapted() == other.held_adapted()
}

/// Whether what is printed of a history leads to a state like this one.
pub fn is_printed_so(alloc: Global, state: &State) -> Result<bool, NoMemory> {
    let mut script = Vec::new(alloc);
    write_history(&mut script, state.trace())?;
    match state_of(&script) {
        Some(again) => Ok(are_alike(state, &again)),
        None => Ok(false),
    }
}
