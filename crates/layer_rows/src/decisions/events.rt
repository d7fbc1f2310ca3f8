//! The words of plans and events, those of `adaptproxy trace`.
use crate::listed::index_of;
use crate::questions::cut;
use exchange_report::write_event;
use need_witness::{Script, Tape};
use test_rows::{NoMemory, number, parts_of, says, words_of};
use trace_core::{Answer, Cause, Event, Kind, Payload, Plan, Point, State};

fn cause(number: u64) -> Option<Cause> {
    match number {
        1 => Some(Cause::Source),
        2 => Some(Cause::Service),
        3 => Some(Cause::NextHop),
        4 => Some(Cause::Memory),
        5 => Some(Cause::Deadline),
        6 => Some(Cause::Stopping),
        _ => None,
    }
}

/// The events that are words alone.
const WORDS: &[u8] = b"end|stop|retry|adend|done|heard|100|204|200|200 null";

/// What these words mean.
const EVENTS: [Event; 10] = [
    Event::End,
    Event::Stop,
    Event::Retry,
    Event::AdEnd,
    Event::Done,
    Event::Heard,
    Event::Continue,
    Event::NoMod,
    Event::Mod(Payload::Body),
    Event::Mod(Payload::NullBody),
];

/// An event of a word and a number.
fn read_counted(word: &[u8], count: u64) -> Option<Event> {
    match index_of(b"in|svc|ad|usr|fail", word)? {
        0 => Some(Event::In(count)),
        1 => Some(Event::Svc(count)),
        2 => Some(Event::Ad(count)),
        3 => Some(Event::Usr(count)),
        _ => Some(Event::Fail(cause(count)?)),
    }
}

/// An event.
pub fn read_event(text: &[u8]) -> Option<Event> {
    let (word, digits) = cut(text, b" ");
    if let Some(count) = number(digits) {
        return read_counted(word, count);
    }
    EVENTS.get(index_of(WORDS, text)?).copied()
}

/// Adds events, a comma between each two, and an LF.
pub fn put_events(out: &mut Vec<u8>, events: &[Event]) -> Result<(), NoMemory> {
    let mut before: &[u8] = b"";
    for event in events {
        out.extend_from_slice(before)?;
        write_event(out, *event)?;
        before = b", ";
    }
    out.extend_from_slice(b"\n")
}

/// A part of a list of events, without the space before it.
pub fn read_part(part: &[u8]) -> Option<Event> {
    read_event(part.strip_prefix(b" ").unwrap_or(part))
}

/// A script of events with a comma between each two.
pub fn read_script(text: &[u8]) -> Script {
    let mut script = Script::new();
    for part in parts_of(text, b',') {
        if let Some(event) = read_part(part) {
            if !script.is_full() {
                script.push(event);
            }
        }
    }
    script
}

/// The tape that a text begins with, and the number after it.
pub fn read_place(text: &[u8]) -> Option<(Tape, u64)> {
    let (word, digits) = cut(text, b" ");
    if says(word, b"original") {
        Some((Tape::Original, number(digits)?))
    } else if says(word, b"adapted") {
        Some((Tape::Adapted, number(digits)?))
    } else {
        None
    }
}

/// What a word of a plan is followed by.
#[derive(Clone, Copy)]
enum Awaited {
    Nothing,
    Preview,
    Length,
}

/// The words of a plan.
#[derive(Clone, Copy)]
struct Words {
    kind: Kind,
    allow: bool,
    retry: bool,
    len: Option<u64>,
    point: Point,
    awaited: Awaited,
}

impl Words {
    fn add_number(&mut self, number: u64) {
        match self.awaited {
            Awaited::Preview => self.kind = Kind::Preview(number),
            Awaited::Length => self.len = Some(number),
            Awaited::Nothing => {}
        }
    }

    fn add_kind(&mut self, word: &[u8]) {
        if says(word, b"whole") {
            self.kind = Kind::Whole;
        } else if says(word, b"preview") {
            self.awaited = Awaited::Preview;
        } else if says(word, b"len") {
            self.awaited = Awaited::Length;
        }
    }

    fn add(&mut self, word: &[u8]) {
        if let Some(number) = number(word) {
            self.add_number(number);
        } else if says(word, b"allow") {
            self.allow = true;
        } else if says(word, b"retry") {
            self.retry = true;
        } else if says(word, b"request") {
            self.point = Point::Reqmod;
        } else {
            self.add_kind(word);
        }
    }
}

/// A plan: `plain`, `whole` or `preview P`, then `allow`, `retry`, `len N` and `request`, each where it is so.
pub fn read_plan(text: &[u8]) -> Option<Plan> {
    let mut words = Words {
        kind: Kind::Plain,
        allow: false,
        retry: false,
        len: None,
        point: Point::Respmod,
        awaited: Awaited::Nothing,
    };
    for word in words_of(text) {
        words.add(word);
    }
    Plan::new(words.kind, words.allow, words.retry, words.len, words.point)
}

/// The answer to an event.
pub fn answered(state: &mut State, event: Event) -> Answer {
    match state.step(event) {
        Ok(()) => {
            let shown = state.seen().has_body;
            let adapted = if shown {
                Some(state.held_adapted())
            } else {
                None
            };
            Answer::Held(state.held_original(), adapted)
        }
        Err(fault) => Answer::Fault(fault),
    }
}
