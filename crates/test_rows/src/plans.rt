//! Plans and events in words.
use crate::part_iterator::words_of;
use crate::scene::Scene;
use crate::words::{count_after, has_word, index_of};
use trace_core::{Event, Kind, Payload, Plan, Point, State};

/// How a message goes to the service.
fn kind_of(words: &[u8]) -> Kind {
    match count_after(words, b"preview") {
        Some(size) => Kind::Preview(size),
        None if has_word(words, b"whole") => Kind::Whole,
        None => Kind::Plain,
    }
}

/// Which message is offered.
pub fn point_of(words: &[u8]) -> Point {
    if has_word(words, b"reqmod") {
        Point::Reqmod
    } else {
        Point::Respmod
    }
}

/// A plan in words: `respmod` or `reqmod`; `plain`, `whole` or `preview=4`; `allow`, `retry` and `len=6` where they stand.
pub fn plan_of(words: &[u8]) -> Option<Plan> {
    let allow = has_word(words, b"allow");
    let retry = has_word(words, b"retry");
    let len = count_after(words, b"len");
    Plan::new(kind_of(words), allow, retry, len, point_of(words))
}

/// The words of events without a count.
const EVENTS: [Event; 8] = [
    Event::End,
    Event::Stop,
    Event::Heard,
    Event::Continue,
    Event::NoMod,
    Event::Mod(Payload::Body),
    Event::AdEnd,
    Event::Retry,
];

/// An event in a word: `in=4`, `svc=4`, `ad=6`, `end`, `stop`, `heard`, `continue`, `nomod`, `mod`, `adend` or `retry`; `mod` is with
/// a body.
pub fn event_of(word: &[u8]) -> Option<Event> {
    if let Some(count) = count_after(word, b"in") {
        return Some(Event::In(count));
    }
    if let Some(count) = count_after(word, b"svc") {
        return Some(Event::Svc(count));
    }
    if let Some(count) = count_after(word, b"ad") {
        return Some(Event::Ad(count));
    }
    let place = index_of(b"end stop heard continue nomod mod adend retry", word)?;
    EVENTS.get(place).copied()
}

/// The history of the row's plan and of its events before. `None` where they may not come so.
pub fn history(scene: Scene<'_>) -> Option<State> {
    let mut state = State::begin(plan_of(scene.get(b"plan"))?);
    for word in words_of(scene.get(b"before")) {
        if !word.is_empty() && state.step(event_of(word)?).is_err() {
            return None;
        }
    }
    Some(state)
}
