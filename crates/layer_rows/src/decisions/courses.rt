//! The course of a user's connection: each line of `want` is an event, and what is due after it; or a question.
mod words;

use self::words::{EVENTS, WORDS, read_event};
use crate::listed::put_standing;
use crate::questions::asked;
use exchange_core::{Course, CourseState, Event};
use test_rows::{NoMemory, Row, lines_of, parts_of, put_line, put_shown, says};

/// The marks of a state, in the order of `put_marks`.
const MARKS: &[u8] =
    b"stake|origin|kept|lasts|asked|repeatable|withdrawn|heard|told|half_told|begun|closes|draining|stopping";

/// Adds the marks that are set.
fn put_marks(out: &mut Vec<u8>, state: &CourseState) -> Result<(), NoMemory> {
    let stand = [
        state.stake,
        state.origin,
        state.kept,
        state.lasts,
        state.asked,
        state.repeatable,
        state.withdrawn,
        state.heard,
        state.told,
        state.half_told,
        state.begun,
        state.closes,
        state.draining,
        state.stopping,
    ];
    put_standing(out, b" ", MARKS, &stand)?;
    put_line(out, b"")
}

/// Adds the words of all events that may come next.
fn put_next(out: &mut Vec<u8>, course: &Course) -> Result<(), NoMemory> {
    let mut before: &[u8] = b" ";
    for (event, word) in EVENTS.iter().zip(parts_of(WORDS, b'|')) {
        if course.may(*event) {
            out.extend_from_slice(before)?;
            out.extend_from_slice(word)?;
            before = b", ";
        }
    }
    put_line(out, if says(before, b" ") { b" nothing" } else { b"" })
}

/// Adds the answer to a question.
fn put_told(out: &mut Vec<u8>, question: &[u8], course: &Course) -> Result<(), NoMemory> {
    let state = course.state();
    if says(question, b"phase") {
        put_shown(out, b"", &state.phase)
    } else if says(question, b"connection") {
        put_shown(out, b"", &state.connection)
    } else if says(question, b"marks") {
        put_marks(out, &state)
    } else if says(question, b"next") {
        put_next(out, course)
    } else {
        put_line(out, b" unknown")
    }
}

/// Takes an event, where it may come, and adds what is due then.
fn put_due(out: &mut Vec<u8>, course: &mut Course, event: Event) -> Result<(), NoMemory> {
    if course.may(event) {
        course.take(event);
        put_shown(out, b"", &course.due())
    } else {
        put_line(out, b" no")
    }
}

/// Adds what a line asks, and the answer.
fn put_answered(out: &mut Vec<u8>, course: &mut Course, question: &[u8]) -> Result<(), NoMemory> {
    out.extend_from_slice(question)?;
    out.extend_from_slice(b" =")?;
    match read_event(question) {
        Some(event) => put_due(out, course, event),
        None => put_told(out, question, course),
    }
}

/// Adds what is due after each event of a row.
pub fn put_course(row: &Row<'_>, out: &mut Vec<u8>) -> Result<(), NoMemory> {
    let mut course = Course::begin();
    for line in lines_of(row.get(b"want")) {
        let question = asked(line);
        if !question.is_empty() {
            put_answered(out, &mut course, question)?;
        }
    }
    Ok(())
}
