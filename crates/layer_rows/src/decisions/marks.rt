//! What a state shows, and what may follow.
use crate::decisions::events::{put_events, read_event};
use crate::listed::{index_of, put_counted, put_standing};
use test_rows::{NoMemory, number, put_fault, put_line, put_truth};
use trace_core::{Seen, Sendable, State, StepFault};

fn put_fault_of(out: &mut Vec<u8>, fault: Option<StepFault>) -> Result<(), NoMemory> {
    match fault {
        Some(fault) => put_fault(out, fault.number(), &fault),
        None => put_line(out, b"none"),
    }
}

fn put_sendable(out: &mut Vec<u8>, sendable: Sendable) -> Result<(), NoMemory> {
    put_counted(out, b"svc |, usr ", &[sendable.svc, sendable.usr])?;
    put_standing(out, b", ", b"stop|done", &[sendable.stop, sendable.done])?;
    put_line(out, b"")
}

/// The marks of a history, in the order of `put_marks`.
const MARKS: &[u8] =
    b"ended|stopped|ieof|last stop|100|204|200|body|200 in preview|adapted over|heard|retried|closed";

/// Adds the marks that stand.
fn put_marks(out: &mut Vec<u8>, seen: &Seen) -> Result<(), NoMemory> {
    let stand = [
        seen.ended,
        seen.stopped,
        seen.ieof,
        seen.last_stop,
        seen.continued,
        seen.no_mod,
        seen.modified,
        seen.has_body,
        seen.mod_in_preview,
        seen.adapted_over,
        seen.heard,
        seen.retried,
        seen.closed,
    ];
    put_standing(out, b", ", MARKS, &stand)
}

/// Adds the counts of a history, and the marks that stand in it.
fn put_seen(out: &mut Vec<u8>, seen: &Seen) -> Result<(), NoMemory> {
    let counts = [
        seen.received,
        seen.sent,
        seen.adapted_received,
        seen.original_delivered,
        seen.adapted_delivered,
    ];
    put_counted(out, b"in |, svc |, ad |, usr | and ", &counts)?;
    put_marks(out, seen)?;
    put_line(out, b"")
}

fn put_of_event(out: &mut Vec<u8>, state: &State, asked: &[u8]) -> Result<(), NoMemory> {
    if let Some(text) = asked.strip_prefix(b"may ") {
        return match read_event(text) {
            Some(event) => put_truth(out, state.may(event)),
            None => Ok(()),
        };
    }
    let Some(text) = asked.strip_prefix(b"fault of ") else {
        return Ok(());
    };
    match read_event(text) {
        Some(event) => put_fault_of(out, state.fault(event)),
        None => Ok(()),
    }
}

/// Adds what is said of a question of these; nothing of another.
pub fn put_mark(out: &mut Vec<u8>, state: &State, asked: &[u8]) -> Result<(), NoMemory> {
    if let Some(digits) = asked.strip_prefix(b"stop after ") {
        return put_truth(out, state.may_stop_after(number(digits).unwrap_or(0)));
    }
    match index_of(
        b"keeps original|chooses original|sendable|seen|trace",
        asked,
    ) {
        Some(0) => put_truth(out, state.keeps_original()),
        Some(1) => put_truth(out, state.chooses_original()),
        Some(2) => put_sendable(out, state.sendable()),
        Some(3) => put_seen(out, &state.seen()),
        Some(4) => put_events(out, state.trace().events()),
        _ => put_of_event(out, state, asked),
    }
}
