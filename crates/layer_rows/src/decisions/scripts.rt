//! Scripts that still send a byte, and their checkers.
use crate::decisions::events::{put_events, read_event, read_place, read_script};
use crate::questions::cut;
use need_witness::{check, fits, fits_next, held_is_needed, witness};
use test_rows::{NoMemory, number, put_line, put_truth};
use trace_core::State;

fn put_witness(out: &mut Vec<u8>, state: &State, place: &[u8]) -> Result<(), NoMemory> {
    let Some((tape, place)) = read_place(place) else {
        return Ok(());
    };
    match witness(state, tape, place) {
        Some(script) => {
            if !check(state.trace(), &script, tape, place) {
                out.extend_from_slice(b"refused ")?;
            }
            put_events(out, script.as_slice())
        }
        None => put_line(out, b"none"),
    }
}

/// Whether a script that is given is taken for a place.
fn put_check(out: &mut Vec<u8>, state: &State, text: &[u8]) -> Result<(), NoMemory> {
    let (place, script) = cut(text, b" by ");
    match read_place(place) {
        Some((tape, place)) => {
            let script = read_script(script);
            put_truth(out, check(state.trace(), &script, tape, place))
        }
        None => Ok(()),
    }
}

fn put_fits(out: &mut Vec<u8>, state: &State, text: &[u8]) -> Result<(), NoMemory> {
    let (digits, script) = cut(text, b" by ");
    let script = read_script(script);
    put_truth(
        out,
        fits(state.trace(), &script, number(digits).unwrap_or(0)),
    )
}

fn put_fits_next(out: &mut Vec<u8>, state: &State, text: &[u8]) -> Result<(), NoMemory> {
    let (digits, event) = cut(text, b" by ");
    match read_event(event) {
        Some(event) => put_truth(out, fits_next(state, event, number(digits).unwrap_or(0))),
        None => Ok(()),
    }
}

/// Adds what is said of a question of these; nothing of another.
pub fn put_script(out: &mut Vec<u8>, state: &State, asked: &[u8]) -> Result<(), NoMemory> {
    held_is_needed();
    if let Some(place) = asked.strip_prefix(b"script ") {
        return put_witness(out, state, place);
    }
    if let Some(text) = asked.strip_prefix(b"taken for ") {
        return put_check(out, state, text);
    }
    if let Some(text) = asked.strip_prefix(b"next fits ") {
        return put_fits_next(out, state, text);
    }
    match asked.strip_prefix(b"fits ") {
        Some(text) => put_fits(out, state, text),
        None => Ok(()),
    }
}
