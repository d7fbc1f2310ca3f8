//! What a probe is asked to do, and the lines that it says of what came.
use crate::commands::arguments::arguments_of;
use service_probe::{
    ConnectionUse, Fault, Finding, ProbeAttempt, ProbeOutcome, SAMPLES, put_attempt, read_choice,
};
use std::alloc::Global;
use test_rows::{NoMemory, Row, put_line, put_shown, says};

/// The fault of a row's name.
fn fault_of(name: &[u8]) -> Fault {
    if says(name, b"NotLegal") {
        Fault::NotLegal
    } else if says(name, b"Deadline") {
        Fault::Deadline
    } else {
        Fault::Chunk
    }
}

/// A number of a row; 0 where there is none.
fn number_of(row: &Row<'_>, key: &[u8]) -> u64 {
    row.number(key).unwrap_or(0)
}

/// What came by a row.
fn came_of(alloc: Global, row: &Row<'_>) -> Result<ProbeOutcome, NoMemory> {
    let continued = row.has(b"continued");
    let bytes = number_of(row, b"bytes");
    let came = row.get(b"came");
    Ok(if says(came, b"options") {
        ProbeOutcome::Options
    } else if says(came, b"unchanged") {
        ProbeOutcome::Unchanged { continued }
    } else if says(came, b"changed") {
        ProbeOutcome::Changed { continued, bytes }
    } else if says(came, b"page") {
        ProbeOutcome::Page {
            continued,
            status: u16::try_from(number_of(row, b"status")).unwrap_or(0),
            bytes,
        }
    } else {
        ProbeOutcome::Broken(Finding {
            fault: fault_of(came),
            at: number_of(row, b"at"),
            octets: row.get(b"octets").to_vec(alloc)?,
        })
    })
}

/// Adds the line of a row's attempt.
fn put_line_of(alloc: Global, row: &Row<'_>, out: &mut Vec<u8>) -> Result<(), NoMemory> {
    let attempt = ProbeAttempt {
        came: came_of(alloc, row)?,
        micros: number_of(row, b"micros"),
        serves: row.has(b"serves"),
    };
    let way = if row.has(b"fresh") {
        ConnectionUse::Fresh
    } else {
        ConnectionUse::Kept
    };
    put_attempt(out, way, row.get(b"sample"), row.number(b"size"), &attempt)
}

/// Adds the names of all samples, with their sizes where a preview has so many bytes.
fn put_samples(row: &Row<'_>, out: &mut Vec<u8>) -> Result<(), NoMemory> {
    let preview = number_of(row, b"preview").min(65_536);
    for sample in SAMPLES.iter() {
        put_shown(out, sample.name(), &sample.size(preview))?;
    }
    Ok(())
}

/// Adds the answer to a row of these calls; nothing for another one.
pub fn put_answer(
    alloc: Global,
    call: &[u8],
    row: &Row<'_>,
    out: &mut Vec<u8>,
) -> Result<(), NoMemory> {
    if says(call, b"probe line") {
        return put_line_of(alloc, row, out);
    }
    if says(call, b"probe samples") {
        return put_samples(row, out);
    }
    if !says(call, b"probe choice") {
        return Ok(());
    }
    match read_choice(&arguments_of(alloc, row)?) {
        Some(choice) => put_shown(out, b"chooses", &choice),
        None => put_line(out, b"chooses nothing"),
    }
}
