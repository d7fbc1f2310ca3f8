//! Whole runs of `adaptproxy trace` and `adaptproxy chunks`.
use crate::commands::arguments::arguments_of;
use crate::commands::devices::{Feed, Sink, feed_of, put_ended, room, whole};
use proxy_commands::run::run;
use std::alloc::Global;
use test_rows::{NoMemory, Row, put_number, says};

/// What a run of these arguments ends with, whose writers have this room.
fn told(
    alloc: Global,
    args: &[String],
    reader: Feed<'_>,
    row: &Row<'_>,
    output_room: usize,
) -> Result<Vec<u8>, NoMemory> {
    let mut output = Sink::new(alloc, output_room, row.has(b"stuck"))?;
    let mut errors = Sink::new(alloc, room(row, b"error-room"), false)?;
    let status = run(alloc, args, reader, &mut output, &mut errors);
    let shown: &[u8] = if row.has(b"room") || row.has(b"stuck") {
        b""
    } else {
        output.taken()
    };
    let mut text = Vec::new(alloc);
    put_ended(&mut text, status, shown, errors.taken())?;
    Ok(text)
}

/// Adds what the row's run ends with: the same for each room of its output from `room` up to `last-room`.
fn put_run(alloc: Global, row: &Row<'_>, out: &mut Vec<u8>) -> Result<(), NoMemory> {
    let args = arguments_of(alloc, row)?;
    let first = room(row, b"room");
    out.extend_from_slice(&told(alloc, &args, feed_of(row), row, first)?)?;
    let last = row.number(b"last-room").unwrap_or(0) as usize;
    for room in first..last {
        let next = room.saturating_add(1);
        if told(alloc, &args, feed_of(row), row, next)?.as_slice() != out.as_slice() {
            put_number(out, b"otherwise with room for", next as u64)?;
        }
    }
    Ok(())
}

/// Adds what the row's script is answered, also without its last byte.
fn put_script(alloc: Global, row: &Row<'_>, out: &mut Vec<u8>) -> Result<(), NoMemory> {
    let mut args = Vec::new(alloc);
    args.push(String::from_str(alloc, "trace")?)?;
    let script = row.get(b"input");
    out.extend_from_slice(&told(alloc, &args, whole(script), row, usize::MAX)?)?;
    if !row.has(b"whole") {
        let (front, _) = script.split_at(script.len().saturating_sub(1));
        let cut = told(alloc, &args, whole(front), row, usize::MAX)?;
        if cut.as_slice() != out.as_slice() {
            out.extend_from_slice(b"otherwise without the last byte\n")?;
        }
    }
    Ok(())
}

/// The arguments for pieces of this size.
fn pieces(alloc: Global, size: usize) -> Result<Vec<String>, NoMemory> {
    let mut args = Vec::new(alloc);
    args.push(String::from_str(alloc, "chunks")?)?;
    args.push(format!(in alloc; "{size}")?)?;
    Ok(args)
}

/// Adds what the row's body is read as: the same in pieces of each size.
fn put_body(alloc: Global, row: &Row<'_>, out: &mut Vec<u8>) -> Result<(), NoMemory> {
    let single = pieces(alloc, 1)?;
    out.extend_from_slice(&told(alloc, &single, feed_of(row), row, usize::MAX)?)?;
    for size in 1..row.get(b"input").len() {
        let next = size.saturating_add(1);
        let args = pieces(alloc, next)?;
        if told(alloc, &args, feed_of(row), row, usize::MAX)?.as_slice() != out.as_slice() {
            put_number(out, b"otherwise in pieces of", next as u64)?;
        }
    }
    Ok(())
}

/// Adds the answer to a row of these calls; nothing for another one.
pub fn put_answer(
    alloc: Global,
    call: &[u8],
    row: &Row<'_>,
    out: &mut Vec<u8>,
) -> Result<(), NoMemory> {
    if says(call, b"run") {
        put_run(alloc, row, out)
    } else if says(call, b"script") {
        put_script(alloc, row, out)
    } else if says(call, b"body") {
        put_body(alloc, row, out)
    } else {
        Ok(())
    }
}
