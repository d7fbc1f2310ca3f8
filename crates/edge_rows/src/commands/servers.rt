//! What `icapd` says of configurations and of its errors, and one connection over standard input.
use crate::commands::devices::{Sink, feed_of, put_ended, room};
use icapd_commands::{IcapdConfig, IcapdError, once, put_error, read_config, read_input};
use std::alloc::Global;
use test_rows::{NoMemory, Row, put_line, put_number, says};

/// Adds what the program says of an error, and its status.
fn put_refusal(alloc: Global, error: &IcapdError, out: &mut Vec<u8>) -> Result<(), NoMemory> {
    let mut errors = Sink::new(alloc, usize::MAX, false)?;
    let _ = put_error(error, &mut errors);
    put_ended(out, error.status(), b"", errors.taken())
}

/// Adds each value.
fn put_values(config: &IcapdConfig, out: &mut Vec<u8>) -> Result<(), NoMemory> {
    put_number(out, b"listen", u64::from(config.listen.port()))?;
    out.extend_from_slice(b"istag ")?;
    put_line(out, &config.settings.istag)?;
    put_number(out, b"max", config.settings.max)?;
    put_number(out, b"ttl", config.settings.ttl)?;
    put_number(out, b"preview", config.settings.preview)?;
    put_number(out, b"deadline", config.deadline)
}

fn put_configuration(alloc: Global, row: &Row<'_>, out: &mut Vec<u8>) -> Result<(), NoMemory> {
    match read_config(alloc, row.get(b"input")) {
        Ok(config) => put_values(&config, out),
        Err(IcapdError::NoMemory) => Err(NoMemory),
        Err(error) => put_refusal(alloc, &error, out),
    }
}

/// Adds how many bytes are read of the row's input.
fn put_input(alloc: Global, row: &Row<'_>, out: &mut Vec<u8>) -> Result<(), NoMemory> {
    match read_input(alloc, feed_of(row)) {
        Ok(input) => put_number(out, b"read", input.len() as u64),
        Err(error) => put_refusal(alloc, &error, out),
    }
}

/// Adds what the row's connection is answered.
fn put_connection(alloc: Global, row: &Row<'_>, out: &mut Vec<u8>) -> Result<(), NoMemory> {
    let mut output = Sink::new(alloc, room(row, b"room"), false)?;
    match once(alloc, feed_of(row), &mut output) {
        Ok(()) if row.has(b"hidden") => put_ended(out, 0, b"", b""),
        Ok(()) => put_ended(out, 0, output.taken(), b""),
        Err(IcapdError::NoMemory) => Err(NoMemory),
        Err(error) => put_refusal(alloc, &error, out),
    }
}

/// The error that a row names.
fn error_of(row: &Row<'_>) -> Option<IcapdError> {
    let word = row.get(b"error");
    if says(word, b"usage") {
        Some(IcapdError::Usage)
    } else if says(word, b"read") {
        Some(IcapdError::ReadFailed)
    } else if says(word, b"write") {
        Some(IcapdError::WriteFailed)
    } else if says(word, b"long") {
        Some(IcapdError::InputTooLong)
    } else if says(word, b"config") {
        Some(IcapdError::Config)
    } else if says(word, b"listen") {
        Some(IcapdError::CannotListen)
    } else if says(word, b"memory") {
        Some(IcapdError::NoMemory)
    } else {
        None
    }
}

fn put_error_of(alloc: Global, row: &Row<'_>, out: &mut Vec<u8>) -> Result<(), NoMemory> {
    match error_of(row) {
        Some(error) => put_refusal(alloc, &error, out),
        None => put_line(out, b"no error"),
    }
}

/// Adds the answer to a row of these calls; nothing for another one.
pub fn put_answer(
    alloc: Global,
    call: &[u8],
    row: &Row<'_>,
    out: &mut Vec<u8>,
) -> Result<(), NoMemory> {
    if says(call, b"icapd configuration") {
        put_configuration(alloc, row, out)
    } else if says(call, b"icapd input") {
        put_input(alloc, row, out)
    } else if says(call, b"icapd once") {
        put_connection(alloc, row, out)
    } else if says(call, b"icapd error") {
        put_error_of(alloc, row, out)
    } else {
        Ok(())
    }
}
