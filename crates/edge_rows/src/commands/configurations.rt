//! What `adaptproxy` says of configurations, and of its errors.
use crate::commands::arguments::arguments_of;
use crate::commands::devices::{Feed, Sink, feed_of, put_ended, whole};
use proxy_commands::{
    Error, Machine, ServeError, ask, audit_line, check_with, limit_in, line_of_words, put_error,
    read_configuration, read_source, read_whole, reload, source_of,
};
use proxy_config::{Config, OWN_STATUSES};
use shard_report::StopAudit;
use std::alloc::Global;
use std::io::{self, Read, Write};
use std::rt::Files;
use test_rows::{NoMemory, Row, put_decimal, put_line, put_number, says, words_of};

/// Adds what the program says of an error, and its status.
fn put_refusal(alloc: Global, error: &ServeError, out: &mut Vec<u8>) -> Result<(), NoMemory> {
    let mut errors = Sink::new(alloc, usize::MAX, false)?;
    let _ = put_error(error, &mut errors);
    put_ended(out, error.status(), b"", errors.taken())
}

/// Adds whether a configuration is taken, or what is said of it.
fn put_judged(alloc: Global, reader: Feed<'_>, out: &mut Vec<u8>) -> Result<(), NoMemory> {
    match read_configuration(alloc, reader) {
        Ok(config) => {
            // Written as a call, the drop is proved once, and not at each place.
            drop(config);
            put_line(out, b"taken")
        }
        Err(error) => put_refusal(alloc, &error, out),
    }
}

/// The text of the row's source: of the file that its arguments name, or of its input.
fn text_of<R: Files>(rt: &R, alloc: Global, row: &Row<'_>) -> Result<Vec<u8>, ServeError> {
    let Ok(args) = arguments_of(alloc, row) else {
        return Err(ServeError::Ended(Error::NoMemory));
    };
    let source = source_of(alloc, &args, feed_of(row))?;
    read_source(rt, alloc, &source)
}

/// Adds what `check` says of the row's configuration under the row's limits.
fn put_checked<R: Files>(
    rt: &R,
    alloc: Global,
    row: &Row<'_>,
    out: &mut Vec<u8>,
) -> Result<(), NoMemory> {
    let mut output = Sink::new(alloc, usize::MAX, false)?;
    let mut errors = Sink::new(alloc, usize::MAX, false)?;
    let text = match text_of(rt, alloc, row) {
        Ok(text) => text,
        Err(error) => return put_refusal(alloc, &error, out),
    };
    let machine = Machine {
        limits: row.get(b"limits"),
        memory: row.get(b"memory"),
    };
    let status = check_with(rt, alloc, &text, &mut output, &mut errors, machine);
    put_ended(out, status, output.taken(), errors.taken())
}

/// Adds where names are, and which pages there are.
fn put_files(config: &Config, row: &Row<'_>, out: &mut Vec<u8>) -> Result<(), NoMemory> {
    for name in words_of(row.get(b"names")) {
        if let Some(address) = config.hosts.resolve(name, None) {
            out.extend_from_slice(name)?;
            put_number(out, b" is at", u64::from(address.ip().to_bits()))?;
        }
    }
    for status in OWN_STATUSES {
        if let Some(page) = config.pages.of(status) {
            put_decimal(out, u64::from(status))?;
            put_number(out, b" has", page.len() as u64)?;
        }
    }
    Ok(())
}

/// Adds what the configuration of the row's source says, with its files.
fn put_whole<R: Files>(
    rt: &R,
    alloc: Global,
    row: &Row<'_>,
    out: &mut Vec<u8>,
) -> Result<(), NoMemory> {
    let text = match text_of(rt, alloc, row) {
        Ok(text) => text,
        Err(error) => return put_refusal(alloc, &error, out),
    };
    match read_whole(rt, alloc, &text) {
        Ok(config) => {
            let put = put_files(&config, row, out);
            // Written as a call, the drop is proved once, and not at each place.
            drop(config);
            put
        }
        Err(error) => put_refusal(alloc, &error, out),
    }
}

/// Adds what is said of a configuration that is taken over, with so many names in its hosts file.
fn put_taken(
    config: &Config,
    names: u64,
    row: &Row<'_>,
    out: &mut Vec<u8>,
) -> Result<(), NoMemory> {
    put_number(out, b"ok", names)?;
    put_files(config, row, out)
}

/// Adds what a proxy that runs with an old configuration answers to that of the row's source.
fn put_answered<R: Files + AllocGlobal>(
    rt: &R,
    alloc: Global,
    old: &Config,
    row: &Row<'_>,
    out: &mut Vec<u8>,
) -> Result<(), NoMemory> {
    let source = match source_of(alloc, &arguments_of(alloc, row)?, feed_of(row)) {
        Ok(source) => source,
        Err(error) => return put_refusal(alloc, &error, out),
    };
    match reload(rt, alloc, &source, old) {
        Ok((config, names)) => {
            let put = put_taken(&config, names, row, out);
            // Written as a call, the drop is proved once, and not at each place.
            drop(config);
            put
        }
        Err(answer) if answer.is_empty() => Err(NoMemory),
        Err(answer) => put_line(out, &answer),
    }
}

/// Adds what a proxy that runs with the row's old configuration answers to the new one.
fn put_reloaded<R: Files + AllocGlobal>(
    rt: &R,
    alloc: Global,
    row: &Row<'_>,
    out: &mut Vec<u8>,
) -> Result<(), NoMemory> {
    match read_configuration(alloc, whole(row.get(b"old"))) {
        Ok(old) => {
            let put = put_answered(rt, alloc, &old, row, out);
            // Written as a call, the drop is proved once, and not at each place.
            drop(old);
            put
        }
        Err(error) => put_refusal(alloc, &error, out),
    }
}

/// The error that a row names.
fn error_of(row: &Row<'_>) -> Option<ServeError> {
    let word = row.get(b"error");
    if says(word, b"write") {
        Some(ServeError::Ended(Error::WriteFailed))
    } else if says(word, b"memory") {
        Some(ServeError::Ended(Error::NoMemory))
    } else if says(word, b"listen") {
        Some(ServeError::CannotListen)
    } else if says(word, b"answer") {
        Some(ServeError::NoAnswer)
    } else if says(word, b"audit") {
        Some(ServeError::AuditMissing)
    } else {
        None
    }
}

fn put_error_of(alloc: Global, row: &Row<'_>, out: &mut Vec<u8>) -> Result<(), NoMemory> {
    match error_of(row) {
        Some(error) => put_refusal(alloc, &error, out),
        None => put_line(out, b"no error"),
    }
}

fn put_limit(row: &Row<'_>, out: &mut Vec<u8>) -> Result<(), NoMemory> {
    match limit_in(row.get(b"limits")) {
        Some(limit) => put_number(out, b"limit", limit),
        None => put_line(out, b"no limit"),
    }
}

/// Adds the line at the end of `serve`, where this was still out.
fn put_audit(alloc: Global, row: &Row<'_>, out: &mut Vec<u8>) -> Result<(), NoMemory> {
    let audit = StopAudit {
        rows: row.number(b"rows").unwrap_or(0),
        held: row.number(b"held").unwrap_or(0),
        leased: row.number(b"leased").unwrap_or(0),
    };
    out.extend_from_slice(audit_line(alloc, audit)?.as_slice())
}

/// The administrator's port: it hears a line, and answers.
#[derive(Drop)]
struct Port<'a> {
    answer: Feed<'a>,
    heard: Sink,
}

impl<'a> Read for Port<'a> {
    fn read(&mut self, buf: &mut [u8]) -> io::Result<usize> {
        self.answer.read(buf)
    }
}

impl<'a> Write for Port<'a> {
    fn write(&mut self, buf: &[u8]) -> io::Result<usize> {
        self.heard.write(buf)
    }

    fn flush(&mut self) -> io::Result<()> {
        self.heard.flush()
    }
}

/// Adds what `tell` makes of the row's arguments and its answer, and what the port heard.
fn put_told(alloc: Global, row: &Row<'_>, out: &mut Vec<u8>) -> Result<(), NoMemory> {
    let mut output = Sink::new(alloc, usize::MAX, false)?;
    let mut port = Port {
        answer: feed_of(row),
        heard: Sink::new(alloc, usize::MAX, false)?,
    };
    let line = line_of_words(alloc, &arguments_of(alloc, row)?)?;
    match ask(alloc, &mut port, &line, &mut output) {
        Ok(status) => put_ended(out, status, output.taken(), b"")?,
        Err(error) => put_refusal(alloc, &error, out)?,
    }
    out.extend_from_slice(b"heard ")?;
    out.extend_from_slice(port.heard.taken())
}

/// Adds the answer to a row of these calls; nothing for another one.
pub fn put_answer<R: Files + AllocGlobal>(
    rt: &R,
    alloc: Global,
    call: &[u8],
    row: &Row<'_>,
    out: &mut Vec<u8>,
) -> Result<(), NoMemory> {
    if says(call, b"configuration") {
        put_judged(alloc, feed_of(row), out)
    } else if says(call, b"check") {
        put_checked(rt, alloc, row, out)
    } else if says(call, b"files") {
        put_whole(rt, alloc, row, out)
    } else if says(call, b"reload") {
        put_reloaded(rt, alloc, row, out)
    } else if says(call, b"tell") {
        put_told(alloc, row, out)
    } else if says(call, b"limit") {
        put_limit(row, out)
    } else if says(call, b"error") {
        put_error_of(alloc, row, out)
    } else if says(call, b"audit") {
        put_audit(alloc, row, out)
    } else {
        Ok(())
    }
}
