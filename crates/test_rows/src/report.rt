//! What is said of a table: how many of its rows are good, and each other one with both values.
use crate::answer::{put_all, put_decimal, put_escaped};
use crate::row::Row;
use std::alloc::{AllocError as NoMemory, Global};

/// The report on a file's rows.
#[derive(Drop)]
pub struct Report {
    lines: Vec<u8>,
    rows: u64,
    bad: u64,
}

/// The most bytes of a value that are shown.
const MOST_SHOWN: usize = 2000;

fn put_value(out: &mut Vec<u8>, word: &[u8], value: &[u8]) -> Result<(), NoMemory> {
    out.extend_from_slice(word)?;
    put_escaped(out, &value[..value.len().min(MOST_SHOWN)])?;
    out.extend_from_slice(b"\n")
}

/// Whether a row can be judged: it was read, has a name, no key that the head lacks or that says two things, and wants
/// something.
fn is_whole(head: &Row<'_>, row: &Row<'_>) -> bool {
    row.is_readable && row.has(b"name") && row.has(b"want") && row.has_only(head)
}

fn is_wanted(row: &Row<'_>, answer: &[u8]) -> bool {
    answer == row.get(b"want") || (row.has(b"or") && answer == row.get(b"or"))
}

/// Adds the lines on a row that isn't good.
fn put_failure(
    out: &mut Vec<u8>,
    head: &Row<'_>,
    row: &Row<'_>,
    answer: &[u8],
) -> Result<(), NoMemory> {
    put_all(out, &[b"FAILED ", head.get(b"table"), b", line "])?;
    put_decimal(out, row.line)?;
    put_value(out, b": ", row.get(b"name"))?;
    if is_whole(head, row) {
        put_value(out, b"  want: ", row.get(b"want"))?;
        put_value(out, b"  answer: ", answer)
    } else {
        out.extend_from_slice(b"  it can't be read\n")
    }
}

fn put_counts(out: &mut Vec<u8>, name: &[u8], rows: u64, bad: u64) -> Result<(), NoMemory> {
    put_all(out, &[name, b": "])?;
    put_decimal(out, rows.saturating_sub(bad))?;
    out.extend_from_slice(b" ok, ")?;
    put_decimal(out, bad)?;
    out.extend_from_slice(b" failed\n")
}

impl Report {
    pub fn new(alloc: Global) -> Report {
        Report {
            lines: Vec::new(alloc),
            rows: 0,
            bad: 0,
        }
    }

    /// Judges the answer to a row of a table with this head.
    pub fn judge(&mut self, head: &Row<'_>, row: &Row<'_>, answer: &[u8]) -> Result<(), NoMemory> {
        self.rows = self.rows.saturating_add(1);
        if is_whole(head, row) && is_wanted(row, answer) {
            return Ok(());
        }
        self.bad = self.bad.saturating_add(1);
        put_failure(&mut self.lines, head, row, answer)
    }

    /// Says last how many rows are good, and how many aren't.
    pub fn finish(&mut self, head: &Row<'_>) -> Result<(), NoMemory> {
        put_counts(&mut self.lines, head.get(b"table"), self.rows, self.bad)
    }

    /// The lines so far.
    pub fn lines(&self) -> &[u8] {
        &self.lines
    }
}
