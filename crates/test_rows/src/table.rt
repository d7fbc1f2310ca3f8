//! A file of rows.
ghost use Rattle.std.specs.Prelude.{◌≤◌, length};

use crate::part_iterator::lines_of;
use crate::row::{Entry, Row, part};
use crate::text::put_text;
use std::alloc::{AllocError as NoMemory, Global};

/// Where a row stands.
#[derive(Clone, Copy)]
struct Mark {
    /// The number of its first line in the file, from 1 on.
    line: u64,
    /// Its entries: the place of the first, and the place after the last.
    from: usize,
    to: usize,
    /// Whether each of its lines could be read: a key, `:` or `|`, and a text.
    is_readable: bool,
}

impl Mark {
    /// A row with no entry yet.
    fn empty(line: u64, at: usize) -> Mark {
        Mark {
            line,
            from: at,
            to: at,
            is_readable: true,
        }
    }
}

/// The rows of a file, its head among them.
#[derive(Drop)]
pub struct Table {
    /// The keys and what they say, one after the other.
    said: Vec<u8>,
    entries: Vec<Entry>,
    rows: Vec<Mark>,
    /// Whether the next line belongs to the last row.
    is_open: bool,
}

/// Reads a file's rows. What can't be read of one is reported when it is judged.
pub fn read_table(alloc: Global, text: &[u8]) -> Result<Table, NoMemory> {
    let mut table = Table {
        said: Vec::new(alloc),
        entries: Vec::new(alloc),
        rows: Vec::new(alloc),
        is_open: false,
    };
    let mut number: u64 = 0;
    for line in lines_of(text) {
        number = number.saturating_add(1);
        table.add_line(number, line)?;
    }
    Ok(table)
}

/// Where a line's key ends.
fn key_end(line: &[u8]) -> usize
    ensures { result ≤ length line.now }
{
    for at in 0..line.len() {
        if line[at] == b':' || line[at] == b'|' {
            return at;
        }
    }
    line.len()
}

/// A text without a space before it.
fn without_space(written: &[u8]) -> &[u8] {
    match written {
        [b' ', rest @ ..] => rest,
        _ => written,
    }
}

impl Table {
    fn add_line(&mut self, number: u64, line: &[u8]) -> Result<(), NoMemory> {
        match line {
            [] => {
                self.is_open = false;
                Ok(())
            }
            [b'#', ..] => Ok(()),
            _ => {
                if !self.is_open {
                    self.open(number)?;
                }
                self.add_entry(line)
            }
        }
    }

    /// Begins a row.
    fn open(&mut self, line: u64) -> Result<(), NoMemory> {
        self.is_open = true;
        self.rows.push(Mark::empty(line, self.entries.len()))?;
        Ok(())
    }

    /// Whether a key is that of the line before, in the same row.
    fn is_last(&self, key: &[u8]) -> bool {
        match (self.rows.last(), self.entries.last()) {
            (Some(row), Some(entry)) => {
                row.from < self.entries.len() && part(&self.said, entry.key_from, entry.from) == key
            }
            _ => false,
        }
    }

    /// Makes a key the last one.
    fn open_key(&mut self, key: &[u8]) -> Result<(), NoMemory> {
        if self.is_last(key) {
            return Ok(());
        }
        let key_from = self.said.len();
        self.said.extend_from_slice(key)?;
        let from = self.said.len();
        self.entries.push(Entry {
            key_from,
            from,
            to: from,
        })?;
        Ok(())
    }

    /// Adds a line to the last row: a key, `:` or `|`, and after a space a text.
    fn add_entry(&mut self, line: &[u8]) -> Result<(), NoMemory> {
        let (key, rest) = line.split_at(key_end(line));
        self.open_key(key)?;
        let is_read = match rest {
            [mark, written @ ..] => {
                put_text(&mut self.said, without_space(written), *mark == b'|')?
            }
            [] => false,
        };
        self.close(is_read);
        Ok(())
    }

    /// Counts all that was said to the last key of the last row.
    fn close(&mut self, is_read: bool) {
        let to = self.entries.len();
        if let Some(entry) = self.entries.last_mut() {
            entry.to = self.said.len();
        }
        if let Some(row) = self.rows.last_mut() {
            row.to = to;
            row.is_readable = row.is_readable && is_read;
        }
    }

    /// How many rows there are, the head among them.
    pub fn len(&self) -> usize {
        self.rows.len()
    }

    /// A row; one with nothing where there is none.
    pub fn row(&self, at: usize) -> Row<'_> {
        let (line, is_readable, from, to) = match self.rows.get(at) {
            Some(row) => (row.line, row.is_readable, row.from, row.to),
            None => (0, false, 0, 0),
        };
        let to = to.min(self.entries.len());
        Row {
            line,
            is_readable,
            entries: &self.entries[from.min(to)..to],
            said: &self.said,
        }
    }

    /// The first row.
    pub fn head(&self) -> Row<'_> {
        self.row(0)
    }
}
