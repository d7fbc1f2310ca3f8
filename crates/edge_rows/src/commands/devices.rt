//! Readers and writers that fail where a row says so.
use std::alloc::Global;
use std::io::{self, ErrorKind, Read, Write};
use test_rows::{NoMemory, Row, put_line, put_number};

/// A reader of some bytes, a piece at a time, which then ends or fails.
#[derive(Drop)]
pub struct Feed<'a> {
    bytes: &'a [u8],
    piece: usize,
    breaks: bool,
}

/// The row's input, all at once or in pieces of the row's size. It ends or, where the row says so, fails.
pub fn feed_of<'a>(row: &Row<'a>) -> Feed<'a> {
    Feed {
        bytes: row.get(b"input"),
        piece: room(row, b"piece"),
        breaks: row.has(b"breaks"),
    }
}

/// These bytes, and then the end.
pub fn whole(bytes: &[u8]) -> Feed<'_> {
    Feed {
        bytes,
        piece: usize::MAX,
        breaks: false,
    }
}

impl<'a> Read for Feed<'a> {
    fn read(&mut self, buf: &mut [u8]) -> io::Result<usize> {
        let count = buf.len().min(self.bytes.len()).min(self.piece);
        if count == 0 && self.breaks && !buf.is_empty() {
            return Err(io::Error::from(ErrorKind::ConnectionReset));
        }
        let (front, rest) = self.bytes.split_at(count);
        buf[..count].copy_from_slice(front);
        self.bytes = rest;
        Ok(count)
    }
}

/// The most bytes that a writer takes at once.
const PIECE: usize = 3;

/// The bytes for which a writer has memory from the beginning.
const KEPT: usize = 4096;

/// A writer that takes a few bytes at a time and keeps them, and fails once its room is used up, or as they are to go on.
#[derive(Drop)]
pub struct Sink {
    taken: Vec<u8>,
    room: usize,
    is_stuck: bool,
}

impl Sink {
    /// A writer with this room, that may fail to pass its bytes on.
    pub fn new(alloc: Global, room: usize, is_stuck: bool) -> Result<Sink, NoMemory> {
        Ok(Sink {
            taken: Vec::with_capacity(alloc, KEPT)?,
            room,
            is_stuck,
        })
    }

    /// All that it took.
    pub fn taken(&self) -> &[u8] {
        &self.taken
    }
}

impl Write for Sink {
    fn write(&mut self, buf: &[u8]) -> io::Result<usize> {
        let count = buf.len().min(self.room).min(PIECE);
        if count == 0 && !buf.is_empty() {
            return Err(io::Error::from(ErrorKind::BrokenPipe));
        }
        self.taken.extend_from_slice(&buf[..count])?;
        self.room -= count;
        Ok(count)
    }

    fn flush(&mut self) -> io::Result<()> {
        if self.is_stuck {
            return Err(io::Error::from(ErrorKind::StorageFull));
        }
        Ok(())
    }
}

/// The number that a key of the row gives; as many as there can be without it.
pub fn room(row: &Row<'_>, key: &[u8]) -> usize {
    match row.number(key) {
        Some(room) => room as usize,
        None => usize::MAX,
    }
}

/// Adds a status, what standard output took, and what standard error took.
pub fn put_ended(
    out: &mut Vec<u8>,
    status: u8,
    output: &[u8],
    errors: &[u8],
) -> Result<(), NoMemory> {
    put_number(out, b"status", u64::from(status))?;
    out.extend_from_slice(output)?;
    if errors.is_empty() {
        return Ok(());
    }
    put_line(out, b"standard error:")?;
    out.extend_from_slice(errors)
}
