//! The bytes of a wire in memory: those that it gives and those that it took.

ghost use Rattle.std.specs.Prelude.{◌≡◌, ℕ, ◌<◌, ◌≤◌, ◌++◌, length, take, IfOk, vec_capacity};
ghost use Rattle.wire_kit.specs.Past.{Past, FitsRoom, FitsPut, after_read, after_write, nothing_yet};

use crate::wire::{Got, Put};
use std::alloc::{AllocError, Global};

/// The answer to a read.
#[derive(Clone, Copy)]
pub enum ReadAnswer {
    /// At most this many of the remaining bytes; `Wait` for 0, or if none remain.
    Bytes(usize),
    Ended,
    Wait,
    Fault,
}

/// The answer to a write.
#[derive(Clone, Copy)]
pub enum WriteAnswer {
    /// At most this many bytes are taken; `Wait` for 0.
    Took(usize),
    Wait,
    Fault,
}

/// The bytes that are given, how many of them were read, the bytes that were taken, and how often each answer
/// came.
#[derive(Drop)]
pub(crate) struct Stream {
    input: Vec<u8>,
    read_len: usize,
    taken: Vec<u8>,
    ends: u64,
    read_waits: u64,
    write_waits: u64,
    faults: u64,
    reads: u64,
    writes: u64,
    ghost read_in: { read_len ≤ length input.items },
}

impl Stream {
    ghost use Rattle.wire_kit.specs.Memory.{StreamPast};

    /// A stream of which nothing was read, with room for this many bytes to take.
    pub(crate) fn new(alloc: Global, input: Vec<u8>, room: usize) -> Result<Stream, AllocError>
        ensures past { IfOk result (λ stream. StreamPast stream nothing_yet) }
        ensures room { IfOk result (λ stream. vec_capacity stream.taken ≡ room) }
    {
        Ok(Stream {
            input,
            read_len: 0,
            taken: Vec::with_capacity(alloc, room)?,
            ends: 0,
            read_waits: 0,
            write_waits: 0,
            faults: 0,
            reads: 0,
            writes: 0,
        })
    }

    /// All that was taken so far.
    pub(crate) fn taken(&self) -> &[u8]
        ensures { result.now ≡ self.now.taken.items }
    {
        &self.taken
    }

    /// The numbers of bytes read and taken.
    pub(crate) fn counts(&self) -> (u64, u64)
        ensures { (p : Past) → StreamPast self.now p → (result.0 ≡ length p.read) × (result.1 ≡ length p.taken) }
    {
        (self.read_len as u64, self.taken.len() as u64)
    }

    /// Reads as the answer says.
    pub(crate) fn read(&mut self, answer: ReadAnswer, buf: &mut [u8]) -> Got
        requires { 0 < length buf.old }
        ensures fits { FitsRoom (length buf.old) result }
        ensures keeps { length buf.new ≡ length buf.old }
        ensures past { (p : Past) → StreamPast self.old p → StreamPast self.new (after_read p buf.new result) }
    {
        match answer {
            ReadAnswer::Bytes(most) => match copy_front(&self.input[self.read_len..], most, buf) {
                0 => {
                    self.read_waits = self.read_waits.saturating_add(1);
                    Got::Wait
                }
                n => {
                    self.read_len += n;
                    self.reads = self.reads.saturating_add(1);
                    Got::Bytes(n)
                }
            },
            ReadAnswer::Ended => {
                self.ends = self.ends.saturating_add(1);
                Got::Ended
            }
            ReadAnswer::Wait => {
                self.read_waits = self.read_waits.saturating_add(1);
                Got::Wait
            }
            ReadAnswer::Fault => {
                self.faults = self.faults.saturating_add(1);
                Got::Fault
            }
        }
    }

    /// Takes as the answer says.
    pub(crate) fn write(&mut self, answer: WriteAnswer, bytes: &[u8]) -> Put
        requires { 0 < length bytes.now }
        ensures fits { FitsPut (length bytes.now) result }
        ensures past { (p : Past) → StreamPast self.old p → StreamPast self.new (after_write p bytes.now result) }
    {
        match answer {
            WriteAnswer::Took(most) => match self.take(most, bytes) {
                0 => {
                    self.write_waits = self.write_waits.saturating_add(1);
                    Put::Wait
                }
                n => {
                    self.writes = self.writes.saturating_add(1);
                    Put::Took(n)
                }
            },
            WriteAnswer::Wait => {
                self.write_waits = self.write_waits.saturating_add(1);
                Put::Wait
            }
            WriteAnswer::Fault => {
                self.faults = self.faults.saturating_add(1);
                Put::Fault
            }
        }
    }

    /// Keeps the first bytes, at most this many, as far as there is room.
    fn take(&mut self, most: usize, bytes: &[u8]) -> usize
        ensures count { result ≤ length bytes.now }
        ensures taken { self.new.taken.items ≡ self.old.taken.items ++ take result bytes.now }
        ensures rest { self.new ≡ record self.old { taken = self.new.taken } }
    {
        let room = self.taken.capacity() - self.taken.len();
        let count = most.min(bytes.len()).min(room);
        match self.taken.extend_from_slice(&bytes[..count]) {
            Ok(()) => count,
            Err(_) => 0,
        }
    }
}

/// Copies the start of what is left, as much as fits and at most this many bytes.
fn copy_front(rest: &[u8], most: usize, buf: &mut [u8]) -> usize
    ensures there { result ≤ length rest.now }
    ensures fits { result ≤ length buf.old }
    ensures keeps { length buf.new ≡ length buf.old }
    ensures copied { take result buf.new ≡ take result rest.now }
{
    let count = most.min(rest.len()).min(buf.len());
    buf[..count].copy_from_slice(&rest[..count]);
    count
}
