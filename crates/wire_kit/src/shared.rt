//! Wires in memory that share one list of answers: each call on any of them takes the next.

ghost use Rattle.std.specs.Prelude.{◌≡◌, IfOk, vec_capacity};
ghost use Rattle.wire_kit.specs.Past.{Past, nothing_yet};

use crate::stream::{ReadAnswer, Stream, WriteAnswer};
use crate::wire::{Got, Put, Wire};
use std::alloc::{AllocError, Global};
use std::cell::Cell;

/// The answer to a read or a write.
#[derive(Clone, Copy, PartialEq, Eq)]
pub enum Answer {
    /// At most this many bytes are moved; `Wait` if none can be.
    Moved(usize),
    /// The other side has closed its direction; a write answers `Wait`.
    Ended,
    Wait,
    Fault,
}

/// Answers that several wires take in turn. After the last one the answer is `Wait`.
#[derive(Drop)]
pub struct Answers {
    list: Vec<Answer>,
    next: Cell<usize>,
}

impl Answers {
    /// Answers of which none was taken.
    pub fn new(list: Vec<Answer>) -> Answers {
        Answers {
            list,
            next: Cell::new(0),
        }
    }

    /// The next answer.
    fn take(&self) -> Answer {
        let at = self.next.get();
        match self.list.get(at) {
            Some(answer) => {
                self.next.set(at.saturating_add(1));
                *answer
            }
            None => Answer::Wait,
        }
    }
}

/// A wire that gives the bytes it was made with, keeps those that it takes, and shares its list of answers.
#[derive(Drop)]
pub struct SharedWire<'a> {
    stream: Stream,
    answers: &'a Answers,
}

impl<'a> SharedWire<'a> {
    ghost use Rattle.wire_kit.specs.Memory.{StreamPast};

    /// A wire that gives these bytes, with room for the bytes that it takes. `NoMemory` if that finds no memory.
    pub fn new(
        alloc: Global,
        answers: &'a Answers,
        input: Vec<u8>,
        room: usize,
    ) -> Result<SharedWire<'a>, AllocError>
        ensures past { IfOk result (λ wire. StreamPast wire.stream nothing_yet) }
        ensures room { IfOk result (λ wire. vec_capacity wire.stream.taken ≡ room) }
    {
        Ok(SharedWire {
            stream: Stream::new(alloc, input, room)?,
            answers,
        })
    }

    /// All that was taken so far.
    pub fn taken(&self) -> &[u8]
        ensures { (p : Past) → StreamPast self.now.stream p → result.now ≡ p.taken }
    {
        self.stream.taken()
    }
}

impl<'a> Wire for SharedWire<'a> {
    ghost use Rattle.wire_kit.specs.Memory.{StreamPast};

    ghost past = { λ wire. StreamPast wire.stream };

    fn try_read(&mut self, buf: &mut [u8]) -> Got {
        let answer = match self.answers.take() {
            Answer::Moved(n) => ReadAnswer::Bytes(n),
            Answer::Ended => ReadAnswer::Ended,
            Answer::Wait => ReadAnswer::Wait,
            Answer::Fault => ReadAnswer::Fault,
        };
        self.stream.read(answer, buf)
    }

    fn try_write(&mut self, bytes: &[u8]) -> Put {
        let answer = match self.answers.take() {
            Answer::Moved(n) => WriteAnswer::Took(n),
            Answer::Ended | Answer::Wait => WriteAnswer::Wait,
            Answer::Fault => WriteAnswer::Fault,
        };
        self.stream.write(answer, bytes)
    }

    fn counts(&self) -> (u64, u64) {
        self.stream.counts()
    }
}
