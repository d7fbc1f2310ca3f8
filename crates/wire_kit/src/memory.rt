//! A wire in memory, whose answers are given as lists.

ghost use Rattle.std.specs.Prelude.{◌≡◌, ◌≤◌, IfOk, vec_capacity};
ghost use Rattle.wire_kit.specs.Past.{Past, nothing_yet};
ghost use Rattle.wire_kit.specs.Memory.{IsPast, total_room};

use crate::stream::{ReadAnswer, Stream, WriteAnswer};
use crate::wire::{Got, Put, Wire};
use std::alloc::{AllocError, Global};

/// A wire that gives the bytes it was made with, and keeps those that it takes. After its last answer it answers `Wait`.
///
/// ```
/// let reads = vec![in alloc; ReadAnswer::Bytes(2), ReadAnswer::Wait]?;
/// let writes = vec![in alloc; WriteAnswer::Took(1)]?;
/// let mut wire = MemoryWire::new(alloc, b"abc".to_vec(alloc)?, reads, writes)?;
/// let mut buf = [0; 8];
/// assert_eq!(rt; wire.try_read(&mut buf), Got::Bytes(2));
/// assert_eq!(rt; wire.try_read(&mut buf), Got::Wait);
/// assert_eq!(rt; wire.try_write(b"xyz"), Put::Took(1));
/// assert_eq!(rt; wire.taken(), b"x".as_slice());
/// ```
#[derive(Drop)]
pub struct MemoryWire {
    stream: Stream,
    reads: Vec<ReadAnswer>,
    next_read: usize,
    writes: Vec<WriteAnswer>,
    next_write: usize,
}

impl MemoryWire {
    /// A wire that gives these bytes as `reads` says, and takes bytes as `writes` says. It reserves room for all that
    /// it may take. `NoMemory` if that finds no memory.
    pub fn new(
        alloc: Global,
        input: Vec<u8>,
        reads: Vec<ReadAnswer>,
        writes: Vec<WriteAnswer>,
    ) -> Result<MemoryWire, AllocError>
        ensures past { IfOk result (λ wire. IsPast wire nothing_yet) }
        ensures room { IfOk result (λ wire. vec_capacity wire.stream.taken ≡ total_room writes.items) }
    {
        let room = room_for(&writes)?;
        Ok(MemoryWire {
            stream: Stream::new(alloc, input, room)?,
            reads,
            next_read: 0,
            writes,
            next_write: 0,
        })
    }

    /// All that was taken so far.
    pub fn taken(&self) -> &[u8]
        ensures { (p : Past) → IsPast self.now p → result.now ≡ p.taken }
    {
        self.stream.taken()
    }
}

/// The next answer of a list, or `otherwise` after its end.
fn next_answer<A: Copy>(answers: &[A], next: &mut usize, otherwise: A) -> A {
    match answers.get(*next) {
        Some(answer) => {
            *next += 1;
            *answer
        }
        None => otherwise,
    }
}

/// The room for all that these answers let a wire take. An error if no memory has that much.
fn room_for(answers: &[WriteAnswer]) -> Result<usize, AllocError>
    ensures { IfOk result (λ room. room ≡ total_room answers.now) }
{
    let mut room: usize = 0;
    for answer in answers {
        if let WriteAnswer::Took(n) = answer {
            room = room.checked_add(*n).ok_or(AllocError)?;
        }
    }
    Ok(room)
}

impl Wire for MemoryWire {
    ghost past = { IsPast };

    fn try_read(&mut self, buf: &mut [u8]) -> Got {
        let answer = next_answer(&self.reads, &mut self.next_read, ReadAnswer::Wait);
        self.stream.read(answer, buf)
    }

    fn try_write(&mut self, bytes: &[u8]) -> Put {
        let answer = next_answer(&self.writes, &mut self.next_write, WriteAnswer::Wait);
        self.stream.write(answer, bytes)
    }

    fn counts(&self) -> (u64, u64) {
        self.stream.counts()
    }
}
