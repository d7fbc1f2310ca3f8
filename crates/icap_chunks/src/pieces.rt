//! Reading a whole text, cut into pieces in any way.
ghost use Rattle.std.specs.Prelude.{◌≡◌, ℕ, ◌<◌, ◌≤◌, List, IfOk, IfSome, Ok, None, length};
ghost use Rattle.icap_chunks.specs.Collected.{HasReadTo};
ghost use Rattle.icap_chunks.specs.Reading.{IsReading};

use crate::fault::ChunkFault;
use crate::reader::ChunkReader;
use std::alloc::{AllocError as NoMemory, Global};

/// The outcome of reading a text.
#[derive(Clone, Copy, Debug, PartialEq, Eq)]
pub enum Outcome {
    /// The text is a prefix of a body: more must come.
    More,
    /// The body has ended.
    Ended {
        /// Whether it ended with `ieof`.
        ieof: bool,
        /// The number of bytes of the text that the body took; the rest is left over.
        used: usize,
    },
    /// A byte breaks the grammar.
    Faulted(ChunkFault),
}

/// A text read as a chunked body.
#[derive(Drop)]
pub struct Reading {
    /// The body's bytes, up to the end, the fault or the end of the text.
    pub body: Vec<u8>,
    /// The outcome.
    pub outcome: Outcome,
}

/// Reads a text that comes in pieces of `piece_size` bytes, the last one of what is left.
///
/// The answer doesn't depend on the size of the pieces. `NoMemory` if the body finds no memory.
pub fn read_in_pieces(alloc: Global, text: &[u8], piece_size: usize) -> Result<Reading, NoMemory>
    requires { 0 < piece_size }
    ensures { IfOk result (λ reading. IsReading text.now reading.body.items reading.outcome) }
{
    let mut collector = Collector::new(alloc);
    while collector.at < text.len() {
        let end = piece_end(collector.at, piece_size, text.len());
        if let Some(outcome) = collector.read_to(text, end)? {
            return Ok(collector.reading(outcome));
        }
    }
    Ok(collector.reading(Outcome::More))
}

/// Reads a text that comes in pieces of these sizes, with the rest as a last piece: any way to cut it.
///
/// The answer doesn't depend on the sizes. `NoMemory` if the body finds no memory.
pub fn read_cut(alloc: Global, text: &[u8], sizes: &[usize]) -> Result<Reading, NoMemory>
    ensures { IfOk result (λ reading. IsReading text.now reading.body.items reading.outcome) }
{
    let mut collector = Collector::new(alloc);
    for size in sizes {
        let end = piece_end(collector.at, *size, text.len());
        if let Some(outcome) = collector.read_to(text, end)? {
            return Ok(collector.reading(outcome));
        }
    }
    match collector.read_to(text, text.len())? {
        Some(outcome) => Ok(collector.reading(outcome)),
        None => Ok(collector.reading(Outcome::More)),
    }
}

/// A reader with the body that it has found, up to an offset of a text.
#[derive(Drop)]
pub(crate) struct Collector {
    reader: ChunkReader,
    body: Vec<u8>,
    at: usize,
}

impl Collector {
    #[tactic(auto, unfolding(crate::specs::Machine::end_at, crate::specs::Machine::faulted_at))]
    fn new(alloc: Global) -> Collector
        ensures read { (text : List ℕ) → HasReadTo text result }
        ensures at { result.at ≡ 0 }
    {
        Collector {
            reader: ChunkReader::new(),
            body: Vec::new(alloc),
            at: 0,
        }
    }

    /// Reads the piece of the text up to `end`. Returns the outcome once the body has ended or a byte breaks the
    /// grammar.
    fn read_to(&mut self, text: &[u8], end: usize) -> Result<Option<Outcome>, NoMemory>
        requires low { self.old.at ≤ end }
        requires high { end ≤ length text.now }
        requires read { HasReadTo text.now self.old }
        ensures more { result ≡ Ok None → HasReadTo text.now self.new × (self.new.at ≡ end) }
        ensures found { IfOk result (λ found. IfSome found (λ outcome. IsReading text.now self.new.body.items outcome)) }
    {
        while self.at < end {
            let rest = &text[self.at..end];
            match self.reader.feed(rest) {
                Ok(fed) => {
                    let part = &rest[fed.part.0..fed.part.1];
                    self.body.extend_from_slice(part)?;
                    self.at += fed.used;
                    if let Some(ieof) = fed.ended {
                        let used = self.at;
                        return Ok(Some(Outcome::Ended { ieof, used }));
                    }
                }
                Err(fault) => return Ok(Some(Outcome::Faulted(fault))),
            }
        }
        Ok(None)
    }

    fn reading(self, outcome: Outcome) -> Reading
        ensures body { result.body.items ≡ self.body.items }
        ensures outcome { result.outcome ≡ outcome }
    {
        let Collector { body, .. } = self;
        Reading { body, outcome }
    }
}

/// Where a piece ends that begins at an offset of a text.
fn piece_end(at: usize, size: usize, len: usize) -> usize
    requires { at ≤ len }
    ensures low { at ≤ result }
    ensures high { result ≤ len }
    ensures more { 0 < size → at < len → at < result }
{
    if size < len - at { at + size } else { len }
}
