//! The retained bytes of a body, by their offsets.
ghost use Rattle.std.specs.Prelude.{◌≡◌, ◌+◌, ◌-◌, ◌<◌, ◌≤◌, [], ◌++◌, length, take, drop, min};
ghost use Rattle.adapt_bytes.specs.declared.limits.TheConstants.{COUNT_LIMIT};
ghost use Rattle.span_tape.specs.Tape.{Tape, end_of, from_place, page_count, pages_in};
ghost use Rattle.span_tape.specs.declared.tape.TheConstants.{MAX_TAPE};

use crate::queue::Queue;
use span_bank::{PAGE_BYTES, Pages};
use std::marker::Model;

/// The largest number of bytes that a tape keeps.
pub const MAX_TAPE: u64 = 1 << 50;

/// A retained body buffer: the bytes of one body from a base offset up to the last byte appended.
///
/// The bytes are stored on pages, in order. The last page may be partly filled, and a part of the
/// first may already be dropped. The tape neither allocates nor frees memory: `append` brings pages,
/// and `drop_to` returns them. Copying may walk over all its pages. Appending takes the same time whatever the
/// length of the tape.
///
/// ```
/// let mut tape = SpanTape::new();
/// let mut pages = bank.grow(rt, &mut stake, 5, tape.pages_for(5));
/// tape.append(b"hello", &mut pages);
/// let mut out = [0; 8];
/// assert_eq!(rt; tape.copy_out(3, &mut out), 2);
/// assert_eq!(rt; &out[..2], b"lo".as_slice());
/// let gone = tape.drop_to(5);
/// assert_eq!(rt; (tape.base(), tape.end()), (5, 5));
/// ```
#[derive(Drop)]
pub struct SpanTape {
    base: u64,
    start: u64,
    len: u64,
    pages: Queue,
}

impl Model for SpanTape {
    ghost use Rattle.std.specs.Prelude.{◌≡◌, ◌+◌, ◌*◌, ◌<◌, ◌≤◌, take, drop, length};
    ghost use Rattle.adapt_bytes.specs.declared.limits.TheConstants.{COUNT_LIMIT};
    ghost use Rattle.span_bank.specs.declared.step.TheConstants.{PAGE_BYTES};
    ghost use Rattle.span_tape.specs.Tape.{Tape, page_count};
    ghost use Rattle.span_tape.specs.declared.tape.TheConstants.{MAX_TAPE};

    ghost Value = { Tape };

    ghost view = { λ t. record {
      base = t.base;
      start = t.start;
      bytes = take t.len (drop t.start t.pages.text);
    } };

    ghost invariant = { λ t. (t.base + t.len < COUNT_LIMIT) × (t.len ≤ MAX_TAPE)
        × (t.start < PAGE_BYTES) × (t.len ≡ 0 → t.start ≡ 0)
        × (t.pages.count ≡ page_count (t.start + t.len))
        × (length t.pages.text ≡ PAGE_BYTES * t.pages.count) };
}

impl SpanTape {
    /// An empty tape at offset 0.
    pub fn new() -> SpanTape
        ensures { result ≡ record { base = 0; start = 0; bytes = [] } }
    {
        SpanTape {
            base: 0,
            start: 0,
            len: 0,
            pages: Queue::none(),
        }
    }

    /// The offset of the first retained byte.
    pub fn base(&self) -> u64
        ensures { result ≡ self.now.base }
    {
        self.base
    }

    /// The offset after the last retained byte.
    pub fn end(&self) -> u64
        ensures end { result ≡ end_of self.now }
        ensures small { result < COUNT_LIMIT }
    {
        self.base + self.len
    }

    /// The number of new pages that `n` more bytes need.
    pub fn pages_for(&self, n: u64) -> u64
        requires { n ≤ MAX_TAPE }
        ensures { result + pages_in self.now ≡ page_count (self.now.start + length self.now.bytes + n) }
    {
        (self.start + self.len + n).div_ceil(PAGE_BYTES) - self.pages.count()
    }

    /// Appends bytes, on as many new pages as `pages_for` says.
    #[tactic(auto, using(crate::proofs::PageLemmas::appended))]
    pub fn append(&mut self, bytes: &[u8], pages: &mut Pages)
        requires fits { end_of self.old + length bytes.now < COUNT_LIMIT }
        requires small { length self.old.bytes + length bytes.now ≤ MAX_TAPE }
        requires pages { page_count (self.old.start + length self.old.bytes + length bytes.now) ≤ pages_in self.old + pages.old }
        ensures tape { self.new ≡ record self.old { bytes = self.old.bytes ++ bytes.now } }
        ensures pages { pages.new + pages_in self.new ≡ pages.old + pages_in self.old }
    {
        self.pages.append(self.start + self.len, bytes, pages);
        self.len += bytes.len() as u64;
        // For the proof alone: how many bytes the pages have.
        let _count = self.pages.count();
    }

    /// Drops the bytes before an offset, and returns every page with no byte left. An offset past the
    /// end leaves an empty tape at that offset.
    #[tactic(auto, using(crate::proofs::PageLemmas::dropped))]
    pub fn drop_to(&mut self, place: u64) -> Pages
        requires from { self.old.base ≤ place }
        requires fits { place < COUNT_LIMIT }
        ensures tape { self.new ≡ from_place self.old place }
        ensures pages { result + pages_in self.new ≡ pages_in self.old }
    {
        let gone = place - self.base;
        self.base = place;
        if gone < self.len {
            let first = self.start + gone;
            self.start = first % PAGE_BYTES;
            self.len -= gone;
            self.pages.take_first(first / PAGE_BYTES)
        } else {
            self.start = 0;
            self.len = 0;
            let all = self.pages.count();
            self.pages.take_first(all)
        }
    }

    /// Copies bytes from an offset on, as many as there are and as fit, and returns their number.
    #[tactic(auto, using(crate::proofs::PageLemmas::copied))]
    pub fn copy_out(&self, from: u64, out: &mut [u8]) -> usize
        requires low { self.now.base ≤ from }
        requires high { from ≤ end_of self.now }
        ensures count { result ≡ min (length out.old) (end_of self.now - from) }
        ensures copied { out.new ≡ take result (drop (from - self.now.base) self.now.bytes) ++ drop result out.old }
    {
        let skipped = from - self.base;
        let count = (self.len - skipped).min(out.len() as u64) as usize;
        self.pages.copy_out(self.start + skipped, &mut out[..count]);
        count
    }
}
