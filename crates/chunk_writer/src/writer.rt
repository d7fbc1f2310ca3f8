//! The text of one message: what is fixed of it and not yet out.

ghost use Rattle.std.specs.Prelude.{◌≡◌, ℕ, ◌+◌, ◌-◌, ◌<◌, ◌≤◌, ◌++◌, ◌⊎◌, List, [], length, drop, take, true, false, min};
ghost use Rattle.span_tape.specs.Tape.{Tape};
ghost use Rattle.chunk_writer.specs.Writer.{Writer, fresh, waiting, begun, fixed, sent_on, after_data, bytes_of, end_text, is_ending, data_text, chunk_text, next_text, FitsTurn, KeepsNoText};
ghost use Rattle.chunk_writer.specs.Moves.{Moves};
ghost use Rattle.adapt_bytes.specs.declared.limits.TheConstants.{COUNT_LIMIT};
ghost use Rattle.chunk_writer.specs.declared.next.TheConstants.{MAX_CHUNK};

mod offering;

use crate::head::HeadText;
use crate::next::{Ending, MAX_CHUNK, Next};
use adapt_bytes::Small;
use icap_chunks::{put_chunk_head, put_chunk_tail, put_last};
use std::marker::Model;
use wire_kit::Put;

/// What a turn wrote.
#[derive(Clone, Copy)]
pub struct Wrote {
    /// What the wire answered, or `None` if nothing was to be offered.
    pub answer: Option<Put>,
    /// The number of body bytes that were taken.
    pub sent: u64,
    /// Whether the body's end is fixed.
    pub ended: bool,
}

/// The text of one message. It keeps no body byte: these stay on their tape until the wire took them.
///
/// ```
/// let mut writer = ChunkWriter::new(b"HTTP/1.1 200 OK\r\n\r\n".to_vec(alloc)?);
/// let next = Next { chunked: true, from: 0, count: 0, end: Ending::LastChunk(false) };
/// let writes = vec![in alloc; WriteAnswer::Took(64)]?;
/// let mut wire = MemoryWire::new(alloc, Vec::new(alloc), Vec::new(alloc), writes)?;
/// let wrote = writer.write(&next, &SpanTape::new(), &mut wire, &mut [0; WRITE_ROOM]);
/// assert!(rt; wrote.ended && writer.is_out());
/// assert_eq!(rt; wire.taken(), b"HTTP/1.1 200 OK\r\n\r\n0\r\n\r\n".as_slice());
/// ```
#[derive(Drop)]
pub struct ChunkWriter {
    head: HeadText,
    head_out: usize,
    framing: Small,
    framing_out: usize,
    left: u64,
}

impl Model for ChunkWriter {
    ghost use Rattle.std.specs.Prelude.{◌≤◌, length};
    ghost use Rattle.chunk_writer.specs.Writer.{Writer, text_of, HoldsNoMore};

    ghost Value = { Writer };

    ghost view = { λ w. record { head = text_of w.head; head_out = w.head_out; framing = w.framing.items; framing_out = w.framing_out; left = w.left } };

    ghost invariant = { λ w. (w.head_out ≤ length (text_of w.head)) × (w.framing_out ≤ length w.framing.items) × HoldsNoMore w.head };
}

impl ChunkWriter {
    /// A message with this text before its body.
    pub fn new(head: Vec<u8>) -> ChunkWriter
        ensures { result ≡ fresh head.items }
    {
        ChunkWriter {
            head: HeadText::of(head),
            head_out: 0,
            framing: Small::new(),
            framing_out: 0,
            left: 0,
        }
    }

    /// A message with this constant text before its body. It takes no memory.
    pub fn constant(head: &'static [u8]) -> ChunkWriter
        ensures { result ≡ fresh head.now }
    {
        ChunkWriter {
            head: HeadText::Constant(head),
            head_out: 0,
            framing: Small::new(),
            framing_out: 0,
            left: 0,
        }
    }

    /// Drops the head, once all of it is out: its memory is given back.
    #[tactic(auto, using(crate::proofs::Texts::some_left))]
    pub fn drop_text(&mut self)
        ensures waiting { waiting self.new ≡ waiting self.old }
        ensures framing { self.new.framing ≡ self.old.framing }
        ensures left { self.new.left ≡ self.old.left }
        ensures head { (self.new.head ≡ self.old.head) ⊎ (self.new.head ≡ []) }
        ensures dropped { self.old.head_out ≡ length self.old.head → self.new.head ≡ [] }
        ensures out { KeepsNoText self.new }
    {
        if self.head_out == self.head.as_slice().len() {
            self.head = HeadText::Constant(b"");
            self.head_out = 0;
        }
    }

    /// The memory that the text before the body holds, in bytes: 0 once it was given back.
    pub fn head_room(&self) -> usize
        ensures { self.now.head ≡ [] → result ≡ 0 }
    {
        self.head.room()
    }

    /// Begins the text anew. It takes no memory.
    pub fn restart(&mut self)
        ensures { self.new ≡ fresh self.old.head }
    {
        self.head_out = 0;
        self.framing = Small::new();
        self.framing_out = 0;
        self.left = 0;
    }

    /// The number of bytes that the chunk that was begun waits for; 0 if no chunk is begun.
    pub fn left(&self) -> u64
        ensures { result ≡ self.now.left }
    {
        self.left
    }

    /// How many body bytes may go next, `most` at most: all that fit into a turn, and into the chunk that was begun.
    pub fn fit(&self, chunked: bool, most: u64) -> u64
        ensures few { result ≤ MAX_CHUNK }
        ensures most { result ≤ most }
        ensures within { chunked ≡ true → 0 < self.now.left → result ≤ self.now.left }
        ensures some { 0 < most → 0 < result }
        ensures greatest { (n : ℕ) → n ≤ most → FitsTurn self.now chunked n → n ≤ result }
    {
        let few = most.min(MAX_CHUNK);
        if chunked && self.left > 0 {
            few.min(self.left)
        } else {
            few
        }
    }

    /// Whether all that is fixed is out.
    #[tactic(auto, using(crate::proofs::Texts::none_waits, crate::proofs::Texts::length_waiting))]
    pub fn is_out(&self) -> bool
        ensures out { result ≡ true → waiting self.now ≡ [] }
        ensures waits { result ≡ false → 0 < length (waiting self.now) }
    {
        self.head_out >= self.head.as_slice().len()
            && self.framing_out >= self.framing.as_slice().len()
    }

    /// Counts bytes of what waits that went out, and answers how many more went out.
    #[tactic(auto, using(crate::proofs::Texts::passed, crate::proofs::Texts::length_waiting))]
    fn pass(&mut self, count: usize) -> usize
        ensures rest { waiting self.new ≡ drop count (waiting self.old) }
        ensures more { result ≡ count - length (waiting self.old) }
        ensures head { self.new.head ≡ self.old.head }
        ensures framing { self.new.framing ≡ self.old.framing }
        ensures left { self.new.left ≡ self.old.left }
    {
        let of_head = count.min(self.head.as_slice().len() - self.head_out);
        let of_framing = (count - of_head).min(self.framing.as_slice().len() - self.framing_out);
        self.head_out += of_head;
        self.framing_out += of_framing;
        count - of_head - of_framing
    }

    /// Fixes the size line of a chunk.
    fn begin_chunk(&mut self, n: u64)
        requires some { 0 < n }
        requires fits { n < COUNT_LIMIT }
        ensures { self.new ≡ begun self.old n }
    {
        let mut framing = Small::new();
        put_chunk_head(n, &mut framing);
        self.framing = framing;
        self.framing_out = 0;
        self.left = n;
    }

    /// Fixes the text of the body's end.
    fn fix_end(&mut self, end: Ending)
        ensures { self.new ≡ fixed self.old (end_text end) }
    {
        let mut framing = Small::new();
        if let Ending::LastChunk(ieof) = end {
            put_last(ieof, &mut framing);
        }
        self.framing = framing;
        self.framing_out = 0;
    }

    /// Counts bytes of the chunk that went out, and fixes the chunk's end after its last one.
    fn count_out(&mut self, n: u64)
        requires { n ≤ self.old.left }
        ensures { self.new ≡ sent_on self.old n }
    {
        if n >= self.left {
            let mut framing = Small::new();
            put_chunk_tail(&mut framing);
            self.framing = framing;
            self.framing_out = 0;
        }
        self.left -= n;
    }

    /// Counts body bytes that went out.
    fn count_data(&mut self, chunked: bool, n: u64)
        requires { chunked ≡ true → n ≤ self.old.left }
        ensures { self.new ≡ after_data chunked self.old n }
    {
        if chunked {
            self.count_out(n);
        }
    }

    /// Whether a chunk is begun and waits for more bytes.
    fn is_in_chunk(&self, chunked: bool) -> bool
        ensures open { result ≡ true → (chunked ≡ true) × (0 < self.now.left) }
        ensures closed { result ≡ false → chunked ≡ true → self.now.left ≡ 0 }
    {
        chunked && self.left > 0
    }

    /// Counts the body's end, of which `count` bytes went out.
    fn finish(&mut self, count: usize, next: &Next) -> bool
        requires { waiting self.old ≡ [] }
        ensures moves { (tape : Tape) (old : Writer) (d : List ℕ) → Moves tape next.now old next.now.count false d self.old
            → Moves tape next.now old next.now.count result (d ++ take count (end_text next.now.end)) self.new }
        ensures ended { result ≡ is_ending next.now.end }
        ensures out { end_text next.now.end ≡ [] → waiting self.new ≡ [] }
    {
        if !next.end.ends() {
            return false;
        }
        self.fix_end(next.end);
        let _ = self.pass(count);
        true
    }

    /// Counts the body bytes and what follows them, of which `count` bytes went out.
    fn took_data(&mut self, count: usize, next: &Next) -> (u64, bool)
        requires out { waiting self.old ≡ [] }
        requires some { 0 < count }
        requires more { 0 < next.now.count }
        requires within { next.now.chunked ≡ true → next.now.count ≤ self.old.left }
        ensures { (tape : Tape) (old : Writer) (d : List ℕ) → length (bytes_of tape next.now) ≡ next.now.count
            → Moves tape next.now old 0 false d self.old
            → Moves tape next.now old result.0 result.1 (d ++ take count (data_text self.old.left tape next.now)) self.new }
    {
        let sent = (count as u64).min(next.count);
        self.count_data(next.chunked, sent);
        if sent < next.count {
            return (sent, false);
        }
        if self.is_in_chunk(next.chunked) {
            return (sent, false);
        }
        let rest = self.pass(count - sent as usize);
        if !self.is_out() {
            return (sent, false);
        }
        (sent, self.finish(rest, next))
    }

    /// Counts a chunk with what follows it, of which `count` bytes went out.
    fn took_chunk(&mut self, count: usize, next: &Next) -> (u64, bool)
        requires out { waiting self.old ≡ [] }
        requires none { self.old.left ≡ 0 }
        requires chunked { next.now.chunked ≡ true }
        requires more { 0 < next.now.count }
        requires few { next.now.count ≤ MAX_CHUNK }
        ensures { (tape : Tape) (old : Writer) (d : List ℕ) → length (bytes_of tape next.now) ≡ next.now.count
            → Moves tape next.now old 0 false d self.old
            → Moves tape next.now old result.0 result.1 (d ++ take count (chunk_text tape next.now)) self.new }
    {
        self.begin_chunk(next.count);
        let rest = self.pass(count);
        if rest == 0 {
            return (0, false);
        }
        if !self.is_out() {
            return (0, false);
        }
        self.took_data(rest, next)
    }

    /// Counts what comes next, of which `count` bytes went out.
    fn took_next(&mut self, count: usize, next: &Next) -> (u64, bool)
        requires out { waiting self.old ≡ [] }
        requires few { next.now.count ≤ MAX_CHUNK }
        requires within { next.now.chunked ≡ true → 0 < self.old.left → next.now.count ≤ self.old.left }
        ensures moves { (tape : Tape) (old : Writer) (d : List ℕ) → length (bytes_of tape next.now) ≡ next.now.count
            → Moves tape next.now old 0 false d self.old
            → Moves tape next.now old result.0 result.1 (d ++ take count (next_text self.old.left tape next.now)) self.new }
        ensures ended { next.now.count ≡ 0 → result.1 ≡ is_ending next.now.end }
    {
        if next.count == 0 {
            return (0, self.finish(count, next));
        }
        if count == 0 {
            return (0, false);
        }
        if next.chunked && self.left == 0 {
            self.took_chunk(count, next)
        } else {
            self.took_data(count, next)
        }
    }

    /// Counts what waits and what comes next, of which `count` bytes went out.
    fn took(&mut self, count: usize, next: &Next) -> (u64, bool)
        requires few { next.now.count ≤ MAX_CHUNK }
        requires within { next.now.chunked ≡ true → 0 < self.old.left → next.now.count ≤ self.old.left }
        ensures { (tape : Tape) → length (bytes_of tape next.now) ≡ next.now.count
            → Moves tape next.now self.old result.0 result.1 (take count (waiting self.old ++ next_text self.old.left tape next.now)) self.new }
    {
        let rest = self.pass(count);
        if !self.is_out() {
            return (0, false);
        }
        self.took_next(rest, next)
    }
}
