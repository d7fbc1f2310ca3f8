//! The end of an HTTP body (RFC 9112, section 6.3), and a reader that is fed in pieces of any size.

ghost use Rattle.std.specs.Prelude.{◌≡◌, ℕ, ◌+◌, ◌-◌, ◌<◌, ◌≤◌, ◌++◌, List, [], length, take, slice_range, Some, None, Err, IfOk, IfErr, IfSome, IsOkAnd, OnOk, IsTrue, ◌↔◌, true, if◌then◌else◌, false, is_some, min};
ghost use Rattle.icap_chunks.specs.Faults.{Breaks};
ghost use Rattle.icap_chunks.specs.Machine.{HasRead as chunks_read, end_of, fault_of as chunk_fault};
ghost use Rattle.http_side.specs.declared.body.Progress.TheVariants.{Left, Chunks};
ghost use Rattle.http_side.specs.Body.{IsBody, IsClosedBody, HasRead, is_over, fault_of, end_said, is_in_data, runs_past};
ghost use Rattle.http_side.specs.declared.body.Framing.{Framing as Way};
ghost use Rattle.http_side.specs.declared.body.Framing.TheVariants.{Chunked};
ghost use Rattle.http_side.specs.declared.body.BodyReader.{BodyReader as Reader};

use icap_chunks::{ChunkFault, ChunkReader, Fed};

/// Where a body ends (RFC 9112, section 6.3).
#[derive(Clone, Copy, Debug, PartialEq, Eq)]
pub enum Framing {
    /// No body.
    None,
    /// After this many bytes.
    Length(u64),
    /// After its last chunk and the trailers that follow it (RFC 9112, section 7.1).
    Chunked,
    /// With the connection; in responses only.
    Close,
}

/// A reader of one body, fed in pieces of any size. It keeps numbers only and never allocates.
#[derive(Clone, Copy)]
pub struct BodyReader {
    place: Progress,
}

/// What is left of a body.
#[derive(Clone, Copy, Debug)]
enum Progress {
    /// This many bytes.
    Left(u64),
    Chunks(ChunkReader),
    /// All bytes up to the close.
    Open,
}

impl BodyReader {
    /// A reader before the first byte of a body with this framing.
    pub fn new(framing: Framing) -> BodyReader
        ensures { HasRead framing [] [] result }
    {
        let place = match framing {
            Framing::None => Progress::Left(0),
            Framing::Length(count) => Progress::Left(count),
            Framing::Chunked => Progress::Chunks(ChunkReader::new()),
            Framing::Close => Progress::Open,
        };
        BodyReader { place }
    }

    /// Reads the next piece of input, up to the end of a run of body bytes, of the body or of the piece. It never uses
    /// a byte after the body's end. After a fault, which only chunks can have, every call returns it again.
    pub fn feed(&mut self, piece: &[u8]) -> Result<Fed, ChunkFault>
        ensures within { IfOk result (λ fed. (fed.part.0 ≤ fed.part.1) × (fed.part.1 ≤ fed.used) × (fed.used ≤ length piece.now)) }

        // What was read before, then the bytes used; and the body so far, then the part.
        ensures read { IfOk result (λ fed. (framing : Way) (text body : List ℕ) → HasRead framing text body self.old
            → HasRead framing (text ++ take fed.used piece.now) (body ++ slice_range piece.now fed.part.0 fed.part.1) self.new) }
        ensures ended { IfOk result (λ fed. fed.ended ≡ end_said self.new) }
        ensures no_fault { OnOk result (fault_of self.new ≡ None) }

        // It stops at the end of the body, or after a whole run, and else after the whole piece.
        ensures stops { IfOk result (λ fed. fed.used < length piece.now → fed.ended ≡ None
            → (fed.part.0 < fed.part.1) × (fed.used ≡ fed.part.1) × (is_in_data self.new ≡ false)) }

        // The body bytes are the last ones that it used; without any the part is empty, and stands there too.
        ensures part_end { IfOk result (λ fed. fed.part.1 ≡ fed.used) }
        ensures over { IsTrue (is_over self.old) → (self.new ≡ self.old) × IsOkAnd result (λ fed. (fed.used ≡ 0) × (fed.ended ≡ Some false)) }

        // Chunks alone can be broken, by a byte with no byte of the body before it in the piece, or by an earlier one.
        ensures fault { IfErr result (λ fault. (framing : Way) (text body : List ℕ) → HasRead framing text body self.old
            → (framing ≡ Chunked) × Breaks (text ++ piece.now) body fault) }
        ensures stays { IfErr result (λ fault. fault_of self.new ≡ Some fault) }
        ensures faulted { IfSome (fault_of self.old) (λ fault. result ≡ Err fault) }
    {
        match self.place {
            Progress::Left(left) => Ok(self.read_counted(left, piece.len())),
            Progress::Chunks(chunks) => self.read_chunks(chunks, piece),
            Progress::Open => Ok(Fed {
                used: piece.len(),
                part: (0, piece.len()),
                ended: None,
            }),
        }
    }

    /// Reads bytes of a counted body: as many as are there and belong to it.
    fn read_counted(&mut self, left: u64, room: usize) -> Fed
        ensures count { result.used ≡ min left room }
        ensures part { result.part ≡ (0, result.used) }
        ensures place { self.new.place ≡ Left (left - result.used) }
        ensures ended { result.ended ≡ end_said self.new }
    {
        let count = left.min(room as u64);
        self.place = Progress::Left(left - count);
        Fed {
            used: count as usize,
            part: (0, count as usize),
            ended: if count == left { Some(false) } else { None },
        }
    }

    fn read_chunks(&mut self, mut chunks: ChunkReader, piece: &[u8]) -> Result<Fed, ChunkFault>
        ensures within { IfOk result (λ fed. (fed.part.0 ≤ fed.part.1) × (fed.part.1 ≤ fed.used) × (fed.used ≤ length piece.now)) }
        ensures read { IfOk result (λ fed. (text body : List ℕ) → chunks_read text body chunks
            → HasRead Chunked (text ++ take fed.used piece.now) (body ++ slice_range piece.now fed.part.0 fed.part.1) self.new) }
        ensures ended { IfOk result (λ fed. fed.ended ≡ end_said self.new) }
        ensures no_fault { OnOk result (fault_of self.new ≡ None) }
        ensures stops { IfOk result (λ fed. fed.used < length piece.now → fed.ended ≡ None
            → (fed.part.0 < fed.part.1) × (fed.used ≡ fed.part.1) × (is_in_data self.new ≡ false)) }
        ensures part_end { IfOk result (λ fed. fed.part.1 ≡ fed.used) }
        ensures over { IsTrue (is_some (end_of chunks)) → (self.new.place ≡ Chunks chunks) × IsOkAnd result (λ fed. (fed.used ≡ 0) × (fed.ended ≡ Some false)) }
        ensures fault { IfErr result (λ fault. (text body : List ℕ) → chunks_read text body chunks → Breaks (text ++ piece.now) body fault) }
        ensures stays { IfErr result (λ fault. fault_of self.new ≡ Some fault) }
        ensures faulted { IfSome (chunk_fault chunks) (λ fault. result ≡ Err fault) }
    {
        let fed = chunks.feed(piece);
        self.place = Progress::Chunks(chunks);
        let fed = fed?;
        Ok(Fed {
            used: fed.used,
            part: fed.part,
            ended: fed.ended.map(|_| false),
        })
    }

    /// Whether so many bytes that come next are the body's, whatever they are, and further ones after them. Of chunks this is never said.
    pub fn runs_past(&self, count: u64) -> bool
        ensures { result ≡ runs_past count self.now }
    {
        match self.place {
            Progress::Left(left) => count < left,
            Progress::Chunks(_) => false,
            Progress::Open => true,
        }
    }

    /// Takes further bytes of the body, which are all its own, and after which it goes on.
    pub fn take_run(&mut self, run: &[u8])
        requires { runs_past (length run.now) self.old ≡ true }
        ensures read { (framing : Way) (text body : List ℕ) → HasRead framing text body self.old → HasRead framing (text ++ run.now) (body ++ run.now) self.new }
        ensures over { is_over self.new ≡ false }
    {
        match self.place {
            Progress::Left(left) => self.place = Progress::Left(left - run.len() as u64),
            Progress::Chunks(_) | Progress::Open => {}
        }
    }

    /// Whether the body has ended.
    pub fn has_ended(&self) -> bool
        ensures { result ≡ is_over self.now }
    {
        match self.place {
            Progress::Left(left) => left == 0,
            Progress::Chunks(chunks) => chunks.has_ended(),
            Progress::Open => false,
        }
    }

    /// Whether the body is complete if the connection closes now.
    pub fn at_close(&self) -> bool
        ensures { (framing : Way) (text body : List ℕ) → HasRead framing text body self.now → (IsTrue result ↔ IsClosedBody framing text body) }
    {
        match self.place {
            Progress::Left(left) => left == 0,
            Progress::Chunks(chunks) => chunks.has_ended(),
            Progress::Open => true,
        }
    }
}

/// A reader is over exactly where what it has read is a whole body.
pub fn ends_with_the_body()
    ensures { (framing : Way) (text body : List ℕ) (reader : Reader) → HasRead framing text body reader → (IsTrue (is_over reader) ↔ IsBody framing text body) }
{}
