//! The reader of a chunked body. It keeps numbers only; a run of body bytes is a range of the input and is never
//! scanned.
ghost use Rattle.std.specs.Prelude.{◌≡◌, ℕ, ◌+◌, ◌<◌, ◌≤◌, ◌++◌, true, false, List, IfOk, IfErr, IfSome, IsOkAnd, Err, OnOk, is_some, [], length, take, slice_range, Some, None, min};
ghost use Rattle.icap_chunks.specs.declared.positions.Position.TheVariants.{Data};
ghost use Rattle.icap_chunks.specs.Machine.{start, step, run, body_of, end_of, fault_of, end_at, is_in_data, pauses_at, data_behind, in_line_cr, HasRead};
ghost use Rattle.icap_chunks.specs.Faults.{Breaks};

use crate::fault::ChunkFault;
use crate::positions::{
    Position, in_data, in_data_cr, in_data_end, in_digits, in_extension, in_last_cr, in_pad,
    in_trailer, in_trailer_cr, in_trailer_start,
};
use adapt_bytes::COUNT_LIMIT;

/// What one call of `feed` found in its piece of input.
#[derive(Clone, Copy)]
pub struct Fed {
    /// The number of bytes of the piece that were read.
    pub used: usize,
    /// The range of the piece that is body, `(from, to)` with `to` excluded. Without body bytes both are `used`.
    pub part: (usize, usize),
    /// `Some` once the body has ended: `true` if it ended with `ieof`.
    pub ended: Option<bool>,
}

/// A reader of one chunked body, fed in pieces of any size. It keeps numbers only and never allocates.
///
/// ```
/// let text = b"5\r\nhello\r\n0; ieof\r\n\r\n";
/// let mut reader = ChunkReader::new();
/// let run = reader.feed(text)?;
/// assert_eq!(rt; run.part, (3, 8));
/// let rest = reader.feed(&text[run.used..])?;
/// assert_eq!(rt; rest.ended, Some(true));
/// ```
#[derive(Clone, Copy, Debug)]
pub struct ChunkReader {
    sum: u64,
    place: Position,
}

impl ChunkReader {
    /// A reader before the first byte of a body.
    pub fn new() -> ChunkReader
        ensures { result ≡ start }
    {
        ChunkReader {
            sum: 0,
            place: Position::Digits(0, 0),
        }
    }

    /// Reads the next piece of input, up to the end of one run of body bytes, of the body or of the piece.
    ///
    /// After the end of the body it uses nothing and reports again how the body ended. If a byte breaks the grammar,
    /// the body bytes before it are handed out first, by calls that succeed. The call that reaches the byte
    /// returns the fault, and so does every later one.
    pub fn feed(&mut self, piece: &[u8]) -> Result<Fed, ChunkFault>
        ensures within { IfOk result (λ fed. (fed.part.0 ≤ fed.part.1) × (fed.part.1 ≤ fed.used) × (fed.used ≤ length piece.now)) }

        // What was read before, then the bytes used; and the body so far, then the part.
        ensures read { IfOk result (λ fed. (text body : List ℕ) → HasRead text body self.old
            → HasRead (text ++ take fed.used piece.now) (body ++ slice_range piece.now fed.part.0 fed.part.1) self.new) }
        ensures ended { IfOk result (λ fed. fed.ended ≡ end_of self.new) }
        ensures no_fault { OnOk result (fault_of self.new ≡ None) }

        // It stops at the end of the body, or after a whole run, and else after the whole piece.
        ensures stops { IfOk result (λ fed. fed.used < length piece.now → fed.ended ≡ None
            → (fed.part.0 < fed.part.1) × (fed.used ≡ fed.part.1) × (is_in_data self.new ≡ false)) }

        // The body bytes are the last ones that it used; without any the part is empty, and stands there too.
        ensures part_end { IfOk result (λ fed. fed.part.1 ≡ fed.used) }

        // The piece has a byte that breaks the grammar, with no byte of the body before it, or an earlier one had.
        ensures fault { IfErr result (λ fault. (text body : List ℕ) → HasRead text body self.old → Breaks (text ++ piece.now) body fault) }
        ensures stays { IfErr result (λ fault. fault_of self.new ≡ Some fault) }
        ensures faulted { IfSome (fault_of self.old) (λ fault. result ≡ Err fault) }
        ensures over { IfSome (end_of self.old) (λ ieof. (self.new ≡ self.old) × IsOkAnd result (λ fed. (fed.used ≡ 0) × (fed.ended ≡ Some ieof))) }
    {
        self.read_piece(piece)
    }

    /// Whether the body has ended.
    #[tactic(auto, unfolding(crate::specs::Machine::end_at))]
    pub fn has_ended(&self) -> bool
        ensures { result ≡ is_some (end_of self.now) }
    {
        matches!(self.place, Position::Ended(_))
    }

    fn read_piece(&mut self, piece: &[u8]) -> Result<Fed, ChunkFault>
        ensures within { IfOk result (λ fed. (fed.part.0 ≤ fed.part.1) × (fed.part.1 ≤ fed.used) × (fed.used ≤ length piece.now)) }

        // The reader has read the bytes used, and no others, and the part is what they have of the body.
        ensures read { IfOk result (λ fed. self.new ≡ run self.old (take fed.used piece.now)) }
        ensures part { IfOk result (λ fed. slice_range piece.now fed.part.0 fed.part.1 ≡ body_of self.old (take fed.used piece.now)) }
        ensures ended { IfOk result (λ fed. fed.ended ≡ end_of self.new) }
        ensures no_fault { OnOk result (fault_of self.new ≡ None) }

        // Nothing after the end is used.
        ensures end_first { IfOk result (λ fed. (k : ℕ) → k < fed.used → end_of (run self.old (take k piece.now)) ≡ None) }

        // It stops at the end of the body, or after a whole run.
        ensures stops { IfOk result (λ fed. fed.used < length piece.now → fed.ended ≡ None
            → (fed.part.0 < fed.part.1) × (fed.used ≡ fed.part.1) × (is_in_data self.new ≡ false)) }
        ensures part_end { IfOk result (λ fed. fed.part.1 ≡ fed.used) }

        // The piece has a byte that breaks the grammar, with no byte of the body before it, or an earlier one had.
        ensures fault { IfErr result (λ fault. fault_of self.new ≡ Some fault) }
        ensures fault_read { IfErr result (λ fault. self.new ≡ run self.old piece.now) }
        ensures fault_part { IfErr result (λ fault. body_of self.old piece.now ≡ []) }
    {
        let framing = self.read_framing(piece);
        let rest = piece.len() - framing;
        match self.place {
            Position::Faulted(fault) => Err(fault),
            Position::Data(more) => {
                let run = self.read_data(more, rest);
                Ok(Fed {
                    used: framing + run,
                    part: (framing, framing + run),
                    ended: None,
                })
            }
            Position::Ended(ieof) => Ok(Fed {
                used: framing,
                part: (framing, framing),
                ended: Some(ieof),
            }),
            _ => Ok(Fed {
                used: framing,
                part: (framing, framing),
                ended: None,
            }),
        }
    }

    /// Whether no framing is read next: in a run of body bytes, at the end, or at a fault.
    #[tactic(auto, unfolding(crate::specs::Machine::pauses_at))]
    fn pauses(&self) -> bool
        ensures { result ≡ pauses_at self.now.place }
    {
        matches!(
            self.place,
            Position::Data(_) | Position::Ended(_) | Position::Faulted(_)
        )
    }

    /// Reads the framing at the start of the piece, and returns its number of bytes.
    fn read_framing(&mut self, piece: &[u8]) -> usize
        ensures within { result ≤ length piece.now }
        ensures read { self.new ≡ run self.old (take result piece.now) }
        ensures framing { (k : ℕ) → k < result → pauses_at (run self.old (take k piece.now)).place ≡ false }
        ensures stops { result < length piece.now → pauses_at self.new.place ≡ true }
    {
        let mut used = 0;
        for byte in piece {
            if self.pauses() {
                return used;
            }
            *self = self.step(*byte);
            used += 1;
        }
        used
    }

    /// Reads bytes of the body: as many as are there and belong to it.
    fn read_data(&mut self, more: u64, room: usize) -> usize
        requires { self.old.place ≡ Data more }
        ensures count { result ≡ min (more + 1) room }
        ensures read { self.new ≡ data_behind self.old.sum more result }
    {
        if room == 0 {
            return 0;
        }
        let behind = more.min((room - 1) as u64);
        self.place = if behind < more {
            Position::Data(more - behind - 1)
        } else {
            Position::DataEnd
        };
        behind as usize + 1
    }

    /// The reader with one more byte.
    #[tactic(auto, unfolding(crate::specs::Machine::step))]
    fn step(self, byte: u8) -> ChunkReader
        ensures { result ≡ step self byte }
    {
        let sum = self.sum;
        let place = match self.place {
            Position::Digits(count, size) => in_digits(count, size, byte),
            Position::Pad(count, size) => in_pad(count, size, byte),
            Position::Extension(count, size, item, found) => {
                in_extension(count, size, item, found, byte)
            }
            Position::LineCr(size, ieof) => return in_line_cr(sum, size, ieof, byte),
            Position::Data(more) => in_data(more),
            Position::DataEnd => in_data_end(byte),
            Position::DataCr => in_data_cr(byte),
            Position::TrailerStart(count, ieof) => in_trailer_start(count, ieof, byte),
            Position::Trailer(count, ieof) => in_trailer(count, ieof, byte),
            Position::TrailerCr(count, ieof) => in_trailer_cr(count, ieof, byte),
            Position::LastCr(count, ieof) => in_last_cr(count, ieof, byte),
            Position::Ended(ieof) => Position::Ended(ieof),
            Position::Faulted(fault) => Position::Faulted(fault),
        };
        ChunkReader { sum, place }
    }
}

/// The reader after the size line whose CR it has read.
#[tactic(auto, unfolding(crate::specs::Machine::in_line_cr))]
fn in_line_cr(sum: u64, size: u64, ieof: bool, byte: u8) -> ChunkReader
    ensures { result ≡ in_line_cr sum size ieof byte }
{
    if byte != b'\n' {
        return ChunkReader {
            sum,
            place: Position::Faulted(ChunkFault::Line),
        };
    }
    if sum >= COUNT_LIMIT || size >= COUNT_LIMIT - sum {
        return ChunkReader {
            sum,
            place: Position::Faulted(ChunkFault::TooBig),
        };
    }
    let place = if size == 0 {
        Position::TrailerStart(0, ieof)
    } else {
        Position::Data(size - 1)
    };
    ChunkReader {
        sum: sum + size,
        place,
    }
}
