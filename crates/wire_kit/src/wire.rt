//! Non-blocking connections, by the answers of their reads and writes.

ghost use Rattle.std.specs.Prelude.{◌≡◌, ℕ, ◌<◌, [], length, true, false};
ghost use Rattle.wire_kit.specs.Past.{Past, FitsRoom, FitsPut, after_read, after_write};

/// The result of a read.
#[derive(Clone, Copy, Debug, PartialEq, Eq)]
pub enum Got {
    /// This many bytes, at least one, at the start of the buffer.
    Bytes(usize),
    /// The other side has closed its direction.
    Ended,
    /// Nothing now; try again later.
    Wait,
    /// The connection has failed.
    Fault,
}

/// The result of a write.
#[derive(Clone, Copy, Debug, PartialEq, Eq)]
pub enum Put {
    /// This many bytes were taken, at least one, from the start.
    Took(usize),
    /// No byte was taken; try again later.
    Wait,
    /// The connection has failed.
    Fault,
}

/// A connection that never blocks.
///
/// Contracts see a wire as its possible pasts: what may have happened on it so far. A wire that keeps its bytes has one
/// past. The wire of a socket keeps only counts, so each past with these counts is possible: there a clause about bytes
/// rests on the premise that the socket took and gave what it said.
pub trait Wire {
    ghost past: { Self → Past → Type 0 };

    /// Reads into the start of the buffer, which has room for at least one byte.
    fn try_read(&mut self, buf: &mut [u8]) -> Got
        requires { 0 < length buf.old }
        ensures fits { FitsRoom (length buf.old) result }
        ensures keeps { length buf.new ≡ length buf.old }
        ensures past { (p : Past) → past self.old p → past self.new (after_read p buf.new result) };

    /// Whether a read may find something now, by what the wire knows itself: no call is made. If not, this counts as a read
    /// that answered `Wait`; whoever asks first needs no buffer for it.
    fn may_give(&mut self) -> bool
        ensures waits { result ≡ false → (p : Past) → past self.old p → past self.new (after_read p [] Got.Wait) }
        ensures still { result ≡ true → (p : Past) → past self.old p → past self.new p }
    {
        true
    }

    /// Offers the bytes, at least one.
    fn try_write(&mut self, bytes: &[u8]) -> Put
        requires { 0 < length bytes.now }
        ensures fits { FitsPut (length bytes.now) result }
        ensures past { (p : Past) → past self.old p → past self.new (after_write p bytes.now result) };

    /// The bytes read and the bytes taken so far. Neither count overflows: at its largest value the wire answers `Wait`.
    fn counts(&self) -> (u64, u64)
        ensures { (p : Past) → past self.now p → (result.0 ≡ length p.read) × (result.1 ≡ length p.taken) };
}
