//! What a wire counts.

ghost use Rattle.std.specs.Prelude.{◌≡◌, ℕ, ◌+◌, ◌<◌, ◌^◌, List, length};
ghost use Rattle.wire_kit.specs.Past.{Past, FitsRoom, FitsPut, nothing_yet, after_read, after_write};

use wire_kit::{Got, Put};

/// How many bytes a wire gave and took, and how often it gave each answer. A full counter of answers counts no further.
#[derive(Drop)]
pub struct Tally {
    pub(crate) read: u64,
    pub(crate) taken: u64,
    ends: u64,
    read_waits: u64,
    write_waits: u64,
    faults: u64,
    reads: u64,
    pub(crate) writes: u64,
}

impl Tally {
    ghost use Rattle.socket_wire.specs.Counting.{HasCounts, given_by, taken_by};

    /// Before the first call.
    pub(crate) fn new() -> Tally
        ensures { HasCounts result nothing_yet }
    {
        Tally {
            read: 0,
            taken: 0,
            ends: 0,
            read_waits: 0,
            write_waits: 0,
            faults: 0,
            reads: 0,
            writes: 0,
        }
    }

    /// Counts an answer of a read.
    pub(crate) fn note_got(&mut self, got: Got)
        requires { self.old.read + given_by got < 2 ^ 64 }
        ensures { (p : Past) → (bytes : List ℕ) → FitsRoom (length bytes) got → HasCounts self.old p → HasCounts self.new (after_read p bytes got) }
    {
        match got {
            Got::Bytes(n) => {
                self.read += n as u64;
                self.reads = self.reads.saturating_add(1);
            }
            Got::Ended => self.ends = self.ends.saturating_add(1),
            Got::Wait => self.read_waits = self.read_waits.saturating_add(1),
            Got::Fault => self.faults = self.faults.saturating_add(1),
        }
    }

    /// Counts an answer of a write.
    pub(crate) fn note_put(&mut self, put: Put)
        requires { self.old.taken + taken_by put < 2 ^ 64 }
        ensures { (p : Past) → (bytes : List ℕ) → FitsPut (length bytes) put → HasCounts self.old p → HasCounts self.new (after_write p bytes put) }
    {
        match put {
            Put::Took(n) => {
                self.taken += n as u64;
                self.writes = self.writes.saturating_add(1);
            }
            Put::Wait => self.write_waits = self.write_waits.saturating_add(1),
            Put::Fault => self.faults = self.faults.saturating_add(1),
        }
    }
}
