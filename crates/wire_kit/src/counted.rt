//! A wire that counts its calls.

ghost use Rattle.std.specs.Prelude.{◌≡◌, ◌+◌, ◌-◌, ◌^◌, min};
ghost use Rattle.wire_kit.specs.Past.{Past};
ghost use Rattle.wire_kit.specs.Memory.{IsPast};

use crate::memory::MemoryWire;
use crate::wire::{Got, Put, Wire};

/// The numbers of calls of a wire, as 64-bit counts.
#[derive(Clone, Copy, Debug, Drop)]
pub struct Calls {
    pub reads: u64,
    pub writes: u64,
}

impl Calls {
    /// No call.
    pub const NONE: Calls = Calls {
        reads: 0,
        writes: 0,
    };

    /// These calls and further ones.
    pub fn and(self, further: Calls) -> Calls
        ensures { (result.reads ≡ min (self.reads + further.reads) (2 ^ 64 - 1)) × (result.writes ≡ min (self.writes + further.writes) (2 ^ 64 - 1)) }
    {
        Calls {
            reads: self.reads.saturating_add(further.reads),
            writes: self.writes.saturating_add(further.writes),
        }
    }
}

/// A wire, and how often it was called.
#[derive(Drop)]
pub struct CountedWire<W> {
    wire: W,
    calls: Calls,
}

impl<W> CountedWire<W> {
    /// The wire before its first call.
    pub fn new(wire: W) -> CountedWire<W>
        ensures { (result.wire ≡ wire) × (result.calls.reads ≡ 0) × (result.calls.writes ≡ 0) }
    {
        CountedWire {
            wire,
            calls: Calls::NONE,
        }
    }

    /// The calls so far.
    pub fn calls(&self) -> Calls
        ensures { result ≡ self.now.calls }
    {
        self.calls
    }
}

impl CountedWire<MemoryWire> {
    /// All that was taken so far.
    pub fn taken(&self) -> &[u8]
        ensures { (p : Past) → IsPast self.now.wire p → result.now ≡ p.taken }
    {
        self.wire.taken()
    }
}

impl<W: Wire> Wire for CountedWire<W> {
    ghost past = { λ counted. W.past counted.wire };

    fn try_read(&mut self, buf: &mut [u8]) -> Got {
        self.calls.reads = self.calls.reads.saturating_add(1);
        self.wire.try_read(buf)
    }

    fn try_write(&mut self, bytes: &[u8]) -> Put {
        self.calls.writes = self.calls.writes.saturating_add(1);
        self.wire.try_write(bytes)
    }

    fn counts(&self) -> (u64, u64) {
        self.wire.counts()
    }
}
