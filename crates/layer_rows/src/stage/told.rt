//! What a transaction that ended says of itself.

use adapt_turn::Outcome;
use wire_kit::{Calls, CountedWire, MemoryWire, Wire};

/// A wire in memory, and how often it was called.
pub type CountedMemoryWire = CountedWire<MemoryWire>;

/// What went over a wire.
#[derive(Clone, Copy)]
pub struct WireRecord<'a> {
    /// What it took.
    pub taken: &'a [u8],
    /// How often it was called.
    pub calls: Calls,
    /// How many bytes it gave.
    pub given: u64,
}

/// A wire that says what went over it.
pub trait Recorded {
    /// What went over it.
    fn record(&self) -> WireRecord<'_>;
}

/// What went over a wire that may be missing.
pub(crate) fn record_of<C: Recorded>(wire: &Option<C>) -> Option<WireRecord<'_>> {
    match wire {
        Some(wire) => Some(wire.record()),
        None => None,
    }
}

impl Recorded for CountedMemoryWire {
    fn record(&self) -> WireRecord<'_> {
        WireRecord {
            taken: self.taken(),
            calls: self.calls(),
            given: self.counts().0,
        }
    }
}

/// How a transaction ended, and what went over its wires.
#[derive(Clone, Copy)]
pub struct GameReport<'a> {
    pub outcome: Outcome,
    pub source: WireRecord<'a>,
    pub service: Option<WireRecord<'a>>,
    pub next_hop: WireRecord<'a>,
    /// Of a broken connection of the service.
    pub broken: Option<WireRecord<'a>>,
    /// Of one that was given up once the service had said all.
    pub freed: Option<WireRecord<'a>>,
    /// How often a broken connection failed the transaction.
    pub failed: usize,
}

impl<'a> GameReport<'a> {
    /// What went over the service's wire.
    pub fn of_service(&self) -> WireRecord<'a> {
        match self.service {
            Some(record) => record,
            None => WireRecord {
                taken: &[],
                calls: Calls::NONE,
                given: 0,
            },
        }
    }
}
