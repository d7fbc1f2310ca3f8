//! A wire that is held back by a gate.

use crate::stage::{Recorded, WireRecord};
use std::time::Clock;
use wire_kit::{Calls, Gate, Got, HoldGate, Put, SharedWire, Wire};

/// A wire that gives its first read at once, and the next one only once the gate is open: till then that read doesn't
/// answer. A gate that stays shut makes it fail.
///
/// The two wires share their answers, of which the second is a failure: the other wire takes that if the gate is open.
#[derive(Drop)]
pub struct HeldWire<'a, R: Clock> {
    pub rt: &'a R,
    pub gate: &'a HoldGate,
    pub wire: SharedWire<'a>,
    pub other: SharedWire<'a>,
    pub reads: u32,
}

impl<'a, R: Clock> Wire for HeldWire<'a, R> {
    ghost past = { λ held. ⟦<SharedWire<'a> as Wire>⟧.past held.wire };

    fn try_read(&mut self, buf: &mut [u8]) -> Got {
        let is_second = self.reads == 1;
        self.reads = self.reads.saturating_add(1);
        if is_second && self.gate.may_pass(self.rt, 1) {
            let _ = self.other.try_read(&mut [0; 1]);
        }
        self.wire.try_read(buf)
    }

    fn try_write(&mut self, bytes: &[u8]) -> Put {
        self.wire.try_write(bytes)
    }

    fn counts(&self) -> (u64, u64) {
        self.wire.counts()
    }
}

impl<'a, R: Clock> Recorded for HeldWire<'a, R> {
    fn record(&self) -> WireRecord<'_> {
        WireRecord {
            taken: self.wire.taken(),
            calls: Calls::NONE,
            given: self.wire.counts().0,
        }
    }
}
