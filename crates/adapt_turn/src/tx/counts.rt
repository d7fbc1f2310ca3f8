//! The bytes that a transaction's wires gave and took.

ghost use Rattle.std.specs.Prelude.{◌≡◌, ◌+◌, ◌-◌, ◌^◌, min};
ghost use Rattle.adapt_turn.specs.ChosenHead.{on_held};
ghost use Rattle.adapt_turn.specs.ByteCounts.{AreCounts, counted};

use crate::ends::{EndTypes, ServiceEnd};
use crate::tx::Tx;
use adapt_sides::{Hop, Service, Source};
use span_bank::Ledgers;
use wire_kit::Wire;

/// Of each wire the bytes that it gave, and those that it took.
#[derive(Clone, Copy)]
pub(crate) struct WireCounts {
    source: (u64, u64),
    service: (u64, u64),
    next: (u64, u64),
}

impl WireCounts {
    /// The bytes that the wires gave and took since an earlier count, as far as 64 bits count.
    pub(crate) fn since(self, before: WireCounts) -> u64
        ensures { result ≡ min (counted before.source self.source + counted before.service self.service + counted before.next self.next) (2 ^ 64 - 1) }
    {
        between(before.source, self.source)
            .saturating_add(between(before.service, self.service))
            .saturating_add(between(before.next, self.next))
    }
}

/// The bytes that went over one wire between two counts, as far as 64 bits count.
fn between(before: (u64, u64), after: (u64, u64)) -> u64
    ensures { result ≡ min (counted before after) (2 ^ 64 - 1) }
{
    let read = after.0.saturating_sub(before.0);
    let taken = after.1.saturating_sub(before.1);
    read.saturating_add(taken)
}

/// The bytes that the service's wire gave, and those that it took; none where its connection isn't held.
fn service_counts<V, W: Wire>(service: &Option<ServiceEnd<V, W>>) -> (u64, u64)
    ensures { on_held service.now ((result.0 ≡ 0) × (result.1 ≡ 0)) (λ wire. AreCounts result (W.past wire)) }
{
    match service {
        Some(line) => match &line.wire {
            Some(wire) => wire.counts(),
            None => (0, 0),
        },
        None => (0, 0),
    }
}

impl<B: Ledgers, E: EndTypes> Tx<B, E> {
    /// The bytes that the wires gave and took so far.
    pub(crate) fn counts(&self) -> WireCounts
        ensures source { AreCounts result.source (E.SourceWire.past self.now.ends.source_wire) }
        ensures service { on_held self.now.ends.service ((result.service.0 ≡ 0) × (result.service.1 ≡ 0)) (λ wire. AreCounts result.service (E.ServiceWire.past wire)) }
        ensures next { AreCounts result.next (E.NextWire.past self.now.ends.next_wire) }
    {
        WireCounts {
            source: self.ends.source_wire.counts(),
            service: service_counts(&self.ends.service),
            next: self.ends.next_wire.counts(),
        }
    }
}
