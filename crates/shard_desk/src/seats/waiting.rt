//! When a user's connections moved last, since when a message waits, and which wait is over.

ghost use Rattle.std.specs.Prelude.{◌≡◌, IfSome};

use crate::seat::Seat;
use crate::seats::Seats;
use crate::terms::Terms;

impl Seats {
    ghost use Rattle.shard_desk.specs.Seats.{has_waited, is_late, is_overdue, moved_at, waiting_from, waiting_not};
    ghost use Rattle.slab.specs.Slab.{get, Updates};

    /// A message waits for a connection to its service. One that waited before has waited since then.
    pub fn begin_wait(&mut self, key: usize, now: u64)
        ensures { Updates self.old.all self.new.all key (waiting_from now (get self.old.all key)) }
    {
        if let Some(seat) = self.all.get_mut(key)
            && seat.waits.is_none()
        {
            seat.waits = Some(now);
        }
    }

    /// A further message comes, which hasn't waited.
    pub fn end_wait(&mut self, key: usize)
        ensures { Updates self.old.all self.new.all key (waiting_not (get self.old.all key)) }
    {
        if let Some(seat) = self.all.get_mut(key) {
            seat.waits = None;
        }
    }

    /// Whether it has waited for more than this number of seconds: that is never early, and a second late at most.
    pub fn has_waited(&self, key: usize, now: u64, seconds: u64) -> bool
        ensures { result ≡ has_waited self.now key now seconds }
    {
        match self.all.get(key) {
            Some(
                Seat {
                    waits: Some(since),
                    ..
                },
            ) => now.saturating_sub(*since) > seconds,
            _ => false,
        }
    }

    /// A byte moved, or the exchange went on.
    pub fn touch(&mut self, key: usize, now: u64)
        ensures { Updates self.old.all self.new.all key (moved_at now (get self.old.all key)) }
    {
        if let Some(seat) = self.all.get_mut(key) {
            seat.moved = now;
        }
    }

    /// When a byte moved last, or the exchange went on, in seconds. 0 where there is no seat.
    pub fn moved(&self, key: usize) -> u64
        ensures { IfSome (get self.now.all key) (λ seat. result ≡ seat.moved) }
    {
        match self.all.get(key) {
            Some(seat) => seat.moved,
            None => 0,
        }
    }

    /// Whether more than this number of seconds have passed without a moved byte. Moments are whole seconds, so that is a second late
    /// at most, and never early.
    pub fn is_late(&self, key: usize, now: u64, seconds: u64) -> bool
        ensures { result ≡ is_late self.now key now seconds }
    {
        match self.all.get(key) {
            Some(seat) => now.saturating_sub(seat.moved) > seconds,
            None => true,
        }
    }

    /// Whether what it awaits takes longer than it may.
    pub fn is_overdue(&self, key: usize, now: u64, terms: Terms) -> bool
        ensures { result ≡ is_overdue self.now key now terms }
    {
        match self.all.get(key) {
            Some(seat) => seat.awaited.is_overdue(now, terms),
            None => false,
        }
    }
}
