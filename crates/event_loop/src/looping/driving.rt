//! Which exchanges a loop drives in a turn.

ghost use Rattle.std.specs.Prelude.{◌≡◌, ◌<◌, [], ◌∷◌, ℕ, true, OnOk, ⊤};
ghost use Rattle.event_loop.specs.Marks.{is_marked};
ghost use Rattle.event_loop.specs.Deeds.Deed.{Drove};
ghost use Rattle.event_loop.specs.Turns.{Works, Does, Did, Drives, Gets, IsDriven, IsAsked, ways};

use crate::ended::LoopFault;
use crate::looping::EventLoop;
use crate::work::{Driven, Work};
use socket_wire::Dial;
use std::sync::Wait;
use std::time::Clock;

/// The most passes of a turn: one over all that have a mark, and then those over the ones that pause. Each exchange takes a few steps at a
/// time: so the same step of many is made one after another, while a processor's caches have what it needs.
const PASSES: u32 = 4;

impl<K: Work> EventLoop<K> {
    /// Drives an exchange at the moment that was read last, and marks it if others get their turn first.
    #[inline(always)]
    fn drive_one<R: Wait + Dial + Clock>(&mut self, rt: &R, key: usize) -> Driven
        ensures { Does K.Work self.old self.new (Drove key result ∷ []) }
    {
        let now = self.now();
        let driven = self.work.drive(rt, self.poll.registry(), key, now);
        if driven.has_more() {
            self.ready.add(key);
        }
        if driven.is_paused() {
            self.paused.add(key);
        } else {
            self.paused.take(key);
        }
        driven
    }

    /// Ends the exchange that blocked the one that was driven, if one did.
    fn clear_way<R: Wait + Dial + Clock>(&mut self, rt: &R, driven: Driven)
        ensures works { Works K.Work self.old.work self.new.work (ways driven) }
        ensures kept { (self.new.ready ≡ self.old.ready) × (self.new.reports ≡ self.old.reports) }
    {
        let now = self.now();
        match driven {
            Driven::Blocked(other) => self.work.give_way(rt, self.poll.registry(), other, now),
            Driven::Paused | Driven::CutShort | Driven::Waiting | Driven::Over => {}
        }
    }

    /// Drives an exchange at the moment that was read last. One that blocks it ends.
    #[inline(always)]
    fn drive_now<R: Wait + Dial + Clock>(&mut self, rt: &R, key: usize)
        ensures { Did K.Work self.old self.new (Drives key) }
    {
        let driven = self.drive_one(rt, key);
        self.clear_way(rt, driven);
    }

    /// Drives an exchange, unless it has a mark: then it is driven with all that have one, before any time is waited. So others wait for
    /// one drive of an exchange that has much to do, in each pass.
    pub(super) fn drive<R: Wait + Dial + Clock>(
        &mut self,
        rt: &R,
        key: usize,
    ) -> Result<(), LoopFault>
        ensures { Did K.Work self.old self.new (λ deeds. OnOk result (Gets key deeds self.new.ready)) }
    {
        if self.ready.has(key) {
            return Ok(());
        }
        self.read_clock(rt)?;
        self.drive_now(rt, key);
        Ok(())
    }

    /// Drives those that the queues name: what the first in one waits for may have come back, or one has to give way to it.
    pub(super) fn drive_first<R: Wait + Dial + Clock>(&mut self, rt: &R) -> Result<(), LoopFault>
        ensures { Did K.Work self.old self.new (λ deeds. OnOk result ((queue : ℕ)
            → queue < K.queues self.old.work → IsAsked queue deeds self.new.ready)) }
    {
        for queue in 0..self.work.queues() {
            if let Some(key) = self.work.first_of(rt, queue) {
                self.drive(rt, key)?;
            }
        }
        Ok(())
    }

    /// Reads the clock, unless nothing was driven since it was read.
    #[inline(always)]
    fn read_clock_after<R: Clock>(&mut self, rt: &R, has_driven: bool) -> Result<(), LoopFault>
        ensures { Does K.Work self.old self.new [] }
    {
        if has_driven {
            return self.read_clock(rt);
        }
        Ok(())
    }

    /// Drives those that have a mark, once each: an event was news for them, or they have more to do. The first goes on at the moment that
    /// was read last, as the turn began; before each further one the clock is read.
    #[inline(always)]
    fn drive_marked<R: Wait + Dial + Clock>(&mut self, rt: &R) -> Result<(), LoopFault>
        ensures { Did K.Work self.old self.new (λ deeds. OnOk result ((key : ℕ)
            → is_marked self.old.ready key ≡ true → IsDriven key deeds)) }
    {
        if self.ready.is_empty() {
            return Ok(());
        }
        let mut has_driven = false;
        for key in self.ready.low()..self.ready.high() {
            if self.ready.has(key) {
                self.read_clock_after(rt, has_driven)?;
                has_driven = true;
                self.ready.take(key);
                self.drive_now(rt, key);
            }
        }
        self.ready.look();
        Ok(())
    }

    /// Drives on those that paused, once each. Before each the clock is read.
    fn drive_paused<R: Wait + Dial + Clock>(&mut self, rt: &R) -> Result<(), LoopFault>
        ensures { Did K.Work self.old self.new (λ deeds. ⊤) }
    {
        if self.paused.is_empty() {
            return Ok(());
        }
        for key in self.paused.low()..self.paused.high() {
            if self.paused.has(key) {
                self.read_clock(rt)?;
                self.ready.take(key);
                self.drive_now(rt, key);
            }
        }
        self.paused.look();
        self.ready.look();
        Ok(())
    }

    /// Drives those that have a mark, and goes round those of them that pause. One that is cut short, or pauses in the last pass, goes on in
    /// the next turn, before which no time is waited.
    pub(super) fn drive_ready<R: Wait + Dial + Clock>(&mut self, rt: &R) -> Result<(), LoopFault>
        ensures { Did K.Work self.old self.new (λ deeds. OnOk result ((key : ℕ)
            → is_marked self.old.ready key ≡ true → IsDriven key deeds)) }
    {
        self.drive_marked(rt)?;
        for _pass in 1..PASSES {
            self.drive_paused(rt)?;
        }
        Ok(())
    }

    /// Drives all, for their deadlines.
    pub(super) fn drive_all<R: Wait + Dial + Clock>(&mut self, rt: &R) -> Result<(), LoopFault>
        ensures { Did K.Work self.old self.new (λ deeds. OnOk result ((key : ℕ)
            → key < K.bound self.old.work → Gets key deeds self.new.ready)) }
    {
        for key in 0..self.work.bound() {
            self.drive(rt, key)?;
        }
        Ok(())
    }
}
