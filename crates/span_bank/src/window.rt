//! The journal that keeps the most recent steps.
ghost use Rattle.std.specs.Prelude.{◌≡◌, ◌≤◌, ◌<◌, length, IfOk, slice_get};
ghost use Rattle.span_bank.specs.Journal.{Journaled, IsAllowed, IsBounded, opening, slid, pushed, stepped, IsSound};
ghost use Rattle.span_bank.specs.Replay.{after};

use crate::NoMemory;
use crate::journal::Journal;
use crate::step::{BankStep, Numbers};
use circular_buffer::HeapCircularBuffer;
use std::alloc::Global;
use std::marker::Model;

/// A journal of the most recent steps, as many as it has room for. A step added to a full one
/// pushes out the oldest, which is applied to the base.
#[derive(Drop)]
pub struct Window {
    numbers: Numbers,
    base: Numbers,
    steps: HeapCircularBuffer<BankStep>,
}

impl Model for Window {
    ghost use Rattle.span_bank.specs.Journal.{Journaled, IsSound};

    ghost Value = { Journaled };

    ghost view = { λ w. record {
      numbers = w.numbers;
      base = w.base;
      steps = w.steps.items;
      room = w.steps.capacity;
    } };

    ghost invariant = { λ w. IsSound (record {
      numbers = w.numbers;
      base = w.base;
      steps = w.steps.items;
      room = w.steps.capacity;
    }) };
}

impl Window {
    // Makes room for a step: a full window applies its oldest one to the base.
    fn slide(&mut self)
        ensures done { self.new ≡ slid self.old }
        ensures numbers { self.new.numbers ≡ self.old.numbers }
        ensures room { length self.new.steps < self.new.room }
        ensures sound { IsSound self.new }
    {
        if self.steps.len() == self.steps.capacity() {
            match self.steps.pop_front() {
                Some(oldest) => self.base = self.base.after(oldest),
                None => unreachable!(),
            }
        }
    }

    // Takes a step, where there is room for it.
    fn push(&mut self, step: BankStep)
        requires allowed { IsAllowed self.old.numbers step }
        requires room { length self.old.steps < self.old.room }
        ensures done { self.new ≡ pushed self.old step }
        ensures sound { IsSound self.new }
    {
        self.numbers = self.numbers.after(step);
        let _ = self.steps.push_back(step);
    }
}

impl Journal for Window {
    ghost seen = { λ w. w };

    ghost makes_room = { slid };

    fn new(alloc: Global, numbers: Numbers, room: usize) -> Result<Window, NoMemory> {
        let steps = HeapCircularBuffer::with_capacity(alloc, room)?;
        Ok(Window {
            numbers,
            base: numbers,
            steps,
        })
    }

    fn numbers(&self) -> Numbers {
        self.numbers
    }

    fn base(&self) -> Numbers {
        self.base
    }

    fn step_at(&self, index: usize) -> Option<BankStep> {
        self.steps.get(index).copied()
    }

    #[inline(never)]
    fn apply(&mut self, step: BankStep) {
        self.slide();
        self.push(step);
    }
}
