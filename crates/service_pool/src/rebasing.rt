//! The journal that starts anew when it is full.
ghost use Rattle.std.specs.Prelude.{◌≡◌, ◌≤◌, ◌<◌, length, IfOk, slice_get};
ghost use Rattle.service_pool.specs.Journal.{Journaled, IsAllowed, IsBounded, opening, rebased, pushed, stepped, IsSound};
ghost use Rattle.service_pool.specs.Replay.{after};

use crate::NoMemory;
use crate::journal::Journal;
use crate::step::{Numbers, PoolStep};
use std::alloc::Global;
use std::marker::Model;

/// A journal of the steps since a checkpoint. A full one takes the present numbers as its base, and
/// starts empty.
#[derive(Drop)]
pub struct RebasingJournal {
    numbers: Numbers,
    base: Numbers,
    steps: Vec<PoolStep>,
    room: usize,
}

impl Model for RebasingJournal {
    ghost use Rattle.std.specs.Prelude.{◌≤◌, vec_capacity};
    ghost use Rattle.service_pool.specs.Journal.{Journaled, IsSound};

    ghost Value = { Journaled };

    ghost view = { λ j. record { numbers = j.numbers; base = j.base; steps = j.steps.items; room = j.room } };

    ghost invariant = { λ j.
        IsSound (record { numbers = j.numbers; base = j.base; steps = j.steps.items; room = j.room })
        × (j.room ≤ vec_capacity j.steps) };
}

impl RebasingJournal {
    // Makes room for a step: a full journal takes the present numbers as its base.
    fn rebase(&mut self)
        ensures done { self.new ≡ rebased self.old }
        ensures numbers { self.new.numbers ≡ self.old.numbers }
        ensures room { length self.new.steps < self.new.room }
        ensures sound { IsSound self.new }
    {
        if self.steps.len() == self.room {
            self.base = self.numbers;
            self.steps.clear();
        }
    }

    // Takes a step, where there is room for it.
    fn push(&mut self, step: PoolStep)
        requires allowed { IsAllowed self.old.numbers step }
        requires room { length self.old.steps < self.old.room }
        ensures done { self.new ≡ pushed self.old step }
        ensures sound { IsSound self.new }
    {
        self.numbers = self.numbers.after(step);
        self.steps.push_reserved(step);
    }
}

impl Journal for RebasingJournal {
    ghost seen = { λ j. j };

    ghost makes_room = { rebased };

    fn new(alloc: Global, numbers: Numbers, room: usize) -> Result<RebasingJournal, NoMemory> {
        let steps = Vec::with_capacity(alloc, room)?;
        Ok(RebasingJournal {
            numbers,
            base: numbers,
            steps,
            room,
        })
    }

    fn numbers(&self) -> Numbers {
        self.numbers
    }

    fn base(&self) -> Numbers {
        self.base
    }

    fn step_at(&self, index: usize) -> Option<PoolStep> {
        self.steps.get(index).copied()
    }

    fn apply(&mut self, step: PoolStep) {
        self.rebase();
        self.push(step);
    }
}
