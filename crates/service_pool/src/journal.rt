//! A journal: the numbers of a pool with the last steps that led to them.
ghost use Rattle.std.specs.Prelude.{◌≡◌, ◌≤◌, IfOk, slice_get};
ghost use Rattle.service_pool.specs.Journal.{Journaled, IsAllowed, IsBounded, opening, stepped, IsSound};
ghost use Rattle.service_pool.specs.Replay.{after};

use crate::NoMemory;
use crate::step::{Numbers, PoolStep};
use std::alloc::Global;

/// The numbers now, and the last steps with their base, a checkpoint: the numbers before the oldest
/// step that is kept. The steps replay from the base to the numbers now.
///
/// Journals differ in how a full one makes room for a step. None takes memory after `new`.
pub trait Journal: Drop {
    ghost seen: { Self → Journaled };

    ghost makes_room: { Journaled → Journaled };

    /// An empty journal with room for this many steps. `Err` if that room finds no memory.
    fn new(alloc: Global, numbers: Numbers, room: usize) -> Result<Self, NoMemory>
        requires bounded { IsBounded numbers }
        requires room { 1 ≤ room }
        ensures { IfOk result (λ j. seen j ≡ opening numbers room) };

    /// The numbers now.
    fn numbers(&self) -> Numbers
        ensures numbers { result ≡ (seen self.now).numbers }
        ensures sound { IsSound (seen self.now) };

    /// The numbers before the oldest step that is kept.
    fn base(&self) -> Numbers
        ensures { result ≡ (seen self.now).base };

    /// The step at an index, 0 being the oldest that is kept; `None` after the last.
    fn step_at(&self, index: usize) -> Option<PoolStep>
        ensures { result ≡ slice_get (seen self.now).steps index };

    /// Takes a step that the numbers allow.
    fn apply(&mut self, step: PoolStep)
        requires { IsAllowed (seen self.old).numbers step }
        ensures step { seen self.new ≡ stepped makes_room (seen self.old) step }
        ensures numbers { (seen self.new).numbers ≡ after (seen self.old).numbers step }
        ensures sound { IsSound (seen self.new) };
}
