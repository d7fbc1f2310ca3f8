//! A budget, and what is measured on it.
ghost use Rattle.std.specs.Prelude.{◌≤◌};

use crate::budget::{time_pairs, time_tape};
use crate::threads::rounds_of_one;
use anyhow::Result;
use span_bank::{Bank, Ledgers, OpenFault};
use std::sync::Wait;
use std::time::{Clock, Duration};

/// A budget, and what is measured on it. What measures doesn't see its ledgers.
pub trait BenchBudget {
    /// How long the rounds of growing and shrinking one reservation took.
    fn time_pairs(&self, rounds: u32) -> Result<Duration>;

    /// How long whole turns took on a tape that keeps this number of pieces.
    fn time_tape(&self, rounds: u32, kept: u64) -> Result<Duration>
        requires { kept ≤ 256 };

    /// Makes and ends a reservation, again and again.
    fn rounds_of_one(&self, rounds: u32) -> Result<(), OpenFault>;
}

/// A bank as such a budget.
#[derive(Drop)]
pub struct BenchBank<'a, B: Ledgers, R> {
    pub rt: &'a R,
    pub bank: &'a Bank<B>,
}

impl<'a, B: Ledgers, R: Wait + Clock> BenchBudget for BenchBank<'a, B, R> {
    fn time_pairs(&self, rounds: u32) -> Result<Duration> {
        time_pairs(self.rt, self.bank, rounds)
    }

    fn time_tape(&self, rounds: u32, kept: u64) -> Result<Duration> {
        time_tape(self.rt, self.bank, rounds, kept)
    }

    fn rounds_of_one(&self, rounds: u32) -> Result<(), OpenFault> {
        rounds_of_one(self.rt, self.bank, rounds)
    }
}
