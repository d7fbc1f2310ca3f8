//! A budget on which a row's transactions begin.

use crate::row_bank::RowBank;
use crate::stage::{CountedMemoryWire, Game, GameOnBank, Recorded, begin, game_size};
use crate::tasks::ThreadTask;
use crate::turns::case::Case;
use crate::turns::threads::report;
use crate::turns::wires::{source_wire, wires_with};
use span_bank::{Bank, Ledgers};
use std::sync::Wait;
use std::time::Clock;
use test_rows::NoMemory;
use wire_kit::Wire;

/// A budget on which a row's transactions begin. What plays them doesn't see its ledgers.
pub trait GameBudget {
    /// A transaction over the row's wires.
    type Game: Game;

    /// Begins the row's transaction over the row's wires, with the turns that the row says come first. `None` where it can't begin.
    fn begun(&self, case: &Case<'_>) -> Result<Option<Self::Game>, NoMemory>;

    /// What such a transaction reports over this wire of its source, once it has ended.
    fn reported_over<A: Wire + Drop + Recorded>(
        &self,
        source: A,
        case: &Case<'_>,
    ) -> Result<Vec<u8>, NoMemory>;

    /// How large a transaction is, in bytes.
    fn game_size(&self) -> usize;
}

/// What is played on a budget.
pub trait Playing {
    /// What it has at the end.
    type Kept;

    /// Plays it.
    fn play<P: GameBudget, R: Clock>(&self, rt: &R, budget: &P) -> Self::Kept;
}

/// A budget on which threads play. What starts them doesn't see the transactions.
pub trait SharedBudget {
    /// What a thread that plays this has at the end.
    fn played<T: Playing>(&self, playing: &T) -> T::Kept;
}

/// Begins the row's transaction over this wire of its source and the row's others. `None` where it can't begin.
fn begun_over<'a, B: Ledgers, A: Wire + Drop, R: Wait>(
    rt: &'a R,
    bank: &'a Bank<B>,
    source: A,
    case: &Case<'_>,
) -> Result<Option<GameOnBank<'a, B, (A, CountedMemoryWire, CountedMemoryWire), R>>, NoMemory> {
    let wires = wires_with(source, case)?;
    begin(rt, case.alloc, bank, &case.subject(), wires, case.first)
}

impl<'a, B: Ledgers, R: Wait> GameBudget for RowBank<'a, B, R> {
    type Game = GameOnBank<'a, B, (CountedMemoryWire, CountedMemoryWire, CountedMemoryWire), R>;

    fn begun(&self, case: &Case<'_>) -> Result<Option<Self::Game>, NoMemory> {
        begun_over(self.rt, self.bank, source_wire(case)?, case)
    }

    fn reported_over<A: Wire + Drop + Recorded>(
        &self,
        source: A,
        case: &Case<'_>,
    ) -> Result<Vec<u8>, NoMemory> {
        report(begun_over(self.rt, self.bank, source, case), None, case)
    }

    fn game_size(&self) -> usize {
        game_size(self.bank)
    }
}

impl<'a, B: Ledgers, R: Wait + Clock> SharedBudget for RowBank<'a, B, R> {
    fn played<T: Playing>(&self, playing: &T) -> T::Kept {
        playing.play(self.rt, self)
    }
}

/// A thread that plays something on a budget.
#[derive(Drop)]
pub struct Thread<'a, P, T> {
    pub budget: &'a P,
    pub playing: T,
}

impl<'a, P: SharedBudget, T: Playing> ThreadTask for Thread<'a, P, T> {
    type Kept = T::Kept;

    fn run(&self) -> T::Kept {
        self.budget.played(&self.playing)
    }
}
