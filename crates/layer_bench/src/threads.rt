//! Rounds of four threads on one budget.
use crate::bench_budget::BenchBudget;
use crate::budget::PIECE;
use span_bank::{Bank, Ledgers, OpenFault, Pages};
use std::sync::Wait;
use std::thread;
use std::thread::Threads;

/// Makes a reservation, holds all of it, lets it go and ends it, again and again.
pub fn rounds_of_one<B: Ledgers>(
    rt: &impl Wait,
    bank: &Bank<B>,
    rounds: u32,
) -> Result<(), OpenFault> {
    for _ in 0..rounds {
        let mut stake = bank.open(rt, PIECE)?;
        let page = bank.grow(rt, &mut stake, PIECE, 1);
        bank.shrink(rt, &mut stake, PIECE, page);
        bank.close(rt, stake, Pages::none());
    }
    Ok(())
}

/// The rounds of two threads.
fn rounds_of_two<P: BenchBudget + Sync, R: Threads + Sync>(
    rt: &R,
    budget: &P,
    rounds: u32,
) -> Result<(), OpenFault> {
    let (first, second) = thread::join(
        rt,
        move || budget.rounds_of_one(rounds),
        move || budget.rounds_of_one(rounds),
    );
    first.and(second)
}

/// The rounds of four threads.
pub fn rounds_of_four<P: BenchBudget + Sync, R: Threads + Sync>(
    rt: &R,
    budget: &P,
    rounds: u32,
) -> Result<(), OpenFault> {
    let (first, second) = thread::join(
        rt,
        move || rounds_of_two(rt, budget, rounds),
        move || rounds_of_two(rt, budget, rounds),
    );
    first.and(second)
}
