//! Sixty-four transactions in four threads on one budget, which has room for one of them at a time.

use crate::stage::{Game, GameRemains, GameReport};
use crate::tasks::{Four, four};
use crate::turns::case::Case;
use crate::turns::game_budget::{GameBudget, Playing, SharedBudget, Thread};
use crate::turns::threads::drive_to_end;
use adapt_turn::Outcome;
use std::thread::Threads;
use std::time::Clock;
use test_rows::{NoMemory, put_flag, put_number};

/// How often a thread begins two transactions, the second one while the first one is open.
const TIMES: usize = 8;

/// What became of transactions: how many users got the whole message, how many transactions the budget refused, and the others.
#[derive(Clone, Copy)]
struct Tally {
    whole: u64,
    refused: u64,
    other: u64,
}

impl Tally {
    /// No transaction.
    const NONE: Tally = Tally {
        whole: 0,
        refused: 0,
        other: 0,
    };

    /// One whose user got the whole message.
    const WHOLE: Tally = Tally {
        whole: 1,
        ..Tally::NONE
    };

    /// One that the budget refused.
    const REFUSED: Tally = Tally {
        refused: 1,
        ..Tally::NONE
    };

    /// Another one.
    const OTHER: Tally = Tally {
        other: 1,
        ..Tally::NONE
    };

    /// These and further ones.
    fn and(self, further: Tally) -> Tally {
        Tally {
            whole: self.whole.saturating_add(further.whole),
            refused: self.refused.saturating_add(further.refused),
            other: self.other.saturating_add(further.other),
        }
    }
}

/// What became of a transaction by what is told of it.
fn tally_of(told: &GameReport<'_>, case: &Case<'_>) -> Tally {
    if told.outcome == Outcome::Done
        && told.of_service().taken == case.get(b"to_service")
        && told.next_hop.taken == case.get(b"to_user")
    {
        Tally::WHOLE
    } else {
        Tally::OTHER
    }
}

/// What becomes of a transaction, which is driven to its end.
fn driven<G: Game>(game: G, case: &Case<'_>) -> Tally {
    let mut game = game;
    drive_to_end(&mut game);
    let ended = game.end();
    tally_of(&ended.told(), case)
}

/// What becomes of a transaction, where it began.
fn fate_of<G: Game>(
    begun: Result<Option<G>, NoMemory>,
    case: &Case<'_>,
) -> Result<Tally, NoMemory> {
    match begun {
        Ok(Some(game)) => Ok(driven(game, case)),
        Ok(None) => Ok(Tally::REFUSED),
        Err(NoMemory) => Err(NoMemory),
    }
}

/// What became of both.
fn sum(first: Result<Tally, NoMemory>, second: Result<Tally, NoMemory>) -> Result<Tally, NoMemory> {
    Ok(first?.and(second?))
}

/// Begins two transactions, and ends both.
fn play_two<P: GameBudget>(budget: &P, case: &Case<'_>) -> Result<Tally, NoMemory> {
    let first = budget.begun(case);
    let second = budget.begun(case);
    sum(fate_of(first, case), fate_of(second, case))
}

/// The transactions of a thread.
#[derive(Drop)]
struct Crowd<'a> {
    case: &'a Case<'a>,
}

impl<'a> Playing for Crowd<'a> {
    type Kept = Result<Tally, NoMemory>;

    fn play<P: GameBudget, R: Clock>(&self, _rt: &R, budget: &P) -> Result<Tally, NoMemory> {
        let mut tally = Tally::NONE;
        for _ in 0..TIMES {
            tally = tally.and(play_two(budget, self.case)?);
        }
        Ok(tally)
    }
}

/// Adds what became of the row's transactions in four threads.
pub fn put_four<P: SharedBudget + Sync, R: Threads + Sync>(
    rt: &R,
    budget: &P,
    case: &Case<'_>,
    out: &mut Vec<u8>,
) -> Result<(), NoMemory> {
    let thread = Thread {
        budget,
        playing: Crowd { case },
    };
    put_tallies(four(rt, &thread), out)
}

/// Adds what became of the transactions of four threads.
fn put_tallies(tallies: Four<Result<Tally, NoMemory>>, out: &mut Vec<u8>) -> Result<(), NoMemory> {
    let (front, back) = tallies;
    let all = sum(sum(front.0, front.1), sum(back.0, back.1))?;
    put_number(
        out,
        b"whole or refused",
        all.whole.saturating_add(all.refused),
    )?;
    put_number(out, b"otherwise", all.other)?;
    put_flag(out, b"some whole", all.whole > 0)
}
