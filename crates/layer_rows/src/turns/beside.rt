//! A message that isn't offered to a service, beside one that is, on one budget.

use crate::stage::{BEGIN, Game, GameRemains, GameReport};
use crate::turns::case::Case;
use crate::turns::game_budget::GameBudget;
use crate::turns::steps::ROUND;
use crate::turns::told::put_ended;
use adapt_turn::{Side, TurnAnswer};
use test_rows::{NoMemory, plan_of, put_flag, put_line};

/// Rounds enough for a byte a turn.
const ROUNDS: usize = 500;

/// Whether a turn of the service's side does nothing: it answers Waiting, and once the transaction has ended that it has.
fn rests<G: Game>(game: &mut G) -> bool {
    let want = match game.ending() {
        None => TurnAnswer::Waiting,
        Some(outcome) => TurnAnswer::Finished(outcome),
    };
    game.take_turn(Side::Service, BEGIN) == want
}

/// Rounds of turns of both. Whether those of the one without a service's side rested.
fn play<G: Game>(offered: &mut G, plain: &mut G) -> bool {
    let mut rested = true;
    for _ in 0..ROUNDS {
        offered.take_turns(&ROUND);
        rested &= rests(plain);
        plain.take_turns(&[Side::Source]);
        rested &= rests(plain);
        plain.take_turns(&[Side::NextHop]);
    }
    rested
}

/// Begins the row's transaction by its plan, and then the one of the other case. `None` where the first can't begin; where the second
/// can't it is an error, and the first has ended.
fn begin_both<P: GameBudget>(
    budget: &P,
    case: &Case<'_>,
    other: &Case<'_>,
) -> Result<Option<(P::Game, P::Game)>, NoMemory> {
    let Some(offered) = budget.begun(case)? else {
        return Ok(None);
    };
    match budget.begun(other) {
        Ok(Some(plain)) => Ok(Some((offered, plain))),
        _ => {
            let _ = offered.end();
            Err(NoMemory)
        }
    }
}

/// Adds what both report once they have ended, and whether the service's side rested.
fn put_both_ended(
    offered: &GameReport<'_>,
    plain: &GameReport<'_>,
    rested: bool,
    case: &Case<'_>,
    out: &mut Vec<u8>,
) -> Result<(), NoMemory> {
    put_ended(offered, case, out)?;
    put_ended(plain, case, out)?;
    put_flag(out, b"the service's side rests", rested)
}

/// Plays both, and adds what they report.
fn put_both<G: Game>(
    offered: G,
    plain: G,
    case: &Case<'_>,
    out: &mut Vec<u8>,
) -> Result<(), NoMemory> {
    let mut offered = offered;
    let mut plain = plain;
    let rested = play(&mut offered, &mut plain);
    let offered = offered.end();
    let plain = plain.end();
    put_both_ended(&offered.told(), &plain.told(), rested, case, out)
}

/// Adds what two transactions over wires of one kind report: one of the row's plan, and then that of the plan `beside`.
pub fn put_beside<P: GameBudget>(
    budget: &P,
    case: &Case<'_>,
    out: &mut Vec<u8>,
) -> Result<(), NoMemory> {
    let Some(other) = plan_of(case.get(b"beside")) else {
        return put_line(out, b"no plan beside it");
    };
    let other = Case {
        plan: other,
        ..*case
    };
    match begin_both(budget, case, &other)? {
        Some((offered, plain)) => put_both(offered, plain, case, out),
        None => put_line(out, b"it doesn't begin"),
    }
}
