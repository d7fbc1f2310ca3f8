//! Two transactions in two threads on one budget, which has room for just the two. The body of the first doesn't come before the
//! second is finished.

use crate::stage::{BEGIN, Game, GameRemains};
use crate::tasks::two;
use crate::turns::case::Case;
use crate::turns::game_budget::{GameBudget, Playing, SharedBudget, Thread};
use crate::turns::held::HeldWire;
use crate::turns::steps::ROUND;
use crate::turns::told::put_outcome;
use adapt_turn::{Side, TurnAnswer};
use std::thread::Threads;
use std::time::Clock;
use test_rows::NoMemory;
use wire_kit::{Answer, Answers, HoldGate, SharedWire};

/// The rounds of a transaction in which each text goes at once.
const ROUNDS: usize = 6;

/// What the origin's wire of the first transaction answers: its head, a failure, its body.
fn held_answers(case: &Case<'_>) -> Result<Answers, NoMemory> {
    let head = case.get(b"head").len();
    let list = [Answer::Moved(head), Answer::Fault, Answer::Moved(64)];
    Ok(Answers::new(list.to_vec(case.alloc)?))
}

/// Drives a transaction until it has answered that it is finished.
pub fn drive_to_end<G: Game>(game: &mut G) -> bool {
    for _ in 0..ROUNDS {
        game.take_turns(&ROUND);
    }
    matches!(game.take_turn(Side::Source, BEGIN), TurnAnswer::Finished(_))
}

/// What a transaction reports, which is driven to its end, and then opens the gate.
fn driven<G: Game>(
    game: G,
    gate: Option<&HoldGate>,
    case: &Case<'_>,
    out: &mut Vec<u8>,
) -> Result<(), NoMemory> {
    let mut game = game;
    if drive_to_end(&mut game)
        && let Some(gate) = gate
    {
        gate.answered();
    }
    let ended = game.end();
    put_outcome(&ended.told(), case, out)
}

/// What a transaction reports, where it began: it is driven to its end, and then opens the gate.
pub fn report<G: Game>(
    begun: Result<Option<G>, NoMemory>,
    gate: Option<&HoldGate>,
    case: &Case<'_>,
) -> Result<Vec<u8>, NoMemory> {
    let mut out = Vec::new(case.alloc);
    match begun {
        Ok(Some(game)) => driven(game, gate, case, &mut out)?,
        Ok(None) => {}
        Err(NoMemory) => return Err(NoMemory),
    }
    Ok(out)
}

/// The origin's wire of the first transaction, which answers by this list.
fn held_wire<'a, R: Clock>(
    rt: &'a R,
    gate: &'a HoldGate,
    answers: &'a Answers,
    case: &Case<'_>,
) -> Result<HeldWire<'a, R>, NoMemory> {
    let input = case.get(b"source").to_vec(case.alloc)?;
    let wire = SharedWire::new(case.alloc, answers, input, 0)?;
    let other = SharedWire::new(case.alloc, answers, Vec::new(case.alloc), 0)?;
    Ok(HeldWire {
        rt,
        gate,
        wire,
        other,
        reads: 0,
    })
}

/// The first transaction, whose origin's wire is held back by the gate.
#[derive(Drop)]
struct Held<'a> {
    gate: &'a HoldGate,
    case: &'a Case<'a>,
}

impl<'a> Playing for Held<'a> {
    type Kept = Result<Vec<u8>, NoMemory>;

    fn play<P: GameBudget, R: Clock>(&self, rt: &R, budget: &P) -> Result<Vec<u8>, NoMemory> {
        let answers = held_answers(self.case)?;
        let source = held_wire(rt, self.gate, &answers, self.case)?;
        budget.reported_over(source, self.case)
    }
}

/// The other one, which opens the gate once it is finished.
#[derive(Drop)]
struct Opening<'a> {
    gate: &'a HoldGate,
    case: &'a Case<'a>,
}

impl<'a> Playing for Opening<'a> {
    type Kept = Result<Vec<u8>, NoMemory>;

    fn play<P: GameBudget, R: Clock>(&self, _rt: &R, budget: &P) -> Result<Vec<u8>, NoMemory> {
        report(budget.begun(self.case), Some(self.gate), self.case)
    }
}

/// Adds what both report.
pub fn put_both<P: SharedBudget + Sync, R: Threads + Sync>(
    rt: &R,
    budget: &P,
    case: &Case<'_>,
    out: &mut Vec<u8>,
) -> Result<(), NoMemory> {
    let gate = HoldGate::new();
    let first = Thread {
        budget,
        playing: Held { gate: &gate, case },
    };
    let second = Thread {
        budget,
        playing: Opening { gate: &gate, case },
    };
    let (first, second) = two(rt, &first, &second);
    out.extend_from_slice(&first?)?;
    out.extend_from_slice(&second?)
}
