//! A budget of a row's own, whose ledgers are picked here, once for all.
ghost use Rattle.std.specs.Prelude.{◌≡◌};

use crate::row_bank::RowBank;
use crate::stage::{Game, GameRemains};
use crate::turns::beside::put_beside;
use crate::turns::case::Case;
use crate::turns::game_budget::GameBudget;
use crate::turns::steps::{first_turns, put_steps};
use crate::turns::told::put_ended;
use span_bank::{Bank, Blanks, Ledgers};
use std::alloc::Global;
use std::marker::Brand;
use std::sync::Wait;
use std::sync::ledger::Ledger;
use test_rows::{NoMemory, Scene, Values, plan_of, put_line};

/// The most bytes of a transaction beside its pages.
const MOST: usize = 8192;

/// A run of a row.
#[derive(Drop)]
pub struct Run<'a, R> {
    pub rt: &'a R,
    pub alloc: Global,
    pub scene: Scene<'a>,
    pub values: Values,
}

/// Plays a transaction by the row's steps, and adds what it reports.
fn put_played<G: Game>(game: G, case: &Case<'_>, out: &mut Vec<u8>) -> Result<(), NoMemory> {
    let mut game = game;
    let told = put_steps(&mut game, case, out);
    let ended = game.end();
    match told {
        Ok(()) => put_ended(&ended.told(), case, out),
        Err(NoMemory) => Err(NoMemory),
    }
}

/// Adds what the row's transaction reports, where it began.
fn put_transaction<G: Game>(
    begun: Result<Option<G>, NoMemory>,
    case: &Case<'_>,
    out: &mut Vec<u8>,
) -> Result<(), NoMemory> {
    match begun {
        Ok(Some(game)) => put_played(game, case, out),
        Ok(None) => put_line(out, b"it doesn't begin"),
        Err(NoMemory) => Err(NoMemory),
    }
}

/// A word for how large a transaction is.
fn size_word(size: usize) -> &'static [u8] {
    if size > MOST {
        b"large".as_slice()
    } else {
        b"small"
    }
}

/// Adds what the row's transaction reports, or what two transactions report, or how large one is.
fn put_row<P: GameBudget>(budget: &P, case: &Case<'_>, out: &mut Vec<u8>) -> Result<(), NoMemory> {
    if case.has(b"size") {
        return put_line(out, size_word(budget.game_size()));
    }
    if case.has(b"beside") {
        return put_beside(budget, case, out);
    }
    put_transaction(budget.begun(case), case, out)
}

/// Adds what a run of the row reports on this budget.
fn put_scene<'a, B: Ledgers, R: Wait>(
    rt: &'a R,
    run: &Run<'_, R>,
    bank: &'a Bank<B>,
    out: &mut Vec<u8>,
) -> Result<(), NoMemory> {
    let Some(plan) = plan_of(run.scene.get(b"plan")) else {
        return put_line(out, b"no plan");
    };
    let first = first_turns(run.alloc, run.scene)?;
    let case = Case {
        alloc: run.alloc,
        plan,
        first: &first,
        scene: run.scene,
        values: run.values,
    };
    put_row(&RowBank { rt, bank }, &case, out)
}

/// Whether no reservation is left of a budget.
pub fn is_empty<B: Ledgers>(alloc: Global, bank: Bank<B>) -> bool {
    match bank.audit(Vec::new(alloc)) {
        Ok(audit) => audit.rows == 0 && audit.held == 0 && audit.claimed == 0 && audit.pages == 0,
        Err((_, stakes, _)) => {
            stakes.destroy_empty();
            false
        }
    }
}

/// Plays the run on a new budget, which has to be empty after it.
fn put_on_new<B: Ledgers, R: Wait>(
    run: &Run<'_, R>,
    bank: Bank<B>,
    out: &mut Vec<u8>,
) -> Result<(), NoMemory> {
    let told = put_scene(run.rt, run, &bank, out);
    if is_empty(run.alloc, bank) {
        return told;
    }
    told?;
    put_line(out, b"something is left of the budget")
}

/// Plays the run on a new budget of these ledgers.
fn put_on_bank<H: Ledger, F: Ledger, S: Ledger, P: Ledger, R: Wait>(
    run: &Run<'_, R>,
    blanks: Blanks,
    out: &mut Vec<u8>,
) -> Result<(), NoMemory>
    requires held { (blanks.held.name ≡ H.name) × (blanks.held.parts ≡ H.parts) × (blanks.held.parts ≡ 3) }
    requires free { (blanks.free.name ≡ F.name) × (blanks.free.parts ≡ F.parts) × (blanks.free.parts ≡ 3) }
    requires slack { (blanks.slack.name ≡ S.name) × (blanks.slack.parts ≡ S.parts) × (blanks.slack.parts ≡ 3) }
    requires pages { (blanks.pages.name ≡ P.name) × (blanks.pages.parts ≡ P.parts) × (blanks.pages.parts ≡ 3) }
{
    let bank: Bank<(H, F, S, P)> = Bank::new(run.alloc, blanks, 65536, 2, 16)?;
    put_on_new(run, bank, out)
}

/// Adds what a run of the row reports.
pub fn put_turns<R: Wait>(run: &Run<'_, R>, out: &mut Vec<u8>) -> Result<(), NoMemory> {
    put_on_bank::<Brand, Brand, Brand, Brand, R>(run, Blanks::new(3), out)
}
