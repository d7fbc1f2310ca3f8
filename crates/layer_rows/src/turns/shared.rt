//! A budget that threads share, whose ledgers are picked here, once for all.
ghost use Rattle.std.specs.Prelude.{◌≡◌, ◌≤◌, ◌+◌};
ghost use Rattle.span_bank.specs.declared.limits.TheConstants.{MAX_CAPACITY, MAX_ROWS};

use crate::row_bank::RowBank;
use crate::turns::banks::{Run, is_empty};
use crate::turns::case::Case;
use crate::turns::crowds::put_four;
use crate::turns::game_budget::SharedBudget;
use crate::turns::steps::first_turns;
use crate::turns::threads::put_both;
use span_bank::{Bank, Blanks, Ledgers};
use std::marker::Brand;
use std::sync::Wait;
use std::sync::ledger::Ledger;
use std::thread::Threads;
use std::time::Clock;
use test_rows::{NoMemory, plan_of, put_flag, put_line};

/// Adds what two threads report, or four.
fn put_row<P: SharedBudget + Sync, R: Threads + Sync>(
    rt: &R,
    budget: &P,
    case: &Case<'_>,
    out: &mut Vec<u8>,
) -> Result<(), NoMemory> {
    if case.get(b"call") == b"threads".as_slice() {
        put_both(rt, budget, case, out)
    } else {
        put_four(rt, budget, case, out)
    }
}

/// Adds what the run's transactions report on this budget.
fn put_scene<'a, B: Ledgers + Send + Sync, R: Threads + Wait + Clock + Sync>(
    rt: &'a R,
    run: &Run<'_, R>,
    bank: &'a Bank<B>,
    out: &mut Vec<u8>,
) -> Result<(), NoMemory>
where
    B::Held: Send + Sync,
    B::Free: Send + Sync,
    B::Slack: Send + Sync,
    B::Pages: Send + Sync,
{
    let Some(plan) = plan_of(run.scene.get(b"plan")) else {
        return put_line(out, b"no plan");
    };
    let first = first_turns(run.alloc, run.scene)?;
    let case = Case {
        alloc: run.alloc,
        plan,
        first: &first,
        scene: run.scene,
        values: run.values,
    };
    put_row(rt, &RowBank { rt, bank }, &case, out)
}

/// Adds what the run's transactions report on a new budget, and whether it is empty after them.
fn put_on_new<B: Ledgers + Send + Sync, R: Threads + Wait + Clock + Sync>(
    run: &Run<'_, R>,
    bank: Bank<B>,
    out: &mut Vec<u8>,
) -> Result<(), NoMemory>
where
    B::Held: Send + Sync,
    B::Free: Send + Sync,
    B::Slack: Send + Sync,
    B::Pages: Send + Sync,
{
    let told = put_scene(run.rt, run, &bank, out);
    let is_empty = is_empty(run.alloc, bank);
    told?;
    put_flag(out, b"budget empty", is_empty)
}

/// Adds what the run's transactions report on a new budget of these ledgers, of these bytes for so many reservations.
fn put_on_bank<
    H: Ledger + Send + Sync,
    F: Ledger + Send + Sync,
    S: Ledger + Send + Sync,
    P: Ledger + Send + Sync,
    R: Threads + Wait + Clock + Sync,
>(
    run: &Run<'_, R>,
    blanks: Blanks,
    capacity: u64,
    rows: u64,
    out: &mut Vec<u8>,
) -> Result<(), NoMemory>
    requires held { (blanks.held.name ≡ H.name) × (blanks.held.parts ≡ H.parts) × (blanks.held.parts ≡ rows + 1) }
    requires free { (blanks.free.name ≡ F.name) × (blanks.free.parts ≡ F.parts) × (blanks.free.parts ≡ rows + 1) }
    requires slack { (blanks.slack.name ≡ S.name) × (blanks.slack.parts ≡ S.parts) × (blanks.slack.parts ≡ rows + 1) }
    requires pages { (blanks.pages.name ≡ P.name) × (blanks.pages.parts ≡ P.parts) × (blanks.pages.parts ≡ rows + 1) }
    requires capacity { (1 ≤ capacity) × (capacity ≤ MAX_CAPACITY) }
    requires rows { (1 ≤ rows) × (rows ≤ MAX_ROWS) }
{
    let bank: Bank<(H, F, S, P)> = Bank::new(run.alloc, blanks, capacity, rows, 16)?;
    put_on_new(run, bank, out)
}

/// Adds what the run's transactions in several threads report on a new budget of these bytes for so many reservations.
pub fn put_threads<R: Threads + Wait + Clock + Sync>(
    run: &Run<'_, R>,
    capacity: u64,
    rows: u64,
    out: &mut Vec<u8>,
) -> Result<(), NoMemory>
    requires capacity { (1 ≤ capacity) × (capacity ≤ MAX_CAPACITY) }
    requires rows { (1 ≤ rows) × (rows ≤ MAX_ROWS) }
{
    let blanks = Blanks::new(rows + 1);
    put_on_bank::<Brand, Brand, Brand, Brand, R>(run, blanks, capacity, rows, out)
}
