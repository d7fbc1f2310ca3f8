//! Calls that need a bank, whose ledgers are picked here, once for all.
ghost use Rattle.std.specs.Prelude.{◌≡◌, ◌+◌, ◌≤◌};
ghost use Rattle.span_bank.specs.declared.limits.TheConstants.{MAX_CAPACITY, MAX_ROWS};

use crate::resources::sharing::put_both;
use crate::resources::tapes::{put_seen, write_and_drop};
use crate::resources::words::{journal_of, put_no_memory};
use crate::resources::{budget_threads, budgets};
use span_bank::{Bank, Blanks, Ledgers, MAX_CAPACITY, MAX_ROWS};
use std::alloc::Global;
use std::marker::Brand;
use std::sync::Wait;
use std::sync::ledger::Ledger;
use std::thread::Threads;
use test_rows::{NoMemory, Row, says};

/// The capacity and the rows of a call's bank.
fn size_of(call: &[u8], row: &Row<'_>) -> (u64, u64)
    ensures capacity { (1 ≤ result.0) × (result.0 ≤ MAX_CAPACITY) }
    ensures rows { (1 ≤ result.1) × (result.1 ≤ MAX_ROWS) }
{
    if says(call, b"tape") {
        return (8192, 2);
    }
    if !says(call, b"budget") {
        return (100, 4);
    }
    let capacity = row.number(b"capacity").unwrap_or(1).max(1);
    let rows = row.number(b"rows").unwrap_or(1).max(1);
    (capacity.min(MAX_CAPACITY), rows.min(MAX_ROWS))
}

/// Adds what comes of a new bank: of a row's steps, of a tape that takes pages of its store, or of four threads that share it.
fn put_use<B: Ledgers + Send + Sync, R: Threads + Wait + Sync>(
    rt: &R,
    alloc: Global,
    bank: Bank<B>,
    rows: u64,
    call: &[u8],
    row: &Row<'_>,
    out: &mut Vec<u8>,
) -> Result<(), NoMemory>
where
    B::Held: Send + Sync,
    B::Free: Send + Sync,
    B::Slack: Send + Sync,
    B::Pages: Send + Sync,
    requires { B.Held.parts ≡ rows + 1 }
{
    if says(call, b"budget") {
        budgets::put_budget(rt, alloc, bank, row, out)
    } else if says(call, b"tape") {
        put_seen(out, write_and_drop(rt, &bank))
    } else if says(call, b"threads of both") && rows == 4 {
        put_both(rt, alloc, bank, out)
    } else if says(call, b"threads of a budget") && rows == 4 {
        budget_threads::put_budget(rt, alloc, bank, out)
    } else {
        Ok(())
    }
}

/// Adds what comes of a bank with these ledgers.
fn put_on_bank<
    H: Ledger + Send + Sync,
    F: Ledger + Send + Sync,
    S: Ledger + Send + Sync,
    P: Ledger + Send + Sync,
    R: Threads + Wait + Sync,
>(
    rt: &R,
    alloc: Global,
    blanks: Blanks,
    capacity: u64,
    rows: u64,
    call: &[u8],
    row: &Row<'_>,
    out: &mut Vec<u8>,
) -> Result<(), NoMemory>
    requires held { (blanks.held.name ≡ H.name) × (blanks.held.parts ≡ H.parts) × (blanks.held.parts ≡ rows + 1) }
    requires free { (blanks.free.name ≡ F.name) × (blanks.free.parts ≡ F.parts) × (blanks.free.parts ≡ rows + 1) }
    requires slack { (blanks.slack.name ≡ S.name) × (blanks.slack.parts ≡ S.parts) × (blanks.slack.parts ≡ rows + 1) }
    requires pages { (blanks.pages.name ≡ P.name) × (blanks.pages.parts ≡ P.parts) × (blanks.pages.parts ≡ rows + 1) }
    requires capacity { (1 ≤ capacity) × (capacity ≤ MAX_CAPACITY) }
    requires rows { (1 ≤ rows) × (rows ≤ MAX_ROWS) }
{
    let made: Result<Bank<(H, F, S, P)>, NoMemory> = Bank::new(
        alloc,
        blanks,
        capacity,
        rows,
        journal_of(row),
    );
    match made {
        Ok(bank) => put_use(rt, alloc, bank, rows, call, row, out),
        Err(NoMemory) => put_no_memory(row, out),
    }
}

/// Adds what comes of a new bank.
pub fn put_bank<R: Threads + Wait + Sync>(
    rt: &R,
    alloc: Global,
    call: &[u8],
    row: &Row<'_>,
    out: &mut Vec<u8>,
) -> Result<(), NoMemory> {
    let (capacity, rows) = size_of(call, row);
    let blanks = Blanks::new(rows + 1);
    put_on_bank::<Brand, Brand, Brand, Brand, R>(rt, alloc, blanks, capacity, rows, call, row, out)
}
