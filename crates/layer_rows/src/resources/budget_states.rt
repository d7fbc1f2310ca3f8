//! The totals of a budget, one step after another, on both forms of the journal, and how a full one makes room.
ghost use Rattle.std.specs.Prelude.{◌≡◌, ◌+◌, ◌≤◌, true};
ghost use Rattle.span_bank.specs.State.{MaySum};

use crate::questions::Subject;
use crate::resources::steps::put_whole;
use crate::resources::words::{number_after, pair_after, put_book};
use span_bank::{
    BankState, BankStep, Journal, MAX_CAPACITY, MAX_ROWS, Numbers, RebasingJournal, Window,
};
use std::alloc::Global;
use test_rows::{NoMemory, Row, put_line, put_shown, says};

/// The step that a line asks for: `open 60`, `grow 1`, `shrink 1`, `reclaim 10 4`, `close 60` or `capacity 50`.
fn step_of(text: &[u8]) -> Option<BankStep> {
    if let Some((old, new)) = pair_after(text, b"reclaim") {
        return Some(BankStep::Reclaim(old, new));
    }
    if let Some(claim) = number_after(text, b"open") {
        return Some(BankStep::Open(claim));
    }
    if let Some(n) = number_after(text, b"grow") {
        return Some(BankStep::Grow(n));
    }
    if let Some(n) = number_after(text, b"shrink") {
        return Some(BankStep::Shrink(n));
    }
    if let Some(claim) = number_after(text, b"close") {
        return Some(BankStep::Close(claim));
    }
    Some(BankStep::Capacity(number_after(text, b"capacity")?))
}

/// Whether a sum is at most a number.
fn is_within(first: u64, second: u64, most: u64) -> bool
    ensures { result ≡ true → first + second ≤ most }
{
    match first.checked_add(second) {
        Some(sum) => sum <= most,
        None => false,
    }
}

/// Whether the totals allow a step.
fn allows(numbers: Numbers, step: BankStep) -> bool
    ensures { result ≡ true → MaySum numbers step }
{
    match step {
        BankStep::Open(claim) => claim != 0,
        BankStep::Grow(n) => n != 0 && is_within(numbers.held, n, numbers.claimed),
        BankStep::Shrink(n) => n != 0 && n <= numbers.held,
        BankStep::Reclaim(old, new) => {
            new <= old && is_within(numbers.held, old - new, numbers.claimed)
        }
        BankStep::Close(claim) => {
            numbers.rows != 0 && is_within(numbers.held, claim, numbers.claimed)
        }
        BankStep::Capacity(n) => n != 0 && n <= MAX_CAPACITY && numbers.claimed <= n,
    }
}

/// Adds the steps that the journal has.
fn put_journal<J: Journal>(out: &mut Vec<u8>, state: &BankState<J>) -> Result<(), NoMemory> {
    for index in 0..16 {
        if let Some(step) = state.journal_at(index) {
            put_shown(out, b"then", &step)?;
        }
    }
    put_line(out, b"and no more")
}

impl<J: Journal> Subject for BankState<J> {
    /// Adds what a step answers, or what a question is.
    fn put_said(&mut self, asks: &[u8], out: &mut Vec<u8>) -> Result<(), NoMemory> {
        if says(asks, b"base") {
            return put_book(out, self.base());
        }
        if says(asks, b"numbers") {
            return put_book(out, self.numbers());
        }
        if says(asks, b"journal") {
            return put_journal(out, self);
        }
        let Some(step) = step_of(asks) else {
            return put_line(out, b"no step");
        };
        if !allows(self.numbers(), step) {
            return put_line(out, b"not allowed");
        }
        match self.apply(step) {
            Ok(()) => put_line(out, b"done"),
            Err(fault) => put_shown(out, b"refused", &fault),
        }
    }
}

/// Adds what the row's steps answer on a new budget with such a journal.
fn put_on<J: Journal>(alloc: Global, row: &Row<'_>, out: &mut Vec<u8>) -> Result<(), NoMemory> {
    let capacity = row
        .number(b"capacity")
        .unwrap_or(1)
        .max(1)
        .min(MAX_CAPACITY);
    let rows = row.number(b"rows").unwrap_or(1).max(1).min(MAX_ROWS);
    let journal = row.number(b"steps").unwrap_or(16).max(1).min(16) as usize;
    let state: BankState<J> = BankState::new(alloc, capacity, rows, journal)?;
    put_whole(state, row.get(b"want"), out)
}

/// Adds what the row's steps answer with the row's journal.
pub fn put_state(alloc: Global, row: &Row<'_>, out: &mut Vec<u8>) -> Result<(), NoMemory> {
    if row.has(b"rebasing") {
        put_on::<RebasingJournal>(alloc, row, out)
    } else {
        put_on::<Window>(alloc, row, out)
    }
}
