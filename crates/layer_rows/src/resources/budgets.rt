//! A budget, one call after another through its lock: each line of `want` is a step and what it answers.
use crate::questions::{Subject, put_lines};
use crate::resources::reserved::Budget;
use crate::resources::steps::{end_all, keep};
use crate::resources::words::{number_after, pair_after, put_book, put_pages, put_sums};
use crate::row_bank::RowBank;
use span_bank::{Audit, Bank, CapacityFault, Ledgers};
use std::alloc::{AllocError, Global};
use std::sync::Wait;
use test_rows::{NoMemory, Row, put_line, put_shown, says};

/// The most reservations that a row has.
const RESERVATIONS: usize = 16;

/// A budget with the reservations that a row has made.
#[derive(Drop)]
struct Opened<'a, T: Budget> {
    budget: &'a T,
    all: &'a mut Vec<T::Lent>,
}

/// Makes a reservation of at least one byte.
fn open<T: Budget>(
    budget: &T,
    all: &mut Vec<T::Lent>,
    claim: u64,
    out: &mut Vec<u8>,
) -> Result<(), NoMemory> {
    if claim == 0 {
        return put_line(out, b"no step");
    }
    match budget.open(claim) {
        Ok(reserved) => {
            keep(budget, all, reserved);
            put_line(out, b"reserved")
        }
        Err(fault) => put_shown(out, b"refused", &fault),
    }
}

/// Adds what another size of the budget is answered.
fn put_resized(resized: Result<(), CapacityFault>, out: &mut Vec<u8>) -> Result<(), NoMemory> {
    match resized {
        Ok(()) => put_line(out, b"set"),
        Err(CapacityFault::NoMemory) => Err(AllocError),
        Err(fault) => put_shown(out, b"refused", &fault),
    }
}

/// Adds whether a step was one that a reservation may take.
fn put_taken(out: &mut Vec<u8>, is_taken: bool) -> Result<(), NoMemory> {
    put_line(out, if is_taken { b"done" } else { b"not allowed" })
}

/// Adds what a step of a reservation answers: `grow 100 1` and `shrink 100 1` with bytes and pages, `reclaim 10`, `shows` or
/// `book beside`.
fn put_own<T: Budget>(
    budget: &T,
    own: &mut T::Lent,
    step: &[u8],
    out: &mut Vec<u8>,
) -> Result<(), NoMemory> {
    if let Some((bytes, pages)) = pair_after(step, b"grow") {
        return put_taken(out, budget.grow(own, bytes, pages));
    }
    if let Some((bytes, pages)) = pair_after(step, b"shrink") {
        return put_taken(out, budget.shrink(own, bytes, pages));
    }
    if let Some(claim) = number_after(step, b"reclaim") {
        return put_taken(out, budget.reclaim(own, claim));
    }
    if says(step, b"shows") {
        put_pages(out, budget.shown(own))
    } else if says(step, b"book beside") {
        put_book(out, budget.beside(own))
    } else {
        put_line(out, b"no step")
    }
}

/// Adds what a step of the last reservation answers. `first` makes the first one the last, and `close` ends it.
fn put_last<T: Budget>(
    budget: &T,
    all: &mut Vec<T::Lent>,
    step: &[u8],
    out: &mut Vec<u8>,
) -> Result<(), NoMemory> {
    if all.is_empty() {
        return put_line(out, b"nothing is reserved");
    }
    if says(step, b"first") {
        let first = all.remove(0);
        keep(budget, all, first);
        return put_line(out, b"is last");
    }
    let Some(mut last) = all.pop() else {
        return Ok(());
    };
    if says(step, b"close") {
        budget.end(last);
        return put_line(out, b"closed");
    }
    let told = put_own(budget, &mut last, step, out);
    keep(budget, all, last);
    told
}

impl<'a, T: Budget> Subject for Opened<'a, T> {
    /// `open 60`, `capacity 59`, `book`, `store`, or a step of the last reservation.
    fn put_said(&mut self, step: &[u8], out: &mut Vec<u8>) -> Result<(), NoMemory> {
        if let Some(claim) = number_after(step, b"open") {
            return open(self.budget, self.all, claim, out);
        }
        if let Some(capacity) = number_after(step, b"capacity") {
            return put_resized(self.budget.resize(capacity), out);
        }
        if says(step, b"book") {
            put_book(out, self.budget.book())
        } else if says(step, b"store") {
            put_shown(out, b"has", &self.budget.store())
        } else {
            put_last(self.budget, self.all, step, out)
        }
    }
}

/// Adds what a row's steps answer, and ends all its reservations.
fn put_played<T: Budget>(
    alloc: Global,
    budget: &T,
    row: &Row<'_>,
    out: &mut Vec<u8>,
) -> Result<(), NoMemory> {
    let mut all = Vec::with_capacity(alloc, RESERVATIONS)?;
    let mut opened = Opened {
        budget,
        all: &mut all,
    };
    let told = put_lines(&mut opened, row.get(b"want"), out);
    end_all(budget, all);
    told
}

/// The sums of a budget of which nothing is reserved any more; none where something is.
pub fn sums<B: Ledgers>(alloc: Global, bank: Bank<B>) -> Option<Audit> {
    match bank.audit(Vec::new(alloc)) {
        Ok(audit) => Some(audit),
        Err((_, stakes, _)) => {
            stakes.destroy_empty();
            None
        }
    }
}

/// Adds what the row's steps answer on a new budget, and its audit once all reservations have ended.
pub fn put_budget<B: Ledgers, R: Wait>(
    rt: &R,
    alloc: Global,
    bank: Bank<B>,
    row: &Row<'_>,
    out: &mut Vec<u8>,
) -> Result<(), NoMemory> {
    put_played(alloc, &RowBank { rt, bank: &bank }, row, out)?;
    put_sums(out, sums(alloc, bank))
}
