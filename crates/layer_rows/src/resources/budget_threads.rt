//! Four threads on one budget.
ghost use Rattle.std.specs.Prelude.{◌≡◌, ◌≤◌, vec_len, vec_capacity};

use crate::resources::reserved::{Budget, Reserved};
use crate::resources::words::put_sums;
use crate::row_bank::RowBank;
use crate::tasks::{Four, ThreadTask, four};
use span_bank::{Audit, Bank, Ledgers, Stake};
use std::alloc::Global;
use std::sync::Wait;
use std::thread::Threads;
use test_rows::NoMemory;

/// Makes and ends a reservation, all of whose bytes are in use meanwhile on a page; it may be refused.
#[derive(Drop)]
struct Rounds<'a, T>(&'a T);

/// Makes a reservation that stays, with all its bytes in use on one page.
#[derive(Drop)]
pub struct StayOnBank<'a, T>(pub &'a T);

impl<'a, T: Budget> ThreadTask for Rounds<'a, T> {
    type Kept = ();

    fn run(&self) {
        for _ in 0..1000 {
            if let Ok(mut own) = self.0.open(30) {
                let _grown = self.0.grow(&mut own, 30, 1);
                let _shrunk = self.0.shrink(&mut own, 30, 1);
                self.0.end(own);
            }
        }
    }
}

impl<'a, T: Budget> ThreadTask for StayOnBank<'a, T> {
    type Kept = Option<T::Lent>;

    fn run(&self) -> Option<T::Lent> {
        match self.0.open(25) {
            Ok(mut own) => {
                let _grown = self.0.grow(&mut own, 25, 1);
                Some(own)
            }
            Err(_) => None,
        }
    }
}

/// Ends a reservation that was made.
fn end_made<T: Budget>(budget: &T, made: Option<T::Lent>) {
    if let Some(reserved) = made {
        budget.end(reserved);
    }
}

/// The reservations of four threads. Where one has none, the others end.
pub fn all_made<T: Budget>(budget: &T, made: Four<Option<T::Lent>>) -> Option<Four<T::Lent>> {
    let (front, back) = made;
    match (front.0, front.1, back.0, back.1) {
        (Some(first), Some(second), Some(third), Some(fourth)) => {
            Some(((first, second), (third, fourth)))
        }
        (first, second, third, fourth) => {
            end_made(budget, first);
            end_made(budget, second);
            end_made(budget, third);
            end_made(budget, fourth);
            None
        }
    }
}

/// The reservations that four threads make at last, once they have made their rounds.
fn share<T: Budget + Sync, R: Threads + Sync>(rt: &R, budget: &T) -> Option<Four<T::Lent>>
where
    T::Lent: Send,
{
    four(rt, &Rounds(budget));
    all_made(budget, four(rt, &StayOnBank(budget)))
}

/// The sums of a budget whose four rows are taken; none where one isn't.
pub fn sums_of_four<B: Ledgers>(
    bank: Bank<B>,
    stakes: Vec<Stake<B>>,
    made: Option<Four<Reserved<B>>>,
) -> Option<Audit>
    requires empty { vec_len stakes ≡ 0 }
    requires room { 4 ≤ vec_capacity stakes }
    requires rows { B.Held.parts ≡ 5 }
{
    let mut stakes = stakes;
    let Some((front, back)) = made else {
        stakes.destroy_empty();
        return None;
    };
    stakes.push_reserved(front.0.for_audit());
    stakes.push_reserved(front.1.for_audit());
    stakes.push_reserved(back.0.for_audit());
    stakes.push_reserved(back.1.for_audit());
    match bank.audit(stakes) {
        Ok(audit) => Some(audit),
        Err(_) => unreachable!(),
    }
}

/// Adds the sums of the reservations that four threads make at last.
pub fn put_budget<B: Ledgers + Send + Sync, R: Threads + Wait + Sync>(
    rt: &R,
    alloc: Global,
    bank: Bank<B>,
    out: &mut Vec<u8>,
) -> Result<(), NoMemory>
where
    B::Held: Send + Sync,
    B::Free: Send + Sync,
    B::Slack: Send + Sync,
    B::Pages: Send + Sync,
    requires rows { B.Held.parts ≡ 5 }
{
    let stakes = Vec::with_capacity(alloc, 4)?;
    let made = share(rt, &RowBank { rt, bank: &bank });
    put_sums(out, sums_of_four(bank, stakes, made))
}
