//! Four threads on one bank and one pool: each reserves, and takes a connection while bytes are in use; at last each keeps what it gets.
ghost use Rattle.std.specs.Prelude.{◌≡◌};

use crate::resources::budget_threads::{StayOnBank, all_made, sums_of_four};
use crate::resources::calls::{Counter, Leasing, audited, put_audit};
use crate::resources::reserved::Budget;
use crate::resources::threads::{Last, Rounds, keep_all};
use crate::resources::words::put_sums;
use crate::row_bank::RowBank;
use crate::tasks::{Four, ThreadTask, four};
use service_pool::{LEDGER_PARTS, Pool};
use span_bank::{Bank, Ledgers};
use std::alloc::Global;
use std::marker::Brand;
use std::sync::Wait;
use std::sync::ledger::{Blank, Ledger};
use std::thread::Threads;
use test_rows::{NoMemory, put_number};

/// A thread's rounds, each with a reservation, which may be refused, and with connections that are taken.
#[derive(Drop)]
struct SharedRounds<'a, T, U> {
    budget: &'a T,
    pool: &'a U,
}

/// Makes a reservation and takes a lease, both of which stay.
#[derive(Drop)]
struct StayOnBoth<'a, T, U> {
    budget: &'a T,
    pool: &'a U,
}

impl<'a, T: Budget, U: Leasing> ThreadTask for SharedRounds<'a, T, U> {
    type Kept = ();

    fn run(&self) {
        for _ in 0..1000 {
            let connections = Rounds(self.pool, 2);
            match self.budget.open(30) {
                Ok(mut own) => {
                    let _grown = self.budget.grow(&mut own, 30, 1);
                    connections.run();
                    let _shrunk = self.budget.shrink(&mut own, 30, 1);
                    self.budget.end(own);
                }
                Err(_) => connections.run(),
            }
        }
    }
}

impl<'a, T: Budget, U: Leasing> ThreadTask for StayOnBoth<'a, T, U> {
    type Kept = (Option<T::Lent>, Option<U::Lent>);

    fn run(&self) -> (Option<T::Lent>, Option<U::Lent>) {
        let made = StayOnBank(self.budget).run();
        (made, Last(self.pool).run())
    }
}

/// The firsts of four pairs, and the seconds.
fn parted<A, B>(pairs: Four<(A, B)>) -> (Four<A>, Four<B>) {
    let ((first, second), (third, fourth)) = pairs;
    (
        ((first.0, second.0), (third.0, fourth.0)),
        ((first.1, second.1), (third.1, fourth.1)),
    )
}

/// What four threads have at last: their reservations, if each has one; how many got a lease, and the pool's audit.
struct Stayed<K> {
    made: Option<Four<K>>,
    leases: usize,
    audit: Option<u64>,
}

/// Four threads make their rounds on a budget and on a pool of at most three connections, and then each keeps what it gets.
fn share<L: Ledger + Send + Sync, T: Budget + Sync, R: Threads + Wait + Sync>(
    rt: &R,
    alloc: Global,
    budget: &T,
    blank: Blank,
) -> Result<Stayed<T::Lent>, NoMemory>
where
    T::Lent: Send,
    requires { (blank.name ≡ L.name) × (blank.parts ≡ L.parts) × (blank.parts ≡ LEDGER_PARTS) }
{
    let pool: Pool<u32, L> = Pool::new(alloc, blank, 3, 64)?;
    let mut leases = Vec::with_capacity(alloc, 4)?;
    let counter = Counter { rt, pool: &pool };
    let rounds = SharedRounds {
        budget,
        pool: &counter,
    };
    four(rt, &rounds);
    let stay = StayOnBoth {
        budget,
        pool: &counter,
    };
    let (made, taken) = parted(four(rt, &stay));
    keep_all(&counter, &mut leases, taken);
    let got = leases.len();
    Ok(Stayed {
        made: all_made(budget, made),
        leases: got,
        audit: audited(rt, pool, leases),
    })
}

/// Adds what four threads keep of a bank of four rows and of a pool.
pub fn put_both<B: Ledgers + Send + Sync, R: Threads + Wait + Sync>(
    rt: &R,
    alloc: Global,
    bank: Bank<B>,
    out: &mut Vec<u8>,
) -> Result<(), NoMemory>
where
    B::Held: Send + Sync,
    B::Free: Send + Sync,
    B::Slack: Send + Sync,
    B::Pages: Send + Sync,
    requires rows { B.Held.parts ≡ 5 }
{
    let stakes = Vec::with_capacity(alloc, 4)?;
    let budget = RowBank { rt, bank: &bank };
    let blank = Blank::new(LEDGER_PARTS);
    match share::<Brand, RowBank<'_, B, R>, R>(rt, alloc, &budget, blank) {
        Ok(stayed) => {
            let Stayed {
                made,
                leases,
                audit,
            } = stayed;
            put_sums(out, sums_of_four(bank, stakes, made))?;
            put_number(out, b"leases", leases as u64)?;
            put_audit(out, audit)
        }
        Err(NoMemory) => {
            stakes.destroy_empty();
            Err(NoMemory)
        }
    }
}
