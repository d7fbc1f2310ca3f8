//! A lease or a reservation that an audit doesn't get: no value may stand in its place, so the cases are code.
ghost use Rattle.std.specs.Prelude.{◌≡◌, ◌≤◌};

use service_pool::{AuditFault, Found, LEDGER_PARTS, Lease, NoMemory, Pool, Taken};
use span_bank::{Audit, Bank, Blanks, Ledgers, Pages, Stake};
use std::alloc::Global;
use std::marker::Brand;
use std::process::Abort;
use std::sync::Wait;
use std::sync::ledger::{Blank, Ledger};
use std::test::*;
use std::thread;
use std::thread::Threads;

// What came back from an audit without one lease of two, and what one with all leases gave.
#[derive(Drop)]
struct HandedBack {
    leases_back: usize,
    put_back: Option<u32>,
    taken: Found<u32>,
    count: u64,
}

// Takes a connection and gives it up at once.
fn take_and_give_up<L: Ledger, R: Wait>(rt: &R, pool: &Pool<u32, L>) -> Found<u32> {
    match pool.take(rt) {
        Taken::Idle(connection, lease) => {
            pool.give_up(rt, lease);
            Found::Idle(connection)
        }
        Taken::Fresh(lease) => {
            pool.give_up(rt, lease);
            Found::Fresh
        }
        Taken::Busy => Found::Busy,
    }
}

// The lease of a connection that is opened.
fn fresh<L: Ledger, R: Wait + Abort>(rt: &R, pool: &Pool<u32, L>) -> Lease<L> {
    match pool.take(rt) {
        Taken::Fresh(lease) => lease,
        _ => panic!(rt; "no connection may be opened"),
    }
}

// Puts a lease with the others.
fn keep<L: Ledger, R: Abort>(rt: &R, leases: &mut Vec<Lease<L>>, lease: Lease<L>) {
    if leases.len() == leases.capacity() {
        panic!(rt; "no room for a lease");
    }
    leases.push_reserved(lease);
}

// The number of an audit with all leases.
fn counted<L: Ledger, R: Abort>(rt: &R, pool: Pool<u32, L>, leases: Vec<Lease<L>>) -> u64 {
    match pool.audit(leases) {
        Ok(count) => count,
        Err(_) => panic!(rt; "an audit failed with all leases"),
    }
}

fn audit_without_one<L: Ledger, R: Wait + Abort>(
    rt: &R,
    alloc: Global,
    blank: Blank,
) -> Result<HandedBack, NoMemory>
    requires { (blank.name ≡ L.name) × (blank.parts ≡ L.parts) × (blank.parts ≡ LEDGER_PARTS) }
{
    let pool: Pool<u32, L> = Pool::new(alloc, blank, 2, 16)?;
    let mut leases = Vec::with_capacity(alloc, 1)?;
    keep(rt, &mut leases, fresh(rt, &pool));
    let missing = fresh(rt, &pool);
    match pool.audit(leases) {
        Ok(_) => panic!(rt; "an audit passed without a lease"),
        Err((pool, leases, AuditFault::Missing)) => {
            let leases_back = leases.len();
            let put_back = pool.put(rt, 5, missing);
            Ok(HandedBack {
                leases_back,
                put_back,
                taken: take_and_give_up(rt, &pool),
                count: counted(rt, pool, leases),
            })
        }
    }
}

// What isn't as it should be.
fn wrong_lease(seen: &HandedBack) -> Option<&'static str> {
    if seen.leases_back != 1 {
        Some("the leases that came back")
    } else if seen.put_back.is_some() {
        Some("the connection that was put")
    } else if !matches!(seen.taken, Found::Idle(5)) {
        Some("the connection that was taken")
    } else if seen.count != 1 {
        Some("the count of an audit with all leases")
    } else {
        None
    }
}

#[test]
fn audit_with_a_missing_lease_hands_all_back(rt: HostRuntime) -> Result<(), Fail> {
    let blank = Blank::new(LEDGER_PARTS);
    let seen = audit_without_one::<Brand, HostRuntime>(&rt, rt.alloc(), blank)?;
    assert_eq!(rt; wrong_lease(&seen), None);
    Ok(())
}

// A reservation that was made, or none.
type Made<B> = Option<Stake<B>>;

// What came back from an audit of a budget without one reservation, and the sums of one with all.
#[derive(Clone, Copy)]
struct StakesBack {
    stakes_back: usize,
    fault: span_bank::AuditFault,
    sums: Audit,
}

// An audit without the last reservation, and one with it.
fn audit_twice<B: Ledgers, R: Abort>(
    rt: &R,
    bank: Bank<B>,
    stakes: Vec<Stake<B>>,
    last: Made<B>,
) -> StakesBack {
    match bank.audit(stakes) {
        Ok(_) => panic!(rt; "an audit passed without a reservation"),
        Err((bank, mut stakes, fault)) => {
            let stakes_back = stakes.len();
            add(rt, &mut stakes, last);
            match bank.audit(stakes) {
                Ok(sums) => StakesBack {
                    stakes_back,
                    fault,
                    sums,
                },
                Err(_) => panic!(rt; "an audit failed with all reservations"),
            }
        }
    }
}

// Puts a reservation with the others.
fn add<B: Ledgers, R: Abort>(rt: &R, stakes: &mut Vec<Stake<B>>, made: Made<B>) {
    match made {
        Some(stake) => {
            if stakes.len() == stakes.capacity() {
                panic!(rt; "no room for a reservation");
            }
            stakes.push_reserved(stake);
        }
        None => panic!(rt; "no reservation was made"),
    }
}

// Reserves bytes, and takes a number of them into use, on one page if there are any.
fn reserve<B: Ledgers, R: Wait>(rt: &R, bank: &Bank<B>, claim: u64, held: u64) -> Made<B>
    requires some { 1 ≤ claim }
    requires fits { held ≤ claim }
{
    match bank.open(rt, claim) {
        Ok(mut stake) => {
            if held > 0 {
                let _page = bank.grow(rt, &mut stake, held, 1);
            }
            Some(stake)
        }
        Err(_) => None,
    }
}

// Reservations of 10 and 20 bytes, of which 3 are in use, and an audit without the second.
fn audit_without_second<B: Ledgers, R: Wait + Abort>(
    rt: &R,
    alloc: Global,
    bank: Bank<B>,
) -> Result<StakesBack, NoMemory> {
    let mut stakes = Vec::with_capacity(alloc, 2)?;
    add(rt, &mut stakes, reserve(rt, &bank, 10, 0));
    let last = reserve(rt, &bank, 20, 3);
    Ok(audit_twice(rt, bank, stakes, last))
}

// Makes and ends a reservation again and again; it may be refused.
fn rounds<B: Ledgers, R: Wait>(rt: &R, bank: &Bank<B>) {
    for _ in 0..1000 {
        if let Ok(mut stake) = bank.open(rt, 30) {
            let page = bank.grow(rt, &mut stake, 30, 1);
            bank.shrink(rt, &mut stake, 30, page);
            bank.close(rt, stake, Pages::none());
        }
    }
}

// The rounds of two threads.
fn rounds_of_two<B: Ledgers + Send + Sync, R: Threads + Wait + Sync>(rt: &R, bank: &Bank<B>)
where
    B::Held: Send + Sync,
    B::Free: Send + Sync,
    B::Slack: Send + Sync,
    B::Pages: Send + Sync,
{
    thread::join(rt, move || rounds(rt, bank), move || rounds(rt, bank));
}

// The reservations of two threads.
fn stay_of_two<B: Ledgers + Send + Sync, R: Threads + Wait + Sync>(
    rt: &R,
    bank: &Bank<B>,
) -> (Made<B>, Made<B>)
where
    B::Held: Send + Sync,
    B::Free: Send + Sync,
    B::Slack: Send + Sync,
    B::Pages: Send + Sync,
{
    thread::join(
        rt,
        move || reserve(rt, bank, 25, 25),
        move || reserve(rt, bank, 25, 25),
    )
}

// Four threads make their rounds, and then each makes a reservation.
fn share<B: Ledgers + Send + Sync, R: Threads + Wait + Sync>(
    rt: &R,
    bank: &Bank<B>,
) -> ((Made<B>, Made<B>), (Made<B>, Made<B>))
where
    B::Held: Send + Sync,
    B::Free: Send + Sync,
    B::Slack: Send + Sync,
    B::Pages: Send + Sync,
{
    thread::join(
        rt,
        move || rounds_of_two(rt, bank),
        move || rounds_of_two(rt, bank),
    );
    thread::join(
        rt,
        move || stay_of_two(rt, bank),
        move || stay_of_two(rt, bank),
    )
}

// Four threads share a bank, and an audit lacks the reservation of the last.
fn audit_without_fourth<B: Ledgers + Send + Sync, R: Threads + Wait + Abort + Sync>(
    rt: &R,
    alloc: Global,
    bank: Bank<B>,
) -> Result<StakesBack, NoMemory>
where
    B::Held: Send + Sync,
    B::Free: Send + Sync,
    B::Slack: Send + Sync,
    B::Pages: Send + Sync,
{
    let mut stakes = Vec::with_capacity(alloc, 4)?;
    let (front, back) = share(rt, &bank);
    add(rt, &mut stakes, front.0);
    add(rt, &mut stakes, front.1);
    add(rt, &mut stakes, back.0);
    Ok(audit_twice(rt, bank, stakes, back.1))
}

// Both, on a bank each.
fn audit_without_one_of<
    H: Ledger + Send + Sync,
    F: Ledger + Send + Sync,
    S: Ledger + Send + Sync,
    P: Ledger + Send + Sync,
    R: Threads + Wait + Abort + Sync,
>(rt: &R, alloc: Global, blanks: Blanks, is_shared: bool) -> Result<StakesBack, NoMemory>
    requires held { (blanks.held.name ≡ H.name) × (blanks.held.parts ≡ H.parts) × (blanks.held.parts ≡ 5) }
    requires free { (blanks.free.name ≡ F.name) × (blanks.free.parts ≡ F.parts) × (blanks.free.parts ≡ 5) }
    requires slack { (blanks.slack.name ≡ S.name) × (blanks.slack.parts ≡ S.parts) × (blanks.slack.parts ≡ 5) }
    requires pages { (blanks.pages.name ≡ P.name) × (blanks.pages.parts ≡ P.parts) × (blanks.pages.parts ≡ 5) }
{
    let bank: Bank<(H, F, S, P)> = Bank::new(alloc, blanks, 100, 4, 16)?;
    if is_shared {
        audit_without_fourth(rt, alloc, bank)
    } else {
        audit_without_second(rt, alloc, bank)
    }
}

// What came back on a new bank.
fn stakes_back<R: Threads + Wait + Abort + Sync>(
    rt: &R,
    alloc: Global,
    is_shared: bool,
) -> Result<StakesBack, NoMemory> {
    let blanks = Blanks::new(5);
    audit_without_one_of::<Brand, Brand, Brand, Brand, R>(rt, alloc, blanks, is_shared)
}

// The first that isn't as wanted: the reservations that came back, or a sum of all of them.
fn wrong_stakes(seen: StakesBack, stakes_back: usize, sums: [u64; 4]) -> Option<&'static str> {
    let [rows, held, claimed, pages] = sums;
    if seen.stakes_back != stakes_back {
        Some("the reservations that came back")
    } else if !matches!(seen.fault, span_bank::AuditFault::Missing) {
        Some("the fault")
    } else if seen.sums.rows != rows {
        Some("rows")
    } else if seen.sums.held != held {
        Some("held bytes")
    } else if seen.sums.claimed != claimed {
        Some("claimed bytes")
    } else if seen.sums.pages != pages {
        Some("pages")
    } else {
        None
    }
}

#[test]
fn audit_without_a_stake_hands_all_back(rt: HostRuntime) -> Result<(), Fail> {
    let of_two = stakes_back(&rt, rt.alloc(), false)?;
    let of_four = stakes_back(&rt, rt.alloc(), true)?;
    let wrong = [
        wrong_stakes(of_two, 1, [2, 3, 30, 1]),
        wrong_stakes(of_four, 3, [4, 100, 100, 4]),
    ];
    assert_eq!(rt; wrong, [None; 2]);
    Ok(())
}
