//! The budget, shared by threads. A call with `rt` takes the lock, calls one method of the locked
//! part, and releases the lock; `set_capacity` does so until no page is missing.
ghost use Rattle.std.specs.Prelude.{◌≡◌, ◌+◌, ◌-◌, ◌≤◌, ◌<◌, ℕ, Err, IfOk, IfErr, IfSome, vec_len};
ghost use Rattle.span_bank.specs.declared.limits.TheConstants.{MAX_CAPACITY, MAX_ROWS};
ghost use Rattle.span_bank.specs.declared.step.CapacityFault.TheVariants.{TooLow};
ghost use Rattle.span_bank.specs.Stakes.{held_sum, claim_sum, page_sum, most_pages, CountsIn, lent, given_back};

use crate::NoMemory;
use crate::ledgers::{Blanks, Ledgers};
use crate::locked::{Locked, all_pages};
use crate::pages::Pages;
use crate::stake::Stake;
use crate::state::BankState;
use crate::step::{Audit, AuditFault, CapacityFault, Numbers, OpenFault, Resized, Store};
use std::alloc::Global;
use std::sync::{Mutex, Wait};

/// The usage totals at a moment.
pub type Book = Numbers;

/// The buffer budget of all transactions, which threads share by reference.
///
/// `B` names its ledgers, which are picked once for each bank, so its calls accept no stake of another
/// bank. A call with `rt` takes the lock, calls one method of the locked part, and releases the lock;
/// `set_capacity` does so until no page is missing.
///
/// ```
/// let bank: Bank<B> = Bank::new(alloc, blanks, 8192, 2, 16)?;
/// let mut stake = bank.open(rt, 4096)?;
/// // 100 bytes arrive, on one page.
/// let pages = bank.grow(rt, &mut stake, 100, 1);
/// assert_eq!(rt; bank.book(rt, Some(&mut stake)).held, 100);
/// bank.shrink(rt, &mut stake, 100, pages);
/// bank.close(rt, stake, Pages::none());
/// ```
#[derive(Drop)]
pub struct Bank<B: Ledgers> {
    alloc: Global,
    locked: Mutex<Locked<B>>,
}

impl<B: Ledgers> Bank<B> {
    /// A budget of `capacity` bytes for at most `rows` reservations, with room for `journal` steps
    /// and all pages that the reservations can need. Each blank has a part for each row, and one
    /// more. `Err` if memory runs out; later only `set_capacity` allocates.
    pub fn new(
        alloc: Global,
        blanks: Blanks,
        capacity: u64,
        rows: u64,
        journal: usize,
    ) -> Result<Bank<B>, NoMemory>
        requires held { (blanks.held.name ≡ B.Held.name) × (blanks.held.parts ≡ B.Held.parts) }
        requires free { (blanks.free.name ≡ B.Free.name) × (blanks.free.parts ≡ B.Free.parts) }
        requires slack { (blanks.slack.name ≡ B.Slack.name) × (blanks.slack.parts ≡ B.Slack.parts) }
        requires pages { (blanks.pages.name ≡ B.Pages.name) × (blanks.pages.parts ≡ B.Pages.parts) }
        requires parts { (blanks.held.parts ≡ rows + 1) × (blanks.free.parts ≡ rows + 1) }
        requires others { (blanks.slack.parts ≡ rows + 1) × (blanks.pages.parts ≡ rows + 1) }
        requires capacity { (1 ≤ capacity) × (capacity ≤ MAX_CAPACITY) }
        requires rows { (1 ≤ rows) × (rows ≤ MAX_ROWS) }
        requires journal { 1 ≤ journal }
    {
        let state = BankState::new(alloc, capacity, rows, journal)?;
        let store = Pages::make(alloc, all_pages(capacity, rows))?;
        Ok(Bank {
            alloc,
            locked: Mutex::new(Locked::new(state, blanks, store)),
        })
    }

    /// Reserves `claim` bytes and holds none of them yet. `Full` if the reservations would exceed
    /// the capacity, with the bytes that are reserved; else `NoRow` if each slot is taken.
    pub fn open(&self, rt: &impl Wait, claim: u64) -> Result<Stake<B>, OpenFault>
        requires { 1 ≤ claim }
        ensures stake { IfOk result (λ s. s ≡ record { held = 0; claim = claim; pages = 0 }) }
        ensures small { IfOk result (λ s. s.claim ≤ MAX_CAPACITY) }
    {
        self.locked.lock(rt).open(claim)
    }

    /// Takes `n` bytes of the reservation into use, with `k` pages.
    pub fn grow(&self, rt: &impl Wait, stake: &mut Stake<B>, n: u64, k: u64) -> Pages
        requires some { 1 ≤ n }
        requires room { stake.old.held + n ≤ stake.old.claim }
        requires pages { stake.old.pages + k ≤ most_pages (stake.old.held + n) }
        ensures given { result ≡ k }
        ensures stake { stake.new ≡ record stake.old { held = stake.old.held + n; pages = stake.old.pages + k } }
    {
        self.locked.lock(rt).grow(stake, n, k)
    }

    /// Returns `n` bytes in use, with pages. The bytes stay reserved.
    pub fn shrink(&self, rt: &impl Wait, stake: &mut Stake<B>, n: u64, pages: Pages)
        requires some { 1 ≤ n }
        requires held { n ≤ stake.old.held }
        requires pages { pages ≤ stake.old.pages }
        requires left { stake.old.pages - pages ≤ most_pages (stake.old.held - n) }
        ensures { stake.new ≡ record stake.old { held = stake.old.held - n; pages = stake.old.pages - pages } }
    {
        self.locked.lock(rt).shrink(stake, n, pages)
    }

    /// Lowers the reservation to `claim` bytes, for others to reserve. The bytes in use stay in use.
    pub fn reclaim(&self, rt: &impl Wait, stake: &mut Stake<B>, claim: u64)
        requires held { stake.old.held ≤ claim }
        requires lower { claim ≤ stake.old.claim }
        ensures { stake.new ≡ record stake.old { claim = claim } }
    {
        self.locked.lock(rt).reclaim(stake, claim)
    }

    /// Ends a reservation that holds nothing, with all its pages.
    pub fn close(&self, rt: &impl Wait, stake: Stake<B>, pages: Pages)
        requires held { stake.held ≡ 0 }
        requires pages { pages ≡ stake.pages }
    {
        self.locked.lock(rt).close(stake, pages)
    }

    /// All pages of the bank, and those of them in use.
    pub fn store(&self, rt: &impl Wait) -> Store
        ensures { result.used ≤ result.total }
    {
        self.locked.lock(rt).store()
    }

    /// The usage totals. A stake that is lent is counted in them, and stays as it is.
    pub fn book<'a>(&'a self, rt: &impl Wait, own: Option<&'a mut Stake<B>>) -> Book
        ensures order { (result.held ≤ result.claimed) × (result.claimed ≤ result.capacity) }
        ensures most { (result.rows < B.Held.parts) × (result.capacity ≤ MAX_CAPACITY) }
        ensures counted { IfSome own.entry (λ s. CountsIn result s.now) }
        ensures stays { given_back own.exit ≡ lent own.entry }
    {
        match own {
            Some(stake) => self.locked.lock(rt).book_beside(stake),
            None => self.locked.lock(rt).book(),
        }
    }

    /// Sets the size of the budget to `n` bytes. `TooLow` if more bytes are reserved, with their
    /// number; `NoMemory` if new pages find no memory. In both cases nothing changes.
    pub fn set_capacity(&self, rt: &impl Wait, n: u64) -> Result<(), CapacityFault>
        requires { (1 ≤ n) × (n ≤ MAX_CAPACITY) }
        ensures { (claimed : ℕ) → result ≡ Err (TooLow claimed) → n < claimed }
    {
        let mut fresh = Pages::none();
        for _round in rt.forever() {
            let answer = self.locked.lock(rt).set_capacity(n, &mut fresh);
            match answer {
                Resized::Done => return Ok(()),
                Resized::TooLow(claimed) => return Err(CapacityFault::TooLow { claimed }),
                Resized::Short(more) => {
                    // The lock is free again while the memory is taken.
                    match Pages::make(self.alloc, more - fresh.count()) {
                        Ok(pages) => fresh.join(pages),
                        Err(_) => return Err(CapacityFault::NoMemory),
                    }
                }
            }
        }
        unreachable!()
    }

    /// Ends the bank with all its reservations, and returns their number and sums. `Missing` if
    /// fewer stakes were handed in than are open: then the bank and the stakes come back.
    pub fn audit(self, stakes: Vec<Stake<B>>) -> Result<Audit, (Bank<B>, Vec<Stake<B>>, AuditFault)>
        ensures rows { IfOk result (λ a. a.rows ≡ vec_len stakes) }
        ensures held { IfOk result (λ a. a.held ≡ held_sum stakes.items) }
        ensures claimed { IfOk result (λ a. a.claimed ≡ claim_sum stakes.items) }
        ensures pages { IfOk result (λ a. a.pages ≡ page_sum stakes.items) }

        // Missing comes only where the stakes have fewer parts than the ledger, less the one that stays.
        ensures fewer { IfErr result (λ e. vec_len stakes + 1 < B.Held.parts) }
        ensures back { IfErr result (λ e. e.1.items ≡ stakes.items) }
    {
        let Bank { alloc, locked } = self;
        match locked.into_inner().audit(stakes) {
            Ok(audit) => Ok(audit),
            Err((locked, stakes, fault)) => Err((
                Bank {
                    alloc,
                    locked: Mutex::new(locked),
                },
                stakes,
                fault,
            )),
        }
    }
}
