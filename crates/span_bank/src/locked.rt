//! The locked part of the budget: the totals with their journal, the books of the ledgers, and
//! the store of pages.
ghost use Rattle.std.specs.Prelude.{◌≡◌, ◌+◌, ◌-◌, ◌*◌, ◌/◌, ◌≤◌, ◌<◌, ◌↔◌, ℕ, IsOk, IsErr, IfOk, IfErr, OnOk, OnErr, vec_len};
ghost use Rattle.span_bank.specs.declared.limits.TheConstants.{MAX_CAPACITY, MAX_ROWS};
ghost use Rattle.span_bank.specs.declared.step.BankStep.TheVariants.{Open, Grow, Shrink, Reclaim, Close, Capacity};
ghost use Rattle.span_bank.specs.declared.step.Resized.TheVariants.{Done, TooLow, Short};
ghost use Rattle.span_bank.specs.Journal.{slid};
ghost use Rattle.span_bank.specs.Replay.{after};
ghost use Rattle.span_bank.specs.State.{MaySum, Fits, Refuses, taken, IsKept};
ghost use Rattle.span_bank.specs.Stakes.{Stored, IsResized, IsUnchanged, held_sum, claim_sum, page_sum, most_pages, pages_of, CountsIn};

use crate::ledgers::{Blanks, Books, Ledgers, Parts, begin};
use crate::pages::Pages;
use crate::stake::{Stake, lend};
use crate::state::BankState;
use crate::step::{
    Audit, AuditFault, BankStep, Numbers, OpenFault, PAGE_BYTES, Resized, SPARE_PAGES, Store,
};
use crate::window::Window;
use std::marker::Model;

/// The locked part of a bank, between two calls of its methods.
///
/// It keeps only sums, and no list of reservations: each stake carries its own numbers, with one
/// part of each ledger. Contracts see its totals with their journal, and the numbers of its pages.
#[derive(Drop)]
pub struct Locked<B: Ledgers> {
    state: BankState<Window>,
    books: Books<B>,
    rest: Parts<B>,
    used: u64,
    store: Pages,
}

impl<B: Ledgers> Model for Locked<B> {
    ghost use Rattle.std.specs.Prelude.{◌≡◌, ◌+◌, ◌*◌, ◌/◌};
    ghost use Rattle.span_bank.specs.State.{IsKept};
    ghost use Rattle.span_bank.specs.Ledgers.{no_amounts};
    ghost use Rattle.span_bank.specs.Stakes.{Stored, IsResized, IsUnchanged, pages_of};
    ghost use Rattle.span_bank.specs.declared.step.TheConstants.{PAGE_BYTES, SPARE_PAGES};

    ghost Value = { Stored };

    ghost view = { λ l. record { state = l.state; used = l.used; store = l.store } };

    // the ledgers' totals are the bytes held, the rest of the claims, the bytes of pages that may still be had,
    // and the pages in use; each open row has a part of each ledger, and the others lie here
    ghost invariant = { λ l. IsKept l.state
        × (l.books.held ≡ l.state.journal.numbers.held)
        × (l.books.held + l.books.free ≡ l.state.journal.numbers.claimed)
        × (l.books.slack + PAGE_BYTES * l.used ≡ l.books.held + SPARE_PAGES * PAGE_BYTES * l.state.journal.numbers.rows)
        × (l.books.pages ≡ l.used)
        × (l.rest.parts + l.state.journal.numbers.rows ≡ B.Held.parts)
        × (l.rest.amounts ≡ no_amounts)
        × (l.state.most_rows + 1 ≡ B.Held.parts) × (B.Free.parts ≡ B.Held.parts)
        × (B.Slack.parts ≡ B.Held.parts) × (B.Pages.parts ≡ B.Held.parts)
        × (l.store + l.used ≡ pages_of l.state.journal.numbers.capacity l.state.most_rows) };
}

// The pages that a budget's reservations can need.
pub(crate) fn all_pages(capacity: u64, rows: u64) -> u64
    requires { rows ≤ MAX_ROWS }
    ensures { result ≡ pages_of capacity rows }
{
    capacity / PAGE_BYTES + SPARE_PAGES * rows
}

// Takes a step that is no Open, so that none is refused.
#[inline(always)]
fn apply_fitting(state: &mut BankState<Window>, step: BankStep)
    requires allowed { MaySum state.old.journal.numbers step }
    requires fits { Fits state.old step }
    ensures taken { state.new ≡ taken slid state.old step }
    ensures numbers { state.new.journal.numbers ≡ after state.old.journal.numbers step }
    ensures rows { state.new.most_rows ≡ state.old.most_rows }
    ensures sound { IsKept state.new }
{
    if state.apply(step).is_err() {
        unreachable!()
    }
}

impl<B: Ledgers> Locked<B> {
    /// The locked part of a state with no open reservation. Each blank has a part for each row,
    /// and one more, which stays here. The store has all pages that the reservations can need.
    pub fn new(state: BankState<Window>, blanks: Blanks, store: Pages) -> Locked<B>
        requires held { (blanks.held.name ≡ B.Held.name) × (blanks.held.parts ≡ B.Held.parts) }
        requires free { (blanks.free.name ≡ B.Free.name) × (blanks.free.parts ≡ B.Free.parts) }
        requires slack { (blanks.slack.name ≡ B.Slack.name) × (blanks.slack.parts ≡ B.Slack.parts) }
        requires pages { (blanks.pages.name ≡ B.Pages.name) × (blanks.pages.parts ≡ B.Pages.parts) }
        requires parts { (blanks.held.parts ≡ state.most_rows + 1) × (blanks.free.parts ≡ state.most_rows + 1) }
        requires others { (blanks.slack.parts ≡ state.most_rows + 1) × (blanks.pages.parts ≡ state.most_rows + 1) }
        requires none { (state.journal.numbers.rows ≡ 0) × (state.journal.numbers.held ≡ 0) × (state.journal.numbers.claimed ≡ 0) }
        requires store { store ≡ pages_of state.journal.numbers.capacity state.most_rows }
        ensures { result ≡ record { state = state; used = 0; store = store } }
    {
        // Shows that the state is sound.
        let _numbers = state.numbers();
        let (books, rest) = begin::<B>(blanks);
        Locked {
            state,
            books,
            rest,
            used: 0,
            store,
        }
    }

    /// Makes a reservation of `claim` bytes that holds none, as the step `Open`.
    pub fn open(&mut self, claim: u64) -> Result<Stake<B>, OpenFault>
        requires { 1 ≤ claim }
        ensures ok { IsOk result ↔ Fits self.old.state (Open claim) }
        ensures stake { IfOk result (λ s. s ≡ record { held = 0; claim = claim; pages = 0 }) }
        ensures step { OnOk result (self.new ≡ record self.old { state = taken slid self.old.state (Open claim) }) }
        ensures sound { IsKept self.new.state }

        // The fault is the first that stands, and a refused reservation changes nothing.
        ensures fault { IfErr result (Refuses self.old.state (Open claim)) }
        ensures kept { OnErr result (self.new ≡ self.old) }
    {
        self.state.apply(BankStep::Open(claim))?;
        Ok(lend(&mut self.books, &mut self.rest, claim))
    }

    /// Holds `n` bytes more, as the step `Grow`, and gives `k` pages.
    pub fn grow(&mut self, stake: &mut Stake<B>, n: u64, k: u64) -> Pages
        requires some { 1 ≤ n }
        requires room { stake.old.held + n ≤ stake.old.claim }
        requires pages { stake.old.pages + k ≤ most_pages (stake.old.held + n) }
        ensures given { result ≡ k }
        ensures stake { stake.new ≡ record stake.old { held = stake.old.held + n; pages = stake.old.pages + k } }
        ensures step { self.new.state ≡ taken slid self.old.state (Grow n) }
        ensures used { self.new.used ≡ self.old.used + k }
        ensures store { self.new.store + k ≡ self.old.store }
        ensures sound { IsKept self.new.state }
    {
        // The ledgers come first: they show that the sums allow the step, and that the store has the pages.
        stake.grow(&mut self.books, n, k);
        apply_fitting(&mut self.state, BankStep::Grow(n));
        self.used += k;
        self.store.cut(k)
    }

    /// Holds `n` bytes fewer, as the step `Shrink`, and takes pages back.
    pub fn shrink(&mut self, stake: &mut Stake<B>, n: u64, pages: Pages)
        requires some { 1 ≤ n }
        requires held { n ≤ stake.old.held }
        requires pages { pages ≤ stake.old.pages }
        requires left { stake.old.pages ≤ most_pages (stake.old.held - n) + pages }
        ensures stake { stake.new ≡ record stake.old { held = stake.old.held - n; pages = stake.old.pages - pages } }
        ensures step { self.new.state ≡ taken slid self.old.state (Shrink n) }
        ensures used { self.new.used + pages ≡ self.old.used }
        ensures store { self.new.store ≡ self.old.store + pages }
        ensures sound { IsKept self.new.state }
    {
        let count = pages.count();
        stake.shrink(&mut self.books, n, count);
        apply_fitting(&mut self.state, BankStep::Shrink(n));
        self.used -= count;
        self.store.join(pages);
    }

    /// Lowers the reservation to `claim` bytes, as the step `Reclaim`.
    pub fn reclaim(&mut self, stake: &mut Stake<B>, claim: u64)
        requires held { stake.old.held ≤ claim }
        requires lower { claim ≤ stake.old.claim }
        ensures stake { stake.new ≡ record stake.old { claim = claim } }
        ensures step { self.new ≡ record self.old { state = taken slid self.old.state (Reclaim stake.old.claim claim) } }
        ensures sound { IsKept self.new.state }
    {
        let old = stake.claim();
        stake.reclaim(&mut self.books, claim);
        apply_fitting(&mut self.state, BankStep::Reclaim(old, claim));
    }

    /// Ends a reservation that holds nothing, as the step `Close`, and takes all its pages back.
    pub fn close(&mut self, stake: Stake<B>, pages: Pages)
        requires held { stake.held ≡ 0 }
        requires pages { pages ≡ stake.pages }
        ensures step { self.new.state ≡ taken slid self.old.state (Close stake.claim) }
        ensures used { self.new.used + pages ≡ self.old.used }
        ensures store { self.new.store ≡ self.old.store + pages }
        ensures sound { IsKept self.new.state }
    {
        let claim = stake.claim();
        let count = pages.count();
        stake.close(&mut self.books, &mut self.rest);
        apply_fitting(&mut self.state, BankStep::Close(claim));
        self.used -= count;
        self.store.join(pages);
    }

    /// The totals now. The journal replays to them, and they are consistent.
    pub fn book(&self) -> Numbers
        ensures numbers { result ≡ self.now.state.journal.numbers }
        ensures sound { IsKept self.now.state }
        ensures order { (result.held ≤ result.claimed) × (result.claimed ≤ result.capacity) }
        ensures most { (result.rows < B.Held.parts) × (result.capacity ≤ MAX_CAPACITY) }
    {
        self.state.numbers()
    }

    /// The pages now. Those in use are at most those of the reserved bytes, and four for each row.
    pub fn store(&self) -> Store
        ensures used { result.used ≡ self.now.used }
        ensures total { result.total ≡ pages_of self.now.state.journal.numbers.capacity self.now.state.most_rows }
        ensures bound { self.now.used ≤ self.now.state.journal.numbers.claimed / PAGE_BYTES + SPARE_PAGES * self.now.state.journal.numbers.rows }
        ensures within { result.used ≤ result.total }
    {
        // Shows that the state is sound.
        let _numbers = self.state.numbers();
        Store {
            total: self.store.count() + self.used,
            used: self.used,
        }
    }

    /// Sets the size of the budget to `n` bytes, as the step `Capacity`, if no more bytes are reserved
    /// and `fresh` has the missing pages. Afterwards `fresh` has the pages that aren't needed.
    pub fn set_capacity(&mut self, n: u64, fresh: &mut Pages) -> Resized
        requires size { (1 ≤ n) × (n ≤ MAX_CAPACITY) }
        requires fresh { fresh.old ≤ pages_of MAX_CAPACITY MAX_ROWS }
        ensures done { result ≡ Done → IsResized self.old self.new n fresh.old fresh.new }
        ensures low { (claimed : ℕ) → result ≡ TooLow claimed →
            (claimed ≡ self.old.state.journal.numbers.claimed) × (n < claimed) × IsUnchanged self.old self.new fresh.old fresh.new }
        ensures short { (more : ℕ) → result ≡ Short more →
            (self.old.state.journal.numbers.claimed ≤ n) × (fresh.old < more) × (more ≤ pages_of MAX_CAPACITY MAX_ROWS) × IsUnchanged self.old self.new fresh.old fresh.new }
        ensures sound { IsKept self.new.state }
    {
        let claimed = self.state.numbers().claimed;
        if n < claimed {
            return Resized::TooLow(claimed);
        }
        // Shows that the pages in use are at most those needed.
        let have = self.store().total;
        let wanted = all_pages(n, self.state.most_rows());
        let came = fresh.count();
        if have + came < wanted {
            return Resized::Short(wanted - have);
        }
        apply_fitting(&mut self.state, BankStep::Capacity(n));
        self.store.join(fresh.cut(came));
        fresh.join(self.store.cut(have + came - wanted));
        Resized::Done
    }

    /// The totals now, in which a stake of the caller's is counted. Nothing changes.
    pub fn book_beside(&mut self, own: &mut Stake<B>) -> Numbers
        ensures numbers { result ≡ self.old.state.journal.numbers }
        ensures same { self.new ≡ self.old }
        ensures stays { own.new ≡ own.old }
        ensures counted { CountsIn result own.old }
        ensures order { (result.held ≤ result.claimed) × (result.claimed ≤ result.capacity) }
        ensures most { (result.rows < B.Held.parts) × (result.capacity ≤ MAX_CAPACITY) }
    {
        own.count(&mut self.books, &mut self.rest);
        self.state.numbers()
    }

    /// Ends all reservations at once, and returns their number and sums, which are the book's.
    /// `Missing` if fewer stakes were handed in than are open; then everything is handed back.
    pub fn audit(
        self,
        stakes: Vec<Stake<B>>,
    ) -> Result<Audit, (Locked<B>, Vec<Stake<B>>, AuditFault)>
        ensures rows { IfOk result (λ a. a.rows ≡ vec_len stakes) }
        ensures held { IfOk result (λ a. a.held ≡ held_sum stakes.items) }
        ensures claimed { IfOk result (λ a. a.claimed ≡ claim_sum stakes.items) }
        ensures pages { IfOk result (λ a. a.pages ≡ page_sum stakes.items) }
        ensures book { IfOk result (λ a. (a.rows ≡ self.state.journal.numbers.rows)
            × (a.held ≡ self.state.journal.numbers.held) × (a.claimed ≡ self.state.journal.numbers.claimed) × (a.pages ≡ self.used)) }

        // A stake is missing exactly where fewer came than rows are open, and all is as before.
        ensures missing { IsErr result ↔ (vec_len stakes < self.state.journal.numbers.rows) }
        ensures back { IfErr result (λ e. (e.0 ≡ self) × (e.1.items ≡ stakes.items)) }
        ensures fewer { IfErr result (λ e. vec_len stakes + 1 < B.Held.parts) }
    {
        let numbers = self.state.numbers();
        if (stakes.len() as u64) < numbers.rows {
            return Err((self, stakes, AuditFault::Missing));
        }
        let Locked {
            state: _,
            mut books,
            mut rest,
            used,
            store: _,
        } = self;
        let mut stakes = stakes;
        while let Some(stake) = stakes.pop() {
            stake.join(&mut rest);
        }
        stakes.destroy_empty();
        let mut none = rest.empty();
        none.stand_apart(&mut rest);
        books.count(&mut rest);
        Ok(Audit {
            rows: numbers.rows,
            held: numbers.held,
            claimed: numbers.claimed,
            pages: used,
        })
    }
}
