//! A budget, as its rows and threads ask it, and a reservation with the pages that it has.
ghost use Rattle.std.specs.Prelude.{◌≡◌, ◌≤◌};

use crate::resources::steps::Lender;
use crate::row_bank::RowBank;
use span_bank::{
    Book, CapacityFault, Ledgers, MAX_CAPACITY, MAX_PAGES, OpenFault, PAGE_BYTES, Pages,
    SPARE_PAGES, Stake, Store,
};
use std::marker::Model;
use std::sync::Wait;

/// A reservation with all its pages.
pub struct Reserved<B: Ledgers> {
    stake: Stake<B>,
    pages: Pages,
}

impl<B: Ledgers> Model for Reserved<B> {
    ghost use Rattle.std.specs.Prelude.{◌≡◌};
    ghost use Rattle.span_bank.specs.Stakes.{Shown};

    ghost Value = { Shown };

    ghost view = { λ r. r.stake };

    ghost invariant = { λ r. r.pages ≡ r.stake.pages };
}

impl<B: Ledgers> Reserved<B> {
    /// A new reservation, which has no page.
    pub fn new(stake: Stake<B>) -> Reserved<B>
        requires { stake.pages ≡ 0 }
        ensures { result ≡ stake }
    {
        Reserved {
            stake,
            pages: Pages::none(),
        }
    }

    /// The reservation without its pages, for an audit.
    pub fn for_audit(self) -> Stake<B>
        ensures { result ≡ self }
    {
        let Reserved { stake, pages: _ } = self;
        stake
    }
}

/// A budget, which lends reservations.
pub trait Budget: Lender {
    /// Makes a reservation of at least one byte.
    fn open(&self, claim: u64) -> Result<Self::Lent, OpenFault>
        requires { 1 ≤ claim };

    /// Takes bytes and pages into use, where the reservation may have as many.
    fn grow(&self, own: &mut Self::Lent, bytes: u64, pages: u64) -> bool;

    /// Gives back bytes and pages, where the reservation may have what is left.
    fn shrink(&self, own: &mut Self::Lent, bytes: u64, pages: u64) -> bool;

    /// Lowers the size of a reservation, where the bytes in use fit into it.
    fn reclaim(&self, own: &mut Self::Lent, claim: u64) -> bool;

    /// What a reservation has: its bytes in use, its size, and its pages.
    fn shown(&self, own: &Self::Lent) -> (u64, u64, u64);

    /// The totals, with a reservation lent.
    fn beside(&self, own: &mut Self::Lent) -> Book;

    /// The totals.
    fn book(&self) -> Book;

    /// The pages of all reservations, and those in use.
    fn store(&self) -> Store;

    /// Another size of the budget, within what one may have.
    fn resize(&self, capacity: u64) -> Result<(), CapacityFault>;
}

impl<'a, B: Ledgers, R: Wait> Lender for RowBank<'a, B, R> {
    type Lent = Reserved<B>;

    fn end(&self, lent: Reserved<B>) {
        let Reserved { mut stake, pages } = lent;
        let held = stake.held();
        if held == 0 {
            self.bank.close(self.rt, stake, pages);
        } else {
            self.bank.shrink(self.rt, &mut stake, held, pages);
            self.bank.close(self.rt, stake, Pages::none());
        }
    }
}

impl<'a, B: Ledgers, R: Wait> Budget for RowBank<'a, B, R> {
    fn open(&self, claim: u64) -> Result<Reserved<B>, OpenFault> {
        match self.bank.open(self.rt, claim) {
            Ok(stake) => Ok(Reserved::new(stake)),
            Err(fault) => Err(fault),
        }
    }

    fn grow(&self, own: &mut Reserved<B>, bytes: u64, pages: u64) -> bool {
        let held = own.stake.held();
        if bytes == 0 || bytes > own.stake.claim() - held {
            return false;
        }
        let most = (held + bytes) / PAGE_BYTES + SPARE_PAGES;
        let has = own.stake.pages();
        if has > most || pages > most - has || pages > MAX_PAGES - own.pages.count() {
            return false;
        }
        let more = self.bank.grow(self.rt, &mut own.stake, bytes, pages);
        own.pages.join(more);
        true
    }

    fn shrink(&self, own: &mut Reserved<B>, bytes: u64, pages: u64) -> bool {
        let held = own.stake.held();
        let has = own.pages.count();
        if bytes == 0 || bytes > held || pages > has {
            return false;
        }
        if has - pages > (held - bytes) / PAGE_BYTES + SPARE_PAGES {
            return false;
        }
        let fewer = own.pages.cut(pages);
        self.bank.shrink(self.rt, &mut own.stake, bytes, fewer);
        true
    }

    fn reclaim(&self, own: &mut Reserved<B>, claim: u64) -> bool {
        if claim < own.stake.held() || claim > own.stake.claim() {
            return false;
        }
        self.bank.reclaim(self.rt, &mut own.stake, claim);
        true
    }

    fn shown(&self, own: &Reserved<B>) -> (u64, u64, u64) {
        (own.stake.held(), own.stake.claim(), own.stake.pages())
    }

    fn beside(&self, own: &mut Reserved<B>) -> Book {
        self.bank.book(self.rt, Some(&mut own.stake))
    }

    fn book(&self) -> Book {
        self.bank.book(self.rt, None)
    }

    fn store(&self) -> Store {
        self.bank.store(self.rt)
    }

    fn resize(&self, capacity: u64) -> Result<(), CapacityFault> {
        self.bank
            .set_capacity(self.rt, capacity.max(1).min(MAX_CAPACITY))
    }
}
