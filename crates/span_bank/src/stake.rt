//! A reservation: one transaction's part of the budget.
ghost use Rattle.std.specs.Prelude.{◌≡◌, ◌+◌, ◌-◌, ◌*◌, ◌≤◌, ◌<◌};
ghost use Rattle.span_bank.specs.declared.limits.TheConstants.{MAX_CAPACITY};
ghost use Rattle.span_bank.specs.Ledgers.{Amounts, no_amounts, plus};
ghost use Rattle.span_bank.specs.Stakes.{most_pages};

use crate::ledgers::{Books, Change, Ledgers, NOTHING, Parts};
use crate::step::{PAGE_BYTES, SPARE_PAGES};
use std::marker::Model;

/// A reservation: the bytes that its owner holds, the largest number that it may hold, and its pages.
///
/// `B` names the ledgers of its bank, so a bank takes no stake of another bank. A stake has one
/// part of each ledger. It has no `Drop`: it must go back to its bank, by `close` or `audit`.
#[must_use]
pub struct Stake<B: Ledgers> {
    held: u64,
    claim: u64,
    pages: u64,
    parts: Parts<B>,
}

impl<B: Ledgers> Model for Stake<B> {
    ghost use Rattle.std.specs.Prelude.{◌≡◌, ◌+◌, ◌*◌, ◌≤◌};
    ghost use Rattle.span_bank.specs.Stakes.{Shown};
    ghost use Rattle.span_bank.specs.declared.limits.TheConstants.{MAX_CAPACITY};
    ghost use Rattle.span_bank.specs.declared.step.TheConstants.{PAGE_BYTES, SPARE_PAGES};

    ghost Value = { Shown };

    ghost view = { λ s. record { held = s.held; claim = s.claim; pages = s.pages } };

    // one part of each ledger, with the bytes held, the rest of the claim, the bytes of the pages
    // that may still be had, and the pages as their amounts
    ghost invariant = { λ s. (s.claim ≤ MAX_CAPACITY) × (s.parts.parts ≡ 1) × (s.parts.amounts.held ≡ s.held)
        × (s.held + s.parts.amounts.free ≡ s.claim)
        × (s.parts.amounts.slack + PAGE_BYTES * s.pages ≡ s.held + SPARE_PAGES * PAGE_BYTES)
        × (s.parts.amounts.pages ≡ s.pages) };
}

// A reservation of `claim` bytes that holds none, with a part of those that stay under the lock.
pub(crate) fn lend<B: Ledgers>(books: &mut Books<B>, rest: &mut Parts<B>, claim: u64) -> Stake<B>
    requires claim { claim ≤ MAX_CAPACITY }
    requires parts { 1 < rest.old.parts }
    ensures stake { result ≡ record { held = 0; claim = claim; pages = 0 } }
    ensures books { books.new ≡ plus books.old (record no_amounts { free = claim; slack = SPARE_PAGES * PAGE_BYTES }) }
    ensures part { rest.new.parts + 1 ≡ rest.old.parts }
    ensures rest { rest.new.amounts ≡ rest.old.amounts }
{
    let mut parts = rest.lend_one();
    books.add(
        &mut parts,
        Change {
            free: claim,
            slack: SPARE_PAGES * PAGE_BYTES,
            ..NOTHING
        },
    );
    Stake {
        held: 0,
        claim,
        pages: 0,
        parts,
    }
}

impl<B: Ledgers> Stake<B> {
    /// The bytes that the reservation's owner holds.
    pub fn held(&self) -> u64
        ensures held { result ≡ self.now.held }
        ensures within { self.now.held ≤ self.now.claim }
    {
        self.held
    }

    /// The size of the reservation: the largest number of bytes that its owner may hold.
    pub fn claim(&self) -> u64
        ensures { result ≡ self.now.claim }
    {
        self.claim
    }

    /// The pages that its owner has.
    pub fn pages(&self) -> u64
        ensures pages { result ≡ self.now.pages }
        ensures within { self.now.pages ≤ most_pages self.now.held }
    {
        self.pages
    }

    // Holds `n` bytes more, with `k` pages more.
    pub(crate) fn grow(&mut self, books: &mut Books<B>, n: u64, k: u64)
        requires room { self.old.held + n ≤ self.old.claim }
        requires pages { self.old.pages + k ≤ most_pages (self.old.held + n) }
        ensures stake { self.new ≡ record self.old { held = self.old.held + n; pages = self.old.pages + k } }
        ensures held { books.new.held ≡ books.old.held + n }
        ensures free { books.new.free + n ≡ books.old.free }
        ensures slack { books.new.slack + PAGE_BYTES * k ≡ books.old.slack + n }
        ensures pages { books.new.pages ≡ books.old.pages + k }
    {
        books.count(&mut self.parts);
        books.add(
            &mut self.parts,
            Change {
                held: n,
                free: 0,
                slack: n,
                pages: k,
            },
        );
        books.sub(
            &mut self.parts,
            Change {
                held: 0,
                free: n,
                slack: PAGE_BYTES * k,
                pages: 0,
            },
        );
        self.held += n;
        self.pages += k;
    }

    // Holds `n` bytes fewer, with `k` pages fewer.
    pub(crate) fn shrink(&mut self, books: &mut Books<B>, n: u64, k: u64)
        requires held { n ≤ self.old.held }
        requires pages { k ≤ self.old.pages }
        requires left { self.old.pages ≤ most_pages (self.old.held - n) + k }
        ensures stake { self.new ≡ record self.old { held = self.old.held - n; pages = self.old.pages - k } }
        ensures held { books.new.held + n ≡ books.old.held }
        ensures free { books.new.free ≡ books.old.free + n }
        ensures slack { books.new.slack + n ≡ books.old.slack + PAGE_BYTES * k }
        ensures pages { books.new.pages + k ≡ books.old.pages }
    {
        books.count(&mut self.parts);
        books.add(
            &mut self.parts,
            Change {
                held: 0,
                free: n,
                slack: PAGE_BYTES * k,
                pages: 0,
            },
        );
        books.sub(
            &mut self.parts,
            Change {
                held: n,
                free: 0,
                slack: n,
                pages: k,
            },
        );
        self.held -= n;
        self.pages -= k;
    }

    // Lowers the claim, in the book of the rest of the claims.
    pub(crate) fn reclaim(&mut self, books: &mut Books<B>, claim: u64)
        requires held { self.old.held ≤ claim }
        requires lower { claim ≤ self.old.claim }
        ensures stake { self.new ≡ record self.old { claim = claim } }
        ensures books { plus books.new (record no_amounts { free = self.old.claim - claim }) ≡ books.old }
    {
        books.sub(
            &mut self.parts,
            Change {
                free: self.claim - claim,
                ..NOTHING
            },
        );
        self.claim = claim;
    }

    // Ends a reservation that holds nothing; its parts go back to those that stay under the lock.
    pub(crate) fn close(self, books: &mut Books<B>, rest: &mut Parts<B>)
        requires held { self.held ≡ 0 }
        ensures free { books.new.free + self.claim ≡ books.old.free }
        ensures held { books.new.held ≡ books.old.held }
        ensures slack { books.new.slack + SPARE_PAGES * PAGE_BYTES ≡ books.old.slack + PAGE_BYTES * self.pages }
        ensures pages { books.new.pages + self.pages ≡ books.old.pages }
        ensures part { rest.new.parts ≡ rest.old.parts + 1 }
        ensures rest { rest.new.amounts ≡ rest.old.amounts }
        ensures apart { rest.new.parts ≤ B.Held.parts }
    {
        let Stake {
            held: _,
            claim,
            pages,
            mut parts,
        } = self;
        books.sub(
            &mut parts,
            Change {
                held: 0,
                free: claim,
                slack: SPARE_PAGES * PAGE_BYTES - PAGE_BYTES * pages,
                pages: pages,
            },
        );
        rest.merge(parts);
    }

    // Changes nothing, and tells that the reservation is counted in all books.
    pub(crate) fn count(&mut self, books: &mut Books<B>, rest: &mut Parts<B>)
        ensures stake { self.new ≡ self.old }
        ensures books { books.new ≡ books.old }
        ensures rest { rest.new ≡ rest.old }
        ensures held { self.old.held ≤ books.old.held }
        ensures free { self.old.claim ≤ self.old.held + books.old.free }
        ensures pages { self.old.pages ≤ books.old.pages }
        ensures apart { rest.old.parts + 1 ≤ B.Held.parts }
    {
        books.count(&mut self.parts);
        self.parts.stand_apart(rest);
    }

    // Adds the reservation to shares of each ledger.
    pub(crate) fn join(self, all: &mut Parts<B>)
        ensures part { all.new.parts ≡ all.old.parts + 1 }
        ensures held { all.new.amounts.held ≡ all.old.amounts.held + self.held }
        ensures free { all.new.amounts.free + self.held ≡ all.old.amounts.free + self.claim }
        ensures pages { all.new.amounts.pages ≡ all.old.amounts.pages + self.pages }
        ensures apart { all.new.parts ≤ B.Held.parts }
    {
        let Stake {
            held: _,
            claim: _,
            pages: _,
            parts,
        } = self;
        all.merge(parts);
    }
}
