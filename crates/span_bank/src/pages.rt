//! Pages by their number.
ghost use Rattle.std.specs.Prelude.{◌≡◌, ◌+◌, ◌≤◌, ◌<◌, [], IfOk, IfSome, IfNone};

use crate::NoMemory;
use crate::chain::{Chain, MAX_PAGES, Page, blank};
use std::alloc::Global;
use std::boxed::Box;
use std::marker::Model;

/// Pages whose contents don't matter. Contracts see only their number.
#[derive(Drop)]
pub struct Pages {
    chain: Chain,
}

impl Model for Pages {
    ghost use Rattle.std.specs.Prelude.{ℕ, length};

    ghost Value = { ℕ };

    ghost view = { λ p. length p.chain };
}

impl Pages {
    /// No page.
    pub fn none() -> Pages
        ensures { result ≡ 0 }
    {
        Pages {
            chain: Chain::none(),
        }
    }

    /// This many newly allocated pages. `Err` if memory runs out; then no page is allocated.
    pub(crate) fn make(alloc: Global, count: u64) -> Result<Pages, NoMemory>
        requires { count ≤ MAX_PAGES }
        ensures { IfOk result (λ p. p ≡ count) }
    {
        let mut pages = Pages::none();
        for _i in 0..count {
            pages.push(blank(alloc)?);
        }
        Ok(pages)
    }

    /// The number of pages.
    pub fn count(&self) -> u64
        ensures count { result ≡ self.now }
        ensures within { self.now ≤ MAX_PAGES }
    {
        self.chain.count()
    }

    /// Adds a page.
    pub fn push(&mut self, page: Box<Page>)
        requires room { self.old < MAX_PAGES }
        requires alone { page.value.rest ≡ [] }
        ensures { self.new ≡ self.old + 1 }
    {
        self.chain.push(page)
    }

    /// Takes a page.
    pub fn pop(&mut self) -> Option<Box<Page>>
        ensures some { IfSome result (λ p. (p.value.rest ≡ []) × (self.old ≡ self.new + 1)) }
        ensures none { IfNone result ((self.old ≡ 0) × (self.new ≡ 0)) }
    {
        self.chain.pop()
    }

    /// Adds these pages.
    pub fn join(&mut self, other: Pages)
        requires { self.old + other ≤ MAX_PAGES }
        ensures { self.new ≡ self.old + other }
    {
        let mut other = other;
        while let Some(page) = other.pop() {
            self.push(page);
        }
    }

    /// Cuts off this many pages.
    pub fn cut(&mut self, count: u64) -> Pages
        requires { count ≤ self.old }
        ensures cut { result ≡ count }
        ensures rest { self.new + count ≡ self.old }
    {
        let _whole = self.count();
        let mut cut = Pages::none();
        for _i in 0..count {
            if let Some(page) = self.pop() {
                cut.push(page);
            }
        }
        cut
    }
}
