//! A chain of boxed pages with their contents.
ghost use Rattle.std.specs.Prelude.{◌≡◌, ◌+◌, ◌-◌, ◌≤◌, ◌<◌, ◌*◌, [], ◌∷◌, ◌++◌, length, take, drop, replicate, IfOk, IfSome, IfNone};
ghost use Rattle.span_bank.specs.Chain.{contents_of, text_of};

use crate::NoMemory;
use crate::step::PAGE_BYTES;
use std::alloc::Global;
use std::boxed::Box;
use std::marker::Model;
use std::mem;

/// The largest number of pages of a chain.
pub const MAX_PAGES: u64 = 1 << 40;

/// A page, with the pages after it. A page that is in no chain has none after it.
#[cycle(chain)]
#[derive(Drop)]
pub struct Page {
    bytes: [u8; PAGE_BYTES as usize],
    rest: Chain,
}

#[cycle(chain)]
enum Top {
    End,
    More(Box<Page>),
}

/// A chain of pages in order. Contracts see the contents of each page.
#[cycle(chain)]
#[derive(Drop)]
pub struct Chain {
    count: u64,
    top: Top,
}

impl Model for Chain {
    ghost use Rattle.std.specs.Prelude.{◌≡◌, ◌≤◌, ◌*◌, ℕ, List, length};

    ghost Value = { List (List ℕ) };

    ghost use Rattle.span_bank.specs.Chain.{contents_of, text_of};
    ghost use Rattle.span_bank.specs.declared.chain.TheConstants.{MAX_PAGES};
    ghost use Rattle.span_bank.specs.declared.step.TheConstants.{PAGE_BYTES};
    ghost use Rattle.std.proofs.Common.{arith};

    ghost view = { λ p. contents_of p.top };

    ghost invariant = { λ p. (p.count ≡ length (contents_of p.top)) × (p.count ≤ MAX_PAGES)
        × (length (text_of (contents_of p.top)) ≡ PAGE_BYTES * p.count) };

    ghost size = { λ ps. length ps };

    ghost size_decreases = { λ a h. Prim.grind (arith) };
}

/// An empty page.
pub(crate) fn blank(alloc: Global) -> Result<Box<Page>, NoMemory>
    ensures { IfOk result (λ p. p.value.rest ≡ []) }
{
    Ok(Box::new(
        alloc,
        Page {
            bytes: [0; PAGE_BYTES as usize],
            rest: Chain::none(),
        },
    )?)
}

impl Page {
    /// The contents of the page.
    pub fn bytes(&self) -> &[u8]
        ensures bytes { result.now ≡ self.now.bytes }
        ensures size { length self.now.bytes ≡ PAGE_BYTES }
    {
        &self.bytes[..]
    }

    /// Writes bytes at an offset.
    pub fn write(&mut self, at: usize, bytes: &[u8])
        requires { at + length bytes.now ≤ PAGE_BYTES }
        ensures written { self.new.bytes ≡ take at self.old.bytes ++ bytes.now ++ drop (at + length bytes.now) self.old.bytes }
        ensures rest { self.new.rest ≡ self.old.rest }
    {
        self.bytes[at..at + bytes.len()].copy_from_slice(bytes);
    }
}

impl Chain {
    /// An empty chain.
    pub fn none() -> Chain
        ensures { result ≡ [] }
    {
        Chain {
            count: 0,
            top: Top::End,
        }
    }

    /// The number of pages.
    pub fn count(&self) -> u64
        ensures count { result ≡ length self.now }
        ensures within { length self.now ≤ MAX_PAGES }
        ensures text { length (text_of self.now) ≡ PAGE_BYTES * length self.now }
    {
        self.count
    }

    /// Adds a page before the others.
    pub fn push(&mut self, page: Box<Page>)
        requires room { length self.old < MAX_PAGES }
        requires alone { page.value.rest ≡ [] }
        ensures { self.new ≡ page.value.bytes ∷ self.old }
    {
        // Shows how many bytes a page has.
        let _bytes = page.bytes().len();
        let mut page = page;
        let rest = mem::replace(self, Chain::none());
        let count = rest.count();
        page.rest = rest;
        *self = Chain {
            count: count + 1,
            top: Top::More(page),
        };
    }

    /// Takes the first page.
    pub fn pop(&mut self) -> Option<Box<Page>>
        ensures some { IfSome result (λ p. (p.value.rest ≡ []) × (self.old ≡ p.value.bytes ∷ self.new)) }
        ensures size { IfSome result (λ p. length p.value.bytes ≡ PAGE_BYTES) }
        ensures none { IfNone result ((self.old ≡ []) × (self.new ≡ [])) }
    {
        match mem::replace(self, Chain::none()).into_top().first() {
            None => None,
            Some(mut page) => {
                // Shows how many bytes a page has.
                let _bytes = page.bytes().len();
                *self = mem::replace(&mut page.rest, Chain::none());
                Some(page)
            }
        }
    }

    // The first page, with the others after it.
    fn into_top(self) -> Top
        ensures { self ≡ contents_of result }
    {
        let Chain { count: _, top } = self;
        top
    }

    /// The first page, borrowed, and the pages after it.
    pub fn first(&self) -> Option<(&Page, &Chain)>
        ensures some { IfSome result (λ p. self.now ≡ p.0.now.bytes ∷ p.1.now) }
        ensures size { IfSome result (λ p. length p.0.now.bytes ≡ PAGE_BYTES) }
        ensures none { IfNone result (self.now ≡ []) }
    {
        match &self.top {
            Top::End => None,
            Top::More(page) => {
                // Shows how many bytes a page has.
                let _bytes = page.bytes().len();
                Some((page, &page.rest))
            }
        }
    }
}

impl Top {
    // The first page, with the others after it.
    fn first(self) -> Option<Box<Page>>
        ensures some { IfSome result (λ p. contents_of self ≡ p.value.bytes ∷ p.value.rest) }
        ensures none { IfNone result (contents_of self ≡ []) }
    {
        match self {
            Top::End => None,
            Top::More(page) => Some(page),
        }
    }
}

// A loop, so that a long chain needs no stack.
impl Drop for Top {
    fn drop(mut self) {
        loop {
            match self {
                Top::End => return,
                Top::More(page) => {
                    let Page { bytes: _, rest } = Box::into_inner(page);
                    self = rest.into_top();
                }
            }
        }
    }
}
