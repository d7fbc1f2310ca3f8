//! The bytes that a transaction holds, on the pages of its reservation.

ghost use Rattle.std.specs.Prelude.{◌≡◌, ◌+◌, ◌-◌, ◌≤◌, ◌<◌, ◌++◌, [], length};
ghost use Rattle.adapt_bytes.specs.declared.limits.TheConstants.{COUNT_LIMIT};
ghost use Rattle.span_bank.specs.declared.limits.TheConstants.{MAX_CAPACITY};
ghost use Rattle.span_tape.specs.Tape.{end_of, from_place, page_count, pages_in};
ghost use Rattle.span_tape.specs.declared.tape.TheConstants.{MAX_TAPE};
ghost use Rattle.span_bank.specs.Stakes.{most_pages};
ghost use Rattle.adapt_hold.specs.Spans.{span_of, span_end, span_from, IsPaged};

use span_bank::{Bank, Ledgers, Stake};
use span_tape::{Pages, SpanTape};
use std::marker::Model;
use std::sync::Wait;

/// Two tapes and the reservation that is charged with just their bytes, and has just their pages.
#[must_use]
pub(crate) struct Store<B: Ledgers> {
    original: SpanTape,
    adapted: SpanTape,
    stake: Stake<B>,
}

impl<B: Ledgers> Model for Store<B> {
    ghost use Rattle.adapt_hold.specs.Spans.{Stock, IsStocked, span_of};

    ghost Value = { Stock };

    ghost view = { λ s. record { original = span_of s.original; adapted = span_of s.adapted; held = s.stake.held; claim = s.stake.claim } };

    ghost invariant = { λ s. IsStocked s.original s.adapted s.stake };
}

/// Puts bytes at the end of a tape, and charges the reservation with them and with the pages that they need.
fn keep<B: Ledgers>(
    rt: &impl Wait,
    bank: &Bank<B>,
    stake: &mut Stake<B>,
    tape: &mut SpanTape,
    bytes: &[u8],
)
    requires some { 1 ≤ length bytes.now }
    requires room { stake.old.held + length bytes.now ≤ stake.old.claim }
    requires fits { end_of tape.old + length bytes.now < COUNT_LIMIT }
    requires small { length tape.old.bytes + length bytes.now ≤ MAX_TAPE }
    requires pages { stake.old.pages + page_count (tape.old.start + length tape.old.bytes + length bytes.now)
        ≤ most_pages (stake.old.held + length bytes.now) + pages_in tape.old }
    ensures tape { tape.new ≡ record tape.old { bytes = tape.old.bytes ++ bytes.now } }
    ensures held { stake.new.held ≡ stake.old.held + length bytes.now }
    ensures claim { stake.new.claim ≡ stake.old.claim }
    ensures pages { stake.new.pages + pages_in tape.old ≡ stake.old.pages + pages_in tape.new }
{
    let n = bytes.len() as u64;
    let k = tape.pages_for(n);
    let mut pages = bank.grow(rt, stake, n, k);
    tape.append(bytes, &mut pages);
}

/// Frees bytes of a reservation, with pages.
fn shrink<B: Ledgers>(
    rt: &impl Wait,
    bank: &Bank<B>,
    stake: &mut Stake<B>,
    freed: u64,
    pages: Pages,
)
    requires held { freed ≤ stake.old.held }
    requires pages { pages ≤ stake.old.pages }
    requires left { stake.old.pages - pages ≤ most_pages (stake.old.held - freed) }
    requires none { freed ≡ 0 → pages ≡ 0 }
    ensures { stake.new ≡ record { held = stake.old.held - freed; claim = stake.old.claim; pages = stake.old.pages - pages } }
{
    if freed > 0 {
        bank.shrink(rt, stake, freed, pages);
    }
}

/// Lets go of the bytes of a tape before a place; returns their number, and the pages without a kept byte.
fn drop_before(tape: &mut SpanTape, place: u64) -> (u64, Pages)
    requires low { tape.old.base ≤ place }
    requires high { place ≤ end_of tape.old }
    requires paged { IsPaged tape.old }
    ensures tape { tape.new ≡ from_place tape.old place }
    ensures end { end_of tape.new ≡ end_of tape.old }
    ensures freed { length tape.new.bytes + result.0 ≡ length tape.old.bytes }
    ensures place { result.0 + tape.old.base ≡ place }
    ensures small { result.0 < COUNT_LIMIT }
    ensures pages { result.1 + pages_in tape.new ≡ pages_in tape.old }
    ensures none { result.0 ≡ 0 → result.1 ≡ 0 }
    ensures paged { IsPaged tape.new }
{
    let freed = place - tape.base();
    // For the proof alone: no place of a tape is past its bound.
    let _end = tape.end();
    let pages = tape.drop_to(place);
    (freed, pages)
}

impl<B: Ledgers> Store<B> {
    /// An empty store, on a reservation that is free.
    pub(crate) fn new(stake: Stake<B>) -> Store<B>
        requires empty { (stake.held ≡ 0) × (stake.pages ≡ 0) }
        requires small { stake.claim ≤ MAX_CAPACITY }
        ensures { result ≡ record { original = record { base = 0; bytes = [] }; adapted = record { base = 0; bytes = [] }; held = 0; claim = stake.claim } }
    {
        Store {
            original: SpanTape::new(),
            adapted: SpanTape::new(),
            stake,
        }
    }

    /// The original's bytes that are held.
    pub(crate) fn original(&self) -> &SpanTape
        ensures { span_of result.now ≡ self.now.original }
    {
        &self.original
    }

    /// The adapted body's bytes that are held.
    pub(crate) fn adapted(&self) -> &SpanTape
        ensures { span_of result.now ≡ self.now.adapted }
    {
        &self.adapted
    }

    /// The size of the reservation.
    pub(crate) fn claim(&self) -> u64
        ensures { result ≡ self.now.claim }
    {
        self.stake.claim()
    }

    /// Keeps bytes of the original.
    pub(crate) fn keep_original(&mut self, rt: &impl Wait, bank: &Bank<B>, bytes: &[u8])
        requires some { 1 ≤ length bytes.now }
        requires room { self.old.held + length bytes.now ≤ self.old.claim }
        requires fits { span_end self.old.original + length bytes.now < COUNT_LIMIT }
        ensures { self.new ≡ record self.old { original = record self.old.original { bytes = self.old.original.bytes ++ bytes.now }; held = self.old.held + length bytes.now } }
    {
        keep(rt, bank, &mut self.stake, &mut self.original, bytes);
    }

    /// Keeps bytes of the adapted body.
    pub(crate) fn keep_adapted(&mut self, rt: &impl Wait, bank: &Bank<B>, bytes: &[u8])
        requires some { 1 ≤ length bytes.now }
        requires room { self.old.held + length bytes.now ≤ self.old.claim }
        requires fits { span_end self.old.adapted + length bytes.now < COUNT_LIMIT }
        ensures { self.new ≡ record self.old { adapted = record self.old.adapted { bytes = self.old.adapted.bytes ++ bytes.now }; held = self.old.held + length bytes.now } }
    {
        keep(rt, bank, &mut self.stake, &mut self.adapted, bytes);
    }

    /// Goes on to a place of the original, of which nothing is held.
    pub(crate) fn skip_original(&mut self, place: u64)
        requires empty { length self.old.original.bytes ≡ 0 }
        requires low { self.old.original.base ≤ place }
        requires small { place < COUNT_LIMIT }
        ensures { self.new ≡ record self.old { original = span_from self.old.original place } }
    {
        self.original.drop_to(place);
    }

    /// Lets go of what stands before a place of the original and before one of the adapted body.
    pub(crate) fn drop_to(&mut self, rt: &impl Wait, bank: &Bank<B>, original: u64, adapted: u64)
        requires original_low { self.old.original.base ≤ original }
        requires original_high { original ≤ span_end self.old.original }
        requires adapted_low { self.old.adapted.base ≤ adapted }
        requires adapted_high { adapted ≤ span_end self.old.adapted }
        ensures original { self.new.original ≡ span_from self.old.original original }
        ensures adapted { self.new.adapted ≡ span_from self.old.adapted adapted }
        ensures held { self.new.held + ((original - self.old.original.base) + (adapted - self.old.adapted.base)) ≡ self.old.held }
        ensures claim { self.new.claim ≡ self.old.claim }
    {
        if original == self.original.base() && adapted == self.adapted.base() {
            return;
        }
        let (freed, pages) = drop_before(&mut self.original, original);
        let (more, others) = drop_before(&mut self.adapted, adapted);
        let mut pages = pages;
        pages.join(others);
        shrink(rt, bank, &mut self.stake, freed + more, pages);
    }

    /// Lowers the reservation.
    pub(crate) fn reclaim(&mut self, rt: &impl Wait, bank: &Bank<B>, claim: u64)
        requires held { self.old.held ≤ claim }
        requires lower { claim ≤ self.old.claim }
        ensures { self.new ≡ record self.old { claim = claim } }
    {
        bank.reclaim(rt, &mut self.stake, claim);
    }

    /// The reservation, once nothing is held.
    #[inline(always)]
    pub(crate) fn into_stake(self) -> Stake<B>
        requires { self.held ≡ 0 }
        ensures { result ≡ record { held = 0; claim = self.claim; pages = 0 } }
    {
        let Store {
            original: _,
            adapted: _,
            stake,
        } = self;
        stake
    }
}
