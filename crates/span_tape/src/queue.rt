//! Bytes on pages: appended at the last page, dropped at the first. A queue neither allocates nor
//! frees memory, and knows nothing of a tape's offsets.
ghost use Rattle.std.specs.Prelude.{◌≡◌, ◌+◌, ◌-◌, ◌*◌, ◌/◌, ◌≤◌, ◌<◌, [], ◌++◌, length, take, drop, min, IfSome, IfNone};
ghost use Rattle.span_bank.specs.Chain.{text_of, down_of};
ghost use Rattle.span_bank.specs.declared.chain.TheConstants.{MAX_PAGES};
ghost use Rattle.span_tape.specs.Queue.{Paged};
ghost use Rattle.span_tape.specs.Tape.{page_count};
ghost use Rattle.span_tape.specs.declared.tape.TheConstants.{MAX_TAPE};

use span_bank::{Chain, PAGE_BYTES, Page, Pages};
use std::boxed::Box;
use std::marker::Model;
use std::mem;

/// Pages in order. The last one is at hand, and the first one is unless all lie last to first.
///
/// The first pages are kept first to last, and the pages after them last to first; if there is a
/// page, the last one is among the latter. A page is turned over at most once on its way.
#[derive(Drop)]
pub(crate) struct Queue {
    front: Chain,
    back: Chain,
}

impl Model for Queue {
    ghost use Rattle.std.specs.Prelude.{◌≡◌, ◌+◌, ◌*◌, ◌++◌, length};
    ghost use Rattle.span_tape.specs.Queue.{Paged};

    ghost Value = { Paged };

    ghost use Rattle.span_bank.specs.Chain.{text_of, down_of};
    ghost use Rattle.span_bank.specs.declared.step.TheConstants.{PAGE_BYTES};

    ghost view = { λ q. record {
      text = text_of q.front ++ down_of q.back;
      count = length q.front + length q.back;
    } };

    ghost invariant = { λ q. (length q.back ≡ 0 → length q.front ≡ 0)
        × (length (text_of q.front) ≡ PAGE_BYTES * length q.front)
        × (length (text_of q.back) ≡ PAGE_BYTES * length q.back) };
}

impl Queue {
    // No page.
    pub(crate) fn none() -> Queue
        ensures { result ≡ record { text = []; count = 0 } }
    {
        Queue {
            front: Chain::none(),
            back: Chain::none(),
        }
    }

    // How many pages there are.
    #[tactic(auto, using(crate::proofs::PageLemmas::length_down))]
    pub(crate) fn count(&self) -> u64
        ensures count { result ≡ self.now.count }
        ensures within { result ≤ 2 * MAX_PAGES }
        ensures text { length self.now.text ≡ PAGE_BYTES * self.now.count }
    {
        let front = self.front.count();
        let back = self.back.count();
        front + back
    }

    // Adds bytes after the first `at`, which fill all pages but a part of the last one.
    #[tactic(auto, using(crate::proofs::PageLemmas::joined, crate::proofs::PageLemmas::length_down))]
    pub(crate) fn append(&mut self, at: u64, bytes: &[u8], pages: &mut Pages)
        requires small { at + length bytes.now < 2 * MAX_TAPE }
        requires count { self.old.count ≡ page_count at }
        requires pages { page_count (at + length bytes.now) ≤ self.old.count + pages.old }
        ensures text { take (at + length bytes.now) self.new.text ≡ take at self.old.text ++ bytes.now }
        ensures count { self.new.count ≡ page_count (at + length bytes.now) }
        ensures pages { pages.new + self.new.count ≡ pages.old + self.old.count }
    {
        let before = PAGE_BYTES * self.front.count();
        append_last(&mut self.back, at - before, bytes, pages);
        // For the proof alone: how many bytes the pages have.
        let _back = self.back.count();
    }

    // Takes the first page.
    pub(crate) fn pop_first(&mut self) -> Option<Box<Page>>
        ensures some { IfSome result (λ p. (p.value.rest ≡ [])
            × (self.old.text ≡ p.value.bytes ++ self.new.text)
            × (self.old.count ≡ self.new.count + 1)) }
        ensures size { IfSome result (λ p. length p.value.bytes ≡ PAGE_BYTES) }
        ensures none { IfNone result (self.old.count ≡ 0) }
    {
        let page = first_of(&mut self.front, &mut self.back);
        // For the proof alone: how many bytes the pages have.
        let _front = self.front.count();
        let _back = self.back.count();
        page
    }

    // Takes the first `k` pages.
    #[tactic(auto, using(crate::proofs::PageLemmas::next_page))]
    pub(crate) fn take_first(&mut self, k: u64) -> Pages
        requires there { k ≤ self.old.count }
        requires small { k ≤ MAX_PAGES }
        ensures text { self.new.text ≡ drop (PAGE_BYTES * k) self.old.text }
        ensures left { self.new.count + k ≡ self.old.count }
        ensures given { result ≡ k }
    {
        let mut given = Pages::none();
        for _i in 0..k {
            match self.pop_first() {
                Some(page) => given.push(page),
                None => unreachable!(),
            }
        }
        given
    }

    // Copies the bytes from a place on.
    #[tactic(auto, using(crate::proofs::PageLemmas::length_down))]
    pub(crate) fn copy_out(&self, at: u64, out: &mut [u8])
        requires { at + length out.old ≤ PAGE_BYTES * self.now.count }
        ensures { out.new ≡ take (length out.old) (drop at self.now.text) }
    {
        let before = PAGE_BYTES * self.front.count();
        // For the proof alone: how many bytes the pages have.
        let _back = self.back.count();
        if at < before {
            let some = (before - at).min(out.len() as u64) as usize;
            let (first, last) = out.split_at_mut(some);
            copy_first(&self.front, at, first);
            copy_last(&self.back, 0, last);
        } else {
            copy_last(&self.back, at - before, out);
        }
    }
}

// The pages in the other order.
fn turned(chain: Chain) -> Chain
    ensures text { text_of result ≡ down_of chain }
    ensures down { down_of result ≡ text_of chain }
    ensures count { length result ≡ length chain }
{
    // For the proof alone: how many pages the chain has.
    let _whole = chain.count();
    let mut chain = chain;
    let mut turned = Chain::none();
    while let Some(page) = chain.pop() {
        turned.push(page);
    }
    turned
}

// Turns all pages over but the last one, where none lies first to last.
fn turn(front: &mut Chain, back: &mut Chain)
    requires { front.old ≡ [] }
    ensures text { text_of front.new ++ down_of back.new ≡ down_of back.old }
    ensures count { length front.new + length back.new ≡ length back.old }
    ensures last { length back.new ≤ 1 }
    ensures some { length back.new ≡ 0 → length front.new ≡ 0 }
{
    // For the proof alone: how many bytes the pages have.
    let _whole = back.count();
    if let Some(last) = back.pop() {
        *front = turned(mem::replace(back, Chain::none()));
        back.push(last);
    }
}

// The first page.
fn first_of(front: &mut Chain, back: &mut Chain) -> Option<Box<Page>>
    requires { length back.old ≡ 0 → length front.old ≡ 0 }
    ensures some { IfSome result (λ p. (p.value.rest ≡ [])
        × (text_of front.old ++ down_of back.old ≡ p.value.bytes ++ (text_of front.new ++ down_of back.new))
        × (length front.old + length back.old ≡ length front.new + length back.new + 1)) }
    ensures size { IfSome result (λ p. length p.value.bytes ≡ PAGE_BYTES) }
    ensures none { IfNone result (length front.old + length back.old ≡ 0) }
    ensures last { length back.new ≡ 0 → length front.new ≡ 0 }
{
    if front.count() == 0 {
        turn(front, back);
    }
    match front.pop() {
        Some(page) => Some(page),
        None => back.pop(),
    }
}

// Puts a page with bytes written on it after the others, which are kept last to first.
fn put_last(back: &mut Chain, page: Box<Page>, at: usize, bytes: &[u8])
    requires room { length back.old < MAX_PAGES }
    requires fits { at + length bytes.now ≤ PAGE_BYTES }
    requires alone { page.value.rest ≡ [] }
    ensures text { down_of back.new ≡ down_of back.old ++ (take at page.value.bytes ++ bytes.now ++ drop (at + length bytes.now) page.value.bytes) }
    ensures count { length back.new ≡ length back.old + 1 }
{
    let mut page = page;
    page.write(at, bytes);
    back.push(page);
}

// Fills the last page of those kept last to first, and returns the number of bytes that this took.
#[tactic(auto, using(crate::proofs::PageLemmas::first_page, crate::proofs::PageLemmas::length_down))]
fn fill_last(back: &mut Chain, at: u64, bytes: &[u8]) -> usize
    requires small { at + length bytes.now < 2 * MAX_TAPE }
    requires count { length back.old ≡ page_count at }
    ensures done { result ≤ length bytes.now }
    ensures same { length back.new ≡ length back.old }
    ensures count { length back.new ≡ page_count (at + result) }
    ensures full { result < length bytes.now → at + result ≡ PAGE_BYTES * length back.new }
    ensures text { take (at + result) (down_of back.new) ≡ take at (down_of back.old) ++ take result bytes.now }
{
    let used = (at % PAGE_BYTES) as usize;
    if used == 0 {
        return 0;
    }
    match back.pop() {
        None => unreachable!(),
        Some(page) => {
            // For the proof alone: how many bytes the pages have.
            let _whole = back.count();
            let done = bytes.len().min(PAGE_BYTES as usize - used);
            put_last(back, page, used, &bytes[..done]);
            done
        }
    }
}

// Adds bytes after the first `at` of the pages kept last to first.
fn append_last(back: &mut Chain, at: u64, bytes: &[u8], pages: &mut Pages)
    requires small { at + length bytes.now < 2 * MAX_TAPE }
    requires count { length back.old ≡ page_count at }
    requires pages { page_count (at + length bytes.now) ≤ length back.old + pages.old }
    ensures text { take (at + length bytes.now) (down_of back.new) ≡ take at (down_of back.old) ++ bytes.now }
    ensures count { length back.new ≡ page_count (at + length bytes.now) }
    ensures pages { pages.new + length back.new ≡ pages.old + length back.old }
{
    let mut done = fill_last(back, at, bytes);
    while done < bytes.len() {
        // For the proof alone: how many bytes the pages have.
        let _whole = back.count();
        match pages.pop() {
            None => unreachable!(),
            Some(page) => {
                let more = (bytes.len() - done).min(PAGE_BYTES as usize);
                put_last(back, page, 0, &bytes[done..done + more]);
                done += more;
            }
        }
    }
}

// Copies a page's bytes from an offset on after the first `done`, and returns how many there are then.
fn copy_page(page: &Page, from: usize, out: &mut [u8], done: usize) -> usize
    requires from { from < PAGE_BYTES }
    requires done { done < length out.old }
    ensures all { length out.new ≡ length out.old }
    ensures size { length page.now.bytes ≡ PAGE_BYTES }
    ensures count { result ≡ min (length out.old) (done + (PAGE_BYTES - from)) }
    ensures text { take result out.new ≡ take done out.old ++ take (result - done) (drop from page.now.bytes) }
{
    let more = (out.len() - done).min(PAGE_BYTES as usize - from);
    out[done..done + more].copy_from_slice(&page.bytes()[from..from + more]);
    done + more
}

// Copies the bytes from an offset on, of pages kept first to last.
#[tactic(auto, using(crate::proofs::PageLemmas::next_page, crate::proofs::PageLemmas::next_text, crate::proofs::PageLemmas::another_copied))]
fn copy_first(front: &Chain, at: u64, out: &mut [u8])
    requires { at + length out.old ≤ PAGE_BYTES * length front.now }
    ensures { out.new ≡ take (length out.old) (drop at (text_of front.now)) }
{
    // For the proof alone: how many bytes the pages have.
    let _whole = front.count();
    let mut rest = front;
    for _i in 0..at / PAGE_BYTES {
        match rest.first() {
            Some((_, next)) => rest = next,
            None => unreachable!(),
        }
    }
    let mut from = (at % PAGE_BYTES) as usize;
    let mut done = 0;
    while done < out.len() {
        match rest.first() {
            None => unreachable!(),
            Some((page, next)) => {
                done = copy_page(page, from, out, done);
                from = 0;
                rest = next;
            }
        }
    }
}

// Copies a page's bytes up to an offset, before those that are in `out` already, of which the first
// `left` are missing, and returns how many are missing then.
fn copy_page_before(page: &Page, upto: usize, out: &mut [u8], left: usize) -> usize
    requires upto { (0 < upto) × (upto ≤ PAGE_BYTES) }
    requires left { (0 < left) × (left ≤ length out.old) }
    ensures all { length out.new ≡ length out.old }
    ensures count { result + min upto left ≡ left }
    ensures text { drop result out.new ≡ take (left - result) (drop (upto - (left - result)) page.now.bytes) ++ drop left out.old }
{
    let more = left.min(upto);
    out[left - more..left].copy_from_slice(&page.bytes()[upto - more..upto]);
    left - more
}

// Copies the bytes from an offset on, of pages kept last to first.
#[tactic(auto, using(crate::proofs::PageLemmas::before_last, crate::proofs::PageLemmas::length_down))]
fn copy_last(back: &Chain, at: u64, out: &mut [u8])
    requires { at + length out.old ≤ PAGE_BYTES * length back.now }
    ensures { out.new ≡ take (length out.old) (drop at (down_of back.now)) }
{
    let mut rest = back;
    let mut left = out.len();
    let whole = back.count();
    for _i in 0..whole - (at + left as u64).div_ceil(PAGE_BYTES) {
        match rest.first() {
            Some((_page, next)) => {
                // For the proof alone: how many bytes the pages have.
                let _next = next.count();
                rest = next;
            }
            None => unreachable!(),
        }
    }
    while left > 0 {
        match rest.first() {
            None => unreachable!(),
            Some((page, next)) => {
                let upto = (at + left as u64 - PAGE_BYTES * next.count()) as usize;
                left = copy_page_before(page, upto, out, left);
                rest = next;
            }
        }
    }
}
