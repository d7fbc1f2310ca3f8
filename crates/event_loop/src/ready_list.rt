//! Exchanges that are owed a turn.

ghost use Rattle.std.specs.Prelude.{◌≡◌, ◌<◌, ◌≤◌, ◌-◌, ℕ, IfOk, IsTrue, Contains, slice_index_or, true, false};

use std::alloc::{AllocError, Global};

/// The exchanges that are owed a turn: an event was news for them, or they have more to do once others had theirs. An
/// edge-triggered poll reports nothing twice, so they are driven on before the next wait. There is a mark for each key from the
/// start, so that no memory is needed later.
#[derive(Drop)]
pub struct ReadyList {
    marked: Vec<bool>,
    /// No key below this one is marked.
    low: usize,
    /// Nor is this one, nor any above it.
    high: usize,
    ghost within: { (key : ℕ) → slice_index_or marked.items key false ≡ true → (low ≤ key) × (key < high) },
}

impl ReadyList {
    ghost use Rattle.event_loop.specs.Marks.{is_marked, count};

    /// A mark for each key, all unset. `Err` if no memory was found.
    pub fn new(alloc: Global, keys: usize) -> Result<ReadyList, AllocError>
        ensures { IfOk result (λ list. count list ≡ keys) }
    {
        let marked = Vec::from_elem(alloc, false, keys)?;
        let mut list = ReadyList {
            marked,
            low: 0,
            high: keys,
        };
        list.look();
        Ok(list)
    }

    /// Whether no exchange waits for a turn. It goes by what `look` found last, and by what was marked since: a mark that
    /// was taken since then still counts.
    pub fn is_empty(&self) -> bool
        ensures { IsTrue result → (key : ℕ) → is_marked self.now key ≡ false }
    {
        self.low >= self.high
    }

    /// Looks which is the first and which the last that is marked.
    pub fn look(&mut self)
        ensures any { self.new.low < self.new.high → Contains self.old.marked.items true }
        ensures same { self.new.marked ≡ self.old.marked }
    {
        let low = self.first();
        let high = self.end();
        self.low = low;
        self.high = high;
    }

    /// The first key that is marked; where none is, the end of those that were looked at.
    fn first(&self) -> usize
        ensures least { (key : ℕ) → is_marked self.now key ≡ true → result ≤ key }
        ensures found { result < self.now.high → is_marked self.now result ≡ true }
    {
        for key in self.low..self.high {
            if self.has(key) {
                return key;
            }
        }
        self.high
    }

    /// The key after the last one that is marked.
    fn end(&self) -> usize
        ensures above { (key : ℕ) → is_marked self.now key ≡ true → key < result }
        ensures within { result ≤ self.now.high }
    {
        let mut end = self.high;
        while end > self.low && !self.has(end - 1) {
            end -= 1;
        }
        end
    }

    /// The key from which on exchanges may be marked.
    pub fn low(&self) -> usize
        ensures { (key : ℕ) → is_marked self.now key ≡ true → result ≤ key }
    {
        self.low
    }

    /// The key before which exchanges may be marked.
    pub fn high(&self) -> usize
        ensures { (key : ℕ) → is_marked self.now key ≡ true → key < result }
    {
        self.high
    }

    /// Marks an exchange, which may be marked already.
    pub fn add(&mut self, key: usize)
        ensures marked { key < count self.old → is_marked self.new key ≡ true }
        ensures others { (other : ℕ) → (other ≡ key → ⊥) → is_marked self.new other ≡ is_marked self.old other }
        ensures count { count self.new ≡ count self.old }
    {
        if let Some(mark) = self.marked.get_mut(key) {
            *mark = true;
            self.low = self.low.min(key);
            self.high = self.high.max(key + 1);
        }
    }

    /// Whether an exchange is marked.
    pub fn has(&self, key: usize) -> bool
        ensures { result ≡ is_marked self.now key }
    {
        match self.marked.get(key) {
            Some(mark) => *mark,
            None => false,
        }
    }

    /// Takes the mark of an exchange.
    pub fn take(&mut self, key: usize)
        ensures taken { is_marked self.new key ≡ false }
        ensures others { (other : ℕ) → (other ≡ key → ⊥) → is_marked self.new other ≡ is_marked self.old other }
        ensures count { count self.new ≡ count self.old }
    {
        if let Some(mark) = self.marked.get_mut(key) {
            *mark = false;
        }
    }
}
