//! Slots for values that have to be given back.

ghost use Rattle.std.specs.Prelude.{◌≡◌, ◌<◌, ◌≤◌, length, slice_set, slice_get, Some, None, IfSome, IfNone, IfOk, vec_len};

use std::alloc::{AllocError, Global};
use std::mem;

/// A fixed number of slots, each empty or with a value, found by their number.
///
/// The values may lack a `Drop`, so no value can be lost here: what was in a slot comes out of it, and at the end all come.
pub struct Slots<T> {
    all: Vec<Option<T>>,
}

impl<T> Slots<T> {
    /// `count` slots, all empty. `Err` if no memory was found for them.
    pub fn new(alloc: Global, count: usize) -> Result<Slots<T>, AllocError> {
        let mut all = Vec::with_capacity(alloc, count)?;
        for _ in 0..count {
            if all.len() < all.capacity() {
                all.push_reserved(None);
            }
        }
        Ok(Slots { all })
    }

    /// How many there are.
    pub fn count(&self) -> usize
        ensures { result ≡ length self.now.all.items }
    {
        self.all.len()
    }

    /// The value in a slot.
    pub fn get(&self, number: usize) -> Option<&T> {
        match self.all.get(number) {
            Some(Some(value)) => Some(value),
            _ => None,
        }
    }

    /// Puts a value into a slot. What was there comes back; or the value itself, if there is no such slot.
    pub fn place(&mut self, number: usize, value: T) -> Option<T>
        ensures there { number < length self.old.all.items
            → (self.new.all.items ≡ slice_set self.old.all.items number (Some value))
            × (slice_get self.old.all.items number ≡ Some result) }
        ensures none { length self.old.all.items ≤ number
            → (self.new.all.items ≡ self.old.all.items) × (result ≡ Some value) }
    {
        match self.all.get_mut(number) {
            Some(slot) => mem::replace(slot, Some(value)),
            None => Some(value),
        }
    }

    /// Takes the value out of a slot.
    pub fn take(&mut self, number: usize) -> Option<T>
        ensures there { number < length self.old.all.items
            → (self.new.all.items ≡ slice_set self.old.all.items number None)
            × (slice_get self.old.all.items number ≡ Some result) }
        ensures none { length self.old.all.items ≤ number
            → (self.new.all.items ≡ self.old.all.items) × (result ≡ None) }
    {
        match self.all.get_mut(number) {
            Some(slot) => slot.take(),
            None => None,
        }
    }

    /// All slots, the first one first.
    pub fn into_all(self) -> Vec<Option<T>>
        ensures { result.items ≡ self.all.items }
    {
        let Slots { all } = self;
        all
    }
}
