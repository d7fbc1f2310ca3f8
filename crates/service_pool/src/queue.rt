//! The queue.

ghost use Rattle.std.specs.Prelude.{◌≡◌, ◌≤◌, [], ◌∷◌, ◌++◌, Ok, Err, Some, None, if◌then◌else◌, IfOk, IfErr, OnOk, OnErr, IsTrue, ◌↔◌, slice_get, vec_len, filter};
ghost use Rattle.service_pool.specs.Waiting.{is_another, is_first};

use std::alloc::{AllocError, Global};

/// Who waits: an exchange, by its thread and its key there. It waits once at most.
#[derive(Clone, Copy, Drop, PartialEq, Eq)]
pub struct Waiter {
    /// The number of its thread.
    pub thread: usize,
    /// Its key in the thread.
    pub key: usize,
}

/// Who is first in a queue at a moment, if somebody is. Only a queue makes one.
#[derive(Clone, Copy, Drop)]
pub struct First {
    waiter: Option<Waiter>,
}

impl First {
    /// Who it is.
    pub fn waiter(&self) -> Option<Waiter>
        ensures { result ≡ self.now.waiter }
    {
        self.waiter
    }
}

/// Whose turn it is once somebody has left, if it was that one's turn before. Only a queue makes one.
#[derive(Clone, Copy, Drop)]
pub struct Next {
    waiter: Option<Waiter>,
}

impl Next {
    /// Who it is.
    pub fn waiter(&self) -> Option<Waiter>
        ensures { result ≡ self.now.waiter }
    {
        self.waiter
    }
}

/// Why an exchange can't wait.
#[derive(Clone, Copy, Drop)]
pub enum JoinFault {
    /// As many wait as may.
    Full,
    /// No memory was found. Room for all is taken at the start, so that is seldom.
    NoMemory,
}

/// A bounded queue, the longest waiting first.
///
/// ```
/// let first = Waiter { thread: 0, key: 7 };
/// let second = Waiter { thread: 1, key: 4 };
/// let mut queue = WaitQueue::new(alloc, 2)?;
/// assert_eq!(rt; queue.join(first), Ok(()));
/// assert_eq!(rt; queue.join(second), Ok(()));
/// assert_eq!(rt; queue.join(Waiter { thread: 1, key: 5 }), Err(JoinFault::Full));
/// // Once the first has left, it is the second one's turn.
/// assert_eq!(rt; queue.leave(first).waiter(), Some(second));
/// ```
#[derive(Drop)]
pub struct WaitQueue {
    waiting: Vec<Waiter>,
    most: usize,
    ghost bounded: { vec_len waiting ≤ most },
}

impl WaitQueue {
    /// An empty queue with room for `most` waiters. `Err` where no memory was found for them.
    pub fn new(alloc: Global, most: usize) -> Result<WaitQueue, AllocError>
        ensures empty { IfOk result (λ queue. queue.waiting.items ≡ []) }
        ensures most { IfOk result (λ queue. queue.most ≡ most) }
    {
        let waiting = Vec::with_capacity(alloc, most)?;
        Ok(WaitQueue { waiting, most })
    }

    /// Whether nobody waits.
    pub fn is_empty(&self) -> bool
        ensures { IsTrue result ↔ (self.now.waiting.items ≡ []) }
    {
        self.waiting.is_empty()
    }

    /// How many wait.
    pub fn len(&self) -> usize
        ensures { result ≡ vec_len self.now.waiting }
    {
        self.waiting.len()
    }

    /// Who has waited longest.
    pub fn first(&self) -> First
        ensures { result.waiter ≡ slice_get self.now.waiting.items 0 }
    {
        match self.waiting.first() {
            Some(waiter) => First {
                waiter: Some(*waiter),
            },
            None => First { waiter: None },
        }
    }

    /// Whether this one has waited longest.
    pub fn is_first(&self, waiter: Waiter) -> bool
        ensures { result ≡ is_first waiter self.now.waiting.items }
    {
        match self.waiting.first() {
            Some(first) => first.thread == waiter.thread && first.key == waiter.key,
            None => false,
        }
    }

    /// Joins at the end.
    pub fn join(&mut self, waiter: Waiter) -> Result<(), JoinFault>
        ensures joins { OnOk result (self.new.waiting.items ≡ self.old.waiting.items ++ waiter ∷ []) }
        ensures fault { OnErr result (self.new.waiting.items ≡ self.old.waiting.items) }
        ensures full { (result ≡ Err JoinFault.Full) ↔ (vec_len self.old.waiting ≡ self.old.most) }
        ensures most { self.new.most ≡ self.old.most }
    {
        if self.waiting.len() >= self.most {
            return Err(JoinFault::Full);
        }
        match self.waiting.push(waiter) {
            Ok(()) => Ok(()),
            Err(_) => Err(JoinFault::NoMemory),
        }
    }

    /// Leaves, from wherever it stands; the others keep their order. Answers whose turn it is now, where it was first itself.
    pub fn leave(&mut self, waiter: Waiter) -> Next
        ensures others { self.new.waiting.items ≡ filter (is_another waiter) self.old.waiting.items }
        ensures next { result.waiter ≡ (if is_first waiter self.old.waiting.items then slice_get self.new.waiting.items 0 else None) }
        ensures most { self.new.most ≡ self.old.most }
    {
        let was_first = self.is_first(waiter);
        self.waiting.retain(|other| other.thread != waiter.thread || other.key != waiter.key);
        Next {
            waiter: if was_first { self.first().waiter } else { None },
        }
    }
}
