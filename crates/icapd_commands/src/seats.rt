//! The connections that are served at once, each on a seat: which seat is free, and whose connection may go for another.
ghost use Rattle.std.specs.Prelude.{◌≡◌, ◌↔◌, ◌≤◌, ℕ, replicate, slice_set, IsTrue, IfOk, IfSome, IfNone};
ghost use Rattle.icapd_commands.specs.Seats.{IsAt, IsLonger, IsLongest, IsToEnd, IsWaiterToEnd, NoneIsToEnd, NoneLingers, NoWaiterIsToEnd, WaitsAt};

use std::alloc::{AllocError, Global};

/// What the connection on a seat does.
#[derive(Clone, Copy)]
pub enum Doing {
    /// There is no connection: the seat is free.
    Nothing,
    /// It waits for a request, since this turn: for its first one, or for one after others that it has had.
    Waiting { since: u64, first: bool },
    /// It is within a request.
    Asking,
    /// It has its last answer, and what its client still sends is dropped.
    Lingering,
    /// It was asked to end, to make room for another.
    Ending,
}

/// The seats, and how often one of their connections began to wait.
#[derive(Drop)]
pub struct ConnectionSeats {
    all: Vec<Doing>,
    turn: u64,
}

/// A connection that waits for a request since a turn.
#[derive(Clone, Copy)]
struct Waiter {
    key: usize,
    since: u64,
}

/// Since when a connection waits, if it does: for its first request, or for one after others.
fn waits_since(doing: Doing, first: bool) -> Option<u64>
    ensures found { IfSome result (λ since. doing ≡ Doing.Waiting since first) }
    ensures none { IfNone result ((since : ℕ) → doing ≡ Doing.Waiting since first → ⊥) }
{
    match doing {
        Doing::Waiting { since, first: of } => { if of == first { Some(since) } else { None } }
        Doing::Nothing | Doing::Asking | Doing::Lingering | Doing::Ending => None,
    }
}

/// The one of two that waits for longer.
fn longer(found: Option<Waiter>, next: Waiter) -> Waiter
    ensures { IsLonger found next result }
{
    match found {
        Some(other) => {
            if next.since < other.since {
                next
            } else {
                other
            }
        }
        None => next,
    }
}

impl ConnectionSeats {
    /// `count` free seats. `Err` if no memory was found for them.
    pub fn new(alloc: Global, count: usize) -> Result<ConnectionSeats, AllocError>
        ensures { IfOk result (λ seats. seats.all.items ≡ replicate count Doing.Nothing) }
    {
        let all = Vec::from_elem(alloc, Doing::Nothing, count)?;
        Ok(ConnectionSeats { all, turn: 0 })
    }

    /// A free seat.
    pub fn free(&self) -> Option<usize>
        ensures found { IfSome result (λ key. IsAt self.now.all.items key Doing.Nothing) }
        ensures none { IfNone result ((key : ℕ) → IsAt self.now.all.items key Doing.Nothing → ⊥) }
    {
        for key in 0..self.all.len() {
            if matches!(self.all[key], Doing::Nothing) {
                return Some(key);
            }
        }
        None
    }

    /// Whether a connection was asked to end, and neither has ended nor begun a request.
    pub fn is_one_ending(&self) -> bool
        ensures { IsTrue result ↔ ((key : ℕ) × IsAt self.now.all.items key Doing.Ending) }
    {
        for doing in &self.all {
            if matches!(doing, Doing::Ending) {
                return true;
            }
        }
        false
    }

    /// The first seat whose connection has its last answer.
    pub fn lingering(&self) -> Option<usize>
        ensures found { IfSome result (λ key. IsAt self.now.all.items key Doing.Lingering) }
        ensures none { IfNone result (NoneLingers self.now.all.items) }
    {
        for key in 0..self.all.len() {
            if matches!(self.all[key], Doing::Lingering) {
                return Some(key);
            }
        }
        None
    }

    /// The seat of the connection that has waited longest for a request: for its first one, or for one after others.
    pub fn longest(&self, first: bool) -> Option<usize>
        ensures found { IfSome result (IsLongest self.now.all.items first) }
        ensures none { IfNone result ((key since : ℕ) → WaitsAt self.now.all.items first key since → ⊥) }
    {
        let mut found = None;
        for key in 0..self.all.len() {
            if let Some(since) = waits_since(self.all[key], first) {
                found = Some(longer(found, Waiter { key, since }));
            }
        }
        match found {
            Some(waiter) => Some(waiter.key),
            None => None,
        }
    }

    /// Notes what the connection on a seat does now.
    fn note(&mut self, key: usize, doing: Doing)
        ensures seat { self.new.all.items ≡ slice_set self.old.all.items key doing }
        ensures turn { self.new.turn ≡ self.old.turn }
    {
        if let Some(seat) = self.all.get_mut(key) {
            *seat = doing;
        }
    }

    /// The seat whose connection is to end for another: one that has its last answer; or else that which has waited longest
    /// for a request after others; or else, if that is asked for too, for its first one. `None` if a connection is ending
    /// already, or there is none of these.
    pub fn to_end(&self, first_too: bool) -> Option<usize>
        ensures found { IfSome result (IsToEnd self.now.all.items first_too) }
        ensures none { IfNone result (NoneIsToEnd self.now.all.items first_too) }
    {
        if self.is_one_ending() {
            return None;
        }
        match self.lingering() {
            Some(key) => Some(key),
            None => self.waiter_to_end(first_too),
        }
    }

    /// The connection that has waited longest for a request after others, or else, if that is asked for too, for its first
    /// one.
    fn waiter_to_end(&self, first_too: bool) -> Option<usize>
        ensures found { IfSome result (IsWaiterToEnd self.now.all.items first_too) }
        ensures none { IfNone result (NoWaiterIsToEnd self.now.all.items first_too) }
    {
        match self.longest(false) {
            Some(key) => Some(key),
            None => { if first_too { self.longest(true) } else { None } }
        }
    }

    /// The connection on a seat begins to wait for a request.
    pub fn wait(&mut self, key: usize, first: bool)
        ensures waits { self.new.all.items ≡ slice_set self.old.all.items key (Doing.Waiting self.new.turn first) }
        ensures turn { self.old.turn ≤ self.new.turn }
    {
        self.turn = self.turn.saturating_add(1);
        self.note(
            key,
            Doing::Waiting {
                since: self.turn,
                first,
            },
        );
    }

    /// It has got a byte of one.
    pub fn ask(&mut self, key: usize)
        ensures { self.new.all.items ≡ slice_set self.old.all.items key Doing.Asking }
    {
        self.note(key, Doing::Asking);
    }

    /// It has its last answer.
    pub fn linger(&mut self, key: usize)
        ensures { self.new.all.items ≡ slice_set self.old.all.items key Doing.Lingering }
    {
        self.note(key, Doing::Lingering);
    }

    /// It is asked to end.
    pub fn end(&mut self, key: usize)
        ensures { self.new.all.items ≡ slice_set self.old.all.items key Doing.Ending }
    {
        self.note(key, Doing::Ending);
    }

    /// It has ended.
    pub fn leave(&mut self, key: usize)
        ensures { self.new.all.items ≡ slice_set self.old.all.items key Doing.Nothing }
    {
        self.note(key, Doing::Nothing);
    }
}
