//! Connections that lie idle between exchanges: which of them is taken, which are closed, and which have to go.
//!
//! Nothing here knows a socket, so that it is proved over any connections.

ghost use Rattle.std.specs.Prelude.{◌≡◌, ◌↔◌, ◌<◌, ◌≤◌, ◌⊎◌, ℕ, [], Option, Some, None, true, false, length, drop, IfOk};
ghost use Rattle.std.specs.VecDeque.{deque_len, deque_capacity};
ghost use Rattle.std.specs.declared.net.socket_addr.SocketAddrV4.{SocketAddrV4 as AnyAddress};
ghost use Rattle.shard_desk.specs.Kept.{IsFit, IsUnfit, IsUnsure, IsPassed, IsTaken, IsTakenBy, IsLaid, IsSifted, IsSiftedAt};

use std::alloc::{AllocError, Global};
use std::collections::VecDeque;
use std::net::SocketAddrV4;

/// What was heard on an idle connection since it was laid down.
#[derive(Clone, Copy)]
pub enum Heard {
    /// No byte, no end and no failure.
    Nothing,
    /// One of these.
    Something,
    /// Nothing so far, but it was laid down just now.
    NotYet,
}

/// A connection that lies idle.
pub trait Rests: Drop {
    // where it leads
    ghost place: { Self → Option AnyAddress };

    // since when it lies idle, in seconds
    ghost since: { Self → ℕ };

    // it was asked, and nothing was heard on it; or something was
    ghost quiet: { Self → Type 0 };

    ghost loud: { Self → Type 0 };

    // at this turn of its thread's loop that isn't known yet
    ghost unsure: { (turn : ℕ) → Self → Type 0 };

    /// The address that it leads to.
    fn address(&self) -> Option<SocketAddrV4>
        ensures { result ≡ place self.now };

    /// Since when it lies idle, in seconds.
    fn since(&self) -> u64
        ensures { result ≡ since self.now };

    /// What was heard on it, by this turn of its thread's loop, 0 where its poll had no room for all. The system isn't asked.
    fn heard(&self, turn: u64) -> Heard
        ensures quiet { result ≡ Heard.Nothing → quiet self.now }
        ensures loud { result ≡ Heard.Something → loud self.now }
        ensures unsure { result ≡ Heard.NotYet → unsure turn self.now };

    /// Whether nothing was heard on it. The system is asked.
    fn is_quiet(&self) -> bool
        ensures quiet { result ≡ true → quiet self.now }
        ensures loud { result ≡ false → loud self.now };
}

/// A moment of a thread: in seconds, and the turn of its loop, 0 where its poll had no room for all that there was to report.
#[derive(Clone, Copy)]
pub struct Moment {
    pub now: u64,
    pub turn: u64,
}

/// Whether the system is asked of a connection of which it isn't known yet whether something was heard on it.
#[derive(Clone, Copy)]
enum Asking {
    Never,
    IfUnsure,
}

/// Whether an idle connection may be used.
#[derive(Clone, Copy)]
enum Fitness {
    /// It has lain idle for fewer seconds than one may, and nothing was heard on it.
    Fit,
    Unfit,
    /// It wasn't asked.
    Unsure,
}

/// Whether an idle connection may be used at this moment, where one may lie idle for so many seconds.
fn judge<C: Rests>(idle: &C, at: Moment, seconds: u64, asking: Asking) -> Fitness
    ensures fit { result ≡ Fitness.Fit → IsFit C.since C.quiet at.now seconds idle.now }
    ensures unfit { result ≡ Fitness.Unfit → IsUnfit C.since C.loud at.now seconds idle.now }
    ensures unsure { result ≡ Fitness.Unsure → IsUnsure (C.unsure at.turn) asking idle.now }
{
    if at.now.saturating_sub(idle.since()) >= seconds {
        return Fitness::Unfit;
    }
    let is_quiet = match (idle.heard(at.turn), asking) {
        (Heard::Nothing, _) => true,
        (Heard::Something, _) => false,
        (Heard::NotYet, Asking::IfUnsure) => idle.is_quiet(),
        (Heard::NotYet, Asking::Never) => return Fitness::Unsure,
    };
    if is_quiet {
        Fitness::Fit
    } else {
        Fitness::Unfit
    }
}

/// Takes out the connection of this index, if it leads to this address, and is fit for use. One that leads there, and isn't, is closed.
fn pass<C: Rests>(
    all: &mut VecDeque<C>,
    index: usize,
    address: SocketAddrV4,
    at: Moment,
    seconds: u64,
    asking: Asking,
) -> Option<C>
    requires { index < deque_len all.old }
    ensures passed { IsPassed (λ idle. C.place idle ≡ Some address) (IsFit C.since C.quiet at.now seconds) (IsUnfit C.since C.loud at.now seconds)
        (IsUnsure (C.unsure at.turn) asking) index all.old.items all.new.items result }
    ensures capacity { deque_capacity all.new ≡ deque_capacity all.old }
{
    let idle = &all[index];
    if idle.address() != Some(address) {
        return None;
    }
    match judge(idle, at, seconds, asking) {
        Fitness::Fit => all.remove(index),
        Fitness::Unfit => {
            drop(all.remove(index));
            None
        }
        Fitness::Unsure => None,
    }
}

/// Closes the connection of this index, if it is known not to be fit for use.
fn sift<C: Rests>(all: &mut VecDeque<C>, index: usize, at: Moment, seconds: u64)
    requires { index < deque_len all.old }
    ensures sifted { IsSiftedAt (λ idle. IsFit C.since C.quiet at.now seconds idle ⊎ C.unsure at.turn idle) (IsUnfit C.since C.loud at.now seconds) index all.old.items all.new.items }
    ensures capacity { deque_capacity all.new ≡ deque_capacity all.old }
{
    if judge(&all[index], at, seconds, Asking::Never) == Fitness::Unfit {
        drop(all.remove(index));
    }
}

/// Connections that lie idle, the oldest first.
#[derive(Drop)]
pub struct IdleConnections<C> {
    all: VecDeque<C>,
    most: usize,
    ghost bounded: { deque_len all ≤ most },
    ghost room: { most ≤ deque_capacity all },
}

impl<C: Rests> IdleConnections<C> {
    /// None lies idle, and so many may. `Err` if no memory was found for them.
    pub fn new(alloc: Global, most: usize) -> Result<IdleConnections<C>, AllocError>
        ensures { IfOk result (λ kept. (kept.most ≡ most) × (kept.all.items ≡ [])) }
    {
        let all = VecDeque::with_capacity(alloc, most)?;
        Ok(IdleConnections { all, most })
    }

    /// How many lie idle.
    pub fn count(&self) -> usize
        ensures { result ≡ length self.now.all.items }
    {
        self.all.len()
    }

    /// Takes the youngest one that leads to this address and is fit for use. Those that lead there, and were passed over since they
    /// are known not to be, are closed.
    fn take_by(
        &mut self,
        address: SocketAddrV4,
        at: Moment,
        seconds: u64,
        asking: Asking,
    ) -> Option<C>
        ensures taken { IsTakenBy (λ idle. C.place idle ≡ Some address) (IsFit C.since C.quiet at.now seconds) (IsUnfit C.since C.loud at.now seconds)
            (IsUnsure (C.unsure at.turn) asking) self.old.all.items self.new.all.items result }
        ensures most { self.new.most ≡ self.old.most }
    {
        let count = self.all.len();
        for passed in 0..count {
            let index = count - 1 - passed;
            if let Some(idle) = pass(&mut self.all, index, address, at, seconds, asking) {
                return Some(idle);
            }
        }
        None
    }

    /// Takes the youngest one that leads to this address and is known to be fit for use; where there is none, the youngest of those that were
    /// laid down just now: the system is asked of it. Those that lead there, and were passed over since they aren't fit, are closed.
    pub fn take(&mut self, address: SocketAddrV4, at: Moment, seconds: u64) -> Option<C>
        ensures taken { IsTaken (λ idle. C.place idle ≡ Some address) (IsFit C.since C.quiet at.now seconds) (IsUnfit C.since C.loud at.now seconds) (C.unsure at.turn)
            self.old.all.items self.new.all.items result }
        ensures most { self.new.most ≡ self.old.most }
    {
        match self.take_by(address, at, seconds, Asking::Never) {
            Some(idle) => Some(idle),
            None => self.take_by(address, at, seconds, Asking::IfUnsure),
        }
    }

    /// Lays one down, as the youngest. Where as many lie idle as may, the oldest is closed. False where none may lie idle: then this one is
    /// closed.
    pub fn lay(&mut self, idle: C) -> bool
        ensures laid { IsLaid self.old.most self.old.all.items self.new.all.items idle result }
        ensures most { self.new.most ≡ self.old.most }
    {
        if self.most == 0 {
            return false;
        }
        if self.all.len() >= self.most {
            drop(self.all.pop_front());
        }
        self.all.push_back_reserved(idle);
        true
    }

    /// Closes those that are known not to be fit for use at this moment.
    pub fn close_unfit(&mut self, at: Moment, seconds: u64)
        ensures sifted { IsSifted (λ idle. IsFit C.since C.quiet at.now seconds idle ⊎ C.unsure at.turn idle) (IsUnfit C.since C.loud at.now seconds) self.old.all.items self.new.all.items }
        ensures most { self.new.most ≡ self.old.most }
    {
        let count = self.all.len();
        for passed in 0..count {
            sift(&mut self.all, count - 1 - passed, at, seconds);
        }
    }

    /// Closes the one that has lain idle longest. False if none lies idle.
    pub fn close_oldest(&mut self) -> bool
        ensures closed { self.new.all.items ≡ drop 1 self.old.all.items }
        ensures some { result ≡ true ↔ 0 < length self.old.all.items }
        ensures most { self.new.most ≡ self.old.most }
    {
        self.all.pop_front().is_some()
    }

    /// Closes all, and has none lie idle from now on.
    pub fn end(&mut self)
        ensures { (self.new.most ≡ 0) × (self.new.all.items ≡ []) }
    {
        self.all.clear();
        self.most = 0;
    }
}
