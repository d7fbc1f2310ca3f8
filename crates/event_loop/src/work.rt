//! What an event loop drives.

ghost use Rattle.std.specs.Prelude.{◌≡◌, ℕ, ◌<◌, List, true, IfSome};
ghost use Rattle.event_loop.specs.declared.inbox.Handed.{Handed as AnyHanded};
ghost use Rattle.event_loop.specs.Deeds.{Deed, Adds, has_more, is_paused};
ghost use Rattle.event_loop.specs.Deeds.Deed.{TookIn, MadeRoom, Heard, Noted, Drove, GaveWay, Asked, Answered, EndedTurn, Drained, Halted};

use crate::admin_lines::{Question, Request};
use crate::inbox::Handed;
use crate::sheet::Sheet;
use mio::Registry;
use socket_wire::{Dial, Peer};
use std::alloc::AllocError;
use std::sync::Wait;
use std::time::Clock;

/// What an event says of a connection.
#[derive(Clone, Copy)]
pub struct Told {
    /// There may be bytes to read.
    pub readable: bool,
    /// There may be room to write.
    pub writable: bool,
    /// The other side has ended its bytes, or the connection has failed.
    pub closed: bool,
    /// The connection is gone both ways, as where the other side has reset it.
    pub failed: bool,
}

/// How far an exchange was driven.
#[derive(Clone, Copy)]
pub enum Driven {
    /// Each of its connections waits for an event.
    Waiting,
    /// It has taken its steps, and goes on once others have taken theirs: in the same turn of the loop, while that has a pass left.
    Paused,
    /// It has done so much that it goes on in the next turn of the loop only.
    CutShort,
    /// There is more to do once the exchange under this other key is ended: its user has ended its bytes, and it has the connection that
    /// this one wants.
    Blocked(usize),
    /// It is over, and its key free.
    Over,
}

impl Driven {
    /// Whether there is more to do.
    pub fn has_more(self) -> bool
        ensures { result ≡ has_more self }
    {
        match self {
            Driven::Paused | Driven::CutShort | Driven::Blocked(_) => true,
            Driven::Waiting | Driven::Over => false,
        }
    }

    /// Whether it goes on once others have taken their steps.
    pub fn is_paused(self) -> bool
        ensures { result ≡ is_paused self }
    {
        matches!(self, Driven::Paused)
    }
}

/// What became of a user that was handed in.
pub enum Admitted {
    /// It has a seat: its exchange is driven under this key.
    Seated(usize),
    /// There is no seat for it, and no other user that can be spared in this round: the next loop may have one.
    Full(Handed),
    /// It was closed.
    Closed,
}

/// What one thread drives: exchanges, each found by its key. Moments are seconds since the loop's start, or milliseconds since then where
/// their name says so.
///
/// Contracts see a work as its possible pasts: what a loop may have had it do so far, the newest deed first. A work that keeps no record
/// may have had each past: there a clause about deeds says what its loop did.
pub trait Work {
    ghost past: { Self → List Deed → Type 0 };

    // what there is of an exchange
    ghost Part: { Type 0 };

    // what there is of the exchange under a key
    ghost part: { Self → ℕ → Part };

    ghost bound: { Self → ℕ };

    ghost queues: { Self → ℕ };

    /// Takes a user's connection in, with its number in the order of acceptance and its permit, which it has until it is
    /// over, and answers the key to be driven. It comes back where another loop may have a seat for it, and this one has none.
    fn admit<R: Wait + Dial + Clock>(
        &mut self,
        rt: &R,
        registry: &Registry,
        user: Handed,
        millis: u64,
    ) -> Admitted
        ensures past { Adds (past self.old) (past self.new) (TookIn user.number result) }
        ensures back { (other : AnyHanded) → result ≡ Admitted.Full other → other ≡ user }
        ensures kept { (bound self.new ≡ bound self.old) × (queues self.new ≡ queues self.old) };

    /// Closes idle connections, or that of the user that can best be spared, so that another one has room. False if there is no
    /// such connection, or another thread has users that are spared first.
    fn make_room<R: Wait + Dial + Clock>(
        &mut self,
        rt: &R,
        registry: &Registry,
        millis: u64,
    ) -> bool
        ensures past { Adds (past self.old) (past self.new) (MadeRoom result) }
        ensures kept { (bound self.new ≡ bound self.old) × (queues self.new ≡ queues self.old) };

    /// The poll of this turn reported all that there was to report, or only as much as it had room for.
    fn heard(&mut self, is_whole: bool)
        ensures past { Adds (past self.old) (past self.new) (Heard is_whole) }
        ensures still { (k : ℕ) → part self.new k ≡ part self.old k }
        ensures kept { (bound self.new ≡ bound self.old) × (queues self.new ≡ queues self.old) };

    /// Takes note of an event of the connection that is reported under this number and peer, and answers the key of the exchange for
    /// which it is news. `None` where it says nothing new, or no exchange has that connection: then none needs to be driven.
    fn note(&mut self, number: usize, peer: Peer, told: Told) -> Option<usize>
        ensures past { Adds (past self.old) (past self.new) (Noted number peer told result) }
        ensures there { IfSome result (λ key. key < bound self.old) }
        ensures still { (k : ℕ) → part self.new k ≡ part self.old k }
        ensures kept { (bound self.new ≡ bound self.old) × (queues self.new ≡ queues self.old) };

    /// Drives an exchange until each of its connections waits, or others should get their turn. All other exchanges stay as they are.
    fn drive<R: Wait + Dial + Clock>(
        &mut self,
        rt: &R,
        registry: &Registry,
        key: usize,
        now: u64,
    ) -> Driven
        ensures past { Adds (past self.old) (past self.new) (Drove key result) }
        ensures others { (k : ℕ) → (k ≡ key → ⊥) → part self.new k ≡ part self.old k }
        ensures there { has_more result ≡ true → key < bound self.old }
        ensures kept { (bound self.new ≡ bound self.old) × (queues self.new ≡ queues self.old) };

    /// Ends the exchange under this key, whose user has ended its bytes: another one wants the connection that it has. All others stay as
    /// they are.
    fn give_way<R: Wait + Dial + Clock>(
        &mut self,
        rt: &R,
        registry: &Registry,
        key: usize,
        now: u64,
    )
        ensures past { Adds (past self.old) (past self.new) (GaveWay key) }
        ensures others { (k : ℕ) → (k ≡ key → ⊥) → part self.new k ≡ part self.old k }
        ensures kept { (bound self.new ≡ bound self.old) × (queues self.new ≡ queues self.old) };

    /// How many queues exchanges may wait in for what another exchange, of whichever thread, gives back.
    fn queues(&self) -> usize
        ensures { result ≡ queues self.now };

    /// The key of the exchange that gets a turn for a queue once the loop was woken: the one that is first in it, where that is one of
    /// this thread's; else one of this thread's that gives way, since somebody waits in the queue for what it has. Its turn ends it.
    fn first_of<R: Wait>(&mut self, rt: &R, queue: usize) -> Option<usize>
        ensures past { Adds (past self.old) (past self.new) (Asked queue result) }
        ensures still { (k : ℕ) → part self.new k ≡ part self.old k }
        ensures kept { (bound self.new ≡ bound self.old) × (queues self.new ≡ queues self.old) };

    /// The keys that may be in use are below this number.
    fn bound(&self) -> usize
        ensures { result ≡ bound self.now };

    /// Whether there is no exchange.
    fn is_idle(&self) -> bool;

    /// The answer to a line of the admin port, or to a request for the counters. `Err` if no memory was found for it. `now` is the
    /// number of seconds since the loop's start.
    fn answer<R: Wait + Clock>(
        &mut self,
        rt: &R,
        request: Request,
        now: u64,
    ) -> Result<Vec<u8>, AllocError>
        ensures past { Adds (past self.old) (past self.new) (Answered request) }
        ensures kept { (bound self.new ≡ bound self.old) × (queues self.new ≡ queues self.old) };

    /// Writes on a sheet what is asked about the exchanges of this thread. `now` is the number of seconds since the loop's start.
    fn show<R: Clock>(&self, rt: &R, question: Question, now: u64, sheet: &mut Sheet);

    /// How many milliseconds may pass before the next turn, whatever the exchanges wait for; none if that doesn't matter.
    fn patience(&self) -> Option<u64>;

    /// Is called at the end of each turn.
    fn turn_over<R: Wait>(&mut self, rt: &R, now: u64)
        ensures past { Adds (past self.old) (past self.new) EndedTurn }
        ensures kept { (bound self.new ≡ bound self.old) × (queues self.new ≡ queues self.old) };

    /// Takes note that no further user comes, and that each exchange is the last one of its connection from now on. All of them
    /// are driven after that.
    fn drain(&mut self)
        ensures past { Adds (past self.old) (past self.new) Drained }
        ensures kept { (bound self.new ≡ bound self.old) × (queues self.new ≡ queues self.old) };

    /// Ends all exchanges. Those whose users still have to get their refusal are driven on for a while.
    fn halt<R: Wait + Dial + Clock>(&mut self, rt: &R, registry: &Registry, now: u64)
        ensures past { Adds (past self.old) (past self.new) Halted }
        ensures kept { (bound self.new ≡ bound self.old) × (queues self.new ≡ queues self.old) };
}
