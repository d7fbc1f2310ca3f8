//! What the slots of a thread ask of its exchanges.

ghost use Rattle.std.specs.Prelude.{◌≡◌, Bool, List, true, ⊤};
ghost use Rattle.exchange_core.specs.Dues.{is_over};
ghost use Rattle.exchange_core.specs.declared.phase.Phase.{Phase as AnyPhase};
ghost use Rattle.shard_desk.specs.Driving.{Doing, Adds};
ghost use Rattle.shard_desk.specs.Driving.Doing.{Did};

use crate::seat::Purpose;
use crate::seating::Seating;
use crate::spot::Spot;
use event_loop::{Question, Sheet};
use exchange_core::Phase;
use shard_exchange::{Exchange, Holder, Step, Task};
use socket_wire::{Dial, UserWire};
use std::boxed::Box;
use std::sync::Wait;
use std::time::Clock;
use wire_kit::Gate;

/// A user's connection, with what is held for it, as it lies in a slot.
///
/// It may have a reservation or a lease, so it has no `Drop`: it is let go only once it is over.
///
/// Contracts see it as its possible pasts: what it may have been told to do so far, the newest first. One that keeps no record may have
/// had each past: there a clause about doings says what its driver did.
pub trait Slotted {
    // the user's connection is over, and nothing is held for it
    ghost is_over: { Self → Bool };

    ghost past: { Self → List Doing → Type 0 };

    ghost phase_of: { Self → AnyPhase };

    /// Has it be the last exchange of its connection.
    fn drain(&mut self)
        ensures { (doings : List Doing) → past self.old doings → past self.new doings };

    /// What the user's connection is in the midst of.
    fn phase(&self) -> Phase
        ensures { result ≡ phase_of self.now };

    /// Lets it go, once it is over.
    fn finish(self)
        requires { is_over self ≡ true };
}

impl<H: Holder> Slotted for Exchange<H> {
    ghost is_over = { λ exchange. is_over exchange.course };

    // it keeps no record
    ghost past = { λ exchange past. ⊤ };

    ghost phase_of = { λ exchange. exchange.course.phase };

    fn drain(&mut self) {
        Exchange::drain(self);
    }

    fn phase(&self) -> Phase {
        Exchange::phase(self)
    }

    fn finish(self) {
        Exchange::finish(self);
    }
}

/// The exchanges of a thread: where their users sit, and what becomes of each.
pub trait Exchanges {
    /// A user's connection, with what is held for it.
    type Exchange: Slotted;

    /// Where the users sit.
    type Seating: Seating;

    // where they sit now
    ghost users_of: { Self → Self.Seating };

    fn users(&self) -> &Self::Seating
        ensures { result.now ≡ users_of self.now };

    fn users_mut(&mut self) -> &mut Self::Seating;

    /// What a user's connection begins with: its first request, or the refusal where there is no room for it. `None` where no memory
    /// was found: then the user is turned away.
    fn begin(&self, user: UserWire, purpose: Purpose) -> Option<Box<Self::Exchange>>;

    /// Has an exchange do a task.
    fn act<R: Wait + Dial + Clock, G: Gate>(
        &mut self,
        at: &Spot<'_, R, G>,
        exchange: &mut Self::Exchange,
        task: Task,
    ) -> Step
        ensures past { Adds (Self.Exchange.past exchange.old) (Self.Exchange.past exchange.new) (Did (Self.Exchange.phase_of exchange.old) task result) }
        ensures over { result ≡ Step.Over → Self.Exchange.is_over exchange.new ≡ true }
        ensures lost { task ≡ Task.Lose → Self.Exchange.is_over exchange.new ≡ true };

    /// Writes on a sheet what the administrator wants to know of the exchange under this key. `now` is the number of seconds since the
    /// loop's start.
    fn show<R: Clock>(
        &self,
        rt: &R,
        key: usize,
        exchange: &Self::Exchange,
        question: Question,
        now: u64,
        sheet: &mut Sheet,
    );

    /// Whether no byte of a request was read, but some have come that no event has reported yet.
    fn is_wanted(exchange: &Self::Exchange) -> bool;
}
