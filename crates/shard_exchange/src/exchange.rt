//! An exchange: its course, and what is held.

ghost use Rattle.std.specs.Prelude.{◌≡◌, ◌&&◌, ◌||◌, if◌then◌else◌, true, false};
ghost use Rattle.exchange_core.specs.Course.{is_leased};
ghost use Rattle.exchange_core.specs.May.{is_at_gate, is_moving, may_come};

use crate::holder::{Holder, InHand};
use exchange_core::{Course, Due, Event, Phase, RefusalCause};

/// A user's connection, with what is held for it.
///
/// Its course says what is due, and what is held: a lease, a reservation, and a connection to an origin. None of them is lost.
#[must_use]
pub struct Exchange<H: InHand> {
    pub(crate) course: Course,
    pub(crate) holdings: H,
    // just what the course counts is held
    pub(crate) ghost leased: { (H.hand holdings).leased ≡ is_leased course.connection },
    pub(crate) ghost moves: { (H.hand holdings).moving ≡ (is_at_gate course.phase || is_moving course.phase) },
    pub(crate) ghost staked: { ((H.hand holdings).room || (H.hand holdings).moving) ≡ course.stake },
    pub(crate) ghost opened: { ((H.hand holdings).origin || (H.hand holdings).moving) ≡ course.origin },
}

impl<H: InHand> Exchange<H> {
    ghost use Rattle.exchange_core.specs.Course.{start, after};
    ghost use Rattle.exchange_core.specs.Dues.{due_of};
    ghost use Rattle.exchange_core.specs.declared.event.Event.TheVariants.{Drain, Failed};
    ghost use Rattle.exchange_core.specs.declared.event.RefusalCause.TheVariants.{Scarce};
    ghost use Rattle.exchange_core.specs.Log.{Goes};
    ghost use Rattle.shard_exchange.specs.Hand.{IsFresh};
    ghost use Rattle.shard_exchange.specs.Ends.{is_stopped};

    /// A user's connection before the first byte of its first request. Nothing of what the course counts is held for it, and nothing is
    /// said.
    pub fn begin(holdings: H) -> Exchange<H>
        requires { IsFresh (H.hand holdings) }
        ensures course { result.course ≡ start }
        ensures held { result.holdings ≡ holdings }
    {
        Exchange {
            course: Course::begin(),
            holdings,
        }
    }

    /// The connection of a user whom nobody serves: it gets the refusal for want of room.
    pub fn turn_away(holdings: H) -> Exchange<H>
        requires { IsFresh (H.hand holdings) }
        ensures course { result.course ≡ after start (Failed Scarce) }
        ensures held { result.holdings ≡ holdings }
    {
        let mut exchange = Exchange::begin(holdings);
        exchange.course.failed(RefusalCause::Scarce);
        exchange
    }

    /// What the user's connection is in the midst of.
    pub fn phase(&self) -> Phase
        ensures { result ≡ self.now.course.phase }
    {
        self.course.state().phase
    }

    /// Whether nothing is due for the user any more, but for a refusal.
    pub(crate) fn is_stopped(&self) -> bool
        ensures { result ≡ is_stopped self.now.course }
    {
        let state = self.course.state();
        state.stopping || state.phase == Phase::Gone
    }

    /// What is due.
    pub fn due(&self) -> Due
        ensures { result ≡ due_of self.now.course }
    {
        self.course.state().due()
    }

    /// What is held.
    pub fn holdings(&self) -> &H
        ensures { result.now ≡ self.now.holdings }
    {
        &self.holdings
    }

    /// What is held of an exchange that ends, whatever it is in the midst of.
    pub fn into_holdings(self) -> H
        ensures { result ≡ self.holdings }
    {
        let Exchange {
            course: _,
            holdings,
        } = self;
        holdings
    }

    /// The proxy drains: an answer whose transaction starts from now on is the last one of its connection.
    pub fn drain(&mut self)
        ensures goes { Goes self.old.course self.new.course }
        ensures held { self.new.holdings ≡ self.old.holdings }
        ensures told { self.new.course ≡ (if may_come self.old.course Drain then after self.old.course Drain else self.old.course) }
        ensures drains { (self.new.course.draining || is_stopped self.new.course) ≡ true }
    {
        if self.course.may(Event::Drain) {
            self.course.take(Event::Drain);
        }
    }
}

impl<H: Holder> Exchange<H> {
    ghost use Rattle.exchange_core.specs.Dues.{is_over};

    /// Ends an exchange that is over. Nothing is held, so nothing is lost.
    pub fn finish(self)
        requires { is_over self.course ≡ true }
    {
        self.into_holdings().finish();
    }
}
