//! What a message needs before it moves: a plan, a reservation, and the origin's connection.

ghost use Rattle.std.specs.Prelude.{◌≡◌};

use crate::answers::Unplanned;
use crate::effects::Effects;
use crate::exchange::Exchange;
use crate::holder::Holder;
use crate::tasks::Step;
use exchange_core::{Dialing, Event};
use std::sync::Wait;
use trace_core::Point;

impl<H: Holder> Exchange<H> {
    ghost use Rattle.exchange_core.specs.Dues.{due_of};
    ghost use Rattle.exchange_core.specs.May.{dialing_of};
    ghost use Rattle.exchange_core.specs.declared.due.Due.TheVariants as dues;
    ghost use Rattle.shard_exchange.specs.Outcomes.{Bears, IsDialed, IsPlanned, IsReserved};
    ghost use Rattle.shard_exchange.specs.Steps.{GoesOn};

    /// Plans the message, or finds that its service is to be asked for its options first.
    pub(crate) fn plan<P>(&mut self, at: &P, out: &mut H::Outside)
    where
        H: Effects<P>,
        requires due { due_of self.old.course ≡ dues.Plan }
        ensures planned { IsPlanned (H.plans self.old.holdings self.new.holdings out.old at.now) self.old.course self.new.course }
        ensures goes { GoesOn self.old.course self.new.course }
    {
        let state = self.course.state();
        match self.holdings.plan(at, out, state.asked) {
            Ok(marks) => {
                let waits = marks.waits && state.phase.point() == Point::Reqmod && !state.told;
                self.course.done(Event::Planned {
                    offered: marks.offered,
                    waits,
                    repeatable: marks.repeatable,
                });
            }
            Err(Unplanned::Stale) if !state.asked => self.course.done(Event::Stale),
            Err(unplanned) => self.refuse(at, out, unplanned.reason()),
        }
    }

    /// Reserves what the message may need.
    pub(crate) fn reserve<P, R: Wait>(&mut self, rt: &R, at: &P, out: &mut H::Outside)
    where
        H: Effects<P>,
        requires due { due_of self.old.course ≡ dues.Reserve }
        ensures reserved { IsReserved (H.reserves self.new.holdings out.old) self.old.course self.new.course }
        ensures bears { Bears H.bears self.old.holdings self.new.holdings }
        ensures line { H.keeps_line self.old.holdings self.new.holdings }
        ensures goes { GoesOn self.old.course self.new.course }
    {
        match self.holdings.reserve(rt, at, out) {
            Ok(()) => self.course.done(Event::Reserved),
            Err(want) => self.refuse(at, out, want),
        }
    }

    /// How the origin of the request is to be dialed.
    fn dialing(&self) -> Dialing
        ensures { result ≡ dialing_of self.now.course }
    {
        self.course.state().dialing()
    }

    /// Opens the connection that a request goes to, or takes one that was kept, where it may.
    pub(crate) fn dial<P>(&mut self, at: &P, out: &mut H::Outside)
    where
        H: Effects<P>,
        requires due { due_of self.old.course ≡ dues.Dial }
        ensures dialed { IsDialed (H.dials self.old.holdings self.new.holdings out.old out.new at.now) self.old.course self.new.course }
        ensures bears { Bears H.bears_but_origin self.old.holdings self.new.holdings }
        ensures line { H.keeps_line self.old.holdings self.new.holdings }
        ensures goes { GoesOn self.old.course self.new.course }
    {
        let dialing = self.dialing();
        match self.holdings.dial(at, out, dialing) {
            Ok(kept) => self.course.done(Event::Dialed { kept }),
            Err(reason) => self.refuse(at, out, reason),
        }
    }
}
