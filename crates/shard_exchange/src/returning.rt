//! What is held goes back.

ghost use Rattle.std.specs.Prelude.{◌≡◌, false};

use crate::effects::Effects;
use crate::exchange::Exchange;
use crate::holder::Holder;
use crate::tasks::Step;
use exchange_core::Event;
use std::sync::Wait;

impl<H: Holder> Exchange<H> {
    ghost use Rattle.exchange_core.specs.declared.event.Event.TheVariants.{Returned, Released, HungUp};
    ghost use Rattle.exchange_core.specs.Course.{after};
    ghost use Rattle.exchange_core.specs.Dues.{due_of};
    ghost use Rattle.exchange_core.specs.declared.due.Due.TheVariants as dues;
    ghost use Rattle.shard_exchange.specs.Outcomes.{IsGivenBack, IsHungUp};
    ghost use Rattle.shard_exchange.specs.Steps.{GoesOn};

    /// Puts the service's connection back where it may serve again. Else it is closed, and its lease given up.
    pub(crate) fn give_back<P>(&mut self, at: &P, out: &mut H::Outside)
    where
        H: Effects<P>,
        requires due { due_of self.old.course ≡ dues.GiveBack }
        ensures given { IsGivenBack (H.puts self.old.holdings out.old out.new at.now) (H.gives_up self.old.holdings out.old out.new at.now)
            (H.stays self.old.holdings self.new.holdings) (H.has_line self.old.holdings) self.old.course self.new.course }
        ensures course { self.new.course ≡ after self.old.course (Returned false) }
        ensures goes { GoesOn self.old.course self.new.course }
    {
        let kept = self.holdings.give_back(at, out, &self.course);
        self.course.done(Event::Returned { kept });
    }

    /// Closes the reservation.
    pub(crate) fn release<P, R: Wait>(&mut self, rt: &R, at: &P, out: &mut H::Outside)
    where
        H: Effects<P>,
        requires due { due_of self.old.course ≡ dues.Release }
        ensures course { self.new.course ≡ after self.old.course Released }
        ensures message { H.keeps_message self.old.holdings self.new.holdings }
        ensures origin { H.keeps_origin self.old.holdings self.new.holdings }
        ensures goes { GoesOn self.old.course self.new.course }
    {
        self.holdings.release(rt, at, out);
        self.course.done(Event::Released);
    }

    /// Keeps the origin's connection for later exchanges where it lasts. Else it is closed.
    pub(crate) fn hang_up<P>(&mut self, at: &P, out: &mut H::Outside)
    where
        H: Effects<P>,
        requires due { due_of self.old.course ≡ dues.HangUp }
        ensures hung { IsHungUp (H.lays self.old.holdings out.old out.new at.now) (H.closes self.old.holdings out.old out.new at.now) self.old.course self.new.course }
        ensures course { self.new.course ≡ after self.old.course (HungUp false) }
        ensures message { H.keeps_message self.old.holdings self.new.holdings }
        ensures goes { GoesOn self.old.course self.new.course }
    {
        let kept = self.holdings.keep_origin(at, out, &self.course);
        self.course.done(Event::HungUp { kept });
    }
}
