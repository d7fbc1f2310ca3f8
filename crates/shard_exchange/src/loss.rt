//! Exchanges that end from outside: the user is gone, or its seat goes to another user.

ghost use Rattle.std.specs.Prelude.{◌≡◌, true, false};
ghost use Rattle.exchange_core.specs.declared.due.Due.TheVariants.{GiveBack, HangUp};
ghost use Rattle.exchange_core.specs.declared.phase.Phase.TheVariants.{InQueue};
ghost use Rattle.trace_core.specs.declared.history.Point.{Point as AnyPoint};

use crate::deeds::Stepping;
use crate::effects::Effects;
use crate::ends::EndedBy;
use crate::exchange::Exchange;
use crate::holder::Holder;
use exchange_core::{Due, Event};
use std::sync::Wait;

impl<H: Holder> Exchange<H> {
    ghost use Rattle.std.specs.Prelude.{if◌then◌else◌};
    ghost use Rattle.exchange_core.specs.Course.{after, is_leased};
    ghost use Rattle.exchange_core.specs.May.{is_free, is_gone, may_come};
    ghost use Rattle.exchange_core.specs.declared.event.Event.TheVariants.{Released, Withdrawn};
    ghost use Rattle.exchange_core.specs.Dues.{is_over};
    ghost use Rattle.exchange_core.specs.Log.{Goes};
    ghost use Rattle.shard_exchange.specs.EndedBy.{MayEnd};
    ghost use Rattle.shard_exchange.specs.Ends.{moves, Frees, IsEnded};
    ghost use Rattle.shard_exchange.specs.Leaving.{lost_of, IfDue, IsLost};
    ghost use Rattle.shard_exchange.specs.Outcomes.{IsGivenBack, IsHungUp, LeavesQueue};

    /// Puts the service's connection back of a user's connection that is over.
    fn free_connection<P>(&mut self, at: &P, out: &mut H::Outside)
    where
        H: Effects<P>,
        requires { is_gone self.old.course.phase ≡ true }
        ensures goes { Goes self.old.course self.new.course }
        ensures frees { Frees self.old.course self.new.course }
        ensures free { is_leased self.new.course.connection ≡ false }
        ensures line { IfDue GiveBack (IsGivenBack (H.puts self.old.holdings out.old out.new at.now) (H.gives_up self.old.holdings out.old out.new at.now)
            (H.stays self.old.holdings self.new.holdings) (H.has_line self.old.holdings)) self.old.course self.new.course }
    {
        if self.course.due() == Due::GiveBack {
            self.give_back(at, out);
        }
    }

    /// Closes the reservation.
    fn free_room<P, R: Wait>(&mut self, rt: &R, at: &P, out: &mut H::Outside)
    where
        H: Effects<P>,
        requires gone { is_gone self.old.course.phase ≡ true }
        requires free { is_leased self.old.course.connection ≡ false }
        ensures goes { Goes self.old.course self.new.course }
        ensures frees { Frees self.old.course self.new.course }
        ensures free { is_free self.new.course ≡ true }
        ensures room { self.new.course ≡ (if self.old.course.stake then after self.old.course Released else self.old.course) }
    {
        if self.course.state().stake {
            self.release(rt, at, out);
        }
    }

    /// Keeps the origin's connection where it lasts, or closes it.
    fn free_origin<P>(&mut self, at: &P, out: &mut H::Outside)
    where
        H: Effects<P>,
        requires gone { is_gone self.old.course.phase ≡ true }
        requires free { is_free self.old.course ≡ true }
        ensures goes { Goes self.old.course self.new.course }
        ensures frees { Frees self.old.course self.new.course }
        ensures over { is_over self.new.course ≡ true }
        ensures origin { IfDue HangUp (IsHungUp (H.lays self.old.holdings out.old out.new at.now) (H.closes self.old.holdings out.old out.new at.now))
            self.old.course self.new.course }
    {
        if self.course.due() == Due::HangUp {
            self.hang_up(at, out);
        }
    }

    /// Gives all back that a user's connection holds that is over.
    pub(crate) fn free<P, R: Wait>(&mut self, rt: &R, at: &P, out: &mut H::Outside)
    where
        H: Effects<P>,
        requires { is_gone self.old.course.phase ≡ true }
        ensures goes { Goes self.old.course self.new.course }
        ensures frees { Frees self.old.course self.new.course }
        ensures over { is_over self.new.course ≡ true }
        ensures back { ⟦<Self as Stepping<P, H::Outside>>⟧.gives_back at.now self.old.course self.new.course }
    {
        self.free_connection(at, out);
        self.free_room(rt, at, out);
        self.free_origin(at, out);
    }

    /// Ends the message of a user that is gone.
    fn lose_message<P, R: Wait>(&mut self, rt: &R, at: &P, out: &mut H::Outside)
    where
        H: Effects<P>,
        ensures goes { Goes self.old.course self.new.course }
        ensures gone { is_gone self.new.course.phase ≡ true }
        ensures left { (point : AnyPoint) → self.old.course.phase ≡ InQueue point → (later : H.Outside) × H.leaves later at.now point }
        ensures ended { moves self.old.course ≡ true
            → IsEnded (MayEnd EndedBy.User (H.ends self.old.holdings (may_come self.old.course Withdrawn))) (λ end. H.follows self.old.holdings out.old end self.new.holdings)
            (H.answered self.old.holdings) (H.reusable self.old.holdings) self.old.course self.new.course }
        ensures unmoved { moves self.old.course ≡ false → self.new.course ≡ lost_of self.old.course }
    {
        // For the proof alone: this course is one that can be reached.
        let _ = self.course.state();
        if !self.course.may(Event::UserLost) {
            if self.course.may(Event::Tried) {
                self.course.take(Event::Tried);
            }
        } else if self.holdings.is_moving() {
            self.settle(rt, at, out, EndedBy::User);
        } else {
            H::leave_queue(at, out, &self.course);
            self.course.take(Event::UserLost);
        }
    }

    /// Ends the exchange whose user is gone, or whose seat goes to another user. All that is held goes back.
    pub(crate) fn lose<P, R: Wait>(&mut self, rt: &R, at: &P, out: &mut H::Outside)
    where
        H: Effects<P>,
        ensures goes { Goes self.old.course self.new.course }
        ensures gone { is_gone self.new.course.phase ≡ true }
        ensures left { LeavesQueue (λ later. H.leaves later at.now) self.old.course self.new.course }
        ensures over { is_over self.new.course ≡ true }
        ensures lost { IsLost (⟦<Self as Stepping<P, H::Outside>>⟧.ends_by EndedBy.User self.old out.old) (⟦<Self as Stepping<P, H::Outside>>⟧.gives_back at.now)
            self.old.course self.new.course }
    {
        self.lose_message(rt, at, out);
        self.holdings.lose_user(&self.course);
        self.free(rt, at, out);
    }
}
