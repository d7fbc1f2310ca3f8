//! Messages that move: their transactions start, turn and end.

ghost use Rattle.std.specs.Prelude.{◌≡◌, ◌⊎◌, ◌&&◌, ◌||◌, if◌then◌else◌, None, true, false, Option as AnyOption, Bool as AnyBool};

use crate::answers::{Round, Started};
use crate::course::tell;
use crate::effects::Effects;
use crate::ends::EndedBy;
use crate::exchange::Exchange;
use crate::holder::Holder;
use crate::tasks::Step;
use adapt_sides::Scratch;
use exchange_core::Event;
use exchange_report::Reason;
use std::sync::Wait;

impl<H: Holder> Exchange<H> {
    ghost use Rattle.exchange_core.specs.Dues.{due_of};
    ghost use Rattle.exchange_core.specs.Log.{Goes};
    ghost use Rattle.exchange_core.specs.Course.{after};
    ghost use Rattle.exchange_core.specs.May.{may_come, is_gone, is_moving, is_refusing, is_withdrawing};
    ghost use Rattle.exchange_core.specs.declared.due.Due.TheVariants as dues;
    ghost use Rattle.exchange_core.specs.declared.event.Event.TheVariants.{Begun, Withdrawn};
    ghost use Rattle.shard_exchange.specs.EndedBy.{MayEnd};
    ghost use Rattle.shard_exchange.specs.Ends.{moves, begun_with, served_with, Halts, IsEnded, IsServedBy};
    ghost use Rattle.shard_exchange.specs.Outcomes.{has_answer, IsGated, IsStarted, IsTurned};
    ghost use Rattle.shard_exchange.specs.Steps.{Heeds, GoesOn};

    /// Starts the transaction of a message that has all that it needs. Where it can't begin, the message fails.
    pub(crate) fn start<P, R: Wait>(&mut self, rt: &R, at: &P, out: &mut H::Outside)
    where
        H: Effects<P>,
        requires due { due_of self.old.course ≡ dues.Start }
        requires held { (self.old.course.stake ≡ true) × (self.old.course.origin ≡ true) }
        ensures started { IsStarted (H.starts self.old.holdings self.new.holdings out.old at.now self.old.course) (H.keeps_user self.old.holdings self.new.holdings) (H.user_past self.old.holdings) self.old.course self.new.course }
        ensures goes { GoesOn self.old.course self.new.course }
    {
        match self.holdings.start(rt, at, out, self.course.state()) {
            Started::Moves => self.course.done(Event::Started),
            Started::Fails => self.refuse(at, out, Reason::NoMemory),
            Started::NoUser => self.lose_user(),
        }
    }

    /// Asks the gate before anything of the message is written.
    pub(crate) fn ask_gate<P, R: Wait>(&mut self, rt: &R, at: &P, out: &mut H::Outside)
    where
        H: Effects<P>,
        requires due { due_of self.old.course ≡ dues.AskGate }
        requires runs { self.old.course.stopping ≡ false }
        ensures gated { IsGated (λ later passes. H.lets_pass out.old later at.now passes) (H.ends self.old.holdings (may_come self.old.course Withdrawn)) (λ later end. H.follows self.old.holdings later end self.new.holdings)
            (H.answered self.old.holdings) (H.reusable self.old.holdings) self.old.holdings self.new.holdings self.old.course self.new.course }
        ensures goes { GoesOn self.old.course self.new.course }
    {
        if H::may_pass(at, out) {
            self.course.done(Event::LetPass);
        } else {
            self.settle(rt, at, out, EndedBy::Gate);
        }
    }

    /// A round of turns of the message's transaction. Where the service's connection broke, the request begins anew on a fresh one, or
    /// fails without one.
    pub(crate) fn turn<P, R: Wait>(
        &mut self,
        rt: &R,
        at: &P,
        out: &mut H::Outside,
        scratch: &mut Scratch,
    ) -> Step
    where
        H: Effects<P>,
        requires due { due_of self.old.course ≡ dues.Turn }
        requires runs { self.old.course.stopping ≡ false }
        ensures turned { IsTurned (λ held turned later round. H.rounds held turned out.old later at.now round) (λ turned usable. H.frees turned self.new.holdings usable)
            H.answered H.reusable H.ends (λ turned later end. H.follows turned later end self.new.holdings) H.repeats (λ out. H.is_late out at.now)
            self.old.holdings self.old.course self.new.course }
        ensures goes { Goes self.old.course self.new.course }
        ensures heeds { Heeds (H.is_late out.new at.now) self.new.course result }
        ensures rests { result ≡ Step.Waits → (turned : H) × (later : H.Outside) × H.rounds self.old.holdings turned out.old later at.now Round.Waiting
            × H.frees turned self.new.holdings None }
    {
        let may_renew = self.course.may(Event::Renewed);
        match self.holdings.round(rt, at, out, scratch, may_renew) {
            Round::Over => self.settle(rt, at, out, EndedBy::Itself),
            Round::Waiting => {
                if H::is_late(at, out) {
                    self.settle(rt, at, out, EndedBy::Deadline);
                } else if !self.note_round() {
                    return Step::Waits;
                }
            }
            Round::Moved { framing } => {
                self.note_round();
                return Step::Turned { framing };
            }
            Round::Broken => {
                self.course.take(Event::Renewed);
                self.note_round();
            }
        }
        Step::On
    }

    /// Reports the first byte of an answer, where it went out now. Says whether it did.
    fn note_answer(&mut self) -> bool
        requires { is_moving self.old.course.phase ≡ true }
        ensures goes { Goes self.old.course self.new.course }
        ensures held { self.new.holdings ≡ self.old.holdings }
        ensures says { result ≡ (H.answered self.old.holdings && may_come self.old.course Begun) }
        ensures told { self.new.course ≡ (if result then after self.old.course Begun else self.old.course) }
        ensures begun { self.new.course ≡ begun_with (H.answered self.old.holdings) self.old.course }
    {
        let begins = self.holdings.has_answered() && self.course.may(Event::Begun);
        if begins {
            self.course.take(Event::Begun);
        }
        begins
    }

    /// Reports that the service has said all, whose connection is for others then, where its exchange was whole. Says whether it has.
    fn note_service(&mut self) -> bool
        requires { is_moving self.old.course.phase ≡ true }
        ensures goes { Goes self.old.course self.new.course }
        ensures freed { (usable : AnyOption AnyBool) × H.frees self.old.holdings self.new.holdings usable × (self.new.course ≡ served_with usable self.old.course) }
        ensures served { IsServedBy (H.reusable self.old.holdings) self.old.course.connection self.new.course.connection }
        ensures kept { (self.new.course.phase ≡ self.old.course.phase) × (self.new.course.begun ≡ self.old.course.begun) }
        ensures none { result ≡ false → self.new.course ≡ self.old.course }
        ensures still { result ≡ false → H.frees self.old.holdings self.new.holdings None }
    {
        let Some(usable) = self.holdings.free_service() else {
            return false;
        };
        let served = Event::Served { usable };
        if self.course.may(served) {
            self.course.take(served);
        }
        true
    }

    /// Reports what a round came to that isn't over. Says whether there was anything to report.
    fn note_round(&mut self) -> bool
        requires { is_moving self.old.course.phase ≡ true }
        ensures goes { Goes self.old.course self.new.course }
        ensures phase { self.new.course.phase ≡ self.old.course.phase }
        ensures begun { self.new.course.begun ≡ (self.old.course.begun || (H.answered self.old.holdings && has_answer self.old.course.phase)) }
        ensures freed { (usable : AnyOption AnyBool) × H.frees self.old.holdings self.new.holdings usable
            × (self.new.course ≡ served_with usable (begun_with (H.answered self.old.holdings) self.old.course)) }
        ensures served { IsServedBy (H.reusable self.old.holdings) self.old.course.connection self.new.course.connection }
        ensures none { result ≡ false → self.new.course ≡ self.old.course }
        ensures still { result ≡ false → H.frees self.old.holdings self.new.holdings None }
    {
        let begins = self.note_answer();
        let frees = self.note_service();
        begins || frees
    }

    /// Takes the transaction apart of a message that is over, or ends by this. What it stood over comes back. A user to whom a byte of an
    /// answer went isn't refused after it; one to whom none went is refused for the stop that ended it. The service's connection serves
    /// again only where its exchange was whole.
    pub(crate) fn settle<P, R: Wait>(&mut self, rt: &R, at: &P, out: &mut H::Outside, by: EndedBy)
    where
        H: Effects<P>,
        requires moves { moves self.old.course ≡ true }
        requires runs { self.old.course.stopping ≡ false }
        ensures goes { Goes self.old.course self.new.course }
        ensures over { moves self.new.course ≡ false }
        ensures served { IsServedBy (H.reusable self.old.holdings) self.old.course.connection self.new.course.connection }
        ensures stops { by ≡ EndedBy.Stop → Halts self.old.course self.new.course false }
        ensures withdrawn { is_withdrawing self.new.course.phase ≡ true
            → H.repeats self.old.holdings × (H.answered self.old.holdings ≡ false) × (may_come self.old.course Withdrawn ≡ true) }
        ensures ended { IsEnded (MayEnd by (H.ends self.old.holdings (may_come self.old.course Withdrawn))) (λ end. H.follows self.old.holdings out.old end self.new.holdings)
            (H.answered self.old.holdings) (H.reusable self.old.holdings) self.old.course self.new.course }
    {
        let report = self.holdings.settle(rt, at, out, by, &self.course);
        tell(&mut self.course, report);
    }
}
