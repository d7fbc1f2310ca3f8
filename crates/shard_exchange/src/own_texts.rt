//! What the proxy itself says to a user: `100 Continue` (RFC 9110, section 10.1.1), and the refusal of a message that goes no further.

ghost use Rattle.std.specs.Prelude.{◌≡◌, ◌⊎◌, if◌then◌else◌, true, false};
ghost use Rattle.exchange_core.specs.declared.event.RefusalCause.TheVariants as causes;
ghost use Rattle.exchange_report.specs.Reasons as reasons;

use crate::answers::Lingered;
use crate::effects::Effects;
use crate::exchange::Exchange;
use crate::holder::Holder;
use crate::tasks::Step;
use adapt_sides::Said;
use exchange_core::Event;
use exchange_report::Reason;

impl<H: Holder> Exchange<H> {
    ghost use Rattle.exchange_core.specs.Course.{after};
    ghost use Rattle.exchange_core.specs.declared.event.Event.TheVariants.{Failed, HalfTold, Stuck, Late, Told, UserLost};
    ghost use Rattle.exchange_core.specs.Dues.{due_of, comes_of, fails_of, is_wait, is_for_message, is_for_user};
    ghost use Rattle.exchange_core.specs.Log.{Goes};
    ghost use Rattle.exchange_core.specs.May.{is_gone};
    ghost use Rattle.exchange_core.specs.declared.due.Due.TheVariants as dues;
    ghost use Rattle.shard_exchange.specs.Hand.{Keeps};
    ghost use Rattle.shard_exchange.specs.Saying.{SaysOn, interim_text, refusal_by};
    ghost use Rattle.shard_exchange.specs.Ends.{IsOwed};
    ghost use Rattle.shard_exchange.specs.Outcomes.{Bears, IsClosed, LingerLeads, Refuses, SaysInterim};
    ghost use Rattle.shard_exchange.specs.declared.answers.Lingered.{Lingered as AnyLingered};
    ghost use Rattle.shard_exchange.specs.Steps.{Heeds, is_moved};

    /// Has a message that doesn't move go no further, for a reason of which what is due may fail: its user is refused, unless a part of
    /// another text is out.
    pub(crate) fn refuse<P>(&mut self, at: &P, out: &mut H::Outside, reason: Reason)
    where
        H: Effects<P>,
        requires message { is_for_message (due_of self.old.course) ≡ true }
        requires fits { fails_of (due_of self.old.course) (reasons.cause_of reason) ≡ true }
        requires still { is_moved (due_of self.old.course) ≡ false }
        ensures course { self.new.course ≡ after self.old.course (Failed (reasons.cause_of reason)) }
        ensures held { self.new.holdings ≡ self.old.holdings }
        ensures goes { Goes self.old.course self.new.course }
        ensures left { is_for_message (due_of self.new.course) ≡ false }
        ensures owed { IsOwed self.old.course self.new.course (reasons.status_of reason) }
    {
        self.holdings.note_refusal(at, out, &self.course, reason);
        self.course.failed(reason.cause());
    }

    /// Has an exchange end whose user is gone, and whose message doesn't move.
    pub(crate) fn lose_user(&mut self)
        requires user { is_for_user (due_of self.old.course) ≡ true }
        requires still { is_moved (due_of self.old.course) ≡ false }
        ensures course { self.new.course ≡ after self.old.course UserLost }
        ensures bears { Bears H.bears_message self.old.holdings self.new.holdings }
        ensures goes { Goes self.old.course self.new.course }
        ensures gone { is_gone self.new.course.phase ≡ true }
        ensures held { Keeps (H.hand self.old.holdings) (H.hand self.new.holdings) }
        ensures left { is_for_message (due_of self.new.course) ≡ false }
    {
        self.course.lost();
        self.holdings.lose_user(&self.course);
    }

    /// Waits, unless the deadline has passed: then the user is let go.
    pub(crate) fn wait<P>(&mut self, at: &P, out: &H::Outside) -> Step
    where
        H: Effects<P>,
        requires waits { is_wait (due_of self.old.course) ≡ true }
        requires still { is_moved (due_of self.old.course) ≡ false }
        ensures goes { Goes self.old.course self.new.course }
        ensures course { self.new.course ≡ (if H.is_late out.now at.now then after self.old.course Late else self.old.course) }
        ensures leads { (self.new.course ≡ self.old.course) ⊎ (self.new.course ≡ after self.old.course Late) }
        ensures held { self.new.holdings ≡ self.old.holdings }
        ensures heeds { Heeds (H.is_late out.now at.now) self.new.course result }
    {
        if H::is_late(at, out) {
            self.course.late();
            Step::On
        } else {
            Step::Waits
        }
    }

    /// Waits, unless the deadline has passed: then the user is refused, for this reason.
    pub(crate) fn wait_or_refuse<P>(&mut self, at: &P, out: &mut H::Outside, reason: Reason) -> Step
    where
        H: Effects<P>,
        requires waits { is_wait (due_of self.old.course) ≡ true }
        requires message { is_for_message (due_of self.old.course) ≡ true }
        requires fits { fails_of (due_of self.old.course) (reasons.cause_of reason) ≡ true }
        requires still { is_moved (due_of self.old.course) ≡ false }
        ensures asked { self.new.course.asked ≡ self.old.course.asked }
        ensures held { self.new.holdings ≡ self.old.holdings }
        ensures goes { Goes self.old.course self.new.course }
        ensures course { self.new.course ≡ (if H.is_late out.old at.now then after self.old.course (Failed (reasons.cause_of reason)) else self.old.course) }
        ensures late { H.is_late out.old at.now ≡ true → IsOwed self.old.course self.new.course (reasons.status_of reason) }
        ensures heeds { Heeds (H.is_late out.new at.now) self.new.course result }
    {
        if H::is_late(at, out) {
            self.refuse(at, out, reason);
            Step::On
        } else {
            Step::Waits
        }
    }

    /// Writes what is left of the refusal of this status.
    pub(crate) fn write_refusal<P>(&mut self, at: &P, out: &mut H::Outside, status: u16) -> Step
    where
        H: Effects<P>,
        requires due { due_of self.old.course ≡ dues.Refuse status }
        ensures refused { Refuses (H.has_page out.old at.now status) (H.user_past self.old.holdings) (H.user_past self.new.holdings)
            (H.hand self.old.holdings) (H.hand self.new.holdings) status
            (if H.is_late out.new at.now then after self.old.course Late else self.old.course) self.old.course self.new.course }
        ensures goes { Goes self.old.course self.new.course }
        ensures heeds { Heeds (H.is_late out.new at.now) self.new.course result }
        ensures rests { result ≡ Step.Waits → SaysOn (H.user_past self.old.holdings) (H.user_past self.new.holdings)
            (refusal_by status (H.hand self.new.holdings).refused.page) (H.hand self.old.holdings).refused.out (H.hand self.new.holdings).refused.out Said.Nothing }
    {
        match self.holdings.refuse(at, out, &self.course, status) {
            Said::Whole => self.course.done(Event::Refused),
            Said::Part(_) => {}
            Said::Nothing => return self.wait(at, out),
            Said::Broken => self.lose_user(),
        }
        Step::On
    }

    /// Closes the user's connection: what the user still sends is dropped until it closes too.
    pub(crate) fn close<P>(&mut self, at: &P, out: &mut H::Outside) -> Step
    where
        H: Effects<P>,
        requires due { due_of self.old.course ≡ dues.Linger }
        ensures closed { IsClosed (H.lingers self.old.holdings self.new.holdings) (H.is_late out.new at.now) (H.hand self.old.holdings).finished (H.hand self.new.holdings).finished
            self.old.course self.new.course }
        ensures goes { Goes self.old.course self.new.course }
        ensures heeds { Heeds (H.is_late out.new at.now) self.new.course result }
        ensures rests { result ≡ Step.Waits → H.sends_nothing self.old.holdings self.new.holdings }
    {
        if self.holdings.is_finished() {
            return self.drop_rest(at, out);
        }
        self.holdings.close(at, &self.course);
        Step::On
    }

    /// Drops what the user still sends.
    fn drop_rest<P>(&mut self, at: &P, out: &mut H::Outside) -> Step
    where
        H: Effects<P>,
        requires due { due_of self.old.course ≡ dues.Linger }
        ensures dropped { (came : AnyLingered) × H.lingers self.old.holdings self.new.holdings came × LingerLeads (H.is_late out.new at.now) self.old.course self.new.course came }
        ensures goes { Goes self.old.course self.new.course }
        ensures heeds { Heeds (H.is_late out.new at.now) self.new.course result }
        ensures rests { result ≡ Step.Waits → H.sends_nothing self.old.holdings self.new.holdings }
    {
        let lingered = self.holdings.linger(at, out, &self.course);
        if lingered == Lingered::Over {
            self.course.done(Event::UserClosed);
            return Step::On;
        }
        let step = self.wait(at, out);
        if lingered == Lingered::CutShort {
            Step::On
        } else {
            step
        }
    }

    /// The user has taken the whole text.
    fn has_told(&mut self)
        requires due { comes_of (due_of self.old.course) Told ≡ true }
        ensures course { self.new.course ≡ after self.old.course Told }
        ensures held { self.new.holdings ≡ self.old.holdings }
        ensures goes { Goes self.old.course self.new.course }
    {
        self.course.done(Event::Told);
    }

    /// The user has taken a part of the text, and not all.
    fn has_told_part(&mut self)
        requires due { comes_of (due_of self.old.course) HalfTold ≡ true }
        ensures course { self.new.course ≡ (if self.old.course.half_told then self.old.course else after self.old.course HalfTold) }
        ensures held { self.new.holdings ≡ self.old.holdings }
        ensures goes { Goes self.old.course self.new.course }
    {
        if !self.course.state().half_told {
            self.course.done(Event::HalfTold);
        }
    }

    /// Tells the user to send its body, where it takes the text at once.
    pub(crate) fn try_tell(&mut self)
        requires due { due_of self.old.course ≡ dues.TryTell }
        ensures says { SaysInterim (H.user_past self.old.holdings) (H.user_past self.new.holdings) (H.hand self.old.holdings) (H.hand self.new.holdings)
            (after self.old.course Stuck) self.old.course self.new.course }
        ensures bears { Bears H.bears_message self.old.holdings self.new.holdings }
        ensures keeps { is_gone self.new.course.phase ≡ false → H.keeps_line self.old.holdings self.new.holdings × H.keeps_origin self.old.holdings self.new.holdings }
        ensures goes { Goes self.old.course self.new.course }
    {
        match self.holdings.tell(&self.course) {
            Said::Whole => self.has_told(),
            Said::Part(_) => self.has_told_part(),
            Said::Nothing => self.course.done(Event::Stuck),
            Said::Broken => self.lose_user(),
        }
    }

    /// Tells the user to send its body.
    pub(crate) fn tell<P>(&mut self, at: &P, out: &mut H::Outside) -> Step
    where
        H: Effects<P>,
        requires due { due_of self.old.course ≡ dues.Tell }
        ensures says { SaysInterim (H.user_past self.old.holdings) (H.user_past self.new.holdings) (H.hand self.old.holdings) (H.hand self.new.holdings)
            (if H.is_late out.old at.now then after self.old.course (Failed causes.Deadline) else self.old.course) self.old.course self.new.course }
        ensures bears { Bears H.bears_message self.old.holdings self.new.holdings }
        ensures keeps { is_gone self.new.course.phase ≡ false → H.keeps_line self.old.holdings self.new.holdings × H.keeps_origin self.old.holdings self.new.holdings }
        ensures goes { Goes self.old.course self.new.course }
        ensures heeds { Heeds (H.is_late out.new at.now) self.new.course result }
        ensures rests { result ≡ Step.Waits → SaysOn (H.user_past self.old.holdings) (H.user_past self.new.holdings) interim_text
            (H.hand self.old.holdings).told (H.hand self.new.holdings).told Said.Nothing }
    {
        match self.holdings.tell(&self.course) {
            Said::Whole => self.has_told(),
            Said::Part(_) => self.has_told_part(),
            Said::Nothing => return self.wait_or_refuse(at, out, Reason::UserDeadline),
            Said::Broken => self.lose_user(),
        }
        Step::On
    }
}
