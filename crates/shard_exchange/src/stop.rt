//! The end of the proxy: exchanges stop, and their users get their refusals.

ghost use Rattle.std.specs.Prelude.{◌≡◌, ◌⊎◌, ◌&&◌, ◌||◌, ℕ, Some, None, true, false};
ghost use Rattle.exchange_core.specs.declared.state.CourseState.{CourseState};
ghost use Rattle.exchange_core.specs.declared.event.Event.TheVariants.{Stop, Tried};
ghost use Rattle.exchange_core.specs.declared.due.Due.TheVariants as dues;
ghost use Rattle.exchange_core.specs.Course.{after};
ghost use Rattle.exchange_core.specs.May.{may_come, is_gone, is_in_queue, is_refusing};
ghost use Rattle.exchange_core.specs.declared.phase.Phase.TheVariants.{InQueue};
ghost use Rattle.trace_core.specs.declared.history.Point.{Point as AnyPoint};
ghost use Rattle.exchange_core.specs.Dues.{due_of, is_over};
ghost use Rattle.exchange_core.specs.Log.{Goes};
ghost use Rattle.shard_exchange.specs.Ends.{moves, Frees, Halts, is_stopped};
ghost use Rattle.shard_exchange.specs.Leaving.{is_in_head, hung_up_of, lost_of, stopped_of, IsHalted, IsLeaving, IsStopped, LastWord};
ghost use Rattle.shard_exchange.specs.Outcomes.{LeavesQueue, SaysLast};
ghost use Rattle.shard_exchange.specs.Saying.{SaysOn, refusal_by};

use crate::answers::Lingered;
use crate::course::take_stop;
use crate::deeds::Stepping;
use crate::effects::Effects;
use crate::ends::EndedBy;
use crate::exchange::Exchange;
use crate::holder::Holder;
use crate::tasks::Step;
use adapt_sides::Said;
use exchange_core::{Due, Event, Phase};
use exchange_report::Reason;
use std::sync::Wait;

/// Whether a message is under way whose head was read.
fn is_under_way(phase: Phase) -> bool {
    !matches!(
        phase,
        Phase::Idle | Phase::Head | Phase::Refusing { .. } | Phase::Closing
    )
}

impl<H: Holder> Exchange<H> {
    /// Closes the connection of an origin whose message goes no further: it sees that no more comes.
    fn leave_origin(&mut self)
        requires { moves self.old.course ≡ false }
        ensures goes { Goes self.old.course self.new.course }
        ensures frees { Frees self.old.course self.new.course }
        ensures line { self.new.course.connection ≡ self.old.course.connection }
        ensures left { self.new.course ≡ hung_up_of self.old.course }
    {
        if self.course.may(Event::HungUp { kept: false }) {
            self.holdings.hang_up();
            self.course.take(Event::HungUp { kept: false });
        }
    }

    /// Has an exchange stop whose message moves.
    fn stop_moving<P, R: Wait>(&mut self, rt: &R, at: &P, out: &mut H::Outside)
    where
        H: Effects<P>,
        requires moves { moves self.old.course ≡ true }
        requires may { may_come self.old.course Stop ≡ true }
        ensures goes { Goes self.old.course self.new.course }
        ensures still { moves self.new.course ≡ false }
        ensures stops { Halts self.old.course self.new.course false }
        ensures ended { (mid : CourseState) × ⟦<Self as Stepping<P, H::Outside>>⟧.ends_by EndedBy.Stop self.old out.old self.old.course mid
            × (self.new.course ≡ hung_up_of mid) }
        ensures alone { H.answered self.old.holdings ≡ true → is_refusing self.new.course.phase ≡ false }
    {
        self.settle(rt, at, out, EndedBy::Stop);
        H::note_stop(at, out, &self.course);
        self.leave_origin();
    }

    /// Whether a part of a request's head came, and not all of it.
    fn is_in_head(&self) -> bool
        ensures { result ≡ is_in_head self.now.course.phase (H.has_begun self.now.holdings) }
    {
        matches!(self.course.state().phase, Phase::Idle | Phase::Head) && self.holdings.has_begun()
    }

    /// Takes note of the refusal of a request that was read, or of whose head a part came.
    fn note_refusal<P>(&self, at: &P, out: &mut H::Outside, is_in_head: bool)
    where
        H: Effects<P>,
    {
        if is_in_head || is_under_way(self.course.state().phase) {
            self.holdings
                .note_refusal(at, out, &self.course, Reason::Stopping);
        }
    }

    /// Has an exchange stop whose message doesn't move.
    fn stop_unmoved<P>(&mut self, at: &P, out: &mut H::Outside)
    where
        H: Effects<P>,
        requires still { moves self.old.course ≡ false }
        requires may { may_come self.old.course Stop ≡ true }
        ensures goes { Goes self.old.course self.new.course }
        ensures still { moves self.new.course ≡ false }
        ensures stops { Halts self.old.course self.new.course (H.has_begun self.old.holdings) }
        ensures left { (point : AnyPoint) → self.old.course.phase ≡ InQueue point → is_in_queue self.new.course.phase ≡ false → (later : H.Outside) × H.leaves later at.now point }
        ensures led { self.new.course ≡ hung_up_of (stopped_of (is_in_head self.old.course.phase (H.has_begun self.old.holdings)) self.old.course) }
    {
        let is_in_head = self.is_in_head();
        self.note_refusal(at, out, is_in_head);
        H::leave_queue(at, out, &self.course);
        take_stop(&mut self.course, is_in_head);
        H::note_stop(at, out, &self.course);
        self.leave_origin();
    }

    /// Has an exchange stop, unless it is over or was stopped before.
    fn stop<P, R: Wait>(&mut self, rt: &R, at: &P, out: &mut H::Outside)
    where
        H: Effects<P>,
        ensures goes { Goes self.old.course self.new.course }
        ensures still { moves self.new.course ≡ false }
        ensures stops { Halts self.old.course self.new.course (H.has_begun self.old.holdings) }
        ensures left { (point : AnyPoint) → self.old.course.phase ≡ InQueue point → is_in_queue self.new.course.phase ≡ false → (later : H.Outside) × H.leaves later at.now point }
        ensures alone { moves self.old.course ≡ true → H.answered self.old.holdings ≡ true → is_refusing self.new.course.phase ≡ false }
        ensures stopped { IsStopped (⟦<Self as Stepping<P, H::Outside>>⟧.ends_by EndedBy.Stop self.old out.old) (H.has_begun self.old.holdings) self.old.course self.new.course }
    {
        // For the proof alone: this course is one that can be reached.
        let _ = self.course.state();
        if !self.course.may(Event::Stop) {
            return;
        }
        if self.holdings.is_moving() {
            self.stop_moving(rt, at, out);
        } else {
            self.stop_unmoved(at, out);
        }
    }

    /// Gives all back that is held, where the user's connection is over.
    fn free_gone<P, R: Wait>(&mut self, rt: &R, at: &P, out: &mut H::Outside)
    where
        H: Effects<P>,
        ensures goes { Goes self.old.course self.new.course }
        ensures frees { Frees self.old.course self.new.course }
        ensures over { is_gone self.new.course.phase ≡ true → is_over self.new.course ≡ true }
        ensures back { is_gone self.old.course.phase ≡ true → ⟦<Self as Stepping<P, H::Outside>>⟧.gives_back at.now self.old.course self.new.course }
        ensures kept { is_gone self.old.course.phase ≡ false → self.new.course ≡ self.old.course }
    {
        if self.course.state().phase == Phase::Gone {
            self.free(rt, at, out);
        }
    }

    /// Ends the exchange because the proxy stops. The origin's connection is closed at once. What else is held for a user that is to be
    /// refused stays until it has its refusal.
    pub(crate) fn halt<P, R: Wait>(&mut self, rt: &R, at: &P, out: &mut H::Outside) -> Step
    where
        H: Effects<P>,
        ensures goes { Goes self.old.course self.new.course }
        ensures still { moves self.new.course ≡ false }
        ensures halts { IsHalted (⟦<Self as Stepping<P, H::Outside>>⟧.ends_by EndedBy.Stop self.old out.old) (⟦<Self as Stepping<P, H::Outside>>⟧.gives_back at.now)
            (H.answered self.old.holdings) (H.has_begun self.old.holdings) self.old.course self.new.course }
        ensures left { LeavesQueue (λ later. H.leaves later at.now) self.old.course self.new.course }
        ensures gone { is_gone self.new.course.phase ≡ true → is_over self.new.course ≡ true }
        ensures over { result ≡ Step.Over → is_over self.new.course ≡ true }
        ensures no_wait { result ≡ Step.Waits → ⊥ }
    {
        self.stop(rt, at, out);
        self.free_gone(rt, at, out);
        if self.course.state().is_over() {
            Step::Over
        } else {
            Step::On
        }
    }

    /// The last refusal was tried: its user is told that nothing more comes, and all that is held goes back.
    fn end_refusal<P, R: Wait>(&mut self, rt: &R, at: &P, out: &mut H::Outside)
    where
        H: Effects<P>,
        requires { (status : ℕ) × (due_of self.old.course ≡ dues.TryRefusal status) }
        ensures goes { Goes self.old.course self.new.course }
        ensures over { is_over self.new.course ≡ true }
        ensures back { ⟦<Self as Stepping<P, H::Outside>>⟧.gives_back at.now (after self.old.course Tried) self.new.course }
    {
        self.course.done(Event::Tried);
        self.holdings.close(at, &self.course);
        self.free(rt, at, out);
    }

    /// Has the user of a stopped exchange take what is left of its refusal. Once there is no more to say, all that is held goes back.
    pub(crate) fn try_refusal<P, R: Wait>(
        &mut self,
        rt: &R,
        at: &P,
        out: &mut H::Outside,
        status: u16,
    ) -> Said
    where
        H: Effects<P>,
        requires { due_of self.old.course ≡ dues.TryRefusal status }
        ensures goes { Goes self.old.course self.new.course }
        ensures leads { LastWord (⟦<Self as Stepping<P, H::Outside>>⟧.gives_back at.now) result self.old.course self.new.course }
        ensures last { SaysLast H.user_past H.hand (H.has_page out.old at.now status) self.old.holdings self.new.holdings status self.old.course self.new.course }
        ensures nothing { result ≡ Said.Nothing → SaysOn (H.user_past self.old.holdings) (H.user_past self.new.holdings)
            (refusal_by status (H.hand self.new.holdings).refused.page) (H.hand self.old.holdings).refused.out (H.hand self.new.holdings).refused.out Said.Nothing }
    {
        let said = self.holdings.refuse(at, out, &self.course, status);
        match said {
            Said::Whole | Said::Broken => self.end_refusal(rt, at, out),
            Said::Part(_) | Said::Nothing => {}
        }
        said
    }

    /// Has the user of a stopped exchange take what is left of a refusal that is due. `None` where there is no more to say.
    fn take_refusal<P, R: Wait>(&mut self, rt: &R, at: &P, out: &mut H::Outside) -> Option<Step>
    where
        H: Effects<P>,
        requires stopped { is_stopped self.old.course ≡ true }
        ensures goes { Goes self.old.course self.new.course }
        ensures still { moves self.new.course ≡ false }
        ensures on { result ≡ Some Step.Over → ⊥ }
        ensures back { (self.new.course ≡ self.old.course) ⊎ (⟦<Self as Stepping<P, H::Outside>>⟧.gives_back at.now (after self.old.course Tried) self.new.course) }
        ensures gone { result ≡ None → is_gone self.new.course.phase ≡ true }
        ensures last { (status : ℕ) → due_of self.old.course ≡ dues.TryRefusal status
            → SaysLast H.user_past H.hand (H.has_page out.old at.now status) self.old.holdings self.new.holdings status self.old.course self.new.course }
        ensures rests { result ≡ Some Step.Waits → (status : ℕ) × (due_of self.old.course ≡ dues.TryRefusal status)
            × SaysOn (H.user_past self.old.holdings) (H.user_past self.new.holdings)
            (refusal_by status (H.hand self.new.holdings).refused.page) (H.hand self.old.holdings).refused.out (H.hand self.new.holdings).refused.out Said.Nothing }
    {
        // For the proof alone: this course is one that can be reached.
        let _ = self.course.state();
        let Due::TryRefusal(status) = self.course.due() else {
            return None;
        };
        match self.try_refusal(rt, at, out, status) {
            Said::Part(_) => Some(Step::On),
            Said::Nothing => Some(Step::Waits),
            Said::Whole | Said::Broken => None,
        }
    }

    /// Tells a user that nothing more comes, unless it was told.
    fn finish_once<P>(&mut self, at: &P)
    where
        H: Effects<P>,
        requires { is_gone self.old.course.phase ≡ true }
        ensures { self.new.course ≡ self.old.course }
    {
        if !self.holdings.is_finished() {
            self.holdings.close(at, &self.course);
        }
    }

    /// Drops what the user of a stopped exchange still sends. Once it sends no more all that is held goes back.
    fn linger_on<P, R: Wait>(&mut self, rt: &R, at: &P, out: &mut H::Outside) -> Step
    where
        H: Effects<P>,
        requires gone { is_gone self.old.course.phase ≡ true }
        ensures goes { Goes self.old.course self.new.course }
        ensures gone { is_gone self.new.course.phase ≡ true }
        ensures over { result ≡ Step.Over → is_over self.new.course ≡ true }
        ensures back { (self.new.course ≡ self.old.course) ⊎ (⟦<Self as Stepping<P, H::Outside>>⟧.gives_back at.now (lost_of self.old.course) self.new.course) }
        ensures ended { result ≡ Step.Over → (held : H) × (dropped : H) × H.lingers held dropped Lingered.Over }
        ensures rests { result ≡ Step.Waits → (held : H) × H.sends_nothing held self.new.holdings }
    {
        self.finish_once(at);
        match self.holdings.linger(at, out, &self.course) {
            Lingered::Waiting => Step::Waits,
            Lingered::CutShort => Step::On,
            Lingered::Over => {
                self.lose(rt, at, out);
                Step::Over
            }
        }
    }

    /// Has the user of a stopped exchange take its leave.
    pub(crate) fn take_leave<P, R: Wait>(&mut self, rt: &R, at: &P, out: &mut H::Outside) -> Step
    where
        H: Effects<P>,
        requires stopped { is_stopped self.old.course ≡ true }
        ensures goes { Goes self.old.course self.new.course }
        ensures still { moves self.new.course ≡ false }
        ensures leaves { IsLeaving (⟦<Self as Stepping<P, H::Outside>>⟧.gives_back at.now) self.old.course self.new.course }
        ensures last { (status : ℕ) → due_of self.old.course ≡ dues.TryRefusal status
            → SaysLast H.user_past H.hand (H.has_page out.old at.now status) self.old.holdings self.new.holdings status self.old.course self.new.course }
        ensures over { result ≡ Step.Over → is_over self.new.course ≡ true }
        ensures rests { result ≡ Step.Waits → ((status : ℕ) × (due_of self.old.course ≡ dues.TryRefusal status)
            × SaysOn (H.user_past self.old.holdings) (H.user_past self.new.holdings)
            (refusal_by status (H.hand self.new.holdings).refused.page) (H.hand self.old.holdings).refused.out (H.hand self.new.holdings).refused.out Said.Nothing)
            ⊎ ((held : H) × H.sends_nothing held self.new.holdings) }
    {
        match self.take_refusal(rt, at, out) {
            Some(step) => step,
            None => self.linger_on(rt, at, out),
        }
    }
}
