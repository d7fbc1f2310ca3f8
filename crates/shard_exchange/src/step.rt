//! The steps of an exchange: what is due is done.

ghost use Rattle.std.specs.Prelude.{◌≡◌, ◌⊎◌, ℕ, true, false};
ghost use Rattle.shard_exchange.specs.Resting.{RestsOn};
ghost use Rattle.exchange_core.specs.declared.due.Due.TheVariants as dues;
ghost use Rattle.shard_exchange.specs.Ends.{is_closing, is_stopped, moves};
ghost use Rattle.shard_exchange.specs.Leaving.{IsHalted, IsLeaving, IsLost};

use crate::deeds::Stepping;
use crate::effects::Effects;
use crate::ends::EndedBy;
use crate::exchange::Exchange;
use crate::holder::Holder;
use crate::tasks::{Step, Task};
use adapt_sides::Scratch;
use exchange_core::{Due, Phase};
use std::sync::Wait;

impl<H: Holder> Exchange<H> {
    ghost use Rattle.exchange_core.specs.Dues.{due_of, is_over, is_wait};
    ghost use Rattle.exchange_core.specs.Log.{Goes};
    ghost use Rattle.shard_exchange.specs.Outcomes.{Does, LeavesQueue, MovesOn, SaysLast};
    ghost use Rattle.shard_exchange.specs.Steps.{Heeds, IsDone, GoesOn, is_end, is_step};

    /// Does a task, and says how far that came. An exchange that only closes isn't stopped: it goes on with that.
    #[inline(always)]
    pub fn act<P, R: Wait>(
        &mut self,
        rt: &R,
        at: &P,
        out: &mut H::Outside,
        scratch: &mut Scratch,
        task: Task,
    ) -> Step
    where
        H: Effects<P>,
        // Each task takes the course along events that may come.
        ensures goes { Goes self.old.course self.new.course }
        ensures done { is_step task self.old.course ≡ true → IsDone self.old.course self.new.course }
        ensures waits { is_step task self.old.course ≡ true → result ≡ Step.Waits → (H.is_late out.new at.now ≡ false) × (is_wait (due_of self.new.course) ≡ true) }
        // Who waits has tried what is due, and that came to nothing now; at its leave, to read what its user still sends.
        ensures rests { result ≡ Step.Waits → RestsOn (⟦<Self as Stepping<P, H::Outside>>⟧.tried self.old out.old self.new out.new at.now) (due_of self.old.course)
            ⊎ ((task ≡ Task.TakeLeave) × (held : H) × H.sends_nothing held self.new.holdings) }
        ensures over { (result ≡ Step.Over → is_over self.new.course ≡ true) × (task ≡ Task.Lose → is_over self.new.course ≡ true) }
        ensures left { is_end task ≡ true → LeavesQueue (λ later. H.leaves later at.now) self.old.course self.new.course }
        ensures does { is_step task self.old.course ≡ true → Does (⟦<Self as Stepping<P, H::Outside>>⟧.does self.old out.old self.new out.new at.now) (due_of self.old.course) }
        ensures lost { task ≡ Task.Lose → IsLost (⟦<Self as Stepping<P, H::Outside>>⟧.ends_by EndedBy.User self.old out.old) (⟦<Self as Stepping<P, H::Outside>>⟧.gives_back at.now)
            self.old.course self.new.course }
        // At a stop, who only closes goes on with that.
        ensures halts { task ≡ Task.Halt → (is_closing self.old.course.phase ≡ true → self.new.course ≡ self.old.course) × (is_closing self.old.course.phase ≡ false
            → IsHalted (⟦<Self as Stepping<P, H::Outside>>⟧.ends_by EndedBy.Stop self.old out.old) (⟦<Self as Stepping<P, H::Outside>>⟧.gives_back at.now)
            (H.answered self.old.holdings) (H.has_begun self.old.holdings) self.old.course self.new.course) }
        ensures leaves { task ≡ Task.TakeLeave → is_stopped self.old.course ≡ true → IsLeaving (⟦<Self as Stepping<P, H::Outside>>⟧.gives_back at.now) self.old.course self.new.course }
        // Who takes its leave gets what is left of the refusal that it is owed.
        ensures last { task ≡ Task.TakeLeave → is_stopped self.old.course ≡ true → (status : ℕ) → due_of self.old.course ≡ dues.TryRefusal status
            → SaysLast H.user_past H.hand (H.has_page out.old at.now status) self.old.holdings self.new.holdings status self.old.course self.new.course }
        // A message that moves before and after it is the same.
        ensures same { moves self.old.course ≡ true → moves self.new.course ≡ true → MovesOn H.stays (λ held turned later round. H.rounds held turned out.old later at.now round)
            (λ turned usable. H.frees turned self.new.holdings usable) self.old.holdings self.new.holdings }
    {
        match task {
            Task::Lose => {
                self.lose(rt, at, out);
                Step::Over
            }
            Task::Halt if self.phase() == Phase::Closing => Step::On,
            Task::Halt => self.halt(rt, at, out),
            Task::TakeLeave if self.is_stopped() => self.take_leave(rt, at, out),
            Task::Step | Task::TakeLeave => {
                let step = self.do_due(rt, at, out, scratch);
                self.over_or(step)
            }
        }
    }

    /// Does what is due.
    #[inline(never)]
    fn do_due<P, R: Wait>(
        &mut self,
        rt: &R,
        at: &P,
        out: &mut H::Outside,
        scratch: &mut Scratch,
    ) -> Step
    where
        H: Effects<P>,
        ensures goes { GoesOn self.old.course self.new.course }
        ensures heeds { Heeds (H.is_late out.new at.now) self.new.course result }
        ensures rests { result ≡ Step.Waits → RestsOn (⟦<Self as Stepping<P, H::Outside>>⟧.tried self.old out.old self.new out.new at.now) (due_of self.old.course) }
        ensures does { Does (⟦<Self as Stepping<P, H::Outside>>⟧.does self.old out.old self.new out.new at.now) (due_of self.old.course) }
    {
        match self.course.due() {
            Due::ReadRequest => return self.read_request(at, out, &mut scratch.wire),
            Due::Plan => self.plan(at, out),
            Due::Lend => self.lend(at, out),
            Due::Await => return self.wait_in_queue(at, out),
            Due::Ask => self.ask(at, out),
            Due::Hear => return self.hear(at, out, &mut scratch.wire),
            Due::Reserve => self.reserve(rt, at, out),
            Due::TryTell => self.try_tell(),
            Due::Tell => return self.tell(at, out),
            Due::Dial => self.dial(at, out),
            Due::Start => self.start(rt, at, out),
            Due::AskGate => self.ask_gate(rt, at, out),
            Due::Turn => return self.turn(rt, at, out, scratch),
            Due::ReadResponse => return self.read_response(at, out, &mut scratch.wire),
            Due::GiveBack => self.give_back(at, out),
            Due::Release => self.release(rt, at, out),
            Due::HangUp => self.hang_up(at, out),
            Due::Refuse(status) => return self.write_refusal(at, out, status),
            Due::TryRefusal(status) => {
                let _ = self.try_refusal(rt, at, out, status);
            }
            Due::Linger => return self.close(at, out),
            Due::Nothing => {}
        }
        Step::On
    }

    /// Says that the exchange is over where it is by its course, and else how far the step came.
    fn over_or(&self, step: Step) -> Step
        ensures over { is_over self.now.course ≡ true → result ≡ Step.Over }
        ensures on { is_over self.now.course ≡ false → result ≡ step }
    {
        if self.course.state().is_over() {
            Step::Over
        } else {
            step
        }
    }
}
