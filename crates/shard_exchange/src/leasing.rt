//! Connections of services, and messages that wait for one.

ghost use Rattle.std.specs.Prelude.{◌≡◌, true, false};

use crate::effects::Effects;
use crate::exchange::Exchange;
use crate::holder::Holder;
use crate::reason::lend_reason;
use crate::tasks::Step;
use exchange_core::Event;
use exchange_report::Reason;
use service_pool::LendFault;
use trace_core::Point;

impl<H: Holder> Exchange<H> {
    ghost use Rattle.exchange_core.specs.Course.{after, is_leased, is_mid_text};
    ghost use Rattle.exchange_core.specs.declared.event.Event.TheVariants.{Failed};
    ghost use Rattle.exchange_core.specs.May.{is_refusing};
    ghost use Rattle.exchange_report.specs.Reasons.{cause_of, status_of};
    ghost use Rattle.shard_exchange.specs.Ends.{IsOwed};
    ghost use Rattle.exchange_core.specs.Dues.{due_of, fails_of};
    ghost use Rattle.exchange_core.specs.Log.{Goes};
    ghost use Rattle.exchange_core.specs.declared.due.Due.TheVariants as dues;
    ghost use Rattle.shard_exchange.specs.Outcomes.{Bears, IsAwaited, IsLent, IsQueued, LeavesQueue, WaitsOn};
    ghost use Rattle.shard_exchange.specs.Steps.{Heeds, GoesOn};

    /// Leases a connection of the service, or has the message wait for one where all are leased.
    pub(crate) fn lend<P>(&mut self, at: &P, out: &mut H::Outside)
    where
        H: Effects<P>,
        requires due { due_of self.old.course ≡ dues.Lend }
        ensures lent { IsLent (H.leases self.new.holdings out.old) (λ out. H.fails out at.now) (λ out. H.joins out at.now) self.old.course self.new.course }
        ensures bears { Bears H.bears self.old.holdings self.new.holdings }
        ensures goes { GoesOn self.old.course self.new.course }
    {
        let point = self.phase().point();
        match self.holdings.lend(at, out, point) {
            Ok(reused) => self.course.done(Event::Lent { reused }),
            Err(LendFault::Busy) => self.queue(at, out, point),
            Err(fault) => self.refuse(at, out, lend_reason(fault)),
        }
    }

    /// Has a message wait for a connection, where it may. Else its user is refused.
    fn queue<P>(&mut self, at: &P, out: &mut H::Outside, point: Point)
    where
        H: Effects<P>,
        requires due { due_of self.old.course ≡ dues.Lend }
        ensures queued { IsQueued (λ joined. (later : H.Outside) × H.joins later at.now point joined) self.old.course self.new.course }
        ensures held { self.new.holdings ≡ self.old.holdings }
        ensures goes { GoesOn self.old.course self.new.course }
    {
        if self.course.may(Event::Queued) && H::join_queue(at, out, point) {
            self.course.take(Event::Queued);
        } else {
            self.refuse(at, out, Reason::Busy);
        }
    }

    /// Has a message leave the queue without a connection: its user is refused.
    fn refuse_queued<P>(&mut self, at: &P, out: &mut H::Outside, reason: Reason)
    where
        H: Effects<P>,
        requires due { due_of self.old.course ≡ dues.Await }
        requires fits { fails_of dues.Await (cause_of reason) ≡ true }
        ensures course { self.new.course ≡ after self.old.course (Failed (cause_of reason)) }
        ensures held { self.new.holdings ≡ self.old.holdings }
        ensures goes { Goes self.old.course self.new.course }
        ensures owed { IsOwed self.old.course self.new.course (status_of reason) }
        ensures left { LeavesQueue (λ later. H.leaves later at.now) self.old.course self.new.course }
    {
        H::leave_queue(at, out, &self.course);
        self.refuse(at, out, reason)
    }

    /// Waits on in the queue, unless the message has waited for too long: then its user is refused.
    fn wait_on<P>(&mut self, at: &P, out: &mut H::Outside) -> Step
    where
        H: Effects<P>,
        requires due { due_of self.old.course ≡ dues.Await }
        ensures waits { WaitsOn (H.has_waited out.old at.now) (H.is_late out.old at.now) self.old.course self.new.course }
        ensures held { self.new.holdings ≡ self.old.holdings }
        ensures goes { Goes self.old.course self.new.course }
        ensures left { LeavesQueue (λ later. H.leaves later at.now) self.old.course self.new.course }
        ensures late { H.is_late out.old at.now ≡ true → is_mid_text self.old.course ≡ false
            → is_refusing self.new.course.phase ≡ true }
        ensures heeds { Heeds (H.is_late out.new at.now) self.new.course result }
    {
        if H::has_waited(at, out) {
            self.refuse_queued(at, out, Reason::Busy);
        } else if H::is_late(at, out) {
            self.refuse_queued(at, out, Reason::ServiceDeadline);
        } else {
            return Step::Waits;
        }
        Step::On
    }

    /// Leases a connection once it is the message's turn, and has it wait for that, but not for too long.
    pub(crate) fn wait_in_queue<P>(&mut self, at: &P, out: &mut H::Outside) -> Step
    where
        H: Effects<P>,
        requires due { due_of self.old.course ≡ dues.Await }
        requires free { is_leased self.old.course.connection ≡ false }
        ensures lent { IsAwaited (H.leases self.new.holdings out.old) (λ out. H.fails out at.now) (λ out. H.has_waited out at.now) (λ out. H.is_late out at.now)
            self.old.course self.new.course }
        ensures bears { Bears H.bears self.old.holdings self.new.holdings }
        ensures goes { Goes self.old.course self.new.course }
        ensures heeds { Heeds (H.is_late out.new at.now) self.new.course result }
        ensures left { LeavesQueue (λ later. H.leaves later at.now) self.old.course self.new.course }
        ensures rests { result ≡ Step.Waits → (later : H.Outside) × H.fails later at.now LendFault.Busy }
    {
        let point = self.phase().point();
        match self.holdings.lend_in_turn(at, out, point) {
            Ok(reused) => self.course.done(Event::Lent { reused }),
            Err(LendFault::Busy) => return self.wait_on(at, out),
            Err(fault) => self.refuse_queued(at, out, lend_reason(fault)),
        }
        Step::On
    }
}
