//! Heads of messages: the user's requests, and the origins' responses.

ghost use Rattle.std.specs.Prelude.{◌≡◌, if◌then◌else◌, false, Some};
ghost use Rattle.shard_exchange.specs.Reasons as reasons;
ghost use Rattle.shard_exchange.specs.declared.answers.HeadTurn.TheVariants as head_turns;

use crate::answers::{HeadTurn, Withdrawal};
use crate::course::begin_head;
use crate::effects::Effects;
use crate::exchange::Exchange;
use crate::holder::Holder;
use crate::reason::{is_end_of_wire, origin_head_reason, user_head_reason};
use crate::tasks::Step;
use adapt_sides::{RelayFault, WIRE_ROOM};
use exchange_core::Event;
use exchange_report::Reason;

impl<H: Holder> Exchange<H> {
    ghost use Rattle.exchange_core.specs.Dues.{due_of};
    ghost use Rattle.exchange_core.specs.Log.{Goes};
    ghost use Rattle.exchange_core.specs.Course.{after};
    ghost use Rattle.exchange_core.specs.declared.due.Due.TheVariants as dues;
    ghost use Rattle.exchange_core.specs.declared.event.Event.TheVariants.{RequestRead, ResponseRead, Failed};
    ghost use Rattle.exchange_core.specs.declared.event.RefusalCause.TheVariants.{Deadline};
    ghost use Rattle.shard_exchange.specs.Outcomes.{Bears, begun_of, heard_of, may_go_back, FaultLeads, IsRead, IsRequested, KeepsTurned, NoHeadLeads, RequestLeads, SilenceLeads, TurnLeads};
    ghost use Rattle.shard_exchange.specs.Steps.{Heeds};

    /// Reads the head of the next request.
    pub(crate) fn read_request<P>(
        &mut self,
        at: &P,
        out: &mut H::Outside,
        buffer: &mut [u8; WIRE_ROOM],
    ) -> Step
    where
        H: Effects<P>,
        requires due { due_of self.old.course ≡ dues.ReadRequest }
        ensures read { IsRequested H.reads H.bears_message H.bears H.keeps_line (λ held. (H.hand held).told) H.has_begun H.head_fault (H.is_late out.old at.now) (H.has_rested out.old at.now) self.old.holdings self.new.holdings self.old.course self.new.course }
        ensures goes { Goes self.old.course self.new.course }
        ensures heeds { Heeds (H.is_late out.new at.now) self.new.course result }
        ensures rests { result ≡ Step.Waits → H.reads self.old.holdings self.new.holdings (Some head_turns.Nothing) }
    {
        let turn = self.holdings.read_request(buffer);
        self.take_request_turn(at, out, turn)
    }

    /// Tells the course what a turn at the head of the next request brought.
    fn take_request_turn<P>(&mut self, at: &P, out: &mut H::Outside, turn: Option<HeadTurn>) -> Step
    where
        H: Effects<P>,
        requires due { due_of self.old.course ≡ dues.ReadRequest }
        ensures leads { RequestLeads (H.has_begun self.old.holdings) (H.is_late out.old at.now) (H.has_rested out.old at.now) (H.head_fault self.old.holdings) self.old.course self.new.course turn }
        ensures fresh { turn ≡ Some head_turns.Whole → (H.hand self.new.holdings).told ≡ 0 }
        ensures bears { Bears H.bears_message self.old.holdings self.new.holdings }
        ensures whole { turn ≡ Some head_turns.Whole → Bears H.bears self.old.holdings self.new.holdings × H.keeps_line self.old.holdings self.new.holdings }
        ensures goes { Goes self.old.course self.new.course }
        ensures heeds { Heeds (H.is_late out.new at.now) self.new.course result }
        ensures rests { result ≡ Step.Waits → (turn ≡ Some head_turns.Nothing) × (self.new.holdings ≡ self.old.holdings) }
    {
        match turn {
            Some(HeadTurn::Whole) => self.has_request(at, out),
            Some(HeadTurn::More | HeadTurn::Interim) => self.note_begun(),
            Some(HeadTurn::Nothing) => return self.wait_for_request(at, out),
            Some(HeadTurn::Fault(fault)) => self.request_failed(at, out, fault),
            None => self.lose_user(),
        }
        Step::On
    }

    /// The head of a request was read.
    fn has_request<P>(&mut self, at: &P, out: &mut H::Outside)
    where
        H: Effects<P>,
        requires due { due_of self.old.course ≡ dues.ReadRequest }
        ensures course { self.new.course ≡ after (begun_of self.old.course) RequestRead }
        ensures fresh { (H.hand self.new.holdings).told ≡ 0 }
        ensures whole { Bears H.bears self.old.holdings self.new.holdings × H.keeps_line self.old.holdings self.new.holdings }
        ensures bears { Bears H.bears_message self.old.holdings self.new.holdings }
        ensures goes { Goes self.old.course self.new.course }
    {
        self.holdings.note_request(at, out);
        begin_head(&mut self.course);
        self.course.done(Event::RequestRead);
    }

    /// Takes note of the first byte of a request, where one came. It may have come with the request before.
    fn note_begun(&mut self)
        requires due { due_of self.old.course ≡ dues.ReadRequest }
        ensures course { self.new.course ≡ (if H.has_begun self.old.holdings then begun_of self.old.course else self.old.course) }
        ensures due { due_of self.new.course ≡ dues.ReadRequest }
        ensures held { self.new.holdings ≡ self.old.holdings }
        ensures goes { Goes self.old.course self.new.course }
    {
        if self.holdings.has_begun() {
            begin_head(&mut self.course);
        }
    }

    /// There is no head of a request.
    fn request_failed<P>(&mut self, at: &P, out: &mut H::Outside, fault: RelayFault)
    where
        H: Effects<P>,
        requires due { due_of self.old.course ≡ dues.ReadRequest }
        ensures leads { NoHeadLeads (reasons.user_head_reason fault (H.head_fault self.old.holdings)) self.old.course self.new.course }
        ensures bears { Bears H.bears_message self.old.holdings self.new.holdings }
        ensures goes { Goes self.old.course self.new.course }
    {
        match user_head_reason(fault, self.holdings.head_fault()) {
            Some(reason) => self.refuse(at, out, reason),
            None => self.lose_user(),
        }
    }

    /// Waits for what is still to come of the next request. While the proxy drains, a user that has said nothing
    /// for long enough is let go.
    fn wait_for_request<P>(&mut self, at: &P, out: &mut H::Outside) -> Step
    where
        H: Effects<P>,
        requires due { due_of self.old.course ≡ dues.ReadRequest }
        ensures leads { SilenceLeads (H.has_begun self.old.holdings) (H.is_late out.old at.now) (H.has_rested out.old at.now) self.old.course self.new.course }
        ensures goes { Goes self.old.course self.new.course }
        ensures heeds { Heeds (H.is_late out.new at.now) self.new.course result }
        ensures held { self.new.holdings ≡ self.old.holdings }
    {
        let is_silent = !self.holdings.has_begun();
        if is_silent && self.course.state().draining && H::has_rested(at, out) {
            self.course.dropped();
            return Step::On;
        }
        self.note_begun();
        self.wait(at, out)
    }

    /// Reads the head of the origin's response. An interim response before it puts off no deadline.
    pub(crate) fn read_response<P>(
        &mut self,
        at: &P,
        out: &mut H::Outside,
        buffer: &mut [u8; WIRE_ROOM],
    ) -> Step
    where
        H: Effects<P>,
        requires due { due_of self.old.course ≡ dues.ReadResponse }
        ensures read { IsRead H.hears H.repeats H.withdraws H.head_fault (H.is_late out.old at.now) self.old.holdings self.new.holdings self.old.course self.new.course }
        ensures goes { Goes self.old.course self.new.course }
        ensures heeds { Heeds (H.is_late out.new at.now) self.new.course result }
        ensures rests { result ≡ Step.Waits → H.hears self.old.holdings self.new.holdings (Some head_turns.Nothing) }
    {
        let turn = self.holdings.read_response(buffer);
        self.take_turn(at, out, turn)
    }

    /// Tells the course what a turn at the head of the origin's response brought.
    fn take_turn<P>(&mut self, at: &P, out: &mut H::Outside, turn: Option<HeadTurn>) -> Step
    where
        H: Effects<P>,
        requires due { due_of self.old.course ≡ dues.ReadResponse }
        ensures leads { TurnLeads (H.repeats self.old.holdings) (H.withdraws self.old.holdings self.new.holdings) (H.head_fault self.old.holdings) (H.is_late out.old at.now) self.old.course self.new.course turn }
        ensures kept { KeepsTurned self.old.course turn self.old.holdings self.new.holdings }
        ensures goes { Goes self.old.course self.new.course }
        ensures heeds { Heeds (H.is_late out.new at.now) self.new.course result }
        ensures rests { result ≡ Step.Waits → (turn ≡ Some head_turns.Nothing) × (self.new.holdings ≡ self.old.holdings) }
    {
        match turn {
            Some(HeadTurn::Whole) => self.has_response(at, out),
            Some(HeadTurn::More) => self.note_heard(),
            Some(HeadTurn::Interim) => return self.has_dropped_interim(at, out),
            Some(HeadTurn::Nothing) => {
                return self.wait_or_refuse(at, out, Reason::OriginDeadline);
            }
            Some(HeadTurn::Fault(fault)) => self.response_failed(at, out, fault),
            None => self.refuse(at, out, Reason::NoMemory),
        }
        Step::On
    }

    /// The head of the origin's response was read.
    fn has_response<P>(&mut self, at: &P, out: &mut H::Outside)
    where
        H: Effects<P>,
        requires due { due_of self.old.course ≡ dues.ReadResponse }
        ensures course { self.new.course ≡ after self.old.course ResponseRead }
        ensures held { self.new.holdings ≡ self.old.holdings }
        ensures goes { Goes self.old.course self.new.course }
    {
        self.holdings.note_response(at, out);
        self.course.done(Event::ResponseRead);
    }

    /// A byte of the origin's answer was read: from then on its request isn't sent again.
    fn note_heard(&mut self)
        requires due { due_of self.old.course ≡ dues.ReadResponse }
        ensures course { self.new.course ≡ heard_of self.old.course }
        ensures due { due_of self.new.course ≡ dues.ReadResponse }
        ensures held { self.new.holdings ≡ self.old.holdings }
        ensures goes { Goes self.old.course self.new.course }
    {
        if !self.course.state().heard {
            self.course.done(Event::Heard);
        }
    }

    /// An interim response was dropped.
    fn has_dropped_interim<P>(&mut self, at: &P, out: &mut H::Outside) -> Step
    where
        H: Effects<P>,
        requires due { due_of self.old.course ≡ dues.ReadResponse }
        ensures course { self.new.course ≡ (if H.is_late out.old at.now then after (heard_of self.old.course) (Failed Deadline) else heard_of self.old.course) }
        ensures held { self.new.holdings ≡ self.old.holdings }
        ensures goes { Goes self.old.course self.new.course }
        ensures heeds { Heeds (H.is_late out.new at.now) self.new.course result }
        ensures no_wait { result ≡ Step.Waits → ⊥ }
    {
        self.note_heard();
        if H::is_late(at, out) {
            self.refuse(at, out, Reason::OriginDeadline);
            Step::On
        } else {
            Step::Unmoved
        }
    }

    /// The origin's connection gives no head. One that was kept may be closed just now: then its request goes back to its plan, once, as
    /// long as no byte of an answer came.
    fn response_failed<P>(&mut self, at: &P, out: &mut H::Outside, fault: RelayFault)
    where
        H: Effects<P>,
        requires due { due_of self.old.course ≡ dues.ReadResponse }
        ensures leads { FaultLeads (H.repeats self.old.holdings) (H.withdraws self.old.holdings self.new.holdings) (H.head_fault self.old.holdings) fault self.old.course self.new.course }
        ensures kept { may_go_back fault self.old.course ≡ false → self.new.holdings ≡ self.old.holdings }
        ensures goes { Goes self.old.course self.new.course }
    {
        let reason = origin_head_reason(fault, self.holdings.head_fault());
        if is_end_of_wire(fault)
            && self.course.may(Event::Withdrawn)
            && self.holdings.withdraw(at, out, &self.course) == Withdrawal::Again
        {
            self.course.take(Event::Withdrawn);
        } else {
            self.refuse(at, out, reason);
        }
    }
}
