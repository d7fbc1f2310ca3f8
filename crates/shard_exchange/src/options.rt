//! Asking a service for its options.

ghost use Rattle.std.specs.Prelude.{◌≡◌, true};

use crate::answers::OptionsTurn;
use crate::effects::Effects;
use crate::exchange::Exchange;
use crate::holder::Holder;
use crate::reason::options_reason;
use crate::tasks::Step;
use adapt_sides::{ClientFault, WIRE_ROOM};
use exchange_core::Event;
use exchange_report::Reason;
use icap_head::IcapResponse;

impl<H: Holder> Exchange<H> {
    ghost use Rattle.exchange_core.specs.Dues.{due_of};
    ghost use Rattle.exchange_core.specs.Log.{Goes};
    ghost use Rattle.exchange_core.specs.May.{may_come};
    ghost use Rattle.exchange_core.specs.declared.event.Event.TheVariants.{Renewed};
    ghost use Rattle.exchange_core.specs.declared.due.Due.TheVariants as dues;
    ghost use Rattle.shard_exchange.specs.Outcomes.{Bears, IsAsked, IsHeard};
    ghost use Rattle.shard_exchange.specs.Steps.{Heeds, GoesOn};

    /// Begins to ask the service for its options.
    pub(crate) fn ask<P>(&mut self, at: &P, out: &mut H::Outside)
    where
        H: Effects<P>,
        requires due { due_of self.old.course ≡ dues.Ask }
        ensures asked { IsAsked (H.asks self.new.holdings out.new) self.old.course self.new.course }
        ensures bears { Bears H.bears self.old.holdings self.new.holdings }
        ensures line { H.keeps_line self.old.holdings self.new.holdings }
        ensures goes { GoesOn self.old.course self.new.course }
    {
        let point = self.phase().point();
        match self.holdings.ask(at, out, point) {
            Ok(()) => self.course.done(Event::Asked),
            Err(reason) => self.refuse(at, out, reason),
        }
    }

    /// Asks, and hears the answer.
    pub(crate) fn hear<P>(
        &mut self,
        at: &P,
        out: &mut H::Outside,
        buffer: &mut [u8; WIRE_ROOM],
    ) -> Step
    where
        H: Effects<P>,
        requires due { due_of self.old.course ≡ dues.Hear }
        ensures heard { IsHeard (H.learns out.old out.new at.now) H.usable_after (λ held. H.keeps_line held self.new.holdings) (H.asks self.new.holdings out.new)
            (λ held. H.renews held self.new.holdings out.old out.new at.now × H.may_retry out.old at.now true) self.old.course self.new.course }
        ensures bears { Bears H.bears self.old.holdings self.new.holdings }
        ensures goes { Goes self.old.course self.new.course }
        ensures heeds { Heeds (H.is_late out.new at.now) self.new.course result }
        ensures rests { result ≡ Step.Waits → H.hears_nothing self.old.holdings self.new.holdings }
    {
        match self.holdings.hear(buffer) {
            Some(OptionsTurn::More) => {}
            Some(OptionsTurn::Nothing) => {
                return self.wait_or_refuse(at, out, Reason::ServiceDeadline);
            }
            Some(OptionsTurn::Answer(answer)) => self.has_heard(at, out, &answer),
            Some(OptionsTurn::Fault(fault)) => self.options_failed(at, out, fault),
            None => self.refuse(at, out, Reason::ServiceRefused),
        }
        Step::On
    }

    /// Takes note of what the service said.
    fn has_heard<P>(&mut self, at: &P, out: &mut H::Outside, answer: &IcapResponse)
    where
        H: Effects<P>,
        requires due { due_of self.old.course ≡ dues.Hear }
        ensures heard { IsHeard (H.learns out.old out.new at.now) H.usable_after (λ held. H.keeps_line held self.new.holdings) (H.asks self.new.holdings out.new)
            (λ held. H.renews held self.new.holdings out.old out.new at.now × H.may_retry out.old at.now true) self.old.course self.new.course }
        ensures bears { Bears H.bears self.old.holdings self.new.holdings }
        ensures goes { Goes self.old.course self.new.course }
    {
        let point = self.phase().point();
        match self.holdings.learn(at, out, point, answer) {
            Ok(usable) => self.course.done(Event::Learned { usable }),
            Err(reason) => self.refuse(at, out, reason),
        }
    }

    /// A connection that was idle before may be closed just now: then a fresh one is asked, once, where a retry is allowed.
    fn options_failed<P>(&mut self, at: &P, out: &mut H::Outside, fault: ClientFault)
    where
        H: Effects<P>,
        requires due { due_of self.old.course ≡ dues.Hear }
        ensures heard { IsHeard (H.learns out.old out.new at.now) H.usable_after (λ held. H.keeps_line held self.new.holdings) (H.asks self.new.holdings out.new)
            (λ held. H.renews held self.new.holdings out.old out.new at.now × H.may_retry out.old at.now true) self.old.course self.new.course }
        ensures bears { Bears H.bears self.old.holdings self.new.holdings }
        ensures goes { Goes self.old.course self.new.course }
    {
        if H::may_retry(at, out)
            && matches!(fault, ClientFault::Closed | ClientFault::Device)
            && self.course.may(Event::Renewed)
        {
            self.ask_anew(at, out);
        } else {
            self.holdings.blame(at, out, fault);
            self.refuse(at, out, options_reason(fault));
        }
    }

    /// Begins to ask the service of the message's point anew, on a fresh connection.
    fn ask_anew<P>(&mut self, at: &P, out: &mut H::Outside)
    where
        H: Effects<P>,
        requires due { due_of self.old.course ≡ dues.Hear }
        requires may { may_come self.old.course Renewed ≡ true }
        requires retry { H.may_retry out.old at.now true }
        ensures heard { IsHeard (H.learns out.old out.new at.now) H.usable_after (λ held. H.keeps_line held self.new.holdings) (H.asks self.new.holdings out.new)
            (λ held. H.renews held self.new.holdings out.old out.new at.now × H.may_retry out.old at.now true) self.old.course self.new.course }
        ensures bears { Bears H.bears self.old.holdings self.new.holdings }
        ensures goes { Goes self.old.course self.new.course }
    {
        let point = self.phase().point();
        match self.holdings.ask_anew(at, out, point) {
            Ok(()) => self.course.take(Event::Renewed),
            Err(reason) => self.refuse(at, out, reason),
        }
    }
}
