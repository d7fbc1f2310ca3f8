//! One more try of a request whose connection broke.

ghost use Rattle.std.specs.Prelude.{is_some, ◌≡◌, ℕ, List, true, false, [], Some, IfSome};
ghost use Rattle.trace_core.specs.declared.history.Event.TheVariants.{Fail, Retry};
ghost use Rattle.trace_core.specs.Legal.{MayFollow};
ghost use Rattle.adapt_hold.specs.Holding.{shows, moved};
ghost use Rattle.adapt_turn.specs.Stands.{Texts};

use crate::ends::EndTypes;
use crate::turn::Outcome;
use crate::tx::{Answering, Going, Refusing, Standing, Tx};
use adapt_hold::go_on;
use adapt_sides::{Hop, Service, Source};
use span_bank::{Bank, Ledgers};
use std::mem;
use std::sync::Wait;
use trace_core::{Cause, Event};
use wire_kit::Wire;

impl<B: Ledgers, E: EndTypes> Tx<B, E> {
    /// Begins the same request anew on a fresh connection, and gives the broken one's wire back.
    pub fn retry(
        &mut self,
        rt: &impl Wait,
        bank: &Bank<B>,
        wire: E::ServiceWire,
    ) -> Option<E::ServiceWire>
        requires broken { self.old.pace.broken ≡ true }
        requires may { MayFollow self.old.hold.history.plan self.old.hold.history.events Retry }
        ensures hold { self.new.hold ≡ moved self.old.hold Retry [] }
        ensures anew { (request : List ℕ) (t : Texts) → ⟦<Self as Standing>⟧.stands self.old request t → ⟦<Self as Standing>⟧.stands self.new request (record t { service_read = []; service_taken = [] }) }
        ensures fresh { IfSome self.new.ends.service (λ line. line.wire ≡ Some wire) }
        ensures back { IfSome self.old.ends.service (λ line. result ≡ line.wire) }
        ensures others { (self.new.ends.source_wire ≡ self.old.ends.source_wire) × (self.new.ends.next_wire ≡ self.old.ends.next_wire) }
        ensures served { is_some self.new.ends.service ≡ is_some self.old.ends.service }
        ensures kept { (self.new.ends.source ≡ self.old.ends.source) × (self.new.ends.next ≡ self.old.ends.next) × (self.new.ends.back ≡ self.old.ends.back)
            × (self.new.outcome ≡ self.old.outcome) × (self.new.refusing ≡ self.old.refusing) }
        ensures faultless { ⟦<Self as Answering>⟧.faultless self.old → ⟦<Self as Answering>⟧.faultless self.new }
        ensures unused { (self.new.pace.broken ≡ false) × (self.new.pace.reused ≡ false) }
        ensures timed { (self.new.pace.last_moved ≡ self.old.pace.last_moved) × (self.new.pace.deadline ≡ self.old.pace.deadline) }
    {
        // For the proof alone: a state is that of its history.
        let _state = self.hold.state();
        go_on(rt, bank, &mut self.hold, Event::Retry);
        self.pace.broken = false;
        self.pace.reused = false;
        match &mut self.ends.service {
            Some(line) => {
                line.side.restart();
                mem::replace(&mut line.wire, Some(wire))
            }
            None => Some(wire),
        }
    }

    /// Fails the transaction where no fresh connection can be had: by the service's fault, or for what else is the cause of that.
    pub fn fail_unretried(&mut self, rt: &impl Wait, bank: &Bank<B>, cause: Cause)
        requires broken { self.old.pace.broken ≡ true }
        requires may { MayFollow self.old.hold.history.plan self.old.hold.history.events Retry }
        ensures goes { ⟦<Self as Going>⟧.goes self.old self.new }
        ensures pace { self.new.pace ≡ self.old.pace }
        ensures hold { self.new.hold ≡ moved self.old.hold (Fail cause) [] }
        ensures outcome { self.new.outcome ≡ Outcome.Fail cause }
        ensures refuses { ⟦<Self as Refusing>⟧.refuses self.new cause }
        ensures kept { (self.new.ends.source_wire ≡ self.old.ends.source_wire) × (self.new.ends.service ≡ self.old.ends.service) × (self.new.ends.next_wire ≡ self.old.ends.next_wire) × (self.new.ends.source ≡ self.old.ends.source) }
        ensures maker { self.new.ends.maker ≡ self.old.ends.maker }
        ensures over { (shows self.new.hold.history).closed ≡ true }
    {
        self.fail_by(rt, bank, cause);
    }
}
