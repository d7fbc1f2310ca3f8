//! A pass of one side of a transaction.

ghost use Rattle.std.specs.Prelude.{◌≡◌, false, None};
ghost use Rattle.adapt_hold.specs.Holding.{shows};
ghost use Rattle.adapt_turn.specs.ChosenHead.{wire_of};
ghost use Rattle.adapt_turn.specs.Reports.{lending, outcome_by};
ghost use Rattle.adapt_turn.specs.Passes.{AnyPasses, ServiceEndPasses, NextPasses, SourcePasses, choice_of, writers};

use crate::ends::EndTypes;
use crate::pass::hop::next_pass;
use crate::pass::service::service_pass;
use crate::pass::source::source_pass;
use crate::pass::{PassAnswer, outcome_by};
use crate::turn::Side;
use crate::tx::{Going, Making, Tx};
use adapt_sides::{Hop, Scratch, Service, Source};
use span_bank::{Bank, Ledgers};
use std::sync::Wait;
use wire_kit::Wire;

impl<B: Ledgers, E: EndTypes> Tx<B, E> {
    /// Whether Done or Fail stands.
    pub(crate) fn is_closed(&self) -> bool
        ensures { result ≡ (shows self.now.hold.history).closed }
    {
        self.hold.state().is_closed()
    }

    /// A pass of one side.
    pub(crate) fn pass(
        &mut self,
        rt: &impl Wait,
        bank: &Bank<B>,
        scratch: &mut Scratch,
        side: Side,
    ) -> PassAnswer
        requires running { (shows self.old.hold.history).closed ≡ false }
        ensures goes { ⟦<Self as Going>⟧.goes self.old self.new }
        ensures any { AnyPasses E.Client.Service self.old.pace.reused (⟦<Self as Making>⟧.unmade self.old) side self.old.hold self.new.hold self.new.ends.service result }
        ensures source { side ≡ Side.Source → SourcePasses E.Reader.Source E.SourceWire.Wire (lending self.old.hold self.old.ends.source self.old.ends.source_wire) (lending self.new.hold self.new.ends.source self.new.ends.source_wire) result }
        ensures service { side ≡ Side.Service → ServiceEndPasses E.Client.Service E.ServiceWire.Wire self.old.pace.reused self.old.hold self.old.ends.service self.new.hold self.new.ends.service result }
        ensures next { side ≡ Side.NextHop → NextPasses E.Writer.Hop E.SourceWire.Wire E.NextWire.Wire (choice_of E.Maker.MakesHead E.Client.Service self.old.ends.maker self.new.ends.maker (E.Reader.head self.old.ends.source) self.old.ends.service (shows self.old.hold.history))
            (writers self.old.hold self.old.ends.next self.old.ends.next_wire self.old.ends.back self.old.ends.source_wire) (writers self.new.hold self.new.ends.next self.new.ends.next_wire self.new.ends.back self.new.ends.source_wire) result }
        ensures apart_source { side ≡ Side.Source → (self.new.ends.service ≡ self.old.ends.service) × (self.new.ends.next_wire ≡ self.old.ends.next_wire) × (self.new.ends.next ≡ self.old.ends.next) × (self.new.ends.back ≡ self.old.ends.back) }
        ensures apart_service { side ≡ Side.Service → (self.new.ends.source ≡ self.old.ends.source) × (self.new.ends.source_wire ≡ self.old.ends.source_wire) × (self.new.ends.next_wire ≡ self.old.ends.next_wire) × (self.new.ends.next ≡ self.old.ends.next) × (self.new.ends.back ≡ self.old.ends.back) }
        ensures apart_next { side ≡ Side.NextHop → (self.new.ends.source ≡ self.old.ends.source) × (self.new.ends.service ≡ self.old.ends.service) }
        ensures outcome { self.new.outcome ≡ outcome_by result.failed }
        ensures served { wire_of self.old.ends.service ≡ None → wire_of self.new.ends.service ≡ None }
        ensures pace { self.new.pace ≡ self.old.pace }
    {
        match side {
            Side::Source => {
                let passed = source_pass(
                    rt,
                    bank,
                    &mut self.hold,
                    &mut self.ends.source,
                    &mut self.ends.source_wire,
                    scratch,
                );
                self.outcome = outcome_by(passed.failed);
                passed
            }
            Side::Service => {
                let passed = service_pass(
                    rt,
                    bank,
                    &mut self.hold,
                    &mut self.ends.service,
                    scratch,
                    self.pace.reused,
                );
                self.outcome = outcome_by(passed.failed);
                passed
            }
            Side::NextHop => {
                let passed = next_pass::<B, E>(
                    rt,
                    bank,
                    self.alloc,
                    &mut self.hold,
                    &mut self.ends.maker,
                    &self.ends.source,
                    &self.ends.service,
                    &mut self.ends.next,
                    &mut self.ends.next_wire,
                    &mut self.ends.back,
                    &mut self.ends.source_wire,
                    &mut scratch.wire,
                );
                self.outcome = outcome_by(passed.failed);
                passed
            }
        }
    }
}
