//! Turns of a transaction.

ghost use Rattle.std.specs.Prelude.{◌≡◌, ◌↔◌, ℕ, ◌+◌, ◌<◌, ◌≤◌, ◌⊎◌, Bool, true, false, List, [], Option, Some, None, length};
ghost use Rattle.trace_core.specs.declared.history.Event.TheVariants.{Fail, Retry};
ghost use Rattle.trace_core.specs.declared.history.Cause.{Cause};
ghost use Rattle.trace_core.specs.declared.history.Cause.TheVariants.{Deadline, Stopping};
ghost use Rattle.trace_core.specs.declared.history.Seen.{Seen};
ghost use Rattle.trace_core.specs.Legal.{MayFollow};
ghost use Rattle.adapt_sides.specs.Turns.{Gift};
ghost use Rattle.adapt_sides.specs.Turns.Gift.{message};
ghost use Rattle.adapt_hold.specs.Holding.{shows, moved};
ghost use Rattle.adapt_turn.specs.declared.turn.TurnAnswer.{TurnAnswer as AnyAnswer};
ghost use Rattle.adapt_turn.specs.Reports.{outcome_by};
ghost use Rattle.adapt_turn.specs.TurnAnswers.{Drives, IsAnswerTo, Paces, StaysClosed, WhyFailed};

use crate::ends::EndTypes;
use crate::pass::PassAnswer;
use crate::turn::{Outcome, Side, TurnAnswer};
use crate::tx::{Answering, Going, Making, Refusing, Tx};
use adapt_sides::{Hop, Scratch, Service, Source};
use span_bank::{Bank, Ledgers};
use std::sync::Wait;
use trace_core::Cause;
use wire_kit::Wire;

/// The moment of the last moved byte.
fn moment_of(moved: u64, now: u64, before: u64) -> u64
    ensures none { moved ≡ 0 → result ≡ before }
    ensures some { 0 < moved → result ≡ now }
    ensures one { (result ≡ before) ⊎ (result ≡ now) }
{
    if moved > 0 { now } else { before }
}

/// What a turn answers, by what its pass did.
fn answer_of(passed: PassAnswer, moved: u64) -> TurnAnswer
    ensures { IsAnswerTo passed moved result }
{
    if passed.broken {
        TurnAnswer::Broken
    } else if passed.waiting && moved == 0 {
        TurnAnswer::Waiting
    } else {
        TurnAnswer::Moved(moved)
    }
}

impl<B: Ledgers, E: EndTypes> Tx<B, E> {
    /// One turn of one side, at a moment in seconds.
    ///
    /// The turn that reads an end of the body that the source's framing gives reports it. A turn at the deadline fails in place of
    /// moving a byte. A turn that fails answers what its wires moved before; Finished comes
    /// with a later one, once a refusal that is due is out or its wire has failed. The records that its clauses cite are in specs/Turn
    /// and specs/TurnAnswers.
    pub fn turn(
        &mut self,
        rt: &impl Wait,
        bank: &Bank<B>,
        scratch: &mut Scratch,
        side: Side,
        now: u64,
    ) -> TurnAnswer
        ensures goes { ⟦<Self as Going>⟧.goes self.old self.new }
        ensures answers { ⟦<Self as Answering>⟧.answers self.old side self.new result }
        ensures keeps { ⟦<Self as Answering>⟧.keeps self.old side self.new }
        ensures deadline { (shows self.old.hold.history).closed ≡ false → self.old.pace.last_moved + self.old.pace.deadline ≤ now
            → (self.new.hold ≡ moved self.old.hold (Fail Deadline) []) × (result ≡ TurnAnswer.Moved 0) × (self.new.outcome ≡ Outcome.Fail Deadline) }
        ensures closed { (shows self.old.hold.history).closed ≡ true → StaysClosed (⟦<Self as Answering>⟧.ending self.old) (⟦<Self as Answering>⟧.ending self.new) result }
        ensures paces { Paces (shows self.old.hold.history).closed self.old.pace self.new.pace now (λ n. ⟦<Self as Going>⟧.moves self.old self.new n) result }
        ensures breaks_on { (shows self.old.hold.history).closed ≡ false → now < self.old.pace.last_moved + self.old.pace.deadline → side ≡ Side.Service
            → self.old.pace.broken ≡ true → MayFollow self.old.hold.history.plan self.old.hold.history.events Retry → result ≡ TurnAnswer.Broken }
        ensures fails { (shows self.old.hold.history).closed ≡ false → WhyFailed (record {
          outcome = self.new.outcome;
          late = self.old.pace.last_moved + self.old.pace.deadline ≤ now;
          blame = ⟦<Self as Answering>⟧.fails self.old side now self.new;
          refuses = ⟦<Self as Refusing>⟧.refuses self.new;
          unmade = λ cause. (side ≡ Side.NextHop) × ⟦<Self as Making>⟧.unmade self.old cause;
        }) }
        ensures faultless { (shows self.new.hold.history).closed ≡ false → ⟦<Self as Answering>⟧.faultless self.old → ⟦<Self as Answering>⟧.faultless self.new }
        ensures told { (shows self.old.hold.history).closed ≡ false → side ≡ Side.Source → (result ≡ TurnAnswer.Broken → ⊥) → ((cause : Cause) → self.new.outcome ≡ Outcome.Fail cause → ⊥)
            → E.Reader.is_over self.new.ends.source → (shows self.new.hold.history).ended ≡ true }
    {
        if self.is_closed() {
            return self.closed_turn(&mut scratch.wire);
        }
        let before = self.counts();
        if self.pace.is_late(now) {
            self.fail_by(rt, bank, Cause::Deadline);
            return TurnAnswer::Moved(0);
        }
        if matches!(side, Side::Service) && self.is_broken() {
            return TurnAnswer::Broken;
        }
        let passed = self.pass(rt, bank, scratch, side);
        let moved = self.counts().since(before);
        self.after_pass(passed, moved, now)
    }

    /// What a turn answers, by what its pass did.
    fn after_pass(&mut self, passed: PassAnswer, moved: u64, now: u64) -> TurnAnswer
        requires over { (cause : Cause) → passed.failed ≡ Some cause → (shows self.old.hold.history).closed ≡ true }
        requires outcome { self.old.outcome ≡ outcome_by passed.failed }
        ensures goes { ⟦<Self as Going>⟧.goes self.old self.new }
        ensures said { IsAnswerTo passed moved result }
        ensures marked { (self.new.pace.broken ≡ true ↔ (self.old.pace.broken ≡ true) ⊎ (result ≡ TurnAnswer.Broken)) × (self.new.pace.reused ≡ self.old.pace.reused) }
        ensures hold { self.new.hold ≡ self.old.hold }
        ensures outcome { self.new.outcome ≡ self.old.outcome }
        ensures clock { (moved ≡ 0 → self.new.pace.last_moved ≡ self.old.pace.last_moved) × (0 < moved → self.new.pace.last_moved ≡ now)
            × ((self.new.pace.last_moved ≡ self.old.pace.last_moved) ⊎ (self.new.pace.last_moved ≡ now)) × (self.new.pace.deadline ≡ self.old.pace.deadline) }
        ensures kept { (self.new.ends.source ≡ self.old.ends.source) × (self.new.ends.source_wire ≡ self.old.ends.source_wire) × (self.new.ends.service ≡ self.old.ends.service) × (self.new.ends.next_wire ≡ self.old.ends.next_wire) }
        ensures writers { (E.Writer.body_framing self.new.ends.next ≡ E.Writer.body_framing self.old.ends.next) × (E.Writer.body_framing self.new.ends.back ≡ E.Writer.body_framing self.old.ends.back)
            × (E.Writer.gift self.new.ends.next ≡ message → E.Writer.gift self.old.ends.next ≡ message) × (E.Writer.gift self.new.ends.back ≡ message → E.Writer.gift self.old.ends.back ≡ message) }
        ensures refuses { (cause : Cause) → passed.failed ≡ Some cause → ⟦<Self as Refusing>⟧.refuses self.new cause }
        ensures same { passed.failed ≡ None → (self.new.ends.next ≡ self.old.ends.next) × (self.new.ends.back ≡ self.old.ends.back) }
    {
        self.pace.last_moved = moment_of(moved, now, self.pace.last_moved);
        self.pace.broken |= passed.broken;
        self.refuse_failed(passed.failed);
        answer_of(passed, moved)
    }

    /// Turns by a schedule, each at the moment of the last moved byte, so that no deadline of at least a second passes. One of no
    /// second passes at once.
    pub fn drive(
        &mut self,
        rt: &impl Wait,
        bank: &Bank<B>,
        scratch: &mut Scratch,
        schedule: &[Side],
    )
        ensures goes { ⟦<Self as Going>⟧.goes self.old self.new }
        ensures timed { (self.new.pace.last_moved ≡ self.old.pace.last_moved) × (self.new.pace.deadline ≡ self.old.pace.deadline) }
        ensures turns { Drives (λ old side new. (turned : AnyAnswer) × ⟦<Self as Answering>⟧.answers old side new turned × ⟦<Self as Answering>⟧.keeps old side new
            × (new.pace.broken ≡ true ↔ (old.pace.broken ≡ true) ⊎ (turned ≡ TurnAnswer.Broken)) × (new.pace.reused ≡ old.pace.reused)
            × ((shows new.hold.history).closed ≡ false → ⟦<Self as Answering>⟧.faultless old → ⟦<Self as Answering>⟧.faultless new)
            × ((shows old.hold.history).closed ≡ false → (cause : Cause) → new.outcome ≡ Outcome.Fail cause → ⟦<Self as Answering>⟧.fails old side old.pace.last_moved new cause)) self.old schedule.now self.new }
        ensures closed { (shows self.old.hold.history).closed ≡ true → (self.new.hold ≡ self.old.hold) × (self.new.outcome ≡ self.old.outcome) × (self.new.refusing ≡ self.old.refusing) }
        ensures deadline { (shows self.old.hold.history).closed ≡ false → self.old.pace.deadline ≡ 0 → 0 < length schedule.now
            → (self.new.hold ≡ moved self.old.hold (Fail Deadline) []) × (self.new.outcome ≡ Outcome.Fail Deadline) }
        ensures refuses { (shows self.old.hold.history).closed ≡ false → (cause : Cause) → self.new.outcome ≡ Outcome.Fail cause → ⟦<Self as Refusing>⟧.refuses self.new cause }
        ensures refuses_on { (shows self.old.hold.history).closed ≡ true → (cause : Cause) → ⟦<Self as Refusing>⟧.refuses self.old cause → ⟦<Self as Refusing>⟧.refuses self.new cause }
        ensures faultless { (shows self.new.hold.history).closed ≡ false → ⟦<Self as Answering>⟧.faultless self.old → ⟦<Self as Answering>⟧.faultless self.new }
        ensures unstopped { ((maker : E.Maker) (head : E.Reader.Head) (x : Seen) (adapted : Option (List ℕ)) (is_response : Bool) → E.Maker.makes_none maker head x adapted is_response Stopping → ⊥)
            → (shows self.old.hold.history).closed ≡ false → self.new.outcome ≡ Outcome.Fail Stopping → ⊥ }
        ensures timely { ((maker : E.Maker) (head : E.Reader.Head) (x : Seen) (adapted : Option (List ℕ)) (is_response : Bool) → E.Maker.makes_none maker head x adapted is_response Deadline → ⊥)
            → (shows self.old.hold.history).closed ≡ false → self.new.outcome ≡ Outcome.Fail Deadline → self.old.pace.deadline ≡ 0 }
    {
        match schedule {
            [] => {}
            [side, rest @ ..] => {
                let now = self.pace.last_moved;
                self.turn(rt, bank, scratch, *side, now);
                self.drive(rt, bank, scratch, rest);
            }
        }
    }

    /// Fails the transaction, because the proxy is stopping, where it isn't closed. Later turns write a refusal that is due.
    pub fn halt(&mut self, rt: &impl Wait, bank: &Bank<B>)
        ensures goes { ⟦<Self as Going>⟧.goes self.old self.new }
        ensures pace { self.new.pace ≡ self.old.pace }
        ensures closed { (shows self.old.hold.history).closed ≡ true → (self.new.hold ≡ self.old.hold) × (self.new.outcome ≡ self.old.outcome) }
        ensures halted { (shows self.old.hold.history).closed ≡ false
            → (self.new.hold ≡ moved self.old.hold (Fail Stopping) []) × (self.new.outcome ≡ Outcome.Fail Stopping) }
        ensures refuses { (shows self.old.hold.history).closed ≡ false → ⟦<Self as Refusing>⟧.refuses self.new Stopping }
        ensures still { (shows self.old.hold.history).closed ≡ true → self.new ≡ self.old }
        ensures over { (shows self.new.hold.history).closed ≡ true }
        ensures kept { (self.new.ends.source_wire ≡ self.old.ends.source_wire) × (self.new.ends.service ≡ self.old.ends.service) × (self.new.ends.next_wire ≡ self.old.ends.next_wire) × (self.new.ends.source ≡ self.old.ends.source) }
        ensures maker { self.new.ends.maker ≡ self.old.ends.maker }
    {
        if !self.is_closed() {
            self.fail_by(rt, bank, Cause::Stopping);
        }
    }
}
