//! The proxy's own refusals.

ghost use Rattle.std.specs.Prelude.{IsTrue, not, ◌≡◌, ℕ, ◌+◌, ◌≤◌, ◌⊎◌, true, false, [], Some, None};
ghost use Rattle.trace_core.specs.declared.history.Event.TheVariants.{Fail};
ghost use Rattle.trace_core.specs.declared.history.Cause.{Cause};
ghost use Rattle.http_side.specs.Refusals.{is_own_status};
ghost use Rattle.adapt_sides.specs.Turns.{Gift, wire_fault};
ghost use Rattle.adapt_sides.specs.Turns.Gift.{refusal, message};
ghost use Rattle.adapt_hold.specs.Holding.{shows, moved};
ghost use Rattle.adapt_turn.specs.Reports.{lending, outcome_by};
ghost use Rattle.adapt_turn.specs.Refusals.{refusal_status, user_untouched, IsOver};
ghost use Rattle.adapt_turn.specs.Rows.{BytesOr};
ghost use Rattle.adapt_turn.specs.TurnAnswers.{ByAnswer};
ghost use Rattle.adapt_turn.specs.Stands.{TakesAside, Waited};

use crate::ends::EndTypes;
use crate::pass::hop::tape_of;
use crate::turn::{Outcome, TurnAnswer};
use crate::tx::{Going, Refusing, Tx};
use adapt_hold::{Hold, fail};
use adapt_sides::{Hop, Service, Source, WIRE_ROOM};
use span_bank::{Bank, Ledgers};
use std::sync::Wait;
use trace_core::{Cause, Point};
use wire_kit::Wire;

/// The status of the proxy's own refusal.
fn refusal_status_of(cause: Cause, point: Point) -> u16
    ensures status { result ≡ refusal_status cause point }
    ensures own { IsTrue (is_own_status result) }
{
    match cause {
        Cause::Source if matches!(point, Point::Reqmod) => 400,
        Cause::Source | Cause::Service | Cause::NextHop => 502,
        Cause::Memory | Cause::Stopping => 503,
        Cause::Deadline => 504,
    }
}

/// Writes what is due of a refusal, and says whether it waits. `None` where it is out, or its wire has failed.
fn refusal_turn<B: Ledgers, K: Hop, C: Wire>(
    hold: &Hold<B>,
    hop: &mut K,
    wire: &mut C,
    buffer: &mut [u8; WIRE_ROOM],
) -> Option<bool>
    requires message { K.gift hop.old ≡ message → ⊥ }
    requires fault { K.fault hop.old ≡ wire_fault (K.fault hop.old) }
    ensures gift { K.gift hop.new ≡ K.gift hop.old }
    ensures fault { K.fault hop.new ≡ wire_fault (K.fault hop.new) }
    ensures waits { result ≡ Some true → Waited (K.rests (shows hold.now.history) hop.new) (λ past. past.write_waits) (C.past wire.old) (C.past wire.new) }
    ensures moves { (shows hold.now.history).closed ≡ true → result ≡ Some false → BytesOr ⊥ (C.past wire.old) (C.past wire.new) }
    ensures over { result ≡ None → IsOver (K.is_out hop.new) (K.fault hop.new) }
    ensures ends { IsOver (K.is_out hop.old) (K.fault hop.old) → result ≡ None }
    ensures takes { TakesAside K.Hop C.Wire (lending hold.now hop.old wire.old) (lending hold.now hop.new wire.new) }
{
    if hop.is_out() {
        return None;
    }
    if hop.fault().is_some() {
        return None;
    }
    let state = hold.state();
    let tape = tape_of(hold);
    match hop.write_turn(state, tape, wire, buffer) {
        Ok(turn) => Some(turn.waiting),
        Err(_) => None,
    }
}

/// Puts a refusal where no byte has gone out, and says whether it did.
fn refuse_on<K: Hop>(hop: &mut K, status: u16) -> bool
    requires { IsTrue (is_own_status status) }
    ensures untouched { result ≡ true → K.untouched hop.old ≡ true }
    ensures gift { result ≡ true → K.gift hop.new ≡ refusal status }
    ensures aside { result ≡ true → K.aside [] hop.new }
    ensures same { result ≡ false → hop.new ≡ hop.old }
    ensures touched { result ≡ false → K.untouched hop.new ≡ false }
    ensures fault { result ≡ true → K.fault hop.new ≡ wire_fault (K.fault hop.old) }
    ensures framing { K.body_framing hop.new ≡ K.body_framing hop.old }
    ensures message { K.gift hop.new ≡ message → K.gift hop.old ≡ message }
{
    if hop.untouched() {
        hop.refuse(status);
        true
    } else {
        false
    }
}

impl<B: Ledgers, E: EndTypes> Tx<B, E> {
    /// At which point the message is offered.
    fn point(&self) -> Point
        ensures { result ≡ (shows self.now.hold.history).plan.point }
    {
        self.hold.state().point()
    }

    /// Whether a byte of an answer has gone out to the user, of a message or of the proxy's own refusal.
    pub fn has_answered(&self) -> bool
        ensures { result ≡ not (user_untouched self.now.hold.history.plan.point (E.Writer.untouched self.now.ends.next) (E.Writer.untouched self.now.ends.back)) }
    {
        match self.point() {
            Point::Reqmod => !self.ends.back.untouched(),
            Point::Respmod => !self.ends.next.untouched(),
        }
    }

    /// Puts the proxy's own refusal where no byte has gone to the user.
    pub(crate) fn refuse(&mut self, cause: Cause)
        requires over { (shows self.old.hold.history).closed ≡ true }
        requires failed { self.old.outcome ≡ Outcome.Fail cause }
        ensures goes { ⟦<Self as Going>⟧.goes self.old self.new }
        ensures pace { self.new.pace ≡ self.old.pace }
        ensures hold { self.new.hold ≡ self.old.hold }
        ensures messages { (E.Writer.gift self.new.ends.next ≡ message → E.Writer.gift self.old.ends.next ≡ message) × (E.Writer.gift self.new.ends.back ≡ message → E.Writer.gift self.old.ends.back ≡ message) }
        ensures outcome { self.new.outcome ≡ self.old.outcome }
        ensures refuses { ⟦<Self as Refusing>⟧.refuses self.new cause }
        ensures kept { (self.new.ends.source ≡ self.old.ends.source) × (self.new.ends.source_wire ≡ self.old.ends.source_wire) × (self.new.ends.service ≡ self.old.ends.service) × (self.new.ends.next_wire ≡ self.old.ends.next_wire) }
        ensures maker { self.new.ends.maker ≡ self.old.ends.maker }
        ensures framings { (E.Writer.body_framing self.new.ends.next ≡ E.Writer.body_framing self.old.ends.next) × (E.Writer.body_framing self.new.ends.back ≡ E.Writer.body_framing self.old.ends.back) }
    {
        let point = self.point();
        let status = refusal_status_of(cause, point);
        match point {
            Point::Reqmod => self.refusing = refuse_on(&mut self.ends.back, status),
            Point::Respmod => self.refusing = refuse_on(&mut self.ends.next, status),
        }
    }

    /// Puts it where a pass has failed.
    pub(crate) fn refuse_failed(&mut self, failed: Option<Cause>)
        requires over { (cause : Cause) → failed ≡ Some cause → (shows self.old.hold.history).closed ≡ true }
        requires outcome { self.old.outcome ≡ outcome_by failed }
        ensures goes { ⟦<Self as Going>⟧.goes self.old self.new }
        ensures pace { self.new.pace ≡ self.old.pace }
        ensures hold { self.new.hold ≡ self.old.hold }
        ensures messages { (E.Writer.gift self.new.ends.next ≡ message → E.Writer.gift self.old.ends.next ≡ message) × (E.Writer.gift self.new.ends.back ≡ message → E.Writer.gift self.old.ends.back ≡ message) }
        ensures outcome { self.new.outcome ≡ self.old.outcome }
        ensures refuses { (cause : Cause) → failed ≡ Some cause → ⟦<Self as Refusing>⟧.refuses self.new cause }
        ensures kept { (self.new.ends.source ≡ self.old.ends.source) × (self.new.ends.source_wire ≡ self.old.ends.source_wire) × (self.new.ends.service ≡ self.old.ends.service) × (self.new.ends.next_wire ≡ self.old.ends.next_wire) }
        ensures framings { (E.Writer.body_framing self.new.ends.next ≡ E.Writer.body_framing self.old.ends.next) × (E.Writer.body_framing self.new.ends.back ≡ E.Writer.body_framing self.old.ends.back) }
        ensures same { failed ≡ None → (self.new.ends.next ≡ self.old.ends.next) × (self.new.ends.back ≡ self.old.ends.back) }
    {
        match failed {
            Some(cause) => self.refuse(cause),
            None => {}
        }
    }

    /// Fails the transaction, and puts a refusal where no byte has gone to the user.
    pub(crate) fn fail_by(&mut self, rt: &impl Wait, bank: &Bank<B>, cause: Cause)
        requires running { (shows self.old.hold.history).closed ≡ false }
        ensures goes { ⟦<Self as Going>⟧.goes self.old self.new }
        ensures pace { self.new.pace ≡ self.old.pace }
        ensures hold { self.new.hold ≡ moved self.old.hold (Fail cause) [] }
        ensures paced { ((shows self.new.hold.history).received ≤ (shows self.old.hold.history).received + self.old.hold.limits.turn)
            × ((shows self.new.hold.history).adapted_received ≤ (shows self.old.hold.history).adapted_received + self.old.hold.limits.turn) }
        ensures over { (shows self.new.hold.history).closed ≡ true }
        ensures messages { (E.Writer.gift self.new.ends.next ≡ message → E.Writer.gift self.old.ends.next ≡ message) × (E.Writer.gift self.new.ends.back ≡ message → E.Writer.gift self.old.ends.back ≡ message) }
        ensures outcome { self.new.outcome ≡ Outcome.Fail cause }
        ensures refuses { ⟦<Self as Refusing>⟧.refuses self.new cause }
        ensures kept { (self.new.ends.source_wire ≡ self.old.ends.source_wire) × (self.new.ends.service ≡ self.old.ends.service) × (self.new.ends.next_wire ≡ self.old.ends.next_wire) × (self.new.ends.source ≡ self.old.ends.source) }
        ensures maker { self.new.ends.maker ≡ self.old.ends.maker }
    {
        // For the proof alone: a state is that of its history.
        let _state = self.hold.state();
        fail(rt, bank, &mut self.hold, cause);
        self.outcome = Outcome::Fail(cause);
        self.refuse(cause);
    }

    /// Writes what is due of a refusal on the user's wire.
    fn refusal(&mut self, buffer: &mut [u8; WIRE_ROOM]) -> Option<bool>
        requires due { self.old.refusing ≡ true }
        requires over { (shows self.old.hold.history).closed ≡ true }
        ensures goes { ⟦<Self as Going>⟧.goes self.old self.new }
        ensures waits { result ≡ Some true → ⟦<Self as Refusing>⟧.refusal_waits self.old self.new }
        ensures moves { result ≡ Some false → ⟦<Self as Refusing>⟧.refusal_moves self.old self.new }
        ensures over { result ≡ None → ⟦<Self as Refusing>⟧.refusal_is_over self.new }
        ensures ends { ⟦<Self as Refusing>⟧.refusal_is_over self.old → result ≡ None }
        ensures refuses { (cause : Cause) → ⟦<Self as Refusing>⟧.refuses self.old cause → ⟦<Self as Refusing>⟧.refuses self.new cause }
        ensures pace { self.new.pace ≡ self.old.pace }
        ensures apart { (self.new.ends.source ≡ self.old.ends.source) × (self.new.ends.service ≡ self.old.ends.service) × (self.old.hold.history.plan.point ≡ Point.Respmod → self.new.ends.source_wire ≡ self.old.ends.source_wire)
            × (self.old.hold.history.plan.point ≡ Point.Reqmod → self.new.ends.next_wire ≡ self.old.ends.next_wire) }
        ensures kept { (self.new.hold ≡ self.old.hold) × (self.new.outcome ≡ self.old.outcome) × (self.new.refusing ≡ self.old.refusing) }
    {
        match self.point() {
            Point::Reqmod => refusal_turn(
                &self.hold,
                &mut self.ends.back,
                &mut self.ends.source_wire,
                buffer,
            ),
            Point::Respmod => refusal_turn(
                &self.hold,
                &mut self.ends.next,
                &mut self.ends.next_wire,
                buffer,
            ),
        }
    }

    /// A turn of a closed transaction: it writes a refusal that is due.
    pub(crate) fn closed_turn(&mut self, buffer: &mut [u8; WIRE_ROOM]) -> TurnAnswer
        requires over { (shows self.old.hold.history).closed ≡ true }
        ensures goes { ⟦<Self as Going>⟧.goes self.old self.new }
        ensures pace { self.new.pace ≡ self.old.pace }
        ensures apart { (self.new.ends.source ≡ self.old.ends.source) × (self.new.ends.service ≡ self.old.ends.service) × (self.old.hold.history.plan.point ≡ Point.Respmod → self.new.ends.source_wire ≡ self.old.ends.source_wire)
            × (self.old.hold.history.plan.point ≡ Point.Reqmod → self.new.ends.next_wire ≡ self.old.ends.next_wire) }
        ensures kept { (self.new.hold ≡ self.old.hold) × (self.new.outcome ≡ self.old.outcome) × (self.new.refusing ≡ self.old.refusing) }
        ensures answers { ByAnswer result (record {
          waiting = ⟦<Self as Going>⟧.moves self.old self.new 0 × ⟦<Self as Refusing>⟧.refusal_waits self.old self.new;
          moved = λ n. ⟦<Self as Going>⟧.moves self.old self.new n × (n ≡ 0 → ⟦<Self as Refusing>⟧.refusal_moves self.old self.new);
          broken = ⊥;
          finished = λ outcome. (outcome ≡ self.old.outcome) × ((self.old.refusing ≡ false) ⊎ ⟦<Self as Refusing>⟧.refusal_is_over self.new);
        }) }
        ensures refuses { (cause : Cause) → ⟦<Self as Refusing>⟧.refuses self.old cause → ⟦<Self as Refusing>⟧.refuses self.new cause }
        ensures finished { (self.old.refusing ≡ false) ⊎ ⟦<Self as Refusing>⟧.refusal_is_over self.old → result ≡ TurnAnswer.Finished self.old.outcome }
    {
        if !self.refusing {
            return TurnAnswer::Finished(self.outcome);
        }
        let before = self.counts();
        let waits = self.refusal(buffer);
        let moved = self.counts().since(before);
        match waits {
            Some(waiting) => {
                if waiting && moved == 0 {
                    TurnAnswer::Waiting
                } else {
                    TurnAnswer::Moved(moved)
                }
            }
            None => TurnAnswer::Finished(self.outcome),
        }
    }
}
