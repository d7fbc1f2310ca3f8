//! A transaction of the proxy's own sides that runs: what the edge holds.

ghost use Rattle.std.specs.Prelude.{not, ◌≡◌, ◌↔◌, ◌≤◌, ◌⊎◌, ◌+◌, ℕ, List, true, false, [], Option, None, Some, IfSome};
ghost use Rattle.trace_core.specs.declared.history.Cause.{Cause as AnyCause};
ghost use Rattle.trace_core.specs.declared.history.Cause.TheVariants.{Deadline, Stopping};
ghost use Rattle.trace_core.specs.declared.history.Event.TheVariants.{Fail, Retry};
ghost use Rattle.trace_core.specs.Legal.{MayFollow};
ghost use Rattle.adapt_hold.specs.Holding.{IsTied, shows, moved};
ghost use Rattle.adapt_turn.specs.declared.turn.Outcome.TheVariants as outcomes;
ghost use Rattle.adapt_turn.specs.declared.turn.TurnAnswer.{TurnAnswer as AnyAnswer};
ghost use Rattle.adapt_turn.specs.ChosenHead.{answers_user, response_of, wire_of};
ghost use Rattle.adapt_turn.specs.Refusals.{user_untouched};
ghost use Rattle.icap_client.specs.Turns.{is_response_of, is_reusable};
ghost use Rattle.adapt_turn.specs.ServiceOver.{MayFree};
ghost use Rattle.proxy_rules.specs.Running.{Runs, StandsOver, IsFaultless, RefusesFor, TakesTurns};
ghost use Rattle.proxy_rules.specs.Since.{Snapshot, Since, freed_wire, anew_on, given_up};
ghost use Rattle.proxy_rules.specs.Wires.{WiresTook};

use crate::own_ends::{OwnEnds, OwnTx, Wires};
use adapt_hold::Hold;
use adapt_sides::Scratch;
use adapt_turn::{
    Answering, FreedConnection, Going, Outcome, Refusing, Side, Standing, TurnAnswer, Tx,
};
use span_bank::{Bank, Ledgers};
use std::sync::Wait;
use trace_core::{Cause, Seen};
use wire_kit::Wire;

/// A transaction that was begun, and each step of which kept what stood then: since some beginning its wires gave and took just what
/// stands between it and them; no side of an open one has a fault, but for a service whose connection broke; and where it failed, the
/// user's writer has the refusal of the cause, or a byte has gone out to the user.
///
/// ```
/// let mut scratch = Scratch::zeroed();
/// // A body of six bytes comes; its preview is offered, and the service answers 204.
/// assert_eq!(rt; running.turn(rt, &bank, &mut scratch, Side::Source, 101), TurnAnswer::Moved(6));
/// running.drive(rt, &bank, &mut scratch, &[Side::Service, Side::Service, Side::NextHop]);
/// assert_eq!(rt; running.outcome(), Some(Outcome::Done));
/// assert!(rt; running.seen().no_mod);
/// ```
#[must_use]
pub struct Running<B: Ledgers, W: Wires> {
    pub(crate) tx: OwnTx<B, W>,
    pub ghost runs: { ∥ Runs (λ s. Since W.SourceWire.Wire W.ServiceWire.Wire W.NextWire.Wire s (StandsOver tx.hold tx.ends tx.refusing) tx.ends.source_wire (wire_of tx.ends.service) tx.ends.next_wire) (shows tx.hold.history).closed
        (IsFaultless tx.ends tx.pace.broken) tx.outcome (RefusesFor tx.hold tx.refusing tx.ends.next tx.ends.back) ∥₁ },
}

/// What the wires of a transaction gave and took since a beginning of it, and nothing else.
pub trait Accounting<W: Wires> {
    // since this beginning its wires gave and took just what stands between it and them
    ghost since: { Snapshot W.SourceWire W.ServiceWire W.NextWire → Self → Type 0 };

    // since this beginning what its wires gave spells the bodies, and what they took is of one request and one message
    ghost took: { Snapshot W.SourceWire W.ServiceWire W.NextWire → Self → Type 0 };
}

/// What a call makes of the beginnings of a transaction.
pub trait Lasting<W: Wires> {
    // what was so since a beginning is so since what this makes of it
    ghost lasts: { (Snapshot W.SourceWire W.ServiceWire W.NextWire → Snapshot W.SourceWire W.ServiceWire W.NextWire) → Self → Self → Type 0 };

    // what was so since a beginning is so since one with another connection to the service, by this relation, maybe given up
    ghost renews: { (Option W.ServiceWire → Option W.ServiceWire → Type 0) → Self → Self → Type 0 };
}

impl<B: Ledgers, W: Wires> Accounting<W> for Tx<B, OwnEnds<W>> {
    ghost since = { λ s tx. Since W.SourceWire.Wire W.ServiceWire.Wire W.NextWire.Wire s (⟦<Tx<B, OwnEnds<W>> as Standing>⟧.stands tx) tx.ends.source_wire (wire_of tx.ends.service) tx.ends.next_wire };

    ghost took = { λ s tx. Since W.SourceWire.Wire W.ServiceWire.Wire W.NextWire.Wire s (WiresTook tx.ends tx.hold) tx.ends.source_wire (wire_of tx.ends.service) tx.ends.next_wire };
}

impl<B: Ledgers, W: Wires> Lasting<W> for Tx<B, OwnEnds<W>> {
    ghost lasts = { λ after old new. (s : Snapshot W.SourceWire W.ServiceWire W.NextWire) → ⟦<Tx<B, OwnEnds<W>> as Accounting<W>>⟧.since s old → ⟦<Tx<B, OwnEnds<W>> as Accounting<W>>⟧.since (after s) new };

    ghost renews = { λ may old new. (s : Snapshot W.SourceWire W.ServiceWire W.NextWire) → ⟦<Tx<B, OwnEnds<W>> as Accounting<W>>⟧.since s old
        → (line : Option W.ServiceWire) × (given : Option W.ServiceWire) × may s.line line × ⟦<Tx<B, OwnEnds<W>> as Accounting<W>>⟧.since (record s { line = line; given = given }) new };
}

impl<B: Ledgers, W: Wires> Running<B, W> {
    /// One turn of one side, at a moment in seconds.
    pub fn turn(
        &mut self,
        rt: &impl Wait,
        bank: &Bank<B>,
        scratch: &mut Scratch,
        side: Side,
        now: u64,
    ) -> TurnAnswer
        ensures goes { ⟦<Tx<B, OwnEnds<W>> as Going>⟧.goes self.old.tx self.new.tx }
        ensures lasts { ⟦<Tx<B, OwnEnds<W>> as Lasting<W>>⟧.lasts (λ s. s) self.old.tx self.new.tx }
        ensures answers { ⟦<Tx<B, OwnEnds<W>> as Answering>⟧.answers self.old.tx side self.new.tx result }
        ensures keeps { ⟦<Tx<B, OwnEnds<W>> as Answering>⟧.keeps self.old.tx side self.new.tx }
        ensures breaks { result ≡ TurnAnswer.Broken → self.new.tx.pace.broken ≡ true }
        ensures fails { (shows self.old.tx.hold.history).closed ≡ false → (cause : AnyCause) → self.new.tx.outcome ≡ outcomes.Fail cause
            → ⟦<Tx<B, OwnEnds<W>> as Answering>⟧.fails self.old.tx side now self.new.tx cause }
        ensures deadline { (shows self.old.tx.hold.history).closed ≡ false → self.old.tx.pace.last_moved + self.old.tx.pace.deadline ≤ now → self.new.tx.outcome ≡ outcomes.Fail Deadline }
        ensures finishes { (shows self.old.tx.hold.history).closed ≡ true → (self.old.tx.refusing ≡ false) ⊎ ⟦<Tx<B, OwnEnds<W>> as Refusing>⟧.refusal_is_over self.old.tx
            → result ≡ TurnAnswer.Finished self.old.tx.outcome }
    {
        self.tx.turn(rt, bank, scratch, side, now)
    }

    /// Turns in order, each of a side at a moment in seconds.
    pub fn take_turns(
        &mut self,
        rt: &impl Wait,
        bank: &Bank<B>,
        scratch: &mut Scratch,
        turns: &[(Side, u64)],
    )
        ensures goes { ⟦<Tx<B, OwnEnds<W>> as Going>⟧.goes self.old.tx self.new.tx }
        ensures lasts { ⟦<Tx<B, OwnEnds<W>> as Lasting<W>>⟧.lasts (λ s. s) self.old.tx self.new.tx }
        ensures turns { TakesTurns (λ old side now new. (said : AnyAnswer) × ⟦<Tx<B, OwnEnds<W>> as Answering>⟧.answers old side new said
            × ⟦<Tx<B, OwnEnds<W>> as Answering>⟧.keeps old side new
            × ((shows old.hold.history).closed ≡ false → old.pace.last_moved + old.pace.deadline ≤ now → new.outcome ≡ outcomes.Fail Deadline)) self.old.tx turns.now self.new.tx }
    {
        match turns {
            [] => {}
            [turn, later @ ..] => {
                self.turn(rt, bank, scratch, turn.0, turn.1);
                self.take_turns(rt, bank, scratch, later);
            }
        }
    }

    /// Turns by a schedule, each at the moment of the last moved byte.
    pub fn drive(
        &mut self,
        rt: &impl Wait,
        bank: &Bank<B>,
        scratch: &mut Scratch,
        schedule: &[Side],
    )
        ensures goes { ⟦<Tx<B, OwnEnds<W>> as Going>⟧.goes self.old.tx self.new.tx }
        ensures lasts { ⟦<Tx<B, OwnEnds<W>> as Lasting<W>>⟧.lasts (λ s. s) self.old.tx self.new.tx }
    {
        self.tx.drive(rt, bank, scratch, schedule);
    }

    /// Fails it because the proxy stops, where it isn't closed.
    pub fn halt(&mut self, rt: &impl Wait, bank: &Bank<B>)
        ensures goes { ⟦<Tx<B, OwnEnds<W>> as Going>⟧.goes self.old.tx self.new.tx }
        ensures lasts { ⟦<Tx<B, OwnEnds<W>> as Lasting<W>>⟧.lasts (λ s. s) self.old.tx self.new.tx }
        ensures over { (shows self.new.tx.hold.history).closed ≡ true }
        ensures halted { (shows self.old.tx.hold.history).closed ≡ false → self.new.tx.outcome ≡ outcomes.Fail Stopping }
        ensures failed { (shows self.old.tx.hold.history).closed ≡ false → self.new.tx.hold ≡ moved self.old.tx.hold (Fail Stopping) [] }
        ensures still { (shows self.old.tx.hold.history).closed ≡ true → self.new.tx ≡ self.old.tx }
        ensures wires { (self.new.tx.ends.source_wire ≡ self.old.tx.ends.source_wire) × (self.new.tx.ends.next_wire ≡ self.old.tx.ends.next_wire) }
        ensures service { self.new.tx.ends.service ≡ self.old.tx.ends.service }
        ensures source { (self.new.tx.ends.source ≡ self.old.tx.ends.source) × (self.new.tx.ends.maker ≡ self.old.tx.ends.maker) }
    {
        self.tx.halt(rt, bank);
    }

    /// How it ended, once it is closed.
    pub fn outcome(&self) -> Option<Outcome>
        ensures open { (shows self.now.tx.hold.history).closed ≡ false → result ≡ None }
        ensures closed { (shows self.now.tx.hold.history).closed ≡ true → result ≡ Some self.now.tx.outcome }
    {
        self.tx.outcome()
    }

    /// Its history, the body bytes that it holds, and its reservation.
    pub fn hold(&self) -> &Hold<B>
        ensures { result.now ≡ self.now.tx.hold }
    {
        self.tx.hold()
    }

    /// Whether its service answers the request itself: the adapted message goes back to the user.
    pub fn answers_user(&self) -> bool
        ensures { result ≡ answers_user (shows self.now.tx.hold.history) (response_of is_response_of self.now.tx.ends.service) }
    {
        self.tx.answers_user()
    }

    /// The moment of the last moved byte, in seconds.
    pub fn last_moved(&self) -> u64
        ensures { result ≡ self.now.tx.pace.last_moved }
    {
        self.tx.last_moved()
    }

    /// What its history shows.
    pub fn seen(&self) -> Seen
        ensures seen { result ≡ shows self.now.tx.hold.history }
        ensures tied { IsTied self.now.tx.hold }
    {
        self.tx.seen()
    }

    /// Whether a byte of an answer has gone out to the user, of a message or of the proxy's own refusal.
    pub fn has_answered(&self) -> bool
        ensures { result ≡ not (user_untouched self.now.tx.hold.history.plan.point (not self.now.tx.ends.next.touched) (not self.now.tx.ends.back.touched)) }
    {
        self.tx.has_answered()
    }

    /// Whether the service's connection broke before a byte of a reply, and the request may begin anew on a fresh one.
    pub fn is_broken(&self) -> bool
        ensures { result ≡ true ↔ (self.now.tx.pace.broken ≡ true) × MayFollow self.now.tx.hold.history.plan self.now.tx.hold.history.events Retry }
    {
        self.tx.is_broken()
    }

    /// Begins the same request anew on a fresh connection, and gives the broken one back.
    pub fn retry(
        &mut self,
        rt: &impl Wait,
        bank: &Bank<B>,
        wire: W::ServiceWire,
    ) -> Option<W::ServiceWire>
        requires broken { self.old.tx.pace.broken ≡ true }
        requires may { MayFollow self.old.tx.hold.history.plan self.old.tx.hold.history.events Retry }
        ensures hold { self.new.tx.hold ≡ moved self.old.tx.hold Retry [] }
        ensures fresh { IfSome self.new.tx.ends.service (λ line. line.wire ≡ Some wire) }
        ensures back { IfSome self.old.tx.ends.service (λ line. result ≡ line.wire) }
        ensures lasts { ⟦<Tx<B, OwnEnds<W>> as Lasting<W>>⟧.lasts (anew_on (wire_of self.new.tx.ends.service)) self.old.tx self.new.tx }
    {
        // For the proof alone: its state is that of its history.
        let _ = self.tx.seen();
        self.tx.retry(rt, bank, wire)
    }

    /// Takes out the connection that broke, so that it is closed before a fresh one is opened in its place.
    pub fn take_broken(&mut self) -> Option<W::ServiceWire>
        requires broken { self.old.tx.pace.broken ≡ true }
        ensures wire { result ≡ wire_of self.old.tx.ends.service }
        ensures kept { (self.new.tx.hold ≡ self.old.tx.hold) × (self.new.tx.pace ≡ self.old.tx.pace) }
        ensures lasts { ⟦<Tx<B, OwnEnds<W>> as Lasting<W>>⟧.lasts (given_up result) self.old.tx self.new.tx }
    {
        self.tx.take_broken()
    }

    /// Fails it where no fresh connection can be had: by the service's fault, or for what else is the cause of that.
    pub fn fail_unretried(&mut self, rt: &impl Wait, bank: &Bank<B>, cause: Cause)
        requires broken { self.old.tx.pace.broken ≡ true }
        requires may { MayFollow self.old.tx.hold.history.plan self.old.tx.hold.history.events Retry }
        ensures outcome { self.new.tx.outcome ≡ outcomes.Fail cause }
        ensures lasts { ⟦<Tx<B, OwnEnds<W>> as Lasting<W>>⟧.lasts (λ s. s) self.old.tx self.new.tx }
    {
        self.tx.fail_unretried(rt, bank, cause);
    }

    /// Gives up the connection to the service once its exchange is over, and says whether it may carry another request.
    pub fn take_freed(&mut self) -> Option<FreedConnection<W::ServiceWire>>
        ensures over { IfSome result (λ free. MayFree (shows self.old.tx.hold.history)) }
        ensures due { result ≡ None → MayFree (shows self.old.tx.hold.history) → wire_of self.old.tx.ends.service ≡ None }
        ensures wire { IfSome result (λ free. wire_of self.old.tx.ends.service ≡ Some free.wire) }
        ensures reusable { IfSome result (λ free. IfSome self.old.tx.ends.service (λ line. free.is_reusable ≡ is_reusable line.side)) }
        ensures lasts { ⟦<Tx<B, OwnEnds<W>> as Lasting<W>>⟧.lasts (given_up (freed_wire result)) self.old.tx self.new.tx }
    {
        self.tx.take_freed()
    }

    /// The transaction itself, to be taken apart.
    #[inline(always)]
    pub fn into_tx(self) -> Tx<B, OwnEnds<W>>
        ensures { result ≡ self.tx }
    {
        let Running { tx } = self;
        tx
    }
}
