//! A transaction's history, the body bytes that it holds, and its reservation, kept in step.

ghost use Rattle.std.specs.Prelude.{◌≡◌, ◌+◌, ◌-◌, ◌≤◌, ◌<◌, ℕ, List, [], ◌∷◌, ◌++◌, length, Some, None, true, false, OnOk, OnErr, MatchResult};
ghost use Rattle.span_bank.specs.declared.limits.TheConstants.{MAX_CAPACITY};
ghost use Rattle.trace_core.specs.Legal.{MayFollow};
ghost use Rattle.trace_core.specs.Faults.{first_fault};
ghost use Rattle.trace_core.specs.Held.{keeps_original, held_places};
ghost use Rattle.plan_rules.specs.Claims.{claim_of, is_reply};
ghost use Rattle.plan_rules.specs.Room.{claim_then};
ghost use Rattle.adapt_hold.specs.Spans.{span_of, span_end, span_from};
ghost use Rattle.adapt_hold.specs.Holding.{shows, history_then};

use crate::store::Store;
use plan_rules::{Limits, adapted_room, claim_after, original_room};
use span_bank::{Bank, Ledgers, Stake};
use span_tape::SpanTape;
use std::marker::Model;
use std::sync::Wait;
use trace_core::{Event, Plan, State, StepFault};

/// The core of a transaction: its history, its tapes, which are the held intervals, and its reservation, which is charged with
/// just their bytes and has just their pages.
///
/// ```
/// let plan = Plan::new(Kind::Whole, true, false, None, Point::Reqmod)?;
/// let limits = Limits::new(0, 0, 4096, false)?;
/// let stake = bank.open(rt, claim(&plan, &limits))?;
/// let mut hold = Hold::new(plan, limits, stake);
/// step_one(rt, &bank, &mut hold, Event::In(5), b"hello");
/// // The service may still answer 204, so the bytes are held.
/// assert_eq!(rt; (hold.original().base(), hold.original().end()), (0, 5));
/// fail(rt, &bank, &mut hold, Cause::Stopping);
/// bank.close(rt, hold.into_stake(), Pages::none());
/// ```
#[must_use]
pub struct Hold<B: Ledgers> {
    state: State,
    limits: Limits,
    store: Store<B>,
}

impl<B: Ledgers> Model for Hold<B> {
    ghost use Rattle.adapt_hold.specs.Holding.{Holding, IsTied};

    ghost Value = { Holding };

    ghost view = { λ h. record { history = h.state; limits = h.limits; original = h.store.original; adapted = h.store.adapted; held = h.store.held; claim = h.store.claim } };

    ghost invariant = { λ h. IsTied (record { history = h.state; limits = h.limits; original = h.store.original; adapted = h.store.adapted; held = h.store.held; claim = h.store.claim }) };
}

/// Whether a claim may fall at an event.
fn is_reply(event: Event) -> bool
    ensures { result ≡ is_reply event }
{
    matches!(event, Event::Continue | Event::NoMod | Event::Mod(_))
}

/// Takes an event that nothing refuses.
fn take(state: &mut State, event: Event)
    requires { first_fault (shows state.old) event ≡ None }
    ensures may { MayFollow state.old.plan state.old.events event }
    ensures taken { state.new ≡ history_then state.old event }
{
    if state.step(event).is_err() {
        unreachable!()
    }
}

/// Takes an event that may follow; else answers the first reason, and changes nothing.
fn step(state: &mut State, event: Event) -> Result<(), StepFault>
    ensures stepped { MatchResult result
        (λ _. MayFollow state.old.plan state.old.events event × (state.new ≡ history_then state.old event))
        (λ fault. (first_fault (shows state.old) event ≡ Some fault) × (state.new ≡ state.old)) }
{
    state.step(event)
}

/// Lowers a reservation at a reply to what may still be needed.
fn lower_claim<B: Ledgers>(
    rt: &impl Wait,
    bank: &Bank<B>,
    store: &mut Store<B>,
    state: &State,
    limits: &Limits,
    event: Event,
)
    requires { store.old.held ≤ claim_then (shows state.now) event store.old.claim limits.now.window }
    ensures { store.new ≡ record store.old { claim = claim_then (shows state.now) event store.old.claim limits.now.window } }
{
    if is_reply(event) {
        let claim = claim_after(state, store.claim(), limits);
        store.reclaim(rt, bank, claim);
    }
}

impl<B: Ledgers> Hold<B> {
    ghost use Rattle.adapt_hold.specs.Holding.{Holding, IsTied, IsIn, Brings, BringsNone, Took, shows_then};
    ghost use Rattle.plan_rules.specs.Room.{original_room, adapted_room};

    /// A transaction before its first event, with its whole reservation free.
    pub fn new(plan: Plan, limits: Limits, stake: Stake<B>) -> Hold<B>
        requires empty { (stake.held ≡ 0) × (stake.pages ≡ 0) }
        requires claim { stake.claim ≡ claim_of plan limits.window }
        requires small { stake.claim ≤ MAX_CAPACITY }
        ensures { result ≡ record { history = record { plan = plan; events = [] }; limits = limits; original = record { base = 0; bytes = [] }; adapted = record { base = 0; bytes = [] }; held = 0; claim = claim_of plan limits.window } }
    {
        Hold {
            state: State::begin(plan),
            limits,
            store: Store::new(stake),
        }
    }

    /// What happened so far.
    pub fn state(&self) -> &State
        ensures state { result.now ≡ self.now.history }
        ensures tied { IsTied self.now }
    {
        &self.state
    }

    /// The original's bytes that are held.
    pub fn original(&self) -> &SpanTape
        ensures tape { span_of result.now ≡ self.now.original }
        ensures tied { IsTied self.now }
    {
        self.store.original()
    }

    /// The adapted body's bytes that are held.
    pub fn adapted(&self) -> &SpanTape
        ensures tape { span_of result.now ≡ self.now.adapted }
        ensures tied { IsTied self.now }
    {
        self.store.adapted()
    }

    /// The size of the reservation.
    pub fn claim(&self) -> u64
        ensures { result ≡ self.now.claim }
    {
        self.store.claim()
    }

    /// How many original bytes may come in one turn: at most a turn's bytes, and within the claim, beside a window for the
    /// adapted body where one may come. Bytes that are dropped need no room.
    pub fn original_room(&self) -> u64
        ensures room { result ≡ original_room (shows self.now.history) self.now.claim self.now.limits.window self.now.limits.turn }
        ensures tied { IsTied self.now }
    {
        original_room(&self.state, self.store.claim(), &self.limits)
    }

    /// How many adapted bytes may come in one turn: at most a turn's bytes, and within what the window leaves.
    pub fn adapted_room(&self) -> u64
        ensures room { result ≡ adapted_room (shows self.now.history) self.now.limits.window self.now.limits.turn }
        ensures tied { IsTied self.now }
    {
        adapted_room(&self.state, &self.limits)
    }

    /// Takes In or Ad with its bytes, which are kept. Original bytes are dropped once an adapted message came and the service
    /// needs none of them any more. A refusal is the first fault that stands, and changes nothing. It takes no memory: pages
    /// come from the bank.
    pub fn put_in(
        &mut self,
        rt: &impl Wait,
        bank: &Bank<B>,
        event: Event,
        bytes: &[u8],
    ) -> Result<(), StepFault>
        requires brings { Brings event bytes.now }
        requires room { MayFollow self.old.history.plan self.old.history.events event → held_places (shows_then self.old.history event) ≤ self.old.claim }
        ensures { MatchResult result
            (λ _. Took self.old event bytes.now self.new)
            (λ fault. (first_fault (shows self.old.history) event ≡ Some fault) × (self.new ≡ self.old)) }
    {
        if let Some(fault) = self.state.fault(event) {
            return Err(fault);
        }
        match event {
            Event::Ad(_) => {
                self.keep_adapted(rt, bank, event, bytes);
                Ok(())
            }
            _ if self.state.keeps_original() => {
                self.keep_original(rt, bank, event, bytes);
                Ok(())
            }
            _ => {
                self.drop_original(event);
                Ok(())
            }
        }
    }

    /// Takes an Ad, and keeps its bytes.
    fn keep_adapted(&mut self, rt: &impl Wait, bank: &Bank<B>, event: Event, bytes: &[u8])
        requires event { event ≡ Event.Ad (length bytes.now) }
        requires free { first_fault (shows self.old.history) event ≡ None }
        requires room { MayFollow self.old.history.plan self.old.history.events event → held_places (shows_then self.old.history event) ≤ self.old.claim }
        ensures { Took self.old event bytes.now self.new }
    {
        take(&mut self.state, event);
        self.store.keep_adapted(rt, bank, bytes);
    }

    /// Takes an In, and keeps its bytes.
    fn keep_original(&mut self, rt: &impl Wait, bank: &Bank<B>, event: Event, bytes: &[u8])
        requires event { event ≡ Event.In (length bytes.now) }
        requires free { first_fault (shows self.old.history) event ≡ None }
        requires keeps { keeps_original (shows self.old.history) ≡ true }
        requires room { MayFollow self.old.history.plan self.old.history.events event → held_places (shows_then self.old.history event) ≤ self.old.claim }
        ensures { Took self.old event bytes.now self.new }
    {
        take(&mut self.state, event);
        self.store.keep_original(rt, bank, bytes);
    }

    /// Takes an In, and drops its bytes: the place of the next is all that is left of them.
    fn drop_original(&mut self, event: Event)
        requires event { IsIn event }
        requires free { first_fault (shows self.old.history) event ≡ None }
        requires keeps { keeps_original (shows self.old.history) ≡ false }
        ensures { (bytes : List ℕ) → Brings event bytes → Took self.old event bytes self.new }
    {
        take(&mut self.state, event);
        self.store.skip_original(self.state.held_original().1);
    }

    /// Takes any event but In and Ad: what is no more needed is let go, and at a reply the reservation falls. A refusal is the first
    /// fault that stands, and changes nothing.
    pub fn move_on(&mut self, rt: &impl Wait, bank: &Bank<B>, event: Event) -> Result<(), StepFault>
        requires { BringsNone event }
        ensures { MatchResult result
            (λ _. Took self.old event [] self.new)
            (λ fault. (first_fault (shows self.old.history) event ≡ Some fault) × (self.new ≡ self.old)) }
    {
        step(&mut self.state, event)?;
        let original = self.state.held_original().0;
        let adapted = self.state.held_adapted().0;
        self.store.drop_to(rt, bank, original, adapted);
        lower_claim(rt, bank, &mut self.store, &self.state, &self.limits, event);
        Ok(())
    }

    /// The reservation of a closed transaction, which holds nothing and has no page.
    #[inline(always)]
    pub fn into_stake(self) -> Stake<B>
        requires { (shows self.history).closed ≡ true }
        ensures { result ≡ record { held = 0; claim = self.claim; pages = 0 } }
    {
        let Hold {
            state: _,
            limits: _,
            store,
        } = self;
        store.into_stake()
    }
}
