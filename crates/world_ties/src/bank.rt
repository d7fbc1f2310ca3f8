//! The bank's steps are the world's events. Each law is the contract of a function that does nothing.

ghost use Rattle.std.specs.Prelude.{◌≡◌, ◌≤◌, ◌<◌, ◌↔◌, ℕ, Bool, true, false, List, [], ◌∷◌, Option, Some, None};
ghost use Rattle.trace_core.specs.declared.history.Event.{Event};
ghost use Rattle.trace_core.specs.declared.history.Plan.{Plan};
ghost use Rattle.trace_core.specs.declared.history.Event.TheVariants.{In, Ad};
ghost use Rattle.trace_core.specs.Held.{keeps_original};
ghost use Rattle.plan_rules.specs.Claims.{least_claim};
ghost use Rattle.world_core.specs.declared.event.WorldEvent.{WorldEvent};
ghost use Rattle.world_core.specs.declared.event.WorldFault.TheVariants.{NoRoom, TooLow};
ghost use Rattle.world_core.specs.WorldHistory.{Setting, Opened, open_at, was_opened, claimed};
ghost use Rattle.world_core.specs.WorldFaults.{IsLegalWorld, world_fault, shown};
ghost use Rattle.world_core.specs.WorldNeeds.{IsBook};
ghost use Rattle.span_bank.specs.declared.limits.TheConstants.{MAX_CAPACITY};
ghost use Rattle.span_bank.specs.declared.step.BankStep.{BankStep};
ghost use Rattle.span_bank.specs.declared.step.BankStep.TheVariants as bank;
ghost use Rattle.span_bank.specs.declared.step.OpenFault.TheVariants.{Full};
ghost use Rattle.span_bank.specs.Replay.{after, replay};
ghost use Rattle.span_bank.specs.Journal.{Journaled, AreAllowed, slid, rebased, stepped};
ghost use Rattle.span_bank.specs.History.{HasLast};
ghost use Rattle.span_bank.specs.State.{Budget, MaySum, Fits, Refuses, none_open};
ghost use Rattle.world_ties.specs.BankTie.{book, bank_step, bank_steps, IsBankEvent, AreBankEvents, brings, IsQuiet};

/// If the bank has the world's totals, an event that the world takes leaves it with the world's totals: by the one
/// step that the event is, or unchanged if the event isn't a step. This holds for both forms of the bank's journal.
pub fn bank_steps_with_the_world()
    ensures step { (w : Setting) (before : List WorldEvent) (event : WorldEvent) (step : BankStep) → IsLegalWorld w (event ∷ before)
        → bank_step before event ≡ Some step → after (book w before) step ≡ book w (event ∷ before) }
    ensures none { (w : Setting) (before : List WorldEvent) (event : WorldEvent) → IsLegalWorld w (event ∷ before)
        → bank_step before event ≡ None → book w before ≡ book w (event ∷ before) }
    ensures journals { (w : Setting) (before : List WorldEvent) (event : WorldEvent) (step : BankStep) (j : Journaled)
        → IsLegalWorld w (event ∷ before) → bank_step before event ≡ Some step → j.numbers ≡ book w before
        → ((stepped slid j step).numbers ≡ book w (event ∷ before)) × ((stepped rebased j step).numbers ≡ book w (event ∷ before)) }
{}

/// The bank takes the step of each event that the world takes: its sums allow it, and it fits, where a claim has a
/// byte and a free row, and a capacity is one that a bank may have.
pub fn bank_takes_what_the_world_takes()
    ensures sums { (w : Setting) (before : List WorldEvent) (event : WorldEvent) (step : BankStep) → IsLegalWorld w (event ∷ before)
        → IsBankEvent event → bank_step before event ≡ Some step → MaySum (book w before) step }
    ensures fits { (w : Setting) (before : List WorldEvent) (event : WorldEvent) (step : BankStep) (v : Budget) → IsLegalWorld w (event ∷ before)
        → bank_step before event ≡ Some step → v.journal.numbers ≡ book w before → v.journal.numbers.rows < v.most_rows → Fits v step }
{}

/// Want of room is one condition: the bank answers `Full` to a reservation, with the sum of the claims, exactly where
/// the world has `NoRoom` for a new transaction whose claim has room for its preview; and its sums allow a capacity
/// exactly where the world's aren't above it.
pub fn bank_refuses_where_the_world_does()
    ensures full { (w : Setting) (before : List WorldEvent) (t claim sum : ℕ) (plan : Plan) (v : Budget)
        → v.journal.numbers ≡ book w before → was_opened t before ≡ false → least_claim plan ≤ claim
        → (((world_fault w before (WorldEvent.Open t plan claim) ≡ Some NoRoom) × (sum ≡ claimed before))
        ↔ Refuses v (bank.Open claim) (Full sum)) }
    ensures low { (w : Setting) (before : List WorldEvent) (n : ℕ) → 1 ≤ n → n ≤ MAX_CAPACITY
        → ((world_fault w before (WorldEvent.Capacity n) ≡ None) ↔ MaySum (book w before) (bank.Capacity n)) }
    ensures too_low { (w : Setting) (before : List WorldEvent) (n : ℕ)
        → ((world_fault w before (WorldEvent.Capacity n) ≡ Some TooLow) ↔ (n < (book w before).claimed)) }
{}

/// From a bank with no reservation, the steps of a world's history replay to the world's totals, whatever the order in
/// which the transactions' events came; each is allowed where it stands; and a journal that took them all has those
/// totals.
pub fn bank_replays_the_world()
    ensures totals { (w : Setting) (events : List WorldEvent) → IsLegalWorld w events
        → replay (none_open w.capacity) (bank_steps events) ≡ book w events }
    ensures allowed { (w : Setting) (events : List WorldEvent) → IsLegalWorld w events → AreBankEvents events
        → AreAllowed (none_open w.capacity) (bank_steps events) }
    ensures journals { (w : Setting) (events : List WorldEvent) (j : Journaled) → IsLegalWorld w events
        → HasLast (none_open w.capacity) (bank_steps events) j → j.numbers ≡ book w events }
{}

/// The bytes that the bank holds are the book of the world: those that some continuation still sends.
pub fn bank_holds_the_book()
    ensures { (w : Setting) (events : List WorldEvent) (n : ℕ) → IsLegalWorld w events → IsBook w events n
        → (book w events).held ≡ n }
{}

/// Which events of a message are steps: bytes that arrive and are kept are a `Grow` by their number. Original bytes
/// that arrive once the original is kept no more, an end, a last chunk, the first byte of a response, a 204, a retry and
/// `Done` aren't steps. Every other event is a `Shrink`, or isn't a step.
pub fn events_are_their_steps()
    ensures grows { (w : Setting) (before : List WorldEvent) (t n : ℕ) (event : Event) (o : Opened)
        → IsLegalWorld w (WorldEvent.Of t event ∷ before) → open_at t before ≡ Some o → brings o event ≡ n → 1 ≤ n
        → bank_step before (WorldEvent.Of t event) ≡ Some (bank.Grow n) }
    ensures only { (w : Setting) (before : List WorldEvent) (t n : ℕ) (event : Event) (o : Opened)
        → IsLegalWorld w (WorldEvent.Of t event ∷ before) → open_at t before ≡ Some o
        → bank_step before (WorldEvent.Of t event) ≡ Some (bank.Grow n) → brings o event ≡ n }
    ensures quiet { (w : Setting) (before : List WorldEvent) (t : ℕ) (event : Event)
        → IsLegalWorld w (WorldEvent.Of t event ∷ before) → IsQuiet event
        → bank_step before (WorldEvent.Of t event) ≡ None }
    ensures dropped { (w : Setting) (before : List WorldEvent) (t n : ℕ) (o : Opened)
        → IsLegalWorld w (WorldEvent.Of t (In n) ∷ before) → open_at t before ≡ Some o → keeps_original (shown o) ≡ false
        → bank_step before (WorldEvent.Of t (In n)) ≡ None }
{}
