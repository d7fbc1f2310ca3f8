//! A pool's steps are the world's events. Each law is the contract of a function that does nothing.

ghost use Rattle.std.specs.Prelude.{◌≡◌, ◌≤◌, ◌<◌, ◌↔◌, ℕ, true, List, [], ◌∷◌, Option, Some, None, slice_get};
ghost use Rattle.trace_core.specs.declared.history.Event.TheVariants.{Retry};
ghost use Rattle.trace_core.specs.Faults.{first_fault};
ghost use Rattle.world_core.specs.declared.event.WorldEvent.{WorldEvent};
ghost use Rattle.world_core.specs.declared.event.WorldFault.TheVariants.{PoolFull};
ghost use Rattle.world_core.specs.WorldHistory.{Setting, Opened, open_at, lease_of, is_reused, pool_of};
ghost use Rattle.world_core.specs.WorldHistory as world;
ghost use Rattle.world_core.specs.WorldFaults.{IsLegalWorld, world_fault, shown};
ghost use Rattle.service_pool.specs.declared.step.PoolStep.{PoolStep};
ghost use Rattle.service_pool.specs.Replay.{after, replay, open_count};
ghost use Rattle.service_pool.specs.Journal.{Journaled, IsAllowed, AreAllowed, slid, rebased, stepped};
ghost use Rattle.service_pool.specs.History.{HasLast};
ghost use Rattle.service_pool.specs.Pooled.{Pooled, IsKept, IsBusy, none_open};
ghost use Rattle.world_ties.specs.PoolTie.{numbers_of, pool_step, pool_steps, IsPoolEvent, ArePoolEvents};

/// If a service's pool has the world's numbers, an event that the world takes leaves it with the world's numbers: by
/// the one step that the event is for it, or unchanged if the event isn't a step. This holds for both forms of its
/// journal.
pub fn pool_steps_with_the_world()
    ensures step { (w : Setting) (before : List WorldEvent) (event : WorldEvent) (step : PoolStep) (s : ℕ) (p q : world.Numbers)
        → IsLegalWorld w (event ∷ before) → pool_of w.maxima s before ≡ Some p → pool_of w.maxima s (event ∷ before) ≡ Some q
        → pool_step s before event ≡ Some step → after (numbers_of p) step ≡ numbers_of q }
    ensures none { (w : Setting) (before : List WorldEvent) (event : WorldEvent) (s : ℕ) (p q : world.Numbers)
        → IsLegalWorld w (event ∷ before) → pool_of w.maxima s before ≡ Some p → pool_of w.maxima s (event ∷ before) ≡ Some q
        → pool_step s before event ≡ None → numbers_of p ≡ numbers_of q }
    ensures journals { (w : Setting) (before : List WorldEvent) (event : WorldEvent) (step : PoolStep) (s : ℕ) (p q : world.Numbers) (j : Journaled)
        → IsLegalWorld w (event ∷ before) → pool_of w.maxima s before ≡ Some p → pool_of w.maxima s (event ∷ before) ≡ Some q
        → pool_step s before event ≡ Some step → j.numbers ≡ numbers_of p
        → ((stepped slid j step).numbers ≡ numbers_of q) × ((stepped rebased j step).numbers ≡ numbers_of q) }
{}

/// The pool takes the step of each event that the world takes, where a maximum is one that a pool may have.
pub fn pool_takes_what_the_world_takes()
    ensures { (w : Setting) (before : List WorldEvent) (event : WorldEvent) (step : PoolStep) (s : ℕ) (p : world.Numbers)
        → IsLegalWorld w (event ∷ before) → IsPoolEvent event → pool_of w.maxima s before ≡ Some p
        → pool_step s before event ≡ Some step → IsAllowed (numbers_of p) step }
{}

/// Want of connections is one condition: a take is `Busy` exactly where the world answers `PoolFull` to a lease of a
/// transaction that has no connection; and a fresh connection in a broken one's place is `Over` exactly where the world
/// answers `PoolFull` to a retry that the message and its connection allow.
pub fn pool_refuses_where_the_world_does<C>()
    ensures busy { (w : Setting) (before : List WorldEvent) (t s : ℕ) (p : world.Numbers) (pool : Pooled C)
        → pool_of w.maxima s before ≡ Some p → lease_of t before ≡ None → IsKept pool → pool.journal.numbers ≡ numbers_of p
        → ((world_fault w before (WorldEvent.Lease t s) ≡ Some PoolFull) ↔ IsBusy pool) }
    ensures over { (w : Setting) (before : List WorldEvent) (t s : ℕ) (o : Opened) (p : world.Numbers)
        → open_at t before ≡ Some o → first_fault (shown o) Retry ≡ None → lease_of t before ≡ Some s
        → is_reused w.maxima t before ≡ true → pool_of w.maxima s before ≡ Some p
        → ((world_fault w before (WorldEvent.Of t Retry) ≡ Some PoolFull) ↔ ((numbers_of p).maximum < open_count (numbers_of p))) }
{}

/// From a pool with no connection, the steps of a world's history for its service replay to the world's numbers; each is
/// allowed where it stands; and a journal that took them all has those numbers.
pub fn pool_replays_the_world()
    ensures numbers { (w : Setting) (events : List WorldEvent) (s most : ℕ) (p : world.Numbers) → IsLegalWorld w events
        → slice_get w.maxima s ≡ Some most → pool_of w.maxima s events ≡ Some p
        → replay (none_open most) (pool_steps s events) ≡ numbers_of p }
    ensures allowed { (w : Setting) (events : List WorldEvent) (s most : ℕ) → IsLegalWorld w events → ArePoolEvents events
        → slice_get w.maxima s ≡ Some most → AreAllowed (none_open most) (pool_steps s events) }
    ensures journals { (w : Setting) (events : List WorldEvent) (s most : ℕ) (p : world.Numbers) (j : Journaled) → IsLegalWorld w events
        → slice_get w.maxima s ≡ Some most → pool_of w.maxima s events ≡ Some p
        → HasLast (none_open most) (pool_steps s events) j → j.numbers ≡ numbers_of p }
{}
