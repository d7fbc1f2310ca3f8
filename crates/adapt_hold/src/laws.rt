//! What a step of a hold means for the bytes.

ghost use Rattle.std.specs.Prelude.{◌≡◌, ◌≤◌, ◌<◌, ◌+◌, ◌++◌, ℕ, List, [], true};
ghost use Rattle.trace_core.specs.declared.history.Event.{Event};
ghost use Rattle.trace_core.specs.Legal.{MayFollow};
ghost use Rattle.trace_core.specs.declared.history.Event.TheVariants.{Svc, Usr, In, Ad};
ghost use Rattle.trace_core.specs.Faults.{chooses_original};
ghost use Rattle.trace_core.specs.Held.{held_places};
ghost use Rattle.adapt_hold.specs.Holding.{shows_then, original_in, adapted_in};
ghost use Rattle.plan_rules.specs.Room.{original_room, adapted_room};
ghost use Rattle.adapt_hold.specs.Spans.{span_end, EndsBody};
ghost use Rattle.adapt_hold.specs.Holding.{Holding, IsTied, shows, moved, byte_at, IsRoomy, BringsNone, Carries};

/// Bytes at places that stay don't change.
pub fn bytes_that_stay_are_the_same()
    ensures original { (h : Holding) (event : Event) (bytes : List ℕ) (place : ℕ)
        → IsTied h → MayFollow h.history.plan h.history.events event
        → (moved h event bytes).original.base ≤ place → place < span_end h.original
        → byte_at (moved h event bytes).original place ≡ byte_at h.original place }
    ensures adapted { (h : Holding) (event : Event) (bytes : List ℕ) (place : ℕ)
        → IsTied h → MayFollow h.history.plan h.history.events event
        → (moved h event bytes).adapted.base ≤ place → place < span_end h.adapted
        → byte_at (moved h event bytes).adapted place ≡ byte_at h.adapted place }
{}

/// A tape that has the places of a body from its base on still has them after a step, of the body with what the step brought.
pub fn tapes_follow_their_bodies()
    ensures original { (h : Holding) (event : Event) (bytes body : List ℕ)
        → IsTied h → MayFollow h.history.plan h.history.events event → Carries event bytes
        → EndsBody h.original body → EndsBody (moved h event bytes).original (body ++ original_in event bytes) }
    ensures adapted { (h : Holding) (event : Event) (bytes body : List ℕ)
        → IsTied h → MayFollow h.history.plan h.history.events event → Carries event bytes
        → EndsBody h.adapted body → EndsBody (moved h event bytes).adapted (body ++ adapted_in event bytes) }
{}

/// All bytes that may be sent are on their tape.
pub fn what_may_be_sent_is_on_its_tape()
    ensures service { (h : Holding) (n : ℕ) → IsTied h → MayFollow h.history.plan h.history.events (Svc n)
        → (h.original.base ≤ (shows h.history).sent) × ((shows h.history).sent + n ≤ span_end h.original) }
    ensures original { (h : Holding) (n : ℕ) → IsTied h → MayFollow h.history.plan h.history.events (Usr n)
        → chooses_original (shows h.history) ≡ true
        → (h.original.base ≡ (shows h.history).original_delivered) × ((shows h.history).original_delivered + n ≤ span_end h.original) }
    ensures adapted { (h : Holding) (n : ℕ) → IsTied h → MayFollow h.history.plan h.history.events (Usr n)
        → (shows h.history).modified ≡ true
        → (h.adapted.base ≡ (shows h.history).adapted_delivered) × ((shows h.history).adapted_delivered + n ≤ span_end h.adapted) }
{}

/// A hold has room as long as no turn takes more than it has: a window stays free for the adapted body.
pub fn room_stays()
    ensures begins { (h : Holding) → IsTied h → h.held ≡ 0 → h.limits.window ≤ h.claim → IsRoomy h }
    ensures original { (h : Holding) (n : ℕ) (bytes : List ℕ) → IsTied h → IsRoomy h → MayFollow h.history.plan h.history.events (In n)
        → n ≤ original_room (shows h.history) h.claim h.limits.window h.limits.turn → (held_places (shows_then h.history (In n)) ≤ h.claim) × IsRoomy (moved h (In n) bytes) }
    ensures adapted { (h : Holding) (n : ℕ) (bytes : List ℕ) → IsTied h → IsRoomy h → MayFollow h.history.plan h.history.events (Ad n)
        → n ≤ adapted_room (shows h.history) h.limits.window h.limits.turn → (held_places (shows_then h.history (Ad n)) ≤ h.claim) × IsRoomy (moved h (Ad n) bytes) }
    ensures others { (h : Holding) (event : Event) → IsTied h → IsRoomy h → MayFollow h.history.plan h.history.events event
        → BringsNone event → IsRoomy (moved h event []) }
{}
