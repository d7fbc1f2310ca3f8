//! What holds of every list of steps of a pool, and so of every history.
ghost use Rattle.std.specs.Prelude.{◌≡◌, ℕ, ◌+◌, ◌≤◌, ◌<◌, List, [], ◌∷◌, ◌++◌, count_by};
ghost use Rattle.circular_buffer.specs.Buffer.{keep_last};
ghost use Rattle.service_pool.specs.declared.step.Numbers.{Numbers};
ghost use Rattle.service_pool.specs.declared.step.PoolStep.{PoolStep};
ghost use Rattle.service_pool.specs.History.{is_take, is_return, is_limit, HasLast};
ghost use Rattle.service_pool.specs.Replay.{open_count, replay};
ghost use Rattle.service_pool.specs.Journal.{IsWithin, AreAllowed, Journaled, IsSound, opening, rebased, slid, run};

/// At every moment at most the maximum are open, or no connection is idle.
pub fn at_most_the_maximum_or_none_idle()
    ensures lists { (base : Numbers) (steps : List PoolStep)
        → IsWithin base → AreAllowed base steps → IsWithin (replay base steps) }
    ensures states { (j : Journaled) → IsSound j → IsWithin j.numbers }
{}

/// More connections are open only after a take that finds none idle, and only where fewer than the
/// maximum were open. One that is opened in place of a broken one, which closes first, is opened
/// only where at most the maximum were open.
pub fn opened_only_below_the_maximum()
    ensures by_a_take { (base : Numbers) (earlier later : List PoolStep) (step : PoolStep)
        → AreAllowed base (earlier ++ step ∷ later)
        → open_count (replay base earlier) < open_count (replay base (earlier ++ step ∷ []))
        → (step ≡ PoolStep.Take) × ((replay base earlier).idle ≡ 0) }
    ensures below { (base : Numbers) (earlier later : List PoolStep) (step : PoolStep)
        → AreAllowed base (earlier ++ step ∷ later)
        → open_count (replay base earlier) < open_count (replay base (earlier ++ step ∷ []))
        → open_count (replay base earlier) < (replay base earlier).maximum }
    ensures states { (j : Journaled) (earlier later : List PoolStep) (step : PoolStep)
        → IsSound j → j.steps ≡ earlier ++ step ∷ later
        → open_count (replay j.base earlier) < open_count (replay j.base (earlier ++ step ∷ []))
        → (step ≡ PoolStep.Take) × ((replay j.base earlier).idle ≡ 0)
        × (open_count (replay j.base earlier) < (replay j.base earlier).maximum) }
    ensures replaced { (base : Numbers) (earlier later : List PoolStep)
        → AreAllowed base (earlier ++ PoolStep.Replace ∷ later)
        → (1 ≤ (replay base earlier).leased)
        × (open_count (replay base earlier) ≤ (replay base earlier).maximum) }
{}

/// The leased number is that of the takes less that of the connections put back or given up.
pub fn leased_is_taken_less_returned()
    ensures lists { (base : Numbers) (steps : List PoolStep) → AreAllowed base steps
        → (replay base steps).leased + count_by is_return steps
        ≡ base.leased + count_by is_take steps }
    ensures states { (j : Journaled) → IsSound j
        → j.numbers.leased + count_by is_return j.steps
        ≡ j.base.leased + count_by is_take j.steps }
{}

/// The maximum is the one that was set last.
pub fn maximum_is_the_last_one_set()
    ensures { (base : Numbers) (earlier later : List PoolStep) (maximum : ℕ)
        → count_by is_limit later ≡ 0
        → (replay base (earlier ++ PoolStep.Limit maximum ∷ later)).maximum ≡ maximum }
{}

/// A log that is cut in two replays as the whole does: its second part from the numbers after its
/// first.
pub fn parts_replay_as_the_whole()
    ensures { (base : Numbers) (first second : List PoolStep)
        → replay base (first ++ second) ≡ replay (replay base first) second }
{}

/// However often a full journal made room, it has the most recent of all steps ever taken, its base
/// is what the earlier ones replay to, and the numbers are what all of them replay to.
pub fn journals_forget_nothing()
    ensures windows { (start : Journaled) (steps : List PoolStep)
        → start.base ≡ start.numbers → start.steps ≡ []
        → HasLast start.numbers steps (run slid start steps) }
    ensures rebasing { (start : Journaled) (steps : List PoolStep)
        → start.base ≡ start.numbers → start.steps ≡ []
        → HasLast start.numbers steps (run rebased start steps) }
{}

/// A window holds the most recent steps: as many as it has room for, or all that were taken.
pub fn windows_hold_the_last_steps()
    ensures { (base : Numbers) (room : ℕ) (steps : List PoolStep) → 0 < room
        → (run slid (opening base room) steps).steps ≡ keep_last room steps }
{}
