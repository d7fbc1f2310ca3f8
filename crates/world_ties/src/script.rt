//! A held byte's script needs no other thread. Each law is the contract of a function that does nothing.

ghost use Rattle.std.specs.Prelude.{◌≡◌, ◌≤◌, ℕ, List, ◌++◌, false, Some, None, length};
ghost use Rattle.trace_core.specs.declared.history.Plan.{Plan};
ghost use Rattle.trace_core.specs.declared.history.Event.{Event};
ghost use Rattle.trace_core.specs.History.{is_retry};
ghost use Rattle.trace_core.specs.declared.tape.Tape.{Tape};
ghost use Rattle.trace_core.specs.Held.{IsIn, held_on};
ghost use Rattle.need_witness.specs.Table.{script_of};
ghost use Rattle.plan_rules.specs.declared.limits.Limits.{Limits};
ghost use Rattle.adapt_hold.specs.Holding.{Holding, IsTied, Took, shows, byte_at};
ghost use Rattle.adapt_hold.specs.Steps.{brought_all};
ghost use Rattle.world_core.specs.declared.event.WorldEvent.{WorldEvent};
ghost use Rattle.world_core.specs.WorldHistory.{Setting, Opened, open_at};
ghost use Rattle.world_core.specs.WorldFaults.{IsLegalWorld, world_fault, shown};
ghost use Rattle.world_ties.specs.Alone.{IsWide, IsReached, RunsAlone, SendsByte, new_holding, tape_of};
ghost use Rattle.world_ties.specs.Amid.{AreOfOthers, IsOfItself, GoesOnAmid};
ghost use Rattle.world_ties.specs.PoolTie.{pool_step};

/// A transaction takes each event of a held byte's script by `put_in` or `move_on`, whatever body bytes the source brings
/// and whatever the locks hold: these calls ask for nothing that another transaction has, and each step of the bank is one
/// that its totals allow, whatever they are, if they count the reservation. The last event sends the byte that is held now.
pub fn a_script_needs_no_other_thread()
    ensures alone { (h : Holding) (tape : Tape) (place : ℕ) (bytes : List ℕ) → IsTied h → IsWide h
        → IsIn (held_on tape (shows h.history)) place → brought_all (script_of tape (shows h.history) place) ≤ length bytes
        → RunsAlone h (script_of tape (shows h.history) place) bytes }
    ensures sends { (h : Holding) (tape : Tape) (place : ℕ) (bytes : List ℕ) → IsTied h → IsWide h
        → IsIn (held_on tape (shows h.history)) place → brought_all (script_of tape (shows h.history) place) ≤ length bytes
        → SendsByte tape place (byte_at (tape_of tape h) place) h (script_of tape (shows h.history) place) bytes }
{}

/// The reservation has room for a preview from the beginning on, and each event that `put_in` or `move_on` takes leaves it
/// that room. So it is with every holding that these calls make of a new one.
pub fn a_preview_keeps_its_room()
    ensures begins { (plan : Plan) (limits : Limits) → IsWide (new_holding plan limits) }
    ensures stays { (old new : Holding) (event : Event) (bytes : List ℕ) → IsTied old → IsWide old → Took old event bytes new
        → IsWide new }
    ensures reached { (plan : Plan) (limits : Limits) (taken : List (Event × List ℕ)) (h : Holding)
        → IsReached plan limits taken h → IsTied h × IsWide h }
{}

/// What others do between a transaction's events changes the answer to none of them, but for a lease, its beginning and a
/// retry; of these a script has none. So each event of a held byte's script is taken, whatever others do before it. No event
/// of a message but a retry is a step of a pool.
pub fn no_other_transaction_hinders_a_script()
    ensures fault { (w : Setting) (before others : List WorldEvent) (t : ℕ) (event : WorldEvent) → AreOfOthers t others
        → IsOfItself t event → world_fault w (others ++ before) event ≡ world_fault w before event }
    ensures amid { (w : Setting) (before : List WorldEvent) (tape : Tape) (t place : ℕ) (o : Opened) → IsLegalWorld w before
        → open_at t before ≡ Some o → IsIn (held_on tape (shown o)) place
        → GoesOnAmid w t before (script_of tape (shown o) place) }
    ensures pools { (before : List WorldEvent) (s t : ℕ) (event : Event) → is_retry event ≡ false
        → pool_step s before (WorldEvent.Of t event) ≡ None }
{}
