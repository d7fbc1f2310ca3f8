//! What holds of every legal log, the newest event first. Each law is the contract of a function that does nothing.

ghost use Rattle.std.specs.Prelude.{◌≡◌, ◌≤◌, ◌+◌, ◌*◌, ◌↔◌, ◌||◌, Bool, true, false, List, ◌∷◌, ◌++◌, length};
ghost use Rattle.exchange_core.specs.declared.event.RefusalCause.{RefusalCause};
ghost use Rattle.exchange_core.specs.declared.event.RefusalCause.TheVariants.{Deadline};
ghost use Rattle.exchange_core.specs.declared.event.Event.{Event};
ghost use Rattle.exchange_core.specs.declared.event.Event.TheVariants.{RequestRead, ResponseRead, Told, Dialed, Started, Begun, Withdrawn, Answered, Failed, Returned, HungUp, UserLost, Late, Drain, Stop};
ghost use Rattle.exchange_core.specs.declared.state.CourseState.{CourseState};
ghost use Rattle.exchange_core.specs.declared.phase.Phase.TheVariants.{Refusing, Closing, Gone};
ghost use Rattle.exchange_core.specs.declared.due.Due.TheVariants.{Nothing};
ghost use Rattle.exchange_core.specs.Course.{after, is_leased, is_ready, is_offered, point_of};
ghost use Rattle.exchange_core.specs.May.{may_come, is_in_queue, is_moving, is_withdrawing, is_refusing, is_gone, is_free, is_request, holds_nothing, waits_of};
ghost use Rattle.exchange_core.specs.Dues.{due_of, comes_of, fits, is_over, is_wait, is_wait_for_user, is_for_message, is_for_leave};
ghost use Rattle.exchange_core.specs.Paths.{plain, adapted, blocked, stuck, renewed_twice, waited, refused, cut, late, drained, left, stopped, turned_away, kept_on, withdrawn, withdrawn_early};
ghost use Rattle.exchange_core.specs.Log.{AreLegal, total, leases_held, stakes_held, course_of, IsLegal, AllAre, count, one_if, is_lent, is_returned, is_reserved, is_released, is_dialed, is_kept_dialed, is_hung_up, is_request_read, is_message_read, is_beginning, is_planned, is_repeatable, is_planned_or_stale, is_withdrawn, is_hearing, is_kept_on, is_answered, stands, never, is_pending, is_kept_open, has_request, has_served, has_begun, is_half_out, is_last_answer, is_usable, is_learned, is_begun, is_drain, is_stop, is_let_pass, is_response_read, is_move, is_out, is_told, is_asked, is_refused, is_freeing, is_parting, is_leaving, KeepsTo, is_failing, is_quiet, is_last, failures_from};

/// Each mark of a course is what the log says: an event that begins it stands, and none that ends it after that.
pub fn marks_stand_in_the_log()
    ensures connection { (events : List Event) → is_leased (course_of events).connection ≡ stands is_lent is_returned events }
    ensures stake { (events : List Event) → (course_of events).stake ≡ stands is_reserved is_released events }
    ensures origin { (events : List Event) → (course_of events).origin ≡ stands is_dialed is_hung_up events }
    ensures kept { (events : List Event) → (course_of events).kept ≡ stands is_kept_dialed is_dialed events }
    ensures lasts { (events : List Event) → (course_of events).lasts ≡ is_kept_on events }
    ensures asked { (events : List Event) → (course_of events).asked ≡ stands is_learned is_message_read events }
    ensures repeatable { (events : List Event) → (course_of events).repeatable ≡ stands is_repeatable is_planned events }
    ensures withdrawn { (events : List Event) → (course_of events).withdrawn ≡ stands is_withdrawn is_request_read events }
    ensures heard { (events : List Event) → (course_of events).heard ≡ stands is_hearing is_request_read events }
    ensures told { (events : List Event) → (course_of events).told ≡ stands is_told is_request_read events }
    ensures half_told { (events : List Event) → (course_of events).half_told ≡ is_half_out events }
    ensures begun { (events : List Event) → (course_of events).begun ≡ has_begun events }
    ensures closes { (events : List Event) → (course_of events).closes ≡ is_last_answer events }
    ensures draining { (events : List Event) → (course_of events).draining ≡ stands is_drain never events }
    ensures stopping { (events : List Event) → (course_of events).stopping ≡ stands is_stop never events }
{}

/// What was leased, reserved and opened has gone back, or is held: at most one of each.
pub fn what_is_held_is_counted()
    ensures leases { (events : List Event) → IsLegal events
        → count is_lent events ≡ count is_returned events + one_if (is_leased (course_of events).connection) }
    ensures stakes { (events : List Event) → IsLegal events
        → count is_reserved events ≡ count is_released events + one_if (course_of events).stake }
    ensures origins { (events : List Event) → IsLegal events
        → count is_dialed events ≡ count is_hung_up events + one_if (course_of events).origin }
{}

/// Of several connections, as of all those of the proxy at a stop: what was leased and reserved has gone back, or some of them
/// holds it. So an audit finds just what they hold.
pub fn an_audit_finds_what_is_held()
    ensures leases { (logs : List (List Event)) → AreLegal logs → total is_lent logs ≡ total is_returned logs + leases_held logs }
    ensures stakes { (logs : List (List Event)) → AreLegal logs → total is_reserved logs ≡ total is_released logs + stakes_held logs }
{}

/// Each request that was read has its whole answer, but for the newest one. A further one is read only where there was none
/// yet, or after a whole answer that keeps the connection, and with nothing held. The head of an origin's response is read only
/// once the origin has the whole request.
pub fn requests_and_answers_take_turns()
    ensures answers { (events : List Event) → IsLegal events
        → count is_request_read events ≡ count is_answered events + one_if (is_pending events) }
    ensures none { (events : List Event) → IsLegal (RequestRead ∷ events) → is_pending events ≡ false }
    ensures kept { (events : List Event) → IsLegal (RequestRead ∷ events) → is_kept_open events ≡ true }
    ensures free { (events : List Event) → IsLegal (RequestRead ∷ events) → (stands is_lent is_returned events ≡ false)
        × (stands is_reserved is_released events ≡ false) × (stands is_dialed is_hung_up events ≡ false) }
    ensures response { (events : List Event) → IsLegal (ResponseRead ∷ events) → has_request events ≡ true }
{}

/// A message moves only once the gate let it pass, a withdrawn one once more, within an open reservation, and with the origin's
/// connection open. An answer is that of the origin, or of the service that was offered the request. A user that waits was told to
/// send its body.
pub fn a_message_moves_with_all_it_needs()
    ensures gate { (events : List Event) (event : Event) → IsLegal (event ∷ events) → is_move event ≡ true
        → stands is_let_pass is_beginning events ≡ true }
    ensures stake { (events : List Event) (event : Event) → IsLegal (event ∷ events) → is_move event ≡ true
        → stands is_reserved is_released events ≡ true }
    ensures origin { (events : List Event) (event : Event) → IsLegal (event ∷ events) → is_move event ≡ true
        → stands is_dialed is_hung_up events ≡ true }
    ensures answer { (events : List Event) → IsLegal (Begun ∷ events)
        → (stands is_response_read is_request_read events || is_offered (course_of events).phase) ≡ true }
    ensures told { (events : List Event) → IsLegal (Started ∷ events) → waits_of (course_of events).phase ≡ true
        → stands is_told is_request_read events ≡ true }
{}

/// For each request a user is told at most once to send its body: after a reservation was made for it, and never after the first
/// byte of an answer. For each message its service is asked at most once.
pub fn each_is_told_and_asked_once()
    ensures told { (events : List Event) → IsLegal events → count is_told events ≤ count is_request_read events }
    ensures room { (events : List Event) → IsLegal (Told ∷ events) → stands is_reserved is_request_read events ≡ true }
    ensures early { (events : List Event) → IsLegal (Told ∷ events) → has_begun events ≡ false }
    ensures asked { (events : List Event) → IsLegal events → count is_asked events ≤ count is_message_read events }
{}

/// For each request the origin is dialed once, and once more where the request was withdrawn: so at most twice, the second time
/// on a fresh connection. A kept one is dialed only for a request that may be sent again.
pub fn an_origin_is_dialed_at_most_twice()
    ensures dialed { (events : List Event) → IsLegal events
        → count is_dialed events ≤ count is_request_read events + count is_withdrawn events }
    ensures twice { (events : List Event) → IsLegal events → count is_dialed events ≤ 2 * count is_request_read events }
    ensures second { (events : List Event) (kept : Bool) → IsLegal (Dialed kept ∷ events)
        → stands is_dialed is_request_read events ≡ true → kept ≡ false }
    ensures repeatable { (events : List Event) → IsLegal (Dialed true ∷ events) → stands is_repeatable is_planned events ≡ true }
    ensures fresh { (events : List Event) → IsLegal (Dialed true ∷ events) → stands is_withdrawn is_request_read events ≡ false }
{}

/// A request is withdrawn at most once: only from a kept connection, only where it may be sent again, and only as long as no byte
/// of an answer was read or went out. What it held goes back before it is planned anew.
pub fn a_request_is_withdrawn_at_most_once()
    ensures once { (events : List Event) → IsLegal events → count is_withdrawn events ≤ count is_request_read events }
    ensures kept { (events : List Event) → IsLegal (Withdrawn ∷ events) → stands is_kept_dialed is_dialed events ≡ true }
    ensures repeatable { (events : List Event) → IsLegal (Withdrawn ∷ events) → stands is_repeatable is_planned events ≡ true }
    ensures unheard { (events : List Event) → IsLegal (Withdrawn ∷ events) → stands is_hearing is_request_read events ≡ false }
    ensures unanswered { (events : List Event) → IsLegal (Withdrawn ∷ events) → stands is_begun is_request_read events ≡ false }
    ensures freed { (events : List Event) (event : Event) → IsLegal (event ∷ events) → is_planned_or_stale event ≡ true
        → is_withdrawing (course_of events).phase ≡ true → (stands is_lent is_returned events ≡ false)
        × (stands is_reserved is_released events ≡ false) × (stands is_dialed is_hung_up events ≡ false) }
{}

/// An origin's connection is kept only once its answer was read whole, and lasts, to a request that it had whole. A proxy that
/// drains or stops keeps none.
pub fn an_origins_connection_is_kept_after_its_answer()
    ensures lasts { (events : List Event) → IsLegal (HungUp true ∷ events) → is_kept_on events ≡ true }
    ensures request { (events : List Event) → IsLegal (HungUp true ∷ events) → has_request events ≡ true }
    ensures response { (events : List Event) → IsLegal (HungUp true ∷ events) → stands is_response_read is_request_read events ≡ true }
    ensures goes_on { (events : List Event) → IsLegal (HungUp true ∷ events)
        → (stands is_drain never events ≡ false) × (stands is_stop never events ≡ false) }
{}

/// A refusal goes only to a user that got no byte of an answer to this request, and nothing or all of the text that tells it to
/// send its body. There is at most one, it stays the one that it was, and nothing but the end comes after it, or after a cut.
pub fn a_refusal_stands_alone()
    ensures untouched { (events : List Event) → IsLegal events
        → is_refusing (course_of events).phase ≡ true → has_begun events ≡ false }
    ensures whole { (events : List Event) → IsLegal events
        → is_refusing (course_of events).phase ≡ true → is_half_out events ≡ false }
    ensures same { (more events : List Event) (why : RefusalCause) → IsLegal (more ++ events)
        → KeepsTo why (course_of events).phase → KeepsTo why (course_of (more ++ events)).phase }
    ensures once { (events : List Event) → IsLegal events → count is_refused events ≤ 1 }
    ensures last { (more events : List Event) → IsLegal (more ++ events)
        → is_leaving (course_of events).phase ≡ true → AllAre is_parting more }
{}

/// A service's connection goes back in the midst of a message only once the service has said all of it. It is kept only where
/// nothing is under way on it, and where the service's newest answer on it said that it may serve again. An offered message is
/// out only once the service has said all.
pub fn a_connection_in_use_stays()
    ensures served { (events : List Event) (kept : Bool) → IsLegal (Returned kept ∷ events)
        → is_moving (course_of events).phase ≡ true → has_served events ≡ true }
    ensures kept { (events : List Event) → IsLegal (Returned true ∷ events) → is_ready (course_of events).connection ≡ true }
    ensures usable { (events : List Event) → IsLegal (Returned true ∷ events) → is_usable events ≡ true }
    ensures out { (events : List Event) (event : Event) → IsLegal (event ∷ events) → is_out event ≡ true
        → is_offered (course_of events).phase ≡ true → has_served events ≡ true }
{}

/// Something is due until the user's connection is over with nothing held, and what comes of it may come. Where it may have to
/// wait for somebody else there is a deadline, and while anything is due for a message it may fail. While the user alone is
/// waited for, nothing is held. While a connection of the service is waited for, there is no lease and no reservation, and for a
/// request no connection to the origin.
pub fn no_exchange_is_forgotten()
    ensures over { (c : CourseState) → (is_over c ≡ true ↔ due_of c ≡ Nothing) }
    ensures goes_on { (events : List Event) → IsLegal events → is_over (course_of events) ≡ false
        → (event : Event) × (comes_of (due_of (course_of events)) event ≡ true) × (may_come (course_of events) event ≡ true) }
    ensures deadline { (events : List Event) → IsLegal events
        → is_wait (due_of (course_of events)) ≡ true → may_come (course_of events) Late ≡ true }
    ensures failure { (c : CourseState) (why : RefusalCause) → is_for_message (due_of c) ≡ true → may_come c (Failed why) ≡ true }
    ensures free { (c : CourseState) → is_wait_for_user (due_of c) ≡ true → holds_nothing c ≡ true }
    ensures queue { (events : List Event) → IsLegal events → is_in_queue (course_of events).phase ≡ true
        → is_free (course_of events) ≡ true }
    ensures queue_origin { (events : List Event) → IsLegal events → is_in_queue (course_of events).phase ≡ true
        → is_request (point_of (course_of events).phase) ≡ true → (course_of events).origin ≡ false }
{}

/// What comes of doing what is due may come, where it fits what is there: so who drives an exchange needs no test of its own.
pub fn what_is_due_may_come()
    ensures { (events : List Event) (event : Event) → IsLegal events → comes_of (due_of (course_of events)) event ≡ true
        → fits (course_of events) event ≡ true → may_come (course_of events) event ≡ true }
{}

/// A deadline of a message is the same as its failure for that reason; any other one lets the user go. Where nothing moves, each
/// deadline and each failure brings the end nearer: at most two come, and with what goes back there are at most five events.
pub fn deadlines_end_an_exchange()
    ensures refused { (c : CourseState) → is_wait (due_of c) ≡ true → is_for_leave (due_of c) ≡ false
        → after c Late ≡ after c (Failed Deadline) }
    ensures let_go { (c : CourseState) → is_for_leave (due_of c) ≡ true → (after c Late).phase ≡ Gone }
    ensures falls { (more events : List Event) → IsLegal (more ++ events) → AllAre is_quiet more
        → count is_failing more + failures_from (course_of (more ++ events)).phase ≤ failures_from (course_of events).phase }
    ensures two { (more events : List Event) → IsLegal (more ++ events) → AllAre is_quiet more → count is_failing more ≤ 2 }
    ensures few { (more events : List Event) → IsLegal (more ++ events) → AllAre is_quiet more → length more ≤ 5 }
{}

/// A user that is lost ends its exchange at once, wherever it is: all that comes after it is that what is held goes back.
pub fn a_lost_user_ends_an_exchange()
    ensures at_once { (events : List Event) → IsLegal events → is_gone (course_of events).phase ≡ false
        → stands is_stop never events ≡ false → may_come (course_of events) UserLost ≡ true }
    ensures gone { (events : List Event) → (course_of (UserLost ∷ events)).phase ≡ Gone }
    ensures frees { (more events : List Event) → IsLegal (more ++ events) → is_gone (course_of events).phase ≡ true
        → AllAre is_freeing more }
    ensures few { (more events : List Event) → IsLegal (more ++ events) → is_gone (course_of events).phase ≡ true
        → length more ≤ 3 }
{}

/// An answer whose transaction starts while the proxy drains is the last one of its connection. So at most one more request is
/// read: one that was on its way, or that of a user whose answer's transaction had started before.
pub fn a_drain_ends_an_exchange()
    ensures closes { (events : List Event) (keeps lasts : Bool) → IsLegal (Answered keeps lasts ∷ events)
        → is_last_answer events ≡ true → (course_of (Answered keeps lasts ∷ events)).phase ≡ Closing }
    ensures one { (more events : List Event) → IsLegal (more ++ Drain ∷ events) → count is_request_read more ≤ 1 }
{}

/// Once the proxy stops, nothing is read, leased, reserved, opened or begun: a refusal that is due is written, and what is held
/// may go back.
pub fn a_stop_ends_an_exchange()
    ensures last { (more events : List Event) → IsLegal (more ++ Stop ∷ events) → AllAre is_last more }
    ensures few { (more events : List Event) → IsLegal (more ++ Stop ∷ events) → length more ≤ 4 }
{}

/// An exchange goes in no circle: whatever comes of what is done, each request takes a bounded number of events.
pub fn an_exchange_goes_in_no_circle()
    ensures { (events : List Event) → IsLegal events → length events ≤ 1000 * (count is_request_read events + 1) }
{}

/// Logs of whole exchanges are legal: these laws aren't empty.
pub fn whole_exchanges_are_legal()
    ensures plain { IsLegal plain × (is_over (course_of plain) ≡ true) }
    ensures adapted { IsLegal adapted × (is_over (course_of adapted) ≡ true) }
    ensures blocked { IsLegal blocked × (is_over (course_of blocked) ≡ true) }
    ensures stuck { IsLegal stuck × (is_over (course_of stuck) ≡ true) }
    ensures renewed { IsLegal renewed_twice × (is_over (course_of renewed_twice) ≡ true) }
    ensures waited { IsLegal waited × (is_over (course_of waited) ≡ true) }
    ensures refused { IsLegal refused × (is_over (course_of refused) ≡ true) }
    ensures cut { IsLegal cut × (is_over (course_of cut) ≡ true) }
    ensures late { IsLegal late × (is_over (course_of late) ≡ true) }
    ensures drained { IsLegal drained × (is_over (course_of drained) ≡ true) }
    ensures left { IsLegal left × (is_over (course_of left) ≡ true) }
    ensures turned_away { IsLegal turned_away × (is_over (course_of turned_away) ≡ true) }
    ensures kept_on { IsLegal kept_on × (is_over (course_of kept_on) ≡ true) }
    ensures withdrawn { IsLegal withdrawn × (is_over (course_of withdrawn) ≡ true) }
    ensures withdrawn_early { IsLegal withdrawn_early × (is_over (course_of withdrawn_early) ≡ true) }
{}

/// So is one that ends with a lease and a reservation out, which the audit counts.
pub fn a_stopped_exchange_is_audited()
    ensures legal { IsLegal stopped }
    ensures lease { is_leased (course_of stopped).connection ≡ true }
    ensures stake { (course_of stopped).stake ≡ true }
{}
