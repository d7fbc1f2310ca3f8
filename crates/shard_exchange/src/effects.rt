//! What an exchange asks of what it holds.

ghost use Rattle.std.specs.Prelude.{◌≡◌, ◌&&◌, ℕ, Bool, List, IsTrue, Some, Result, is_ok, true, false, IfOk, IfErr};
ghost use Rattle.exchange_core.specs.Course.{is_ready};
ghost use Rattle.exchange_core.specs.declared.state.CourseState.{CourseState as AnyState};
ghost use Rattle.exchange_core.specs.declared.dialing.Dialing.{Dialing as AnyDialing};
ghost use Rattle.exchange_core.specs.declared.dialing.Dialing.TheVariants.{KeptFirst};
ghost use Rattle.exchange_core.specs.declared.phase.Phase.TheVariants.{InQueue};
ghost use Rattle.exchange_core.specs.declared.event.Event.TheVariants.{Withdrawn};
ghost use Rattle.exchange_core.specs.Dues.{due_of, refusal_due};
ghost use Rattle.exchange_core.specs.declared.event.RefusalCause.TheVariants.{Scarce};
ghost use Rattle.exchange_core.specs.Log.{is_silent};
ghost use Rattle.exchange_core.specs.May.{may_come, may_keep_origin};
ghost use Rattle.http_side.specs.Refusals.{is_own_status};
ghost use Rattle.icap_head.specs.Heads.{Response as AnyResponse, response_parts};
ghost use Rattle.trace_core.specs.declared.history.Point.{Point as AnyPoint};
ghost use Rattle.service_pool.specs.declared.connector.LendFault.{LendFault as AnyFault};
ghost use Rattle.wire_kit.specs.Past.{Past};
ghost use Rattle.shard_exchange.specs.Hand.{Keeps, KeepsButFinished, KeepsButTold, KeepsButRefused, KeepsButLease, KeepsButRoom, KeepsButOrigin, SetsOut, ComesBack};
ghost use Rattle.shard_exchange.specs.EndedBy.{MayEnd, is_good, served_as};
ghost use Rattle.exchange_report.specs.Reasons.{cause_of};
ghost use Rattle.shard_exchange.specs.Reasons.{lies_elsewhere, unplanned_reason};
ghost use Rattle.shard_exchange.specs.Saying.{LaysPage, SaysOn, refusal_by};
ghost use Rattle.shard_exchange.specs.declared.answers.Lingered.{Lingered as AnyLingered};
ghost use Rattle.shard_exchange.specs.declared.answers.Marks.{Marks as AnyMarks};
ghost use Rattle.shard_exchange.specs.declared.answers.Round.{Round as AnyRound};
ghost use Rattle.shard_exchange.specs.declared.answers.Unplanned.{Unplanned as AnyUnplanned};
ghost use Rattle.shard_exchange.specs.declared.ends.End.{End as AnyEnd};

use crate::answers::{Lingered, Marks, Round, Started, Unplanned, Withdrawal};
use crate::ends::{CourseReport, End, EndedBy};
use crate::holder::Holder;
use adapt_sides::{ClientFault, Said, Scratch};
use exchange_core::{Course, CourseState, Dialing};
use exchange_report::Reason;
use icap_head::IcapResponse;
use service_pool::LendFault;
use std::sync::Wait;
use trace_core::Point;

/// All that an exchange may have to do. `P` is its place in its surroundings: its key, the moment, and what reaches the system.
pub trait Effects<P>: Holder {
    // no byte of the exchange moved for longer than the deadline
    ghost is_late: { Self.Outside → P → Bool };

    // its user has said nothing for so long that a proxy that drains lets it go
    ghost has_rested: { Self.Outside → P → Bool };

    // a message has waited for a connection to its service as long as it may, or hasn't
    ghost has_waited: { Self.Outside → P → Bool → Type 0 };

    // a question for options may be asked anew, or not
    ghost may_retry: { Self.Outside → P → Bool → Type 0 };

    // no connection was lent, for this fault: the surroundings after that
    ghost fails: { Self.Outside → P → AnyFault → Type 0 };

    // the gate was asked whether the transaction of a message may move, and answered this: the surroundings before that and after it
    ghost lets_pass: { Self.Outside → Self.Outside → P → Bool → Type 0 };

    // a message was to wait for a connection of this point's service, and does, or doesn't: the surroundings after that
    ghost joins: { Self.Outside → P → AnyPoint → Bool → Type 0 };

    // a message waits no more in the queue for a connection of this point's service: the surroundings after that
    ghost leaves: { Self.Outside → P → AnyPoint → Type 0 };

    // a message is planned: what is held before and after that, its surroundings, whether its service was asked for it, and the answer
    ghost plans: { Self → Self → Self.Outside → P → Bool → Result AnyMarks AnyUnplanned → Type 0 };

    // what a point's service said of its options was read of this answer, and is kept: the surroundings before and after that
    ghost learns: { Self.Outside → Self.Outside → P → AnyPoint → AnyResponse → Type 0 };

    // a connection was leased of this point's service and is held beside its lease: it was idle before, or is a fresh one. With it the
    // surroundings before that
    ghost leases: { Self → Self.Outside → AnyPoint → (reused : Bool) → Type 0 };

    // a fresh connection to the same service stands in place of the one that was leased: what is held, and the surroundings, before that
    // and after it
    ghost renews: { Self → Self → Self.Outside → Self.Outside → P → Type 0 };

    // the service of this point is asked for its options: the request for that is to be sent
    ghost asks: { Self → Self.Outside → AnyPoint → Type 0 };

    // the connection to the origin, dialed so, leads where the plan of its message says, and was kept or is a fresh one: what is held
    // before it is dialed and after that, and the surroundings
    ghost dials: { Self → Self → Self.Outside → Self.Outside → P → AnyDialing → (kept : Bool) → Type 0 };

    // the message that is held is the one that was held first, and so are its plan and the user's connection, on which nothing was said or
    // read since
    ghost bears_but_origin: { (first : Self) → Self → Type 0 };

    // the user's connection stays as it is
    ghost keeps_user: { Self → Self → Type 0 };

    // what is reserved is reserved by the limits of these surroundings
    ghost reserves: { Self → Self.Outside → Type 0 };

    // the message that begins to move began with this: what was held before that and is after it, the surroundings and the course
    ghost starts: { Self → Self → Self.Outside → P → AnyState → Type 0 };

    // a round of turns of the message that moves leads from the one to the other, and answers this: with the surroundings before it and
    // after it
    ghost rounds: { Self → Self → Self.Outside → Self.Outside → P → AnyRound → Type 0 };

    // what is held once the message that moves ended so: the message that follows on the user's connection begins with what was left over;
    // where an answer begins, its origin's connection has given nothing since the request set out. What it moved over is back. With it the
    // surroundings before that
    ghost follows: { Self → Self.Outside → AnyEnd → Self → Type 0 };

    // the origin's connection that is held was laid down for later exchanges, or there was no room for it: the surroundings before that
    // and after it; or it was closed
    ghost lays: { Self → Self.Outside → Self.Outside → P → (kept : Bool) → Type 0 };

    ghost closes: { Self → Self.Outside → Self.Outside → P → Type 0 };

    // the leased connection that is held was put back, or its lease given up: the surroundings before that and after it
    ghost puts: { Self → Self.Outside → Self.Outside → P → Type 0 };

    ghost gives_up: { Self → Self.Outside → Self.Outside → P → Type 0 };

    // what the user still sends was dropped as far as this: what is held before that and after it
    ghost lingers: { Self → Self → AnyLingered → Type 0 };

    // the user had nothing now of what is dropped: what is held before that was read and after it
    ghost sends_nothing: { Self → Self → Type 0 };

    // refusals of this status have this page
    ghost has_page: { Self.Outside → P → (status : ℕ) → List ℕ → Type 0 };

    /// Whether no byte moved for longer than the deadline.
    fn is_late(at: &P, out: &Self::Outside) -> bool
        ensures { result ≡ is_late out.now at.now };

    /// Whether the user has said nothing for so long that a proxy that drains lets it go.
    fn has_rested(at: &P, out: &Self::Outside) -> bool
        ensures { result ≡ has_rested out.now at.now };

    /// Whether the message has waited for a connection to its service as long as it may.
    fn has_waited(at: &P, out: &Self::Outside) -> bool
        ensures { has_waited out.now at.now result };

    /// Whether a question for options may be asked anew.
    fn may_retry(at: &P, out: &Self::Outside) -> bool
        ensures { may_retry out.now at.now result };

    /// Whether the transaction of a message may move.
    fn may_pass(at: &P, out: &mut Self::Outside) -> bool
        ensures { lets_pass out.old out.new at.now result };

    /// Plans the message, and keeps its plan. Its service was asked for it, or not.
    fn plan(&mut self, at: &P, out: &Self::Outside, asked: bool) -> Result<Marks, Unplanned>
        ensures plans { plans self.old self.new out.now at.now asked result }
        ensures suits { IfErr result (λ unplanned. lies_elsewhere (unplanned_reason unplanned) ≡ true) }
        ensures kept { Keeps (Self.hand self.old) (Self.hand self.new) };

    /// Leases a connection of the point's service: whether it was idle before.
    fn lend(&mut self, at: &P, out: &mut Self::Outside, point: Point) -> Result<bool, LendFault>
        requires { (Self.hand self.old).leased ≡ false }
        ensures lent { is_ok result ≡ (Self.hand self.new).leased }
        ensures leases { IfOk result (leases self.new out.old point) }
        ensures fails { IfErr result (fails out.new at.now) }
        ensures bears { (first : Self) → Self.bears first self.old → Self.bears first self.new }
        ensures kept { KeepsButLease (Self.hand self.old) (Self.hand self.new) };

    /// Leases a connection to a message that waits, once it is its turn. With a connection it has left the queue.
    fn lend_in_turn(
        &mut self,
        at: &P,
        out: &mut Self::Outside,
        point: Point,
    ) -> Result<bool, LendFault>
        requires { (Self.hand self.old).leased ≡ false }
        ensures lent { is_ok result ≡ (Self.hand self.new).leased }
        ensures leases { IfOk result (leases self.new out.old point) }
        ensures fails { IfErr result (fails out.new at.now) }
        ensures bears { (first : Self) → Self.bears first self.old → Self.bears first self.new }
        ensures kept { KeepsButLease (Self.hand self.old) (Self.hand self.new) };

    /// Has a message wait for a connection. False where it may not.
    fn join_queue(at: &P, out: &mut Self::Outside, point: Point) -> bool
        ensures { joins out.new at.now point result };

    /// Has a message wait no more, where it waits for a connection.
    fn leave_queue(at: &P, out: &mut Self::Outside, course: &Course)
        ensures { (point : AnyPoint) → course.now.phase ≡ InQueue point → leaves out.new at.now point };

    /// Begins to ask the point's service for its options.
    fn ask(&mut self, at: &P, out: &Self::Outside, point: Point) -> Result<(), Reason>
        ensures asks { IfOk result (λ _. asks self.new out.now point) }
        ensures suits { IfErr result (λ reason. lies_elsewhere reason ≡ true) }
        ensures bears { (first : Self) → Self.bears first self.old → Self.bears first self.new }
        ensures line { Self.keeps_line self.old self.new }
        ensures kept { Keeps (Self.hand self.old) (Self.hand self.new) };

    /// Begins to ask the point's service anew, on a fresh connection.
    fn ask_anew(&mut self, at: &P, out: &mut Self::Outside, point: Point) -> Result<(), Reason>
        ensures asks { IfOk result (λ _. asks self.new out.new point) }
        ensures fresh { IfOk result (λ _. renews self.old self.new out.old out.new at.now) }
        ensures suits { IfErr result (λ reason. lies_elsewhere reason ≡ true) }
        ensures bears { (first : Self) → Self.bears first self.old → Self.bears first self.new }
        ensures kept { Keeps (Self.hand self.old) (Self.hand self.new) };

    /// Keeps what the point's service said of its options: whether its connection may serve again.
    fn learn(
        &mut self,
        at: &P,
        out: &mut Self::Outside,
        point: Point,
        answer: &IcapResponse,
    ) -> Result<bool, Reason>
        ensures usable { IfOk result (λ usable. usable ≡ Self.usable_after self.old (response_parts answer.now)) }
        ensures learned { IfOk result (λ _. learns out.old out.new at.now point (response_parts answer.now)) }
        ensures suits { IfErr result (λ reason. lies_elsewhere reason ≡ true) }
        ensures bears { (first : Self) → Self.bears first self.old → Self.bears first self.new }
        ensures line { Self.keeps_line self.old self.new }
        ensures kept { Keeps (Self.hand self.old) (Self.hand self.new) };

    /// Takes note that the service's connection failed while it was asked.
    fn blame(&self, at: &P, out: &mut Self::Outside, fault: ClientFault);

    /// Reserves what the planned message may need.
    fn reserve<R: Wait>(&mut self, rt: &R, at: &P, out: &mut Self::Outside) -> Result<(), Reason>
        requires { ((Self.hand self.old).room ≡ false) × ((Self.hand self.old).moving ≡ false) }
        ensures reserved { is_ok result ≡ (Self.hand self.new).room }
        ensures limits { IfOk result (λ _. reserves self.new out.old) }
        ensures suits { IfErr result (λ reason. cause_of reason ≡ Scarce) }
        ensures bears { (first : Self) → Self.bears first self.old → Self.bears first self.new }
        ensures line { Self.keeps_line self.old self.new }
        ensures kept { KeepsButRoom (Self.hand self.old) (Self.hand self.new) };

    /// Opens the connection that a request goes to for which this was reserved, or takes one that was kept, where it may: whether it is a
    /// kept one.
    fn dial(&mut self, at: &P, out: &mut Self::Outside, dialing: Dialing) -> Result<bool, Reason>
        requires { ((Self.hand self.old).origin ≡ false) × ((Self.hand self.old).moving ≡ false) }
        ensures opened { is_ok result ≡ (Self.hand self.new).origin }
        ensures leads { IfOk result (λ kept. dials self.old self.new out.old out.new at.now dialing kept) }
        ensures fresh { IfOk result (λ kept. kept ≡ true → dialing ≡ KeptFirst) }
        ensures suits { IfErr result (λ reason. lies_elsewhere reason ≡ true) }
        ensures bears { (first : Self) → bears_but_origin first self.old → bears_but_origin first self.new }
        ensures line { Self.keeps_line self.old self.new }
        ensures kept { KeepsButOrigin (Self.hand self.old) (Self.hand self.new) };

    /// Starts the transaction of a message that has all that it needs. Where it can't, what it would have stood over stays here.
    fn start<R: Wait>(
        &mut self,
        rt: &R,
        at: &P,
        out: &mut Self::Outside,
        state: CourseState,
    ) -> Started
        requires needs { ((Self.hand self.old).room ≡ true) × ((Self.hand self.old).origin ≡ true) }
        requires still { (Self.hand self.old).moving ≡ false }
        ensures begins { result ≡ Started.Moves → starts self.old self.new out.old at.now state }
        ensures moves { result ≡ Started.Moves → SetsOut (Self.hand self.old) (Self.hand self.new) }
        ensures fails { result ≡ Started.Fails → Keeps (Self.hand self.old) (Self.hand self.new) }
        ensures user { result ≡ Started.Fails → keeps_user self.old self.new }
        ensures gone { result ≡ Started.NoUser → Keeps (Self.hand self.old) (Self.hand self.new) }
        ensures no_user { result ≡ Started.NoUser → (p : Past) → Self.user_past self.old p → ⊥ };

    /// A round of turns of the message's transaction.
    fn round<R: Wait>(
        &mut self,
        rt: &R,
        at: &P,
        out: &mut Self::Outside,
        scratch: &mut Scratch,
        may_renew: bool,
    ) -> Round
        requires { (Self.hand self.old).moving ≡ true }
        ensures kept { Keeps (Self.hand self.old) (Self.hand self.new) }
        ensures rounds { rounds self.old self.new out.old out.new at.now result }
        ensures renewed { result ≡ Round.Broken → may_renew ≡ true };

    /// Takes the transaction apart of a message that is over, or ends by this. What it stood over comes back. Where a request may be
    /// withdrawn at this course, and its origin's kept connection has ended, it is the message again.
    fn settle<R: Wait>(
        &mut self,
        rt: &R,
        at: &P,
        out: &mut Self::Outside,
        by: EndedBy,
        course: &Course,
    ) -> CourseReport
        requires { (Self.hand self.old).moving ≡ true }
        ensures withdrawn { result.end ≡ End.Withdrawn true
            → (may_come course.now Withdrawn ≡ true) × Self.repeats self.old × (result.has_answered ≡ false) }
        ensures back { ComesBack (Self.hand self.old) (Self.hand self.new) }
        ensures answered { result.has_answered ≡ Self.answered self.old }
        ensures followed { follows self.old out.old result.end self.new }
        ensures told { MayEnd by (Self.ends self.old (may_come course.now Withdrawn)) result.end }
        ensures cuts { result.has_answered ≡ false → result.cuts ≡ false }
        ensures cut { Self.cut_is self.old result.has_answered result.cuts }
        ensures whole { is_good result.end ≡ true → result.cuts ≡ false }
        ensures served { result.served ≡ served_as (Self.reusable self.old) result.end };

    /// Has the request that went out be the message again, where its origin has said nothing, and memory is found for that. At this course
    /// its connection was kept, and has ended.
    fn withdraw(&mut self, at: &P, out: &mut Self::Outside, course: &Course) -> Withdrawal
        requires may { may_come course.now Withdrawn ≡ true }
        ensures answers { Self.withdraws self.old self.new result }
        ensures repeats { result ≡ Withdrawal.Again → Self.repeats self.old }
        ensures kept { Keeps (Self.hand self.old) (Self.hand self.new) };

    /// Keeps the origin's connection for later exchanges where it lasts at this course, and there is room for it. Else it is closed. Says
    /// whether it is kept.
    fn keep_origin(&mut self, at: &P, out: &mut Self::Outside, course: &Course) -> bool
        requires { (Self.hand self.old).origin ≡ true }
        ensures hung { (Self.hand self.new).origin ≡ false }
        ensures message { Self.keeps_message self.old self.new }
        ensures kept { KeepsButOrigin (Self.hand self.old) (Self.hand self.new) }
        ensures lasts { result ≡ true → may_keep_origin course.now ≡ true }
        ensures laid { may_keep_origin course.now ≡ true → lays self.old out.old out.new at.now result }
        ensures closed { may_keep_origin course.now ≡ false → closes self.old out.old out.new at.now };

    /// Puts the service's connection back where by this course nothing is under way on it, and it may serve again: the one that was leased,
    /// with its lease. Else it is closed, and its lease given up. Says whether it was put back.
    fn give_back(&mut self, at: &P, out: &mut Self::Outside, course: &Course) -> bool
        requires { (Self.hand self.old).leased ≡ true }
        ensures back { (Self.hand self.new).leased ≡ false }
        ensures kept { KeepsButLease (Self.hand self.old) (Self.hand self.new) }
        ensures stays { Self.stays self.old self.new }
        ensures put { result ≡ true → puts self.old out.old out.new at.now }
        ensures closed { result ≡ false → gives_up self.old out.old out.new at.now }
        ensures ready { result ≡ (is_ready course.now.connection && Self.has_line self.old) };

    /// Closes the reservation.
    fn release<R: Wait>(&mut self, rt: &R, at: &P, out: &mut Self::Outside)
        requires { (Self.hand self.old).room ≡ true }
        ensures released { (Self.hand self.new).room ≡ false }
        ensures message { Self.keeps_message self.old self.new }
        ensures origin { Self.keeps_origin self.old self.new }
        ensures kept { KeepsButRoom (Self.hand self.old) (Self.hand self.new) };

    /// Says the refusal of this status to the user, as far as it takes it, from where the last call ended. At this course it is due, so
    /// no byte of an answer or of another text is out. The proxy has a refusal of that status. It is the one with a page where refusals of
    /// the status have one, and memory is found for it; once a byte is out it stays what it is.
    fn refuse(&mut self, at: &P, out: &mut Self::Outside, course: &Course, status: u16) -> Said
        requires due { refusal_due (due_of course.now) ≡ Some status }
        requires own { IsTrue (is_own_status status) }
        ensures lays { LaysPage (has_page out.old at.now status) status (Self.hand self.old).refused (Self.hand self.new).refused.page }
        ensures says { SaysOn (Self.user_past self.old) (Self.user_past self.new) (refusal_by status (Self.hand self.new).refused.page)
            (Self.hand self.old).refused.out (Self.hand self.new).refused.out result }
        ensures kept { KeepsButRefused (Self.hand self.old) (Self.hand self.new) };

    /// Says to the user that nothing more comes. At this course all is said to it, also the refusal.
    fn close(&mut self, at: &P, course: &Course)
        requires silent { is_silent course.now.phase ≡ true }
        ensures user { keeps_user self.old self.new }
        ensures said { (Self.hand self.new).finished ≡ true }
        ensures kept { KeepsButFinished (Self.hand self.old) (Self.hand self.new) };

    /// Drops what the user still sends. At this course all is said to it.
    fn linger(&mut self, at: &P, out: &mut Self::Outside, course: &Course) -> Lingered
        requires silent { is_silent course.now.phase ≡ true }
        ensures lingers { lingers self.old self.new result }
        ensures nothing { result ≡ Lingered.Waiting → sends_nothing self.old self.new }
        ensures kept { Keeps (Self.hand self.old) (Self.hand self.new) };

    /// The head of a request was read. Its user was told nothing yet.
    fn note_request(&mut self, at: &P, out: &mut Self::Outside)
        ensures untold { (Self.hand self.new).told ≡ 0 }
        ensures bears { (first : Self) → Self.bears first self.old → Self.bears first self.new }
        ensures message { (first : Self) → Self.bears_message first self.old → Self.bears_message first self.new }
        ensures line { Self.keeps_line self.old self.new }
        ensures kept { KeepsButTold (Self.hand self.old) (Self.hand self.new) };

    /// The head of the origin's response was read.
    fn note_response(&self, at: &P, out: &mut Self::Outside);

    /// The user is refused for this reason, where a refusal goes out at this course.
    fn note_refusal(&self, at: &P, out: &mut Self::Outside, course: &Course, reason: Reason);

    /// The exchange ends because the proxy stops, and no refusal goes out, where that is so at this course.
    fn note_stop(at: &P, out: &mut Self::Outside, course: &Course);
}
