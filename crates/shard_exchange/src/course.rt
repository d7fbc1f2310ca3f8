//! What the course of an exchange is told: that a head begins, how a message ended, and that the proxy stops.

ghost use Rattle.std.specs.Prelude.{◌≡◌, ◌⊎◌, ◌||◌, true, false};
ghost use Rattle.exchange_core.specs.declared.event.RefusalCause.{RefusalCause as AnyCause};
ghost use Rattle.exchange_core.specs.declared.connection.Connection.{Connection as AnyConnection};
ghost use Rattle.exchange_core.specs.Course.{after, connection_after, lasts_after, is_mid_text};
ghost use Rattle.exchange_core.specs.Dues.{due_of, status_of};
ghost use Rattle.exchange_core.specs.declared.due.Due.TheVariants as dues;
ghost use Rattle.exchange_core.specs.declared.event.Event.TheVariants.{Failed, Begun, Withdrawn, Stop};
ghost use Rattle.exchange_core.specs.declared.event.RefusalCause.TheVariants.{Elsewhere};
ghost use Rattle.exchange_core.specs.May.{may_come, is_answer, is_gone, is_head, is_idle, is_refusing, is_withdrawing};
ghost use Rattle.exchange_core.specs.Log.{Goes};
ghost use Rattle.shard_exchange.specs.Ends.{moves, ends_message, keeps_origin, Stays, Leaves, IsOwed, Halts, IsToldServed, IsTold, Succeeds, begun_with, served_with};
ghost use Rattle.shard_exchange.specs.Leaving.{stopped_of};
ghost use Rattle.shard_exchange.specs.Outcomes.{begun_of};

use crate::ends::{CourseReport, End};
use exchange_core::{Course, Event, Phase, RefusalCause};

/// Takes an event that ends a message, where it may come. Else the message fails: its user is refused, unless a part of an answer is
/// out.
#[inline(always)]
fn take_or_fail(course: &mut Course, event: Event)
    requires moves { moves course.old ≡ true }
    requires runs { course.old.stopping ≡ false }
    requires ends { ends_message event ≡ true }
    requires line { (line : AnyConnection) → connection_after line event ≡ line }
    ensures goes { Goes course.old course.new }
    ensures leaves { Leaves course.old course.new }
    ensures line { course.new.connection ≡ course.old.connection }
    ensures lasts { (course.new.lasts ≡ lasts_after course.old.lasts event) ⊎ (course.new.lasts ≡ course.old.lasts) }
    ensures taken { may_come course.old event ≡ true → course.new ≡ after course.old event }
    ensures owed { may_come course.old event ≡ false → course.new ≡ after course.old (Failed Elsewhere) }
{
    if course.may(event) {
        course.take(event);
    } else {
        course.take(Event::Failed(RefusalCause::Elsewhere));
    }
}

/// Tells the course of a byte of an answer that went to the user. False where none may have gone there: the exchange is lost.
fn tell_begun(course: &mut Course, has_answered: bool) -> bool
    requires moves { moves course.old ≡ true }
    requires runs { course.old.stopping ≡ false }
    ensures goes { Goes course.old course.new }
    ensures line { course.new.connection ≡ course.old.connection }
    ensures stays { result ≡ true → Stays course.old course.new }
    ensures told { result ≡ true → course.new ≡ begun_with has_answered course.old }
    ensures begun { result ≡ true → has_answered ≡ true → course.new.begun ≡ true }
    ensures lasts { course.new.lasts ≡ course.old.lasts }
    ensures same { has_answered ≡ false → (result ≡ true) × (course.new ≡ course.old) }
    ensures lost { result ≡ false → Leaves course.old course.new × (is_gone course.new.phase ≡ true) }
    ensures none { result ≡ false → (may_come course.old Begun ≡ false) × (course.old.begun ≡ false) }
{
    if !has_answered || course.state().begun {
        return true;
    }
    let may = course.may(Event::Begun);
    course.take(if may { Event::Begun } else { Event::UserLost });
    may
}

/// Tells the course how a message ended.
fn tell_end(course: &mut Course, end: End)
    requires moves { moves course.old ≡ true }
    requires runs { course.old.stopping ≡ false }
    ensures goes { Goes course.old course.new }
    ensures leaves { Leaves course.old course.new }
    ensures line { course.new.connection ≡ course.old.connection }
    ensures lost { end ≡ End.Lost → is_gone course.new.phase ≡ true }
    ensures stops { end ≡ End.Stopped → course.new ≡ after course.old Stop }
    ensures owed { (why : AnyCause) → end ≡ End.Failed why → IsOwed course.old course.new (status_of why) }
    ensures alone { course.old.begun ≡ true → is_refusing course.new.phase ≡ false }
    ensures keeps { is_idle course.new.phase ≡ true → end ≡ End.Answered true course.new.lasts }
    ensures lasts { course.new.lasts ≡ true → (course.old.lasts || keeps_origin end) ≡ true }
    ensures succeeds { IsTold course.old course.new end }
    ensures awaits { is_answer course.new.phase ≡ true → end ≡ End.Sent true }
    ensures withdrawn { is_withdrawing course.new.phase ≡ true → end ≡ End.Withdrawn true }
    ensures again { end ≡ End.Withdrawn true → may_come course.old Withdrawn ≡ true → is_withdrawing course.new.phase ≡ true }
    ensures wanting { end ≡ End.Withdrawn false → IsOwed course.old course.new 502 }
{
    match end {
        End::Sent { has_memory } => {
            take_or_fail(course, Event::Sent);
            if !has_memory && course.may(Event::Failed(RefusalCause::Scarce)) {
                course.take(Event::Failed(RefusalCause::Scarce));
            }
        }
        End::Answered { keeps, lasts } => take_or_fail(course, Event::Answered { keeps, lasts }),
        End::Withdrawn { has_memory: true } => take_or_fail(course, Event::Withdrawn),
        End::Withdrawn { has_memory: false } => {
            course.take(Event::Failed(RefusalCause::Elsewhere));
        }
        End::Failed(why) => course.take(Event::Failed(why)),
        End::Stopped => course.take(Event::Stop),
        End::Lost => course.take(Event::UserLost),
    }
}

/// Tells the course that the service has said all, where it has, and whether its connection may serve again.
fn tell_served(course: &mut Course, served: Option<bool>)
    requires moves { moves course.old ≡ true }
    ensures goes { Goes course.old course.new }
    ensures told { course.new ≡ served_with served course.old }
    ensures begun { course.new.begun ≡ course.old.begun }
    ensures served { IsToldServed served course.old.connection course.new.connection }
    ensures stays { Stays course.old course.new }
    ensures lasts { course.new.lasts ≡ course.old.lasts }
    ensures may { may_come course.new Withdrawn ≡ may_come course.old Withdrawn }
    ensures text { is_mid_text course.new ≡ is_mid_text course.old }
{
    if let Some(usable) = served
        && course.may(Event::Served { usable })
    {
        course.take(Event::Served { usable });
    }
}

/// Tells the course that a user's connection was reset.
fn tell_cut(course: &mut Course, cuts: bool)
    requires { moves course.old ≡ false }
    ensures goes { Goes course.old course.new }
    ensures leaves { Leaves course.old course.new }
    ensures line { course.new.connection ≡ course.old.connection }
    ensures gone { is_gone course.old.phase ≡ true → is_gone course.new.phase ≡ true }
    ensures stops { course.old.stopping ≡ true → course.new ≡ course.old }
    ensures same { cuts ≡ false → course.new ≡ course.old }
    ensures lasts { course.new.lasts ≡ course.old.lasts }
    ensures phase { (course.new.phase ≡ course.old.phase) ⊎ (is_gone course.new.phase ≡ true) }
{
    if cuts && course.may(Event::Dropped) {
        course.take(Event::Dropped);
    }
}

/// Tells the course of a transaction that is over. A user to whom a byte of an answer went gets no refusal after it. One to whom none
/// went gets the refusal of the cause by which its message failed, or of the stop. A further request is read only after an answer that
/// keeps its connection, and a response is waited for only where its request was sent; each of them is, where the course may go there. The
/// service's connection serves again exactly where the report says so, and so does the origin's last. A request goes back to its plan
/// exactly where it was withdrawn, and there was memory for it.
pub(crate) fn tell(course: &mut Course, report: CourseReport)
    requires moves { moves course.old ≡ true }
    requires runs { course.old.stopping ≡ false }
    ensures goes { Goes course.old course.new }
    ensures leaves { Leaves course.old course.new }
    ensures served { IsToldServed report.served course.old.connection course.new.connection }
    ensures lost { report.end ≡ End.Lost → is_gone course.new.phase ≡ true }
    ensures stops { report.end ≡ End.Stopped → Halts course.old course.new false }
    ensures stopped { report.end ≡ End.Stopped → report.has_answered ≡ false → IsOwed course.old course.new 503 }
    ensures owed { (why : AnyCause) → report.end ≡ End.Failed why → report.has_answered ≡ false → report.cuts ≡ false
        → IsOwed course.old course.new (status_of why) }
    ensures alone { report.has_answered ≡ true → is_refusing course.new.phase ≡ false }
    ensures keeps { is_idle course.new.phase ≡ true → report.end ≡ End.Answered true course.new.lasts }
    ensures lasts { course.new.lasts ≡ true → (course.old.lasts || keeps_origin report.end) ≡ true }
    ensures succeeds { report.cuts ≡ false → Succeeds report.has_answered report.served course.old course.new report.end }
    ensures awaits { is_answer course.new.phase ≡ true → report.end ≡ End.Sent true }
    ensures withdrawn { is_withdrawing course.new.phase ≡ true → report.end ≡ End.Withdrawn true }
    ensures again { report.end ≡ End.Withdrawn true → report.has_answered ≡ false → report.cuts ≡ false → may_come course.old Withdrawn ≡ true
        → is_withdrawing course.new.phase ≡ true }
    ensures wanting { report.end ≡ End.Withdrawn false → report.has_answered ≡ false → report.cuts ≡ false → IsOwed course.old course.new 502 }
{
    if tell_begun(course, report.has_answered) {
        tell_served(course, report.served);
        tell_end(course, report.end);
        tell_cut(course, report.cuts);
    }
}

/// The first byte of a further request came, or of the first one.
pub(crate) fn begin_head(course: &mut Course)
    requires { due_of course.old ≡ dues.ReadRequest }
    ensures course { course.new ≡ begun_of course.old }
    ensures goes { Goes course.old course.new }
    ensures due { due_of course.new ≡ dues.ReadRequest }
    ensures head { is_head course.new.phase ≡ true }
    ensures kept { (course.new.connection ≡ course.old.connection) × (course.new.stake ≡ course.old.stake) × (course.new.origin ≡ course.old.origin) }
{
    if course.state().phase == Phase::Idle {
        course.done(Event::HeadBegun);
    }
}

/// Takes it that the proxy stops. A request of whose head a part came goes no further: so its user is refused.
pub(crate) fn take_stop(course: &mut Course, is_in_head: bool)
    requires still { moves course.old ≡ false }
    requires may { may_come course.old Stop ≡ true }
    ensures goes { Goes course.old course.new }
    ensures leaves { Leaves course.old course.new }
    ensures stops { Halts course.old course.new is_in_head }
    ensures led { course.new ≡ stopped_of is_in_head course.old }
{
    if is_in_head && course.may(Event::Failed(RefusalCause::Stopping)) {
        course.take(Event::Failed(RefusalCause::Stopping));
        course.take(Event::Stop);
    } else {
        course.take(Event::Stop);
    }
}
