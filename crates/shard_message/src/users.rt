//! What an exchange has its surroundings do by its course: for a user that is refused or closes, and for a message that waits.

ghost use Rattle.std.specs.Prelude.{◌≡◌, IfSome};
ghost use Rattle.exchange_core.specs.declared.phase.Phase.TheVariants.{InQueue};
ghost use Rattle.trace_core.specs.declared.history.Point.{Point as AnyPoint};
ghost use Rattle.shard_exchange.specs.Saying.{past_of};
ghost use Rattle.shard_message.specs.Waits.{GivesNone};

use crate::outside::Outside;
use exchange_core::{Course, Phase};
use proxy_rules::Incoming;
use shard_exchange::{Lingered, Reason};
use std::boxed::Box;

/// Takes note of a refusal, where one goes out.
pub fn note_refused<P, O: Outside<P>>(
    at: &P,
    out: &mut O,
    course: &Course,
    user: &Option<O::User>,
    message: &Option<Box<Incoming>>,
    reason: Reason,
) {
    if course.state().is_mid_text() {
        return;
    }
    let message: Option<&Incoming> = match message {
        Some(message) => Some(message),
        None => None,
    };
    if let Some(user) = user {
        out.note_refusal(at, user, message, reason);
    }
}

/// Says to a user that nothing more comes.
pub fn finish_user<P, O: Outside<P>>(user: &Option<O::User>) {
    if let Some(user) = user {
        O::finish(user);
    }
}

/// Drops what a user still sends.
pub fn linger_on<P, O: Outside<P>>(user: &mut Option<O::User>, out: &mut O) -> Lingered
    ensures lingers { IfSome user.old (λ old. IfSome user.new (λ new. O.lingers old new result)) }
    ensures waits { result ≡ Lingered.Waiting → GivesNone (past_of O.User.past user.old) (past_of O.User.past user.new) }
{
    match user {
        Some(user) => out.linger(user),
        None => Lingered::Over,
    }
}

/// Has a message that waits for a connection of its service wait no more.
pub fn leave_queue<P, O: Outside<P>>(at: &P, out: &mut O, course: &Course)
    ensures { (point : AnyPoint) → course.now.phase ≡ InQueue point → O.leaves out.new at.now point }
{
    if let Phase::InQueue { point } = course.state().phase {
        out.leave_queue(at, point);
    }
}

/// Takes note that an exchange ends at a stop, where no refusal goes out.
pub fn note_stopped<P, O: Outside<P>>(at: &P, out: &mut O, course: &Course) {
    if course.state().phase == Phase::Gone {
        out.note_stop(at);
    }
}
