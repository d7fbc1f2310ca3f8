//! How messages end.

ghost use Rattle.std.specs.Prelude.{◌≡◌, ◌&&◌, None, false, true};
ghost use Rattle.shard_exchange.specs.EndedBy.{EndsBy, IfItself, is_good, served_as};
ghost use Rattle.shard_message.specs.Ended.{IfOther, IsEndOf, is_cut, message_in};

use crate::refusal_causes::refusal_cause_after;
use adapt_turn::Outcome;
use exchange_core::RefusalCause;
use shard_exchange::{CourseReport, End, EndedBy};
use std::boxed::Box;
use trace_core::{Cause, Point};

/// How a transaction ended that this ended, which had this outcome itself. `None` where its user was gone before.
pub(crate) fn outcome_by(by: EndedBy, own: Outcome) -> Option<Outcome> {
    match by {
        EndedBy::Itself => Some(own),
        EndedBy::Gate | EndedBy::Stop => Some(Outcome::Fail(Cause::Stopping)),
        EndedBy::Deadline => Some(Outcome::Fail(Cause::Deadline)),
        EndedBy::User => None,
    }
}

/// What comes of a message.
#[derive(Drop)]
pub(crate) enum Sequel<M> {
    /// The origin has the whole request. This is its response, where memory was found for it.
    Sent(Option<Box<M>>),
    /// The user has the whole answer.
    Answered {
        /// Its next request, where its connection serves further.
        next: Option<Box<M>>,
        /// Whether another request may go out on the origin's connection.
        lasts: bool,
    },
    /// The origin's kept connection has ended with no byte of an answer. This is the request again, where memory was found for it.
    Withdrawn(Option<Box<M>>),
    /// It failed.
    Failed {
        cause: Cause,
        /// Whether the user's request is of HTTP/1.0.
        is_old: bool,
    },
}

impl<M> Sequel<M> {
    /// Whether it is the request again.
    pub(crate) fn is_again(&self) -> bool {
        matches!(self, Sequel::Withdrawn(Some(_)))
    }

    /// Whether the user's connection is to be cut where a part of an answer is out of it.
    fn is_cut(&self) -> bool
        ensures { result ≡ is_cut self.now }
    {
        match self {
            Sequel::Failed { is_old, .. } => *is_old,
            _ => false,
        }
    }
}

/// What is told of the service's connection with this end: that the service has said all, where the end is a good one, or its exchange was
/// whole.
fn served_by(end: End, is_reusable: bool) -> Option<bool>
    ensures { result ≡ served_as is_reusable end }
{
    if matches!(end, End::Sent { .. } | End::Answered { .. }) || is_reusable {
        Some(is_reusable)
    } else {
        None
    }
}

/// How a message ended.
fn end_of<M>(by: EndedBy, point: Point, sequel: &Sequel<M>) -> End
    ensures by { EndsBy by result }
    ensures itself { IfItself by (IsEndOf point sequel.now result) }
{
    match by {
        EndedBy::Stop => End::Stopped,
        EndedBy::User => End::Lost,
        EndedBy::Deadline => End::Failed(RefusalCause::Deadline),
        EndedBy::Itself | EndedBy::Gate => match sequel {
            Sequel::Sent(response) => End::Sent {
                has_memory: response.is_some(),
            },
            Sequel::Answered { next, lasts } => End::Answered {
                keeps: next.is_some(),
                lasts: *lasts,
            },
            Sequel::Withdrawn(again) => End::Withdrawn {
                has_memory: again.is_some(),
            },
            Sequel::Failed { cause, .. } => {
                if *cause == Cause::NextHop && point == Point::Respmod {
                    End::Lost
                } else {
                    End::Failed(refusal_cause_after(*cause, point))
                }
            }
        },
    }
}

/// What the course is told of this end. A user of HTTP/1.0 may take the end of the connection for the end of the answer (RFC 9112,
/// section 8), so where the answer isn't whole the connection is reset.
pub(crate) fn report_of<M>(
    by: EndedBy,
    point: Point,
    has_answered: bool,
    is_reusable: bool,
    sequel: &Sequel<M>,
) -> CourseReport
    ensures ends { EndsBy by result.end }
    ensures itself { IfItself by (IsEndOf point sequel.now result.end) }
    ensures answered { result.has_answered ≡ has_answered }
    ensures cuts { result.cuts ≡ has_answered && is_cut sequel.now }
    ensures whole { is_good result.end ≡ true → result.cuts ≡ false }
    ensures served { result.served ≡ served_as is_reusable result.end }
{
    let end = end_of(by, point, sequel);
    CourseReport {
        has_answered,
        served: served_by(end, is_reusable),
        end,
        cuts: has_answered && sequel.is_cut(),
    }
}

/// The message that comes next: none where the transaction didn't end by itself.
pub(crate) fn message_of<M: Drop>(by: EndedBy, sequel: Sequel<M>) -> Option<Box<M>>
    ensures itself { IfItself by (result ≡ message_in sequel) }
    ensures other { IfOther by (result ≡ None) }
{
    match (by, sequel) {
        (
            EndedBy::Itself | EndedBy::Gate,
            Sequel::Sent(message)
            | Sequel::Withdrawn(message)
            | Sequel::Answered {
                next: message,
                lasts: _,
            },
        ) => message,
        _ => None,
    }
}
