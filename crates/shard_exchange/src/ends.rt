//! How messages end, as far as the course of an exchange is told.

use exchange_core::RefusalCause;

/// What ends a transaction.
#[derive(Clone, Copy)]
pub enum EndedBy {
    /// Its own outcome.
    Itself,
    /// The gate, which doesn't let it pass.
    Gate,
    /// A deadline.
    Deadline,
    /// The end of the proxy.
    Stop,
    /// The end of its user.
    User,
}

/// What the end of a transaction is to the course of its exchange.
#[derive(Clone, Copy, PartialEq, Eq)]
pub enum End {
    /// The origin has the whole request. Its response is waited for, where memory was found for that.
    Sent { has_memory: bool },
    /// The user has the whole answer; its connection serves further requests or not, and the origin's one lasts or not.
    Answered { keeps: bool, lasts: bool },
    /// The origin's kept connection has ended with no byte of an answer. The request is there again, where memory was found for that.
    Withdrawn { has_memory: bool },
    /// The message goes no further.
    Failed(RefusalCause),
    /// The proxy stops.
    Stopped,
    /// The user's connection has failed.
    Lost,
}

/// What the course is told of a transaction that is over.
#[derive(Clone, Copy)]
pub struct CourseReport {
    /// Whether a byte of an answer went to the user.
    pub has_answered: bool,
    /// Where the service has said all on its connection: whether that may carry another request.
    pub served: Option<bool>,
    pub end: End,
    /// Whether the user is to see that what it got isn't whole.
    pub cuts: bool,
}
