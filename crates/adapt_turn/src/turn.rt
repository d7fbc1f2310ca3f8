//! What a turn is for, and what it answers.

use trace_core::Cause;

/// Which side a turn is for.
#[derive(Clone, Copy)]
pub enum Side {
    /// Where the message comes from.
    Source,
    /// The service: a turn writes what is due, and then reads.
    Service,
    /// Where the message goes.
    NextHop,
}

/// How a transaction ended.
#[derive(Clone, Copy, Debug, PartialEq, Eq)]
pub enum Outcome {
    /// The whole message was taken: by the next hop, or by the user where an answer went back.
    Done,
    /// It failed.
    Fail(Cause),
}

/// What a turn did.
#[derive(Clone, Copy, Debug, PartialEq, Eq)]
pub enum TurnAnswer {
    /// The wires gave and took this many bytes. Where it was none, an event was stepped, or the transaction failed.
    Moved(u64),
    /// Each wire that the turn may use answered Wait, or nothing was due.
    Waiting,
    /// The service's connection broke before a byte of a reply: the owner retries, or doesn't.
    Broken,
    /// It is closed, and no refusal is due any more. Each later turn says so again.
    Finished(Outcome),
}
