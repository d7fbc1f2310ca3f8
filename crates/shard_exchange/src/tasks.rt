//! What an exchange is told to do, and how far it came.

/// What an exchange is to do.
#[derive(Clone, Copy)]
pub enum Task {
    /// What is due.
    Step,
    /// To end, because the user is gone, or its seat goes to another user: all that is held goes back.
    Lose,
    /// To end, because the proxy stops. A user of whose request a part came, and to whom no byte of an answer went, is to be refused.
    Halt,
    /// To have the user of a stopped exchange take its refusal, and to drop what it still sends after that.
    TakeLeave,
}

/// How far a task came.
#[derive(Clone, Copy, PartialEq, Eq)]
pub enum Step {
    /// There may be more to do.
    On,
    /// There may be more to do after a round of turns. So many of the bytes that moved are no body's.
    Turned { framing: u64 },
    /// There may be more to do, but nothing moved that puts off the deadline.
    Unmoved,
    /// Each connection waits for an event.
    Waits,
    /// The user's connection is over, and nothing is held.
    Over,
}
