//! What is answered to an exchange that asks for a thing.

ghost use Rattle.std.specs.Prelude.{◌≡◌};

use adapt_sides::{ClientFault, RelayFault};
use exchange_report::Reason;
use icap_head::IcapResponse;

/// What a turn at a head brought.
#[derive(Clone, Copy)]
pub enum HeadTurn {
    /// The head was read.
    Whole,
    /// Bytes of it came.
    More,
    /// An interim response before it was dropped, or bytes came after one. That puts off no deadline, and bytes after it may have come
    /// with it.
    Interim,
    /// Nothing came.
    Nothing,
    /// There is no head.
    Fault(RelayFault),
}

/// What a turn at asking heard.
pub enum OptionsTurn {
    /// The whole answer.
    Answer(IcapResponse),
    /// Something moved.
    More,
    /// Nothing yet.
    Nothing,
    /// No answer comes.
    Fault(ClientFault),
}

/// Why a message has no plan.
pub enum Unplanned {
    /// What its service said of its options serves no more.
    Stale,
    /// It goes no further.
    Refused(Reason),
}

impl Unplanned {
    ghost use Rattle.shard_exchange.specs.Reasons.{unplanned_reason};

    /// Why a message is refused that has no plan, though its service was asked.
    pub fn reason(self) -> Reason
        ensures { result ≡ unplanned_reason self }
    {
        match self {
            Unplanned::Stale => Reason::ServiceRefused,
            Unplanned::Refused(reason) => reason,
        }
    }
}

/// What a plan says of its message.
#[derive(Clone, Copy)]
pub struct Marks {
    /// Whether it is offered to its service.
    pub offered: bool,
    /// Whether its user waits to be told to send its body.
    pub waits: bool,
    /// Whether it may be sent again without harm, and so go out on a connection that was kept (RFC 9112, section 9.3.1).
    pub repeatable: bool,
}

/// What came of a request whose origin's kept connection has ended before an answer was read.
#[derive(Clone, Copy)]
pub enum Withdrawal {
    /// It is the message again.
    Again,
    /// It isn't sent again: its origin has said something.
    Heard,
    /// No memory was found for it.
    NoMemory,
}

/// What came of starting a message's transaction.
#[derive(Clone, Copy)]
pub enum Started {
    /// The message moves.
    Moves,
    /// It can't begin, or no memory was found for it.
    Fails,
    /// Its user is gone.
    NoUser,
}

/// What a turn of a message's transaction, or a round of turns, did.
#[derive(Clone, Copy, PartialEq, Eq)]
pub enum Round {
    /// Something moved. So many of the bytes that the wires gave and took are no body's: heads, and what frames bodies.
    Moved { framing: u64 },
    /// Each wire waits.
    Waiting,
    /// The service's connection broke, and the request may begin anew.
    Broken,
    /// The transaction is over.
    Over,
}

/// How far what the user still sends was dropped.
#[derive(Clone, Copy)]
pub enum Lingered {
    /// The user has ended its bytes, or its connection has failed.
    Over,
    /// It may still send.
    Waiting,
    /// It sent much: others get their turn first.
    CutShort,
}
