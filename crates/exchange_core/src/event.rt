//! What may happen to a user's connection.

ghost use Rattle.std.specs.Prelude.{◌≡◌};
ghost use Rattle.exchange_core.specs.Dues.{status_of};

/// Why a user gets the proxy's own refusal.
#[derive(Clone, Copy, Debug, PartialEq, Eq)]
pub enum RefusalCause {
    /// Its request is faulty, or broke off.
    Faulty,
    /// Its request is understood, but not served.
    Unserved,
    /// The origin or the service failed, isn't known, or nothing is sent to it.
    Elsewhere,
    /// Room, a connection or memory was wanting.
    Scarce,
    /// No byte moved for too long.
    Deadline,
    /// The proxy stops.
    Stopping,
}

impl RefusalCause {
    /// The status of the refusal (RFC 9110, section 15).
    pub fn status(self) -> u16
        ensures { result ≡ status_of self }
    {
        match self {
            RefusalCause::Faulty => 400,
            RefusalCause::Unserved => 501,
            RefusalCause::Elsewhere => 502,
            RefusalCause::Scarce | RefusalCause::Stopping => 503,
            RefusalCause::Deadline => 504,
        }
    }
}

/// What may happen to a user's connection. A message is a request on its way to the origin, or a response on its way to the
/// user.
#[derive(Clone, Copy, Debug)]
pub enum Event {
    /// The first byte of a further request came.
    HeadBegun,
    /// The head of a request was read.
    RequestRead,
    /// The head of the origin's response was read.
    ResponseRead,
    /// What the service said of its options serves no more, or it said nothing yet.
    Stale,
    /// All connections of the service are leased, and the message waits for one.
    Queued,
    /// A connection of the service was leased, and whether it was idle before.
    Lent {
        reused: bool,
    },
    /// The service is asked for its options on it.
    Asked,
    /// The service's options were read, and are kept; and whether the connection may serve again.
    Learned {
        usable: bool,
    },
    /// The message was planned: whether it is offered to the service, whether its user waits to be told to send its body, and
    /// whether it may be sent again.
    Planned {
        offered: bool,
        waits: bool,
        repeatable: bool,
    },
    /// What the message may need was reserved.
    Reserved,
    /// The first bytes of the text that tells the user to send its body went out, and not all.
    HalfTold,
    /// The user doesn't take the whole text now.
    Stuck,
    /// The user was told to send its body.
    Told,
    /// The origin's connection is there, and whether it was kept from an earlier exchange or is a fresh one.
    Dialed {
        kept: bool,
    },
    /// The transaction of the message stands over its wires.
    Started,
    /// The gate let it pass.
    LetPass,
    /// A fresh connection stands in place of the service's one that broke.
    Renewed,
    /// The service has said all: it left the message as it is, or its own message is whole. And whether the connection may
    /// serve again.
    Served {
        usable: bool,
    },
    /// The first byte of an answer went to the user.
    Begun,
    /// The origin has the whole request.
    Sent,
    /// The first byte of the origin's answer was read, and not its whole head.
    Heard,
    /// The origin's kept connection has ended with no byte of an answer: the request goes back to its plan, and next to a fresh one.
    Withdrawn,
    /// The user has the whole answer, whether its connection serves further requests, and whether the origin's one lasts: the
    /// origin's answer was read whole, and another request may go out there.
    Answered {
        keeps: bool,
        lasts: bool,
    },
    /// The message, or the head before it, goes no further: a side of it failed, no byte moved for too long, or what it needs
    /// can't be had, as where no connection of the service came free in time.
    Failed(RefusalCause),
    /// The service's connection was put back, or was closed and its lease given up.
    Returned {
        kept: bool,
    },
    /// The reservation was closed.
    Released,
    /// The origin's connection was closed, or was kept for later exchanges.
    HungUp {
        kept: bool,
    },
    /// The whole refusal went out.
    Refused,
    /// The user has closed after all that was said.
    UserClosed,
    /// The user's connection has failed, or ended where more was to come, or its seat went to another user.
    UserLost,
    /// The proxy closed the user's connection at once: it drains and the user says nothing, or only so does the user see that its
    /// answer isn't whole.
    Dropped,
    /// No byte moved for too long. The proxy tells it of a user that sends no head, takes no refusal, or doesn't close. Of a message
    /// that waits it tells `Failed` instead.
    Late,
    /// The proxy drains: an answer whose transaction starts from now on is the last one of its connection.
    Drain,
    /// The proxy stops.
    Stop,
    /// A refusal at a stop is out, or its user takes no more of it.
    Tried,
}
