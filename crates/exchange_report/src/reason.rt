//! Why the proxy answers a request itself, or cuts an answer: the one table of reasons.

ghost use Rattle.std.specs.Prelude.{◌≡◌, IsTrue};
ghost use Rattle.http_side.specs.Refusals.{is_own_status};
ghost use Rattle.exchange_report.specs.Reasons.{number_of, reason_word, cause_of, status_of};

use exchange_core::RefusalCause;

/// Why the proxy answers a request itself, or cuts the answer to it.
#[derive(Clone, Copy)]
pub enum Reason {
    /// The request's head breaks the grammar, or is refused.
    BadRequest,
    /// The request asks for what this proxy doesn't do: CONNECT, or a coding other than chunked.
    NotServed,
    /// The request's body broke off, or its framing broke.
    RequestBroken,
    /// The host has no entry, or the address is the proxy's own.
    UnknownHost,
    /// The origin is in a network to which no request is sent.
    Denied,
    /// No connection to the origin can be had.
    OriginRefused,
    /// The origin broke off, or what it answered is no HTTP.
    OriginBroken,
    /// The origin moved no byte for too long.
    OriginDeadline,
    /// No connection to the service can be had.
    ServiceRefused,
    /// The service's status isn't one that is taken, or its OPTIONS response doesn't serve.
    ServiceStatus,
    /// The service broke off, or what it answered is no ICAP or may not come there.
    ServiceBroken,
    /// The service moved no byte for too long.
    ServiceDeadline,
    /// The service failed so often in a row that nothing goes to it for a while.
    ServicePaused,
    /// All connections to the service are leased.
    Busy,
    /// The reservations would pass the buffer budget's capacity.
    Full,
    /// As many transactions are open as there may be.
    NoRow,
    /// As many users are in the midst of an exchange as there may be.
    NoSeat,
    /// No memory, no descriptor or no port was found.
    NoMemory,
    /// The user moved no byte for too long.
    UserDeadline,
    /// The proxy is stopping.
    Stopping,
}

/// All reasons, in the order of their numbers.
pub const REASONS: [Reason; 20] = [
    Reason::BadRequest,
    Reason::NotServed,
    Reason::RequestBroken,
    Reason::UnknownHost,
    Reason::Denied,
    Reason::OriginRefused,
    Reason::OriginBroken,
    Reason::OriginDeadline,
    Reason::ServiceRefused,
    Reason::ServiceStatus,
    Reason::ServiceBroken,
    Reason::ServiceDeadline,
    Reason::ServicePaused,
    Reason::Busy,
    Reason::Full,
    Reason::NoRow,
    Reason::NoSeat,
    Reason::NoMemory,
    Reason::UserDeadline,
    Reason::Stopping,
];

/// What the table says of a reason.
#[derive(Clone, Copy)]
struct ReasonRow {
    word: &'static [u8],
    cause: RefusalCause,
}

/// A row of the table.
fn row(word: &'static [u8], cause: RefusalCause) -> ReasonRow
    ensures word { result.word.now ≡ word.now }
    ensures cause { result.cause ≡ cause }
{
    ReasonRow { word, cause }
}

impl Reason {
    /// Its row: the word for it, and the cause that the course of an exchange is told.
    fn row(self) -> ReasonRow
        ensures word { result.word.now ≡ reason_word self }
        ensures cause { result.cause ≡ cause_of self }
    {
        match self {
            Reason::BadRequest => row(b"bad-request", RefusalCause::Faulty),
            Reason::NotServed => row(b"not-served", RefusalCause::Unserved),
            Reason::RequestBroken => row(b"request-broken", RefusalCause::Faulty),
            Reason::UnknownHost => row(b"unknown-host", RefusalCause::Elsewhere),
            Reason::Denied => row(b"denied", RefusalCause::Elsewhere),
            Reason::OriginRefused => row(b"origin-refused", RefusalCause::Elsewhere),
            Reason::OriginBroken => row(b"origin-broken", RefusalCause::Elsewhere),
            Reason::OriginDeadline => row(b"origin-deadline", RefusalCause::Deadline),
            Reason::ServiceRefused => row(b"service-refused", RefusalCause::Elsewhere),
            Reason::ServiceStatus => row(b"service-status", RefusalCause::Elsewhere),
            Reason::ServiceBroken => row(b"service-broken", RefusalCause::Elsewhere),
            Reason::ServiceDeadline => row(b"service-deadline", RefusalCause::Deadline),
            Reason::ServicePaused => row(b"service-paused", RefusalCause::Elsewhere),
            Reason::Busy => row(b"busy", RefusalCause::Scarce),
            Reason::Full => row(b"full", RefusalCause::Scarce),
            Reason::NoRow => row(b"no-row", RefusalCause::Scarce),
            Reason::NoSeat => row(b"no-seat", RefusalCause::Scarce),
            Reason::NoMemory => row(b"no-memory", RefusalCause::Scarce),
            Reason::UserDeadline => row(b"user-deadline", RefusalCause::Deadline),
            Reason::Stopping => row(b"stopping", RefusalCause::Stopping),
        }
    }

    /// Its number among [`REASONS`].
    pub fn number(self) -> usize
        ensures { result ≡ number_of self }
    {
        self as usize
    }

    /// The word for it, in lines and labels.
    pub fn word(self) -> &'static [u8]
        ensures { result.now ≡ reason_word self }
    {
        self.row().word
    }

    /// The cause that the course of an exchange is told.
    pub fn cause(self) -> RefusalCause
        ensures { result ≡ cause_of self }
    {
        self.row().cause
    }

    /// The status of the proxy's own response, one of those that [`http_side::own_refusal`] has a text for: that of its cause.
    pub fn status(self) -> u16
        ensures status { result ≡ status_of self }
        ensures own { IsTrue (is_own_status result) }
    {
        self.cause().status()
    }
}
