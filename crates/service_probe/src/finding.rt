//! What came of a message that a service was tried with.

ghost use Rattle.std.specs.Prelude.{◌≡◌};
ghost use Rattle.service_probe.specs.ProbeOutcome.{fault_words, fault_of_side};

use adapt_sides::ClientFault;
use options_book::OptFault;

/// Which rule a service broke, or what else kept its answer away.
#[derive(Clone, Copy)]
pub enum Fault {
    /// No connection can be had.
    Refused,
    /// What came is no ICAP head (RFC 3507, section 4.3).
    Head,
    /// The list of encapsulated parts, or a part that it names, is broken (RFC 3507, section 4.4.1).
    Layout,
    /// A chunked body is broken (RFC 9112, section 7.1).
    Chunk,
    /// A reply that may not come there (RFC 3507, sections 4.5 and 4.6).
    NotLegal,
    /// A status other than 100, 200 and 204; of OPTIONS, other than 200.
    Status,
    /// The service ended its bytes before its reply was whole.
    Closed,
    /// The connection failed.
    Device,
    /// Nothing moved for too long.
    Deadline,
    /// The head of the adapted message is none of HTTP (RFC 9112, section 2).
    Message,
    /// Bytes came after the reply, that no request asked for.
    LeftOver,
    /// Of OPTIONS: no Methods field names the point's method (RFC 3507, section 4.10.2).
    NoMethods,
    /// Of OPTIONS: ISTag is missing, empty or too long (RFC 3507, section 4.7).
    NoTag,
    /// Of OPTIONS: Preview, Max-Connections or Options-TTL is no good number (RFC 3507, section 4.10.2).
    Number,
    /// Of OPTIONS: the list of encapsulated parts is none of its answers (RFC 3507, section 4.4.1).
    Encapsulated,
    /// This machine has no memory for it, or its clock or its poll fails.
    System,
}

impl Fault {
    /// That of the service's side.
    pub fn of_side(fault: ClientFault) -> Fault
        ensures { result ≡ fault_of_side fault }
    {
        match fault {
            ClientFault::Head => Fault::Head,
            ClientFault::Layout => Fault::Layout,
            ClientFault::Chunk => Fault::Chunk,
            ClientFault::NotLegal => Fault::NotLegal,
            ClientFault::Status => Fault::Status,
            ClientFault::Closed => Fault::Closed,
            ClientFault::Device => Fault::Device,
            ClientFault::NoMemory => Fault::System,
        }
    }

    /// That of an OPTIONS answer.
    pub fn of_options(fault: OptFault) -> Fault {
        match fault {
            OptFault::Status => Fault::Status,
            OptFault::NoMethods => Fault::NoMethods,
            OptFault::NoTag => Fault::NoTag,
            OptFault::Number => Fault::Number,
            OptFault::Encapsulated => Fault::Encapsulated,
            OptFault::NoMemory => Fault::System,
        }
    }

    /// Its name, and what it is.
    pub fn words(self) -> &'static [u8]
        ensures { result.now ≡ fault_words self }
    {
        match self {
            Fault::Refused => b"Refused: no connection can be had",
            Fault::Head => b"Head: no ICAP head",
            Fault::Layout => b"Layout: the Encapsulated list, or a part that it names, is broken",
            Fault::Chunk => b"Chunk: a broken chunk",
            Fault::NotLegal => b"NotLegal: a reply that may not come there",
            Fault::Status => b"Status: a status that isn't taken",
            Fault::Closed => b"Closed: the connection ended before the reply was whole",
            Fault::Device => b"Device: the connection failed",
            Fault::Deadline => b"Deadline: nothing moved for too long",
            Fault::Message => b"Message: the adapted message's head is none of HTTP",
            Fault::LeftOver => b"LeftOver: bytes after the reply, that no request asked for",
            Fault::NoMethods => b"NoMethods: Methods is missing, or lacks the method",
            Fault::NoTag => b"NoTag: ISTag is missing, empty or too long",
            Fault::Number => {
                b"Number: Preview, Max-Connections or Options-TTL is no good number"
            }
            Fault::Encapsulated => b"Encapsulated: the list is none of an OPTIONS answer",
            Fault::System => b"System: this machine has no memory for it, or its clock fails",
        }
    }
}

/// A fault, and where.
#[derive(Drop)]
pub struct Finding {
    pub fault: Fault,
    /// The offset of the first octet that broke the rule, from the beginning of what came since the request began; or how many came.
    pub at: u64,
    /// The octets from there on, up to 40.
    pub octets: Vec<u8>,
}

/// What came of a message.
#[derive(Drop)]
pub enum ProbeOutcome {
    /// An answer to OPTIONS that serves.
    Options,
    /// 204: the message goes on as it is.
    Unchanged {
        continued: bool,
    },
    /// 200: a message in its place, whose body has so many bytes.
    Changed {
        continued: bool,
        bytes: u64,
    },
    /// 200: at REQMOD an answer, at RESPMOD one of another status than 200. The user gets it.
    Page {
        continued: bool,
        status: u16,
        bytes: u64,
    },
    /// A fault.
    Broken(Finding),
}

impl ProbeOutcome {
    /// Whether the service answered by the rules.
    pub fn is_good(&self) -> bool {
        !matches!(self, ProbeOutcome::Broken(_))
    }
}
