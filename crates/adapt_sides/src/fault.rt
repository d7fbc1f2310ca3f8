//! Why a side can't go on.

ghost use Rattle.std.specs.Prelude.{◌≡◌};
ghost use Rattle.adapt_sides.specs.FaultNames.{client_fault_number, client_fault_name, relay_fault_number, relay_fault_name};

use std::error::Error;
use std::fmt::{self, Display};

/// Why the service's side can't go on. After a fault each turn answers it again.
#[derive(Clone, Copy, Debug, PartialEq, Eq)]
pub enum ClientFault {
    /// The head of a reply isn't an ICAP head (RFC 3507, section 4.3).
    Head = 1,
    /// The list of encapsulated parts, or a part that it names, is broken (RFC 3507, section 4.4.1).
    Layout = 2,
    /// A chunked body is broken (RFC 9112, section 7.1).
    Chunk = 3,
    /// A reply that may not come there (RFC 3507, sections 4.5 and 4.6).
    NotLegal = 4,
    /// A status other than 100, 200 and 204.
    Status = 5,
    /// The service ended its bytes before the reply was whole.
    Closed = 6,
    /// The connection failed.
    Device = 7,
    /// No memory was found.
    NoMemory = 8,
}

impl ClientFault {
    /// The fault's number, 1 to 8.
    pub fn number(self) -> u64
        ensures { result ≡ client_fault_number self }
    {
        self as u64
    }

    /// The fault's name, as `NotLegal`.
    pub fn name(self) -> &'static str
        ensures { result.now ≡ client_fault_name self }
    {
        match self {
            ClientFault::Head => "Head",
            ClientFault::Layout => "Layout",
            ClientFault::Chunk => "Chunk",
            ClientFault::NotLegal => "NotLegal",
            ClientFault::Status => "Status",
            ClientFault::Closed => "Closed",
            ClientFault::Device => "Device",
            ClientFault::NoMemory => "NoMemory",
        }
    }
}

impl Display for ClientFault {
    fn fmt<W: fmt::Write>(&self, f: &mut fmt::Formatter<W>) -> fmt::Result {
        f.write_str(self.name())
    }
}

impl Error for ClientFault {}

/// Why a side that speaks HTTP can't go on. After a fault each turn answers it again.
#[derive(Clone, Copy, Debug, PartialEq, Eq)]
pub enum RelayFault {
    /// The head isn't one of HTTP, or isn't forwarded (RFC 9112, sections 2 to 6).
    Head = 1,
    /// A chunked body is broken (RFC 9112, section 7.1).
    Chunk = 2,
    /// The peer ended its bytes before the message was whole (RFC 9112, section 8).
    Closed = 3,
    /// The connection failed.
    Device = 4,
    /// The body has another length than its Content-Length.
    Length = 5,
    /// No memory was found.
    NoMemory = 6,
}

impl RelayFault {
    /// The fault's number, 1 to 6.
    pub fn number(self) -> u64
        ensures { result ≡ relay_fault_number self }
    {
        self as u64
    }

    /// The fault's name, as `Length`.
    pub fn name(self) -> &'static str
        ensures { result.now ≡ relay_fault_name self }
    {
        match self {
            RelayFault::Head => "Head",
            RelayFault::Chunk => "Chunk",
            RelayFault::Closed => "Closed",
            RelayFault::Device => "Device",
            RelayFault::Length => "Length",
            RelayFault::NoMemory => "NoMemory",
        }
    }
}

impl Display for RelayFault {
    fn fmt<W: fmt::Write>(&self, f: &mut fmt::Formatter<W>) -> fmt::Result {
        f.write_str(self.name())
    }
}

impl Error for RelayFault {}
