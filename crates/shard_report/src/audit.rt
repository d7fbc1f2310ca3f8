//! What is left when the proxy stops.

use std::error::Error;
use std::fmt::{self, Display};

/// What the audits of the buffer budget and of the pools found.
#[derive(Clone, Copy, PartialEq, Eq)]
pub struct StopAudit {
    /// Reservations that were still open.
    pub rows: u64,
    /// Bytes that they held.
    pub held: u64,
    /// Leases that were still out, of all pools.
    pub leased: u64,
}

/// Why the proxy can't serve, or not go on.
#[derive(Clone, Copy, Debug, PartialEq, Eq)]
pub enum ProxyFault {
    /// A poll of the system can't be had.
    System,
    /// The system fails a loop while it serves: its poll or its clock, or the thread of another loop doesn't begin.
    Loop,
    /// A reservation or a lease is missing.
    Missing,
    /// No memory was found.
    NoMemory,
    /// That it serves can't be said.
    Unheard,
}

impl Display for ProxyFault {
    fn fmt<W: fmt::Write>(&self, f: &mut fmt::Formatter<W>) -> fmt::Result {
        f.write_str(match self {
            ProxyFault::System | ProxyFault::Loop => "cannot listen",
            ProxyFault::Missing => "audit missing",
            ProxyFault::NoMemory => "out of memory",
            ProxyFault::Unheard => "write failed",
        })
    }
}

impl Error for ProxyFault {}
