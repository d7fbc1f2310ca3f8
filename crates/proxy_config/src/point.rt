//! The service of a point.

ghost use Rattle.std.specs.Prelude.{◌≤◌};
ghost use Rattle.adapt_bytes.specs.declared.limits.TheConstants.{MAX_CONNECTIONS};

use std::net::SocketAddrV4;

/// The service that a point's messages are offered to.
#[derive(Drop)]
pub struct ServicePoint {
    /// The service's host, an IPv4 address as text.
    pub host: String,
    /// Where the service listens.
    pub address: SocketAddrV4,
    /// The path of the service's URI, which begins with `/` and has at most 1,024 bytes.
    pub path: String,
    /// The most connections, until the service says another number.
    pub connections: u64,
    ghost some: { 1 ≤ connections },
    ghost few: { connections ≤ MAX_CONNECTIONS },
}

/// The keys of a service's table.
pub(crate) const KEYS: [&str; 4] = ["host", "port", "path", "connections"];
