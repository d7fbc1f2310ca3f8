//! Limits that several crates share. No RFC sets them, but for the largest port.

/// Each number of bytes of a body that is read, counted or kept is below this, and so is their sum.
pub const COUNT_LIMIT: u64 = 1 << 62;

/// The greatest Max-Connections (RFC 3507, section 4.10.2) that is used or said. Where a service allows more
/// connections, this many are open at most.
pub const MAX_CONNECTIONS: u64 = 1024;

/// The largest size of a head in HTTP and in ICAP, its empty line included, in bytes.
pub const MAX_HEAD: usize = 16_384;

/// The largest number of fields of a head, in HTTP and in ICAP.
pub const MAX_FIELDS: usize = 100;

/// The greatest preview (RFC 3507, section 4.5) that may be configured, in bytes: as the most that the proxy sends, or as
/// what the ICAP server asks for.
pub const MAX_PREVIEW: u64 = 65_536;

/// The greatest limit on a body that is kept for a 204 outside a preview (RFC 3507, section 4.6), in bytes.
pub const MAX_ALLOW_LIMIT: u64 = 1_048_576;

/// The largest read-ahead window, in bytes.
pub const MAX_WINDOW: u64 = 65_536;

/// The largest input that a program reads, in bytes: a configuration, a script of events, chunks to read.
pub const MAX_INPUT: usize = 1_048_576;

/// The largest size of a short text that is written without allocating, in bytes.
pub const MAX_SMALL: usize = 64;

/// The largest port (RFC 9293, section 3.1).
pub const MAX_PORT: u64 = 65_535;
