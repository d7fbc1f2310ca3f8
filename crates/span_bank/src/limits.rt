//! How large a bank may be. No RFC sets these limits.

/// The largest capacity of a buffer budget, in bytes.
pub const MAX_CAPACITY: u64 = 1 << 40;

/// The largest number of reservations that a buffer budget can have open.
pub const MAX_ROWS: u64 = 4096;
