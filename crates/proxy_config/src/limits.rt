//! The greatest number of threads, for the crates above, and the bounds of a turn.

/// The most threads.
pub const MAX_SHARDS: u64 = 64;

/// The fewest body bytes that a turn may be allowed to move, and the number where the configuration says none.
pub const LEAST_TURN: u64 = 4_096;

/// The most body bytes that a turn may be allowed to move.
pub const MAX_TURN: u64 = 65_536;
