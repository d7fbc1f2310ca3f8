//! The bank that a row's calls and transactions share.

use span_bank::{Bank, Ledgers};

/// A row's bank, and what waits for its lock.
#[derive(Drop)]
pub struct RowBank<'a, B: Ledgers, R> {
    pub rt: &'a R,
    pub bank: &'a Bank<B>,
}
