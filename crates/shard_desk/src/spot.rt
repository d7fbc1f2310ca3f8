//! Where an exchange stands in the loop of its thread.

use mio::Registry;

/// The place of an exchange in the loop of its thread: what reaches the system, the poll, the gate that its transactions ask before they
/// move, if there is one, its key, and the moment in seconds.
#[derive(Drop)]
pub struct Spot<'r, R, G> {
    pub rt: &'r R,
    pub registry: &'r Registry,
    pub gate: Option<&'r G>,
    pub key: usize,
    pub now: u64,
}
