//! What an administrator sees: the log, the counters, a new capacity, and what is left at a stop.
//!
//! The loops note what happens under the key of an exchange, and count it; the administrator's loop writes the lines and adds the
//! numbers up. Nothing here knows a socket or the engine of a protocol.
#![tactic(auto)]

mod address;
mod append;
mod audit;
mod capacity;
mod clock;
mod heads;
mod labels;
pub mod laws;
mod lines;
mod log;
mod notes;
mod output;
mod reasons;
mod stats;
mod tally;

pub use address::address_of;
pub use append::Append;
pub use audit::{ProxyFault, StopAudit};
pub use capacity::change_capacity;
pub use clock::moment;
pub use heads::{kind_in, kind_of, request_line, status_in, what_was_found, without_query};
pub use log::Log;
pub use notes::{Note, Notes, elapsed_of, status_of, why_of};
pub use reasons::{Evidence, failed_word, verdict_of};
pub use stats::{Figures, stats_text};
pub use tally::{Bound, Class, Count, Dealing, LoopTally};
