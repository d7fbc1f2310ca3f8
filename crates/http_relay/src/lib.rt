//! The HTTP ends of a transaction: the source's message in, the next hop's message out (RFC 9112, sections 6 and 7).
//!
//! It is the `Source` and the `Hop` of a transaction (`adapt_sides`). It owns no socket.
#![tactic(auto)]

mod body;
mod contract;
mod due;
mod hop;
pub mod laws;
mod side;
mod source_body;

pub use adapt_sides::{RelayFault, Turn};
pub use hop::{HopStage, HopWriter};
pub use side::{Asks, HeadProgress, MAX_INTERIMS, SourceHead, SourceSide};
