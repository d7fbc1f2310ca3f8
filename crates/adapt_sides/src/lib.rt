//! What a transaction asks of its three sides: the message's source, the service and the next hop.
//!
//! Each side stands over a wire that never blocks. A turn moves what the wire gives or takes and reports what that means, as
//! events of the history.
//!
//! The traits stand here for the proof's sake alone: a transaction is proved over them, and each engine for its own. Each has one
//! implementer.
#![tactic(auto)]

mod copied;
mod fault;
mod filling;
mod hop;
mod pieces;
mod raw;
mod saying;
mod scratch;
mod service;
mod source;
mod turn;

pub use copied::Copied;
pub use fault::{ClientFault, RelayFault};
pub use filling::{Filled, MAX_FILL, MAX_READ, body_read, fill};
pub use hop::Hop;
pub use pieces::{part_of, put_front};
pub use raw::RawBytes;
pub use saying::{Said, say};
pub use scratch::{Scratch, WIRE_ROOM};
pub use service::Service;
pub use source::Source;
pub use turn::{Turn, push_event};
