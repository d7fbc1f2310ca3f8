//! Text that goes out by turns: a head, then a body as it is or in chunks, with at most one write a turn.
//!
//! Both engines write by it: a request to a service, a message or a refusal to the next hop.
#![tactic(auto)]

mod draft;
mod head;
mod next;
mod writer;

pub use draft::WRITE_ROOM;
pub use next::{Ending, MAX_CHUNK, Next, USUAL_CHUNK};
pub use writer::{ChunkWriter, Wrote};
