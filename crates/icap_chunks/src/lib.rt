//! Chunked bodies with ICAP's `ieof`, read in any pieces (RFC 9112, section 7.1; RFC 3507, section 4.5).
//!
//! Every reader and writer of bodies uses it: HTTP's, ICAP's, and `adaptproxy chunks`.
#![tactic(auto)]

mod extension;
mod fault;
pub mod laws;
mod pieces;
mod positions;
mod reader;
mod writers;

pub use fault::ChunkFault;
pub use pieces::{Outcome, Reading, read_cut, read_in_pieces};
pub use reader::{ChunkReader, Fed};
pub use std::alloc::AllocError as NoMemory;
pub use writers::{put_chunk_head, put_chunk_tail, put_last};
