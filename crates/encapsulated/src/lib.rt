//! The Encapsulated list: which heads and which body a message carries, and at which offsets (RFC 3507, section 4.4.1).
//!
//! [`read`] takes the value of an Encapsulated field and returns a [`Layout`], or the first
//! [`EncFault`] that applies; it never allocates. [`write`] makes the text of a layout.
//! Offsets count bytes from the first byte after the ICAP head.
//!
//! Neither looks at fields: the caller decides what a missing or a second Encapsulated field means.
//! An empty value is [`EncFault::Syntax`].
//!
//! Requests, responses and OPTIONS answers have such lists. `icap_client` and `icap_server` both read them.
#![tactic(auto)]

mod fault;
mod items;
pub mod laws;
mod message;
mod offsets;
mod parts;
mod reader;
mod seen;
mod writer;

pub use fault::EncFault;
pub use message::Direction;
pub use offsets::Layout;
pub use parts::{BodyPart, Part};
pub use reader::read;
pub use std::alloc::AllocError as NoMemory;
pub use writer::write;
