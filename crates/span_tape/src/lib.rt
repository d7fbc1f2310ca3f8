//! A retained body buffer: the bytes of one body from a base offset to an end offset.
//!
//! It knows no lock: pages are handed in and out.
#![tactic(auto)]

mod queue;
mod tape;

pub use crate::tape::{MAX_TAPE, SpanTape};
pub use span_bank::Pages;
