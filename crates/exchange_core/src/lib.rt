//! What a user's connection is in the midst of, what may come next, and what is due: events and marks, no bytes.
//!
//! Whoever drives a connection asks what is due, does it, and reports what came of it. The laws say what holds of every list
//! of events that is taken.
//!
//! It stands apart from `shard_exchange`, which does what is due, so that no law here sees a connection.
#![tactic(auto)]

mod connection;
mod course;
mod dialing;
mod due;
mod event;
pub mod laws;
mod may;
mod phase;
mod state;

pub use connection::Connection;
pub use course::Course;
pub use dialing::Dialing;
pub use due::Due;
pub use event::{Event, RefusalCause};
pub use phase::Phase;
pub use state::CourseState;
