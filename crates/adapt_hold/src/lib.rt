//! The core of one transaction: its history, the body bytes that it holds, and its reservation, kept in step.
//!
//! It stands apart from `adapt_turn` for the proof's sake alone: the three are proved to be in step without a side or a wire.
#![tactic(auto)]

mod hold;
pub mod laws;
mod steps;
mod store;

pub use hold::Hold;
pub use steps::{brought, fail, go_on, step_all, step_one};
