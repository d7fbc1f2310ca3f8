//! Tries a service: its options in words, and what it answers to messages of each kind, through the proxy's own client (RFC 3507).
//!
//! What is sent, what is said of an answer and the status are functions of values. What a service answers is behind a socket, and no
//! contract says it.
#![tactic(auto)]

mod attempt;
mod bench;
mod choice;
mod excerpt;
mod finding;
mod line;
mod message;
mod options;
mod prepared;
mod report;
mod samples;
mod service;
mod stage;
mod tap;
mod text;
mod text_stream;
mod verdict;

pub use attempt::ProbeAttempt;
pub use bench::{Bench, probe};
pub use choice::{MAX_COUNT, SampleChoice, read_choice};
pub use finding::{Fault, Finding, ProbeOutcome};
pub use report::{ConnectionUse, put_attempt};
pub use samples::{SAMPLES, Sample};
