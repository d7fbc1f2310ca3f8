//! The commands of `adaptproxy` that need no socket: what the arguments ask for, `trace` and `chunks`, and how a configuration
//! is read, checked and refused, and what `serve` says at its end.
//!
//! It is a library, so that rows and tests can call what the program does.
#![tactic(auto)]

mod answers;
mod checking;
mod chunks;
mod command;
mod descriptors;
mod ending;
mod error;
mod keys;
pub mod laws;
mod lines;
mod memory;
mod plan_line;
mod reading;
mod reloading;
pub mod run;
mod script;
mod serve;
mod serve_error;
mod source;
mod task;
mod telling;
mod trace;
mod whole;

pub use answers::write_number;
pub use checking::{Machine, check_from, check_with, has_room};
pub use descriptors::limit_in;
pub use ending::{audit_line, error_of};
pub use error::Error;
pub use memory::memory_in;
pub use reloading::reload;
pub use serve::{configuration_of, read_configuration, say};
pub use serve_error::{ServeError, put_error};
pub use source::{Source, read_source, source_of};
pub use task::{Task, config_path, read_task, words_after};
pub use telling::{ask, line_of_words};
pub use whole::read_whole;
