//! The commands of `icapd`: what the arguments ask for, how a configuration is read and refused, one connection over standard
//! input, and connections over sockets.
//!
//! It is a library, so that rows and tests can call what the program does.
#![tactic(auto)]

mod command;
mod config;
mod error;
mod patience;
mod places;
mod seats;
mod sockets;
mod standard_input;

pub use command::{IcapdCommand, read_command};
pub use config::{IcapdConfig, read_config};
pub use error::{IcapdError, Key, put_error};
pub use icap_services::Settings;
pub use places::ServerShared;
pub use sockets::{accept_one, serve_sockets};
pub use standard_input::{once, read_input};
