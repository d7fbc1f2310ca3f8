//! Non-blocking connections as a trait, and scripted ones in memory for tests.
//!
//! Engines and transactions are proved over the trait, so none knows a socket. `socket_wire` meets it over the system's sockets.
#![tactic(auto)]

mod counted;
mod gate;
mod memory;
mod shared;
mod stream;
mod wire;

pub use counted::{Calls, CountedWire};
pub use gate::{Gate, HoldGate, OpenGate};
pub use memory::MemoryWire;
pub use shared::{Answer, Answers, SharedWire};
pub use std::alloc::AllocError as NoMemory;
pub use stream::{ReadAnswer, WriteAnswer};
pub use wire::{Got, Put, Wire};
