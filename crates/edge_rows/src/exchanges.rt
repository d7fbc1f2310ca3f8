//! Whole connections of users: exchanges over wires in memory.

mod banks;
mod memory;
mod play;
mod schedules;
mod services;
mod words;

pub use banks::put_exchange;
