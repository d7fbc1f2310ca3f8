//! The lending of connections: pools and queues over connections in memory, one step after another.

mod play;
mod stage;
mod steps;
mod words;

pub use play::put_play;
