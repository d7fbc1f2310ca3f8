//! The proxy: its threads, the administrator's loop, and what is left once all have ended.
//!
//! A thread's loop is one of `event_loop`, whose work is a `Shard` of `shard_desk`: exchanges of `shard_exchange` in slots, which are the
//! `DeskExchanges` of that thread.
//!
//! Here threads, exchanges and sockets meet. `serve` is all that it offers.
#![tactic(auto)]

mod admission;
mod asking;
mod bases;
mod board;
mod crew;
mod left;
mod office;
mod reloading;
mod replaced;
mod running;

pub use board::Rules;
pub use event_loop::{AdminPorts, listen_beside};
pub use left::Stopped;
pub use reloading::Reloads;
pub use running::serve;
pub use shard_report::{Append, ProxyFault, StopAudit};
