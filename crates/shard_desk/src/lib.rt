//! The work of a thread's loop: its users' seats, their exchanges, each in a slot, and what these stand on.
//!
//! A `Shard` drives, drains and ends the exchanges of its users. A seat has what is known of a user's connections: their readiness, when
//! they last moved, and whether the user is spared for another one. A line is what the poll of the thread reports a connection to an
//! origin or a service under: it goes from an exchange to another one with its connection, or lies idle between them. A `Spot` is where
//! an exchange stands in the loop of its thread.
//!
//! A `Desk` is the `Outside` of its thread's exchanges: sockets, pools, and what is noted of them. `DeskExchanges` are these exchanges, at
//! their desk: what becomes of each, and what the administrator gets to see of it. Which step of an exchange follows which isn't known
//! here.
//!
//! It stands apart from `shard_loop`, so that a change of the threads proves no desk anew.
#![tactic(auto)]

mod connections;
mod desk;
mod desk_exchanges;
mod dials;
mod driving;
mod exchanges;
mod headers;
mod hearing;
mod kept;
pub mod laws;
mod lines;
mod origins;
mod outside;
mod pausing;
mod pools;
mod reporter;
mod seat;
mod seating;
mod seats;
mod shard;
mod shared;
mod showing;
mod spot;
mod standings;
mod terms;
mod words;

pub use desk::Desk;
pub use desk_exchanges::DeskExchanges;
pub use exchanges::{Exchanges, Slotted};
pub use hearing::Hearing;
pub use kept::{Heard, IdleConnections, Moment, Rests};
pub use lines::{IdleLine, SinceLaid};
pub use origins::KeptOrigin;
pub use pools::{Loops, SharedPools, Spare, pools_of};
pub use reporter::Noted;
pub use seat::Purpose;
pub use seating::Seating;
pub use seats::Seats;
pub use shard::Shard;
pub use shared::{Shared, Shares};
pub use spot::Spot;
pub use standings::Standings;
pub use terms::Terms;
