//! What an exchange holds, and one message of it on its way: its transaction from the first turn to the last, and what comes of it.
//!
//! The course of an exchange says what is due. `Holdings` does it, over the connections, the lease, the reservation and the transaction
//! that it holds: each function does one thing, and says what came of it. The exchange sees all this as one value (`Effects` of
//! `shard_exchange`), so that it can do nothing else.
//!
//! What an exchange asks of its surroundings is the trait `Outside`: its connections, the budget, the clock and all notes, over sockets,
//! or over memory in a test. What is decided by their answers is here too: the plan, what a service's options say, and what the proxy
//! itself says to a user. Here are no sockets and no clock.
//!
//! It stands apart from `shard_exchange` for the proof's sake alone: a transaction over the wires of a running proxy is proved here, and
//! the crates above see only what comes of it.
#![tactic(auto)]

mod accounts;
mod asking;
mod carried;
mod connection;
mod connections;
mod doing;
mod ended;
mod heads;
mod holding;
mod holdings;
mod lasting;
pub mod laws;
mod moving;
mod options;
mod outside;
mod planning;
mod refusal_causes;
mod reusable;
mod room;
mod saying;
mod sequels;
mod settled;
mod shown;
mod sides;
mod slots;
mod start;
mod taken;
mod turns;
mod users;
mod withdrawal;

pub use accounts::Accounted;
pub use asking::{begin_anew, hear_on, is_fresh};
pub use connection::{ServiceConnection, lay_wire};
pub use connections::{Connections, Remains, take_connections};
pub use heads::{fault_of, turn_on};
pub use holdings::{Held, Holdings};
pub use lasting::LastingOrigin;
pub use moving::{Moves, Moving, OnItsWay};
pub use options::{begin_asking, hear_turn, is_reusable, keep};
pub use outside::{
    Clocked, Dialed, Kinds, MessageEnd, Noting, Origins, Outside, Services, ThreadSettings, UserEnd,
};
pub use planning::{Planned, keep_plan, service_of};
pub use refusal_causes::refusal_cause_after;
pub use reusable::Reusable;
pub use room::{MessageRoom, dial_for, make_room};
pub use saying::{lay_page, refusal_by, say_to};
pub use settled::Settled;
pub use shown::{OnShow, Shown};
pub use slots::{clear, lay, put_in, take_out};
pub use start::{Manner, manner_of};
pub use turns::{Rounding, Turning};
pub use users::{finish_user, leave_queue, linger_on, note_refused, note_stopped};
pub use withdrawal::{has_given_none, request_again};
