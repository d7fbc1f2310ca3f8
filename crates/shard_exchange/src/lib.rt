//! One exchange: a user's connection, its requests one after another, and what becomes of them.
//!
//! The exchange asks its course what is due, has it done over what it holds, and tells the course what came of it. What it holds is one
//! value to it, which holds just what the course counts, and says what is in hand of that. It has no sockets, no clock and no threads.
//!
//! It stands apart from `shard_message` for the proof's sake alone: what it asks of what it holds are traits, each with one
//! implementer, so an exchange is proved by these alone.
#![tactic(auto)]

mod answers;
mod course;
mod deeds;
mod effects;
mod ends;
mod exchange;
mod heads;
mod holder;
mod leasing;
mod loss;
mod moving;
mod needs;
mod options;
mod own_texts;
mod reason;
mod returning;
mod step;
mod stop;
mod tasks;

pub use answers::{HeadTurn, Lingered, Marks, OptionsTurn, Round, Started, Unplanned, Withdrawal};
pub use deeds::Stepping;
pub use effects::Effects;
pub use ends::{CourseReport, End, EndedBy};
pub use exchange::Exchange;
pub use exchange_report::Reason;
pub use holder::{Holder, InHand};
pub use reason::{
    is_end_of_wire, lend_reason, open_reason, options_reason, origin_head_reason, record_reason,
    request_reason, user_head_reason,
};
pub use tasks::{Step, Task};
