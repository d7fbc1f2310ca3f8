//! What the proxy decides of a message beside its transaction: the origin, the plan, the heads, and what becomes
//! of a connection.
//!
//! Each decision is a function of heads, records and configured values. Nothing here has a socket, a clock or a lock.
//!
//! Here a transaction first meets the proxy's own sides (`Running`).
#![tactic(auto)]

mod address;
mod calls;
mod connections;
mod expect;
mod head_maker;
mod incoming;
pub mod laws;
mod offer;
mod onward;
mod own_ends;
mod plans;
mod pools;
mod route;
mod running;
mod scan;
mod starting;

pub use address::{Origin, origin_of};
pub use calls::RunningCall;
pub use connections::{keeps_origin, keeps_user, may_repeat};
pub use expect::{awaits_continue, interim_continue, is_head_request};
pub use head_maker::HeadMaker;
pub use incoming::Incoming;
pub use offer::{Offer, ask_options};
pub use onward::Headed;
pub use own_ends::{OwnEnds, OwnTx, Way, Wires};
pub use plans::{limits_of, request_plan, response_plan};
pub use pools::{is_reusable_after_options, pool_maximum};
pub use route::{Route, Unrouted, route_of};
pub use running::{Accounting, Lasting, Running};
pub use starting::{Beginning, begin, may_begin};
