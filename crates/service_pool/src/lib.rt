//! The connections to services: bounded pools that all threads share, how their connections are lent and waited for, when a service gets
//! none, and what each said last.
//!
//! A `Pool` has the idle connections to one service, and counts those that are leased, with a log that replays to the counts. A connection
//! is any value there. Inside its lock is a pure state, `PoolState`, with the journal and the ledger of the leases.
//!
//! `Pools` are those of both points. They lend a connection, put it back, and open another one in place of one that broke. What opens a
//! connection, brings it into use and takes it out again is a `Connector`, and what wakes a thread is an `Edge`: both are traits, and no
//! socket is here. Who waits, in the order of arrival, is a `WaitQueue`, and when a service that fails gets nothing is a `Breaker`: pure
//! values, which threads share under locks.
#![tactic(auto)]

mod book;
mod breaker;
mod breakers;
mod connector;
mod journal;
mod latest;
pub mod laws;
mod lease;
mod leased;
mod lending;
mod locked;
mod pool;
mod pools;
mod queue;
mod queues;
mod rebasing;
mod state;
mod step;
mod window;

pub use crate::book::PointBook;
pub use crate::breaker::{Breaker, PauseRule, ServiceEnd};
pub use crate::breakers::Breakers;
pub use crate::connector::{Act, Connector, Edge, Keeper, LendFault};
pub use crate::journal::Journal;
pub use crate::latest::Latest;
pub use crate::lease::{Lease, Taken};
pub use crate::leased::{Leased, LeasedConnection, Limit, Maximum};
pub use crate::locked::{Limited, Locked, SetTo};
pub use crate::pool::Pool;
pub use crate::pools::Pools;
pub use crate::queue::{First, JoinFault, Next, WaitQueue, Waiter};
pub use crate::queues::{Call, Handover, POINTS, Queues, Waiting};
pub use crate::rebasing::RebasingJournal;
pub use crate::state::{Checked, Choice, Found, PoolState};
pub use crate::step::{AuditFault, LEDGER_PARTS, Numbers, Over, PoolStep};
pub use crate::window::Window;
pub use std::alloc::AllocError as NoMemory;
