//! The tie between the locks and the world: the budget's bank and the services' pools, each with a lock of its own, take
//! exactly the steps that the events of a world's history are.
//!
//! [`world_core`] speaks of one list of events of all transactions; [`span_bank`] and [`service_pool`] of numbers and
//! the steps that change them. The laws here stand on the definitions of all three: the sums over a world's open
//! transactions are the totals of a bank, and each event that the world takes is at most one step of the bank and at
//! most one of a pool, which leads from the numbers before it to those after it. What the world refuses for want of
//! room the bank or the pool refuses, on the same condition.
//!
//! And a held byte's script needs no other thread. Whatever lies under a lock, a [`Hold`](adapt_hold::Hold) takes its events
//! by its own two calls ([`sending::send_held`]), and the whole world takes them whatever other transactions do meanwhile.
//!
//! No program runs it. It stands apart for the proof's sake alone: a change of a law here proves no transaction anew.
#![tactic(auto)]

pub mod bank;
pub mod pool;
pub mod script;
pub mod sending;
