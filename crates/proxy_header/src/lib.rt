//! The header of the PROXY protocol, with which a load balancer says where a user's connection comes from (proxy-protocol.txt, sections 2.1
//! and 2.2).
//!
//! [`read`] takes the first bytes of a connection. It keeps nothing: whoever has got a part of a header calls it again with more of it.
//!
//! Taken are TCP over IPv4, and the headers that say no address. Those of other families are faults.
#![tactic(auto)]

mod block;
pub mod laws;
mod line;
mod reading;
mod words;

pub use reading::{Header, MAX_HEADER, Reading, read};
