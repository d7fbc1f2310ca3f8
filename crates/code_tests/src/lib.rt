//! Tests that rows can't hold: they need sockets, or would have to abort. A socket's wire, the room for users, the connections of `icapd`,
//! `adaptproxy serve` scene by scene, and audits that lack something.
#![tactic(auto)]

#[cfg(test)]
mod audits;
#[cfg(test)]
mod connections;
#[cfg(test)]
mod ports;
#[cfg(test)]
mod rooms;
#[cfg(test)]
mod serving;
#[cfg(test)]
mod sockets;
#[cfg(test)]
mod streams;
