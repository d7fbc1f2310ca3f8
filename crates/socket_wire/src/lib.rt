//! Sockets that never block as wires, their readiness, and the tokens under which a poll reports them.
//!
//! It stands apart from the loops, so that what a wire makes of the system's calls is proved over any stream.
#![tactic(auto)]

mod calls;
mod dial;
mod ready;
mod role;
mod socket;
mod stream;
mod tally;
mod token;

pub use calls::Calls;
pub use dial::Dial;
pub use ready::Readiness;
pub use role::{Called, Caller, Origin, OriginWire, Role, Service, ServiceWire, User, UserWire};
pub use socket::{SocketWire, StreamWire, Unread};
pub use stream::Stream;
pub use token::{MAX_KEY, Peer, names_its_peer, peer_of, token_of};
