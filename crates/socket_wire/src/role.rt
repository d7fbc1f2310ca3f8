//! Whose connection of an exchange it is.

use crate::socket::SocketWire;
use crate::token::Peer;

/// A peer of an exchange.
pub trait Role {
    /// The connection to it, as tokens name it.
    const PEER: Peer;
}

/// A peer that dials the proxy.
pub trait Caller {}

/// A peer that the proxy dials.
pub trait Called {}

/// The user, who sends requests.
pub struct User;

impl Role for User {
    const PEER: Peer = Peer::User;
}

impl Caller for User {}

/// The origin server, which answers them.
pub struct Origin;

impl Role for Origin {
    const PEER: Peer = Peer::Origin;
}

impl Called for Origin {}

/// A service, which messages are offered to.
pub struct Service;

impl Role for Service {
    const PEER: Peer = Peer::Service;
}

impl Called for Service {}

/// A user's connection.
pub type UserWire = SocketWire<User>;

/// A connection to an origin server.
pub type OriginWire = SocketWire<Origin>;

/// A connection to a service.
pub type ServiceWire = SocketWire<Service>;
