//! Which addresses are a listener's own.

ghost use Rattle.std.specs.Prelude.{◌↔◌, IsTrue};
ghost use Rattle.proxy_config.specs.Reach.{IsSameMachine, Reaches};

use std::net::{Ipv4Addr, SocketAddrV4};

/// Whether a connection to an address comes to a listener on the other, their ports aside.
fn is_same_machine(to: Ipv4Addr, on: Ipv4Addr) -> bool
    ensures { IsTrue result ↔ IsSameMachine to on }
{
    to == on
        || to.is_unspecified()
        || (to.is_loopback() && (on.is_loopback() || on.is_unspecified()))
}

/// Whether a connection to an address comes to a listener, as far as the two tell: of one on 0.0.0.0 the machine's further addresses
/// aren't known.
pub fn reaches(to: SocketAddrV4, listener: SocketAddrV4) -> bool
    ensures { IsTrue result ↔ Reaches to listener }
{
    to.port() == listener.port() && is_same_machine(*to.ip(), *listener.ip())
}
