//! Who may connect as a user, by where the connection comes from.

ghost use Rattle.std.specs.Prelude.{◌≡◌, ◌↔◌, IsTrue, option_map};
ghost use Rattle.event_loop.specs.Admission.{IsIpOf, IsJudged, MayConnect};

use crate::listening::Accepted;
use crate::live::LatestConfig;
use crate::room::Room;
use proxy_config::{Network, may_use};
use std::net::{Ipv4Addr, SocketAddr};
use std::sync::Arc;

/// Which users are served.
#[derive(Drop)]
pub struct Admission {
    /// The configuration that says which networks they may come from; none where they may come from everywhere.
    pub users: Option<LatestConfig>,
    /// The most connections of one address at once; 0 where there is no such limit.
    pub most: u64,
}

/// The IPv4 address that a connection comes from. A listener at an IPv4 address has no others.
pub(crate) fn ip_of(from: SocketAddr) -> Ipv4Addr
    ensures { IsIpOf from result }
{
    match from {
        SocketAddr::V4(from) => *from.ip(),
        SocketAddr::V6(_) => Ipv4Addr::UNSPECIFIED,
    }
}

/// Whether a user may connect from an address.
fn may_connect(networks: &Option<Vec<Network>>, from: SocketAddr) -> bool
    ensures { IsTrue result ↔ MayConnect (option_map (λ vec. vec.items) networks.now) from }
{
    match from {
        SocketAddr::V4(from) => may_use(networks, *from.ip()),
        SocketAddr::V6(_) => networks.is_none(),
    }
}

/// What is accepted, of what was: a connection from where no user may come is closed, and counted.
pub(crate) fn judged(networks: &Option<Vec<Network>>, room: &Arc<Room>, next: Accepted) -> Accepted
    ensures { IsJudged (option_map (λ vec. vec.items) networks.now) next result }
{
    match next {
        Accepted::One(stream, from) => {
            if may_connect(networks, from) {
                Accepted::One(stream, from)
            } else {
                room.refuse();
                Accepted::Gone
            }
        }
        other => other,
    }
}
