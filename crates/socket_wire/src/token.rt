//! Tokens: under which number a poll reports a connection, and to which peer it leads.

ghost use Rattle.std.specs.Prelude.{◌≡◌, ℕ, ◌≤◌, ◌+◌, ◌*◌, Some};
ghost use Rattle.socket_wire.specs.Token.{peer_number as number_of_peer};
ghost use Rattle.socket_wire.specs.declared.token.Peer.{Peer as AnyPeer};

/// A connection of an exchange.
#[derive(Clone, Copy, PartialEq, Eq)]
pub enum Peer {
    User,
    Origin,
    Service,
}

/// The greatest number that a token can name.
pub const MAX_KEY: usize = 1_048_575;

fn peer_number(peer: Peer) -> usize
    ensures { result ≡ number_of_peer peer }
{
    match peer {
        Peer::User => 0,
        Peer::Origin => 1,
        Peer::Service => 2,
    }
}

/// The token of a connection to this peer. Its number is the key of the exchange where it is that of its user, and else that of its line.
pub fn token_of(number: usize, peer: Peer) -> usize
    requires { number ≤ MAX_KEY }
    ensures { result ≡ 4 * number + number_of_peer peer }
{
    4 * number + peer_number(peer)
}

/// The number and the peer that a token names; `None` for any other token.
pub fn peer_of(token: usize) -> Option<(usize, Peer)>
    ensures { (number : ℕ) → (peer : AnyPeer) → token ≡ 4 * number + number_of_peer peer → result ≡ Some (number, peer) }
{
    let peer = match token % 4 {
        0 => Peer::User,
        1 => Peer::Origin,
        2 => Peer::Service,
        _ => return None,
    };
    Some((token / 4, peer))
}

/// A token names the number and the peer of its connection.
pub fn names_its_peer(number: usize, peer: Peer) -> Option<(usize, Peer)>
    requires { number ≤ MAX_KEY }
    ensures { result ≡ Some (number, peer) }
{
    peer_of(token_of(number, peer))
}
