//! A network (RFC 4632, section 3.1).

ghost use Rattle.std.specs.Prelude.{◌≤◌};

use std::net::Ipv4Addr;

/// A network: the addresses that have a prefix of so many bits in common.
#[derive(Clone, Copy)]
pub struct Network {
    /// One of its addresses.
    pub address: Ipv4Addr,
    /// How many bits its addresses have in common: 0 to 32.
    pub prefix_length: u32,
    ghost few: { prefix_length ≤ 32 },
}
