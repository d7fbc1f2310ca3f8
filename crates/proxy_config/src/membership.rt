//! Whether an address is in a network.

ghost use Rattle.std.specs.Prelude.{◌≤◌, ◌≡◌, ◌↔◌, IsTrue, option_map};
ghost use Rattle.proxy_config.specs.Networks.{prefix_of, IsIn, IsInOne, MayUse};

use crate::network::Network;
use std::net::Ipv4Addr;

/// The first bits of an address.
fn prefix_of(address: Ipv4Addr, bits: u32) -> u64
    requires { bits ≤ 32 }
    ensures { result ≡ prefix_of bits address }
{
    u64::from(address.to_bits()) >> (32 - bits)
}

impl Network {
    /// Whether an address is in the network.
    fn has(&self, address: Ipv4Addr) -> bool
        ensures { IsTrue result ↔ IsIn self.now address }
    {
        prefix_of(address, self.prefix_length) == prefix_of(self.address, self.prefix_length)
    }
}

/// Whether an address is in one of the networks.
///
/// ```
/// let text = b"listen = \"0.0.0.0:3128\"\nadmin = \"127.0.0.1:3129\"\ndenied = [\"10.0.0.0/8\"]\n";
/// let config = read_config(alloc, text)?;
/// assert!(rt; is_in(&config.denied, Ipv4Addr::new(10, 255, 0, 1)));
/// assert!(rt; !is_in(&config.denied, Ipv4Addr::new(11, 0, 0, 0)));
/// ```
pub fn is_in(networks: &[Network], address: Ipv4Addr) -> bool
    ensures { IsTrue result ↔ IsInOne networks.now address }
{
    for network in networks {
        if network.has(address) {
            return true;
        }
    }
    false
}

/// Whether users may come from an address: from each where the key is missing, from none where its list is empty.
pub fn may_use(users: &Option<Vec<Network>>, address: Ipv4Addr) -> bool
    ensures { IsTrue result ↔ MayUse (option_map (λ networks. networks.items) users.now) address }
{
    match users {
        Some(networks) => is_in(networks, address),
        None => true,
    }
}
