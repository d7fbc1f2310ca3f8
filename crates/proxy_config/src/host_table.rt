//! The tables of host names, in an order in which one is found fast.

ghost use Rattle.std.specs.List.Sorted.{IsNonDecreasingBy};
ghost use Rattle.std.proofs.Props.{props};
ghost use Rattle.proxy_config.specs.declared.host.Host.{Host as AnyHost};

use crate::host::Host;

/// Host names, each with its address. They stand in the order of their names' numbers, so that one is found without going
/// through the others.
#[derive(Drop)]
pub(crate) struct HostTable {
    pub(crate) entries: Vec<Host>,
    ghost rising: { IsNonDecreasingBy (λ (host : AnyHost). host.number) entries.items } by { Prim.hlevel props },
}

/// The host names that the configuration knows: its own, which go first, and those of its hosts file.
#[derive(Drop)]
pub struct Hosts {
    pub(crate) all: HostTable,
    pub(crate) file: HostTable,
}
