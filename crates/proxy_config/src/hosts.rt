//! The table of host names: no resolver is asked.

ghost use Rattle.std.specs.Prelude.{◌≡◌, ◌⊎◌, false, not, IfOk, IfErr, OnOk, IfSome, IfNone, IsTrue, Some, codes, string_bytes};
ghost use Rattle.std.specs.List.Sorted.{IsNonDecreasingBy};
ghost use Rattle.std.specs.declared.net.socket_addr.SocketAddrV4.{SocketAddrV4 as AnyAddress};
ghost use Rattle.toml.specs.Data.{Members};
ghost use Rattle.toml.specs.View.{view, table_view};
ghost use Rattle.proxy_config.specs.Config.{IsFirstFault};
ghost use Rattle.proxy_config.specs.Fault.{Names, IsFaultAt};
ghost use Rattle.proxy_config.specs.HostNames.{host_names, is_seen, HasEach, IsHostFault, IsHostsOf, IsInHosts, Marks};
ghost use Rattle.proxy_config.specs.Hosts.{address_of_name, found_host, port_or, IsAt};
ghost use Rattle.proxy_config.specs.Keys.Kind.{host_table};
ghost use Rattle.proxy_config.specs.Names.{number_of_name};
ghost use Rattle.proxy_config.specs.Order.{nested};
ghost use Rattle.proxy_config.specs.Turns.{IsNext, IsPast};
ghost use Rattle.proxy_config.specs.Values.{IsAddress};
ghost use Rattle.proxy_config.specs.declared.host.Host.{Host as AnyHost};

use crate::fault::{ConfigFault, at_nested, needed};
use crate::host::{Host, host_at, number_of};
use crate::host_table::{HostTable, Hosts};
use crate::sorting::sorted;
use crate::values::{address_of, value_of};
use adapt_bytes::same_ascii;
use std::alloc::{AllocError, Global};
use std::collections::BTreeSet;
use std::net::{Ipv4Addr, SocketAddrV4};
use toml::{Table, Value};

/// The address of the first of these hosts that has the name, ASCII case ignored. The caller says the name's number.
fn among(hosts: &[Host], number: u64, name: &[u8]) -> Option<SocketAddrV4>
    requires rising { IsNonDecreasingBy (λ (host : AnyHost). host.number) hosts.now }
    requires number { number ≡ number_of_name name.now }
    ensures { result ≡ address_of_name name.now hosts.now }
{
    for host in hosts {
        if host.number > number {
            return None;
        }
        if same_ascii(host.name.as_bytes(), name) {
            return Some(host.address);
        }
    }
    None
}

/// The port of `http` where none is written (RFC 9110, section 4.2.1).
pub(crate) const HTTP_PORT: u16 = 80;

/// The port that is written, else the other.
fn port_or(other: u16, port: Option<u16>) -> u16
    ensures { result ≡ port_or other port }
{
    match port {
        Some(port) => port,
        None => other,
    }
}

impl HostTable {
    /// The address of a name, ASCII case ignored.
    fn find(&self, name: &[u8]) -> Option<SocketAddrV4>
        ensures { result ≡ address_of_name name.now self.now.entries.items }
    {
        let number = number_of(name);
        let first = self.entries.partition_point(|host| host.number < number);
        among(&self.entries[first..], number, name)
    }
}

impl Hosts {
    /// The address of a name, ASCII case ignored.
    fn find(&self, name: &[u8]) -> Option<SocketAddrV4>
        ensures { result ≡ found_host self.now name.now }
    {
        match self.all.find(name) {
            Some(address) => Some(address),
            None => self.file.find(name),
        }
    }

    /// Where a host of a request's target is, with the target's port where one is written.
    ///
    /// An IPv4 literal is itself, its port 80 where none is written. Another name is looked up, ASCII case ignored, first in
    /// the table, then in the hosts file; the port that is found stands where the target has none. `None` where the name
    /// isn't there.
    pub fn resolve(&self, host: &[u8], port: Option<u16>) -> Option<SocketAddrV4>
        ensures found { IfSome result (IsAt self.now host.now port) }
        ensures none { IfNone result ((address : AnyAddress) → IsAt self.now host.now port address → ⊥) }
    {
        if let Ok(ip) = Ipv4Addr::parse_ascii(host) {
            return Some(SocketAddrV4::new(ip, port_or(HTTP_PORT, port)));
        }
        match self.find(host) {
            Some(entry) => Some(SocketAddrV4::new(*entry.ip(), port_or(entry.port(), port))),
            None => None,
        }
    }
}

/// Marks a name as seen, ASCII case ignored, and says whether it is new.
fn is_new(alloc: Global, seen: &mut BTreeSet<String>, name: &str) -> Result<bool, AllocError>
    ensures new { IfOk result (λ new. new ≡ not (is_seen seen.old name.now)) }
    ensures marks { OnOk result (Marks name.now seen.old seen.new) }
{
    let mut lower = String::from_str(alloc, name)?;
    lower.make_ascii_lowercase();
    match seen.insert(lower) {
        Ok(is_new) => Ok(is_new),
        Err(_) => Err(AllocError),
    }
}

/// Reads a name's address, where no such name was seen before.
fn read_host(
    alloc: Global,
    seen: &mut BTreeSet<String>,
    name: &str,
    value: &Value,
) -> Result<Host, ConfigFault>
    ensures new { OnOk result (is_seen seen.old name.now ≡ false) }
    ensures marks { OnOk result (Marks name.now seen.old seen.new) }
    ensures name { IfOk result (λ host. string_bytes host.name ≡ name.now) }
    ensures address { IfOk result (λ host. IsAddress (view value.now) host.address) }
    ensures err { IfErr result (IsFaultAt (nested (codes "hosts") name.now)) }
    ensures bad { IfErr result (Names (λ _. IsTrue (is_seen seen.old name.now)
        ⊎ ((address : AnyAddress) → IsAddress (view value.now) address → ⊥))) }
{
    if !is_new(alloc, seen, name)? {
        return Err(at_nested(alloc, "hosts", name));
    }
    match address_of(value) {
        Some(address) => Ok(host_at(alloc, name, address)?),
        None => Err(at_nested(alloc, "hosts", name)),
    }
}

/// Reads each name of the table.
fn read_all(alloc: Global, names: &Table) -> Result<Vec<Host>, ConfigFault>
    ensures ok { IfOk result (λ all. HasEach (table_view names.now) all.items) }
    ensures err { IfErr result (Names (IsInHosts (table_view names.now))) }
{
    let mut all = Vec::new(alloc);
    let mut seen = BTreeSet::new(alloc);
    for (name, value) in names {
        let host = read_host(alloc, &mut seen, name.as_str(), value)?;
        if all.push(host).is_err() {
            return Err(ConfigFault::NoMemory);
        }
    }
    Ok(all)
}

/// Reads the names of the document's table, which may be missing.
fn read_names(alloc: Global, table: &Table) -> Result<Vec<Host>, ConfigFault>
    ensures ok { IfOk result (λ all. (names : Members)
        × (host_names (table_view table.now) ≡ Some names) × HasEach names all.items) }
    ensures err { IfErr result (Names (IsHostFault (table_view table.now))) }
{
    match value_of(table, "hosts") {
        Some(value) => read_all(alloc, needed(alloc, "hosts", value.as_table())?),
        None => Ok(Vec::new(alloc)),
    }
}

/// Reads the table of host names, which may be missing. Names that differ in ASCII case alone are a fault of the later
/// one, in the order of their bytes.
pub(crate) fn read_hosts(alloc: Global, table: &Table) -> Result<Hosts, ConfigFault>
    requires { IsNext (codes "hosts") host_table (table_view table.now) }
    ensures ok { IfOk result (IsHostsOf (table_view table.now)) }
    ensures past { IfOk result (λ _. IsPast (codes "hosts") (table_view table.now)) }
    ensures err { IfErr result (Names (IsFirstFault (table_view table.now))) }
{
    let all = read_names(alloc, table)?;
    Ok(Hosts {
        all: sorted(all)?,
        file: HostTable::empty(alloc),
    })
}
