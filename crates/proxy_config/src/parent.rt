//! The parent proxy.

ghost use Rattle.std.specs.Prelude.{◌≡◌, ◌≤◌, ◌↔◌, IfOk, IfErr, IfSome, IsTrue, codes};
ghost use Rattle.toml.specs.View.{table_view};
ghost use Rattle.proxy_config.specs.Config.{IsFirstFault};
ghost use Rattle.proxy_config.specs.Fault.{Names};
ghost use Rattle.proxy_config.specs.Keys.Kind.{parent_proxy};
ghost use Rattle.proxy_config.specs.Parent.{parent_port, IsInParent, IsParent, IsParentAt, IsProxy, ReachesKey};
ghost use Rattle.proxy_config.specs.Turns.{IsNext, IsPast};

use crate::fault::{ConfigFault, at_key, needed};
use crate::reach::reaches;
use crate::services::{host, of_point};
use crate::values::{address, number_in, value_of};
use adapt_bytes::MAX_PORT;
use std::alloc::Global;
use std::net::SocketAddrV4;
use toml::Table;

/// The keys of the parent's table.
pub(crate) const KEYS: [&str; 2] = ["host", "port"];

/// The parent's port, which has no default.
fn port(table: &Table) -> Option<u64>
    ensures number { result ≡ parent_port (table_view table.now) }
    ensures high { IfSome result (λ n. n ≤ MAX_PORT) }
{
    match value_of(table, "port") {
        Some(value) => number_in(value, 1, MAX_PORT),
        None => None,
    }
}

/// Reads the table of the parent.
fn read_table(alloc: Global, table: &Table) -> Result<SocketAddrV4, ConfigFault>
    ensures ok { IfOk result (IsParentAt (table_view table.now)) }
    ensures err { IfErr result (Names (IsInParent (table_view table.now))) }
{
    let (ip, _text) = of_point(alloc, "parent", "host", host(table))?;
    let port = of_point(alloc, "parent", "port", port(table))?;
    Ok(SocketAddrV4::new(ip, port as u16))
}

/// Whether a connection to an address comes to the listener of a key.
fn reaches_key(table: &Table, key: &str, to: SocketAddrV4) -> bool
    ensures { IsTrue result ↔ ReachesKey key.now (table_view table.now) to }
{
    match address(table, key) {
        Some(listener) => reaches(to, listener),
        None => false,
    }
}

/// Whether an address is the proxy itself: its port of users, of the administrator or of the counters.
fn is_proxy(table: &Table, address: SocketAddrV4) -> bool
    ensures { IsTrue result ↔ IsProxy (table_view table.now) address }
{
    reaches_key(table, "listen", address)
        || reaches_key(table, "admin", address)
        || reaches_key(table, "metrics", address)
}

/// Reads where the parent is, if there is one. A parent that is the proxy itself is a fault.
pub(crate) fn read_parent(alloc: Global, table: &Table) -> Result<Option<SocketAddrV4>, ConfigFault>
    requires { IsNext (codes "parent") parent_proxy (table_view table.now) }
    ensures ok { IfOk result (IsParent (table_view table.now)) }
    ensures past { IfOk result (λ _. IsPast (codes "parent") (table_view table.now)) }
    ensures err { IfErr result (Names (IsFirstFault (table_view table.now))) }
{
    let Some(value) = value_of(table, "parent") else {
        return Ok(None);
    };
    let inner = needed(alloc, "parent", value.as_table())?;
    let parent = read_table(alloc, inner)?;
    if is_proxy(table, parent) {
        return Err(at_key(alloc, "parent"));
    }
    Ok(Some(parent))
}
