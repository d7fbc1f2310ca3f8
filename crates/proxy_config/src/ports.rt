//! The ports of the administrator and of the counters, which share none with another.

ghost use Rattle.std.specs.Prelude.{◌↔◌, IfOk, IfErr, IfSome, IfNone, IsTrue, Option, codes};
ghost use Rattle.std.specs.declared.net.socket_addr.SocketAddrV4.{SocketAddrV4 as AnyAddress};
ghost use Rattle.toml.specs.View.{table_view};
ghost use Rattle.proxy_config.specs.Config.{IsFirstFault};
ghost use Rattle.proxy_config.specs.Fault.{Names};
ghost use Rattle.proxy_config.specs.Keys.Kind.{admin_address, metrics_address};
ghost use Rattle.proxy_config.specs.Ports.{IsAdmin, IsMetrics, SharesPort};
ghost use Rattle.proxy_config.specs.Turns.{IsNext, IsPast};
ghost use Rattle.proxy_config.specs.Values.{HasAddress};

use crate::fault::{ConfigFault, needed};
use crate::values::{address, value_of};
use std::alloc::Global;
use std::net::SocketAddrV4;
use toml::Table;

/// Whether only one of them can be listened on: they have one port, and one address, or one of them stands for all
/// (0.0.0.0).
fn shares_port(one: SocketAddrV4, other: SocketAddrV4) -> bool
    ensures { IsTrue result ↔ SharesPort one other }
{
    one.port() == other.port()
        && (one.ip() == other.ip() || one.ip().is_unspecified() || other.ip().is_unspecified())
}

/// Where the administrator connects. `None` where the key has no address, or one that shares its port with the users'.
fn admin(table: &Table, listen: SocketAddrV4) -> Option<SocketAddrV4>
    requires { HasAddress (codes "listen") (table_view table.now) listen }
    ensures found { IfSome result (IsAdmin (table_view table.now)) }
    ensures none { IfNone result ((found : AnyAddress) → IsAdmin (table_view table.now) found → ⊥) }
{
    let admin = address(table, "admin")?;
    if shares_port(listen, admin) {
        None
    } else {
        Some(admin)
    }
}

/// Where the counters are asked for, where the key is there. `None` where its value is no address, or one that shares its
/// port with one of the others.
fn metrics(table: &Table, listen: SocketAddrV4, admin: SocketAddrV4) -> Option<Option<SocketAddrV4>>
    requires listen { HasAddress (codes "listen") (table_view table.now) listen }
    requires admin { HasAddress (codes "admin") (table_view table.now) admin }
    ensures found { IfSome result (IsMetrics (table_view table.now)) }
    ensures none { IfNone result ((found : Option AnyAddress) → IsMetrics (table_view table.now) found → ⊥) }
{
    if value_of(table, "metrics").is_none() {
        return Some(None);
    }
    let metrics = address(table, "metrics")?;
    if shares_port(listen, metrics) {
        return None;
    }
    if shares_port(admin, metrics) {
        return None;
    }
    Some(Some(metrics))
}

/// Reads where the administrator connects.
pub(crate) fn read_admin(
    alloc: Global,
    table: &Table,
    listen: SocketAddrV4,
) -> Result<SocketAddrV4, ConfigFault>
    requires listen { HasAddress (codes "listen") (table_view table.now) listen }
    requires next { IsNext (codes "admin") admin_address (table_view table.now) }
    ensures ok { IfOk result (IsAdmin (table_view table.now)) }
    ensures past { IfOk result (λ _. IsPast (codes "admin") (table_view table.now)) }
    ensures err { IfErr result (Names (IsFirstFault (table_view table.now))) }
{
    needed(alloc, "admin", admin(table, listen))
}

/// Reads where the counters are asked for, if anywhere.
pub(crate) fn read_metrics(
    alloc: Global,
    table: &Table,
    listen: SocketAddrV4,
    admin: SocketAddrV4,
) -> Result<Option<SocketAddrV4>, ConfigFault>
    requires listen { HasAddress (codes "listen") (table_view table.now) listen }
    requires admin { HasAddress (codes "admin") (table_view table.now) admin }
    requires next { IsNext (codes "metrics") metrics_address (table_view table.now) }
    ensures ok { IfOk result (IsMetrics (table_view table.now)) }
    ensures past { IfOk result (λ _. IsPast (codes "metrics") (table_view table.now)) }
    ensures err { IfErr result (Names (IsFirstFault (table_view table.now))) }
{
    needed(alloc, "metrics", metrics(table, listen, admin))
}
