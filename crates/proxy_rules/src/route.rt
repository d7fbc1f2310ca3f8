//! Where a request goes: straight to its origin, by the configured table of hosts, or to the parent (RFC 9110, section 7.3).

ghost use Rattle.std.specs.Prelude.{◌≡◌, ◌↔◌, IsTrue, IfOk, IfErr, Ok, Err, true, false};
ghost use Rattle.std.specs.Net.Grammar.{IsIpv4Text};
ghost use Rattle.std.specs.declared.net.ipv4_addr.Ipv4Addr.{Ipv4Addr as AnyIp};
ghost use Rattle.proxy_config.specs.Hosts.{IsAt};
ghost use Rattle.proxy_rules.specs.declared.route.Route.{Route as AnyRoute};
ghost use Rattle.proxy_rules.specs.Routes.{IsOwn, ReachesSome, IsDeniedAt, GoesBy, GoesNowhereBy, IsRoute, IsUnrouted};

use crate::address::{Origin, origin_of};
use http_side::{HttpRequest, NextServer};
use proxy_config::{Config, is_in, reaches};
use std::net::{Ipv4Addr, SocketAddrV4};

/// Whether a connection to an address comes to a listener, if there is one.
fn reaches_some(to: SocketAddrV4, listener: Option<SocketAddrV4>) -> bool
    ensures { IsTrue result ↔ ReachesSome to listener }
{
    match listener {
        Some(listener) => reaches(to, listener),
        None => false,
    }
}

/// Whether an address is a port of the proxy itself: the users', the administrator's, or that of the counters.
fn is_own(config: &Config, address: SocketAddrV4) -> bool
    ensures { IsTrue result ↔ IsOwn config.now address }
{
    reaches(address, config.listen)
        || reaches(address, config.admin)
        || reaches_some(address, config.metrics)
}

/// Whether an address is in a network to which no request is sent.
fn is_denied(config: &Config, address: SocketAddrV4) -> bool
    ensures { IsTrue result ↔ IsDeniedAt config.now address }
{
    is_in(&config.denied, *address.ip())
}

/// Where a request goes next.
#[derive(Clone, Copy)]
pub struct Route {
    /// Whether it goes straight to its origin, or to the parent.
    pub next: NextServer,
    pub address: SocketAddrV4,
}

/// Why a request goes nowhere.
#[derive(Clone, Copy)]
pub enum Unrouted {
    /// Its host is unknown, or is the proxy itself.
    Unknown,
    /// Its origin is in a network to which no request is sent.
    Denied,
}

/// Whether a host is an IPv4 address, and no name.
fn is_literal(host: &[u8]) -> bool
    ensures address { result ≡ true → (ip : AnyIp) × IsIpv4Text host.now ip }
    ensures name { result ≡ false → (ip : AnyIp) → IsIpv4Text host.now ip → ⊥ }
{
    match Ipv4Addr::parse_ascii(host) {
        Ok(_) => true,
        Err(_) => false,
    }
}

/// Straight to the origin at this address.
fn straight(address: SocketAddrV4) -> Route
    ensures { (result.next ≡ NextServer.Origin) × (result.address ≡ address) }
{
    Route {
        next: NextServer::Origin,
        address,
    }
}

/// To the parent at this address.
fn through(parent: SocketAddrV4) -> Route
    ensures { (result.next ≡ NextServer.Parent) × (result.address ≡ parent) }
{
    Route {
        next: NextServer::Parent,
        address: parent,
    }
}

/// Where a request goes whose host is at this address: a name of the table straight, and an address to the parent, if there is one.
fn route_to(config: &Config, origin: Origin<'_>, address: SocketAddrV4) -> Result<Route, Unrouted>
    requires { IsAt config.now.hosts origin.host.now origin.port address }
    ensures route { IfOk result (GoesBy config.now origin.entry.host.now origin.entry.port) }
    ensures none { IfErr result (GoesNowhereBy config.now origin.entry.host.now origin.entry.port) }
{
    if is_own(config, address) {
        return Err(Unrouted::Unknown);
    }
    if is_denied(config, address) {
        return Err(Unrouted::Denied);
    }
    let Some(parent) = config.parent else {
        return Ok(straight(address));
    };
    if is_literal(origin.host) {
        Ok(through(parent))
    } else {
        Ok(straight(address))
    }
}

/// Where a request goes by its target's host and port.
fn found_route(config: &Config, origin: Origin<'_>) -> Result<Route, Unrouted>
    ensures route { IfOk result (GoesBy config.now origin.entry.host.now origin.entry.port) }
    ensures none { IfErr result (GoesNowhereBy config.now origin.entry.host.now origin.entry.port) }
{
    match (
        config.hosts.resolve(origin.host, origin.port),
        config.parent,
    ) {
        (Some(address), _) => route_to(config, origin, address),
        (None, Some(parent)) => Ok(through(parent)),
        (None, None) => Err(Unrouted::Unknown),
    }
}

/// Where a request goes: straight to its origin where the table of hosts has it, and else to the parent, if there is one. Without a parent
/// a host that is an address is reached there, and each other one is unknown. Nothing is sent to the proxy itself, by whatever name: to the
/// administrator's port, to that of the counters, or back to the users'. Nor is anything sent for an origin in a network that is denied;
/// of a name that only the parent knows nobody here can say where it is.
pub fn route_of(config: &Config, user: &HttpRequest) -> Result<Route, Unrouted>
    ensures route { (route : AnyRoute) → result ≡ Ok route ↔ IsRoute config.now user.now route }

    // Each reason comes exactly where it holds.
    ensures unknown { result ≡ Err Unrouted.Unknown ↔ IsUnrouted config.now user.now Unrouted.Unknown }
    ensures denied { result ≡ Err Unrouted.Denied ↔ IsUnrouted config.now user.now Unrouted.Denied }
{
    found_route(config, origin_of(user))
}
