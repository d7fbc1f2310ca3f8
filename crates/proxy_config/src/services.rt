//! Reading the service of a point.

ghost use Rattle.std.specs.Prelude.{◌≡◌, ◌↔◌, IfOk, IfErr, IfSome, IfNone, IsTrue, Some, None, option_copied, codes};
ghost use Rattle.std.specs.Net.Grammar.{IsIpv4Text};
ghost use Rattle.toml.specs.View.{table_view};
ghost use Rattle.proxy_config.specs.Config.{IsFirstFault};
ghost use Rattle.proxy_config.specs.Fault.{Names, IsFaultAt};
ghost use Rattle.proxy_config.specs.Keys.Kind.{service};
ghost use Rattle.proxy_config.specs.Order.{nested};
ghost use Rattle.proxy_config.specs.Services.{text_at, is_path_text, IsServicePath, HasHost, HasPath, IsServicePoint, IsServiceOf, IsInService, IsServiceFault};
ghost use Rattle.proxy_config.specs.Turns.{IsNext, IsPast};

use crate::fault::{ConfigFault, at_nested, needed};
use crate::point::ServicePoint;
use crate::values::{number_or, value_of};
use adapt_bytes::{MAX_CONNECTIONS, MAX_PORT};
use http_uri::{Uri, UriError};
use std::alloc::{AllocError, Global};
use std::net::{Ipv4Addr, SocketAddrV4};
use toml::Table;

/// The most bytes of a path.
const MAX_PATH: usize = 1024;

/// The port where the key is missing (RFC 3507, section 4.2).
const PORT: u64 = 1_344;

/// The connections to a service where the key is missing.
const CONNECTIONS: u64 = 8;

/// The text of a key.
fn text<'a>(table: &'a Table, key: &str) -> Option<&'a str>
    ensures { option_copied result ≡ text_at key.now (table_view table.now) }
{
    match value_of(table, key) {
        Some(value) => value.as_str(),
        None => None,
    }
}

/// Reads the host of a service, or of the parent: an IPv4 address.
pub(crate) fn host(table: &Table) -> Option<(Ipv4Addr, &str)>
    ensures text { IfSome result (λ found. text_at (codes "host") (table_view table.now) ≡ Some found.1.now) }
    ensures ip { IfSome result (λ found. IsIpv4Text found.1.now found.0) }
    ensures none { IfNone result (HasHost (table_view table.now) → ⊥) }
{
    let text = text(table, "host")?;
    match Ipv4Addr::parse_ascii(text.as_bytes()) {
        Ok(ip) => Some((ip, text)),
        Err(_) => None,
    }
}

/// Whether a path has at most 1,024 bytes, begins with `/`, and has no fragment after it.
fn is_path_text(path: &str) -> bool
    ensures { result ≡ is_path_text path.now }
{
    let bytes = path.as_bytes();
    bytes.len() <= MAX_PATH && bytes.starts_with(b"/") && !bytes.contains(&b'#')
}

/// Whether a service may have the path. `Err` where no memory was found to judge it.
fn is_path(alloc: Global, path: &str) -> Result<bool, AllocError>
    ensures { IfOk result (λ good. IsTrue good ↔ IsServicePath path.now) }
{
    if !is_path_text(path) {
        return Ok(false);
    }
    match Uri::from_bytes(alloc, path.as_bytes()) {
        Ok(_uri) => Ok(true),
        Err(UriError::Invalid(_)) => Ok(false),
        Err(UriError::OutOfMemory) => Err(AllocError),
    }
}

/// Reads the service's path. `Err` where no memory was found to judge it.
fn path(alloc: Global, table: &Table) -> Result<Option<&str>, AllocError>
    ensures text { IfOk result (λ path. IfSome path (λ path. text_at (codes "path") (table_view table.now) ≡ Some path.now)) }
    ensures good { IfOk result (λ path. IfSome path (λ path. IsServicePath path.now)) }
    ensures none { IfOk result (λ path. IfNone path (HasPath (table_view table.now) → ⊥)) }
{
    let Some(path) = text(table, "path") else {
        return Ok(None);
    };
    if is_path(alloc, path)? {
        Ok(Some(path))
    } else {
        Ok(None)
    }
}

/// What was found for a key of a point's table, or of the parent's, or the fault of the key.
pub(crate) fn of_point<T>(
    alloc: Global,
    point: &str,
    key: &str,
    found: Option<T>,
) -> Result<T, ConfigFault>
    ensures ok { IfOk result (λ value. found ≡ Some value) }
    ensures err { IfErr result (IsFaultAt (nested point.now key.now)) }
    ensures none { IfErr result (λ _. found ≡ None) }
{
    match found {
        Some(value) => Ok(value),
        None => Err(at_nested(alloc, point, key)),
    }
}

/// Reads the table of a point; without one no message of the point is offered to a service.
pub(crate) fn read_point(
    alloc: Global,
    table: &Table,
    point: &str,
) -> Result<Option<ServicePoint>, ConfigFault>
    requires { IsNext point.now service (table_view table.now) }
    ensures ok { IfOk result (IsServiceOf point.now (table_view table.now)) }
    ensures past { IfOk result (λ _. IsPast point.now (table_view table.now)) }
    ensures err { IfErr result (Names (IsFirstFault (table_view table.now))) }
{
    let Some(value) = value_of(table, point) else {
        return Ok(None);
    };
    let service = needed(alloc, point, value.as_table())?;
    Ok(Some(read_service(alloc, service, point)?))
}

/// Reads the table of a service.
fn read_service(alloc: Global, table: &Table, point: &str) -> Result<ServicePoint, ConfigFault>
    ensures ok { IfOk result (IsServicePoint (table_view table.now)) }
    ensures err { IfErr result (Names (IsInService point.now (table_view table.now))) }
{
    let (ip, host) = of_point(alloc, point, "host", host(table))?;
    let port = of_point(
        alloc,
        point,
        "port",
        number_or(table, "port", 1, MAX_PORT, PORT),
    )?;
    let path = of_point(alloc, point, "path", path(alloc, table)?)?;
    let connections = number_or(table, "connections", 1, MAX_CONNECTIONS, CONNECTIONS);
    let connections = of_point(alloc, point, "connections", connections)?;
    Ok(ServicePoint {
        host: String::from_str(alloc, host)?,
        address: SocketAddrV4::new(ip, port as u16),
        path: String::from_str(alloc, path)?,
        connections,
    })
}
