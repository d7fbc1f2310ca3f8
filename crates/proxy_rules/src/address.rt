//! Where a request goes: the origin of its target (RFC 9110, section 7.3).

ghost use Rattle.std.specs.Prelude.{◌≡◌};
ghost use Rattle.http_side.specs.Lengths.{length_value};
ghost use Rattle.http_side.specs.Targets.{authority_of};
ghost use Rattle.proxy_rules.specs.Origins.{host_len, host_of, port_in, port_of};

use crate::scan::{authority, count_before};
use adapt_bytes::{COUNT_LIMIT, MAX_PORT, behind, front, read_decimal};
use http_side::HttpRequest;

/// The origin that a target names.
#[derive(Clone, Copy)]
pub struct Origin<'a> {
    /// The host as it came; an IPv6 address in its brackets.
    pub host: &'a [u8],
    /// The port, where one is written.
    pub port: Option<u16>,
}

/// How many bytes of an authority are its host.
fn host_len(authority: &[u8]) -> usize
    ensures { result ≡ host_len authority.now }
{
    match authority {
        [b'[', ..] => count_before(authority, b']', b']', b']') + 1,
        _ => count_before(authority, b':', b':', b':'),
    }
}

/// The number that a text spells, where it may be counted.
fn number(digits: &[u8]) -> Option<u64>
    ensures { result ≡ length_value digits.now }
{
    match read_decimal(digits) {
        Some(number) if number < COUNT_LIMIT => Some(number),
        _ => None,
    }
}

/// The port after a host: a colon and digits, or nothing.
fn port_in(text: &[u8]) -> Option<u16>
    ensures { result ≡ port_in text.now }
{
    match text {
        [] => None,
        [_, digits @ ..] => match number(digits) {
            Some(number) if number > 0 && number <= MAX_PORT => Some(number as u16),
            _ => None,
        },
    }
}

/// The host and the port of the target of a request that was read.
pub fn origin_of(user: &HttpRequest) -> Origin<'_>
    ensures host { result.host.now ≡ host_of (authority_of user.now.target) }
    ensures port { result.port ≡ port_of (authority_of user.now.target) }
{
    let authority = authority(user.target());
    let end = host_len(authority);
    Origin {
        host: front(authority, end),
        port: port_in(behind(authority, end)),
    }
}
