//! Which keys can't change while the proxy runs.

ghost use Rattle.std.specs.Prelude.{◌≡◌, ◌↔◌, IsTrue, length, map, string_bytes};
ghost use Rattle.std.specs.Option.{option_copied};
ghost use Rattle.proxy_config.specs.Changes.{first_other, fixed_of, fixed_rows, IsFirstChange, IsFirstDiffering, SameService, shown};
ghost use Rattle.proxy_config.specs.Numbers.{key_rules};
ghost use Rattle.proxy_config.specs.Keys.{entrance_rows, message_rows, of_number, origin_rows, place_rows, port_rows, size_rows, time_rows};

use crate::config::{CROWDS, Config, KEPT, SIZES, TIMES, WAITS};
use crate::dial::Dial;
use crate::number_key::NumberKey;
use crate::point::ServicePoint;
use std::net::SocketAddrV4;

/// A key, and whether two configurations have one value of it.
type Check = (&'static str, bool);

/// The first key of which they haven't.
fn first_other(checks: &[Check]) -> Option<&'static str>
    ensures { option_copied result ≡ first_other (shown checks.now) }
{
    for (key, is_same) in checks {
        if !*is_same {
            return Some(*key);
        }
    }
    None
}

/// Whether two addresses are the same, or both are missing.
fn same_address(a: Option<SocketAddrV4>, b: Option<SocketAddrV4>) -> bool
    ensures { IsTrue result ↔ (a ≡ b) }
{
    match (a, b) {
        (Some(a), Some(b)) => a == b,
        (None, None) => true,
        _ => false,
    }
}

/// Whether two orders are the same.
fn same_dial(a: Dial, b: Dial) -> bool
    ensures { IsTrue result ↔ (a ≡ b) }
{
    matches!(
        (a, b),
        (Dial::First, Dial::First) | (Dial::Late, Dial::Late)
    )
}

/// Whether two lists have the same names, in the same order.
fn same_names(a: &[String], b: &[String]) -> bool
    ensures { IsTrue result ↔ (map string_bytes a.now ≡ map string_bytes b.now) }
{
    a == b
}

/// Whether two services are the same, or both are missing.
fn same_service(a: &Option<ServicePoint>, b: &Option<ServicePoint>) -> bool
    ensures { IsTrue result ↔ SameService a.now b.now }
{
    match (a, b) {
        (Some(a), Some(b)) => {
            a.host == b.host
                && a.address == b.address
                && a.path == b.path
                && a.connections == b.connections
        }
        (None, None) => true,
        _ => false,
    }
}

/// The first of these keys that can't change, and of which the numbers differ.
fn first_differing<const N: usize>(
    keys: &[NumberKey],
    old: [u64; N],
    new: [u64; N],
) -> Option<&'static str>
    requires { length keys.now ≡ N }
    ensures { IsFirstDiffering (key_rules keys.now) old.entry new.entry (option_copied result) }
{
    for i in 0..N {
        let key = &keys[i];
        if key.is_fixed && old[i] != new[i] {
            return Some(key.name);
        }
    }
    None
}

/// The first change of where it listens.
fn change_of_ports(old: &Config, new: &Config) -> Option<&'static str>
    ensures { IsFirstChange (fixed_of port_rows) old.now new.now (option_copied result) }
{
    first_other(&[
        ("listen", old.listen == new.listen),
        ("admin", old.admin == new.admin),
    ])
}

/// The first change of how much there may be.
fn change_of_sizes(old: &Config, new: &Config) -> Option<&'static str>
    ensures { IsFirstChange (fixed_of (map of_number size_rows)) old.now new.now (option_copied result) }
{
    first_differing(&SIZES, old.sizes(), new.sizes())
}

/// The first change of whether a message is sent again, or of what is told of it.
fn change_of_messages(old: &Config, new: &Config) -> Option<&'static str>
    ensures { IsFirstChange (fixed_of message_rows) old.now new.now (option_copied result) }
{
    first_other(&[("retry", old.retry == new.retry)])
        .or(first_differing(&WAITS, [old.wait], [new.wait]))
        .or(first_other(&[
            ("log", old.log.is_some() == new.log.is_some()),
            ("log_query", old.log_query == new.log_query),
            ("metrics", same_address(old.metrics, new.metrics)),
        ]))
}

/// The first change of who may use it.
fn change_of_entrance(old: &Config, new: &Config) -> Option<&'static str>
    ensures { IsFirstChange (fixed_of entrance_rows) old.now new.now (option_copied result) }
{
    first_differing(&CROWDS, [old.user_connections], [new.user_connections]).or(first_other(&[
        ("carry", same_names(&old.carry, &new.carry)),
        ("proxy_protocol", old.proxy_protocol == new.proxy_protocol),
    ]))
}

/// The first change of connections to origins, or of turns.
fn change_of_origins(old: &Config, new: &Config) -> Option<&'static str>
    ensures { IsFirstChange (fixed_of origin_rows) old.now new.now (option_copied result) }
{
    first_differing(
        &KEPT,
        [old.keep_origins, old.origin_idle],
        [new.keep_origins, new.origin_idle],
    )
    .or(first_other(&[
        ("dial", same_dial(old.dial, new.dial)),
        ("turn", old.turn == new.turn),
    ]))
}

/// The first change of a time.
fn change_of_times(old: &Config, new: &Config) -> Option<&'static str>
    ensures { IsFirstChange (fixed_of (map of_number time_rows)) old.now new.now (option_copied result) }
{
    first_differing(&TIMES, old.times(), new.times())
}

/// The first change of where messages and requests go.
fn change_of_places(old: &Config, new: &Config) -> Option<&'static str>
    ensures { IsFirstChange (fixed_of place_rows) old.now new.now (option_copied result) }
{
    first_other(&[
        ("reqmod", same_service(&old.reqmod, &new.reqmod)),
        ("respmod", same_service(&old.respmod, &new.respmod)),
        ("parent", same_address(old.parent, new.parent)),
    ])
}

/// The first key, in the order of [`Config`]'s, that can't change while the proxy runs, and of which two configurations have
/// other values. A log can have another path, but can't begin or end.
pub fn fixed_change(old: &Config, new: &Config) -> Option<&'static str>
    ensures { IsFirstChange fixed_rows old.now new.now (option_copied result) }
{
    change_of_ports(old, new)
        .or(change_of_sizes(old, new))
        .or(change_of_messages(old, new))
        .or(change_of_entrance(old, new))
        .or(change_of_origins(old, new))
        .or(change_of_times(old, new))
        .or(change_of_places(old, new))
}
