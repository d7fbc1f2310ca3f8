//! Single values of a table: numbers in a range, addresses, truth values.

ghost use Rattle.std.specs.Prelude.{◌≡◌, ◌≢◌, ◌≤◌, ℕ, IfOk, IfErr, IfSome, IfNone, Some, None, option_map, option_and_then};
ghost use Rattle.std.specs.Net.Grammar.{IsSocketV4Text};
ghost use Rattle.std.specs.Net.Socket.{v4_port};
ghost use Rattle.toml.specs.View.{view, table_view};
ghost use Rattle.toml.specs.Data.{get_member, as_table};
ghost use Rattle.std.specs.declared.net.socket_addr.SocketAddrV4.{SocketAddrV4 as AnyAddress};
ghost use Rattle.proxy_config.specs.Config.{IsFirstFault};
ghost use Rattle.proxy_config.specs.Fault.{Names};
ghost use Rattle.proxy_config.specs.Keys.Kind.{truth, address};
ghost use Rattle.proxy_config.specs.Turns.{IsNext, IsPast};
ghost use Rattle.proxy_config.specs.Values.{number_in, number_or, truth_or, IsAddress, HasAddress};

use crate::fault::{ConfigFault, needed};
use std::alloc::Global;
use std::net::SocketAddrV4;
use toml::{Table, Value};

/// The value of a key.
pub(crate) fn value_of<'a>(table: &'a Table, key: &str) -> Option<&'a Value>
    ensures { option_map (λ value. view value.now) result ≡ get_member key.now (table_view table.now) }
{
    table.get(key)
}

/// The table of a key, where its value is one.
pub(crate) fn table_of<'a>(table: &'a Table, key: &str) -> Option<&'a Table>
    ensures { option_map (λ inner. table_view inner.now) result
        ≡ option_and_then as_table (get_member key.now (table_view table.now)) }
{
    match value_of(table, key) {
        Some(value) => value.as_table(),
        None => None,
    }
}

/// The whole number of a value, where it lies in the range.
pub(crate) fn number_in(value: &Value, low: u64, high: u64) -> Option<u64>
    ensures number { result ≡ number_in low high (view value.now) }
    ensures low { IfSome result (λ n. low ≤ n) }
    ensures high { IfSome result (λ n. n ≤ high) }
{
    let n = value.as_integer()?;
    match u64::try_from(n) {
        Ok(n) if low <= n && n <= high => Some(n),
        _ => None,
    }
}

/// The whole number of a key, where it lies in the range; the default where the key is missing.
pub(crate) fn number_or(table: &Table, key: &str, low: u64, high: u64, default: u64) -> Option<u64>
    requires low { low ≤ default }
    requires high { default ≤ high }
    ensures number { result ≡ number_or low high default (get_member key.now (table_view table.now)) }
    ensures low { IfSome result (λ n. low ≤ n) }
    ensures high { IfSome result (λ n. n ≤ high) }
{
    match value_of(table, key) {
        Some(value) => number_in(value, low, high),
        None => Some(default),
    }
}

/// The truth value of a key; the default where the key is missing.
fn truth_or(table: &Table, key: &str, default: bool) -> Option<bool>
    ensures { result ≡ truth_or default (get_member key.now (table_view table.now)) }
{
    match value_of(table, key) {
        Some(value) => value.as_bool(),
        None => Some(default),
    }
}

/// The IPv4 address and port that a text says. No port is 0.
fn address_in(text: &[u8]) -> Option<SocketAddrV4>
    ensures found { IfSome result (λ address. IsSocketV4Text text.now address × (v4_port address ≢ 0)) }
    ensures none { IfNone result ((address : AnyAddress) → IsSocketV4Text text.now address → v4_port address ≢ 0 → ⊥) }
{
    match SocketAddrV4::parse_ascii(text) {
        Ok(address) => {
            if address.port() != 0 {
                Some(address)
            } else {
                None
            }
        }
        Err(_) => None,
    }
}

/// The IPv4 address and port that a value says as text. No port is 0.
pub(crate) fn address_of(value: &Value) -> Option<SocketAddrV4>
    ensures found { IfSome result (IsAddress (view value.now)) }
    ensures none { IfNone result ((address : AnyAddress) → IsAddress (view value.now) address → ⊥) }
{
    match value.as_str() {
        Some(text) => address_in(text.as_bytes()),
        None => None,
    }
}

/// The IPv4 address and port of a key.
pub(crate) fn address(table: &Table, key: &str) -> Option<SocketAddrV4>
    ensures found { IfSome result (HasAddress key.now (table_view table.now)) }
    ensures none { IfNone result ((address : AnyAddress) → HasAddress key.now (table_view table.now) address → ⊥) }
{
    match value_of(table, key) {
        Some(value) => address_of(value),
        None => None,
    }
}

/// Reads the truth value of a key of the document; the default where the key is missing.
pub(crate) fn read_truth(
    alloc: Global,
    table: &Table,
    key: &str,
    default: bool,
) -> Result<bool, ConfigFault>
    requires { IsNext key.now (truth default) (table_view table.now) }
    ensures ok { IfOk result (λ b. truth_or default (get_member key.now (table_view table.now)) ≡ Some b) }
    ensures past { IfOk result (λ _. IsPast key.now (table_view table.now)) }
    ensures err { IfErr result (Names (IsFirstFault (table_view table.now))) }
{
    needed(alloc, key, truth_or(table, key, default))
}

/// Reads the IPv4 address and port of a key of the document.
pub(crate) fn read_address(
    alloc: Global,
    table: &Table,
    key: &str,
) -> Result<SocketAddrV4, ConfigFault>
    requires { IsNext key.now address (table_view table.now) }
    ensures ok { IfOk result (HasAddress key.now (table_view table.now)) }
    ensures past { IfOk result (λ _. IsPast key.now (table_view table.now)) }
    ensures err { IfErr result (Names (IsFirstFault (table_view table.now))) }
{
    needed(alloc, key, address(table, key))
}
