//! Lists of networks: who may use the proxy, and where no request goes.

ghost use Rattle.std.specs.Prelude.{◌≡◌, ◌≤◌, ◌⊎◌, ℕ, List, Option, Some, IfOk, IfErr, IfSome, IfNone, codes, option_map};
ghost use Rattle.std.specs.Net.Grammar.{IsIpv4Text};
ghost use Rattle.std.specs.declared.net.ipv4_addr.Ipv4Addr.{Ipv4Addr as AnyIp};
ghost use Rattle.adapt_bytes.specs.Numeral.{Writes};
ghost use Rattle.toml.specs.View.{view, items_view, table_view};
ghost use Rattle.proxy_config.specs.Config.{IsFirstFault};
ghost use Rattle.proxy_config.specs.Fault.{Names};
ghost use Rattle.proxy_config.specs.Keys.Kind.{user_networks, denied_networks};
ghost use Rattle.proxy_config.specs.Networks.{AreNetworks, IsNetwork, IsNetworkText, SaysNetworks, SaysNetworksOrNone};
ghost use Rattle.proxy_config.specs.Turns.{IsNext, IsPast};
ghost use Rattle.proxy_config.specs.declared.network.Network.{Network as AnyNetwork};

use crate::fault::{ConfigFault, needed};
use crate::network::Network;
use crate::values::value_of;
use adapt_bytes::read_decimal;
use std::alloc::{AllocError, Global};
use std::net::Ipv4Addr;
use toml::{Table, Value};

/// The address that a text says.
fn ip_in(text: &str) -> Option<Ipv4Addr>
    ensures found { IfSome result (IsIpv4Text text.now) }
    ensures none { IfNone result ((ip : AnyIp) → IsIpv4Text text.now ip → ⊥) }
{
    match Ipv4Addr::parse_ascii(text.as_bytes()) {
        Ok(ip) => Some(ip),
        Err(_) => None,
    }
}

/// The length of a prefix that digits say: at most 32.
fn prefix_length_in(digits: &str) -> Option<u32>
    ensures short { IfSome result (λ length. length ≤ 32) }
    ensures found { IfSome result (Writes 10 digits.now) }
    ensures none { IfNone result ((length : ℕ) → length ≤ 32 → Writes 10 digits.now length → ⊥) }
{
    match read_decimal(digits.as_bytes()) {
        Some(length) if length <= 32 => Some(length as u32),
        _ => None,
    }
}

/// The network that a text says: an address alone, or with a slash and the length of a prefix after it.
fn network_in(text: &str) -> Option<Network>
    ensures found { IfSome result (IsNetworkText text.now) }
    ensures none { IfNone result ((network : AnyNetwork) → IsNetworkText text.now network → ⊥) }
{
    let Some((address, digits)) = text.split_once('/') else {
        let address = ip_in(text)?;
        return Some(Network {
            address,
            prefix_length: 32,
        });
    };
    let address = ip_in(address)?;
    let prefix_length = prefix_length_in(digits)?;
    Some(Network {
        address,
        prefix_length,
    })
}

/// The network that a value says.
fn network_of(value: &Value) -> Option<Network>
    ensures found { IfSome result (IsNetwork (view value.now)) }
    ensures none { IfNone result ((network : AnyNetwork) → IsNetwork (view value.now) network → ⊥) }
{
    match value.as_str() {
        Some(text) => network_in(text),
        None => None,
    }
}

/// The networks that values say. `None` where one says none.
fn networks_in(alloc: Global, values: &[Value]) -> Result<Option<Vec<Network>>, AllocError>
    ensures found { IfOk result (λ found. IfSome found (λ networks. AreNetworks (items_view values.now) networks.items)) }
    ensures none { IfOk result (λ found.
        IfNone found ((networks : List AnyNetwork) → AreNetworks (items_view values.now) networks → ⊥)) }
{
    let mut networks = Vec::new(alloc);
    for value in values {
        let Some(network) = network_of(value) else {
            return Ok(None);
        };
        if networks.push(network).is_err() {
            return Err(AllocError);
        }
    }
    Ok(Some(networks))
}

/// The networks of a key, where it is there. `None` where its value is no list of networks.
fn networks_at(
    alloc: Global,
    table: &Table,
    key: &str,
) -> Result<Option<Option<Vec<Network>>>, AllocError>
    ensures found { IfOk result (λ found. IfSome found (λ networks.
        SaysNetworks key.now (table_view table.now) (option_map (λ vec. vec.items) networks))) }
    ensures none { IfOk result (λ found. IfNone found
        ((networks : Option (List AnyNetwork)) → SaysNetworks key.now (table_view table.now) networks → ⊥)) }
{
    let Some(value) = value_of(table, key) else {
        return Ok(Some(None));
    };
    let Some(values) = value.as_array() else {
        return Ok(None);
    };
    match networks_in(alloc, values)? {
        Some(networks) => Ok(Some(Some(networks))),
        None => Ok(None),
    }
}

/// Reads from which networks users may come; none where they may come from everywhere.
pub(crate) fn read_users(alloc: Global, table: &Table) -> Result<Option<Vec<Network>>, ConfigFault>
    requires { IsNext (codes "users") user_networks (table_view table.now) }
    ensures ok { IfOk result (λ users.
        SaysNetworks (codes "users") (table_view table.now) (option_map (λ vec. vec.items) users)) }
    ensures past { IfOk result (λ _. IsPast (codes "users") (table_view table.now)) }
    ensures err { IfErr result (Names (IsFirstFault (table_view table.now))) }
{
    let found = networks_at(alloc, table, "users")?;
    needed(alloc, "users", found)
}

/// Reads to which networks no request goes.
pub(crate) fn read_denied(alloc: Global, table: &Table) -> Result<Vec<Network>, ConfigFault>
    requires { IsNext (codes "denied") denied_networks (table_view table.now) }
    ensures ok { IfOk result (λ denied. SaysNetworksOrNone (codes "denied") (table_view table.now) denied.items) }
    ensures past { IfOk result (λ _. IsPast (codes "denied") (table_view table.now)) }
    ensures err { IfErr result (Names (IsFirstFault (table_view table.now))) }
{
    let found = networks_at(alloc, table, "denied")?;
    let networks = needed(alloc, "denied", found)?;
    match networks {
        Some(networks) => Ok(networks),
        None => Ok(Vec::new(alloc)),
    }
}
