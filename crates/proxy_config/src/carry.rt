//! Reading which fields of a service's answer go on with the next request of the same exchange.

ghost use Rattle.std.specs.Prelude.{◌≡◌, [], IfOk, IfErr, Some, codes, map, option_copied, option_map, string_bytes};
ghost use Rattle.adapt_bytes.specs.Text.{is_among};
ghost use Rattle.toml.specs.Data.{get_member};
ghost use Rattle.toml.specs.View.{view, items_view, table_view};
ghost use Rattle.proxy_config.specs.Carry.{carry_or, is_field_name, is_own, is_of_connection, may_go, may_follow, name_in, names_after};
ghost use Rattle.proxy_config.specs.Config.{IsFirstFault};
ghost use Rattle.proxy_config.specs.Fault.{Names};
ghost use Rattle.proxy_config.specs.Keys.Kind.{field_names};
ghost use Rattle.proxy_config.specs.Turns.{IsNext, IsPast};

use crate::fault::{ConfigFault, needed};
use crate::values::value_of;
use adapt_bytes::{is_token, same_ascii};
use std::alloc::{AllocError, Global};
use toml::{Table, Value};

/// The most names.
const MAX_CARRIED: usize = 8;

/// Whether a text may be the name of a field: a token.
fn is_field_name(name: &[u8]) -> bool
    ensures { result ≡ is_field_name name.now }
{
    is_token(name)
}

/// Whether the proxy itself writes such a field into a request to a service.
fn is_own(name: &[u8]) -> bool
    ensures { result ≡ is_own name.now }
{
    same_ascii(b"Host", name)
        || same_ascii(b"X-Client-IP", name)
        || same_ascii(b"Allow", name)
        || same_ascii(b"Preview", name)
        || same_ascii(b"Encapsulated", name)
}

/// Whether such a field is about one connection.
fn is_of_connection(name: &[u8]) -> bool
    ensures { result ≡ is_of_connection name.now }
{
    same_ascii(b"Connection", name)
        || same_ascii(b"Proxy-Connection", name)
        || same_ascii(b"Keep-Alive", name)
        || same_ascii(b"TE", name)
        || same_ascii(b"Transfer-Encoding", name)
        || same_ascii(b"Upgrade", name)
}

/// Whether a field of this name may go on.
fn may_go(name: &[u8]) -> bool
    ensures { result ≡ may_go name.now }
{
    is_field_name(name) && !is_own(name) && !is_of_connection(name)
}

/// Whether a name is one of these, ASCII case ignored.
fn is_among(names: &[String], name: &[u8]) -> bool
    ensures { result ≡ is_among (map string_bytes names.now) name.now }
{
    for other in names {
        if same_ascii(other.as_bytes(), name) {
            return true;
        }
    }
    false
}

/// Whether a name may follow these: there are fewer than eight, it isn't one of them, and its field may go on.
fn may_follow(names: &[String], name: &[u8]) -> bool
    ensures { result ≡ may_follow (map string_bytes names.now) name.now }
{
    names.len() < MAX_CARRIED && may_go(name) && !is_among(names, name)
}

/// The name that a value says, where it may follow these.
fn name_in<'a>(names: &[String], value: &'a Value) -> Option<&'a str>
    ensures { option_copied result ≡ name_in (map string_bytes names.now) (view value.now) }
{
    match value.as_str() {
        Some(name) if may_follow(names, name.as_bytes()) => Some(name),
        _ => None,
    }
}

/// The names that values say. `None` where one says none that may follow those before it.
fn names_in(alloc: Global, values: &[Value]) -> Result<Option<Vec<String>>, AllocError>
    ensures { IfOk result (λ found. option_map (λ names. map string_bytes names.items) found ≡ names_after [] (items_view values.now)) }
{
    let mut names = Vec::new(alloc);
    for value in values {
        let Some(name) = name_in(&names, value) else {
            return Ok(None);
        };
        let name = String::from_str(alloc, name)?;
        if names.push(name).is_err() {
            return Err(AllocError);
        }
    }
    Ok(Some(names))
}

/// The names of the key; none where it is missing. `None` where its value is no list of such names.
fn carry(alloc: Global, table: &Table) -> Result<Option<Vec<String>>, AllocError>
    ensures { IfOk result (λ found. option_map (λ names. map string_bytes names.items) found ≡ carry_or (get_member (codes "carry") (table_view table.now))) }
{
    let Some(value) = value_of(table, "carry") else {
        return Ok(Some(Vec::new(alloc)));
    };
    match value.as_array() {
        Some(values) => names_in(alloc, values),
        None => Ok(None),
    }
}

/// Reads which fields go on; none where the key is missing.
pub(crate) fn read_carry(alloc: Global, table: &Table) -> Result<Vec<String>, ConfigFault>
    requires { IsNext (codes "carry") field_names (table_view table.now) }
    ensures ok { IfOk result (λ names. carry_or (get_member (codes "carry") (table_view table.now)) ≡ Some (map string_bytes names.items)) }
    ensures past { IfOk result (λ _. IsPast (codes "carry") (table_view table.now)) }
    ensures err { IfErr result (Names (IsFirstFault (table_view table.now))) }
{
    let found = carry(alloc, table)?;
    needed(alloc, "carry", found)
}
