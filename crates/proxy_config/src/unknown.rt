//! Keys that nothing here has.

ghost use Rattle.std.specs.Prelude.{◌≡◌, ◌↔◌, ℕ, List, IfOk, IfErr, IsTrue, Contains, option_copied, option_map, string_bytes, codes};
ghost use Rattle.toml.specs.View.{table_view};
ghost use Rattle.proxy_config.specs.Config.{IsFirstFault};
ghost use Rattle.proxy_config.specs.Fault.{Names};
ghost use Rattle.proxy_config.specs.Order.{first_text, IsFirstOrNone};
ghost use Rattle.proxy_config.specs.Turns.{IsPast};
ghost use Rattle.proxy_config.specs.Unknown.{texts, HasOther, IsUnknownOf, IsUnknown};

use crate::fault::{ConfigFault, at_key, nested};
use crate::values::table_of;
use crate::{config, parent, point};
use std::alloc::{AllocError, Global};
use toml::Table;

/// Whether the key is one of those that are known.
fn is_known(known: &[&str], key: &str) -> bool
    ensures { IsTrue result ↔ Contains (texts known.now) key.now }
{
    known.contains(&key)
}

/// The first key of a table, in the order of their bytes, that isn't known.
fn first_unknown<'a>(table: &'a Table, known: &[&str]) -> Option<&'a str>
    ensures { IsFirstOrNone (HasOther (texts known.now) (table_view table.now)) (option_copied result) }
{
    for key in table.keys() {
        if !is_known(known, key.as_str()) {
            return Some(key.as_str());
        }
    }
    None
}

/// The first key that isn't known of the table that a key of the document has, after that one's name and a dot.
fn unknown_in(
    alloc: Global,
    table: &Table,
    known: &[&str],
    name: &str,
) -> Result<Option<String>, AllocError>
    ensures { IfOk result (λ found.
        IsFirstOrNone (IsUnknownOf (texts known.now) name.now (table_view table.now)) (option_map string_bytes found)) }
{
    let Some(inner) = table_of(table, name) else {
        return Ok(None);
    };
    match first_unknown(inner, known) {
        Some(key) => Ok(Some(nested(alloc, name, key)?)),
        None => Ok(None),
    }
}

/// The text whose bytes come first, of those that are there.
fn first_of<'a>(a: Option<&'a str>, b: Option<&'a str>) -> Option<&'a str>
    ensures { option_copied result ≡ first_text (option_copied a.entry) (option_copied b.entry) }
{
    match (a, b) {
        (Some(a), Some(b)) => Some(if b < a { b } else { a }),
        (Some(a), None) => Some(a),
        (None, b) => b,
    }
}

/// The text of a key, where there is one.
fn text_of(key: &Option<String>) -> Option<&str>
    ensures { option_copied result ≡ option_map string_bytes key.now }
{
    match key {
        Some(key) => Some(key.as_str()),
        None => None,
    }
}

/// Finds fault with the first unknown key, in the order of their bytes.
pub(crate) fn check_keys(alloc: Global, table: &Table) -> Result<(), ConfigFault>
    requires { IsPast (codes "parent") (table_view table.now) }
    ensures ok { IfOk result (λ _. (key : List ℕ) → IsUnknown (table_view table.now) key → ⊥) }
    ensures err { IfErr result (Names (IsFirstFault (table_view table.now))) }
{
    let reqmod = unknown_in(alloc, table, &point::KEYS, "reqmod")?;
    let respmod = unknown_in(alloc, table, &point::KEYS, "respmod")?;
    let parent = unknown_in(alloc, table, &parent::KEYS, "parent")?;
    let of_tables = first_of(
        text_of(&reqmod),
        first_of(text_of(&respmod), text_of(&parent)),
    );
    match first_of(first_unknown(table, &config::KEYS), of_tables) {
        Some(key) => Err(at_key(alloc, key)),
        None => Ok(()),
    }
}
