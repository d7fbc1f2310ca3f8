//! Why a text is no configuration.

ghost use Rattle.std.specs.Prelude.{◌≡◌, IfOk, IfErr, Some, None, string_bytes};
ghost use Rattle.proxy_config.specs.Fault.{IsFaultAt};
ghost use Rattle.proxy_config.specs.Order.{nested};
ghost use Rattle.proxy_config.specs.declared.fault.ConfigFault.TheVariants.{NoMemory};

use std::alloc::{AllocError, Global};

/// Why a text is no configuration.
#[derive(Drop)]
pub enum ConfigFault {
    /// The text is no UTF-8, or no TOML document.
    Text,
    /// The value of this key is missing, of another kind, out of range, or at odds with another key; or the key repeats a host
    /// name, or no such key is known. A key of a table is written after the table's name and a dot.
    Key(String),
    /// No memory was found for the configuration, or for the key's text.
    NoMemory,
}

impl From<AllocError> for ConfigFault {
    ghost from_gives = { λ _ fault. fault ≡ NoMemory };

    fn from(_: AllocError) -> ConfigFault {
        ConfigFault::NoMemory
    }
}

/// The fault of a key.
pub(crate) fn at_key(alloc: Global, key: &str) -> ConfigFault
    ensures { IsFaultAt key.now result }
{
    match String::from_str(alloc, key) {
        Ok(key) => ConfigFault::Key(key),
        Err(_) => ConfigFault::NoMemory,
    }
}

/// The text of a key that stands in a table: the table's name, a dot and the key.
pub(crate) fn nested(alloc: Global, table: &str, key: &str) -> Result<String, AllocError>
    ensures { IfOk result (λ text. string_bytes text ≡ nested table.now key.now) }
{
    format!(in alloc; "{table}.{key}")
}

/// The fault of a key that stands in a table.
pub(crate) fn at_nested(alloc: Global, table: &str, key: &str) -> ConfigFault
    ensures { IsFaultAt (nested table.now key.now) result }
{
    match nested(alloc, table, key) {
        Ok(key) => ConfigFault::Key(key),
        Err(_) => ConfigFault::NoMemory,
    }
}

/// What was found for a key, or the fault of the key.
pub(crate) fn needed<T>(alloc: Global, key: &str, found: Option<T>) -> Result<T, ConfigFault>
    ensures ok { IfOk result (λ value. found ≡ Some value) }
    ensures err { IfErr result (λ fault. IsFaultAt key.now fault) }
    ensures none { IfErr result (λ _. found ≡ None) }
{
    match found {
        Some(value) => Ok(value),
        None => Err(at_key(alloc, key)),
    }
}
