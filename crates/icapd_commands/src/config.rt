//! The configuration of `icapd serve`: a TOML table.
ghost use Rattle.std.specs.Prelude.{◌≡◌, ◌↔◌, ℕ, List, IsTrue, IfOk, IfErr, IfSome, IfNone, option_map};
ghost use Rattle.std.specs.declared.net.socket_addr.SocketAddrV4.{SocketAddrV4 as Address};
ghost use Rattle.toml.specs.View.{table_view};
ghost use Rattle.icap_services.specs.Texts.{shown};
ghost use Rattle.icapd_commands.specs.Config.{is_at, text_at, integer_at, ListenIs, TagIs, NumberIs, IsKnown, HasValues, IsTableBad, IsConfig, IsRefused};

use crate::error::{IcapdError, Key};
use adapt_bytes::{MAX_CONNECTIONS, MAX_INPUT, MAX_PREVIEW};
use icap_services::{MAX_TTL, Settings, is_tag};
use std::alloc::Global;
use std::net::SocketAddrV4;
use toml::Table;

/// The default ISTag, without its quotes.
pub(crate) const DEFAULT_TAG: &[u8] = b"adapt-1";

/// The default of the connections that are served at once.
pub(crate) const DEFAULT_MAX: u64 = 16;

/// The default of the seconds for which an OPTIONS answer may be kept.
pub(crate) const DEFAULT_TTL: u64 = 3600;

/// The default size of a preview, in bytes.
pub(crate) const DEFAULT_PREVIEW: u64 = 1024;

/// The default of the seconds after which a connection that says nothing is closed.
pub(crate) const DEFAULT_DEADLINE: u64 = 60;

/// The largest deadline, in seconds.
pub(crate) const MAX_DEADLINE: u64 = 3600;

/// Where `icapd serve` listens, what its answers say of it, and after how many seconds it closes a connection that says
/// nothing.
///
/// ```
/// let config = read_config(alloc, b"listen = \"127.0.0.1:1344\"\nmax = 64\n")?;
/// // `max` is written, `deadline` has its default.
/// assert_eq!(rt; (config.settings.max, config.deadline), (64, 60));
/// ```
#[derive(Drop)]
pub struct IcapdConfig {
    pub listen: SocketAddrV4,
    pub settings: Settings,
    pub deadline: u64,
}

/// Reads a configuration. The keys are judged in the order `listen`, `istag`, `max`, `ttl`, `preview`,
/// `deadline`, and then unknown ones in byte order.
///
/// `InputTooLong` for more than [`MAX_INPUT`] bytes; `Config` for a text that is no UTF-8 or no TOML; `Key` with the first
/// key that is missing and has no default, of another kind, out of its range, or unknown; `NoMemory` where memory ran out.
pub fn read_config(alloc: Global, input: &[u8]) -> Result<IcapdConfig, IcapdError>
    ensures ok { IfOk result (λ config. IsConfig input.now config.listen (shown config.settings) config.deadline) }
    ensures refused { IfErr result (IsRefused input.now) }
{
    if input.len() > MAX_INPUT {
        return Err(IcapdError::InputTooLong);
    }
    match toml::table_from_slice(alloc, input) {
        Ok(table) => read_table(alloc, &table),
        Err(error) => {
            if error.is_memory() {
                Err(IcapdError::NoMemory)
            } else {
                Err(IcapdError::Config)
            }
        }
    }
}

/// Reads the table of a configuration.
fn read_table(alloc: Global, table: &Table) -> Result<IcapdConfig, IcapdError>
    ensures ok { IfOk result (λ config. HasValues (table_view table.now) config.listen (shown config.settings) config.deadline) }
    ensures refused { IfErr result (IsTableBad (table_view table.now)) }
{
    let Some(listen) = listen_of(table) else {
        return Err(IcapdError::Key(Key::Listen));
    };
    let Some(istag) = tag_of(table) else {
        return Err(IcapdError::Key(Key::Istag));
    };
    let Some(max) = number_of(table, "max", 1, MAX_CONNECTIONS, DEFAULT_MAX) else {
        return Err(IcapdError::Key(Key::Max));
    };
    let Some(ttl) = number_of(table, "ttl", 0, MAX_TTL, DEFAULT_TTL) else {
        return Err(IcapdError::Key(Key::Ttl));
    };
    let Some(preview) = number_of(table, "preview", 0, MAX_PREVIEW, DEFAULT_PREVIEW) else {
        return Err(IcapdError::Key(Key::Preview));
    };
    let Some(deadline) = number_of(table, "deadline", 1, MAX_DEADLINE, DEFAULT_DEADLINE) else {
        return Err(IcapdError::Key(Key::Deadline));
    };
    if let Some(key) = unknown_of(table) {
        return match String::from_str(alloc, key) {
            Ok(key) => Err(IcapdError::Key(Key::Unknown(key))),
            Err(_) => Err(IcapdError::NoMemory),
        };
    }
    let Ok(istag) = istag.to_vec(alloc) else {
        return Err(IcapdError::NoMemory);
    };
    Ok(IcapdConfig {
        listen,
        settings: Settings {
            istag,
            max,
            ttl,
            preview,
        },
        deadline,
    })
}

/// Whether the key is there.
fn is_at(table: &Table, key: &str) -> bool
    ensures { result ≡ is_at key.now (table_view table.now) }
{
    table.get(key).is_some()
}

/// The string at a key, if the key holds a string.
fn text_at<'a>(table: &'a Table, key: &str) -> Option<&'a str>
    ensures { option_map (λ text. text.now) result ≡ text_at key.now (table_view table.now) }
{
    match table.get(key) {
        Some(value) => value.as_str(),
        None => None,
    }
}

/// The integer at a key, if the key holds an integer.
fn integer_at(table: &Table, key: &str) -> Option<i64>
    ensures { result ≡ integer_at key.now (table_view table.now) }
{
    match table.get(key) {
        Some(value) => value.as_integer(),
        None => None,
    }
}

/// The address at `listen`: IPv4 and a port from 1 on.
fn listen_of(table: &Table) -> Option<SocketAddrV4>
    ensures some { IfSome result (ListenIs (table_view table.now)) }
    ensures none { IfNone result ((address : Address) → ListenIs (table_view table.now) address → ⊥) }
{
    let Some(text) = text_at(table, "listen") else {
        return None;
    };
    let Ok(address) = text.parse::<SocketAddrV4>() else {
        return None;
    };
    if address.port() == 0 {
        None
    } else {
        Some(address)
    }
}

/// The bytes at `istag`, or its default.
fn tag_of(table: &Table) -> Option<&[u8]>
    ensures some { IfSome result (λ tag. TagIs (table_view table.entry.now) tag.now) }
    ensures none { IfNone result ((tag : List ℕ) → TagIs (table_view table.entry.now) tag → ⊥) }
{
    if !is_at(table, "istag") {
        return Some(DEFAULT_TAG);
    }
    let Some(text) = text_at(table, "istag") else {
        return None;
    };
    let tag = text.as_bytes();
    if is_tag(tag) { Some(tag) } else { None }
}

/// The number at a key, if it is within the range, or its default.
fn number_of(table: &Table, key: &str, least: u64, most: u64, default: u64) -> Option<u64>
    ensures some { IfSome result (NumberIs key.now least most default (table_view table.now)) }
    ensures none { IfNone result ((n : ℕ) → NumberIs key.now least most default (table_view table.now) n → ⊥) }
{
    if !is_at(table, key) {
        return Some(default);
    }
    let Some(integer) = integer_at(table, key) else {
        return None;
    };
    let Ok(n) = u64::try_from(integer) else {
        return None;
    };
    if least <= n && n <= most {
        Some(n)
    } else {
        None
    }
}

/// The first unknown key, in byte order.
fn unknown_of(table: &Table) -> Option<&str>
    ensures { IfSome result (λ key. IsKnown key.now → ⊥) }
{
    for key in table.keys() {
        let key = key.as_str();
        if !is_known(key) {
            return Some(key);
        }
    }
    None
}

/// Whether a configuration may have the key.
fn is_known(key: &str) -> bool
    ensures { IsTrue result ↔ IsKnown key.now }
{
    key == "listen"
        || key == "istag"
        || key == "max"
        || key == "ttl"
        || key == "preview"
        || key == "deadline"
}
