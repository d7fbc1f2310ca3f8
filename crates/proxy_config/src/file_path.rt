//! Reading keys that are paths of files.

ghost use Rattle.std.specs.Prelude.{◌≡◌, IfOk, IfErr, Some, option_map, option_copied, string_bytes};
ghost use Rattle.toml.specs.Data.{get_member};
ghost use Rattle.toml.specs.View.{table_view};
ghost use Rattle.proxy_config.specs.Config.{IsFirstFault};
ghost use Rattle.proxy_config.specs.Fault.{Names};
ghost use Rattle.proxy_config.specs.Keys.Kind.{file_path};
ghost use Rattle.proxy_config.specs.FilePath.{is_file_path, path_or_none};
ghost use Rattle.proxy_config.specs.Turns.{IsNext, IsPast};

use crate::fault::{ConfigFault, at_key};
use crate::values::value_of;
use std::alloc::Global;
use toml::Table;

/// The most bytes of a path.
const MAX_FILE_PATH: usize = 4_096;

/// Whether a file may have the path: 1 to 4,096 bytes, none of them NUL.
fn is_file_path(path: &str) -> bool
    ensures { result ≡ is_file_path path.now }
{
    let bytes = path.as_bytes();
    !bytes.is_empty() && bytes.len() <= MAX_FILE_PATH && !bytes.contains(&0)
}

/// The path of a key, where the key is there. `None` where its value is no path.
fn path_of<'a>(table: &'a Table, key: &str) -> Option<Option<&'a str>>
    ensures { option_map option_copied result ≡ path_or_none (get_member key.now (table_view table.now)) }
{
    let Some(value) = value_of(table, key) else {
        return Some(None);
    };
    match value.as_str() {
        Some(path) if is_file_path(path) => Some(Some(path)),
        _ => None,
    }
}

/// Reads the path of a key; none where the key is missing.
pub(crate) fn read_path(
    alloc: Global,
    table: &Table,
    key: &str,
) -> Result<Option<String>, ConfigFault>
    requires { IsNext key.now file_path (table_view table.now) }
    ensures ok { IfOk result (λ path. path_or_none (get_member key.now (table_view table.now)) ≡ Some (option_map string_bytes path)) }
    ensures past { IfOk result (λ _. IsPast key.now (table_view table.now)) }
    ensures err { IfErr result (Names (IsFirstFault (table_view table.now))) }
{
    match path_of(table, key) {
        Some(None) => Ok(None),
        Some(Some(path)) => Ok(Some(String::from_str(alloc, path)?)),
        None => Err(at_key(alloc, key)),
    }
}
