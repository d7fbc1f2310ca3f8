//! Reading a configuration.

ghost use Rattle.std.specs.Prelude.{◌≡◌, IfOk, IfErr, Some};
ghost use Rattle.toml.specs.Data.{Members};
ghost use Rattle.toml.specs.Parse.{parse_document};
ghost use Rattle.proxy_config.specs.Config.{IsConfig, Refuses};

use crate::config::Config;
use crate::fault::ConfigFault;
use std::alloc::Global;
use std::str;

/// Reads a configuration (TOML). The first fault in the order of [`Config`]'s keys is answered, unknown keys last;
/// `Text` goes before all of them. `NoMemory` where none was found for the configuration.
pub fn read_config(alloc: Global, text: &[u8]) -> Result<Config, ConfigFault>
    ensures ok { IfOk result (λ config. (document : Members)
        × (parse_document text.now ≡ Some document) × IsConfig document config) }
    ensures err { IfErr result (Refuses text.now) }
{
    let Ok(text) = str::from_utf8(text) else {
        return Err(ConfigFault::Text);
    };
    match toml::table_from_str(alloc, text) {
        Ok(table) => Config::read(alloc, &table),
        Err(error) if error.is_memory() => Err(ConfigFault::NoMemory),
        Err(_) => Err(ConfigFault::Text),
    }
}
