//! Keys whose values are whole numbers: rows of a table, read one after the other.

ghost use Rattle.std.specs.Prelude.{◌≡◌, IfOk, IfErr, length};
ghost use Rattle.toml.specs.View.{table_view};
ghost use Rattle.proxy_config.specs.Config.{IsFirstFault};
ghost use Rattle.proxy_config.specs.Fault.{Names};
ghost use Rattle.proxy_config.specs.Keys.{table as key_table};
ghost use Rattle.proxy_config.specs.Numbers.{AreNext, ArePast, AreRead, IsKeyOf, key_rules, rules_among};

use crate::config::{CROWDS, KEPT, SIZES, TIMES, WAITS};
use crate::fault::{ConfigFault, needed};
use crate::number_key::NumberKey;
use crate::values::number_or;
use std::alloc::Global;
use toml::Table;

/// Reads the numbers of these keys, one after the other.
pub(crate) fn read_numbers<const N: usize>(
    alloc: Global,
    table: &Table,
    keys: &[NumberKey],
) -> Result<[u64; N], ConfigFault>
    requires length { length keys.now ≡ N }
    requires next { AreNext (key_rules keys.now) (table_view table.now) }
    ensures ok { IfOk result (AreRead (key_rules keys.now) (table_view table.now)) }
    ensures past { IfOk result (λ _. ArePast (key_rules keys.now) (table_view table.now)) }
    ensures err { IfErr result (Names (IsFirstFault (table_view table.now))) }
{
    let mut numbers = [0; N];
    for i in 0..N {
        let key = &keys[i];
        let number = number_or(table, key.name, key.low, key.high, key.default);
        numbers[i] = needed(alloc, key.name, number)?;
    }
    Ok(numbers)
}

/// The key of these that has a name.
fn key_in(keys: &[NumberKey], name: &str) -> Option<NumberKey>
    ensures { IsKeyOf (key_rules keys.now) name.now result }
{
    for key in keys {
        if key.name == name {
            return Some(*key);
        }
    }
    None
}

/// The key that has a name, where its value is a whole number; but for `turn`, which other keys bound.
pub fn number_named(name: &str) -> Option<NumberKey>
    ensures { IsKeyOf (rules_among key_table) name.now result }
{
    key_in(&SIZES, name)
        .or(key_in(&WAITS, name))
        .or(key_in(&CROWDS, name))
        .or(key_in(&KEPT, name))
        .or(key_in(&TIMES, name))
}
