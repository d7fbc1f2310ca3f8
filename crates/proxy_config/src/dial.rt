//! When the connection to an origin is opened.

ghost use Rattle.std.specs.Prelude.{◌≡◌, IfOk, IfErr, Some, codes};
ghost use Rattle.toml.specs.Data.{get_member};
ghost use Rattle.toml.specs.View.{table_view};
ghost use Rattle.proxy_config.specs.Config.{IsFirstFault};
ghost use Rattle.proxy_config.specs.Dial.{dial_or};
ghost use Rattle.proxy_config.specs.Fault.{Names};
ghost use Rattle.proxy_config.specs.Keys.Kind.{dial_time};
ghost use Rattle.proxy_config.specs.Turns.{IsNext, IsPast};

use crate::fault::{ConfigFault, needed};
use crate::values::value_of;
use std::alloc::Global;
use toml::Table;

/// When the connection to an origin is opened.
#[derive(Debug, Clone, Copy)]
pub enum Dial {
    /// Before the service of requests is asked.
    First,
    /// At the first byte that the origin is to have.
    Late,
}

/// The order that the key says: [`Dial::First`] where it is missing. `None` where its value is another text or none.
fn dial_of(table: &Table) -> Option<Dial>
    ensures { result ≡ dial_or (get_member (codes "dial") (table_view table.now)) }
{
    let Some(value) = value_of(table, "dial") else {
        return Some(Dial::First);
    };
    match value.as_str() {
        Some("first") => Some(Dial::First),
        Some("late") => Some(Dial::Late),
        _ => None,
    }
}

/// Reads the order.
pub(crate) fn read_dial(alloc: Global, table: &Table) -> Result<Dial, ConfigFault>
    requires { IsNext (codes "dial") dial_time (table_view table.now) }
    ensures ok { IfOk result (λ dial. dial_or (get_member (codes "dial") (table_view table.now)) ≡ Some dial) }
    ensures past { IfOk result (λ _. IsPast (codes "dial") (table_view table.now)) }
    ensures err { IfErr result (Names (IsFirstFault (table_view table.now))) }
{
    needed(alloc, "dial", dial_of(table))
}
