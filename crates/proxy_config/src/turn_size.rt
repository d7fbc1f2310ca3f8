//! How many bytes a turn moves at most.

ghost use Rattle.std.specs.Prelude.{◌≡◌, IfOk, IfErr, IfSome, Some, codes};
ghost use Rattle.toml.specs.Data.{get_member};
ghost use Rattle.toml.specs.View.{table_view};
ghost use Rattle.proxy_config.specs.Config.{IsFirstFault};
ghost use Rattle.proxy_config.specs.Fault.{Names};
ghost use Rattle.proxy_config.specs.Keys.Kind.{turn_size};
ghost use Rattle.proxy_config.specs.TurnSize.{turn_at, turn_or, window_at, IsTurn};
ghost use Rattle.proxy_config.specs.Turns.{IsNext, IsPast};

use crate::fault::{ConfigFault, needed};
use crate::limits::{LEAST_TURN, MAX_TURN};
use crate::values::{number_in, value_of};
use std::alloc::Global;
use toml::Table;

/// The most bytes of a turn that the key says: [`LEAST_TURN`] where it is missing, with any window. `None` where its value is no
/// number of the range, no multiple of [`LEAST_TURN`], or above the window.
fn turn_of(table: &Table, window: u64) -> Option<u64>
    ensures said { result ≡ turn_or window (get_member (codes "turn") (table_view table.now)) }
    ensures fits { IfSome result (IsTurn window) }
{
    let Some(value) = value_of(table, "turn") else {
        return Some(LEAST_TURN);
    };
    match number_in(value, LEAST_TURN, MAX_TURN) {
        Some(turn) if turn % LEAST_TURN == 0 && turn <= window => Some(turn),
        _ => None,
    }
}

/// Reads the most bytes of a turn, by the document's window.
pub(crate) fn read_turn(alloc: Global, table: &Table, window: u64) -> Result<u64, ConfigFault>
    requires window { window_at (table_view table.now) ≡ Some window }
    requires next { IsNext (codes "turn") turn_size (table_view table.now) }
    ensures ok { IfOk result (λ turn. turn_at (table_view table.now) ≡ Some turn) }
    ensures fits { IfOk result (IsTurn window) }
    ensures past { IfOk result (λ _. IsPast (codes "turn") (table_view table.now)) }
    ensures err { IfErr result (Names (IsFirstFault (table_view table.now))) }
{
    needed(alloc, "turn", turn_of(table, window))
}
