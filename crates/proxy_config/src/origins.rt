//! The keys that say which connections to origins are kept, when one is opened, and how many bytes a turn moves.

ghost use Rattle.proxy_config.specs.Values.{IsWithin};

use crate::config::KEPT;
use crate::dial::{Dial, read_dial};
use crate::fault::ConfigFault;
use crate::numbers::read_numbers;
use crate::turn_size::read_turn;
use std::alloc::Global;
use toml::Table;

/// Which connections to origins are kept, when one is opened, and how many bytes a turn moves, as [`Config`](crate::Config) has it.
#[derive(Clone, Copy)]
pub(crate) struct Origins {
    pub keep_origins: u64,
    pub origin_idle: u64,
    pub dial: Dial,
    pub turn: u64,
    ghost in_range: { IsWithin 0 1024 keep_origins × IsWithin 1 3600 origin_idle },
}

impl Origins {
    ghost use Rattle.std.specs.Prelude.{◌≡◌, codes, IfOk, IfErr, Some};
    ghost use Rattle.toml.specs.View.{table_view};
    ghost use Rattle.proxy_config.specs.Config.{IsFirstFault};
    ghost use Rattle.proxy_config.specs.Fault.{Names};
    ghost use Rattle.proxy_config.specs.Groups.{AreSaidOf, HasOrigins};
    ghost use Rattle.proxy_config.specs.Keys.{origin_rows};
    ghost use Rattle.proxy_config.specs.TurnSize.{window_at, IsTurn};
    ghost use Rattle.proxy_config.specs.Turns.{IsPast};

    /// Reads them, a line a key or a run of keys. The turn is judged by the window.
    pub(crate) fn read(alloc: Global, table: &Table, window: u64) -> Result<Origins, ConfigFault>
        requires window { window_at (table_view table.now) ≡ Some window }
        requires next { IsPast (codes "hosts_file") (table_view table.now) }
        ensures ok { IfOk result (AreSaidOf HasOrigins origin_rows (table_view table.now)) }
        ensures fits { IfOk result (λ origins. IsTurn window origins.turn) }
        ensures past { IfOk result (λ _. IsPast (codes "turn") (table_view table.now)) }
        ensures err { IfErr result (Names (IsFirstFault (table_view table.now))) }
    {
        let [keep_origins, origin_idle] = read_numbers::<2>(alloc, table, &KEPT)?;
        Ok(Origins {
            keep_origins,
            origin_idle,
            dial: read_dial(alloc, table)?,
            turn: read_turn(alloc, table, window)?,
        })
    }
}
