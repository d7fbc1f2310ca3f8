//! The keys that say who may use the proxy, and where requests may go.

ghost use Rattle.proxy_config.specs.Values.{IsWithin};

use crate::carry::read_carry;
use crate::config::CROWDS;
use crate::fault::ConfigFault;
use crate::file_path::read_path;
use crate::network::Network;
use crate::networks::{read_denied, read_users};
use crate::numbers::read_numbers;
use crate::values::read_truth;
use std::alloc::Global;
use toml::Table;

/// Who may use the proxy, and where requests may go, as [`Config`](crate::Config) has it.
#[derive(Drop)]
pub(crate) struct Entrance {
    pub users: Option<Vec<Network>>,
    pub denied: Vec<Network>,
    pub user_connections: u64,
    pub client_ip: bool,
    pub carry: Vec<String>,
    pub proxy_protocol: bool,
    pub hosts_file: Option<String>,
    ghost in_range: { IsWithin 0 4096 user_connections },
}

impl Entrance {
    ghost use Rattle.std.specs.Prelude.{codes, IfOk, IfErr};
    ghost use Rattle.toml.specs.View.{table_view};
    ghost use Rattle.proxy_config.specs.Config.{IsFirstFault};
    ghost use Rattle.proxy_config.specs.Fault.{Names};
    ghost use Rattle.proxy_config.specs.Groups.{AreSaidOf, HasEntrance};
    ghost use Rattle.proxy_config.specs.Keys.{entrance_rows};
    ghost use Rattle.proxy_config.specs.Turns.{IsPast};

    /// Reads it, a line a key or a run of keys.
    pub(crate) fn read(alloc: Global, table: &Table) -> Result<Entrance, ConfigFault>
        requires next { IsPast (codes "metrics") (table_view table.now) }
        ensures ok { IfOk result (AreSaidOf HasEntrance entrance_rows (table_view table.now)) }
        ensures past { IfOk result (λ _. IsPast (codes "hosts_file") (table_view table.now)) }
        ensures err { IfErr result (Names (IsFirstFault (table_view table.now))) }
    {
        let users = read_users(alloc, table)?;
        let denied = read_denied(alloc, table)?;
        let [user_connections] = read_numbers::<1>(alloc, table, &CROWDS)?;
        Ok(Entrance {
            users,
            denied,
            user_connections,
            client_ip: read_truth(alloc, table, "client_ip", false)?,
            carry: read_carry(alloc, table)?,
            proxy_protocol: read_truth(alloc, table, "proxy_protocol", false)?,
            hosts_file: read_path(alloc, table, "hosts_file")?,
        })
    }
}
