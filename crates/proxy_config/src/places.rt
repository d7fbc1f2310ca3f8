//! The keys that say where requests and messages go.

use crate::fault::ConfigFault;
use crate::host_table::Hosts;
use crate::hosts::read_hosts;
use crate::parent::read_parent;
use crate::point::ServicePoint;
use crate::services::read_point;
use std::alloc::Global;
use std::net::SocketAddrV4;
use toml::Table;

/// Where requests and messages go, as [`Config`](crate::Config) has it.
#[derive(Drop)]
pub(crate) struct Places {
    pub hosts: Hosts,
    pub reqmod: Option<ServicePoint>,
    pub respmod: Option<ServicePoint>,
    pub parent: Option<SocketAddrV4>,
}

impl Places {
    ghost use Rattle.std.specs.Prelude.{codes, IfOk, IfErr};
    ghost use Rattle.toml.specs.View.{table_view};
    ghost use Rattle.proxy_config.specs.Config.{IsFirstFault};
    ghost use Rattle.proxy_config.specs.Fault.{Names};
    ghost use Rattle.proxy_config.specs.Groups.{AreSaidOf, HasPlaces};
    ghost use Rattle.proxy_config.specs.Keys.{place_rows};
    ghost use Rattle.proxy_config.specs.Turns.{IsPast};

    /// Reads them, a line a key.
    pub(crate) fn read(alloc: Global, table: &Table) -> Result<Places, ConfigFault>
        requires next { IsPast (codes "refusal_pages") (table_view table.now) }
        ensures ok { IfOk result (AreSaidOf HasPlaces place_rows (table_view table.now)) }
        ensures past { IfOk result (λ _. IsPast (codes "parent") (table_view table.now)) }
        ensures err { IfErr result (Names (IsFirstFault (table_view table.now))) }
    {
        Ok(Places {
            hosts: read_hosts(alloc, table)?,
            reqmod: read_point(alloc, table, "reqmod")?,
            respmod: read_point(alloc, table, "respmod")?,
            parent: read_parent(alloc, table)?,
        })
    }
}
