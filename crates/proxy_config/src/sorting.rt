//! Putting hosts in the order in which one is found fast.

ghost use Rattle.std.specs.Prelude.{◌≡◌, ℕ, List, [], IfOk};
ghost use Rattle.std.specs.List.Sorted.{IsPermutation};
ghost use Rattle.proxy_config.specs.Hosts.{address_of_name};

use crate::host::Host;
use crate::host_table::HostTable;
use std::alloc::{AllocError, Global};

impl HostTable {
    /// A table of no hosts.
    pub(crate) fn empty(alloc: Global) -> HostTable
        ensures { result.entries.items ≡ [] }
    {
        HostTable {
            entries: Vec::new(alloc),
        }
    }
}

/// Puts hosts in the order of their numbers. A name is found at the first host that has it.
pub(crate) fn sorted(mut all: Vec<Host>) -> Result<HostTable, AllocError>
    ensures same { IfOk result (λ table. IsPermutation all.items table.entries.items) }
    ensures first { IfOk result (λ table. (name : List ℕ) → address_of_name name table.entries.items ≡ address_of_name name all.items) }
{
    all.sort_by_key(|host| host.number)?;
    Ok(HostTable { entries: all })
}
