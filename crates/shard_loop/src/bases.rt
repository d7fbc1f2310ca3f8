//! The bases that the loops of the threads run on, and what a fault of one is to the proxy.

ghost use Rattle.std.specs.Prelude.{◌≡◌};

use event_loop::{AdminPorts, Admission, Base, Entrance, Inbox, LoopFault, Room, add_loop};
use mio::net::TcpListener;
use proxy_config::Config;
use shard_report::ProxyFault;
use std::alloc::Global;
use std::net::Net;
use std::sync::Arc;

/// Where users and the administrator connect.
#[derive(Drop)]
pub(crate) struct OpenedPorts {
    pub(crate) users: TcpListener,
    pub(crate) admin: AdminPorts,
}

/// Where users connect, for whom there is this room: as many loops take them as are configured.
pub(crate) fn entrance_of(
    config: &Config,
    listener: TcpListener,
    room: Arc<Room>,
    admission: Admission,
) -> Entrance
    ensures loops { result.loops ≡ config.now.shards }
    ensures given { (result.listener ≡ listener) × (result.room ≡ room) × (result.admission ≡ admission) }
{
    Entrance {
        listener,
        room,
        loops: config.shards as usize,
        admission,
    }
}

/// Makes a base for one more loop, after the others.
fn add_base<R: Net>(
    rt: &R,
    alloc: Global,
    users: Option<Entrance>,
    admin: Option<AdminPorts>,
    inboxes: &mut Vec<Inbox>,
    bases: &mut Vec<Option<Base>>,
) -> Result<(), ProxyFault> {
    let base = match add_loop(rt, alloc, users, admin, inboxes) {
        Ok(base) => base,
        Err(error) => return Err(start_fault(LoopFault::of(error))),
    };
    if bases.push(Some(base)).is_err() {
        return Err(ProxyFault::NoMemory);
    }
    Ok(())
}

/// Makes a base for each loop that takes users, and one for the administrator's. The first one has the users' port, the last
/// one the administrator's: it runs in the thread that waits for the others, and keeps the program's name.
pub(crate) fn make_bases<R: Net>(
    rt: &R,
    alloc: Global,
    count: u64,
    users: Entrance,
    admin: AdminPorts,
    inboxes: &mut Vec<Inbox>,
) -> Result<Vec<Option<Base>>, ProxyFault> {
    let mut bases = Vec::new(alloc);
    let mut users = Some(users);
    for _ in 0..count {
        add_base(rt, alloc, users.take(), None, inboxes, &mut bases)?;
    }
    add_base(rt, alloc, None, Some(admin), inboxes, &mut bases)?;
    Ok(bases)
}

/// Why the proxy can't begin, where a loop can't be made.
fn start_fault(fault: LoopFault) -> ProxyFault
    ensures system { fault ≡ LoopFault.System → result ≡ ProxyFault.System }
    ensures memory { fault ≡ LoopFault.NoMemory → result ≡ ProxyFault.NoMemory }
{
    match fault {
        LoopFault::System => ProxyFault::System,
        LoopFault::NoMemory => ProxyFault::NoMemory,
    }
}

/// Why the proxy can't go on, where a loop failed.
pub(crate) fn loop_fault(fault: LoopFault) -> ProxyFault
    ensures system { fault ≡ LoopFault.System → result ≡ ProxyFault.Loop }
    ensures memory { fault ≡ LoopFault.NoMemory → result ≡ ProxyFault.NoMemory }
{
    match fault {
        LoopFault::System => ProxyFault::Loop,
        LoopFault::NoMemory => ProxyFault::NoMemory,
    }
}

/// What a thread takes the base of its loop from.
pub(crate) trait HasBase {
    /// The base, once.
    fn take_base(&mut self) -> Option<Base>;
}

impl HasBase for Option<Base> {
    fn take_base(&mut self) -> Option<Base> {
        self.take()
    }
}
