//! What a loop is made on, and its run in a thread.

ghost use Rattle.std.specs.Prelude.{◌≡◌, None, IfOk};
ghost use Rattle.event_loop.specs.Deeds.Deed.{Halted};
ghost use Rattle.event_loop.specs.Turns.{Ran, Stands};

use crate::admission::Admission;
use crate::ended::{Ended, LoopFault};
use crate::inbox::{Inbox, stop_all};
use crate::listening::Listening;
use crate::looping::{ADMIN, EventLoop, LISTENER, METRICS, WAKER};
use crate::ports::Ports;
use crate::room::Room;
use crate::work::Work;
use mio::net::TcpListener;
use mio::{Poll, Token, Waker};
use os::set_thread_name;
use socket_wire::Dial;
use std::alloc::Global;
use std::io;
use std::net::Net;
use std::sync::{Arc, Wait};
use std::time::{Clock, Instant};

/// What a loop is made on: its poll, and the ports that it serves.
///
/// ```
/// let mut inboxes = Vec::new(alloc);
/// let room = Arc::new(alloc, Room::new(100, 16))?;
/// let admission = Admission { users: None, most: 0 };
/// let users = Entrance { listener, room, loops: 1, admission };
/// let ports = AdminPorts { admin, metrics: None };
/// let base = add_loop(rt, alloc, Some(users), Some(ports), &mut inboxes)?;
/// // It runs until the administrator says `stop`, or another thread does by `inboxes[0].stop()`.
/// let Ended { work, fault } = run_loop(rt, alloc, 0, base, work, &inboxes);
/// assert_eq!(rt; fault, None);
/// ```
#[derive(Drop)]
pub struct Base {
    pub(crate) poll: Poll,
    pub(crate) ports: Option<Ports>,
    pub(crate) admin: Option<Listening>,
    pub(crate) metrics: Option<Listening>,
}

/// Where users connect, for how many there is room, how many loops take them, which are the first ones, and which users are served.
#[derive(Drop)]
pub struct Entrance {
    pub listener: TcpListener,
    pub room: Arc<Room>,
    pub loops: usize,
    pub admission: Admission,
}

/// Where the administrator connects, and, if that is wanted, those who read the counters over HTTP.
#[derive(Drop)]
pub struct AdminPorts {
    pub admin: TcpListener,
    pub metrics: Option<TcpListener>,
}

/// The listener, if there is one, which the poll reports under this token from now on.
fn listening_on(
    listener: Option<TcpListener>,
    poll: &Poll,
    token: Token,
) -> io::Result<Option<Listening>> {
    match listener {
        Some(listener) => Ok(Some(Listening::new(listener, poll.registry(), token)?)),
        None => Ok(None),
    }
}

/// The users' port, if the loop serves it, which the poll reports from now on.
fn users_port(alloc: Global, users: Option<Entrance>, poll: &Poll) -> io::Result<Option<Ports>> {
    let Some(
        Entrance {
            listener,
            room,
            loops,
            admission,
        },
    ) = users
    else {
        return Ok(None);
    };
    let users = Listening::new(listener, poll.registry(), LISTENER)?;
    Ok(Some(Ports::new(alloc, users, room, loops, admission)))
}

/// The administrator's port and that of the counters, if the loop serves them: the poll reports them from now on. Then its inbox is
/// made, as the last one.
fn asker_ports(
    alloc: Global,
    ports: Option<AdminPorts>,
    poll: &Poll,
    inboxes: &mut Vec<Inbox>,
) -> io::Result<(Option<Listening>, Option<Listening>)> {
    let (admin, metrics) = match ports {
        Some(AdminPorts { admin, metrics }) => (Some(admin), metrics),
        None => (None, None),
    };
    let admin = listening_on(admin, poll, ADMIN)?;
    let metrics = listening_on(metrics, poll, METRICS)?;
    add_inbox(alloc, poll, inboxes)?;
    Ok((admin, metrics))
}

/// Makes the inbox of a loop over this poll, as the last one.
fn add_inbox(alloc: Global, poll: &Poll, inboxes: &mut Vec<Inbox>) -> io::Result<()> {
    let waker = Waker::new(poll.registry(), WAKER)?;
    let registry = poll.registry().try_clone()?;
    inboxes.push(Inbox::new(alloc, waker, registry))?;
    Ok(())
}

/// Makes a poll, and its inbox as the last one. Its loop serves the users' port, the administrator's, both or neither.
pub fn add_loop<R: Net>(
    rt: &R,
    alloc: Global,
    users: Option<Entrance>,
    admin: Option<AdminPorts>,
    inboxes: &mut Vec<Inbox>,
) -> io::Result<Base> {
    let poll = Poll::new(rt)?;
    let ports = users_port(alloc, users, &poll)?;
    let (admin, metrics) = asker_ports(alloc, admin, &poll, inboxes)?;
    Ok(Base {
        poll,
        ports,
        admin,
        metrics,
    })
}

/// Names the thread of a loop that takes users, as `top -H` and `perf` show it.
pub fn name_thread(number: usize) {
    let mut name = *b"shard-00";
    let low = b'0' + (number % 10) as u8;
    if number < 10 {
        name[6] = low;
        name[7] = 0;
    } else {
        name[6] = b'0' + (number / 10 % 10) as u8;
        name[7] = low;
    }
    let _ = set_thread_name(&name);
}

/// Runs a loop on this base over this work, in its caller's thread, until it has to stop or fails. A loop that fails, or
/// for which no memory is found, has all others stop, and its own exchanges end as at a stop. The work comes back.
///
/// An exchange that is owed a turn where one turn of the loop ends is driven before the next one does. Where no fault is answered, all
/// exchanges were ended.
pub fn run_loop<K: Work, R: Wait + Dial + Clock>(
    rt: &R,
    alloc: Global,
    number: usize,
    base: Base,
    work: K,
    inboxes: &[Inbox],
) -> Ended<K>
    ensures { Ran K.Work work result.work (λ deeds. result.fault ≡ None → Stands Halted deeds) }
{
    let Ok(start) = Instant::now(rt) else {
        drop(base);
        stop_all(inboxes);
        return Ended {
            work,
            fault: Some(LoopFault::System),
        };
    };
    match EventLoop::new(alloc, base, start, work) {
        Ok(one) if number < inboxes.len() => {
            let mut one = one;
            let fault = one.run_out(rt, alloc, number, inboxes);
            Ended {
                work: one.into_work(),
                fault,
            }
        }
        Ok(one) => {
            stop_all(inboxes);
            Ended {
                work: one.into_work(),
                fault: Some(LoopFault::System),
            }
        }
        Err(work) => {
            stop_all(inboxes);
            Ended {
                work,
                fault: Some(LoopFault::NoMemory),
            }
        }
    }
}
