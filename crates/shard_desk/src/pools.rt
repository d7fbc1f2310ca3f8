//! Connections to services over sockets: how they lie idle, and what their lending asks of a thread's loop.

ghost use Rattle.std.specs.Prelude.{◌≡◌, ◌↔◌, true, Some, Ok, IfSome};
ghost use Rattle.proxy_config.specs.declared.config.Config.{Config as AnyConfig};
ghost use Rattle.service_pool.specs.Latest.{IsLatest};
ghost use Rattle.service_pool.specs.Lending.{fault_in};

use crate::dials::dial;
use crate::lines::{IdleLine, SinceLaid};
use crate::seats::Seats;
use crate::shared::Shares;
use event_loop::{IdlePermit, Inbox, Room};
use mio::Registry;
use service_pool::{Act, Connector, Edge, Keeper, Latest, LendFault, Waiting};
use socket_wire::{Dial, Peer, ServiceWire, Unread};
use std::net::SocketAddrV4;
use std::sync::Arc;

/// A connection to a service that no transaction uses, with its line, the number of the thread whose poll reports it, its permit among the
/// descriptors, and the moment since which it lies idle, in seconds.
///
/// Any thread may drop one: the wire goes first, and closing its descriptor takes it out of the poll; its line is free only after that, so
/// that no event of it can be taken for another connection's.
pub struct Spare {
    pub wire: ServiceWire,
    pub line: IdleLine,
    pub thread: usize,
    pub permit: IdlePermit,
    pub since: u64,
}

impl Drop for Spare {
    fn drop(self) {
        let Spare {
            wire,
            line,
            thread: _,
            permit,
            since: _,
        } = self;
        drop(wire);
        drop(line);
        drop(permit);
    }
}

impl Spare {
    /// Its wire and its line, and the number of the thread with which it lay idle. Its permit goes back.
    fn into_parts(self) -> (ServiceWire, IdleLine, usize)
        ensures { (result.0 ≡ self.wire) × (result.2 ≡ self.thread) }
    {
        let Spare {
            wire,
            line,
            thread,
            permit,
            since: _,
        } = self;
        drop(permit);
        (wire, line, thread)
    }
}

/// That the loop of a thread was woken.
#[derive(Drop)]
pub struct Woken {
    thread: usize,
}

/// What all threads share: their inboxes, and the descriptors.
#[derive(Clone, Copy, Drop)]
pub struct Loops<'a> {
    pub inboxes: &'a [Inbox],
    /// The descriptors, which users and idle connections share.
    pub room: &'a Arc<Room>,
}

impl<'a> Edge for Loops<'a> {
    type Idle = Spare;

    type Woken = Woken;

    ghost since = { λ idle. idle.since };

    ghost home = { λ idle. idle.thread };

    ghost thread_of = { λ woken. woken.thread };

    fn since(idle: &Spare) -> u64
        ensures { result ≡ idle.now.since }
    {
        idle.since
    }

    fn home(idle: &Spare) -> usize
        ensures { result ≡ idle.now.thread }
    {
        idle.thread
    }

    /// The system isn't asked: the thread with which it lies hears of a byte and of the end, and has them noted.
    fn is_quiet(&self, idle: &Spare) -> bool {
        idle.line.is_quiet()
    }

    fn wake(&self, thread: usize) -> Woken {
        if let Some(inbox) = self.inboxes.get(thread) {
            inbox.wake();
        }
        Woken { thread }
    }

    fn is_crowded(&self) -> bool {
        self.room.has_too_many_idle()
    }
}

/// The connections to services of both points, which all threads share.
pub type SharedPools<'a, Q, A> = service_pool::Pools<'a, Loops<'a>, Q, A>;

/// The connections to services of both points, and those who wait for one.
pub fn pools_of<S: Shares>(shared: &S) -> SharedPools<'_, S::Requests, S::Responses>
    ensures idle { (config : AnyConfig) × S.config_is shared.now config × (result.idle_seconds ≡ config.service_idle) }
    ensures wait { (config : AnyConfig) × S.config_is shared.now config × (result.waiting.seconds ≡ config.wait) }
{
    let request = shared.requests();
    let response = shared.responses();
    let queues = shared.queues();
    let inboxes = shared.inboxes();
    let room = shared.room();
    let edge = Loops { inboxes, room };
    let waiting = Waiting {
        queues,
        edge,
        seconds: shared.config().wait,
    };
    SharedPools {
        request,
        response,
        idle_seconds: shared.config().service_idle,
        thread: shared.number(),
        waiting,
    }
}

/// The seat of an exchange, from which its service's connection is taken: the seats of its thread are lent to it meanwhile. It knows what
/// it was asked last.
#[derive(Drop)]
pub(crate) struct Berth<'r, 'a> {
    pub registry: &'r Registry,
    pub key: usize,
    /// The number of its thread.
    pub thread: usize,
    pub seats: Seats,
    pub inboxes: &'a [Inbox],
    pub room: &'a Arc<Room>,
    pub asked: Latest,
}

impl<'r, 'a> Berth<'r, 'a> {
    /// Has a connection lie idle with this thread since this moment, with a permit among the descriptors of idle ones. The poll goes on
    /// reporting it, so that a byte or its end is noted on its line while nobody uses it.
    ///
    /// Nothing lay unread on it when it was asked (`is_quiet`), so it counts as read out from here on, also where the last read took just
    /// what there was and didn't find the end of it: else no idle connection would look quiet that was read so. No event is lost by that:
    /// the poll reports edges, and what comes later is one. An event of before, of bytes that were read meanwhile, may still be noted on
    /// the line: then the connection is closed, though it needn't be.
    fn lay_idle(&mut self, used: ServiceWire, now: u64) -> Option<Spare>
        ensures idle { IfSome result (λ idle. (idle.since ≡ now) × (idle.thread ≡ self.old.thread) × (idle.wire ≡ used)) }
        ensures asked { self.new.asked ≡ self.old.asked }
    {
        let permit = Room::keep(self.room)?;
        let line = self.seats.dismiss(self.key, Peer::Service)?;
        Some(Spare {
            wire: used,
            line,
            thread: self.thread,
            permit,
            since: now,
        })
    }

    /// Whether nothing came on an idle connection since it was laid down. For one that lies with this thread the line tells, once a poll
    /// has been since; else the system is asked.
    fn is_still(&self, idle: &Spare) -> bool {
        if idle.thread == self.thread {
            match idle.line.since_laid(self.seats.heard_at()) {
                SinceLaid::Nothing => return true,
                SinceLaid::Something => return false,
                SinceLaid::NotPolled => {}
            }
        }
        idle.wire.unread() == Unread::Nothing
    }

    /// Has the exchange use an idle connection. One that lies with this thread is reported as before, for this exchange from now on. One
    /// that lies with another thread is taken out of that one's poll, and this thread's reports it. `None` where the system refuses:
    /// then it is closed.
    fn take_up(&mut self, idle: Spare) -> Option<ServiceWire>
        ensures wire { IfSome result (λ wire. wire ≡ idle.wire) }
        ensures asked { self.new.asked ≡ self.old.asked }
    {
        let (wire, line, thread) = idle.into_parts();
        if thread == self.thread {
            self.seats.seize(self.key, Peer::Service, line);
            return Some(wire);
        }
        let mut wire = wire;
        wire.deregister(self.inboxes.get(thread)?.registry()).ok()?;
        self.seats.enlist(self.registry, self.key, wire, line).ok()
    }
}

/// Whether a connection still lives, and nothing lies unread on it.
fn is_quiet(wire: &ServiceWire) -> bool {
    wire.is_read_out() || wire.unread() == Unread::Nothing
}

impl<'r, 'a> Keeper<Loops<'a>> for Berth<'r, 'a> {
    type Used = ServiceWire;

    ghost past = { λ berth p. IsLatest berth.asked p };

    ghost thread = { λ berth. berth.thread };

    ghost is_line = { λ idle used. idle.wire ≡ used };

    fn may_rest(&mut self, used: &ServiceWire) -> bool {
        let may_rest = is_quiet(used);
        self.asked.note(Act::Checked(may_rest));
        may_rest
    }

    fn rest(&mut self, used: ServiceWire, now: u64) -> Option<Spare> {
        let idle = self.lay_idle(used, now);
        self.asked.note(Act::Rested(idle.is_some()));
        idle
    }

    fn close(&mut self, used: ServiceWire) {
        drop(used);
        self.asked.note(Act::Closed);
    }
}

/// The seat of an exchange that may dial.
#[derive(Drop)]
pub(crate) struct Port<'r, 'a, R> {
    pub rt: &'r R,
    pub berth: Berth<'r, 'a>,
}

/// Whether a connection leads to this address.
fn leads_to(wire: &ServiceWire, place: Option<SocketAddrV4>) -> bool
    ensures { (result ≡ true) ↔ (wire.now.stream.to ≡ place) }
{
    wire.address() == place
}

/// Why a connection wasn't lent, if it wasn't.
fn fault_of<T>(lent: &Result<T, LendFault>) -> Option<LendFault>
    ensures { result ≡ fault_in lent.now }
{
    match lent {
        Ok(_) => None,
        Err(fault) => Some(*fault),
    }
}

impl<'r, 'a, R: Dial> Keeper<Loops<'a>> for Port<'r, 'a, R> {
    type Used = ServiceWire;

    ghost past = { λ port p. IsLatest port.berth.asked p };

    ghost thread = { λ port. port.berth.thread };

    ghost is_line = { λ idle used. idle.wire ≡ used };

    fn may_rest(&mut self, used: &ServiceWire) -> bool {
        self.berth.may_rest(used)
    }

    fn rest(&mut self, used: ServiceWire, now: u64) -> Option<Spare> {
        self.berth.rest(used, now)
    }

    fn close(&mut self, used: ServiceWire) {
        self.berth.close(used);
    }
}

impl<'r, 'a, R: Dial> Connector<Loops<'a>> for Port<'r, 'a, R> {
    /// The address of a service, if it has one.
    type Place = Option<SocketAddrV4>;

    ghost leads = { λ place used. used.stream.to ≡ place };

    ghost idle_leads = { λ place idle. idle.wire.stream.to ≡ place };

    fn is_known_quiet(&self, idle: &Spare) -> bool {
        idle.line.since_laid(self.berth.seats.heard_at()) == SinceLaid::Nothing
    }

    fn open(&mut self, place: Option<SocketAddrV4>) -> Result<ServiceWire, LendFault> {
        let rt = self.rt;
        let registry = self.berth.registry;
        let key = self.berth.key;
        let opened = match place {
            Some(address) => dial(rt, &mut self.berth.seats, registry, key, address),
            None => Err(LendFault::Unreached),
        };
        self.berth.asked.note(Act::Opened(fault_of(&opened)));
        opened
    }

    fn is_fit(&mut self, place: Option<SocketAddrV4>, idle: &Spare) -> bool {
        let is_fit = leads_to(&idle.wire, place) && self.berth.is_still(idle);
        self.berth.asked.note(Act::Looked(is_fit));
        is_fit
    }

    fn resume(&mut self, idle: Spare) -> Result<ServiceWire, LendFault> {
        let since = idle.since;
        let home = idle.thread;
        let resumed = match self.berth.take_up(idle) {
            Some(wire) => Ok(wire),
            None => Err(LendFault::NoMemory),
        };
        let fault = fault_of(&resumed);
        self.berth.asked.note(Act::Resumed(since, home, fault));
        resumed
    }
}
