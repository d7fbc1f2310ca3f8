//! The surroundings of an exchange, in memory.

ghost use Rattle.std.specs.Prelude.{◌≡◌, IfOk, IfErr, true};
ghost use Rattle.shard_exchange.specs.Reasons.{lies_elsewhere};

mod outside;

use crate::exchanges::services::book_of;
use crate::exchanges::words::either;
use crate::stage::{LineOwner, ORIGINS, RowStage, SERVICES, StageWire, first_word, key_of};
use exchange_report::Why;
use proxy_config::Config;
use service_pool::{LendFault, PointBook};
use shard_exchange::Reason;
use shard_message::{Kinds, Outside};
use span_bank::{Bank, Ledgers};
use std::alloc::Global;
use std::net::SocketAddrV4;
use test_rows::{Scene, Values, is};
use trace_core::Point;
use wire_kit::Wire;

/// The moment of a step.
#[derive(Clone, Copy, Drop)]
pub struct RowMoment {
    /// No byte moved for longer than the deadline.
    pub late: bool,
    /// The user has said nothing for a while.
    pub rested: bool,
    /// The message has waited in the queue as long as it may.
    pub waited: bool,
}

/// The right to a connection of a service. It has no `Drop`.
pub struct RowLease {
    point: Point,
    /// Whether its connection was idle before.
    reused: bool,
}

/// The surroundings of a row's exchange, which outlive it. What plays a row sees no more of them.
pub trait RowOutside: Outside<RowMoment> {
    /// After the exchange, with a lease that it left.
    fn end(self, lease: Option<Self::Lease>);
}

/// The surroundings of a row's exchange, in memory.
#[derive(Drop)]
pub struct MemoryOutside<'a, W, B: Ledgers> {
    alloc: Global,
    stage: &'a RowStage,
    scene: Scene<'a>,
    values: Values,
    config: &'a Config,
    bank: &'a Bank<B>,
    request: PointBook,
    response: PointBook,
    /// The idle connections to the service of each point, the newest one last.
    request_idle: Vec<W>,
    response_idle: Vec<W>,
    /// The idle connections to origins, the newest one last, and where each connection to an origin leads, in the order in which they were
    /// opened.
    kept: Vec<W>,
    addresses: Vec<SocketAddrV4>,
    /// How many connections to services and to origins were opened.
    services: u64,
    origins: u64,
    /// What becomes of the next leases, and of the next connections to origins.
    lends: &'a [u8],
    dials: &'a [u8],
    /// Whether the request is a HEAD, why a message was refused last, and how many refusals had a page.
    is_head: bool,
    why: Why,
    pages: u64,
}

/// The right to a connection of a point's service.
fn lease_of(point: Point, reused: bool) -> RowLease
    ensures { result.point ≡ point }
{
    RowLease { point, reused }
}

impl<'a, W: StageWire<'a>, B: Ledgers> MemoryOutside<'a, W, B> {
    /// Before anything happened.
    pub fn new(
        alloc: Global,
        stage: &'a RowStage,
        scene: Scene<'a>,
        values: Values,
        config: &'a Config,
        bank: &'a Bank<B>,
    ) -> MemoryOutside<'a, W, B> {
        MemoryOutside {
            alloc,
            stage,
            scene,
            values,
            config,
            bank,
            request: book_of(alloc, scene, Point::Reqmod, b"request-options"),
            response: book_of(alloc, scene, Point::Respmod, b"response-options"),
            request_idle: Vec::new(alloc),
            response_idle: Vec::new(alloc),
            kept: Vec::new(alloc),
            addresses: Vec::new(alloc),
            services: 0,
            origins: 0,
            lends: scene.get(b"lends"),
            dials: scene.get(b"dials"),
            is_head: false,
            why: Why::UserGone,
            pages: 0,
        }
    }

    /// A further connection to a service.
    fn open_service(&mut self) -> W {
        self.services = self.services.saturating_add(1);
        let peer = LineOwner::Service(self.services);
        let key = key_of(&SERVICES, self.services);
        W::open(self.stage, self.scene, self.values, peer, key)
    }

    /// The idle connection of a point that was put back last.
    fn take_idle(&mut self, point: Point) -> Option<W> {
        match point {
            Point::Reqmod => self.request_idle.pop(),
            Point::Respmod => self.response_idle.pop(),
        }
    }

    /// Where a connection to an origin leads.
    fn address_of(&self, wire: &W) -> Option<SocketAddrV4> {
        let at = usize::try_from(wire.number()?.checked_sub(1)?).ok()?;
        self.addresses.get(at).copied()
    }

    /// The youngest connection to this address that an exchange left, and on which nothing was heard since.
    fn take_kept(&mut self, address: SocketAddrV4) -> Option<W> {
        for passed in 0..self.kept.len() {
            let at = self.kept.len().checked_sub(passed.checked_add(1)?)?;
            if self.address_of(self.kept.get(at)?) == Some(address) {
                let mut wire = self.kept.remove(at);
                return if wire.is_quiet() { Some(wire) } else { None };
            }
        }
        None
    }

    /// A further connection to an origin: `refused` and `memory` have it fail.
    fn open_origin(&mut self, address: SocketAddrV4) -> Result<W, Reason>
        ensures { IfErr result (λ reason. lies_elsewhere reason ≡ true) }
    {
        let (word, rest) = first_word(self.dials);
        self.dials = rest;
        match word {
            b"refused" => return Err(Reason::OriginRefused),
            b"memory" => return Err(Reason::NoMemory),
            _ => {}
        }
        if self.addresses.push(address).is_err() {
            return Err(Reason::NoMemory);
        }
        self.origins = self.origins.saturating_add(1);
        let peer = LineOwner::Origin(self.origins);
        let key = key_of(&ORIGINS, self.origins);
        Ok(W::open(self.stage, self.scene, self.values, peer, key))
    }

    /// The word of what becomes of the next lease.
    fn next_lend(&mut self) -> &'a [u8] {
        let (word, rest) = first_word(self.lends);
        self.lends = rest;
        word
    }

    /// A lease: `busy`, `unreached`, `memory` and `paused` have it fail, and `idle` has its connection be one that was idle.
    fn lease(&mut self, point: Point) -> Result<(W, RowLease), LendFault>
        ensures { IfOk result (λ lent. lent.1.point ≡ point) }
    {
        let word = self.next_lend();
        match word {
            b"busy" => return Err(LendFault::Busy),
            b"unreached" => return Err(LendFault::Unreached),
            b"memory" => return Err(LendFault::NoMemory),
            b"paused" => return Err(LendFault::Paused),
            _ => {}
        }
        if !self.stage.take_right() {
            return Err(LendFault::Busy);
        }
        if is(word, b"idle") {
            return Ok((self.open_service(), lease_of(point, true)));
        }
        Ok(match self.take_idle(point) {
            Some(wire) => (wire, lease_of(point, true)),
            None => (self.open_service(), lease_of(point, false)),
        })
    }

    /// A lease, and a note of it.
    fn lease_noted(&mut self, point: Point) -> Result<(W, RowLease), LendFault>
        ensures { IfOk result (λ lent. lent.1.point ≡ point) }
    {
        let leased = self.lease(point);
        match &leased {
            Ok((wire, lease)) => {
                wire.note(either(lease.reused, b"leases again", b"leases"));
            }
            Err(fault) => self.stage.note_shown(b"leases nothing:", fault),
        }
        leased
    }
}

impl<'a, W: StageWire<'a>, B: Ledgers> Kinds for MemoryOutside<'a, W, B> {
    type User = W;

    type Origin = W;

    type Service = W;

    type Lease = RowLease;

    type Ledgers = B;
}

impl<'a, W: StageWire<'a>, B: Ledgers> RowOutside for MemoryOutside<'a, W, B> {
    fn end(self, lease: Option<RowLease>) {
        if let Some(lease) = lease {
            let RowLease {
                point: _,
                reused: _,
            } = lease;
        }
    }
}
