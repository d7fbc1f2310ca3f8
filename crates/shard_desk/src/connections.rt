//! Connections to services and origins, as the exchanges of a thread use them.

ghost use Rattle.std.specs.Prelude.{◌≡◌, ℕ, [], Option, None, Some, IfOk, IfErr, OnErr, false, true};
ghost use Rattle.std.specs.declared.net.socket_addr.SocketAddrV4.{SocketAddrV4 as AnyAddress};
ghost use Rattle.shard_exchange.specs.Reasons.{lies_elsewhere};
ghost use Rattle.proxy_config.specs.declared.config.Config.{Config as AnyConfig};
ghost use Rattle.trace_core.specs.declared.history.Point.{Point as AnyPoint};
ghost use Rattle.service_pool.specs.declared.connector.Act.TheVariants.{Opened};
ghost use Rattle.service_pool.specs.declared.latest.Latest.{Latest as AnyLatest};
ghost use Rattle.service_pool.specs.Latest.{IsLatest};
ghost use Rattle.service_pool.specs.Lending.{point_of, is_reused, IsOf, Leads, Lends};
ghost use Rattle.shard_desk.specs.Asked.{LendsBy, FailsBy, PutsBy};
ghost use Rattle.shard_desk.specs.Books.{Keeps, HasKept};
ghost use Rattle.shard_desk.specs.Places.{place_at};
ghost use Rattle.shard_message.specs.Planning.{service_of as service_at};

use crate::dials::{dial, dial_late};
use crate::pools::{Berth, Port, pools_of};
use crate::seats::Seats;
use crate::shared::Shares;
use crate::spot::Spot;
use event_loop::Room;
use options_book::Record;
use proxy_config::{Config, Dial as DialTime, ServicePoint};
use proxy_rules::pool_maximum;
use service_pool::{Latest, Leased, LeasedConnection, LendFault, PointBook, Waiter};
use shard_exchange::Reason;
use shard_message::service_of;
use socket_wire::{Dial, OriginWire, ServiceWire};
use std::alloc::{AllocError, Global};
use std::net::SocketAddrV4;
use std::sync::ledger::Ledger;
use std::sync::{Arc, Wait};
use trace_core::Point;

/// A connection to a service, and the right to it.
type Lent<Q, A> = Result<(ServiceWire, Leased<Q, A>), LendFault>;

/// What was lent, in two pieces.
fn lent_of<Q: Ledger, A: Ledger>(
    lent: Result<LeasedConnection<ServiceWire, Q, A>, LendFault>,
) -> Lent<Q, A>
    ensures point { (point : AnyPoint) → IsOf point lent → IfOk result (λ lent. point_of lent.1 ≡ point) }
    ensures leads { (place : Option AnyAddress) → Leads (λ wire. wire.stream.to ≡ place) lent → IfOk result (λ lent. lent.0.stream.to ≡ place) }
    ensures lends { (now : ℕ) → (most : ℕ) → (thread : ℕ) → (old : AnyLatest) → (asked : AnyLatest) → IsLatest old [] → Lends now most thread (IsLatest old) (IsLatest asked) lent
        → IfOk result (λ lent. LendsBy now most asked lent.1) }
    ensures fails { (now : ℕ) → (most : ℕ) → (thread : ℕ) → (old : AnyLatest) → (asked : AnyLatest) → IsLatest old [] → Lends now most thread (IsLatest old) (IsLatest asked) lent
        → IfErr result (FailsBy asked) }
{
    match lent {
        Ok(LeasedConnection { wire, lease }) => Ok((wire, lease)),
        Err(fault) => Err(fault),
    }
}

/// The address of a point's service.
fn address_of(config: &Config, point: Point) -> Option<SocketAddrV4>
    ensures { result ≡ place_at config.now point }
{
    match service_of(config, point) {
        Some(service) => Some(service.address),
        None => None,
    }
}

/// A connection to an origin that is opened now, or at its first write. Want of memory, of a descriptor or of a port is another answer than
/// a host that can't be reached.
pub(crate) fn open_origin<R: Dial, G>(
    seats: &mut Seats,
    at: &Spot<'_, R, G>,
    address: SocketAddrV4,
    when: DialTime,
) -> Result<OriginWire, Reason>
    ensures leads { IfOk result (λ wire. wire.stream.to ≡ Some address) }
    ensures elsewhere { IfErr result (λ reason. lies_elsewhere reason ≡ true) }
{
    let opened = match when {
        DialTime::First => dial(at.rt, seats, at.registry, at.key, address),
        DialTime::Late => dial_late(at.rt, seats, at.registry, at.key, address),
    };
    match opened {
        Ok(wire) => Ok(wire),
        Err(LendFault::NoMemory) => Err(Reason::NoMemory),
        Err(_) => Err(Reason::OriginRefused),
    }
}

/// The seat of an exchange. The seats of its thread are in it, and come back after the call.
fn berth_of<'r, 'a, S: Shares, R, G>(
    shared: &'a S,
    seats: &mut Seats,
    at: &Spot<'r, R, G>,
) -> Berth<'r, 'a>
    ensures { IsLatest result.asked [] }
{
    let registry = at.registry;
    let inboxes = shared.inboxes();
    let room = shared.room();
    Berth {
        registry,
        key: at.key,
        thread: shared.number(),
        seats: seats.lend(),
        inboxes,
        room,
        asked: Latest::new(),
    }
}

/// The seat of an exchange that may dial. The seats of its thread are in it, and come back after the call.
fn port_of<'r, 'a, S: Shares, R: Dial, G>(
    shared: &'a S,
    seats: &mut Seats,
    at: &Spot<'r, R, G>,
) -> Port<'r, 'a, R>
    ensures { IsLatest result.berth.asked [] }
{
    let rt = at.rt;
    let berth = berth_of(shared, seats, at);
    Port { rt, berth }
}

/// The exchange of this key as one that waits.
pub(crate) fn waiter_of<S: Shares>(shared: &S, key: usize) -> Waiter {
    Waiter {
        thread: shared.number(),
        key,
    }
}

/// Leases a connection to a point's service, an idle one first. One that comes while others wait for theirs gets none, as nobody does while
/// the service is paused.
pub(crate) fn lend_now<S: Shares, R: Wait + Dial, G>(
    shared: &S,
    seats: &mut Seats,
    asked: &mut Latest,
    at: &Spot<'_, R, G>,
    point: Point,
) -> Lent<S::Requests, S::Responses>
    ensures point { IfOk result (λ lent. point_of lent.1 ≡ point) }
    ensures leads { IfOk result (λ lent. (config : AnyConfig) × S.config_is shared.now config × (lent.0.stream.to ≡ place_at config point)) }
    ensures lends { IfOk result (λ lent. (config : AnyConfig) × S.config_is shared.now config × LendsBy at.entry.now.now config.service_idle asked.new lent.1) }
    ensures fails { IfErr result (FailsBy asked.new) }
{
    let who = waiter_of(shared, at.key);
    let place = address_of(shared.config(), point);
    let mut port = port_of(shared, seats, at);
    let lent = pools_of(shared).lend(at.rt, &mut port, point, place, who, at.now);
    *seats = port.berth.seats;
    *asked = port.berth.asked;
    lent_of(lent)
}

/// Leases a connection to a message that waits, once it is its turn. With a connection it has left the queue.
pub(crate) fn lend_waiting<S: Shares, R: Wait + Dial, G>(
    shared: &S,
    seats: &mut Seats,
    asked: &mut Latest,
    at: &Spot<'_, R, G>,
    point: Point,
) -> Lent<S::Requests, S::Responses>
    ensures point { IfOk result (λ lent. point_of lent.1 ≡ point) }
    ensures leads { IfOk result (λ lent. (config : AnyConfig) × S.config_is shared.now config × (lent.0.stream.to ≡ place_at config point)) }
    ensures lends { IfOk result (λ lent. (config : AnyConfig) × S.config_is shared.now config × LendsBy at.entry.now.now config.service_idle asked.new lent.1) }
    ensures fails { IfErr result (FailsBy asked.new) }
{
    let waiter = waiter_of(shared, at.key);
    let place = address_of(shared.config(), point);
    let mut port = port_of(shared, seats, at);
    let lent = pools_of(shared).lend_in_turn(at.rt, &mut port, point, place, waiter, at.now);
    *seats = port.berth.seats;
    *asked = port.berth.asked;
    lent_of(lent)
}

/// A fresh connection in place of a leased one that broke and is closed, where the pool allows one.
pub(crate) fn lend_anew<S: Shares, R: Wait + Dial, G>(
    shared: &S,
    seats: &mut Seats,
    asked: &mut Latest,
    at: &Spot<'_, R, G>,
    lease: &mut Leased<S::Requests, S::Responses>,
) -> Result<ServiceWire, LendFault>
    ensures point { point_of lease.new ≡ point_of lease.old }
    ensures fresh { IfOk result (λ _. is_reused lease.new ≡ false) }
    ensures leads { IfOk result (λ wire. (config : AnyConfig) × S.config_is shared.now config × (wire.stream.to ≡ place_at config (point_of lease.new))) }
    ensures opened { IfOk result (λ _. asked.new.last ≡ Some (Opened None)) }
{
    let place = address_of(shared.config(), lease.point());
    let mut port = port_of(shared, seats, at);
    let wire = pools_of(shared).reopen(at.rt, &mut port, place, lease);
    *seats = port.berth.seats;
    *asked = port.berth.asked;
    wire
}

/// Puts a connection back that may serve again. One that its service has ended, or on which it says what nobody asked for, is closed.
pub(crate) fn put_back<S: Shares, R: Wait, G>(
    shared: &S,
    seats: &mut Seats,
    asked: &mut Latest,
    at: &Spot<'_, R, G>,
    wire: ServiceWire,
    lease: Leased<S::Requests, S::Responses>,
)
    ensures { (config : AnyConfig) × S.config_is shared.now config × PutsBy config.service_idle asked.new }
{
    let mut berth = berth_of(shared, seats, at);
    let connection = LeasedConnection { wire, lease };
    pools_of(shared).put(at.rt, &mut berth, connection, at.now);
    *seats = berth.seats;
    *asked = berth.asked;
}

/// Keeps what a point's service said, once its pool has the maximum that it says. `Err` where no memory was found: then nothing has
/// changed.
fn keep_of<S: Shares, R: Wait, G>(
    shared: &S,
    at: &Spot<'_, R, G>,
    alloc: Global,
    point: Point,
    service: &ServicePoint,
    book: &mut PointBook,
    said: Record,
) -> Result<(), AllocError>
    ensures kept { IfOk result (λ _. HasKept point service.now said book.new) }
    ensures same { OnErr result (book.new ≡ book.old) }
{
    let maximum = pool_maximum(Some(&said), service);
    match pools_of(shared).keep(at.rt, alloc, point, maximum, book, said) {
        Ok(_) => Ok(()),
        Err(fault) => Err(fault),
    }
}

/// Keeps what the service of a point said, where it has one. The rest is as above.
pub(crate) fn keep_record<S: Shares, R: Wait, G>(
    shared: &S,
    at: &Spot<'_, R, G>,
    alloc: Global,
    point: Point,
    book: &mut PointBook,
    said: Record,
) -> Result<(), AllocError>
    ensures keeps { IfOk result (λ _. (config : AnyConfig) × S.config_is shared.now config × Keeps point (service_at config point) said book.old book.new) }
    ensures same { OnErr result (book.new ≡ book.old) }
{
    match service_of(shared.config(), point) {
        Some(service) => keep_of(shared, at, alloc, point, service, book, said),
        None => Ok(()),
    }
}
