//! The beginning of a transaction of the proxy's own sides.

ghost use Rattle.std.specs.Prelude.{◌≡◌, ◌≤◌, ◌↔◌, List, ℕ, [], None, true, false, is_some};
ghost use Rattle.span_bank.specs.declared.limits.TheConstants.{MAX_CAPACITY};
ghost use Rattle.plan_rules.specs.Claims.{claim_of};
ghost use Rattle.adapt_turn.specs.Stands.{no_texts};
ghost use Rattle.proxy_rules.specs.Offers.{text_of};
ghost use Rattle.proxy_rules.specs.Beginnings.{MayBegin, service_end_of};
ghost use Rattle.proxy_rules.specs.Arrivals.{Came};
ghost use Rattle.proxy_rules.specs.Since.{first_snapshot};

use crate::incoming::Incoming;
use crate::offer::Offer;
use crate::own_ends::{OwnEnds, Way, Wires};
use crate::running::{Accounting, Running};
use adapt_turn::{Ends, ServiceEnd, Standing, Start, Tx};
use http_relay::HopWriter;
use http_side::OriginWay;
use icap_client::ServiceSide;
use plan_rules::{Limits, Pace};
use span_bank::{Ledgers, Stake};
use std::alloc::Global;
use wire_kit::Wire;

/// What a transaction of the proxy's own sides begins with.
pub struct Beginning<B: Ledgers, W: Wires> {
    pub offer: Offer,
    pub limits: Limits,
    /// A reservation of just the plan's claim, of which nothing is held.
    pub stake: Stake<B>,
    /// The message, whose head was read.
    pub message: Incoming,
    pub way: Way<W>,
    pub pace: Pace,
    /// Whether the user's connection ends after the answer, whatever else is said.
    pub last: bool,
    /// How a request goes to its origin. Nothing of a response rests on it.
    pub origin: OriginWay,
}

impl<B: Ledgers, W: Wires> Beginning<B, W> {
    /// What is left of it where no transaction began: the reservation and the wires.
    pub fn into_remains(self) -> (Stake<B>, Way<W>)
        ensures { result ≡ (self.stake, self.way) }
    {
        let Beginning {
            offer: _,
            limits: _,
            stake,
            message: _,
            way,
            pace: _,
            last: _,
            origin: _,
        } = self;
        (stake, way)
    }
}

/// Whether a transaction may begin: the offer is of a message of this kind, which may begin at its source by that plan, and a
/// connection to the service is there exactly where the message is offered.
///
/// It may not where the offer is of another kind of message, or of one of another length than the source's head says; where no head was
/// read, something of the body was reported before, or the source's side has a fault; and where a connection to the service is missing,
/// or there is one though the message isn't offered.
pub fn may_begin(message: &Incoming, offer: &Offer, is_connected: bool) -> bool
    ensures { result ≡ true ↔ MayBegin message.now offer.now is_connected }
{
    message.point() == offer.plan().point
        && offer.is_offered() == is_connected
        && message.begins(offer.plan())
}

/// The service's side over its connection, where there is one.
fn service_end<W>(side: Option<ServiceSide>, wire: Option<W>) -> Option<ServiceEnd<ServiceSide, W>>
    requires { is_some side ≡ is_some wire }
    ensures { result ≡ service_end_of side wire }
{
    match (side, wire) {
        (Some(side), Some(wire)) => Some(ServiceEnd {
            side,
            wire: Some(wire),
        }),
        (None, None) => None,
        _ => unreachable!(),
    }
}

/// Begins a transaction. What stands between a transaction and its wires stands from the beginning, with the offer's request: of the
/// source's wire the bytes were read that the head was found in, and nothing else went over a wire. No side has a fault.
///
/// The caller asks [`may_begin`] first, while it can still do something else with what it has.
pub fn begin<B: Ledgers, W: Wires>(alloc: Global, beginning: Beginning<B, W>) -> Running<B, W>
    requires may { MayBegin beginning.message beginning.offer (is_some beginning.way.service) }
    requires empty { (beginning.stake.held ≡ 0) × (beginning.stake.pages ≡ 0) }
    requires claim { beginning.stake.claim ≡ claim_of beginning.offer.plan beginning.limits.window }
    requires small { beginning.stake.claim ≤ MAX_CAPACITY }
    ensures begun { result.tx.hold.history ≡ record { plan = beginning.offer.plan; events = [] } }
    ensures pace { result.tx.pace ≡ beginning.pace }
    ensures stands { (read : List ℕ) × ⟦<Tx<B, OwnEnds<W>> as Standing>⟧.stands result.tx (text_of beginning.offer.side) (record no_texts { source_read = record { bytes = read; ended = false } }) }
    ensures since { (first : W.SourceWire) (ahead since beside : List ℕ) → Came W.SourceWire.Wire first ahead since beside beginning.message.side beginning.way.source
        → ⟦<Tx<B, OwnEnds<W>> as Accounting<W>>⟧.since (first_snapshot (text_of beginning.offer.side) ahead beside first beginning.way.next beginning.way.service) result.tx }
    ensures sides { (result.tx.ends.source ≡ beginning.message.side) × (result.tx.ends.maker.user ≡ beginning.message.user) × (result.tx.ends.maker.last ≡ beginning.last) × (result.tx.ends.service ≡ service_end_of beginning.offer.side beginning.way.service) }
    ensures origin { beginning.message.user ≡ None → result.tx.ends.maker.origin ≡ beginning.origin }
    ensures wires { (result.tx.ends.source_wire ≡ beginning.way.source) × (result.tx.ends.next_wire ≡ beginning.way.next) }
    ensures turns { (result.tx.ends.next.turn ≡ beginning.limits.turn) × (result.tx.ends.back.turn ≡ beginning.limits.turn) }
{
    let Beginning {
        offer,
        limits,
        stake,
        message,
        way,
        pace,
        last,
        origin,
    } = beginning;
    let Way {
        source: source_wire,
        service: service_wire,
        next: next_wire,
    } = way;
    let (plan, side) = offer.into_plan();
    let (source, maker) = message.into_sides(last, origin);
    let start = Start {
        plan,
        limits,
        stake,
        ends: Ends {
            source,
            source_wire,
            service: service_end(side, service_wire),
            next: HopWriter::new(alloc).with_turn(limits.turn),
            next_wire,
            back: HopWriter::new(alloc).with_turn(limits.turn),
            maker,
        },
        pace,
    };
    let tx = Tx::new(alloc, start);
    Running { tx }
}
