//! Transactions taken apart.

ghost use Rattle.std.specs.Prelude.{◌≡◌, true, None};
ghost use Rattle.adapt_hold.specs.Holding.{shows};
ghost use Rattle.adapt_turn.specs.ChosenHead.{wire_of};
ghost use Rattle.shard_message.specs.Ended.{ended_as};

use crate::room::{MessageRoom, room_of};
use adapt_turn::{EndTypes, Ends, ServiceEnd, Tx, TxParts};
use plan_rules::Limits;
use proxy_rules::{OwnEnds, Running, Way, Wires};
use span_bank::{Bank, Ledgers, Stake};
use std::boxed::Box;
use std::sync::Wait;

/// The transaction that lies in a box, to be taken apart. Where it isn't closed yet it fails, while it lies there.
#[inline(always)]
pub(crate) fn tx_of<B: Ledgers, W: Wires, R: Wait>(
    rt: &R,
    bank: &Bank<B>,
    running: Box<Running<B, W>>,
) -> Tx<B, OwnEnds<W>>
    ensures closed { (shows result.hold.history).closed ≡ true }
    ensures service { result.ends.service ≡ running.value.tx.ends.service }
    ensures ends { (shows running.value.tx.hold.history).closed ≡ true → result.ends ≡ running.value.tx.ends }
    ensures outcome { result.outcome ≡ ended_as (shows running.value.tx.hold.history).closed running.value.tx.outcome }
    ensures plan { result.hold.history.plan ≡ running.value.tx.hold.history.plan }
    ensures kept { (result.ends.source ≡ running.value.tx.ends.source) × (result.ends.source_wire ≡ running.value.tx.ends.source_wire) × (result.ends.next_wire ≡ running.value.tx.ends.next_wire) × (result.ends.maker ≡ running.value.tx.ends.maker) }
{
    let mut running = running;
    running.halt(rt, bank);
    Box::into_inner(running).into_tx()
}

/// The connection of a service's side that has ended. None where it was given up before.
#[inline(always)]
pub(crate) fn wire_of<V: Drop, W>(service: Option<ServiceEnd<V, W>>) -> Option<W>
    ensures { result ≡ wire_of service }
{
    match service {
        Some(line) => {
            let ServiceEnd { side: _, wire } = line;
            wire
        }
        None => None,
    }
}

/// What a transaction stood over, which fails where it isn't closed yet.
pub(crate) fn left_of<
    B: Ledgers,
    W: Wires,
    E: EndTypes<SourceWire = W::SourceWire, ServiceWire = W::ServiceWire, NextWire = W::NextWire>,
    R: Wait,
>(rt: &R, bank: &Bank<B>, tx: Tx<B, E>, limits: Limits) -> (MessageRoom<B>, Way<W>)
where
    E::Reader: Drop,
    E::Client: Drop,
    E::Writer: Drop,
    ensures room { (result.0.planned ≡ None) × (result.0.limits ≡ limits) }
    ensures wires { (result.1.source ≡ tx.ends.source_wire) × (result.1.service ≡ wire_of tx.ends.service) × (result.1.next ≡ tx.ends.next_wire) }
{
    let mut tx = tx;
    tx.halt(rt, bank);
    let TxParts {
        stake,
        ends,
        outcome: _,
        seen: _,
    } = tx.into_parts();
    let Ends {
        source: _,
        source_wire,
        service,
        next: _,
        next_wire,
        back: _,
        maker: _,
    } = ends;
    let way = Way {
        source: source_wire,
        service: wire_of(service),
        next: next_wire,
    };
    (room_of(stake, limits), way)
}

/// The reservation of a transaction that is closed. Its connections are closed.
#[inline(always)]
pub(crate) fn stake_of<B: Ledgers, E: EndTypes>(tx: Tx<B, E>) -> Stake<B>
where
    E::Reader: Drop,
    E::Client: Drop,
    E::Writer: Drop,
    E::SourceWire: Drop,
    E::ServiceWire: Drop,
    E::NextWire: Drop,
    requires { (shows tx.hold.history).closed ≡ true }
    ensures { (result.held ≡ 0) × (result.pages ≡ 0) }
{
    let TxParts {
        stake,
        ends,
        outcome: _,
        seen: _,
    } = tx.into_parts();
    let Ends {
        source: _,
        source_wire: _,
        service,
        next: _,
        next_wire: _,
        back: _,
        maker: _,
    } = ends;
    drop(wire_of(service));
    stake
}
