//! A transaction in play, whatever its sides are and whichever budget it is on.

ghost use Rattle.std.specs.Prelude.{◌≡◌};

use crate::stage::told::{GameReport, Recorded, record_of};
use adapt_sides::Scratch;
use adapt_turn::{EndTypes, Ends, FreedConnection, Outcome, ServiceEnd, Side, TurnAnswer, TxParts};
use proxy_rules::{Beginning, Running, Wires};
use span_bank::{Bank, Ledgers, Pages};
use std::sync::Wait;
use trace_core::Cause;
use wire_kit::Wire;

/// The connections of a service beside the one in use.
#[derive(Drop)]
pub(crate) struct SpareConnections<C> {
    /// One that comes in the place of a broken one.
    pub fresh: Option<C>,
    /// The broken one.
    pub broken: Option<C>,
    /// One that was given up once the service had said all.
    pub freed: Option<C>,
    /// How often a broken one failed the transaction.
    pub failed: usize,
}

impl<C> SpareConnections<C> {
    /// One that comes in the place of a broken one, and no other.
    pub(crate) fn with(fresh: Option<C>) -> SpareConnections<C> {
        SpareConnections {
            fresh,
            broken: None,
            freed: None,
            failed: 0,
        }
    }
}

/// What is left of a transaction that ended.
pub trait GameRemains {
    /// How it ended, and what its wires took.
    fn told(&self) -> GameReport<'_>;
}

/// A transaction in play on its budget.
pub trait Game {
    /// What is left of it once it has ended.
    type Ended: GameRemains + Drop;

    /// A turn of a side at a moment.
    fn take_turn(&mut self, side: Side, now: u64) -> TurnAnswer;

    /// Turns of sides at the moment of the last moved byte.
    fn take_turns(&mut self, order: &[Side]);

    /// The proxy stops.
    fn stop(&mut self);

    /// How it ended, once it has.
    fn ending(&self) -> Option<Outcome>;

    /// Begins anew on a fresh connection if the service's broke before a byte of a reply; without a fresh one it fails.
    fn mend(&mut self);

    /// Gives up the service's connection where the service has said all. Whether it may carry another request; `None` where
    /// it isn't given up.
    fn free(&mut self) -> Option<bool>;

    /// Ends it: one that isn't over fails. Its reservation is closed.
    fn end(self) -> Self::Ended;
}

/// A transaction of the proxy's own sides on a budget, with the service's other connections.
pub struct GameOnBank<'a, B: Ledgers, W: Wires, R> {
    pub(crate) rt: &'a R,
    pub(crate) bank: &'a Bank<B>,
    pub(crate) running: Running<B, W>,
    pub(crate) lines: SpareConnections<W::ServiceWire>,
}

impl<'a, B: Ledgers, A: Wire + Drop + Recorded, C: Wire + Drop + Recorded, R: Wait> Game
    for GameOnBank<'a, B, (A, C, C), R> {
    type Ended = EndedGame<A, C>;

    fn take_turn(&mut self, side: Side, now: u64) -> TurnAnswer {
        take_turn(self.rt, self.bank, &mut self.running, side, now)
    }

    fn take_turns(&mut self, order: &[Side]) {
        self.running
            .drive(self.rt, self.bank, &mut Scratch::zeroed(), order)
    }

    fn stop(&mut self) {
        self.running.halt(self.rt, self.bank)
    }

    fn ending(&self) -> Option<Outcome> {
        self.running.outcome()
    }

    fn mend(&mut self) {
        mend(self.rt, self.bank, &mut self.running, &mut self.lines)
    }

    fn free(&mut self) -> Option<bool> {
        let FreedConnection { wire, is_reusable } = self.running.take_freed()?;
        self.lines.freed = Some(wire);
        Some(is_reusable)
    }

    fn end(self) -> EndedGame<A, C> {
        let GameOnBank {
            rt,
            bank,
            running,
            lines,
        } = self;
        end(rt, bank, running, lines)
    }
}

/// A turn of a side at a moment.
fn take_turn<B: Ledgers, W: Wires, R: Wait>(
    rt: &R,
    bank: &Bank<B>,
    running: &mut Running<B, W>,
    side: Side,
    now: u64,
) -> TurnAnswer {
    running.turn(rt, bank, &mut Scratch::zeroed(), side, now)
}

/// Begins anew on a fresh connection if the service's broke before a byte of a reply; without a fresh one it fails.
fn mend<B: Ledgers, W: Wires, R: Wait>(
    rt: &R,
    bank: &Bank<B>,
    running: &mut Running<B, W>,
    lines: &mut SpareConnections<W::ServiceWire>,
) {
    if running.is_broken() {
        match lines.fresh.take() {
            Some(fresh) => {
                lines.broken = running.take_broken();
                drop(running.retry(rt, bank, fresh));
            }
            None => {
                running.fail_unretried(rt, bank, Cause::Service);
                lines.failed = lines.failed.saturating_add(1);
            }
        }
    }
}

/// How a transaction ended, and its wires.
#[derive(Drop)]
pub struct EndedGame<A, C> {
    outcome: Outcome,
    source: A,
    service: Option<C>,
    next_hop: C,
    lines: SpareConnections<C>,
}

impl<A: Recorded, C: Recorded> GameRemains for EndedGame<A, C> {
    fn told(&self) -> GameReport<'_> {
        GameReport {
            outcome: self.outcome,
            source: self.source.record(),
            service: record_of(&self.service),
            next_hop: self.next_hop.record(),
            broken: record_of(&self.lines.broken),
            freed: record_of(&self.lines.freed),
            failed: self.lines.failed,
        }
    }
}

/// Ends a transaction: one that isn't over fails. Its reservation is closed.
fn end<B: Ledgers, A: Wire + Drop, C: Wire + Drop, R: Wait>(
    rt: &R,
    bank: &Bank<B>,
    running: Running<B, (A, C, C)>,
    lines: SpareConnections<C>,
) -> EndedGame<A, C> {
    let mut running = running;
    running.halt(rt, bank);
    let parts = running.into_tx().into_parts();
    let (outcome, source, service, next_hop) = take_apart(rt, bank, parts);
    EndedGame {
        outcome,
        source,
        service,
        next_hop,
        lines,
    }
}

/// Closes the reservation of a transaction that ended. How it ended, and its wires.
fn take_apart<B: Ledgers, E: EndTypes, R: Wait>(
    rt: &R,
    bank: &Bank<B>,
    parts: TxParts<B, E>,
) -> (Outcome, E::SourceWire, Option<E::ServiceWire>, E::NextWire)
where
    E::Reader: Drop,
    E::Client: Drop,
    E::Writer: Drop,
    E::Maker: Drop,
    requires { (parts.stake.held ≡ 0) × (parts.stake.pages ≡ 0) }
{
    let TxParts {
        stake,
        ends,
        outcome,
        seen: _,
    } = parts;
    bank.close(rt, stake, Pages::none());
    let Ends {
        source: _,
        source_wire,
        service,
        next: _,
        next_wire,
        back: _,
        maker: _,
    } = ends;
    let service_wire = match service {
        Some(ServiceEnd { side: _, wire }) => wire,
        None => None,
    };
    (outcome, source_wire, service_wire, next_wire)
}

/// Takes apart what no transaction began with.
pub(crate) fn undo<B: Ledgers, W: Wires, R: Wait>(
    rt: &R,
    bank: &Bank<B>,
    beginning: Beginning<B, W>,
)
    requires { (beginning.stake.held ≡ 0) × (beginning.stake.pages ≡ 0) }
{
    let (stake, way) = beginning.into_remains();
    drop(way);
    bank.close(rt, stake, Pages::none());
}
