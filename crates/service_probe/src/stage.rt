//! The transaction of a message that a service is tried with: the proxy's own sides, over a connection to the service and two ends in
//! memory.

ghost use Rattle.std.specs.Prelude.{◌≡◌, ◌≤◌, IfSome};
ghost use Rattle.span_bank.specs.declared.limits.TheConstants.{MAX_CAPACITY};
ghost use Rattle.plan_rules.specs.Claims.{claim_of};

use crate::finding::ProbeOutcome;
use crate::tap::Tap;
use crate::verdict::{HeardService, judge};
use adapt_sides::Scratch;
use adapt_turn::{EndTypes, Ends, Outcome, ServiceEnd, Side, TurnAnswer, Tx, TxParts};
use http_side::{OriginUse, OriginWay};
use plan_rules::{Limits, Pace, claim};
use proxy_rules::{Beginning, Incoming, Offer, Running, Way, Wires, begin, may_begin};
use span_bank::{Bank, Ledgers, Pages, Stake};
use std::alloc::{AllocError, Global};
use std::boxed::Box;
use std::sync::Wait;
use trace_core::{Plan, Seen};
use wire_kit::Wire;

/// What is left of a transaction.
#[derive(Drop)]
pub struct TransactionRemains<W> {
    /// What came of its message.
    pub came: ProbeOutcome,
    /// Whether the connection to the service may carry another request.
    pub is_reusable: bool,
    /// That connection.
    pub tap: Tap<W>,
}

/// A transaction that was begun. The loops that run it to its end are functions of any such: they see no side of it, no wire and no
/// budget.
pub trait ProbeCourse {
    /// Takes a turn of a side, at a moment in seconds. Whether it didn't just wait.
    fn turn(&mut self, side: Side, now: u64) -> bool;

    /// Whether it is over, or the service's connection broke before a byte of a reply.
    fn is_over(&self) -> bool;
}

/// A transaction of the proxy's own sides, and what its turns need.
pub struct BankedCourse<'a, B: Ledgers, W: Wires, R> {
    pub rt: &'a R,
    pub bank: &'a Bank<B>,
    pub scratch: &'a mut Scratch,
    pub running: Box<Running<B, W>>,
}

/// How a transaction ended, and the service's side with its connection.
#[derive(Drop)]
struct EndedTransaction<V, W> {
    outcome: Outcome,
    seen: Seen,
    service: Option<(V, W)>,
}

/// A reservation for a transaction of this plan. `None` where the budget has none.
fn reserve<B: Ledgers>(
    rt: &impl Wait,
    bank: &Bank<B>,
    plan: &Plan,
    limits: &Limits,
) -> Option<Stake<B>>
    ensures empty { IfSome result (λ stake. (stake.held ≡ 0) × (stake.pages ≡ 0)) }
    ensures claim { IfSome result (λ stake. stake.claim ≡ claim_of plan.now limits.now.window) }
    ensures small { IfSome result (λ stake. stake.claim ≤ MAX_CAPACITY) }
{
    let bytes = claim(plan, limits);
    if bytes == 0 {
        return None;
    }
    match bank.open(rt, bytes) {
        Ok(stake) => Some(stake),
        Err(_) => None,
    }
}

/// Begins the transaction of a message. `None` where it can't begin; the connection is lost then.
pub fn set_out<B: Ledgers, W: Wires>(
    rt: &impl Wait,
    alloc: Global,
    bank: &Bank<B>,
    offer: Box<Offer>,
    message: Box<Incoming>,
    way: Way<W>,
    limits: Limits,
    pace: Pace,
) -> Option<Box<Running<B, W>>> {
    let is_connected = way.service.is_some();
    if !may_begin(&message, &offer, is_connected) {
        return None;
    }
    let stake = reserve(rt, bank, offer.plan(), &limits)?;
    let beginning = Beginning {
        offer: Box::into_inner(offer),
        limits,
        stake,
        message: Box::into_inner(message),
        way,
        pace,
        last: false,
        origin: OriginWay::straight(OriginUse::Once),
    };
    let running = begin(alloc, beginning);
    boxed(rt, alloc, bank, running)
}

/// A transaction on the heap. One for which there is no memory ends.
fn boxed<B: Ledgers, W: Wires>(
    rt: &impl Wait,
    alloc: Global,
    bank: &Bank<B>,
    running: Running<B, W>,
) -> Option<Box<Running<B, W>>> {
    match Box::new(alloc, running) {
        Ok(running) => Some(running),
        Err(failed) => {
            drop(close(rt, bank, failed.value.into_tx()));
            None
        }
    }
}

/// Takes turns of all sides up to the first round in which nothing moves. Whether the transaction is over.
pub fn move_on<T: ProbeCourse>(course: &mut T, now: u64) -> bool {
    for _ in 0..u64::MAX {
        let mut moved = false;
        for side in [Side::Source, Side::Service, Side::NextHop] {
            if course.turn(side, now) {
                moved = true;
            }
            if course.is_over() {
                return true;
            }
        }
        if !moved {
            return false;
        }
    }
    false
}

/// Closes the reservation of a transaction, which fails where it isn't over.
fn close<B: Ledgers, E: EndTypes>(
    rt: &impl Wait,
    bank: &Bank<B>,
    tx: Tx<B, E>,
) -> EndedTransaction<E::Client, E::ServiceWire>
where
    E::Reader: Drop,
    E::Client: Drop,
    E::Writer: Drop,
    E::Maker: Drop,
    E::SourceWire: Drop,
    E::ServiceWire: Drop,
    E::NextWire: Drop,
{
    let mut tx = tx;
    tx.halt(rt, bank);
    let TxParts {
        stake,
        ends,
        outcome,
        seen,
    } = tx.into_parts();
    bank.close(rt, stake, Pages::none());
    let Ends {
        source: _,
        source_wire: _,
        service,
        next: _,
        next_wire: _,
        back: _,
        maker: _,
    } = ends;
    EndedTransaction {
        outcome,
        seen,
        service: line_of(service),
    }
}

/// The service's side and its connection, where there are both.
fn line_of<V: Drop, W: Drop>(service: Option<ServiceEnd<V, W>>) -> Option<(V, W)> {
    let ServiceEnd { side, wire } = service?;
    Some((side, wire?))
}

/// Judges what came of a message. `None` where its connection was given up.
fn judged<V: HeardService + Drop, W: Drop>(
    alloc: Global,
    ended: EndedTransaction<V, Tap<W>>,
) -> Result<Option<TransactionRemains<W>>, AllocError> {
    let EndedTransaction {
        outcome,
        seen,
        service,
    } = ended;
    let Some((side, tap)) = service else {
        return Ok(None);
    };
    let came = judge(alloc, outcome, &seen, &side, &tap)?;
    Ok(Some(TransactionRemains {
        came,
        is_reusable: side.is_reusable(),
        tap,
    }))
}

impl<'a, B: Ledgers, W: Wires, R: Wait> ProbeCourse for BankedCourse<'a, B, W, R> {
    fn turn(&mut self, side: Side, now: u64) -> bool {
        self.running
            .turn(self.rt, self.bank, self.scratch, side, now)
            != TurnAnswer::Waiting
    }

    fn is_over(&self) -> bool {
        self.running.outcome().is_some() || self.running.is_broken()
    }
}

/// Ends a transaction, which fails where it isn't over, and judges what came of its message. `None` where its connection was given up.
pub fn end<B: Ledgers, R: Wait, W: Wires<ServiceWire = Tap<C>>, C: Wire + Drop>(
    alloc: Global,
    course: BankedCourse<'_, B, W, R>,
) -> Result<Option<TransactionRemains<C>>, AllocError> {
    let BankedCourse {
        rt,
        bank,
        scratch: _,
        running,
    } = course;
    judged(alloc, close(rt, bank, Box::into_inner(running).into_tx()))
}
