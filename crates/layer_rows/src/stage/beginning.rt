//! Begins a transaction.

ghost use Rattle.std.specs.Prelude.{◌≡◌, ◌≤◌, IfSome};
ghost use Rattle.span_bank.specs.declared.limits.TheConstants.{MAX_CAPACITY};
ghost use Rattle.plan_rules.specs.Claims.{claim_of};

use crate::stage::game::{GameOnBank, SpareConnections, undo};
use crate::stage::sides::{GameWires, Sides, Subject, make_sides};
use crate::stage::told::CountedMemoryWire;
use adapt_sides::Scratch;
use adapt_turn::Side;
use http_side::{OriginUse, OriginWay};
use plan_rules::{LEAST_TURN, Limits, Pace, claim};
use proxy_rules::{Beginning, Incoming, Offer, Running, Way, laws};
use span_bank::{Bank, Ledgers, Stake};
use std::alloc::{AllocError, Global};
use std::mem;
use std::sync::Wait;
use trace_core::Plan;
use wire_kit::Wire;

/// The seconds that may pass without a moved byte.
const DEADLINE: u64 = 60;

/// The moment at which a transaction begins, in seconds.
pub const BEGIN: u64 = 100;

/// What is configured: the service's connection was used before if the plan allows a retry.
fn limits_of(plan: &Plan) -> Limits {
    Limits {
        preview_limit: 1024,
        allow_limit: 0,
        window: 8192,
        turn: LEAST_TURN,
        retry: plan.retry,
    }
}

/// What is configured, and a reservation for it.
struct Reserved<B: Ledgers> {
    limits: Limits,
    stake: Stake<B>,
}

/// A reservation for a transaction of this plan. `None` where it can't begin.
fn reserve<B: Ledgers, R: Wait>(rt: &R, bank: &Bank<B>, plan: Plan) -> Option<Reserved<B>>
    ensures empty { IfSome result (λ r. (r.stake.held ≡ 0) × (r.stake.pages ≡ 0)) }
    ensures claim { IfSome result (λ r. r.stake.claim ≡ claim_of plan r.limits.window) }
    ensures small { IfSome result (λ r. r.stake.claim ≤ MAX_CAPACITY) }
{
    let limits = limits_of(&plan);
    let bytes = claim(&plan, &limits);
    if bytes == 0 {
        return None;
    }
    match bank.open(rt, bytes) {
        Ok(stake) => Some(Reserved { limits, stake }),
        Err(_) => None,
    }
}

/// A reservation for a transaction of this plan, and what else it begins with. `None` where it can't begin.
fn reserve_for<B: Ledgers, T: Drop, R: Wait>(
    rt: &R,
    bank: &Bank<B>,
    plan: Plan,
    rest: T,
) -> Option<(Reserved<B>, T)>
    ensures empty { IfSome result (λ r. (r.0.stake.held ≡ 0) × (r.0.stake.pages ≡ 0)) }
    ensures claim { IfSome result (λ r. r.0.stake.claim ≡ claim_of plan r.0.limits.window) }
    ensures small { IfSome result (λ r. r.0.stake.claim ≤ MAX_CAPACITY) }
    ensures rest { IfSome result (λ r. r.1 ≡ rest) }
{
    match reserve(rt, bank, plan) {
        Some(reserved) => Some((reserved, rest)),
        None => None,
    }
}

/// Begins a transaction over these wires, on a reservation of its own, and takes these turns, each of a side at a moment. `None` where it
/// can't begin. An error if no memory is found for its sides.
pub fn begin<'a, B: Ledgers, A: Wire + Drop, C: Wire + Drop, R: Wait>(
    rt: &'a R,
    alloc: Global,
    bank: &'a Bank<B>,
    subject: &Subject<'_>,
    wires: GameWires<A, C>,
    first: &[(Side, u64)],
) -> Result<Option<GameOnBank<'a, B, (A, C, C), R>>, AllocError> {
    let mut wires = wires;
    match make_sides(alloc, subject, &mut wires.source)? {
        Some(sides) => Ok(begin_reserved(rt, alloc, bank, sides, wires, first)),
        None => Ok(None),
    }
}

/// Begins a transaction of these sides on a reservation of its own, and takes these turns. `None` where it can't begin.
fn begin_reserved<'a, B: Ledgers, A: Wire + Drop, C: Wire + Drop, R: Wait>(
    rt: &'a R,
    alloc: Global,
    bank: &'a Bank<B>,
    sides: Sides<Offer, Incoming>,
    wires: GameWires<A, C>,
    first: &[(Side, u64)],
) -> Option<GameOnBank<'a, B, (A, C, C), R>> {
    let plan = *sides.offer.plan();
    match reserve_for(rt, bank, plan, (sides, wires)) {
        Some((Reserved { limits, stake }, (sides, wires))) => {
            start(rt, alloc, bank, limits, stake, sides, wires, first)
        }
        None => None,
    }
}

/// Begins a transaction of these sides on this reservation, and takes these turns.
fn start<'a, B: Ledgers, A: Wire + Drop, C: Wire + Drop, R: Wait>(
    rt: &'a R,
    alloc: Global,
    bank: &'a Bank<B>,
    limits: Limits,
    stake: Stake<B>,
    sides: Sides<Offer, Incoming>,
    wires: GameWires<A, C>,
    first: &[(Side, u64)],
) -> Option<GameOnBank<'a, B, (A, C, C), R>>
    requires empty { (stake.held ≡ 0) × (stake.pages ≡ 0) }
    requires claim { stake.claim ≡ claim_of sides.offer.plan limits.window }
    requires small { stake.claim ≤ MAX_CAPACITY }
{
    let Sides { message, offer } = sides;
    let GameWires {
        source: source_wire,
        service,
        fresh,
        next_hop: next_wire,
    } = wires;
    let service_wire = if offer.is_offered() {
        Some(service)
    } else {
        None
    };
    let beginning = Beginning {
        offer,
        limits,
        stake,
        message,
        way: Way {
            source: source_wire,
            service: service_wire,
            next: next_wire,
        },
        pace: Pace::new(DEADLINE, BEGIN, limits.retry),
        last: false,
        origin: OriginWay::straight(OriginUse::Once),
    };
    let begun = laws::from_the_beginning_the_wires_take_one_message(
        rt,
        alloc,
        bank,
        beginning,
        &mut Scratch::zeroed(),
        first,
    );
    match begun {
        Ok(running) => Some(GameOnBank {
            rt,
            bank,
            running,
            lines: SpareConnections::with(fresh),
        }),
        Err(beginning) => {
            undo(rt, bank, beginning);
            None
        }
    }
}

/// How large a transaction over wires in memory is, in bytes, on a budget as this one.
pub fn game_size<B: Ledgers>(_bank: &Bank<B>) -> usize {
    mem::size_of::<Running<B, (CountedMemoryWire, CountedMemoryWire, CountedMemoryWire)>>()
}
