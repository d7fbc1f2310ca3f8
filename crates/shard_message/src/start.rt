//! The start of a message's transaction.

ghost use Rattle.std.specs.Prelude.{◌≡◌, ◌||◌, ℕ, List, None, IfSome, IfOk, IfErr};
ghost use Rattle.proxy_rules.specs.Arrivals.{Came};
ghost use Rattle.proxy_rules.specs.Offers.{text_of};
ghost use Rattle.proxy_rules.specs.Since.{first_snapshot};
ghost use Rattle.shard_message.specs.Begun.{BeginsWith, IsMannerOf, IsPaceOf, IsUse, IsUseOf, beginning, next_by, way_by};

use crate::outside::Outside;
use crate::planning::Planned;
use crate::room::{MessageRoom, room_of};
use crate::taken::left_of;
use adapt_turn::Tx;
use exchange_core::CourseState;
use http_side::{NextServer, OriginUse, OriginWay};
use plan_rules::Pace;
use proxy_rules::{
    Accounting, Beginning, Incoming, OwnEnds, Route, Running, Way, Wires, begin, may_begin,
};
use span_bank::{Bank, Ledgers};
use std::alloc::{AllocFailed, Global};
use std::boxed::Box;
use std::sync::Wait;
use wire_kit::Wire;

/// The pace of a transaction that begins in this state of its course. Its deadline is a second later than the configured one, since moments are whole
/// seconds: so it never comes early.
fn pace_of<P, O: Outside<P>>(at: &P, out: &O, state: CourseState) -> Pace
    ensures { IsPaceOf (O.now_is out.now at.now) (O.config_is out.now) state result }
{
    let deadline = out.config().deadline.saturating_add(1);
    Pace::new(deadline, out.now(at), state.connection.is_reused())
}

/// The use of an origin's connection: it was kept; or it is closed after its answer, where none is kept or users are let go; or
/// else it may carry further requests.
fn use_of(kept: bool, keeps_none: bool, draining: bool) -> OriginUse
    ensures { IsUse kept (keeps_none || draining) result }
{
    if kept {
        OriginUse::Kept
    } else if keeps_none {
        OriginUse::Once
    } else if draining {
        OriginUse::Once
    } else {
        OriginUse::Fresh
    }
}

/// The use of the origin's connection that a request goes out on in this state of its course. Where none is kept, or the proxy
/// lets its users go, a fresh one is closed after its answer.
fn origin_use<P, O: Outside<P>>(out: &O, state: CourseState) -> OriginUse
    ensures { IsUseOf (O.config_is out.now) state result }
{
    let keeps_none = out.config().keep_origins == 0;
    use_of(state.kept, keeps_none, state.draining)
}

/// How a transaction moves.
#[derive(Clone, Copy)]
pub struct Manner {
    pub pace: Pace,
    /// Whether an answer is the last one of its user's connection, whatever else is said.
    pub last: bool,
    /// The use of the connection that a request goes out on. Nothing of a response rests on it.
    pub origin: OriginUse,
}

/// How a transaction moves that begins in this state of its course.
pub fn manner_of<P, O: Outside<P>>(at: &P, out: &O, state: CourseState) -> Manner
    ensures { IsMannerOf (O.now_is out.now at.now) (O.config_is out.now) state result }
{
    Manner {
        pace: pace_of(at, out, state),
        last: state.draining,
        origin: origin_use(out, state),
    }
}

/// The server that a request goes to by this route.
fn next_by(route: Option<Route>) -> NextServer
    ensures { result ≡ next_by route }
{
    match route {
        Some(route) => route.next,
        None => NextServer::Origin,
    }
}

/// How a request goes to its origin by this route, on a connection of this use.
fn way_by(route: Option<Route>, connection: OriginUse) -> OriginWay
    ensures { result ≡ way_by route connection }
{
    OriginWay {
        next: next_by(route),
        connection,
    }
}

/// Has the transaction of a message begin, on the heap. An answer may be the last one of its user's connection. Where it can't begin, or
/// no memory is found for it, what it would have stood over comes back.
pub(crate) fn set_out<B: Ledgers, W: Wires, R: Wait>(
    rt: &R,
    bank: &Bank<B>,
    alloc: Global,
    message: Box<Incoming>,
    room: MessageRoom<B>,
    way: Way<W>,
    manner: Manner,
) -> Result<Box<Running<B, W>>, (MessageRoom<B>, Way<W>)>
    ensures begins { IfOk result (λ tx. BeginsWith (beginning room.planned message.value manner) way.source way.service way.next tx.value.tx.hold.history tx.value.tx.pace tx.value.tx.ends) }
    ensures since { IfOk result (λ tx. (first : W.SourceWire) (ahead since beside : List ℕ) → Came W.SourceWire.Wire first ahead since beside message.value.side way.source
        → IfSome room.planned (λ planned. ⟦<Tx<B, OwnEnds<W>> as Accounting<W>>⟧.since (first_snapshot (text_of planned.value.offer.side) ahead beside first way.next way.service) tx.value.tx)) }
    ensures back { IfErr result (λ back. (back.0.planned ≡ None) × (back.0.limits ≡ room.limits) × (back.1 ≡ way)) }
{
    let MessageRoom {
        stake,
        planned,
        limits,
    } = room;
    let Some(planned) = planned else {
        return Err((room_of(stake, limits), way));
    };
    let is_connected = way.service.is_some();
    if !may_begin(&message, &planned.offer, is_connected) {
        return Err((room_of(stake, limits), way));
    }
    let Planned { offer, route } = Box::into_inner(planned);
    let beginning = Beginning {
        offer,
        limits,
        stake,
        message: Box::into_inner(message),
        way,
        pace: manner.pace,
        last: manner.last,
        origin: way_by(route, manner.origin),
    };
    let running = begin(alloc, beginning);
    match Box::new(alloc, running) {
        Ok(running) => Ok(running),
        Err(AllocFailed { value }) => Err(left_of(rt, bank, value.into_tx(), limits)),
    }
}
