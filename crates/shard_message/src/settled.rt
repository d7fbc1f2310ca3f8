//! Transactions taken apart: what they stood over, and what comes of their messages.

ghost use Rattle.std.specs.Prelude.{◌≡◌, ◌&&◌, ⊤, Bool as AnyBool, None, false, true, map, string_bytes};
ghost use Rattle.proxy_config.specs.declared.config.Config.{Config as AnyConfig};
ghost use Rattle.exchange_core.specs.declared.event.Event.TheVariants.{Withdrawn};
ghost use Rattle.exchange_core.specs.May.{may_come};
ghost use Rattle.shard_exchange.specs.EndedBy.{EndsBy, IfItself, is_good, served_as};
ghost use Rattle.adapt_hold.specs.Holding.{shows};
ghost use Rattle.adapt_sides.specs.Turns.Gift.{nothing};
ghost use Rattle.adapt_turn.specs.ChosenHead.{wire_of};
ghost use Rattle.shard_message.specs.Ended.{EndsAs, HasGiven, HasGivenSince, IfAsked, IfOther, IsBarred, IsEndOf, IsNextBy, IsWithdrawable, fails, is_by_itself, is_cut, message_in, old_where_asked};
ghost use Rattle.shard_message.specs.Told.{carried_by, reusable_by};

use crate::carried::carried_by;
use crate::connections::{Connections, Remains};
use crate::ended::{Sequel, message_of, outcome_by, report_of};
use crate::outside::{Kinds, MessageEnd, Outside};
use crate::room::room_of;
use crate::sequels::{after_request, after_response};
use crate::sides::{Answers, Asked, MadeHead, Served};
use crate::taken::wire_of;
use adapt_sides::ClientFault;
use adapt_turn::{EndTypes, Ends, Outcome, ServiceEnd, Tx, TxParts};
use exchange_core::{Course, Event};
use icap_client::Found;
use plan_rules::Limits;
use shard_exchange::{CourseReport, End, EndedBy, Reason};
use span_bank::Stake;
use std::boxed::Box;
use trace_core::Seen;
use wire_kit::Wire;

/// What is left of a message whose transaction is over.
#[must_use]
pub struct Settled<O: Kinds, M> {
    pub remains: Remains<O>,
    /// The message that comes next: the response to the request, the user's next request, or the request again that was withdrawn.
    pub message: Option<Box<M>>,
    pub report: CourseReport,
}

/// Whether nothing went over a connection.
fn is_fresh<W: Wire>(wire: &W) -> bool {
    wire.counts() == (0, 0)
}

/// Whether a request may be withdrawn from its origin's connection: nothing else ended its transaction, no byte of an answer went to the
/// user, the course lets it, and the connection has given no more than it had given before.
fn may_withdraw<W: Wire>(
    by: EndedBy,
    has_answered: bool,
    origin: &W,
    before: u64,
    course: &Course,
) -> bool
    ensures may { result ≡ true → IsWithdrawable by has_answered (HasGiven W.past origin.now before) (may_come course.now Withdrawn) }
    ensures bars { result ≡ false → is_by_itself by ≡ true → IsBarred has_answered (HasGivenSince W.past origin.now before) (may_come course.now Withdrawn) }
{
    matches!(by, EndedBy::Itself | EndedBy::Gate)
        && !has_answered
        && course.may(Event::Withdrawn)
        && origin.counts().0 == before
}

/// What is said of a message whose transaction is over.
#[derive(Clone, Copy)]
struct Account {
    seen: Seen,
    outcome: Option<Outcome>,
    has_answered: bool,
    next_is_fresh: bool,
}

/// Why a service's side failed.
fn fault_of<V: Served, W>(service: &Option<ServiceEnd<V, W>>) -> Option<ClientFault> {
    match service {
        Some(line) => line.side.fault(),
        None => None,
    }
}

/// Whether the connection of a service's side may carry another request.
fn is_reusable<V: Served, W>(service: &Option<ServiceEnd<V, W>>) -> bool
    ensures { result ≡ reusable_by V.reusable service.now }
{
    match service {
        Some(line) => line.side.is_reusable(),
        None => false,
    }
}

/// Whether nothing went over the connection of a service's side, where it was still held.
fn is_service_fresh<V: Served, W: Wire>(service: &Option<ServiceEnd<V, W>>) -> bool {
    match service {
        Some(line) => match &line.wire {
            Some(wire) => is_fresh(wire),
            None => false,
        },
        None => false,
    }
}

/// The head of the adapted message, where one was read.
fn adapted_head<V: Served, W>(service: &Option<ServiceEnd<V, W>>) -> Option<&[u8]> {
    match service {
        Some(line) => line.side.adapted_head(),
        None => None,
    }
}

/// What a service said that it found in the message, where there was one.
fn found_by<V: Served, W>(service: &Option<ServiceEnd<V, W>>) -> Option<Found<'_>> {
    match service {
        Some(line) => Some(line.side.found()),
        None => None,
    }
}

/// Has the surroundings take note of what became of a message, and of the tag of its service's answer.
fn give_account<P, O: Outside<P>, V: Served>(
    at: &P,
    out: &mut O,
    user: &O::User,
    service: &Option<ServiceEnd<V, O::Service>>,
    account: Account,
) {
    let point = account.seen.plan.point;
    let adapted_head = adapted_head(service);
    let end = MessageEnd {
        seen: account.seen,
        outcome: account.outcome,
        service_fault: fault_of(service),
        service_is_fresh: is_service_fresh(service),
        next_is_fresh: account.next_is_fresh,
        found: found_by(service),
        adapted_head,
        has_answered: account.has_answered,
    };
    out.note_end(at, user, end);
    if let Some(line) = service
        && let Some(tag) = line.side.tag()
    {
        out.note_tag(point, tag);
    }
}

/// Cuts off a user that is to see that what it got isn't whole, and has the surroundings take note of a refusal for want of
/// memory.
fn warn<P, O: Outside<P>>(at: &P, out: &mut O, user: &O::User, report: CourseReport) {
    if report.cuts {
        O::cut(user);
    }
    if report.end == (End::Sent { has_memory: false }) {
        out.note_refusal(at, user, None, Reason::NoMemory);
    }
}

/// Gives account of a message, and says what its course is told. Of one that is begun anew account is given at its end.
fn report_on<P, O: Outside<P>, V: Served, M>(
    at: &P,
    out: &mut O,
    user: &O::User,
    service: &Option<ServiceEnd<V, O::Service>>,
    account: Account,
    sequel: &Sequel<M>,
    by: EndedBy,
) -> CourseReport
    ensures ends { EndsBy by result.end }
    ensures itself { IfItself by (IsEndOf account.seen.plan.point sequel.now result.end) }
    ensures answered { result.has_answered ≡ account.has_answered }
    ensures cuts { result.cuts ≡ account.has_answered && is_cut sequel.now }
    ensures whole { is_good result.end ≡ true → result.cuts ≡ false }
    ensures served { result.served ≡ served_as (reusable_by V.reusable service.now) result.end }
{
    if !sequel.is_again() {
        give_account(at, out, user, service, account);
    }
    let point = account.seen.plan.point;
    let report = report_of(
        by,
        point,
        account.has_answered,
        is_reusable(service),
        sequel,
    );
    warn(at, out, user, report);
    report
}

/// What is left of a message whose transaction stood over these.
#[inline(always)]
fn settled_of<O: Kinds, M: Drop>(
    stake: Stake<O::Ledgers>,
    limits: Limits,
    connections: Connections<O>,
    sequel: Sequel<M>,
    by: EndedBy,
    report: CourseReport,
) -> Settled<O, M>
    requires { (stake.held ≡ 0) × (stake.pages ≡ 0) }
    ensures report { result.report ≡ report }
    ensures message { IfItself by (result.message ≡ message_in sequel) }
    ensures none { IfOther by (result.message ≡ None) }
    ensures connections { result.remains.connections ≡ connections }
{
    let room = room_of(stake, limits);
    Settled {
        remains: Remains { room, connections },
        message: message_of(by, sequel),
        report,
    }
}

/// Takes a request's transaction apart, which is closed: the response comes next where the origin has the whole request. A byte of an answer
/// had gone to the user or not, and the origin's connection had given and taken so many bytes before, when it was dialed.
#[inline(always)]
pub(crate) fn settle_request<
    P,
    O: Outside<P>,
    E: EndTypes<SourceWire = O::User, ServiceWire = O::Service, NextWire = O::Origin>,
>(
    at: &P,
    out: &mut O,
    tx: Tx<O::Ledgers, E>,
    has_answered: bool,
    by: EndedBy,
    before: (u64, u64),
    course: &Course,
) -> Settled<O, <E::Reader as Asked>::Message>
where
    E::Reader: Asked,
    E::Client: Served,
    E::Writer: Drop,
    E::Maker: MadeHead<E::Reader>,
    requires closed { (shows tx.hold.history).closed ≡ true }
    ensures ends { EndsBy by result.report.end }
    ensures answered { result.report.has_answered ≡ has_answered }
    ensures told { IfItself by (EndsAs tx.hold.history.plan.point tx.outcome (E.Writer.gift tx.ends.back ≡ nothing)
        (E.Reader.carries_on Outcome.Done (E.Maker.closes tx.ends.maker) tx.ends.source) ⊥
        (IsBarred result.report.has_answered (HasGivenSince O.Origin.past tx.ends.next_wire before.0) (may_come course.now Withdrawn)) result.report.end) }
    ensures withdrawn { (has_memory : AnyBool) → result.report.end ≡ End.Withdrawn has_memory → IsWithdrawable by result.report.has_answered (HasGiven O.Origin.past tx.ends.next_wire before.0) (may_come course.now Withdrawn) }
    ensures cuts { result.report.has_answered ≡ false → result.report.cuts ≡ false }
    ensures cut { result.report.cuts ≡ result.report.has_answered && (fails tx.outcome && E.Reader.is_old tx.ends.source) }
    ensures whole { is_good result.report.end ≡ true → result.report.cuts ≡ false }
    ensures served { result.report.served ≡ served_as (reusable_by E.Client.reusable tx.ends.service) result.report.end }
    ensures next { IsNextBy (E.Reader.is_response tx.ends.source) (E.Reader.is_next tx.ends.source) (E.Reader.is_again tx.ends.source) result.report.end result.message }
    ensures carries { (config : AnyConfig) × O.config_is out.old config × IsNextBy (λ response.
        E.Reader.told response ≡ carried_by E.Client.fields (map string_bytes config.carry.items) tx.ends.service) (λ _. ⊤) (λ _. ⊤) result.report.end result.message }
    ensures wires { result.remains.connections ≡ record { user = tx.ends.source_wire; service = wire_of tx.ends.service; origin = tx.ends.next_wire } }
{
    let TxParts {
        stake,
        ends,
        outcome,
        seen,
    } = tx.into_parts();
    let Ends {
        source,
        source_wire: user,
        service,
        next: _,
        next_wire: origin,
        back,
        maker,
    } = ends;
    let account = Account {
        seen,
        outcome: outcome_by(by, outcome),
        has_answered,
        next_is_fresh: origin.counts() == before,
    };
    let may_withdraw = may_withdraw(by, has_answered, &origin, before.0, course);
    let closes = maker.closes();
    let carried = carried_by(out.alloc(), &out.config().carry, &service);
    let sequel = after_request(
        out.alloc(),
        source,
        carried,
        &back,
        outcome,
        closes,
        may_withdraw,
    );
    let report = report_on(at, out, &user, &service, account, &sequel, by);
    let connections = Connections {
        user,
        service: wire_of(service),
        origin,
    };
    settled_of(stake, out.limits(), connections, sequel, by, report)
}

/// Takes a response's transaction apart, which is closed: the user's next request comes next, where its connection carries one. A byte of
/// the answer had gone to the user or not.
#[inline(always)]
pub(crate) fn settle_response<
    P,
    O: Outside<P>,
    E: EndTypes<SourceWire = O::Origin, ServiceWire = O::Service, NextWire = O::User>,
>(
    at: &P,
    out: &mut O,
    tx: Tx<O::Ledgers, E>,
    has_answered: bool,
    by: EndedBy,
) -> Settled<O, <E::Reader as Asked>::Message>
where
    E::Reader: Asked + Answers,
    E::Client: Served,
    E::Writer: Drop,
    E::Maker: MadeHead<E::Reader>,
    requires closed { (shows tx.hold.history).closed ≡ true }
    ensures ends { EndsBy by result.report.end }
    ensures answered { result.report.has_answered ≡ has_answered }
    ensures told { IfItself by (EndsAs tx.hold.history.plan.point tx.outcome ⊥
        (IfAsked (E.Reader.carries_on Outcome.Done (E.Maker.closes tx.ends.maker)) (E.Maker.asked tx.ends.maker))
        (E.Reader.lasts tx.outcome tx.ends.source) ⊤ result.report.end) }
    ensures stands { (has_memory : AnyBool) → result.report.end ≡ End.Withdrawn has_memory → ⊥ }
    ensures cuts { result.report.has_answered ≡ false → result.report.cuts ≡ false }
    ensures cut { result.report.cuts ≡ result.report.has_answered && (fails tx.outcome && old_where_asked E.Reader.is_old (E.Maker.asked tx.ends.maker)) }
    ensures whole { is_good result.report.end ≡ true → result.report.cuts ≡ false }
    ensures served { result.report.served ≡ served_as (reusable_by E.Client.reusable tx.ends.service) result.report.end }
    ensures next { IsNextBy (λ _. ⊥) (λ next. IfAsked (λ user. E.Reader.is_next user next) (E.Maker.asked tx.ends.maker)) (λ _. ⊥) result.report.end result.message }
    ensures wires { result.remains.connections ≡ record { user = tx.ends.next_wire; service = wire_of tx.ends.service; origin = tx.ends.source_wire } }
{
    let TxParts {
        stake,
        ends,
        outcome,
        seen,
    } = tx.into_parts();
    let Ends {
        source,
        source_wire: origin,
        service,
        next: _,
        next_wire: user,
        back: _,
        maker,
    } = ends;
    let account = Account {
        seen,
        outcome: outcome_by(by, outcome),
        has_answered,
        next_is_fresh: is_fresh(&user),
    };
    let closes = maker.closes();
    let lasts = source.lasts(outcome);
    let sequel = after_response(out.alloc(), maker.into_asked(), outcome, closes, lasts);
    let report = report_on(at, out, &user, &service, account, &sequel, by);
    let connections = Connections {
        user,
        service: wire_of(service),
        origin,
    };
    settled_of(stake, out.limits(), connections, sequel, by, report)
}
