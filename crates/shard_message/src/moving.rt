//! Messages that move.

ghost use Rattle.std.specs.Prelude.{◌≡◌, ◌&&◌, ℕ, is_some, map, string_bytes, None, Some, true, false, Bool, Option, Box as AnyBox, IfSome, IfOk, IfErr};
ghost use Rattle.proxy_config.specs.declared.config.Config.{Config as AnyConfig};
ghost use Rattle.std.specs.declared.alloc.Global.{Global as Heap};
ghost use Rattle.exchange_core.specs.declared.event.Event.TheVariants.{Withdrawn};
ghost use Rattle.exchange_core.specs.May.{may_come};
ghost use Rattle.proxy_rules.specs.Arrivals.{Arrival};
ghost use Rattle.shard_message.specs.Told.{has_answered, may_serve_again};
ghost use Rattle.shard_exchange.specs.EndedBy.{MayEnd, is_good, served_as};
ghost use Rattle.shard_exchange.specs.declared.ends.End.{End as AnyEnd};
ghost use Rattle.shard_message.specs.Begun.{Beginning, beginning};
ghost use Rattle.shard_message.specs.Ended.{HasGiven, HasGivenSince, IsBarred, IsWithdrawable};
ghost use Rattle.shard_message.specs.Outset.{BeginsClean, IsLineAfter, Outset, SetsOut};
ghost use Rattle.proxy_rules.specs.Since.{freed_wire, held_or};

use crate::accounts::Accounted;
use crate::connection::ServiceConnection;
use crate::connections::{Connections, Remains, request_remains, response_remains};
use crate::outside::{Kinds, Outside};
use crate::room::MessageRoom;
use crate::settled::{Settled, settle_request, settle_response};
use crate::start::{Manner, set_out};
use crate::taken::{stake_of, tx_of};
use crate::turns::round_of;
use adapt_sides::Scratch;
use adapt_turn::FreedConnection;
use exchange_core::Course;
use proxy_rules::{Incoming, Running, Way};
use shard_exchange::{End, EndedBy, Round};
use span_bank::{Bank, Stake};
use std::boxed::Box;
use std::sync::Wait;
use trace_core::Point;

/// The types of a request's connections: from the user to the origin.
pub(crate) type RequestWires<O> = (
    <O as Kinds>::User,
    <O as Kinds>::Service,
    <O as Kinds>::Origin,
);

/// The types of a response's connections: from the origin to the user.
pub(crate) type ResponseWires<O> = (
    <O as Kinds>::Origin,
    <O as Kinds>::Service,
    <O as Kinds>::User,
);

/// A message on its way over the connections of its exchange.
#[must_use]
pub enum Moving<O: Kinds> {
    /// A request, from the user to the origin.
    Request(Box<Running<O::Ledgers, RequestWires<O>>>),
    /// A response, from the origin to the user.
    Response(Box<Running<O::Ledgers, ResponseWires<O>>>),
}

/// What is read off a message that moves.
pub trait OnItsWay {
    // a byte of an answer went to the user
    ghost answered: { Self → Bool };

    // the connection to its service may carry another request
    ghost reusable: { Self → Bool };

    // its service has said all
    ghost heard: { Self → Bool };

    // what its course is told where nothing else ends it: by how its transaction ended, or by the stop where that is open; and by whether
    // something bars a request from being withdrawn
    ghost ends: { Self → (bars : Type 0) → AnyEnd → Type 0 };

    // the message that comes after it by what its course is told: the response to a request; the next request of its user, which begins
    // with the bytes that were left over of this one; or the request again that was withdrawn
    ghost followed_by: { Self → AnyEnd → Option (AnyBox Arrival Heap) → Type 0 };

    // where the response to a request comes after it, its service is told the lines of the fields that the configuration names, of the last
    // answer of the request's service
    ghost carries_on: { (config_is : AnyConfig → Type 0) → Self → AnyEnd → Option (AnyBox Arrival Heap) → Type 0 };

    // by whether a byte of an answer went to the user: its connection is cut, where the message failed and the user, of HTTP/1.0, may
    // take the end of the connection for the end of the answer
    ghost cut_is: { Self → (answered cut : Bool) → Type 0 };
}

impl<O: Kinds> OnItsWay for Moving<O> {
    ghost use Rattle.std.specs.Prelude.{◌≡◌, ◌&&◌, ⊤};
    ghost use Rattle.adapt_hold.specs.Holding.{shows};
    ghost use Rattle.adapt_sides.specs.Turns.Gift.{nothing};
    ghost use Rattle.trace_core.specs.History.{is_service_over};
    ghost use Rattle.adapt_turn.specs.declared.turn.Outcome.TheVariants.{Done};
    ghost use Rattle.http_relay.specs.Giving.{gift_of};
    ghost use Rattle.http_relay.specs.Reading.{request_of};
    ghost use Rattle.proxy_rules.specs.Connections.{CarriesOn, Lasts};
    ghost use Rattle.shard_message.specs.Ended.{EndsAs, IfAsked, IsNextBy, ended_as, fails, old_where_asked};
    ghost use Rattle.shard_message.specs.Told.{IsRequestAfter, IsRequestAgain, IsResponseTo, carried_by, fields_of, is_old_in};
    ghost use Rattle.shard_message.specs.declared.moving.Moving.TheVariants.{Request, Response};

    ghost answered = { λ moving. elim moving [
      | Request tx ↦ has_answered tx.value.tx.hold.history.plan.point tx.value.tx.ends
      | Response tx ↦ has_answered tx.value.tx.hold.history.plan.point tx.value.tx.ends
    ] };

    ghost reusable = { λ moving. elim moving [
      | Request tx ↦ may_serve_again tx.value.tx.ends
      | Response tx ↦ may_serve_again tx.value.tx.ends
    ] };

    ghost heard = { λ moving. elim moving [
      | Request tx ↦ is_service_over (shows tx.value.tx.hold.history)
      | Response tx ↦ is_service_over (shows tx.value.tx.hold.history)
    ] };

    ghost ends = { λ moving bars end. elim moving [
      | Request tx ↦ EndsAs tx.value.tx.hold.history.plan.point (ended_as (shows tx.value.tx.hold.history).closed tx.value.tx.outcome)
          (gift_of tx.value.tx.ends.back.stage ≡ nothing) (CarriesOn Done tx.value.tx.ends.maker.closes tx.value.tx.ends.source) ⊥ bars end
      | Response tx ↦ EndsAs tx.value.tx.hold.history.plan.point (ended_as (shows tx.value.tx.hold.history).closed tx.value.tx.outcome)
          ⊥ (IfAsked (CarriesOn Done tx.value.tx.ends.maker.closes) tx.value.tx.ends.maker.user)
          (Lasts (ended_as (shows tx.value.tx.hold.history).closed tx.value.tx.outcome) tx.value.tx.ends.source) ⊤ end
    ] };

    ghost followed_by = { λ moving end next. elim moving [
      | Request tx ↦ IsNextBy (IsResponseTo tx.value.tx.ends.source) (IsRequestAfter tx.value.tx.ends.source) (IsRequestAgain tx.value.tx.ends.source) end next
      | Response tx ↦ IsNextBy (λ _. ⊥) (λ next. IfAsked (λ user. IsRequestAfter user next) tx.value.tx.ends.maker.user) (λ _. ⊥) end next
    ] };

    ghost carries_on = { λ config_is moving end next. elim moving [
      | Request tx ↦ (config : AnyConfig) × config_is config × IsNextBy (λ response.
          response.carried ≡ carried_by fields_of (map string_bytes config.carry.items) tx.value.tx.ends.service) (λ _. ⊤) (λ _. ⊤) end next
      | Response tx ↦ ⊤
    ] };

    ghost cut_is = { λ moving answered cut. elim moving [
      | Request tx ↦ cut ≡ answered && (fails (ended_as (shows tx.value.tx.hold.history).closed tx.value.tx.outcome) && is_old_in (request_of tx.value.tx.ends.source.head))
      | Response tx ↦ cut ≡ answered && (fails (ended_as (shows tx.value.tx.hold.history).closed tx.value.tx.outcome)
          && old_where_asked (λ user. is_old_in (request_of user.head)) tx.value.tx.ends.maker.user)
    ] };
}

/// How a message begins to move.
pub trait Moves<O: Kinds> {
    // it began with just this, over these connections: a request from the user to the origin, a response from the origin to the user
    ghost begins: { Beginning → O.User → Option O.Service → O.Origin → Self → Type 0 };
}

impl<O: Kinds> Moves<O> for Moving<O> {
    ghost use Rattle.std.specs.Prelude.{◌≡◌};
    ghost use Rattle.trace_core.specs.declared.history.Point.TheVariants.{Reqmod, Respmod};
    ghost use Rattle.proxy_rules.specs.Arrivals.{point_of};
    ghost use Rattle.shard_message.specs.Begun.{BeginsWith};
    ghost use Rattle.shard_message.specs.declared.moving.Moving.TheVariants.{Request, Response};

    ghost begins = { λ b user service origin moving. elim moving [
      | Request tx ↦ (point_of b.message.user ≡ Reqmod) × BeginsWith b user service origin tx.value.tx.hold.history tx.value.tx.pace tx.value.tx.ends
      | Response tx ↦ (point_of b.message.user ≡ Respmod) × BeginsWith b origin service user tx.value.tx.hold.history tx.value.tx.pace tx.value.tx.ends
    ] };
}

impl<O: Kinds> Moving<O> {
    /// Has a message begin to move; an answer may be the last one of its user's connection. Where it can't, or no memory is found for
    /// that, what it would have stood over comes back.
    pub fn begin<P, R: Wait>(
        rt: &R,
        out: &O,
        message: Box<Incoming>,
        room: MessageRoom<O::Ledgers>,
        connections: Connections<O>,
        manner: Manner,
    ) -> Result<Moving<O>, Remains<O>>
    where
        O: Outside<P>,
        ensures begins { IfOk result (λ moving. ⟦<Self as Moves<O>>⟧.begins (beginning room.planned message.value manner) connections.user connections.service connections.origin moving) }
        ensures since { IfOk result (λ moving. (s : Outset O.User O.Service O.Origin) → SetsOut O.User.Wire O.Origin.Wire (beginning room.planned message.value manner) connections.user connections.service connections.origin s
            → ⟦<Self as Accounted<O>>⟧.since s moving) }
        ensures back { IfErr result (λ remains. (remains.room.planned ≡ None) × (remains.room.limits ≡ room.limits) × (remains.connections ≡ connections)) }
    {
        let Connections {
            user,
            service,
            origin,
        } = connections;
        let (bank, alloc) = (out.bank(), out.alloc());
        match message.point() {
            Point::Reqmod => {
                let way = Way {
                    source: user,
                    service,
                    next: origin,
                };
                match set_out(rt, bank, alloc, message, room, way, manner) {
                    Ok(tx) => Ok(Moving::Request(tx)),
                    Err((room, way)) => Err(request_remains(room, way)),
                }
            }
            Point::Respmod => {
                let way = Way {
                    source: origin,
                    service,
                    next: user,
                };
                match set_out(rt, bank, alloc, message, room, way, manner) {
                    Ok(tx) => Ok(Moving::Response(tx)),
                    Err((room, way)) => Err(response_remains(room, way)),
                }
            }
        }
    }

    /// A round of turns, one of each side. It ends with the turn that ends the transaction. Where the service's connection broke, the
    /// request begins anew on a fresh one, if it may; the round says Broken then.
    pub fn round<P, R: Wait>(
        &mut self,
        rt: &R,
        at: &P,
        out: &mut O,
        connection: &mut Option<ServiceConnection<O>>,
        scratch: &mut Scratch,
        may_renew: bool,
    ) -> Round
    where
        O: Outside<P>,
        ensures leased { is_some connection.new ≡ is_some connection.old }
        ensures renewed { result ≡ Round.Broken → may_renew ≡ true }
        ensures turns { (now : ℕ) × O.now_is out.old at.now now × ⟦<Self as Accounted<O>>⟧.rounds (O.is_opened out.new at.now) now self.old self.new result }
        ensures carries { (s : Outset O.User O.Service O.Origin) → ⟦<Self as Accounted<O>>⟧.since s self.old
            → (line : Option O.Service) × (given : Option O.Service) × IsLineAfter (O.is_opened out.new at.now) result s.line s.given line given × ⟦<Self as Accounted<O>>⟧.since (record s { line = line; given = given }) self.new }
    {
        match self {
            Moving::Request(tx) => round_of(rt, at, out, tx, connection, scratch, may_renew),
            Moving::Response(tx) => round_of(rt, at, out, tx, connection, scratch, may_renew),
        }
    }

    /// Whether a byte of an answer went to the user.
    pub fn has_answered(&self) -> bool
        ensures { result ≡ ⟦<Self as OnItsWay>⟧.answered self.now }
    {
        match self {
            Moving::Request(tx) => tx.has_answered(),
            Moving::Response(tx) => tx.has_answered(),
        }
    }

    /// Gives up the connection to the service once the service has said all. `None` before that, and where it is gone.
    pub fn take_freed(&mut self) -> Option<FreedConnection<O::Service>>
        ensures over { IfSome result (λ free. ⟦<Self as OnItsWay>⟧.heard self.old ≡ true) }
        ensures due { result ≡ None → ⟦<Self as OnItsWay>⟧.heard self.old ≡ true → ⟦<Self as Accounted<O>>⟧.service self.old ≡ None }
        ensures reusable { IfSome result (λ free. free.is_reusable ≡ ⟦<Self as OnItsWay>⟧.reusable self.old) }
        ensures wire { IfSome result (λ free. ⟦<Self as Accounted<O>>⟧.service self.old ≡ Some free.wire) }
        ensures carries { (s : Outset O.User O.Service O.Origin) → ⟦<Self as Accounted<O>>⟧.since s self.old
            → ⟦<Self as Accounted<O>>⟧.since (record s { given = held_or (freed_wire result) s.given }) self.new }
    {
        match self {
            Moving::Request(tx) => tx.take_freed(),
            Moving::Response(tx) => tx.take_freed(),
        }
    }

    /// Takes the transaction apart of a message that is over, or ends by this. What became of the message is noted. The origin's connection
    /// had given and taken so many bytes before, when it was dialed; by this course its request may be withdrawn or not.
    #[inline(never)]
    pub fn settle<P, R: Wait>(
        self,
        rt: &R,
        at: &P,
        out: &mut O,
        by: EndedBy,
        before: (u64, u64),
        course: &Course,
    ) -> Settled<O, Incoming>
    where
        O: Outside<P>,
        ensures answered { result.report.has_answered ≡ ⟦<Self as OnItsWay>⟧.answered self }
        ensures told { MayEnd by (⟦<Self as OnItsWay>⟧.ends self (IsBarred (⟦<Self as OnItsWay>⟧.answered self)
            (HasGivenSince O.Origin.past (⟦<Self as Accounted<O>>⟧.origin self) before.0) (may_come course.now Withdrawn))) result.report.end }
        ensures cuts { result.report.has_answered ≡ false → result.report.cuts ≡ false }
        ensures cut { ⟦<Self as OnItsWay>⟧.cut_is self result.report.has_answered result.report.cuts }
        ensures whole { is_good result.report.end ≡ true → result.report.cuts ≡ false }
        ensures served { result.report.served ≡ served_as (⟦<Self as OnItsWay>⟧.reusable self) result.report.end }
        ensures followed { ⟦<Self as OnItsWay>⟧.followed_by self result.report.end result.message }
        ensures carries { ⟦<Self as OnItsWay>⟧.carries_on (O.config_is out.old) self result.report.end result.message }
        ensures withdrawn { (has_memory : Bool) → result.report.end ≡ End.Withdrawn has_memory
            → IsWithdrawable by result.report.has_answered (HasGiven O.Origin.past (⟦<Self as Accounted<O>>⟧.origin self) before.0) (may_come course.now Withdrawn) }
        ensures clean { (s : Outset O.User O.Service O.Origin) → ⟦<Self as Accounted<O>>⟧.since s self
            → BeginsClean O.Origin.Wire result.report.end s.origin (Some result.remains.connections.origin) result.message }
        ensures wires { (result.remains.connections.user ≡ ⟦<Self as Accounted<O>>⟧.user self) × (result.remains.connections.service ≡ ⟦<Self as Accounted<O>>⟧.service self) × (result.remains.connections.origin ≡ ⟦<Self as Accounted<O>>⟧.origin self) }
    {
        match self {
            Moving::Request(running) => {
                let has_answered = running.has_answered();
                let tx = tx_of(rt, out.bank(), running);
                settle_request(at, out, tx, has_answered, by, before, course)
            }
            Moving::Response(running) => {
                let has_answered = running.has_answered();
                let tx = tx_of(rt, out.bank(), running);
                settle_response(at, out, tx, has_answered, by)
            }
        }
    }

    /// The reservation alone. The transaction ends, and all its connections are closed.
    pub fn into_stake<R: Wait>(self, rt: &R, bank: &Bank<O::Ledgers>) -> Stake<O::Ledgers>
        ensures { (result.held ≡ 0) × (result.pages ≡ 0) }
    {
        match self {
            Moving::Request(running) => stake_of(tx_of(rt, bank, running)),
            Moving::Response(running) => stake_of(tx_of(rt, bank, running)),
        }
    }
}
