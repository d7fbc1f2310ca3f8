//! What is done with the surroundings.

ghost use Rattle.std.specs.Prelude.{◌≡◌, ◌⊎◌, ℕ, Option, Some, None, is_some, true, false, IfSome, IsSomeAnd};
ghost use Rattle.exchange_core.specs.Course.{is_offered};
ghost use Rattle.exchange_core.specs.declared.dialing.Dialing.TheVariants.{KeptFirst};
ghost use Rattle.shard_message.specs.Begun.{IsMannerOf};
ghost use Rattle.shard_message.specs.Dialed.{LeadsAsPlanned};
ghost use Rattle.shard_message.specs.Ended.{HasGiven};
ghost use Rattle.shard_message.specs.Lines.{HasLine, IsRenewed};
ghost use Rattle.shard_message.specs.Outset.{BeginsClean, IsLineAfter, Outset, SetsOut};
ghost use Rattle.shard_message.specs.Borne.{plan_of};
ghost use Rattle.shard_message.specs.Withdrawals.{LaysOrNot};
ghost use Rattle.shard_message.specs.Started.{Starts};
ghost use Rattle.shard_message.specs.Learning.{IsAsking, IsLearned};
ghost use Rattle.proxy_config.specs.declared.config.Config.{Config as AnyConfig};
ghost use Rattle.shard_message.specs.Planning.{PlansBy};
ghost use Rattle.shard_exchange.specs.Saying.{past_of};
ghost use Rattle.shard_message.specs.Taking.{taken_if};
ghost use Rattle.shard_message.specs.Waits.{GivesNone};

use crate::accounts::Accounted;
use crate::asking::{begin_anew, is_fresh};
use crate::connection::ServiceConnection;
use crate::connections::take_connections;
use crate::holdings::Holdings;
use crate::lasting::LastingOrigin;
use crate::moving::{Moves, Moving, OnItsWay};
use crate::options::{begin_asking, is_reusable, keep};
use crate::outside::{Dialed, Outside};
use crate::planning::keep_plan;
use crate::reusable::Reusable;
use crate::room::{dial_for, make_room};
use crate::saying::{lay_page, refusal_by, say_to};
use crate::settled::Settled;
use crate::slots::{clear, lay, put_in, take_out};
use crate::start::manner_of;
use crate::users::{finish_user, leave_queue, linger_on, note_refused, note_stopped};
use crate::withdrawal::{has_given_none, request_again};
use adapt_sides::{ClientFault, Said, Scratch};
use exchange_core::{Course, CourseState, Dialing};
use icap_head::IcapResponse;
use service_pool::LendFault;
use shard_exchange::{
    CourseReport, Effects, End, EndedBy, Lingered, Marks, Reason, Round, Started, Unplanned,
    Withdrawal,
};
use span_bank::Pages;
use std::sync::Wait;
use trace_core::Point;
use wire_kit::Wire;

/// Keeps a leased connection beside its lease: whether it was idle before.
fn take_in<P, O: Outside<P>>(
    slot: &mut Option<ServiceConnection<O>>,
    wire: O::Service,
    lease: O::Lease,
) -> bool
    requires { is_some slot.old ≡ false }
    ensures kept { is_some slot.new ≡ true }
    ensures leased { IfSome slot.new (λ leased. (leased.lease ≡ lease) × (leased.wire ≡ Some wire)) }
    ensures reused { result ≡ O.is_reused lease }
{
    let reused = O::is_reused(&lease);
    let wire = Some(wire);
    put_in(slot, ServiceConnection { wire, lease });
    reused
}

impl<P, O: Outside<P>> Effects<P> for Holdings<O> {
    ghost is_late = { λ out at. O.is_late out at };

    ghost has_rested = { λ out at. O.has_rested out at };

    ghost has_waited = { λ out at waited. O.has_waited out at waited };

    ghost may_retry = { λ out at may. (config : AnyConfig) × O.config_is out config × (may ≡ config.retry) };

    ghost lets_pass = { λ old new at passes. O.lets_pass old new at passes };

    ghost fails = { λ out at fault. O.fails out at fault };

    ghost joins = { λ out at point joined. O.joins out at point joined };

    ghost leaves = { λ out at point. O.leaves out at point };

    ghost plans = { λ old new out at asked result. (new.message ≡ old.message) × (new.user ≡ old.user) × (new.connection ≡ old.connection)
        × (new.origin ≡ old.origin) × (new.before ≡ old.before) × IfSome old.message (λ message.
        PlansBy (O.config_is out) (O.limits_are out) (O.book_is out) (O.now_is out at) (O.user_is_at out at) asked message.value old.planned new.planned result) };

    ghost learns = { λ old new at point answer. IsLearned (O.config_is old) (O.now_is old at) (O.keeps old new at point) point answer };

    ghost leases = { λ held out point reused. IfSome held.connection (λ leased. (O.point_of leased.lease ≡ point) × (O.is_reused leased.lease ≡ reused)
        × IsSomeAnd leased.wire (λ wire. O.serves out wire leased.lease)) };

    ghost renews = { λ held later out after at. IsRenewed (λ leased. leased.wire) (λ old new. (O.point_of new.lease ≡ O.point_of old.lease) × (O.is_reused new.lease ≡ false))
        (λ wire new. O.serves out wire new.lease × O.is_opened after at wire) held.connection later.connection };

    ghost asks = { λ held out point. IsSomeAnd held.asking (λ side. IsAsking (O.config_is out) point side.value.waiting) };

    ghost bears_but_origin = { λ first held. (held.user ≡ first.user) × (held.message ≡ first.message)
        × (plan_of (λ room. room.planned) held.planned held.room ≡ plan_of (λ room. room.planned) first.planned first.room) };

    ghost keeps_user = { λ old new. new.user ≡ old.user };

    ghost reserves = { λ held out. IfSome held.room (λ room. O.limits_are out room.limits) };

    ghost dials = { λ old new out dialed at dialing kept. IfSome new.origin (λ origin. LeadsAsPlanned (λ room. room.planned) (O.leads origin) old.room
        × (dialing ≡ KeptFirst → LeadsAsPlanned (λ room. room.planned) (λ address. (later : O) × O.takes out later at address (taken_if kept origin)) old.room)
        × (kept ≡ true → O.has_kept out origin) × HasGiven O.Origin.past origin new.before.0) };

    ghost starts = { λ old new out at state. (new.before ≡ old.before) × Starts (λ room. room.planned) (λ leased. leased.wire) (IsMannerOf (O.now_is out at) (O.config_is out) state)
        (λ b user service origin tx. ⟦<Moving<O> as Moves<O>>⟧.begins b user service origin tx × ((s : Outset O.User O.Service O.Origin)
        → SetsOut O.User.Wire O.Origin.Wire b user service origin s → ⟦<Moving<O> as Accounted<O>>⟧.since s tx))
        old.message old.room old.user old.connection old.origin (is_offered state.phase) new.tx };

    ghost rounds = { λ old new out later at round. (new.user ≡ old.user) × (new.message ≡ old.message) × (new.planned ≡ old.planned) × (new.asking ≡ old.asking)
        × (new.room ≡ old.room) × (new.origin ≡ old.origin) × (new.before ≡ old.before) × IfSome old.tx (λ tx. IfSome new.tx (λ next.
        ((now : ℕ) × O.now_is out at now × ⟦<Moving<O> as Accounted<O>>⟧.rounds (O.is_opened later at) now tx next round)
        × ((s : Outset O.User O.Service O.Origin) → ⟦<Moving<O> as Accounted<O>>⟧.since s tx
        → (line : Option O.Service) × (given : Option O.Service) × IsLineAfter (O.is_opened later at) round s.line s.given line given
        × ⟦<Moving<O> as Accounted<O>>⟧.since (record s { line = line; given = given }) next))) };

    ghost follows = { λ held out end later. elim held.tx [
      | None ↦ ⊥
      | Some tx ↦ (later.before ≡ held.before) × (later.user ≡ Some (⟦<Moving<O> as Accounted<O>>⟧.user tx)) × (later.origin ≡ Some (⟦<Moving<O> as Accounted<O>>⟧.origin tx))
          × IfSome (⟦<Moving<O> as Accounted<O>>⟧.service tx) (HasLine (λ leased. leased.wire) later.connection)
          × ⟦<Moving<O> as OnItsWay>⟧.followed_by tx end later.message × ⟦<Moving<O> as OnItsWay>⟧.carries_on (O.config_is out) tx end later.message
          × ((s : Outset O.User O.Service O.Origin) → ⟦<Moving<O> as Accounted<O>>⟧.since s tx → BeginsClean O.Origin.Wire end s.origin later.origin later.message)
    ] };

    ghost lays = { λ held old new at kept. IfSome held.origin (λ origin. LaysOrNot (O.lays old new at origin) (O.turns_down old new at origin) kept) };

    // the surroundings know nothing of it
    ghost closes = { λ held old new at. new ≡ old };

    ghost puts = { λ held old new at. IfSome held.connection (λ leased. IfSome leased.wire (λ wire. O.puts old new at wire leased.lease)) };

    ghost lingers = { λ old new came. IfSome old.user (λ user. IfSome new.user (λ later. O.lingers user later came)) };

    ghost sends_nothing = { λ old new. GivesNone (past_of O.User.past old.user) (past_of O.User.past new.user) };

    ghost has_page = { λ out at status page. O.has_page out at status page };

    ghost gives_up = { λ held old new at. IfSome held.connection (λ leased. O.gives_up old new at leased.lease) };

    fn is_late(at: &P, out: &O) -> bool {
        out.is_late(at)
    }

    fn has_rested(at: &P, out: &O) -> bool {
        out.has_rested(at)
    }

    fn has_waited(at: &P, out: &O) -> bool {
        out.has_waited(at)
    }

    fn may_retry(_at: &P, out: &O) -> bool {
        out.config().retry
    }

    fn may_pass(at: &P, out: &mut O) -> bool {
        out.may_pass(at)
    }

    fn plan(&mut self, at: &P, out: &O, asked: bool) -> Result<Marks, Unplanned> {
        keep_plan(at, out, &self.message, asked, &mut self.planned)
    }

    fn lend(&mut self, at: &P, out: &mut O, point: Point) -> Result<bool, LendFault> {
        match out.lend(at, point) {
            Ok((wire, lease)) => Ok(take_in(&mut self.connection, wire, lease)),
            Err(fault) => Err(fault),
        }
    }

    fn lend_in_turn(&mut self, at: &P, out: &mut O, point: Point) -> Result<bool, LendFault> {
        match out.lend_in_turn(at, point) {
            Ok((wire, lease)) => Ok(take_in(&mut self.connection, wire, lease)),
            Err(fault) => Err(fault),
        }
    }

    fn join_queue(at: &P, out: &mut O, point: Point) -> bool {
        out.join_queue(at, point)
    }

    fn leave_queue(at: &P, out: &mut O, course: &Course) {
        leave_queue(at, out, course);
    }

    fn ask(&mut self, _at: &P, out: &O, point: Point) -> Result<(), Reason> {
        begin_asking(out, point, &mut self.asking)
    }

    fn ask_anew(&mut self, at: &P, out: &mut O, point: Point) -> Result<(), Reason> {
        begin_anew(at, out, point, &mut self.asking, &mut self.connection)
    }

    fn learn(
        &mut self,
        at: &P,
        out: &mut O,
        point: Point,
        answer: &IcapResponse,
    ) -> Result<bool, Reason> {
        let usable = is_reusable(&self.asking, answer);
        match keep(at, out, point, answer) {
            Ok(()) => {
                clear(&mut self.asking);
                Ok(usable)
            }
            Err(reason) => {
                out.blame_service(at, None, false);
                Err(reason)
            }
        }
    }

    fn blame(&self, at: &P, out: &mut O, fault: ClientFault) {
        out.blame_service(at, Some(fault), is_fresh(&self.connection));
    }

    fn reserve<R: Wait>(&mut self, rt: &R, _at: &P, out: &mut O) -> Result<(), Reason> {
        let limits = out.limits();
        match make_room(rt, out.bank(), limits, &mut self.planned) {
            Ok(room) => {
                put_in(&mut self.room, room);
                Ok(())
            }
            Err(reason) => Err(reason),
        }
    }

    fn dial(&mut self, at: &P, out: &mut O, dialing: Dialing) -> Result<bool, Reason> {
        match dial_for(at, out, &self.room, dialing) {
            Ok(Dialed { wire, is_kept }) => {
                self.before = wire.counts();
                lay(&mut self.origin, wire);
                Ok(is_kept)
            }
            Err(reason) => Err(reason),
        }
    }

    fn start<R: Wait>(&mut self, rt: &R, at: &P, out: &mut O, state: CourseState) -> Started {
        let Some(message) = self.message.take() else {
            return Started::Fails;
        };
        let Some(connections) = take_connections(
            &mut self.user,
            &mut self.connection,
            &mut self.origin,
            state.phase.is_offered(),
        ) else {
            return Started::NoUser;
        };
        let room = take_out(&mut self.room);
        let manner = manner_of(at, out, state);
        match Moving::begin(rt, out, message, room, connections, manner) {
            Ok(tx) => {
                put_in(&mut self.tx, tx);
                Started::Moves
            }
            Err(remains) => {
                self.take_back(remains);
                Started::Fails
            }
        }
    }

    fn round<R: Wait>(
        &mut self,
        rt: &R,
        at: &P,
        out: &mut O,
        scratch: &mut Scratch,
        may_renew: bool,
    ) -> Round {
        match &mut self.tx {
            Some(tx) => tx.round(rt, at, out, &mut self.connection, scratch, may_renew),
            None => unreachable!(),
        }
    }

    fn settle<R: Wait>(
        &mut self,
        rt: &R,
        at: &P,
        out: &mut O,
        by: EndedBy,
        course: &Course,
    ) -> CourseReport {
        let tx = take_out(&mut self.tx);
        let Settled {
            remains,
            message,
            report,
        } = tx.settle(rt, at, out, by, self.before, course);
        self.take_back(remains);
        self.message = message;
        if report.end == (End::Withdrawn { has_memory: true }) {
            out.note_anew(at);
        }
        report
    }

    fn withdraw(&mut self, at: &P, out: &mut O, _course: &Course) -> Withdrawal {
        if self.tx.is_some() || !has_given_none(&self.origin, self.before.0) {
            return Withdrawal::Heard;
        }
        if !request_again(out.alloc(), &mut self.message) {
            return Withdrawal::NoMemory;
        }
        out.note_anew(at);
        Withdrawal::Again
    }

    fn keep_origin(&mut self, at: &P, out: &mut O, course: &Course) -> bool {
        let origin = take_out(&mut self.origin);
        if course.state().may_keep_origin() {
            out.keep_origin(at, LastingOrigin::new(origin, course))
        } else {
            drop(origin);
            false
        }
    }

    fn give_back(&mut self, at: &P, out: &mut O, course: &Course) -> bool {
        let ServiceConnection { wire, lease } = take_out(&mut self.connection);
        match wire {
            Some(wire) if course.state().connection.is_ready() => {
                out.put(at, Reusable::new(wire, course), lease);
                true
            }
            wire => {
                drop(wire);
                out.give_up(at, lease);
                false
            }
        }
    }

    fn release<R: Wait>(&mut self, rt: &R, _at: &P, out: &mut O) {
        let room = take_out(&mut self.room);
        out.bank().close(rt, room.into_stake(), Pages::none());
    }

    fn refuse(&mut self, at: &P, out: &mut O, _course: &Course, status: u16) -> Said {
        lay_page(at, out, status, self.refused, &mut self.page);
        let text = refusal_by(status, &self.page);
        say_to(&mut self.user, text, &mut self.refused)
    }

    fn close(&mut self, _at: &P, _course: &Course) {
        finish_user::<P, O>(&self.user);
        self.is_finished = true;
    }

    fn linger(&mut self, _at: &P, out: &mut O, _course: &Course) -> Lingered {
        linger_on::<P, O>(&mut self.user, out)
    }

    fn note_request(&mut self, at: &P, out: &mut O) {
        if let Some(message) = &self.message {
            out.note_request(at, message);
        }
        self.told = 0;
    }

    fn note_response(&self, at: &P, out: &mut O) {
        if let Some(message) = &self.message {
            out.note_response(at, message);
        }
    }

    fn note_refusal(&self, at: &P, out: &mut O, course: &Course, reason: Reason) {
        note_refused(at, out, course, &self.user, &self.message, reason);
    }

    fn note_stop(at: &P, out: &mut O, course: &Course) {
        note_stopped(at, out, course);
    }
}
