//! What is done over what is held alone.

ghost use Rattle.std.specs.Prelude.{◌≡◌, ◌++◌, ◌&&◌, ℕ, List, Option, is_some, option_map, true, false, None, Some, IfSome, IsSomeAnd, ⊤};
ghost use Rattle.proxy_rules.specs.Arrivals.{Came};
ghost use Rattle.shard_message.specs.Ended.{HasGiven, HasGivenSince, IsBarred};
ghost use Rattle.shard_message.specs.Outset.{Outset};
ghost use Rattle.shard_exchange.specs.Hand.{hand_of, refused_of};
ghost use Rattle.shard_exchange.specs.Saying.{past_of};
ghost use Rattle.icap_client.specs.declared.options.OptionsStage.TheVariants.{Over};
ghost use Rattle.shard_exchange.specs.declared.answers.HeadTurn.TheVariants.{Nothing};
ghost use Rattle.shard_message.specs.Faults.{head_fault_of};
ghost use Rattle.shard_message.specs.HeadTurns.{TellsTurn};
ghost use Rattle.shard_message.specs.Lines.{line_in};
ghost use Rattle.shard_message.specs.Told.{IsRequestAgain};
ghost use Rattle.shard_message.specs.Usable.{usable_by};
ghost use Rattle.shard_message.specs.Waits.{GivesNone, MovesNone};
ghost use Rattle.proxy_rules.specs.Since.{held_or};
ghost use Rattle.shard_message.specs.Borne.{plan_of};
ghost use Rattle.shard_message.specs.Freed.{IsFreed, freed_of};
ghost use Rattle.shard_message.specs.Message.{has_come};
ghost use Rattle.shard_message.specs.Withdrawals.{WithdrawsAs};

use crate::accounts::Accounted;
use crate::asking::hear_on;
use crate::connection::lay_wire;
use crate::heads::{fault_of, turn_on};
use crate::holdings::Holdings;
use crate::moving::{Moving, OnItsWay};
use crate::outside::Kinds;
use crate::saying::say_to;
use crate::slots::clear;
use adapt_sides::{Said, WIRE_ROOM};
use adapt_turn::FreedConnection;
use exchange_core::Course;
use http_side::HttpFault;
use proxy_rules::interim_continue;
use shard_exchange::{HeadTurn, Holder, InHand, OptionsTurn};

impl<O: Kinds> InHand for Holdings<O> {
    ghost hand = { λ held. hand_of (is_some held.connection) (is_some held.room) (is_some held.origin) (is_some held.tx) held.told (refused_of (option_map (λ text. text.items) held.page) held.refused) held.is_finished };
}

impl<O: Kinds> Holder for Holdings<O> {
    type Outside = O;

    ghost answered = { λ held. elim held.tx [
      | None ↦ false
      | Some tx ↦ ⟦<Moving<O> as OnItsWay>⟧.answered tx
    ] };

    ghost reusable = { λ held. elim held.tx [
      | None ↦ false
      | Some tx ↦ ⟦<Moving<O> as OnItsWay>⟧.reusable tx
    ] };

    ghost user_past = { λ held. past_of O.User.past held.user };

    ghost usable_after = { λ held answer. usable_by (λ side. side.value.raw) held.asking answer };

    ghost ends = { λ held may_withdraw end. elim held.tx [
      | None ↦ ⊥
      | Some tx ↦ ⟦<Moving<O> as OnItsWay>⟧.ends tx (IsBarred (⟦<Moving<O> as OnItsWay>⟧.answered tx)
          (HasGivenSince O.Origin.past (⟦<Moving<O> as Accounted<O>>⟧.origin tx) held.before.0) may_withdraw) end
    ] };

    ghost stays = { λ held later. (later.tx ≡ held.tx) × (later.before ≡ held.before) × (later.user ≡ held.user) × (later.origin ≡ held.origin)
        × (later.message ≡ held.message) × (later.planned ≡ held.planned) × (later.room ≡ held.room) };

    ghost bears_message = { λ first held. (held.message ≡ first.message)
        × (plan_of (λ room. room.planned) held.planned held.room ≡ plan_of (λ room. room.planned) first.planned first.room) };

    ghost bears = { λ first held. (held.user ≡ first.user) × (held.origin ≡ first.origin) × (held.before ≡ first.before) × (held.message ≡ first.message)
        × (plan_of (λ room. room.planned) held.planned held.room ≡ plan_of (λ room. room.planned) first.planned first.room) };

    ghost keeps_line = { λ old new. new.connection ≡ old.connection };

    ghost keeps_origin = { λ old new. (new.origin ≡ old.origin) × (new.before ≡ old.before) };

    ghost keeps_message = { λ old new. (new.message ≡ old.message) × (new.user ≡ old.user) };

    ghost frees = { λ held later usable. (later.before ≡ held.before) × IsSomeAnd held.tx (λ tx. IsFreed (⟦<Moving<O> as OnItsWay>⟧.heard tx) (⟦<Moving<O> as Accounted<O>>⟧.service tx) (λ leased. leased.wire) later.connection usable
        × IsSomeAnd later.tx (λ next. (s : Outset O.User O.Service O.Origin) → ⟦<Moving<O> as Accounted<O>>⟧.since s tx
        → (given : Option O.Service) × (given ≡ held_or (freed_of (⟦<Moving<O> as Accounted<O>>⟧.service tx) usable) s.given)
        × ⟦<Moving<O> as Accounted<O>>⟧.since (record s { given = given }) next)) };

    ghost repeats = { λ held. elim held.tx [
      | None ↦ IfSome held.origin (λ origin. HasGiven O.Origin.past origin held.before.0)
      | Some tx ↦ HasGiven O.Origin.past (⟦<Moving<O> as Accounted<O>>⟧.origin tx) held.before.0
    ] };

    ghost withdraws = { λ held later came. (later.user ≡ held.user) × (later.connection ≡ held.connection) × (later.origin ≡ held.origin) × WithdrawsAs (IsSomeAnd held.message (λ response. IsSomeAnd later.message (λ again. IfSome response.value.user (λ request.
        IsRequestAgain request again.value)))) (IfSome held.origin (λ origin. HasGivenSince O.Origin.past origin held.before.0)) came };

    ghost reads = { λ old new turn. (is_some turn ≡ (is_some old.message && is_some old.user)) × (is_some new.user ≡ is_some old.user) × (new.origin ≡ old.origin) × (new.connection ≡ old.connection) × (new.before ≡ old.before)
        × (turn ≡ Some Nothing → GivesNone (past_of O.User.past old.user) (past_of O.User.past new.user))
        × IfSome turn (λ turn. IsSomeAnd old.message (λ m. IsSomeAnd new.message (λ n. TellsTurn m.value.side n.value.side (past_of O.User.past old.user) (past_of O.User.past new.user) turn)))
        × IfSome old.message (λ m. IfSome old.user (λ w.
        (first : O.User) (ahead since beside : List ℕ) → Came O.User.Wire first ahead since beside m.value.side w
        → IfSome new.message (λ n. IfSome new.user (λ v. (more : List ℕ) × Came O.User.Wire first ahead (since ++ more) beside n.value.side v)))) };

    ghost has_line = { λ held. is_some (line_in (λ leased. leased.wire) held.connection) };

    ghost hears_nothing = { λ old new. MovesNone (IsSomeAnd old.asking (λ side. side.value.stage ≡ Over))
        (past_of O.Service.past (line_in (λ leased. leased.wire) old.connection)) (past_of O.Service.past (line_in (λ leased. leased.wire) new.connection)) };

    ghost hears = { λ old new turn. (is_some turn ≡ (is_some old.message && is_some old.origin)) × (new.user ≡ old.user) × (new.connection ≡ old.connection) × (new.before ≡ old.before)
        × (turn ≡ Some Nothing → GivesNone (past_of O.Origin.past old.origin) (past_of O.Origin.past new.origin))
        × IfSome turn (λ turn. IsSomeAnd old.message (λ m. IsSomeAnd new.message (λ n. TellsTurn m.value.side n.value.side (past_of O.Origin.past old.origin) (past_of O.Origin.past new.origin) turn)))
        × IfSome old.message (λ m. IfSome old.origin (λ w.
        (first : O.Origin) (ahead since beside : List ℕ) → Came O.Origin.Wire first ahead since beside m.value.side w
        → IfSome new.message (λ n. IfSome new.origin (λ v. (more : List ℕ) × Came O.Origin.Wire first ahead (since ++ more) beside n.value.side v)))) };

    ghost cut_is = { λ held answered cut. elim held.tx [
      | None ↦ ⊤
      | Some tx ↦ ⟦<Moving<O> as OnItsWay>⟧.cut_is tx answered cut
    ] };

    ghost has_begun = { λ held. has_come held.message };

    ghost head_fault = { λ held. head_fault_of held.message };

    fn has_begun(&self) -> bool {
        match &self.message {
            Some(message) => message.has_begun(),
            None => false,
        }
    }

    fn head_fault(&self) -> Option<HttpFault> {
        fault_of(&self.message)
    }

    fn is_moving(&self) -> bool {
        self.tx.is_some()
    }

    fn read_request(&mut self, buffer: &mut [u8; WIRE_ROOM]) -> Option<HeadTurn> {
        turn_on(&mut self.message, &mut self.user, buffer)
    }

    fn read_response(&mut self, buffer: &mut [u8; WIRE_ROOM]) -> Option<HeadTurn> {
        turn_on(&mut self.message, &mut self.origin, buffer)
    }

    fn hear(&mut self, buffer: &mut [u8; WIRE_ROOM]) -> Option<OptionsTurn> {
        hear_on(&mut self.asking, &mut self.connection, buffer)
    }

    fn tell(&mut self, _course: &Course) -> Said {
        say_to(&mut self.user, interim_continue(), &mut self.told)
    }

    fn is_finished(&self) -> bool {
        self.is_finished
    }

    fn lose_user(&mut self, _course: &Course) {
        clear(&mut self.user);
    }

    fn hang_up(&mut self) {
        clear(&mut self.origin);
    }

    fn has_answered(&self) -> bool {
        match &self.tx {
            Some(tx) => tx.has_answered(),
            None => unreachable!(),
        }
    }

    fn free_service(&mut self) -> Option<bool> {
        let Some(tx) = &mut self.tx else {
            unreachable!();
        };
        let FreedConnection { wire, is_reusable } = tx.take_freed()?;
        lay_wire(&mut self.connection, wire);
        Some(is_reusable)
    }

    fn finish(self) {
        let (connection, room, tx) = self.into_parts();
        match (connection, room, tx) {
            (None, None, None) => {}
            _ => unreachable!(),
        }
    }
}
