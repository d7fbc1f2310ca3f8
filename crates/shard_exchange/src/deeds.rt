//! What a step does where something is due, what one that waits rests on, and what comes of an end from outside.

ghost use Rattle.exchange_core.specs.declared.state.CourseState.{CourseState as AnyState};
ghost use Rattle.shard_exchange.specs.declared.ends.EndedBy.{EndedBy as AnyEnder};
ghost use Rattle.shard_exchange.specs.Outcomes.{Deeds};
ghost use Rattle.shard_exchange.specs.Resting.{Tried};

use crate::effects::Effects;
use crate::exchange::Exchange;

/// What a step does, at a place, with the surroundings of an exchange; and what comes of its end.
pub trait Stepping<P, O> {
    // from an exchange and surroundings to those after the step: what comes of each thing where it is due
    ghost does: { Self → O → Self → O → P → Deeds };

    // and what was tried of each thing where it is due, and came to nothing now
    ghost tried: { Self → O → Self → O → P → Tried };

    // the message of an exchange ended by this, in these surroundings: its course before that and after it
    ghost ends_by: { AnyEnder → Self → O → AnyState → AnyState → Type 0 };

    // all that was held went back: the course before that and after it
    ghost gives_back: { P → AnyState → AnyState → Type 0 };
}

impl<P, H: Effects<P>> Stepping<P, H::Outside> for Exchange<H> {
    ghost use Rattle.std.specs.Prelude.{◌≡◌, if◌then◌else◌, Some, None, true, false};
    ghost use Rattle.adapt_sides.specs.declared.saying.Said.TheVariants.{Nothing};
    ghost use Rattle.exchange_core.specs.Course.{after};
    ghost use Rattle.exchange_core.specs.May.{may_come, is_gone};
    ghost use Rattle.exchange_core.specs.declared.event.Event.TheVariants.{Failed, Late, Stuck, Withdrawn};
    ghost use Rattle.exchange_core.specs.declared.event.RefusalCause.TheVariants.{Deadline};
    ghost use Rattle.service_pool.specs.declared.connector.LendFault.TheVariants.{Busy};
    ghost use Rattle.shard_exchange.specs.declared.answers.HeadTurn.TheVariants as head_turns;
    ghost use Rattle.shard_exchange.specs.declared.answers.Round.TheVariants.{Waiting};
    ghost use Rattle.shard_exchange.specs.Outcomes.{Bears, Deeds, IsAsked, IsAwaited, IsClosed, IsDialed, IsGated, IsGivenBack, IsHeard, IsHungUp, IsLent, IsPlanned, IsRead, IsReleased, IsRequested, IsReserved, IsStarted, IsTurned, LeavesQueue, Refuses, SaysInterim, SaysLast};
    ghost use Rattle.shard_exchange.specs.EndedBy.{MayEnd};
    ghost use Rattle.shard_exchange.specs.Ends.{IsEnded};
    ghost use Rattle.shard_exchange.specs.Leaving.{ReturnsAll};
    ghost use Rattle.shard_exchange.specs.Resting.{Tried};
    ghost use Rattle.shard_exchange.specs.Saying.{SaysOn, interim_text, refusal_by};

    ghost does = { λ old out new later at.
        let held = old.holdings in
        let holds = new.holdings in
        record {
          requested = IsRequested H.reads H.bears_message H.bears H.keeps_line (λ it. (H.hand it).told) H.has_begun H.head_fault
              (H.is_late out at) (H.has_rested out at) held holds old.course new.course;
          planned = IsPlanned (H.plans held holds out at) old.course new.course;
          lent = IsLent (H.leases holds out) (λ met. H.fails met at) (λ met. H.joins met at) old.course new.course × Bears H.bears held holds;
          awaited = IsAwaited (H.leases holds out) (λ met. H.fails met at) (λ met. H.has_waited met at) (λ met. H.is_late met at) old.course new.course
              × Bears H.bears held holds × LeavesQueue (λ met. H.leaves met at) old.course new.course;
          asked = IsAsked (H.asks holds later) old.course new.course × Bears H.bears held holds × H.keeps_line held holds;
          heard = IsHeard (H.learns out later at) H.usable_after (λ it. H.keeps_line it holds) (H.asks holds later)
              (λ it. H.renews it holds out later at × H.may_retry out at true) old.course new.course × Bears H.bears held holds;
          reserved = IsReserved (H.reserves holds out) old.course new.course × Bears H.bears held holds × H.keeps_line held holds;
          tried = SaysInterim (H.user_past held) (H.user_past holds) (H.hand held) (H.hand holds) (after old.course Stuck) old.course new.course
              × Bears H.bears_message held holds
              × (is_gone new.course.phase ≡ false → H.keeps_line held holds × H.keeps_origin held holds);
          told = SaysInterim (H.user_past held) (H.user_past holds) (H.hand held) (H.hand holds)
              (if H.is_late out at then after old.course (Failed Deadline) else old.course) old.course new.course × Bears H.bears_message held holds
              × (is_gone new.course.phase ≡ false → H.keeps_line held holds × H.keeps_origin held holds);
          dialed = IsDialed (H.dials held holds out later at) old.course new.course × Bears H.bears_but_origin held holds × H.keeps_line held holds;
          started = IsStarted (H.starts held holds out at old.course) (H.keeps_user held holds) (H.user_past held) old.course new.course;
          gated = IsGated (λ met passes. H.lets_pass out met at passes) (H.ends held (may_come old.course Withdrawn))
              (λ met end. H.follows held met end holds) (H.answered held) (H.reusable held) held holds old.course new.course;
          turned = IsTurned (λ it turned met round. H.rounds it turned out met at round) (λ turned usable. H.frees turned holds usable)
              H.answered H.reusable H.ends (λ turned met end. H.follows turned met end holds) H.repeats (λ met. H.is_late met at)
              held old.course new.course;
          read = IsRead H.hears H.repeats H.withdraws H.head_fault (H.is_late out at) held holds old.course new.course;
          given = IsGivenBack (H.puts held out later at) (H.gives_up held out later at) (H.stays held holds) (H.has_line held) old.course new.course;
          released = IsReleased old.course new.course × H.keeps_message held holds × H.keeps_origin held holds;
          hung = IsHungUp (H.lays held out later at) (H.closes held out later at) old.course new.course × H.keeps_message held holds;
          closed = IsClosed (H.lingers held holds) (H.is_late later at) (H.hand held).finished (H.hand holds).finished old.course new.course;
          refused = λ status. Refuses (H.has_page out at status) (H.user_past held) (H.user_past holds) (H.hand held) (H.hand holds) status
              (if H.is_late later at then after old.course Late else old.course) old.course new.course;
          last = λ status. SaysLast H.user_past H.hand (H.has_page out at status) held holds status old.course new.course;
        } };

    ghost tried = { λ old out new later at.
        let held = old.holdings in
        let holds = new.holdings in
        record {
          request = H.reads held holds (Some head_turns.Nothing);
          response = H.hears held holds (Some head_turns.Nothing);
          options = H.hears_nothing held holds;
          queue = (met : H.Outside) × H.fails met at Busy;
          interim = SaysOn (H.user_past held) (H.user_past holds) interim_text (H.hand held).told (H.hand holds).told Nothing;
          refusal = λ status. SaysOn (H.user_past held) (H.user_past holds) (refusal_by status (H.hand holds).refused.page)
              (H.hand held).refused.out (H.hand holds).refused.out Nothing;
          turns = (turned : H) × (met : H.Outside) × H.rounds held turned out met at Waiting × H.frees turned holds None;
          rest = H.sends_nothing held holds;
        } };

    ghost ends_by = { λ by exchange out old new. (holds : H)
        × IsEnded (MayEnd by (H.ends exchange.holdings (may_come exchange.course Withdrawn))) (λ end. H.follows exchange.holdings out end holds)
        (H.answered exchange.holdings) (H.reusable exchange.holdings) old new };

    ghost gives_back = { λ at. ReturnsAll
        (λ old new. (held holds : H) × (out later : H.Outside)
        × IsGivenBack (H.puts held out later at) (H.gives_up held out later at) (H.stays held holds) (H.has_line held) old new)
        (λ old new. (held : H) × (out later : H.Outside) × IsHungUp (H.lays held out later at) (H.closes held out later at) old new) };
}
