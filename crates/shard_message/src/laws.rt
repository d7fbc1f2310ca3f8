//! What holds of every message that moves, and of every one on its way through the steps of its exchange. Each law is the contract of a
//! function that does nothing.

ghost use Rattle.std.specs.Prelude.{ℕ};
ghost use Rattle.shard_exchange.specs.Outcomes.{MovesOn};
ghost use Rattle.shard_message.specs.Begun.{beginning};
ghost use Rattle.shard_message.specs.Outset.{Outset, SetsOut};
ghost use Rattle.shard_message.specs.Way.{AreSteps, Carries, IsSince};

use crate::accounts::Accounted;
use crate::holdings::Holdings;
use crate::moving::Moving;
use crate::outside::{Kinds, Outside};
use exchange_core::CourseState;
use proxy_rules::laws::a_running_transaction_takes_one_message;
use shard_exchange::{Effects, Holder};

/// What the connections of a message gave and took, wherever it stands: since each way in which it may have set out, what
/// `the_wires_take_one_message` of `proxy_rules::laws` says; and there is one. `Moving::begin` says how a message sets out. What was so
/// since then is so after each call: `Moving::round` and `take_freed` say what these make of it, and no other call changes a message.
pub fn a_message_that_moves_takes_one<O: Kinds>(moving: &Moving<O>)
    ensures took { (s : Outset O.User O.Service O.Origin) → ⟦<Moving<O> as Accounted<O>>⟧.since s moving.now → ⟦<Moving<O> as Accounted<O>>⟧.took s moving.now }
    ensures some { ∥ ((s : Outset O.User O.Service O.Origin) × ⟦<Moving<O> as Accounted<O>>⟧.took s moving.now) ∥₁ }
{
    match moving {
        Moving::Request(tx) => a_running_transaction_takes_one_message(tx),
        Moving::Response(tx) => a_running_transaction_takes_one_message(tx),
    }
}

/// A message that moves is the one that its exchange started, however many steps were taken since: so of each way in which it set out its
/// connections gave and took what `a_message_that_moves_takes_one` says. `held` is what was held before it started, `begun` after that,
/// and `now` is what is held later. A step is what `Exchange::act` says of a message that moves before and after it.
pub fn a_message_stays_the_one_that_set_out<P, O: Outside<P>>(
    at: &P,
    out: &O,
    state: CourseState,
    held: &Holdings<O>,
    begun: &Holdings<O>,
    now: &Holdings<O>,
)
    ensures began { (set : ⟦<Holdings<O> as Effects<P>>⟧.starts held.now begun.now out.now at.now state) → (s : Outset O.User O.Service O.Origin)
        → SetsOut O.User.Wire O.Origin.Wire (beginning set.1.reserved.planned set.1.arrival.value set.1.manner) set.1.source set.1.line set.1.hop s
        → IsSince ⟦<Moving<O> as Accounted<O>>⟧.since s begun.now.tx }
    ensures stays { (n : ℕ) → AreSteps (λ one next. (old : O) × (spot : P) × MovesOn ⟦<Holdings<O> as Holder>⟧.stays
        (λ held turned later round. ⟦<Holdings<O> as Effects<P>>⟧.rounds held turned old later spot round)
        (λ turned usable. ⟦<Holdings<O> as Holder>⟧.frees turned next usable) one next) n begun.now now.now
        → Carries ⟦<Moving<O> as Accounted<O>>⟧.since begun.now.tx now.now.tx }
{}
