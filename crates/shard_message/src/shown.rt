//! What is shown of a message that moves.

ghost use Rattle.std.specs.Prelude.{◌≡◌, if◌then◌else◌, ℕ, Bool, Option, Some, None};
ghost use Rattle.adapt_hold.specs.Holding.{shows};
ghost use Rattle.adapt_turn.specs.ChosenHead.{answers_user, response_of};
ghost use Rattle.adapt_turn.specs.declared.turn.Outcome.{Outcome as AnyOutcome};
ghost use Rattle.icap_client.specs.Turns.{is_response_of};
ghost use Rattle.trace_core.specs.History.{History};

use crate::moving::Moving;
use crate::outside::Kinds;
use adapt_turn::Outcome;
use proxy_rules::{Running, Wires};
use span_bank::Ledgers;
use trace_core::State;

/// What is shown of a message that moves.
#[derive(Clone, Copy)]
pub struct Shown<'a> {
    /// What happened so far.
    pub state: &'a State,
    /// The bytes of its reservation.
    pub claim: u64,
    /// The moment of its last moved byte, in seconds.
    pub last_moved: u64,
    /// Whether its service answers the request itself: the adapted message goes back to the user.
    pub answers_user: bool,
    /// How its transaction ended, where it is over: its refusal may still be on its way.
    pub outcome: Option<Outcome>,
}

/// What is read off a message that moves, to be shown.
pub trait OnShow {
    ghost history: { Self → History };

    ghost claimed: { Self → ℕ };

    // its service answers the request itself
    ghost answers: { Self → Bool };

    // how its transaction ended, where it is over
    ghost ended: { Self → Option AnyOutcome };
}

impl<O: Kinds> OnShow for Moving<O> {
    ghost use Rattle.adapt_hold.specs.Holding.{shows};
    ghost use Rattle.adapt_turn.specs.ChosenHead.{answers_user, response_of};
    ghost use Rattle.icap_client.specs.Turns.{is_response_of};
    ghost use Rattle.std.specs.Prelude.{if◌then◌else◌, Some, None};
    ghost use Rattle.shard_message.specs.declared.moving.Moving.TheVariants.{Request, Response};

    ghost history = { λ moving. elim moving [
      | Request tx ↦ tx.value.tx.hold.history
      | Response tx ↦ tx.value.tx.hold.history
    ] };

    ghost claimed = { λ moving. elim moving [
      | Request tx ↦ tx.value.tx.hold.claim
      | Response tx ↦ tx.value.tx.hold.claim
    ] };

    ghost answers = { λ moving. elim moving [
      | Request tx ↦ answers_user (shows tx.value.tx.hold.history) (response_of is_response_of tx.value.tx.ends.service)
      | Response tx ↦ answers_user (shows tx.value.tx.hold.history) (response_of is_response_of tx.value.tx.ends.service)
    ] };

    ghost ended = { λ moving. elim moving [
      | Request tx ↦ if (shows tx.value.tx.hold.history).closed then Some tx.value.tx.outcome else None
      | Response tx ↦ if (shows tx.value.tx.hold.history).closed then Some tx.value.tx.outcome else None
    ] };
}

/// What is shown of a transaction that runs.
fn shown_of<B: Ledgers, W: Wires>(tx: &Running<B, W>) -> Shown<'_>
    ensures history { result.state.now ≡ tx.now.tx.hold.history }
    ensures claim { result.claim ≡ tx.now.tx.hold.claim }
    ensures answers { result.answers_user ≡ answers_user (shows tx.now.tx.hold.history) (response_of is_response_of tx.now.tx.ends.service) }
    ensures ended { result.outcome ≡ (if (shows tx.now.tx.hold.history).closed then Some tx.now.tx.outcome else None) }
{
    let hold = tx.hold();
    Shown {
        state: hold.state(),
        claim: hold.claim(),
        last_moved: tx.last_moved(),
        answers_user: tx.answers_user(),
        outcome: tx.outcome(),
    }
}

impl<O: Kinds> Moving<O> {
    /// What is shown of it.
    pub fn shown(&self) -> Shown<'_>
        ensures history { result.state.now ≡ ⟦<Self as OnShow>⟧.history self.now }
        ensures claim { result.claim ≡ ⟦<Self as OnShow>⟧.claimed self.now }
        ensures answers { result.answers_user ≡ ⟦<Self as OnShow>⟧.answers self.now }
        ensures ended { result.outcome ≡ ⟦<Self as OnShow>⟧.ended self.now }
    {
        match self {
            Moving::Request(tx) => shown_of(tx),
            Moving::Response(tx) => shown_of(tx),
        }
    }
}
