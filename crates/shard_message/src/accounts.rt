//! What the connections of a message gave and took since it set out.

ghost use Rattle.std.specs.Prelude.{ℕ, Option};
ghost use Rattle.shard_exchange.specs.declared.answers.Round.{Round as AnyRound};
ghost use Rattle.shard_message.specs.Outset.{Outset};

use crate::moving::{Moving, RequestWires, ResponseWires};
use crate::outside::Kinds;
use crate::turns::Rounding;
use adapt_turn::Tx;
use proxy_rules::{Accounting, OwnEnds, Running};

/// What goes over the connections of a message that moves.
pub trait Accounted<O: Kinds> {
    // its connections; the service's as long as it is held
    ghost user: { Self → O.User };

    ghost service: { Self → Option O.Service };

    ghost origin: { Self → O.Origin };

    // since it set out so, its connections gave and took just what stands between it and them
    ghost since: { Outset O.User O.Service O.Origin → Self → Type 0 };

    // since it set out so, what its connections gave spells the bodies, and what they took is of one request and one message
    ghost took: { Outset O.User O.Service O.Origin → Self → Type 0 };

    // a round at this moment, and what it came to; where the request began anew, it did so over one of these connections
    ghost rounds: { (O.Service → Type 0) → ℕ → Self → Self → AnyRound → Type 0 };
}

impl<O: Kinds> Accounted<O> for Moving<O> {
    ghost use Rattle.adapt_turn.specs.ChosenHead.{wire_of};
    ghost use Rattle.shard_message.specs.Outset.{of_request, of_response};
    ghost use Rattle.shard_message.specs.declared.moving.Moving.TheVariants.{Request, Response};

    ghost user = { λ moving. elim moving [
      | Request tx ↦ tx.value.tx.ends.source_wire
      | Response tx ↦ tx.value.tx.ends.next_wire
    ] };

    ghost service = { λ moving. elim moving [
      | Request tx ↦ wire_of tx.value.tx.ends.service
      | Response tx ↦ wire_of tx.value.tx.ends.service
    ] };

    ghost origin = { λ moving. elim moving [
      | Request tx ↦ tx.value.tx.ends.next_wire
      | Response tx ↦ tx.value.tx.ends.source_wire
    ] };

    ghost since = { λ s moving. elim moving [
      | Request tx ↦ ⟦<Tx<O::Ledgers, OwnEnds<RequestWires<O>>> as Accounting<RequestWires<O>>>⟧.since (of_request s) tx.value.tx
      | Response tx ↦ ⟦<Tx<O::Ledgers, OwnEnds<ResponseWires<O>>> as Accounting<ResponseWires<O>>>⟧.since (of_response s) tx.value.tx
    ] };

    ghost took = { λ s moving. elim moving [
      | Request tx ↦ ⟦<Tx<O::Ledgers, OwnEnds<RequestWires<O>>> as Accounting<RequestWires<O>>>⟧.took (of_request s) tx.value.tx
      | Response tx ↦ ⟦<Tx<O::Ledgers, OwnEnds<ResponseWires<O>>> as Accounting<ResponseWires<O>>>⟧.took (of_response s) tx.value.tx
    ] };

    ghost rounds = { λ opened now old new round. elim old [
      | Request tx ↦ elim new [
        | Request next ↦ ⟦<Running<O::Ledgers, RequestWires<O>> as Rounding<RequestWires<O>>>⟧.rounds opened now tx.value next.value round
        | Response next ↦ ⊥
      ]
      | Response tx ↦ elim new [
        | Request next ↦ ⊥
        | Response next ↦ ⟦<Running<O::Ledgers, ResponseWires<O>> as Rounding<ResponseWires<O>>>⟧.rounds opened now tx.value next.value round
      ]
    ] };
}
