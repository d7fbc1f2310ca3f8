//! Heads of messages: the user's requests, and the origins' responses.

ghost use Rattle.std.specs.Prelude.{◌≡◌, ◌<◌, ◌++◌, ◌&&◌, ℕ, List, length, Some, IfSome, IsSomeAnd, is_some};
ghost use Rattle.proxy_rules.specs.Arrivals.{Came};
ghost use Rattle.shard_exchange.specs.Saying.{past_of};
ghost use Rattle.shard_message.specs.Faults.{head_fault_of};
ghost use Rattle.shard_message.specs.HeadTurns.{part_of, TellsTurn};
ghost use Rattle.shard_message.specs.Waits.{GivesNone};

use adapt_sides::WIRE_ROOM;
use http_relay::HeadProgress;
use http_side::HttpFault;
use proxy_rules::Incoming;
use shard_exchange::HeadTurn;
use std::boxed::Box;
use wire_kit::Wire;

/// What a turn means that read bytes of a head which isn't whole. After an interim response they count as one: an origin that never
/// answers could send such heads in pieces for ever.
fn part_of(message: &Incoming) -> HeadTurn
    ensures { result ≡ part_of message.now.side.interims }
{
    if message.has_interims() {
        HeadTurn::Interim
    } else {
        HeadTurn::More
    }
}

/// A turn at a message's head over this wire.
fn head_turn<W: Wire>(message: &mut Incoming, wire: &mut W, buffer: &mut [u8]) -> HeadTurn
    requires { 0 < length buffer.old }
    ensures came { (first : W) (ahead since beside : List ℕ) → Came W.Wire first ahead since beside message.old.side wire.old
        → (more : List ℕ) × Came W.Wire first ahead (since ++ more) beside message.new.side wire.new }
    ensures told { TellsTurn message.old.side message.new.side (W.past wire.old) (W.past wire.new) result }
    ensures waits { result ≡ HeadTurn.Nothing → GivesNone (W.past wire.old) (W.past wire.new) }
{
    let (before, _) = wire.counts();
    match message.head_turn(wire, buffer) {
        Ok(HeadProgress::Taken) => HeadTurn::Whole,
        Ok(HeadProgress::Interim) => HeadTurn::Interim,
        Ok(HeadProgress::More) if wire.counts().0 != before => part_of(message),
        Ok(HeadProgress::More) => HeadTurn::Nothing,
        Err(fault) => HeadTurn::Fault(fault),
    }
}

/// A turn at a message's head over its connection. `None` where either is missing.
pub fn turn_on<W: Wire>(
    message: &mut Option<Box<Incoming>>,
    wire: &mut Option<W>,
    buffer: &mut [u8; WIRE_ROOM],
) -> Option<HeadTurn>
    ensures there { is_some wire.new ≡ is_some wire.old }
    ensures some { is_some result ≡ (is_some message.old && is_some wire.old) }

    // What the message has is what came over the connection since its first read.
    ensures came { IfSome message.old (λ m. IfSome wire.old (λ w. (first : W) (ahead since beside : List ℕ) → Came W.Wire first ahead since beside m.value.side w
        → IfSome message.new (λ n. IfSome wire.new (λ v. (more : List ℕ) × Came W.Wire first ahead (since ++ more) beside n.value.side v)))) }
    ensures told { IfSome result (λ turn. IsSomeAnd message.old (λ m. IsSomeAnd message.new (λ n. TellsTurn m.value.side n.value.side (past_of W.past wire.old) (past_of W.past wire.new) turn))) }
    ensures waits { result ≡ Some HeadTurn.Nothing → GivesNone (past_of W.past wire.old) (past_of W.past wire.new) }
{
    match (message, wire) {
        (Some(message), Some(wire)) => Some(head_turn(message, wire, &mut buffer[..])),
        _ => None,
    }
}

/// What is at fault in a message's head.
pub fn fault_of(message: &Option<Box<Incoming>>) -> Option<HttpFault>
    ensures { result ≡ head_fault_of message.now }
{
    match message {
        Some(message) => message.head_fault(),
        None => None,
    }
}
