//! The side that a message comes from.

ghost use Rattle.std.specs.Prelude.{◌≡◌, ◌↔◌, ℕ, ◌⊎◌, List, [], length, Option, true, false};
ghost use Rattle.trace_core.specs.declared.history.Plan.{Plan as Planned};
ghost use Rattle.trace_core.specs.declared.history.Event.{Event};
ghost use Rattle.trace_core.specs.declared.history.Seen.{Seen};
ghost use Rattle.trace_core.specs.History.{seen, shows};
ghost use Rattle.trace_core.specs.View.{after};
ghost use Rattle.trace_core.specs.Turns.{is_of_source};
ghost use Rattle.adapt_sides.specs.declared.fault.RelayFault.{RelayFault as Fault};
ghost use Rattle.adapt_sides.specs.Turns.{Given, ReadsBody, IsExplained};

use crate::fault::RelayFault;
use crate::scratch::WIRE_ROOM;
use crate::turn::Turn;
use trace_core::{Plan, State};
use wire_kit::Wire;

/// The message's source: its head was read, and its body comes.
pub trait Source {
    /// The head, as the side keeps it.
    type Head;

    // the head that was read before the transaction began
    ghost head: { Self → Self.Head };

    // the fault that each turn answers
    ghost fault: { Self → Option Fault };

    // these body bytes came, and this the wire gave since the message began on it
    ghost has_read: { Seen → List ℕ → Given → Self → Type 0 };

    // the framing gives the body's end, and it was read
    ghost is_over: { Self → Type 0 };

    // its numbers are those of what is seen: the bytes that came, the end, and a known length
    ghost agrees: { Seen → Self → Type 0 };

    // a message of this plan may begin here
    ghost may_begin: { Planned → Self → Type 0 };

    // with this much room there is nothing to read
    ghost rests: { ℕ → Self → Type 0 };

    // why this fault is answered first: by what was read, and by what is kept
    ghost has_reason: { Fault → Self → Type 0 };

    // with this much room, none of the bytes that it keeps can be framed
    ghost is_framed: { ℕ → Self → Type 0 };

    /// Whether a message of this plan may begin here: its head was read, nothing after it was framed yet, and a length that the
    /// plan knows is its own.
    fn begins(&self, plan: &Plan) -> bool
        ensures may { result ≡ true ↔ may_begin plan.now self.now }
        ensures agrees { result ≡ true → agrees (seen plan.now []) self.now };

    /// Whether its numbers are those of this history: the bytes that came, the end, and a known length.
    fn agrees_with(&self, state: &State) -> bool
        ensures yes { result ≡ true → agrees (shows state.now) self.now }
        ensures no { result ≡ false → agrees (shows state.now) self.now → ⊥ };

    /// Reads what the wire gives, by way of the buffer. The body bytes go to the beginning of `out`; the sum of In is their number. With
    /// an empty `out` it asks no wire, and still answers an End that is due. A body whose framing gives no end has ended once the wire has.
    fn read_turn<W: Wire>(
        &mut self,
        wire: &mut W,
        out: &mut [u8],
        buffer: &mut [u8; WIRE_ROOM],
    ) -> Result<Turn, RelayFault>
        ensures keeps { length out.new ≡ length out.old }
        ensures head { head self.new ≡ head self.old }
        ensures turn { ReadsBody (λ x body read. has_read x body read self.old) (λ x body read. has_read x body read self.new)
            (λ x. agrees x self.old) (λ x. agrees x self.new) (fault self.old) (fault self.new) (rests (length out.old) self.new) (is_framed (length out.old) self.new) (is_over self.new)
            (W.past wire.old) (W.past wire.new) out.new result }
        ensures reason { IsExplained (fault self.old) (λ fault. has_reason fault self.new) result };

    // the other sides' events leave it
    ghost others: { (x : Seen) (event : Event) (body : List ℕ) (read : Given) (s : Self) → is_of_source event ≡ false
        → has_read x body read s → has_read (after x event) body read s };

    ghost others_agree: { (x : Seen) (event : Event) (s : Self) → is_of_source event ≡ false → agrees x s → agrees (after x event) s };

    // it rests once the body has ended, or if there is no room
    ghost rests_where: { (x : Seen) (body : List ℕ) (read : Given) (room : ℕ) (s : Self) → has_read x body read s → rests room s
        → (x.ended ≡ true) ⊎ (room ≡ 0) };

    // a body that has ended is over by its framing, or its wire has ended
    ghost ended_where: { (x : Seen) (body : List ℕ) (read : Given) (s : Self) → has_read x body read s → x.ended ≡ true
        → is_over s ⊎ (read.ended ≡ true) };
}
