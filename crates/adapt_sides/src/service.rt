//! The side of the service (RFC 3507).

ghost use Rattle.std.specs.Prelude.{◌≡◌, ℕ, ◌⊎◌, ◌++◌, Bool, List, [], length, Option, None, true, false, option_copied};
ghost use Rattle.trace_core.specs.declared.history.Event.{Event};
ghost use Rattle.trace_core.specs.declared.history.Event.TheVariants.{Retry};
ghost use Rattle.trace_core.specs.declared.history.Seen.{Seen};
ghost use Rattle.trace_core.specs.History.{in_bytes, is_retry, is_preview, shows};
ghost use Rattle.trace_core.specs.Legal.{Allows};
ghost use Rattle.trace_core.specs.View.{after};
ghost use Rattle.trace_core.specs.Turns.{is_of_sending, is_of_replies};
ghost use Rattle.adapt_sides.specs.declared.fault.ClientFault.{ClientFault as Fault};
ghost use Rattle.adapt_sides.specs.Tapes.{KeepsUnsent};
ghost use Rattle.adapt_sides.specs.declared.fault.ClientFault.TheVariants.{Device};
ghost use Rattle.adapt_sides.specs.Turns.{Sends, Hears, IsExplained};

use crate::fault::ClientFault;
use crate::scratch::WIRE_ROOM;
use crate::turn::Turn;
use span_tape::SpanTape;
use trace_core::State;
use wire_kit::Wire;

/// The service's side: it writes one request, and reads its replies.
pub trait Service {
    // the adapted message's head, once it was read
    ghost adapted_head: { Self → Option (List ℕ) };

    // the adapted message is a response: its head stands as res-hdr
    ghost is_response: { Self → Bool };

    // the fault that each turn answers
    ghost fault: { Self → Option Fault };

    // of the request with these heads, and of a body of which these bytes came, these bytes were taken
    ghost has_sent: { List ℕ → Seen → List ℕ → List ℕ → Self → Type 0 };

    // these adapted bytes came, and these bytes were read
    ghost has_heard: { Seen → List ℕ → List ℕ → Self → Type 0 };

    // nothing is due to be written
    ghost rests_writing: { Seen → Self → Type 0 };

    // with this much room nothing is to be read
    ghost rests_reading: { Seen → ℕ → Self → Type 0 };

    // why a read answers this fault first: by what is seen, by what was read, and by what is kept
    ghost has_reason: { Fault → Seen → Self → Type 0 };

    // with this much room, none of the bytes that it keeps can be framed
    ghost is_framed: { ℕ → Self → Type 0 };

    // its connection may carry another request after this one
    ghost reusable: { Self → Bool };

    /// The adapted message's head, once it was read.
    fn adapted_head(&self) -> Option<&[u8]>
        ensures { option_copied result ≡ adapted_head self.now };

    /// Whether the adapted message is a response: a service may answer a request by one (RFC 3507, section 4.8.2).
    fn is_response(&self) -> bool
        ensures { result ≡ is_response self.now };

    /// Whether its connection may carry another request after this one.
    fn is_reusable(&self) -> bool
        ensures { result ≡ reusable self.now };

    /// Writes what is due of the request, composed in the buffer.
    fn write_turn<W: Wire>(
        &mut self,
        state: &State,
        tape: &SpanTape,
        wire: &mut W,
        buffer: &mut [u8; WIRE_ROOM],
    ) -> Result<Turn, ClientFault>
        requires { KeepsUnsent (shows state.now) tape.now }
        ensures heard { (x : Seen) (adapted read : List ℕ) → has_heard x adapted read self.old → has_heard x adapted read self.new }
        ensures head { adapted_head self.new ≡ adapted_head self.old }
        ensures response { is_response self.new ≡ is_response self.old }
        ensures turn { Sends (shows state.now) tape.now
            (λ heads x came taken. has_sent heads x came taken self.old) (λ heads x came taken. has_sent heads x came taken self.new)
            (fault self.old) (fault self.new) (rests_writing (shows state.now) self.new)
            (W.past wire.old) (W.past wire.new) result }
        ensures reason { IsExplained (fault self.old) (λ fault. fault ≡ Device) result };

    /// Reads what the wire gives, by way of the buffer. Adapted body bytes go to the beginning of `out`; the sum of Ad is their number.
    fn read_turn<W: Wire>(
        &mut self,
        state: &State,
        wire: &mut W,
        out: &mut [u8],
        buffer: &mut [u8; WIRE_ROOM],
    ) -> Result<Turn, ClientFault>
        ensures keeps { length out.new ≡ length out.old }
        ensures sent { (heads came taken : List ℕ) → has_sent heads (shows state.now) came taken self.old
            → has_sent heads (shows state.now) came taken self.new }
        ensures rests { (x : Seen) → rests_writing x self.old → rests_writing x self.new }
        ensures head { (shows state.now).modified ≡ true → adapted_head self.new ≡ adapted_head self.old }
        ensures response { (shows state.now).modified ≡ true → is_response self.new ≡ is_response self.old }
        ensures turn { Hears (shows state.now)
            (λ x adapted read. has_heard x adapted read self.old) (λ x adapted read. has_heard x adapted read self.new)
            (fault self.old) (fault self.new) (rests_reading (shows state.now) (length out.old) self.new) (is_framed (length out.old) self.new)
            (W.past wire.old) (W.past wire.new) out.new result }
        ensures reason { IsExplained (fault self.old) (λ fault. has_reason fault (shows state.now) self.new) result };

    /// Begins the request anew, for a fresh connection, if a Retry may follow: all of its text is still kept.
    fn restart(&mut self)
        ensures sent { (x : Seen) (heads came taken adapted read : List ℕ) → x.closed ≡ false → Allows x Retry → length came ≡ x.received
            → has_sent heads x came taken self.old → has_heard x adapted read self.old → has_sent heads (after x Retry) came [] self.new }
        ensures heard { (x : Seen) (heads came taken adapted read : List ℕ) → x.closed ≡ false → Allows x Retry → length came ≡ x.received
            → has_sent heads x came taken self.old → has_heard x adapted read self.old → has_heard (after x Retry) [] [] self.new }
        ensures fault { fault self.new ≡ None };

    // the other sides' events leave both; what comes from the source stands after what came before
    ghost others_sent: { (heads : List ℕ) (x : Seen) (event : Event) (came bytes taken : List ℕ) (s : Self) → is_of_sending event ≡ false → is_retry event ≡ false
        → length came ≡ x.received → length bytes ≡ in_bytes event
        → has_sent heads x came taken s → has_sent heads (after x event) (came ++ bytes) taken s };

    ghost others_heard: { (x : Seen) (event : Event) (adapted read : List ℕ) (s : Self) → is_of_replies event ≡ false → is_retry event ≡ false
        → has_heard x adapted read s → has_heard (after x event) adapted read s };

    // before the first byte of a reply nothing was read
    ghost unheard: { (x : Seen) (adapted read : List ℕ) (s : Self) → has_heard x adapted read s → x.heard ≡ false
        → (adapted ≡ []) × (read ≡ []) };

    // if nothing is due to be written, no event of sending may follow
    ghost rests_writing_where: { (x : Seen) (s : Self) → rests_writing x s → x.closed ≡ false
        → (event : Event) → is_of_sending event ≡ true → Allows x event → ⊥ };

    // if nothing is to be read, the answer is whole, there is no room, or it is a preview before its 100
    ghost rests_reading_where: { (x : Seen) (adapted read : List ℕ) (room : ℕ) (s : Self) → has_heard x adapted read s → rests_reading x room s
        → ((x.no_mod ≡ true) ⊎ (x.adapted_over ≡ true)) ⊎ ((room ≡ 0) ⊎ ((is_preview x.plan.kind ≡ true) × (x.continued ≡ false))) };
}
