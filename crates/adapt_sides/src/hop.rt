//! The side that a message goes to.

ghost use Rattle.std.specs.Prelude.{IsTrue, ◌≡◌, ℕ, ◌<◌, ◌≤◌, ◌++◌, Bool, List, [], ◌∷◌, length, Option, None, true, false, is_some};
ghost use Rattle.trace_core.specs.declared.history.Plan.{Plan};
ghost use Rattle.trace_core.specs.declared.history.Event.{Event};
ghost use Rattle.trace_core.specs.declared.history.Seen.{Seen};
ghost use Rattle.trace_core.specs.History.{seen, in_bytes, ad_bytes, shows};
ghost use Rattle.trace_core.specs.Legal.{Allows, IsLegal};
ghost use Rattle.trace_core.specs.Turns.{is_of_hop};
ghost use Rattle.adapt_sides.specs.declared.fault.RelayFault.{RelayFault as Fault};
ghost use Rattle.adapt_sides.specs.Tapes.{KeepsUndelivered, chosen, chosen_received};
ghost use Rattle.adapt_sides.specs.Turns.{Gives, Gift, IsExplained, FailsGiving, wire_fault};
ghost use Rattle.http_side.specs.Refusals.{is_own_status};
ghost use Rattle.adapt_sides.specs.Turns.Gift.{nothing, message, refusal};

use crate::fault::RelayFault;
use crate::scratch::WIRE_ROOM;
use crate::turn::Turn;
use span_tape::SpanTape;
use trace_core::State;
use wire_kit::Wire;

/// A next hop's side: it writes one message, or the proxy's own refusal.
pub trait Hop {
    /// How the body goes.
    type Framing;

    // what it writes
    ghost gift: { Self → Gift };

    // how the message's body goes
    ghost body_framing: { Self → Self.Framing };

    // the chosen body that is seen breaks the length that a head of this framing said
    ghost breaks_length: { Seen → Self.Framing → Type 0 };

    // the fault that each turn answers
    ghost fault: { Self → Option Fault };

    // of the message with this head, and with a body of which these bytes came, these bytes were taken
    ghost has_given: { Seen → List ℕ → List ℕ → List ℕ → Self → Type 0 };

    // no message is written here: these bytes are of a refusal, or there are none
    ghost aside: { List ℕ → Self → Type 0 };

    // these bytes are the whole message with this head and this body
    ghost is_whole: { List ℕ → List ℕ → List ℕ → Self → Type 0 };

    // nothing is due to be written
    ghost rests: { Seen → Self → Type 0 };

    // nothing was taken by its wire
    ghost untouched: { Self → Bool };

    // all that was fixed is out
    ghost is_out: { Self → Bool };

    /// Whether no byte has gone out.
    fn untouched(&self) -> bool
        ensures { result ≡ untouched self.now };

    /// Whether all that is fixed so far is out; of a refusal, all of it.
    fn is_out(&self) -> bool
        ensures { result ≡ is_out self.now };

    /// Whether it writes nothing yet: neither a message nor a refusal.
    fn is_idle(&self) -> bool
        ensures idle { result ≡ true → gift self.now ≡ nothing }
        ensures busy { result ≡ false → gift self.now ≡ nothing → ⊥ };

    /// The fault that each turn answers, if there is one.
    fn fault(&self) -> Option<RelayFault>
        ensures { result ≡ fault self.now };

    /// Begins the chosen message: its forwarded head, and how its body goes.
    fn begin(&mut self, head: Vec<u8>, framing: Self::Framing)
        requires { gift self.old ≡ nothing }
        ensures gift { gift self.new ≡ message }
        ensures framing { body_framing self.new ≡ framing }
        ensures given { (x : Seen) (none body taken : List ℕ) → has_given x none body taken self.old → has_given x head.items body taken self.new }
        ensures fault { fault self.new ≡ fault self.old };

    /// Puts the proxy's own refusal in the message's place. No byte has gone out. A fault of the message ends with it; one of the
    /// wire stays.
    fn refuse(&mut self, status: u16)
        requires untouched { untouched self.old ≡ true }
        requires status { IsTrue (is_own_status status) }
        ensures gift { gift self.new ≡ refusal status }
        ensures aside { aside [] self.new }
        ensures framing { body_framing self.new ≡ body_framing self.old }
        ensures fault { fault self.new ≡ wire_fault (fault self.old) };

    /// Writes what is due of the message or of the refusal, composed in the buffer.
    fn write_turn<W: Wire>(
        &mut self,
        state: &State,
        tape: &SpanTape,
        wire: &mut W,
        buffer: &mut [u8; WIRE_ROOM],
    ) -> Result<Turn, RelayFault>
        requires { KeepsUndelivered (shows state.now) tape.now }
        ensures gift { gift self.new ≡ gift self.old }
        ensures framing { body_framing self.new ≡ body_framing self.old }
        ensures turn { Gives (shows state.now) tape.now
            (λ x head body taken. has_given x head body taken self.old) (λ x head body taken. has_given x head body taken self.new)
            (λ taken. aside taken self.old) (λ taken. aside taken self.new)
            (λ head body taken. is_whole head body taken self.new)
            (fault self.old) (fault self.new) (rests (shows state.now) self.new)
            (W.past wire.old) (W.past wire.new) result }
        ensures reason { IsExplained (fault self.old) (FailsGiving ((gift self.new ≡ message) × breaks_length (shows state.now) (body_framing self.new))) result };

    // the other sides' events leave it; what comes of the chosen message stands after what came before
    ghost others: { (plan : Plan) (before : List Event) (event : Event) (head original adapted bytes more taken : List ℕ) (s : Self)
        → IsLegal plan (event ∷ before) → is_of_hop event ≡ false
        → length original ≡ (seen plan before).received → length adapted ≡ (seen plan before).adapted_received
        → length bytes ≡ in_bytes event → length more ≡ ad_bytes event
        → has_given (seen plan before) head (chosen (seen plan before) original adapted) taken s
        → has_given (seen plan (event ∷ before)) head (chosen (seen plan (event ∷ before)) (original ++ bytes) (adapted ++ more)) taken s };

    // if nothing is written yet, nothing was taken, and every message may still come
    ghost idle_given: { (x : Seen) (head body taken : List ℕ) (s : Self) → gift s ≡ nothing → aside taken s
        → x.original_delivered ≡ 0 → x.adapted_delivered ≡ 0 → has_given x head body taken s };

    ghost idle_aside: { (x : Seen) (head body taken : List ℕ) (s : Self) → gift s ≡ nothing → has_given x head body taken s → aside taken s };

    // a message isn't aside, and a refusal is no message
    ghost begun: { (taken : List ℕ) (s : Self) → gift s ≡ message → aside taken s → ⊥ };

    ghost refused: { (x : Seen) (head body taken : List ℕ) (status : ℕ) (s : Self) → gift s ≡ refusal status → has_given x head body taken s → ⊥ };

    // an untouched one took nothing
    ghost untouched_given: { (x : Seen) (head body taken : List ℕ) (s : Self) → untouched s ≡ true → has_given x head body taken s
        → (taken ≡ []) × (x.original_delivered ≡ 0) × (x.adapted_delivered ≡ 0) };

    ghost untouched_aside: { (taken : List ℕ) (s : Self) → untouched s ≡ true → aside taken s → taken ≡ [] };

    // and of any other one a byte was taken
    ghost touched_given: { (x : Seen) (head body taken : List ℕ) (s : Self) → untouched s ≡ false → has_given x head body taken s → 0 < length taken };

    ghost touched_aside: { (taken : List ℕ) (s : Self) → untouched s ≡ false → aside taken s → 0 < length taken };

    // if nothing is due, neither Usr nor Done may follow
    ghost rests_where: { (x : Seen) (head body taken : List ℕ) (s : Self) → has_given x head body taken s → gift s ≡ message → rests x s → x.closed ≡ false
        → (event : Event) → is_of_hop event ≡ true → Allows x event → ⊥ };
}
