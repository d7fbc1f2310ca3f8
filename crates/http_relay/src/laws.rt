//! What holds of every message that is read, or given, by turns.

ghost use Rattle.std.specs.Prelude.{◌≡◌, Bool, List, ℕ, [], ◌∷◌, ◌++◌, ◌≤◌, IfSome, length, take, false};
ghost use Rattle.trace_core.specs.declared.history.Seen.{Seen};
ghost use Rattle.trace_core.specs.declared.history.Plan.{Plan};
ghost use Rattle.trace_core.specs.declared.history.Event.{Event};
ghost use Rattle.trace_core.specs.History.{seen};
ghost use Rattle.trace_core.specs.Legal.{IsLegal};
ghost use Rattle.chunk_writer.specs.Cut.{IsPrefixOf};
ghost use Rattle.chunk_writer.specs.Writer.{waiting};
ghost use Rattle.http_side.specs.Refusals.{refusal};
ghost use Rattle.http_side.specs.Heads.{RequestParts, ResponseParts};
ghost use Rattle.http_side.specs.Requests.{IsRead};
ghost use Rattle.http_side.specs.Responses.{IsResponseRead};
ghost use Rattle.http_relay.specs.declared.side.SourceSide.{SourceSide};
ghost use Rattle.http_relay.specs.declared.side.head.Asks.TheVariants as asks;
ghost use Rattle.http_relay.specs.Judging.{HasNoHead};
ghost use Rattle.http_relay.specs.Reading.{Begins, SideRead};
ghost use Rattle.http_relay.specs.declared.hop.HopStage.TheVariants as at;
ghost use Rattle.trace_core.specs.Turns.{is_of_hop};
ghost use Rattle.http_relay.specs.Message.{IsFrontOfMessage, IsMessage, length_of};
ghost use Rattle.adapt_sides.specs.Tapes.{chosen_delivered, chosen_received};
ghost use Rattle.http_relay.specs.Giving.{Hop, HasGiven, IsAside};
ghost use Rattle.adapt_sides.specs.Tapes.{IsUndelivered};

/// Once a turn at the head answers that it was read, a message of each plan begins there: nothing of its body was reported yet.
pub fn a_message_begins()
    ensures { (plan : Plan) (read : List ℕ) (s : SourceSide) → Begins read s → SideRead (seen plan []) [] read false s }
{}

/// What the next hop took is a prefix of one message with the head that was begun. The body of that message begins with the
/// bytes that came, unless they pass the length that the framing gives; in any case it begins with those that went out. Once
/// the message's end is fixed, it begins with all that came; once nothing waits either, the next hop took that message whole.
pub fn given_is_a_front()
    ensures front { (x : Seen) (head body taken : List ℕ) (h : Hop) → h.stage ≡ at.Message → length body ≡ chosen_received x
        → IfSome (length_of h.framing) (λ n. chosen_received x ≤ n)
        → HasGiven x head body taken h → IsFrontOfMessage h.framing head body taken }
    ensures delivered { (x : Seen) (head body taken : List ℕ) (h : Hop) → h.stage ≡ at.Message → length body ≡ chosen_received x
        → HasGiven x head body taken h → IsFrontOfMessage h.framing head (take (chosen_delivered x) body) taken }
    ensures fixed { (x : Seen) (head body taken : List ℕ) (h : Hop) → h.stage ≡ at.Whole → length body ≡ chosen_received x
        → HasGiven x head body taken h → IsFrontOfMessage h.framing head body taken }
    ensures whole { (x : Seen) (head body taken : List ℕ) (h : Hop) → h.stage ≡ at.Whole → length body ≡ chosen_received x
        → HasGiven x head body taken h → waiting h.writer ≡ [] → IsMessage h.framing head body taken }
    ensures empty { (x : Seen) (head body taken : List ℕ) (h : Hop) → h.stage ≡ at.Empty
        → HasGiven x head body taken h → taken ≡ [] }
{}

/// While a refusal is written, what was taken is a prefix of it alone, and all of it once nothing waits; no message was given.
pub fn refusal_goes_alone()
    ensures front { (status : ℕ) (taken : List ℕ) (h : Hop) → h.stage ≡ at.Refusal status
        → IsAside taken h → IsPrefixOf taken (refusal status) }
    ensures whole { (status : ℕ) (taken : List ℕ) (h : Hop) → h.stage ≡ at.Refusal status
        → IsAside taken h → waiting h.writer ≡ [] → taken ≡ refusal status }
    ensures no_message { (status : ℕ) (x : Seen) (head body taken : List ℕ) (h : Hop) → h.stage ≡ at.Refusal status
        → HasGiven x head body taken h → ⊥ }
{}

/// Before a message is begun nothing was taken of one, and that is all that is known: it may still be any message. While no
/// byte went out, no byte of a body did.
pub fn nothing_before_the_message()
    ensures given { (x : Seen) (head body taken : List ℕ) (h : Hop) → h.stage ≡ at.Empty
        → IsAside taken h → IsUndelivered x → HasGiven x head body taken h }
    ensures aside { (x : Seen) (head body taken : List ℕ) (h : Hop) → h.stage ≡ at.Empty
        → HasGiven x head body taken h → IsAside taken h }
    ensures untouched { (x : Seen) (head body taken : List ℕ) (h : Hop) → h.touched ≡ false
        → HasGiven x head body taken h → (taken ≡ []) × IsUndelivered x }
    ensures untouched_aside { (taken : List ℕ) (h : Hop) → h.touched ≡ false → IsAside taken h → taken ≡ [] }
{}

/// The other sides' events leave what was given as it is, the choice of the message among them. Further body bytes of the
/// chosen message come after those that came before.
pub fn other_events_keep_what_was_given()
    ensures { (plan : Plan) (events : List Event) (event : Event) (head body more taken : List ℕ) (h : Hop) → IsLegal plan (event ∷ events)
        → is_of_hop event ≡ false → length body ≡ chosen_received (seen plan events)
        → HasGiven (seen plan events) head body taken h → HasGiven (seen plan (event ∷ events)) head (body ++ more) taken h }
{}

/// After a turn at the head that answers that more is to come, the raw bytes have no head yet.
pub fn no_head_is_missed()
    ensures requests { (s : SourceSide) (r : RequestParts) (len : ℕ) → s.asks ≡ asks.Request → HasNoHead s
        → IsRead false s.raw.items r len → ⊥ }
    ensures responses { (s : SourceSide) (to_head : Bool) (r : ResponseParts) (len : ℕ) → s.asks ≡ asks.Response to_head → HasNoHead s
        → IsResponseRead to_head s.raw.items r len → ⊥ }
{}
