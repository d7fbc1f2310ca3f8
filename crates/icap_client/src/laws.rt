//! What holds of all that was heard of a service and sent to it: each law is the contract of a function that does nothing.

ghost use Rattle.std.specs.Prelude.{◌≡◌, ◌≢◌, ◌↔◌, ℕ, ◌+◌, ◌<◌, List, [], ◌++◌, length, true, false, Bool};
ghost use Rattle.adapt_bytes.specs.declared.limits.TheConstants.{COUNT_LIMIT};
ghost use Rattle.trace_core.specs.declared.history.Plan.{Plan};
ghost use Rattle.trace_core.specs.declared.history.Point.{Point};
ghost use Rattle.trace_core.specs.declared.history.Event.{Event};
ghost use Rattle.trace_core.specs.declared.history.Seen.{Seen};
ghost use Rattle.trace_core.specs.History.{seen, is_plain, in_bytes, is_retry};
ghost use Rattle.trace_core.specs.Legal.{IsLegal};
ghost use Rattle.trace_core.specs.View.{after};
ghost use Rattle.icap_client.specs.HeadFront.{HasToWait};
ghost use Rattle.icap_client.specs.Heard.{Reader, HasHeard};
ghost use Rattle.icap_client.specs.Events.{is_of_replies, is_of_sending};
ghost use Rattle.icap_client.specs.RequestHead.{IsReadBack};
ghost use Rattle.icap_client.specs.RequestText.{IsFrontOfRequest, IsRequestText};
ghost use Rattle.icap_client.specs.Sending.{HasSent};
ghost use Rattle.chunk_writer.specs.Writer.{Writer, fresh, waiting};
ghost use Rattle.icap_client.specs.Refused.{Refuses};
ghost use Rattle.icap_client.specs.Replies.{Final, IsAnswer};
ghost use Rattle.adapt_sides.specs.declared.fault.ClientFault.{ClientFault};
ghost use Rattle.icap_client.specs.Reading.{ReadSide, SideHeard};
ghost use Rattle.icap_client.specs.Turns.{Service, ServiceSent, ServiceHeard, IsClean, is_reusable};
ghost use Rattle.icap_client.specs.Laws.{first_reader, IsWhole, WasSaid, AreSame};
ghost use Rattle.icap_client.specs.declared.stage.Stage.TheVariants as stages;

/// Nothing was heard before the first byte.
pub fn nothing_was_heard()
    ensures { (plan : Plan) (point : Point) → HasHeard (seen plan []) [] [] (first_reader point) }
{}

/// The events of the other sides leave what was heard as it is.
pub fn others_keep_what_was_heard()
    ensures { (x : Seen) (event : Event) (adapted read : List ℕ) (r : Reader) → is_of_replies event ≡ false
        → HasHeard x adapted read r → HasHeard (after x event) adapted read r }
{}

/// Once the reader is over, the bytes are a whole answer: a 100 or none, and then a 204, or a 200 with its heads and its body.
pub fn an_answer_is_whole()
    ensures { (x : Seen) (adapted read : List ℕ) (r : Reader) → r.stage ≡ stages.Over → HasHeard x adapted read r → IsWhole x adapted read r }
{}

/// How the reads cut a service's bytes doesn't matter: two sides that were given the same bytes, have room and framed what
/// can be framed of them, are equally far: their histories have the same responses, and equal bytes are left over.
pub fn cuts_do_not_matter()
    ensures { (x y : Seen) (xs ys read : List ℕ) (a b : ReadSide) (room more : ℕ) → b.reader.point ≡ a.reader.point → 0 < room → 0 < more
        → SideHeard x xs read a → HasToWait a.reader.stage a.raw room → SideHeard y ys read b → HasToWait b.reader.stage b.raw more
        → AreSame x y xs ys a b }
{}

/// Bytes are refused with one fault: what refuses them with one fault doesn't refuse them with another. Want of memory, which
/// any call may meet, is excepted.
pub fn refusals_have_one_fault()
    ensures { (fault other : ClientFault) (x : Seen) (adapted read raw : List ℕ) (r : Reader) → fault ≢ ClientFault.NoMemory → other ≢ ClientFault.NoMemory
        → HasHeard x adapted read r → Refuses fault x r.point r.stage raw → Refuses other x r.point r.stage raw → fault ≡ other }
{}

/// A service's bytes have one reading as a whole answer: one 100 or none, and one final response with one body.
pub fn answers_have_one_reading()
    ensures { (point : Point) (continued again : Bool) (final other : Final) (text : List ℕ)
        → IsAnswer point continued final text → IsAnswer point again other text → (continued ≡ again) × (final ≡ other) }
{}

/// What the service's wire took is a prefix of a whole request for what came of the body.
pub fn sent_is_a_front()
    ensures { (plan : Plan) (events : List Event) (head came taken : List ℕ) (w : Writer) → IsLegal plan events
        → is_plain plan.kind ≡ false → length came ≡ (seen plan events).received
        → HasSent head (seen plan events) came taken w → IsFrontOfRequest (seen plan events) head came taken }
{}

/// Nothing is sent before the first turn.
pub fn begins()
    ensures { (plan : Plan) (head : List ℕ) → HasSent head (seen plan []) [] []
        (fresh head) }
{}

/// The other sides' events leave what was sent as it is. Further body bytes come after those that came before.
pub fn others_keep()
    ensures { (head : List ℕ) (x : Seen) (event : Event) (came bytes taken : List ℕ) (w : Writer) → is_of_sending event ≡ false → is_retry event ≡ false
        → length came ≡ x.received → length bytes ≡ in_bytes event
        → HasSent head x came taken w → HasSent head (after x event) (came ++ bytes) taken w }
{}

/// A fresh reading side has read nothing and heard nothing.
pub fn a_side_begins()
    ensures { (plan : Plan) (point : Point) (s : ReadSide) → s.reader ≡ first_reader point → s.raw ≡ [] → SideHeard (seen plan []) [] [] s }
{}

/// The events of the other sides leave what was heard as it is, the raw bytes among it.
pub fn others_heard()
    ensures { (x : Seen) (event : Event) (adapted read : List ℕ) (s : ReadSide) → is_of_replies event ≡ false
        → SideHeard x adapted read s → SideHeard (after x event) adapted read s }
{}

/// Heard stands in the history just where a byte of a reply was read on this connection.
pub fn heard_says_a_byte()
    ensures { (x : Seen) (adapted read : List ℕ) (s : ReadSide) → SideHeard x adapted read s → ((x.heard ≡ true) ↔ (0 < length read)) }
{}

/// Once the reader is over, its tag, what the service found and its word on closing are those of the final response's ICAP head.
pub fn the_final_head_says()
    ensures { (x : Seen) (adapted read : List ℕ) (r : Reader) → r.stage ≡ stages.Over → HasHeard x adapted read r → WasSaid x read r }
{}

/// Once the last last chunk was fixed and nothing waits, the service's wire took just a whole request.
pub fn a_request_is_whole()
    ensures { (plan : Plan) (events : List Event) (head came taken : List ℕ) (w : Writer) → IsLegal plan events
        → (seen plan events).last_stop ≡ true → waiting w ≡ [] → length came ≡ (seen plan events).received
        → HasSent head (seen plan events) came taken w → IsRequestText (seen plan events) head came taken }
{}

/// If the service's connection may carry another request, all that was due of the request was taken, and just a whole
/// answer was read.
pub fn a_reusable_connection_is_clean()
    ensures { (x : Seen) (head came taken adapted read : List ℕ) (s : Service) → is_reusable s ≡ true
        → ServiceSent head x came taken s → ServiceHeard x adapted read s → IsClean x adapted read s }
{}

/// A server reads the list of a request's heads and body back as the layout with each head after the one before it, and the
/// body after them all (RFC 3507, section 4.4.1).
pub fn a_server_reads_the_list()
    ensures { (point : Point) (null : Bool) (req res : ℕ) → req + res < COUNT_LIMIT → IsReadBack point null req res }
{}
