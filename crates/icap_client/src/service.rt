//! The service's end of one transaction: both halves.

ghost use Rattle.std.specs.Prelude.{option_copied, ◌≡◌, ℕ, List, ◌+◌, ◌≤◌, ◌++◌, ◌∷◌, ◌↔◌, IsTrue, IfSome, is_some, IfOk, Err, true, false, Some, None, ◌⊎◌, [], length, map, max, string_bytes, ◌<◌, MatchOption};
ghost use Rattle.adapt_bytes.specs.declared.limits.TheConstants.{COUNT_LIMIT, MAX_HEAD};
ghost use Rattle.trace_core.specs.declared.history.Seen.{Seen};
ghost use Rattle.trace_core.specs.History.{seen, shows};
ghost use Rattle.wire_kit.specs.Past.{Past};
ghost use Rattle.chunk_writer.specs.Writer.{fresh, waiting};
ghost use Rattle.chunk_writer.specs.declared.next.TheConstants.{USUAL_CHUNK};
ghost use Rattle.adapt_sides.specs.declared.filling.TheConstants.{MAX_FILL};
ghost use Rattle.icap_client.specs.Heard.{KeepsHead};
ghost use Rattle.icap_client.specs.Carried.{carried_text};
ghost use Rattle.icap_client.specs.Said.{infection_in, tag_in, virus_in};
ghost use Rattle.icap_client.specs.Laws.{first_reader};
ghost use Rattle.icap_client.specs.Reading.{ReadTurn};
ghost use Rattle.icap_client.specs.Events.{after_all, MayCome};
ghost use Rattle.icap_client.specs.Sending.{KeepsUnsent, NothingDue, DropsText, KeepsOrDrops, KeepsNoText};
ghost use Rattle.icap_client.specs.RequestHead.{request_head};
ghost use Rattle.icap_client.specs.Turns.{ServiceSent, ServiceHeard, is_whole_request, is_reusable, is_answered, WriteTurn, Sends, Hears, RestsReading, HasFramed, events_of, is_flushed};

use crate::answered::is_answered;
use crate::due::{decide, has_last_stop, turn_of};
use crate::request::request_head;
use crate::said::Found;
use crate::side::ReplySide;
use crate::stage::Stage;
use adapt_sides::{ClientFault, Turn, WIRE_ROOM};
use chunk_writer::{ChunkWriter, USUAL_CHUNK, Wrote};
use encapsulated::Layout;
use span_tape::SpanTape;
use std::alloc::{AllocError, Global};
use std::marker::Model;
use std::net::Ipv4Addr;
use trace_core::{Event, Plan, Point, State};
use wire_kit::{Put, Wire};

/// Writes what is due, with one write of at most `most` body bytes, and notes whether the last Stop is fixed.
fn write_once<W: Wire>(
    writer: &mut ChunkWriter,
    last_stop: &mut bool,
    most: u64,
    state: &State,
    tape: &SpanTape,
    wire: &mut W,
    buffer: &mut [u8; WIRE_ROOM],
) -> Result<Turn, ClientFault>
    requires tape { KeepsUnsent (shows state.now) tape.now }
    requires some { 1 ≤ most }
    ensures turn { WriteTurn most (shows state.now) tape.now writer.old writer.new (W.past wire.old) (W.past wire.new) result }
    ensures last_stop { last_stop.new ≡ (after_all (shows state.now) (events_of result)).last_stop }
    ensures head { writer.new.head ≡ writer.old.head }
{
    // For the proof alone: a state's trace is legal.
    let _ = state.trace();
    let next = decide(state, writer, most);
    let wrote = writer.write(&next, tape, wire, buffer);
    let seen = state.seen();
    *last_stop = has_last_stop(&seen, wrote.ended, next.from + next.count);
    match wrote.answer {
        Some(Put::Fault) => Err(ClientFault::Device),
        Some(Put::Took(_)) => Ok(turn_of(Some(wrote.sent), wrote.ended)),
        Some(Put::Wait) => Ok(turn_of(None, false)),
        None => Ok(turn_of(None, wrote.ended)),
    }
}

/// The service's end of one transaction: it writes the request and reads the response, by turns of one write or read at most.
///
/// ```
/// let plan = Plan::new(Kind::Whole, true, false, Some(0), Point::Reqmod)?;
/// let state = State::begin(plan);
/// let head = b"GET / HTTP/1.1\r\nHost: h\r\n\r\n";
/// let mut side = ServiceSide::new(alloc, &plan, None, &[], b"s", 1344, b"/scan", head, &[])?;
/// let writes = vec![in alloc; WriteAnswer::Took(6)]?;
/// let mut wire = MemoryWire::new(alloc, Vec::new(alloc), Vec::new(alloc), writes)?;
/// let turn = side.write_turn(&state, &SpanTape::new(), &mut wire, &mut [0; WIRE_ROOM])?;
/// assert!(rt; turn.events.as_slice().is_empty());
/// assert_eq!(rt; wire.taken(), b"REQMOD".as_slice());
/// assert!(rt; !side.is_flushed() && !side.is_reusable());
/// ```
#[derive(Drop)]
pub struct ServiceSide {
    writer: ChunkWriter,
    replies: ReplySide,
    /// Whether the Stop is fixed after which nothing goes to the service.
    last_stop: bool,
    /// Whether a preview was answered, with no 100 before the answer.
    answered: bool,
    /// How many bytes of the body one turn writes at most.
    turn: u64,
}

impl Model for ServiceSide {
    ghost use Rattle.std.specs.Prelude.{◌≤◌};
    ghost use Rattle.icap_client.specs.Turns.{Service};

    ghost Value = { Service };

    ghost view = { λ s. record { writer = s.writer; replies = s.replies; last_stop = s.last_stop; answered = s.answered; turn = s.turn } };

    ghost invariant = { λ s. 1 ≤ s.turn };
}

impl ServiceSide {
    /// A request whose ICAP head, followed by the encapsulated heads, is this text. A turn writes [`USUAL_CHUNK`] bytes of the body
    /// at most.
    pub fn of_head(alloc: Global, point: Point, head: Vec<u8>) -> ServiceSide
        ensures writer { result.writer ≡ fresh head.items }
        ensures reader { result.replies.reader ≡ first_reader point }
        ensures raw { result.replies.raw ≡ [] }
        ensures fault { result.replies.fault ≡ None }
        ensures room { result.replies.room ≡ 0 }
        ensures marks { (result.last_stop ≡ false) × (result.answered ≡ false) }
        ensures turn { result.turn ≡ USUAL_CHUNK }
    {
        ServiceSide {
            writer: ChunkWriter::new(head),
            replies: ReplySide::new(alloc, point),
            last_stop: false,
            answered: false,
            turn: USUAL_CHUNK,
        }
    }

    /// The same side, of whose body one turn writes at most this many bytes.
    pub fn with_turn(mut self, turn: u64) -> ServiceSide
        requires { 1 ≤ turn }
        ensures { result ≡ record self { turn = turn } }
    {
        self.turn = turn;
        self
    }

    /// A request that offers a message of this plan to the service there, which is told the user's address `from`, where there is
    /// one, and the field lines `carried`. `req` and `res` are the encapsulated heads; at REQMOD `res` has no place.
    pub fn new(
        alloc: Global,
        plan: &Plan,
        from: Option<Ipv4Addr>,
        carried: &[u8],
        host: &[u8],
        port: u16,
        path: &[u8],
        req: &[u8],
        res: &[u8],
    ) -> Result<ServiceSide, AllocError>
        requires { length req.now + length res.now < COUNT_LIMIT }
        ensures writer { IfOk result (λ side. side.writer ≡ fresh (request_head plan.now from carried.now host.now port path.now req.now res.now)) }
        ensures reader { IfOk result (λ side. side.replies.reader ≡ first_reader plan.now.point) }
        ensures raw { IfOk result (λ side. side.replies.raw ≡ []) }
        ensures fault { IfOk result (λ side. side.replies.fault ≡ None) }
        ensures room { IfOk result (λ side. side.replies.room ≡ 0) }
        ensures marks { IfOk result (λ side. (side.last_stop ≡ false) × (side.answered ≡ false)) }
        ensures turn { IfOk result (λ side. side.turn ≡ USUAL_CHUNK) }
    {
        let head = request_head(alloc, plan, from, carried, host, port, path, req, res)?;
        Ok(ServiceSide::of_head(alloc, plan.point, head))
    }

    /// Begins the request anew, for a fresh connection: its text is that of the whole request again, nothing is read, and no
    /// fault is kept. It takes no memory.
    pub fn restart(&mut self)
        ensures writer { self.new.writer ≡ fresh self.old.writer.head }
        ensures reader { self.new.replies.reader ≡ first_reader self.old.replies.reader.point }
        ensures raw { self.new.replies.raw ≡ [] }
        ensures fault { self.new.replies.fault ≡ None }
        ensures room { self.new.replies.room ≡ 0 }
        ensures marks { (self.new.last_stop ≡ false) × (self.new.answered ≡ false) }
        ensures turn { self.new.turn ≡ self.old.turn }
    {
        self.writer.restart();
        self.replies.restart();
        self.last_stop = false;
        self.answered = false;
    }

    /// The fault that each turn answers, if there is one.
    pub fn fault(&self) -> Option<ClientFault>
        ensures { result ≡ self.now.replies.fault }
    {
        self.replies.fault()
    }

    /// Whether the request is whole: all of it is out; or all of the preview is, and it was answered without a 100.
    pub fn request_whole(&self) -> bool
        ensures { result ≡ is_whole_request self.now }
    {
        flushed(&self.writer) && (self.last_stop || self.answered)
    }

    /// Whether the service's connection may carry another request after this one: the request is whole, the final response
    /// was read to its end and no byte after it, its head doesn't say that the connection closes, and no fault stands.
    pub fn is_reusable(&self) -> bool
        ensures { result ≡ is_reusable self.now }
    {
        self.request_whole() && self.replies.is_done()
    }

    /// The raw bytes left over.
    pub fn raw_left(&self) -> usize
        ensures left { result ≡ length self.now.replies.raw }
        ensures limit { result ≤ MAX_FILL }
    {
        self.replies.raw_left()
    }

    /// The layout of a 200 and the adapted message's head, once both were read.
    pub fn adapted_head(&self) -> Option<(Layout, &[u8])>
        ensures { MatchOption result (self.now.replies.reader.layout ≡ None) (λ found. (self.now.replies.reader.layout ≡ Some found.0) × (found.1.now ≡ self.now.replies.reader.head)) }
    {
        self.replies.adapted_head()
    }

    /// Whether the final response was read to its end.
    pub fn reply_whole(&self) -> bool
        ensures { IsTrue result ↔ self.now.replies.reader.stage ≡ Stage.Over }
    {
        self.replies.reply_whole()
    }

    /// The tag that the last answer's head had.
    pub fn tag(&self) -> Option<&[u8]>
        ensures { option_copied result ≡ tag_in self.now.replies.reader.remarks }
    {
        self.replies.tag()
    }

    /// What the last answer's head says that the service found in the message: of each value the first 256 bytes.
    pub fn found(&self) -> Found<'_>
        ensures { (option_copied result.infection ≡ infection_in self.now.replies.reader.remarks) × (option_copied result.virus ≡ virus_in self.now.replies.reader.remarks) }
    {
        self.replies.found()
    }

    /// The lines of the last answer's head that have one of these names, ASCII case ignored, in their order, with CRLF after each.
    pub fn carried(&self, alloc: Global, names: &[String]) -> Result<Vec<u8>, AllocError>
        ensures { IfOk result (λ text. text.items ≡ carried_text (map string_bytes names.now) self.now.replies.reader.remarks) }
    {
        self.replies.carried(alloc, names)
    }

    /// Whether the last answer's head says that the connection closes.
    pub fn closes(&self) -> bool
        ensures { result ≡ self.now.replies.reader.closes }
    {
        self.replies.closes()
    }

    /// Whether all text that was fixed is out.
    pub fn is_flushed(&self) -> bool
        ensures { result ≡ is_flushed self.now.writer }
    {
        flushed(&self.writer)
    }

    /// The memory that the text of the request's heads holds, in bytes: 0 once it was dropped.
    pub fn request_room(&self) -> usize
        ensures { self.now.writer.head ≡ [] → result ≡ 0 }
    {
        self.writer.head_room()
    }

    /// Drops the text of the heads that is out, unless the request may begin anew.
    fn drop_text(&mut self, may_retry: bool)
        ensures replies { self.new.replies ≡ self.old.replies }
        ensures last_stop { self.new.last_stop ≡ self.old.last_stop }
        ensures answered { self.new.answered ≡ self.old.answered }
        ensures turn { self.new.turn ≡ self.old.turn }
        ensures writer { DropsText self.old.writer self.new.writer }
        ensures heads { KeepsOrDrops self.old.writer self.new.writer }
        ensures kept { may_retry ≡ true → self.new.writer.head ≡ self.old.writer.head }
        ensures gone { may_retry ≡ false → KeepsNoText self.new.writer }
    {
        if !may_retry {
            self.writer.drop_text();
        }
    }

    /// Writes what is due, with one write at most. The caller steps the events, in their order.
    pub fn write_turn<W: Wire>(
        &mut self,
        state: &State,
        tape: &SpanTape,
        wire: &mut W,
        buffer: &mut [u8; WIRE_ROOM],
    ) -> Result<Turn, ClientFault>
        requires { KeepsUnsent (shows state.now) tape.now }
        ensures reader { self.new.replies.reader ≡ self.old.replies.reader }
        ensures raw { self.new.replies.raw ≡ self.old.replies.raw }
        ensures room { self.new.replies.room ≡ self.old.replies.room }
        ensures answered { self.new.answered ≡ self.old.answered }
        ensures bytes { self.new.turn ≡ self.old.turn }

        // One write at most, and what each answer of it means. A turn that goes well leaves no fault, and one that fails keeps its
        // fault (the `fault` of `Sends`).
        ensures turn { self.old.replies.fault ≡ None → WriteTurn self.old.turn (shows state.now) tape.now self.old.writer self.new.writer (W.past wire.old) (W.past wire.new) result }
        ensures sends { Sends (shows state.now) tape.now
            (λ head x came taken. ServiceSent head x came taken self.old) (λ head x came taken. ServiceSent head x came taken self.new)
            self.old.replies.fault self.new.replies.fault (NothingDue (shows state.now) self.new.writer) (W.past wire.old) (W.past wire.new) result }

        // Where it keeps a fault the wire isn't touched again.
        ensures untouched { IfSome self.old.replies.fault (λ fault. (p : Past) → W.past wire.old p → W.past wire.new p) }

        // The heads' text is kept as long as the request may begin anew; once it may not, what is out is dropped. No other text
        // comes in its place.
        ensures heads { KeepsOrDrops self.old.writer self.new.writer }
        ensures kept { MayCome (shows state.now) Event.Retry → self.new.writer.head ≡ self.old.writer.head }
        ensures gone { IfOk result (λ _. (MayCome (shows state.now) Event.Retry → ⊥) → KeepsNoText self.new.writer) }
    {
        if let Some(fault) = self.replies.fault() {
            return Err(fault);
        }
        let most = self.turn;
        match write_once(
            &mut self.writer,
            &mut self.last_stop,
            most,
            state,
            tape,
            wire,
            buffer,
        ) {
            Ok(turn) => {
                self.drop_text(state.may(Event::Retry));
                Ok(turn)
            }
            Err(fault) => {
                self.replies.keep(fault);
                Err(fault)
            }
        }
    }

    /// Reads what the service answers, with one read at most. The bytes of the adapted body go to the beginning of `out`; the
    /// events give their number, and the caller steps them.
    pub fn read_turn<W: Wire>(
        &mut self,
        state: &State,
        wire: &mut W,
        out: &mut [u8],
        buffer: &mut [u8; WIRE_ROOM],
    ) -> Result<Turn, ClientFault>
        ensures writer { DropsText self.old.writer self.new.writer }
        ensures last_stop { self.new.last_stop ≡ self.old.last_stop }
        ensures answered { IfOk result (λ turn. self.new.answered ≡ is_answered (after_all (shows state.now) turn.events.items)) }
        ensures head { KeepsHead (shows state.now) self.old.replies.reader self.new.replies.reader }
        ensures bytes { self.new.turn ≡ self.old.turn }

        // What the wire gave, what was framed, and why bytes are refused. A turn that goes well leaves no fault, and one that fails
        // keeps its fault (the `fault` of `Hears`).
        ensures turn { self.old.replies.fault ≡ None → ReadTurn (shows state.now) (is_flushed self.old.writer) (length out.old) self.old.replies self.new.replies (W.past wire.old) (W.past wire.new) out.new result }
        ensures hears { Hears (shows state.now)
            (λ x adapted read. ServiceHeard x adapted read self.old) (λ x adapted read. ServiceHeard x adapted read self.new)
            self.old.replies.fault self.new.replies.fault (RestsReading (shows state.now) (length out.old) self.new) (HasFramed (length out.old) self.new) (W.past wire.old) (W.past wire.new) out.new result }

        // Where it keeps a fault the wire isn't touched again.
        ensures untouched { IfSome self.old.replies.fault (λ fault. (p : Past) → W.past wire.old p → W.past wire.new p) }

        // Raw bytes that are kept after a turn are those of before, or no more than a head may have, or than the turn has room for; no
        // empty room is kept.
        ensures few { length self.old.replies.raw < length self.new.replies.raw → length self.new.replies.raw ≤ max MAX_HEAD (length out.old) }
        ensures empty { self.old.replies.fault ≡ None → self.new.replies.raw ≡ [] → self.new.replies.room ≡ 0 }

        // The heads' text is kept as long as the request may begin anew, which it may not after a byte of a reply; then what is
        // out is dropped. No other text comes in its place.
        ensures heads { KeepsOrDrops self.old.writer self.new.writer }
        ensures kept { MayCome (shows state.now) Event.Retry → self.new.writer.head ≡ self.old.writer.head }
        ensures gone { IfOk result (λ _. (MayCome (shows state.now) Event.Retry → ⊥) → KeepsNoText self.new.writer) }
    {
        let all_sent = flushed(&self.writer);
        match self.replies.read_turn(state, all_sent, wire, out, buffer) {
            Ok(turn) => {
                self.answered = is_answered(&state.seen(), turn.events.as_slice());
                self.drop_text(state.may(Event::Retry));
                Ok(turn)
            }
            Err(fault) => Err(fault),
        }
    }
}

/// Whether all text that was fixed is out.
fn flushed(writer: &ChunkWriter) -> bool
    ensures { result ≡ is_flushed writer.now }
{
    writer.is_out()
}
