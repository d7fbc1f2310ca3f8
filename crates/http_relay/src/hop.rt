//! The next hop's end of one transaction: one message, or the proxy's own refusal (RFC 9112, sections 6 and 7).

ghost use Rattle.std.specs.Prelude.{◌≡◌, ◌≤◌, ℕ, List, IfSome, IfErr, OnOk, Err, IsTrue, true, false, Some, None, [], ◌⊎◌, not, length};
ghost use Rattle.trace_core.specs.declared.history.Seen.{Seen};
ghost use Rattle.trace_core.specs.History.{shows};
ghost use Rattle.chunk_writer.specs.Writer.{fresh, waiting, KeepsNoText};
ghost use Rattle.chunk_writer.specs.declared.next.TheConstants.{USUAL_CHUNK};
ghost use Rattle.http_side.specs.Refusals.{is_own_status, refusal};
ghost use Rattle.adapt_sides.specs.Tapes.{KeepsUndelivered};
ghost use Rattle.adapt_sides.specs.Turns.{wire_fault};
ghost use Rattle.http_relay.specs.Giving.{Hop, HasGiven, IsAside, DropsText, is_flushed, is_whole, is_empty, stage_then};
ghost use Rattle.adapt_sides.specs.Tapes.{IsUndelivered};
ghost use Rattle.http_relay.specs.Writing.{WriteTurn};

use crate::due::{decide, turn_of};
use adapt_sides::{RelayFault, Turn, WIRE_ROOM};
use chunk_writer::{ChunkWriter, USUAL_CHUNK};
use http_side::{Framing, own_refusal};
use span_tape::SpanTape;
use std::alloc::Global;
use std::marker::Model;
use trace_core::State;
use wire_kit::{Put, Wire};

/// What the next hop gets.
#[derive(Clone, Copy)]
pub enum HopStage {
    /// Nothing is known of it yet.
    Empty,
    /// A message.
    Message,
    /// A message, the end of whose body is fixed.
    Whole,
    /// The proxy's own refusal with this status.
    Refusal(u16),
}

/// The fault that outlasts a refusal in the message's place: the wire has failed.
fn wire_fault(fault: Option<RelayFault>) -> Option<RelayFault>
    ensures { result ≡ wire_fault fault }
{
    match fault {
        Some(RelayFault::Device) => Some(RelayFault::Device),
        _ => None,
    }
}

/// The next hop's end of one transaction: it writes one message, or the proxy's own refusal.
///
/// ```
/// let mut hop = HopWriter::new(alloc);
/// assert!(rt; hop.is_idle());
/// hop.begin(b"HTTP/1.1 200 OK\r\n\r\n".to_vec(alloc)?, Framing::Length(2));
/// assert!(rt; !hop.is_idle() && hop.untouched());
/// // No byte has gone out, so a refusal may still take the message's place.
/// hop.refuse(502);
/// assert!(rt; !hop.is_out());
/// ```
#[derive(Drop)]
pub struct HopWriter {
    writer: ChunkWriter,
    framing: Framing,
    stage: HopStage,
    touched: bool,
    fault: Option<RelayFault>,
    /// How many bytes of the body one turn writes at most.
    turn: u64,
}

impl Model for HopWriter {
    ghost use Rattle.std.specs.Prelude.{◌≤◌};
    ghost use Rattle.http_relay.specs.Giving.{Hop};

    ghost Value = { Hop };

    ghost view = { λ h. record { writer = h.writer; framing = h.framing; stage = h.stage; touched = h.touched; fault = h.fault; turn = h.turn } };

    ghost invariant = { λ h. 1 ≤ h.turn };
}

impl HopWriter {
    /// A next hop to which nothing is written yet. A turn writes [`USUAL_CHUNK`] bytes of the body at most.
    pub fn new(alloc: Global) -> HopWriter
        ensures shows { result ≡ record { writer = fresh []; framing = Framing.None; stage = HopStage.Empty; touched = false; fault = None; turn = USUAL_CHUNK } }
        ensures given { (x : Seen) (head body : List ℕ) → IsUndelivered x → HasGiven x head body [] result }
        ensures aside { IsAside [] result }
    {
        HopWriter {
            writer: ChunkWriter::new(Vec::new(alloc)),
            framing: Framing::None,
            stage: HopStage::Empty,
            touched: false,
            fault: None,
            turn: USUAL_CHUNK,
        }
    }

    /// The same next hop, of whose body one turn writes at most this many bytes.
    pub fn with_turn(mut self, turn: u64) -> HopWriter
        requires { 1 ≤ turn }
        ensures shows { result ≡ record self { turn = turn } }
        ensures given { (x : Seen) (head body taken : List ℕ) → HasGiven x head body taken self → HasGiven x head body taken result }
        ensures aside { (taken : List ℕ) → IsAside taken self → IsAside taken result }
    {
        self.turn = turn;
        self
    }

    /// Begins the chosen message: its forwarded head, and how its body goes.
    pub fn begin(&mut self, head: Vec<u8>, framing: Framing)
        requires { self.old.stage ≡ HopStage.Empty }
        ensures shows { self.new ≡ record { writer = fresh head.items; framing = framing; stage = HopStage.Message; touched = self.old.touched; fault = self.old.fault; turn = self.old.turn } }
        ensures given { (x : Seen) (none body taken : List ℕ) → HasGiven x none body taken self.old → HasGiven x head.items body taken self.new }
    {
        self.writer = ChunkWriter::new(head);
        self.framing = framing;
        self.stage = HopStage::Message;
    }

    /// Puts the proxy's own refusal in the message's place. No byte has gone out. A fault of the message ends with it; one of the
    /// wire stays. It takes no memory.
    pub fn refuse(&mut self, status: u16)
        requires untouched { self.old.touched ≡ false }
        requires own { IsTrue (is_own_status status) }
        ensures shows { self.new ≡ record { writer = fresh (refusal status); framing = self.old.framing; stage = HopStage.Refusal status; touched = false; fault = wire_fault self.old.fault; turn = self.old.turn } }
        ensures aside { IsAside [] self.new }
    {
        self.writer = ChunkWriter::constant(own_refusal(status));
        self.stage = HopStage::Refusal(status);
        self.fault = wire_fault(self.fault);
    }

    /// Whether no byte has gone out.
    pub fn untouched(&self) -> bool
        ensures { result ≡ not self.now.touched }
    {
        !self.touched
    }

    /// Whether nothing is written yet: neither a message nor a refusal was begun.
    pub fn is_idle(&self) -> bool
        ensures { result ≡ is_empty self.now.stage }
    {
        matches!(self.stage, HopStage::Empty)
    }

    /// The fault that each turn answers, if there is one.
    pub fn fault(&self) -> Option<RelayFault>
        ensures { result ≡ self.now.fault }
    {
        self.fault
    }

    /// Whether all that is fixed is out: the whole refusal, where one was put in the message's place.
    pub fn is_out(&self) -> bool
        ensures { result ≡ is_flushed self.now }
    {
        self.writer.is_out()
    }

    /// Drops the head, once all of it is out: its memory is given back.
    fn drop_text(&mut self)
        ensures still { DropsText self.old self.new }
        ensures gone { KeepsNoText self.new.writer }
    {
        self.writer.drop_text();
    }

    /// Notes whether a turn fixed the body's end, and says whether the whole message is out with it.
    fn count_written(&mut self, sent: u64, ended: bool, may: bool) -> bool
        ensures stage { self.new ≡ record { writer = self.old.writer; framing = self.old.framing; stage = stage_then self.old.stage ended; touched = self.old.touched; fault = self.old.fault; turn = self.old.turn } }
        ensures done { result ≡ true → (stage_then self.old.stage ended ≡ HopStage.Whole) × (waiting self.old.writer ≡ []) × ((ended ≡ true) ⊎ ((may ≡ true) × (sent ≡ 0))) }
        ensures ended { result ≡ false → waiting self.old.writer ≡ [] → ended ≡ true → ⊥ }
        ensures may { result ≡ false → waiting self.old.writer ≡ [] → is_whole self.old.stage ≡ true → sent ≡ 0 → may ≡ true → ⊥ }
    {
        if ended {
            self.stage = HopStage::Whole;
        }
        matches!(self.stage, HopStage::Whole)
            && self.writer.is_out()
            && (ended || (may && sent == 0))
    }

    /// Writes what is due of the message or of the refusal, with one write at most. The caller steps the events, in their
    /// order; Done stands only once the message's whole text is out.
    ///
    /// `Err(Device)` if the wire failed in this call; `Err(Length)` if the body that came has another length than the
    /// head gives. A fault stays.
    pub fn write_turn<W: Wire>(
        &mut self,
        state: &State,
        tape: &SpanTape,
        wire: &mut W,
        buffer: &mut [u8; WIRE_ROOM],
    ) -> Result<Turn, RelayFault>
        requires { KeepsUndelivered (shows state.now) tape.now }
        ensures turn { WriteTurn (shows state.now) tape.now self.old self.new (W.past wire.old) (W.past wire.new) result }

        // A side that failed keeps its fault, and answers it again; a turn that goes well leaves none.
        ensures faulted { IfSome self.old.fault (λ fault. result ≡ Err fault) }
        ensures keeps { IfErr result (λ fault. self.new.fault ≡ Some fault) }
        ensures sound { OnOk result (self.new.fault ≡ None) }

        // A head that is out is kept no longer.
        ensures gone { OnOk result (KeepsNoText self.new.writer) }
        ensures bytes { self.new.turn ≡ self.old.turn }
    {
        if let Some(fault) = self.fault {
            return Err(fault);
        }
        // For the proof alone: a state's trace is legal.
        let _ = state.trace();
        let may = state.sendable().done;
        let next = match decide(state, &self.writer, self.framing, self.stage, self.turn) {
            Some(next) => next,
            None => {
                self.fault = Some(RelayFault::Length);
                return Err(RelayFault::Length);
            }
        };
        let wrote = self.writer.write(&next, tape, wire, buffer);
        match wrote.answer {
            Some(Put::Fault) => {
                self.fault = Some(RelayFault::Device);
                Err(RelayFault::Device)
            }
            Some(Put::Wait) => {
                self.drop_text();
                Ok(turn_of(None, false))
            }
            Some(Put::Took(_)) => {
                self.touched = true;
                let done = self.count_written(wrote.sent, wrote.ended, may);
                self.drop_text();
                Ok(turn_of(Some(wrote.sent), done))
            }
            None => {
                let done = self.count_written(0, wrote.ended, may);
                self.drop_text();
                Ok(turn_of(None, done))
            }
        }
    }
}
