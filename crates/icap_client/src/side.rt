//! The reading half of the service's side: the reader over a wire.

ghost use Rattle.std.specs.Prelude.{option_copied, is_none, not, ◌&&◌, ◌==◌, ◌≡◌, ◌<◌, ◌≤◌, ◌↔◌, [], length, map, max, string_bytes, take, IsTrue, IfOk, IfErr, IfSome, OnOk, None, Some, Bool, true, false, Err, MatchOption};
ghost use Rattle.adapt_bytes.specs.declared.limits.TheConstants.{MAX_HEAD};
ghost use Rattle.trace_core.specs.History.{seen, shows};
ghost use Rattle.icap_client.specs.Events.{MayCome, ad_sum};
ghost use Rattle.icap_client.specs.HeadFront.{HasToWait, IsHeadFront};
ghost use Rattle.icap_client.specs.Heard.{KeepsLimits, KeepsHead};
ghost use Rattle.icap_client.specs.Carried.{carried_text};
ghost use Rattle.icap_client.specs.Said.{infection_in, tag_in, virus_in};
ghost use Rattle.icap_client.specs.Laws.{first_reader};
ghost use Rattle.icap_client.specs.Refused.{Refuses};
ghost use Rattle.icap_client.specs.Reading.{ReadSide, GivesBack, SideHears, MayRead, NothingToRead, ReadTurn};
ghost use Rattle.adapt_sides.specs.Filling.{IsFilled};
ghost use Rattle.adapt_sides.specs.declared.filling.TheConstants.{MAX_FILL};
ghost use Rattle.icap_client.specs.Turns.{is_over};
ghost use Rattle.wire_kit.specs.Past.{Past};

use crate::events::{Framed, event_list};
use crate::kept::Kept;
use crate::reader::ReplyReader;
use crate::said::Found;
use crate::stage::Stage;
use adapt_sides::{ClientFault, Filled, MAX_READ, Turn, WIRE_ROOM, body_read};
use arrayvec::ArrayVec;
use encapsulated::Layout;
use std::alloc::{AllocError, Global};
use std::marker::Model;
use trace_core::{Event, Kind, Point, State};
use wire_kit::Wire;

/// Whether the service may answer now.
fn may_read(state: &State, all_sent: bool) -> bool
    ensures { IsTrue result ↔ MayRead (shows state.now) all_sent }
{
    let seen = state.seen();
    match seen.plan.kind {
        Kind::Preview(_) => seen.continued || (seen.stopped && all_sent),
        Kind::Plain | Kind::Whole => true,
    }
}

/// Whether all bytes were judged to be a prefix of a response's head.
fn awaits_more(reader: &ReplyReader, heard: &Framed) -> bool
    ensures none { result ≡ true → heard.now.events.items ≡ [] }
    ensures stage { result ≡ true → reader.now.stage ≡ Stage.Replies }
{
    heard.events.as_slice().is_empty() && reader.awaits_reply()
}

/// The reading half of the service's side.
#[derive(Drop)]
pub struct ReplySide {
    reader: ReplyReader,
    raw: Kept,
    fault: Option<ClientFault>,
}

impl Model for ReplySide {
    ghost use Rattle.icap_client.specs.Reading.{ReadSide};

    ghost Value = { ReadSide };

    ghost view = { λ s. record { reader = s.reader; raw = s.raw.bytes; fault = s.fault; room = s.raw.room } };
}

impl ReplySide {
    ghost use Rattle.icap_client.specs.Reading.{CameOf};

    /// A side before the first byte of a response.
    pub fn new(alloc: Global, point: Point) -> ReplySide
        ensures raw { result.raw ≡ [] }
        ensures fault { result.fault ≡ None }
        ensures room { result.room ≡ 0 }
        ensures reader { result.reader ≡ first_reader point }
    {
        ReplySide {
            reader: ReplyReader::new(alloc, point),
            raw: Kept::new(alloc),
            fault: None,
        }
    }

    /// The side before the first byte of another connection's responses: without raw bytes, and without a fault.
    pub(crate) fn restart(&mut self)
        ensures reader { self.new.reader ≡ first_reader self.old.reader.point }
        ensures raw { self.new.raw ≡ [] }
        ensures fault { self.new.fault ≡ None }
        ensures room { self.new.room ≡ 0 }
    {
        self.reader.restart();
        self.raw = Kept::new(self.reader.allocator());
        self.fault = None;
    }

    /// The raw bytes left over.
    pub fn raw_left(&self) -> usize
        ensures left { result ≡ length self.now.raw }
        ensures limit { result ≤ MAX_FILL }
    {
        self.raw.len()
    }

    /// The layout of a 200 and the adapted message's head, once both were read.
    pub fn adapted_head(&self) -> Option<(Layout, &[u8])>
        ensures { MatchOption result (self.now.reader.layout ≡ None) (λ found. (self.now.reader.layout ≡ Some found.0) × (found.1.now ≡ self.now.reader.head)) }
    {
        self.reader.adapted_head()
    }

    /// The tag that the last answer's head had.
    pub fn tag(&self) -> Option<&[u8]>
        ensures { option_copied result ≡ tag_in self.now.reader.remarks }
    {
        self.reader.tag()
    }

    /// What the last answer's head says that the service found in the message: of each value the first 256 bytes.
    pub fn found(&self) -> Found<'_>
        ensures { (option_copied result.infection ≡ infection_in self.now.reader.remarks) × (option_copied result.virus ≡ virus_in self.now.reader.remarks) }
    {
        self.reader.found()
    }

    /// The lines of the last answer's head that have one of these names.
    pub fn carried(&self, alloc: Global, names: &[String]) -> Result<Vec<u8>, AllocError>
        ensures { IfOk result (λ text. text.items ≡ carried_text (map string_bytes names.now) self.now.reader.remarks) }
    {
        self.reader.carried(alloc, names)
    }

    /// Whether the last answer's head says that the connection closes.
    pub fn closes(&self) -> bool
        ensures { result ≡ self.now.reader.closes }
    {
        self.reader.closes()
    }

    /// The fault that stays.
    pub(crate) fn fault(&self) -> Option<ClientFault>
        ensures { result ≡ self.now.fault }
    {
        self.fault
    }

    /// Keeps a fault of the writing half.
    pub(crate) fn keep(&mut self, fault: ClientFault)
        ensures { self.new ≡ record self.old { fault = Some fault } }
    {
        self.fault = Some(fault);
    }

    /// Whether the final response was read to its end.
    pub fn reply_whole(&self) -> bool
        ensures { IsTrue result ↔ self.now.reader.stage ≡ Stage.Over }
    {
        self.reader.is_over()
    }

    /// Whether the final response was read to its end and no byte after it, doesn't say that the connection closes, and no
    /// fault stands.
    pub(crate) fn is_done(&self) -> bool
        ensures { result ≡ (is_over self.now.reader.stage && ((length self.now.raw == 0) && (not self.now.reader.closes && is_none self.now.fault))) }
    {
        self.reader.is_over()
            && self.raw.len() == 0
            && !self.reader.closes()
            && self.fault.is_none()
    }

    /// Whether the raw bytes are a prefix of a response's head, of which no line has ended since it was judged.
    fn is_at_front(&self) -> bool
        ensures stage { result ≡ true → self.now.reader.stage ≡ Stage.Replies }
        ensures front { result ≡ true → IsHeadFront self.now.raw }
    {
        self.reader.awaits_reply() && self.raw.is_front()
    }

    /// Frames what can be framed of the raw bytes. A head is judged once a line has ended, or if there is no more room.
    fn frame_raw(
        &mut self,
        state: &State,
        out: &mut [u8],
    ) -> Result<ArrayVec<Event, 4>, ClientFault>
        ensures room { IfOk result (λ events. ad_sum events.items ≤ length out.old) }
        ensures hears { IfOk result (λ events. SideHears (shows state.now) self.old self.new events.items [] (take (ad_sum events.items) out.new)) }
        ensures waits { IfOk result (λ events. events.items ≡ [] → HasToWait self.new.reader.stage self.new.raw (length out.old)) }
        ensures refuses { IfErr result (λ fault. Refuses fault (shows state.now) self.new.reader.point self.new.reader.stage self.new.raw) }
        ensures fault { self.new.fault ≡ self.old.fault }
        ensures head { KeepsHead (shows state.now) self.old.reader self.new.reader }
        ensures kept { IfErr result (λ _. SideHears (shows state.now) self.old self.new [] [] []) }
        ensures fewer { length self.new.raw ≤ length self.old.raw }
    {
        if self.is_at_front() {
            return Ok(ArrayVec::new());
        }
        match self.reader.frame(state, self.raw.as_slice(), out) {
            Ok(heard) => {
                let judged = awaits_more(&self.reader, &heard);
                self.raw.pass(heard.used, judged);
                Ok(heard.events)
            }
            Err(fault) => Err(fault),
        }
    }

    /// Whether the wire is to be read: the final response isn't whole, there is room, and the service may answer.
    fn is_due(&self, state: &State, all_sent: bool, room: usize) -> bool
        ensures due { IsTrue result → (self.now.reader.stage ≡ Stage.Over → ⊥) × (0 < room) × KeepsLimits self.now.reader.stage }
        ensures may { result ≡ true → MayRead (shows state.now) all_sent }
        ensures not_due { result ≡ false → NothingToRead (shows state.now) all_sent room self.now.reader.stage }
    {
        if self.reader.is_over() {
            return false;
        }
        if room == 0 {
            return false;
        }
        may_read(state, all_sent)
    }

    /// Reads the first bytes of a reply.
    fn read_first<W: Wire>(
        &mut self,
        state: &State,
        wire: &mut W,
        out: &mut [u8],
        buffer: &mut [u8; WIRE_ROOM],
    ) -> Result<Turn, ClientFault>
        requires short { length self.old.raw < MAX_HEAD }
        requires waits { HasToWait self.old.reader.stage self.old.raw (length out.old) }
        requires room { 0 < length out.old }
        requires going_on { self.old.reader.stage ≡ Stage.Over → ⊥ }
        requires may { MayCome (shows state.now) Event.Heard }
        ensures fault { self.new.fault ≡ self.old.fault }
        ensures turn { (all_sent : Bool) → MayRead (shows state.now) all_sent → ReadTurn (shows state.now) all_sent (length out.old) self.old self.new (W.past wire.old) (W.past wire.new) out.new result }
        ensures head { KeepsHead (shows state.now) self.old.reader self.new.reader }
        ensures few { length self.new.raw ≤ MAX_HEAD }
    {
        match self.raw.fill(wire, MAX_READ, &mut buffer[..]) {
            Filled::Bytes => {}
            Filled::Wait => {
                return Ok(Turn {
                    events: ArrayVec::new(),
                    waiting: true,
                });
            }
            Filled::Ended => return Err(ClientFault::Closed),
            Filled::Failed => return Err(ClientFault::Device),
            Filled::NoMemory => return Err(ClientFault::NoMemory),
        }
        Ok(Turn {
            events: event_list(Some(Event::Heard)),
            waiting: false,
        })
    }

    /// Reads the wire once, and frames what came.
    fn read_wire<W: Wire>(
        &mut self,
        state: &State,
        wire: &mut W,
        out: &mut [u8],
        buffer: &mut [u8; WIRE_ROOM],
    ) -> Result<Turn, ClientFault>
        requires short { length self.old.raw < MAX_HEAD }
        requires waits { HasToWait self.old.reader.stage self.old.raw (length out.old) }
        requires room { 0 < length out.old }
        requires going_on { self.old.reader.stage ≡ Stage.Over → ⊥ }
        requires heard { (shows state.now).heard ≡ true }
        ensures fault { self.new.fault ≡ self.old.fault }
        ensures turn { (all_sent : Bool) → MayRead (shows state.now) all_sent → ReadTurn (shows state.now) all_sent (length out.old) self.old self.new (W.past wire.old) (W.past wire.new) out.new result }
        ensures head { KeepsHead (shows state.now) self.old.reader self.new.reader }
        ensures few { length self.new.raw ≤ max MAX_HEAD (length out.old) }
    {
        match self.raw.fill(wire, body_read(out.len()), &mut buffer[..]) {
            Filled::Bytes => match self.frame_raw(state, out) {
                Ok(events) => Ok(Turn {
                    events,
                    waiting: false,
                }),
                Err(fault) => Err(fault),
            },
            Filled::Wait => Ok(Turn {
                events: ArrayVec::new(),
                waiting: true,
            }),
            Filled::Ended => Err(ClientFault::Closed),
            Filled::Failed => Err(ClientFault::Device),
            Filled::NoMemory => Err(ClientFault::NoMemory),
        }
    }

    /// Frames the raw bytes, and reads the wire once if nothing of them can be framed.
    fn frame_or_read<W: Wire>(
        &mut self,
        state: &State,
        all_sent: bool,
        wire: &mut W,
        out: &mut [u8],
        buffer: &mut [u8; WIRE_ROOM],
    ) -> Result<Turn, ClientFault>
        ensures turn { ReadTurn (shows state.now) all_sent (length out.old) self.old self.new (W.past wire.old) (W.past wire.new) out.new result }
        ensures fault { self.new.fault ≡ self.old.fault }
        ensures head { KeepsHead (shows state.now) self.old.reader self.new.reader }
        ensures few { length self.old.raw < length self.new.raw → length self.new.raw ≤ max MAX_HEAD (length out.old) }
    {
        let events = match self.frame_raw(state, out) {
            Ok(events) => events,
            Err(fault) => return Err(fault),
        };
        if !events.as_slice().is_empty() {
            return Ok(Turn {
                events,
                waiting: false,
            });
        }
        if !self.is_due(state, all_sent, out.len()) {
            return Ok(Turn {
                events,
                waiting: true,
            });
        }
        if state.seen().heard {
            return self.read_wire(state, wire, out, buffer);
        }
        if !state.may(Event::Heard) {
            return Err(ClientFault::NotLegal);
        }
        self.read_first(state, wire, out, buffer)
    }

    /// Gives back the room for raw bytes, if there is no such byte.
    fn free_memory(&mut self)
        ensures { GivesBack self.old self.new }
    {
        self.raw.free_memory(self.reader.allocator());
    }

    /// Reads what the service answers. The raw bytes come first; the wire is read once at most, if none of them can be
    /// framed. `all_sent` says that all text that was fixed for the service is out. The bytes of the adapted body go to the
    /// beginning of `out`; the events give their number, and the caller steps them.
    ///
    /// A fault stays: every later turn answers it again.
    pub fn read_turn<W: Wire>(
        &mut self,
        state: &State,
        all_sent: bool,
        wire: &mut W,
        out: &mut [u8],
        buffer: &mut [u8; WIRE_ROOM],
    ) -> Result<Turn, ClientFault>
        ensures turn { self.old.fault ≡ None → ReadTurn (shows state.now) all_sent (length out.old) self.old self.new (W.past wire.old) (W.past wire.new) out.new result }

        // A fault is kept and answered again, and then the wire isn't touched.
        ensures stays { IfErr result (λ fault. self.new.fault ≡ Some fault) }
        ensures faulted { IfSome self.old.fault (λ fault. (result ≡ Err fault) × (self.new ≡ self.old)) }
        ensures untouched { IfSome self.old.fault (λ fault. (p : Past) → W.past wire.old p → W.past wire.new p) }
        ensures sound { OnOk result (self.new.fault ≡ None) }
        ensures head { KeepsHead (shows state.now) self.old.reader self.new.reader }

        // Raw bytes that are kept after a turn are those of before, or no more than a head may have, or than the turn has room for; no
        // empty room is kept.
        ensures few { length self.old.raw < length self.new.raw → length self.new.raw ≤ max MAX_HEAD (length out.old) }
        ensures empty { self.old.fault ≡ None → self.new.raw ≡ [] → self.new.room ≡ 0 }
    {
        if let Some(fault) = self.fault {
            return Err(fault);
        }
        let turned = self.frame_or_read(state, all_sent, wire, out, buffer);
        self.free_memory();
        if let Err(fault) = &turned {
            self.fault = Some(*fault);
        }
        turned
    }
}
