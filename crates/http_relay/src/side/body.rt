//! The body of a source's message.

ghost use Rattle.std.specs.Prelude.{◌≡◌, ◌<◌, ◌≤◌, [], length, max, take, IfOk, IfErr, OnErr, OnOk, None, true, false};
ghost use Rattle.trace_core.specs.Turns.{in_sum};
ghost use Rattle.adapt_sides.specs.declared.filling.TheConstants.{MAX_READ};
ghost use Rattle.adapt_sides.specs.Turns.{ReadsBody};
ghost use Rattle.http_side.specs.Body.{is_over};
ghost use Rattle.http_relay.specs.Source.{Agrees, MustWait, Refuses, RunsPast, TellsEnd};
ghost use Rattle.http_relay.specs.Reading.{SideRead, SideReads, Rests, HasFramed, IsOver, ReadTurn};

use crate::side::SourceSide;
use adapt_sides::{Filled, MAX_READ, RelayFault, Turn, WIRE_ROOM, body_read, fill};
use arrayvec::ArrayVec;
use trace_core::Event;
use wire_kit::{Got, Wire};

impl SourceSide {
    /// Frames what can be framed of the raw bytes of the body.
    fn frame_raw(&mut self, out: &mut [u8]) -> Result<ArrayVec<Event, 4>, RelayFault>
        ensures room { IfOk result (λ events. in_sum events.items ≤ length out.old) }
        ensures reads { IfOk result (λ events. SideReads self.old self.new events.items [] (take (in_sum events.items) out.new) false) }
        ensures ends { OnOk result (TellsEnd self.old.body self.new.body) }
        ensures waits { IfOk result (λ events. events.items ≡ [] → MustWait self.new.body self.new.raw.items (length out.old)) }
        ensures refuses { IfErr result (λ fault. Refuses fault self.old.body self.old.raw.items) }
        ensures err { OnErr result (self.new ≡ self.old) }
        ensures kept { length self.new.raw.items ≤ length self.old.raw.items }
        ensures fault { self.new.fault ≡ self.old.fault }
        ensures head { self.new.head ≡ self.old.head }
    {
        match self.body.frame(self.raw.as_slice(), out) {
            Ok(framed) => {
                self.raw.advance(framed.used);
                Ok(framed.events)
            }
            Err(fault) => Err(fault),
        }
    }

    /// Reads the wire once, and frames what came.
    fn read_wire<W: Wire>(
        &mut self,
        wire: &mut W,
        out: &mut [u8],
        buffer: &mut [u8; WIRE_ROOM],
    ) -> Result<Turn, RelayFault>
        requires empty { self.old.raw.items ≡ [] }
        requires going_on { self.old.body.ended ≡ false }
        requires not_over { is_over self.old.body.reader ≡ false }
        requires some_room { 0 < length out.old }
        ensures turn { ReadTurn (length out.old) self.old self.new (W.past wire.old) (W.past wire.new) out.new result }
        ensures kept { length self.new.raw.items ≤ max MAX_READ (length out.old) }
        ensures fault { self.new.fault ≡ self.old.fault }
        ensures head { self.new.head ≡ self.old.head }
    {
        match fill(&mut self.raw, wire, body_read(out.len()), &mut buffer[..]) {
            Filled::Bytes => match self.frame_raw(out) {
                Ok(events) => Ok(Turn {
                    events,
                    waiting: false,
                }),
                Err(fault) => Err(fault),
            },
            Filled::Wait => Ok(Turn {
                events: ArrayVec::new(),
                waiting: true,
            }),
            Filled::Ended => match self.body.close() {
                Ok(events) => Ok(Turn {
                    events,
                    waiting: false,
                }),
                Err(fault) => Err(fault),
            },
            Filled::Failed => Err(RelayFault::Device),
            Filled::NoMemory => Err(RelayFault::NoMemory),
        }
    }

    /// Reads the wire once, straight to where the bytes of the body go: as many as there is room for are the body's, whatever they are.
    fn read_straight<W: Wire>(&mut self, wire: &mut W, out: &mut [u8]) -> Result<Turn, RelayFault>
        requires empty { self.old.raw.items ≡ [] }
        requires runs { RunsPast (length out.old) self.old.body }
        requires not_over { is_over self.old.body.reader ≡ false }
        requires some_room { 0 < length out.old }
        ensures turn { ReadTurn (length out.old) self.old self.new (W.past wire.old) (W.past wire.new) out.new result }
        ensures raw { self.new.raw ≡ self.old.raw }
        ensures fault { self.new.fault ≡ self.old.fault }
        ensures head { self.new.head ≡ self.old.head }
    {
        match wire.try_read(out) {
            Got::Bytes(count) => Ok(Turn {
                events: self.body.take_run(&out[..count]),
                waiting: false,
            }),
            Got::Wait => Ok(Turn {
                events: ArrayVec::new(),
                waiting: true,
            }),
            Got::Ended => match self.body.close() {
                Ok(events) => Ok(Turn {
                    events,
                    waiting: false,
                }),
                Err(fault) => Err(fault),
            },
            Got::Fault => Err(RelayFault::Device),
        }
    }

    /// Frames the raw bytes, and reads the wire once where nothing of them can be framed and there is room. Once the end of the body was
    /// reported there is nothing to do.
    fn frame_or_read<W: Wire>(
        &mut self,
        wire: &mut W,
        out: &mut [u8],
        buffer: &mut [u8; WIRE_ROOM],
    ) -> Result<Turn, RelayFault>
        ensures turn { ReadTurn (length out.old) self.old self.new (W.past wire.old) (W.past wire.new) out.new result }
        ensures kept { length self.old.raw.items < length self.new.raw.items → length self.new.raw.items ≤ max MAX_READ (length out.old) }
        ensures fault { self.new.fault ≡ self.old.fault }
        ensures head { self.new.head ≡ self.old.head }
    {
        if self.body.has_ended() {
            return Ok(Turn {
                events: ArrayVec::new(),
                waiting: true,
            });
        }
        let events = match self.frame_raw(out) {
            Ok(events) => events,
            Err(fault) => return Err(fault),
        };
        if !events.as_slice().is_empty() {
            return Ok(Turn {
                events,
                waiting: false,
            });
        }
        if self.body.has_ended() || out.is_empty() {
            return Ok(Turn {
                events,
                waiting: true,
            });
        }
        if out.len() >= MAX_READ && self.body.runs_past(out.len()) {
            return self.read_straight(wire, out);
        }
        self.read_wire(wire, out, buffer)
    }

    /// Reads the message's body. The raw bytes come first; the wire is read once at most, if none of them can be framed and
    /// there is room. The bytes of the body go to the beginning of `out`; the events give their number, and the caller steps them.
    /// The turn reports the body's end once its framing gives it, even without room, or, where only
    /// the close ends it, once the connection was closed in this turn.
    ///
    /// A fault stays: every later turn answers it again.
    pub fn read_turn<W: Wire>(
        &mut self,
        wire: &mut W,
        out: &mut [u8],
        buffer: &mut [u8; WIRE_ROOM],
    ) -> Result<Turn, RelayFault>
        ensures source { ReadsBody (λ x body read. SideRead x body read.bytes read.ended self.old) (λ x body read. SideRead x body read.bytes read.ended self.new)
            (λ x. Agrees x self.old.body) (λ x. Agrees x self.new.body) self.old.fault self.new.fault (Rests (length out.old) self.new) (HasFramed (length out.old) self.new) (IsOver self.new) (W.past wire.old) (W.past wire.new) out.new result }
        ensures turn { self.old.fault ≡ None → ReadTurn (length out.old) self.old self.new (W.past wire.old) (W.past wire.new) out.new result }
        ensures head { self.new.head ≡ self.old.head }

        // Raw bytes that are kept after a turn are those of before, or of one read, of as many as the turn has room for, or [`MAX_READ`]
        // where that is more; no empty room is kept.
        ensures kept { length self.old.raw.items < length self.new.raw.items → length self.new.raw.items ≤ max MAX_READ (length out.old) }
        ensures empty { self.old.fault ≡ None → self.new.raw.items ≡ [] → self.new.raw.spare ≡ 0 }
    {
        if let Some(fault) = self.fault {
            return Err(fault);
        }
        let turned = self.frame_or_read(wire, out, buffer);
        self.free_memory();
        if let Err(fault) = &turned {
            self.fault = Some(*fault);
        }
        turned
    }
}
