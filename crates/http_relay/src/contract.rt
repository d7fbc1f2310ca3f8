//! Both sides as a transaction calls them.

use crate::hop::HopWriter;
use crate::side::{SourceHead, SourceSide};
use adapt_sides::{Hop, RelayFault, Source, Turn, WIRE_ROOM};
use http_side::Framing;
use span_tape::SpanTape;
use trace_core::{Plan, State};
use wire_kit::Wire;

impl Source for SourceSide {
    ghost use Rattle.std.specs.Prelude.{◌≡◌, [], None};
    ghost use Rattle.trace_core.specs.History.{seen};
    ghost use Rattle.http_relay.specs.declared.side.head.SourceHead.TheVariants as unread;
    ghost use Rattle.http_relay.specs.Source.{Agrees};
    ghost use Rattle.http_relay.specs.Reading.{SideRead, Rests, HasFramed, IsCause, IsOver};
    ghost use Rattle.http_relay.specs.SourceLaws as laws;

    type Head = SourceHead;

    ghost head = { λ s. s.head };

    ghost fault = { λ s. s.fault };

    ghost has_read = { λ x body read s. SideRead x body read.bytes read.ended s };

    ghost is_over = { IsOver };

    ghost agrees = { λ x s. Agrees x s.body };

    ghost may_begin = { λ plan s. (s.head ≡ unread.Unread → ⊥) × (s.fault ≡ None) × Agrees (seen plan []) s.body };

    ghost rests = { Rests };

    ghost has_reason = { IsCause };

    ghost is_framed = { HasFramed };

    ghost others = { laws.others };

    ghost others_agree = { laws.others_agree };

    ghost rests_where = { laws.rests_where };

    ghost ended_where = { laws.ended_where };

    fn begins(&self, plan: &Plan) -> bool {
        SourceSide::begins(self, plan)
    }

    fn agrees_with(&self, state: &State) -> bool {
        SourceSide::agrees_with(self, state)
    }

    fn read_turn<W: Wire>(
        &mut self,
        wire: &mut W,
        out: &mut [u8],
        buffer: &mut [u8; WIRE_ROOM],
    ) -> Result<Turn, RelayFault> {
        SourceSide::read_turn(self, wire, out, buffer)
    }
}

impl Hop for HopWriter {
    ghost use Rattle.std.specs.Prelude.{not};
    ghost use Rattle.http_relay.specs.Message.{IsMessage};
    ghost use Rattle.http_relay.specs.Giving.{HasGiven, IsAside, NothingDue, BreaksLength, gift_of, is_flushed};
    ghost use Rattle.http_relay.specs.HopLaws as laws;

    type Framing = Framing;

    ghost gift = { λ h. gift_of h.stage };

    ghost body_framing = { λ h. h.framing };

    ghost breaks_length = { BreaksLength };

    ghost fault = { λ h. h.fault };

    ghost has_given = { HasGiven };

    ghost aside = { IsAside };

    ghost is_whole = { λ head body taken h. IsMessage h.framing head body taken };

    ghost rests = { NothingDue };

    ghost untouched = { λ h. not h.touched };

    ghost is_out = { is_flushed };

    ghost others = { laws.others };

    ghost idle_given = { laws.idle_given };

    ghost idle_aside = { laws.idle_aside };

    ghost begun = { laws.begun };

    ghost refused = { laws.refused };

    ghost untouched_given = { laws.untouched_given };

    ghost untouched_aside = { laws.untouched_aside };

    ghost touched_given = { laws.touched_given };

    ghost touched_aside = { laws.touched_aside };

    ghost rests_where = { laws.rests_where };

    fn untouched(&self) -> bool {
        HopWriter::untouched(self)
    }

    fn is_out(&self) -> bool {
        HopWriter::is_out(self)
    }

    fn is_idle(&self) -> bool {
        HopWriter::is_idle(self)
    }

    fn fault(&self) -> Option<RelayFault> {
        HopWriter::fault(self)
    }

    fn begin(&mut self, head: Vec<u8>, framing: Framing) {
        HopWriter::begin(self, head, framing);
    }

    fn refuse(&mut self, status: u16) {
        HopWriter::refuse(self, status);
    }

    fn write_turn<W: Wire>(
        &mut self,
        state: &State,
        tape: &SpanTape,
        wire: &mut W,
        buffer: &mut [u8; WIRE_ROOM],
    ) -> Result<Turn, RelayFault> {
        HopWriter::write_turn(self, state, tape, wire, buffer)
    }
}
