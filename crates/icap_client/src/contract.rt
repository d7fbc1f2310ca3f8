//! The service's side as a transaction calls it.

ghost use Rattle.std.specs.Prelude.{◌≡◌, ℕ, List, Option};
ghost use Rattle.icap_client.specs.Sending.{NothingDue};
ghost use Rattle.icap_client.specs.Turns.{ServiceSent, ServiceHeard, RestsReading, HasFramed, HasCause, adapted_head_of, is_response_of, is_reusable, is_flushed};
ghost use Rattle.icap_client.specs.OthersSent.{none_may_send};
ghost use Rattle.icap_client.specs.OthersHeard.{unheard_none, rests_where};
ghost use Rattle.icap_client.specs.Marks.{service_others, service_keeps};

use crate::service::ServiceSide;
use adapt_sides::{ClientFault, Service, Turn, WIRE_ROOM};
use span_tape::SpanTape;
use trace_core::State;
use wire_kit::Wire;

impl Service for ServiceSide {
    ghost adapted_head = { adapted_head_of };

    ghost fault = { λ s. s.replies.fault };

    ghost has_sent = { ServiceSent };

    ghost has_heard = { ServiceHeard };

    ghost rests_writing = { λ x s. NothingDue x s.writer };

    ghost rests_reading = { RestsReading };

    ghost has_reason = { HasCause };

    ghost is_framed = { HasFramed };

    ghost is_response = { is_response_of };

    ghost reusable = { is_reusable };

    ghost others_sent = { service_others };

    ghost others_heard = { λ x event adapted read s o n. service_keeps x event adapted read s o };

    ghost unheard = { λ x adapted read s h. unheard_none x adapted read s.replies h.heard };

    ghost rests_writing_where = { λ x s. none_may_send x s.writer };

    ghost rests_reading_where = { λ x adapted read room s h. rests_where x adapted read (is_flushed s.writer) room s.replies h.heard };

    fn adapted_head(&self) -> Option<&[u8]> {
        match ServiceSide::adapted_head(self) {
            Some((_, head)) => Some(head),
            None => None,
        }
    }

    fn is_response(&self) -> bool {
        match ServiceSide::adapted_head(self) {
            Some((layout, _)) => layout.res_hdr.is_some(),
            None => false,
        }
    }

    fn is_reusable(&self) -> bool {
        ServiceSide::is_reusable(self)
    }

    fn write_turn<W: Wire>(
        &mut self,
        state: &State,
        tape: &SpanTape,
        wire: &mut W,
        buffer: &mut [u8; WIRE_ROOM],
    ) -> Result<Turn, ClientFault> {
        ServiceSide::write_turn(self, state, tape, wire, buffer)
    }

    fn read_turn<W: Wire>(
        &mut self,
        state: &State,
        wire: &mut W,
        out: &mut [u8],
        buffer: &mut [u8; WIRE_ROOM],
    ) -> Result<Turn, ClientFault> {
        ServiceSide::read_turn(self, state, wire, out, buffer)
    }

    fn restart(&mut self) {
        ServiceSide::restart(self);
    }
}
