//! Framing the answer to an OPTIONS request: its head, and a body that is dropped.

ghost use Rattle.std.specs.Prelude.{◌≡◌, ◌⊎◌, IfErr, IfNone, IfOk, option_map};
ghost use Rattle.icap_head.specs.Heads.{RefusesResponse, response_parts};
ghost use Rattle.icap_client.specs.Asking.{Frames, HasAnyHead, HasToAsk, RefusesOptionsHead, RefusesRaw};

use super::{OptionsSide, OptionsStage, body_of, skip_body};
use crate::events::refusal;
use adapt_sides::ClientFault;
use icap_chunks::ChunkReader;
use icap_head::{HeadFault, IcapResponse, read_response};

impl OptionsSide {
    /// Frames the raw bytes in the body: they are dropped.
    fn frame_body(&mut self, chunks: ChunkReader) -> Result<Option<IcapResponse>, ClientFault>
        requires { self.old.stage ≡ OptionsStage.Body chunks }
        ensures frames { IfOk result (λ found. Frames self.old self.new (option_map response_parts found)) }
        ensures waits { IfOk result (λ found. IfNone found (HasToAsk self.new.stage self.new.raw)) }
        ensures fault { self.new.fault ≡ self.old.fault }
        ensures waiting { self.new.waiting ≡ self.old.waiting }
        ensures refuses { IfErr result (λ fault. RefusesRaw fault self.old) }
    {
        let mut next = chunks;
        match skip_body(&mut next, self.raw.as_slice()) {
            Ok(skipped) => {
                self.raw.pass(skipped.used, false);
                if skipped.ended {
                    self.stage = OptionsStage::Over;
                    Ok(self.response.take())
                } else {
                    self.stage = OptionsStage::Body(next);
                    Ok(None)
                }
            }
            Err(_) => Err(ClientFault::Chunk),
        }
    }

    /// Refuses the head for this fault, or marks that the raw bytes were judged to be a prefix of one.
    #[tactic(auto, using(crate::proofs::Skipping::frames_kept))]
    fn refuse_head(&mut self, fault: HeadFault) -> Result<Option<IcapResponse>, ClientFault>
        requires stage { self.old.stage ≡ OptionsStage.Head }
        requires stands { ((fault ≡ HeadFault.NoMemory) × HasAnyHead self.old.raw) ⊎ RefusesResponse fault self.old.raw }
        ensures frames { IfOk result (λ found. Frames self.old self.new (option_map response_parts found)) }
        ensures waits { IfOk result (λ found. IfNone found (HasToAsk self.new.stage self.new.raw)) }
        ensures fault { self.new.fault ≡ self.old.fault }
        ensures waiting { self.new.waiting ≡ self.old.waiting }
        ensures refuses { IfErr result (λ fault. RefusesOptionsHead fault self.old.raw) }
    {
        match refusal(fault) {
            Some(found) => Err(found),
            None => {
                self.raw.pass(0, true);
                Ok(None)
            }
        }
    }

    /// Frames the raw bytes, of which the head comes first. It is judged once a line has ended, or if there is no more room.
    #[tactic(auto, using(crate::proofs::Skipping::frames_same, crate::proofs::Skipping::holds_start))]
    fn frame_head(&mut self) -> Result<Option<IcapResponse>, ClientFault>
        requires { self.old.stage ≡ OptionsStage.Head }
        ensures frames { IfOk result (λ found. Frames self.old self.new (option_map response_parts found)) }
        ensures waits { IfOk result (λ found. IfNone found (HasToAsk self.new.stage self.new.raw)) }
        ensures fault { self.new.fault ≡ self.old.fault }
        ensures waiting { self.new.waiting ≡ self.old.waiting }
        ensures refuses { IfErr result (λ fault. RefusesRaw fault self.old) }
    {
        if self.raw.is_front() {
            return Ok(None);
        }
        let head = match read_response(self.alloc, self.raw.as_slice()) {
            Ok(head) => head,
            Err(fault) => return self.refuse_head(fault),
        };
        let Some(body) = body_of(&head.value.fields) else {
            return Err(ClientFault::Layout);
        };
        self.raw.pass(head.length, false);
        if !body {
            self.stage = OptionsStage::Over;
            return Ok(Some(head.value));
        }
        let start = ChunkReader::new();
        self.stage = OptionsStage::Body(start);
        self.response = Some(head.value);
        self.frame_body(start)
    }

    /// Frames the raw bytes.
    pub(super) fn frame(&mut self) -> Result<Option<IcapResponse>, ClientFault>
        requires { self.old.stage ≡ OptionsStage.Over → ⊥ }
        ensures frames { IfOk result (λ found. Frames self.old self.new (option_map response_parts found)) }
        ensures waits { IfOk result (λ found. IfNone found (HasToAsk self.new.stage self.new.raw)) }
        ensures fault { self.new.fault ≡ self.old.fault }
        ensures waiting { self.new.waiting ≡ self.old.waiting }
        ensures refuses { IfErr result (λ fault. RefusesRaw fault self.old) }
    {
        match self.stage {
            OptionsStage::Head => self.frame_head(),
            OptionsStage::Body(chunks) => self.frame_body(chunks),
            OptionsStage::Over => Ok(None),
        }
    }
}
