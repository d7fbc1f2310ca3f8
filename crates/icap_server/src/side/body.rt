//! The body of a request, and its preview (RFC 3507, section 4.5).
ghost use Rattle.std.specs.Prelude.{◌≡◌, ◌<◌, ◌≤◌, ◌++◌, true, false, length, take, IfOk};
ghost use Rattle.icap_services.specs.Texts.{shown};
ghost use Rattle.icap_server.specs.declared.stage.Stage.TheVariants.{Body, Rest};
ghost use Rattle.icap_server.specs.declared.side.body.TheConstants.{MAX_BODY};
ghost use Rattle.icap_server.specs.Served.{HasServedOn, HasServedSome};

use crate::NoMemory;
use crate::call::Call;
use crate::side::ServerSide;
use crate::stage::Stage;
use icap_chunks::ChunkReader;
use icap_services::{Status, put_continue};
use std::alloc::Global;

/// The largest size of a body, its preview included, in bytes.
const MAX_BODY: usize = 1_048_576;

impl ServerSide {
    /// Reads on within the body, or its preview.
    pub(super) fn read_body(
        &mut self,
        alloc: Global,
        call: Call,
        mut reader: ChunkReader,
        piece: &[u8],
        out: &mut Vec<u8>,
    ) -> Result<usize, NoMemory>
        requires some { 0 < length piece.now }
        requires stage { self.old.stage ≡ Body call reader }
        ensures within { IfOk result (λ used. used ≤ length piece.now) }
        ensures moves { IfOk result (λ used. HasServedSome self.old → 0 < used) }
        ensures served { IfOk result (λ used. HasServedOn self.old out.old.items (take used piece.now) self.new out.new.items) }
        ensures settings { shown self.new.settings ≡ shown self.old.settings }
    {
        let Ok(fed) = reader.feed(piece) else {
            self.refuse(out, Status::BadRequest)?;
            return Ok(piece.len());
        };
        if !self.keep(&piece[fed.part.0..fed.part.1])? {
            self.refuse(out, Status::ServerError)?;
            return Ok(piece.len());
        }
        match fed.ended {
            None => self.stage = Stage::Body(call, reader),
            Some(ieof) if call.preview => {
                if call.service.wants_rest(ieof) {
                    put_continue(out)?;
                    self.stage = Stage::Rest(call, ChunkReader::new());
                } else {
                    self.put_answer(alloc, call, Some(&self.body), Some(ieof), out)?;
                    self.begin();
                }
            }
            Some(_) => {
                self.put_answer(alloc, call, Some(&self.body), None, out)?;
                self.begin();
            }
        }
        Ok(fed.used)
    }

    /// Reads on within the rest of the body, after a 100.
    pub(super) fn read_rest(
        &mut self,
        alloc: Global,
        call: Call,
        mut reader: ChunkReader,
        piece: &[u8],
        out: &mut Vec<u8>,
    ) -> Result<usize, NoMemory>
        requires some { 0 < length piece.now }
        requires stage { self.old.stage ≡ Rest call reader }
        ensures within { IfOk result (λ used. used ≤ length piece.now) }
        ensures moves { IfOk result (λ used. HasServedSome self.old → 0 < used) }
        ensures served { IfOk result (λ used. HasServedOn self.old out.old.items (take used piece.now) self.new out.new.items) }
        ensures settings { shown self.new.settings ≡ shown self.old.settings }
    {
        let Ok(fed) = reader.feed(piece) else {
            self.refuse(out, Status::BadRequest)?;
            return Ok(piece.len());
        };
        if !self.keep(&piece[fed.part.0..fed.part.1])? {
            self.refuse(out, Status::ServerError)?;
            return Ok(piece.len());
        }
        match fed.ended {
            None => self.stage = Stage::Rest(call, reader),
            Some(_) => {
                self.put_answer(alloc, call, Some(&self.body), None, out)?;
                self.begin();
            }
        }
        Ok(fed.used)
    }

    /// Keeps more of the body, unless that is too much.
    fn keep(&mut self, part: &[u8]) -> Result<bool, NoMemory>
        ensures kept { IfOk result (λ kept. kept ≡ true → (self.new.body.items ≡ self.old.body.items ++ part.now)
            × (length self.new.body.items ≤ MAX_BODY)) }
        ensures over { IfOk result (λ kept. kept ≡ false → MAX_BODY < length (self.old.body.items ++ part.now)) }
        ensures stage { self.new.stage ≡ self.old.stage }
        ensures input { self.new.input.items ≡ self.old.input.items }
        ensures settings { shown self.new.settings ≡ shown self.old.settings }
    {
        let had: &[u8] = &self.body;
        if had.len() > MAX_BODY || part.len() > MAX_BODY - had.len() {
            return Ok(false);
        }
        self.body.extend_from_slice(part)?;
        Ok(true)
    }
}
