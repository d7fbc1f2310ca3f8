//! Asking a service what it offers: one OPTIONS request and its answer, over a wire (RFC 3507, section 4.10).

ghost use Rattle.std.specs.Prelude.{◌≡◌, ℕ, ◌+◌, ◌<◌, ◌≤◌, ◌⊎◌, Bool, List, [], ◌∷◌, ◌++◌, length, drop, take, OnOk, IfOk, IfErr, IfSome, IfNone, Some, None, Err, is_some, codes, true, false, option_map};
ghost use Rattle.adapt_bytes.specs.declared.limits.TheConstants.{MAX_HEAD};
ghost use Rattle.adapt_bytes.specs.Numeral.{numeral};
ghost use Rattle.adapt_bytes.specs.declared.method.Method.TheVariants as methods;
ghost use Rattle.adapt_bytes.specs.Fields.{values_of};
ghost use Rattle.icap_chunks.specs.Faults.{Breaks};
ghost use Rattle.icap_chunks.specs.Machine.{HasRead, end_of, fault_of};
ghost use Rattle.icap_head.specs.Fields.{field_list};
ghost use Rattle.icap_client.specs.Hearing.{ReadsOn};
ghost use Rattle.icap_client.specs.Asking.{HasOptionsBody};
ghost use Rattle.wire_kit.specs.Past.{Past};

mod framing;

use crate::body::read_run;
use crate::kept::Kept;
use crate::lists::has_body;
use crate::request::options_request;
use adapt_bytes::{Method, behind};
use adapt_sides::{ClientFault, Filled, MAX_READ};
use encapsulated::{Direction, read};
use icap_chunks::{ChunkFault, ChunkReader};
use icap_head::{Fields, IcapResponse};
use std::alloc::{AllocError, Global};
use std::marker::Model;
use wire_kit::{Put, Wire};

/// How far the answer to an OPTIONS request is read.
#[derive(Clone, Copy)]
pub enum OptionsStage {
    /// Its ICAP head comes.
    Head,
    /// Its body comes.
    Body(ChunkReader),
    /// It is whole.
    Over,
}

/// One OPTIONS request and its answer, by turns of one read or one write at most.
#[derive(Drop)]
pub struct OptionsSide {
    alloc: Global,
    text: Vec<u8>,
    out: usize,
    stage: OptionsStage,
    response: Option<IcapResponse>,
    raw: Kept,
    fault: Option<ClientFault>,
}

impl Model for OptionsSide {
    ghost use Rattle.std.specs.Prelude.{◌≤◌, length, drop, option_map, vec_capacity};
    ghost use Rattle.adapt_bytes.specs.declared.limits.TheConstants.{MAX_HEAD};
    ghost use Rattle.icap_head.specs.Heads.{response_parts};
    ghost use Rattle.icap_client.specs.Asking.{Asker, HoldsText, HoldsHead};

    ghost Value = { Asker };

    ghost view = { λ s. record { waiting = drop s.out s.text.items; stage = s.stage; response = option_map response_parts s.response; raw = s.raw.bytes; fault = s.fault; room = s.raw.room } };

    ghost invariant = { λ s. HoldsText s.out (length s.text.items) (vec_capacity s.text) × HoldsHead s.stage s.response × (length s.raw.bytes ≤ MAX_HEAD) };
}

impl OptionsSide {
    ghost use Rattle.icap_head.specs.Heads.{response_parts};
    ghost use Rattle.icap_client.specs.Asking.{options_request, LetsRoomGo, HasToAsk, Asks};

    /// A request to the service at this host, port and path. `Err` if its text finds no memory.
    #[tactic(auto, using(crate::proofs::Skipping::some_text))]
    pub fn new(
        alloc: Global,
        host: &[u8],
        port: u16,
        path: &[u8],
    ) -> Result<OptionsSide, AllocError>
        ensures { IfOk result (λ side. side ≡ record { waiting = options_request host.now port path.now; stage = OptionsStage.Head; response = None; raw = []; fault = None; room = 0 }) }
    {
        Ok(OptionsSide {
            alloc,
            text: options_request(alloc, host, port, path)?,
            out: 0,
            stage: OptionsStage::Head,
            response: None,
            raw: Kept::new(alloc),
            fault: None,
        })
    }

    /// The raw bytes left over.
    pub fn raw_left(&self) -> usize
        ensures left { result ≡ length self.now.raw }
        ensures limit { result ≤ MAX_HEAD }
    {
        self.raw.len()
    }

    /// The memory that the request's text holds, in bytes: 0 once it is out.
    #[tactic(auto, using(crate::proofs::Skipping::all_out))]
    pub fn request_room(&self) -> usize
        ensures { self.now.waiting ≡ [] → result ≡ 0 }
    {
        self.text.capacity()
    }

    /// The text that waits.
    fn rest(&self) -> &[u8]
        ensures { result.now ≡ self.now.waiting }
    {
        &self.text[self.out..]
    }

    /// Whether text waits.
    #[tactic(auto, using(crate::proofs::Skipping::none_left))]
    fn has_rest(&self) -> bool
        ensures waits { result ≡ true → 0 < length self.now.waiting }
        ensures none { result ≡ false → self.now.waiting ≡ [] }
    {
        self.out < self.text.len()
    }

    /// Counts bytes of the text that went out. Once all of it is out, its memory is given back.
    #[tactic(auto, using(crate::proofs::Skipping::more_out, crate::proofs::Skipping::none_more))]
    fn count_out(&mut self, count: usize)
        requires { count ≤ length self.old.waiting }
        ensures waiting { self.new.waiting ≡ drop count self.old.waiting }
        ensures stage { self.new.stage ≡ self.old.stage }
        ensures response { self.new.response ≡ self.old.response }
        ensures raw { self.new.raw ≡ self.old.raw }
        ensures fault { self.new.fault ≡ self.old.fault }
        ensures room { self.new.room ≡ self.old.room }
    {
        self.out += count;
        if self.out < self.text.len() {
            return;
        }
        self.text = Vec::new(self.alloc);
        self.out = 0;
    }

    /// Offers the text that waits.
    fn write<W: Wire>(&mut self, wire: &mut W) -> Result<Option<IcapResponse>, ClientFault>
        requires { 0 < length self.old.waiting }
        ensures asks { Asks self.old self.new (W.past wire.old) (W.past wire.new) result }
        ensures stage { self.new.stage ≡ self.old.stage }
        ensures response { self.new.response ≡ self.old.response }
        ensures raw { self.new.raw ≡ self.old.raw }
        ensures fault { self.new.fault ≡ self.old.fault }
    {
        match wire.try_write(self.rest()) {
            Put::Took(count) => {
                self.count_out(count);
                Ok(None)
            }
            Put::Wait => Ok(None),
            Put::Fault => Err(ClientFault::Device),
        }
    }

    /// Reads once, if more bytes are wanted, and frames what came.
    fn read_on<W: Wire>(
        &mut self,
        wire: &mut W,
        buffer: &mut [u8],
    ) -> Result<Option<IcapResponse>, ClientFault>
        requires asks { HasToAsk self.old.stage self.old.raw }
        requires out { self.old.waiting ≡ [] }
        requires room { 0 < length buffer.old }
        ensures asks { Asks self.old self.new (W.past wire.old) (W.past wire.new) result }
        ensures fault { self.new.fault ≡ self.old.fault }
    {
        match self.raw.fill(wire, MAX_READ, buffer) {
            Filled::Bytes => {}
            Filled::Wait => return Ok(None),
            Filled::Ended => return Err(ClientFault::Closed),
            Filled::Failed => return Err(ClientFault::Device),
            Filled::NoMemory => return Err(ClientFault::NoMemory),
        }
        self.frame()
    }

    /// One step of [`OptionsSide::turn`].
    fn write_or_read<W: Wire>(
        &mut self,
        wire: &mut W,
        buffer: &mut [u8],
    ) -> Result<Option<IcapResponse>, ClientFault>
        requires { 0 < length buffer.old }
        ensures asks { Asks self.old self.new (W.past wire.old) (W.past wire.new) result }
        ensures fault { self.new.fault ≡ self.old.fault }
    {
        if self.has_rest() {
            return self.write(wire);
        }
        if let OptionsStage::Over = self.stage {
            return Ok(None);
        }
        match self.frame() {
            Ok(Some(head)) => Ok(Some(head)),
            Ok(None) => self.read_on(wire, buffer),
            Err(fault) => Err(fault),
        }
    }

    /// Gives back the room for raw bytes, if there is no such byte.
    fn free_memory(&mut self)
        ensures { LetsRoomGo self.old self.new }
    {
        self.raw.free_memory(self.alloc);
    }

    /// Runs [`OptionsSide::write_or_read`], and then keeps no empty room.
    fn turn_once<W: Wire>(
        &mut self,
        wire: &mut W,
        buffer: &mut [u8],
    ) -> Result<Option<IcapResponse>, ClientFault>
        requires { 0 < length buffer.old }
        ensures asks { Asks self.old self.new (W.past wire.old) (W.past wire.new) result }
        ensures fault { self.new.fault ≡ self.old.fault }
        ensures empty { self.new.raw ≡ [] → self.new.room ≡ 0 }
    {
        let result = self.write_or_read(wire, buffer);
        self.free_memory();
        result
    }

    /// Offers the text that waits, once; or, if none waits, reads once, and answers the head once its body, if any,
    /// was read and dropped. After that it answers `None`, and leaves the wire alone.
    ///
    /// A fault stays: every later turn answers it again.
    pub fn turn<W: Wire>(
        &mut self,
        wire: &mut W,
        buffer: &mut [u8],
    ) -> Result<Option<IcapResponse>, ClientFault>
        requires { 0 < length buffer.old }

        // One write or one read at most; what goes out is the request's text, and what is answered is what was read.
        ensures asks { self.old.fault ≡ None → Asks self.old self.new (W.past wire.old) (W.past wire.new) result }

        // A fault is kept and answered again, and then the wire isn't touched.
        ensures stays { IfErr result (λ fault. self.new.fault ≡ Some fault) }
        ensures faulted { IfSome self.old.fault (λ fault. (result ≡ Err fault) × (self.new ≡ self.old)) }
        ensures untouched { IfSome self.old.fault (λ fault. (p : Past) → W.past wire.old p → W.past wire.new p) }
        ensures sound { OnOk result (self.new.fault ≡ None) }

        // No empty room is kept.
        ensures empty { self.old.fault ≡ None → self.new.raw ≡ [] → self.new.room ≡ 0 }
    {
        if let Some(fault) = self.fault {
            return Err(fault);
        }
        match self.turn_once(wire, buffer) {
            Ok(found) => Ok(found),
            Err(fault) => {
                self.fault = Some(fault);
                Err(fault)
            }
        }
    }
}

/// What was read of a body that is dropped.
#[derive(Clone, Copy)]
struct Skipped {
    /// How many bytes were read.
    used: usize,
    /// Whether the body has ended.
    ended: bool,
}

/// Reads on to the end of the body, or of the bytes.
fn skip_body(chunks: &mut ChunkReader, raw: &[u8]) -> Result<Skipped, ChunkFault>
    requires going_on { end_of chunks.old ≡ None }
    requires sound { fault_of chunks.old ≡ None }
    ensures within { IfOk result (λ skipped. skipped.used ≤ length raw.now) }
    ensures reads { IfOk result (λ skipped. (part : List ℕ) × ReadsOn chunks.old raw.now skipped.used part chunks.new) }
    ensures ended { IfOk result (λ skipped. skipped.ended ≡ is_some (end_of chunks.new)) }
    ensures no_fault { IfOk result (λ skipped. fault_of chunks.new ≡ None) }
    ensures all { IfOk result (λ skipped. skipped.ended ≡ false → drop skipped.used raw.now ≡ []) }
    ensures fault { IfErr result (λ fault. (part : List ℕ) × ((text body : List ℕ) → HasRead text body chunks.old → Breaks (text ++ raw.now) (body ++ part) fault)) }
{
    let mut scratch = [0; MAX_READ];
    let mut used = 0;
    while used < raw.len() {
        match read_run(chunks, behind(raw, used), &mut scratch) {
            Ok(Some(run)) => {
                used += run.used;
                if run.ended {
                    return Ok(Skipped { used, ended: true });
                }
            }
            Ok(None) => return Ok(Skipped { used, ended: false }),
            Err(fault) => return Err(fault),
        }
    }
    Ok(Skipped { used, ended: false })
}

/// Whether the answer has a body; `None` if its Encapsulated fields aren't those of an OPTIONS answer.
fn body_of(fields: &Fields) -> Option<bool>
    ensures some { IfSome result (λ body. HasOptionsBody (values_of (codes "Encapsulated") (field_list fields.now)) body) }
    ensures none { IfNone result ((body : Bool) → HasOptionsBody (values_of (codes "Encapsulated") (field_list fields.now)) body → ⊥) }
{
    let mut values = fields.values(b"Encapsulated");
    match (values.next(), values.next()) {
        (None, _) => Some(false),
        (Some(list), None) => body_in(list),
        (Some(_), Some(_)) => None,
    }
}

/// Whether this list names a body; `None` if it isn't one of an OPTIONS answer.
fn body_in(list: &[u8]) -> Option<bool>
    ensures some { IfSome result (λ body. HasOptionsBody (list.now ∷ []) body) }
    ensures none { IfNone result ((body : Bool) → HasOptionsBody (list.now ∷ []) body → ⊥) }
{
    match read(Method::Options, Direction::Response, list) {
        Ok(layout) => Some(has_body(layout.body)),
        Err(_) => None,
    }
}
