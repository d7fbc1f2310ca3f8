//! The head of a source's message, and the interim responses before it (RFC 9112, sections 2 to 5; RFC 9110, section 15.2).

ghost use Rattle.std.specs.Prelude.{◌≡◌, ◌+◌, ◌<◌, ◌≤◌, ◌⊎◌, [], length, drop, IfOk, IfErr, None, true, false, List, ℕ, IfSome, Some, Ok, Err};
ghost use Rattle.adapt_bytes.specs.Text.{has_line};
ghost use Rattle.adapt_bytes.specs.declared.limits.TheConstants.{MAX_HEAD};
ghost use Rattle.http_relay.specs.Judging.{RefusesBytes, IsLooking, JudgesHead, interims_in};
ghost use Rattle.http_relay.specs.Reading.{AtHead, HeadTurn, JudgesHeadTo};

use crate::side::SourceSide;
use crate::source_body::SourceBody;
use adapt_bytes::{MAX_HEAD, behind};
use adapt_sides::{Filled, MAX_READ, RelayFault, fill};
use http_side::{HttpFault, HttpRequest, HttpResponse, read_request, read_response};
use wire_kit::Wire;

/// The most interim responses that are read before an answer. The next one is refused.
pub const MAX_INTERIMS: u32 = 32;

/// Which messages come: requests, or responses, to HEAD or to another request.
#[derive(Clone, Copy)]
pub enum Asks {
    Request,
    Response(bool),
}

/// A message's head, once it was read.
#[derive(Drop)]
pub enum SourceHead {
    Unread,
    Request(HttpRequest),
    Response(HttpResponse),
}

/// How far a turn at a head came.
#[derive(Clone, Copy, PartialEq, Eq)]
pub enum HeadProgress {
    /// More of it is to come.
    More,
    /// An interim response was dropped. There may be bytes after it that no event of the wire will report.
    Interim,
    /// The message's head was taken.
    Taken,
}

/// Whether a response with this status comes before the message's own (RFC 9110, section 15.2).
fn is_interim(status: u16) -> bool
    ensures interim { result ≡ true → (100 ≤ status) × (status ≤ 199) }
    ensures last { result ≡ false → (status < 100) ⊎ (199 < status) }
{
    100 <= status && status <= 199
}

impl SourceSide {
    /// The raw bytes that came since they were last judged.
    fn unjudged(&self) -> &[u8]
        ensures { result.now ≡ drop self.now.judged self.now.raw.items }
    {
        behind(self.raw.as_slice(), self.judged)
    }

    /// Whether the raw bytes are to be judged: a line has ended since they were last, or there is no room for more.
    fn is_due(&self) -> bool
        ensures due { result ≡ true → (MAX_HEAD ≤ length self.now.raw.items) ⊎ (has_line (drop self.now.judged self.now.raw.items) ≡ true) }
        ensures few { result ≡ false → length self.now.raw.items < MAX_HEAD }
        ensures no_line { result ≡ false → has_line (drop self.now.judged self.now.raw.items) ≡ false }
    {
        self.raw.len() >= MAX_HEAD || self.unjudged().contains(&b'\n')
    }

    /// Judges the raw bytes.
    fn judge(&mut self) -> Result<HeadProgress, RelayFault>
        requires { self.old.head ≡ SourceHead.Unread }
        ensures heads { (read : List ℕ) → AtHead read self.old → JudgesHeadTo result read self.new }
        ensures judged { IsLooking self.old → JudgesHead result self.new }
        ensures count { self.new.interims ≡ self.old.interims + interims_in result }
        ensures short { IfOk result (λ judged. judged ≡ HeadProgress.More → length self.new.raw.items < MAX_HEAD) }
        ensures unread { IfOk result (λ judged. (judged ≡ HeadProgress.Taken → ⊥) → self.new.head ≡ SourceHead.Unread) }
        ensures fault { self.new.fault ≡ self.old.fault }
        ensures asks { self.new.asks ≡ self.old.asks }
        ensures refused { IfErr result (λ fault. (fault ≡ RelayFault.Head) ⊎ (fault ≡ RelayFault.NoMemory)) }
    {
        if !self.is_due() {
            return Ok(HeadProgress::More);
        }
        match self.asks {
            Asks::Request => self.judge_request(),
            Asks::Response(to_head) => self.judge_response(to_head),
        }
    }

    fn judge_request(&mut self) -> Result<HeadProgress, RelayFault>
        requires unread { self.old.head ≡ SourceHead.Unread }
        requires asks { self.old.asks ≡ Asks.Request }
        ensures heads { (read : List ℕ) → AtHead read self.old → JudgesHeadTo result read self.new }
        ensures judged { IsLooking self.old → JudgesHead result self.new }
        ensures count { self.new.interims ≡ self.old.interims + interims_in result }
        ensures short { IfOk result (λ judged. judged ≡ HeadProgress.More → length self.new.raw.items < MAX_HEAD) }
        ensures unread { IfOk result (λ judged. (judged ≡ HeadProgress.Taken → ⊥) → self.new.head ≡ SourceHead.Unread) }
        ensures fault { self.new.fault ≡ self.old.fault }
        ensures asks { self.new.asks ≡ self.old.asks }
        ensures refused { IfErr result (λ fault. (fault ≡ RelayFault.Head) ⊎ (fault ≡ RelayFault.NoMemory)) }
    {
        match read_request(self.alloc, self.raw.as_slice(), false) {
            Ok(head) => {
                self.raw.advance(head.length);
                self.judged = 0;
                self.body = SourceBody::new(head.value.framing());
                self.head = SourceHead::Request(head.value);
                Ok(HeadProgress::Taken)
            }
            Err(fault) => self.refuse(fault),
        }
    }

    fn judge_response(&mut self, to_head: bool) -> Result<HeadProgress, RelayFault>
        requires unread { self.old.head ≡ SourceHead.Unread }
        requires asks { self.old.asks ≡ Asks.Response to_head }
        ensures heads { (read : List ℕ) → AtHead read self.old → JudgesHeadTo result read self.new }
        ensures judged { IsLooking self.old → JudgesHead result self.new }
        ensures count { self.new.interims ≡ self.old.interims + interims_in result }
        ensures short { IfOk result (λ judged. judged ≡ HeadProgress.More → length self.new.raw.items < MAX_HEAD) }
        ensures unread { IfOk result (λ judged. (judged ≡ HeadProgress.Taken → ⊥) → self.new.head ≡ SourceHead.Unread) }
        ensures fault { self.new.fault ≡ self.old.fault }
        ensures asks { self.new.asks ≡ self.old.asks }
        ensures refused { IfErr result (λ fault. (fault ≡ RelayFault.Head) ⊎ (fault ≡ RelayFault.NoMemory)) }
    {
        match read_response(self.alloc, self.raw.as_slice(), to_head) {
            Ok(head) => {
                let status = head.value.status();
                if status == 101 {
                    return Err(RelayFault::Head);
                }
                if is_interim(status) {
                    if self.interims >= MAX_INTERIMS {
                        return Err(RelayFault::Head);
                    }
                    self.raw.advance(head.length);
                    self.judged = 0;
                    self.interims += 1;
                    return Ok(HeadProgress::Interim);
                }
                self.raw.advance(head.length);
                self.judged = 0;
                self.body = SourceBody::new(head.value.framing());
                self.head = SourceHead::Response(head.value);
                Ok(HeadProgress::Taken)
            }
            Err(fault) => self.refuse(fault),
        }
    }

    /// Decides on raw bytes that are refused for this: either there are too few yet, or the fault is kept.
    fn refuse(&mut self, fault: HttpFault) -> Result<HeadProgress, RelayFault>
        requires unread { self.old.head ≡ SourceHead.Unread }
        requires cause { RefusesBytes self.old.asks self.old.raw.items fault }
        ensures judged { IsLooking self.old → JudgesHead result self.new }
        ensures more { IfOk result (λ judged. (judged ≡ HeadProgress.More) × (length self.new.raw.items < MAX_HEAD)) }
        ensures asks { self.new.asks ≡ self.old.asks }
        ensures interims { self.new.interims ≡ self.old.interims }
        ensures raw { self.new.raw.items ≡ self.old.raw.items }
        ensures unread { self.new.head ≡ SourceHead.Unread }
        ensures fault { self.new.fault ≡ self.old.fault }
        ensures refused { IfErr result (λ fault. (fault ≡ RelayFault.Head) ⊎ (fault ≡ RelayFault.NoMemory)) }
    {
        match fault {
            HttpFault::More => {
                self.judged = self.raw.len();
                Ok(HeadProgress::More)
            }
            HttpFault::NoMemory => {
                self.head_fault = Some(fault);
                Err(RelayFault::NoMemory)
            }
            _ => {
                self.head_fault = Some(fault);
                Err(RelayFault::Head)
            }
        }
    }

    /// Judges the raw bytes, and reads the wire once if they have no head yet.
    fn judge_or_read<W: Wire>(
        &mut self,
        wire: &mut W,
        buffer: &mut [u8],
    ) -> Result<HeadProgress, RelayFault>
        requires unread { self.old.head ≡ SourceHead.Unread }
        requires room { 0 < length buffer.old }
        ensures turn { HeadTurn self.old self.new (W.past wire.old) (W.past wire.new) result }
        ensures asks { self.new.asks ≡ self.old.asks }
    {
        match self.judge() {
            Ok(HeadProgress::More) => {}
            Ok(HeadProgress::Interim) => return Ok(HeadProgress::Interim),
            Ok(HeadProgress::Taken) => return Ok(HeadProgress::Taken),
            Err(fault) => return Err(fault),
        }
        match fill(&mut self.raw, wire, MAX_READ, buffer) {
            Filled::Bytes => self.judge(),
            Filled::Wait => Ok(HeadProgress::More),
            Filled::Ended => Err(RelayFault::Closed),
            Filled::Failed => Err(RelayFault::Device),
            Filled::NoMemory => Err(RelayFault::NoMemory),
        }
    }

    /// Runs [`SourceSide::judge_or_read`], and then keeps no empty room.
    fn try_head<W: Wire>(
        &mut self,
        wire: &mut W,
        buffer: &mut [u8],
    ) -> Result<HeadProgress, RelayFault>
        requires unread { self.old.head ≡ SourceHead.Unread }
        requires room { 0 < length buffer.old }
        ensures turn { HeadTurn self.old self.new (W.past wire.old) (W.past wire.new) result }
        ensures asks { self.new.asks ≡ self.old.asks }
        ensures empty { self.new.raw.items ≡ [] → self.new.raw.spare ≡ 0 }
    {
        let result = self.judge_or_read(wire, buffer);
        self.free_memory();
        result
    }

    /// Reads the message's head: Taken once it was read. The raw bytes come first, then the wire is read once at most.
    /// A turn drops one interim response at most. It refuses 101, and the interim response after [`MAX_INTERIMS`]. A fault stays.
    pub fn head_turn<W: Wire>(
        &mut self,
        wire: &mut W,
        buffer: &mut [u8],
    ) -> Result<HeadProgress, RelayFault>
        requires room { 0 < length buffer.old }
        ensures turn { self.old.fault ≡ None → self.old.head ≡ SourceHead.Unread → HeadTurn self.old self.new (W.past wire.old) (W.past wire.new) result }
        ensures empty { self.old.fault ≡ None → self.old.head ≡ SourceHead.Unread → self.new.raw.items ≡ [] → self.new.raw.spare ≡ 0 }
        ensures read { self.old.fault ≡ None → (self.old.head ≡ SourceHead.Unread → ⊥) → (result ≡ Ok HeadProgress.Taken) × (self.new ≡ self.old) }
        ensures stays { IfErr result (λ fault. self.new.fault ≡ Some fault) }
        ensures faulted { IfSome self.old.fault (λ fault. (result ≡ Err fault) × (self.new ≡ self.old)) }
        ensures asks { self.new.asks ≡ self.old.asks }
        ensures idle { (self.old.fault ≡ None → self.old.head ≡ SourceHead.Unread → ⊥) → wire.new ≡ wire.old }
    {
        if let Some(fault) = self.fault {
            return Err(fault);
        }
        if !self.is_unread() {
            return Ok(HeadProgress::Taken);
        }
        match self.try_head(wire, buffer) {
            Ok(progress) => Ok(progress),
            Err(fault) => {
                self.fault = Some(fault);
                Err(fault)
            }
        }
    }
}
