//! The source's side: a message's head, and its body, over a wire.

ghost use Rattle.std.specs.Prelude.{◌≡◌, [], ◌++◌, length, IfOk, IfSome, None, true, false, List, ℕ, ◌↔◌, IsTrue, option_copied};
ghost use Rattle.trace_core.specs.History.{seen, shows};
ghost use Rattle.http_relay.specs.Source.{Agrees};
ghost use Rattle.http_relay.specs.Judging.{IsLooking};
ghost use Rattle.http_relay.specs.Reading.{AtHead, ComesAgain, GivesBack, request_of, response_of};
ghost use Rattle.trace_core.specs.declared.history.Seen.{Seen};

use crate::source_body::SourceBody;
use adapt_sides::{RawBytes, RelayFault};
use http_side::{Framing, HttpFault, HttpRequest, HttpResponse};
use std::alloc::{AllocError, Global};
use trace_core::{Plan, State};

mod body;
mod head;

pub use head::{Asks, HeadProgress, MAX_INTERIMS, SourceHead};

/// A message's source: it reads the head, then the body, over a wire, by turns of one read at most.
///
/// ```
/// let mut scratch = Scratch::zeroed();
/// let mut source = SourceSide::request(alloc);
/// let text = b"POST http://h/ HTTP/1.1\r\nHost: h\r\nContent-Length: 2\r\n\r\nhi";
/// let reads = vec![in alloc; ReadAnswer::Bytes(64)]?;
/// let mut wire = MemoryWire::new(alloc, text.to_vec(alloc)?, reads, Vec::new(alloc))?;
/// assert_eq!(rt; source.head_turn(&mut wire, &mut scratch.wire), Ok(HeadProgress::Taken));
/// assert_eq!(rt; source.framing(), Framing::Length(2));
/// let mut out = [0; 8];
/// let turn = source.read_turn(&mut wire, &mut out, &mut scratch.wire)?;
/// assert_eq!(rt; turn.events.as_slice(), [Event::In(2), Event::End].as_slice());
/// assert!(rt; source.ended());
/// ```
#[derive(Drop)]
pub struct SourceSide {
    alloc: Global,
    asks: Asks,
    head: SourceHead,
    head_fault: Option<HttpFault>,
    body: SourceBody,
    raw: RawBytes,
    judged: usize,
    interims: u32,
    fault: Option<RelayFault>,
}

/// These bytes, one text after the other.
fn joined(alloc: Global, first: &[u8], second: &[u8]) -> Result<RawBytes, AllocError>
    ensures { IfOk result (λ raw. raw.items ≡ first.now ++ second.now) }
{
    let mut raw = RawBytes::new(alloc);
    raw.reserve(first.len())?;
    raw.extend_reserved(first);
    raw.reserve(second.len())?;
    raw.extend_reserved(second);
    Ok(raw)
}

impl SourceSide {
    /// A source of requests, before the first byte.
    pub fn request(alloc: Global) -> SourceSide
        ensures begins { AtHead [] result }
        ensures looks { IsLooking result }
        ensures fault { result.fault ≡ None }
        ensures asks { result.asks ≡ Asks.Request }
    {
        SourceSide::fresh(alloc, Asks::Request, RawBytes::new(alloc))
    }

    /// A source of one response, to HEAD or to another request, before the first byte.
    pub fn response(alloc: Global, to_head: bool) -> SourceSide
        ensures begins { AtHead [] result }
        ensures looks { IsLooking result }
        ensures fault { result.fault ≡ None }
        ensures asks { result.asks ≡ Asks.Response to_head }
    {
        SourceSide::fresh(alloc, Asks::Response(to_head), RawBytes::new(alloc))
    }

    fn fresh(alloc: Global, asks: Asks, raw: RawBytes) -> SourceSide
        ensures begins { AtHead raw.items result }
        ensures looks { IsLooking result }
        ensures fault { result.fault ≡ None }
        ensures asks { result.asks ≡ asks }
        ensures raw { result.raw.items ≡ raw.items }
    {
        SourceSide {
            alloc,
            asks,
            head: SourceHead::Unread,
            head_fault: None,
            body: SourceBody::idle(),
            raw,
            judged: 0,
            interims: 0,
            fault: None,
        }
    }

    /// Whether the message was read to its end.
    pub fn ended(&self) -> bool
        ensures { IsTrue result ↔ ((self.now.body.ended ≡ true) × (self.now.head ≡ SourceHead.Unread → ⊥)) }
    {
        !self.is_unread() && self.body.has_ended()
    }

    /// Whether every byte that was read was taken: none is left over after the message.
    pub fn has_none_left(&self) -> bool
        ensures { result ≡ true ↔ self.now.raw.items ≡ [] }
    {
        self.raw.is_empty()
    }

    /// Goes on to the next message on this connection: the raw bytes left over are its first.
    pub fn next(&mut self)
        requires over { self.old.body.ended ≡ true }
        requires read { self.old.head ≡ SourceHead.Unread → ⊥ }
        ensures begins { AtHead self.old.raw.items self.new }
        ensures looks { IsLooking self.new }
        ensures asks { self.new.asks ≡ self.old.asks }
        ensures fault { self.new.fault ≡ None }
        ensures head_fault { self.new.head_fault ≡ None }
    {
        self.head = SourceHead::Unread;
        self.head_fault = None;
        self.body = SourceBody::idle();
        self.judged = 0;
        self.interims = 0;
        self.fault = None;
    }

    /// The same request again, of which no byte was read yet: the head's own bytes are the first ones that are kept, and what is left over
    /// comes after them. `None` where no request was read, it has a body, or no memory was found.
    pub fn again(self) -> Option<SourceSide>
        ensures begins { IfSome result (λ side. AtHead side.raw.items side) }
        ensures same { IfSome result (λ side. ComesAgain self.head self.raw.items side.raw.items) }
        ensures looks { IfSome result (λ side. IsLooking side) }
        ensures fault { IfSome result (λ side. side.fault ≡ None) }
        ensures asks { IfSome result (λ side. side.asks ≡ Asks.Request) }
    {
        let SourceSide {
            alloc,
            asks: _,
            head,
            head_fault: _,
            body,
            raw,
            judged: _,
            interims: _,
            fault: _,
        } = self;
        let SourceHead::Request(head) = head else {
            return None;
        };
        if !matches!(body.framing(), Framing::None | Framing::Length(0)) {
            return None;
        }
        let text = head.into_text();
        match joined(alloc, text.as_slice(), raw.as_slice()) {
            Ok(raw) => Some(SourceSide::fresh(alloc, Asks::Request, raw)),
            Err(AllocError) => None,
        }
    }

    /// Whether requests come, and no responses.
    pub fn reads_requests(&self) -> bool
        ensures { IsTrue result ↔ self.now.asks ≡ Asks.Request }
    {
        matches!(self.asks, Asks::Request)
    }

    /// The request's head, once it was read.
    pub fn request_head(&self) -> Option<&HttpRequest>
        ensures { option_copied result ≡ request_of self.now.head }
    {
        match &self.head {
            SourceHead::Request(head) => Some(head),
            _ => None,
        }
    }

    /// The response's head, once it was read.
    pub fn response_head(&self) -> Option<&HttpResponse>
        ensures { option_copied result ≡ response_of self.now.head }
    {
        match &self.head {
            SourceHead::Response(head) => Some(head),
            _ => None,
        }
    }

    /// How the message's body is framed; none before its head was read.
    pub fn framing(&self) -> Framing
        ensures { result ≡ self.now.body.framing }
    {
        self.body.framing()
    }

    /// The fault that each turn answers, if there is one.
    pub fn fault(&self) -> Option<RelayFault>
        ensures { result ≡ self.now.fault }
    {
        self.fault
    }

    /// Whether a byte of the message was read: of its head, or of an interim response before it that isn't whole.
    pub fn has_begun(&self) -> bool
        ensures { result ≡ false ↔ ((self.now.head ≡ SourceHead.Unread) × (self.now.raw.items ≡ [])) }
    {
        !self.is_unread() || !self.raw.is_empty()
    }

    /// Whether a transaction with this plan may begin: the head was read, no fault stands, nothing of the body was reported,
    /// and a length that the plan knows is the framing's.
    pub fn begins(&self, plan: &Plan) -> bool
        ensures read { result ≡ true → self.now.head ≡ SourceHead.Unread → ⊥ }
        ensures fault { result ≡ true → self.now.fault ≡ None }
        ensures refuses { result ≡ false → self.now.fault ≡ None → (self.now.head ≡ SourceHead.Unread → ⊥) → Agrees (seen plan.now []) self.now.body → ⊥ }
        ensures agrees { result ≡ true → (x : Seen) → x.plan ≡ plan.now → x.received ≡ 0 → x.ended ≡ false → Agrees x self.now.body }
    {
        !self.is_unread() && self.fault.is_none() && self.body.begins(plan.len)
    }

    /// Whether its numbers are those of this history: the bytes of the body that were reported, its end, and a known length.
    pub fn agrees_with(&self, state: &State) -> bool
        ensures { IsTrue result ↔ Agrees (shows state.now) self.now.body }
    {
        self.body.agrees_with(&state.seen())
    }

    /// Why the head is refused, after a turn at the head that answered Head, or NoMemory for want of memory for the head. `None`
    /// after Head means 101, as another protocol isn't forwarded, or one interim response too many.
    pub fn head_fault(&self) -> Option<HttpFault>
        ensures { result ≡ self.now.head_fault }
    {
        self.head_fault
    }

    /// Whether an interim response was read before the message (RFC 9110, section 15.2).
    pub fn has_interims(&self) -> bool
        ensures { result ≡ false ↔ self.now.interims ≡ 0 }
    {
        self.interims > 0
    }

    /// The bytes that came and weren't taken yet: of a head that isn't whole, or is refused, all of it that came.
    pub fn raw(&self) -> &[u8]
        ensures { result.now ≡ self.now.raw.items }
    {
        self.raw.as_slice()
    }

    /// Gives back the room for raw bytes, if there is no such byte.
    fn free_memory(&mut self)
        ensures { GivesBack self.old self.new }
    {
        if self.raw.is_empty() {
            self.raw = RawBytes::new(self.alloc);
        }
    }

    fn is_unread(&self) -> bool
        ensures { IsTrue result ↔ self.now.head ≡ SourceHead.Unread }
    {
        matches!(self.head, SourceHead::Unread)
    }
}
