//! A message whose head is read before its transaction: a user's request, or an origin's response to one.

ghost use Rattle.std.specs.Prelude.{◌≡◌, ◌↔◌, ◌<◌, ◌++◌, length, List, ℕ, [], true, false, None, Some, Ok, IfSome, IsSome, option_copied};
ghost use Rattle.trace_core.specs.History.{seen};
ghost use Rattle.http_relay.specs.Source.{Agrees};
ghost use Rattle.http_relay.specs.Reading.{ComesAgain, HeadTurn, request_of, response_of};
ghost use Rattle.proxy_rules.specs.Heads.{user_head};
ghost use Rattle.proxy_rules.specs.Arrivals.{Arrives, HasCome, Came, point_of, is_head_in};

use crate::expect::is_head_request;
use crate::head_maker::HeadMaker;
use adapt_sides::{RelayFault, Source};
use http_relay::{Asks, HeadProgress, SourceHead, SourceSide};
use http_side::{HttpFault, HttpRequest, HttpResponse, OriginWay};
use std::alloc::Global;
use std::marker::Model;
use trace_core::{Plan, Point};
use wire_kit::Wire;

/// A message whose head comes, or has come: its source's side, and for a response the side of the user whose request it answers.
///
/// With a response go the field lines of the answer to its request that its service is told.
///
/// What was read of it was read in turns at its head. An origin is asked for an answer to the user's own request: to HEAD or to another.
#[derive(Drop)]
pub struct Incoming {
    side: SourceSide,
    user: Option<SourceSide>,
    /// Field lines of the service's answer to the request, for the service of the response.
    carried: Option<Vec<u8>>,
}

impl Model for Incoming {
    ghost use Rattle.proxy_rules.specs.Arrivals.{Arrival, Arrives, lines_in};

    ghost Value = { Arrival };

    ghost view = { λ m. record { side = m.side; user = m.user; carried = lines_in m.carried } };

    ghost invariant = { λ m. Arrives m.side m.user };
}

/// Whether the method of the request that was read is HEAD.
fn asks_head(user: &SourceSide) -> bool
    ensures { result ≡ is_head_in (request_of user.now.head) }
{
    match user.request_head() {
        Some(head) => is_head_request(head),
        None => false,
    }
}

impl Incoming {
    /// A user's first request, before its first byte.
    pub fn request(alloc: Global) -> Incoming
        ensures user { result.user ≡ None }
        ensures begins { HasCome [] result.side }
    {
        Incoming {
            side: SourceSide::request(alloc),
            user: None,
            carried: None,
        }
    }

    /// The answer to this user's request, before its first byte. Its service is told these field lines.
    pub fn response(alloc: Global, user: SourceSide, carried: Vec<u8>) -> Incoming
        ensures user { result.user ≡ Some user }
        ensures carried { result.carried ≡ carried.items }
        ensures begins { HasCome [] result.side }
    {
        let to_head = asks_head(&user);
        Incoming {
            side: SourceSide::response(alloc, to_head),
            user: Some(user),
            carried: Some(carried),
        }
    }

    /// The next request on the connection of one that was read to its end: the bytes left over are its first. `None` where it wasn't.
    pub fn next(request: SourceSide) -> Option<Incoming>
        ensures user { IfSome result (λ next. next.user ≡ None) }
        ensures raw { IfSome result (λ next. next.side.raw.items ≡ request.raw.items) }
        ensures begins { IfSome result (λ next. HasCome request.raw.items next.side) }
        ensures some { IsSome result ↔ (request.body.ended ≡ true) × (request.head ≡ SourceHead.Unread → ⊥) × (request.asks ≡ Asks.Request) }
    {
        if !request.ended() {
            return None;
        }
        if !request.reads_requests() {
            return None;
        }
        let mut side = request;
        side.next();
        let next = Incoming {
            side,
            user: None,
            carried: None,
        };
        Some(next)
    }

    /// A user's request again, whose head was read and that has no body, before its first byte: the head's bytes are its first, and the
    /// bytes left over follow. `None` where it has a body, or no memory was found.
    pub fn again(request: SourceSide) -> Option<Incoming>
        ensures user { IfSome result (λ same. same.user ≡ None) }
        ensures same { IfSome result (λ same. ComesAgain request.head request.raw.items same.side.raw.items) }
        ensures begins { IfSome result (λ same. HasCome same.side.raw.items same.side) }
    {
        let side = request.again()?;
        let same = Incoming {
            side,
            user: None,
            carried: None,
        };
        Some(same)
    }

    /// The request again that this is to answer, before its first byte. `None` where this is no response, or the request can't come again.
    pub fn into_request(self) -> Option<Incoming>
        ensures user { IfSome result (λ same. same.user ≡ None) }
        ensures same { IfSome result (λ same. IfSome self.user (λ user. ComesAgain user.head user.raw.items same.side.raw.items)) }
        ensures begins { IfSome result (λ same. HasCome same.side.raw.items same.side) }
    {
        let Incoming {
            side: _,
            user,
            carried: _,
        } = self;
        Incoming::again(user?)
    }

    /// Which message it is.
    pub fn point(&self) -> Point
        ensures { result ≡ point_of self.now.user }
    {
        match &self.user {
            Some(_) => Point::Respmod,
            None => Point::Reqmod,
        }
    }

    /// The field lines that the service of a response is told. A request has none.
    pub fn carried(&self) -> &[u8]
        ensures { result.now ≡ self.now.carried }
    {
        match &self.carried {
            Some(lines) => lines.as_slice(),
            None => &[],
        }
    }

    /// Reads the message's head: Taken once it was read. One read of the wire at most, and one interim response. A fault stays.
    pub fn head_turn<W: Wire>(
        &mut self,
        wire: &mut W,
        buffer: &mut [u8],
    ) -> Result<HeadProgress, RelayFault>
        requires room { 0 < length buffer.old }
        ensures turn { self.old.side.fault ≡ None → self.old.side.head ≡ SourceHead.Unread → HeadTurn self.old.side self.new.side (W.past wire.old) (W.past wire.new) result }
        ensures more { result ≡ Ok HeadProgress.More → (self.old.side.fault ≡ None) × (self.old.side.head ≡ SourceHead.Unread) }
        ensures came { (first : W) (ahead since beside : List ℕ) → Came W.Wire first ahead since beside self.old.side wire.old
            → (more : List ℕ) × Came W.Wire first ahead (since ++ more) beside self.new.side wire.new }
        ensures user { self.new.user ≡ self.old.user }
        ensures carried { self.new.carried ≡ self.old.carried }
    {
        self.side.head_turn(wire, buffer)
    }

    /// The head of the user's own request, once it was read.
    pub fn user_head(&self) -> Option<&HttpRequest>
        ensures { option_copied result ≡ request_of (user_head self.now.user self.now.side.head) }
    {
        match &self.user {
            Some(user) => user.request_head(),
            None => self.side.request_head(),
        }
    }

    /// The head of a response, once it was read.
    pub fn response_head(&self) -> Option<&HttpResponse>
        ensures { option_copied result ≡ response_of self.now.side.head }
    {
        self.side.response_head()
    }

    /// Whether a byte of the message was read: of its head, or of an interim response before it that isn't whole.
    pub fn has_begun(&self) -> bool
        ensures { result ≡ false ↔ ((self.now.side.head ≡ SourceHead.Unread) × (self.now.side.raw.items ≡ [])) }
    {
        self.side.has_begun()
    }

    /// Why the head is refused, where a turn at it answered Head.
    pub fn head_fault(&self) -> Option<HttpFault>
        ensures { result ≡ self.now.side.head_fault }
    {
        self.side.head_fault()
    }

    /// Whether an interim response was read before the message (RFC 9110, section 15.2).
    pub fn has_interims(&self) -> bool
        ensures { result ≡ false ↔ self.now.side.interims ≡ 0 }
    {
        self.side.has_interims()
    }

    /// The bytes that came and weren't taken yet: of a head that isn't whole, or is refused, all of it that came.
    pub fn raw(&self) -> &[u8]
        ensures { result.now ≡ self.now.side.raw.items }
    {
        self.side.raw()
    }

    /// Whether a transaction of this plan may begin: the head was read, the side has no fault, nothing of the body was
    /// reported, and a length that the plan knows is the framing's.
    pub(crate) fn begins(&self, plan: &Plan) -> bool
        ensures { result ≡ true ↔ (self.now.side.head ≡ SourceHead.Unread → ⊥) × (self.now.side.fault ≡ None) × Agrees (seen plan.now []) self.now.side.body }
    {
        Source::begins(&self.side, plan)
    }

    /// The source's side, and what makes the heads of the message that goes on, which may be the last one of the user's connection, and
    /// goes to its origin this way if it is a request.
    pub(crate) fn into_sides(self, last: bool, origin: OriginWay) -> (SourceSide, HeadMaker)
        ensures side { result.0 ≡ self.side }
        ensures heads { (result.1.user ≡ self.user) × (result.1.last ≡ last) }
        ensures origin { self.user ≡ None → result.1.origin ≡ origin }
        ensures arrives { Arrives result.0 self.user }
    {
        let Incoming {
            side,
            user,
            carried: _,
        } = self;
        let heads = match user {
            Some(user) => HeadMaker::for_response(user, last),
            None => HeadMaker::for_request(last, origin),
        };
        (side, heads)
    }
}
