//! What the end of a transaction asks of its sides.
//!
//! The functions that take a transaction apart are generic in its sides, so that a proof sees each of them as one value.

ghost use Rattle.std.specs.Prelude.{◌≡◌, ◌↔◌, ℕ, List, Bool, Option, IfOk, IfSome, IsTrue, map, string_bytes};
ghost use Rattle.adapt_bytes.specs.Fields.{FieldList};
ghost use Rattle.icap_client.specs.Carried.{carried_text};
ghost use Rattle.adapt_turn.specs.declared.turn.Outcome.{Outcome as AnyOutcome};

use crate::withdrawal::request_of;
use adapt_sides::{ClientFault, Service, Source};
use adapt_turn::Outcome;
use http_relay::SourceSide;
use icap_client::{Found, ServiceSide};
use proxy_rules::{HeadMaker, Incoming, keeps_origin, keeps_user};
use std::alloc::{AllocError, Global};

/// A service's side whose exchange is over.
pub(crate) trait Served: Service + Drop {
    /// The tag of its answer (RFC 3507, section 4.7).
    fn tag(&self) -> Option<&[u8]>;

    /// What it said that it found in the message.
    fn found(&self) -> Found<'_>;

    // the fields of its last answer's head
    ghost fields: { Self → FieldList };

    /// The lines of its last answer's head that have one of these names.
    fn carried(&self, alloc: Global, names: &[String]) -> Result<Vec<u8>, AllocError>
        ensures { IfOk result (λ text. text.items ≡ carried_text (map string_bytes names.now) (fields self.now)) };

    /// Why it failed.
    fn fault(&self) -> Option<ClientFault>;
}

impl Served for ServiceSide {
    ghost fields = { λ service. service.replies.reader.remarks };

    fn tag(&self) -> Option<&[u8]> {
        ServiceSide::tag(self)
    }

    fn found(&self) -> Found<'_> {
        ServiceSide::found(self)
    }

    fn carried(&self, alloc: Global, names: &[String]) -> Result<Vec<u8>, AllocError> {
        ServiceSide::carried(self, alloc, names)
    }

    fn fault(&self) -> Option<ClientFault> {
        ServiceSide::fault(self)
    }
}

/// A user's side, whose request was read.
pub(crate) trait Asked: Source + Drop {
    /// The message that comes after it: the user's next request, the response to this one, or this one again.
    type Message: Drop;

    // the user's connection carries a further request after an answer with this outcome, whose head said or not that it closes
    ghost carries_on: { AnyOutcome → Bool → Self → Type 0 };

    // the request is of HTTP/1.0
    ghost is_old: { Self → Bool };

    // this message is the response to the request, before its first byte
    ghost is_response: { Self → Self.Message → Type 0 };

    // the field lines that the service of a response is told
    ghost told: { Self.Message → List ℕ };

    // this message is the next request on the connection of the request: it begins with the bytes that were left over
    ghost is_next: { Self → Self.Message → Type 0 };

    /// Whether the request is of HTTP/1.0.
    fn is_old(&self) -> bool
        ensures { result ≡ is_old self.now };

    /// Whether the user's connection carries a further request after an answer.
    fn keeps(&self, outcome: Outcome, closes: bool) -> bool
        ensures { IsTrue result ↔ carries_on outcome closes self.now };

    /// The user's next request, before its first byte but for what was read already.
    fn next_request(self) -> Option<Self::Message>
        ensures { IfSome result (λ next. is_next self next) };

    // this message is the request again, whose head was read once more: its bytes are those of the head, and those that were left over
    ghost is_again: { Self → Self.Message → Type 0 };

    /// The response to the request, before its first byte. Its service is told these field lines.
    fn response(self, alloc: Global, carried: Vec<u8>) -> Self::Message
        ensures response { is_response self result }
        ensures told { told result ≡ carried.items };

    /// The request again, whose head was read. `None` where it has a body, or no memory was found.
    fn again(self) -> Option<Self::Message>
        ensures { IfSome result (λ same. is_again self same) };
}

impl Asked for SourceSide {
    ghost use Rattle.http_relay.specs.Reading.{request_of};
    ghost use Rattle.proxy_rules.specs.Connections.{CarriesOn};
    ghost use Rattle.shard_message.specs.Told.{IsRequestAfter, IsRequestAgain, IsResponseTo, is_old_in};

    type Message = Incoming;

    ghost carries_on = { CarriesOn };

    ghost is_old = { λ user. is_old_in (request_of user.head) };

    ghost is_response = { IsResponseTo };

    ghost told = { λ message. message.carried };

    ghost is_next = { IsRequestAfter };

    ghost is_again = { IsRequestAgain };

    fn is_old(&self) -> bool {
        match self.request_head() {
            Some(head) => head.minor() == 0,
            None => false,
        }
    }

    fn keeps(&self, outcome: Outcome, closes: bool) -> bool {
        keeps_user(outcome, closes, self)
    }

    fn next_request(self) -> Option<Incoming> {
        Incoming::next(self)
    }

    fn response(self, alloc: Global, carried: Vec<u8>) -> Incoming {
        Incoming::response(alloc, self, carried)
    }

    fn again(self) -> Option<Incoming> {
        request_of(self)
    }
}

/// An origin's side, whose answer was read.
pub(crate) trait Answers: Source + Drop {
    // after an answer that ended so, another request may go out on the origin's connection
    ghost lasts: { AnyOutcome → Self → Type 0 };

    /// Whether another request may go out on the origin's connection after an answer that ended so.
    fn lasts(&self, outcome: Outcome) -> bool
        ensures { IsTrue result ↔ lasts outcome self.now };
}

impl Answers for SourceSide {
    ghost use Rattle.proxy_rules.specs.Connections.{Lasts};

    ghost lasts = { Lasts };

    fn lasts(&self, outcome: Outcome) -> bool {
        keeps_origin(outcome, self)
    }
}

/// What made the head that went on.
pub(crate) trait MadeHead<S>: Drop {
    // the user's connection ends after the answer
    ghost closes: { Self → Bool };

    // the side of the user whose request a response answers
    ghost asked: { Self → Option S };

    /// Whether the user's connection ends after the answer.
    fn closes(&self) -> bool
        ensures { result ≡ closes self.now };

    /// The side of the user whose request a response answers.
    fn into_asked(self) -> Option<S>
        ensures { result ≡ asked self };
}

impl MadeHead<SourceSide> for HeadMaker {
    ghost closes = { λ maker. maker.closes };

    ghost asked = { λ maker. maker.user };

    fn closes(&self) -> bool {
        HeadMaker::closes(self)
    }

    fn into_asked(self) -> Option<SourceSide> {
        self.into_user()
    }
}
