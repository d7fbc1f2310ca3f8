//! The heads of one transaction.

ghost use Rattle.std.specs.Prelude.{◌≡◌, IfOk, IfErr, IfSome, true, false, Some, None, option_copied};
ghost use Rattle.trace_core.specs.History.{shows};
ghost use Rattle.http_relay.specs.Reading.{request_of};
ghost use Rattle.proxy_rules.specs.Heads.{Makes, MakesNone, Remembers, MakesOf, MakesNoneOf, user_head, body_read_of, carries_on_of};

use crate::onward::{
    Asked, Headed, adapted_request, adapted_response, request_onward, response_onward,
};
use adapt_turn::MakesHead;
use http_relay::{HopWriter, SourceHead, SourceSide};
use http_side::{BodyKind, Framing, HttpRequest, OriginUse, OriginWay};
use std::alloc::Global;
use trace_core::{Cause, State};

/// Makes the heads of one transaction's message, and remembers whether the user's connection ends after it.
#[derive(Drop)]
pub struct HeadMaker {
    user: Option<SourceSide>,
    /// Whether the message is the last one of its user's connection, whatever else is said.
    last: bool,
    /// How a request goes to its origin. Nothing of a response rests on it.
    origin: OriginWay,
    closes: bool,
}

impl HeadMaker {
    /// For a request: its source is the user's side. It goes to its origin this way. An answer to it may be the last one of the user's
    /// connection.
    pub fn for_request(last: bool, origin: OriginWay) -> HeadMaker
        ensures user { result.user ≡ None }
        ensures last { result.last ≡ last }
        ensures origin { result.origin ≡ origin }
        ensures closes { result.closes ≡ true }
    {
        HeadMaker {
            user: None,
            last,
            origin,
            closes: true,
        }
    }

    /// For a response: this is the side of the user whose request it answers. It may be the last one of the user's connection.
    pub fn for_response(user: SourceSide, last: bool) -> HeadMaker
        ensures user { result.user ≡ Some user }
        ensures last { result.last ≡ last }
        ensures closes { result.closes ≡ true }
    {
        HeadMaker {
            user: Some(user),
            last,
            origin: OriginWay::straight(OriginUse::Once),
            closes: true,
        }
    }

    /// Whether the user's connection ends after the message: as the head that was made last said, and also if no head was made.
    pub fn closes(&self) -> bool
        ensures { result ≡ self.now.closes }
    {
        self.closes
    }

    /// The user's side again, where the message is a response.
    pub fn into_user(self) -> Option<SourceSide>
        ensures { result ≡ self.user }
    {
        self.user
    }

    /// The head of the user's request, once it was read.
    fn asked<'a>(&'a self, source: &'a SourceSide) -> Option<&'a HttpRequest>
        ensures { option_copied result ≡ request_of (user_head self.now.user source.now.head) }
    {
        match &self.user {
            Some(side) => side.request_head(),
            None => source.request_head(),
        }
    }

    /// Whether the user's body was read to its end.
    fn body_read(&self, state: &State) -> bool
        ensures { IfSome self.now.user (λ user. user.head ≡ SourceHead.Unread → ⊥) → result ≡ body_read_of self.now.user (shows state.now) }
    {
        match &self.user {
            Some(side) => side.ended(),
            None => state.seen().ended,
        }
    }

    /// Whether the user's connection may carry a further request: its body was read to its end, and the message isn't the last.
    fn carries_on(&self, state: &State) -> bool
        ensures { IfSome self.now.user (λ user. user.head ≡ SourceHead.Unread → ⊥) → result ≡ carries_on_of self.now.last self.now.user (shows state.now) }
    {
        let read = self.body_read(state);
        !self.last && read
    }

    /// The head of the chosen message: of the original, or of what a service made, where its head is given. On a connection
    /// that was kept no head is made of a request that may not be sent again: then the fault is the next hop's.
    pub fn make(
        &self,
        alloc: Global,
        state: &State,
        source: &SourceSide,
        adapted: Option<&[u8]>,
        is_response: bool,
    ) -> Result<Headed, Cause>
        ensures ok { IfOk result (Makes self.now.origin self.now.last self.now.user source.now.head (shows state.now) (option_copied adapted.entry) is_response) }
        ensures err { IfErr result (MakesNone self.now.origin self.now.user source.now.head (shows state.now) (option_copied adapted.entry) is_response) }
    {
        let Some(user) = self.asked(source) else {
            return Err(Cause::Source);
        };
        let asked = Asked {
            user,
            carries_on: self.carries_on(state),
            origin: self.origin,
        };
        let has_body = state.seen().has_body;
        chosen(alloc, asked, source, adapted, is_response, has_body)
    }

    /// Makes the head that goes on, and remembers whether the user's connection ends after the message.
    fn make_next(
        &mut self,
        alloc: Global,
        state: &State,
        source: &SourceSide,
        adapted: Option<&[u8]>,
        is_response: bool,
    ) -> Result<(Vec<u8>, Framing), Cause>
        ensures ok { IfOk result (λ made. Remembers self.old.origin self.old.last self.old.user source.now.head (shows state.now) (option_copied adapted.entry) is_response made.0.items made.1 self.new.closes) }
        ensures err { IfErr result (MakesNone self.old.origin self.old.user source.now.head (shows state.now) (option_copied adapted.entry) is_response) }
        ensures user { self.new.user ≡ self.old.user }
        ensures last { self.new.last ≡ self.old.last }
        ensures origin { self.new.origin ≡ self.old.origin }
    {
        let headed = self.make(alloc, state, source, adapted, is_response)?;
        self.closes = headed.closes;
        Ok((headed.head, headed.framing))
    }
}

/// The head of the original.
fn original(alloc: Global, asked: Asked<'_>, source: &SourceSide) -> Result<Headed, Cause>
    ensures ok { IfOk result (MakesOf source.now.head asked.entry.user.now asked.entry.carries_on asked.entry.origin None false false) }
    ensures err { IfErr result (MakesNoneOf source.now.head asked.entry.user.now asked.entry.origin None false false) }
{
    if let Some(request) = source.request_head() {
        return request_onward(alloc, asked, request, BodyKind::Own);
    }
    match source.response_head() {
        Some(response) => response_onward(alloc, asked, response, BodyKind::Own),
        None => Err(Cause::Source),
    }
}

/// The head of the original, or of what a service made.
fn chosen(
    alloc: Global,
    asked: Asked<'_>,
    source: &SourceSide,
    adapted: Option<&[u8]>,
    is_response: bool,
    has_body: bool,
) -> Result<Headed, Cause>
    ensures ok { IfOk result (MakesOf source.now.head asked.entry.user.now asked.entry.carries_on asked.entry.origin (option_copied adapted.entry) is_response has_body) }
    ensures err { IfErr result (MakesNoneOf source.now.head asked.entry.user.now asked.entry.origin (option_copied adapted.entry) is_response has_body) }
{
    match adapted {
        None => original(alloc, asked, source),
        Some(text) => {
            if is_response {
                adapted_response(alloc, asked, text, has_body)
            } else {
                adapted_request(alloc, asked, text, has_body)
            }
        }
    }
}

impl MakesHead<SourceSide, HopWriter> for HeadMaker {
    ghost makes = { λ maker source x adapted is_response head framing. Remembers maker.origin maker.last maker.user source x adapted is_response head framing maker.closes };

    ghost makes_none = { λ maker source x adapted is_response cause. MakesNone maker.origin maker.user source x adapted is_response cause };

    fn forward(
        &mut self,
        alloc: Global,
        state: &State,
        source: &SourceSide,
        adapted: Option<&[u8]>,
        is_response: bool,
    ) -> Result<(Vec<u8>, Framing), Cause> {
        self.make_next(alloc, state, source, adapted, is_response)
    }
}
