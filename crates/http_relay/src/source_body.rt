//! A source's body: it takes bytes, answers In and End, and knows no wire.

ghost use Rattle.std.specs.Prelude.{◌≡◌, ℕ, ◌+◌, ◌<◌, ◌≤◌, ◌↔◌, ◌⊎◌, List, [], length, take, drop, IfOk, IfErr, OnOk, OnErr, IfSome, Some, true, false, IsTrue};
ghost use Rattle.http_side.specs.Body.{HasRead, runs_past};
ghost use Rattle.trace_core.specs.Turns.{in_sum};
ghost use Rattle.http_relay.specs.Events.{source_events};
ghost use Rattle.http_relay.specs.Source.{Agrees, MayTell, BodyReads, TellsEnd, IsCutShort, MustWait, Refuses, RunsPast};
ghost use Rattle.http_relay.specs.Message.{length_of};

use crate::body::read_body;
use adapt_bytes::COUNT_LIMIT;
use adapt_sides::RelayFault;
use arrayvec::ArrayVec;
use http_side::{BodyReader, Framing};
use trace_core::{Event, Seen};

/// What was framed of the offered bytes: how many of the first ones, and their events.
#[derive(Drop)]
pub(crate) struct Framed {
    pub(crate) used: usize,
    pub(crate) events: ArrayVec<Event, 4>,
}

/// A source's body, as far as it was read and reported.
#[derive(Clone, Copy)]
pub(crate) struct SourceBody {
    framing: Framing,
    reader: BodyReader,
    received: u64,
    ended: bool,
}

impl SourceBody {
    pub(crate) fn new(framing: Framing) -> SourceBody
        ensures framing { result.framing ≡ framing }
        ensures reads { HasRead framing [] [] result.reader }
        ensures received { result.received ≡ 0 }
        ensures ended { result.ended ≡ false }
    {
        SourceBody {
            framing,
            reader: BodyReader::new(framing),
            received: 0,
            ended: false,
        }
    }

    /// No body, before a head was read.
    pub(crate) fn idle() -> SourceBody
        ensures { result.ended ≡ true }
    {
        SourceBody {
            framing: Framing::None,
            reader: BodyReader::new(Framing::None),
            received: 0,
            ended: true,
        }
    }

    /// Whether the body's end was reported.
    pub(crate) fn has_ended(&self) -> bool
        ensures { result ≡ self.now.ended }
    {
        self.ended
    }

    /// How it is framed.
    pub(crate) fn framing(&self) -> Framing
        ensures { result ≡ self.now.framing }
    {
        self.framing
    }

    /// Whether nothing of it was reported yet, and this length, if there is one, is the framing's.
    pub(crate) fn begins(&self, len: Option<u64>) -> bool
        ensures { IsTrue result ↔ ((self.now.received ≡ 0) × (self.now.ended ≡ false) × IfSome len (λ n. length_of self.now.framing ≡ Some n)) }
    {
        self.received == 0 && !self.ended && self.has_length(len)
    }

    /// Whether its numbers are those of what is seen, and a length that the plan knows is the framing's.
    pub(crate) fn agrees_with(&self, seen: &Seen) -> bool
        ensures { IsTrue result ↔ Agrees seen.now self.now }
    {
        seen.received == self.received && seen.ended == self.ended && self.has_length(seen.plan.len)
    }

    /// Whether this length, if there is one, is the framing's.
    fn has_length(&self, len: Option<u64>) -> bool
        ensures { IsTrue result ↔ IfSome len (λ n. length_of self.now.framing ≡ Some n) }
    {
        match (len, self.framing) {
            (None, _) => true,
            (Some(n), Framing::None) => n == 0,
            (Some(n), Framing::Length(count)) => n == count,
            (Some(_), Framing::Chunked | Framing::Close) => false,
        }
    }

    /// Whether this many more bytes may be reported, and then the end.
    fn may_tell(&self, count: u64, ended: bool) -> bool
        ensures { IsTrue result ↔ MayTell self.now count ended }
    {
        if self.received >= COUNT_LIMIT || count >= COUNT_LIMIT - self.received {
            return false;
        }
        let sum = self.received + count;
        match self.framing {
            Framing::None => sum == 0,
            Framing::Length(len) => sum <= len && (!ended || sum == len),
            Framing::Chunked | Framing::Close => true,
        }
    }

    /// Frames what can be framed of the bytes. Those of the body go to the beginning of `out`; the events give their number.
    pub(crate) fn frame(&mut self, raw: &[u8], out: &mut [u8]) -> Result<Framed, RelayFault>
        ensures within { IfOk result (λ framed. (framed.used ≤ length raw.now) × (in_sum framed.events.items ≤ length out.old)) }
        ensures reads { IfOk result (λ framed. BodyReads self.old self.new framed.events.items (take framed.used raw.now) (take (in_sum framed.events.items) out.new) false) }
        ensures ends { OnOk result (TellsEnd self.old self.new) }
        ensures waits { IfOk result (λ framed. framed.events.items ≡ [] → MustWait self.new (drop framed.used raw.now) (length out.old)) }
        ensures refuses { IfErr result (λ fault. Refuses fault self.old raw.now) }
        ensures err { OnErr result (self.new ≡ self.old) }
        ensures framing { self.new.framing ≡ self.old.framing }
    {
        if self.ended {
            return Ok(Framed {
                used: 0,
                events: ArrayVec::new(),
            });
        }
        let mut next = self.reader;
        match read_body(&mut next, raw, out) {
            Ok(copied) => {
                if !self.may_tell(copied.count as u64, copied.ended) {
                    return Err(RelayFault::Length);
                }
                self.reader = next;
                self.received += copied.count as u64;
                self.ended = copied.ended;
                Ok(Framed {
                    used: copied.used,
                    events: source_events(copied.count, copied.ended),
                })
            }
            Err(_) => Err(RelayFault::Chunk),
        }
    }

    /// Whether so many bytes that come next are the body's, whatever they are, and may be reported, and it goes on after them.
    pub(crate) fn runs_past(&self, count: usize) -> bool
        ensures { IsTrue result ↔ RunsPast count self.now }
    {
        !self.ended && self.reader.runs_past(count as u64) && self.may_tell(count as u64, false)
    }

    /// Takes further bytes that are all the body's, and after which it goes on.
    pub(crate) fn take_run(&mut self, run: &[u8]) -> ArrayVec<Event, 4>
        requires { RunsPast (length run.now) self.old }
        ensures events { result.items ≡ source_events (length run.now) false }
        ensures reads { BodyReads self.old self.new result.items run.now run.now false }
        ensures ends { TellsEnd self.old self.new }
        ensures framing { self.new.framing ≡ self.old.framing }
    {
        self.reader.take_run(run);
        self.received += run.len() as u64;
        source_events(run.len(), false)
    }

    /// The connection was closed after what was read.
    pub(crate) fn close(&mut self) -> Result<ArrayVec<Event, 4>, RelayFault>
        requires { self.old.ended ≡ false }
        ensures none { IfOk result (λ events. in_sum events.items ≡ 0) }
        ensures some { IfOk result (λ events. events.items ≡ source_events 0 true) }
        ensures reads { IfOk result (λ events. BodyReads self.old self.new events.items [] [] true) }
        ensures ends { OnOk result (self.new.ended ≡ true) }
        ensures refuses { IfErr result (λ fault. Refuses fault self.old [] ⊎ ((fault ≡ RelayFault.Closed) × IsCutShort self.old)) }
        ensures err { OnErr result (self.new ≡ self.old) }
        ensures framing { self.new.framing ≡ self.old.framing }
    {
        if !self.reader.at_close() {
            return Err(RelayFault::Closed);
        }
        if !self.may_tell(0, true) {
            return Err(RelayFault::Length);
        }
        self.ended = true;
        Ok(source_events(0, true))
    }
}

/// The events for this many bytes of the body, and for its end.
fn source_events(count: usize, ended: bool) -> ArrayVec<Event, 4>
    ensures { result.items ≡ source_events count ended }
{
    let mut events = ArrayVec::new();
    if count > 0 {
        let _ = events.try_push(Event::In(count as u64));
    }
    if ended {
        let _ = events.try_push(Event::End);
    }
    events
}
