//! Messages on their way from one wire to another.
ghost use Rattle.std.specs.Prelude.{◌≡◌, true};
ghost use Rattle.trace_core.specs.History.{shows};
ghost use Rattle.adapt_sides.specs.Tapes.{KeepsUndelivered};

use crate::engines::kept::KeptBytes;
use adapt_sides::{MAX_READ, WIRE_ROOM};
use http_relay::{HeadProgress, HopWriter, RelayFault, SourceSide, Turn};
use http_side::{
    BodyKind, Forward, Framing, HttpFault, HttpRequest, Message, OriginUse, OriginWay,
    forward_head, read_request,
};
use span_tape::SpanTape;
use std::alloc::Global;
use test_rows::{NoMemory, Scene, Values, put_line, put_shown, put_text, wire};
use trace_core::{Kind, Plan, Point, State};
use wire_kit::{MemoryWire, Wire};

/// The most turns in a row in which no byte moves: in each an interim response may be dropped, all of which came with one read.
const MAX_STILL: usize = 40;

/// How a message ended.
#[derive(Debug, Drop)]
pub enum RelayEnd {
    /// The next hop took all of it.
    Done,
    /// Its source failed.
    Source(RelayFault),
    /// The next hop's side failed.
    NextHop(RelayFault),
    /// No wire gives or takes any more.
    Waiting,
}

/// A source and a next hop over their wires, as rows pass messages between them.
trait Ends {
    /// A turn of the source: before its head was read no turn comes of it, and with the head the message begins.
    fn read(&mut self, alloc: Global, out: &mut [u8]) -> Result<Option<Turn>, RelayFault>;
    /// A turn of the next hop's side.
    fn write(&mut self, state: &State, tape: &SpanTape) -> Result<Turn, RelayFault>
        requires { KeepsUndelivered (shows state.now) tape.now };
    /// Goes on to the next message, if this one was read to its end.
    fn go_on(&mut self, alloc: Global);
    /// How many bytes each wire gave and took.
    fn counts(&self) -> ((u64, u64), (u64, u64));
    /// What the next hop took.
    fn taken(&self) -> &[u8];
    /// Why the source's head was refused.
    fn head_fault(&self) -> Option<HttpFault>;
}

/// Both sides with their wires.
#[derive(Drop)]
struct Wired {
    user: Option<HttpRequest>,
    source: SourceSide,
    from: MemoryWire,
    hop: HopWriter,
    to: MemoryWire,
}

/// A message between two wires.
#[derive(Drop)]
struct Exchange<'a, E> {
    ends: &'a mut E,
    state: &'a mut State,
}

/// Whether the tape has what may still go out of the chosen message, and nothing before it.
pub fn is_in_step(state: &State, tape: &SpanTape) -> bool
    ensures { result ≡ true → KeepsUndelivered (shows state.now) tape.now }
{
    let seen = state.seen();
    let (came, out) = if seen.plan.kind == Kind::Plain || seen.no_mod {
        (seen.received, seen.original_delivered)
    } else {
        (seen.adapted_received, seen.adapted_delivered)
    };
    tape.end() == came && tape.base() == out
}

/// Takes the events of a turn into the history, and says how many body bytes came.
pub fn step(state: &mut State, turn: &Turn) -> usize {
    let before = state.seen().received;
    for event in turn.events.as_slice() {
        let _ = state.step(*event);
    }
    state.seen().received.saturating_sub(before) as usize
}

/// The head that goes on, and how the body goes.
fn forwarded(
    alloc: Global,
    source: &SourceSide,
    user: Option<&HttpRequest>,
) -> Result<Option<(Vec<u8>, Framing)>, NoMemory> {
    let forward = match (source.request_head(), source.response_head(), user) {
        (Some(request), _, _) => Forward {
            user: request,
            message: Message::Request(request),
            part: BodyKind::Own,
            carries_on: true,
            origin: OriginWay::straight(OriginUse::Once),
        },
        (None, Some(response), Some(user)) => Forward {
            user,
            message: Message::Response(response),
            part: BodyKind::Own,
            carries_on: true,
            origin: OriginWay::straight(OriginUse::Once),
        },
        _ => return Ok(None),
    };
    let head = forward_head(alloc, &forward)?;
    Ok(Some((head, forward.framing())))
}

impl Wired {
    /// Begins the message, once its head was read.
    fn begin(&mut self, alloc: Global) -> Result<(), NoMemory> {
        let found = forwarded(alloc, &self.source, self.user.as_ref())?;
        if let Some((head, framing)) = found
            && self.hop.is_idle()
        {
            self.hop.begin(head, framing);
        }
        Ok(())
    }
}

impl Ends for Wired {
    fn read(&mut self, alloc: Global, out: &mut [u8]) -> Result<Option<Turn>, RelayFault> {
        if !self.hop.is_idle() {
            return Ok(Some(
                self.source
                    .read_turn(&mut self.from, out, &mut [0; WIRE_ROOM])?,
            ));
        }
        let came = self.source.head_turn(&mut self.from, &mut [0; MAX_READ])?;
        if came == HeadProgress::Taken && self.begin(alloc).is_err() {
            return Err(RelayFault::NoMemory);
        }
        Ok(None)
    }

    fn write(&mut self, state: &State, tape: &SpanTape) -> Result<Turn, RelayFault> {
        self.hop
            .write_turn(state, tape, &mut self.to, &mut [0; WIRE_ROOM])
    }

    fn go_on(&mut self, alloc: Global) {
        if self.source.ended() {
            self.source.next();
        }
        self.hop = HopWriter::new(alloc);
    }

    fn counts(&self) -> ((u64, u64), (u64, u64)) {
        (self.from.counts(), self.to.counts())
    }

    fn taken(&self) -> &[u8] {
        self.to.taken()
    }

    fn head_fault(&self) -> Option<HttpFault> {
        self.source.head_fault()
    }
}

impl<'a, E: Ends> Exchange<'a, E> {
    /// A turn of the source, whose fault it answers.
    fn read(
        &mut self,
        alloc: Global,
        kept: &mut KeptBytes,
    ) -> Result<Option<RelayFault>, NoMemory> {
        let mut out = [0; 64];
        match self.ends.read(alloc, &mut out) {
            Ok(Some(turn)) => {
                let count = step(self.state, &turn);
                kept.append(&out[..count.min(64)]);
                Ok(None)
            }
            Ok(None) => Ok(None),
            Err(RelayFault::NoMemory) => Err(NoMemory),
            Err(fault) => Ok(Some(fault)),
        }
    }

    /// A turn of the next hop's side, whose fault it answers.
    fn write(&mut self, kept: &mut KeptBytes) -> Option<RelayFault> {
        if !is_in_step(self.state, kept.tape()) {
            return None;
        }
        match self.ends.write(self.state, kept.tape()) {
            Ok(turn) => {
                let _ = step(self.state, &turn);
                kept.drop_to(self.state.seen().original_delivered);
                None
            }
            Err(fault) => Some(fault),
        }
    }

    /// Up to this many turns of both, until one message is out or failed, or nothing moves any more.
    fn pass(
        &mut self,
        alloc: Global,
        kept: &mut KeptBytes,
        turns: usize,
    ) -> Result<RelayEnd, NoMemory> {
        let mut idle: usize = 0;
        for _ in 0..turns {
            let before = self.ends.counts();
            if let Some(fault) = self.read(alloc, kept)? {
                return Ok(RelayEnd::Source(fault));
            }
            if let Some(fault) = self.write(kept) {
                return Ok(RelayEnd::NextHop(fault));
            }
            if self.state.seen().closed {
                return Ok(RelayEnd::Done);
            }
            let same = self.ends.counts() == before;
            idle = if same { idle.saturating_add(1) } else { 0 };
            if idle > MAX_STILL {
                break;
            }
        }
        Ok(RelayEnd::Waiting)
    }

    /// Passes this many messages on, one after the other, and adds what the next hop took and how the last one ended.
    fn put_passed(
        &mut self,
        alloc: Global,
        scene: Scene<'_>,
        values: Values,
        kept: &mut KeptBytes,
        out: &mut Vec<u8>,
    ) -> Result<(), NoMemory> {
        let turns = scene.number_or(b"turns", values, 250);
        let mut end = self.pass(alloc, kept, turns)?;
        for _ in 1..scene.number_or(b"messages", values, 1) {
            if let Some(state) = plain() {
                self.ends.go_on(alloc);
                *self.state = state;
                kept.clear();
                end = self.pass(alloc, kept, turns)?;
            }
        }
        put_text(out, scene, b"taken", self.ends.taken(), values)?;
        if let Some(why) = self.ends.head_fault() {
            put_shown(out, b"why", &why)?;
        }
        put_shown(out, b"end", &end)
    }
}

/// A history of a message that no service sees, before its first event.
fn plain() -> Option<State> {
    let plan = Plan::new(Kind::Plain, false, false, None, Point::Respmod)?;
    Some(State::begin(plan))
}

/// The user's request, where it isn't the message itself.
fn user_of(alloc: Global, scene: Scene<'_>) -> Result<Option<HttpRequest>, NoMemory> {
    if !scene.has(b"user") {
        return Ok(None);
    }
    match read_request(alloc, scene.get(b"user"), false) {
        Ok(head) => Ok(Some(head.value)),
        Err(HttpFault::NoMemory) => Err(NoMemory),
        Err(_) => Ok(None),
    }
}

/// The side of the row's messages.
fn source_of(alloc: Global, user: Option<&HttpRequest>) -> SourceSide {
    match user {
        Some(user) => SourceSide::response(alloc, user.method() == b"HEAD".as_slice()),
        None => SourceSide::request(alloc),
    }
}

/// Both sides of the row's messages, with their wires.
fn ends_of(alloc: Global, scene: Scene<'_>, values: Values) -> Result<Wired, NoMemory> {
    let from = wire(alloc, scene, b"source", b"reads", b"", values)?;
    let to = wire(alloc, scene, b"", b"", b"writes", values)?;
    let user = user_of(alloc, scene)?;
    let source = source_of(alloc, user.as_ref());
    Ok(Wired {
        user,
        source,
        from,
        hop: HopWriter::new(alloc),
        to,
    })
}

/// Adds what the next hop takes of the row's messages: of requests of a user, or of answers to the request that `user` has.
pub fn put_relayed(
    alloc: Global,
    scene: Scene<'_>,
    values: Values,
    kept: &mut KeptBytes,
    out: &mut Vec<u8>,
) -> Result<(), NoMemory> {
    let Some(mut state) = plain() else {
        return put_line(out, b"no plan");
    };
    let mut ends = ends_of(alloc, scene, values)?;
    let mut exchange = Exchange {
        ends: &mut ends,
        state: &mut state,
    };
    exchange.put_passed(alloc, scene, values, kept, out)
}
