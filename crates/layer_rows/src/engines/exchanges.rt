//! Requests as the service's wire takes them, and whole exchanges with it.
ghost use Rattle.std.specs.Prelude.{◌≡◌, true};
ghost use Rattle.trace_core.specs.History.{shows};
ghost use Rattle.icap_client.specs.Sending.{KeepsUnsent};

use crate::engines::kept::KeptBytes;
use crate::engines::replies::{HeardReply, MAX_IDLE, ROOM};
use adapt_sides::{ClientFault, Turn, WIRE_ROOM};
use icap_client::ServiceSide;
use span_tape::SpanTape;
use std::alloc::Global;
use test_rows::{
    NoMemory, Scene, Values, count_after, history, index_of, put_flag, put_line, put_number,
    put_text, wire, words_of,
};
use trace_core::{Event, Plan, State};
use wire_kit::{MemoryWire, Wire};

/// The service's side over its wire, as a row plays it.
trait PlayedService {
    /// A turn of the writing half.
    fn write(&mut self, state: &State, tape: &SpanTape) -> Result<Turn, ClientFault>
        requires { KeepsUnsent (shows state.now) tape.now };
    /// A turn of the reading half.
    fn read(&mut self, state: &State, out: &mut [u8]) -> Result<Turn, ClientFault>;
    /// Begins the request anew on another wire.
    fn restart(&mut self);
    /// How many bytes the wire gave and took.
    fn counts(&self) -> (u64, u64);
    /// What the wire took.
    fn taken(&self) -> &[u8];
    /// Adds whether the request is whole, whether its connection may be used again, and whether the request is kept.
    fn put_marks(&self, out: &mut Vec<u8>) -> Result<(), NoMemory>;
}

/// The side with its first wire, and another one that comes in its place when the request begins anew.
#[derive(Drop)]
struct Wired {
    side: ServiceSide,
    first: MemoryWire,
    other: MemoryWire,
}

impl PlayedService for Wired {
    fn write(&mut self, state: &State, tape: &SpanTape) -> Result<Turn, ClientFault> {
        self.side
            .write_turn(state, tape, &mut self.first, &mut [0; WIRE_ROOM])
    }

    fn read(&mut self, state: &State, out: &mut [u8]) -> Result<Turn, ClientFault> {
        self.side
            .read_turn(state, &mut self.first, out, &mut [0; WIRE_ROOM])
    }

    fn restart(&mut self) {
        self.side.restart();
        std::mem::swap(&mut self.first, &mut self.other);
    }

    fn counts(&self) -> (u64, u64) {
        self.first.counts()
    }

    fn taken(&self) -> &[u8] {
        self.first.taken()
    }

    fn put_marks(&self, out: &mut Vec<u8>) -> Result<(), NoMemory> {
        put_flag(out, b"request whole", self.side.request_whole())?;
        put_flag(out, b"reusable", self.side.is_reusable())?;
        put_flag(out, b"request kept", self.side.request_room() > 0)
    }
}

/// An exchange: the service's side with the history of its message, and what was reported.
#[derive(Drop)]
struct Exchange<'a, S> {
    service: &'a mut S,
    state: &'a mut State,
    told: &'a mut HeardReply,
}

/// Whether the tape has what the history may still send.
fn is_tape_of(state: &State, tape: &SpanTape) -> bool
    ensures { result ≡ true → KeepsUnsent (shows state.now) tape.now }
{
    let seen = state.seen();
    tape.end() == seen.received && tape.base() <= seen.sent
}

impl<'a, S: PlayedService> Exchange<'a, S> {
    /// A turn of the writing half.
    fn write(&mut self, tape: &SpanTape) {
        if is_tape_of(self.state, tape) {
            let turn = self.service.write(self.state, tape);
            self.told.step(self.state, turn);
        }
    }

    /// A turn of the reading half.
    fn read(&mut self) {
        let mut out = [0; ROOM];
        let turn = self.service.read(self.state, &mut out);
        self.told.take(self.state, turn, &out);
    }

    /// Bytes of the body come.
    fn come(&mut self, kept: &mut KeptBytes, body: &[u8], count: usize) {
        let from = (self.state.seen().received as usize).min(body.len());
        let bytes = &body[from..from.saturating_add(count).min(body.len())];
        kept.append(bytes);
        let _ = self.state.step(Event::In(bytes.len() as u64));
    }

    /// Up to this many turns of both halves, until nothing moves.
    fn turns(&mut self, kept: &KeptBytes, count: usize) {
        let mut idle: usize = 0;
        for _ in 0..count {
            let before = self.service.counts();
            self.write(kept.tape());
            self.read();
            let same = self.service.counts() == before;
            idle = if same { idle.saturating_add(1) } else { 0 };
            if idle > MAX_IDLE {
                return;
            }
        }
    }

    /// A step in words: `come=3`, `end`, `write`, `again` or `turns=250`.
    fn play_step(&mut self, scene: Scene<'_>, kept: &mut KeptBytes, word: &[u8]) {
        if let Some(count) = count_after(word, b"come") {
            return self.come(kept, scene.get(b"body"), count as usize);
        }
        if let Some(count) = count_after(word, b"turns") {
            return self.turns(kept, count as usize);
        }
        match index_of(b"write again end", word) {
            Some(0) => self.write(kept.tape()),
            Some(1) => {
                self.service.restart();
                let _ = self.state.step(Event::Retry);
            }
            _ => {
                let _ = self.state.step(Event::End);
            }
        }
    }

    /// Plays the row's steps, and adds what the wire took, what the service's bytes said, and what is left of the request. After
    /// each write it adds how many bytes the wire has taken, where the row wants that.
    fn put_played(
        &mut self,
        scene: Scene<'_>,
        values: Values,
        kept: &mut KeptBytes,
        out: &mut Vec<u8>,
    ) -> Result<(), NoMemory> {
        for word in words_of(scene.get(b"steps")) {
            self.play_step(scene, kept, word);
            if scene.has(b"counts") && word == b"write".as_slice() {
                put_number(out, b"taken", self.service.taken().len() as u64)?;
            }
        }
        put_text(out, scene, b"taken", self.service.taken(), values)?;
        self.told.put(scene, values, out)?;
        self.service.put_marks(out)
    }
}

/// A side that offers the row's message.
fn offer(alloc: Global, plan: &Plan, scene: Scene<'_>) -> Result<Option<ServiceSide>, NoMemory> {
    let (path, req, res) = (
        scene.get(b"path"),
        scene.get(b"request"),
        scene.get(b"response"),
    );
    if req.len() > 65_536 || res.len() > 65_536 {
        return Ok(None);
    }
    let from = scene.address(b"from");
    let carried = scene.get(b"carried");
    Ok(Some(ServiceSide::new(
        alloc,
        plan,
        from,
        carried,
        b"127.0.0.1",
        1344,
        path,
        req,
        res,
    )?))
}

/// The row's side with its wires; `None` where a head is too long.
fn service_of(
    alloc: Global,
    plan: &Plan,
    scene: Scene<'_>,
    values: Values,
) -> Result<Option<Wired>, NoMemory> {
    let first = wire(alloc, scene, b"reply", b"reads", b"writes", values)?;
    let other = wire(alloc, scene, b"", b"", b"anew", values)?;
    match offer(alloc, plan, scene)? {
        Some(side) => Ok(Some(Wired { side, first, other })),
        None => Ok(None),
    }
}

/// Adds what an exchange reports.
pub fn put_exchange(
    alloc: Global,
    scene: Scene<'_>,
    values: Values,
    kept: &mut KeptBytes,
    out: &mut Vec<u8>,
) -> Result<(), NoMemory> {
    let Some(mut state) = history(scene) else {
        return put_line(out, b"no such history");
    };
    let plan = state.seen().plan;
    let Some(mut service) = service_of(alloc, &plan, scene, values)? else {
        return put_line(out, b"a head that is too long");
    };
    let mut told = HeardReply::new(alloc);
    let mut exchange = Exchange {
        service: &mut service,
        state: &mut state,
        told: &mut told,
    };
    exchange.put_played(scene, values, kept, out)
}
