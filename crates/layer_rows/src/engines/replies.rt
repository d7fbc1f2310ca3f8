//! Replies of a service, and what its side reports of them.

use adapt_sides::{ClientFault, Turn, WIRE_ROOM};
use icap_client::ReplySide;
use std::alloc::Global;
use test_rows::{
    NoMemory, Scene, Values, history, put_line, put_number, put_shown, put_text, put_word, wire,
};
use trace_core::{Event, State};
use wire_kit::MemoryWire;

/// The most bytes of the adapted body that a turn may give.
pub const ROOM: usize = 64;

/// What a service's bytes said: the events but those of body bytes, a line each; the body; and the fault.
#[derive(Drop)]
pub struct HeardReply {
    pub events: Vec<u8>,
    pub body: Vec<u8>,
    pub fault: Option<ClientFault>,
    /// No memory was found for what was reported.
    pub lost: bool,
}

impl HeardReply {
    pub fn new(alloc: Global) -> HeardReply {
        HeardReply {
            events: Vec::new(alloc),
            body: Vec::new(alloc),
            fault: None,
            lost: false,
        }
    }

    /// Keeps an event, and the bytes that came with it.
    fn keep(&mut self, event: Event, out: &[u8]) {
        let kept = if let Event::Ad(count) = event {
            self.body
                .extend_from_slice(&out[..out.len().min(count as usize)])
        } else {
            put_shown(&mut self.events, b"event", &event)
        };
        if kept.is_err() {
            self.lost = true;
        }
    }

    /// Keeps that a turn had to wait.
    fn keep_waiting(&mut self) {
        if put_line(&mut self.events, b"waiting").is_err() {
            self.lost = true;
        }
    }

    /// Steps what a turn of the writing half reported.
    pub fn step(&mut self, state: &mut State, turn: Result<Turn, ClientFault>) {
        match turn {
            Ok(turn) => {
                for event in turn.events.as_slice() {
                    let _ = state.step(*event);
                }
            }
            Err(fault) => self.fault = Some(fault),
        }
    }

    /// Keeps what a turn of the reading half reported, and steps it.
    pub fn take(&mut self, state: &mut State, turn: Result<Turn, ClientFault>, out: &[u8]) {
        match turn {
            Ok(turn) => {
                for event in turn.events.as_slice() {
                    let _ = state.step(*event);
                    self.keep(*event, out);
                }
            }
            Err(fault) => self.fault = Some(fault),
        }
    }

    /// Adds what was reported.
    pub fn put(&self, scene: Scene<'_>, values: Values, out: &mut Vec<u8>) -> Result<(), NoMemory> {
        if self.lost || self.fault == Some(ClientFault::NoMemory) {
            return Err(NoMemory);
        }
        out.extend_from_slice(&self.events)?;
        if !self.body.is_empty() {
            put_text(out, scene, b"body", &self.body, values)?;
        }
        match self.fault {
            Some(fault) => put_word(out, b"fault", fault.name().as_bytes()),
            None => Ok(()),
        }
    }
}

/// Whether a turn did nothing, or failed.
fn is_idle(turn: &Result<Turn, ClientFault>) -> bool {
    match turn {
        Ok(turn) => turn.waiting,
        Err(_) => true,
    }
}

/// How many turns in a row may do nothing before a run ends.
pub const MAX_IDLE: usize = 4;

/// Turns of the side: `early` ones before all of the preview is out, and then others, until nothing moves any more.
fn read(
    side: &mut ReplySide,
    state: &mut State,
    wire: &mut MemoryWire,
    told: &mut HeardReply,
    room: usize,
    early: usize,
    turns: usize,
) {
    let mut idle: usize = 0;
    for turn in 0..turns {
        let mut out = [0; ROOM];
        let found = side.read_turn(
            state,
            turn >= early,
            wire,
            &mut out[..room.min(ROOM)],
            &mut [0; WIRE_ROOM],
        );
        if turn < early && matches!(&found, Ok(turn) if turn.waiting) {
            told.keep_waiting();
        }
        idle = if is_idle(&found) {
            idle.saturating_add(1)
        } else {
            0
        };
        told.take(state, found, &out);
        if idle > MAX_IDLE {
            return;
        }
    }
}

/// Adds what the side says of a whole reply.
fn put_side(
    side: &ReplySide,
    scene: Scene<'_>,
    values: Values,
    out: &mut Vec<u8>,
) -> Result<(), NoMemory> {
    if !side.reply_whole() {
        return Ok(());
    }
    if let Some((layout, head)) = side.adapted_head() {
        let name = if layout.res_hdr.is_some() {
            b"response".as_slice()
        } else {
            b"request"
        };
        put_text(out, scene, name, head, values)?;
    }
    if let Some(tag) = side.tag() {
        put_word(out, b"tag", tag)?;
    }
    put_line(out, b"whole")?;
    if side.closes() {
        put_line(out, b"closes")?;
    }
    put_number(out, b"left", side.raw_left() as u64)
}

/// Adds what a reply reports.
pub fn put_reply(
    alloc: Global,
    scene: Scene<'_>,
    values: Values,
    out: &mut Vec<u8>,
) -> Result<(), NoMemory> {
    let Some(mut state) = history(scene) else {
        return put_line(out, b"no such history");
    };
    let room = scene.number_or(b"room", values, ROOM);
    let early = scene.number_or(b"early", values, 0);
    let turns = scene.number_or(b"turns", values, 250);
    let mut wire = wire(alloc, scene, b"reply", b"reads", b"writes", values)?;
    let mut told = HeardReply::new(alloc);
    let mut side = ReplySide::new(alloc, state.seen().plan.point);
    read(
        &mut side, &mut state, &mut wire, &mut told, room, early, turns,
    );
    told.put(scene, values, out)?;
    put_side(&side, scene, values, out)
}
