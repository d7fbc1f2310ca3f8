//! What a next hop gets of an adapted message, and of a refusal.

use crate::engines::kept::KeptBytes;
use crate::engines::relays::{RelayEnd, is_in_step, step};
use adapt_sides::WIRE_ROOM;
use http_relay::HopWriter;
use http_side::Framing;
use std::alloc::Global;
use test_rows::{
    NoMemory, Scene, Values, count_after, history, index_of, put_flag, put_line, put_shown,
    put_text, wire,
};
use trace_core::State;
use wire_kit::MemoryWire;

/// How a body goes: `length=6`, `close`, `chunked`, or not at all.
fn framing_of(words: &[u8]) -> Framing {
    if let Some(count) = count_after(words, b"length") {
        return Framing::Length(count);
    }
    match index_of(b"close chunked", words) {
        Some(0) => Framing::Close,
        Some(1) => Framing::Chunked,
        _ => Framing::None,
    }
}

/// A side that has begun the row's message, and its refusal where the row has one.
fn hop_of(alloc: Global, scene: Scene<'_>) -> Result<HopWriter, NoMemory> {
    let head = scene.get(b"head").to_vec(alloc)?;
    let mut hop = HopWriter::new(alloc);
    if hop.is_idle() {
        hop.begin(head, framing_of(scene.get(b"framing")));
    }
    if scene.has(b"refuse") && hop.untouched() {
        hop.refuse(502);
    }
    Ok(hop)
}

/// A turn of the side.
fn write(hop: &mut HopWriter, state: &mut State, kept: &mut KeptBytes, wire: &mut MemoryWire) {
    if is_in_step(state, kept.tape())
        && let Ok(turn) = hop.write_turn(state, kept.tape(), wire, &mut [0; WIRE_ROOM])
    {
        let _ = step(state, &turn);
        kept.drop_to(state.seen().adapted_delivered);
    }
}

/// How the message ended.
fn end_of(hop: &HopWriter, state: &State) -> RelayEnd {
    match hop.fault() {
        Some(fault) => RelayEnd::NextHop(fault),
        None if state.seen().closed => RelayEnd::Done,
        None => RelayEnd::Waiting,
    }
}

/// Adds what the next hop took.
pub fn put_given(
    alloc: Global,
    scene: Scene<'_>,
    values: Values,
    kept: &mut KeptBytes,
    out: &mut Vec<u8>,
) -> Result<(), NoMemory> {
    let Some(mut state) = history(scene) else {
        return put_line(out, b"no such history");
    };
    let turns = scene.number_or(b"turns", values, 250);
    let mut wire = wire(alloc, scene, b"", b"", b"writes", values)?;
    let mut hop = hop_of(alloc, scene)?;
    kept.append(scene.get(b"body"));
    for _ in 0..turns {
        write(&mut hop, &mut state, kept, &mut wire);
    }
    put_hop(&hop, &state, wire.taken(), scene, values, out)
}

/// Adds what was taken, and how the message ended; of a refusal whether it is out, and whether a byte is.
fn put_hop(
    hop: &HopWriter,
    state: &State,
    taken: &[u8],
    scene: Scene<'_>,
    values: Values,
    out: &mut Vec<u8>,
) -> Result<(), NoMemory> {
    put_text(out, scene, b"taken", taken, values)?;
    if scene.has(b"refuse") {
        put_flag(out, b"touched", !hop.untouched())?;
        return put_flag(out, b"out", hop.is_out());
    }
    put_shown(out, b"end", &end_of(hop, state))
}
