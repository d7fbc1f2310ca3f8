//! Asking a service for its options.

use crate::engines::replies::MAX_IDLE;
use adapt_sides::{ClientFault, MAX_READ};
use icap_client::OptionsSide;
use icap_head::IcapResponse;
use std::alloc::Global;
use test_rows::{NoMemory, Scene, Values, put_line, put_number, put_text, put_word, wire};
use wire_kit::{MemoryWire, Wire};

/// Adds what the answer says: its status, and the field that the row names.
fn put_answer(
    head: &IcapResponse,
    left: usize,
    scene: Scene<'_>,
    out: &mut Vec<u8>,
) -> Result<(), NoMemory> {
    put_number(out, b"left", left as u64)?;
    put_number(out, b"status", u64::from(head.status))?;
    match head.fields.first(scene.get(b"field")) {
        Some(value) => put_word(out, scene.get(b"field"), value),
        None => put_line(out, b"no such field"),
    }
}

/// Adds what stands at the end.
fn put_all(
    answer: Option<&IcapResponse>,
    fault: Option<ClientFault>,
    left: usize,
    scene: Scene<'_>,
    out: &mut Vec<u8>,
) -> Result<(), NoMemory> {
    if fault == Some(ClientFault::NoMemory) {
        return Err(NoMemory);
    }
    if let Some(head) = answer {
        put_answer(head, left, scene, out)?;
    }
    match fault {
        Some(fault) => put_word(out, b"fault", fault.name().as_bytes()),
        None => Ok(()),
    }
}

/// Adds what turns of the side asked until nothing moves, and what they were answered: the head, and the last fault.
fn put_asked(
    side: &mut OptionsSide,
    wire: &mut MemoryWire,
    scene: Scene<'_>,
    values: Values,
    out: &mut Vec<u8>,
) -> Result<(), NoMemory> {
    let (mut answer, mut fault) = (None, None);
    let mut idle: usize = 0;
    for _ in 0..scene.number_or(b"turns", values, 250) {
        let before = wire.counts();
        match side.turn(wire, &mut [0; MAX_READ]) {
            Ok(Some(head)) => answer = Some(head),
            Ok(None) => {}
            Err(found) => fault = Some(found),
        }
        let same = wire.counts() == before;
        idle = if same { idle.saturating_add(1) } else { 0 };
        if idle > MAX_IDLE {
            break;
        }
    }
    put_text(out, scene, b"asked", wire.taken(), values)?;
    put_all(answer.as_ref(), fault, side.raw_left(), scene, out)
}

/// Adds what the side asked, and what it was answered.
pub fn put_options(
    alloc: Global,
    scene: Scene<'_>,
    values: Values,
    out: &mut Vec<u8>,
) -> Result<(), NoMemory> {
    let mut wire = wire(alloc, scene, b"answer", b"reads", b"writes", values)?;
    let mut side = OptionsSide::new(alloc, b"127.0.0.1", 1344, b"/respmod/pass")?;
    put_asked(&mut side, &mut wire, scene, values, out)
}
