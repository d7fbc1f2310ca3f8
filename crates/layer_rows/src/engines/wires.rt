//! Wires in memory, and the gates.

use std::alloc::Global;
use std::time::Clock;
use test_rows::{
    NoMemory, Scene, Values, answers, put_flag, put_number, put_shown, put_text, wire, words_of,
};
use wire_kit::{Answers, Gate, HoldGate, MemoryWire, OpenGate, SharedWire, Wire};

/// Adds what a call of a wire answers: `read`, or the bytes that are offered.
fn put_call(
    wire: &mut impl Wire,
    call: &[u8],
    buf: &mut [u8; 4],
    out: &mut Vec<u8>,
) -> Result<(), NoMemory> {
    if call == b"read".as_slice() {
        return put_shown(out, b"read", &wire.try_read(buf));
    }
    if call.is_empty() {
        return Ok(());
    }
    put_shown(out, b"write", &wire.try_write(call))
}

/// Adds how many bytes a wire gave and took.
fn put_counts(wire: &impl Wire, out: &mut Vec<u8>) -> Result<(), NoMemory> {
    let (read, taken) = wire.counts();
    put_number(out, b"bytes read", read)?;
    put_number(out, b"bytes taken", taken)
}

/// Adds what a wire answers to the row's calls, what it took, and what the reads left in a buffer of four bytes.
pub fn put_wire(
    alloc: Global,
    scene: Scene<'_>,
    values: Values,
    out: &mut Vec<u8>,
) -> Result<(), NoMemory> {
    let mut wire = wire(alloc, scene, b"input", b"reads", b"writes", values)?;
    put_calls(&mut wire, scene, out)?;
    put_text(out, scene, b"taken", wire.taken(), values)?;
    put_counts(&wire, out)
}

/// Adds what the calls answer, and what they left in the buffer.
fn put_calls(wire: &mut MemoryWire, scene: Scene<'_>, out: &mut Vec<u8>) -> Result<(), NoMemory> {
    let mut buf = [0; 4];
    for call in words_of(scene.get(b"calls")) {
        put_call(wire, call, &mut buf, out)?;
    }
    put_shown(out, b"buffer", &buf)
}

/// Adds what two wires answer: reads go to the first, and writes to the second.
fn put_both(
    source: &mut SharedWire<'_>,
    hop: &mut SharedWire<'_>,
    scene: Scene<'_>,
    values: Values,
    out: &mut Vec<u8>,
) -> Result<(), NoMemory> {
    let mut buf = [0; 4];
    for call in words_of(scene.get(b"calls")) {
        if call == b"read".as_slice() {
            put_call(source, call, &mut buf, out)?;
        } else {
            put_call(hop, call, &mut buf, out)?;
        }
    }
    put_text(out, scene, b"taken", hop.taken(), values)?;
    put_counts(source, out)?;
    put_counts(hop, out)
}

/// Adds what two wires answer that share their answers.
pub fn put_shared(
    alloc: Global,
    scene: Scene<'_>,
    values: Values,
    out: &mut Vec<u8>,
) -> Result<(), NoMemory> {
    let answers = Answers::new(answers(alloc, scene, b"answers", values)?);
    let input = scene.get(b"input").to_vec(alloc)?;
    let mut source = SharedWire::new(alloc, &answers, input, 0)?;
    let mut hop = SharedWire::new(alloc, &answers, Vec::new(alloc), 8)?;
    put_both(&mut source, &mut hop, scene, values, out)
}

/// Adds whether transactions may pass a gate: each step is a transaction's number, or `answered` once the second was answered.
pub fn put_gate<R: Clock>(rt: &R, scene: Scene<'_>, out: &mut Vec<u8>) -> Result<(), NoMemory> {
    let gate = HoldGate::new();
    for step in words_of(scene.get(b"steps")) {
        match test_rows::number(step) {
            Some(number) => put_flag(out, step, gate.may_pass(rt, number))?,
            None if step == b"answered".as_slice() => gate.answered(),
            None => put_flag(out, b"open gate, 1", OpenGate.may_pass(rt, 1))?,
        }
    }
    Ok(())
}
