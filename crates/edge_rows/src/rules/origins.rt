//! What becomes of an origin's connection after an answer (RFC 9112, section 9.3), and which requests may be sent again (RFC 9110,
//! section 9.2).
use adapt_sides::{MAX_READ, WIRE_ROOM};
use adapt_turn::Outcome;
use http_relay::{HeadProgress, SourceSide};
use http_side::read_request;
use proxy_rules::{keeps_origin, may_repeat};
use std::alloc::Global;
use test_rows::{NoMemory, Scene, put_flag, put_line, put_number};
use trace_core::Cause;
use wire_kit::{MemoryWire, ReadAnswer};

/// The most turns at an answer's head, and then at its body.
const TURNS: u32 = 8;

/// A wire that gives these bytes, and then ends if the row says so.
fn wire_of(alloc: Global, text: &[u8], ends: bool) -> Result<MemoryWire, NoMemory> {
    let mut reads = Vec::new(alloc);
    reads.push(ReadAnswer::Bytes(4096))?;
    if ends {
        reads.push(ReadAnswer::Ended)?;
    }
    MemoryWire::new(alloc, text.to_vec(alloc)?, reads, Vec::new(alloc))
}

/// The side of an origin that sent these bytes, as far as they are read.
fn side_of(alloc: Global, text: &[u8], scene: Scene<'_>) -> Result<SourceSide, NoMemory> {
    let mut side = SourceSide::response(alloc, scene.has(b"to-head"));
    let mut wire = wire_of(alloc, text, scene.has(b"ends"))?;
    for _ in 0..TURNS {
        if let Ok(HeadProgress::Taken) = side.head_turn(&mut wire, &mut [0; MAX_READ]) {
            break;
        }
    }
    for _ in 0..TURNS {
        let _ = side.read_turn(&mut wire, &mut [0; 64], &mut [0; WIRE_ROOM]);
    }
    Ok(side)
}

/// Adds whether the connection is kept after this answer, after one that failed otherwise, and after how many of its prefixes.
fn put_kept(alloc: Global, scene: Scene<'_>, out: &mut Vec<u8>) -> Result<(), NoMemory> {
    let text = scene.get(b"response");
    let side = side_of(alloc, text, scene)?;
    let failed = Outcome::Fail(Cause::NextHop);
    let mut prefixes = 0_u64;
    for cut in 0..text.len() {
        let side = side_of(alloc, &text[..cut], scene)?;
        if keeps_origin(Outcome::Done, &side) {
            prefixes = prefixes.saturating_add(1);
        }
    }
    put_flag(out, b"kept", keeps_origin(Outcome::Done, &side))?;
    put_flag(out, b"kept after a failure", keeps_origin(failed, &side))?;
    put_number(out, b"kept after prefixes", prefixes)
}

/// Adds whether the request may be sent again.
fn put_repeats(alloc: Global, scene: Scene<'_>, out: &mut Vec<u8>) -> Result<(), NoMemory> {
    match read_request(alloc, scene.get(b"request"), false) {
        Ok(head) => put_flag(out, b"sent again", may_repeat(&head.value)),
        Err(_) => put_line(out, b"no request"),
    }
}

/// Adds the answer to a row of these calls; nothing for another one.
pub fn put_answer(alloc: Global, scene: Scene<'_>, out: &mut Vec<u8>) -> Result<(), NoMemory> {
    if scene.is(b"call", b"kept origin") {
        put_kept(alloc, scene, out)
    } else if scene.is(b"call", b"sent again") {
        put_repeats(alloc, scene, out)
    } else {
        Ok(())
    }
}
