//! Chunked bodies (RFC 9112, section 7.1; RFC 3507, section 4.5), in pieces and cut at each byte and each pair of bytes.
use crate::grammars::random::put_random_bodies;
use adapt_bytes::{COUNT_LIMIT, Small};
use icap_chunks::{
    Outcome, Reading, put_chunk_head, put_chunk_tail, put_last, read_cut, read_in_pieces,
};
use std::alloc::Global;
use test_rows::{NoMemory, Row, number, put_all, put_fault, put_line, put_number, says};

/// The longest text that is cut at each pair of bytes, and read in pieces of each size.
const SHORT: usize = 64;

fn put_outcome(out: &mut Vec<u8>, outcome: Outcome) -> Result<(), NoMemory> {
    match outcome {
        Outcome::More => put_line(out, b"more"),
        Outcome::Ended { ieof: true, used } => put_number(out, b"ended with ieof at", used as u64),
        Outcome::Ended { ieof: false, used } => put_number(out, b"ended at", used as u64),
        Outcome::Faulted(fault) => put_fault(out, u64::from(fault.number()), &fault),
    }
}

fn is_same(one: &Reading, other: &Reading) -> bool {
    one.body.as_slice() == other.body.as_slice() && one.outcome == other.outcome
}

/// Whether a text of this length is read in pieces of this size: of each one, and a long text near the limits.
fn is_tried(size: usize, len: usize) -> bool {
    len <= 1024 || size <= 2 || size % 255 <= 2 || size % 8191 <= 2
}

/// Whether a text is read so in pieces of each size.
fn is_read_in_pieces(alloc: Global, text: &[u8], whole: &Reading) -> Result<bool, NoMemory> {
    for size in 1..=text.len().max(1) {
        if is_tried(size, text.len()) && !is_same(&read_in_pieces(alloc, text, size)?, whole) {
            return Ok(false);
        }
    }
    Ok(true)
}

/// Whether a text is read so that is cut into pieces of these sizes.
fn is_read_so(
    alloc: Global,
    text: &[u8],
    whole: &Reading,
    sizes: &[usize],
) -> Result<bool, NoMemory> {
    Ok(is_same(&read_cut(alloc, text, sizes)?, whole))
}

/// Whether a text is read so that is cut at a byte, and there and at each later one.
fn is_read_cut_at(
    alloc: Global,
    text: &[u8],
    whole: &Reading,
    first: usize,
) -> Result<bool, NoMemory> {
    if text.len() > SHORT {
        return is_read_so(alloc, text, whole, &[first]);
    }
    for second in 0..=text.len().saturating_sub(first) {
        if !is_read_so(alloc, text, whole, &[first, second])? {
            return Ok(false);
        }
    }
    Ok(true)
}

fn is_read_cut(alloc: Global, text: &[u8], whole: &Reading) -> Result<bool, NoMemory> {
    for first in 0..=text.len() {
        if !is_read_cut_at(alloc, text, whole, first)? {
            return Ok(false);
        }
    }
    is_read_so(alloc, text, whole, &[0, 1, 0, 2, 3, usize::MAX, 1])
}

fn put_body(out: &mut Vec<u8>, body: &[u8]) -> Result<(), NoMemory> {
    if body.is_empty() {
        return Ok(());
    }
    put_all(out, &[b"body ", body, b"\n"])
}

/// Adds what a text is read as whole, and whether it is read so however it is cut.
fn put_whole(
    alloc: Global,
    out: &mut Vec<u8>,
    text: &[u8],
    whole: &Reading,
) -> Result<(), NoMemory> {
    put_outcome(out, whole.outcome)?;
    put_body(out, &whole.body)?;
    if is_read_in_pieces(alloc, text, whole)? && is_read_cut(alloc, text, whole)? {
        Ok(())
    } else {
        put_line(out, b"another answer in pieces")
    }
}

fn put_reading(alloc: Global, out: &mut Vec<u8>, text: &[u8]) -> Result<(), NoMemory> {
    let whole = read_cut(alloc, text, &[])?;
    put_whole(alloc, out, text, &whole)
}

/// Adds the head of a chunk of a size, the bytes after a chunk, or the last chunk.
fn put_written(out: &mut Vec<u8>, what: &[u8]) -> Result<(), NoMemory> {
    let mut text = Small::new();
    let size = number(what).unwrap_or(0);
    if says(what, b"tail") {
        put_chunk_tail(&mut text);
    } else if says(what, b"last with ieof") {
        put_last(true, &mut text);
    } else if says(what, b"last") {
        put_last(false, &mut text);
    } else if 0 < size && size < COUNT_LIMIT {
        put_chunk_head(size, &mut text);
    }
    out.extend_from_slice(text.as_slice())
}

pub fn put_answer(
    alloc: Global,
    call: &[u8],
    row: &Row<'_>,
    out: &mut Vec<u8>,
) -> Result<(), NoMemory> {
    if says(call, b"read chunks") {
        put_reading(alloc, out, row.get(b"text"))
    } else if says(call, b"write chunks") {
        put_written(out, row.get(b"text"))
    } else if says(call, b"random bodies") {
        put_random_bodies(alloc, out, row)
    } else {
        Ok(())
    }
}
