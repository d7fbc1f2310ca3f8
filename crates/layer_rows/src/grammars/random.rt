//! Random bodies in random chunks, from a written seed.
use icap_chunks::{Outcome, read_cut};
use std::alloc::Global;
use test_rows::{NoMemory, Random, Row, hex_letter, put_all, put_number};

/// The most bytes of a chunk.
const MOST: u64 = 40;

/// Adds a chunk with its size in two digits, some with an extension.
fn put_chunk(text: &mut Vec<u8>, random: &mut Random, part: &[u8]) -> Result<(), NoMemory> {
    let size = part.len() as u64;
    let digits = [hex_letter(size / 16), hex_letter(size)];
    let extension: &[u8] = if random.below(4) == 0 {
        b"; a=\"b;ieof\"\r\n"
    } else {
        b"\r\n"
    };
    put_all(text, &[&digits, extension, part, b"\r\n"])
}

/// Adds a body in chunks.
fn put_chunks(text: &mut Vec<u8>, random: &mut Random, body: &[u8]) -> Result<(), NoMemory> {
    let mut rest = body;
    for _ in 0..body.len() {
        let size = (random.below(MOST) as usize)
            .saturating_add(1)
            .min(rest.len());
        if size != 0 {
            put_chunk(text, random, &rest[..size])?;
        }
        rest = &rest[size..];
    }
    Ok(())
}

/// Adds the last chunk, and up to four bytes of what comes next; says how the body ends.
fn put_end(text: &mut Vec<u8>, random: &mut Random) -> Result<Outcome, NoMemory> {
    let ieof = random.below(2) == 0;
    let last: &[u8] = if ieof { b"0; ieof\r\n" } else { b"0\r\n" };
    let trailer: &[u8] = if random.below(3) == 0 {
        b"Trailer: x\r\n\r\n"
    } else {
        b"\r\n"
    };
    put_all(text, &[last, trailer])?;
    let used = text.len();
    let next = [random.byte(), random.byte(), random.byte(), random.byte()];
    text.extend_from_slice(&next[..random.below(5).min(4) as usize])?;
    Ok(Outcome::Ended { ieof, used })
}

/// Whether a text is read in random pieces as this body.
fn is_read(
    alloc: Global,
    random: &mut Random,
    text: &[u8],
    body: &[u8],
    outcome: Outcome,
) -> Result<bool, NoMemory> {
    let mut sizes = [0; 8];
    for size in &mut sizes {
        *size = random.below(MOST) as usize;
    }
    let reading = read_cut(alloc, text, &sizes)?;
    Ok(reading.body.as_slice() == body && reading.outcome == outcome)
}

/// Whether a body is read back that is cut into random chunks and pieces.
fn is_read_back(alloc: Global, random: &mut Random, body: &[u8]) -> Result<bool, NoMemory> {
    let mut text = Vec::new(alloc);
    put_chunks(&mut text, random, body)?;
    let outcome = put_end(&mut text, random)?;
    is_read(alloc, random, &text, body, outcome)
}

/// Adds how often, of these times, the prefix of a text is read back as a body.
pub fn put_random_bodies(alloc: Global, out: &mut Vec<u8>, row: &Row<'_>) -> Result<(), NoMemory> {
    let mut random = Random::new(row.number(b"seed").unwrap_or(0));
    let all = row.get(b"text");
    let mut read: u64 = 0;
    for _ in 0..row.number(b"count").unwrap_or(0) {
        let size = random.below(200) as usize;
        let body = &all[..size.min(all.len())];
        if is_read_back(alloc, &mut random, body)? {
            read = read.saturating_add(1);
        }
    }
    put_number(out, b"read back", read)
}
