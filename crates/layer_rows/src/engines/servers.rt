//! The ICAP server: streams in any pieces, errors at the byte that decides them, and readers and writers that fail.

use crate::engines::services::settings;
use icap_head::is_still_front;
use icap_server::{ServeFault, ServerFault, ServerSide, serve};
use std::alloc::Global;
use std::io::{self, ErrorKind, Read, Write};
use test_rows::{
    NoMemory, Random, Scene, Values, lines_of, put_flag, put_line, put_shown, put_text,
};
use wire_kit::Answer;

/// How a text is cut into pieces.
#[derive(Clone, Copy)]
enum Cutting {
    /// In pieces of a size.
    Size(usize),
    /// At two places.
    Places(usize, usize),
    /// In pieces of random sizes up to one.
    Chance(Random, u64),
}

impl Cutting {
    /// The size of the piece that begins at a place.
    fn size_at(&mut self, at: usize) -> usize {
        let size = match self {
            Cutting::Size(size) => *size,
            Cutting::Places(first, _) if at < *first => first.saturating_sub(at),
            Cutting::Places(_, second) if at < *second => second.saturating_sub(at),
            Cutting::Places(_, _) => usize::MAX,
            Cutting::Chance(random, most) => random.below(*most).saturating_add(1) as usize,
        };
        size.max(1)
    }
}

/// Feeds a text in pieces, and adds the answers up to an error.
fn feed(
    alloc: Global,
    side: &mut ServerSide,
    text: &[u8],
    cutting: Cutting,
    out: &mut Vec<u8>,
) -> Result<(), NoMemory> {
    let mut cutting = cutting;
    let mut rest = text;
    for _ in 0..text.len() {
        let size = cutting.size_at(text.len().saturating_sub(rest.len()));
        let (piece, after) = rest.split_at(size.min(rest.len()));
        match side.feed(alloc, piece) {
            Ok(answer) => out.extend_from_slice(&answer)?,
            Err(ServerFault::Closed) => return Ok(()),
            Err(ServerFault::NoMemory) => return Err(NoMemory),
        }
        rest = after;
        if rest.is_empty() {
            return Ok(());
        }
    }
    Ok(())
}

/// What a connection answers to a text in pieces.
fn answers(alloc: Global, text: &[u8], cutting: Cutting) -> Result<Vec<u8>, NoMemory> {
    let mut side = ServerSide::new(alloc, settings(alloc)?);
    let mut out = Vec::new(alloc);
    feed(alloc, &mut side, text, cutting, &mut out)?;
    Ok(out)
}

/// Whether the answer to a text in `count` cuttings of the row's seed and of s is this one.
fn is_so_by_chance(
    alloc: Global,
    scene: Scene<'_>,
    values: Values,
    found: &[u8],
) -> Result<bool, NoMemory> {
    let text = scene.get(b"input");
    let seed = test_rows::number(scene.get(b"seed")).unwrap_or(0);
    let mut random = Random::new(seed.wrapping_add(values.s as u64));
    for _ in 0..scene.number_or(b"count", values, 1) {
        let widest = random.below(text.len() as u64).saturating_add(1);
        let most = random.below(widest).saturating_add(1);
        let cutting = Cutting::Chance(Random::new(random.next()), most);
        if answers(alloc, text, cutting)?.as_slice() != found {
            return Ok(false);
        }
    }
    Ok(true)
}

/// The longest text that is cut at every two places.
const SHORT: usize = 80;

/// Whether the answer to a short text that is cut at s and at each place from there on is this one.
fn is_so_in_three(
    alloc: Global,
    text: &[u8],
    first: usize,
    found: &[u8],
) -> Result<bool, NoMemory> {
    if text.len() > SHORT {
        return Ok(true);
    }
    for second in first..text.len() {
        if answers(alloc, text, Cutting::Places(first, second))?.as_slice() != found {
            return Ok(false);
        }
    }
    Ok(true)
}

/// Adds the first lines of the ICAP answers in a text.
fn put_first_lines(out: &mut Vec<u8>, text: &[u8]) -> Result<(), NoMemory> {
    for line in lines_of(text) {
        if line.starts_with(b"ICAP/1.0 ") {
            put_line(out, line)?;
        }
    }
    Ok(())
}

/// Adds what a piece after the text is answered.
fn put_further(
    alloc: Global,
    side: &mut ServerSide,
    piece: &[u8],
    out: &mut Vec<u8>,
) -> Result<(), NoMemory> {
    match side.feed(alloc, piece) {
        Ok(_) => put_line(out, b"an answer"),
        Err(fault) => put_shown(out, b"further", &fault),
    }
}

/// Adds whether the connection is closed, and what further bytes are answered.
fn put_closed(alloc: Global, text: &[u8], out: &mut Vec<u8>) -> Result<(), NoMemory> {
    let mut side = ServerSide::new(alloc, settings(alloc)?);
    let mut answered = Vec::new(alloc);
    feed(alloc, &mut side, text, Cutting::Size(1), &mut answered)?;
    put_flag(out, b"closed", side.is_closed())?;
    put_flag(out, b"out of memory", side.has_run_out())?;
    put_further(alloc, &mut side, b"", out)?;
    put_further(alloc, &mut side, b"x", out)
}

/// Adds whether the row's stream is answered so in its other cuttings too.
fn put_same(
    alloc: Global,
    scene: Scene<'_>,
    values: Values,
    found: &[u8],
    out: &mut Vec<u8>,
) -> Result<(), NoMemory> {
    let is_same = is_so_by_chance(alloc, scene, values, found)?
        && is_so_in_three(alloc, scene.get(b"input"), values.s, found)?;
    put_flag(out, b"the same in other pieces", is_same)
}

/// Adds what a connection answers to the row's stream in pieces of s bytes, and what the row wants to know besides.
pub fn put_fed(
    alloc: Global,
    scene: Scene<'_>,
    values: Values,
    out: &mut Vec<u8>,
) -> Result<(), NoMemory> {
    let text = scene.get(b"input");
    let found = answers(alloc, text, Cutting::Size(values.s))?;
    if scene.is(b"tell", b"first lines") {
        put_first_lines(out, &found)?;
    } else {
        out.extend_from_slice(&found)?;
    }
    if scene.has(b"seed") {
        put_same(alloc, scene, values, &found, out)?;
    }
    if scene.is(b"tell", b"decided") {
        let front = &text[..text.len().saturating_sub(1)];
        let before = answers(alloc, front, Cutting::Size(values.s))?;
        put_flag(out, b"answered before the last byte", !before.is_empty())?;
    }
    if scene.is(b"tell", b"closed") {
        return put_closed(alloc, text, out);
    }
    Ok(())
}

/// Adds the bytes at which a head that comes byte by byte is read anew.
pub fn put_lines(scene: Scene<'_>, out: &mut Vec<u8>) -> Result<(), NoMemory> {
    let text = scene.get(b"input");
    for (at, byte) in text.iter().enumerate() {
        if !is_still_front(&text[..at.min(text.len())], &[*byte]) {
            out.push(*byte)?;
        }
    }
    Ok(())
}

/// A reader of some bytes, one at a time, which then ends or fails.
#[derive(Drop)]
struct Broken<'a> {
    bytes: &'a [u8],
    ends: bool,
}

impl<'a> Read for Broken<'a> {
    fn read(&mut self, buf: &mut [u8]) -> io::Result<usize> {
        if buf.is_empty() {
            return Ok(0);
        }
        match self.bytes {
            [] if self.ends => Ok(0),
            [] => Err(io::Error::from(ErrorKind::ConnectionReset)),
            [first, rest @ ..] => {
                buf[0] = *first;
                self.bytes = rest;
                Ok(1)
            }
        }
    }
}

/// A writer that takes three bytes at a time, and fails once its room is used up.
#[derive(Drop)]
struct Narrow {
    room: usize,
    taken: Vec<u8>,
}

impl Write for Narrow {
    fn write(&mut self, buf: &[u8]) -> io::Result<usize> {
        let count = buf.len().min(self.room).min(3);
        if count == 0 && !buf.is_empty() {
            return Err(io::Error::from(ErrorKind::BrokenPipe));
        }
        self.taken.extend_from_slice(&buf[..count])?;
        self.room -= count;
        Ok(count)
    }

    fn flush(&mut self) -> io::Result<()> {
        Ok(())
    }
}

/// Adds what was written, and how the connection ended.
fn put_end(
    scene: Scene<'_>,
    values: Values,
    taken: &[u8],
    ended: Result<(), ServeFault>,
    out: &mut Vec<u8>,
) -> Result<(), NoMemory> {
    if ended == Err(ServeFault::NoMemory) {
        return Err(NoMemory);
    }
    if scene.has(b"texts") {
        put_text(out, scene, b"written", taken, values)?;
    } else {
        out.extend_from_slice(taken)?;
    }
    put_shown(out, b"end", &ended)
}

/// Adds what is written to a connection whose reader gives `given` bytes and then ends or fails, and whose writer takes some.
pub fn put_served(
    alloc: Global,
    scene: Scene<'_>,
    values: Values,
    out: &mut Vec<u8>,
) -> Result<(), NoMemory> {
    let text = scene.get(b"input");
    let given = scene.number_or(b"given", values, text.len());
    let mut reader = Broken {
        bytes: &text[..given.min(text.len())],
        ends: values.e != Answer::Fault,
    };
    let mut writer = Narrow {
        room: scene.number_or(b"room", values, 1_000_000),
        taken: Vec::new(alloc),
    };
    let ended = serve(alloc, settings(alloc)?, &mut reader, &mut writer);
    put_end(scene, values, &writer.taken, ended, out)
}
