//! Lines of what a run reports.
use crate::answer::{put_decimal, put_escaped};
use crate::part_iterator::words_of;
use crate::scene::Scene;
use crate::values::Values;
use std::alloc::AllocError as NoMemory;

/// Adds a line of a name and a word.
pub fn put_word(out: &mut Vec<u8>, name: &[u8], word: &[u8]) -> Result<(), NoMemory> {
    out.extend_from_slice(name)?;
    out.extend_from_slice(b" ")?;
    out.extend_from_slice(word)?;
    out.extend_from_slice(b"\n")
}

/// Adds a line of a name, and of yes or no.
pub fn put_flag(out: &mut Vec<u8>, name: &[u8], flag: bool) -> Result<(), NoMemory> {
    put_word(out, name, if flag { b"yes".as_slice() } else { b"no" })
}

/// How bytes are named by a text of the row.
#[derive(Clone, Copy)]
enum Part<'a> {
    /// All of the text of this name.
    All(&'a [u8]),
    /// Its first n bytes.
    UpToN(&'a [u8]),
    /// This many of its first bytes.
    First(&'a [u8], usize),
    /// All of it, and then these bytes.
    And(&'a [u8], &'a [u8]),
    /// These bytes.
    Bytes(&'a [u8]),
}

/// How bytes are named by the texts that the row lists: by the first that begins with them, or else by the first that they begin
/// with.
fn part_of<'a>(scene: Scene<'a>, bytes: &'a [u8], place: Option<usize>) -> Part<'a> {
    let names = scene.get(b"texts");
    for name in words_of(names) {
        let text = scene.get(name);
        if text == bytes {
            return Part::All(name);
        }
        if text.starts_with(bytes) {
            return if place == Some(bytes.len()) {
                Part::UpToN(name)
            } else {
                Part::First(name, bytes.len())
            };
        }
    }
    for name in words_of(names) {
        let text = scene.get(name);
        if !text.is_empty()
            && let Some(rest) = bytes.strip_prefix(text)
        {
            return Part::And(name, rest);
        }
    }
    Part::Bytes(bytes)
}

/// Adds how bytes are named.
fn put_part(out: &mut Vec<u8>, part: Part<'_>) -> Result<(), NoMemory> {
    match part {
        Part::All(name) => out.extend_from_slice(name),
        Part::UpToN(name) => {
            out.extend_from_slice(b"first n of ")?;
            out.extend_from_slice(name)
        }
        Part::First(name, count) => {
            out.extend_from_slice(b"first ")?;
            put_decimal(out, count as u64)?;
            out.extend_from_slice(b" of ")?;
            out.extend_from_slice(name)
        }
        Part::And(name, rest) => {
            out.extend_from_slice(name)?;
            out.extend_from_slice(b", then ")?;
            put_escaped(out, rest)
        }
        Part::Bytes(bytes) => put_escaped(out, bytes),
    }
}

/// Adds a line of a name and of bytes. If the row lists texts (`texts: a b`), the bytes are named by these; if it says `cut:` and
/// the name, a prefix of n bytes is named as such. No bytes are named `nothing`, but as such a prefix where n is 0.
pub fn put_text<'a>(
    out: &mut Vec<u8>,
    scene: Scene<'a>,
    name: &[u8],
    bytes: &'a [u8],
    values: Values,
) -> Result<(), NoMemory> {
    out.extend_from_slice(name)?;
    out.extend_from_slice(b" ")?;
    let place = if scene.is(b"cut", name) {
        Some(values.n)
    } else {
        None
    };
    if bytes.is_empty() && place != Some(0) {
        out.extend_from_slice(b"nothing")?;
    } else {
        put_part(out, part_of(scene, bytes, place))?;
    }
    out.extend_from_slice(b"\n")
}
