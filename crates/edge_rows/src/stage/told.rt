//! What a row's answer says of an exchange.

use crate::stage::shared::{RowStage, TakenBytes};
use crate::stage::words::name_of;
use exchange_core::Phase;
use test_rows::{NoMemory, Scene, has_word, put_decimal, put_escaped, put_line, words_of};

/// How bytes begin, in the names of the row's texts.
#[derive(Clone, Copy)]
enum Front<'a> {
    /// With a whole text, before these bytes.
    Whole(&'a [u8], &'a [u8]),
    /// They are a prefix of a text.
    Prefix(&'a [u8]),
    /// With no text.
    Unknown,
}

/// How bytes begin: with the longest text that the row lists, or else they are a prefix of the first that begins with them.
fn front_of<'a>(scene: Scene<'a>, bytes: &'a [u8]) -> Front<'a> {
    let mut front = Front::Unknown;
    let mut longest: usize = 0;
    for name in words_of(scene.get(b"texts")) {
        let text = scene.get(name);
        if text.len() > longest
            && let Some(rest) = bytes.strip_prefix(text)
        {
            longest = text.len();
            front = Front::Whole(name, rest);
        } else if matches!(front, Front::Unknown) && text.starts_with(bytes) {
            front = Front::Prefix(name);
        }
    }
    front
}

/// The most texts that one connection takes.
const TEXTS: usize = 64;

/// Adds the names of the texts that bytes are made of.
fn put_texts<'a>(out: &mut Vec<u8>, scene: Scene<'a>, bytes: &'a [u8]) -> Result<(), NoMemory> {
    let mut left = bytes;
    for _ in 0..TEXTS {
        if left.is_empty() {
            return Ok(());
        }
        out.extend_from_slice(b" ")?;
        match front_of(scene, left) {
            Front::Whole(name, rest) => {
                out.extend_from_slice(name)?;
                left = rest;
            }
            Front::Prefix(name) => {
                put_decimal(out, left.len() as u64)?;
                out.extend_from_slice(b" bytes of ")?;
                return out.extend_from_slice(name);
            }
            Front::Unknown => return put_escaped(out, left),
        }
    }
    Ok(())
}

/// Adds a line of a connection and of what it took.
fn put_taken<'a>(
    out: &mut Vec<u8>,
    scene: Scene<'a>,
    taken: &'a TakenBytes,
) -> Result<(), NoMemory> {
    out.extend_from_slice(taken.peer.name())?;
    if let Some(number) = taken.peer.number()
        && number > 1
    {
        out.extend_from_slice(b" ")?;
        put_decimal(out, number)?;
    }
    out.extend_from_slice(b":")?;
    if taken.bytes.is_empty() {
        return put_line(out, b" nothing");
    }
    put_texts(out, scene, &taken.bytes)?;
    out.extend_from_slice(b"\n")
}

/// Adds what each connection took, in the order in which they were opened.
fn put_all_taken(out: &mut Vec<u8>, scene: Scene<'_>, stage: &RowStage) -> Result<(), NoMemory> {
    let Ok(taken) = stage.taken.try_borrow() else {
        return put_line(out, b"what was taken is in use");
    };
    for each in taken.iter() {
        put_taken(out, scene, each)?;
    }
    Ok(())
}

/// Adds what happened.
pub fn put_happenings(out: &mut Vec<u8>, stage: &RowStage) -> Result<(), NoMemory> {
    match stage.happenings.try_borrow() {
        Ok(happenings) => out.extend_from_slice(&happenings),
        Err(_) => put_line(out, b"what happened is in use"),
    }
}

/// How a row's exchange ended.
#[derive(Clone, Copy)]
pub struct EndedRow {
    /// Where the exchange stands.
    pub phase: Phase,
    /// Whether it holds a lease.
    pub lease: bool,
    /// Whether it holds a reservation.
    pub stake: bool,
}

/// Adds what the exchange holds at its end, after a word.
fn put_held(out: &mut Vec<u8>, word: &[u8], ended: EndedRow) -> Result<(), NoMemory> {
    out.extend_from_slice(word)?;
    if ended.lease {
        out.extend_from_slice(b", with a lease")?;
    }
    if ended.stake {
        out.extend_from_slice(b", with a reservation")?;
    }
    out.extend_from_slice(b"\n")
}

/// Whether bytes are whole texts that the row lists, and a prefix of one after them.
fn is_of_texts(scene: Scene<'_>, bytes: &[u8]) -> bool {
    let mut left = bytes;
    for _ in 0..TEXTS {
        match front_of(scene, left) {
            Front::Whole(_, rest) => left = rest,
            Front::Prefix(_) => return true,
            Front::Unknown => return false,
        }
    }
    false
}

/// Whether what each connection took is known.
fn is_known(scene: Scene<'_>, stage: &RowStage) -> bool {
    let Ok(taken) = stage.taken.try_borrow() else {
        return false;
    };
    for each in taken.iter() {
        if !is_of_texts(scene, &each.bytes) {
            return false;
        }
    }
    true
}

/// Whether no message is under way in a phase, and nothing is left to be said.
fn is_settled(phase: Phase) -> bool {
    matches!(phase, Phase::Idle | Phase::Closing | Phase::Gone)
}

/// Adds what the row asks of an exchange that ended in this phase: what happened, and what each connection took. Before that it is told
/// where a user is owed an answer.
pub fn put_ended(
    out: &mut Vec<u8>,
    scene: Scene<'_>,
    stage: &RowStage,
    ended: EndedRow,
) -> Result<(), NoMemory> {
    stage.check()?;
    put_happenings(out, stage)?;
    if stage.owes_answer(scene.get(b"continue")) {
        put_line(out, b"says nothing to its user")?;
    }
    let told = scene.get(b"tell");
    if has_word(told, b"known") && is_settled(ended.phase) && is_known(scene, stage) {
        return put_held(out, b"known texts", ended);
    }
    if !has_word(told, b"happenings") {
        put_all_taken(out, scene, stage)?;
    }
    put_held(out, name_of(ended.phase), ended)
}
