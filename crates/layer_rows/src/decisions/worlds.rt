//! All transactions at once: each line of `want` is an event of the world, and what is said of it.
use crate::decisions::events::{read_event, read_plan};
use crate::listed::index_of;
use crate::questions::{Subject, asked, cut, put_lines};
use std::alloc::Global;
use test_rows::{NoMemory, Row, lines_of, number, put_count, put_fault, put_line, says, words_of};
use world_core::{World, WorldEvent, WorldFault};

/// A number, and what follows the space after it.
fn numbered(text: &[u8]) -> Option<(u64, &[u8])> {
    let (digits, rest) = cut(text, b" ");
    Some((number(digits)?, rest))
}

fn place(text: &[u8]) -> Option<usize> {
    match number(text) {
        Some(place) => Some(place as usize),
        None => None,
    }
}

fn read_open(at: u64, rest: &[u8]) -> Option<WorldEvent> {
    let (claim, plan) = numbered(rest)?;
    Some(WorldEvent::Open(at, read_plan(plan)?, claim))
}

/// An event of one transaction, whose number is known.
fn read_of(word: &[u8], at: u64, rest: &[u8]) -> Option<WorldEvent> {
    match index_of(b"lease|open|of|back|reclaim", word)? {
        0 => Some(WorldEvent::Lease(at, place(rest)?)),
        1 => read_open(at, rest),
        2 => Some(WorldEvent::Of(at, read_event(rest)?)),
        3 => Some(WorldEvent::Back(at, says(rest, b"kept"))),
        _ => Some(WorldEvent::Reclaim(at, number(rest)?)),
    }
}

fn read_world_event(text: &[u8]) -> Option<WorldEvent> {
    let (word, rest) = cut(text, b" ");
    let (at, rest) = numbered(rest)?;
    match index_of(b"close|limit|capacity", word) {
        Some(0) => Some(WorldEvent::Close(at)),
        Some(1) => Some(WorldEvent::Limit(at as usize, number(rest)?)),
        Some(2) => Some(WorldEvent::Capacity(at)),
        _ => read_of(word, at, rest),
    }
}

fn put_taken(out: &mut Vec<u8>, taken: Result<(), WorldFault>) -> Result<(), NoMemory> {
    match taken {
        Ok(()) => put_line(out, b"taken"),
        Err(WorldFault::NoMemory) => Err(NoMemory),
        Err(fault) => put_fault(out, fault.number(), &fault),
    }
}

impl Subject for World {
    /// Adds whether an event is taken, or how many bytes are held.
    fn put_said(&mut self, question: &[u8], out: &mut Vec<u8>) -> Result<(), NoMemory> {
        if says(question, b"held") {
            return put_count(out, self.book());
        }
        match read_world_event(question) {
            Some(event) => put_taken(out, self.step(&event)),
            None => put_line(out, b"no event"),
        }
    }
}

fn maxima_of(alloc: Global, words: &[u8]) -> Result<Vec<u64>, NoMemory> {
    let mut maxima = Vec::new(alloc);
    for word in words_of(words) {
        if let Some(maximum) = number(word) {
            maxima.push(maximum)?;
        }
    }
    Ok(maxima)
}

fn events_of(alloc: Global, lines: &[u8]) -> Result<Vec<WorldEvent>, NoMemory> {
    let mut events = Vec::new(alloc);
    for line in lines_of(lines) {
        if let Some(event) = read_world_event(asked(line)) {
            events.push(event)?;
        }
    }
    Ok(events)
}

/// How many bytes are held once all events came in one go.
fn held_at_end(
    alloc: Global,
    capacity: u64,
    maxima: &[u64],
    lines: &[u8],
) -> Result<u64, NoMemory> {
    let events = events_of(alloc, lines)?;
    let (world, _) = World::run(alloc, capacity, maxima, &events)?;
    Ok(world.book())
}

/// How many bytes are held once each event came by itself.
fn held_one_by_one(
    alloc: Global,
    out: &mut Vec<u8>,
    capacity: u64,
    maxima: &[u64],
    lines: &[u8],
) -> Result<u64, NoMemory> {
    let mut world = World::new(alloc, capacity, maxima)?;
    put_lines(&mut world, lines, out)?;
    Ok(world.book())
}

/// Adds what is said of all transactions at once.
pub fn put_world(alloc: Global, row: &Row<'_>, out: &mut Vec<u8>) -> Result<(), NoMemory> {
    let capacity = row.number(b"capacity").unwrap_or(0);
    let maxima = maxima_of(alloc, row.get(b"maxima"))?;
    let lines = row.get(b"want");
    let held = held_one_by_one(alloc, out, capacity, &maxima, lines)?;
    if held_at_end(alloc, capacity, &maxima, lines)? == held {
        Ok(())
    } else {
        put_line(out, b"other bytes are held in one go")
    }
}
