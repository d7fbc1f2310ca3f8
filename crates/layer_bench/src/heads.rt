//! How long it takes to read a request's head, to write the heads that an origin and a service get, and to read the head of a
//! service's response; and how long a request's head takes whose Connection has thousands of items.
use crate::answers::{TEN_FIELDS, THIRTY_FIELDS, as_http};
use crate::nanos_each;
use crate::requests::{REQUEST, hostile_request};
use crate::work::{HeadWork, Written};
use anyhow::{Result, bail};
use std::alloc::Global;
use std::time::{Clock, Instant};

/// What is done with a request's head, in words.
const OF_A_REQUEST: [(HeadWork, &str); 3] = [
    (HeadWork::ParseRequest, "a request's head by httparse alone"),
    (HeadWork::ReadRequest(Written::None), "a request's head"),
    (
        HeadWork::ReadRequest(Written::Both),
        "a request's head, and both written",
    ),
];

/// What is done with that of a request whose Connection has as many items as fit, in words.
const OF_MANY_ITEMS: [(HeadWork, &str); 2] = [
    (
        HeadWork::ReadRequest(Written::None),
        "a request's head of 7,974 items",
    ),
    (
        HeadWork::ReadRequest(Written::One),
        "a request's head of 7,974 items, and one written",
    ),
];

/// Does a work on a text again and again, and sums the bytes.
fn repeat(alloc: Global, work: HeadWork, text: &[u8], times: u32) -> u64 {
    let mut bytes: u64 = 0;
    for _ in 0..times {
        bytes = bytes.saturating_add(work.once(alloc, text) as u64);
    }
    bytes
}

/// Prints how long a work on a text takes.
fn time_work<R: Clock + Eprint>(
    rt: &R,
    alloc: Global,
    work: HeadWork,
    words: &str,
    text: &[u8],
    times: u32,
) -> Result<()> {
    let start = Instant::now(rt)?;
    let bytes = repeat(alloc, work, text, times);
    let each = nanos_each(start.elapsed(rt)?, times);
    let size = text.len() as u64;
    eprintln!(rt; "{words}, {size} bytes: {each} ns, {bytes} bytes in all")?;
    if work.only_reads() && bytes != u64::from(times).saturating_mul(size) {
        bail!("a head was not read to its end");
    }
    Ok(())
}

/// Prints the times of each work on a text.
fn time_all<R: Clock + Eprint>(
    rt: &R,
    alloc: Global,
    works: &[(HeadWork, &str)],
    text: &[u8],
    times: u32,
) -> Result<()> {
    for (work, words) in works {
        time_work(rt, alloc, *work, words, text, times)?;
    }
    Ok(())
}

/// Prints the times of a response's head: `httparse` alone on the same text, and the reader.
fn time_answer<R: Clock + Eprint>(rt: &R, alloc: Global, text: &[u8], times: u32) -> Result<()> {
    let http = as_http(alloc, text)?;
    let (alone, read) = (
        "a response's head by httparse alone",
        "a service's response's head",
    );
    time_work(rt, alloc, HeadWork::ParseResponse, alone, &http, times)?;
    time_work(rt, alloc, HeadWork::ReadResponse, read, text, times)
}

/// Prints how long each head takes. The one with thousands of items is read a thousandth as often.
pub fn time_heads<R: Clock + Print + Eprint>(rt: &R, alloc: Global, times: u32) -> Result<()> {
    time_all(rt, alloc, &OF_A_REQUEST, REQUEST, times)?;
    time_answer(rt, alloc, TEN_FIELDS, times)?;
    time_answer(rt, alloc, THIRTY_FIELDS, times)?;
    let hostile = hostile_request(alloc)?;
    time_all(rt, alloc, &OF_MANY_ITEMS, &hostile, times / 1000 + 1)?;
    println!(rt; "heads: {times} of each")?;
    Ok(())
}
