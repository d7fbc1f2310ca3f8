//! A body of many chunks of 4 KiB, read in pieces of 16 KiB.
use adapt_bytes::Small;
use anyhow::{Result, bail};
use icap_chunks::{ChunkReader, put_chunk_head, put_chunk_tail, put_last};
use std::alloc::{AllocError, Global};
use std::time::{Clock, Instant};

/// The data of one chunk, in bytes.
const CHUNK: usize = 4096;

/// What is handed to the reader at a time, in bytes.
const PIECE: usize = 16384;

/// How many chunks make a MiB of body.
const CHUNKS: usize = 256;

/// The text of a MiB of body, in chunks.
fn text_of_a_mebibyte(alloc: Global) -> Result<Vec<u8>, AllocError> {
    let mut text = Vec::new(alloc);
    let data = [b'x'; CHUNK];
    let mut head = Small::new();
    put_chunk_head(CHUNK as u64, &mut head);
    let mut tail = Small::new();
    put_chunk_tail(&mut tail);
    for _ in 0..CHUNKS {
        text.extend_from_slice(head.as_slice())?;
        text.extend_from_slice(&data)?;
        text.extend_from_slice(tail.as_slice())?;
    }
    Ok(text)
}

/// Feeds the text again and again, and then the last chunk. Returns the number of bytes of body, and `None` if the
/// reader found a fault or no end.
fn feed_body(text: &[u8], times: u32) -> Option<u64> {
    let mut reader = ChunkReader::new();
    let mut body: u64 = 0;
    for _ in 0..times {
        for piece in text.chunks(PIECE) {
            body = body.saturating_add(feed_piece(&mut reader, piece)?);
        }
    }
    let mut last = Small::new();
    put_last(false, &mut last);
    feed_piece(&mut reader, last.as_slice())?;
    if reader.has_ended() { Some(body) } else { None }
}

/// Feeds one piece, and says how many bytes of body it had.
fn feed_piece(reader: &mut ChunkReader, piece: &[u8]) -> Option<u64> {
    let mut body: u64 = 0;
    let mut rest = piece;
    while !rest.is_empty() {
        let Ok(fed) = reader.feed(rest) else {
            return None;
        };
        body = body.saturating_add((fed.part.1 - fed.part.0) as u64);
        if fed.ended.is_some() {
            return Some(body);
        }
        rest = &rest[fed.used..];
    }
    Some(body)
}

/// Prints how long it takes to read a body of this number of MiB.
pub fn time_chunks<R: Clock + Print + Eprint>(rt: &R, alloc: Global, mebibytes: u32) -> Result<()> {
    let text = text_of_a_mebibyte(alloc)?;
    let start = Instant::now(rt)?;
    let body = feed_body(&text, mebibytes);
    let micros = start.elapsed(rt)?.as_micros().max(1);
    let Some(body) = body else {
        bail!("the body was not read to its end");
    };
    let seconds = micros / 1_000_000;
    let rest = micros % 1_000_000;
    let rate = u128::from(body) / micros;
    eprintln!(rt; "{mebibytes} MiB of body: {seconds}.{rest:06} s, {rate} MB/s")?;
    println!(rt; "chunks: {body} bytes of body")?;
    Ok(())
}
