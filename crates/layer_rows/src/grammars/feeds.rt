//! Readers of bodies that are fed piece by piece.
use http_side::{BodyReader, Framing};
use icap_chunks::{ChunkFault, ChunkReader, Fed};
use test_rows::{
    NoMemory, Row, number, put_decimal, put_fault, put_line, put_number, says, words_of,
};

/// A reader of chunks, or of a body with any framing.
#[derive(Drop)]
enum Reader {
    Chunks(ChunkReader),
    Body(BodyReader),
}

impl Reader {
    fn feed(&mut self, piece: &[u8]) -> Result<Fed, ChunkFault> {
        match self {
            Reader::Chunks(reader) => reader.feed(piece),
            Reader::Body(reader) => reader.feed(piece),
        }
    }

    fn has_ended(&self) -> bool {
        match self {
            Reader::Chunks(reader) => reader.has_ended(),
            Reader::Body(reader) => reader.has_ended(),
        }
    }

    /// Whether the body is whole where the connection closes.
    fn is_whole_at_close(&self) -> bool {
        match self {
            Reader::Chunks(reader) => reader.has_ended(),
            Reader::Body(reader) => reader.at_close(),
        }
    }
}

fn framing_of(row: &Row<'_>) -> Option<Framing> {
    let word = row.get(b"framing");
    if says(word, b"none") {
        Some(Framing::None)
    } else if says(word, b"length") {
        Some(Framing::Length(row.number(b"length").unwrap_or(0)))
    } else if says(word, b"chunked") {
        Some(Framing::Chunked)
    } else if says(word, b"close") {
        Some(Framing::Close)
    } else {
        None
    }
}

fn reader_of(row: &Row<'_>) -> Reader {
    match framing_of(row) {
        Some(framing) => Reader::Body(BodyReader::new(framing)),
        None => Reader::Chunks(ChunkReader::new()),
    }
}

/// What is left of a text after some bytes, up to a number of bytes.
fn piece(text: &[u8], at: usize, size: usize) -> &[u8] {
    let rest = &text[at.min(text.len())..];
    &rest[..size.min(rest.len())]
}

fn put_end(out: &mut Vec<u8>, reader: &Reader) -> Result<(), NoMemory> {
    put_line(
        out,
        if reader.has_ended() {
            b"it has ended"
        } else {
            b"it goes on"
        },
    )?;
    if reader.is_whole_at_close() {
        put_line(out, b"whole where the connection closes")?;
    }
    Ok(())
}

fn put_fed(out: &mut Vec<u8>, fed: Result<Fed, ChunkFault>) -> Result<(), NoMemory> {
    match fed {
        Ok(fed) => {
            out.extend_from_slice(b"used ")?;
            put_decimal(out, fed.used as u64)?;
            out.extend_from_slice(b", body from ")?;
            put_decimal(out, fed.part.0 as u64)?;
            put_number(out, b" to", fed.part.1 as u64)?;
            match fed.ended {
                Some(true) => put_line(out, b"ended with ieof"),
                Some(false) => put_line(out, b"ended"),
                None => Ok(()),
            }
        }
        Err(fault) => put_fault(out, u64::from(fault.number()), &fault),
    }
}

/// Feeds pieces of these sizes, each from where the reader stopped; a word that is no number is all that is left.
fn put_pieces(
    out: &mut Vec<u8>,
    reader: &mut Reader,
    text: &[u8],
    sizes: &[u8],
) -> Result<(), NoMemory> {
    let mut at: usize = 0;
    for word in words_of(sizes) {
        let size = match number(word) {
            Some(size) => size as usize,
            None => usize::MAX,
        };
        let fed = reader.feed(piece(text, at, size));
        if let Ok(fed) = &fed {
            at = at.saturating_add(fed.used);
        }
        put_fed(out, fed)?;
    }
    put_end(out, reader)
}

/// Feeds each byte by itself, up to the body's end.
fn put_bytes(out: &mut Vec<u8>, reader: &mut Reader, text: &[u8]) -> Result<(), NoMemory> {
    let mut used: u64 = 0;
    let mut body: u64 = 0;
    for byte in text {
        if reader.has_ended() {
            break;
        }
        match reader.feed(&[*byte]) {
            Ok(fed) => {
                used = used.saturating_add(fed.used as u64);
                body = body.saturating_add(fed.part.1.saturating_sub(fed.part.0) as u64);
            }
            Err(fault) => put_fault(out, u64::from(fault.number()), &fault)?,
        }
    }
    put_number(out, b"used", used)?;
    put_number(out, b"of the body", body)?;
    put_end(out, reader)
}

pub fn put_answer(call: &[u8], row: &Row<'_>, out: &mut Vec<u8>) -> Result<(), NoMemory> {
    let mut reader = reader_of(row);
    if says(call, b"feed pieces") {
        put_pieces(out, &mut reader, row.get(b"text"), row.get(b"sizes"))
    } else if says(call, b"feed each byte") {
        put_bytes(out, &mut reader, row.get(b"text"))
    } else {
        Ok(())
    }
}
