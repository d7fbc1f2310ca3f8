//! Headers of the PROXY protocol (proxy-protocol.txt, sections 2.1 and 2.2).
use crate::listed::put_address;
use proxy_header::{Reading, read};
use test_rows::{NoMemory, Row, put_line, put_number, says};

/// What the text is, and of how many bytes the header is.
fn put_reading(out: &mut Vec<u8>, reading: Reading) -> Result<(), NoMemory> {
    match reading {
        Reading::Whole(header) => {
            match header.from {
                Some(address) => {
                    out.extend_from_slice(b"from ")?;
                    put_address(out, address)?;
                    put_line(out, b"")?;
                }
                None => put_line(out, b"from its own address")?,
            }
            put_number(out, b"bytes", header.length as u64)
        }
        Reading::Partial => put_line(out, b"partial"),
        Reading::Fault => put_line(out, b"no header"),
    }
}

/// At which byte that is known: before it the text is part of a header, and from there on the answer stays.
fn put_cuts(out: &mut Vec<u8>, text: &[u8]) -> Result<(), NoMemory> {
    let whole = read(text);
    let mut known = None;
    for cut in 0..=text.len() {
        let found = read(&text[..cut]);
        if known.is_some() && found != whole {
            put_line(out, b"another answer where it is cut")?;
        }
        if known.is_none() && found != Reading::Partial {
            known = Some(cut);
        }
    }
    match known {
        Some(cut) => put_number(out, b"known after", cut as u64),
        None => Ok(()),
    }
}

pub fn put_answer(call: &[u8], row: &Row<'_>, out: &mut Vec<u8>) -> Result<(), NoMemory> {
    if !says(call, b"read header") {
        return Ok(());
    }
    let text = row.get(b"text");
    put_reading(out, read(text))?;
    put_cuts(out, text)
}
