//! Numbers, tokens, lists with commas, and room for a text.
use adapt_bytes::{
    Room, Small, comma_items, comma_parts, is_token, put_decimal, put_hex, read_decimal, read_hex,
    same_ascii, trim,
};
use std::alloc::Global;
use test_rows::{NoMemory, Row, put_line, put_number, put_truth, says};

fn put_read(out: &mut Vec<u8>, number: Option<u64>) -> Result<(), NoMemory> {
    match number {
        Some(number) => put_number(out, b"number", number),
        None => put_line(out, b"no number"),
    }
}

fn put_written(out: &mut Vec<u8>, number: u64) -> Result<(), NoMemory> {
    let mut decimal = Small::new();
    put_decimal(number, &mut decimal);
    put_line(out, decimal.as_slice())?;
    let mut hex = Small::new();
    put_hex(number, &mut hex);
    put_line(out, hex.as_slice())
}

fn put_items(out: &mut Vec<u8>, text: &[u8]) -> Result<(), NoMemory> {
    for item in comma_items(text) {
        put_line(out, item)?;
    }
    put_line(out, b"end")
}

fn put_parts(out: &mut Vec<u8>, text: &[u8]) -> Result<(), NoMemory> {
    for part in comma_parts(text) {
        put_line(out, part)?;
    }
    put_line(out, b"end")
}

/// Puts two pieces into room for this many bytes.
fn put_room(
    alloc: Global,
    out: &mut Vec<u8>,
    size: usize,
    first: &[u8],
    second: &[u8],
) -> Result<(), NoMemory> {
    if first.len() > size || second.len() > size - first.len() {
        return put_line(out, b"no room");
    }
    let mut room = Room::new(alloc, size)?;
    room.put(first);
    room.put(b"");
    room.put(second);
    let text = room.into_vec();
    put_line(out, &text)
}

/// The questions about a word or a list.
fn put_word(out: &mut Vec<u8>, call: &[u8], row: &Row<'_>) -> Result<(), NoMemory> {
    let text = row.get(b"text");
    if says(call, b"comma items") {
        put_items(out, text)
    } else if says(call, b"comma parts") {
        put_parts(out, text)
    } else if says(call, b"trim") {
        put_line(out, trim(text))
    } else if says(call, b"is token") {
        put_truth(out, is_token(text))
    } else if says(call, b"same in ASCII") {
        put_truth(out, same_ascii(text, row.get(b"other")))
    } else {
        Ok(())
    }
}

pub fn put_answer(
    alloc: Global,
    call: &[u8],
    row: &Row<'_>,
    out: &mut Vec<u8>,
) -> Result<(), NoMemory> {
    let text = row.get(b"text");
    let number = row.number(b"number").unwrap_or(0);
    if says(call, b"read decimal") {
        put_read(out, read_decimal(text))
    } else if says(call, b"read hexadecimal") {
        put_read(out, read_hex(text))
    } else if says(call, b"write number") {
        put_written(out, number)
    } else if says(call, b"room") {
        put_room(alloc, out, number as usize, text, row.get(b"other"))
    } else {
        put_word(out, call, row)
    }
}
