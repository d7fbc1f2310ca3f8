//! Encapsulated lists (RFC 3507, section 4.4.1).
use crate::told::put_told;
use adapt_bytes::Method;
use encapsulated::{BodyPart, Direction, EncFault, Layout, Part, read, write};
use std::alloc::Global;
use test_rows::{NoMemory, Row, put_fault, put_line, put_number, put_shown, says};

const METHODS: [Method; 3] = [Method::Reqmod, Method::Respmod, Method::Options];

const DIRECTIONS: [Direction; 2] = [Direction::Request, Direction::Response];

const BODIES: [BodyPart; 4] = [
    BodyPart::ReqBody,
    BodyPart::ResBody,
    BodyPart::OptBody,
    BodyPart::NullBody,
];

fn method_of(row: &Row<'_>) -> Method {
    Method::of_name(row.get(b"method")).unwrap_or(Method::Options)
}

fn direction_of(row: &Row<'_>) -> Direction {
    if says(row.get(b"direction"), b"response") {
        Direction::Response
    } else {
        Direction::Request
    }
}

fn body_of(row: &Row<'_>) -> Option<BodyPart> {
    for body in BODIES {
        if says(row.get(b"body"), Part::Body(body).name()) {
            return Some(body);
        }
    }
    None
}

fn put_head(out: &mut Vec<u8>, name: &[u8], offset: Option<u64>) -> Result<(), NoMemory> {
    match offset {
        Some(offset) => put_number(out, name, offset),
        None => Ok(()),
    }
}

fn put_layout(out: &mut Vec<u8>, layout: &Layout) -> Result<(), NoMemory> {
    put_head(out, b"request head at", layout.req_hdr)?;
    put_head(out, b"response head at", layout.res_hdr)?;
    out.extend_from_slice(Part::Body(layout.body).name())?;
    put_number(out, b" at", layout.offset)
}

fn put_read(out: &mut Vec<u8>, found: Result<Layout, EncFault>) -> Result<(), NoMemory> {
    match found {
        Ok(layout) => put_layout(out, &layout),
        Err(fault) => put_fault(out, fault.number(), &fault),
    }
}

/// A kind of message, where it takes a list; what else than its order it is refused for.
fn put_taker(
    out: &mut Vec<u8>,
    method: Method,
    direction: Direction,
    list: &[u8],
) -> Result<(), NoMemory> {
    match read(method, direction, list) {
        Ok(_) => {
            out.extend_from_slice(method.name())?;
            put_shown(out, b"", &direction)
        }
        Err(EncFault::Order) => Ok(()),
        Err(fault) => put_fault(out, fault.number(), &fault),
    }
}

/// The kinds of message that take a list; what another is refused for, where that isn't its order.
fn put_takers(out: &mut Vec<u8>, list: &[u8]) -> Result<(), NoMemory> {
    for method in METHODS {
        for direction in DIRECTIONS {
            put_taker(out, method, direction, list)?;
        }
    }
    put_line(out, b"no other")
}

fn put_list(alloc: Global, out: &mut Vec<u8>, layout: &Layout) -> Result<(), NoMemory> {
    if layout.is_writable() {
        put_line(out, &write(alloc, layout)?)
    } else {
        put_line(out, b"not writable")
    }
}

fn put_written(alloc: Global, out: &mut Vec<u8>, row: &Row<'_>) -> Result<(), NoMemory> {
    let Some(body) = body_of(row) else {
        return Ok(());
    };
    let layout = Layout {
        req_hdr: row.number(b"req-hdr"),
        res_hdr: row.number(b"res-hdr"),
        body,
        offset: row.number(b"offset").unwrap_or(0),
    };
    put_list(alloc, out, &layout)
}

/// A list that is read, as it is written again, or what is said of its fault.
fn put_again(
    alloc: Global,
    out: &mut Vec<u8>,
    found: Result<Layout, EncFault>,
) -> Result<(), NoMemory> {
    match found {
        Ok(layout) => put_list(alloc, out, &layout),
        Err(fault) => put_told(out, &fault),
    }
}

pub fn put_answer(
    alloc: Global,
    call: &[u8],
    row: &Row<'_>,
    out: &mut Vec<u8>,
) -> Result<(), NoMemory> {
    let list = row.get(b"list");
    if says(call, b"read list") {
        put_read(out, read(method_of(row), direction_of(row), list))
    } else if says(call, b"takers of a list") {
        put_takers(out, list)
    } else if says(call, b"write list") {
        put_written(alloc, out, row)
    } else if says(call, b"write list again") {
        put_again(alloc, out, read(method_of(row), direction_of(row), list))
    } else {
        Ok(())
    }
}
