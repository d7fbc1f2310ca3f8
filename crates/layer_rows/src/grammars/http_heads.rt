//! Heads of HTTP messages (RFC 9112, sections 2 to 6), cut at each byte.
use crate::grammars::cuts::{Grammar, put_cuts};
use http_side::{Head, HttpResponse, own_refusal, read_request, read_response};
use std::alloc::Global;
use test_rows::{NoMemory, Row, put_all, put_decimal, put_fault, put_number, put_shown, says};

pub fn put_request(
    alloc: Global,
    out: &mut Vec<u8>,
    text: &[u8],
    adapted: bool,
) -> Result<(), NoMemory> {
    match read_request(alloc, text, adapted) {
        Ok(head) => put_number(out, b"read", head.length as u64),
        Err(fault) => put_fault(out, fault.number(), &fault),
    }
}

fn put_parts(out: &mut Vec<u8>, head: &Head<HttpResponse>) -> Result<(), NoMemory> {
    put_number(out, b"read", head.length as u64)?;
    out.extend_from_slice(b"status ")?;
    put_decimal(out, u64::from(head.value.status()))?;
    put_all(out, &[b" ", head.value.phrase(), b"\n"])?;
    put_shown(out, b"body", &head.value.framing())
}

fn put_response(
    alloc: Global,
    out: &mut Vec<u8>,
    text: &[u8],
    to_head: bool,
) -> Result<(), NoMemory> {
    match read_response(alloc, text, to_head) {
        Ok(head) => put_parts(out, &head),
        Err(fault) => put_fault(out, fault.number(), &fault),
    }
}

fn put_refusal(out: &mut Vec<u8>, status: u64) -> Result<(), NoMemory> {
    match status {
        400 => out.extend_from_slice(own_refusal(400)),
        501 => out.extend_from_slice(own_refusal(501)),
        502 => out.extend_from_slice(own_refusal(502)),
        503 => out.extend_from_slice(own_refusal(503)),
        504 => out.extend_from_slice(own_refusal(504)),
        _ => Ok(()),
    }
}

pub fn put_answer(
    alloc: Global,
    call: &[u8],
    row: &Row<'_>,
    out: &mut Vec<u8>,
) -> Result<(), NoMemory> {
    let text = row.get(b"text");
    if says(call, b"read request") {
        let adapted = row.has(b"adapted");
        put_request(alloc, out, text, adapted)?;
        put_cuts(alloc, Grammar::HttpRequest { adapted }, text, out)
    } else if says(call, b"read response") {
        let to_head = row.has(b"to-HEAD");
        put_response(alloc, out, text, to_head)?;
        put_cuts(alloc, Grammar::HttpResponse { to_head }, text, out)
    } else if says(call, b"own refusal") {
        put_refusal(out, row.number(b"status").unwrap_or(0))
    } else {
        Ok(())
    }
}
