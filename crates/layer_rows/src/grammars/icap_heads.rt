//! Heads of ICAP messages (RFC 3507, section 4.3), cut at each byte.
use crate::grammars::cuts::{Grammar, put_cuts};
use crate::listed::index_of;
use icap_head::{
    Fields, Head, IcapRequest, IcapResponse, RequestMethod, Values, judge_request_line,
    read_request, read_response,
};
use std::alloc::Global;
use test_rows::{NoMemory, Row, put_all, put_decimal, put_fault, put_line, put_number};

fn put_fields(out: &mut Vec<u8>, fields: &Fields) -> Result<(), NoMemory> {
    for at in 0..fields.len() {
        put_all(out, &[fields.name(at), b": ", fields.value(at), b"\n"])?;
    }
    Ok(())
}

fn put_values(out: &mut Vec<u8>, values: Values<'_>) -> Result<(), NoMemory> {
    for value in values {
        put_all(out, &[b"value ", value, b"\n"])?;
    }
    Ok(())
}

/// Adds the values of a field that the row asks for.
fn put_asked(out: &mut Vec<u8>, fields: &Fields, row: &Row<'_>) -> Result<(), NoMemory> {
    if !row.has(b"field") {
        return Ok(());
    }
    match fields.first(row.get(b"field")) {
        Some(value) => put_all(out, &[b"first ", value, b"\n"])?,
        None => put_line(out, b"no such field")?,
    }
    put_values(out, fields.values(row.get(b"field")))
}

fn put_request(out: &mut Vec<u8>, head: &Head<IcapRequest>, row: &Row<'_>) -> Result<(), NoMemory> {
    let request = &head.value;
    put_number(out, b"read", head.length as u64)?;
    let mark: &[u8] = match &request.method {
        RequestMethod::Known(_) => b"method ",
        RequestMethod::Other(_) => b"other method ",
    };
    put_all(
        out,
        &[mark, request.method.name(), b"\n", &request.uri, b"\n"],
    )?;
    put_fields(out, &request.fields)?;
    put_asked(out, &request.fields, row)
}

fn put_response(
    out: &mut Vec<u8>,
    head: &Head<IcapResponse>,
    row: &Row<'_>,
) -> Result<(), NoMemory> {
    let response = &head.value;
    put_number(out, b"read", head.length as u64)?;
    out.extend_from_slice(b"status ")?;
    put_decimal(out, u64::from(response.status))?;
    put_all(out, &[b" ", &response.phrase, b"\n"])?;
    put_fields(out, &response.fields)?;
    put_asked(out, &response.fields, row)
}

fn put_read_request(alloc: Global, out: &mut Vec<u8>, row: &Row<'_>) -> Result<(), NoMemory> {
    match read_request(alloc, row.get(b"text")) {
        Ok(head) => put_request(out, &head, row),
        Err(fault) => put_fault(out, fault.number(), &fault),
    }
}

fn put_read_response(alloc: Global, out: &mut Vec<u8>, row: &Row<'_>) -> Result<(), NoMemory> {
    match read_response(alloc, row.get(b"text")) {
        Ok(head) => put_response(out, &head, row),
        Err(fault) => put_fault(out, fault.number(), &fault),
    }
}

/// Adds how long a head is, and how many fields it has.
fn put_size(out: &mut Vec<u8>, length: usize, fields: usize) -> Result<(), NoMemory> {
    put_number(out, b"read", length as u64)?;
    put_number(out, b"fields", fields as u64)
}

fn put_request_size(alloc: Global, out: &mut Vec<u8>, text: &[u8]) -> Result<(), NoMemory> {
    match read_request(alloc, text) {
        Ok(head) => put_size(out, head.length, head.value.fields.len()),
        Err(fault) => put_fault(out, fault.number(), &fault),
    }
}

fn put_response_size(alloc: Global, out: &mut Vec<u8>, text: &[u8]) -> Result<(), NoMemory> {
    match read_response(alloc, text) {
        Ok(head) => put_size(out, head.length, head.value.fields.len()),
        Err(fault) => put_fault(out, fault.number(), &fault),
    }
}

fn put_line_fault(alloc: Global, out: &mut Vec<u8>, text: &[u8]) -> Result<(), NoMemory> {
    match judge_request_line(alloc, text) {
        Ok(()) => put_line(out, b"good so far"),
        Err(fault) => put_fault(out, fault.number(), &fault),
    }
}

/// The calls of rows, in the order of `put_answer`. A head that is read once isn't cut.
const CALLS: &[u8] =
    b"read ICAP request|read ICAP response|size of ICAP request|size of ICAP response|\
read ICAP request once|read ICAP response once|judge ICAP request line";

pub fn put_answer(
    alloc: Global,
    call: &[u8],
    row: &Row<'_>,
    out: &mut Vec<u8>,
) -> Result<(), NoMemory> {
    let text = row.get(b"text");
    let place = index_of(CALLS, call);
    match place {
        Some(0) => put_read_request(alloc, out, row)?,
        Some(1) => put_read_response(alloc, out, row)?,
        Some(2 | 4) => put_request_size(alloc, out, text)?,
        Some(3 | 5) => put_response_size(alloc, out, text)?,
        Some(6) => put_line_fault(alloc, out, text)?,
        _ => {}
    }
    match place {
        Some(0 | 2) => put_cuts(alloc, Grammar::IcapRequest, text, out),
        Some(1 | 3) => put_cuts(alloc, Grammar::IcapResponse, text, out),
        _ => Ok(()),
    }
}
