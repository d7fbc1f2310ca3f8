//! Heads of ICAP messages as they are written, and which can be.
use icap_head::{
    Fields, IcapRequest, IcapResponse, RequestMethod, read_request, read_response, write_request,
    write_response,
};
use std::alloc::Global;
use test_rows::{NoMemory, Row, put_fault, put_line, says};

/// The one field that a row says.
fn field_of(alloc: Global, row: &Row<'_>) -> Result<Fields, NoMemory> {
    let mut fields = Fields::new(alloc);
    fields.push(row.get(b"field"), row.get(b"value"))?;
    Ok(fields)
}

fn put_text(out: &mut Vec<u8>, text: Result<Vec<u8>, NoMemory>) -> Result<(), NoMemory> {
    match text {
        Ok(text) => out.extend_from_slice(&text),
        Err(_) => put_line(out, b"fault 7 NoMemory"),
    }
}

fn request_of(alloc: Global, row: &Row<'_>) -> Result<IcapRequest, NoMemory> {
    let fields = field_of(alloc, row)?;
    let uri = row.get(b"uri").to_vec(alloc)?;
    let method = RequestMethod::of_name(alloc, row.get(b"method"))?;
    Ok(IcapRequest {
        method,
        uri,
        fields,
    })
}

fn put_built_request(alloc: Global, out: &mut Vec<u8>, row: &Row<'_>) -> Result<(), NoMemory> {
    let request = request_of(alloc, row)?;
    if request.is_writable(alloc)? {
        put_text(out, write_request(alloc, &request))
    } else {
        put_line(out, b"not writable")
    }
}

fn put_built_response(alloc: Global, out: &mut Vec<u8>, row: &Row<'_>) -> Result<(), NoMemory> {
    let status = row.number(b"status").unwrap_or(0);
    let response = IcapResponse {
        status: status.min(9999) as u16,
        phrase: row.get(b"phrase").to_vec(alloc)?,
        fields: field_of(alloc, row)?,
    };
    if response.is_writable() {
        put_text(out, write_response(alloc, &response))
    } else {
        put_line(out, b"not writable")
    }
}

fn put_request_again(alloc: Global, out: &mut Vec<u8>, text: &[u8]) -> Result<(), NoMemory> {
    match read_request(alloc, text) {
        Ok(head) => put_text(out, write_request(alloc, &head.value)),
        Err(fault) => put_fault(out, fault.number(), &fault),
    }
}

fn put_response_again(alloc: Global, out: &mut Vec<u8>, text: &[u8]) -> Result<(), NoMemory> {
    match read_response(alloc, text) {
        Ok(head) => put_text(out, write_response(alloc, &head.value)),
        Err(fault) => put_fault(out, fault.number(), &fault),
    }
}

pub fn put_answer(
    alloc: Global,
    call: &[u8],
    row: &Row<'_>,
    out: &mut Vec<u8>,
) -> Result<(), NoMemory> {
    if says(call, b"write ICAP request") {
        put_built_request(alloc, out, row)
    } else if says(call, b"write ICAP response") {
        put_built_response(alloc, out, row)
    } else if says(call, b"write ICAP request again") {
        put_request_again(alloc, out, row.get(b"text"))
    } else if says(call, b"write ICAP response again") {
        put_response_again(alloc, out, row.get(b"text"))
    } else {
        Ok(())
    }
}
