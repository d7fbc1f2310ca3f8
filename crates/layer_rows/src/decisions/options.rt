//! Responses to OPTIONS (RFC 3507, section 4.10.2), and the records that are made of them.
use crate::listed::index_of;
use crate::questions::{Subject, cut, put_lines};
use icap_head::{Fields, IcapResponse};
use options_book::laws::{has_a_reading, reads_one_way};
use options_book::{OptFault, Record, Treat, extension, read_record};
use std::alloc::Global;
use test_rows::{NoMemory, Row, lines_of, number, put_count, put_fault, put_line, put_truth};
use trace_core::Point;

/// The fields of these lines.
fn fields_of(alloc: Global, lines: &[u8]) -> Result<Fields, NoMemory> {
    let mut fields = Fields::new(alloc);
    for line in lines_of(lines) {
        if !line.is_empty() {
            let (name, value) = cut(line, b": ");
            fields.push(name, value)?;
        }
    }
    Ok(fields)
}

/// The response of a row; its status is 200 where the row says none.
pub fn response_of(alloc: Global, row: &Row<'_>) -> Result<IcapResponse, NoMemory> {
    let status = row.number(b"status").unwrap_or(200);
    Ok(IcapResponse {
        status: status.min(999) as u16,
        phrase: Vec::new(alloc),
        fields: fields_of(alloc, row.get(b"fields"))?,
    })
}

pub fn put_number(out: &mut Vec<u8>, number: Option<u64>) -> Result<(), NoMemory> {
    match number {
        Some(number) => put_count(out, number),
        None => put_line(out, b"none"),
    }
}

/// Whether a record is fresh at a moment, and with the tag after it, if there is one.
fn put_fresh(out: &mut Vec<u8>, record: &Record, text: &[u8]) -> Result<(), NoMemory> {
    let (digits, tag) = cut(text, b" with ");
    let now = number(digits).unwrap_or(0);
    let tag = if tag.is_empty() { None } else { Some(tag) };
    put_truth(out, record.is_fresh(now, tag))
}

fn put_treat(out: &mut Vec<u8>, treat: Treat) -> Result<(), NoMemory> {
    match treat {
        Treat::Complete => put_line(out, b"Complete"),
        Treat::Preview => put_line(out, b"Preview"),
        Treat::Ignore => put_line(out, b"Ignore"),
    }
}

impl Subject for Record {
    /// Adds what is said of a record.
    fn put_said(&mut self, question: &[u8], out: &mut Vec<u8>) -> Result<(), NoMemory> {
        if let Some(text) = question.strip_prefix(b"fresh at ") {
            return put_fresh(out, self, text);
        }
        if let Some(digits) = question.strip_prefix(b"lasts ") {
            self.set_default_ttl(number(digits).unwrap_or(0));
            return put_line(out, b"so");
        }
        if let Some(path) = question.strip_prefix(b"path ") {
            return put_treat(out, self.treat(extension(path)));
        }
        if let Some(word) = question.strip_prefix(b"extension ") {
            return put_treat(out, self.treat(Some(word)));
        }
        match index_of(b"record|preview|connections|no extension", question) {
            Some(0) => put_line(out, b"good"),
            Some(1) => put_number(out, self.preview()),
            Some(2) => put_number(out, self.max()),
            Some(3) => put_treat(out, self.treat(None)),
            _ => Ok(()),
        }
    }
}

/// Adds what is said of a response.
pub fn put_options(alloc: Global, row: &Row<'_>, out: &mut Vec<u8>) -> Result<(), NoMemory> {
    let response = response_of(alloc, row)?;
    reads_one_way();
    has_a_reading(&response, Point::Respmod);
    let read_at = row.number(b"read-at").unwrap_or(1000);
    match read_record(alloc, &response, Point::Respmod, read_at) {
        Ok(mut record) => put_lines(&mut record, row.get(b"want"), out),
        Err(OptFault::NoMemory) => Err(NoMemory),
        Err(fault) => put_fault(out, fault.number(), &fault),
    }
}

const FAULTS: [OptFault; 6] = [
    OptFault::Status,
    OptFault::NoMethods,
    OptFault::NoTag,
    OptFault::Number,
    OptFault::Encapsulated,
    OptFault::NoMemory,
];

/// What a programmer is told of each fault.
pub fn put_texts(alloc: Global, out: &mut Vec<u8>) -> Result<(), NoMemory> {
    for fault in FAULTS {
        let text = format!(in alloc; "{} {fault}", fault.number())?;
        put_line(out, text.as_bytes())?;
    }
    Ok(())
}

/// Adds the extension of a path.
pub fn put_extension(row: &Row<'_>, out: &mut Vec<u8>) -> Result<(), NoMemory> {
    match extension(row.get(b"path")) {
        Some(word) => {
            out.extend_from_slice(b"extension ")?;
            put_line(out, word)
        }
        None => put_line(out, b"none"),
    }
}
