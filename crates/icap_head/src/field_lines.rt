//! Field lines, read by `httparse` and written (RFC 9112, section 5).
ghost use Rattle.std.specs.Prelude.{◌≡◌, ℕ, ◌+◌, ◌-◌, ◌<◌, ◌≤◌, ◌⊎◌, ◌++◌, List, length, map, take, drop, All, IfOk, IfErr, IfSome, IfNone, OnOk, slice_index, IsTrue, ◌↔◌};
ghost use Rattle.std.specs.List.{AllByRecursion};
ghost use Rattle.adapt_bytes.specs.declared.limits.TheConstants.{MAX_FIELDS};
ghost use Rattle.httparse.specs.Grammar.{is_value_byte, AllPass};
ghost use Rattle.httparse.specs.Spans.{SectionExceeds};
ghost use Rattle.icap_head.specs.FieldLines.{ReadsFields, HasFields, RefusesFields, RefusesFieldLines, line_count, unended};
ghost use Rattle.icap_head.specs.Fields.{field_list};
ghost use Rattle.icap_head.specs.Written.{fields_text, field_text, IsFieldPair};

use crate::reading::{HeadFault, unended};
use crate::{Fields, NoMemory};
use adapt_bytes::{MAX_FIELDS, is_token, trim};
use httparse::spans::{EMPTY_HEADER_SPAN, HeaderSpan, parse_headers_from};
use httparse::{Error, Status};
use std::alloc::Global;

/// How many field lines of a head are read at first. A place is cleared for each, so a longer head is read anew, with
/// [`MAX_FIELDS`] places.
const USUAL_FIELDS: usize = 24;

/// The fields after `start`, and where their empty line ends, in a prefix of a text of `whole` bytes.
pub(crate) fn read_fields(
    alloc: Global,
    seen: &[u8],
    start: usize,
    whole: usize,
) -> Result<(Fields, usize), HeadFault>
    requires { start ≤ length seen.now }
    ensures found { IfOk result (λ r. (start ≤ r.1) × (r.1 ≤ length seen.now) × (length (field_list r.0) ≤ MAX_FIELDS)
        × ReadsFields (drop start seen.now) (field_list r.0) (drop r.1 seen.now)) }
    ensures err { IfErr result (λ fault. ((fault ≡ HeadFault.NoMemory) × HasFields (drop start seen.now))
        ⊎ RefusesFields fault whole (drop start seen.now)) }
{
    let mut usual = [EMPTY_HEADER_SPAN; USUAL_FIELDS];
    match read_within(alloc, seen, start, whole, &mut usual) {
        Some(found) => found,
        None => read_many(alloc, seen, start, whole),
    }
}

/// The same, with a place for each field that a head may have.
fn read_many(
    alloc: Global,
    seen: &[u8],
    start: usize,
    whole: usize,
) -> Result<(Fields, usize), HeadFault>
    requires { start ≤ length seen.now }
    ensures found { IfOk result (λ r. (start ≤ r.1) × (r.1 ≤ length seen.now) × (length (field_list r.0) ≤ MAX_FIELDS)
        × ReadsFields (drop start seen.now) (field_list r.0) (drop r.1 seen.now)) }
    ensures err { IfErr result (λ fault. ((fault ≡ HeadFault.NoMemory) × HasFields (drop start seen.now))
        ⊎ RefusesFields fault whole (drop start seen.now)) }
{
    let mut places = [EMPTY_HEADER_SPAN; MAX_FIELDS];
    match read_within(alloc, seen, start, whole, &mut places) {
        Some(found) => found,
        None => Err(HeadFault::TooMany),
    }
}

/// The same with these places, unless there are more fields.
#[tactic(auto, using(crate::proofs::FieldFaults::no_fields))]
fn read_within(
    alloc: Global,
    seen: &[u8],
    start: usize,
    whole: usize,
    places: &mut [HeaderSpan],
) -> Option<Result<(Fields, usize), HeadFault>>
    requires inside { start ≤ length seen.now }
    requires few { length places.now ≤ MAX_FIELDS }
    ensures found { IfSome result (λ found. IfOk found (λ r. (start ≤ r.1) × (r.1 ≤ length seen.now)
        × (length (field_list r.0) ≤ MAX_FIELDS) × ReadsFields (drop start seen.now) (field_list r.0) (drop r.1 seen.now))) }
    ensures err { IfSome result (λ found. IfErr found (λ fault. ((fault ≡ HeadFault.NoMemory) × HasFields (drop start seen.now))
        ⊎ RefusesFields fault whole (drop start seen.now))) }
    ensures none { IfNone result (SectionExceeds (length places.old) (drop start seen.now)) }
{
    match parse_headers_from(seen, start, places) {
        Ok(Status::Complete((len, count))) => match Fields::of_lines(
            alloc,
            seen,
            len,
            &places[..count],
        ) {
            Ok(fields) => Some(Ok((fields, len))),
            Err(NoMemory) => Some(Err(HeadFault::NoMemory)),
        },
        Ok(Status::Partial) => Some(Err(first_fault(seen, start, unended(whole)))),
        Err(Error::TooManyHeaders) => None,
        Err(_) => Some(Err(first_fault(seen, start, HeadFault::Field))),
    }
}

/// The fault of the first 101 lines after `start`, where that of all of them is known. A head that goes on after its
/// 101st field line has too many, whatever follows.
fn first_fault(seen: &[u8], start: usize, fault: HeadFault) -> HeadFault
    requires inside { start ≤ length seen.now }
    requires unread { ¬ (HasFields (drop start seen.now)) }
    ensures { (len : ℕ) → RefusesFieldLines fault (unended len) (drop start seen.now)
        → RefusesFields result len (drop start seen.now) }
{
    match lines_end(&seen[start..], MAX_FIELDS + 1) {
        Some(end) => lines_fault(&seen[..start + end], start),
        None => fault,
    }
}

/// The fault of the lines after `start`: too many fields, if nothing is wrong with the lines themselves.
fn lines_fault(lines: &[u8], start: usize) -> HeadFault
    requires inside { start ≤ length lines.now }
    requires unread { ¬ (HasFields (drop start lines.now)) }
    ensures { RefusesFieldLines result HeadFault.TooMany (drop start lines.now) }
{
    let mut headers = [EMPTY_HEADER_SPAN; MAX_FIELDS];
    match parse_headers_from(lines, start, &mut headers) {
        Ok(_) | Err(Error::TooManyHeaders) => HeadFault::TooMany,
        Err(_) => HeadFault::Field,
    }
}

/// The offset at which this many lines have ended.
fn lines_end(text: &[u8], count: usize) -> Option<usize>
    requires { 0 < count }
    ensures some { IfSome result (λ end. (0 < end) × (end ≤ length text.now) × (line_count (take end text.now) ≡ count)
        × (slice_index text.now (end - 1) ≡ 10)) }
    ensures none { IfNone result (line_count text.now < count) }
{
    let mut left = count;
    for (at, byte) in text.iter().enumerate() {
        if *byte == b'\n' {
            left -= 1;
            if left == 0 {
                return Some(at + 1);
            }
        }
    }
    None
}

/// Whether field lines can hold these fields.
pub(crate) fn are_writable(fields: &Fields) -> bool
    ensures { IsTrue result ↔ AllByRecursion IsFieldPair (field_list fields.now) }
{
    for at in 0..fields.len() {
        if !is_writable(fields.name(at), fields.value(at)) {
            return false;
        }
    }
    true
}

/// Whether a field line can hold this field: a token, and a trimmed value with no control byte but tabs.
fn is_writable(name: &[u8], value: &[u8]) -> bool
    ensures { IsTrue result ↔ IsFieldPair (name.now, value.now) }
{
    if !is_token(name) {
        return false;
    }
    if !are_value_bytes(value) {
        return false;
    }
    trim(value) == value
}

fn are_value_bytes(value: &[u8]) -> bool
    ensures { IsTrue result ↔ AllPass is_value_byte value.now }
{
    value.iter().all(|byte| is_value_byte(*byte))
}

/// Whether a field's value may have this byte.
pub(crate) fn is_value_byte(byte: u8) -> bool
    ensures { result ≡ is_value_byte byte }
{
    byte == b'\t' || (byte >= b' ' && byte != 0x7f)
}

/// Adds the field lines and the empty line after them.
pub(crate) fn put_fields(out: &mut Vec<u8>, fields: &Fields) -> Result<(), NoMemory>
    ensures { OnOk result (out.new.items ≡ out.old.items ++ fields_text (field_list fields.now)) }
{
    for at in 0..fields.len() {
        put_field(out, fields.name(at), fields.value(at))?;
    }
    out.extend_from_slice(b"\r\n")
}

fn put_field(out: &mut Vec<u8>, name: &[u8], value: &[u8]) -> Result<(), NoMemory>
    ensures { OnOk result (out.new.items ≡ out.old.items ++ field_text (name.now, value.now)) }
{
    out.extend_from_slice(name)?;
    out.extend_from_slice(b": ")?;
    out.extend_from_slice(value)?;
    out.extend_from_slice(b"\r\n")
}
