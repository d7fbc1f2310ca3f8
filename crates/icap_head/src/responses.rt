//! Heads of ICAP responses (RFC 3507, section 4.3.3).
ghost use Rattle.std.specs.Prelude.{◌≡◌, ℕ, ◌⊎◌, ◌<◌, ◌≤◌, ◌++◌, ◌+◌, List, length, take, IfOk, IfErr, IsOkAnd, OnOk, IsTrue, ◌↔◌};
ghost use Rattle.icap_head.specs.StartLines.{StatusForm};
ghost use Rattle.icap_head.specs.Heads.{Response, HasPlainResponse, HasResponse, IsResponseHead, RefusesIcapHead, RefusesResponse, response_parts};
ghost use Rattle.icap_head.specs.Written.{IsResponse, response_text};

use crate::field_lines::{are_writable, put_fields, read_fields};
use crate::folds::unfolded;
use crate::reading::{judged, unended};
use crate::start_lines::{first_line, read_status_line};
use crate::{Fields, Head, HeadFault, NoMemory};
use adapt_bytes::three_digits;
use std::alloc::Global;

/// The head of a response (RFC 3507, section 4.3.3).
#[derive(Debug, Drop)]
pub struct IcapResponse {
    /// The status, written with three digits: 0 to 999.
    pub status: u16,
    /// The reason phrase, which may be empty.
    pub phrase: Vec<u8>,
    pub fields: Fields,
}

impl IcapResponse {
    /// Whether this response can be written, since some head holds it: its status is below 1,000, its
    /// phrase has no LF, and its fields are such that a line can hold.
    pub fn is_writable(&self) -> bool
        ensures { IsTrue result ↔ IsResponse (response_parts self.now) }
    {
        if self.status > 999 {
            return false;
        }
        if self.phrase.contains(&b'\n') {
            return false;
        }
        are_writable(&self.fields)
    }
}

/// Reads the head of a response at the start of the text: `ICAP/1.0`, a space, three digits, and nothing
/// or a space and a phrase; field lines and an empty line (RFC 3507, section 4.3.3; RFC 9112, sections 2,
/// 4 and 5). A line ends at its LF, and one CR before that is dropped; a phrase has any other bytes.
///
/// A field may go on with lines that begin with a space or a tab: the line end before each is read as spaces (RFC 2616,
/// section 4.2, whose fields RFC 3507 takes; RFC 9112, section 5.2). The first field begins with its name. So a line
/// whose end came last is judged with the next byte, and a head is of the length that it has on the wire.
///
/// The error is the first `HeadFault` that applies. `NoMemory` comes only if the text begins with a head.
pub fn read_response(alloc: Global, text: &[u8]) -> Result<Head<IcapResponse>, HeadFault>
    ensures ok { IfOk result (λ head. HasResponse text.now (response_parts head.value) head.length) }
    ensures inside { IfOk result (λ head. head.length ≤ length text.now) }
    ensures writable { IfOk result (λ head. IsResponse (response_parts head.value)) }

    // If the text begins with a head, it is read, unless memory runs out.
    ensures found { (value : Response) (size : ℕ) → HasResponse text.now value size
        → (result ≡ Err HeadFault.NoMemory)
        ⊎ IsOkAnd result (λ head. (response_parts head.value ≡ value) × (head.length ≡ size)) }

    // A fault is answered where it stands, and only there; memory is wanted only to keep a head.
    ensures err { IfErr result (λ fault. ((fault ≡ HeadFault.NoMemory) × ((value : Response) × (size : ℕ) × HasResponse text.now value size))
        ⊎ RefusesResponse fault text.now) }
    ensures fault { (fault : HeadFault) → RefusesResponse fault text.now → result ≡ Err fault }
{
    find_response(alloc, text)
}

/// Most heads have no folds: such a head is read as it came, without a copy.
fn find_response(alloc: Global, text: &[u8]) -> Result<Head<IcapResponse>, HeadFault>
    ensures ok { IfOk result (λ head. HasResponse text.now (response_parts head.value) head.length) }
    ensures err { IfErr result (λ fault. ((fault ≡ HeadFault.NoMemory) × ((value : Response) × (size : ℕ) × HasResponse text.now value size))
        ⊎ RefusesResponse fault text.now) }
{
    match read_plain(alloc, text) {
        Ok(head) => Ok(head),
        Err(HeadFault::NoMemory) => Err(HeadFault::NoMemory),
        Err(_) => read_folded(alloc, text),
    }
}

/// The same of any text: on a copy with its folds written over.
fn read_folded(alloc: Global, text: &[u8]) -> Result<Head<IcapResponse>, HeadFault>
    ensures ok { IfOk result (λ head. HasResponse text.now (response_parts head.value) head.length) }
    ensures err { IfErr result (λ fault. ((fault ≡ HeadFault.NoMemory) × ((value : Response) × (size : ℕ) × HasResponse text.now value size))
        ⊎ RefusesResponse fault text.now) }
{
    let plain = unfolded(text);
    read_plain(alloc, plain.as_slice())
}

/// The same of a text in which nothing is folded.
fn read_plain(alloc: Global, text: &[u8]) -> Result<Head<IcapResponse>, HeadFault>
    ensures ok { IfOk result (λ head. HasPlainResponse text.now (response_parts head.value) head.length) }
    ensures err { IfErr result (λ fault. ((fault ≡ HeadFault.NoMemory) × ((value : Response) × (size : ℕ) × HasPlainResponse text.now value size))
        ⊎ RefusesIcapHead StatusForm fault text.now) }
{
    let seen = judged(text);
    let Some((line, start)) = first_line(seen) else {
        return Err(unended(text.len()));
    };
    let (status, phrase) = read_status_line(line)?;
    let (fields, length) = read_fields(alloc, seen, start, text.len())?;
    let phrase = phrase.to_vec(alloc)?;
    Ok(Head {
        value: IcapResponse {
            status,
            phrase,
            fields,
        },
        length,
    })
}

/// The text of a head that holds this response: CRLF after each line, a status of three digits and a
/// space, also before an empty phrase, and one space after each field's colon. The response must be
/// writable, as `is_writable` tests.
pub fn write_response(alloc: Global, response: &IcapResponse) -> Result<Vec<u8>, NoMemory>
    requires { IsResponse (response_parts response.now) }
    ensures text { IfOk result (λ text. text.items ≡ response_text (response_parts response.now)) }

    // It is a head of the same response.
    ensures again { IfOk result (λ text. IsResponseHead text.items (response_parts response.now)) }
{
    let mut out = Vec::new(alloc);
    out.extend_from_slice(b"ICAP/1.0 ")?;
    out.extend_from_slice(&three_digits(response.status))?;
    out.push(b' ')?;
    out.extend_from_slice(&response.phrase)?;
    out.extend_from_slice(b"\r\n")?;
    put_fields(&mut out, &response.fields)?;
    Ok(out)
}
