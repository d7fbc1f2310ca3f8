//! Heads of ICAP requests (RFC 3507, section 4.3.2).
ghost use Rattle.std.specs.Prelude.{◌≡◌, ◌≢◌, ℕ, ◌⊎◌, List, take, codes, IfOk, IfErr, IsOkAnd, IsErrAnd, OnOk, IsTrue, ◌↔◌};
ghost use Rattle.adapt_bytes.specs.declared.limits.TheConstants.{MAX_HEAD};
ghost use Rattle.icap_head.specs.StartLines.{IsFirstLine, RequestForm};
ghost use Rattle.icap_head.specs.Heads.{Request, HasRequest, IsRequestHead, RefusesIcapHead, RefusesRequestLine, NeedsUri, ForWantOfMemory, request_parts};
ghost use Rattle.icap_head.specs.Written.{IsRequest, request_text};

use crate::field_lines::{are_writable, put_fields, read_fields};
use crate::reading::{judged, unended};
use crate::start_lines::{first_line, is_icap_uri, read_request_line};
use crate::{Fields, Head, HeadFault, NoMemory, RequestMethod};
use adapt_bytes::is_token;
use std::alloc::Global;

/// The head of a request (RFC 3507, section 4.3.2).
///
/// ```
/// let text = b"OPTIONS icap://scanner/respmod ICAP/1.0\r\nHost: scanner\r\n\r\n";
/// let head = read_request(alloc, text)?;
/// assert_eq!(rt; head.length, text.len());
/// assert_eq!(rt; head.value.method.name(), b"OPTIONS".as_slice());
/// assert_eq!(rt; head.value.fields.first(b"host"), Some(b"scanner".as_slice()));
/// ```
#[derive(Drop)]
pub struct IcapRequest {
    pub method: RequestMethod,
    /// The URI as received.
    pub uri: Vec<u8>,
    pub fields: Fields,
}

impl IcapRequest {
    /// Whether this request can be written, since some head holds it: its method is a token, its URI
    /// an ICAP URI without a space or an LF, and its fields are such that a line can hold.
    pub fn is_writable(&self, alloc: Global) -> Result<bool, NoMemory>
        ensures { IfOk result (λ is. IsTrue is ↔ IsRequest (request_parts self.now)) }
    {
        if !is_token(self.method.name()) {
            return Ok(false);
        }
        if self.uri.contains(&b' ') {
            return Ok(false);
        }
        if self.uri.contains(&b'\n') {
            return Ok(false);
        }
        if !are_writable(&self.fields) {
            return Ok(false);
        }
        is_icap_uri(alloc, &self.uri)
    }
}

/// Reads the head of a request at the start of the text: `METHOD URI ICAP/1.0`, field lines and an
/// empty line (RFC 3507, section 4.3.2; RFC 9112, sections 2 and 5). A line ends at its LF, and one CR
/// before that is dropped. The URI has scheme `icap` in any case, an authority, and no fragment.
///
/// The error is the first `HeadFault` that applies. A URI is judged on a copy. If that copy finds no memory,
/// the fault of what follows the start line is returned, which may be `More`; `NoMemory` if that has no fault.
/// So `NoMemory` replaces only a fault of the start line, or a head. To judge a start line whatever follows
/// it, call `judge_request_line`.
pub fn read_request(alloc: Global, text: &[u8]) -> Result<Head<IcapRequest>, HeadFault>
    ensures ok { IfOk result (λ head. HasRequest text.now (request_parts head.value) head.length) }
    ensures writable { IfOk result (λ head. IsRequest (request_parts head.value)) }

    // If the text begins with a head, it is read, unless memory runs out.
    ensures found { (value : Request) (size : ℕ) → HasRequest text.now value size
        → (result ≡ Err HeadFault.NoMemory)
        ⊎ IsOkAnd result (λ head. (request_parts head.value ≡ value) × (head.length ≡ size)) }

    // A fault is returned only where it applies, or after a line whose URI found no memory.
    ensures err { IfErr result (λ fault. RefusesIcapHead RequestForm fault text.now ⊎ ForWantOfMemory fault text.now) }

    // Each fault but those of the start line is answered wherever it stands, whatever memory says; so is one of a start line
    // whose URI needn't be judged.
    ensures later { (fault : HeadFault) → fault ≢ HeadFault.StartLine → fault ≢ HeadFault.Version
        → RefusesIcapHead RequestForm fault text.now → result ≡ Err fault }
    ensures start { (fault : HeadFault) → ¬ (NeedsUri text.now)
        → RefusesIcapHead RequestForm fault text.now → result ≡ Err fault }

    // For any other, too, memory ran out where it isn't answered.
    ensures fault { (fault : HeadFault) → RefusesIcapHead RequestForm fault text.now
        → (result ≡ Err fault) ⊎ IsErrAnd result (λ other. ForWantOfMemory other text.now) }
{
    find_request(alloc, text)
}

fn find_request(alloc: Global, text: &[u8]) -> Result<Head<IcapRequest>, HeadFault>
    ensures ok { IfOk result (λ head. HasRequest text.now (request_parts head.value) head.length) }
    ensures err { IfErr result (λ fault. RefusesIcapHead RequestForm fault text.now ⊎ ForWantOfMemory fault text.now) }
{
    let seen = judged(text);
    let Some((line, start)) = first_line(seen) else {
        return Err(unended(text.len()));
    };
    let words = read_request_line(alloc, line)?;
    let (fields, length) = read_fields(alloc, seen, start, text.len())?;
    let Some((method, uri)) = words else {
        return Err(HeadFault::NoMemory);
    };
    let method = RequestMethod::of_name(alloc, method)?;
    let uri = uri.to_vec(alloc)?;
    Ok(Head {
        value: IcapRequest {
            method,
            uri,
            fields,
        },
        length,
    })
}

/// Judges the first line of a text as a request line, whatever follows it: `Ok` if it is one, or if no line has ended
/// yet within the bytes that are judged.
pub fn judge_request_line(alloc: Global, text: &[u8]) -> Result<(), HeadFault>
    ensures ok { OnOk result ((line : List ℕ) (behind : List ℕ) → IsFirstLine (take MAX_HEAD text.now) line behind
        → RequestForm (codes "ICAP/1.0") line) }
    ensures err { IfErr result (λ fault. ((fault ≡ HeadFault.NoMemory) × NeedsUri text.now) ⊎ RefusesRequestLine fault text.now) }
{
    let Some((line, _)) = first_line(judged(text)) else {
        return Ok(());
    };
    match read_request_line(alloc, line)? {
        Some(_) => Ok(()),
        None => Err(HeadFault::NoMemory),
    }
}

/// The text of a head that holds this request: CRLF after each line, and one space after each
/// field's colon, also before an empty value. The request must be writable, as `is_writable` tests.
pub fn write_request(alloc: Global, request: &IcapRequest) -> Result<Vec<u8>, NoMemory>
    requires { IsRequest (request_parts request.now) }
    ensures text { IfOk result (λ text. text.items ≡ request_text (request_parts request.now)) }

    // It is a head of the same request.
    ensures again { IfOk result (λ text. IsRequestHead text.items (request_parts request.now)) }
{
    let mut out = Vec::new(alloc);
    out.extend_from_slice(request.method.name())?;
    out.push(b' ')?;
    out.extend_from_slice(&request.uri)?;
    out.extend_from_slice(b" ICAP/1.0\r\n")?;
    put_fields(&mut out, &request.fields)?;
    Ok(out)
}
