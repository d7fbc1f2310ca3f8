//! Start lines: words with one space between them (RFC 3507, sections 4.3.2 and 4.3.3).
ghost use Rattle.std.specs.Prelude.{◌≡◌, ℕ, ◌+◌, ◌<◌, ◌≤◌, ◌⊎◌, ◌↔◌, List, [], ◌∷◌, ◌++◌, length, drop, codes, IfSome, IfNone, IfOk, IfErr, IsTrue, false};
ghost use Rattle.std.specs.Str.Parse.{digits_value};
ghost use Rattle.adapt_bytes.specs.Text.{Lacks, SameAscii};
ghost use Rattle.http_uri.specs.Uri.{uri_scheme};
ghost use Rattle.icap_head.specs.StartLines.{IsFirstLine, HasNoLine, without_cr, IsRequestLine, MayBeRequestLine, RequestForm, IsStatus, IsStatusLine, StatusForm, IsVersion, IsIcapUri, RefusesStartLine, AreDigits};

use crate::{HeadFault, NoMemory};
use adapt_bytes::{is_token, same_ascii};
use http_uri::{Uri, UriError};
use std::alloc::Global;

/// The first line, and the offset of the text after it.
pub(crate) fn first_line(text: &[u8]) -> Option<(&[u8], usize)>
    ensures some { IfSome result (λ r. (r.1 ≤ length text.now) × IsFirstLine text.now r.0.now (drop r.1 text.now)) }
    ensures none { IfNone result (HasNoLine text.now) }
{
    let at = text.iter().position(|b| *b == b'\n')?;
    Some((strip_cr(&text[..at]), at + 1))
}

/// The line without one CR at its end.
fn strip_cr(raw: &[u8]) -> &[u8]
    ensures { result.now ≡ without_cr raw.now }
{
    match raw {
        [line @ .., b'\r'] => line,
        _ => raw,
    }
}

/// The text before the first space, and the text after it.
fn cut_at_space(text: &[u8]) -> Option<(&[u8], &[u8])>
    ensures some { IfSome result (λ r. (text.now ≡ r.0.now ++ 32 ∷ r.1.now) × Lacks 32 r.0.now) }
    ensures none { IfNone result (Lacks 32 text.now) }
{
    let at = text.iter().position(|b| *b == b' ')?;
    Some((&text[..at], &text[at + 1..]))
}

/// The method and the URI of a request line, or `None` if memory ran out before the URI was judged.
pub(crate) fn read_request_line(
    alloc: Global,
    line: &[u8],
) -> Result<Option<(&[u8], &[u8])>, HeadFault>
    ensures some { IfOk result (λ words. IfSome words (λ r. IsRequestLine line.now r.0.now r.1.now (codes "ICAP/1.0"))) }
    ensures ok { IfOk result (λ _. MayBeRequestLine line.now) }
    ensures err { IfErr result (λ fault. RefusesStartLine RequestForm fault line.now) }
{
    let Some((method, rest)) = cut_at_space(line) else {
        return Err(HeadFault::StartLine);
    };
    let Some((uri, version)) = cut_at_space(rest) else {
        return Err(HeadFault::StartLine);
    };
    if !is_token(method) {
        return Err(HeadFault::StartLine);
    }
    if !is_version(version) {
        return Err(HeadFault::StartLine);
    }
    let Ok(is_uri) = is_icap_uri(alloc, uri) else {
        return Ok(None);
    };
    if !is_uri {
        return Err(HeadFault::StartLine);
    }
    if is_supported(version) {
        Ok(Some((method, uri)))
    } else {
        Err(HeadFault::Version)
    }
}

/// Whether the text is a version of ICAP.
fn is_version(text: &[u8]) -> bool
    ensures { IsTrue result ↔ IsVersion text.now }
{
    match text {
        [b'I', b'C', b'A', b'P', b'/', major, b'.', minor] => {
            major.is_ascii_digit() && minor.is_ascii_digit()
        }
        _ => false,
    }
}

/// Whether the version is the one that is read here.
fn is_supported(version: &[u8]) -> bool
    ensures { IsTrue result ↔ (version.now ≡ codes "ICAP/1.0") }
{
    version == b"ICAP/1.0".as_slice()
}

/// Whether the text is an ICAP URI.
pub(crate) fn is_icap_uri(alloc: Global, text: &[u8]) -> Result<bool, NoMemory>
    ensures { IfOk result (λ is. IsTrue is ↔ IsIcapUri text.now) }
{
    if text.contains(&b'#') {
        return Ok(false);
    }
    match Uri::from_bytes(alloc, text) {
        Ok(uri) => Ok(has_icap_scheme(&uri)),
        Err(UriError::Invalid(_)) => Ok(false),
        Err(UriError::OutOfMemory) => Err(NoMemory),
    }
}

fn has_icap_scheme(uri: &Uri) -> bool
    ensures yes { IsTrue result → (scheme : List ℕ) × (uri_scheme uri.now ≡ Some scheme) × SameAscii scheme (codes "icap") }
    ensures not { result ≡ false → (scheme : List ℕ) → uri_scheme uri.now ≡ Some scheme → SameAscii scheme (codes "icap") → ⊥ }
{
    match uri.scheme_str() {
        Some(scheme) => same_ascii(scheme.as_bytes(), b"icap"),
        None => false,
    }
}

/// The status and the phrase of a status line.
pub(crate) fn read_status_line(line: &[u8]) -> Result<(u16, &[u8]), HeadFault>
    ensures ok { IfOk result (λ r. IsStatusLine line.now r.0 r.1.now (codes "ICAP/1.0")) }
    ensures err { IfErr result (λ fault. RefusesStartLine StatusForm fault line.now) }
{
    let Some((version, rest)) = cut_at_space(line) else {
        return Err(HeadFault::StartLine);
    };
    if !is_version(version) {
        return Err(HeadFault::StartLine);
    }
    let Some((status, phrase)) = read_status(rest) else {
        return Err(HeadFault::StartLine);
    };
    if is_supported(version) {
        Ok((status, phrase))
    } else {
        Err(HeadFault::Version)
    }
}

/// Three digits, and nothing or a space and a phrase.
fn read_status(text: &[u8]) -> Option<(u16, &[u8])>
    ensures some { IfSome result (λ r. IsStatus text.now r.0 r.1.now) }
    ensures none { IfNone result ((status : ℕ) (phrase : List ℕ) → IsStatus text.now status phrase → ⊥) }
{
    match text {
        [a, b, c] => Some((read_three_digits(*a, *b, *c)?, b"")),
        [a, b, c, b' ', phrase @ ..] => Some((read_three_digits(*a, *b, *c)?, phrase)),
        _ => None,
    }
}

/// The number that three digits write.
fn read_three_digits(a: u8, b: u8, c: u8) -> Option<u16>
    ensures some { IfSome result (λ n. AreDigits a b c × (n ≡ digits_value 10 (a ∷ b ∷ c ∷ []))) }
    ensures none { IfNone result (AreDigits a b c → ⊥) }
{
    if a.is_ascii_digit() && b.is_ascii_digit() && c.is_ascii_digit() {
        Some(u16::from(a - b'0') * 100 + u16::from(b - b'0') * 10 + u16::from(c - b'0'))
    } else {
        None
    }
}
