//! What the log says of heads.

ghost use Rattle.std.specs.Prelude.{◌≡◌, ◌<◌, ◌≤◌, IfSome, length, drop};
ghost use Rattle.shard_report.specs.Heads.{HasWords, empty_lines, place_of, without_query, word_length};

use adapt_bytes::{behind, front, is_blank, read_decimal, same_ascii, trim};

/// A media type without its parameters (RFC 9110, section 8.3.1).
pub fn kind_of(value: &[u8]) -> &[u8] {
    let value = trim(value);
    match value
        .iter()
        .position(|byte| *byte == b';' || is_blank(*byte))
    {
        Some(end) => front(value, end),
        None => value,
    }
}

/// The name of the field with an answer's media type.
const KIND: &[u8] = b"content-type:";

/// The media type in a head's text.
pub fn kind_in(head: &[u8]) -> &[u8] {
    for line in head.split(|byte| *byte == b'\n') {
        if same_ascii(front(line, KIND.len()), KIND)
            && let Some(value) = line.get(KIND.len()..)
        {
            return kind_of(value.strip_suffix(b"\r").unwrap_or(value));
        }
    }
    b""
}

/// The status in a response's text; none where it is no response's.
pub fn status_in(head: &[u8]) -> Option<u16>
    ensures { IfSome result (λ status. status < 1000) }
{
    let digits = head.get(9..12)?;
    match read_decimal(digits) {
        Some(status) if head.starts_with(b"HTTP/") && status < 1000 => Some(status as u16),
        _ => None,
    }
}

/// The place of the first such byte; the length where there is none.
fn place_of(text: &[u8], byte: u8) -> usize
    ensures place { result ≡ place_of byte text.now }
    ensures within { result ≤ length text.now }
{
    let mut at = 0;
    for other in text {
        if *other == byte {
            return at;
        }
        at += 1;
    }
    at
}

/// A target without its query, but for the question mark that begins it (RFC 3986, section 3.4).
pub fn without_query(target: &[u8]) -> &[u8]
    ensures { result.now ≡ without_query target.now }
{
    front(target, place_of(target, b'?') + 1)
}

/// How many bytes the word has with which a text begins.
fn word_length(text: &[u8]) -> usize
    ensures length { result ≡ word_length text.now }
    ensures within { result ≤ length text.now }
{
    let mut at = 0;
    for byte in text {
        if *byte <= b' ' {
            return at;
        }
        at += 1;
    }
    at
}

/// How many bytes of empty lines stand before a request line (RFC 9112, section 2.2).
fn empty_lines(text: &[u8]) -> usize
    ensures length { result ≡ empty_lines text.now }
    ensures within { result ≤ length text.now }
{
    let mut at = 0;
    for byte in text {
        if *byte != b'\r' && *byte != b'\n' {
            return at;
        }
        at += 1;
    }
    at
}

/// The two words of a line that begins this text. Both are empty until the line has ended.
fn words_of(text: &[u8]) -> (&[u8], &[u8])
    ensures { HasWords text.now result.0.now result.1.now }
{
    if place_of(text, b'\n') >= text.len() {
        return (&[], &[]);
    }
    let size = word_length(text);
    let rest = behind(text, size + 1);
    (front(text, size), front(rest, word_length(rest)))
}

/// The method and the target of a request, of whose head this came, as they stand there: also of one that is refused. Empty lines before
/// it are passed over. Both are empty until its first line has ended (RFC 9112, sections 2.2 and 3).
pub fn request_line(head: &[u8]) -> (&[u8], &[u8])
    ensures { HasWords (drop (empty_lines head.now) head.now) result.0.now result.1.now }
{
    words_of(behind(head, empty_lines(head)))
}

/// The parameter of X-Infection-Found with the name of what was found.
const THREAT: &[u8] = b"threat=";

/// The value of the parameter Threat, among parameters between semicolons; empty where there is none.
fn threat_in(parameters: &[u8]) -> &[u8] {
    for part in parameters.split(|byte| *byte == b';') {
        let part = trim(part);
        if same_ascii(front(part, THREAT.len()), THREAT) {
            return trim(behind(part, THREAT.len()));
        }
    }
    b""
}

/// The name of what a service found, of the values of its fields X-Infection-Found and X-Virus-ID: the parameter Threat of the first,
/// or else the second. Empty where there is neither.
pub fn what_was_found<'v>(infection: Option<&'v [u8]>, virus: Option<&'v [u8]>) -> &'v [u8] {
    let threat = threat_in(infection.unwrap_or(b""));
    if threat.is_empty() {
        trim(virus.unwrap_or(b""))
    } else {
        threat
    }
}
