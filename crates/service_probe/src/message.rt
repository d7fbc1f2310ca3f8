//! The text of a message that a service is tried with.

ghost use Rattle.std.specs.Prelude.{◌≡◌, ◌++◌, OnOk, IfOk};
ghost use Rattle.adapt_bytes.specs.Numeral.{numeral};
ghost use Rattle.service_probe.specs.Messages.{body_of, chunk, chunks_of, filled, framed, head_of, in_chunks, lines, message_text, request, virus, with_length};

use crate::samples::Sample;
use adapt_bytes::{Small, behind, front, put_decimal, put_hex};
use std::alloc::{AllocError, Global};
use trace_core::Point;

/// The user's request to which the messages of RESPMOD are answers.
pub const REQUEST: &[u8] = b"GET http://probe.test/sample.txt HTTP/1.1\r\nHost: probe.test\r\n\r\n";

const POST: &[u8] =
    b"POST http://probe.test/sample.txt HTTP/1.1\r\nHost: probe.test\r\nContent-Type: text/plain\r\n";

const ANSWER: &[u8] = b"HTTP/1.1 200 OK\r\nContent-Type: text/plain\r\n";

/// What a body is made of.
const LINE: &[u8] = b"A message by which adaptproxy tries a service, 0123456789.\r\n";

/// The second half of the test text of EICAR. No file of this program has the whole, which is what scanners look for.
const SECOND: &[u8] = b"-STANDARD-ANTIVIRUS-TEST-FILE!$H+H*";

/// Its first half.
const FIRST: &[u8] = b"X5O!P%@AP[4\\PZX54(P^)7CC)7}$EICAR";

/// The size of a chunk.
const CHUNK: usize = 4_096;

/// Adds the line that fills bodies, so many times.
fn put_lines(body: &mut Vec<u8>, count: usize) -> Result<(), AllocError>
    ensures { OnOk result (body.new.items ≡ body.old.items ++ lines count) }
{
    for _line in 0..count {
        body.extend_from_slice(LINE)?;
    }
    Ok(())
}

/// A body of so many bytes.
fn filled(alloc: Global, size: usize) -> Result<Vec<u8>, AllocError>
    ensures { IfOk result (λ body. body.items ≡ filled size) }
{
    let mut body = Vec::with_capacity(alloc, size)?;
    put_lines(&mut body, size / 60)?;
    body.extend_from_slice(front(LINE, size % 60))?;
    Ok(body)
}

/// The test text of EICAR.
fn virus(alloc: Global) -> Result<Vec<u8>, AllocError>
    ensures { IfOk result (λ body. body.items ≡ virus) }
{
    let mut body = FIRST.to_vec(alloc)?;
    body.extend_from_slice(SECOND)?;
    Ok(body)
}

/// A sample's body, of so many bytes.
fn body_of(alloc: Global, sample: Sample, size: u64) -> Result<Vec<u8>, AllocError>
    ensures { IfOk result (λ body. body.items ≡ body_of sample size) }
{
    match sample {
        Sample::Eicar => virus(alloc),
        _ => filled(alloc, size as usize),
    }
}

/// Adds a body of a length that is said, with its fields.
fn put_with_length(text: &mut Vec<u8>, body: &[u8]) -> Result<(), AllocError>
    ensures { OnOk result (text.new.items ≡ text.old.items ++ with_length body.now) }
{
    let mut digits = Small::new();
    put_decimal(body.len() as u64, &mut digits);
    text.extend_from_slice(b"Content-Length: ")?;
    text.extend_from_slice(digits.as_slice())?;
    text.extend_from_slice(b"\r\n\r\n")?;
    text.extend_from_slice(body)
}

/// Adds a chunk (RFC 9112, section 7.1).
fn put_chunk(text: &mut Vec<u8>, bytes: &[u8]) -> Result<(), AllocError>
    ensures { OnOk result (text.new.items ≡ text.old.items ++ chunk bytes.now) }
{
    let mut digits = Small::new();
    put_hex(bytes.len() as u64, &mut digits);
    text.extend_from_slice(digits.as_slice())?;
    text.extend_from_slice(b"\r\n")?;
    text.extend_from_slice(bytes)?;
    text.extend_from_slice(b"\r\n")
}

/// Adds so many chunks of a body.
fn put_chunks(text: &mut Vec<u8>, body: &[u8], count: usize) -> Result<(), AllocError>
    ensures { OnOk result (text.new.items ≡ text.old.items ++ chunks_of count body.now) }
{
    let mut rest = body;
    for _chunk in 0..count {
        put_chunk(text, front(rest, CHUNK))?;
        rest = behind(rest, CHUNK);
    }
    Ok(())
}

/// Adds a body in chunks, with its field.
fn put_in_chunks(text: &mut Vec<u8>, body: &[u8]) -> Result<(), AllocError>
    ensures { OnOk result (text.new.items ≡ text.old.items ++ in_chunks body.now) }
{
    text.extend_from_slice(b"Transfer-Encoding: chunked\r\n\r\n")?;
    put_chunks(text, body, body.len().div_ceil(CHUNK))?;
    text.extend_from_slice(b"0\r\n\r\n")
}

/// Adds a sample's body with its fields.
fn put_framed(text: &mut Vec<u8>, sample: Sample, body: &[u8]) -> Result<(), AllocError>
    ensures { OnOk result (text.new.items ≡ text.old.items ++ framed sample body.now) }
{
    match sample {
        Sample::Chunked => put_in_chunks(text, body),
        _ => put_with_length(text, body),
    }
}

/// The head of a message with a body, without the fields that say how long that is.
fn head_of(point: Point) -> &'static [u8]
    ensures { result.now ≡ head_of point }
{
    match point {
        Point::Reqmod => POST,
        Point::Respmod => ANSWER,
    }
}

/// A message with a sample's body.
fn with_body(alloc: Global, point: Point, sample: Sample, size: u64) -> Result<Vec<u8>, AllocError>
    ensures { IfOk result (λ text. text.items ≡ head_of point ++ framed sample (body_of sample size)) }
{
    let body = body_of(alloc, sample, size)?;
    let mut text = head_of(point).to_vec(alloc)?;
    put_framed(&mut text, sample, &body)?;
    Ok(text)
}

/// The message with a sample's body, as it comes from the user at REQMOD and from the origin at RESPMOD.
pub fn message_of(
    alloc: Global,
    point: Point,
    sample: Sample,
    size: u64,
) -> Result<Vec<u8>, AllocError>
    ensures { IfOk result (λ text. text.items ≡ message_text point sample size) }
{
    match (point, sample) {
        (Point::Reqmod, Sample::NoBody) => REQUEST.to_vec(alloc),
        _ => with_body(alloc, point, sample, size),
    }
}
