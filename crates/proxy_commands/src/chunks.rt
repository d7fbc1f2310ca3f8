//! `adaptproxy chunks`: reads a chunked body, and prints its bytes and its end.

ghost use Rattle.std.specs.Prelude.{◌≡◌, ◌++◌, ◌<◌, ◌≤◌, codes, length, IfOk, OnOk, MatchResult};
ghost use Rattle.adapt_bytes.specs.Numeral.{numeral};
ghost use Rattle.adapt_bytes.specs.declared.limits.TheConstants.{MAX_INPUT};
ghost use Rattle.icap_chunks.specs.Reading.{number_of, IsReading};
ghost use Rattle.proxy_commands.specs.Chunks.{body_text, fault_name, end_text, outcome_text, EndsWithin, IsChunksOutput, IsChunksRefused};

use crate::answers::{write_after, write_fault};
use crate::error::Error;
use adapt_bytes::MAX_INPUT;
use icap_chunks::{ChunkFault, Outcome, read_in_pieces};
use std::alloc::{AllocError as NoMemory, Global};

/// Adds the line of the body, in hexadecimal.
fn write_body(alloc: Global, out: &mut Vec<u8>, body: &[u8]) -> Result<(), NoMemory>
    ensures { OnOk result (out.new.items ≡ out.old.items ++ body_text body.now) }
{
    out.extend_from_slice(b"body ")?;
    if body.is_empty() {
        out.extend_from_slice(b"-")?;
    } else {
        let text = hex::encode(alloc, body)?;
        out.extend_from_slice(text.as_bytes())?;
    }
    out.extend_from_slice(b"\n")
}

/// The name of a fault.
fn fault_name(fault: ChunkFault) -> &'static [u8]
    ensures { result.now ≡ fault_name fault }
{
    match fault {
        ChunkFault::Size => b"Size",
        ChunkFault::TooBig => b"TooBig",
        ChunkFault::Line => b"Line",
        ChunkFault::Break => b"Break",
        ChunkFault::Trailers => b"Trailers",
    }
}

/// Adds the lines of an end: whether it had an `ieof`, and how many bytes came after it.
fn write_end(out: &mut Vec<u8>, ieof: bool, rest: u64) -> Result<(), NoMemory>
    ensures { OnOk result (out.new.items ≡ out.old.items ++ end_text ieof ++ codes "rest " ++ numeral 10 rest ++ codes "\n") }
{
    out.extend_from_slice(if ieof { b"end ieof\n" } else { b"end plain\n" })?;
    write_after(out, b"rest ", rest)?;
    out.extend_from_slice(b"\n")
}

/// Adds the lines that say how the reading of `count` bytes went.
fn write_outcome(out: &mut Vec<u8>, count: usize, outcome: Outcome) -> Result<(), NoMemory>
    requires { EndsWithin count outcome }
    ensures { OnOk result (out.new.items ≡ out.old.items ++ outcome_text count outcome) }
{
    match outcome {
        Outcome::More => out.extend_from_slice(b"more\n"),
        Outcome::Ended { ieof, used } => write_end(out, ieof, (count - used) as u64),
        Outcome::Faulted(fault) => write_fault(out, u64::from(fault.number()), fault_name(fault)),
    }
}

/// The lines for a text that is read in pieces of `piece_size` bytes.
fn write_reading(alloc: Global, text: &[u8], piece_size: usize) -> Result<Vec<u8>, NoMemory>
    requires { 0 < piece_size }
    ensures { IfOk result (λ out. IsChunksOutput text.now out.items) }
{
    let reading = read_in_pieces(alloc, text, piece_size)?;
    let mut out = Vec::new(alloc);
    write_body(alloc, &mut out, reading.body.as_slice())?;
    write_outcome(&mut out, text.len(), reading.outcome)?;
    Ok(out)
}

/// What `adaptproxy chunks` prints for its input, a chunked body (RFC 9112, section 7.1; RFC 3507,
/// section 4.5), read in pieces of `piece_size` bytes. The size of the pieces changes nothing.
///
/// `InputTooLong` for more than [`MAX_INPUT`] bytes; `NoMemory` if the answer finds no memory.
pub fn chunks_output(alloc: Global, input: &[u8], piece_size: usize) -> Result<Vec<u8>, Error>
    requires { 0 < piece_size }
    ensures output { MatchResult result (λ out. IsChunksOutput input.now out.items) (IsChunksRefused input.now) }
    ensures short { OnOk result (length input.now ≤ MAX_INPUT) }
{
    if input.len() > MAX_INPUT {
        return Err(Error::InputTooLong);
    }
    match write_reading(alloc, input, piece_size) {
        Ok(out) => Ok(out),
        Err(_) => Err(Error::NoMemory),
    }
}
