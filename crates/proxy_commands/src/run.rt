//! One run of the program, over any reader and any two writers.

ghost use Rattle.std.specs.Prelude.{◌≡◌, ◌+◌, ◌≢◌, ℕ, ◌⊎◌, take, map, string_bytes, IfOk, IfErr, IfSome, MatchResult, OnOk};
ghost use Rattle.std.specs.Io.KnownBytes.{Appends};
ghost use Rattle.adapt_bytes.specs.declared.limits.TheConstants.{MAX_INPUT};
ghost use Rattle.proxy_commands.specs.Run.{IsRunnable, IsCommandOutput, RefusesInput, PrintsOutput, Fails, FailsWith};

use crate::chunks::chunks_output;
use crate::command::{Command, read_command};
use crate::error::Error;
use crate::trace::trace_output;
use adapt_bytes::MAX_INPUT;
use std::alloc::Global;
use std::io::{self, ErrorKind, Read, Write};

/// The error that a failed read ends the program with: want of memory, or a failed read.
pub fn read_error(error: &io::Error) -> Error
    ensures { (result ≡ Error.NoMemory) ⊎ (result ≡ Error.ReadFailed) }
{
    if error.kind() == ErrorKind::OutOfMemory {
        Error::NoMemory
    } else {
        Error::ReadFailed
    }
}

/// Reads to the end, but no more than one byte past [`MAX_INPUT`].
pub fn read_input<R: Read + Drop>(alloc: Global, reader: R) -> Result<Vec<u8>, Error>
    ensures read { IfOk result (λ input. IfSome (R.remaining reader) (λ bytes. input.items ≡ take (MAX_INPUT + 1) bytes)) }
    ensures failed { IfErr result (λ error. (error ≡ Error.NoMemory) ⊎ (error ≡ Error.ReadFailed)) }
{
    let mut input = Vec::new(alloc);
    match reader.take(MAX_INPUT as u64 + 1).read_to_end(&mut input) {
        Ok(_) => Ok(input),
        Err(error) => Err(read_error(&error)),
    }
}

/// What the command prints for its input.
fn answer(alloc: Global, command: Command, input: &[u8]) -> Result<Vec<u8>, Error>
    requires { IsRunnable command }
    ensures { MatchResult result (λ out. IsCommandOutput command input.now out.items) (RefusesInput command input.now) }
{
    match command {
        Command::Trace => trace_output(alloc, input),
        Command::Chunks { piece_size } => chunks_output(alloc, input, piece_size),
    }
}

/// Writes all of an answer.
pub fn write_out<W: Write>(output: &mut W, bytes: &[u8]) -> Result<(), Error>
    ensures written { OnOk result (Appends (W.contents output.old) (W.contents output.new) bytes.now) }
    ensures failed { IfErr result (λ error. error ≡ Error.WriteFailed) }
{
    if output.write_all(bytes).is_err() || output.flush().is_err() {
        return Err(Error::WriteFailed);
    }
    Ok(())
}

/// Answers by the command that the arguments name. Nothing is written before the whole answer is
/// known.
fn perform<R: Read + Drop, W: Write>(
    alloc: Global,
    args: &[String],
    reader: R,
    output: &mut W,
) -> Result<(), Error>
    ensures done { OnOk result (PrintsOutput (map string_bytes args.now) (R.remaining reader)
        (W.contents output.old) (W.contents output.new)) }
    ensures failed { IfErr result (Fails (map string_bytes args.now) (R.remaining reader)) }
    ensures silent { IfErr result (λ error. error ≢ Error.WriteFailed → output.new ≡ output.old) }
{
    let Some(command) = read_command(args) else {
        return Err(Error::Usage);
    };
    let input = read_input(alloc, reader)?;
    match answer(alloc, command, input.as_slice()) {
        Ok(out) => write_out(output, out.as_slice()),
        Err(error) => Err(error),
    }
}

/// Runs the command that the arguments after the program's name give: its answer goes to `output`.
/// If there is no answer, one line goes to `errors`, and nothing to `output`; but a write that fails
/// may have written a part of the answer.
///
/// The exit status: 0; 1 for `read failed`, `write failed` and `out of memory`; 2 for `usage`,
/// `input too long` and `line N`.
///
/// ```
/// // The arguments are `chunks` and `4`.
/// let body: &[u8] = b"3\r\nabc\r\n0\r\n\r\n";
/// let status = run(alloc, &args, body, &mut output, &mut errors);
/// assert_eq!(rt; status, 0);
/// assert_eq!(rt; output.as_slice(), b"body 616263\nend plain\nrest 0\n");
/// ```
pub fn run<R: Read + Drop, W: Write, E: Write>(
    alloc: Global,
    args: &[String],
    reader: R,
    output: &mut W,
    errors: &mut E,
) -> u8
    ensures done { result ≡ 0 → PrintsOutput (map string_bytes args.now) (R.remaining reader)
        (W.contents output.old) (W.contents output.new) }
    ensures failed { result ≢ 0 → FailsWith (map string_bytes args.now) (R.remaining reader) result }
    ensures silent { result ≡ 2 → output.new ≡ output.old }
    ensures no_error { result ≡ 0 → errors.new ≡ errors.old }
{
    match perform(alloc, args, reader, output) {
        Ok(()) => 0,
        Err(error) => {
            // If standard error can't be written, nothing is left to report it to.
            let _ = errors.write_all(error.text().as_slice());
            error.status()
        }
    }
}
