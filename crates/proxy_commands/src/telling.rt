//! `adaptproxy tell`: a line for the administrator's port, and what its answer means.

ghost use Rattle.std.specs.Prelude.{◌≡◌, IfOk};
ghost use Rattle.proxy_commands.specs.Telling.{is_counted, is_kept, is_refused, is_whole, line_of_words, told_status};

use crate::error::Error;
use crate::run::write_out;
use crate::serve_error::ServeError;
use std::alloc::{AllocError as NoMemory, Global};
use std::io::{Read, Write};

/// The most bytes that are read at once of an answer.
const PIECE: usize = 4_096;

/// The most pieces that an answer is read in.
const MAX_PIECES: u64 = 65_536;

/// The line that words say: a space between each two, and LF at the end.
pub fn line_of_words(alloc: Global, words: &[String]) -> Result<Vec<u8>, NoMemory>
    ensures { IfOk result (λ line. line.items ≡ line_of_words words.now) }
{
    let mut line = words.join(alloc, " ")?;
    line.push_str("\n")?;
    Ok(line.into_bytes())
}

/// Whether the list of exchanges has come to its end: its last line counts them.
fn is_counted(answer: &[u8]) -> bool
    ensures { result ≡ is_counted answer.now }
{
    answer.ends_with(b" idle\n")
        || answer.ends_with(b" left out\n")
        || answer == b"bad\n".as_slice()
}

/// Whether the answer to a line has come to its end. The text of the counters, and a script, have many lines, of which the last is
/// `# EOF`.
fn is_whole(line: &[u8], answer: &[u8]) -> bool
    ensures { result ≡ is_whole line.now answer.now }
{
    if line.starts_with(b"exchanges") {
        is_counted(answer)
    } else if answer.starts_with(b"#") {
        answer.ends_with(b"\n# EOF\n")
    } else {
        answer.ends_with(b"\n")
    }
}

/// Whether an answer refuses a line, or says that its memory or file can't be had.
fn is_refused(answer: &[u8]) -> bool
    ensures { result ≡ is_refused answer.now }
{
    answer.starts_with(b"refused ")
        || answer == b"out of memory\n".as_slice()
        || answer == b"cannot open\n".as_slice()
}

/// Whether an answer refuses a new configuration.
fn is_kept(answer: &[u8]) -> bool
    ensures { result ≡ is_kept answer.now }
{
    answer.starts_with(b"bad line ")
        || answer.starts_with(b"restart ")
        || answer.starts_with(b"config")
        || answer.starts_with(b"input too long")
}

/// The exit status that an answer gives: 2 where the line is none that the port takes, 1 where nothing was done, else 0.
fn told_status(answer: &[u8]) -> u8
    ensures { result ≡ told_status answer.now }
{
    if answer == b"bad\n".as_slice() {
        2
    } else if is_refused(answer) || is_kept(answer) {
        1
    } else {
        0
    }
}

/// Reads the answer to a line to its end, or to that of the connection.
fn read_answer<S: Read>(
    alloc: Global,
    connection: &mut S,
    line: &[u8],
) -> Result<Vec<u8>, ServeError> {
    let mut answer = Vec::new(alloc);
    let mut piece = [0; PIECE];
    for _ in 0..MAX_PIECES {
        let Ok(count) = connection.read(&mut piece) else {
            return Err(ServeError::NoAnswer);
        };
        if count == 0 {
            return Ok(answer);
        }
        if answer.extend_from_slice(&piece[..count]).is_err() {
            return Err(ServeError::Ended(Error::NoMemory));
        }
        if is_whole(line, &answer) {
            return Ok(answer);
        }
    }
    Err(ServeError::NoAnswer)
}

/// Says a line over a connection, prints the answer, and answers the exit status that it gives.
///
/// `stop` has no answer: it was heard once the connection ends. `NoAnswer` where another line has none, or not the whole of
/// one.
pub fn ask<S: Read + Write, O: Write>(
    alloc: Global,
    connection: &mut S,
    line: &[u8],
    output: &mut O,
) -> Result<u8, ServeError> {
    if connection.write_all(line).is_err() || connection.flush().is_err() {
        return Err(ServeError::NoAnswer);
    }
    let answer = read_answer(alloc, connection, line)?;
    if answer.is_empty() && line == b"stop\n".as_slice() {
        return Ok(0);
    }
    if !is_whole(line, &answer) {
        return Err(ServeError::NoAnswer);
    }
    match write_out(output, &answer) {
        Ok(()) => Ok(told_status(&answer)),
        Err(error) => Err(ServeError::Ended(error)),
    }
}
