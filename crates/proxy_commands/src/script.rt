//! Scripts: a plan, and the events and questions after it, with comments between.

ghost use Rattle.std.specs.Prelude.{◌≡◌, ◌≤◌, ◌+◌, ℕ, not, ◌&&◌, false, is_none, List, length, IfOk, IfSome, IfNone, OnOk, MatchResult};
ghost use Rattle.adapt_bytes.specs.declared.limits.TheConstants.{MAX_INPUT};
ghost use Rattle.proxy_commands.specs.declared.script.Line.{Line as AnyLine};
ghost use Rattle.proxy_commands.specs.Lines.{lines_of, is_comment, said};
ghost use Rattle.proxy_commands.specs.Reading.{line_of};
ghost use Rattle.proxy_commands.specs.Script.{SaysLines, IsScript, IsFirstOther, IsBadFrom, IsFirstBad, IsRefused};

use crate::error::Error;
use crate::lines::{cut_line, is_comment};
use crate::plan_line::read_plan;
use crate::reading::read_line;
use adapt_bytes::MAX_INPUT;
use need_witness::Tape;
use std::alloc::{AllocError as NoMemory, Global};
use trace_core::{Event, Plan};

/// A line of a script, after its plan.
#[derive(Clone, Copy)]
pub enum Line {
    /// An event that may happen next.
    Step(Event),
    /// Asks for a continuation that still sends the byte at this offset of a body.
    Need(Tape, u64),
}

/// A plan, and what is asked of a transaction with that plan, in order.
#[derive(Drop)]
pub struct Script {
    pub plan: Plan,
    pub lines: Vec<Line>,
}

/// Reads a script: the plan on its first line, and an event or a question on each line after it. Each line ends with LF, which the
/// last may lack. A line that begins with `#` is a comment: it is passed over wherever it stands, and counted as a line.
///
/// `InputTooLong` for more than [`MAX_INPUT`] bytes; else `Line` with the number of the first line of another form. Where the plan is
/// lacking, that is the line after the last one: 1 for an empty text. Both are judged before memory is taken: `NoMemory` only for a
/// good script.
pub fn read_script(alloc: Global, text: &[u8]) -> Result<Script, Error>
    ensures read { MatchResult result (IsScript text.now) (IsRefused text.now) }
    ensures short { OnOk result (length text.now ≤ MAX_INPUT) }
{
    if text.len() > MAX_INPUT {
        return Err(Error::InputTooLong);
    }
    let (number, script) = past_comments(text);
    if script.is_empty() {
        return Err(Error::Line { number });
    }
    let (first, rest) = cut_line(script);
    let Some(plan) = read_plan(first) else {
        return Err(Error::Line { number });
    };
    if let Some(number) = first_other(number + 1, rest) {
        return Err(Error::Line { number });
    }
    match read_lines(alloc, rest) {
        Ok(lines) => Ok(Script { plan, lines }),
        Err(_) => Err(Error::NoMemory),
    }
}

/// The number of the first line that is no comment, and the text from there on.
fn past_comments(text: &[u8]) -> (u64, &[u8])
    requires { length text.now ≤ MAX_INPUT }
    ensures counted { result.0 + length result.1.now ≤ MAX_INPUT + 1 }
    ensures plain { is_comment result.1.now ≡ false }
    ensures said { said (lines_of text.now) ≡ said (lines_of result.1.now) }
    ensures bad { (n : ℕ) → IsBadFrom result.0 (lines_of result.1.now) n → IsFirstBad (lines_of text.now) n }
{
    let mut rest = text;
    let mut number: u64 = 1;
    while is_comment(rest) {
        rest = cut_line(rest).1;
        number += 1;
    }
    (number, rest)
}

/// Whether a line is neither a comment nor of a script.
fn is_other(line: &[u8]) -> bool
    ensures { result ≡ (not (is_comment line.now) && is_none (line_of line.now)) }
{
    !is_comment(line) && read_line(line).is_none()
}

/// The number of the first line of another form, where they are counted from `from`.
fn first_other(from: u64, text: &[u8]) -> Option<u64>
    requires { from + length text.now ≤ MAX_INPUT + 1 }
    ensures other { IfSome result (IsFirstOther from (lines_of text.now)) }
    ensures good { IfNone result ((lines : List AnyLine) × SaysLines (said (lines_of text.now)) lines) }
{
    let mut rest = text;
    let mut number = from;
    while !rest.is_empty() {
        let (line, behind) = cut_line(rest);
        if is_other(line) {
            return Some(number);
        }
        rest = behind;
        number += 1;
    }
    None
}

/// Reads lines that are known to be good.
fn read_lines(alloc: Global, text: &[u8]) -> Result<Vec<Line>, NoMemory>
    requires { (lines : List AnyLine) × SaysLines (said (lines_of text.now)) lines }
    ensures { IfOk result (λ lines. SaysLines (said (lines_of text.now)) lines.items) }
{
    let mut lines = Vec::new(alloc);
    let mut rest = text;
    while !rest.is_empty() {
        let (line, behind) = cut_line(rest);
        if !is_comment(line) {
            let Some(line) = read_line(line) else {
                unreachable!()
            };
            lines.push(line)?;
        }
        rest = behind;
    }
    Ok(lines)
}
