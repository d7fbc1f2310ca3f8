//! What a line of a script says.

ghost use Rattle.std.specs.Prelude.{◌≡◌, None, Some, codes};
ghost use Rattle.std.specs.Option.{option_copied};
ghost use Rattle.std.specs.Str.{bytes_eq};
ghost use Rattle.proxy_commands.specs.Reading.{decimal_of, behind, mark_of, cause_of, numbered_of, or_number, line_of};
ghost use Rattle.proxy_commands.specs.declared.script.Line.TheVariants.{Need};
ghost use Rattle.trace_core.specs.declared.tape.Tape.TheVariants.{Original, Adapted};

use crate::script::Line;
use adapt_bytes::read_decimal;
use need_witness::Tape;
use trace_core::{Cause, Event, Payload};

/// The number that decimal digits write, with any leading zeros. `None` for other bytes, for an empty
/// text, and for a number above `2^64 - 1`.
#[tactic(auto, unfolding(crate::specs::Reading::decimal_of))]
pub fn number(digits: &[u8]) -> Option<u64>
    ensures { result ≡ decimal_of digits.now }
{
    read_decimal(digits)
}

/// What follows this prefix; `None` if the text doesn't begin with it.
pub fn behind<'a>(text: &'a [u8], front: &[u8]) -> Option<&'a [u8]>
    ensures { option_copied result ≡ behind front.now text.now }
{
    text.strip_prefix(front)
}

/// Whether the text is this one.
pub fn says(text: &[u8], words: &[u8]) -> bool
    ensures { result ≡ bytes_eq text.now words.now }
{
    text == words
}

/// An event that is a word alone.
#[tactic(auto, unfolding(crate::specs::Reading::mark_of))]
fn read_mark(line: &[u8]) -> Option<Event>
    ensures { result ≡ mark_of line.now }
{
    if says(line, b"end") {
        Some(Event::End)
    } else if says(line, b"stop") {
        Some(Event::Stop)
    } else if says(line, b"heard") {
        Some(Event::Heard)
    } else if says(line, b"100") {
        Some(Event::Continue)
    } else if says(line, b"204") {
        Some(Event::NoMod)
    } else if says(line, b"200") {
        Some(Event::Mod(Payload::Body))
    } else if says(line, b"200 null") {
        Some(Event::Mod(Payload::NullBody))
    } else if says(line, b"adend") {
        Some(Event::AdEnd)
    } else if says(line, b"done") {
        Some(Event::Done)
    } else if says(line, b"retry") {
        Some(Event::Retry)
    } else {
        None
    }
}

/// The cause of a failure, by its number.
#[tactic(auto, unfolding(crate::specs::Reading::cause_of))]
fn cause(number: u64) -> Option<Cause>
    ensures { result ≡ cause_of number }
{
    match number {
        1 => Some(Cause::Source),
        2 => Some(Cause::Service),
        3 => Some(Cause::NextHop),
        4 => Some(Cause::Memory),
        5 => Some(Cause::Deadline),
        6 => Some(Cause::Stopping),
        _ => None,
    }
}

/// A line that asks for a continuation.
fn read_need(line: &[u8]) -> Option<Line>
    ensures { result ≡ or_number (behind (codes "need original ") line.now) (λ n. Some (Need Original n))
        (or_number (behind (codes "need adapted ") line.now) (λ n. Some (Need Adapted n)) None) }
{
    if let Some(digits) = behind(line, b"need original ") {
        return Some(Line::Need(Tape::Original, number(digits)?));
    }
    let digits = behind(line, b"need adapted ")?;
    Some(Line::Need(Tape::Adapted, number(digits)?))
}

/// A line of words and a number.
#[tactic(auto, unfolding(crate::specs::Reading::numbered_of))]
fn read_numbered(line: &[u8]) -> Option<Line>
    ensures { result ≡ numbered_of line.now }
{
    if let Some(digits) = behind(line, b"in ") {
        return Some(Line::Step(Event::In(number(digits)?)));
    }
    if let Some(digits) = behind(line, b"svc ") {
        return Some(Line::Step(Event::Svc(number(digits)?)));
    }
    if let Some(digits) = behind(line, b"ad ") {
        return Some(Line::Step(Event::Ad(number(digits)?)));
    }
    if let Some(digits) = behind(line, b"usr ") {
        return Some(Line::Step(Event::Usr(number(digits)?)));
    }
    if let Some(digits) = behind(line, b"fail ") {
        return Some(Line::Step(Event::Fail(cause(number(digits)?)?)));
    }
    read_need(line)
}

/// What a line after the plan says. `None` for a line of another form.
#[tactic(auto, unfolding(crate::specs::Reading::line_of))]
pub fn read_line(line: &[u8]) -> Option<Line>
    ensures { result ≡ line_of line.now }
{
    match read_mark(line) {
        Some(event) => Some(Line::Step(event)),
        None => read_numbered(line),
    }
}
