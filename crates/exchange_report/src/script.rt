//! A history as a script has it: what `adaptproxy trace` reads again.

ghost use Rattle.std.specs.Prelude.{◌≡◌, ◌++◌, Some, OnOk, codes};
ghost use Rattle.trace_core.specs.History.{shows};
ghost use Rattle.exchange_report.specs.Script.{range_text, kind_text, allow_text, length_text, plan_text, event_word, cause_number, event_number, event_text, events_lines, history_text, printed_number, need_words, need_text, ends_of, needs_lines, needs_text};

use crate::words::write_number;
use std::alloc::AllocError;
use trace_core::{Cause, Event, Kind, Payload, Plan, State, Tape, Trace};

/// Adds a range of offsets, as `4..6`.
pub fn write_range(out: &mut Vec<u8>, range: (u64, u64)) -> Result<(), AllocError>
    ensures { OnOk result (out.new.items ≡ out.old.items ++ range_text range) }
{
    write_number(out, range.0)?;
    out.extend_from_slice(b"..")?;
    write_number(out, range.1)
}

/// Adds words, a space and a number.
fn write_numbered(out: &mut Vec<u8>, words: &[u8], n: u64) -> Result<(), AllocError>
    ensures { OnOk result (out.new.items ≡ out.old.items ++ words.now ++ printed_number (Some n)) }
{
    out.extend_from_slice(words)?;
    out.extend_from_slice(b" ")?;
    write_number(out, n)
}

/// Adds how the message goes to the service.
fn write_kind(out: &mut Vec<u8>, kind: Kind) -> Result<(), AllocError>
    ensures { OnOk result (out.new.items ≡ out.old.items ++ kind_text kind) }
{
    match kind {
        Kind::Plain => out.extend_from_slice(b"plain"),
        Kind::Whole => out.extend_from_slice(b"whole"),
        Kind::Preview(size) => write_numbered(out, b"preview", size),
    }
}

/// What stands after the kind: whether the request carries `Allow: 204`, and whether it may begin anew.
fn allow_words(allow: bool, retry: bool) -> &'static [u8]
    ensures { result.now ≡ allow_text (allow, retry) }
{
    match (allow, retry) {
        (true, true) => b" allow retry",
        (true, false) => b" allow",
        (false, true) => b" retry",
        (false, false) => b"",
    }
}

/// Adds the length of the body, where it is known.
fn write_length(out: &mut Vec<u8>, len: Option<u64>) -> Result<(), AllocError>
    ensures { OnOk result (out.new.items ≡ out.old.items ++ length_text len) }
{
    match len {
        Some(bytes) => write_numbered(out, b" len", bytes),
        None => Ok(()),
    }
}

/// Adds a plan, as the first line of a script has it, without the line's end. A script doesn't say the vectoring point.
pub fn write_plan(out: &mut Vec<u8>, plan: Plan) -> Result<(), AllocError>
    ensures { OnOk result (out.new.items ≡ out.old.items ++ plan_text plan) }
{
    out.extend_from_slice(b"plan ")?;
    write_kind(out, plan.kind)?;
    out.extend_from_slice(allow_words(plan.allow, plan.retry))?;
    write_length(out, plan.len)
}

/// The word of an event.
fn event_word(event: Event) -> &'static [u8]
    ensures { result.now ≡ event_word event }
{
    match event {
        Event::In(_) => b"in",
        Event::End => b"end",
        Event::Svc(_) => b"svc",
        Event::Stop => b"stop",
        Event::Heard => b"heard",
        Event::Continue => b"100",
        Event::NoMod => b"204",
        Event::Mod(Payload::Body) => b"200",
        Event::Mod(Payload::NullBody) => b"200 null",
        Event::Ad(_) => b"ad",
        Event::AdEnd => b"adend",
        Event::Usr(_) => b"usr",
        Event::Done => b"done",
        Event::Fail(_) => b"fail",
        Event::Retry => b"retry",
    }
}

/// The number of a cause, as scripts have it.
fn cause_number(cause: Cause) -> u64
    ensures { result ≡ cause_number cause }
{
    match cause {
        Cause::Source => 1,
        Cause::Service => 2,
        Cause::NextHop => 3,
        Cause::Memory => 4,
        Cause::Deadline => 5,
        Cause::Stopping => 6,
    }
}

/// The number after the word of an event.
fn event_number(event: Event) -> Option<u64>
    ensures { result ≡ event_number event }
{
    match event {
        Event::In(n) | Event::Svc(n) | Event::Ad(n) | Event::Usr(n) => Some(n),
        Event::Fail(cause) => Some(cause_number(cause)),
        _ => None,
    }
}

/// Adds an event, as a script has it, without the line's end.
pub fn write_event(out: &mut Vec<u8>, event: Event) -> Result<(), AllocError>
    ensures { OnOk result (out.new.items ≡ out.old.items ++ event_text event) }
{
    match event_number(event) {
        Some(n) => write_numbered(out, event_word(event), n),
        None => out.extend_from_slice(event_word(event)),
    }
}

/// Adds events, each on its line.
fn write_events(out: &mut Vec<u8>, events: &[Event]) -> Result<(), AllocError>
    ensures { OnOk result (out.new.items ≡ out.old.items ++ events_lines events.now) }
{
    for event in events {
        write_event(out, *event)?;
        out.extend_from_slice(b"\n")?;
    }
    Ok(())
}

/// Adds a history: the plan on its line, and each event on its line, the oldest first. `Err` where no memory was found for it: then
/// a part of it may be there.
#[tactic(auto, unfolding(crate::specs::Script::history_text))]
pub fn write_history(out: &mut Vec<u8>, trace: &Trace) -> Result<(), AllocError>
    ensures { OnOk result (out.new.items ≡ out.old.items ++ history_text trace.now.plan trace.now.events) }
{
    write_plan(out, trace.plan())?;
    out.extend_from_slice(b"\n")?;
    write_events(out, trace.events())
}

/// The words of a question for a script that sends a byte of this body.
fn need_words(tape: Tape) -> &'static [u8]
    ensures { result.now ≡ need_words tape }
{
    match tape {
        Tape::Original => b"need original",
        Tape::Adapted => b"need adapted",
    }
}

/// Adds a question for a script that sends this byte, on its line.
fn write_need(out: &mut Vec<u8>, tape: Tape, place: u64) -> Result<(), AllocError>
    ensures { OnOk result (out.new.items ≡ out.old.items ++ need_text tape place ++ codes "\n") }
{
    write_numbered(out, need_words(tape), place)?;
    out.extend_from_slice(b"\n")
}

/// Adds a question for the first and for the last byte of a range: one where both are one, and none where it is empty.
fn write_ends(out: &mut Vec<u8>, tape: Tape, range: (u64, u64)) -> Result<(), AllocError>
    ensures { OnOk result (out.new.items ≡ out.old.items ++ needs_lines tape (ends_of range)) }
{
    if range.0 >= range.1 {
        return Ok(());
    }
    write_need(out, tape, range.0)?;
    let last = range.1 - 1;
    if range.0 < last {
        write_need(out, tape, last)?;
    }
    Ok(())
}

/// Adds a question for the first and for the last byte that is held of each body.
#[tactic(auto, unfolding(crate::specs::Script::needs_text))]
pub fn write_needs(out: &mut Vec<u8>, state: &State) -> Result<(), AllocError>
    ensures { OnOk result (out.new.items ≡ out.old.items ++ needs_text (shows state.now)) }
{
    write_ends(out, Tape::Original, state.held_original())?;
    write_ends(out, Tape::Adapted, state.held_adapted())
}
