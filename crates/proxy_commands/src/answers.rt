//! The answers to a script, as they are printed.

ghost use Rattle.std.specs.Prelude.{◌≡◌, ◌++◌, ◌+◌, ◌≤◌, OnOk, IfOk, codes, length};
ghost use Rattle.std.specs.Option.{option_map};
ghost use Rattle.adapt_bytes.specs.Numeral.{numeral};
ghost use Rattle.exchange_report.specs.Script.{range_text};
ghost use Rattle.proxy_commands.specs.Answers.{adapted_text, answer_text, events_text, script_text};

use adapt_bytes::{Small, put_decimal};
use exchange_report::{write_event, write_range};
use need_witness::Script as Witness;
use std::alloc::AllocError as NoMemory;
use trace_core::{Answer, Event};

/// Adds a decimal without leading zeros. `NoMemory` where the text can't grow.
pub fn write_number(out: &mut Vec<u8>, n: u64) -> Result<(), NoMemory>
    ensures { OnOk result (out.new.items ≡ out.old.items ++ numeral 10 n) }
{
    let mut digits = Small::new();
    put_decimal(n, &mut digits);
    out.extend_from_slice(digits.as_slice())
}

/// Adds words, and a decimal after them. `NoMemory` where the text can't grow.
pub(crate) fn write_after(out: &mut Vec<u8>, words: &[u8], n: u64) -> Result<(), NoMemory>
    ensures { OnOk result (out.new.items ≡ out.old.items ++ words.now ++ numeral 10 n) }
{
    out.extend_from_slice(words)?;
    write_number(out, n)
}

/// Adds the line of a fault: `fault N Name` and LF. `NoMemory` where the text can't grow.
pub(crate) fn write_fault(out: &mut Vec<u8>, number: u64, name: &[u8]) -> Result<(), NoMemory>
    ensures { OnOk result (out.new.items
        ≡ out.old.items ++ codes "fault " ++ numeral 10 number ++ codes " " ++ name.now ++ codes "\n") }
{
    write_after(out, b"fault ", number)?;
    out.extend_from_slice(b" ")?;
    out.extend_from_slice(name)?;
    out.extend_from_slice(b"\n")
}

/// Adds the line of what is held: `held A..B`, with ` adapted C..D` where there are adapted bytes, and LF.
fn write_held(
    out: &mut Vec<u8>,
    original: (u64, u64),
    adapted: Option<(u64, u64)>,
) -> Result<(), NoMemory>
    ensures { OnOk result (out.new.items
        ≡ out.old.items ++ codes "held " ++ range_text original ++ adapted_text adapted ++ codes "\n") }
{
    out.extend_from_slice(b"held ")?;
    write_range(out, original)?;
    if let Some(adapted) = adapted {
        out.extend_from_slice(b" adapted ")?;
        write_range(out, adapted)?;
    }
    out.extend_from_slice(b"\n")
}

/// Adds the answer to an event: `held A..B`, with ` adapted C..D` once a 200 with a body stands, or
/// `fault N Name`, and LF. `NoMemory` where the text can't grow.
pub fn write_answer(out: &mut Vec<u8>, answer: Answer) -> Result<(), NoMemory>
    ensures { OnOk result (out.new.items ≡ out.old.items ++ answer_text answer) }
{
    match answer {
        Answer::Held(original, adapted) => write_held(out, original, adapted),
        Answer::Fault(fault) => write_fault(out, fault.number(), fault.name().as_bytes()),
    }
}

/// Adds events, each after a space.
fn write_events(out: &mut Vec<u8>, events: &[Event]) -> Result<(), NoMemory>
    ensures { OnOk result (out.new.items ≡ out.old.items ++ events_text events.now) }
{
    for event in events {
        out.extend_from_slice(b" ")?;
        write_event(out, *event)?;
    }
    Ok(())
}

/// Adds the answer to a question: `script` and the events, each after a space, or `none`, and LF.
/// `NoMemory` if the text can't grow.
pub fn write_witness(out: &mut Vec<u8>, witness: Option<Witness>) -> Result<(), NoMemory>
    ensures { OnOk result (out.new.items
        ≡ out.old.items ++ script_text (option_map (λ w. w.items) witness)) }
{
    match witness {
        Some(events) => {
            out.extend_from_slice(b"script")?;
            write_events(out, events.as_slice())?;
            out.extend_from_slice(b"\n")
        }
        None => out.extend_from_slice(b"none\n"),
    }
}
