//! What the administrator gets of the lines that all threads have written of their exchanges.

ghost use Rattle.std.specs.Prelude.{◌≡◌, ◌++◌, OnOk, IfOk, map};
ghost use Rattle.event_loop.specs.Overview.{seen, lines_of, all_lines, AreLongestFirst, AreOrdered, joined, counted_text, silent_text, idle_from, left_out_from, left_out_text, counts_text, last_text, shown_text, Shows};

use crate::sheet::Sheet;
use adapt_bytes::{Small, behind, front, put_decimal};
use std::alloc::{AllocError, Global};

/// A line of a sheet, and for how many seconds nothing has moved in its exchange.
#[derive(Clone, Copy)]
pub struct Line<'a> {
    pub still: u64,
    pub text: &'a [u8],
}

/// Adds the lines of a sheet.
fn add_lines<'a>(lines: &mut Vec<Line<'a>>, sheet: &'a Sheet) -> Result<(), AllocError>
    ensures { OnOk result (map seen lines.new.items ≡ map seen lines.old.items ++ lines_of sheet.now) }
{
    for line in sheet.lines() {
        let text = behind(sheet.text(), line.from);
        let text = front(text, line.end.saturating_sub(line.from));
        lines.push(Line {
            still: line.still,
            text,
        })?;
    }
    Ok(())
}

/// The lines of all threads, those of the first one first.
fn all_lines<'a>(alloc: Global, sheets: &'a [Option<Sheet>]) -> Result<Vec<Line<'a>>, AllocError>
    ensures { IfOk result (λ lines. map seen lines.items ≡ all_lines sheets.now) }
{
    let mut lines = Vec::new(alloc);
    for sheet in sheets {
        if let Some(sheet) = sheet {
            add_lines(&mut lines, sheet)?;
        }
    }
    Ok(lines)
}

/// The longest still first, and those of one standstill as they came.
fn longest_first<'a>(mut lines: Vec<Line<'a>>) -> Result<Vec<Line<'a>>, AllocError>
    ensures { IfOk result (λ order. AreLongestFirst lines.entry.items order.items) }
{
    lines.sort_by(|one, other| other.still.cmp(&one.still))?;
    Ok(lines)
}

/// The lines in the order in which they are shown: as they came or, where the waiting ones are asked for, the longest still first.
fn in_order<'a>(lines: Vec<Line<'a>>, waiting: bool) -> Result<Vec<Line<'a>>, AllocError>
    ensures { IfOk result (λ order. AreOrdered waiting lines.entry.items order.items) }
{
    if waiting {
        longest_first(lines)
    } else {
        Ok(lines)
    }
}

/// Adds lines.
fn write_lines(out: &mut Vec<u8>, lines: &[Line<'_>]) -> Result<(), AllocError>
    ensures { OnOk result (out.new.items ≡ out.old.items ++ joined (map seen lines.now)) }
{
    for line in lines {
        out.extend_from_slice(line.text)?;
    }
    Ok(())
}

/// Adds a decimal without leading zeros, between these texts.
#[tactic(auto, unfolding(crate::specs::Overview::counted_text))]
fn write_counted(out: &mut Vec<u8>, before: &[u8], n: u64, after: &[u8]) -> Result<(), AllocError>
    ensures { OnOk result (out.new.items ≡ out.old.items ++ counted_text before.now n after.now) }
{
    let mut digits = Small::new();
    put_decimal(n, &mut digits);
    out.extend_from_slice(before)?;
    out.extend_from_slice(digits.as_slice())?;
    out.extend_from_slice(after)
}

/// Adds a line for each thread that gave no answer.
fn write_silent(out: &mut Vec<u8>, sheets: &[Option<Sheet>]) -> Result<(), AllocError>
    ensures { OnOk result (out.new.items ≡ out.old.items ++ silent_text 0 sheets.now) }
{
    for (thread, sheet) in sheets.iter().enumerate() {
        if sheet.is_none() {
            write_counted(out, b"# thread ", thread as u64, b": no answer\n")?;
        }
    }
    Ok(())
}

/// How many users of all threads are in no exchange.
fn all_idle(sheets: &[Option<Sheet>]) -> u64
    ensures { result ≡ idle_from 0 sheets.now }
{
    let mut idle: u64 = 0;
    for sheet in sheets {
        if let Some(sheet) = sheet {
            idle = idle.saturating_add(sheet.idle());
        }
    }
    idle
}

/// For how many lines of all threads there was no room.
fn all_left_out(sheets: &[Option<Sheet>]) -> u64
    ensures { result ≡ left_out_from 0 sheets.now }
{
    let mut left_out: u64 = 0;
    for sheet in sheets {
        if let Some(sheet) = sheet {
            left_out = left_out.saturating_add(sheet.left_out());
        }
    }
    left_out
}

/// Adds how many exchanges are shown, and how many users are in none.
#[tactic(auto, unfolding(crate::specs::Overview::counts_text))]
fn write_counts(out: &mut Vec<u8>, lines: usize, idle: u64) -> Result<(), AllocError>
    ensures { OnOk result (out.new.items ≡ out.old.items ++ counts_text lines idle) }
{
    write_counted(out, b"# ", lines as u64, b" exchanges, ")?;
    write_counted(out, b"", idle, b" idle")
}

/// Adds for how many lines there was no room, where there are such, and the end of the line.
#[tactic(auto, unfolding(crate::specs::Overview::left_out_text))]
fn write_left_out(out: &mut Vec<u8>, left_out: u64) -> Result<(), AllocError>
    ensures { OnOk result (out.new.items ≡ out.old.items ++ left_out_text left_out) }
{
    if left_out == 0 {
        out.extend_from_slice(b"\n")
    } else {
        write_counted(out, b", ", left_out, b" left out\n")
    }
}

/// Adds the last line, which counts.
#[tactic(auto, unfolding(crate::specs::Overview::last_text))]
fn write_last(out: &mut Vec<u8>, lines: usize, sheets: &[Option<Sheet>]) -> Result<(), AllocError>
    ensures { OnOk result (out.new.items ≡ out.old.items ++ last_text lines sheets.now) }
{
    write_counts(out, lines, all_idle(sheets))?;
    write_left_out(out, all_left_out(sheets))
}

/// Adds lines, a line for each thread that gave no answer, and the last line.
#[tactic(auto, unfolding(crate::specs::Overview::shown_text))]
fn write_shown(
    out: &mut Vec<u8>,
    lines: &[Line<'_>],
    sheets: &[Option<Sheet>],
) -> Result<(), AllocError>
    ensures { OnOk result (out.new.items ≡ out.old.items ++ shown_text lines.now sheets.now) }
{
    write_lines(out, lines)?;
    write_silent(out, sheets)?;
    write_last(out, lines.len(), sheets)
}

/// What the administrator gets to see: the lines of all threads, each with its sheet or `None` where it gave no answer. Where the waiting
/// exchanges are asked for, the longest still comes first. Then there is a line for each thread without an answer, and one that counts.
/// `Err` where no memory was found.
pub fn shown(alloc: Global, sheets: &[Option<Sheet>], waiting: bool) -> Result<Vec<u8>, AllocError>
    ensures { IfOk result (λ text. Shows waiting sheets.now text.items) }
{
    let lines = in_order(all_lines(alloc, sheets)?, waiting)?;
    let mut out = Vec::new(alloc);
    write_shown(&mut out, lines.as_slice(), sheets)?;
    Ok(out)
}
