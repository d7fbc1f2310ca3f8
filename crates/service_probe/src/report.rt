//! The lines of a report.

ghost use Rattle.std.specs.Prelude.{◌≡◌, ◌++◌, OnOk};
ghost use Rattle.service_probe.specs.ProbeOutcome.{after_text, size_text, finding_text, came_text, page_words, time_text, way_text, body_text, trial_text, answer_text, attempt_text, octets_text, serves_text};

use crate::attempt::ProbeAttempt;
use crate::finding::{Finding, ProbeOutcome};
use crate::text::{put_bytes, put_number};
use adapt_bytes::three_digits;
use std::alloc::AllocError;

/// Over which connection a message went.
#[derive(Clone, Copy)]
pub enum ConnectionUse {
    /// Over the one that is kept.
    Kept,
    /// Over a fresh one.
    Fresh,
}

impl ConnectionUse {
    /// The word for it.
    fn word(self) -> &'static [u8]
        ensures { result.now ≡ way_text self }
    {
        match self {
            ConnectionUse::Kept => b"kept",
            ConnectionUse::Fresh => b"fresh",
        }
    }
}

/// Adds a number of bytes.
fn put_size(out: &mut Vec<u8>, bytes: u64) -> Result<(), AllocError>
    ensures { OnOk result (out.new.items ≡ out.old.items ++ size_text bytes) }
{
    if bytes == 1 {
        return out.extend_from_slice(b"1 byte");
    }
    put_number(out, bytes)?;
    out.extend_from_slice(b" bytes")
}

/// What stands after a status that came after a 100, or didn't.
fn after(continued: bool) -> &'static [u8]
    ensures { result.now ≡ after_text continued }
{
    if continued { b" after 100" } else { b"" }
}

/// Adds the octets that broke a rule, where some came.
fn put_octets(out: &mut Vec<u8>, octets: &[u8]) -> Result<(), AllocError>
    ensures { OnOk result (out.new.items ≡ out.old.items ++ octets_text octets.now) }
{
    if octets.is_empty() {
        return Ok(());
    }
    out.extend_from_slice(b" \"")?;
    put_bytes(out, octets)?;
    out.extend_from_slice(b"\"")
}

/// Adds a fault, with the octets that broke the rule.
fn put_finding(out: &mut Vec<u8>, finding: &Finding) -> Result<(), AllocError>
    ensures { OnOk result (out.new.items ≡ out.old.items ++ finding_text finding.now) }
{
    out.extend_from_slice(b"fault ")?;
    out.extend_from_slice(finding.fault.words())?;
    out.extend_from_slice(b", at octet ")?;
    put_number(out, finding.at)?;
    put_octets(out, &finding.octets)
}

/// What stands between the status of a page and its size.
fn of_page(continued: bool) -> &'static [u8]
    ensures { result.now ≡ page_words continued }
{
    if continued {
        b" after 100 with a page of "
    } else {
        b" with a page of "
    }
}

/// Adds what came of a message.
fn put_came(out: &mut Vec<u8>, came: &ProbeOutcome) -> Result<(), AllocError>
    ensures { OnOk result (out.new.items ≡ out.old.items ++ came_text came.now) }
{
    match came {
        ProbeOutcome::Options => out.extend_from_slice(b"200"),
        ProbeOutcome::Unchanged { continued } => {
            out.extend_from_slice(b"204")?;
            out.extend_from_slice(after(*continued))
        }
        ProbeOutcome::Changed { continued, bytes } => {
            out.extend_from_slice(b"200")?;
            out.extend_from_slice(after(*continued))?;
            out.extend_from_slice(b" with ")?;
            put_size(out, *bytes)
        }
        ProbeOutcome::Page {
            continued,
            status,
            bytes,
        } => {
            put_number(out, u64::from(*status))?;
            out.extend_from_slice(of_page(*continued))?;
            put_size(out, *bytes)
        }
        ProbeOutcome::Broken(finding) => put_finding(out, finding),
    }
}

/// Adds microseconds as milliseconds.
fn put_time(out: &mut Vec<u8>, micros: u64) -> Result<(), AllocError>
    ensures { OnOk result (out.new.items ≡ out.old.items ++ time_text micros) }
{
    put_number(out, micros / 1000)?;
    out.extend_from_slice(b".")?;
    out.extend_from_slice(&three_digits((micros % 1000) as u16))?;
    out.extend_from_slice(b" ms")
}

/// Adds the size of a message's body, where it has one that is said.
fn put_body(out: &mut Vec<u8>, size: Option<u64>) -> Result<(), AllocError>
    ensures { OnOk result (out.new.items ≡ out.old.items ++ body_text size) }
{
    let Some(size) = size else {
        return Ok(());
    };
    out.extend_from_slice(b" (")?;
    put_size(out, size)?;
    out.extend_from_slice(b")")
}

/// What is said of a connection that may carry another request, or may not.
fn serving(serves: bool) -> &'static [u8]
    ensures { result.now ≡ serves_text serves }
{
    if serves {
        b"; serves again\n"
    } else {
        b"; doesn't serve again\n"
    }
}

/// Adds over which connection a message went, its name, and the size of its body.
#[tactic(auto, unfolding(crate::specs::ProbeOutcome::trial_text))]
fn put_trial(
    out: &mut Vec<u8>,
    way: ConnectionUse,
    name: &[u8],
    size: Option<u64>,
) -> Result<(), AllocError>
    ensures { OnOk result (out.new.items ≡ out.old.items ++ trial_text way name.now size) }
{
    out.extend_from_slice(b"  ")?;
    out.extend_from_slice(way.word())?;
    out.extend_from_slice(b" ")?;
    out.extend_from_slice(name)?;
    put_body(out, size)
}

/// Adds what came, how long it took, and whether the connection may serve again.
#[tactic(auto, unfolding(crate::specs::ProbeOutcome::answer_text))]
fn put_answer(out: &mut Vec<u8>, attempt: &ProbeAttempt) -> Result<(), AllocError>
    ensures { OnOk result (out.new.items ≡ out.old.items ++ answer_text attempt.now) }
{
    out.extend_from_slice(b": ")?;
    put_came(out, &attempt.came)?;
    out.extend_from_slice(b"; ")?;
    put_time(out, attempt.micros)?;
    out.extend_from_slice(serving(attempt.serves))
}

/// Adds an attempt's line: over which connection the message went, its name, the size of its body, what came, how long it took,
/// and whether the connection may serve again.
pub fn put_attempt(
    out: &mut Vec<u8>,
    way: ConnectionUse,
    name: &[u8],
    size: Option<u64>,
    attempt: &ProbeAttempt,
) -> Result<(), AllocError>
    ensures { OnOk result (out.new.items ≡ out.old.items ++ attempt_text way name.now size attempt.now) }
{
    put_trial(out, way, name, size)?;
    put_answer(out, attempt)
}

/// Adds the time at a place, after these words; 0 where there is none.
fn put_place(
    out: &mut Vec<u8>,
    words: &[u8],
    times: &[u64],
    place: usize,
) -> Result<(), AllocError> {
    out.extend_from_slice(words)?;
    match times.get(place) {
        Some(time) => put_time(out, *time),
        None => put_time(out, 0),
    }
}

/// Adds the spread of sorted times, in microseconds.
pub fn put_spread(out: &mut Vec<u8>, times: &[u64]) -> Result<(), AllocError> {
    let last = times.len().saturating_sub(1);
    out.extend_from_slice(b"    of ")?;
    put_number(out, times.len() as u64)?;
    put_place(out, b": least ", times, 0)?;
    put_place(out, b", half within ", times, last / 2)?;
    put_place(out, b", nine tenths within ", times, last - last / 10)?;
    put_place(out, b", most ", times, last)?;
    out.extend_from_slice(b"\n")
}
