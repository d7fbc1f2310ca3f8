//! What a row's answer says of a transaction that ended.

use crate::stage::{GameReport, WireRecord};
use crate::turns::case::Case;
use adapt_turn::Outcome;
use test_rows::{NoMemory, put_decimal, put_number, put_shown, words_of};
use trace_core::Cause;
use wire_kit::Calls;

/// Whether these bytes are a prefix of a text that the row names, of at least a byte.
fn is_prefix(case: &Case<'_>, bytes: &[u8]) -> bool {
    for name in words_of(case.get(b"texts")) {
        if !bytes.is_empty() && case.get(name).starts_with(bytes) {
            return true;
        }
    }
    false
}

/// Whether a transaction that ended so did for want of memory, and its user has a prefix of a message or of the proxy's own answer. A
/// user that has nothing counts as wrong: the transaction had begun.
pub fn wants_memory(outcome: Outcome, user: &[u8], case: &Case<'_>) -> bool {
    outcome == Outcome::Fail(Cause::Memory) && is_prefix(case, user)
}

/// Adds how often a wire was called.
fn put_calls(
    out: &mut Vec<u8>,
    name: &[u8],
    calls: Calls,
    place: Option<u64>,
) -> Result<(), NoMemory> {
    out.extend_from_slice(name)?;
    out.extend_from_slice(b" reads ")?;
    put_decimal(out, calls.reads)?;
    if place == Some(calls.writes) {
        return out.extend_from_slice(b" writes n+1\n");
    }
    out.extend_from_slice(b" writes ")?;
    put_decimal(out, calls.writes)?;
    out.extend_from_slice(b"\n")
}

/// The place n of a row that has one, and one more.
fn place_of(case: &Case<'_>) -> Option<u64> {
    if case.has(b"n") {
        Some((case.values.n as u64).saturating_add(1))
    } else {
        None
    }
}

/// Adds how often each wire was called, and how many bytes the source gave, where the row asks for it.
fn put_all_calls(
    told: &GameReport<'_>,
    case: &Case<'_>,
    out: &mut Vec<u8>,
) -> Result<(), NoMemory> {
    if !case.has(b"calls") {
        return Ok(());
    }
    put_calls(out, b"source's wire", told.source.calls, None)?;
    put_calls(out, b"service's wire", told.of_service().calls, None)?;
    put_calls(out, b"next hop's wire", told.next_hop.calls, place_of(case))?;
    put_number(out, b"source's bytes", told.source.given)
}

/// Adds what a connection took that may be missing.
fn put_line_of(
    line: &Option<WireRecord<'_>>,
    name: &[u8],
    case: &Case<'_>,
    out: &mut Vec<u8>,
) -> Result<(), NoMemory> {
    match line {
        Some(record) => case.put_taken(out, name, record.taken),
        None => Ok(()),
    }
}

/// Adds what a broken connection took, and how often one failed the transaction.
fn put_lines(told: &GameReport<'_>, case: &Case<'_>, out: &mut Vec<u8>) -> Result<(), NoMemory> {
    put_line_of(&told.broken, b"broken", case, out)?;
    put_line_of(&told.freed, b"freed", case, out)?;
    if told.failed > 0 {
        put_number(out, b"not tried again", told.failed as u64)?;
    }
    Ok(())
}

/// Adds how a transaction ended, and what the service and the next hop got.
pub fn put_outcome(
    told: &GameReport<'_>,
    case: &Case<'_>,
    out: &mut Vec<u8>,
) -> Result<(), NoMemory> {
    let user = told.next_hop.taken;
    if wants_memory(told.outcome, user, case) {
        return Err(NoMemory);
    }
    put_shown(out, b"outcome", &told.outcome)?;
    case.put_taken(out, b"service", told.of_service().taken)?;
    case.put_taken(out, b"hop", user)
}

/// Adds what the source's wire took, where it took something or the row asks for it.
fn put_back(back: &[u8], case: &Case<'_>, out: &mut Vec<u8>) -> Result<(), NoMemory> {
    if back.is_empty() && case.get(b"cut") != b"back".as_slice() {
        return Ok(());
    }
    case.put_taken(out, b"back", back)
}

/// Adds how a transaction ended, and what its wires took.
pub fn put_ended(
    told: &GameReport<'_>,
    case: &Case<'_>,
    out: &mut Vec<u8>,
) -> Result<(), NoMemory> {
    let back = told.source.taken;
    if wants_memory(told.outcome, back, case) {
        return Err(NoMemory);
    }
    put_outcome(told, case, out)?;
    put_back(back, case, out)?;
    put_lines(told, case, out)?;
    put_all_calls(told, case, out)
}
