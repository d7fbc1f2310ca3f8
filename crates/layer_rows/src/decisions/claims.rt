//! What a transaction reserves, and how much its turns may take.
use plan_rules::{Limits, adapted_room, claim_after, original_room};
use test_rows::{NoMemory, Row, number, put_count, says};
use trace_core::State;

/// The limits that a row says; what it doesn't say is 0, and of a turn the fewest bytes.
pub fn limits_of(row: &Row<'_>) -> Option<Limits> {
    let preview = row.number(b"preview-limit").unwrap_or(0);
    let allow = row.number(b"allow-limit").unwrap_or(0);
    let window = row.number(b"window").unwrap_or(0);
    let limits = Limits::new(preview, allow, window, row.has(b"retry"))?;
    match row.number(b"turn") {
        Some(turn) => limits.with_turn(turn),
        None => Some(limits),
    }
}

/// Adds what is said of a question of these; nothing of another.
pub fn put_claim(
    out: &mut Vec<u8>,
    state: &State,
    asked: &[u8],
    row: &Row<'_>,
) -> Result<(), NoMemory> {
    let Some(limits) = limits_of(row) else {
        return Ok(());
    };
    if let Some(digits) = asked.strip_prefix(b"claim after ") {
        return put_count(
            out,
            claim_after(state, number(digits).unwrap_or(0), &limits),
        );
    }
    if let Some(digits) = asked.strip_prefix(b"original room within ") {
        return put_count(
            out,
            original_room(state, number(digits).unwrap_or(0), &limits),
        );
    }
    if says(asked, b"adapted room") {
        put_count(out, adapted_room(state, &limits))
    } else if says(asked, b"bytes of a turn") {
        put_count(out, limits.turn)
    } else {
        Ok(())
    }
}
