//! The reasons and the statuses of the proxy's own responses.
use adapt_sides::{ClientFault, RelayFault};
use exchange_report::{REASONS, Reason};
use http_side::{HttpFault, own_refusal};
use options_book::OptFault;
use shard_exchange::{
    open_reason, options_reason, origin_head_reason, record_reason, request_reason,
    user_head_reason,
};
use span_bank::OpenFault;
use test_rows::{NoMemory, Scene, index_of, put_all, put_line, put_number};

const HEAD_FAULTS: [HttpFault; 10] = [
    HttpFault::More,
    HttpFault::Bad,
    HttpFault::TooLong,
    HttpFault::TooMany,
    HttpFault::BothLengths,
    HttpFault::Lengths,
    HttpFault::Coding,
    HttpFault::Target,
    HttpFault::Connect,
    HttpFault::NoMemory,
];

const HEAD_WORDS: &[u8] =
    b"More Bad TooLong TooMany BothLengths Lengths Coding Target Connect NoMemory";

/// The fault of a head that the row names.
fn head_fault(scene: Scene<'_>) -> Option<HttpFault> {
    HEAD_FAULTS
        .get(index_of(HEAD_WORDS, scene.get(b"head"))?)
        .copied()
}

const SIDE_FAULTS: [RelayFault; 6] = [
    RelayFault::Head,
    RelayFault::Chunk,
    RelayFault::Closed,
    RelayFault::Device,
    RelayFault::Length,
    RelayFault::NoMemory,
];

/// The fault of a source's side that the row names.
fn side_fault(scene: Scene<'_>) -> Option<RelayFault> {
    SIDE_FAULTS
        .get(index_of(
            b"Head Chunk Closed Device Length NoMemory",
            scene.get(b"side"),
        )?)
        .copied()
}

/// The reason that the row names by its word, or else that of the fault of a request's head.
fn reason_of(scene: Scene<'_>) -> Option<Reason> {
    let word = scene.get(b"reason");
    if word.is_empty() {
        return Some(request_reason(head_fault(scene)?));
    }
    for reason in REASONS {
        if reason.word() == word {
            return Some(reason);
        }
    }
    None
}

/// The reason by the fault of the row's OPTIONS exchange, record or reservation.
fn reason_by_fault(scene: Scene<'_>) -> Option<Reason> {
    Some(
        match index_of(b"Closed Number Full NoRow", scene.get(b"fault"))? {
            0 => options_reason(ClientFault::Closed),
            1 => record_reason(OptFault::Number),
            2 => open_reason(OpenFault::Full { claimed: 100 }),
            _ => open_reason(OpenFault::NoRow),
        },
    )
}

/// The reason that the row's call gives; none where the user gets no answer.
fn reason(scene: Scene<'_>) -> Option<Reason> {
    if scene.is(b"call", b"reason") {
        reason_of(scene)
    } else if scene.is(b"call", b"head of a user") {
        user_head_reason(side_fault(scene)?, head_fault(scene))
    } else if scene.is(b"call", b"head of an origin") {
        Some(origin_head_reason(side_fault(scene)?, head_fault(scene)))
    } else {
        reason_by_fault(scene)
    }
}

/// Adds the answer to a row of these calls; nothing for another one.
pub fn put_answer(scene: Scene<'_>, out: &mut Vec<u8>) -> Result<(), NoMemory> {
    if !scene.is(b"table", b"reasons") {
        return Ok(());
    }
    let Some(reason) = reason(scene) else {
        return put_line(out, b"no answer");
    };
    put_all(out, &[b"reason ", reason.word(), b"\n"])?;
    put_number(out, b"status", u64::from(reason.status()))?;
    if scene.has(b"text") {
        out.extend_from_slice(own_refusal(reason.status()))?;
    }
    Ok(())
}
