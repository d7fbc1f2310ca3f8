//! The first word of a text, the words of phases, and the keys of what peers do.

use crate::stage::shared::LineOwner;
use exchange_core::Phase;
use trace_core::Point;

/// The keys of what services do, by the number of their connection.
pub const SERVICES: [&[u8]; 4] = [b"service", b"service 2", b"service 3", b"service 4"];

/// The keys of what origins do.
pub const ORIGINS: [&[u8]; 4] = [b"origin", b"origin 2", b"origin 3", b"origin 4"];

/// The key of this number, from 1 on.
pub fn key_of(keys: &[&'static [u8]; 4], number: u64) -> &'static [u8] {
    match usize::try_from(number.saturating_sub(1)) {
        Ok(at) if at < 4 => keys[at],
        _ => b"none",
    }
}

/// The key of what a peer of an exchange does in a schedule: the second exchange has a user of its own.
pub(crate) fn script_key(peer: LineOwner, exchange: usize) -> &'static [u8] {
    match peer {
        LineOwner::User if exchange == 0 => b"user",
        LineOwner::User => b"user 2",
        LineOwner::Origin(number) => key_of(&ORIGINS, number),
        LineOwner::Service(number) => key_of(&SERVICES, number),
    }
}

/// The first word of a text, and what comes after it.
pub fn first_word(text: &[u8]) -> (&[u8], &[u8]) {
    for at in 0..text.len() {
        if text[at] == b' ' {
            return (&text[..at], &text[at + 1..]);
        }
    }
    (text, &[])
}

/// One of two words, by the point.
fn by_point(point: Point, request: &'static [u8], response: &'static [u8]) -> &'static [u8] {
    match point {
        Point::Reqmod => request,
        Point::Respmod => response,
    }
}

/// What a phase is called.
pub fn name_of(phase: Phase) -> &'static [u8] {
    match phase {
        Phase::Idle => b"idle",
        Phase::Head => b"head",
        Phase::Planning { point } => by_point(point, b"planning", b"response-planning"),
        Phase::Asking { point } => by_point(point, b"asking", b"response-asking"),
        Phase::InQueue { point } => by_point(point, b"queue", b"response-queue"),
        Phase::Preparing { point, .. } => by_point(point, b"preparing", b"response-preparing"),
        Phase::Telling => b"telling",
        Phase::AtGate { point, .. } => by_point(point, b"gate", b"response-gate"),
        Phase::Moving { point, .. } => by_point(point, b"moving", b"response-moving"),
        Phase::Answer => b"answer",
        Phase::Withdrawing => b"withdrawing",
        Phase::Refusing { .. } => b"refusing",
        Phase::Closing => b"closing",
        Phase::Gone => b"gone",
    }
}
