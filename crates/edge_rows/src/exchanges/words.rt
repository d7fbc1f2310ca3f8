//! Words by what is so.

use shard_message::MessageEnd;
use trace_core::Point;

/// The first of two words where it is so.
pub fn either(is_so: bool, word: &'static [u8], otherwise: &'static [u8]) -> &'static [u8] {
    if is_so { word } else { otherwise }
}

/// What the end of a message is called.
pub fn end_name(end: &MessageEnd<'_>) -> &'static [u8] {
    match (end.seen.plan.point, end.has_answered) {
        (Point::Reqmod, false) => b"the request ends:",
        (Point::Reqmod, true) => b"the request ends, answered:",
        (Point::Respmod, false) => b"the response ends:",
        (Point::Respmod, true) => b"the response ends, answered:",
    }
}
