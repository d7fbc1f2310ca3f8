//! Closing a connection whose user may still be sending.

ghost use Rattle.std.specs.Prelude.{◌≡◌, ◌<◌};
ghost use Rattle.wire_kit.specs.Past.{Past};

use wire_kit::{Got, Wire};

/// Whether a connection may be closed now.
#[derive(Clone, Copy)]
pub enum Closing {
    /// The other side has ended its bytes, or the connection has failed.
    Over,
    /// It may still send.
    Waiting,
    /// It sent much: others get their turn first.
    CutShort,
}

/// The most reads of one turn.
const READS: u32 = 16;

/// Reads and drops what the user still sends, so that closing the connection doesn't take an answer away from it that is
/// still on its way: a close with unread bytes resets the connection (RFC 9112, section 9.6).
pub fn close_turn<W: Wire>(wire: &mut W, scratch: &mut [u8]) -> Closing
    // A user that may still send had nothing now.
    ensures waits { result ≡ Closing.Waiting → (p : Past) → W.past wire.old p → (q : Past) × W.past wire.new q × (p.read_waits < q.read_waits) }
{
    if scratch.is_empty() {
        return Closing::Over;
    }
    for _ in 0..READS {
        match wire.try_read(scratch) {
            Got::Bytes(_) => {}
            Got::Wait => return Closing::Waiting,
            Got::Ended | Got::Fault => return Closing::Over,
        }
    }
    Closing::CutShort
}
