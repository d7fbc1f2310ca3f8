//! One read of a wire, after the bytes that are kept.

ghost use Rattle.std.specs.Prelude.{◌≡◌, ◌+◌, ◌<◌, ◌≤◌, length, max, min};
ghost use Rattle.adapt_bytes.specs.declared.limits.TheConstants.{MAX_HEAD};
ghost use Rattle.adapt_sides.specs.declared.filling.TheConstants.{MAX_FILL, MAX_READ};
ghost use Rattle.adapt_sides.specs.Filling.{IsFilled};

use crate::raw::RawBytes;
use adapt_bytes::MAX_HEAD;
use wire_kit::{Got, Wire};

/// The most bytes of one read of a head. A body is read by as many, or by more where a turn has more room.
pub const MAX_READ: usize = 4096;

/// The most bytes of one read.
pub const MAX_FILL: usize = 65_536;

/// What a read gave.
#[derive(Clone, Copy)]
pub enum Filled {
    /// Bytes came.
    Bytes,
    /// The other side has ended its bytes.
    Ended,
    /// Nothing now.
    Wait,
    /// The connection failed.
    Failed,
    /// There was no memory for bytes.
    NoMemory,
}

/// The most bytes of one read of a body, in a turn with this much room.
pub fn body_read(room: usize) -> usize
    ensures { result ≡ max MAX_READ room }
{
    room.max(MAX_READ)
}

/// Reads once, at most `most` bytes, and no more than the buffer holds, and appends to the raw bytes. These are never more than a head may
/// have, or than one read where that is more.
pub fn fill<W: Wire>(raw: &mut RawBytes, wire: &mut W, most: usize, buffer: &mut [u8]) -> Filled
    requires short { length raw.old.items < MAX_HEAD }
    requires some { 1 ≤ most }
    requires room { 0 < length buffer.old }
    ensures filled { IsFilled (W.past wire.old) (W.past wire.new) raw.old.items raw.new.items result }
    ensures fits { length raw.new.items ≤ max MAX_HEAD (min most MAX_FILL) }
    ensures few { length raw.new.items ≤ length raw.old.items + most }
{
    if !wire.may_give() {
        return Filled::Wait;
    }
    let most = most.min(MAX_FILL).min(buffer.len());
    let most = (MAX_HEAD.max(most) - raw.len()).min(most);
    if raw.reserve(most).is_err() {
        return Filled::NoMemory;
    }
    match wire.try_read(&mut buffer[..most]) {
        Got::Bytes(n) => {
            raw.extend_reserved(&buffer[..n]);
            Filled::Bytes
        }
        Got::Ended => Filled::Ended,
        Got::Wait => Filled::Wait,
        Got::Fault => Filled::Failed,
    }
}
