//! Positions in a chunked body, and the step from one byte to the next.
ghost use Rattle.std.specs.Prelude.{◌≡◌, ◌<◌, ◌+◌, ◌*◌};
ghost use Rattle.std.specs.Option.{SomeIff};
ghost use Rattle.adapt_bytes.specs.declared.limits.TheConstants.{COUNT_LIMIT};
ghost use Rattle.icap_chunks.specs.Machine.{in_digits, in_pad, in_extension, in_data, in_data_end, in_data_cr, in_trailer_start, in_trailer, in_trailer_cr, in_last_cr};

use crate::extension::Item;
use crate::fault::ChunkFault;
use adapt_bytes::{COUNT_LIMIT, is_blank};

/// The position of the next byte in a chunked body.
#[derive(Clone, Copy, Debug)]
pub enum Position {
    /// In the digits of a size line, or at its start: the bytes of the line so far, and the size so far.
    Digits(u16, u64),
    /// In the blanks after the digits.
    Pad(u16, u64),
    /// In the extension: the present item, and whether an earlier one is `ieof`.
    Extension(u16, u64, Item, bool),
    /// After the CR of a size line: its size, and whether it has `ieof`.
    LineCr(u64, bool),
    /// In the data of a chunk, with this many bytes left after the next one.
    Data(u64),
    /// After the data of a chunk.
    DataEnd,
    /// After the CR that follows the data.
    DataCr,
    /// At the start of a trailer line: the bytes of trailers so far, and whether the body ends with `ieof`.
    TrailerStart(u16, bool),
    /// In a trailer line.
    Trailer(u16, bool),
    /// After the CR of a trailer line.
    TrailerCr(u16, bool),
    /// After the CR of the empty line.
    LastCr(u16, bool),
    /// After the body: whether it ended with `ieof`.
    Ended(bool),
    /// At or after a byte that breaks the grammar.
    Faulted(ChunkFault),
}

/// The largest size of a size line, without its CR LF, in bytes. No RFC sets it.
pub const MAX_LINE: u16 = 256;

/// The largest number of bytes after the last size line, the final CR LF included. No RFC sets it.
pub const MAX_TRAILERS: u16 = 8192;

/// The size with one more digit, where that is below the limit.
pub(crate) fn size_with(size: u64, digit: u64) -> Option<u64>
    requires { digit < 16 }
    ensures { SomeIff result (size * 16 + digit < COUNT_LIMIT) (size * 16 + digit) }
{
    if size < COUNT_LIMIT / 16 {
        Some(size * 16 + digit)
    } else {
        None
    }
}

#[tactic(auto, unfolding(crate::specs::Machine::in_digits))]
pub(crate) fn in_digits(count: u16, size: u64, byte: u8) -> Position
    ensures { result ≡ in_digits count size byte }
{
    if byte == b'\r' {
        return if count == 0 {
            Position::Faulted(ChunkFault::Size)
        } else {
            Position::LineCr(size, false)
        };
    }
    if byte == b'\n' || count >= MAX_LINE {
        return Position::Faulted(ChunkFault::Line);
    }
    if let Some(digit) = (byte as char).to_digit(16) {
        return match size_with(size, u64::from(digit)) {
            Some(size) => Position::Digits(count + 1, size),
            None => Position::Faulted(ChunkFault::TooBig),
        };
    }
    if count == 0 {
        Position::Faulted(ChunkFault::Size)
    } else if is_blank(byte) {
        Position::Pad(count + 1, size)
    } else if byte == b';' {
        Position::Extension(count + 1, size, Item::Blank, false)
    } else {
        Position::Faulted(ChunkFault::Size)
    }
}

#[tactic(auto, unfolding(crate::specs::Machine::in_pad))]
pub(crate) fn in_pad(count: u16, size: u64, byte: u8) -> Position
    ensures { result ≡ in_pad count size byte }
{
    if byte == b'\r' {
        Position::LineCr(size, false)
    } else if byte == b'\n' || count >= MAX_LINE {
        Position::Faulted(ChunkFault::Line)
    } else if is_blank(byte) {
        Position::Pad(count + 1, size)
    } else if byte == b';' {
        Position::Extension(count + 1, size, Item::Blank, false)
    } else {
        Position::Faulted(ChunkFault::Size)
    }
}

#[tactic(auto, unfolding(crate::specs::Machine::in_extension))]
pub(crate) fn in_extension(count: u16, size: u64, item: Item, found: bool, byte: u8) -> Position
    ensures { result ≡ in_extension count size item found byte }
{
    let found_here = found || item.is_word();
    if byte == b'\r' {
        Position::LineCr(size, found_here)
    } else if byte == b'\n' || count >= MAX_LINE {
        Position::Faulted(ChunkFault::Line)
    } else if byte == b';' {
        Position::Extension(count + 1, size, Item::Blank, found_here)
    } else {
        Position::Extension(count + 1, size, item.with(byte), found)
    }
}

#[tactic(auto, unfolding(crate::specs::Machine::in_data))]
pub(crate) fn in_data(more: u64) -> Position
    ensures { result ≡ in_data more }
{
    if more > 0 {
        Position::Data(more - 1)
    } else {
        Position::DataEnd
    }
}

#[tactic(auto, unfolding(crate::specs::Machine::in_data_end))]
pub(crate) fn in_data_end(byte: u8) -> Position
    ensures { result ≡ in_data_end byte }
{
    if byte == b'\r' {
        Position::DataCr
    } else {
        Position::Faulted(ChunkFault::Break)
    }
}

#[tactic(auto, unfolding(crate::specs::Machine::in_data_cr))]
pub(crate) fn in_data_cr(byte: u8) -> Position
    ensures { result ≡ in_data_cr byte }
{
    if byte == b'\n' {
        Position::Digits(0, 0)
    } else {
        Position::Faulted(ChunkFault::Break)
    }
}

#[tactic(auto, unfolding(crate::specs::Machine::in_trailer_start))]
pub(crate) fn in_trailer_start(count: u16, ieof: bool, byte: u8) -> Position
    ensures { result ≡ in_trailer_start count ieof byte }
{
    if byte == b'\n' || count >= MAX_TRAILERS {
        Position::Faulted(ChunkFault::Trailers)
    } else if byte == b'\r' {
        Position::LastCr(count + 1, ieof)
    } else {
        Position::Trailer(count + 1, ieof)
    }
}

#[tactic(auto, unfolding(crate::specs::Machine::in_trailer))]
pub(crate) fn in_trailer(count: u16, ieof: bool, byte: u8) -> Position
    ensures { result ≡ in_trailer count ieof byte }
{
    if byte == b'\n' || count >= MAX_TRAILERS {
        Position::Faulted(ChunkFault::Trailers)
    } else if byte == b'\r' {
        Position::TrailerCr(count + 1, ieof)
    } else {
        Position::Trailer(count + 1, ieof)
    }
}

#[tactic(auto, unfolding(crate::specs::Machine::in_trailer_cr))]
pub(crate) fn in_trailer_cr(count: u16, ieof: bool, byte: u8) -> Position
    ensures { result ≡ in_trailer_cr count ieof byte }
{
    if byte == b'\n' && count < MAX_TRAILERS {
        Position::TrailerStart(count + 1, ieof)
    } else {
        Position::Faulted(ChunkFault::Trailers)
    }
}

#[tactic(auto, unfolding(crate::specs::Machine::in_last_cr))]
pub(crate) fn in_last_cr(count: u16, ieof: bool, byte: u8) -> Position
    ensures { result ≡ in_last_cr count ieof byte }
{
    if byte == b'\n' && count < MAX_TRAILERS {
        Position::Ended(ieof)
    } else {
        Position::Faulted(ChunkFault::Trailers)
    }
}
