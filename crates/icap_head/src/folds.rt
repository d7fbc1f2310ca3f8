//! Folded fields: a line end with a space or a tab after it stands for spaces (RFC 2616, sections 2.2 and 4.2; RFC 9112, section 5.2).
ghost use Rattle.std.specs.Prelude.{◌≡◌, ◌+◌, ◌++◌, ◌<◌, ◌≤◌, length};
ghost use Rattle.adapt_bytes.specs.declared.limits.TheConstants.{MAX_HEAD};
ghost use Rattle.icap_head.specs.Folds.{head_byte, place_after, held, is_held, settled, added, unfolded};

use crate::reading::judged;
use adapt_bytes::{MAX_HEAD, is_blank};
use arrayvec::ArrayVec;

/// A head as it is judged.
pub(crate) type Judged = ArrayVec<u8, MAX_HEAD>;

/// What a byte is to line ends and folds.
#[derive(Clone, Copy)]
pub(crate) enum HeadByte {
    Feed,
    Return,
    /// A space or a tab.
    Blank,
    Other,
}

/// Where the bytes of a head so far have come.
#[derive(Clone, Copy)]
pub(crate) enum HeadPlace {
    StartLine,
    /// At the start of the line after the start line, where a blank makes no fold.
    LineStart,
    /// After a CR at the start of a line.
    BareReturn,
    /// In a line that isn't empty.
    Text,
    /// After a CR in it, which may be a part of its end.
    Return,
    /// After its LF, which may be a fold.
    Feed,
    /// After its CRLF, which may be a fold.
    ReturnFeed,
    /// After the empty line.
    Over,
}

impl HeadByte {
    fn of(byte: u8) -> HeadByte
        ensures { result ≡ head_byte byte }
    {
        if byte == b'\n' {
            HeadByte::Feed
        } else if byte == b'\r' {
            HeadByte::Return
        } else if is_blank(byte) {
            HeadByte::Blank
        } else {
            HeadByte::Other
        }
    }
}

impl HeadPlace {
    fn after(self, byte: HeadByte) -> HeadPlace
        ensures { result ≡ place_after self byte }
    {
        match (self, byte) {
            (HeadPlace::StartLine, HeadByte::Feed) => HeadPlace::LineStart,
            (HeadPlace::StartLine, _) => HeadPlace::StartLine,
            (HeadPlace::Over, _) => HeadPlace::Over,
            (HeadPlace::Text, HeadByte::Return) => HeadPlace::Return,
            (HeadPlace::Text, HeadByte::Feed) => HeadPlace::Feed,
            (HeadPlace::Return, HeadByte::Feed) => HeadPlace::ReturnFeed,
            (HeadPlace::Text | HeadPlace::Return, _) => HeadPlace::Text,
            (_, HeadByte::Feed) => HeadPlace::Over,
            (HeadPlace::BareReturn, _) => HeadPlace::Text,
            (_, HeadByte::Return) => HeadPlace::BareReturn,
            (_, _) => HeadPlace::Text,
        }
    }

    /// Whether the bytes before this place end with a line end, or with a part of one, that may be a fold.
    fn is_held(self) -> bool
        ensures { result ≡ is_held self }
    {
        matches!(
            self,
            HeadPlace::Return | HeadPlace::Feed | HeadPlace::ReturnFeed
        )
    }

    /// That line end, or that part of one.
    fn held(self) -> &'static [u8]
        ensures { result.now ≡ held self }
    {
        match self {
            HeadPlace::Return => b"\r",
            HeadPlace::Feed => b"\n",
            HeadPlace::ReturnFeed => b"\r\n",
            _ => b"",
        }
    }

    /// What stands for it where this byte comes.
    fn settled(self, byte: HeadByte) -> &'static [u8]
        ensures { result.now ≡ settled self byte }
    {
        match (self, byte) {
            (HeadPlace::Feed, HeadByte::Blank) => b" ",
            (HeadPlace::ReturnFeed, HeadByte::Blank) => b"  ",
            (_, _) => self.held(),
        }
    }
}

/// The bytes of a text that are judged, each fold written over by spaces. A line end at their end, which may be
/// a fold yet, isn't among them before the text has 16,384 bytes.
pub(crate) fn unfolded(text: &[u8]) -> Judged
    ensures { result.items ≡ unfolded text.now }
{
    let mut out = ArrayVec::new();
    let mut place = HeadPlace::StartLine;
    let seen = judged(text);
    for byte in seen {
        place = add(&mut out, place, *byte);
    }
    if text.len() >= MAX_HEAD {
        put(&mut out, place.held());
    }
    out
}

/// Adds what one more byte makes known, and gives the place after it.
fn add(out: &mut Judged, place: HeadPlace, byte: u8) -> HeadPlace
    requires { length out.old.items + length (held place) < MAX_HEAD }
    ensures added { out.new.items ≡ out.old.items ++ added place byte }
    ensures place { result ≡ place_after place (head_byte byte) }
{
    let kind = HeadByte::of(byte);
    let next = place.after(kind);
    if !next.is_held() {
        put(out, place.settled(kind));
        put(out, &[byte]);
    }
    next
}

/// Adds bytes, for which there is room.
fn put(out: &mut Judged, bytes: &[u8])
    requires { length out.old.items + length bytes.now ≤ MAX_HEAD }
    ensures { out.new.items ≡ out.old.items ++ bytes.now }
{
    // There is room.
    let _ = out.try_extend_from_slice(bytes);
}
