//! A head that comes in small pieces: whether the last piece calls for judging the whole head again.
ghost use Rattle.std.specs.Prelude.{◌≡◌, ℕ, ◌++◌, ◌∷◌, [], List, IsTrue, IfSome};
ghost use Rattle.icap_head.specs.Heads.{RefusesIcapHead};
ghost use Rattle.icap_head.specs.StartLines.{RequestForm, StatusForm};
ghost use Rattle.icap_head.specs.declared.reading.HeadFault.TheVariants.{More};
ghost use Rattle.icap_head.specs.LineFront.{IsAt, IsLastLine};

use crate::field_lines::is_value_byte;
use adapt_bytes::{MAX_HEAD, is_token};

/// Where a field line, or the empty one, is before its LF (RFC 9112, section 5).
#[derive(Clone, Copy)]
enum LinePart {
    Start,
    Name,
    Value,
    /// After the CR.
    Return,
}

/// Whether a prefix of a head is still one with this piece after it, so that it needn't be judged again: if `More`
/// applies before the piece, it applies after it too.
///
/// That holds if the piece ends no line, and the last line may still become a start line, a field line or the empty
/// line. It looks only at the piece and at the last line, and returns `false` if they don't decide it.
pub fn is_still_front(front: &[u8], piece: &[u8]) -> bool
    ensures requests { IsTrue result → RefusesIcapHead RequestForm More front.now → RefusesIcapHead RequestForm More (front.now ++ piece.now) }
    ensures responses { IsTrue result → RefusesIcapHead StatusForm More front.now → RefusesIcapHead StatusForm More (front.now ++ piece.now) }
{
    if piece.len() >= MAX_HEAD.saturating_sub(front.len()) {
        return false;
    }
    if piece.contains(&b'\n') {
        return false;
    }
    let start = last_line(front);
    if start == 0 {
        return true;
    }
    match behind_all(LinePart::Start, &front[start..]) {
        Some(place) => behind_all(place, piece).is_some(),
        None => false,
    }
}

/// Where the last line begins.
fn last_line(text: &[u8]) -> usize
    ensures { IsLastLine text.now result }
{
    let mut start = text.len();
    while start > 0 && text[start - 1] != b'\n' {
        start -= 1;
    }
    start
}

/// The place after some more bytes; `None` if no field line and no empty line has them there, or if the line ends.
fn behind_all(place: LinePart, bytes: &[u8]) -> Option<LinePart>
    ensures { IfSome result (λ next. (line : List ℕ) → IsAt place line → IsAt next (line ++ bytes.now)) }
{
    let mut next = place;
    for byte in bytes {
        next = behind(next, *byte)?;
    }
    Some(next)
}

/// The place after one more byte.
fn behind(place: LinePart, byte: u8) -> Option<LinePart>
    ensures { IfSome result (λ next. (line : List ℕ) → IsAt place line → IsAt next (line ++ byte ∷ [])) }
{
    match place {
        LinePart::Start => behind_start(byte),
        LinePart::Name => behind_name(byte),
        LinePart::Value => behind_value(byte),
        LinePart::Return => None,
    }
}

fn behind_start(byte: u8) -> Option<LinePart>
    ensures { IfSome result (λ next. IsAt next (byte ∷ [])) }
{
    if byte == b'\r' {
        return Some(LinePart::Return);
    }
    if is_token(&[byte]) {
        return Some(LinePart::Name);
    }
    None
}

fn behind_name(byte: u8) -> Option<LinePart>
    ensures { IfSome result (λ next. (line : List ℕ) → IsAt LinePart.Name line → IsAt next (line ++ byte ∷ [])) }
{
    if byte == b':' {
        return Some(LinePart::Value);
    }
    if is_token(&[byte]) {
        return Some(LinePart::Name);
    }
    None
}

fn behind_value(byte: u8) -> Option<LinePart>
    ensures { IfSome result (λ next. (line : List ℕ) → IsAt LinePart.Value line → IsAt next (line ++ byte ∷ [])) }
{
    if byte == b'\r' {
        return Some(LinePart::Return);
    }
    if is_value_byte(byte) {
        return Some(LinePart::Value);
    }
    None
}
