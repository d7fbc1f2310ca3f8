//! Version 1: a line (proxy-protocol.txt, section 2.1).

ghost use Rattle.std.specs.Prelude.{◌≡◌, ℕ, List, ◌∷◌, ◌++◌, [], codes, IfSome, IfNone};
ghost use Rattle.adapt_bytes.specs.Text.{Lacks};
ghost use Rattle.proxy_header.specs.Lines.{IsCutLine, IsLine, Says};
ghost use Rattle.proxy_header.specs.Headers.{Answers, IsRawLine, IsSaid};

use crate::reading::{Reading, Said, reading_of};
use crate::words::{after, begins, source_in};

/// The most bytes of a line, its end included.
const MAX_LINE: usize = 107;

/// What a line says, without its end.
fn said_by(line: &[u8]) -> Said
    ensures { IsSaid (Says line.now) result }
{
    if begins(line, b"PROXY UNKNOWN") {
        return Said::Unknown;
    }
    match after(line, b"PROXY TCP4 ") {
        Some(text) => match source_in(text) {
            Some(from) => Said::From(from),
            None => Said::Nothing,
        },
        None => Said::Nothing,
    }
}

/// What stands before a text's first line feed, and after it. `None` where it has none.
fn cut_at_feed(text: &[u8]) -> Option<(&[u8], &[u8])>
    ensures found { IfSome result (λ cut. (text.now ≡ cut.0.now ++ 10 ∷ cut.1.now) × Lacks 10 cut.0.now) }
    ensures none { IfNone result (Lacks 10 text.now) }
{
    let at = text.iter().position(|byte| *byte == b'\n')?;
    Some((&text[..at], &text[at + 1..]))
}

/// A text without the CR at its end. `None` where there is none.
fn before_cr(raw: &[u8]) -> Option<&[u8]>
    ensures found { IfSome result (λ line. raw.now ≡ line.now ++ 13 ∷ []) }
    ensures none { IfNone result ((line : List ℕ) → raw.now ≡ line ++ 13 ∷ [] → ⊥) }
{
    match raw.strip_suffix(b"\r") {
        Some(line) => Some(line),
        None => None,
    }
}

/// Reads a line, of which this stands before its line feed.
fn read_raw(raw: &[u8]) -> Reading
    ensures { IsRawLine raw.now result }
{
    if raw.len() >= MAX_LINE {
        return Reading::Fault;
    }
    match before_cr(raw) {
        Some(line) => reading_of(said_by(line), raw.len() + 1),
        None => Reading::Fault,
    }
}

/// Reads a header of version 1, whose first word is there.
pub(crate) fn read_line(bytes: &[u8]) -> Reading
    requires { (rest : List ℕ) × (bytes.now ≡ codes "PROXY " ++ rest) }
    ensures { Answers IsLine IsCutLine bytes.now result }
{
    match cut_at_feed(bytes) {
        Some((raw, _)) => read_raw(raw),
        None if bytes.len() < MAX_LINE => Reading::Partial,
        None => Reading::Fault,
    }
}
