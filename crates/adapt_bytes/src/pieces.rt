//! The first bytes of a text, and the rest.
ghost use Rattle.std.specs.Prelude.{◌≡◌, ◌≤◌, length, take, drop};

/// The first `most` bytes of the text, or all of it if it is shorter.
pub fn front(text: &[u8], most: usize) -> &[u8]
    ensures front { result.now ≡ take most text.now }
    ensures len { length result.now ≤ length text.now }
    ensures most { length result.now ≤ most }
    ensures all { length text.now ≤ most → result.now ≡ text.now }
    ensures whole { most ≤ length text.now → length result.now ≡ most }
{
    &text[..text.len().min(most)]
}

/// The text without its first `from` bytes; empty if it is shorter.
pub fn behind(text: &[u8], from: usize) -> &[u8]
    ensures { result.now ≡ drop from text.now }
{
    match text.get(from..) {
        Some(rest) => rest,
        None => &[],
    }
}
