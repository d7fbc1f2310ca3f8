//! The extension of a path, by which a service says how it wants a message (RFC 3507, section 4.10.2).

ghost use Rattle.std.specs.Prelude.{◌≡◌, ◌++◌, ◌∷◌, List, ℕ, IfSome, IfNone};
ghost use Rattle.adapt_bytes.specs.Text.{Lacks};
ghost use Rattle.options_book.specs.Extension.{IsLastSegment, IsExtension};

/// The text after the last `.` of the path's last segment, which may be empty; `None` if that segment has no `.`.
pub fn extension(path: &[u8]) -> Option<&[u8]>
    ensures some { IfSome result (λ found. IsExtension path.now found.now) }
    ensures none { IfNone result ((found : List ℕ) → IsExtension path.now found → ⊥) }
{
    behind_last(last_segment(path), b'.')
}

/// The text after the path's last `/`, or the whole path.
fn last_segment(path: &[u8]) -> &[u8]
    ensures { IsLastSegment path.now result.now }
{
    behind_last(path, b'/').unwrap_or(path)
}

/// The text after the last byte of this value.
fn behind_last(text: &[u8], byte: u8) -> Option<&[u8]>
    ensures some { IfSome result (λ found. (front : List ℕ)
        × (text.now ≡ front ++ byte ∷ found.now) × Lacks byte found.now) }
    ensures none { IfNone result (Lacks byte text.now) }
{
    let mut front = text;
    while let [rest @ .., last] = front {
        if *last == byte {
            return Some(&text[front.len()..]);
        }
        front = rest;
    }
    None
}
