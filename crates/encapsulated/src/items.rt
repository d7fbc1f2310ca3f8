//! The items of a list: a name, `=`, and a decimal offset.
ghost use Rattle.std.specs.Prelude.{ℕ, List, IsTrue, IsFalse, IfSome, IfNone};
ghost use Rattle.encapsulated.specs.Grammar.{IsItem, IsPart, AreItems};

use crate::parts::{Part, part_named};
use adapt_bytes::{comma_parts, is_token, read_decimal};

/// The name and the offset of an item.
fn read_item(text: &[u8]) -> Option<(&[u8], u64)>
    ensures some { IfSome result (λ item. IsItem text.now item.0.now item.1) }
    ensures none { IfNone result ((name : List ℕ) (offset : ℕ) → IsItem text.now name offset → ⊥) }
{
    let at = text.iter().position(|b| *b == b'=')?;
    let name = &text[..at];
    let offset = read_decimal(&text[at + 1..])?;
    if is_token(name) {
        Some((name, offset))
    } else {
        None
    }
}

/// The part and the offset of an item.
pub(crate) fn read_part(text: &[u8]) -> Option<(Part, u64)>
    ensures some { IfSome result (λ item. IsPart text.now item.0 item.1) }
    ensures none { IfNone result ((part : Part) (offset : ℕ) → IsPart text.now part offset → ⊥) }
{
    let (name, offset) = read_item(text)?;
    let part = part_named(name)?;
    Some((part, offset))
}

/// Whether each part between commas is an item.
pub(crate) fn are_items(list: &[u8]) -> bool
    ensures all { IsTrue result → (items : List (List ℕ × ℕ)) × AreItems list.now items }
    ensures not { IsFalse result → (items : List (List ℕ × ℕ)) → AreItems list.now items → ⊥ }
{
    for item in comma_parts(list) {
        if read_item(item).is_none() {
            return false;
        }
    }
    true
}
