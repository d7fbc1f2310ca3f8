//! Comma-separated lists (RFC 9110, section 5.6.1).
ghost use Rattle.std.specs.Prelude.{◌≡◌};
ghost use Rattle.std.specs.Iterator.{YieldsFirstRef, item_count};
ghost use Rattle.adapt_bytes.specs.Text.{comma_parts, comma_items, has_item, parts_left, items_left};

use crate::text::trim;

/// The parts of a list between its commas, without the spaces and tabs around each.
#[derive(Drop)]
pub struct CommaParts<'a> {
    rest: Option<&'a [u8]>,
}

/// The parts of a list in order, empty ones included: one more than the list has commas.
pub fn comma_parts(text: &[u8]) -> CommaParts<'_>
    ensures { parts_left result ≡ comma_parts text.now }
{
    CommaParts { rest: Some(text) }
}

impl<'a> Iterator for CommaParts<'a> {
    type Item = &'a [u8];

    ghost next_gives = { YieldsFirstRef parts_left };

    ghost remaining = { item_count parts_left };

    fn next(&mut self) -> Option<&'a [u8]> {
        let rest = self.rest?;
        match rest.iter().position(|b| *b == b',') {
            Some(comma) => {
                self.rest = Some(&rest[comma + 1..]);
                Some(trim(&rest[..comma]))
            }
            None => {
                self.rest = None;
                Some(trim(rest))
            }
        }
    }
}

/// The items of a list: its non-empty parts.
#[derive(Drop)]
pub struct CommaItems<'a> {
    parts: CommaParts<'a>,
}

/// The items of a list in order, without the spaces and tabs around each. Empty parts are skipped (RFC 9110,
/// section 5.6.1.2).
#[tactic(auto, unfolding(crate::specs::Text::comma_items))]
pub fn comma_items(text: &[u8]) -> CommaItems<'_>
    ensures { items_left result ≡ comma_items text.now }
{
    CommaItems {
        parts: comma_parts(text),
    }
}

impl<'a> Iterator for CommaItems<'a> {
    type Item = &'a [u8];

    ghost next_gives = { YieldsFirstRef items_left };

    ghost remaining = { item_count items_left };

    fn next(&mut self) -> Option<&'a [u8]> {
        while let Some(part) = self.parts.next() {
            if !part.is_empty() {
                return Some(part);
            }
        }
        None
    }
}

/// Whether the list has this word as an item, ignoring ASCII case.
pub fn has_item(list: &[u8], word: &[u8]) -> bool
    ensures { result ≡ has_item word.now list.now }
{
    for item in comma_items(list) {
        if item.eq_ignore_ascii_case(word) {
            return true;
        }
    }
    false
}
