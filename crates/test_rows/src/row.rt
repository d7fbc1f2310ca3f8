//! One row: its keys with what they say.

/// The place of a key, and the end of what it says after it.
#[derive(Clone, Copy)]
pub(crate) struct Entry {
    pub(crate) key_from: usize,
    pub(crate) from: usize,
    pub(crate) to: usize,
}

/// A case of a table.
#[derive(Clone, Copy)]
pub struct Row<'a> {
    /// The number of its first line in the file, from 1 on.
    pub line: u64,
    /// Whether each of its lines could be read: a key, `:` or `|`, and a text.
    pub is_readable: bool,
    pub(crate) entries: &'a [Entry],
    pub(crate) said: &'a [u8],
}

/// A number with one decimal digit more. `None` for another byte, and for a number above `2^64 - 1`.
pub(crate) fn counted(count: u64, byte: u8) -> Option<u64> {
    if !byte.is_ascii_digit() {
        return None;
    }
    count.checked_mul(10)?.checked_add(u64::from(byte - b'0'))
}

/// The number that decimal digits write. `None` for other bytes, for none and for a number above `2^64 - 1`.
pub fn number(digits: &[u8]) -> Option<u64> {
    let mut sum = if digits.is_empty() { None } else { Some(0) };
    for byte in digits {
        sum = counted(sum?, *byte);
    }
    sum
}

/// Whether a text is this one.
pub fn says(text: &[u8], words: &[u8]) -> bool {
    text == words
}

/// A part of a text; nothing where it has no such part.
pub(crate) fn part(text: &[u8], from: usize, to: usize) -> &[u8] {
    if from <= to && to <= text.len() {
        &text[from..to]
    } else {
        &[]
    }
}

impl<'a> Row<'a> {
    /// What a key says; `None` where the row doesn't have it.
    fn find(&self, key: &[u8]) -> Option<&'a [u8]> {
        for entry in self.entries {
            if part(self.said, entry.key_from, entry.from) == key {
                return Some(part(self.said, entry.from, entry.to));
            }
        }
        None
    }

    /// What a key says; nothing where the row doesn't have it.
    pub fn get(&self, key: &[u8]) -> &'a [u8] {
        match self.find(key) {
            Some(said) => said,
            None => &[],
        }
    }

    /// The number that a key says; `None` where it says none.
    pub fn number(&self, key: &[u8]) -> Option<u64> {
        number(self.get(key))
    }

    /// Whether it has a key.
    pub fn has(&self, key: &[u8]) -> bool {
        self.find(key).is_some()
    }

    /// Whether each of its keys is one of a table's head, and says but one thing.
    pub(crate) fn has_only(&self, head: &Row<'_>) -> bool {
        for entry in self.entries {
            let key = part(self.said, entry.key_from, entry.from);
            if !head.has(key) || self.get(key) != part(self.said, entry.from, entry.to) {
                return false;
            }
        }
        true
    }
}

/// What is called for a row: what it says itself, or else the head.
pub fn call_of<'a>(head: &Row<'a>, row: &Row<'a>) -> &'a [u8] {
    match row.find(b"call") {
        Some(call) => call,
        None => head.get(b"call"),
    }
}
