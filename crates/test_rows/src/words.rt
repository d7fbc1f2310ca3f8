//! Words of a row's texts.
use crate::part_iterator::{parts_of, words_of};
use crate::row::number;

/// Whether a word is this one.
pub fn is(word: &[u8], text: &[u8]) -> bool {
    word == text
}

/// Both parts of a word, between which this byte stands.
pub fn parts(word: &[u8], byte: u8) -> Option<(&[u8], &[u8])> {
    let mut parts = parts_of(word, byte);
    match (parts.next(), parts.next()) {
        (Some(first), Some(second)) => Some((first, second)),
        _ => None,
    }
}

/// Whether a word is among these.
pub fn has_word(words: &[u8], word: &[u8]) -> bool {
    for other in words_of(words) {
        if other == word {
            return true;
        }
    }
    false
}

/// The number after a key and `=`, as in `len=6`.
pub fn count_after(words: &[u8], key: &[u8]) -> Option<u64> {
    for word in words_of(words) {
        if let Some((found, count)) = parts(word, b'=')
            && found == key
        {
            return number(count);
        }
    }
    None
}

/// The place of a word among these.
pub fn index_of(words: &[u8], word: &[u8]) -> Option<usize> {
    let mut place: usize = 0;
    for other in words_of(words) {
        if other == word {
            return Some(place);
        }
        place = place.saturating_add(1);
    }
    None
}
