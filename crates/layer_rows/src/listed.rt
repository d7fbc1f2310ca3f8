//! Words in a list, with a bar between each two, and octets with dots between them.
use std::net::Ipv4Addr;
use test_rows::{NoMemory, parts_of, put_decimal};

/// The place of a word in a list.
pub fn index_of(words: &[u8], word: &[u8]) -> Option<usize> {
    let mut place: usize = 0;
    for other in parts_of(words, b'|') {
        if other == word {
            return Some(place);
        }
        place = place.saturating_add(1);
    }
    None
}

/// Adds the words that stand, each after a mark.
pub fn put_standing(
    out: &mut Vec<u8>,
    mark: &[u8],
    words: &[u8],
    stand: &[bool],
) -> Result<(), NoMemory> {
    for (word, stands) in parts_of(words, b'|').zip(stand) {
        if *stands {
            out.extend_from_slice(mark)?;
            out.extend_from_slice(word)?;
        }
    }
    Ok(())
}

/// Adds each word with its number after it.
pub fn put_counted(out: &mut Vec<u8>, words: &[u8], numbers: &[u64]) -> Result<(), NoMemory> {
    for (word, number) in parts_of(words, b'|').zip(numbers) {
        out.extend_from_slice(word)?;
        put_decimal(out, *number)?;
    }
    Ok(())
}

/// Adds an address, its octets with dots between them.
pub fn put_address(out: &mut Vec<u8>, address: Ipv4Addr) -> Result<(), NoMemory> {
    let mut is_first = true;
    for octet in address.octets() {
        if !is_first {
            out.extend_from_slice(b".")?;
        }
        put_decimal(out, u64::from(octet))?;
        is_first = false;
    }
    Ok(())
}
