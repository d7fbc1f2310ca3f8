//! Lines of an answer.
use std::alloc::AllocError as NoMemory;
use std::fmt::Debug;

/// Adds texts, one after the other.
pub fn put_all(out: &mut Vec<u8>, texts: &[&[u8]]) -> Result<(), NoMemory> {
    for text in texts {
        out.extend_from_slice(*text)?;
    }
    Ok(())
}

/// Adds a line.
pub fn put_line(out: &mut Vec<u8>, text: &[u8]) -> Result<(), NoMemory> {
    out.extend_from_slice(text)?;
    out.extend_from_slice(b"\n")
}

/// Adds a line of yes or no.
pub fn put_truth(out: &mut Vec<u8>, is_so: bool) -> Result<(), NoMemory> {
    put_line(out, if is_so { b"yes" } else { b"no" })
}

/// What each digit of a number counts, from the first on.
const UNITS: [u64; 20] = [
    10_000_000_000_000_000_000,
    1_000_000_000_000_000_000,
    100_000_000_000_000_000,
    10_000_000_000_000_000,
    1_000_000_000_000_000,
    100_000_000_000_000,
    10_000_000_000_000,
    1_000_000_000_000,
    100_000_000_000,
    10_000_000_000,
    1_000_000_000,
    100_000_000,
    10_000_000,
    1_000_000,
    100_000,
    10_000,
    1_000,
    100,
    10,
    1,
];

const DIGITS: &[u8; 16] = b"0123456789abcdef";

/// The last hexadecimal digit of a number.
pub fn hex_letter(number: u64) -> u8 {
    DIGITS[(number % 16) as usize]
}

/// Adds a number in decimal digits.
pub fn put_decimal(out: &mut Vec<u8>, number: u64) -> Result<(), NoMemory> {
    let mut is_begun = false;
    for unit in UNITS {
        let passed = number.checked_div(unit).unwrap_or(0);
        is_begun = is_begun || passed != 0 || unit == 1;
        if is_begun {
            out.extend_from_slice(&[hex_letter(passed % 10)])?;
        }
    }
    Ok(())
}

/// Adds a line of a number.
pub fn put_count(out: &mut Vec<u8>, number: u64) -> Result<(), NoMemory> {
    put_decimal(out, number)?;
    out.extend_from_slice(b"\n")
}

/// Adds a line of a word and a number.
pub fn put_number(out: &mut Vec<u8>, word: &[u8], number: u64) -> Result<(), NoMemory> {
    out.extend_from_slice(word)?;
    out.extend_from_slice(b" ")?;
    put_count(out, number)
}

/// Adds a line of a word and a value as a programmer is shown it.
pub fn put_shown(out: &mut Vec<u8>, word: &[u8], value: &impl Debug) -> Result<(), NoMemory> {
    let text = format!(in *out.allocator(); " {value:?}\n")?;
    out.extend_from_slice(word)?;
    out.extend_from_slice(text.as_bytes())
}

/// Adds a line of a fault: its number and its name.
pub fn put_fault(out: &mut Vec<u8>, number: u64, fault: &impl Debug) -> Result<(), NoMemory> {
    out.extend_from_slice(b"fault ")?;
    put_decimal(out, number)?;
    put_shown(out, b"", fault)
}

fn put_byte(out: &mut Vec<u8>, byte: u8) -> Result<(), NoMemory> {
    match byte {
        b'\r' => out.extend_from_slice(b"\\r"),
        b'\t' => out.extend_from_slice(b"\\t"),
        b'\\' => out.extend_from_slice(b"\\\\"),
        b'\n' => out.extend_from_slice(b"\\n"),
        b' '..=b'~' => out.extend_from_slice(&[byte]),
        _ => {
            let high = hex_letter(u64::from(byte / 16));
            out.extend_from_slice(&[b'\\', b'x', high, hex_letter(u64::from(byte))])
        }
    }
}

/// Adds a text. A backslash is escaped, and so is each byte but those from the space to `~`.
pub fn put_escaped(out: &mut Vec<u8>, text: &[u8]) -> Result<(), NoMemory> {
    for byte in text {
        put_byte(out, *byte)?;
    }
    Ok(())
}
