//! Texts with escapes and repeated parts.
use crate::row::counted;
use std::alloc::AllocError as NoMemory;

/// Where the reading of a text is.
#[derive(Clone, Copy)]
enum Mode {
    Plain,
    /// After a backslash.
    Escape,
    /// After `\x`.
    Hex,
    /// After `\x` and one digit.
    SecondHex(u8),
    /// After `\{` and some digits.
    Count(u64),
    /// After an escape that there isn't.
    Bad,
}

/// What a text says so far.
#[derive(Drop)]
struct Reading<'a> {
    place: Mode,
    said: &'a mut Vec<u8>,
    /// Where the part begins that is to be repeated, and how often.
    part: Option<(usize, u64)>,
}

/// The value of a hexadecimal digit in small letters. `None` for another byte.
fn hex_digit(byte: u8) -> Option<u8> {
    match byte {
        b'0'..=b'9' => Some(byte - b'0'),
        b'a'..=b'f' => Some(byte - b'a' + 10),
        _ => None,
    }
}

/// What one letter after a backslash stands for.
fn escaped(byte: u8) -> Option<u8> {
    match byte {
        b'r' => Some(b'\r'),
        b'n' => Some(b'\n'),
        b't' => Some(b'\t'),
        b'0' => Some(0),
        b's' => Some(b' '),
        b'\\' | b'}' => Some(byte),
        _ => None,
    }
}

/// Adds the bytes of these places anew.
fn add_again(said: &mut Vec<u8>, from: usize, to: usize) -> Result<(), NoMemory> {
    for at in from..to {
        let Some(byte) = said.get(at) else {
            break;
        };
        let byte = *byte;
        said.push(byte)?;
    }
    Ok(())
}

/// Repeats the part from `from` on, so that it stands there `count` times.
fn repeat(said: &mut Vec<u8>, from: usize, count: u64) -> Result<(), NoMemory> {
    let to = said.len();
    for _ in 1..count {
        add_again(said, from, to)?;
    }
    Ok(())
}

impl Reading<'_> {
    fn put(&mut self, byte: u8) -> Result<(), NoMemory> {
        self.place = Mode::Plain;
        self.said.push(byte)?;
        Ok(())
    }

    fn step_plain(&mut self, byte: u8) -> Result<(), NoMemory> {
        match (byte, self.part) {
            (b'\\', _) => {
                self.place = Mode::Escape;
                Ok(())
            }
            (b'}', Some((from, count))) => {
                self.part = None;
                repeat(self.said, from, count)
            }
            _ => self.put(byte),
        }
    }

    fn step_escape(&mut self, byte: u8) -> Result<(), NoMemory> {
        if let Some(meant) = escaped(byte) {
            return self.put(meant);
        }
        self.place = match byte {
            b'x' => Mode::Hex,
            b'{' if self.part.is_none() => Mode::Count(0),
            _ => Mode::Bad,
        };
        Ok(())
    }

    fn step_count(&mut self, count: u64, byte: u8) {
        self.place = if byte == b'*' && count != 0 {
            self.part = Some((self.said.len(), count));
            Mode::Plain
        } else {
            match counted(count, byte) {
                Some(count) => Mode::Count(count),
                None => Mode::Bad,
            }
        };
    }

    fn step(&mut self, byte: u8) -> Result<(), NoMemory> {
        match self.place {
            Mode::Plain => return self.step_plain(byte),
            Mode::Escape => return self.step_escape(byte),
            Mode::Hex => {
                self.place = match hex_digit(byte) {
                    Some(digit) => Mode::SecondHex(digit),
                    None => Mode::Bad,
                };
            }
            Mode::SecondHex(high) => match hex_digit(byte) {
                Some(low) => return self.put(high.wrapping_mul(16) | low),
                None => self.place = Mode::Bad,
            },
            Mode::Count(count) => self.step_count(count, byte),
            Mode::Bad => {}
        }
        Ok(())
    }
}

/// Adds what a text says, with an LF after it where it is a whole line. `false` where an escape is none, or isn't whole, or
/// a repeated part has no end.
pub(crate) fn put_text(
    said: &mut Vec<u8>,
    written: &[u8],
    is_whole: bool,
) -> Result<bool, NoMemory> {
    let mut reading = Reading {
        place: Mode::Plain,
        said,
        part: None,
    };
    for byte in written {
        reading.step(*byte)?;
    }
    let is_read = reading.part.is_none() && matches!(reading.place, Mode::Plain);
    if is_whole {
        reading.put(b'\n')?;
    }
    Ok(is_read)
}
