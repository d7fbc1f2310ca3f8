//! Values from outside, each written as one word.

ghost use Rattle.std.specs.Prelude.{◌≡◌, ◌<◌, ◌++◌, OnOk, IsTrue, codes, take};
ghost use Rattle.adapt_bytes.specs.Numeral.{numeral};
ghost use Rattle.exchange_report.specs.Words.{is_plain, hex_digit, escaped, escaped_text, word_of};

use adapt_bytes::{Small, front, put_decimal};
use std::alloc::AllocError;

/// The most bytes of a target that are written.
pub const MAX_TARGET: usize = 2_048;

/// The most bytes of a method that are written.
pub const MAX_METHOD: usize = 32;

/// The most bytes of a media type that are written.
pub const MAX_KIND: usize = 128;

/// The most bytes of what a service found that are written.
pub const MAX_FOUND: usize = 128;

/// Whether a byte is written as it is: it is visible, in ASCII, no quote, and not the percent sign that begins an escape.
fn is_plain(byte: u8) -> bool
    ensures { result ≡ is_plain byte }
{
    32 < byte && byte < 127 && byte != b'"' && byte != b'%'
}

/// A digit of a hexadecimal number, as a URI has it (RFC 3986, section 2.1).
fn hex_digit(digit: u8) -> u8
    requires { digit < 16 }
    ensures { result ≡ hex_digit digit }
{
    if digit < 10 {
        b'0' + digit
    } else {
        b'A' + (digit - 10)
    }
}

/// Adds a byte, as `%XX` where it isn't plain.
fn write_escaped(out: &mut Vec<u8>, byte: u8) -> Result<(), AllocError>
    ensures { OnOk result (out.new.items ≡ out.old.items ++ escaped byte) }
{
    if is_plain(byte) {
        out.extend_from_slice(&[byte])
    } else {
        out.extend_from_slice(&[b'%', hex_digit(byte / 16), hex_digit(byte % 16)])
    }
}

/// Whether each byte is written as it is.
fn are_plain(bytes: &[u8]) -> bool
    ensures { IsTrue result → escaped_text bytes.now ≡ bytes.now }
{
    for byte in bytes {
        if !is_plain(*byte) {
            return false;
        }
    }
    true
}

/// Adds bytes, each as it is or as `%XX`. Mostly all of them are plain, and are copied at once.
fn write_bytes(out: &mut Vec<u8>, bytes: &[u8]) -> Result<(), AllocError>
    ensures { OnOk result (out.new.items ≡ out.old.items ++ escaped_text bytes.now) }
{
    if are_plain(bytes) {
        return out.extend_from_slice(bytes);
    }
    for byte in bytes {
        write_escaped(out, *byte)?;
    }
    Ok(())
}

/// Adds the first `most` bytes of a value from outside as one word, or `-` where it is empty.
pub(crate) fn write_word(out: &mut Vec<u8>, most: usize, value: &[u8]) -> Result<(), AllocError>
    ensures { OnOk result (out.new.items ≡ out.old.items ++ word_of (take most value.now)) }
{
    let value = front(value, most);
    if value.is_empty() {
        out.extend_from_slice(b"-")
    } else {
        write_bytes(out, value)
    }
}

/// Adds a field after a space.
pub(crate) fn write_field(out: &mut Vec<u8>, most: usize, value: &[u8]) -> Result<(), AllocError>
    ensures { OnOk result (out.new.items ≡ out.old.items ++ codes " " ++ word_of (take most value.now)) }
{
    out.extend_from_slice(b" ")?;
    write_word(out, most, value)
}

/// Adds a decimal without leading zeros.
pub(crate) fn write_number(out: &mut Vec<u8>, n: u64) -> Result<(), AllocError>
    ensures { OnOk result (out.new.items ≡ out.old.items ++ numeral 10 n) }
{
    let mut digits = Small::new();
    put_decimal(n, &mut digits);
    out.extend_from_slice(digits.as_slice())
}
