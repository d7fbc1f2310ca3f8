//! Numbers, and bytes from outside, as text.

ghost use Rattle.std.specs.Prelude.{◌≡◌, ◌<◌, ◌++◌, OnOk};
ghost use Rattle.adapt_bytes.specs.Numeral.{numeral};
ghost use Rattle.service_probe.specs.Text.{is_plain, is_marked, mark, hex_digit, escaped, escaped_text, shown, shown_text};

use adapt_bytes::{Small, put_decimal};
use std::alloc::AllocError;

/// Adds a decimal without leading zeros.
pub fn put_number(out: &mut Vec<u8>, n: u64) -> Result<(), AllocError>
    ensures { OnOk result (out.new.items ≡ out.old.items ++ numeral 10 n) }
{
    let mut digits = Small::new();
    put_decimal(n, &mut digits);
    out.extend_from_slice(digits.as_slice())
}

/// Whether a byte is written as it is: a visible one of ASCII or a space, and no quote and no backslash.
fn is_plain(byte: u8) -> bool
    ensures { result ≡ is_plain byte }
{
    31 < byte && byte < 127 && byte != b'"' && byte != b'\\'
}

/// Whether a byte is written as a letter or itself after a backslash.
fn is_marked(byte: u8) -> bool
    ensures { result ≡ is_marked byte }
{
    byte == b'\r' || byte == b'\n' || byte == b'"' || byte == b'\\'
}

/// What stands after the backslash for such a byte.
fn mark(byte: u8) -> u8
    ensures { result ≡ mark byte }
{
    if byte == b'\r' {
        b'r'
    } else if byte == b'\n' {
        b'n'
    } else {
        byte
    }
}

/// A digit of a hexadecimal number.
fn hex_digit(digit: u8) -> u8
    requires { digit < 16 }
    ensures { result ≡ hex_digit digit }
{
    if digit < 10 {
        b'0' + digit
    } else {
        b'a' + (digit - 10)
    }
}

/// Adds a byte from outside: as it is, as `\r`, `\n`, `\"` or `\\`, or as `\xHH`.
fn put_byte(out: &mut Vec<u8>, byte: u8) -> Result<(), AllocError>
    ensures { OnOk result (out.new.items ≡ out.old.items ++ escaped byte) }
{
    if is_plain(byte) {
        out.extend_from_slice(&[byte])
    } else if is_marked(byte) {
        out.extend_from_slice(&[b'\\', mark(byte)])
    } else {
        out.extend_from_slice(&[b'\\', b'x', hex_digit(byte / 16), hex_digit(byte % 16)])
    }
}

/// Adds a byte from outside that stands in no quotation.
fn put_shown(out: &mut Vec<u8>, byte: u8) -> Result<(), AllocError>
    ensures { OnOk result (out.new.items ≡ out.old.items ++ shown byte) }
{
    if byte == b'"' {
        out.extend_from_slice(b"\"")
    } else {
        put_byte(out, byte)
    }
}

/// Adds a field's value, so that it ends no line.
pub fn put_value(out: &mut Vec<u8>, value: &[u8]) -> Result<(), AllocError>
    ensures { OnOk result (out.new.items ≡ out.old.items ++ shown_text value.now) }
{
    for byte in value {
        put_shown(out, *byte)?;
    }
    Ok(())
}

/// Adds bytes from outside, so that they end no line and no quotation.
pub fn put_bytes(out: &mut Vec<u8>, bytes: &[u8]) -> Result<(), AllocError>
    ensures { OnOk result (out.new.items ≡ out.old.items ++ escaped_text bytes.now) }
{
    for byte in bytes {
        put_byte(out, *byte)?;
    }
    Ok(())
}
