//! Numbers as text: reading accepts leading zeros; writing adds none, or pads a status to three digits.
ghost use Rattle.std.specs.Prelude.{◌≡◌, ℕ, ◌+◌, ◌*◌, ◌^◌, ◌<◌, ◌≤◌, ◌++◌, length, map, IfSome, IfNone};
ghost use Rattle.std.specs.Char.{digit_char, digit_value};
ghost use Rattle.std.specs.Option.{SomeIff};
ghost use Rattle.std.specs.Int.Digits.{digits_of};
ghost use Rattle.arrayvec.specs.ArrayVec.{array_vec_len};
ghost use Rattle.adapt_bytes.specs.declared.limits.TheConstants.{MAX_SMALL};
ghost use Rattle.adapt_bytes.specs.Numeral.{Writes, numeral, three_digits};

use crate::limits::MAX_SMALL;
use arrayvec::ArrayVec;

/// A short text that is written without allocating: at most `MAX_SMALL` bytes.
pub type Small = ArrayVec<u8, MAX_SMALL>;

/// The number that a text spells in decimal: one or more digits, with any leading zeros, up to `2^64 - 1`.
///
/// `None` if the text isn't such a number.
pub fn read_decimal(bytes: &[u8]) -> Option<u64>
    ensures found { IfSome result (λ n. Writes 10 bytes.now n) }
    ensures none { IfNone result ((n : ℕ) → n < 2 ^ 64 → Writes 10 bytes.now n → ⊥) }
{
    read_digits(bytes, 10)
}

/// The number that a text spells in hexadecimal: one or more digits of either case, with any leading zeros, up to
/// `2^64 - 1`.
///
/// `None` if the text isn't such a number.
pub fn read_hex(bytes: &[u8]) -> Option<u64>
    ensures found { IfSome result (λ n. Writes 16 bytes.now n) }
    ensures none { IfNone result ((n : ℕ) → n < 2 ^ 64 → Writes 16 bytes.now n → ⊥) }
{
    read_digits(bytes, 16)
}

fn read_digits(bytes: &[u8], base: u32) -> Option<u64>
    requires low { 2 ≤ base }
    requires high { base ≤ 16 }
    ensures found { IfSome result (λ n. Writes base bytes.now n) }
    ensures none { IfNone result ((n : ℕ) → n < 2 ^ 64 → Writes base bytes.now n → ⊥) }
{
    if bytes.is_empty() {
        return None;
    }
    let mut value: u64 = 0;
    for byte in bytes {
        value = with_digit(value, *byte, base)?;
    }
    Some(value)
}

/// The number with one more digit appended, if the byte is a digit and the number fits.
fn with_digit(value: u64, byte: u8, base: u32) -> Option<u64>
    requires low { 2 ≤ base }
    requires high { base ≤ 16 }
    ensures { SomeIff result ((digit_value byte < base) × (value * base + digit_value byte < 2 ^ 64))
        (value * base + digit_value byte) }
{
    let digit = (byte as char).to_digit(base)?;
    value
        .checked_mul(u64::from(base))?
        .checked_add(u64::from(digit))
}

/// Appends `n` in decimal, without leading zeros: at most 20 bytes, for which `out` needs room.
#[tactic(auto, using(crate::proofs::Written::decimal_short))]
pub fn put_decimal(n: u64, out: &mut Small)
    requires { array_vec_len out.old + 20 ≤ MAX_SMALL }
    ensures items { out.new.items ≡ out.old.items ++ numeral 10 n }
    ensures len { array_vec_len out.new ≡ array_vec_len out.old + length (numeral 10 n) }
    ensures short { array_vec_len out.new ≤ array_vec_len out.old + 20 }
{
    put_numeral(n, 10, out);
}

/// Appends `n` in hexadecimal, in lower case and without leading zeros: at most 16 bytes, for which `out` needs room.
#[tactic(auto, using(crate::proofs::Written::hex_short))]
pub fn put_hex(n: u64, out: &mut Small)
    requires { array_vec_len out.old + 16 ≤ MAX_SMALL }
    ensures items { out.new.items ≡ out.old.items ++ numeral 16 n }
    ensures len { array_vec_len out.new ≡ array_vec_len out.old + length (numeral 16 n) }
    ensures short { array_vec_len out.new ≤ array_vec_len out.old + 16 }
{
    put_numeral(n, 16, out);
}

#[tactic(auto, unfolding(crate::specs::Numeral::numeral))]
fn put_numeral(n: u64, base: u64, out: &mut Small)
    requires low { 2 ≤ base }
    requires high { base ≤ 16 }
    requires room { array_vec_len out.old + length (numeral base n) ≤ MAX_SMALL }
    ensures items { out.new.items ≡ out.old.items ++ numeral base n }
    ensures len { array_vec_len out.new ≡ array_vec_len out.old + length (numeral base n) }
{
    if n == 0 {
        out.push(b'0');
    } else {
        put_digits(n, base, out);
    }
}

#[tactic(auto, using(crate::proofs::Numerals::digits_more))]
fn put_digits(n: u64, base: u64, out: &mut Small)
    requires low { 2 ≤ base }
    requires high { base ≤ 16 }
    requires room { array_vec_len out.old + length (digits_of base n) ≤ MAX_SMALL }
    ensures items { out.new.items ≡ out.old.items ++ map digit_char (digits_of base n) }
    ensures len { array_vec_len out.new ≡ array_vec_len out.old + length (digits_of base n) }
{
    if n > 0 {
        put_digits(n / base, base, out);
        out.push(digit_byte(n % base));
    }
}

fn digit_byte(digit: u64) -> u8
    requires { digit < 16 }
    ensures { result ≡ digit_char digit }
{
    if digit < 10 {
        b'0' + digit as u8
    } else {
        b'a' + (digit as u8 - 10)
    }
}

/// A number below 1,000 with three digits, as a status is written (RFC 9112, section 4).
pub fn three_digits(n: u16) -> [u8; 3]
    requires { n < 1000 }
    ensures { result ≡ three_digits n }
{
    [
        b'0' + (n / 100) as u8,
        b'0' + (n / 10 % 10) as u8,
        b'0' + (n % 10) as u8,
    ]
}
