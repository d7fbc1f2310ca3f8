//! The id of an exchange, and how it is written.

ghost use Rattle.std.specs.Prelude.{◌≡◌, ◌≢◌, ◌↔◌, ◌∷◌, ◌++◌, ℕ, List, All, IsTrue, OnOk, IfSome, IfNone};
ghost use Rattle.exchange_report.specs.Live.{SpellsNumber, SpellsId, id_text};
ghost use Rattle.exchange_report.specs.declared.exchange_id.ExchangeId.{ExchangeId as AnyId};

use crate::words::write_number;
use adapt_bytes::read_decimal;
use std::alloc::AllocError;

/// Which exchange it is. Each has its own, for as long as the program runs.
#[derive(Clone, Copy, Debug)]
pub struct ExchangeId {
    /// The number of its thread.
    pub thread: u64,
    /// The key of the user's connection in that thread.
    pub key: u64,
    /// Which exchange of its thread it is, counted from 1; no number is used again.
    pub number: u64,
}

impl ExchangeId {
    /// Whether it is this exchange.
    pub fn is(self, other: ExchangeId) -> bool
        ensures { IsTrue result ↔ (self ≡ other) }
    {
        self.thread == other.thread && self.key == other.key && self.number == other.number
    }
}

/// What stands before the first hyphen, and after it.
fn cut_at_hyphen(text: &[u8]) -> Option<(&[u8], &[u8])>
    ensures found { IfSome result (λ parts. (text.now ≡ parts.0.now ++ 45 ∷ parts.1.now) × All (λ b. b ≢ 45) parts.0.now) }
    ensures none { IfNone result (All (λ b. b ≢ 45) text.now) }
{
    let end = text.iter().position(|byte| *byte == b'-')?;
    Some((&text[..end], &text[end + 1..]))
}

/// The number before the first hyphen, and what follows that.
fn read_part(text: &[u8]) -> Option<(u64, &[u8])>
    ensures found { IfSome result (λ part. (digits : List ℕ) × (text.now ≡ digits ++ 45 ∷ part.1.now) × SpellsNumber digits part.0) }
    ensures none { IfNone result ((digits rest : List ℕ) (n : ℕ) → text.now ≡ digits ++ 45 ∷ rest → SpellsNumber digits n → ⊥) }
{
    let (digits, rest) = cut_at_hyphen(text)?;
    Some((read_decimal(digits)?, rest))
}

/// The id that a text spells, as `0-17-4`: three decimals with a hyphen between, each up to `2^64 - 1`, and with any leading zeros.
/// `None` for any other text.
pub fn read_id(text: &[u8]) -> Option<ExchangeId>
    ensures found { IfSome result (SpellsId text.now) }
    ensures none { IfNone result ((id : AnyId) → SpellsId text.now id → ⊥) }
{
    let (thread, rest) = read_part(text)?;
    let (key, rest) = read_part(rest)?;
    let number = read_decimal(rest)?;
    Some(ExchangeId {
        thread,
        key,
        number,
    })
}

/// Adds an id, as `0-17-4`.
pub fn write_id(out: &mut Vec<u8>, id: ExchangeId) -> Result<(), AllocError>
    ensures { OnOk result (out.new.items ≡ out.old.items ++ id_text id) }
{
    write_number(out, id.thread)?;
    out.extend_from_slice(b"-")?;
    write_number(out, id.key)?;
    out.extend_from_slice(b"-")?;
    write_number(out, id.number)
}
