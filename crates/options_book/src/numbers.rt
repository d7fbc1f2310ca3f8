//! The numbers of an OPTIONS response: each is below the limit of counts, and repeated fields must agree.

ghost use Rattle.std.specs.Prelude.{◌≡◌, ◌<◌, ℕ, Option, IfOk, OnErr, MatchOption};
ghost use Rattle.adapt_bytes.specs.declared.limits.TheConstants.{COUNT_LIMIT};
ghost use Rattle.adapt_bytes.specs.Numeral.{Writes};
ghost use Rattle.adapt_bytes.specs.Fields.{values_of};
ghost use Rattle.icap_head.specs.Fields.{field_list};
ghost use Rattle.options_book.specs.Numbers.{IsNumber};

use crate::OptFault;
use adapt_bytes::{COUNT_LIMIT, read_decimal};
use icap_head::Fields;

/// The number that the fields of this name give; `None` if there is no such field.
pub(crate) fn number(fields: &Fields, name: &[u8]) -> Result<Option<u64>, OptFault>
    ensures ok { IfOk result (IsNumber (values_of name.now (field_list fields.now))) }
    ensures err { OnErr result ((number : Option ℕ) → IsNumber (values_of name.now (field_list fields.now)) number → ⊥) }
    ensures fault { OnErr result (result ≡ Err OptFault.Number) }
{
    let mut values = fields.values(name);
    let Some(first) = values.next() else {
        return Ok(None);
    };
    match read_number(first) {
        Some(number) if values.all_spell(number) => Ok(Some(number)),
        _ => Err(OptFault::Number),
    }
}

/// The number that a text spells, if it is a decimal number below the limit of counts.
fn read_number(text: &[u8]) -> Option<u64>
    ensures { MatchOption result ((n : ℕ) → n < COUNT_LIMIT → Writes 10 text.now n → ⊥) (λ n. (n < COUNT_LIMIT) × Writes 10 text.now n) }
{
    match read_decimal(text) {
        Some(number) if number < COUNT_LIMIT => Some(number),
        _ => None,
    }
}
