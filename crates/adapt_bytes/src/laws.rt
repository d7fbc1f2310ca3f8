//! Laws of numerals and of fields: each is the contract of a function that does nothing.
ghost use Rattle.std.specs.Prelude.{◌≡◌, ℕ, ◌<◌, ◌≤◌, ◌^◌, List, length};
ghost use Rattle.http_header.specs.HeaderMap.{get_all};
ghost use Rattle.http_header.specs.Token.{lowercase};
ghost use Rattle.adapt_bytes.specs.Fields.{FieldList, as_header_map, values_of};
ghost use Rattle.adapt_bytes.specs.Numeral.{Writes, numeral, three_digits, HasNoLeadingZero, IsLowerCase};

/// In one base, a text spells at most one number.
pub fn spells_one_number()
    ensures { (base m n : ℕ) (text : List ℕ) → Writes base text m → Writes base text n → m ≡ n }
{}

/// A number that was written is read back as itself.
pub fn reads_what_it_writes()
    ensures { (base n : ℕ) → 2 ≤ base → base ≤ 16 → Writes base (numeral base n) n }
{}

/// Three digits are read back as the number that they were written for.
pub fn three_digits_write_it()
    ensures { (n : ℕ) → n < 1000 → Writes 10 (three_digits n) n }
{}

/// The numeral that is written is the only spelling of its number in lower case and without a leading zero.
pub fn writes_the_only_short_spelling()
    ensures short { (base n : ℕ) → 2 ≤ base → base ≤ 16 → HasNoLeadingZero (numeral base n) × IsLowerCase (numeral base n) }
    ensures only { (base n : ℕ) (text : List ℕ) → 2 ≤ base → base ≤ 16 → Writes base text n → HasNoLeadingZero text → IsLowerCase text
        → text ≡ numeral base n }
{}

/// The greatest length of a numeral.
pub fn is_short()
    ensures { (base n k : ℕ) → 2 ≤ base → 0 < k → n < base ^ k → length (numeral base n) ≤ k }
{}

/// A look-up by name finds what a header map of the fields has under that name.
pub fn looks_up_as_a_header_map()
    ensures { (name : List ℕ) (fields : FieldList) → get_all (as_header_map fields) (lowercase name) ≡ values_of name fields }
{}
