//! What holds of every line: each law is the contract of a function that does nothing.

ghost use Rattle.std.specs.Prelude.{◌≡◌, ◌^◌, ◌<◌, ℕ, List, All, IsTrue, length};
ghost use Rattle.exchange_report.specs.Entry.{line_text};
ghost use Rattle.exchange_report.specs.Lines.{IsOneLine};
ghost use Rattle.exchange_report.specs.Words.{is_visible, word_of};
ghost use Rattle.exchange_report.specs.Live.{live_text};
ghost use Rattle.exchange_report.specs.declared.entry.Entry.{Entry};
ghost use Rattle.exchange_report.specs.declared.live.Live.{Live};

/// A value from outside is one word of its line: it has a byte, and each of its bytes is visible and no quote. So it ends no
/// line and begins no field, whatever it is.
pub fn a_value_is_one_word()
    ensures visible { (value : List ℕ) → All (λ b. b < 2 ^ 8) value → All (λ b. IsTrue (is_visible b)) (word_of value) }
    ensures some { (value : List ℕ) → 0 < length (word_of value) }
{}

/// No two values are written alike, so a line says which it was, up to the most bytes that are written: a quote is `%22`, and
/// these three bytes are `%2522`. Only the hyphen stands for none too.
pub fn a_word_says_its_value()
    ensures { (value other : List ℕ) → All (λ b. b < 2 ^ 8) value → All (λ b. b < 2 ^ 8) other → 0 < length value → 0 < length other
        → word_of value ≡ word_of other → value ≡ other }
{}

/// A line ends once: its last byte is a line feed, and no other one is, whatever the record says. So a file of lines has one for
/// each exchange.
pub fn a_line_ends_once()
    ensures { (entry : Entry) → All (λ b. b < 2 ^ 8) entry.method.now → All (λ b. b < 2 ^ 8) entry.target.now
        → All (λ b. b < 2 ^ 8) entry.kind.now → All (λ b. b < 2 ^ 8) entry.found.now → IsOneLine (line_text entry) }
{}

/// So it is with the line of an exchange that isn't over.
pub fn a_live_line_ends_once()
    ensures { (live : Live) → All (λ b. b < 2 ^ 8) live.method.now → All (λ b. b < 2 ^ 8) live.target.now → IsOneLine (live_text live) }
{}
