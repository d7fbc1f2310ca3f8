//! Why an exchange ended as it did.

ghost use Rattle.std.specs.Prelude.{◌≡◌};
ghost use Rattle.exchange_report.specs.Entry.{why_word};

use crate::reason::Reason;

/// Why an exchange ended as it did.
#[derive(Clone, Copy)]
pub enum Why {
    /// The answer of the origin or of a service went out whole.
    Served,
    /// The user's connection was gone before its answer was whole.
    UserGone,
    /// The proxy answered the request itself, or cut its answer.
    Failed(Reason),
}

impl Why {
    /// The word for it, in lines and labels.
    pub fn word(self) -> &'static [u8]
        ensures { result.now ≡ why_word self }
    {
        match self {
            Why::Served => b"-",
            Why::UserGone => b"user-gone",
            Why::Failed(reason) => reason.word(),
        }
    }
}
