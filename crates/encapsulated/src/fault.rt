//! Why a list is refused.
ghost use Rattle.std.specs.Prelude.{◌≡◌};
ghost use Rattle.encapsulated.specs.Faults.{fault_number};

use thiserror::Error;

/// Why a list is refused. The first that applies, in this order, is returned.
#[derive(Clone, Copy, Debug, Error)]
pub enum EncFault {
    /// An item isn't a name, `=` and an offset of at most `2^64 - 1`, or there is no item.
    #[error("an item of the list isn't a name, = and an offset")]
    Syntax = 1,
    /// An item has a name that no part has.
    #[error("the list names an unknown part")]
    Name = 2,
    /// No list that the message may have begins with these parts.
    #[error("the list's parts don't belong to this message, or not in this order")]
    Order = 3,
    /// The message may have these parts, but the body part that must follow them is missing.
    #[error("the list has no body part")]
    NoBodyPart = 4,
    /// The first offset isn't 0, or one is smaller than the one before.
    #[error("the list's offsets don't begin at 0, or they fall")]
    Offset = 5,
}

impl EncFault {
    /// The fault's number, 1 to 5.
    pub fn number(self) -> u64
        ensures { result ≡ fault_number self }
    {
        self as u64
    }
}
