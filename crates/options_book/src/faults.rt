//! Why an OPTIONS response is refused.

ghost use Rattle.std.specs.Prelude.{◌≡◌};
ghost use Rattle.options_book.specs.Options.{fault_number};

use thiserror::Error;

/// Why an OPTIONS response is refused: the first of these that applies.
#[derive(Clone, Copy, Debug, Error)]
pub enum OptFault {
    /// The status isn't 200.
    #[error("the status isn't 200")]
    Status = 1,
    /// No Methods field names the method of the point.
    #[error("Methods is missing, or lacks the method")]
    NoMethods = 2,
    /// The ISTag field is missing, or without its quotes it is empty or longer than 256 bytes.
    #[error("ISTag is missing, empty or too long")]
    NoTag = 3,
    /// Preview, Max-Connections or Options-TTL isn't a decimal number up to `2^62 - 1`, or has two different values, or
    /// Max-Connections is 0.
    #[error("Preview, Max-Connections or Options-TTL is no good number")]
    Number = 4,
    /// The Encapsulated list isn't one of an OPTIONS response, or there are two Encapsulated fields.
    #[error("bad Encapsulated list")]
    Encapsulated = 5,
    /// No memory was found for the record.
    #[error("out of memory")]
    NoMemory = 6,
}

impl OptFault {
    /// The fault's number, 1 to 6.
    pub fn number(self) -> u64
        ensures { result ≡ fault_number self }
    {
        self as u64
    }
}
