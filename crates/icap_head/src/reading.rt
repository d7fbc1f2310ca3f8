//! The result of reading a head.
ghost use Rattle.std.specs.Prelude.{◌≡◌, ◌≤◌, ◌<◌, length, take};
ghost use Rattle.adapt_bytes.specs.declared.limits.TheConstants.{MAX_HEAD};
ghost use Rattle.icap_head.specs.declared.reading.HeadFault.{HeadFault};
ghost use Rattle.icap_head.specs.declared.reading.HeadFault.TheVariants as Faults;
ghost use Rattle.icap_head.specs.FieldLines.{unended};
ghost use Rattle.icap_head.specs.Heads.{fault_number};

use adapt_bytes::{MAX_HEAD, front};
use std::alloc::AllocError;

/// A head that was read, and its length in bytes, its empty line included.
#[derive(Drop)]
pub struct Head<T> {
    pub value: T,
    pub length: usize,
}

/// Why no head was read. Only the first 16,384 bytes are judged. Once the fault isn't `More` or `NoMemory`, more bytes
/// don't change it, as long as memory is found for a request's URI.
#[derive(Clone, Copy, Debug)]
pub enum HeadFault {
    /// The head isn't complete yet, and nothing in it is wrong so far, except perhaps a start line whose LF hasn't come, or a
    /// request's URI that no memory was found to judge.
    More = 1,
    /// The start line isn't of its form (RFC 3507, section 4.3).
    StartLine = 2,
    /// The start line is of its form, for another version than `ICAP/1.0`.
    Version = 3,
    /// One of the first 101 field lines is such that no continuation makes a head.
    Field = 4,
    /// The head doesn't end within the first 16,384 bytes. Any other fault in these bytes, `TooMany` too, comes before this one.
    TooLong = 5,
    /// The head has more than 100 fields: known at the end of the 101st field line, which in a response is known with the
    /// byte after it.
    TooMany = 6,
    /// Memory ran out.
    NoMemory = 7,
}

impl HeadFault {
    /// The fault's number, 1 to 7.
    pub fn number(self) -> u64
        ensures { result ≡ fault_number self }
    {
        self as u64
    }
}

impl From<AllocError> for HeadFault {
    ghost from_gives = { λ _ fault. fault ≡ Faults.NoMemory };

    fn from(_error: AllocError) -> HeadFault {
        HeadFault::NoMemory
    }
}

/// The bytes that are judged: a head must end within them.
pub(crate) fn judged(text: &[u8]) -> &[u8]
    ensures front { result.now ≡ take MAX_HEAD text.now }
    ensures len { length result.now ≤ length text.now }
    ensures limit { length result.now ≤ MAX_HEAD }
{
    front(text, MAX_HEAD)
}

/// The fault of a head whose end is missing, in a text of this many bytes.
pub(crate) fn unended(len: usize) -> HeadFault
    ensures { result ≡ unended len }
{
    if len < MAX_HEAD {
        HeadFault::More
    } else {
        HeadFault::TooLong
    }
}
