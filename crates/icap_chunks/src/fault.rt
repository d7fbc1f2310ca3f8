//! The ways in which a text breaks the grammar of chunked bodies.
ghost use Rattle.std.specs.Prelude.{◌≡◌};
ghost use Rattle.icap_chunks.specs.Reading.{number_of};

/// A byte that breaks the grammar of a chunked body (RFC 9112, section 7.1).
#[derive(Clone, Copy, Debug, PartialEq, Eq)]
pub enum ChunkFault {
    /// A size line that doesn't begin with a hexadecimal digit, or whose digits are followed by another byte than a
    /// blank, `;` or CR; or the blanks after them by another byte than these. A bare LF is `Line`.
    Size = 1,
    /// A size, or a sum of sizes, above `2^62 - 1`.
    TooBig = 2,
    /// A size line of over 256 bytes without its CR LF, or one that ends in a bare CR or LF.
    Line = 3,
    /// Data without a CR LF after it.
    Break = 4,
    /// Trailers of over 8,192 bytes, the last CR LF included, or a bare CR or LF in them.
    Trailers = 5,
}

impl ChunkFault {
    /// The fault's number, from 1 to 5.
    #[tactic(auto, unfolding(crate::specs::Reading::number_of))]
    pub fn number(self) -> u8
        ensures { result ≡ number_of self }
    {
        match self {
            ChunkFault::Size => 1,
            ChunkFault::TooBig => 2,
            ChunkFault::Line => 3,
            ChunkFault::Break => 4,
            ChunkFault::Trailers => 5,
        }
    }
}
