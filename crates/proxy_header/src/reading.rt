//! What the first bytes of a connection are.

ghost use Rattle.std.specs.Prelude.{◌≡◌, IsTrue, IsFalse};
ghost use Rattle.proxy_header.specs.Headers.{Answers, IsCut, IsCutFront, IsHeader, is_reading};

use crate::block::{SIGNATURE, read_block};
use crate::line::read_line;
use crate::words::{after, begins};
use std::net::Ipv4Addr;

/// The most bytes of a header.
pub const MAX_HEADER: usize = 536;

/// A header.
#[derive(Clone, Copy, PartialEq, Eq)]
pub struct Header {
    /// Where the user's connection comes from. `None` where that is the connection's own address.
    pub from: Option<Ipv4Addr>,
    /// How many bytes the header has.
    pub length: usize,
}

/// What the first bytes of a connection are.
#[derive(Clone, Copy, PartialEq, Eq)]
pub enum Reading {
    /// A header, and what comes after it.
    Whole(Header),
    /// A part of a header, as far as is known: more bytes have to come.
    Partial,
    /// No header.
    Fault,
}

/// What a header says.
#[derive(Clone, Copy)]
pub(crate) enum Said {
    /// Where the connection comes from.
    From(Ipv4Addr),
    /// That its own address is meant.
    Unknown,
    /// Nothing that it may.
    Nothing,
}

/// A header of this length that says this.
pub(crate) fn reading_of(said: Said, length: usize) -> Reading
    ensures { result ≡ is_reading said length }
{
    match said {
        Said::From(from) => Reading::Whole(Header {
            from: Some(from),
            length,
        }),
        Said::Unknown => Reading::Whole(Header { from: None, length }),
        Said::Nothing => Reading::Fault,
    }
}

/// Whether the bytes are a part of what a header begins with.
fn is_cut_front(bytes: &[u8]) -> bool
    ensures yes { IsTrue result → IsCutFront bytes.now }
    ensures no { IsFalse result → IsCutFront bytes.now → ⊥ }
{
    begins(b"PROXY ", bytes) || begins(&SIGNATURE, bytes)
}

/// Reads the header that a connection begins with, of its first bytes.
///
/// A line is judged once its end has come, and a block of addresses once all of it is there. One that is too long
/// is a fault before that.
///
/// ```
/// let header = Header { from: Some(Ipv4Addr::new(192, 0, 2, 7)), length: 46 };
/// let bytes = b"PROXY TCP4 192.0.2.7 198.51.100.1 56324 3128\r\nGET";
/// assert_eq!(rt; read(bytes), Reading::Whole(header));
/// assert_eq!(rt; read(b"PROXY TCP4 192.0"), Reading::Partial);
/// assert_eq!(rt; read(b"GET / HTTP/1.1\r\n"), Reading::Fault);
/// ```
pub fn read(bytes: &[u8]) -> Reading
    ensures { Answers IsHeader IsCut bytes.now result }
{
    match after(bytes, &SIGNATURE) {
        Some(rest) => read_block(bytes, rest),
        None if begins(bytes, b"PROXY ") => read_line(bytes),
        None if is_cut_front(bytes) => Reading::Partial,
        None => Reading::Fault,
    }
}
