//! The bytes that came on a wire and aren't framed yet.

ghost use Rattle.std.specs.Prelude.{◌≡◌, ◌==◌, ◌≤◌, [], ◌++◌, length, drop, OnOk, vec_capacity};

use std::alloc::{AllocError, Global};
use std::marker::Model;

/// Bytes that came and aren't framed yet. They are framed from the first one on, and join at the end.
///
/// To a contract they are their list, and the number of further bytes that their memory has room for. Room isn't filled with
/// zeros: it costs the memory alone.
///
/// ```
/// let mut raw = RawBytes::new(alloc);
/// raw.reserve(2)?;
/// raw.extend_reserved(b"ab");
/// raw.advance(1);
/// assert_eq!(rt; raw.as_slice(), b"b".as_slice());
/// ```
#[derive(Drop)]
pub struct RawBytes {
    bytes: Vec<u8>,
    framed: usize,
}

impl Model for RawBytes {
    ghost use Rattle.std.specs.Prelude.{◌-◌, ◌≤◌, drop, length, vec_capacity};
    ghost use Rattle.adapt_sides.specs.Raw.{Raw};

    ghost Value = { Raw };

    ghost view = { λ r. record { items = drop r.framed r.bytes.items; spare = vec_capacity r.bytes - length (drop r.framed r.bytes.items) } };

    ghost invariant = { λ r. r.framed ≤ length r.bytes.items };
}

/// Drops the first `count` bytes: the others move to the beginning.
fn drop_front(bytes: &mut Vec<u8>, count: usize)
    requires { count ≤ length bytes.old.items }
    ensures items { bytes.new.items ≡ drop count bytes.old.items }
    ensures capacity { vec_capacity bytes.new ≡ vec_capacity bytes.old }
{
    if count > 0 {
        let len = bytes.len();
        bytes.as_mut_slice().copy_within(count..len, 0);
        bytes.truncate(len - count);
    }
}

impl RawBytes {
    /// No byte, and no room.
    pub fn new(alloc: Global) -> RawBytes
        ensures { result ≡ record { items = []; spare = 0 } }
    {
        RawBytes {
            bytes: Vec::new(alloc),
            framed: 0,
        }
    }

    /// The number of bytes.
    pub fn len(&self) -> usize
        ensures { result ≡ length self.now.items }
    {
        self.bytes.len() - self.framed
    }

    /// Whether there is none.
    pub fn is_empty(&self) -> bool
        ensures { result ≡ (length self.now.items == 0) }
    {
        self.len() == 0
    }

    /// The bytes.
    pub fn as_slice(&self) -> &[u8]
        ensures { result.now ≡ self.now.items }
    {
        &self.bytes.as_slice()[self.framed..]
    }

    /// Lets go of the first `count` bytes, which were framed.
    pub fn advance(&mut self, count: usize)
        requires { count ≤ length self.old.items }
        ensures items { self.new.items ≡ drop count self.old.items }
        ensures spare { self.old.spare ≤ self.new.spare }
    {
        self.framed += count;
    }

    /// Makes room for this many further bytes. An error if no memory has it; the bytes stay.
    pub fn reserve(&mut self, additional: usize) -> Result<(), AllocError>
        ensures items { self.new.items ≡ self.old.items }
        ensures ok { OnOk result (additional ≤ self.new.spare) }
    {
        drop_front(&mut self.bytes, self.framed);
        self.framed = 0;
        self.bytes.reserve(additional)
    }

    /// Adds bytes that there is room for.
    pub fn extend_reserved(&mut self, more: &[u8])
        requires { length more.now ≤ self.old.spare }
        ensures { self.new.items ≡ self.old.items ++ more.now }
    {
        drop_front(&mut self.bytes, self.framed);
        self.framed = 0;
        let _ = self.bytes.extend_from_slice(more);
    }
}
