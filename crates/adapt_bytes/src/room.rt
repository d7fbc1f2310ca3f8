//! Room for a text whose length is known before it is written: one allocation, of just that size.
ghost use Rattle.std.specs.Prelude.{◌≡◌, ◌+◌, ◌^◌, ◌<◌, ◌≤◌, [], length, IfOk};
ghost use Rattle.std.specs.Vec.{vec_capacity};
ghost use Rattle.adapt_bytes.specs.Room.{Written, Puts};

use std::alloc::{AllocError, Global};
use std::marker::Model;

/// A text that is written into room of a known size; contracts see the text and the room that is left.
///
/// ```
/// let mut room = Room::new(rt.alloc(), 13)?;
/// room.put(b"HTTP/1.1 ");
/// room.put(b"200 ");
/// assert_eq!(rt; room.into_vec(), b"HTTP/1.1 200 ");
/// ```
#[derive(Drop)]
pub struct Room {
    bytes: Vec<u8>,
    written: usize,
}

impl Model for Room {
    ghost use Rattle.std.specs.Prelude.{◌≡◌, ◌-◌, ◌≤◌, take, vec_len};
    ghost use Rattle.std.specs.Vec.{vec_capacity};
    ghost use Rattle.adapt_bytes.specs.Room.{Written};

    ghost Value = { Written };

    ghost view = { λ r. record { text = take r.written r.bytes.items; left = vec_len r.bytes - r.written } };

    ghost invariant = { λ r. (r.written ≤ vec_len r.bytes) × (vec_capacity r.bytes ≡ vec_len r.bytes) };
}

impl Room {
    /// An empty text with room for `size` bytes, in one allocation.
    ///
    /// `AllocError` if that allocation fails.
    pub fn new(alloc: Global, size: usize) -> Result<Room, AllocError>
        ensures { IfOk result (λ room. (room.text ≡ []) × (room.left ≡ size) × (size < 2 ^ 63)) }
    {
        let mut bytes = Vec::with_capacity(alloc, size)?;
        for _ in 0..size {
            bytes.push_reserved(0);
        }
        Ok(Room { bytes, written: 0 })
    }

    /// Appends the bytes to the text. The caller ensures that there is room; nothing is allocated.
    pub fn put(&mut self, bytes: &[u8])
        requires { length bytes.now ≤ self.old.left }
        ensures { Puts self.old self.new bytes.now }
    {
        let end = self.written + bytes.len();
        self.bytes[self.written..end].copy_from_slice(bytes);
        self.written = end;
    }

    /// The text, in the one allocation that was made for it.
    pub fn into_vec(self) -> Vec<u8>
        ensures text { result.items ≡ self.text }
        ensures size { vec_capacity result ≡ length self.text + self.left }
    {
        let mut bytes = self.bytes;
        bytes.truncate(self.written);
        bytes
    }
}
