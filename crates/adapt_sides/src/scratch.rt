//! Buffers that a turn is lent.

use crate::filling::MAX_FILL;
use std::alloc::{AllocError, Global};
use std::boxed::Box;

/// The room for the bytes of one read, or for one write that is composed.
pub const WIRE_ROOM: usize = 73_728;

/// The buffers of a thread. A turn is lent them, and leaves bytes in them that mean nothing to the next one: so they are zeroed once,
/// when the thread begins.
#[derive(Drop)]
pub struct Scratch {
    /// The bytes of a body that a turn reads.
    pub body: [u8; MAX_FILL],
    /// What one read of a wire gives, or what one write offers to it.
    pub wire: [u8; WIRE_ROOM],
}

impl Scratch {
    /// Buffers of zeros.
    pub fn zeroed() -> Scratch {
        Scratch {
            body: [0; MAX_FILL],
            wire: [0; WIRE_ROOM],
        }
    }

    /// Buffers of zeros, on the heap. An error if no memory has them.
    pub fn new(alloc: Global) -> Result<Box<Scratch>, AllocError> {
        Ok(Box::new(alloc, Scratch::zeroed())?)
    }
}
