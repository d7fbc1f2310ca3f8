//! Both ends of a message that a service is tried with: who sends it, and who takes what comes of it, in memory.

ghost use Rattle.std.specs.Prelude.{⊤, ◌≤◌, length};

use adapt_bytes::behind;
use socket_wire::{Calls, Readiness, StreamWire};
use std::alloc::{AllocError, Global};
use std::io::{self, ErrorKind};
use std::sync::Arc;

/// Gives the bytes of a text, and takes all that it is offered.
#[derive(Drop)]
pub struct TextStream {
    text: Vec<u8>,
    given: usize,
    ghost within: { given ≤ length text.items },
}

/// A connection to it.
pub type TextWire = StreamWire<TextStream>;

/// A connection that gives these bytes.
pub fn wire_of(alloc: Global, text: Vec<u8>) -> Result<TextWire, AllocError> {
    let ready = Arc::new(alloc, Readiness::new())?;
    Ok(StreamWire::new(TextStream { text, given: 0 }, ready))
}

impl Calls for TextStream {
    ghost calls = { λ stream p. ⊤ };

    fn ask(&mut self, buf: &mut [u8]) -> io::Result<usize> {
        let rest = behind(&self.text, self.given);
        let count = rest.len().min(buf.len());
        if count == 0 {
            return Err(io::Error::from(ErrorKind::WouldBlock));
        }
        buf[..count].copy_from_slice(&rest[..count]);
        self.given += count;
        Ok(count)
    }

    fn offer(&mut self, bytes: &[u8]) -> io::Result<usize> {
        Ok(bytes.len())
    }

    fn is_late(&self) -> bool {
        false
    }

    fn connect(&mut self) -> bool {
        true
    }

    fn give_up(&mut self) {}

    fn hurry(&self) -> io::Result<()> {
        Ok(())
    }
}
