//! A wire that keeps the last bytes that it gave.

ghost use Rattle.std.specs.Prelude.{◌≡◌};

use std::alloc::Global;
use wire_kit::{Got, Put, Wire};

/// As many bytes are kept at least, where so many came: more than a side keeps of what it hasn't framed.
const KEPT: usize = 32_768;

/// A wire, and the last bytes that it gave since a request began. Bytes for which there was no memory aren't kept, nor those before them.
#[derive(Drop)]
pub struct Tap<W> {
    alloc: Global,
    wire: W,
    last: Vec<u8>,
    given: u64,
}

impl<W> Tap<W> {
    /// The wire, of which nothing is kept yet.
    pub fn new(alloc: Global, wire: W) -> Tap<W> {
        Tap {
            alloc,
            wire,
            last: Vec::new(alloc),
            given: 0,
        }
    }

    /// Forgets what came: a request begins.
    pub fn forget(&mut self)
        ensures { self.new.wire ≡ self.old.wire }
    {
        self.last = Vec::new(self.alloc);
        self.given = 0;
    }

    /// The wire itself.
    pub fn wire(&self) -> &W {
        &self.wire
    }

    /// How many bytes came since the request began.
    pub fn given(&self) -> u64 {
        self.given
    }

    /// The last bytes that came.
    pub fn last(&self) -> &[u8] {
        &self.last
    }

    /// Keeps bytes that came.
    fn keep(&mut self, bytes: &[u8])
        ensures { self.new.wire ≡ self.old.wire }
    {
        self.given = self.given.saturating_add(bytes.len() as u64);
        let len = self.last.len();
        if len >= 2 * KEPT {
            self.last.as_mut_slice().copy_within(len - KEPT..len, 0);
            self.last.truncate(KEPT);
        }
        if self.last.extend_from_slice(bytes).is_err() {
            self.last = Vec::new(self.alloc);
        }
    }
}

impl<W: Wire> Wire for Tap<W> {
    ghost past = { λ tap. W.past tap.wire };

    fn try_read(&mut self, buf: &mut [u8]) -> Got {
        let got = self.wire.try_read(buf);
        if let Got::Bytes(n) = got {
            self.keep(&buf[..n]);
        }
        got
    }

    fn try_write(&mut self, bytes: &[u8]) -> Put {
        self.wire.try_write(bytes)
    }

    fn counts(&self) -> (u64, u64) {
        self.wire.counts()
    }
}
