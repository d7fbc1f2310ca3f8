//! A body's bytes on two pages of a reservation.
ghost use Rattle.std.specs.Prelude.{◌≡◌, ◌+◌};
ghost use Rattle.span_tape.specs.Tape.{pages_in};

use span_bank::Pages;
use span_tape::SpanTape;

/// The bytes that came and weren't let go. The pages are there from the start.
#[derive(Drop)]
pub struct KeptBytes {
    tape: SpanTape,
    pages: Pages,
    ghost all: { pages_in tape + pages ≡ 2 },
}

impl KeptBytes {
    pub fn new(pages: Pages) -> KeptBytes
        requires { pages ≡ 2 }
    {
        KeptBytes {
            tape: SpanTape::new(),
            pages,
        }
    }

    pub fn tape(&self) -> &SpanTape
        ensures { result.now ≡ self.now.tape }
    {
        &self.tape
    }

    /// Adds bytes, where the pages have room for them.
    pub fn append(&mut self, bytes: &[u8]) {
        if bytes.len() > 4096 || self.tape.end() > 4096 {
            return;
        }
        if self.tape.pages_for(bytes.len() as u64) <= self.pages.count() {
            self.tape.append(bytes, &mut self.pages);
        }
    }

    /// Lets go what stands before this place.
    pub fn drop_to(&mut self, place: u64) {
        if self.tape.base() <= place && place <= 4096 {
            let gone = self.tape.drop_to(place);
            self.pages.join(gone);
        }
    }

    /// Lets all bytes go, for the next body.
    pub fn clear(&mut self) {
        let end = self.tape.end();
        let gone = self.tape.drop_to(end);
        self.pages.join(gone);
        self.tape = SpanTape::new();
    }

    /// All pages. The bytes go with them.
    pub fn give_back(self) -> Pages
        ensures { result ≡ 2 }
    {
        let KeptBytes {
            mut tape,
            mut pages,
        } = self;
        let end = tape.end();
        let gone = tape.drop_to(end);
        pages.join(gone);
        pages
    }
}
