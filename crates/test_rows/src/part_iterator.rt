//! The parts of a text.
ghost use Rattle.std.specs.Prelude.{◌<◌, length, IfSome};
ghost use Rattle.std.specs.Iterator.{at_most};
ghost use Rattle.test_rows.specs.Parts.{most_parts};

/// The parts of a text between the bytes that part it, the empty ones included. One type stands for all of them: a `split` by a closure
/// would be proved anew at each place where it is used.
#[derive(Drop)]
pub struct Parts<'a> {
    rest: Option<&'a [u8]>,
    byte: u8,
}

/// The parts of a text between each two of which this byte stands; one more than it stands there.
pub fn parts_of(text: &[u8], byte: u8) -> Parts<'_> {
    Parts {
        rest: Some(text),
        byte,
    }
}

/// The words of a text, with a space between each two.
pub fn words_of(text: &[u8]) -> Parts<'_> {
    parts_of(text, b' ')
}

/// The lines of a text, with LF between each two.
pub fn lines_of(text: &[u8]) -> Parts<'_> {
    parts_of(text, b'\n')
}

/// The place of the first of these bytes in a text.
fn place_of(text: &[u8], byte: u8) -> Option<usize>
    ensures { IfSome result (λ place. place < length text.now) }
{
    for place in 0..text.len() {
        if text[place] == byte {
            return Some(place);
        }
    }
    None
}

impl<'a> Iterator for Parts<'a> {
    type Item = &'a [u8];

    ghost remaining = { λ parts. at_most (most_parts parts) };

    fn next(&mut self) -> Option<&'a [u8]> {
        let rest = self.rest?;
        match place_of(rest, self.byte) {
            Some(place) => {
                self.rest = Some(&rest[place + 1..]);
                Some(&rest[..place])
            }
            None => {
                self.rest = None;
                Some(rest)
            }
        }
    }
}
