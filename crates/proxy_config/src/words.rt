//! The lines of a hosts file, and the words of a line.

ghost use Rattle.std.specs.Prelude.{◌≡◌, ◌∷◌, ◌==◌};
ghost use Rattle.std.specs.Iterator.{YieldsFirstRef, item_count};
ghost use Rattle.std.specs.List.{before_first, slice_split};
ghost use Rattle.proxy_config.specs.HostsFile.{is_gap, is_line_end, lines_left, parts_left, words_of, words_left};

use adapt_bytes::is_blank;

/// The text before the first LF, and the text after it, if there is an LF.
pub(crate) fn cut_line(text: &[u8]) -> (&[u8], Option<&[u8]>)
    ensures { slice_split is_line_end text.now ≡ result.0.now ∷ lines_left result.1 }
{
    match text.iter().position(|byte| *byte == b'\n') {
        Some(end) => (&text[..end], Some(&text[end + 1..])),
        None => (text, None),
    }
}

/// Whether a byte stands between words: a blank, or the CR of a line's end.
fn is_gap(byte: u8) -> bool
    ensures { result ≡ is_gap byte }
{
    is_blank(byte) || byte == b'\r'
}

/// The text before the first byte between words, and the text after that one, if there is one.
fn cut_word(text: &[u8]) -> (&[u8], Option<&[u8]>)
    ensures { slice_split is_gap text.now ≡ result.0.now ∷ parts_left result.1 }
{
    match text.iter().position(|byte| is_gap(*byte)) {
        Some(end) => (&text[..end], Some(&text[end + 1..])),
        None => (text, None),
    }
}

/// The words of a line.
#[derive(Drop)]
pub(crate) struct Words<'a> {
    rest: Option<&'a [u8]>,
}

/// The text before the first one of this byte, or all of it where there is none.
pub(crate) fn before(text: &[u8], byte: u8) -> &[u8]
    ensures { result.now ≡ before_first (λ it. it == byte) text.now }
{
    match text.iter().position(|it| *it == byte) {
        Some(end) => &text[..end],
        None => text,
    }
}

/// The words of a line in order, up to a `#`.
pub(crate) fn words_of(line: &[u8]) -> Words<'_>
    ensures { words_left result ≡ words_of line.now }
{
    Words {
        rest: Some(before(line, b'#')),
    }
}

impl<'a> Iterator for Words<'a> {
    type Item = &'a [u8];

    ghost next_gives = { YieldsFirstRef words_left };

    ghost remaining = { item_count words_left };

    fn next(&mut self) -> Option<&'a [u8]> {
        while let Some(rest) = self.rest {
            let (part, after) = cut_word(rest);
            self.rest = after;
            if !part.is_empty() {
                return Some(part);
            }
        }
        None
    }
}
