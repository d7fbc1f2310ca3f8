//! One write of a text that the proxy itself says.

ghost use Rattle.adapt_sides.specs.Saying.{Says};

use adapt_bytes::behind;
use wire_kit::{Put, Wire};

/// How much of a text a user has taken.
#[derive(Clone, Copy)]
pub enum Said {
    /// All of it.
    Whole,
    /// This many bytes, and not all.
    Part(usize),
    /// No more than before: it takes nothing now.
    Nothing,
    /// Its connection has failed.
    Broken,
}

/// Says a text over this wire, of which so many bytes went out before: one write at most, of what is left of it.
pub fn say<W: Wire>(user: &mut W, text: &[u8], before: usize) -> Said
    ensures { Says (W.past user.old) (W.past user.new) text.now before result }
{
    let rest = behind(text, before);
    if rest.is_empty() {
        return Said::Whole;
    }
    match user.try_write(rest) {
        Put::Took(count) => {
            let left = rest.len() - count;
            if left == 0 {
                Said::Whole
            } else {
                Said::Part(text.len() - left)
            }
        }
        Put::Wait => Said::Nothing,
        Put::Fault => Said::Broken,
    }
}
