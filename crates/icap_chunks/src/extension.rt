//! Recognizes `ieof` among the items of a chunk extension, byte by byte (RFC 3507, section 4.5).
ghost use Rattle.std.specs.Prelude.{◌≡◌};
ghost use Rattle.icap_chunks.specs.Machine.{item_with, is_word};

use adapt_bytes::is_blank;

/// How much of `ieof` an item of a chunk extension has matched.
#[derive(Clone, Copy, Debug)]
pub enum Item {
    Blank,
    I,
    Ie,
    Ieo,
    Ieof,
    Other,
}

impl Item {
    /// The item with one more byte.
    #[tactic(auto, unfolding(crate::specs::Machine::item_with))]
    pub(crate) fn with(self, byte: u8) -> Item
        ensures { result ≡ item_with self byte }
    {
        let blank = is_blank(byte);
        let letter = byte.to_ascii_lowercase();
        match self {
            Item::Blank => {
                if blank {
                    Item::Blank
                } else if letter == b'i' {
                    Item::I
                } else {
                    Item::Other
                }
            }
            Item::I => {
                if letter == b'e' {
                    Item::Ie
                } else {
                    Item::Other
                }
            }
            Item::Ie => {
                if letter == b'o' {
                    Item::Ieo
                } else {
                    Item::Other
                }
            }
            Item::Ieo => {
                if letter == b'f' {
                    Item::Ieof
                } else {
                    Item::Other
                }
            }
            Item::Ieof => { if blank { Item::Ieof } else { Item::Other } }
            Item::Other => Item::Other,
        }
    }

    #[tactic(auto, unfolding(crate::specs::Machine::is_word))]
    pub(crate) fn is_word(self) -> bool
        ensures { result ≡ is_word self }
    {
        match self {
            Item::Ieof => true,
            Item::Blank | Item::I | Item::Ie | Item::Ieo | Item::Other => false,
        }
    }
}
