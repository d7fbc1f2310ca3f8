//! The Transfer lists: which messages a service wants whole, with a preview, or not at all (RFC 3507, section 4.10.2).

ghost use Rattle.std.specs.Prelude.{◌≡◌, map, option_copied};
ghost use Rattle.adapt_bytes.specs.Text.{is_among};
ghost use Rattle.options_book.specs.Transfer.{vec_bytes, listed, treat_of, kept_lists};

use adapt_bytes::same_ascii;

/// How a service wants a message.
#[derive(Clone, Copy)]
pub enum Treat {
    /// Whole, with no preview.
    Complete,
    /// With a preview first.
    Preview,
    /// Not at all.
    Ignore,
}

/// The items of a service's Transfer fields, in the order in which they came.
#[derive(Debug, Drop)]
pub struct TransferLists {
    /// Of Transfer-Complete.
    pub(crate) complete: Vec<Vec<u8>>,
    /// Of Transfer-Preview.
    pub(crate) preview: Vec<Vec<u8>>,
    /// Of Transfer-Ignore.
    pub(crate) ignore: Vec<Vec<u8>>,
}

impl TransferLists {
    /// What the lists say of an item, an extension or `*`: Complete wins, then Preview, then Ignore.
    fn listed(&self, item: &[u8]) -> Option<Treat>
        ensures { result ≡ listed (kept_lists self.now) item.now }
    {
        if is_among(&self.complete, item) {
            Some(Treat::Complete)
        } else if is_among(&self.preview, item) {
            Some(Treat::Preview)
        } else if is_among(&self.ignore, item) {
            Some(Treat::Ignore)
        } else {
            None
        }
    }

    /// How the service wants a message whose path has this extension, or no extension.
    pub(crate) fn treat(&self, extension: Option<&[u8]>) -> Treat
        ensures { result ≡ treat_of (kept_lists self.now) (option_copied extension.entry) }
    {
        let named = match extension {
            Some(item) => self.listed(item),
            None => None,
        };
        match named {
            Some(treat) => treat,
            None => self.listed(b"*").unwrap_or(Treat::Complete),
        }
    }
}

/// Whether the item is one of these, ignoring ASCII case.
fn is_among(items: &[Vec<u8>], item: &[u8]) -> bool
    ensures { result ≡ is_among (map vec_bytes items.now) item.now }
{
    for found in items {
        if same_ascii(found, item) {
            return true;
        }
    }
    false
}
