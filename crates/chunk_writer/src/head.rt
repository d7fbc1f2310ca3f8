//! The text before a message's body.

ghost use Rattle.std.specs.Prelude.{◌≡◌};
ghost use Rattle.chunk_writer.specs.Writer.{text_of, room_of, HoldsNoMore};

/// The text before a message's body: memory of its own, or a constant.
#[derive(Drop)]
pub(crate) enum HeadText {
    Owned(Vec<u8>),
    Constant(&'static [u8]),
}

impl HeadText {
    /// This text. An empty one gives back its memory.
    pub(crate) fn of(text: Vec<u8>) -> HeadText
        ensures text { text_of result ≡ text.items }
        ensures room { HoldsNoMore result }
    {
        if text.is_empty() {
            HeadText::Constant(b"")
        } else {
            HeadText::Owned(text)
        }
    }

    /// The memory that it holds, in bytes.
    pub(crate) fn room(&self) -> usize
        ensures { result ≡ room_of self.now }
    {
        match self {
            HeadText::Owned(text) => text.capacity(),
            HeadText::Constant(_) => 0,
        }
    }

    /// Its bytes.
    pub(crate) fn as_slice(&self) -> &[u8]
        ensures { result.now ≡ text_of self.now }
    {
        match self {
            HeadText::Owned(text) => text.as_slice(),
            HeadText::Constant(text) => text,
        }
    }
}
