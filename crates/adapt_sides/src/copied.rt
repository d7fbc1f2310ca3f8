//! How far a body was read into a buffer.

ghost use Rattle.std.specs.Prelude.{◌≡◌};

/// What was read of a body.
#[derive(Clone, Copy)]
pub struct Copied {
    /// How many bytes were read.
    pub used: usize,
    /// How many bytes of the body stand at the beginning of the buffer.
    pub count: usize,
    /// Whether the body has ended.
    pub ended: bool,
}

impl Copied {
    /// Of what was read: the bytes that were used, those of the body that stand in the buffer, and whether it has ended.
    pub fn new(used: usize, count: usize, ended: bool) -> Copied
        ensures { result ≡ record { used = used; count = count; ended = ended } }
    {
        Copied { used, count, ended }
    }
}
