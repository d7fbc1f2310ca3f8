//! The parts of an encapsulated message, and their names in a list.
ghost use Rattle.std.specs.Prelude.{◌≡◌, IfSome, IfNone};
ghost use Rattle.adapt_bytes.specs.Text.{SameAscii};
ghost use Rattle.encapsulated.specs.Grammar.{name_of};

use adapt_bytes::same_ascii;

/// The kind of body that a message carries, or `null-body` (RFC 3507, section 4.4.1).
#[derive(Clone, Copy, Debug, PartialEq, Eq)]
pub enum BodyPart {
    /// `req-body`: the body of an HTTP request.
    ReqBody,
    /// `res-body`: the body of an HTTP response.
    ResBody,
    /// `opt-body`: the body of an OPTIONS response.
    OptBody,
    /// `null-body`: no body.
    NullBody,
}

/// A part that a list names (RFC 3507, section 4.4.1).
#[derive(Clone, Copy)]
pub enum Part {
    /// `req-hdr`: the head of an HTTP request.
    ReqHdr,
    /// `res-hdr`: the head of an HTTP response.
    ResHdr,
    /// The body, or that there is none.
    Body(BodyPart),
}

impl Part {
    /// The name in lower case, as it is written.
    pub fn name(self) -> &'static [u8]
        ensures { result.now ≡ name_of self }
    {
        match self {
            Part::ReqHdr => b"req-hdr",
            Part::ResHdr => b"res-hdr",
            Part::Body(BodyPart::ReqBody) => b"req-body",
            Part::Body(BodyPart::ResBody) => b"res-body",
            Part::Body(BodyPart::OptBody) => b"opt-body",
            Part::Body(BodyPart::NullBody) => b"null-body",
        }
    }
}

/// The part of this name, ignoring ASCII case.
pub(crate) fn part_named(name: &[u8]) -> Option<Part>
    ensures some { IfSome result (λ part. SameAscii name.now (name_of part)) }
    ensures none { IfNone result ((part : Part) → SameAscii name.now (name_of part) → ⊥) }
{
    let parts = [
        Part::ReqHdr,
        Part::ResHdr,
        Part::Body(BodyPart::ReqBody),
        Part::Body(BodyPart::ResBody),
        Part::Body(BodyPart::OptBody),
        Part::Body(BodyPart::NullBody),
    ];
    for part in parts {
        if same_ascii(name, part.name()) {
            return Some(part);
        }
    }
    None
}
