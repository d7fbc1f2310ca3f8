//! Where each part of an encapsulated message begins.
ghost use Rattle.std.specs.Prelude.{◌≡◌, ◌↔◌, IsTrue};
ghost use Rattle.encapsulated.specs.Layouts.{IsWritableLayout, Rises, offsets, parts_of};
ghost use Rattle.encapsulated.specs.Order.{heads_fit};

use crate::parts::BodyPart;

/// The parts of an encapsulated message and their offsets, in bytes after the ICAP head (RFC 3507, section 4.4.1).
///
/// The length of a head is the next offset minus its own; the length of a body follows from its chunks.
///
/// ```
/// let layout = read(Method::Reqmod, Direction::Request, b"req-hdr=0, req-body=147")?;
/// assert_eq!(rt; layout.req_hdr, Some(0));
/// assert_eq!(rt; layout.body, BodyPart::ReqBody);
/// assert_eq!(rt; layout.offset, 147);
/// ```
#[derive(Clone, Copy)]
pub struct Layout {
    /// The head of an HTTP request, where there is one.
    pub req_hdr: Option<u64>,
    /// The head of an HTTP response, where there is one.
    pub res_hdr: Option<u64>,
    /// The kind of body.
    pub body: BodyPart,
    /// The offset of the body; for null-body, the end of the last head.
    pub offset: u64,
}

impl Layout {
    /// Whether some message may have this layout, so that it can be written (RFC 3507, section 4.4.1).
    pub fn is_writable(&self) -> bool
        ensures { IsTrue result ↔ IsWritableLayout self.now }
    {
        self.heads_fit() && self.rises()
    }

    /// Whether some message may have these heads with this body.
    fn heads_fit(&self) -> bool
        ensures { result ≡ heads_fit self.now.body self.now.req_hdr self.now.res_hdr }
    {
        match self.body {
            BodyPart::ReqBody => self.res_hdr.is_none(),
            BodyPart::OptBody => self.req_hdr.is_none() && self.res_hdr.is_none(),
            BodyPart::ResBody | BodyPart::NullBody => true,
        }
    }

    /// Whether the first offset is 0, and none is smaller than the one before.
    pub(crate) fn rises(&self) -> bool
        ensures { IsTrue result ↔ Rises (offsets (parts_of self.now)) }
    {
        match (self.req_hdr, self.res_hdr) {
            (Some(first), Some(second)) => first == 0 && second <= self.offset,
            (Some(first), None) | (None, Some(first)) => first == 0,
            (None, None) => self.offset == 0,
        }
    }
}
