//! The parts that a list has named so far.
ghost use Rattle.std.specs.Prelude.{◌≡◌, ℕ, ◌++◌, List, [], ◌∷◌, IsTrue, false, IfSome, IfNone};
ghost use Rattle.encapsulated.specs.Rows.{lists_of};
ghost use Rattle.encapsulated.specs.Layouts.{names, parts_of};
ghost use Rattle.encapsulated.specs.Order.{seen_parts, ascends, HasSeen, any_front, has_body, heads_of};

use crate::offsets::Layout;
use crate::parts::{BodyPart, Part};

/// The parts that a list has named so far, while they are in order.
#[derive(Clone, Copy, PartialEq, Eq)]
pub(crate) struct Seen {
    req_hdr: Option<u64>,
    res_hdr: Option<u64>,
    body: Option<(BodyPart, u64)>,
}

/// A row of the RFC's table, or that of OPTIONS requests, for which the table has none: heads, each of which may be missing,
/// and a body, which may be null-body.
#[derive(Clone, Copy)]
pub(crate) struct Row {
    pub(crate) req_hdr: bool,
    pub(crate) res_hdr: bool,
    pub(crate) body: BodyPart,
}

impl Seen {
    pub(crate) const NONE: Seen = Seen {
        req_hdr: None,
        res_hdr: None,
        body: None,
    };

    /// These parts and one more, if that part may still come.
    fn with_part(self, part: Part, offset: u64) -> Option<Seen>
        ensures some { IfSome result (λ new. seen_parts new ≡ seen_parts self ++ (part, offset) ∷ []) }
        ensures none { IfNone result ((more : List Part)
            → IsTrue (ascends (names (seen_parts self) ++ part ∷ more)) → ⊥) }
    {
        let may_come = self.body.is_none()
            && match part {
                Part::ReqHdr => self.req_hdr.is_none() && self.res_hdr.is_none(),
                Part::ResHdr => self.res_hdr.is_none(),
                Part::Body(_) => true,
            };
        if !may_come {
            return None;
        }
        match part {
            Part::ReqHdr => Some(Seen {
                req_hdr: Some(offset),
                ..self
            }),
            Part::ResHdr => Some(Seen {
                res_hdr: Some(offset),
                ..self
            }),
            Part::Body(body) => Some(Seen {
                body: Some((body, offset)),
                ..self
            }),
        }
    }

    /// Whether these are the first parts of a list of this row.
    pub(crate) fn is_front_of(self, row: Row) -> bool
        ensures { result ≡ any_front (lists_of (heads_of row) row.body) (names (seen_parts self)) }
    {
        let body = match self.body {
            None | Some((BodyPart::NullBody, _)) => true,
            Some((body, _)) => body == row.body,
        };
        body && (row.req_hdr || self.req_hdr.is_none()) && (row.res_hdr || self.res_hdr.is_none())
    }

    /// The layout, where the body part is there.
    pub(crate) fn whole(self) -> Option<Layout>
        ensures some { IfSome result (λ layout. parts_of layout ≡ seen_parts self) }
        ensures none { IfNone result (has_body (names (seen_parts self)) ≡ false) }
    {
        let (body, offset) = self.body?;
        Some(Layout {
            req_hdr: self.req_hdr,
            res_hdr: self.res_hdr,
            body,
            offset,
        })
    }
}

/// With one more part, where the parts are in order so far.
pub(crate) fn add_part(seen: Option<Seen>, part: Part, offset: u64) -> Option<Seen>
    ensures { (parts : List (Part × ℕ)) → HasSeen seen parts
        → HasSeen result (parts ++ (part, offset) ∷ []) }
{
    seen?.with_part(part, offset)
}
