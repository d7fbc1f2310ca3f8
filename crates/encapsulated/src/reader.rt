//! Lists are read in two passes: the items first, then the parts that they name.
ghost use Rattle.std.specs.Prelude.{◌≡◌, ◌↔◌, IfOk, IfErr};
ghost use Rattle.encapsulated.specs.Grammar.{AreParts};
ghost use Rattle.encapsulated.specs.Rows.{allowed};
ghost use Rattle.encapsulated.specs.Layouts.{IsLayout, names};
ghost use Rattle.encapsulated.specs.Faults.{RefusesList};
ghost use Rattle.encapsulated.specs.Order.{seen_parts, Unread, any_front};

use crate::fault::EncFault;
use crate::items::{are_items, read_part};
use crate::message::Direction;
use crate::offsets::Layout;
use crate::parts::BodyPart;
use crate::seen::{Row, Seen, add_part};
use adapt_bytes::{Method, comma_parts};

/// Reads the value of an Encapsulated field of this kind of message (RFC 3507, section 4.4.1).
///
/// Names are compared ignoring ASCII case. Spaces and tabs may surround each item, and offsets may
/// have leading zeros. An OPTIONS request, for which the RFC has no row, may have only null-body.
/// The fault is the first that applies, in the order of [`EncFault`].
pub fn read(method: Method, direction: Direction, list: &[u8]) -> Result<Layout, EncFault>
    // A layout is answered exactly where the list is that layout.
    ensures ok { (layout : Layout) → (result ≡ Ok layout) ↔ IsLayout method direction list.now layout }

    // A fault is answered exactly where it stands.
    ensures err { (fault : EncFault) → (result ≡ Err fault) ↔ RefusesList fault method direction list.now }
{
    find_layout(method, direction, list)
}

/// The layout, or the first fault that stands.
fn find_layout(method: Method, direction: Direction, list: &[u8]) -> Result<Layout, EncFault>
    ensures ok { IfOk result (IsLayout method direction list.now) }
    ensures err { IfErr result (λ fault. RefusesList fault method direction list.now) }
{
    let seen = read_parts(list)?;
    if !is_allowed_front(method, direction, seen) {
        return Err(EncFault::Order);
    }
    let Some(layout) = seen.whole() else {
        return Err(EncFault::NoBodyPart);
    };
    if layout.rises() {
        Ok(layout)
    } else {
        Err(EncFault::Offset)
    }
}

/// The parts that a list names, where they are in the order that all lists have.
fn read_parts(list: &[u8]) -> Result<Seen, EncFault>
    ensures ok { IfOk result (λ seen. AreParts list.now (seen_parts seen)) }
    ensures err { IfErr result (λ fault. Unread fault list.now) }
{
    if !are_items(list) {
        return Err(EncFault::Syntax);
    }
    let mut seen = Some(Seen::NONE);
    for item in comma_parts(list) {
        let Some((part, offset)) = read_part(item) else {
            return Err(EncFault::Name);
        };
        // Parts out of order are no fault yet, since a later name may be unknown.
        seen = add_part(seen, part, offset);
    }
    seen.ok_or(EncFault::Order)
}

/// `[req-hdr] req-body`
const REQUEST: Row = Row {
    req_hdr: true,
    res_hdr: false,
    body: BodyPart::ReqBody,
};

/// `[res-hdr] res-body`
const RESPONSE: Row = Row {
    req_hdr: false,
    res_hdr: true,
    body: BodyPart::ResBody,
};

/// `[req-hdr] [res-hdr] res-body`
const EXCHANGE: Row = Row {
    req_hdr: true,
    res_hdr: true,
    body: BodyPart::ResBody,
};

/// `opt-body`
const OPTIONS: Row = Row {
    req_hdr: false,
    res_hdr: false,
    body: BodyPart::OptBody,
};

/// `null-body`
const NOTHING: Row = Row {
    req_hdr: false,
    res_hdr: false,
    body: BodyPart::NullBody,
};

/// Whether a list that this message may have begins with these parts.
fn is_allowed_front(method: Method, direction: Direction, seen: Seen) -> bool
    ensures { result ≡ any_front (allowed method direction) (names (seen_parts seen)) }
{
    match (method, direction) {
        (Method::Reqmod, Direction::Request) => seen.is_front_of(REQUEST),
        (Method::Reqmod, Direction::Response) => seen.is_front_of(REQUEST)
            || seen.is_front_of(RESPONSE),
        (Method::Respmod, Direction::Request) => seen.is_front_of(EXCHANGE),
        (Method::Respmod, Direction::Response) => seen.is_front_of(RESPONSE),
        (Method::Options, Direction::Request) => seen.is_front_of(NOTHING),
        (Method::Options, Direction::Response) => seen.is_front_of(OPTIONS),
    }
}
