//! Writing a list, with a comma and a space between items.
ghost use Rattle.std.specs.Prelude.{◌≡◌, ◌++◌, ◌^◌, ◌<◌, IfOk, OnOk, IfSome};
ghost use Rattle.encapsulated.specs.declared.message.Direction.{Direction};
ghost use Rattle.adapt_bytes.specs.declared.method.Method.{Method};
ghost use Rattle.encapsulated.specs.Layouts.{MayHave, IsLayout, IsWritableLayout, written, item_text};
ghost use Rattle.encapsulated.specs.Order.{head_text};

use crate::NoMemory;
use crate::offsets::Layout;
use crate::parts::Part;
use adapt_bytes::{Small, put_decimal};
use std::alloc::Global;

/// The text of a list: `name=offset` for each part, in lower case and without leading zeros, joined by
/// a comma and a space (RFC 3507, section 4.4.1). The layout must be one that some message may have, as
/// [`Layout::is_writable`] tests.
///
/// [`NoMemory`] if the text finds no memory.
pub fn write(alloc: Global, layout: &Layout) -> Result<Vec<u8>, NoMemory>
    requires { IsWritableLayout layout.now }
    ensures text { IfOk result (λ text. text.items ≡ written layout.now) }

    // It is read again as this layout, in each message that may have it.
    ensures again { IfOk result (λ text. (method : Method) (direction : Direction)
        → MayHave method direction layout.now → IsLayout method direction text.items layout.now) }

    // No message has another layout by this text.
    ensures only { IfOk result (λ text. (method : Method) (direction : Direction) (other : Layout)
        → IsLayout method direction text.items other → other ≡ layout.now) }
{
    let mut out = Vec::new(alloc);
    put_head(&mut out, Part::ReqHdr, layout.req_hdr)?;
    put_head(&mut out, Part::ResHdr, layout.res_hdr)?;
    put_item(&mut out, Part::Body(layout.body), layout.offset)?;
    Ok(out)
}

/// Adds a head and what separates it from the next item, where it is there.
fn put_head(out: &mut Vec<u8>, part: Part, offset: Option<u64>) -> Result<(), NoMemory>
    ensures text { OnOk result (out.new.items ≡ out.old.items ++ head_text part offset) }
    ensures fits { IfSome offset (λ n. n < 2 ^ 64) }
{
    if let Some(offset) = offset {
        put_item(out, part, offset)?;
        out.extend_from_slice(b", ")?;
    }
    Ok(())
}

/// Adds an item.
fn put_item(out: &mut Vec<u8>, part: Part, offset: u64) -> Result<(), NoMemory>
    ensures text { OnOk result (out.new.items ≡ out.old.items ++ item_text (part, offset)) }
    ensures fits { offset < 2 ^ 64 }
{
    let mut digits = Small::new();
    put_decimal(offset, &mut digits);
    out.extend_from_slice(part.name())?;
    out.push(b'=')?;
    out.extend_from_slice(&digits)
}
