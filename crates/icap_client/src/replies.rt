//! Which response an ICAP head is.

ghost use Rattle.std.specs.Prelude.{◌≡◌, ◌↔◌, IfOk, IfErr, IsTrue};
ghost use Rattle.icap_head.specs.Heads.{response_parts};
ghost use Rattle.trace_core.specs.History.{shows};
ghost use Rattle.icap_client.specs.Replies.{HasNothing, lists_of};
ghost use Rattle.icap_client.specs.Refused.{SpellsReply, SpellsNoReply, MayReply};

use crate::lists::{adapted_layout, has_nothing};
use adapt_sides::ClientFault;
use encapsulated::Layout;
use icap_head::IcapResponse;
use trace_core::{Event, Point, State};

/// A response, as its ICAP head says it.
#[derive(Clone, Copy)]
pub(crate) enum Reply {
    /// 100
    Continue,
    /// 204
    NoMod,
    /// 200, with this layout.
    Mod(Layout),
}

/// The response that has this head.
pub(crate) fn reply_of(value: &IcapResponse, point: Point) -> Result<Reply, ClientFault>
    ensures ok { IfOk result (SpellsReply point (response_parts value.now)) }
    ensures err { IfErr result (λ fault. SpellsNoReply fault point (response_parts value.now)) }
{
    match value.status {
        100 => bare(value, point, Reply::Continue),
        204 => bare(value, point, Reply::NoMod),
        200 => match adapted_layout(&value.fields, point) {
            Some(layout) => Ok(Reply::Mod(layout)),
            None => Err(ClientFault::Layout),
        },
        _ => Err(ClientFault::Status),
    }
}

/// The response, if its head encapsulates nothing.
fn bare(value: &IcapResponse, point: Point, reply: Reply) -> Result<Reply, ClientFault>
    ensures ok { IfOk result (λ found. (found ≡ reply) × HasNothing point (lists_of (response_parts value.now))) }
    ensures err { IfErr result (λ fault. (fault ≡ ClientFault.Layout) × (HasNothing point (lists_of (response_parts value.now)) → ⊥)) }
{
    if has_nothing(&value.fields, point) {
        Ok(reply)
    } else {
        Err(ClientFault::Layout)
    }
}

/// Whether the response may come now: a second 100 may not, nor a 204 without `Allow: 204` outside a preview or after its
/// 100 (RFC 3507, section 4.6). A 200 is judged where its other head is read.
pub(crate) fn may_reply(state: &State, reply: Reply) -> bool
    ensures { IsTrue result ↔ MayReply (shows state.now) reply }
{
    match reply {
        Reply::Continue => state.may(Event::Continue),
        Reply::NoMod => state.may(Event::NoMod),
        Reply::Mod(_) => true,
    }
}
