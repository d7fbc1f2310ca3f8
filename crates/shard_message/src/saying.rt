//! What the proxy itself says to a user that has a seat: a refusal, or that it is to send its body.

ghost use Rattle.std.specs.Prelude.{◌≡◌, IsTrue, is_some, option_map, true};
ghost use Rattle.http_side.specs.Refusals.{is_own_status};
ghost use Rattle.shard_exchange.specs.Hand.{refused_of};
ghost use Rattle.shard_exchange.specs.Saying.{LaysPage, SaysOn, past_of, refusal_by};

use crate::outside::Outside;
use adapt_sides::{Said, say};
use http_side::own_refusal;
use wire_kit::Wire;

/// Says a text to a user, of which so many bytes are out: one write at most, of what is left of it; that is counted. A user whose
/// connection has failed is gone, and no other.
pub fn say_to<W: Wire + Drop>(user: &mut Option<W>, text: &[u8], out: &mut usize) -> Said
    ensures says { SaysOn (past_of W.past user.old) (past_of W.past user.new) text.now out.old out.new result }
    ensures kept { (result ≡ Said.Broken → ⊥) → is_some user.new ≡ true }
    ensures none { is_some user.new ≡ true → is_some user.old ≡ true }
{
    let Some(wire) = user else {
        return Said::Broken;
    };
    match say(wire, text, *out) {
        Said::Whole => {
            *out = text.len();
            Said::Whole
        }
        Said::Part(count) => {
            *out = count;
            Said::Part(count)
        }
        Said::Nothing => Said::Nothing,
        Said::Broken => {
            *user = None;
            Said::Broken
        }
    }
}

/// Lays the refusal of this status that has a page, where refusals of it have one: before any byte of a refusal is out.
pub fn lay_page<P, O: Outside<P>>(
    at: &P,
    out: &mut O,
    status: u16,
    said: usize,
    page: &mut Option<Vec<u8>>,
)
    requires { IsTrue (is_own_status status) }
    ensures { LaysPage (O.has_page out.old at.now status) status (refused_of (option_map (λ text. text.items) page.old) said)
        (option_map (λ text. text.items) page.new) }
{
    if said == 0 && page.is_none() {
        *page = out.refusal_page(at, status);
    }
}

/// The refusal of this status: the one with a page, where it was laid.
pub fn refusal_by(status: u16, page: &Option<Vec<u8>>) -> &[u8]
    requires { IsTrue (is_own_status status) }
    ensures { result.now ≡ refusal_by status (option_map (λ text. text.items) page.now) }
{
    match page {
        Some(text) => text.as_slice(),
        None => own_refusal(status),
    }
}
