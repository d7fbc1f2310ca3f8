//! What a user's request asks of the proxy beside its message (RFC 9110, sections 9.3.2 and 10.1.1).

ghost use Rattle.std.specs.Prelude.{◌≡◌, codes, bytes_eq};
ghost use Rattle.proxy_rules.specs.Users.{is_head_request, has_body_to_read, expects_continue, awaits_continue};

use adapt_bytes::has_item;
use http_side::{Fields, Framing, HttpRequest};

/// Whether the method is HEAD: its response has no body, whatever its fields say.
pub fn is_head_request(user: &HttpRequest) -> bool
    ensures { result ≡ is_head_request user.now }
{
    user.method() == b"HEAD".as_slice()
}

/// Whether an Expect field names `100-continue`, ASCII case ignored.
fn expects_continue(fields: &Fields<'_>) -> bool
    ensures { result ≡ expects_continue fields.now }
{
    for at in 0..fields.len() {
        if fields.is_named(at, b"expect") && has_item(fields.value(at), b"100-continue") {
            return true;
        }
    }
    false
}

/// Whether the user waits for an interim response before it sends its body: it is a user of HTTP/1.1 that says so, and it
/// has a body.
pub fn awaits_continue(user: &HttpRequest) -> bool
    ensures { result ≡ awaits_continue user.now }
{
    user.minor() == 1
        && (!matches!(user.framing(), Framing::None | Framing::Length(0))
            && expects_continue(&user.fields()))
}

/// The interim response that lets a user send its body. It is no part of any message.
pub fn interim_continue() -> &'static [u8]
    ensures { result.now ≡ codes "HTTP/1.1 100 Continue\r\n\r\n" }
{
    b"HTTP/1.1 100 Continue\r\n\r\n"
}
