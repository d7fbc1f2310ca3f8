//! The lengths of heads before they are written: each result is the length, or the largest number if the length exceeds
//! it.
ghost use Rattle.std.specs.Prelude.{◌≡◌, ℕ, ◌+◌, ◌-◌, ◌^◌, ◌<◌, min, All, length, option_copied};
ghost use Rattle.http_side.specs.Forward.{field_line, field_lines, first_line, added_fields, when, request_line, status_line, sent_fields, form_of, size_of};

use crate::fields::Fields;
use crate::targets::is_rooted;
use crate::writing::{Extra, hosted_value, via_value};

fn line_len(name: &[u8], value: &[u8]) -> usize
    ensures { result ≡ size_of (field_line (name.now, value.now)) }
{
    name.len().saturating_add(value.len()).saturating_add(4)
}

pub(crate) fn len_when(on: bool, name: &[u8], value: &[u8]) -> usize
    ensures { result ≡ size_of (field_lines (when on (name.now, value.now))) }
{
    if on { line_len(name, value) } else { 0 }
}

/// The length of the fields at these places.
pub(crate) fn fields_len(fields: &Fields<'_>, places: &[u8], authority: Option<&[u8]>) -> usize
    requires { All (λ at. at < length fields.now) places.now }
    ensures { result ≡ size_of (field_lines (sent_fields fields.now places.now (option_copied authority.entry))) }
{
    let mut len: usize = 0;
    for place in places {
        let at = usize::from(*place);
        let name = fields.name(at);
        let value = hosted_value(name, fields.value(at), authority);
        len = len.saturating_add(line_len(name, value));
    }
    len
}

/// The length of the added fields.
pub(crate) fn added_len(extra: Extra, minor: u8) -> usize
    ensures { result ≡ size_of (field_lines (added_fields extra minor)) }
{
    len_when(extra.empty, b"Content-Length", b"0")
        .saturating_add(len_when(extra.chunked, b"Transfer-Encoding", b"chunked"))
        .saturating_add(len_when(extra.close, b"Connection", b"close"))
        .saturating_add(len_when(extra.via, b"Via", via_value(minor)))
}

pub(crate) fn request_line_len(
    method: &[u8],
    path: &[u8],
    authority: &[u8],
    absolute: bool,
) -> usize
    ensures { result ≡ size_of (first_line (request_line method.now (form_of absolute authority.now path.now))) }
{
    method
        .len()
        .saturating_add(target_len(path, authority, absolute))
        .saturating_add(12)
}

fn target_len(path: &[u8], authority: &[u8], absolute: bool) -> usize
    ensures { result ≡ size_of (form_of absolute authority.now path.now) }
{
    let behind = if is_rooted(path) {
        path.len()
    } else {
        path.len().saturating_add(1)
    };
    if absolute {
        behind.saturating_add(authority.len()).saturating_add(7)
    } else {
        behind
    }
}

pub(crate) fn status_line_len(phrase: &[u8]) -> usize
    ensures { (status : ℕ) → result ≡ size_of (first_line (status_line status phrase.now)) }
{
    phrase.len().saturating_add(15)
}

/// The length of a head of these parts and its empty line.
pub(crate) fn head_len(first: usize, host: usize, fields: usize, added: usize) -> usize
    ensures { (a b c d : ℕ) → first ≡ min a (2 ^ 64 - 1) → host ≡ min b (2 ^ 64 - 1) → fields ≡ min c (2 ^ 64 - 1) → added ≡ min d (2 ^ 64 - 1)
        → result ≡ min (a + b + c + d + 2) (2 ^ 64 - 1) }
{
    first
        .saturating_add(host)
        .saturating_add(fields)
        .saturating_add(added)
        .saturating_add(2)
}
