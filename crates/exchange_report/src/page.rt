//! The proxy's own error responses that have a page. It tells the user what the log's line says too: the word of the reason, and a number.
//!
//! Those without a page are the texts of `own_refusal`. A page changes neither the status nor that the connection closes.

ghost use Rattle.std.specs.Prelude.{◌≡◌, ◌++◌, ◌<◌, IsTrue, IfOk, OnOk, codes, length, option_copied};
ghost use Rattle.adapt_bytes.specs.Numeral.{numeral};
ghost use Rattle.http_side.specs.Refusals.{is_own_status, status_text};
ghost use Rattle.exchange_report.specs.Pages.{gap, filled, page_head, page_refusal};

use crate::why::Why;
use crate::words::write_number;
use adapt_bytes::{Small, behind, put_decimal};
use std::alloc::{AllocError, Global};

/// What goes in where two bytes of a page stand.
fn gap<'a>(first: u8, second: u8, word: &'a [u8], number: &'a [u8]) -> Option<&'a [u8]>
    ensures { option_copied result ≡ gap word.now number.now first second }
{
    if first != b'%' {
        None
    } else if second == b'w' {
        Some(word)
    } else if second == b'i' {
        Some(number)
    } else {
        None
    }
}

/// Adds what a page begins with: what goes in there, or its first byte. Answers the rest of the page.
fn write_first<'p>(
    out: &mut Vec<u8>,
    page: &'p [u8],
    word: &[u8],
    number: &[u8],
) -> Result<&'p [u8], AllocError>
    requires { 0 < length page.now }
    ensures written { IfOk result (λ rest. out.new.items ++ filled word.now number.now rest.now ≡ out.old.items ++ filled word.now number.now page.now) }
    ensures shorter { IfOk result (λ rest. length rest.now < length page.now) }
{
    match page {
        [first, second, rest @ ..] => match gap(*first, *second, word, number) {
            Some(text) => {
                out.extend_from_slice(text)?;
                Ok(rest)
            }
            None => {
                out.extend_from_slice(&[*first])?;
                Ok(behind(page, 1))
            }
        },
        last => {
            out.extend_from_slice(last)?;
            Ok(b"")
        }
    }
}

/// Adds a page with its gaps filled.
fn write_filled(
    out: &mut Vec<u8>,
    page: &[u8],
    word: &[u8],
    number: &[u8],
) -> Result<(), AllocError>
    ensures { OnOk result (out.new.items ≡ out.old.items ++ filled word.now number.now page.now) }
{
    let mut rest = page;
    while let [_, ..] = rest {
        rest = write_first(out, rest, word, number)?;
    }
    Ok(())
}

/// The beginning of a head, up to the number of the page's bytes.
fn page_line(status: u16) -> &'static [u8]
    ensures { result.now ≡ codes "HTTP/1.1 " ++ status_text status ++ codes "\r\nContent-Type: text/html\r\nContent-Length: " }
{
    match status {
        400 => b"HTTP/1.1 400 Bad Request\r\nContent-Type: text/html\r\nContent-Length: ",
        501 => b"HTTP/1.1 501 Not Implemented\r\nContent-Type: text/html\r\nContent-Length: ",
        502 => b"HTTP/1.1 502 Bad Gateway\r\nContent-Type: text/html\r\nContent-Length: ",
        503 => b"HTTP/1.1 503 Service Unavailable\r\nContent-Type: text/html\r\nContent-Length: ",
        _ => b"HTTP/1.1 504 Gateway Timeout\r\nContent-Type: text/html\r\nContent-Length: ",
    }
}

/// Adds the head of a response whose page has so many bytes.
#[tactic(auto, unfolding(crate::specs::Pages::page_head))]
fn write_page_head(out: &mut Vec<u8>, status: u16, bytes: u64) -> Result<(), AllocError>
    ensures { OnOk result (out.new.items ≡ out.old.items ++ page_head status bytes) }
{
    out.extend_from_slice(page_line(status))?;
    write_number(out, bytes)?;
    out.extend_from_slice(b"\r\nConnection: close\r\n\r\n")
}

/// The page with its gaps filled.
fn filled_page(alloc: Global, page: &[u8], word: &[u8], number: u64) -> Result<Vec<u8>, AllocError>
    ensures { IfOk result (λ body. body.items ≡ filled word.now (numeral 10 number) page.now) }
{
    let mut digits = Small::new();
    put_decimal(number, &mut digits);
    let mut body = Vec::with_capacity(alloc, page.len())?;
    write_filled(&mut body, page, word, digits.as_slice())?;
    Ok(body)
}

/// The proxy's own complete response of this status with a page, after which the connection closes. In the page each `%w` is replaced by the
/// word of the reason, and each `%i` by the number. To a HEAD request the head goes alone. The status is one of those that
/// [`http_side::own_refusal`] has a text for. `Err` where no memory was found.
///
/// ```
/// let page = b"<p>%w, number %i</p>";
/// let why = Why::Failed(Reason::NoSeat);
/// let text = page_refusal(alloc, 503, page, why, 640, false)?;
/// // Its body is `<p>no-seat, number 640</p>`.
/// ```
pub fn page_refusal(
    alloc: Global,
    status: u16,
    page: &[u8],
    why: Why,
    number: u64,
    to_head: bool,
) -> Result<Vec<u8>, AllocError>
    requires { IsTrue (is_own_status status) }
    ensures { IfOk result (λ text. text.items ≡ page_refusal status page.now why number to_head) }
{
    let body = filled_page(alloc, page, why.word(), number)?;
    let mut text = Vec::new(alloc);
    write_page_head(&mut text, status, body.len() as u64)?;
    if to_head {
        return Ok(text);
    }
    text.extend_from_slice(body.as_slice())?;
    Ok(text)
}
