//! Requests for the counters over HTTP (RFC 9112, section 3).

ghost use Rattle.std.specs.Prelude.{◌↔◌, IsTrue};
ghost use Rattle.event_loop.specs.Requests.{Deserves, IsOfCounters, IsQuery};

use httparse::Status;
use httparse::spans::{EMPTY_HEADER_SPAN, parse_request};

/// A head that isn't whole once so many bytes of it have come is refused.
pub const MAX_SCRAPE: usize = 8_192;

/// The most fields of it.
const FIELDS: usize = 64;

/// What a text that came over HTTP asks for.
#[derive(Clone, Copy)]
pub enum Scrape {
    /// It is the beginning of a head.
    Unfinished,
    /// The counters.
    Counters,
    /// Something else than the counters.
    NotFound,
    /// Something else to be done with them than to read them.
    NotAllowed,
    /// Nothing: it is no head of a request, or one with too many bytes or fields.
    Bad,
}

/// Where the counters are.
const TARGET: &[u8] = b"/metrics";

/// Whether a query stands here, or nothing.
fn is_query(text: &[u8]) -> bool
    ensures { IsTrue result ↔ IsQuery text.now }
{
    match text.first() {
        Some(byte) => *byte == b'?',
        None => true,
    }
}

/// Whether a target is that of the counters, with a query or without one.
fn is_target(target: &[u8]) -> bool
    ensures { IsTrue result ↔ IsOfCounters target.now }
{
    match target.strip_prefix(TARGET) {
        Some(rest) => is_query(rest),
        None => false,
    }
}

/// What a request of this method for this target asks for.
fn asked(method: &[u8], target: &[u8]) -> Scrape
    ensures { Deserves method.now target.now result }
{
    if !is_target(target) {
        Scrape::NotFound
    } else if method == b"GET".as_slice() {
        Scrape::Counters
    } else {
        Scrape::NotAllowed
    }
}

/// What a text asks for.
pub fn read_scrape(text: &[u8]) -> Scrape {
    let mut fields = [EMPTY_HEADER_SPAN; FIELDS];
    match parse_request(text, &mut fields) {
        Ok(Status::Complete(head)) => asked(head.method.of(text), head.path.of(text)),
        Ok(Status::Partial) if text.len() < MAX_SCRAPE => Scrape::Unfinished,
        _ => Scrape::Bad,
    }
}

impl Scrape {
    /// The whole answer where it isn't the counters.
    pub fn refusal(self) -> &'static [u8] {
        match self {
            Scrape::NotFound => {
                b"HTTP/1.1 404 Not Found\r\nContent-Length: 0\r\nConnection: close\r\n\r\n"
            }
            Scrape::NotAllowed => {
                b"HTTP/1.1 405 Method Not Allowed\r\nAllow: GET\r\nContent-Length: 0\r\nConnection: close\r\n\r\n"
            }
            _ => b"HTTP/1.1 400 Bad Request\r\nContent-Length: 0\r\nConnection: close\r\n\r\n",
        }
    }
}

/// What stands before the length of the counters in their answer.
pub const COUNTERS: &[u8] =
    b"HTTP/1.1 200 OK\r\nContent-Type: application/openmetrics-text; version=1.0.0; charset=utf-8\r\nConnection: close\r\nContent-Length: ";
