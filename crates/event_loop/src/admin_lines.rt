//! The lines of the admin port.

ghost use Rattle.std.specs.Prelude.{◌↔◌, ℕ, IsTrue, IfSome, IfNone};
ghost use Rattle.event_loop.specs.Requests.{Asks, AsksAbout, AsksForScript, AsksNothing, BeginsWithMethod, IsHttp, SpellsSize};
ghost use Rattle.exchange_report.specs.declared.exchange_id.ExchangeId.{ExchangeId as AnyId};

use adapt_bytes::{front, read_decimal, same_ascii};
use exchange_report::{ExchangeId, read_id};
use span_bank::MAX_CAPACITY;

/// The most bytes of a line, its LF aside.
pub const MAX_ADMIN_LINE: usize = 256;

/// What is asked about exchanges that aren't over.
#[derive(Clone, Copy, Debug)]
pub enum Question {
    /// `exchanges`: which there are.
    Exchanges,
    /// `exchanges waiting`: in which of them nothing has moved for a second or longer.
    Waiting,
    /// `trace T-K-N`: the script of this one's transaction.
    Trace(ExchangeId),
}

/// What the administrator asks for.
#[derive(Clone, Copy, Debug)]
pub enum Request {
    /// `book`: the usage totals of the buffer budget.
    Book,
    /// `capacity N`: another size of the buffer budget, 1 to [`MAX_CAPACITY`] bytes.
    Capacity(u64),
    /// `drain`: no new user is taken, exchanges are the last ones on their connections, and the program ends once all users
    /// have gone.
    Drain,
    /// `stats`: the counters.
    Stats,
    /// `reopen`: the log's file is opened anew.
    Reopen,
    /// `refresh`: the services are asked for their options again.
    Refresh,
    /// `reload`: the configuration and its files are read again.
    Reload,
    /// `stop`: every transaction fails, and the program ends.
    Stop,
    /// `exchanges`, `exchanges waiting` or `trace T-K-N`: each thread is asked this about its exchanges.
    Show(Question),
    /// Any other line.
    Bad,
}

/// The size that the text after `capacity ` gives.
fn read_size(digits: &[u8]) -> Option<u64>
    ensures found { IfSome result (SpellsSize digits.now) }
    ensures none { IfNone result ((n : ℕ) → SpellsSize digits.now n → ⊥) }
{
    match read_decimal(digits) {
        Some(n) if 1 <= n && n <= MAX_CAPACITY => Some(n),
        _ => None,
    }
}

/// Of which exchange a line asks for the script. `None` where it asks for something else.
fn read_script(line: &[u8]) -> Option<ExchangeId>
    ensures found { IfSome result (AsksForScript line.now) }
    ensures none { IfNone result ((id : AnyId) → AsksForScript line.now id → ⊥) }
{
    let Some(text) = line.strip_prefix(b"trace ") else {
        return None;
    };
    read_id(text)
}

/// What a line asks about exchanges that aren't over. `None` where it asks for something else.
fn read_question(line: &[u8]) -> Option<Question>
    ensures found { IfSome result (AsksAbout line.now) }
    ensures none { IfNone result (AsksNothing line.now) }
{
    if line == b"exchanges".as_slice() {
        return Some(Question::Exchanges);
    }
    if line == b"exchanges waiting".as_slice() {
        return Some(Question::Waiting);
    }
    match read_script(line) {
        Some(id) => Some(Question::Trace(id)),
        None => None,
    }
}

/// What a line asks for.
pub fn read_request(line: &[u8]) -> Request
    ensures { Asks line.now result }
{
    if let Some(question) = read_question(line) {
        return Request::Show(question);
    }
    if line == b"book".as_slice() {
        return Request::Book;
    }
    if line == b"drain".as_slice() {
        return Request::Drain;
    }
    if line == b"stats".as_slice() {
        return Request::Stats;
    }
    if line == b"reopen".as_slice() {
        return Request::Reopen;
    }
    if line == b"refresh".as_slice() {
        return Request::Refresh;
    }
    if line == b"reload".as_slice() {
        return Request::Reload;
    }
    if line == b"stop".as_slice() {
        return Request::Stop;
    }
    let Some(digits) = line.strip_prefix(b"capacity ") else {
        return Request::Bad;
    };
    match read_size(digits) {
        Some(n) => Request::Capacity(n),
        None => Request::Bad,
    }
}

/// The field that each request of HTTP/1.1 has, with its colon (RFC 9110, section 7.2).
const HOST_FIELD: &[u8] = b"host:";

/// Whether a method and a space stand first.
fn begins_with_method(line: &[u8]) -> bool
    ensures { IsTrue result ↔ BeginsWithMethod line.now }
{
    for (at, byte) in line.iter().enumerate() {
        if *byte == b' ' {
            return at > 0;
        }
        if !byte.is_ascii_uppercase() && *byte != b'-' {
            return false;
        }
    }
    false
}

/// Whether a line is one of HTTP: a browser that was led here says it, and what it says after that isn't the
/// administrator's.
pub fn is_http(line: &[u8]) -> bool
    ensures { IsTrue result ↔ IsHttp line.now }
{
    begins_with_method(line) || same_ascii(front(line, HOST_FIELD.len()), HOST_FIELD)
}
