//! Heads that are cut: up to the byte that decides, more has to come, and from there on the answer stays the same.
use http_side::HttpFault;
use icap_head::HeadFault;
use std::alloc::Global;
use test_rows::{NoMemory, put_line};

/// What a head is read as.
#[derive(Clone, Copy)]
pub enum Grammar {
    IcapRequest,
    IcapResponse,
    HttpRequest { adapted: bool },
    HttpResponse { to_head: bool },
}

/// What is said of a head that is read; a fault has its number.
const READ: u64 = 0;

/// The number of the fault that the head isn't whole yet.
const MORE: u64 = 1;

/// What is said of an ICAP head.
fn icap_answer<T: Drop>(found: Result<T, HeadFault>) -> u64 {
    match found {
        Ok(_) => READ,
        Err(fault) => fault.number(),
    }
}

/// What is said of an HTTP head.
fn http_answer<T: Drop>(found: Result<T, HttpFault>) -> u64 {
    match found {
        Ok(_) => READ,
        Err(fault) => fault.number(),
    }
}

fn answer(alloc: Global, grammar: Grammar, text: &[u8]) -> u64 {
    match grammar {
        Grammar::IcapRequest => icap_answer(icap_head::read_request(alloc, text)),
        Grammar::IcapResponse => icap_answer(icap_head::read_response(alloc, text)),
        Grammar::HttpRequest { adapted } => {
            http_answer(http_side::read_request(alloc, text, adapted))
        }
        Grammar::HttpResponse { to_head } => {
            http_answer(http_side::read_response(alloc, text, to_head))
        }
    }
}

/// Whether a text of this length is cut at this byte: at each one, and of a long one near its end and at some others.
fn is_tried(cut: usize, len: usize) -> bool {
    len <= 1024 || len - cut.min(len) <= 64 || cut % 97 == 0
}

/// Whether each prefix of a text is answered by `More` up to some byte, and so from there on.
fn is_steady(alloc: Global, grammar: Grammar, text: &[u8], last: u64) -> bool {
    let mut is_said = last == MORE;
    for cut in 0..=text.len() {
        if is_tried(cut, text.len()) {
            let found = answer(alloc, grammar, &text[..cut]);
            if found == last {
                is_said = true;
            } else if is_said || found != MORE {
                return false;
            }
        }
    }
    true
}

/// Adds a line if a prefix of the text, or the text with more after it, gets another answer than it should.
pub fn put_cuts(
    alloc: Global,
    grammar: Grammar,
    text: &[u8],
    out: &mut Vec<u8>,
) -> Result<(), NoMemory> {
    let last = answer(alloc, grammar, text);
    let mut longer = text.to_vec(alloc)?;
    if last != MORE {
        longer.extend_from_slice(b"x\r\n\r\n")?;
    }
    if is_steady(alloc, grammar, &longer, last) {
        Ok(())
    } else {
        put_line(out, b"another answer where it is cut")
    }
}
