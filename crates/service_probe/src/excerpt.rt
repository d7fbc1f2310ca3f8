//! The first octets that broke a rule, and their offset.

use crate::finding::{Fault, Finding};
use crate::tap::Tap;
use adapt_bytes::{behind, front, same_ascii};
use icap_head::{HeadFault, read_response};
use std::alloc::{AllocError, Global};

/// The most octets that are shown.
const SHOWN: usize = 40;

/// Where the line begins with which a head is refused: no head begins with what comes up to the end of this line.
fn refused_line(alloc: Global, raw: &[u8]) -> usize {
    let mut start = 0;
    for (at, byte) in raw.iter().enumerate() {
        if *byte != b'\n' {
            continue;
        }
        match read_response(alloc, front(raw, at + 1)) {
            Err(HeadFault::More) => start = at + 1,
            _ => return start,
        }
    }
    start
}

/// The bytes that came last, of which the last `left` weren't framed, from where they broke a rule.
fn from_fault(alloc: Global, last: &[u8], fault: Fault, left: usize) -> &[u8] {
    let raw = behind(last, last.len().saturating_sub(left));
    match fault {
        Fault::Head => behind(raw, refused_line(alloc, raw)),
        // The end of a chunk's bytes was right.
        Fault::Chunk if raw.starts_with(b"\r\n") => behind(raw, 2),
        _ => raw,
    }
}

/// A fault of a reply, of which the last `left` bytes weren't framed.
pub fn find<W>(
    alloc: Global,
    tap: &Tap<W>,
    fault: Fault,
    left: usize,
) -> Result<Finding, AllocError> {
    let octets = from_fault(alloc, tap.last(), fault, left);
    Ok(Finding {
        fault,
        at: tap.given().saturating_sub(octets.len() as u64),
        octets: front(octets, SHOWN).to_vec(alloc)?,
    })
}

/// A fault of the adapted message's head.
pub fn find_head<W>(alloc: Global, tap: &Tap<W>, head: &[u8]) -> Result<Finding, AllocError> {
    let last = tap.last();
    let mut from = last.len();
    for at in 0..last.len() {
        if behind(last, at).starts_with(head) {
            from = at;
            break;
        }
    }
    let left = last.len().saturating_sub(from);
    Ok(Finding {
        fault: Fault::Message,
        at: tap.given().saturating_sub(left as u64),
        octets: front(behind(last, from), SHOWN).to_vec(alloc)?,
    })
}

/// The names of the fields in which an OPTIONS answer broke the rule.
fn names_of(fault: Fault) -> &'static [&'static [u8]] {
    match fault {
        Fault::NoMethods => &[b"Methods"],
        Fault::NoTag => &[b"ISTag"],
        Fault::Number => &[b"Preview", b"Max-Connections", b"Options-TTL"],
        Fault::Encapsulated => &[b"Encapsulated"],
        _ => &[],
    }
}

/// Whether a line is a field that may have broken the rule: it has one of these names; and where it should be a number, it is none, or 0.
fn may_break(line: &[u8], fault: Fault) -> bool {
    let Some(colon) = line.iter().position(|byte| *byte == b':') else {
        return false;
    };
    let name = front(line, colon);
    let value = behind(line, colon + 1).trim_ascii();
    let is_good = match fault {
        Fault::Number => {
            value.iter().all(|byte| byte.is_ascii_digit())
                && value != b"0".as_slice()
                && !value.is_empty()
        }
        _ => false,
    };
    !is_good
        && names_of(fault)
            .iter()
            .any(|wanted| same_ascii(wanted, name))
}

/// A fault of an OPTIONS answer, by the head that came: at the line that broke the rule, or, where none did, at the status line.
pub fn find_in_options<W>(
    alloc: Global,
    tap: &Tap<W>,
    fault: Fault,
) -> Result<Finding, AllocError> {
    let head = tap.last();
    let mut start = 0;
    let mut from = 0;
    for (at, byte) in head.iter().enumerate() {
        if *byte == b'\n' {
            if from == 0 && may_break(front(behind(head, start), at.saturating_sub(start)), fault) {
                from = start;
            }
            start = at + 1;
        }
    }
    Ok(Finding {
        fault,
        at: from as u64,
        octets: front(behind(head, from), SHOWN).to_vec(alloc)?,
    })
}
