//! Words of steps and of answers.

use crate::questions::cut;
use service_pool::LendFault;
use test_rows::{NoMemory, number, put_decimal, put_line, put_number};

/// The number that a text begins with, or 0, and what comes after it.
pub fn first_number(text: &[u8]) -> (u64, &[u8]) {
    let (word, rest) = cut(text, b" ");
    match number(word) {
        Some(count) => (count, rest),
        None => (0, rest),
    }
}

/// What a fault is called.
pub fn fault_name(fault: LendFault) -> &'static [u8] {
    match fault {
        LendFault::Busy => b"busy",
        LendFault::Unreached => b"unreached",
        LendFault::NoMemory => b"no memory",
        LendFault::Paused => b"paused",
    }
}

/// Adds what was lent.
pub fn put_lent(out: &mut Vec<u8>, used: u64, reused: bool) -> Result<(), NoMemory> {
    let word: &[u8] = if reused { b"reused" } else { b"fresh" };
    put_number(out, word, used)
}

/// Adds the threads that were woken, in their order.
pub fn put_woken(out: &mut Vec<u8>, woken: u64) -> Result<(), NoMemory> {
    if woken == 0 {
        put_line(out, b"none")
    } else {
        put_decimal(out, woken)?;
        out.extend_from_slice(b"\n")
    }
}
