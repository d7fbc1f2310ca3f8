//! Words of steps and answers.
ghost use Rattle.std.specs.Prelude.{◌≤◌};

use crate::questions::cut;
use crate::told::put_told;
use service_pool::{AuditFault, Numbers, Over};
use span_bank::{Audit, Book, CapacityFault, OpenFault};
use test_rows::{NoMemory, Row, number, put_decimal, put_line, put_number};

/// The number after a word, as in `put 11`.
pub fn number_after(text: &[u8], word: &[u8]) -> Option<u64> {
    number(text.strip_prefix(word)?.strip_prefix(b" ")?)
}

/// The two numbers after a word, as in `grow 100 1`.
pub fn pair_after(text: &[u8], word: &[u8]) -> Option<(u64, u64)> {
    let numbers = text.strip_prefix(word)?.strip_prefix(b" ")?;
    let (first, second) = cut(numbers, b" ");
    Some((number(first)?, number(second)?))
}

/// For how many steps a row's journal has room: 16, if the row doesn't say.
pub fn journal_of(row: &Row<'_>) -> usize
    ensures { 1 ≤ result }
{
    row.number(b"journal").unwrap_or(16).max(1) as usize
}

/// Adds that no memory was found for what a row makes, if it is the row's journal that wants it.
pub fn put_no_memory(row: &Row<'_>, out: &mut Vec<u8>) -> Result<(), NoMemory> {
    if row.has(b"journal") {
        put_line(out, b"no memory")
    } else {
        Err(NoMemory)
    }
}

/// Whether a connection is taken before any other.
pub fn is_picked(connection: &u32) -> bool {
    *connection > 20
}

/// Whether a connection is taken before the others that are picked.
pub fn is_preferred(connection: &u32) -> bool {
    *connection > 30
}

/// Adds what became of a connection that was put back.
pub fn put_back(out: &mut Vec<u8>, closed: Option<u32>) -> Result<(), NoMemory> {
    match closed {
        Some(connection) => put_number(out, b"closes", u64::from(connection)),
        None => put_line(out, b"kept"),
    }
}

/// Adds the connections that are closed.
pub fn put_closed(out: &mut Vec<u8>, closed: &[u32]) -> Result<(), NoMemory> {
    out.extend_from_slice(b"closes")?;
    for connection in closed {
        out.extend_from_slice(b" ")?;
        put_decimal(out, u64::from(*connection))?;
    }
    if closed.is_empty() {
        out.extend_from_slice(b" none")?;
    }
    out.extend_from_slice(b"\n")
}

/// Adds the numbers of a pool.
pub fn put_numbers(out: &mut Vec<u8>, numbers: Numbers) -> Result<(), NoMemory> {
    out.extend_from_slice(b"idle ")?;
    put_decimal(out, numbers.idle)?;
    out.extend_from_slice(b" leased ")?;
    put_decimal(out, numbers.leased)?;
    put_number(out, b" maximum", numbers.maximum)
}

/// Adds the totals of a budget.
pub fn put_book(out: &mut Vec<u8>, book: Book) -> Result<(), NoMemory> {
    out.extend_from_slice(b"rows ")?;
    put_decimal(out, book.rows)?;
    out.extend_from_slice(b" held ")?;
    put_decimal(out, book.held)?;
    out.extend_from_slice(b" claimed ")?;
    put_decimal(out, book.claimed)?;
    put_number(out, b" capacity", book.capacity)
}

/// Adds what a reservation has.
pub fn put_pages(out: &mut Vec<u8>, shown: (u64, u64, u64)) -> Result<(), NoMemory> {
    out.extend_from_slice(b"held ")?;
    put_decimal(out, shown.0)?;
    out.extend_from_slice(b" claim ")?;
    put_decimal(out, shown.1)?;
    put_number(out, b" pages", shown.2)
}

/// Adds the sums of a budget's audit.
pub fn put_sums(out: &mut Vec<u8>, audit: Option<Audit>) -> Result<(), NoMemory> {
    match audit {
        Some(audit) => {
            put_number(out, b"rows", audit.rows)?;
            put_number(out, b"held", audit.held)?;
            put_number(out, b"claimed", audit.claimed)?;
            put_number(out, b"pages", audit.pages)
        }
        None => put_line(out, b"a reservation is out"),
    }
}

/// Adds what a programmer is told of each fault.
pub fn put_texts(out: &mut Vec<u8>) -> Result<(), NoMemory> {
    put_told(out, &AuditFault::Missing)?;
    put_told(out, &Over)?;
    put_told(out, &OpenFault::Full { claimed: 60 })?;
    put_told(out, &OpenFault::NoRow)?;
    put_told(out, &span_bank::AuditFault::Missing)?;
    put_told(out, &CapacityFault::TooLow { claimed: 60 })?;
    put_told(out, &CapacityFault::NoMemory)
}
