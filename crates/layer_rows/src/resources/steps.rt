//! Steps on what ends with them, and what lends something to its rows and threads.
use crate::questions::{Subject, put_lines};
use test_rows::NoMemory;

/// Adds each step of the wanted lines with what it answers. What takes the steps ends with them.
pub fn put_whole<S: Subject + Drop>(
    what: S,
    lines: &[u8],
    out: &mut Vec<u8>,
) -> Result<(), NoMemory> {
    let mut what = what;
    put_lines(&mut what, lines, out)
}

/// What lends things that have to go back to it.
pub trait Lender {
    /// What it lends.
    type Lent;

    /// Takes back what it lent.
    fn end(&self, lent: Self::Lent);
}

/// Keeps what was lent with the others, or ends it where the list is full.
pub fn keep<T: Lender>(lender: &T, all: &mut Vec<T::Lent>, lent: T::Lent) {
    if all.len() < all.capacity() {
        all.push_reserved(lent);
    } else {
        lender.end(lent);
    }
}

/// Ends all that was lent.
pub fn end_all<T: Lender>(lender: &T, all: Vec<T::Lent>) {
    let mut all = all;
    while let Some(lent) = all.pop() {
        lender.end(lent);
    }
    all.destroy_empty();
}
