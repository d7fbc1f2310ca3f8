//! A row with its table.
use crate::row::Row;
use crate::values::{Values, number_by};
use std::net::Ipv4Addr;

/// A row, and the table's head, which says what the row doesn't.
#[derive(Clone, Copy)]
pub struct Scene<'a> {
    pub head: Row<'a>,
    pub row: Row<'a>,
}

impl<'a> Scene<'a> {
    /// What the row says of a key, or else the head.
    fn said(self, key: &[u8]) -> &'a [u8] {
        if self.row.has(key) {
            self.row.get(key)
        } else {
            self.head.get(key)
        }
    }

    /// The text of a key; nothing where neither has it.
    pub fn get(self, key: &[u8]) -> &'a [u8] {
        match self.said(key) {
            [b'@', name @ ..] => self.said(name),
            text => text,
        }
    }

    /// Whether something is said of a key: by the row where it has the key, and else by the head.
    pub fn has(self, key: &[u8]) -> bool {
        !self.said(key).is_empty()
    }

    /// Whether a key says just this.
    pub fn is(self, key: &[u8], text: &[u8]) -> bool {
        self.get(key) == text
    }

    /// The IPv4 address that a key says, or none.
    pub fn address(self, key: &[u8]) -> Option<Ipv4Addr> {
        match Ipv4Addr::parse_ascii(self.get(key)) {
            Ok(address) => Some(address),
            Err(_) => None,
        }
    }

    /// The number that a key says, or another one.
    pub fn number_or(self, key: &[u8], values: Values, otherwise: usize) -> usize {
        number_by(self.get(key), values).unwrap_or(otherwise)
    }
}
