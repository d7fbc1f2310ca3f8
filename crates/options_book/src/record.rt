//! The record of an OPTIONS response.

use crate::Treat;
use crate::transfer::TransferLists;
use crate::words::unquoted;
use adapt_bytes::MAX_CONNECTIONS;
use std::marker::Model;

/// The record of a service's OPTIONS response, with the time at which it was read (RFC 3507, section 4.10.2).
///
/// ```
/// let text = b"ICAP/1.0 200 OK\r\nMethods: RESPMOD\r\nISTag: \"v1\"\r\n\
///              Preview: 1024\r\nOptions-TTL: 60\r\nEncapsulated: null-body=0\r\n\r\n";
/// let response = read_response(alloc, text)?.value;
/// let record = read_record(alloc, &response, Point::Respmod, 1000)?;
/// assert_eq!(rt; record.preview(), Some(1024));
/// assert!(rt; record.is_fresh(1059, None));
/// assert!(rt; !record.is_fresh(1060, None));
/// ```
#[derive(Debug, Drop)]
pub struct Record {
    pub(crate) tag: Vec<u8>,
    pub(crate) preview: Option<u64>,
    pub(crate) connections: Option<u64>,
    pub(crate) ttl: Option<u64>,
    pub(crate) lists: TransferLists,
    pub(crate) read_at: u64,
}

impl Model for Record {
    ghost use Rattle.options_book.specs.Options.{Options};

    ghost Value = { Options };

    ghost use Rattle.options_book.specs.Options.{options_of};

    ghost view = { λ r. options_of r.tag.items r.preview r.connections r.ttl r.lists r.read_at };

    ghost use Rattle.std.specs.Prelude.{IfSome, ◌<◌};
    ghost use Rattle.adapt_bytes.specs.declared.limits.TheConstants.{COUNT_LIMIT};

    ghost invariant = { λ r. IfSome r.preview (λ n. n < COUNT_LIMIT) };
}

impl Record {
    ghost use Rattle.std.specs.Prelude.{◌≡◌, ◌<◌, ◌-◌, ◌↔◌, Some, None, IfSome, IsSome, IsTrue, option_copied};
    ghost use Rattle.adapt_bytes.specs.declared.limits.TheConstants.{COUNT_LIMIT};
    ghost use Rattle.options_book.specs.Options.{IsFresh, most_connections, unquoted};
    ghost use Rattle.options_book.specs.Transfer.{treat_of};

    /// Has a record whose response says no Options-TTL be fresh for so many seconds; for ever where they are 0.
    pub fn set_default_ttl(&mut self, seconds: u64)
        ensures stands { IsSome self.old.ttl → self.new ≡ self.old }
        ensures ever { seconds ≡ 0 → self.new ≡ self.old }
        ensures lasts { self.old.ttl ≡ None → 0 < seconds → self.new ≡ record self.old { ttl = Some seconds } }
    {
        if self.ttl.is_none() && seconds > 0 {
            self.ttl = Some(seconds);
        }
    }

    /// Whether the record is fresh at the time `now`, in seconds: fewer seconds than Options-TTL have passed since it was read,
    /// and `last_tag`, the last ISTag that an answer of the service had, if any, is the record's. A record that another tag
    /// made stale is fresh again once the last tag is its own. Without Options-TTL the default counts
    /// ([`Record::set_default_ttl`]); without that too a record never expires. A time before the reading counts as the time of
    /// the reading.
    pub fn is_fresh(&self, now: u64, last_tag: Option<&[u8]>) -> bool
        ensures { IsTrue result ↔ IsFresh self.now now (option_copied last_tag.entry) }
    {
        self.is_in_time(now) && self.has_tag(last_tag)
    }

    /// Whether fewer seconds have passed than the time to live.
    fn is_in_time(&self, now: u64) -> bool
        ensures { IsTrue result ↔ IfSome self.now.ttl (λ ttl. now - self.now.read_at < ttl) }
    {
        match self.ttl {
            Some(ttl) => now.saturating_sub(self.read_at) < ttl,
            None => true,
        }
    }

    /// Whether a later answer's tag, if it has one, is the record's.
    fn has_tag(&self, last_tag: Option<&[u8]>) -> bool
        ensures { IsTrue result ↔ IfSome (option_copied last_tag.entry) (λ tag. unquoted tag ≡ self.now.tag) }
    {
        match last_tag {
            Some(tag) => unquoted(tag) == self.tag.as_slice(),
            None => true,
        }
    }

    /// How the service wants a message whose path has this extension, or no extension: by the Transfer list that names
    /// it, Complete before Preview before Ignore; else by the list that has `*`; else whole.
    pub fn treat(&self, extension: Option<&[u8]>) -> Treat
        ensures { result ≡ treat_of self.now.lists (option_copied extension.entry) }
    {
        self.lists.treat(extension)
    }

    /// The size of the preview that the service wants, in bytes, if it says so.
    pub fn preview(&self) -> Option<u64>
        ensures size { result ≡ self.now.preview }
        ensures bound { IfSome result (λ n. n < COUNT_LIMIT) }
    {
        self.preview
    }

    /// The largest number of open connections: Max-Connections, at most 1,024; `None` if the service doesn't say.
    pub fn max(&self) -> Option<u64>
        ensures { result ≡ most_connections self.now }
    {
        match self.connections {
            Some(connections) => Some(connections.min(MAX_CONNECTIONS)),
            None => None,
        }
    }
}
