//! What the services said, as one thread knows it.

ghost use Rattle.std.specs.Prelude.{◌≡◌, ◌↔◌, IsTrue, true, false, Some, None, ◌⊎◌, option_copied, option_map};
ghost use Rattle.service_pool.specs.Books.{Serves};

use crate::leased::Maximum;
use options_book::Record;
use std::alloc::Global;

/// What the service of one point said last.
#[derive(Drop)]
pub struct PointBook {
    said: Option<Record>,
    tag: Option<Vec<u8>>,
    /// Whether the service is to be asked again, whatever its record says.
    stale: bool,
    /// What the point's pool was set to for the record, where it was set.
    maximum: Option<Maximum>,
}

impl PointBook {
    /// Before the service said anything.
    pub fn new() -> PointBook
        ensures { (result.said ≡ None) × (result.tag ≡ None) × (result.maximum ≡ None) }
    {
        PointBook {
            said: None,
            tag: None,
            stale: false,
            maximum: None,
        }
    }

    /// The record.
    pub fn record(&self) -> Option<&Record>
        ensures { option_copied result ≡ self.now.said }
    {
        match &self.said {
            Some(record) => Some(record),
            None => None,
        }
    }

    /// Keeps a record.
    pub fn keep(&mut self, said: Record)
        ensures kept { (self.new.said ≡ Some said) × (self.new.tag ≡ None) × (self.new.stale ≡ false) }
        ensures maximum { self.new.maximum ≡ None }
    {
        self.said = Some(said);
        self.tag = None;
        self.stale = false;
        self.maximum = None;
    }

    /// Keeps a record, for which the point's pool was set to this maximum.
    pub(crate) fn keep_with(&mut self, said: Record, maximum: Maximum)
        ensures kept { (self.new.said ≡ Some said) × (self.new.tag ≡ None) × (self.new.stale ≡ false) }
        ensures maximum { self.new.maximum ≡ Some maximum }
    {
        self.keep(said);
        self.maximum = Some(maximum);
    }

    /// Has the service be asked again before a further message is planned. What it said stays until then.
    pub fn expire(&mut self)
        ensures { self.new ≡ record self.old { stale = true } }
    {
        self.stale = true;
    }

    /// Whether there is a record that serves at this moment.
    pub fn is_fresh(&self, now: u64) -> bool
        ensures { IsTrue result ↔ Serves self.now now }
    {
        let tag = match &self.tag {
            Some(tag) => Some(tag.as_slice()),
            None => None,
        };
        match &self.said {
            Some(record) => !self.stale && record.is_fresh(now, tag),
            None => false,
        }
    }

    /// Takes note of the tag of an answer. Where no memory is found for it the record goes.
    pub fn note_tag(&mut self, alloc: Global, tag: &[u8])
        ensures noted { ((option_map (λ tag. tag.items) self.new.tag ≡ Some tag.now) × (self.new.said ≡ self.old.said)) ⊎ ((self.new.said ≡ None) × (self.new.tag ≡ self.old.tag)) }
        ensures stays { (self.new.stale ≡ self.old.stale) × (self.new.maximum ≡ self.old.maximum) }
        ensures known { option_map (λ tag. tag.items) self.old.tag ≡ Some tag.now → self.new ≡ self.old }
    {
        let known = match &self.tag {
            Some(old) => old.as_slice() == tag,
            None => false,
        };
        if known {
            return;
        }
        match tag.to_vec(alloc) {
            Ok(tag) => self.tag = Some(tag),
            Err(_) => self.said = None,
        }
    }
}
