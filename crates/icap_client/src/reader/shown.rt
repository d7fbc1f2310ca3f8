//! What a reader shows of the responses so far.

ghost use Rattle.std.specs.Prelude.{◌≡◌, IsTrue, ◌↔◌, None, Some, MatchOption, IfOk, map, string_bytes, option_copied};
ghost use Rattle.icap_client.specs.Carried.{carried_text};
ghost use Rattle.icap_client.specs.Said.{infection_in, tag_in, virus_in};
ghost use Rattle.icap_client.specs.Heard.{KeepsLimits};

use super::ReplyReader;
use crate::carried::carried_of;
use crate::said::{Found, found_in, tag_in};
use crate::stage::Stage;
use encapsulated::Layout;
use std::alloc::{AllocError, Global};

impl ReplyReader {
    /// The layout of a 200 and the adapted message's head, once both were read.
    pub fn adapted_head(&self) -> Option<(Layout, &[u8])>
        ensures { MatchOption result (self.now.layout ≡ None) (λ found. (self.now.layout ≡ Some found.0) × (found.1.now ≡ self.now.head)) }
    {
        match self.layout {
            Some(layout) => Some((layout, self.head.as_slice())),
            None => None,
        }
    }

    /// Whether the final response is whole.
    pub fn is_over(&self) -> bool
        ensures over { IsTrue result ↔ self.now.stage ≡ Stage.Over }
        ensures limits { KeepsLimits self.now.stage }
    {
        match self.stage {
            Stage::Over => true,
            Stage::Replies | Stage::Head(_) | Stage::Body(_) => false,
        }
    }

    /// Whether the ICAP head of a response comes next.
    pub(crate) fn awaits_reply(&self) -> bool
        ensures { IsTrue result ↔ self.now.stage ≡ Stage.Replies }
    {
        match self.stage {
            Stage::Replies => true,
            Stage::Head(_) | Stage::Body(_) | Stage::Over => false,
        }
    }

    /// What the last response's ICAP head said: its tag.
    pub fn tag(&self) -> Option<&[u8]>
        ensures { option_copied result ≡ tag_in self.now.remarks }
    {
        tag_in(&self.remarks)
    }

    /// What the last response's ICAP head said that the service found in the message: of each value the first 256 bytes.
    pub fn found(&self) -> Found<'_>
        ensures { (option_copied result.infection ≡ infection_in self.now.remarks) × (option_copied result.virus ≡ virus_in self.now.remarks) }
    {
        found_in(&self.remarks)
    }

    /// The lines of the last response's ICAP head that have one of these names.
    pub fn carried(&self, alloc: Global, names: &[String]) -> Result<Vec<u8>, AllocError>
        ensures { IfOk result (λ text. text.items ≡ carried_text (map string_bytes names.now) self.now.remarks) }
    {
        carried_of(alloc, names, &self.remarks)
    }

    /// What the last response's ICAP head said: that the connection closes.
    pub fn closes(&self) -> bool
        ensures { result ≡ self.now.closes }
    {
        self.closes
    }
}
