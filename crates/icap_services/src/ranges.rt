//! The ranges of the settings.
ghost use Rattle.std.specs.Prelude.{◌≡◌, ◌↔◌, IsTrue, IsSome, IfSome, IfOk};
ghost use Rattle.icap_services.specs.Ranges.{IsTag, is_tag_byte, AreInRange};
ghost use Rattle.icap_services.specs.Texts.{Shown, shown};

use crate::settings::{MAX_ISTAG, MAX_TTL};
use crate::{NoMemory, Settings};
use adapt_bytes::{MAX_CONNECTIONS, MAX_PREVIEW};
use std::alloc::Global;

impl Settings {
    /// These settings, or `None` if one is out of its range.
    pub fn new(istag: Vec<u8>, max: u64, ttl: u64, preview: u64) -> Option<Settings>
        ensures same { IfSome result (λ settings. shown settings
            ≡ record { istag = istag.items; max = max; ttl = ttl; preview = preview }) }
        ensures in_range { IsSome result ↔ AreInRange istag.items max ttl preview }
    {
        if !is_tag(&istag) {
            return None;
        }
        if max == 0 {
            return None;
        }
        if max > MAX_CONNECTIONS {
            return None;
        }
        if ttl > MAX_TTL {
            return None;
        }
        if preview > MAX_PREVIEW {
            return None;
        }
        Some(Settings {
            istag,
            max,
            ttl,
            preview,
        })
    }

    /// A copy of the settings. `NoMemory` if the tag finds no memory.
    pub fn try_clone(&self, alloc: Global) -> Result<Settings, NoMemory>
        ensures { IfOk result (λ copy. shown copy ≡ shown self.now) }
    {
        Ok(Settings {
            istag: self.istag.to_vec(alloc)?,
            max: self.max,
            ttl: self.ttl,
            preview: self.preview,
        })
    }
}

/// Whether the text can be an ISTag without its quotes: 1 to 32 bytes, each printable ASCII and neither the quote nor the
/// backslash (RFC 3507, section 4.7).
pub fn is_tag(text: &[u8]) -> bool
    ensures { IsTrue result ↔ IsTag text.now }
{
    !text.is_empty() && text.len() <= MAX_ISTAG && text.iter().all(|b| is_tag_byte(*b))
}

/// Whether the byte may stand in an ISTag.
fn is_tag_byte(byte: u8) -> bool
    ensures { result ≡ is_tag_byte byte }
{
    32 <= byte && byte <= 126 && byte != b'"' && byte != b'\\'
}
