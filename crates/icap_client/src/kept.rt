//! The bytes of a reply that are kept without being framed.

ghost use Rattle.std.specs.Prelude.{◌≡◌, ◌<◌, ◌≤◌, ◌==◌, [], length, drop, max, true};
ghost use Rattle.std.specs.List.{list_any};
ghost use Rattle.icap_head.specs.Heads.{RefusesResponse};
ghost use Rattle.icap_head.specs.declared.reading.HeadFault.TheVariants.{More};
ghost use Rattle.adapt_bytes.specs.declared.limits.TheConstants.{MAX_HEAD};
ghost use Rattle.adapt_bytes.specs.Text.{has_line};
ghost use Rattle.icap_client.specs.HeadFront.{IsHeadFront};
ghost use Rattle.adapt_sides.specs.Filling.{IsFilled};
ghost use Rattle.adapt_sides.specs.declared.filling.TheConstants.{MAX_FILL};

use adapt_bytes::{MAX_HEAD, behind};
use adapt_sides::{Filled, RawBytes, fill};
use std::alloc::Global;
use std::marker::Model;
use wire_kit::Wire;

/// Bytes that came and aren't framed yet, and how many of them were judged to be a prefix of an ICAP head.
#[derive(Drop)]
pub(crate) struct Kept {
    bytes: RawBytes,
    judged: usize,
}

impl Model for Kept {
    ghost use Rattle.std.specs.Prelude.{◌≤◌, length};
    ghost use Rattle.adapt_sides.specs.declared.filling.TheConstants.{MAX_FILL};
    ghost use Rattle.icap_client.specs.HeadFront.{Store, IsJudged};

    ghost Value = { Store };

    ghost view = { λ k. record { bytes = k.bytes.items; judged = k.judged; room = k.bytes.spare } };

    ghost invariant = { λ k. (length k.bytes.items ≤ MAX_FILL) × (k.judged ≤ length k.bytes.items) × IsJudged k.judged k.bytes.items };
}

/// Whether a line ends in the bytes.
fn has_line(bytes: &[u8]) -> bool
    ensures { result ≡ has_line bytes.now }
{
    for byte in bytes {
        if *byte == b'\n' {
            return true;
        }
    }
    false
}

impl Kept {
    /// No byte, and no room.
    pub(crate) fn new(alloc: Global) -> Kept
        ensures { result ≡ record { bytes = []; judged = 0; room = 0 } }
    {
        Kept {
            bytes: RawBytes::new(alloc),
            judged: 0,
        }
    }

    /// The number of bytes.
    pub(crate) fn len(&self) -> usize
        ensures len { result ≡ length self.now.bytes }
        ensures limit { result ≤ MAX_FILL }
    {
        self.bytes.len()
    }

    /// The bytes.
    pub(crate) fn as_slice(&self) -> &[u8]
        ensures { result.now ≡ self.now.bytes }
    {
        self.bytes.as_slice()
    }

    /// Lets go of the first `used` bytes, which were framed. `judged` says that the rest was judged to be a prefix of a head.
    pub(crate) fn pass(&mut self, used: usize, judged: bool)
        requires within { used ≤ length self.old.bytes }
        requires front { judged ≡ true → RefusesResponse More (drop used self.old.bytes) }
        ensures bytes { self.new.bytes ≡ drop used self.old.bytes }
        ensures fewer { length self.new.bytes ≤ length self.old.bytes }
    {
        self.judged = 0;
        self.bytes.advance(used);
        if judged {
            self.judged = self.bytes.len();
        }
    }

    /// Whether they needn't be judged again: no line has ended after those that were, and there is room for more.
    pub(crate) fn is_front(&self) -> bool
        ensures { result ≡ true → IsHeadFront self.now.bytes }
    {
        self.bytes.len() < MAX_HEAD && !has_line(behind(self.bytes.as_slice(), self.judged))
    }

    /// Gives back the room, if there is no byte.
    pub(crate) fn free_memory(&mut self, alloc: Global)
        ensures bytes { self.new.bytes ≡ self.old.bytes }
        ensures none { self.new.bytes ≡ [] → self.new.room ≡ 0 }
    {
        if self.bytes.is_empty() {
            self.judged = 0;
            self.bytes = RawBytes::new(alloc);
        }
    }

    /// Reads once, at most `most` bytes, and appends what came.
    pub(crate) fn fill<W: Wire>(&mut self, wire: &mut W, most: usize, buffer: &mut [u8]) -> Filled
        requires short { length self.old.bytes < MAX_HEAD }
        requires some { 1 ≤ most }
        requires room { 0 < length buffer.old }
        ensures filled { IsFilled (W.past wire.old) (W.past wire.new) self.old.bytes self.new.bytes result }
        ensures few { length self.new.bytes ≤ max MAX_HEAD most }
    {
        fill(&mut self.bytes, wire, most, buffer)
    }
}
