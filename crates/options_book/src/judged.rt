//! Judging an OPTIONS response, before memory is allocated for its record.

ghost use Rattle.std.specs.Prelude.{◌≡◌, ◌<◌, ◌↔◌, ℕ, List, Option, IfOk, IfErr, OnErr, IfSome, IsTrue, MatchOption};
ghost use Rattle.adapt_bytes.specs.declared.limits.TheConstants.{COUNT_LIMIT};
ghost use Rattle.icap_head.specs.Fields.{field_list};
ghost use Rattle.icap_head.specs.Heads.{response_parts};
ghost use Rattle.options_book.specs.Options.{RefusesOptions, HasTag, AreNumbers, IsOptionsList, IsEncapsulated};
ghost use Rattle.options_book.specs.Verified.{IsGood, judged_options};

use crate::numbers::number;
use crate::transfer::TransferLists;
use crate::words::{copy_items, serves, unquoted};
use crate::{OptFault, Record};
use adapt_bytes::Method;
use encapsulated::{Direction, read};
use icap_head::{Fields, IcapResponse, NoMemory};
use std::alloc::Global;
use trace_core::Point;

/// The largest size of a tag, without its quotes, in bytes.
const MAX_ACCEPTED_TAG: usize = 256;

/// The numbers of a response: bytes of a preview, connections, seconds.
#[derive(Clone, Copy)]
pub(crate) struct Numbers {
    preview: Option<u64>,
    connections: Option<u64>,
    ttl: Option<u64>,
}

/// What a valid response says, except for its lists.
#[derive(Clone, Copy)]
pub(crate) struct Verified<'a> {
    tag: &'a [u8],
    numbers: Numbers,
}

/// Judges the response of a point's service.
pub(crate) fn judge(response: &IcapResponse, point: Point) -> Result<Verified<'_>, OptFault>
    ensures ok { IfOk result (λ judged. IsGood point (response_parts response.now) judged.tag.now judged.numbers) }
    ensures err { IfErr result (λ fault. RefusesOptions fault point (response_parts response.now)) }
{
    let fields = &response.fields;
    if response.status != 200 {
        return Err(OptFault::Status);
    }
    if !serves(fields, point) {
        return Err(OptFault::NoMethods);
    }
    let Some(tag) = read_tag(fields) else {
        return Err(OptFault::NoTag);
    };
    let Some(numbers) = read_numbers(fields) else {
        return Err(OptFault::Number);
    };
    if !is_encapsulated(fields) {
        return Err(OptFault::Encapsulated);
    }
    Ok(Verified { tag, numbers })
}

/// The service's tag, without its quotes.
fn read_tag(fields: &Fields) -> Option<&[u8]>
    ensures { MatchOption result ((tag : List ℕ) → HasTag (field_list fields.now) tag → ⊥) (λ tag. HasTag (field_list fields.now) tag.now) }
{
    let tag = unquoted(fields.first(b"ISTag")?);
    if tag.is_empty() || tag.len() > MAX_ACCEPTED_TAG {
        return None;
    }
    Some(tag)
}

/// The three numbers.
fn read_numbers(fields: &Fields) -> Option<Numbers>
    ensures { MatchOption result
        ((preview connections ttl : Option ℕ) → AreNumbers (field_list fields.now) preview connections ttl → ⊥)
        (λ n. AreNumbers (field_list fields.now) n.preview n.connections n.ttl) }
{
    let Ok(preview) = number(fields, b"Preview") else {
        return None;
    };
    let Ok(connections) = number(fields, b"Max-Connections") else {
        return None;
    };
    let Ok(ttl) = number(fields, b"Options-TTL") else {
        return None;
    };
    if connections == Some(0) {
        return None;
    }
    Some(Numbers {
        preview,
        connections,
        ttl,
    })
}

/// Whether the Encapsulated list is missing, or one that an OPTIONS response may have.
fn is_encapsulated(fields: &Fields) -> bool
    ensures { IsTrue result ↔ IsEncapsulated (field_list fields.now) }
{
    let mut values = fields.values(b"Encapsulated");
    match (values.next(), values.next()) {
        (None, _) => true,
        (Some(list), None) => is_options_list(list),
        (Some(_), Some(_)) => false,
    }
}

/// Whether an OPTIONS response may have this Encapsulated list.
fn is_options_list(list: &[u8]) -> bool
    ensures { IsTrue result ↔ IsOptionsList list.now }
{
    read(Method::Options, Direction::Response, list).is_ok()
}

impl Verified<'_> {
    /// The record, with copies of the tag and the lists.
    pub(crate) fn record(
        self,
        alloc: Global,
        fields: &Fields,
        read_at: u64,
    ) -> Result<Record, NoMemory>
        requires { IfSome self.numbers.preview (λ n. n < COUNT_LIMIT) }
        ensures { IfOk result (λ made. made ≡ judged_options self.entry.tag.now self.entry.numbers (field_list fields.now) read_at) }
    {
        Ok(Record {
            tag: self.tag.to_vec(alloc)?,
            preview: self.numbers.preview,
            connections: self.numbers.connections,
            ttl: self.numbers.ttl,
            lists: TransferLists {
                complete: copy_items(alloc, fields, b"Transfer-Complete")?,
                preview: copy_items(alloc, fields, b"Transfer-Preview")?,
                ignore: copy_items(alloc, fields, b"Transfer-Ignore")?,
            },
            read_at,
        })
    }
}
