//! The fields of a head, with look-up by name (RFC 9110, section 5).
ghost use Rattle.std.specs.Prelude.{◌≡◌, ◌↔◌, ◌<◌, ◌≤◌, ◌∷◌, ◌++◌, [], length, drop, map, option_map, slice_get, Some, All, IsTrue, IfOk, IfSome, IfNone, OnOk, OnErr};
ghost use Rattle.std.specs.Iterator.{YieldsFirstRef, item_count};
ghost use Rattle.adapt_bytes.specs.Numeral.{Writes};
ghost use Rattle.httparse.specs.Spans.{IsHeaderWithin, header_bytes};

use crate::NoMemory;
use adapt_bytes::{read_decimal, same_ascii};
use httparse::spans::{HeaderSpan, Span};
use std::alloc::Global;

/// The fields of a head, in order: names as received, and values without the spaces and tabs around them.
#[derive(Debug, Drop)]
pub struct Fields {
    text: Vec<u8>,
    /// Where they lie in the text.
    lines: Vec<HeaderSpan>,
    ghost inside: { All (IsHeaderWithin (length text.items)) lines.items },
}

/// The values of all fields of one name, in order.
#[derive(Drop)]
pub struct Values<'a> {
    fields: &'a Fields,
    name: &'a [u8],
    /// The number of fields that it has passed.
    passed: usize,
}

impl Fields {
    ghost use Rattle.adapt_bytes.specs.Fields.{name_at, value_at, values_of};
    ghost use Rattle.icap_head.specs.Fields.{field_list, first_of, values_left};

    /// An empty list. It doesn't allocate.
    pub fn new(alloc: Global) -> Fields
        ensures { field_list result ≡ [] }
    {
        Fields {
            text: Vec::new(alloc),
            lines: Vec::new(alloc),
        }
    }

    /// The fields at these places of a text's first bytes, with a copy of these bytes.
    pub(crate) fn of_lines(
        alloc: Global,
        text: &[u8],
        size: usize,
        lines: &[HeaderSpan],
    ) -> Result<Fields, NoMemory>
        requires front { size ≤ length text.now }
        requires inside { All (IsHeaderWithin size) lines.now }
        ensures { IfOk result (λ fields. field_list fields ≡ map (header_bytes text.now) lines.now) }
    {
        let text = text[..size].to_vec(alloc)?;
        let lines = copy_lines(alloc, lines)?;
        Ok(Fields { text, lines })
    }

    /// Appends a field, with its name and value as they are given. If memory runs out, the list stays as it is.
    pub fn push(&mut self, name: &[u8], value: &[u8]) -> Result<(), NoMemory>
        ensures ok { OnOk result (field_list self.new ≡ field_list self.old ++ (name.now, value.now) ∷ []) }
        ensures err { OnErr result (field_list self.new ≡ field_list self.old) }
    {
        let name = add(&mut self.text, name)?;
        let value = add(&mut self.text, value)?;
        self.lines.push(HeaderSpan { name, value })?;
        Ok(())
    }

    /// The number of fields.
    pub fn len(&self) -> usize
        ensures { result ≡ length (field_list self.now) }
    {
        self.lines.len()
    }

    /// The name of the field at this place, as received. The place must be below `len`.
    pub fn name(&self, at: usize) -> &[u8]
        requires { at < length (field_list self.now) }
        ensures { result.now ≡ name_at (field_list self.now) at }
    {
        line_at(&self.lines, at).name.of(&self.text)
    }

    /// The value of the field at this place, without the spaces and tabs that a head has around it. The place must be below `len`.
    pub fn value(&self, at: usize) -> &[u8]
        requires { at < length (field_list self.now) }
        ensures { result.now ≡ value_at (field_list self.now) at }
    {
        line_at(&self.lines, at).value.of(&self.text)
    }

    /// The values of all fields of this name, ignoring ASCII case, in order.
    pub fn values<'a>(&'a self, name: &'a [u8]) -> Values<'a>
        ensures { values_left result ≡ values_of name.now (field_list self.now) }
    {
        Values {
            fields: self,
            name,
            passed: 0,
        }
    }

    /// The value of the first field of this name, ignoring ASCII case.
    pub fn first(&self, name: &[u8]) -> Option<&[u8]>
        ensures { option_map (λ value. value.now) result ≡ first_of name.now (field_list self.now) }
    {
        let (value, _) = self.next_value(name, 0)?;
        Some(value)
    }

    /// The value of the first field of this name after this many fields, and the number of fields up to and with it.
    fn next_value(&self, name: &[u8], passed: usize) -> Option<(&[u8], usize)>
        ensures some { IfSome result (λ r. values_of name.now (drop passed (field_list self.now))
            ≡ r.0.now ∷ values_of name.now (drop r.1 (field_list self.now))) }
        ensures none { IfNone result (values_of name.now (drop passed (field_list self.now)) ≡ []) }
    {
        for at in passed..self.len() {
            if same_ascii(self.name(at), name) {
                return Some((self.value(at), at + 1));
            }
        }
        None
    }
}

impl Values<'_> {
    ghost use Rattle.icap_head.specs.Fields.{AllSpell, values_left};

    /// Whether all remaining values spell the number, leading zeros allowed.
    pub fn all_spell(self, number: u64) -> bool
        ensures { IsTrue result ↔ AllSpell number (values_left self.entry) }
    {
        for text in self {
            if !spells(text, number) {
                return false;
            }
        }
        true
    }
}

impl<'a> Iterator for Values<'a> {
    ghost use Rattle.icap_head.specs.Fields.{values_left};

    type Item = &'a [u8];

    ghost next_gives = { YieldsFirstRef values_left };

    ghost remaining = { item_count values_left };

    fn next(&mut self) -> Option<&'a [u8]> {
        let (value, passed) = self.fields.next_value(self.name, self.passed)?;
        self.passed = passed;
        Some(value)
    }
}

/// Whether the text spells the number, with any leading zeros.
fn spells(text: &[u8], number: u64) -> bool
    ensures { IsTrue result ↔ Writes 10 text.now number }
{
    match read_decimal(text) {
        Some(found) => found == number,
        None => false,
    }
}

fn copy_lines(alloc: Global, lines: &[HeaderSpan]) -> Result<Vec<HeaderSpan>, NoMemory>
    ensures { IfOk result (λ copy. copy.items ≡ lines.now) }
{
    lines.to_vec(alloc)
}

fn line_at(lines: &[HeaderSpan], at: usize) -> HeaderSpan
    requires { at < length lines.now }
    ensures { slice_get lines.now at ≡ Some result }
{
    lines[at]
}

/// Appends bytes to a text, and returns where they lie.
fn add(text: &mut Vec<u8>, bytes: &[u8]) -> Result<Span, NoMemory>
    ensures ok { IfOk result (λ span. (span.start ≡ length text.old.items) × (span.end ≡ length text.new.items)) }
    ensures text { OnOk result (text.new.items ≡ text.old.items ++ bytes.now) }
    ensures err { OnErr result (text.new.items ≡ text.old.items) }
{
    let start = text.len();
    text.extend_from_slice(bytes)?;
    Ok(Span {
        start,
        end: text.len(),
    })
}
