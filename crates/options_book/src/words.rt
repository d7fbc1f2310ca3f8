//! Looking into the values of fields: tags without their quotes, methods, copies.

ghost use Rattle.std.specs.Prelude.{◌≡◌, ◌++◌, map, IfOk, OnOk};
ghost use Rattle.adapt_bytes.specs.Text.{comma_items};
ghost use Rattle.adapt_bytes.specs.Fields.{values_of};
ghost use Rattle.icap_head.specs.Fields.{field_list};
ghost use Rattle.options_book.specs.Transfer.{vec_bytes, items_of};
ghost use Rattle.options_book.specs.Options.{unquoted, lists_item, serves};

use adapt_bytes::comma_items;
use icap_head::{Fields, NoMemory};
use std::alloc::Global;
use trace_core::Point;

/// A tag without its quotes, which come off only as a pair.
pub(crate) fn unquoted(text: &[u8]) -> &[u8]
    ensures { result.now ≡ unquoted text.now }
{
    match text {
        [b'"', inner @ .., b'"'] => inner,
        _ => text,
    }
}

/// Whether the Methods fields name the method of the point.
pub(crate) fn serves(fields: &Fields, point: Point) -> bool
    ensures { result ≡ serves point (field_list fields.now) }
{
    let method = point.method().name();
    for value in fields.values(b"Methods") {
        if lists_item(value, method) {
            return true;
        }
    }
    false
}

/// Whether a comma-separated list has the item. Case matters.
fn lists_item(list: &[u8], item: &[u8]) -> bool
    ensures { result ≡ lists_item list.now item.now }
{
    for found in comma_items(list) {
        if found == item {
            return true;
        }
    }
    false
}

/// Copies of the items of the comma-separated lists in all fields of this name.
pub(crate) fn copy_items(
    alloc: Global,
    fields: &Fields,
    name: &[u8],
) -> Result<Vec<Vec<u8>>, NoMemory>
    ensures { IfOk result (λ copies. map vec_bytes copies.items ≡ items_of (values_of name.now (field_list fields.now))) }
{
    let mut copies = Vec::new(alloc);
    for value in fields.values(name) {
        push_items(alloc, &mut copies, value)?;
    }
    Ok(copies)
}

/// Appends copies of the items of one list.
fn push_items(alloc: Global, copies: &mut Vec<Vec<u8>>, list: &[u8]) -> Result<(), NoMemory>
    ensures { OnOk result (map vec_bytes copies.new.items ≡ map vec_bytes copies.old.items ++ comma_items list.now) }
{
    for item in comma_items(list) {
        copies.push(item.to_vec(alloc)?)?;
    }
    Ok(())
}
