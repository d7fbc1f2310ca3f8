//! The fields of a head that Connection names (RFC 9110, section 7.6.1).
ghost use Rattle.std.specs.Prelude.{◌≡◌, ℕ, ◌<◌, ◌≤◌, All, ◌||◌, false, length, slice_index_or};
ghost use Rattle.std.specs.Str.{str_eq_ignore_ascii_case};
ghost use Rattle.adapt_bytes.specs.Text.{has_item};
ghost use Rattle.http_side.specs.Forward.{AreNamed, Marks, is_named_by};
ghost use Rattle.http_side.specs.Names.{ArePlaced, AreAlike, has_place, run_of};

use crate::fields::{Fields, Values};
use crate::names::{PlacedName, names_from, sorted_names};
use adapt_bytes::{MAX_FIELDS, comma_items, has_item, same_ascii};

/// Whether Connection names the field.
pub(crate) fn is_named_by(fields: &Fields<'_>, name: &[u8]) -> bool
    ensures { result ≡ is_named_by fields.now name.now }
{
    for at in 0..fields.len() {
        if fields.is_named(at, b"connection") && has_item(fields.value(at), name) {
            return true;
        }
    }
    false
}

/// If there is only one Connection field, and its value has at most this many bytes, each item is compared with all fields.
const SHORT_VALUE: usize = 64;

/// Marks which fields Connection names, by their places, where none is marked yet.
pub(crate) fn mark_named(named: &mut [bool; MAX_FIELDS], fields: &Fields<'_>)
    requires { (i : ℕ) → i < length named.old → slice_index_or named.old i false ≡ false }
    ensures { AreNamed fields.now named.new }
{
    match fields.values(b"connection") {
        Values::None => {}
        Values::One(value) if value.len() <= SHORT_VALUE => mark_items(named, fields, value),
        _ => *named = searched_fields(fields),
    }
}

/// Which fields Connection names, if it may have many items. Each item is looked up among the sorted field names, where
/// equal names stand together, and no field is marked twice.
#[inline(never)]
fn searched_fields(fields: &Fields<'_>) -> [bool; MAX_FIELDS]
    ensures { AreNamed fields.now result }
{
    let names = sorted_names(fields);
    let mut named = [false; MAX_FIELDS];
    for at in 0..fields.len() {
        if fields.is_named(at, b"connection") {
            mark_found_items(&mut named, fields, names.as_slice(), fields.value(at));
        }
    }
    named
}

/// Marks the fields that an item of this value names, where those of one name are marked alike.
fn mark_found_items(named: &mut [bool], fields: &Fields<'_>, names: &[PlacedName<'_>], value: &[u8])
    requires placed { ArePlaced fields.now names.now }
    requires room { length fields.now ≤ length named.old }
    requires alike { AreAlike fields.now named.old }
    ensures marked { Marks (λ name. has_item name value.now) fields.now named.old named.new }
    ensures alike { AreAlike fields.now named.new }
{
    for item in comma_items(value) {
        mark_found(named, fields, names, item);
    }
}

/// Marks the fields that this item names, where those of one name are marked alike: if the first is marked, all are.
fn mark_found(named: &mut [bool], fields: &Fields<'_>, names: &[PlacedName<'_>], item: &[u8])
    requires placed { ArePlaced fields.now names.now }
    requires room { length fields.now ≤ length named.old }
    requires alike { AreAlike fields.now named.old }
    ensures marked { Marks (λ name. str_eq_ignore_ascii_case item.now name) fields.now named.old named.new }
    ensures alike { AreAlike fields.now named.new }
{
    let behind = names_from(names, item);
    match behind {
        [first, ..] if !named[usize::from(first.place)] => mark_run(named, behind, item),
        _ => {}
    }
}

/// Marks the fields at the places of the first names, those that are the item.
fn mark_run(named: &mut [bool], names: &[PlacedName<'_>], item: &[u8])
    requires { All (λ n. n.place < length named.old) names.now }
    ensures size { length named.new ≡ length named.old }
    ensures each { (i : ℕ) → i < length named.old → slice_index_or named.new i false ≡ (slice_index_or named.old i false || has_place i (run_of item.now names.now)) }
{
    for placed in names {
        if !same_ascii(item, placed.name) {
            return;
        }
        named[usize::from(placed.place)] = true;
    }
}

/// Marks the fields that an item of this value names.
fn mark_items(named: &mut [bool], fields: &Fields<'_>, value: &[u8])
    ensures { Marks (λ name. has_item name value.now) fields.now named.old named.new }
{
    for item in comma_items(value) {
        mark_item(named, fields, item);
    }
}

/// Marks the fields that this item names.
fn mark_item(named: &mut [bool], fields: &Fields<'_>, item: &[u8])
    ensures { Marks (λ name. str_eq_ignore_ascii_case item.now name) fields.now named.old named.new }
{
    for at in 0..fields.len().min(named.len()) {
        if same_ascii(item, fields.name(at)) {
            named[at] = true;
        }
    }
}
