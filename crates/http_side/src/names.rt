//! The names of a head's fields in order, so that one can be found without a walk over all of them.
ghost use Rattle.std.specs.Prelude.{◌≡◌, ℕ, ◌<◌, All, length};
ghost use Rattle.std.specs.Str.{str_eq_ignore_ascii_case};
ghost use Rattle.adapt_bytes.specs.Fields.{FieldList, name_at};
ghost use Rattle.http_side.specs.Names.{ArePlaced, HavePlaces, has_place, name_order, run_of};

use crate::fields::Fields;
use adapt_bytes::MAX_FIELDS;
use arrayvec::ArrayVec;
use std::cmp::Ordering;

/// A field's name and its place.
#[derive(Clone, Copy, Default)]
pub(crate) struct PlacedName<'a> {
    pub name: &'a [u8],
    pub place: u8,
}

/// The names in order, each with its field's place.
pub(crate) fn sorted_names<'a>(fields: &Fields<'a>) -> ArrayVec<PlacedName<'a>, MAX_FIELDS>
    ensures { ArePlaced fields.now result.items }
{
    let mut names = placed_names(fields);
    names.sort_unstable_by(|one, other| compare_names(one.name, other.name));
    names
}

/// The names as they came, each with its field's place.
fn placed_names<'a>(fields: &Fields<'a>) -> ArrayVec<PlacedName<'a>, MAX_FIELDS>
    ensures { HavePlaces fields.now result.items }
{
    let mut names = ArrayVec::new();
    for at in 0..fields.len() {
        names.push(PlacedName {
            name: fields.name(at),
            place: at as u8,
        });
    }
    names
}

/// The sorted names without those before this one: the names equal to it, ignoring ASCII case, come first.
pub(crate) fn names_from<'n, 'a>(names: &'n [PlacedName<'a>], name: &[u8]) -> &'n [PlacedName<'a>]
    ensures within { (fields : FieldList) → ArePlaced fields names.now → All (λ n. n.place < length fields) result.now }
    ensures front { (fields : FieldList) → ArePlaced fields names.now → (i : ℕ) → i < length fields → has_place i (run_of name.now result.now) ≡ str_eq_ignore_ascii_case name.now (name_at fields i) }
{
    let from = names.partition_point(|placed| compare_names(placed.name, name).is_lt());
    &names[from..]
}

/// The order of two names by their bytes in lower case.
fn compare_names(name: &[u8], other: &[u8]) -> Ordering
    ensures { result ≡ name_order name.now other.now }
{
    for at in 0..name.len().min(other.len()) {
        let order = name[at]
            .to_ascii_lowercase()
            .cmp(&other[at].to_ascii_lowercase());
        if order != Ordering::Equal {
            return order;
        }
    }
    name.len().cmp(&other.len())
}
