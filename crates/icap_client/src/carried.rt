//! The fields of an answer's head that go on with a later request.

ghost use Rattle.std.specs.Prelude.{◌≡◌, ◌++◌, ◌∷◌, ◌<◌, [], length, map, string_bytes, IfOk, OnOk};
ghost use Rattle.adapt_bytes.specs.Fields.{name_at, field_at};
ghost use Rattle.adapt_bytes.specs.Text.{is_among};
ghost use Rattle.icap_head.specs.Fields.{field_list};
ghost use Rattle.icap_head.specs.Written.{field_text};
ghost use Rattle.icap_client.specs.Carried.{carried_text};

use adapt_bytes::same_ascii;
use icap_head::Fields;
use std::alloc::{AllocError, Global};

/// Whether a name is one of these, ASCII case ignored.
fn is_among(names: &[String], name: &[u8]) -> bool
    ensures { result ≡ is_among (map string_bytes names.now) name.now }
{
    for other in names {
        if same_ascii(other.as_bytes(), name) {
            return true;
        }
    }
    false
}

/// Adds the line of the field at this place.
fn put_line(out: &mut Vec<u8>, fields: &Fields, at: usize) -> Result<(), AllocError>
    requires { at < length (field_list fields.now) }
    ensures { OnOk result (out.new.items ≡ out.old.items ++ field_text (field_at (field_list fields.now) at)) }
{
    out.extend_from_slice(fields.name(at))?;
    out.extend_from_slice(b": ")?;
    out.extend_from_slice(fields.value(at))?;
    out.extend_from_slice(b"\r\n")
}

/// Adds the line of the field at this place, if its name is one of these.
fn put_carried(
    out: &mut Vec<u8>,
    names: &[String],
    fields: &Fields,
    at: usize,
) -> Result<(), AllocError>
    requires { at < length (field_list fields.now) }
    ensures { OnOk result (out.new.items ≡ out.old.items ++ carried_text (map string_bytes names.now) (field_at (field_list fields.now) at ∷ [])) }
{
    if is_among(names, fields.name(at)) {
        put_line(out, fields, at)
    } else {
        Ok(())
    }
}

/// The lines of the fields that have one of these names, in their order. `Err` where no memory was found; where there are none, none
/// is taken.
pub(crate) fn carried_of(
    alloc: Global,
    names: &[String],
    fields: &Fields,
) -> Result<Vec<u8>, AllocError>
    ensures { IfOk result (λ text. text.items ≡ carried_text (map string_bytes names.now) (field_list fields.now)) }
{
    let mut out = Vec::new(alloc);
    for at in 0..fields.len() {
        put_carried(&mut out, names, fields, at)?;
    }
    Ok(out)
}
