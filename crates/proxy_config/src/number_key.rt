//! A key whose value is a whole number.

ghost use Rattle.std.specs.Prelude.{◌≤◌};

/// A key whose value is a whole number.
#[derive(Clone, Copy)]
pub struct NumberKey {
    /// Its name.
    pub name: &'static str,
    /// The least number that it may have.
    pub low: u64,
    /// The greatest one.
    pub high: u64,
    /// The number where the key is missing.
    pub default: u64,
    /// Whether it can't change while the proxy runs.
    pub is_fixed: bool,
    /// What is counted, as `seconds`.
    pub unit: &'static str,
    /// What the default means, as `none`; `None` where that is plain.
    pub meaning: Option<&'static str>,
    ghost fits: { (low ≤ default) × (default ≤ high) },
}

/// A row of a table of such keys: whether it can change while the proxy runs (`fixed` or `live`), its name, its range, what is counted, and
/// its default, with what that means where it isn't plain.
macro_rules! number_key {
    ($mark:ident $name:literal, $low:tt to $high:tt $unit:literal, default $default:literal) => {
        crate::number_key::number_key!($mark $name, $low to $high $unit, default $default, None)
    };
    ($mark:ident $name:literal, $low:tt to $high:tt $unit:literal, default $default:literal: $meaning:literal) => {
        crate::number_key::number_key!($mark $name, $low to $high $unit, default $default, Some($meaning))
    };
    ($mark:ident $name:literal, $low:tt to $high:tt $unit:literal, default $default:literal, $meaning:expr) => {
        NumberKey {
            name: $name,
            low: $low,
            high: $high,
            default: $default,
            is_fixed: crate::number_key::number_key!($mark),
            unit: $unit,
            meaning: $meaning,
        }
    };
    (fixed) => {
        true
    };
    (live) => {
        false
    };
}

pub(crate) use number_key;
