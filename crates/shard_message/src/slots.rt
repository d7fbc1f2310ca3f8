//! Slots that hold one thing, or nothing.
//!
//! These are generic, so that a proof sees what is held as one value.

ghost use Rattle.std.specs.Prelude.{◌≡◌, is_some, Some, None, true, false};

/// Takes out what is held.
pub fn take_out<T>(slot: &mut Option<T>) -> T
    requires { is_some slot.old ≡ true }
    ensures taken { slot.old ≡ Some result }
    ensures none { slot.new ≡ None }
{
    match slot.take() {
        Some(held) => held,
        None => unreachable!(),
    }
}

/// Puts something where nothing is held.
pub fn put_in<T>(slot: &mut Option<T>, held: T)
    requires { is_some slot.old ≡ false }
    ensures { slot.new ≡ Some held }
{
    match slot.replace(held) {
        None => {}
        Some(_) => unreachable!(),
    }
}

/// Puts something in, in place of what was held.
pub fn lay<T: Drop>(slot: &mut Option<T>, held: T)
    ensures { slot.new ≡ Some held }
{
    *slot = Some(held);
}

/// Lets go what is held.
pub fn clear<T: Drop>(slot: &mut Option<T>)
    ensures { slot.new ≡ None }
{
    *slot = None;
}
