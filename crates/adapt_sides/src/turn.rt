//! What one turn of a side reports.

ghost use Rattle.arrayvec.specs.ArrayVec.{array_vec_len};
ghost use Rattle.std.specs.Prelude.{◌≡◌, ◌+◌, ◌<◌, ◌++◌, ◌∷◌, []};

use arrayvec::ArrayVec;
use trace_core::Event;

/// The events of a turn, in their order, and whether it did nothing.
///
/// ```
/// let mut events = ArrayVec::new();
/// push_event(&mut events, Event::In(2));
/// push_event(&mut events, Event::End);
/// let turn = Turn { events, waiting: false };
/// assert_eq!(rt; turn.events.as_slice(), [Event::In(2), Event::End].as_slice());
/// ```
#[derive(Drop)]
pub struct Turn {
    /// What the transaction steps through, the first one first.
    pub events: ArrayVec<Event, 4>,
    /// The wire answered Wait in this call, or nothing was due: no byte moved, and there is no event.
    pub waiting: bool,
}

/// Adds an event after those of the turn.
pub fn push_event(events: &mut ArrayVec<Event, 4>, event: Event)
    requires { array_vec_len events.old < 4 }
    ensures items { events.new.items ≡ events.old.items ++ event ∷ [] }
    ensures len { array_vec_len events.new ≡ array_vec_len events.old + 1 }
{
    events.push(event);
}
