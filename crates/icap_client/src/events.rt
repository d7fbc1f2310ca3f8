//! What the reader of responses answers: events, whether they may come now, and the fault of a head.

ghost use Rattle.std.specs.Prelude.{◌≡◌, ◌≢◌, ◌<◌, ◌⊎◌, [], IfSome, IfNone, IsTrue, ◌↔◌, true, false};
ghost use Rattle.trace_core.specs.History.{shows};
ghost use Rattle.icap_client.specs.Events.{listed, MayHear, MayAllFollow, adapted_events};
ghost use Rattle.icap_client.specs.Replies.{payload_if};

use adapt_sides::ClientFault;
use arrayvec::ArrayVec;
use icap_head::HeadFault;
use trace_core::{Event, Payload, State};

/// What was framed of a head in the offered bytes: how many of the first ones, and the event that they are.
#[derive(Clone, Copy)]
pub(crate) struct FramedHead {
    pub(crate) used: usize,
    pub(crate) event: Option<Event>,
}

/// What was framed of the offered bytes: how many of the first ones, and the events that they are.
#[derive(Drop)]
pub struct Framed {
    pub used: usize,
    pub events: ArrayVec<Event, 4>,
}

/// The fault of a text that doesn't begin with an ICAP head; `None` if it may still become one.
pub(crate) fn refusal(fault: HeadFault) -> Option<ClientFault>
    ensures some { IfSome result (λ found. ((fault ≡ HeadFault.NoMemory) × (found ≡ ClientFault.NoMemory))
        ⊎ ((found ≡ ClientFault.Head) × (fault ≢ HeadFault.NoMemory) × (fault ≢ HeadFault.More))) }
    ensures none { IfNone result (fault ≡ HeadFault.More) }
{
    match fault {
        HeadFault::More => None,
        HeadFault::NoMemory => Some(ClientFault::NoMemory),
        HeadFault::StartLine
        | HeadFault::Version
        | HeadFault::Field
        | HeadFault::TooLong
        | HeadFault::TooMany => Some(ClientFault::Head),
    }
}

/// The event, if there is one, as a list.
pub(crate) fn event_list(event: Option<Event>) -> ArrayVec<Event, 4>
    ensures { result.items ≡ listed event }
{
    let mut events = ArrayVec::new();
    if let Some(event) = event {
        let _ = events.try_push(event);
    }
    events
}

/// The events for this many bytes of the adapted body, and for its end.
pub(crate) fn adapted_events(count: usize, ended: bool) -> ArrayVec<Event, 4>
    ensures { result.items ≡ adapted_events count ended }
{
    let mut events = ArrayVec::new();
    if count > 0 {
        let _ = events.try_push(Event::Ad(count as u64));
    }
    if ended {
        let _ = events.try_push(Event::AdEnd);
    }
    events
}

/// Whether these events may come now.
pub(crate) fn may_all(state: &State, count: usize, ended: bool) -> bool
    ensures may { IsTrue result → MayAllFollow (shows state.now) (adapted_events count ended) }
    ensures heard { IsTrue result → (adapted_events count ended ≡ []) ⊎ ((shows state.now).heard ≡ true) }
    ensures may_not { result ≡ false → ((0 < count) × (MayHear (shows state.now) (Event.Ad count) → ⊥)) ⊎ ((count ≡ 0) × (ended ≡ true) × (MayHear (shows state.now) Event.AdEnd → ⊥)) }
{
    if count > 0 {
        return may_hear(state, Event::Ad(count as u64));
    }
    if ended {
        return may_hear(state, Event::AdEnd);
    }
    true
}

/// Whether the event may come now, after a first byte that was read before.
fn may_hear(state: &State, event: Event) -> bool
    ensures { IsTrue result ↔ MayHear (shows state.now) event }
{
    state.seen().heard && state.may(event)
}

/// What a 200 has after its heads.
pub(crate) fn payload_of(body: bool) -> Payload
    ensures { result ≡ payload_if body }
{
    if body {
        Payload::Body
    } else {
        Payload::NullBody
    }
}
