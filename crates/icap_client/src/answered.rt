//! What the events of a turn say of the request: whether a preview was answered (RFC 3507, section 4.5).

ghost use Rattle.std.specs.Prelude.{◌≡◌, not, ◌&&◌, ◌||◌};
ghost use Rattle.std.specs.List.{list_any};
ghost use Rattle.trace_core.specs.History.{is_continue, is_preview};
ghost use Rattle.icap_client.specs.Events.{after_all, is_final};
ghost use Rattle.icap_client.specs.Turns.{is_answered};

use trace_core::{Event, Kind, Seen};

/// Whether a preview is answered once these events have come, with no 100 before the answer.
pub(crate) fn is_answered(seen: &Seen, events: &[Event]) -> bool
    ensures { result ≡ is_answered (after_all seen.now events.now) }
{
    let continued = has_continue(events);
    let replied = has_final(events);
    answered_by(seen, continued, replied)
}

/// Whether a preview is answered, by whether a 100 and a final response have come in a turn.
fn answered_by(seen: &Seen, continued: bool, replied: bool) -> bool
    ensures { result ≡ (is_preview seen.now.plan.kind && (not (seen.now.continued || continued) && ((seen.now.no_mod || seen.now.modified) || replied))) }
{
    match seen.plan.kind {
        Kind::Preview(_) => {
            let replied = seen.no_mod || seen.modified || replied;
            !seen.continued && !continued && replied
        }
        Kind::Plain | Kind::Whole => false,
    }
}

fn has_continue(events: &[Event]) -> bool
    ensures { result ≡ list_any is_continue events.now }
{
    for event in events {
        if matches!(event, Event::Continue) {
            return true;
        }
    }
    false
}

fn has_final(events: &[Event]) -> bool
    ensures { result ≡ list_any is_final events.now }
{
    for event in events {
        if matches!(event, Event::NoMod | Event::Mod(_)) {
            return true;
        }
    }
    false
}
