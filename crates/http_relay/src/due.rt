//! What may go to the next hop next.

ghost use Rattle.std.specs.Prelude.{◌≡◌, ◌+◌, ◌≤◌, [], IfSome, is_some, true, false, Some, None};
ghost use Rattle.trace_core.specs.History.{seen, shows};
ghost use Rattle.trace_core.specs.Legal.{IsGreatest, MayFollow};
ghost use Rattle.chunk_writer.specs.Writer.{is_ending, end_text};
ghost use Rattle.http_relay.specs.Message.{is_chunks, length_of};
ghost use Rattle.adapt_sides.specs.Tapes.{chosen_delivered, chosen_received, chosen_over};
ghost use Rattle.http_relay.specs.Giving.{is_message, body_end, Decides, BreaksLength, count_of, hop_events};

use crate::hop::HopStage;
use adapt_sides::{Turn, push_event};
use arrayvec::ArrayVec;
use chunk_writer::{ChunkWriter, Ending, Next};
use http_side::Framing;
use trace_core::{Event, Kind, Seen, State};

/// What may come next of the message in a turn of at most this many bytes, or `None` if its body breaks its length.
#[tactic(auto, using(crate::proofs::Chosen::fewer))]
pub(crate) fn decide(
    state: &State,
    writer: &ChunkWriter,
    framing: Framing,
    stage: HopStage,
    turn: u64,
) -> Option<Next>
    requires { 1 ≤ turn }
    ensures next { IfSome result (λ next. Decides turn (shows state.now) writer.now framing stage next) }
    ensures none { result ≡ None → (is_message stage ≡ true) × BreaksLength (shows state.now) framing }
{
    let seen = state.seen();
    let chunked = is_in_chunks(framing);
    let (from, came, over) = chosen(&seen);
    if !is_begun(stage) {
        return Some(Next {
            chunked,
            from,
            count: 0,
            end: Ending::NotYet,
        });
    }
    if !fits_length(&seen, framing, came, over) {
        return None;
    }
    let count = writer.fit(chunked, deliverable(state).min(turn));
    let end = ending(&seen, framing, count);
    Some(Next {
        chunked,
        from,
        count,
        end,
    })
}

/// How many bytes of the chosen message's body may go to the next hop.
fn deliverable(state: &State) -> u64
    ensures { IsGreatest (λ n. MayFollow state.now.plan state.now.events (Event.Usr n)) result }
{
    state.sendable().usr
}

/// The body's end, if it comes after this many more bytes.
fn ending(seen: &Seen, framing: Framing, count: u64) -> Ending
    ensures ends { is_ending result ≡ true → (seen.now.closed ≡ false) × (chosen_over seen.now ≡ true) × (chosen_delivered seen.now + count ≡ chosen_received seen.now) }
    ensures text { is_ending result ≡ true → end_text result ≡ body_end framing }
    ensures never { is_ending result ≡ false → seen.now.closed ≡ false → chosen_over seen.now ≡ true → chosen_delivered seen.now + count ≡ chosen_received seen.now → ⊥ }
{
    let (out, came, over) = chosen(seen);
    if seen.closed {
        return Ending::NotYet;
    }
    if !over {
        return Ending::NotYet;
    }
    if came < out {
        return Ending::NotYet;
    }
    if came - out != count {
        return Ending::NotYet;
    }
    body_ending(framing)
}

fn is_begun(stage: HopStage) -> bool
    ensures { result ≡ is_message stage }
{
    matches!(stage, HopStage::Message)
}

fn is_in_chunks(framing: Framing) -> bool
    ensures { result ≡ is_chunks framing }
{
    matches!(framing, Framing::Chunked)
}

/// Of the chosen message: what went out of its body, what came of it, and whether it has ended.
fn chosen(seen: &Seen) -> (u64, u64, bool)
    ensures out { result.0 ≡ chosen_delivered seen.now }
    ensures came { result.1 ≡ chosen_received seen.now }
    ensures over { result.2 ≡ chosen_over seen.now }
{
    if seen.plan.kind == Kind::Plain || seen.no_mod {
        (seen.original_delivered, seen.received, seen.ended)
    } else {
        (
            seen.adapted_delivered,
            seen.adapted_received,
            seen.adapted_over,
        )
    }
}

/// Whether the body that came so far may have the length that its framing gives it.
fn fits_length(seen: &Seen, framing: Framing, came: u64, over: bool) -> bool
    requires came { came ≡ chosen_received seen.now }
    requires over { over ≡ chosen_over seen.now }
    ensures within { result ≡ true → IfSome (length_of framing) (λ n. chosen_received seen.now ≤ n) }
    ensures exact { result ≡ true → chosen_over seen.now ≡ true → IfSome (length_of framing) (λ n. chosen_received seen.now ≡ n) }
    ensures breaks { result ≡ false → BreaksLength seen.now framing }
{
    // For the proof alone: what is required is said of what the history shows.
    let _ = seen;
    match framing {
        Framing::None => came == 0,
        Framing::Length(n) => came <= n && (!over || came == n),
        Framing::Chunked | Framing::Close => true,
    }
}

fn body_ending(framing: Framing) -> Ending
    ensures is_end { is_ending result ≡ true }
    ensures text { end_text result ≡ body_end framing }
{
    match framing {
        Framing::Chunked => Ending::LastChunk(false),
        _ => Ending::Silent,
    }
}

/// The turn in which the wire took so many bytes of the body, or nothing at all, and the message is done or not.
pub(crate) fn turn_of(sent: Option<u64>, done: bool) -> Turn
    ensures events { result.events.items ≡ hop_events (count_of sent) done }
    ensures waits { result.waiting ≡ true → (result.events.items ≡ []) × (is_some sent ≡ false) }
    ensures goes { result.waiting ≡ false → (is_some sent ≡ false) → result.events.items ≡ [] → ⊥ }
{
    let mut events = ArrayVec::new();
    let count = sent.unwrap_or(0);
    if count > 0 {
        push_event(&mut events, Event::Usr(count));
    }
    if done {
        push_event(&mut events, Event::Done);
    }
    let waiting = sent.is_none() && !done;
    Turn { events, waiting }
}
