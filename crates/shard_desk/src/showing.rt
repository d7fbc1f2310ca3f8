//! What the administrator gets to see of an exchange that goes on.

ghost use Rattle.std.specs.Prelude.{◌≡◌, ◌-◌, ◌++◌, ◌⊎◌, IfSome, OnOk, None, codes};
ghost use Rattle.trace_core.specs.Held.{held_adapted, held_original};
ghost use Rattle.trace_core.specs.History.{shows};
ghost use Rattle.exchange_core.specs.Dues.{due_of};
ghost use Rattle.exchange_report.specs.Live.{awaited_by, awaited_in, awaited_word, point_word};
ghost use Rattle.event_loop.specs.Sheets.{CountsIdle};
ghost use Rattle.shard_report.specs.Notes.{IsOpen};
ghost use Rattle.shard_desk.specs.Showing.{outgoing_by};

use crate::desk::Desk;
use crate::reporter::Noted;
use crate::seats::SECOND;
use crate::shared::Shares;
use adapt_turn::Outcome;
use event_loop::{Question, Sheet};
use exchange_core::Due;
use exchange_report::{
    Address, Awaited, Caption, ExchangeId, Live, Outgoing, awaited_by, awaited_in, live_room,
    point_word, write_live, write_script,
};
use shard_exchange::Exchange;
use shard_message::{Holdings, Kinds, Moving, OnShow, Shown};
use shard_report::{address_of, elapsed_of, moment};
use std::alloc::AllocError;
use std::net::SocketAddrV4;
use std::time::Clock;

/// No fewer bytes than the events and the questions of a script have.
const SCRIPT_ROOM: usize = 4096;

/// What goes out of a message that moves.
fn outgoing(shown: &Shown<'_>) -> Outgoing
    ensures { result ≡ outgoing_by shown.now.outcome shown.now.answers_user }
{
    match shown.outcome {
        Some(Outcome::Fail(_)) => Outgoing::Refusal,
        _ if shown.answers_user => Outgoing::Answer,
        _ => Outgoing::Message,
    }
}

/// What an exchange waits for.
fn awaited(due: Due, shown: &Option<Shown<'_>>) -> Awaited
    ensures moves { IfSome shown.now (λ shown. due ≡ Due.Turn → result ≡ awaited_by (shows shown.state.now) (outgoing_by shown.outcome shown.answers_user)) }
    ensures rests { (due ≡ Due.Turn → shown.now ≡ None) → result ≡ awaited_in due }
{
    match shown {
        Some(shown) if due == Due::Turn => awaited_by(shown.state, outgoing(shown)),
        _ => awaited_in(due),
    }
}

/// How a message that moves stands, in the line of its exchange.
fn moving<'a>(line: Live<'a>, shown: &Shown<'_>) -> Live<'a>
    ensures held { (result.held ≡ held_original (shows shown.now.state.now)) × (result.adapted ≡ held_adapted (shows shown.now.state.now)) }
    ensures claim { result.claim ≡ shown.now.claim }
    ensures whose { (result.id ≡ line.entry.id) × (result.awaited ≡ line.entry.awaited) × (result.still ≡ line.entry.still) }
    ensures named { (result.point ≡ line.entry.point) × (result.method ≡ line.entry.method) × (result.target ≡ line.entry.target) }
{
    let seen = shown.state.seen();
    Live {
        held: shown.state.held_original(),
        adapted: shown.state.held_adapted(),
        received: seen.received,
        sent: seen.sent,
        adapted_received: seen.adapted_received,
        delivered: seen
            .original_delivered
            .saturating_add(seen.adapted_delivered),
        claim: shown.claim,
        ..line
    }
}

/// When anything of an exchange moved last, in seconds of the loop, where this is when anything moved at its seat.
fn last_moved(moved: u64, shown: &Option<Shown<'_>>) -> u64 {
    match shown {
        Some(shown) => moved.max(shown.last_moved),
        None => moved,
    }
}

/// For how many whole seconds nothing has moved at this second of the loop. A moment is the second in which it lies, so one second less
/// has passed for certain.
fn still_for(now: u64, moved: u64) -> u64
    ensures { result ≡ now - moved - 1 }
{
    now.saturating_sub(moved).saturating_sub(1)
}

/// Where the user of an exchange is.
fn user_of<S: Shares>(desk: &Desk<S>, key: usize) -> Option<Address> {
    match desk.seats.user_address(key) {
        Some(address) => Some(address_of(SocketAddrV4::new(address, 0))),
        None => None,
    }
}

/// Whose exchange it is under a key, as its desk knows it.
#[derive(Clone, Copy)]
struct ShownSeat {
    thread: u64,
    key: u64,
    user: Option<Address>,
    /// When anything moved at its seat, in seconds of the loop.
    moved: u64,
}

/// Whose exchange it is under this key.
fn seat_of<S: Shares>(desk: &Desk<S>, key: usize) -> ShownSeat
    ensures { result.key ≡ key }
{
    ShownSeat {
        thread: desk.shared.number() as u64,
        key: key as u64,
        user: user_of(desk, key),
        moved: desk.seats.moved(key),
    }
}

/// The line of an exchange, at this moment in milliseconds since 1970, and this second of the loop.
fn line_of<'a, O: Kinds>(
    seat: &ShownSeat,
    noted: Noted<'a>,
    exchange: &Exchange<Holdings<O>>,
    at: u64,
    now: u64,
) -> Live<'a>
    ensures id { (result.id.key ≡ seat.now.key) × (result.id.number ≡ noted.entry.note.number) }
    ensures whose { (result.point ≡ noted.entry.note.point) × (result.method ≡ noted.entry.method) × (result.target ≡ noted.entry.target) }
    ensures rests { (due_of exchange.now.course ≡ Due.Turn → ⊥) → result.awaited ≡ awaited_in (due_of exchange.now.course) }
    ensures held { IfSome exchange.now.holdings.tx (λ tx. (result.held ≡ held_original (shows (⟦<Moving<O> as OnShow>⟧.history tx)))
        × (result.adapted ≡ held_adapted (shows (⟦<Moving<O> as OnShow>⟧.history tx))) × (result.claim ≡ ⟦<Moving<O> as OnShow>⟧.claimed tx)) }
{
    let holdings = exchange.holdings();
    let shown = holdings.shown();
    let line = Live {
        id: ExchangeId {
            thread: seat.thread,
            key: seat.key,
            number: noted.note.number,
        },
        age: elapsed_of(&noted.note, at) / SECOND,
        point: noted.note.point,
        awaited: awaited(exchange.due(), &shown),
        still: still_for(now, last_moved(seat.moved, &shown)),
        held: (0, 0),
        adapted: (0, 0),
        received: 0,
        sent: 0,
        adapted_received: 0,
        delivered: 0,
        claim: holdings.claim(),
        user: seat.user,
        method: noted.method,
        target: noted.target,
    };
    match &shown {
        Some(shown) => moving(line, shown),
        None => line,
    }
}

/// Adds a line to a sheet, if it has room for it.
fn add_line(sheet: &mut Sheet, line: &Live<'_>) {
    let is_written = match sheet.begin_line(live_room(line)) {
        Some(text) => write_live(text, line).is_ok(),
        None => false,
    };
    if is_written {
        sheet.end_line(line.still);
    }
}

/// Adds what an exchange waits for that has no transaction.
fn write_none(text: &mut Vec<u8>, line: &Live<'_>) -> Result<(), AllocError>
    ensures { OnOk result (text.new.items ≡ text.old.items ++ codes "none " ++ point_word line.now.point ++ codes " waits-for " ++ awaited_word line.now.awaited ++ codes "\n") }
{
    text.extend_from_slice(b"none ")?;
    text.extend_from_slice(point_word(line.point))?;
    text.extend_from_slice(b" waits-for ")?;
    text.extend_from_slice(line.awaited.word())?;
    text.extend_from_slice(b"\n")
}

/// Writes the script of a message that moves, or what an exchange waits for that has none.
fn add_script(sheet: &mut Sheet, line: &Live<'_>, shown: Option<Shown<'_>>, at: u64) {
    let Some(text) = sheet.begin_line(live_room(line).saturating_add(SCRIPT_ROOM)) else {
        return;
    };
    let written = match shown {
        Some(shown) => {
            let caption = Caption {
                id: line.id,
                at,
                method: line.method,
                target: line.target,
            };
            write_script(text, &caption, shown.state)
        }
        None => write_none(text, line),
    };
    if written.is_ok() {
        sheet.end_line(line.still);
    }
}

/// Writes on a sheet what the administrator wants to know of the exchange under this key. `now` is the number of seconds since the loop's
/// start.
pub(crate) fn show<S: Shares, R: Clock>(
    rt: &R,
    desk: &Desk<S>,
    key: usize,
    exchange: &Exchange<Holdings<Desk<S>>>,
    question: Question,
    now: u64,
    sheet: &mut Sheet,
)
    ensures idle { IsOpen desk.now.reporter.notes.notes.items key ⊎ CountsIdle sheet.old sheet.new }
{
    let Some(noted) = desk.noted(key) else {
        sheet.count_idle();
        return;
    };
    let at = moment(rt);
    let line = line_of(&seat_of(desk, key), noted, exchange, at, now);
    match question {
        Question::Exchanges => add_line(sheet, &line),
        Question::Waiting if line.still > 0 => add_line(sheet, &line),
        Question::Trace(id) if id.is(line.id) => {
            add_script(sheet, &line, exchange.holdings().shown(), at);
        }
        Question::Waiting | Question::Trace(_) => {}
    }
}
