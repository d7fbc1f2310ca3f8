//! The line and the script of an exchange that isn't over.
use crate::decisions::events::read_plan;
use crate::decisions::histories::are_taken;
use crate::decisions::reports::address;
use crate::listed::index_of;
use crate::questions::cut;
use exchange_report::{
    Awaited, Caption, ExchangeId, Live, live_room, read_id, write_live, write_script,
};
use test_rows::{NoMemory, Row, number, put_line};
use trace_core::{Point, State};

/// The words of what an exchange may wait for.
const WORDS: &[u8] =
    b"user-body|origin-body|service-connection|service-options|service-takes|service-reply|\
service-body|origin-takes|origin-answer|user-takes|user-closes|proxy";

/// What these words mean.
const AWAITED: [Awaited; 12] = [
    Awaited::UserBody,
    Awaited::OriginBody,
    Awaited::ServiceConnection,
    Awaited::ServiceOptions,
    Awaited::ServiceTakes,
    Awaited::ServiceReply,
    Awaited::ServiceBody,
    Awaited::OriginTakes,
    Awaited::OriginAnswer,
    Awaited::UserTakes,
    Awaited::UserCloses,
    Awaited::Proxy,
];

/// Two numbers with a space between.
fn range(text: &[u8]) -> (u64, u64) {
    let (from, end) = cut(text, b" ");
    (number(from).unwrap_or(0), number(end).unwrap_or(0))
}

/// The point of a row.
fn point(row: &Row<'_>) -> Point {
    match index_of(b"request|response", row.get(b"point")) {
        Some(0) => Point::Reqmod,
        _ => Point::Respmod,
    }
}

/// What the exchange of a row waits for.
fn awaited(row: &Row<'_>) -> Awaited {
    match index_of(WORDS, row.get(b"awaits")) {
        Some(at) => AWAITED.get(at).copied().unwrap_or(Awaited::Proxy),
        None => Awaited::Proxy,
    }
}

/// The exchange of a row.
fn live_of<'a>(row: &Row<'a>, id: ExchangeId) -> Live<'a> {
    Live {
        id,
        age: row.number(b"age").unwrap_or(0),
        point: point(row),
        awaited: awaited(row),
        still: row.number(b"still").unwrap_or(0),
        held: range(row.get(b"held")),
        adapted: range(row.get(b"adapted")),
        received: row.number(b"in").unwrap_or(0),
        sent: row.number(b"svc").unwrap_or(0),
        adapted_received: row.number(b"ad").unwrap_or(0),
        delivered: row.number(b"usr").unwrap_or(0),
        claim: row.number(b"claim").unwrap_or(0),
        user: address(row.get(b"user")),
        method: row.get(b"method"),
        target: row.get(b"target"),
    }
}

/// Adds the line of a row's exchange, and whether it has more bytes than its room.
pub fn put_live(row: &Row<'_>, out: &mut Vec<u8>) -> Result<(), NoMemory> {
    let Some(id) = read_id(row.get(b"id")) else {
        return put_line(out, b"no id");
    };
    let live = live_of(row, id);
    write_live(out, &live)?;
    if out.len() > live_room(&live) {
        put_line(out, b"longer than its room")?;
    }
    Ok(())
}

/// Adds the script of a row's exchange.
pub fn put_script(row: &Row<'_>, out: &mut Vec<u8>) -> Result<(), NoMemory> {
    let (Some(id), Some(plan)) = (read_id(row.get(b"id")), read_plan(row.get(b"plan"))) else {
        return put_line(out, b"no id or no plan");
    };
    let mut state = State::begin(plan);
    if !are_taken(&mut state, row.get(b"after")) {
        return put_line(out, b"an event is refused");
    }
    let caption = Caption {
        id,
        at: row.number(b"ended").unwrap_or(0),
        method: row.get(b"method"),
        target: row.get(b"target"),
    };
    write_script(out, &caption, &state)
}
