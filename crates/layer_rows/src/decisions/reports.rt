//! The log's line of an exchange, the text of the counters, and the page of a refusal.
use crate::listed::index_of;
use crate::questions::cut;
use exchange_report::{
    Address, Destination, Entry, Family, Kind, Metric, Reason, Reply, Summary, Verdict, Why,
    metrics_text, page_refusal, write_line,
};
use std::alloc::Global;
use test_rows::{NoMemory, Row, number, words_of};

/// The reasons, in the order of the table that says what each is.
const WHYS: [Why; 22] = [
    Why::Served,
    Why::Failed(Reason::BadRequest),
    Why::Failed(Reason::NotServed),
    Why::Failed(Reason::RequestBroken),
    Why::Failed(Reason::UnknownHost),
    Why::Failed(Reason::Denied),
    Why::Failed(Reason::OriginRefused),
    Why::Failed(Reason::OriginBroken),
    Why::Failed(Reason::OriginDeadline),
    Why::Failed(Reason::ServiceRefused),
    Why::Failed(Reason::ServiceStatus),
    Why::Failed(Reason::ServiceBroken),
    Why::Failed(Reason::ServiceDeadline),
    Why::Failed(Reason::ServicePaused),
    Why::Failed(Reason::Busy),
    Why::Failed(Reason::Full),
    Why::Failed(Reason::NoRow),
    Why::Failed(Reason::NoSeat),
    Why::Failed(Reason::NoMemory),
    Why::Failed(Reason::UserDeadline),
    Why::UserGone,
    Why::Failed(Reason::Stopping),
];

/// The address of four numbers, as `192 0 2 1`.
pub fn address(text: &[u8]) -> Option<Address> {
    let (first, rest) = cut(text, b" ");
    let (second, rest) = cut(rest, b" ");
    let (third, fourth) = cut(rest, b" ");
    Some(Address {
        first: number(first)?.min(255) as u8,
        second: number(second)?.min(255) as u8,
        third: number(third)?.min(255) as u8,
        fourth: number(fourth)?.min(255) as u8,
    })
}

/// Sets what a word says of a verdict.
fn set_word(verdict: &mut Verdict, word: &[u8]) {
    match index_of(b"retried|continued|plain|unchanged|changed", word) {
        Some(0) => verdict.retried = true,
        Some(1) => verdict.continued = true,
        Some(2) => verdict.reply = Reply::Plain,
        Some(3) => verdict.reply = Reply::Unchanged,
        Some(4) => verdict.reply = Reply::Changed,
        _ => {}
    }
}

/// The verdict of words, as `retried continued unchanged`.
fn verdict(text: &[u8]) -> Verdict {
    let mut verdict = Verdict::NONE;
    for word in words_of(text) {
        set_word(&mut verdict, word);
    }
    verdict
}

/// Where the request of a row went.
fn destination(row: &Row<'_>) -> Option<Destination> {
    match address(row.get(b"parent")) {
        Some(parent) => Some(Destination::Parent(parent)),
        None => Some(Destination::Origin(address(row.get(b"origin"))?)),
    }
}

/// Why the exchange of a row ended as it did.
fn why_of(row: &Row<'_>) -> Why {
    let why = row.number(b"why").unwrap_or(0);
    match WHYS.get(why as usize) {
        Some(why) => *why,
        None => Why::Served,
    }
}

/// What became of the exchange of a row.
fn summary_of(row: &Row<'_>) -> Summary {
    Summary {
        reqmod: verdict(row.get(b"reqmod")),
        respmod: verdict(row.get(b"respmod")),
        why: why_of(row),
        received: row.number(b"in").unwrap_or(0),
        refusal: row.number(b"number"),
    }
}

/// The exchange of a row.
fn entry_of<'a>(row: &Row<'a>) -> Entry<'a> {
    Entry {
        ended: row.number(b"ended").unwrap_or(0),
        elapsed: row.number(b"elapsed").unwrap_or(0),
        user: address(row.get(b"user")),
        refused: row.has(b"refused"),
        status: row.number(b"status").unwrap_or(200).min(65_535) as u16,
        sent: row.number(b"sent").unwrap_or(0),
        method: row.get(b"method"),
        target: row.get(b"target"),
        destination: destination(row),
        kind: row.get(b"type"),
        found: row.get(b"found"),
        summary: summary_of(row),
    }
}

const SERVED: Family = Family {
    name: b"served",
    kind: Kind::Counter,
    help: b"Those that were served.",
};

const TIMES: Family = Family {
    name: b"times",
    kind: Kind::Histogram,
    help: b"The seconds that they took.",
};

const OPEN: Family = Family {
    name: b"open",
    kind: Kind::Gauge,
    help: b"Those that are open.",
};

/// Adds the text of three families: two numbers of the first, and one of a reason; two bounds of the second; one number of the third.
pub fn put_metrics(alloc: Global, row: &Row<'_>, out: &mut Vec<u8>) -> Result<(), NoMemory> {
    let metrics = [
        Metric::Family(SERVED),
        Metric::Sample(SERVED, b"{at=\"first\"}", row.number(b"first").unwrap_or(0)),
        Metric::Sample(
            SERVED,
            b"{at=\"second\"}",
            row.number(b"second").unwrap_or(0),
        ),
        Metric::Reason(
            SERVED,
            b"third",
            Why::UserGone,
            row.number(b"gone").unwrap_or(0),
        ),
        Metric::Family(TIMES),
        Metric::Bucket(TIMES, b"{le=\"0.5\"}", row.number(b"short").unwrap_or(0)),
        Metric::Bucket(TIMES, b"{le=\"+Inf\"}", row.number(b"timed").unwrap_or(0)),
        Metric::Times(
            TIMES,
            row.number(b"timed").unwrap_or(0),
            row.number(b"took").unwrap_or(0),
        ),
        Metric::Family(OPEN),
        Metric::Sample(OPEN, b"", row.number(b"open").unwrap_or(0)),
    ];
    let text = metrics_text(alloc, &metrics)?;
    out.extend_from_slice(text.as_slice())
}

/// Adds the line of the row's exchange.
pub fn put_entry(row: &Row<'_>, out: &mut Vec<u8>) -> Result<(), NoMemory> {
    write_line(out, &entry_of(row))
}

/// Adds the refusal with the row's page, for the row's reason.
pub fn put_page(alloc: Global, row: &Row<'_>, out: &mut Vec<u8>) -> Result<(), NoMemory> {
    let why = why_of(row);
    let Why::Failed(reason) = why else {
        return Ok(());
    };
    let text = page_refusal(
        alloc,
        reason.status(),
        row.get(b"page"),
        why,
        row.number(b"number").unwrap_or(0),
        row.get(b"method") == b"HEAD".as_slice(),
    )?;
    out.extend_from_slice(text.as_slice())
}
