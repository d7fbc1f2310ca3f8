//! A service's options: asked for, and said in words (RFC 3507, section 4.10).

use crate::attempt::{ProbeAttempt, failed, micros_since};
use crate::excerpt::{find, find_in_options};
use crate::finding::{Fault, Finding, ProbeOutcome};
use crate::line::{ProbeLine, ProbedConnection, connect, connect_seconds};
use crate::tap::Tap;
use crate::text::put_value;
use adapt_bytes::has_item;
use adapt_sides::{Scratch, WIRE_ROOM};
use icap_client::OptionsSide;
use icap_head::{Fields, IcapResponse};
use options_book::{Record, read_record};
use proxy_config::{Config, ServicePoint};
use proxy_rules::{ask_options, is_reusable_after_options};
use socket_wire::{Dial, ServiceWire};
use std::alloc::{AllocError, Global};
use std::boxed::Box;
use std::io;
use std::net::Net;
use std::time::{Clock, Instant};
use trace_core::Point;
use wire_kit::Wire;

/// What a service said of its options.
#[derive(Drop)]
pub struct OptionsAnswer {
    pub attempt: ProbeAttempt,
    /// Its options, where it serves.
    pub said: Option<ProbedOptions>,
}

/// The options of a service.
#[derive(Drop)]
pub struct ProbedOptions {
    /// In words, a line for each.
    pub words: Vec<u8>,
    /// The size of the previews that it wants, if it wants some.
    pub preview: Option<u64>,
}

/// What came of a request for options.
#[derive(Drop)]
enum OptionsReply {
    /// An answer.
    Answer(IcapResponse),
    /// What broke a rule, or kept the answer away.
    Fault(Fault),
}

/// What was made of it.
#[derive(Drop)]
enum Judged {
    /// The options, and whether the connection may carry another request.
    Serves(ProbedOptions, bool),
    /// A fault.
    Broken(Finding),
}

/// What is told of an attempt that brought no answer.
fn untold(attempt: ProbeAttempt) -> OptionsAnswer {
    OptionsAnswer {
        attempt,
        said: None,
    }
}

/// Asks to the end, or until nothing moved for so many seconds.
fn hear<R: Clock>(
    rt: &R,
    side: &mut OptionsSide,
    tap: &mut Tap<ServiceWire>,
    buffer: &mut [u8; WIRE_ROOM],
    line: &mut ProbeLine,
    seconds: u64,
) -> io::Result<OptionsReply> {
    let mut moved = Instant::now(rt)?;
    for _ in 0..u64::MAX {
        let before = tap.counts();
        match side.turn(tap, &mut buffer[..]) {
            Ok(Some(answer)) => return Ok(OptionsReply::Answer(answer)),
            Err(fault) => return Ok(OptionsReply::Fault(Fault::of_side(fault))),
            Ok(None) if tap.counts() != before => moved = Instant::now(rt)?,
            Ok(None) if line.wait_within(rt, moved, seconds)? => {}
            Ok(None) => break,
        }
    }
    Ok(OptionsReply::Fault(Fault::Deadline))
}

/// Judges an answer by the options that it says for a point, and by the bytes that were left over.
fn judge_answer<W>(
    alloc: Global,
    answer: &IcapResponse,
    point: Point,
    side: &OptionsSide,
    tap: &Tap<W>,
) -> Result<Judged, AllocError> {
    let record = match read_record(alloc, answer, point, 0) {
        Ok(record) => record,
        Err(fault) => {
            let found = find_in_options(alloc, tap, Fault::of_options(fault))?;
            return Ok(Judged::Broken(found));
        }
    };
    if side.raw_left() > 0 {
        let found = find(alloc, tap, Fault::LeftOver, side.raw_left())?;
        return Ok(Judged::Broken(found));
    }
    let said = ProbedOptions {
        words: words_of(alloc, answer, &record)?,
        preview: record.preview(),
    };
    Ok(Judged::Serves(said, is_reusable_after_options(side, answer)))
}

/// Judges what came.
fn judge<W>(
    alloc: Global,
    heard: OptionsReply,
    point: Point,
    side: &OptionsSide,
    tap: &Tap<W>,
) -> Result<Judged, AllocError> {
    match heard {
        OptionsReply::Answer(answer) => judge_answer(alloc, &answer, point, side, tap),
        OptionsReply::Fault(fault) => {
            let found = find(alloc, tap, fault, side.raw_left())?;
            Ok(Judged::Broken(found))
        }
    }
}

/// What is told by what was made of an answer that came after so many microseconds.
fn told_of(judged: Judged, micros: u64) -> OptionsAnswer {
    let (came, serves, said) = match judged {
        Judged::Serves(said, serves) => (ProbeOutcome::Options, serves, Some(said)),
        Judged::Broken(found) => (ProbeOutcome::Broken(found), false, None),
    };
    OptionsAnswer {
        attempt: ProbeAttempt {
            came,
            micros,
            serves,
        },
        said,
    }
}

/// Asks for the options of a point over a wire, and judges what comes.
fn answer_over<R: Clock>(
    rt: &R,
    alloc: Global,
    point: Point,
    side: &mut OptionsSide,
    tap: &mut Tap<ServiceWire>,
    line: &mut ProbeLine,
    seconds: u64,
) -> io::Result<OptionsAnswer> {
    let mut scratch = Scratch::new(alloc)?;
    let start = Instant::now(rt)?;
    let heard = hear(rt, side, tap, &mut scratch.wire, line, seconds);
    let micros = micros_since(rt, start);
    match heard {
        Ok(heard) => Ok(told_of(judge(alloc, heard, point, side, tap)?, micros)),
        Err(_) => Ok(untold(failed(alloc, Fault::System))),
    }
}

/// Asks a service for its options over a connection.
fn ask_over<R: Clock>(
    rt: &R,
    alloc: Global,
    service: &ServicePoint,
    point: Point,
    connection: &mut ProbedConnection,
    seconds: u64,
) -> io::Result<OptionsAnswer> {
    let mut side = ask_options(alloc, service)?;
    let ProbedConnection { line, wire } = connection;
    match wire {
        Some(tap) => answer_over(rt, alloc, point, &mut side, tap, line, seconds),
        None => Ok(untold(failed(alloc, Fault::System))),
    }
}

/// Asks a service for its options over a fresh connection, which is kept where it may carry another request.
pub fn ask<R: Net + Dial + Clock>(
    rt: &R,
    alloc: Global,
    config: &Config,
    service: &ServicePoint,
    point: Point,
    kept: &mut Option<Box<ProbedConnection>>,
) -> io::Result<OptionsAnswer> {
    let Some(connection) = connect(rt, alloc, service.address, connect_seconds(config)) else {
        return Ok(untold(failed(alloc, Fault::Refused)));
    };
    let mut connection = connection;
    let told = ask_over(rt, alloc, service, point, &mut connection, config.deadline)?;
    if told.attempt.serves {
        *kept = Some(connection);
    }
    Ok(told)
}

/// Adds a line with the values of all fields of a name, where there are some.
fn put_fields(
    out: &mut Vec<u8>,
    fields: &Fields,
    name: &[u8],
    unit: &[u8],
) -> Result<(), AllocError> {
    let mut comma: &[u8] = b" ";
    let mut line = false;
    for value in fields.values(name) {
        if !line {
            out.extend_from_slice(b"  ")?;
            out.extend_from_slice(name)?;
        }
        line = true;
        out.extend_from_slice(comma)?;
        put_value(out, value)?;
        comma = b", ";
    }
    if line {
        out.extend_from_slice(unit)?;
        out.extend_from_slice(b"\n")?;
    }
    Ok(())
}

/// Where a service may answer 204, by what it says: within a preview where it wants one, and outside where it allows 204.
fn where_204(has_preview: bool, allows: bool) -> &'static [u8] {
    match (has_preview, allows) {
        (true, true) => b"  204 within a preview, and outside one\n",
        (true, false) => b"  204 within a preview alone\n",
        (false, true) => b"  204 outside a preview alone; it wants none\n",
        (false, false) => b"  no 204\n",
    }
}

/// The fields that are said, and what stands after their values.
const SAID: [(&[u8], &[u8]); 9] = [
    (b"Methods", b""),
    (b"Service", b""),
    (b"ISTag", b""),
    (b"Options-TTL", b" seconds"),
    (b"Max-Connections", b""),
    (b"Preview", b" bytes"),
    (b"Transfer-Preview", b""),
    (b"Transfer-Complete", b""),
    (b"Transfer-Ignore", b""),
];

/// What an answer says, in words.
fn words_of(alloc: Global, answer: &IcapResponse, record: &Record) -> Result<Vec<u8>, AllocError> {
    let mut words = Vec::new(alloc);
    for (name, unit) in SAID.iter() {
        put_fields(&mut words, &answer.fields, name, unit)?;
    }
    let allows = answer
        .fields
        .values(b"Allow")
        .any(|value| has_item(value, b"204"));
    words.extend_from_slice(where_204(record.preview().is_some(), allows))?;
    Ok(words)
}
