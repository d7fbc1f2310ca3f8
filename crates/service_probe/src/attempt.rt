//! One message that a service is tried with.

use crate::bench::Bench;
use crate::finding::{Fault, Finding, ProbeOutcome};
use crate::line::{ProbeLine, ProbedConnection};
use crate::prepared::Prepared;
use crate::stage::{BankedCourse, ProbeCourse, TransactionRemains, end, move_on, set_out};
use crate::tap::Tap;
use crate::text_stream::TextWire;
use crate::verdict::left_over;
use adapt_sides::Scratch;
use plan_rules::Pace;
use proxy_config::Config;
use proxy_rules::{Incoming, Offer, Way, Wires, limits_of};
use socket_wire::{ServiceWire, Unread};
use span_bank::Ledgers;
use std::alloc::Global;
use std::boxed::Box;
use std::io;
use std::sync::Wait;
use std::time::{Clock, Instant};
use wire_kit::Wire;

/// The wires of a message: from its source over the service to where it goes.
type Ways = (TextWire, Tap<ServiceWire>, TextWire);

/// How a service answered once.
#[derive(Drop)]
pub struct ProbeAttempt {
    pub came: ProbeOutcome,
    /// The microseconds from the first byte of the request to the last one of the answer.
    pub micros: u64,
    /// Whether the connection may carry another request.
    pub serves: bool,
}

/// An attempt for which no connection was had, or that this machine failed.
pub fn failed(alloc: Global, fault: Fault) -> ProbeAttempt {
    ProbeAttempt {
        came: ProbeOutcome::Broken(Finding {
            fault,
            at: 0,
            octets: Vec::new(alloc),
        }),
        micros: 0,
        serves: false,
    }
}

/// The microseconds since a moment; 0 where the clock fails.
pub fn micros_since<R: Clock>(rt: &R, start: Instant) -> u64 {
    match start.elapsed(rt) {
        Ok(elapsed) => elapsed
            .as_secs()
            .saturating_mul(1_000_000)
            .saturating_add(u64::from(elapsed.subsec_micros())),
        Err(_) => 0,
    }
}

/// The pace of a message's transaction, which begins at 0 seconds.
fn pace_of(config: &Config) -> Pace {
    Pace::new(config.deadline.saturating_add(1), 0, false)
}

/// Runs a transaction to its end, or until the clock or the poll fails. How many microseconds passed since a start.
fn play<R: Clock, T: ProbeCourse>(
    rt: &R,
    course: &mut T,
    line: &mut ProbeLine,
    start: Instant,
) -> io::Result<u64> {
    for _ in 0..u64::MAX {
        let now = start.elapsed(rt)?.as_secs();
        if move_on(course, now) {
            break;
        }
        line.wait()?;
    }
    Ok(micros_since(rt, start))
}

/// Runs a transaction to its end. What is left of it, and how many microseconds it took; `None` where this machine failed it.
fn finish<B: Ledgers, R: Wait + Clock, W: Wires<ServiceWire = Tap<C>>, C: Wire + Drop>(
    alloc: Global,
    course: BankedCourse<'_, B, W, R>,
    line: &mut ProbeLine,
    start: Instant,
) -> io::Result<Option<(TransactionRemains<C>, u64)>> {
    let mut course = course;
    let played = play(course.rt, &mut course, line, start);
    match (played, end(alloc, course)?) {
        (Ok(micros), Some(left)) => Ok(Some((left, micros))),
        _ => Ok(None),
    }
}

/// Runs the transaction of a message to its end, as [`finish`] does. `None` where it can't begin, too.
fn run<B: Ledgers, R: Wait + Clock, W: Wires<ServiceWire = Tap<C>>, C: Wire + Drop>(
    bench: &Bench<'_, B, R>,
    offer: Box<Offer>,
    message: Box<Incoming>,
    way: Way<W>,
    scratch: &mut Scratch,
    line: &mut ProbeLine,
) -> io::Result<Option<(TransactionRemains<C>, u64)>> {
    let start = Instant::now(bench.rt)?;
    let (limits, pace) = (limits_of(bench.config), pace_of(bench.config));
    match set_out(
        bench.rt,
        bench.alloc,
        bench.bank,
        offer,
        message,
        way,
        limits,
        pace,
    ) {
        Some(running) => {
            let course = BankedCourse {
                rt: bench.rt,
                bank: bench.bank,
                scratch,
                running,
            };
            finish(bench.alloc, course, line, start)
        }
        None => Ok(None),
    }
}

/// What came of a message whose transaction took so many microseconds. The connection has its wire again.
fn conclude(
    alloc: Global,
    left: TransactionRemains<ServiceWire>,
    micros: u64,
    connection: &mut ProbedConnection,
) -> ProbeAttempt {
    let TransactionRemains {
        came,
        is_reusable,
        tap,
    } = left;
    let has_more = came.is_good() && connection.line.unread(tap.wire()) == Unread::Bytes;
    let came = if has_more {
        left_over(alloc, &tap)
    } else {
        came
    };
    connection.wire = Some(tap);
    ProbeAttempt {
        serves: came.is_good() && is_reusable,
        came,
        micros,
    }
}

/// Sends a message over a connection.
pub fn send<B: Ledgers, R: Wait + Clock>(
    bench: &Bench<'_, B, R>,
    prepared: Box<Prepared>,
    connection: &mut ProbedConnection,
) -> io::Result<ProbeAttempt> {
    let alloc = bench.alloc;
    let Some(mut tap) = connection.wire.take() else {
        return Ok(failed(alloc, Fault::System));
    };
    tap.forget();
    let Prepared {
        offer,
        message,
        source,
        next,
        mut scratch,
    } = Box::into_inner(prepared);
    let way: Way<Ways> = Way {
        source,
        service: Some(tap),
        next,
    };
    match run(
        bench,
        offer,
        message,
        way,
        &mut scratch,
        &mut connection.line,
    )? {
        Some((left, micros)) => Ok(conclude(alloc, left, micros, connection)),
        None => Ok(failed(alloc, Fault::System)),
    }
}
