//! What threads do with reservations and their tapes, and how long that takes: a grow with its shrink, whole turns of 4,096 bytes
//! on a short and on a long tape beside the two copies alone, and rounds in four threads.
ghost use Rattle.std.specs.Prelude.{◌≡◌, ◌+◌, ◌*◌, ◌≤◌, ◌<◌, length};
ghost use Rattle.adapt_bytes.specs.declared.limits.TheConstants.{COUNT_LIMIT};
ghost use Rattle.span_bank.specs.declared.limits.TheConstants.{MAX_CAPACITY};
ghost use Rattle.span_tape.specs.Tape.{end_of};

use crate::bench_budget::BenchBudget;
use crate::nanos_each;
use crate::threads::rounds_of_four;
use anyhow::Result;
use span_bank::{Bank, Ledgers, Pages, Stake};
use span_tape::SpanTape;
use std::sync::Wait;
use std::thread::Threads;
use std::time::{Clock, Duration, Instant};

/// The bytes of a turn.
pub const PIECE: u64 = 4096;

/// How long the rounds of growing and shrinking one reservation took, with no other thread.
pub fn time_pairs<B: Ledgers, R: Wait + Clock>(
    rt: &R,
    bank: &Bank<B>,
    rounds: u32,
) -> Result<Duration> {
    let mut stake = bank.open(rt, PIECE)?;
    let start = Instant::now(rt);
    for _ in 0..rounds {
        let page = bank.grow(rt, &mut stake, PIECE, 1);
        bank.shrink(rt, &mut stake, PIECE, page);
    }
    // A reservation can't be lost, so a clock that fails waits until it has ended.
    let took = match start {
        Ok(start) => start.elapsed(rt),
        Err(error) => Err(error),
    };
    bank.close(rt, stake, Pages::none());
    Ok(took?)
}

/// A piece of this byte.
fn piece_of(byte: u8) -> [u8; 4096] {
    [byte; 4096]
}

/// How long it took to copy a piece into a buffer and out of it, for all rounds.
fn time_copies<R: Clock>(rt: &R, rounds: u32) -> Result<Duration> {
    let input = piece_of(7);
    let mut buffer = piece_of(0);
    let mut out = piece_of(0);
    let start = Instant::now(rt)?;
    for _ in 0..rounds {
        copy(&input, &mut buffer);
        copy(&buffer, &mut out);
    }
    Ok(start.elapsed(rt)?)
}

// Copies a piece.
#[inline(never)]
fn copy(from: &[u8; 4096], to: &mut [u8; 4096]) {
    to.copy_from_slice(from);
}

/// How long whole turns took on a tape that keeps this number of pieces: in each a piece comes, is copied
/// out, and the oldest one goes.
pub fn time_tape<B: Ledgers, R: Wait + Clock>(
    rt: &R,
    bank: &Bank<B>,
    rounds: u32,
    kept: u64,
) -> Result<Duration>
    requires { kept ≤ 256 }
{
    let input = piece_of(7);
    let mut out = piece_of(0);
    let mut stake = bank.open(rt, PIECE * (kept + 1))?;
    let mut tape = SpanTape::new();
    for _piece in 0..kept {
        let mut page = bank.grow(rt, &mut stake, PIECE, 1);
        tape.append(&input, &mut page);
    }
    let start = Instant::now(rt);
    for _round in 0..rounds {
        turn(rt, bank, &mut stake, &mut tape, &input, &mut out);
    }
    let took = match start {
        Ok(start) => start.elapsed(rt),
        Err(error) => Err(error),
    };
    let end = tape.end();
    let pages = tape.drop_to(end);
    let held = stake.held();
    if held > 0 {
        bank.shrink(rt, &mut stake, held, pages);
        bank.close(rt, stake, Pages::none());
    } else {
        bank.close(rt, stake, pages);
    }
    Ok(took?)
}

// A piece comes at the end, is copied out there, and the oldest one goes.
fn turn<B: Ledgers>(
    rt: &impl Wait,
    bank: &Bank<B>,
    stake: &mut Stake<B>,
    tape: &mut SpanTape,
    input: &[u8; 4096],
    out: &mut [u8; 4096],
)
    requires room { stake.old.held + 4096 ≤ stake.old.claim }
    requires claim { stake.old.claim ≤ MAX_CAPACITY }
    requires pieces { (stake.old.held ≡ 4096 * stake.old.pages) × (length tape.old.bytes ≡ stake.old.held) × (tape.old.start ≡ 0) }
    requires fits { end_of tape.old + 4096 < COUNT_LIMIT }
    ensures stake { stake.new ≡ stake.old }
    ensures tape { (length tape.new.bytes ≡ stake.old.held) × (tape.new.start ≡ 0) × (tape.new.base ≡ tape.old.base + 4096) }
{
    let more = tape.pages_for(PIECE);
    let mut pages = bank.grow(rt, stake, PIECE, more);
    tape.append(input, &mut pages);
    let from = tape.end() - PIECE;
    tape.copy_out(from, out);
    let first = tape.base() + PIECE;
    let gone = tape.drop_to(first);
    bank.shrink(rt, stake, PIECE, gone);
}

/// Prints what each of these rounds took.
fn put_each<R: Eprint>(rt: &R, name: &str, took: Duration, rounds: u32) -> Result<()> {
    let each = nanos_each(took, rounds);
    eprintln!(rt; "{name}: {each} ns")?;
    Ok(())
}

/// Prints what one thread takes.
fn time_one<P: BenchBudget, R: Clock + Eprint>(rt: &R, budget: &P, rounds: u32) -> Result<()> {
    put_each(
        rt,
        "a grow and a shrink",
        budget.time_pairs(rounds)?,
        rounds,
    )?;
    put_each(
        rt,
        "two copies of 4096 bytes",
        time_copies(rt, rounds)?,
        rounds,
    )?;
    let empty = "grow, append, copy_out, drop_to and shrink of 4096 bytes";
    put_each(rt, empty, budget.time_tape(rounds, 0)?, rounds)?;
    let short = "the same on a tape of 8192 bytes";
    put_each(rt, short, budget.time_tape(rounds, 2)?, rounds)?;
    let long = "the same on a tape of 1048576 bytes";
    put_each(rt, long, budget.time_tape(rounds, 256)?, rounds)
}

/// Prints what four threads take.
fn time_four<P: BenchBudget + Sync, R: Threads + Clock + Eprint + Sync>(
    rt: &R,
    budget: &P,
    rounds: u32,
) -> Result<()> {
    let start = Instant::now(rt)?;
    let all = rounds_of_four(rt, budget, rounds);
    let step = nanos_each(start.elapsed(rt)?, rounds) / 16;
    all?;
    eprintln!(rt;
        "four threads, {rounds} rounds of open, grow, shrink and close each: {step} ns a step"
    )?;
    Ok(())
}

/// Prints what a round takes.
pub fn time_budget<P: BenchBudget + Sync, R: Threads + Clock + Print + Eprint + Sync>(
    rt: &R,
    budget: &P,
    rounds: u32,
) -> Result<()> {
    time_one(rt, budget, rounds)?;
    time_four(rt, budget, rounds)?;
    println!(rt; "bank: {rounds} rounds")?;
    Ok(())
}
