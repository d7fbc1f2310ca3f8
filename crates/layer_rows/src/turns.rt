//! Transactions: the proxy's own sides over wires in memory, turned by a script, one alone, two beside each other, or some in threads.

mod banks;
mod beside;
mod case;
mod crowds;
mod game_budget;
mod held;
mod shared;
mod steps;
mod threads;
mod told;
mod wires;

use crate::turns::banks::{Run, put_turns};
use std::alloc::Global;
use std::sync::Wait;
use std::thread::Threads;
use std::time::Clock;
use test_rows::{NoMemory, Scene, Values};
use wire_kit::Answer;

/// What two transactions in two threads claim: a window and a window, twice.
const OF_TWO: u64 = 32_768;

/// Of these bytes each transaction of a crowd claims 16,384.
const OF_CROWD: u64 = 20_000;

/// The letters of a row that names no letters.
const NO_LETTERS: Values = Values {
    n: 0,
    m: 0,
    s: 0,
    e: Answer::Wait,
};

/// Adds what a run of a row reports.
pub fn put_run<R: Wait>(
    rt: &R,
    alloc: Global,
    scene: Scene<'_>,
    values: Values,
    out: &mut Vec<u8>,
) -> Result<(), NoMemory> {
    let run = Run {
        rt,
        alloc,
        scene,
        values,
    };
    put_turns(&run, out)
}

/// Adds what threads report that play transactions of the row on one budget: two, or a crowd.
pub fn put_threads<R: Threads + Wait + Clock + Sync>(
    rt: &R,
    alloc: Global,
    scene: Scene<'_>,
    out: &mut Vec<u8>,
) -> Result<(), NoMemory> {
    let run = Run {
        rt,
        alloc,
        scene,
        values: NO_LETTERS,
    };
    if scene.is(b"call", b"crowd") {
        return shared::put_threads(&run, OF_CROWD, 4, out);
    }
    shared::put_threads(&run, OF_TWO, 2, out)
}
