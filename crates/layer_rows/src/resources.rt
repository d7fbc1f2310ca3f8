//! What transactions share or hold: budgets and pools, one call after another, tapes on a bank's store, budgets and pools shared by
//! threads, and the lending of connections.

mod banks;
mod budget_states;
mod budget_threads;
mod budgets;
mod calls;
mod lines;
mod pools;
mod reserved;
mod sharing;
mod states;
mod steps;
mod tapes;
mod threads;
mod words;

use crate::listed::index_of;
use std::alloc::Global;
use std::sync::Wait;
use std::thread::Threads;
use test_rows::{NoMemory, Row};

/// The calls of rows, in the order of `put_answer`.
const CALLS: &[u8] =
    b"pool|threads of a pool|state|budget state|play|texts|budget|tape|threads of both|threads of a budget";

/// Adds the answer to a row of these calls; nothing for another one.
pub fn put_answer<R: Threads + Wait + Sync>(
    rt: &R,
    alloc: Global,
    call: &[u8],
    row: &Row<'_>,
    out: &mut Vec<u8>,
) -> Result<(), NoMemory> {
    match index_of(CALLS, call) {
        Some(0..=1) => pools::put_pool(rt, alloc, call, row, out),
        Some(2) => states::put_state(alloc, row, out),
        Some(3) => budget_states::put_state(alloc, row, out),
        Some(4) => lines::put_play(rt, alloc, row, out),
        Some(5) => words::put_texts(out),
        Some(6..=9) => banks::put_bank(rt, alloc, call, row, out),
        _ => Ok(()),
    }
}
