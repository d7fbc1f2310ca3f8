//! The command lines of `adaptproxy` and `icapd`: arguments, configurations, scripts and bodies, over readers and writers that may fail.

mod arguments;
mod configurations;
mod devices;
mod probes;
mod runs;
mod servers;

use std::alloc::Global;
use std::rt::Files;
use test_rows::{NoMemory, Row};

/// Adds the answer to a row of these calls; nothing for another one.
pub fn put_answer<R: Files + AllocGlobal>(
    rt: &R,
    alloc: Global,
    call: &[u8],
    row: &Row<'_>,
    out: &mut Vec<u8>,
) -> Result<(), NoMemory> {
    arguments::put_answer(alloc, call, row, out)?;
    probes::put_answer(alloc, call, row, out)?;
    runs::put_answer(alloc, call, row, out)?;
    configurations::put_answer(rt, alloc, call, row, out)?;
    servers::put_answer(alloc, call, row, out)
}
