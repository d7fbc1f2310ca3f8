//! The state machines and rules: histories and their scripts, plans, options, worlds, configurations, courses and reports.

mod claims;
mod configurations;
mod courses;
mod events;
mod histories;
mod lives;
mod marks;
mod options;
mod plans;
mod printed;
mod random;
mod reports;
mod scripts;
mod worlds;

use crate::listed::index_of;
use std::alloc::Global;
use test_rows::{NoMemory, Row};

/// The calls of rows, in the order of `put_answer`.
const CALLS: &[u8] =
    b"history|plan in range|read options|texts of faults|extension|plan of a message|limits in range|least claim|\
world|read configuration|values|hosts|access|hosts file|change|write_line|metrics_text|course|random histories|page_refusal|write_live|write_script|ranges";

/// Adds the answer to a row of these calls; nothing for another one.
pub fn put_answer(
    alloc: Global,
    call: &[u8],
    row: &Row<'_>,
    out: &mut Vec<u8>,
) -> Result<(), NoMemory> {
    match index_of(CALLS, call) {
        Some(0) => histories::put_history(alloc, row, out),
        Some(1) => histories::put_plan(row, out),
        Some(2) => options::put_options(alloc, row, out),
        Some(3) => options::put_texts(alloc, out),
        Some(4) => options::put_extension(row, out),
        Some(5) => plans::put_plan(alloc, row, out),
        Some(6) => plans::put_limits(row, out),
        Some(7) => plans::put_least(row, out),
        Some(8) => worlds::put_world(alloc, row, out),
        Some(9..=14 | 22) => configurations::put_config(alloc, call, row, out),
        Some(15) => reports::put_entry(row, out),
        Some(16) => reports::put_metrics(alloc, row, out),
        Some(17) => courses::put_course(row, out),
        Some(18) => random::put_histories(row, out),
        Some(19) => reports::put_page(alloc, row, out),
        Some(20) => lives::put_live(row, out),
        Some(21) => lives::put_script(row, out),
        _ => Ok(()),
    }
}
