//! Judges the layers below the edge by rows of plain text: what a text means, what the state machines and rules say, and what
//! transactions share or hold, by one call after another and by threads; each engine over wires in memory; and transactions of the
//! proxy's own sides over such wires, turned by a script. Each file that an argument names is a table. An argument that is a number has
//! the program make that number of allocations, and give each back.
//!
//! It ends with status 0 once all rows are judged, whatever their answers: its output says which failed.
//!
//! It has a loop of its own over the rows, since it starts threads, which a method of `Driver` may not do.
#![tactic(auto)]

mod decisions;
mod engines;
mod grammars;
mod listed;
mod questions;
mod resources;
mod row_bank;
mod stage;
mod tasks;
mod told;
mod turns;

use std::alloc::Global;
use std::io::Write;
use std::sync::Wait;
use std::thread::Threads;
use std::time::Clock;
use std::{env, fs, io};
use test_rows::{NoMemory, Player, Report, Scene, Values, has_word, number, put_runs, read_table};

/// The calls of rows whose letters go through values.
const PLAYED: &[u8] =
    b"reply options serve feed lines service settings wire shared gate relay give exchange turns";

/// What plays a row.
#[derive(Drop)]
struct RowPlayer<'r, R> {
    rt: &'r R,
    alloc: Global,
}

impl<'r, R: Wait + Clock> Player for RowPlayer<'r, R> {
    fn put_run(&self, scene: Scene<'_>, values: Values, out: &mut Vec<u8>) -> Result<(), NoMemory> {
        if scene.is(b"call", b"turns") {
            turns::put_run(self.rt, self.alloc, scene, values, out)
        } else {
            engines::put_run(self.rt, self.alloc, scene, values, out)
        }
    }
}

/// Adds the answer to a row. For a call that there isn't it adds nothing.
fn put_answer<R: Threads + Wait + Clock + Sync>(
    rt: &R,
    alloc: Global,
    scene: Scene<'_>,
    out: &mut Vec<u8>,
) -> Result<(), NoMemory> {
    let call = scene.get(b"call");
    if has_word(PLAYED, call) {
        return put_runs(alloc, &RowPlayer { rt, alloc }, scene, out);
    }
    if has_word(b"threads crowd", call) {
        return turns::put_threads(rt, alloc, scene, out);
    }
    grammars::put_answer(alloc, call, &scene.row, out)?;
    decisions::put_answer(alloc, call, &scene.row, out)?;
    resources::put_answer(rt, alloc, call, &scene.row, out)
}

/// The report on a file's rows.
fn judged<R: Threads + Wait + Clock + Sync>(
    rt: &R,
    alloc: Global,
    text: &[u8],
) -> Result<Report, NoMemory> {
    let table = read_table(alloc, text)?;
    let head = table.head();
    let mut report = Report::new(alloc);
    for at in 1..table.len() {
        let row = table.row(at);
        let mut answer = Vec::new(alloc);
        put_answer(rt, alloc, Scene { head, row }, &mut answer)?;
        report.judge(&head, &row, &answer)?;
    }
    report.finish(&head)?;
    Ok(report)
}

/// Makes this number of allocations and gives each back, so that any of the later ones can be the one that is refused.
fn allocate(alloc: Global, count: u64) -> Result<(), NoMemory> {
    for _ in 0..count {
        b"a".to_vec(alloc)?;
    }
    Ok(())
}

fn main(rt: HostRuntime) -> io::Result<()> {
    let mut output = rt.stdout();
    for path in env::args(&rt)?.skip(1) {
        match number(path.as_bytes()) {
            Some(count) => allocate(rt.alloc(), count)?,
            None => {
                let text = fs::read(&rt, path.as_str())?;
                let report = judged(&rt, rt.alloc(), &text)?;
                output.write_all(report.lines())?;
            }
        }
    }
    Ok(())
}
