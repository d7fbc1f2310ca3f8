//! Measures the layers: chunked bodies, heads, and the buffer budget.
//!
//! The arguments are pairs of a word and how often, as `heads 200000`. What was done is printed, and the figures go to standard
//! error, since they differ from run to run. The status is 1 if an answer is wrong, and 2 for other words.
#![tactic(auto)]

ghost use Rattle.std.specs.Prelude.{◌≡◌};

mod answers;
mod bench_budget;
mod budget;
mod chunks;
mod heads;
mod requests;
mod task;
mod threads;
mod work;

use crate::bench_budget::{BenchBank, BenchBudget};
use crate::budget::time_budget;
use crate::chunks::time_chunks;
use crate::heads::time_heads;
use crate::task::{Layer, Measurement, read_tasks};
use anyhow::{Result, bail};
use span_bank::{Bank, Blanks, Ledgers};
use std::alloc::Global;
use std::marker::Brand;
use std::process::ExitCode;
use std::sync::Wait;
use std::sync::ledger::Ledger;
use std::thread::Threads;
use std::time::{Clock, Duration};

/// The size of the budget: a tape of a MiB and a piece more fit.
const CAPACITY: u64 = 2 * 1024 * 1024;

/// The nanoseconds of one of these many times.
pub fn nanos_each(took: Duration, times: u32) -> u128 {
    took.as_nanos() / u128::from(times.max(1))
}

/// Measures a layer.
fn measure<P: BenchBudget + Sync, R: Threads + Clock + Print + Eprint + Sync>(
    rt: &R,
    alloc: Global,
    budget: &P,
    task: Measurement,
) -> Result<()> {
    match task.layer {
        Layer::Chunks => time_chunks(rt, alloc, task.times),
        Layer::Heads => time_heads(rt, alloc, task.times),
        Layer::Bank => time_budget(rt, budget, task.times),
    }
}

/// Measures layers.
fn measure_all<'a, B: Ledgers + Send + Sync, R: Threads + Wait + Clock + Print + Eprint + Sync>(
    rt: &'a R,
    alloc: Global,
    bank: &'a Bank<B>,
    tasks: &[Measurement],
) -> Result<()>
where
    B::Held: Send + Sync,
    B::Free: Send + Sync,
    B::Slack: Send + Sync,
    B::Pages: Send + Sync,
{
    for task in tasks {
        measure(rt, alloc, &BenchBank { rt, bank }, *task)?;
    }
    Ok(())
}

/// Whether no reservation is left of a budget.
fn is_empty<B: Ledgers>(alloc: Global, bank: Bank<B>) -> bool {
    match bank.audit(Vec::new(alloc)) {
        Ok(audit) => audit.rows == 0 && audit.held == 0 && audit.claimed == 0 && audit.pages == 0,
        Err((_, stakes, _)) => {
            stakes.destroy_empty();
            false
        }
    }
}

/// Measures layers on one budget, which is empty at the end.
fn run<
    H: Ledger + Send + Sync,
    F: Ledger + Send + Sync,
    S: Ledger + Send + Sync,
    P: Ledger + Send + Sync,
    R: Threads + Wait + Clock + Print + Eprint + Sync,
>(rt: &R, alloc: Global, blanks: Blanks, tasks: &[Measurement]) -> Result<()>
    requires held { (blanks.held.name ≡ H.name) × (blanks.held.parts ≡ H.parts) × (blanks.held.parts ≡ 5) }
    requires free { (blanks.free.name ≡ F.name) × (blanks.free.parts ≡ F.parts) × (blanks.free.parts ≡ 5) }
    requires slack { (blanks.slack.name ≡ S.name) × (blanks.slack.parts ≡ S.parts) × (blanks.slack.parts ≡ 5) }
    requires pages { (blanks.pages.name ≡ P.name) × (blanks.pages.parts ≡ P.parts) × (blanks.pages.parts ≡ 5) }
{
    let bank: Bank<(H, F, S, P)> = Bank::new(alloc, blanks, CAPACITY, 4, 64)?;
    measure_all(rt, alloc, &bank, tasks)?;
    if is_empty(alloc, bank) {
        Ok(())
    } else {
        bail!("something is left of the budget")
    }
}

fn main(rt: HostRuntime) -> Result<ExitCode> {
    let Some(tasks) = read_tasks(&rt, rt.alloc())? else {
        eprintln!(rt; "usage: layer_bench {{chunks|heads|bank}} COUNT ..")?;
        return Ok(ExitCode::from(2));
    };
    let blanks = Blanks::new(5);
    run::<Brand, Brand, Brand, Brand, HostRuntime>(&rt, rt.alloc(), blanks, &tasks)?;
    Ok(ExitCode::SUCCESS)
}
