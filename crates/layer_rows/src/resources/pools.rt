//! Calls that need a pool, whose ledger is picked here, once for all. Each line of a row's `want` is a step and what it answers.
ghost use Rattle.std.specs.Prelude.{◌≡◌, ◌≤◌};
ghost use Rattle.adapt_bytes.specs.declared.limits.TheConstants.{MAX_CONNECTIONS};

use crate::questions::put_lines;
use crate::resources::calls::{Counter, Leasing, PoolAndLeases, audited, put_audit};
use crate::resources::threads::share;
use crate::resources::words::{journal_of, put_no_memory};
use adapt_bytes::MAX_CONNECTIONS;
use service_pool::{LEDGER_PARTS, Pool};
use std::alloc::Global;
use std::marker::Brand;
use std::sync::Wait;
use std::sync::ledger::{Blank, Ledger};
use std::thread::Threads;
use test_rows::{NoMemory, Row, put_number, says};

/// The most leases that a row has out.
const LEASES: usize = 16;

/// Adds what a row's steps answer on a pool; without steps, what threads leave of it.
fn put_run<T: Leasing + Sync, R: Threads + Sync>(
    rt: &R,
    pool: &T,
    leases: &mut Vec<T::Lent>,
    lines: Option<&[u8]>,
    out: &mut Vec<u8>,
) -> Result<(), NoMemory>
where
    T::Lent: Send,
{
    match lines {
        Some(lines) => put_lines(&mut PoolAndLeases { pool, leases }, lines, out),
        None => {
            share(rt, pool, leases);
            put_number(out, b"leases", leases.len() as u64)
        }
    }
}

/// Adds what becomes of a new pool, and its audit.
fn put_on_pool<L: Ledger + Send + Sync, R: Threads + Wait + Sync>(
    rt: &R,
    alloc: Global,
    blank: Blank,
    maximum: u64,
    row: &Row<'_>,
    lines: Option<&[u8]>,
    out: &mut Vec<u8>,
) -> Result<(), NoMemory>
    requires blank { (blank.name ≡ L.name) × (blank.parts ≡ L.parts) × (blank.parts ≡ LEDGER_PARTS) }
    requires maximum { maximum ≤ MAX_CONNECTIONS }
{
    let made: Result<Pool<u32, L>, NoMemory> = Pool::new(alloc, blank, maximum, journal_of(row));
    let Ok(pool) = made else {
        return put_no_memory(row, out);
    };
    let mut leases = Vec::with_capacity(alloc, LEASES)?;
    let told = put_run(rt, &Counter { rt, pool: &pool }, &mut leases, lines, out);
    let count = audited(rt, pool, leases);
    told?;
    put_audit(out, count)
}

/// Adds what the row's steps answer on a new pool, and the audit at their end. Without steps, four threads share a pool of at
/// most three connections: how many got a lease in the end, and the audit.
pub fn put_pool<R: Threads + Wait + Sync>(
    rt: &R,
    alloc: Global,
    call: &[u8],
    row: &Row<'_>,
    out: &mut Vec<u8>,
) -> Result<(), NoMemory> {
    let (maximum, lines) = if says(call, b"threads of a pool") {
        (3, None)
    } else {
        let maximum = row.number(b"maximum").unwrap_or(0);
        (maximum.min(MAX_CONNECTIONS), Some(row.get(b"want")))
    };
    let blank = Blank::new(LEDGER_PARTS);
    put_on_pool::<Brand, R>(rt, alloc, blank, maximum, row, lines, out)
}
