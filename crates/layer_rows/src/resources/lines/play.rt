//! A row: pools of its own, its steps, and what they answer.
ghost use Rattle.std.specs.Prelude.{◌≡◌};

use crate::questions::put_lines;
use crate::resources::lines::stage::{ConnectionStage, Idle, StageEdge};
use crate::resources::lines::steps::Play;
use adapt_bytes::MAX_CONNECTIONS;
use service_pool::{LEDGER_PARTS, PauseRule, Pool, Pools, Queues, Waiter, Waiting};
use std::alloc::Global;
use std::marker::Brand;
use std::sync::Wait;
use std::sync::ledger::{Blank, Ledger};
use test_rows::{NoMemory, Row};

/// The most connections that a row has lent.
const HELD: usize = 16;

/// Adds what the row's steps answer on these pools. What is lent at last is closed.
fn put_on<'a, 's, Q: Ledger, A: Ledger, R: Wait>(
    rt: &'a R,
    alloc: Global,
    stage: &'s ConnectionStage,
    pools: Pools<'a, StageEdge<'s>, Q, A>,
    lines: &[u8],
    out: &mut Vec<u8>,
) -> Result<(), NoMemory> {
    let mut play = Play {
        rt,
        alloc,
        stage,
        pools,
        held: Vec::with_capacity(alloc, HELD)?,
        who: Waiter { thread: 0, key: 0 },
    };
    let told = put_lines(&mut play, lines, out);
    play.close_all();
    let Play {
        rt: _,
        alloc: _,
        stage: _,
        pools: _,
        held,
        who: _,
    } = play;
    held.destroy_empty();
    told
}

/// Adds what the row's steps answer on new pools.
fn put_on_pools<'s, Q: Ledger, A: Ledger, R: Wait>(
    rt: &R,
    alloc: Global,
    stage: &'s ConnectionStage,
    blanks: (Blank, Blank),
    row: &Row<'_>,
    out: &mut Vec<u8>,
) -> Result<(), NoMemory>
    requires request { (blanks.0.name ≡ Q.name) × (blanks.0.parts ≡ Q.parts) × (blanks.0.parts ≡ LEDGER_PARTS) }
    requires response { (blanks.1.name ≡ A.name) × (blanks.1.parts ≡ A.parts) × (blanks.1.parts ≡ LEDGER_PARTS) }
{
    let (request, response) = blanks;
    let maximum = row.number(b"maximum").unwrap_or(1).min(MAX_CONNECTIONS);
    let rule = PauseRule {
        failures: row.number(b"failures").unwrap_or(0),
        seconds: row.number(b"pause").unwrap_or(30),
    };
    let most = row.number(b"most").unwrap_or(4).min(64) as usize;
    let queues = Queues::new(alloc, most, rule)?;
    let request: Pool<Idle<'s>, Q> = Pool::new(alloc, request, maximum, 16)?;
    let response: Pool<Idle<'s>, A> = Pool::new(alloc, response, maximum, 16)?;
    let pools = Pools {
        request: &request,
        response: &response,
        idle_seconds: row.number(b"idle").unwrap_or(60),
        thread: 0,
        waiting: Waiting {
            queues: &queues,
            edge: StageEdge { stage },
            seconds: row.number(b"wait").unwrap_or(5),
        },
    };
    put_on(rt, alloc, stage, pools, row.get(b"want"), out)
}

/// Adds what the row's steps answer.
pub fn put_play<R: Wait>(
    rt: &R,
    alloc: Global,
    row: &Row<'_>,
    out: &mut Vec<u8>,
) -> Result<(), NoMemory> {
    let stage = ConnectionStage::new(row.number(b"room").unwrap_or(8));
    let blanks = (Blank::new(LEDGER_PARTS), Blank::new(LEDGER_PARTS));
    put_on_pools::<Brand, Brand, R>(rt, alloc, &stage, blanks, row, out)
}
