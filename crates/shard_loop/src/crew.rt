//! The threads: each makes its work, runs its loop, and hands over what is left.

use crate::admission::admission_of;
use crate::bases::{HasBase, OpenedPorts, entrance_of, loop_fault, make_bases};
use crate::board::{BothPools, Common, PoolPair, Rules, board_of};
use crate::left::Left;
use crate::office::Office;
use crate::reloading::Reloads;
use event_loop::{Base, Ended, Entrance, Inbox, Work, name_thread, run_loop, stop_all};
use mio::net::TcpListener;
use proxy_config::{Config, MAX_SHARDS};
use service_pool::{Leased, Pool, Waiting};
use shard_desk::{
    DeskExchanges, Exchanges, Loops, Shard, Shared, SharedPools, Shares, Spare, Standings,
};
use shard_exchange::Exchange;
use shard_message::{Holdings, Kinds};
use shard_report::{Append, ProxyFault};
use socket_wire::Dial;
use span_bank::{Bank, Ledgers};
use std::alloc::{AllocError, Global};
use std::boxed::Box;
use std::fs::File;
use std::net::Net;
use std::sync::ledger::Ledger;
use std::sync::{Arc, Mutex, Wait};
use std::thread::{self, Threads};
use std::time::Clock;
use wire_kit::Gate;

/// Runs a loop on each base, the last one in this thread, the others in threads of their own, until one has to stop or fails:
/// then all end. What is left comes together.
///
/// What the threads share comes piece by piece, and what a base, an inbox and an idle connection are made of isn't seen here:
/// otherwise the toolchain's search doesn't find that threads may share the pieces.
fn run_on<
    B: Ledgers + Send + Sync,
    Q: Ledger + Send + Sync,
    A: Ledger + Send + Sync,
    G: Gate + Sync,
    K: HasBase + Send,
    P: BothPools<Q, A> + Sync,
    N: Common + Sync,
    R: Threads + Wait + Dial + Append + Clock + Reloads + Sync,
>(
    rt: &R,
    alloc: Global,
    config: &Config,
    bank: &Bank<B>,
    pools: &P,
    gate: Option<&G>,
    common: &N,
    left: &Mutex<Left<B, Q, A>>,
    bases: &mut [K],
)
where
    B::Held: Send + Sync,
    B::Free: Send + Sync,
    B::Slack: Send + Sync,
    B::Pages: Send + Sync,
{
    thread::for_each_mut(
        rt,
        bases,
        MAX_SHARDS as usize + 1,
        &|number, slot| {
            run_one(
                rt,
                alloc,
                config,
                bank,
                pools.request(),
                pools.response(),
                gate,
                common,
                left,
                number,
                slot,
            )
        },
    );
}

/// Runs as many loops as are configured, each in a thread of its own, and the administrator's in this one, until one is told
/// to stop or fails: then all end. What is left comes together.
pub fn run_crew<
    B: Ledgers + Send + Sync,
    Q: Ledger + Send + Sync,
    A: Ledger + Send + Sync,
    G: Gate + Sync,
    R: Threads + Wait + Net + Dial + Append + Clock + Reloads + Sync,
>(
    rt: &R,
    alloc: Global,
    config: &Config,
    bank: &Bank<B>,
    request: &Pool<Spare, Q>,
    response: &Pool<Spare, A>,
    gate: Option<&G>,
    ports: OpenedPorts,
    rules: Rules,
    file: Option<File>,
    left: &Mutex<Left<B, Q, A>>,
) -> Result<(), ProxyFault>
where
    B::Held: Send + Sync,
    B::Free: Send + Sync,
    B::Slack: Send + Sync,
    B::Pages: Send + Sync,
{
    let pools = PoolPair { request, response };
    let board = board_of(alloc, rules, file);
    run_board(rt, alloc, config, bank, &pools, gate, ports, board, left)
}

/// Where users connect: whom this configuration lets in, and the room that there is for them.
fn open_entrance<N: Common, R: Wait>(
    rt: &R,
    config: &Config,
    common: &N,
    listener: TcpListener,
) -> Result<Entrance, ProxyFault> {
    let Ok(admission) = admission_of(rt, config, common.live()) else {
        return Err(ProxyFault::NoMemory);
    };
    let Ok(room) = Arc::clone(common.room()) else {
        return Err(ProxyFault::NoMemory);
    };
    Ok(entrance_of(config, listener, room, admission))
}

/// Runs the loops over what the threads have in common, if memory was found for it.
fn run_board<
    B: Ledgers + Send + Sync,
    Q: Ledger + Send + Sync,
    A: Ledger + Send + Sync,
    G: Gate + Sync,
    P: BothPools<Q, A> + Sync,
    N: Common + Sync + Drop,
    R: Threads + Wait + Net + Dial + Append + Clock + Reloads + Sync,
>(
    rt: &R,
    alloc: Global,
    config: &Config,
    bank: &Bank<B>,
    pools: &P,
    gate: Option<&G>,
    ports: OpenedPorts,
    board: Result<N, AllocError>,
    left: &Mutex<Left<B, Q, A>>,
) -> Result<(), ProxyFault>
where
    B::Held: Send + Sync,
    B::Free: Send + Sync,
    B::Slack: Send + Sync,
    B::Pages: Send + Sync,
{
    let OpenedPorts { users, admin } = ports;
    let Ok(board) = board else {
        return Err(ProxyFault::NoMemory);
    };
    let mut board = board;
    let users = open_entrance(rt, config, &board, users)?;
    let mut bases = make_bases(rt, alloc, config.shards, users, admin, board.inboxes_mut())?;
    run_on(
        rt,
        alloc,
        config,
        bank,
        pools,
        gate,
        &board,
        left,
        bases.as_mut_slice(),
    );

    // What the last exchanges left.
    board.log().write_out(rt);
    Ok(())
}

/// The connections to services of both points, and those who wait for one.
fn pools_for<'a, Q: Ledger, A: Ledger, N: Common>(
    config: &Config,
    request: &'a Pool<Spare, Q>,
    response: &'a Pool<Spare, A>,
    common: &'a N,
) -> SharedPools<'a, Q, A> {
    let edge = Loops {
        inboxes: common.inboxes(),
        room: common.room(),
    };
    SharedPools {
        request,
        response,
        idle_seconds: config.service_idle,
        // No loop's number: none lies idle with whoever ends and closes them.
        thread: common.inboxes().len(),
        waiting: Waiting {
            queues: common.queues(),
            edge,
            seconds: config.wait,
        },
    }
}

/// Runs a loop on the base in this slot, if there is one.
fn run_one<
    B: Ledgers,
    Q: Ledger,
    A: Ledger,
    G: Gate,
    K: HasBase,
    N: Common,
    R: Wait + Dial + Append + Clock + Reloads,
>(
    rt: &R,
    alloc: Global,
    config: &Config,
    bank: &Bank<B>,
    requests: &Pool<Spare, Q>,
    responses: &Pool<Spare, A>,
    gate: Option<&G>,
    common: &N,
    left: &Mutex<Left<B, Q, A>>,
    number: usize,
    slot: &mut K,
) {
    let Some(base) = slot.take_base() else {
        return;
    };
    let tallies = common.tallies();
    let Some(tally) = tallies.get(number.min(tallies.len().saturating_sub(1))) else {
        return;
    };
    let inboxes = common.inboxes();
    let Some(standings) = Standings::of(rt, alloc, common.live()) else {
        stop_all(inboxes);
        left.lock(rt).fail(ProxyFault::NoMemory);
        return;
    };
    let shared = Shared {
        standings,
        bank,
        requests,
        responses,
        queues: common.queues(),
        inboxes,
        room: common.room(),
        addresses: common.addresses(),
        number,
        tally,
        log: common.log(),
    };
    if number < tallies.len() {
        let pools = pools_for(config, requests, responses, common);
        run_base(
            rt, alloc, shared, gate, number, base, inboxes, bank, &pools, left,
        );
    } else {
        let (live, source) = (common.live(), common.source());
        let office = Office::new(alloc, shared, live, source, tallies, rt);
        run_office(rt, alloc, office, number, base, inboxes, left);
    }
}

/// Runs the administrator's loop. Where it fails, all others are told to stop.
fn run_office<K: Work + Drop, B: Ledgers, Q: Ledger, A: Ledger, R: Wait + Dial + Clock>(
    rt: &R,
    alloc: Global,
    office: K,
    number: usize,
    base: Base,
    inboxes: &[Inbox],
    left: &Mutex<Left<B, Q, A>>,
) {
    let Ended { work: _, fault } = run_loop(rt, alloc, number, base, office, inboxes);
    if let Some(fault) = fault {
        left.lock(rt).fail(loop_fault(fault));
    }
}

/// Makes a thread's work of its exchanges, and runs its loop over it. If either fails, all others have to stop. What is left in the
/// slots comes back, and why the loop failed, if it did.
fn run_exchanges<E: Exchanges + Drop, G: Gate, R: Wait + Dial + Clock>(
    rt: &R,
    alloc: Global,
    exchanges: Result<E, AllocError>,
    gate: Option<&G>,
    number: usize,
    base: Base,
    inboxes: &[Inbox],
) -> (Vec<Option<Box<E::Exchange>>>, Option<ProxyFault>) {
    let Ok(exchanges) = exchanges else {
        stop_all(inboxes);
        return (Vec::new(alloc), Some(ProxyFault::NoMemory));
    };
    let Ok(shard) = Shard::new(alloc, exchanges, gate) else {
        stop_all(inboxes);
        return (Vec::new(alloc), Some(ProxyFault::NoMemory));
    };
    let Ended { work, fault } = run_loop(rt, alloc, number, base, shard, inboxes);
    let fault = match fault {
        Some(fault) => Some(loop_fault(fault)),
        None => None,
    };
    (work.into_slots(rt), fault)
}

/// Takes what is left in a loop's slots, and why it failed, if it did.
fn take_left<
    B: Ledgers,
    Q: Ledger,
    A: Ledger,
    O: Kinds<Ledgers = B, Lease = Leased<Q, A>>,
    R: Wait,
>(
    rt: &R,
    bank: &Bank<B>,
    pools: &SharedPools<'_, Q, A>,
    left: &Mutex<Left<B, Q, A>>,
    slots: Vec<Option<Box<Exchange<Holdings<O>>>>>,
    fault: Option<ProxyFault>,
) {
    let mut left = left.lock(rt);
    if let Some(fault) = fault {
        left.fail(fault);
    }
    left.take_slots(rt, bank, pools, slots);
}

/// Runs a thread's loop, and takes what is left in it.
fn run_base<
    B: Ledgers,
    Q: Ledger,
    A: Ledger,
    S: Shares<Ledgers = B, Requests = Q, Responses = A> + Drop,
    G: Gate,
    R: Wait + Dial + Clock,
>(
    rt: &R,
    alloc: Global,
    shared: S,
    gate: Option<&G>,
    number: usize,
    base: Base,
    inboxes: &[Inbox],
    bank: &Bank<B>,
    pools: &SharedPools<'_, Q, A>,
    left: &Mutex<Left<B, Q, A>>,
) {
    name_thread(number);
    let rows = shared.config().rows as usize;
    let exchanges = DeskExchanges::new(alloc, shared, rows);
    let (slots, fault) = run_exchanges(rt, alloc, exchanges, gate, number, base, inboxes);
    take_left(rt, bank, pools, left, slots, fault);
}
