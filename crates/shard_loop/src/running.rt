//! The proxy: its budget, its pools, and its threads.

ghost use Rattle.std.specs.Prelude.{◌≡◌, ◌+◌, ◌≤◌, IfSome};
ghost use Rattle.adapt_bytes.specs.declared.limits.TheConstants.{MAX_CONNECTIONS};
ghost use Rattle.service_pool.specs.declared.step.TheConstants.{LEDGER_PARTS};

use crate::bases::OpenedPorts;
use crate::board::Rules;
use crate::crew::run_crew;
use crate::left::{Left, Stopped};
use crate::reloading::Reloads;
use event_loop::AdminPorts;
use mio::net::TcpListener;
use proxy_config::{Config, ServicePoint};
use service_pool::{LEDGER_PARTS, Pool};
use shard_desk::Spare;
use shard_report::{Append, ProxyFault};
use socket_wire::Dial;
use span_bank::{Bank, Blanks, Ledgers};
use std::alloc::Global;
use std::fs::File;
use std::io::Write;
use std::marker::Brand;
use std::net::Net;
use std::sync::ledger::{Blank, Ledger};
use std::sync::{Arc, Mutex, Wait};
use std::thread::Threads;
use std::time::Clock;
use wire_kit::Gate;

/// The most connections of a service before it says another number.
fn connections(service: &Option<ServicePoint>) -> u64
    ensures within { (1 ≤ result) × (result ≤ MAX_CONNECTIONS) }
    ensures said { IfSome service.now (λ service. result ≡ service.connections) }
{
    match service {
        Some(service) => service.connections,
        None => 1,
    }
}

/// The pool of a service's connections, before the first one. The blank has `LEDGER_PARTS` parts.
fn make_pool<L: Ledger>(
    alloc: Global,
    blank: Blank,
    service: &Option<ServicePoint>,
    journal: usize,
) -> Result<Pool<Spare, L>, ProxyFault>
    requires blank { (blank.name ≡ L.name) × (blank.parts ≡ L.parts) × (blank.parts ≡ LEDGER_PARTS) }
    requires journal { 1 ≤ journal }
{
    match Pool::new(alloc, blank, connections(service), journal) {
        Ok(pool) => Ok(pool),
        Err(_) => Err(ProxyFault::NoMemory),
    }
}

/// What all users share: the budget, and the connections to both services.
#[derive(Drop)]
struct Stores<B: Ledgers, Q: Ledger, A: Ledger> {
    bank: Bank<B>,
    request: Pool<Spare, Q>,
    response: Pool<Spare, A>,
}

/// The budget and the pools, as they are configured. Each blank of the budget has a part for each transaction that there may be, and one
/// more; those of the pools have `LEDGER_PARTS`.
fn stores_of<H: Ledger, F: Ledger, S: Ledger, P: Ledger, Q: Ledger, A: Ledger>(
    alloc: Global,
    config: &Config,
    blanks: Blanks,
    reqmod: Blank,
    respmod: Blank,
) -> Result<Stores<(H, F, S, P), Q, A>, ProxyFault>
    requires held { (blanks.held.name ≡ H.name) × (blanks.held.parts ≡ H.parts) }
    requires free { (blanks.free.name ≡ F.name) × (blanks.free.parts ≡ F.parts) }
    requires slack { (blanks.slack.name ≡ S.name) × (blanks.slack.parts ≡ S.parts) }
    requires pages { (blanks.pages.name ≡ P.name) × (blanks.pages.parts ≡ P.parts) }
    requires parts { (blanks.held.parts ≡ config.now.rows + 1) × (blanks.free.parts ≡ config.now.rows + 1) }
    requires others { (blanks.slack.parts ≡ config.now.rows + 1) × (blanks.pages.parts ≡ config.now.rows + 1) }
    requires reqmod { (reqmod.name ≡ Q.name) × (reqmod.parts ≡ Q.parts) × (reqmod.parts ≡ LEDGER_PARTS) }
    requires respmod { (respmod.name ≡ A.name) × (respmod.parts ≡ A.parts) × (respmod.parts ≡ LEDGER_PARTS) }
{
    let journal = config.journal as usize;
    let request = make_pool(alloc, reqmod, &config.reqmod, journal)?;
    let response = make_pool(alloc, respmod, &config.respmod, journal)?;
    match Bank::new(alloc, blanks, config.capacity, config.rows, journal) {
        Ok(bank) => Ok(Stores {
            bank,
            request,
            response,
        }),
        Err(_) => Err(ProxyFault::NoMemory),
    }
}

/// Says that users are served from now on.
fn say_listening<O: Write>(output: &mut O) -> Result<(), ProxyFault> {
    if output.write_all(b"listening\n").is_err() || output.flush().is_err() {
        return Err(ProxyFault::Unheard);
    }
    Ok(())
}

/// Runs the proxy by these rules, on these ports, until the administrator stops it or one of its loops fails, and audits its budget and its
/// pools. Once the memory of both is there, `listening` is written to the output. Lines are added to the log's file, if there is one, and
/// transactions ask the gate before they move, if there is one. The budget and each pool have ledgers of their own.
///
/// ```
/// let users = TcpListener::bind(rt, SocketAddr::V4(config.listen))?;
/// let admin = TcpListener::bind(rt, SocketAddr::V4(config.admin))?;
/// let admin = AdminPorts { admin, metrics: None };
/// let rules = Rules { config: Arc::new(alloc, config)?, source: Source::Path(path) };
/// // No log is kept, and no gate holds anything back. It returns once the administrator has said `stop`.
/// let stopped = serve(rt, alloc, rules, users, admin, None, None::<&OpenGate>, &mut output)?;
/// assert_eq!(rt; stopped.fault(), None);
/// ```
pub fn serve<
    G: Gate + Sync,
    O: Write,
    R: Threads + Wait + Net + Dial + Append + Clock + Reloads + Sync,
>(
    rt: &R,
    alloc: Global,
    rules: Rules,
    users: TcpListener,
    admin: AdminPorts,
    log: Option<File>,
    gate: Option<&G>,
    output: &mut O,
) -> Result<Stopped, ProxyFault> {
    let Ok(config) = Arc::clone(&rules.config) else {
        return Err(ProxyFault::NoMemory);
    };
    let rows = config.rows;
    serve_with::<Brand, Brand, Brand, Brand, Brand, Brand, G, O, R>(
        rt,
        alloc,
        &config,
        OpenedPorts { users, admin },
        rules,
        log,
        gate,
        output,
        Blanks::new(rows + 1),
        Blank::new(LEDGER_PARTS),
        Blank::new(LEDGER_PARTS),
    )
}

/// Runs the proxy with these ledgers. Each blank of the budget has a part for each transaction that there may be, and one more; those
/// of the pools have `LEDGER_PARTS`.
fn serve_with<
    'x,
    H: Ledger + Send + Sync,
    F: Ledger + Send + Sync,
    S: Ledger + Send + Sync,
    P: Ledger + Send + Sync,
    Q: Ledger + Send + Sync,
    A: Ledger + Send + Sync,
    G: Gate + Sync,
    O: Write,
    R: Threads + Wait + Net + Dial + Append + Clock + Reloads + Sync,
>(
    rt: &R,
    alloc: Global,
    config: &'x Config,
    ports: OpenedPorts,
    rules: Rules,
    log: Option<File>,
    gate: Option<&'x G>,
    output: &mut O,
    blanks: Blanks,
    reqmod: Blank,
    respmod: Blank,
) -> Result<Stopped, ProxyFault>
    requires held { (blanks.held.name ≡ H.name) × (blanks.held.parts ≡ H.parts) }
    requires free { (blanks.free.name ≡ F.name) × (blanks.free.parts ≡ F.parts) }
    requires slack { (blanks.slack.name ≡ S.name) × (blanks.slack.parts ≡ S.parts) }
    requires pages { (blanks.pages.name ≡ P.name) × (blanks.pages.parts ≡ P.parts) }
    requires parts { (blanks.held.parts ≡ config.now.rows + 1) × (blanks.free.parts ≡ config.now.rows + 1) }
    requires others { (blanks.slack.parts ≡ config.now.rows + 1) × (blanks.pages.parts ≡ config.now.rows + 1) }
    requires reqmod { (reqmod.name ≡ Q.name) × (reqmod.parts ≡ Q.parts) × (reqmod.parts ≡ LEDGER_PARTS) }
    requires respmod { (respmod.name ≡ A.name) × (respmod.parts ≡ A.parts) × (respmod.parts ≡ LEDGER_PARTS) }
{
    let stores: Stores<(H, F, S, P), Q, A> = stores_of(alloc, config, blanks, reqmod, respmod)?;
    serve_on(rt, alloc, config, ports, rules, log, gate, output, stores)
}

/// Runs the proxy on its budget and its pools, once it has said that it listens, and audits them.
fn serve_on<
    B: Ledgers + Send + Sync,
    Q: Ledger + Send + Sync,
    A: Ledger + Send + Sync,
    G: Gate + Sync,
    O: Write,
    R: Threads + Wait + Net + Dial + Append + Clock + Reloads + Sync,
>(
    rt: &R,
    alloc: Global,
    config: &Config,
    ports: OpenedPorts,
    rules: Rules,
    log: Option<File>,
    gate: Option<&G>,
    output: &mut O,
    stores: Stores<B, Q, A>,
) -> Result<Stopped, ProxyFault>
where
    B::Held: Send + Sync,
    B::Free: Send + Sync,
    B::Slack: Send + Sync,
    B::Pages: Send + Sync,
{
    let Stores {
        bank,
        request,
        response,
    } = stores;
    let mut left = Left::new(alloc);
    let begun = if left.reserve(config.rows as usize) {
        say_listening(output)
    } else {
        Err(ProxyFault::NoMemory)
    };
    let left = Mutex::new(left);
    let made = match begun {
        Ok(()) => run_crew(
            rt, alloc, config, &bank, &request, &response, gate, ports, rules, log, &left,
        ),
        Err(fault) => Err(fault),
    };
    let audit = left.into_inner().audit(rt, bank, request, response);
    made?;
    audit
}
