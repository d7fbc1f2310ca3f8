//! What the threads have in common: their inboxes, what they count, the log, the queues and the descriptors.

ghost use Rattle.std.specs.Prelude.{◌≡◌};

use event_loop::{Addresses, Inbox, LiveConfig, Room};
use proxy_commands::Source;
use proxy_config::{Config, ServicePoint};
use service_pool::{PauseRule, Pool, Queues};
use shard_desk::Spare;
use shard_report::{Log, LoopTally};
use std::alloc::{AllocError, Global};
use std::fs::File;
use std::sync::ledger::Ledger;
use std::sync::{Arc, Mutex};

/// The connections to a service that may lie idle whatever users need.
fn idle_connections(service: &Option<ServicePoint>) -> u64 {
    match service {
        Some(service) => service.connections,
        None => 0,
    }
}

/// The descriptors that are left beside the loops': users leave as many of them to idle connections as are configured.
fn room_of(config: &Config) -> Room {
    let idle = idle_connections(&config.reqmod).saturating_add(idle_connections(&config.respmod));
    let askers = if config.metrics.is_some() { 2 } else { 1 };
    Room::of_system(config.shards.saturating_add(1), askers, idle)
}

/// When services are paused.
fn pause_rule(config: &Config) -> PauseRule
    ensures { result ≡ record { failures = config.now.service_failures; seconds = config.now.service_pause } }
{
    PauseRule {
        failures: config.service_failures,
        seconds: config.service_pause,
    }
}

/// The connections to both services, which all threads share.
pub trait BothPools<Q: Ledger, A: Ledger> {
    /// Those to the service of requests.
    fn request(&self) -> &Pool<Spare, Q>;

    /// Those to the service of responses.
    fn response(&self) -> &Pool<Spare, A>;
}

/// The pools of both services.
#[derive(Drop)]
pub struct PoolPair<'a, Q: Ledger, A: Ledger> {
    pub request: &'a Pool<Spare, Q>,
    pub response: &'a Pool<Spare, A>,
}

impl<'a, Q: Ledger, A: Ledger> BothPools<Q, A> for PoolPair<'a, Q, A> {
    fn request(&self) -> &Pool<Spare, Q> {
        self.request
    }

    fn response(&self) -> &Pool<Spare, A> {
        self.response
    }
}

/// What all threads have: their inboxes, what they count, and the log.
pub trait Common {
    /// The inboxes, in the order of the threads.
    fn inboxes(&self) -> &[Inbox];

    /// The inboxes, while they are made.
    fn inboxes_mut(&mut self) -> &mut Vec<Inbox>;

    /// What each thread counts that takes users.
    fn tallies(&self) -> &[LoopTally];

    /// The lines of the log that wait to be written, and their file.
    fn log(&self) -> &Log;

    /// Those who wait for a connection to a service.
    fn queues(&self) -> &Queues;

    /// The descriptors that users and idle connections share.
    fn room(&self) -> &Arc<Room>;

    /// How many connections each address has open that a header said.
    fn addresses(&self) -> &Mutex<Addresses>;

    /// The configuration that stands.
    fn live(&self) -> &Arc<LiveConfig>;

    /// Where the configuration is read again.
    fn source(&self) -> &Source;
}

/// The board on which the threads find what they have in common.
#[derive(Drop)]
pub struct Board {
    inboxes: Vec<Inbox>,
    tallies: Vec<LoopTally>,
    log: Log,
    queues: Queues,
    room: Arc<Room>,
    addresses: Mutex<Addresses>,
    live: Arc<LiveConfig>,
    source: Source,
}

impl Common for Board {
    fn inboxes(&self) -> &[Inbox] {
        self.inboxes.as_slice()
    }

    fn inboxes_mut(&mut self) -> &mut Vec<Inbox> {
        &mut self.inboxes
    }

    fn tallies(&self) -> &[LoopTally] {
        self.tallies.as_slice()
    }

    fn log(&self) -> &Log {
        &self.log
    }

    fn queues(&self) -> &Queues {
        &self.queues
    }

    fn room(&self) -> &Arc<Room> {
        &self.room
    }

    fn addresses(&self) -> &Mutex<Addresses> {
        &self.addresses
    }

    fn live(&self) -> &Arc<LiveConfig> {
        &self.live
    }

    fn source(&self) -> &Source {
        &self.source
    }
}

/// What the proxy runs by: its configuration, and where that is read again.
#[derive(Drop)]
pub struct Rules {
    pub config: Arc<Config>,
    pub source: Source,
}

/// What so many threads count, before their first users.
fn tallies_of(alloc: Global, count: u64) -> Result<Vec<LoopTally>, AllocError> {
    let mut tallies = Vec::new(alloc);
    for _ in 0..count {
        tallies.push(LoopTally::new(alloc)?)?;
    }
    Ok(tallies)
}

/// The board of the threads that take users, before their inboxes are there.
pub fn board_of(alloc: Global, rules: Rules, file: Option<File>) -> Result<Board, AllocError> {
    let Rules { config, source } = rules;
    let (loops, rows, most) = (config.shards, config.rows as usize, config.user_connections);
    let rule = pause_rule(&config);
    let room = Arc::new(alloc, room_of(&config))?;
    let live = Arc::new(alloc, LiveConfig::new(config))?;
    let tallies = tallies_of(alloc, loops)?;
    let queues = Queues::new(alloc, rows, rule)?;
    let log = Log::new(alloc, file, loops)?;
    Ok(Board {
        inboxes: Vec::new(alloc),
        tallies,
        log,
        queues,
        room,
        addresses: Mutex::new(Addresses::new(alloc, most)),
        live,
        source,
    })
}
