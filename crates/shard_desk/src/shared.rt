//! What all threads share.

ghost use Rattle.std.specs.Prelude.{◌≡◌, ℕ, List, Option, true, ⊤, slice_get};
ghost use Rattle.event_loop.specs.declared.live.DatedConfig.{DatedConfig as AnyDated};
ghost use Rattle.proxy_config.specs.declared.config.Config.{Config as AnyConfig};
ghost use Rattle.shard_desk.specs.Standings.{HasNone, SameButAt, goes_by};

use crate::pools::Spare;
use crate::standings::Standings;
use event_loop::{Addresses, Inbox, Room};
use proxy_config::Config;
use service_pool::{Pool, Queues};
use shard_report::{Log, LoopTally};
use span_bank::{Bank, Ledgers};
use std::alloc::AllocError;
use std::sync::ledger::Ledger;
use std::sync::{Arc, Mutex, Wait};

/// What all threads share, as one of them has it.
pub trait Shares {
    /// The ledgers of the budget.
    type Ledgers: Ledgers;

    /// The ledger of the leases of the service of requests.
    type Requests: Ledger;

    /// The ledger of the leases of the service of responses.
    type Responses: Ledger;

    // the configuration, where this says what it is
    ghost config_is: { Self → AnyConfig → Type 0 } = { λ _ _. ⊤ };

    // what the exchange under this key goes by
    ghost goes_by: { Self → ℕ → AnyConfig };

    // what each exchange has of its own to go by
    ghost own: { Self → List (Option AnyDated) };

    /// What the exchange goes by that is served; before the first one, and elsewhere than with exchanges, what stands now.
    fn config(&self) -> &Config
        ensures { config_is self.now result.now };

    /// Has room for what the exchanges of so many keys go by. `Err` where no memory was found.
    fn seat(&mut self, keys: usize) -> Result<(), AllocError>;

    /// The exchange under this key is served from now on. One that is open goes on by what stood when it began; another one by what stands
    /// now.
    fn take_up<R: Wait>(&mut self, rt: &R, key: usize, is_open: bool)
        ensures served { config_is self.new (goes_by self.new key) }
        ensures open { is_open ≡ true → goes_by self.new key ≡ goes_by self.old key }
        ensures others { SameButAt key (own self.old) (own self.new) };

    /// The user under this key has left.
    fn leave(&mut self, key: usize)
        ensures gone { HasNone (slice_get (own self.new) key) }
        ensures others { SameButAt key (own self.old) (own self.new) };

    fn bank(&self) -> &Bank<Self::Ledgers>;

    /// The connections to the service of requests.
    fn requests(&self) -> &Pool<Spare, Self::Requests>;

    /// The connections to the service of responses.
    fn responses(&self) -> &Pool<Spare, Self::Responses>;

    /// Those who wait for a connection to a service.
    fn queues(&self) -> &Queues;

    /// The inboxes, in the order of the threads.
    fn inboxes(&self) -> &[Inbox];

    /// The descriptors that users and idle connections share.
    fn room(&self) -> &Arc<Room>;

    /// How many connections each address has open that a header said.
    fn addresses(&self) -> &Mutex<Addresses>;

    /// The number of the thread.
    fn number(&self) -> usize;

    /// What the thread counts.
    fn tally(&self) -> &LoopTally;

    /// The lines of the log that wait to be written, and their file.
    fn log(&self) -> &Log;
}

/// What all threads share.
#[derive(Drop)]
pub struct Shared<'a, B: Ledgers, Q: Ledger, A: Ledger> {
    pub standings: Standings,
    pub bank: &'a Bank<B>,
    pub requests: &'a Pool<Spare, Q>,
    pub responses: &'a Pool<Spare, A>,
    pub queues: &'a Queues,
    pub inboxes: &'a [Inbox],
    pub room: &'a Arc<Room>,
    pub addresses: &'a Mutex<Addresses>,
    /// The number of the thread, what it counts, and the log.
    pub number: usize,
    pub tally: &'a LoopTally,
    pub log: &'a Log,
}

impl<'a, B: Ledgers, Q: Ledger, A: Ledger> Shares for Shared<'a, B, Q, A> {
    type Ledgers = B;

    type Requests = Q;

    type Responses = A;

    ghost config_is = { λ shared config. config ≡ goes_by shared.standings shared.standings.serving };

    ghost goes_by = { λ shared key. goes_by shared.standings key };

    ghost own = { λ shared. shared.standings.own.items };

    fn config(&self) -> &Config {
        self.standings.config()
    }

    fn seat(&mut self, keys: usize) -> Result<(), AllocError> {
        self.standings.seat(keys)
    }

    #[inline(always)]
    fn take_up<R: Wait>(&mut self, rt: &R, key: usize, is_open: bool) {
        self.standings.take_up(rt, key, is_open);
    }

    fn leave(&mut self, key: usize) {
        self.standings.leave(key);
    }

    fn bank(&self) -> &Bank<B> {
        self.bank
    }

    fn requests(&self) -> &Pool<Spare, Q> {
        self.requests
    }

    fn responses(&self) -> &Pool<Spare, A> {
        self.responses
    }

    fn queues(&self) -> &Queues {
        self.queues
    }

    fn inboxes(&self) -> &[Inbox] {
        self.inboxes
    }

    fn room(&self) -> &Arc<Room> {
        self.room
    }

    fn addresses(&self) -> &Mutex<Addresses> {
        self.addresses
    }

    fn number(&self) -> usize {
        self.number
    }

    fn tally(&self) -> &LoopTally {
        self.tally
    }

    fn log(&self) -> &Log {
        self.log
    }
}
