//! The loop of the administrator: it takes no users, so what an answer costs keeps nobody waiting. It also looks after the idle
//! connections to services.

ghost use Rattle.std.specs.Prelude.{⊤};

use crate::asking::tell_exchanges;
use crate::reloading::{Reloads, changed_text, reload_from};
use crate::replaced::Replaced;
use event_loop::{Admitted, Driven, Handed, LiveConfig, Question, Request, Sheet, Told, Work};
use mio::Registry;
use proxy_commands::Source;
use shard_desk::{Shares, pools_of};
use shard_report::{Append, Figures, LoopTally, change_capacity, stats_text};
use socket_wire::{Dial, Peer};
use span_bank::MAX_CAPACITY;
use std::alloc::{AllocError, Global};
use std::sync::Wait;
use std::time::Clock;
use trace_core::Point;

/// How many milliseconds lines of the log may wait to be written.
const LINES_WAIT: u64 = 50;

/// How many milliseconds may pass before idle connections to services are looked at again.
const IDLE_WAIT: u64 = 1000;

/// What the administrator's loop answers from. It also writes the log.
#[derive(Drop)]
pub struct Office<'a, S, F> {
    alloc: Global,
    shared: S,
    live: &'a LiveConfig,
    source: &'a Source,
    tallies: &'a [LoopTally],
    files: &'a F,
    replaced: Replaced,
}

impl<'a, S: Shares, F: Append + Reloads> Office<'a, S, F> {
    /// Answers from what its thread shares and what all loops counted; `files` opens the log's file anew, and reads the source of the
    /// configuration, which takes the place of the one that stands.
    pub fn new(
        alloc: Global,
        shared: S,
        live: &'a LiveConfig,
        source: &'a Source,
        tallies: &'a [LoopTally],
        files: &'a F,
    ) -> Office<'a, S, F> {
        Office {
            alloc,
            shared,
            live,
            source,
            tallies,
            files,
            replaced: Replaced::new(alloc),
        }
    }

    fn say_book<R: Wait>(&self, rt: &R) -> Result<Vec<u8>, AllocError> {
        let book = self.shared.bank().book(rt, None);
        let rows = book.rows;
        let held = book.held;
        let claimed = book.claimed;
        let capacity = book.capacity;
        let text = format!(in self.alloc;
            "rows {rows} held {held} claimed {claimed} capacity {capacity}\n"
        )?;
        Ok(text.into_bytes())
    }

    fn set_capacity<R: Wait>(&self, rt: &R, n: u64) -> Result<Vec<u8>, AllocError> {
        let size = n.max(1).min(MAX_CAPACITY);
        let shared = &self.shared;
        let changed = change_capacity(rt, shared.bank(), shared.log(), size);
        changed_text(self.alloc, changed)
    }

    /// What the loops share, at this number of seconds after the start.
    fn figures<R: Wait>(&self, rt: &R, now: u64) -> Figures {
        let shared = &self.shared;
        let config = shared.config();
        let waiting = pools_of(shared).waiting;
        let breakers = &shared.queues().breakers;
        Figures {
            seats: config.shards.saturating_mul(config.rows),
            reqmod: shared.requests().numbers(rt),
            reqmod_waiting: waiting.len(rt, Point::Reqmod),
            reqmod_paused: breakers.is_paused(rt, Point::Reqmod),
            respmod: shared.responses().numbers(rt),
            respmod_waiting: waiting.len(rt, Point::Respmod),
            respmod_paused: breakers.is_paused(rt, Point::Respmod),
            book: shared.bank().book(rt, None),
            refused: shared.room().refused(),
            over: shared.room().over(),
            unannounced: shared.room().unannounced(),
            lost: shared.log().lost(),
            uptime: now,
        }
    }

    /// The counters. A connection that its service has closed, or that is too old, isn't idle any more.
    fn say_stats<R: Wait>(&self, rt: &R, now: u64) -> Result<Vec<u8>, AllocError> {
        pools_of(&self.shared).tidy(rt, now);
        stats_text(self.alloc, self.tallies, &self.figures(rt, now))
    }

    /// Has each loop ask the services for their options again, before its next message is planned.
    fn refresh(&self) -> Result<Vec<u8>, AllocError> {
        for inbox in self.shared.inboxes() {
            inbox.refresh();
        }
        b"ok\n".to_vec(self.alloc)
    }

    /// What goes on in the threads that take users.
    fn show_exchanges<R: Wait + Clock>(
        &self,
        rt: &R,
        question: Question,
    ) -> Result<Vec<u8>, AllocError> {
        // The last inbox is the administrator's own.
        let inboxes = self.shared.inboxes();
        let users = inboxes.get(..self.tallies.len()).unwrap_or(inboxes);
        tell_exchanges(rt, self.alloc, users, question)
    }

    /// Reads the configuration and its files again, and takes over what can change.
    fn reload<R: Wait>(&mut self, rt: &R) -> Result<Vec<u8>, AllocError> {
        reload_from(
            rt,
            self.alloc,
            &mut self.shared,
            self.live,
            &mut self.replaced,
            self.source,
            self.files,
        )
    }

    /// Opens the log's file anew, where a log is kept.
    fn reopen<R: Wait>(&mut self, rt: &R) -> Result<Vec<u8>, AllocError> {
        let log = self.shared.log();
        let Some(path) = &self.shared.config().log else {
            return b"cannot open\n".to_vec(self.alloc);
        };
        match self.files.append(path.as_str()) {
            Ok(file) => {
                log.change(rt, file);
                b"ok\n".to_vec(self.alloc)
            }
            Err(_) => b"cannot open\n".to_vec(self.alloc),
        }
    }
}

impl<'a, S: Shares + Drop, F: Append + Reloads> Work for Office<'a, S, F> {
    // it keeps no record
    ghost past = { λ office past. ⊤ };

    ghost Part = { ⊤ };

    // it has no exchange
    ghost part = { λ office key. tt };

    ghost bound = { λ office. 1 };

    ghost queues = { λ office. 0 };

    fn admit<R: Wait + Dial + Clock>(
        &mut self,
        _rt: &R,
        _registry: &Registry,
        _user: Handed,
        _millis: u64,
    ) -> Admitted {
        Admitted::Closed
    }

    fn make_room<R: Wait + Dial + Clock>(
        &mut self,
        _rt: &R,
        _registry: &Registry,
        _millis: u64,
    ) -> bool {
        false
    }

    fn heard(&mut self, _is_whole: bool) {}

    fn note(&mut self, _number: usize, _peer: Peer, _told: Told) -> Option<usize> {
        None
    }

    /// Is called each second: idle connections to services that are of no use any more are closed, and configurations freed that nobody goes
    /// by.
    fn drive<R: Wait + Dial + Clock>(
        &mut self,
        rt: &R,
        _registry: &Registry,
        _key: usize,
        now: u64,
    ) -> Driven {
        pools_of(&self.shared).tidy(rt, now);
        self.replaced.tidy();
        Driven::Waiting
    }

    fn give_way<R: Wait + Dial + Clock>(
        &mut self,
        _rt: &R,
        _registry: &Registry,
        _key: usize,
        _now: u64,
    ) {}

    fn queues(&self) -> usize {
        0
    }

    fn first_of<R: Wait>(&mut self, _rt: &R, _queue: usize) -> Option<usize> {
        None
    }

    /// The idle connections are the one thing here that is driven.
    fn bound(&self) -> usize {
        1
    }

    fn is_idle(&self) -> bool {
        true
    }

    fn answer<R: Wait + Clock>(
        &mut self,
        rt: &R,
        request: Request,
        now: u64,
    ) -> Result<Vec<u8>, AllocError> {
        match request {
            Request::Book => self.say_book(rt),
            Request::Capacity(n) => self.set_capacity(rt, n),
            Request::Stats => self.say_stats(rt, now),
            Request::Reopen => self.reopen(rt),
            Request::Refresh => self.refresh(),
            Request::Reload => self.reload(rt),
            Request::Show(question) => self.show_exchanges(rt, question),
            Request::Drain | Request::Stop | Request::Bad => b"bad\n".to_vec(self.alloc),
        }
    }

    /// It has no exchange.
    fn show<R: Clock>(&self, _rt: &R, _question: Question, _now: u64, _sheet: &mut Sheet) {}

    fn patience(&self) -> Option<u64> {
        if self.shared.log().is_kept() {
            Some(LINES_WAIT)
        } else {
            Some(IDLE_WAIT)
        }
    }

    fn turn_over<R: Wait>(&mut self, rt: &R, _now: u64) {
        self.shared.log().write_out(rt);
    }

    fn drain(&mut self) {}

    fn halt<R: Wait + Dial + Clock>(&mut self, _rt: &R, _registry: &Registry, _now: u64) {}
}
