//! A loop: its poll, its events, and whom it drives.

ghost use Rattle.std.specs.Prelude.{◌≡◌, ◌<◌, ◌≤◌, ◌⊎◌, [], ◌∷◌, ℕ, true, false, nat_lt, length, IfOk, OnOk, IfErr, IfSome, IsSomeAnd, ⊤};
ghost use Rattle.std.specs.Duration.{as_nanos};
ghost use Rattle.event_loop.specs.Marks.{is_marked, count};
ghost use Rattle.event_loop.specs.declared.reports.TheConstants.{EVENTS};
ghost use Rattle.event_loop.specs.Deeds.Deed.{Heard, EndedTurn, Halted};
ghost use Rattle.event_loop.specs.Turns.{Works, Does, Did, Ran, Stands, Gets, IsTied, ServesRound, polled, second};

mod draining;
mod driving;
mod farewell;
mod hearing;
mod turning;

use crate::asker::{MAX_ASKERS, Speech};
use crate::askers::Askers;
use crate::ended::LoopFault;
use crate::inbox::{Inbox, begin, have_begun, stop_all};
use crate::ports::Ports;
use crate::ready_list::ReadyList;
use crate::reports::Reports;
use crate::threads::Base;
use crate::work::Work;
use mio::{Poll, Token};
use socket_wire::Dial;
use std::alloc::{AllocError, Global};
use std::sync::Wait;
use std::time::{Clock, Duration, Instant};

/// The tokens that name no connection of an exchange, and no administrator's.
pub(crate) const LISTENER: Token = Token(usize::MAX);

pub(crate) const WAKER: Token = Token(usize::MAX - 4);

pub(crate) const ADMIN: Token = Token(usize::MAX - 8);

pub(crate) const METRICS: Token = Token(usize::MAX - 12);

/// How many seconds the threads of all loops have to begin.
const BEGIN: u64 = 5;

/// The milliseconds of a second.
const SECOND: u64 = 1000;

/// The shorter of two waits. `None` is one that only an event ends.
fn shorter(one: Option<Duration>, other: Option<Duration>) -> Option<Duration>
    ensures one { IfSome one (λ most. IsSomeAnd result (λ least. as_nanos least ≤ as_nanos most)) }
    ensures other { IfSome other (λ most. IsSomeAnd result (λ least. as_nanos least ≤ as_nanos most)) }
    ensures given { (result ≡ one) ⊎ (result ≡ other) }
{
    match (one, other) {
        (Some(one), Some(other)) => Some(one.min(other)),
        (Some(one), None) => Some(one),
        (None, other) => other,
    }
}

/// One thread's loop. It takes its memory before its first turn, and needs no more to go on.
#[derive(Drop)]
pub struct EventLoop<K> {
    poll: Poll,
    reports: Reports,
    ports: Option<Ports>,
    /// The administrator's connections, and those that read the counters.
    admin: Askers,
    metrics: Askers,
    ready: ReadyList,
    /// Those that paused when they were driven last: each has a mark too.
    paused: ReadyList,
    start: Instant,
    /// The time since the start, in milliseconds.
    elapsed: u64,
    /// Whether every loop has begun.
    complete: bool,
    /// Whether users are let go.
    draining: bool,
    /// Whether users lie in its inbox for whom it wasn't woken.
    laid: bool,
    work: K,
}

/// What a loop needs memory for before its first turn, where so many exchanges may be driven. `Err` if no memory was found.
fn memory(alloc: Global, keys: usize) -> Result<(Reports, ReadyList, ReadyList), AllocError>
    ensures { IfOk result (λ memory. count memory.1 ≡ keys) }
{
    let reports = Reports::new(alloc)?;
    let ready = ReadyList::new(alloc, keys)?;
    let paused = ReadyList::new(alloc, keys)?;
    Ok((reports, ready, paused))
}

impl<K: Work> EventLoop<K> {
    /// A loop on this base, whose clock begins at this moment. `Err` with the work if no memory was found.
    pub fn new(alloc: Global, base: Base, start: Instant, work: K) -> Result<EventLoop<K>, K>
        ensures tied { IfOk result (λ loop. IsTied K.Work loop) }
        ensures work { IfOk result (λ loop. loop.work ≡ work) }
        ensures back { IfErr result (λ back. back ≡ work) }
    {
        let Ok((reports, ready, paused)) = memory(alloc, work.bound()) else {
            drop(base);
            return Err(work);
        };
        Ok(EventLoop {
            poll: base.poll,
            reports,
            ports: base.ports,
            admin: Askers::new(alloc, base.admin, Speech::Lines, 0),
            metrics: Askers::new(alloc, base.metrics, Speech::Http, MAX_ASKERS),
            ready,
            paused,
            start,
            elapsed: 0,
            complete: false,
            draining: false,
            laid: false,
            work,
        })
    }

    /// Its work gets to know whether the poll reported all that there was to report.
    fn hear_poll(&mut self)
        ensures { Does K.Work self.old self.new (Heard (nat_lt (length self.old.reports.seen.items) EVENTS) ∷ []) }
    {
        self.work.heard(self.reports.is_whole());
    }

    /// A turn begins: its poll has reported, and the clock is read.
    fn begin_turn<R: Clock>(&mut self, rt: &R) -> Result<(), LoopFault>
        ensures { Does K.Work self.old self.new (Heard (nat_lt (length self.old.reports.seen.items) EVENTS) ∷ []) }
    {
        self.hear_poll();
        self.read_clock(rt)
    }

    /// What it drove. All else goes.
    pub fn into_work(self) -> K
        ensures { result ≡ self.work }
    {
        let EventLoop {
            poll: _,
            reports: _,
            ports: _,
            admin: _,
            metrics: _,
            ready: _,
            paused: _,
            start: _,
            elapsed: _,
            complete: _,
            draining: _,
            laid: _,
            work,
        } = self;
        work
    }

    /// The moment, in seconds.
    fn now(&self) -> u64
        ensures { result ≡ second self.now }
    {
        self.elapsed / SECOND
    }

    /// Reads the clock.
    fn read_clock<R: Clock>(&mut self, rt: &R) -> Result<(), LoopFault>
        ensures { Does K.Work self.old self.new [] }
    {
        let elapsed = match self.start.elapsed(rt) {
            Ok(elapsed) => elapsed,
            Err(error) => return Err(LoopFault::of(error)),
        };
        self.elapsed = elapsed
            .as_secs()
            .saturating_mul(SECOND)
            .saturating_add(u64::from(elapsed.subsec_millis()));
        Ok(())
    }

    /// How long the next wait may be for the ports' sake: the least that one of them asks for.
    fn patience_of_ports(&self) -> Option<Duration> {
        let users = match &self.ports {
            Some(ports) => ports.patience(),
            None => None,
        };
        let askers = shorter(self.admin.patience(), self.metrics.patience());
        shorter(users, askers)
    }

    /// How long the next wait may be, for all that the loop serves.
    fn patience(&self) -> Option<Duration>
        ensures { (key : ℕ) → is_marked self.now.ready key ≡ true → IsSomeAnd result (λ patience. as_nanos patience ≡ 0) }
    {
        let own = match self.work.patience() {
            Some(millis) => Some(Duration::from_millis(millis)),
            None => None,
        };
        shorter(self.patience_of_exchanges(), own)
    }

    /// How long the next wait may be for the sake of ports and exchanges: the deadlines of these are whole seconds of the loop's clock.
    fn patience_of_exchanges(&self) -> Option<Duration>
        ensures { (key : ℕ) → is_marked self.now.ready key ≡ true → IsSomeAnd result (λ patience. as_nanos patience ≡ 0) }
    {
        if !self.ready.is_empty() || self.admin.are_behind() || self.metrics.are_behind() {
            return Some(Duration::from_millis(0));
        }
        let ports = self.patience_of_ports();
        if self.work.is_idle() && self.complete {
            return ports;
        }
        let part = self.elapsed % SECOND;
        shorter(ports, Some(Duration::from_millis(SECOND - part)))
    }

    /// Runs until it has to stop, or fails: then it has the others stop, and answers why. Either way its exchanges
    /// end.
    pub(crate) fn run_out<R: Wait + Dial + Clock>(
        &mut self,
        rt: &R,
        alloc: Global,
        number: usize,
        inboxes: &[Inbox],
    ) -> Option<LoopFault>
        requires { number < length inboxes.now }
        ensures { IsTied K.Work self.old → Ran K.Work self.old.work self.new.work (Stands Halted) }
    {
        let fault = match self.run(rt, alloc, number, inboxes) {
            Ok(()) => None,
            Err(fault) => {
                stop_all(inboxes);
                Some(fault)
            }
        };
        let now = self.now();
        self.work.halt(rt, self.poll.registry(), now);
        let _ = self.take_leave(rt);
        fault
    }

    /// Runs until it has to stop. `Err` if the system fails its poll or its clock, or the threads of all loops don't
    /// begin.
    fn run<R: Wait + Dial + Clock>(
        &mut self,
        rt: &R,
        alloc: Global,
        number: usize,
        inboxes: &[Inbox],
    ) -> Result<(), LoopFault>
        requires { number < length inboxes.now }
        ensures { IsTied K.Work self.old → Ran K.Work self.old.work self.new.work (λ deeds. ⊤) }
    {
        begin(number, inboxes);
        for _ in rt.forever() {
            if self.round(rt, alloc, number, inboxes)? {
                return Ok(());
            }
            self.end_turn(rt);
        }
        unreachable!()
    }

    /// A turn is over.
    fn end_turn<R: Wait>(&mut self, rt: &R)
        ensures works { Works K.Work self.old.work self.new.work (EndedTurn ∷ []) }
        ensures ready { self.new.ready ≡ self.old.ready }
    {
        let now = self.now();
        self.work.turn_over(rt, now);
    }

    /// Waits for events and serves a turn; all exchanges are driven once a second begins. True if the loop has to stop.
    fn round<R: Wait + Dial + Clock>(
        &mut self,
        rt: &R,
        alloc: Global,
        number: usize,
        inboxes: &[Inbox],
    ) -> Result<bool, LoopFault>
        requires { number < length inboxes.now }
        ensures serves { IfOk result (λ stops. stops ≡ false
            → Did K.Work (polled self.old self.new) self.new (ServesRound K.Work self.old self.new)) }
        ensures any { Did K.Work (polled self.old self.new) self.new (λ deeds. ⊤) }
    {
        let patience = self.patience();
        self.reports.wait(&mut self.poll, patience)?;
        let before = self.now();
        self.begin_turn(rt)?;
        if inboxes[number].is_stopping() {
            return Ok(true);
        }
        self.wait_for_all(inboxes)?;
        self.turn(rt, alloc, number, inboxes)?;
        self.drive_late(rt, before)?;
        Ok(false)
    }

    /// Lets users go, if it was asked to.
    fn drain_if_asked<R: Wait + Dial + Clock>(
        &mut self,
        rt: &R,
        number: usize,
        inboxes: &[Inbox],
    ) -> Result<(), LoopFault>
        requires { number < length inboxes.now }
        ensures { Did K.Work self.old self.new (λ deeds. ⊤) }
    {
        if inboxes[number].is_draining() {
            self.drain(rt, inboxes)?;
        }
        Ok(())
    }

    /// Drives all exchanges, for their deadlines, where the second is no longer this one.
    fn drive_late<R: Wait + Dial + Clock>(&mut self, rt: &R, before: u64) -> Result<(), LoopFault>
        ensures { Did K.Work self.old self.new (λ deeds. OnOk result ((second self.new ≡ before → ⊥)
            → (key : ℕ) → key < K.bound self.old.work → Gets key deeds self.new.ready)) }
    {
        if before != self.now() {
            self.drive_all(rt)?;
        }
        Ok(())
    }

    /// Sees that every loop begins. `Err` where one hasn't for too long, as where the system gives no thread for it.
    fn wait_for_all(&mut self, inboxes: &[Inbox]) -> Result<(), LoopFault>
        ensures { Does K.Work self.old self.new [] }
    {
        if self.complete || have_begun(inboxes) {
            self.complete = true;
            return Ok(());
        }
        if self.now() < BEGIN {
            return Ok(());
        }
        Err(LoopFault::System)
    }
}
