//! The steps of a row.

ghost use Rattle.std.specs.Prelude.{◌≡◌, []};

use crate::questions::{Subject, cut};
use crate::resources::lines::stage::{ConnectionStage, Hand, StageEdge, bit_of};
use crate::resources::lines::words::{fault_name, first_number, put_lent, put_woken};
use crate::resources::words::put_numbers;
use adapt_bytes::MAX_CONNECTIONS;
use service_pool::{
    Breakers, Edge, LeasedConnection, LendFault, Pools, ServiceEnd, Waiter, Waiting,
};
use std::alloc::Global;
use std::sync::Wait;
use std::sync::ledger::Ledger;
use test_rows::{NoMemory, index_of, put_line, put_number, put_truth, says};
use trace_core::Point;

/// The steps that threads take, in the order of `put_said`.
const STEPS: &[u8] =
    b"woken lend turn put close renew join leave first room maximum numbers tidy thread for answered failed untold paused";

/// The steps from outside, in the order of `put_outside`.
const OUTSIDE: &[u8] = b"end say read refuse short serve now poll";

/// The connections that are lent. None has a `Drop`.
pub type LentConnections<Q, A> = Vec<LeasedConnection<u64, Q, A>>;

/// A row in play.
pub struct Play<'a, 's, Q: Ledger, A: Ledger, R> {
    pub rt: &'a R,
    pub alloc: Global,
    pub stage: &'s ConnectionStage,
    pub pools: Pools<'a, StageEdge<'s>, Q, A>,
    pub held: LentConnections<Q, A>,
    /// The one for whom connections are lent that doesn't wait.
    pub who: Waiter,
}

/// The point that a step names, `response` or nothing, and what comes after it.
fn point_of(text: &[u8]) -> (Point, &[u8]) {
    let (word, rest) = cut(text, b" ");
    if says(word, b"response") {
        (Point::Respmod, rest)
    } else {
        (Point::Reqmod, text)
    }
}

/// The waiter that a step names: a thread, and a key in it.
fn waiter_of(text: &[u8]) -> Waiter {
    let (thread, rest) = first_number(text);
    let (key, _) = first_number(rest);
    Waiter {
        thread: (thread % 10) as usize,
        key: (key % 1000) as usize,
    }
}

/// Adds the numbers of a point's pool.
fn put_counts<E: Edge, Q: Ledger, A: Ledger, R: Wait>(
    rt: &R,
    pools: &Pools<'_, E, Q, A>,
    point: Point,
    out: &mut Vec<u8>,
) -> Result<(), NoMemory> {
    let numbers = match point {
        Point::Reqmod => pools.request.numbers(rt),
        Point::Respmod => pools.response.numbers(rt),
    };
    put_numbers(out, numbers)
}

/// A step of those who wait.
fn put_waiting<E: Edge, R: Wait>(
    rt: &R,
    waiting: &Waiting<'_, E>,
    word: &[u8],
    text: &[u8],
    out: &mut Vec<u8>,
) -> Result<(), NoMemory> {
    let (point, rest) = point_of(text);
    let waiter = waiter_of(rest);
    match index_of(b"join leave", word) {
        Some(0) => put_truth(out, waiting.join(rt, point, waiter)),
        Some(1) => {
            waiting.leave(rt, point, waiter);
            put_number(out, b"waiting", waiting.len(rt, point))
        }
        _ => match waiting.first_of(rt, point, waiter.thread) {
            Some(key) => put_number(out, b"key", key as u64),
            None => put_line(out, b"none"),
        },
    }
}

/// A step at the pools as a whole.
fn put_pools<E: Edge, Q: Ledger, A: Ledger, R: Wait>(
    rt: &R,
    alloc: Global,
    pools: &Pools<'_, E, Q, A>,
    word: &[u8],
    text: &[u8],
    out: &mut Vec<u8>,
) -> Result<(), NoMemory> {
    let (point, rest) = point_of(text);
    let (number, _) = first_number(rest);
    if says(word, b"room") {
        return put_truth(out, pools.make_room(rt, 3));
    }
    if says(word, b"maximum") {
        let _ = pools.set_max(rt, alloc, point, number.min(MAX_CONNECTIONS))?;
    }
    put_counts(rt, pools, point, out)
}

/// A step from outside: a service ends a connection or speaks on it, or the system refuses.
fn put_outside(
    stage: &ConnectionStage,
    word: &[u8],
    text: &[u8],
    out: &mut Vec<u8>,
) -> Result<(), NoMemory> {
    let (number, _) = first_number(text);
    match index_of(OUTSIDE, word) {
        Some(0) => stage.ended.set(stage.ended.get() | bit_of(number)),
        Some(1) => stage.unread.set(stage.unread.get() | bit_of(number)),
        Some(2) => stage.unread.set(stage.unread.get() & !bit_of(number)),
        Some(3) => stage.fault.set(Some(LendFault::Unreached)),
        Some(4) => stage.fault.set(Some(LendFault::NoMemory)),
        Some(5) => stage.fault.set(None),
        Some(6) => stage.now.set(number),
        Some(7) => stage.polls.set(stage.polls.get().saturating_add(1)),
        _ => return put_line(out, b"no step"),
    }
    put_line(out, b"so")
}

/// What a step says of an end at a service.
fn end_in(word: &[u8]) -> ServiceEnd {
    match index_of(b"answered failed", word) {
        Some(0) => ServiceEnd::Answered,
        Some(1) => ServiceEnd::Failed,
        _ => ServiceEnd::Untold,
    }
}

/// A step at the breakers: what a message of this one, or of the one that is named, came to at its service; or whether that is paused.
fn put_breakers<R: Wait>(
    rt: &R,
    breakers: &Breakers,
    now: u64,
    word: &[u8],
    text: &[u8],
    out: &mut Vec<u8>,
) -> Result<(), NoMemory> {
    let (point, rest) = point_of(text);
    if says(word, b"paused") {
        return put_truth(out, breakers.is_paused(rt, point));
    }
    breakers.end(rt, point, waiter_of(rest), now, end_in(word));
    put_truth(out, breakers.is_paused(rt, point))
}

impl<'a, 's, Q: Ledger, A: Ledger, R: Wait> Play<'a, 's, Q, A, R> {
    /// Closes the connections that are lent.
    pub fn close_all(&mut self)
        ensures { self.new.held.items ≡ [] }
    {
        while let Some(connection) = self.held.pop() {
            let LeasedConnection { wire: _, lease } = connection;
            self.pools.give_up(self.rt, lease);
        }
    }

    /// The connection of this number, if it is lent.
    fn take_held(&mut self, number: u64) -> Option<LeasedConnection<u64, Q, A>> {
        for at in 0..self.held.len() {
            if self.held[at].wire == number {
                return Some(self.held.swap_remove(at));
            }
        }
        None
    }

    /// Keeps what was lent, and says what it is.
    fn keep(
        &mut self,
        lent: Result<LeasedConnection<u64, Q, A>, LendFault>,
        out: &mut Vec<u8>,
    ) -> Result<(), NoMemory> {
        match lent {
            Ok(connection) => {
                let told = put_lent(out, connection.wire, connection.lease.reused());
                if self.held.len() < self.held.capacity() {
                    self.held.push_reserved(connection);
                } else {
                    let mut hand = Hand {
                        stage: self.stage,
                        thread: self.pools.thread,
                        out,
                    };
                    self.pools.close(self.rt, &mut hand, connection);
                }
                told
            }
            Err(fault) => put_line(out, fault_name(fault)),
        }
    }

    /// Lends a connection: to one who comes now, or to one who waits.
    fn lend(
        &mut self,
        point: Point,
        waiter: Option<Waiter>,
        out: &mut Vec<u8>,
    ) -> Result<(), NoMemory> {
        let now = self.stage.now.get();
        let mut hand = Hand {
            stage: self.stage,
            thread: self.pools.thread,
            out,
        };
        let lent = match waiter {
            Some(waiter) => {
                self.pools
                    .lend_in_turn(self.rt, &mut hand, point, point, waiter, now)
            },
            None => {
                let who = self.who;
                self.pools.lend(self.rt, &mut hand, point, point, who, now)
            }
        };
        let Hand {
            stage: _,
            thread: _,
            out,
        } = hand;
        self.keep(lent, out)
    }

    /// Lends a connection to the one who waits that a step names.
    fn lend_in_turn(&mut self, text: &[u8], out: &mut Vec<u8>) -> Result<(), NoMemory> {
        let (point, rest) = point_of(text);
        self.lend(point, Some(waiter_of(rest)), out)
    }

    /// Puts a connection back, closes it, or renews it.
    fn give(&mut self, word: &[u8], number: u64, out: &mut Vec<u8>) -> Result<(), NoMemory> {
        let Some(connection) = self.take_held(number) else {
            return put_line(out, b"not lent");
        };
        let mut hand = Hand {
            stage: self.stage,
            thread: self.pools.thread,
            out,
        };
        if says(word, b"renew") {
            let point = connection.lease.point();
            let lent = self.pools.renew(self.rt, &mut hand, point, connection);
            let Hand {
                stage: _,
                thread: _,
                out,
            } = hand;
            return self.keep(lent, out);
        }
        if says(word, b"put") {
            let now = self.stage.now.get();
            self.pools.put(self.rt, &mut hand, connection, now);
        } else {
            self.pools.close(self.rt, &mut hand, connection);
        }
        let Hand {
            stage: _,
            thread: _,
            out,
        } = hand;
        put_counts(self.rt, &self.pools, Point::Reqmod, out)
    }
}

impl<'a, 's, Q: Ledger, A: Ledger, R: Wait> Subject for Play<'a, 's, Q, A, R> {
    /// Adds what a step answers, or which threads were woken.
    fn put_said(&mut self, step: &[u8], out: &mut Vec<u8>) -> Result<(), NoMemory> {
        let (word, text) = cut(step, b" ");
        match index_of(STEPS, word) {
            Some(0) => put_woken(out, self.stage.woken.replace(0)),
            Some(1) => self.lend(point_of(text).0, None, out),
            Some(2) => self.lend_in_turn(text, out),
            Some(3..=5) => self.give(word, first_number(text).0, out),
            Some(6..=8) => put_waiting(self.rt, &self.pools.waiting, word, text, out),
            Some(9) => {
                self.stage.wanted.set(first_number(text).0);
                put_pools(self.rt, self.alloc, &self.pools, word, text, out)
            }
            Some(10 | 11) => put_pools(self.rt, self.alloc, &self.pools, word, text, out),
            Some(12) => {
                self.pools.tidy(self.rt, self.stage.now.get());
                put_counts(self.rt, &self.pools, Point::Reqmod, out)
            }
            Some(13) => {
                self.pools.thread = (first_number(text).0 % 10) as usize;
                put_line(out, b"so")
            }
            Some(14) => {
                self.who = waiter_of(text);
                put_line(out, b"so")
            }
            Some(15..=18) => {
                let breakers = &self.pools.waiting.queues.breakers;
                let now = self.stage.now.get();
                put_breakers(self.rt, breakers, now, word, text, out)
            }
            _ => put_outside(self.stage, word, text, out),
        }
    }
}
