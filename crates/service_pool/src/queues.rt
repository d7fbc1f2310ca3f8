//! Exchanges of all threads that wait for a connection to a service, and whose turn it is.
//!
//! An exchange that finds no connection and may wait joins the queue of its point. Of those that wait there, only the first one
//! may take a connection. Whatever may make one free calls the first one, and the first one calls the next when it leaves: so
//! none is called in vain for long, and no connection lies idle while somebody waits.

ghost use Rattle.std.specs.Prelude.{◌≡◌, ◌↔◌, false, None, IfSome};
ghost use Rattle.std.specs.Option.{ForSome, ForNone};
ghost use Rattle.service_pool.specs.Calls.{Calls, Wakes};

use crate::breaker::PauseRule;
use crate::breakers::{Breakers, Pass};
use crate::connector::Edge;
use crate::queue::{First, Next, WaitQueue, Waiter};
use std::alloc::{AllocError, Global};
use std::sync::{Mutex, Wait};
use trace_core::Point;

/// The points, in the order of the numbers of their queues, from 0.
pub const POINTS: [Point; 2] = [Point::Reqmod, Point::Respmod];

/// The queues of both points, which all threads share.
#[derive(Drop)]
pub struct Queues {
    request: Mutex<WaitQueue>,
    response: Mutex<WaitQueue>,
    /// What lets messages through to the services.
    pub breakers: Breakers,
}

impl Queues {
    /// Empty ones, of at most `most` exchanges each; services are paused by this rule. `Err` where no memory was found for them.
    pub fn new(alloc: Global, most: usize, rule: PauseRule) -> Result<Queues, AllocError> {
        Ok(Queues {
            request: Mutex::new(WaitQueue::new(alloc, most)?),
            response: Mutex::new(WaitQueue::new(alloc, most)?),
            breakers: Breakers::new(rule),
        })
    }
}

/// A call of whoever was first in a queue: that one's thread was woken, if somebody waited.
#[derive(Drop)]
pub struct Call<W> {
    first: First,
    woken: Option<W>,
}

/// A turn that was handed on by one who left a queue: the next one's thread was woken, if it was that one's turn and somebody waited.
#[derive(Drop)]
pub struct Handover<W> {
    next: Next,
    woken: Option<W>,
}

/// The turn of one who may take a connection: of one who waits, or of one who comes.
#[derive(Drop)]
pub(crate) struct Turn {
    seconds: u64,
    who: Option<Waiter>,
    found: Option<First>,
    // It was found first in the queue, or came while nobody was found there. One that comes where exchanges wait for no second looks at
    // none.
    ghost first: { ForSome found (λ first. first.waiter ≡ who) },
    ghost off: { ForNone found (seconds ≡ 0) },
}

/// How exchanges wait: the queues, what wakes the threads, and for how long.
#[derive(Clone, Copy, Drop)]
pub struct Waiting<'a, E: Edge> {
    pub queues: &'a Queues,
    pub edge: E,
    /// The most seconds that an exchange waits. One that comes doesn't wait where it is 0, and looks at no queue. Whoever waits may go by
    /// another number: a reload changes it.
    pub seconds: u64,
}

impl<'a, E: Edge> Waiting<'a, E> {
    /// How they wait, for another thread.
    pub(crate) fn for_thread(&self) -> Waiting<'a, E>
        ensures { (result.queues ≡ self.now.queues) × (result.edge ≡ self.now.edge) × (result.seconds ≡ self.now.seconds) }
    {
        Waiting {
            queues: self.queues,
            edge: self.edge,
            seconds: self.seconds,
        }
    }

    /// The queue of a point.
    fn queue(&self, point: Point) -> &'a Mutex<WaitQueue> {
        match point {
            Point::Reqmod => &self.queues.request,
            Point::Respmod => &self.queues.response,
        }
    }

    /// Ends the wait of the thread of an exchange, if there is one.
    fn wake(&self, waiter: Option<Waiter>) -> Option<E::Woken>
        ensures { Wakes E.thread_of waiter result }
    {
        match waiter {
            Some(waiter) => Some(self.edge.wake(waiter.thread)),
            None => None,
        }
    }

    /// Who is first in a queue. `None` where exchanges don't wait.
    fn first<R: Wait>(&self, rt: &R, point: Point) -> Option<First>
        ensures off { self.now.seconds ≡ 0 ↔ result ≡ None }
    {
        if self.seconds == 0 {
            return None;
        }
        let first = self.queue(point).lock(rt).first();
        Some(first)
    }

    /// The turn of one who waits, or of one who comes, to take a connection: the first one may, or one who comes while nobody waits.
    /// Where exchanges don't wait, whoever comes may.
    pub(crate) fn turn_of<R: Wait>(&self, rt: &R, point: Point, who: Option<Waiter>) -> Option<Turn>
        ensures { IfSome result (λ turn. (turn.seconds ≡ self.now.seconds) × (turn.who ≡ who)) }
    {
        let found = self.first(rt, point);
        let is_turn = match &found {
            Some(first) => first.waiter() == who,
            None => who.is_none(),
        };
        if is_turn {
            Some(Turn {
                seconds: self.seconds,
                who,
                found,
            })
        } else {
            None
        }
    }

    /// Lets a message of this one through to its service at this moment, unless that is paused.
    pub(crate) fn pass_of<R: Wait>(
        &self,
        rt: &R,
        point: Point,
        who: Waiter,
        now: u64,
    ) -> Option<Pass>
        ensures { IfSome result (λ pass. (pass.failures ≡ self.now.queues.now.breakers.rule.failures) × (pass.who ≡ who) × (pass.moment ≡ now)) }
    {
        self.queues.breakers.pass_of(rt, point, who, now)
    }

    /// How many wait.
    pub fn len<R: Wait>(&self, rt: &R, point: Point) -> u64 {
        self.queue(point).lock(rt).len() as u64
    }

    /// Whether somebody waits. One who waits may go by another number of seconds than the one who asks.
    pub fn is_awaited<R: Wait>(&self, rt: &R, point: Point) -> bool {
        !self.queue(point).lock(rt).is_empty()
    }

    /// Joins a queue. False where exchanges don't wait, or too many do already.
    pub fn join<R: Wait>(&self, rt: &R, point: Point, waiter: Waiter) -> bool
        ensures off { self.now.seconds ≡ 0 → result ≡ false }
    {
        self.seconds > 0 && self.queue(point).lock(rt).join(waiter).is_ok()
    }

    /// The key of the one whose turn it is, where it is of this thread. It may go by another number of seconds than the one who asks.
    pub fn first_of<R: Wait>(&self, rt: &R, point: Point, thread: usize) -> Option<usize> {
        match self.queue(point).lock(rt).first().waiter() {
            Some(waiter) if waiter.thread == thread => Some(waiter.key),
            _ => None,
        }
    }

    /// Leaves a queue. Where it was this one's turn, the next one is called.
    pub fn leave<R: Wait>(&self, rt: &R, point: Point, waiter: Waiter) -> Handover<E::Woken>
        ensures { Wakes E.thread_of result.next.waiter result.woken }
    {
        let next = self.queue(point).lock(rt).leave(waiter);
        let woken = self.wake(next.waiter());
        Handover { next, woken }
    }

    /// Calls the one whose turn it is: a connection may be free. It may go by another number of seconds than the one who calls.
    pub fn call<R: Wait>(&self, rt: &R, point: Point) -> Call<E::Woken>
        ensures { Calls E.thread_of result }
    {
        let first = self.queue(point).lock(rt).first();
        let woken = self.wake(first.waiter());
        Call { first, woken }
    }
}
