//! The pools of both points.

ghost use Rattle.std.specs.Prelude.{◌≡◌, ◌↔◌, ◌≤◌, ◌==◌, true, false, Some, None, IfOk, OnOk, OnErr};
ghost use Rattle.service_pool.specs.Lending.{Tells, IsYoung, FindsYoung, FindsOwn, point_of, is_reused};
ghost use Rattle.service_pool.specs.Calls.{Calls};
ghost use Rattle.service_pool.specs.Limits.{limited_point, maximum_of, IsSetTo};

use crate::book::PointBook;
use crate::connector::{Connector, Edge};
use crate::lease::Taken;
use crate::leased::{Leased, Lendable, Limit};
use crate::pool::Pool;
use crate::queues::{Call, Waiting};
use crate::state::Checked;
use adapt_bytes::MAX_CONNECTIONS;
use options_book::Record;
use std::alloc::{AllocError, Global};
use std::sync::Wait;
use std::sync::ledger::Ledger;
use trace_core::Point;

/// The connections to the services of both points, which all threads share, and those who wait for one.
///
/// ```
/// // An exchange takes a connection, and puts it back once its service has said all.
/// let connection = pools.lend(rt, &mut connector, Point::Reqmod, place, waiter, now)?;
/// assert!(rt; !connection.lease.reused());
/// pools.put(rt, &mut connector, connection, now);
/// ```
#[derive(Drop)]
pub struct Pools<'a, E: Edge, Q: Ledger, A: Ledger> {
    pub request: &'a Pool<E::Idle, Q>,
    pub response: &'a Pool<E::Idle, A>,
    /// How many seconds a connection may lie idle. None does where it is 0.
    pub idle_seconds: u64,
    /// The number of the thread that takes connections here: what lies idle with it comes before what lies with others.
    pub thread: usize,
    /// Those who wait for a connection of them.
    pub waiting: Waiting<'a, E>,
}

impl<'a, E: Edge, Q: Ledger, A: Ledger> Pools<'a, E, Q, A> {
    /// These pools, for the thread of this number.
    pub fn for_thread(&self, thread: usize) -> Pools<'a, E, Q, A>
        ensures { result.thread ≡ thread }
    {
        Pools {
            request: self.request,
            response: self.response,
            idle_seconds: self.idle_seconds,
            thread,
            waiting: self.waiting.for_thread(),
        }
    }

    /// Whether an idle connection lies with this thread.
    fn is_own(&self, idle: &E::Idle) -> bool
        ensures { result ≡ (E.home idle.now == self.now.thread) }
    {
        E::home(idle) == self.thread
    }

    /// Leases a connection of a point's service, an idle one first: of those that lie with this thread the youngest that is known to be
    /// quiet, or the youngest where none is; where none lies with this thread, the youngest of another one's.
    pub(crate) fn take<R: Wait, C: Connector<E>>(
        &self,
        rt: &R,
        connector: &C,
        point: Point,
    ) -> Lendable<E::Idle, Q, A>
        ensures tells { Tells point result }
        ensures own { FindsOwn E.home self.now.thread result }
    {
        let is_own = |idle: &E::Idle| self.is_own(idle);
        let is_quiet = |idle: &E::Idle| connector.is_known_quiet(idle);
        match point {
            Point::Reqmod => match self.request.take_preferred(rt, &is_own, &is_quiet) {
                Taken::Idle(idle, lease) => Lendable::Idle(idle, Leased::Request(lease)),
                Taken::Fresh(lease) => Lendable::Fresh(Leased::Request(lease)),
                Taken::Busy => Lendable::Busy,
            },
            Point::Respmod => match self.response.take_preferred(rt, &is_own, &is_quiet) {
                Taken::Idle(idle, lease) => Lendable::Idle(idle, Leased::Response(lease)),
                Taken::Fresh(lease) => Lendable::Fresh(Leased::Response(lease)),
                Taken::Busy => Lendable::Busy,
            },
        }
    }

    /// Whether an idle connection has lain idle for as long as one may at this moment.
    pub(crate) fn is_old(&self, idle: &E::Idle, now: u64) -> bool
        ensures { result ≡ false ↔ IsYoung (E.since idle.now) now self.now.idle_seconds }
    {
        now.saturating_sub(E::since(idle)) >= self.idle_seconds
    }

    /// Takes a connection of a point's service, but never one that is too old: those are closed, and their leases given up.
    pub(crate) fn take_young<R: Wait, C: Connector<E>>(
        &self,
        rt: &R,
        connector: &C,
        point: Point,
        now: u64,
    ) -> Lendable<E::Idle, Q, A>
        ensures tells { Tells point result }
        ensures young { FindsYoung E.since now self.now.idle_seconds result }
        ensures own { FindsOwn E.home self.now.thread result }
    {
        for _ in 0..MAX_CONNECTIONS {
            match self.take(rt, connector, point) {
                Lendable::Idle(idle, lease) => {
                    if !self.is_old(&idle, now) {
                        return Lendable::Idle(idle, lease);
                    }
                    drop(idle);
                    self.give_up(rt, lease);
                }
                Lendable::Fresh(lease) => return Lendable::Fresh(lease),
                Lendable::Busy => return Lendable::Busy,
            }
        }
        Lendable::Busy
    }

    /// Whether an idle connection is of no use at this moment: it is too old, or its service has ended it or spoken on it unasked.
    fn is_over(&self, idle: &E::Idle, now: u64) -> bool {
        self.is_old(idle, now) || !self.waiting.edge.is_quiet(idle)
    }

    /// Closes the idle connections of a pool that are of no use at this moment. Each is looked at under the pool's lock, which is let
    /// go in between.
    fn tidy_pool<R: Wait, L: Ledger>(&self, rt: &R, pool: &Pool<E::Idle, L>, now: u64) {
        let mut index = 0usize;
        for _ in 0..2 * MAX_CONNECTIONS {
            match pool.close_idle(rt, index, &|idle: &E::Idle| self.is_over(idle, now)) {
                Checked::Closed(idle) => drop(idle),
                Checked::Stays => index = index.saturating_add(1),
                Checked::Missing => return,
            }
        }
    }

    /// Closes the idle connections of both services that are of no use at this moment.
    pub fn tidy<R: Wait>(&self, rt: &R, now: u64) {
        self.tidy_pool(rt, self.request, now);
        self.tidy_pool(rt, self.response, now);
    }

    /// Puts a connection that lies idle back, for the one that waits longest. One that is too many is closed.
    pub(crate) fn put_idle<R: Wait>(
        &self,
        rt: &R,
        idle: E::Idle,
        lease: Leased<Q, A>,
    ) -> Call<E::Woken>
        ensures { Calls E.thread_of result }
    {
        let point = lease.point();
        match lease {
            Leased::Request(lease) => drop(self.request.put(rt, idle, lease)),
            Leased::Response(lease) => drop(self.response.put(rt, idle, lease)),
        }
        self.waiting.call(rt, point)
    }

    /// Gives up the lease of a connection that is closed: the one that waits longest may open another.
    pub fn give_up<R: Wait>(&self, rt: &R, lease: Leased<Q, A>) -> Call<E::Woken>
        ensures { Calls E.thread_of result }
    {
        let point = lease.point();
        match lease {
            Leased::Request(lease) => self.request.give_up(rt, lease),
            Leased::Response(lease) => self.response.give_up(rt, lease),
        }
        self.waiting.call(rt, point)
    }

    /// Whether a fresh connection may be opened in place of one that broke.
    pub(crate) fn replace<R: Wait>(&self, rt: &R, lease: &mut Leased<Q, A>) -> bool
        ensures point { point_of lease.new ≡ point_of lease.old }
        ensures fresh { result ≡ true → is_reused lease.new ≡ false }
        ensures same { result ≡ false → lease.new ≡ lease.old }
    {
        match lease {
            Leased::Request(lease) => self.request.replace(rt, lease).is_ok(),
            Leased::Response(lease) => self.response.replace(rt, lease).is_ok(),
        }
    }

    /// Closes the oldest idle connection to a point's service, with whichever thread it lies: the one that waits longest may open another.
    /// False if there is none.
    fn close_idle<R: Wait>(&self, rt: &R, point: Point) -> bool {
        let any = |_idle: &E::Idle| true;
        let checked = match point {
            Point::Reqmod => self.request.close_idle(rt, 0, &any),
            Point::Respmod => self.response.close_idle(rt, 0, &any),
        };
        match checked {
            Checked::Closed(idle) => drop(idle),
            Checked::Stays | Checked::Missing => return false,
        }
        self.waiting.call(rt, point);
        true
    }

    /// Closes as many idle connections as keep the next user out, and at most this many. False if none is left that could be closed.
    pub fn make_room<R: Wait>(&self, rt: &R, most: u64) -> bool {
        for _ in 0..most {
            if !self.waiting.edge.is_crowded() {
                return true;
            }
            if !self.close_idle(rt, Point::Reqmod) && !self.close_idle(rt, Point::Respmod) {
                return false;
            }
        }
        true
    }

    /// Sets how many connections to a point's service may be open, and closes idle ones that are too many. Which pool's maximum was set,
    /// and to what, and who was called.
    pub fn set_max<R: Wait>(
        &self,
        rt: &R,
        alloc: Global,
        point: Point,
        maximum: u64,
    ) -> Result<(Limit<Q, A>, Call<E::Woken>), AllocError>
        requires { maximum ≤ MAX_CONNECTIONS }
        ensures limits { IfOk result (λ set. (limited_point set.0 ≡ point) × (maximum_of set.0 ≡ maximum)) }
        ensures calls { IfOk result (λ set. Calls E.thread_of set.1) }
    {
        let limit = match point {
            Point::Reqmod => Limit::Request(self.request.set_max(rt, alloc, maximum)?.limit()),
            Point::Respmod => Limit::Response(self.response.set_max(rt, alloc, maximum)?.limit()),
        };
        let call = self.waiting.call(rt, point);
        Ok((limit, call))
    }

    /// Keeps what a service said, once its pool has the maximum that it says. Which pool's maximum was set, and to what. `Err` where no
    /// memory was found: then nothing has changed.
    pub fn keep<R: Wait>(
        &self,
        rt: &R,
        alloc: Global,
        point: Point,
        maximum: u64,
        book: &mut PointBook,
        said: Record,
    ) -> Result<Limit<Q, A>, AllocError>
        requires { maximum ≤ MAX_CONNECTIONS }
        ensures limits { IfOk result (λ limit. (limited_point limit ≡ point) × (maximum_of limit ≡ maximum)) }
        ensures kept { OnOk result ((book.new.said ≡ Some said) × (book.new.tag ≡ None) × (book.new.stale ≡ false)) }
        ensures set { OnOk result (IsSetTo point maximum book.new.maximum) }
        ensures same { OnErr result (book.new ≡ book.old) }
    {
        let (limit, _) = self.set_max(rt, alloc, point, maximum)?;
        book.keep_with(said, limit.maximum(maximum));
        Ok(limit)
    }
}
