//! The pool that threads share: each call with `rt` takes its one lock, calls one method of the locked part,
//! and releases the lock.
ghost use Rattle.std.specs.Prelude.{◌≡◌, ◌≤◌, ◌<◌, false, OnOk, OnErr, IfOk, IfErr, IfSome, vec_len};
ghost use Rattle.service_pool.specs.Leasing.{Tells, TellsTest};

use crate::NoMemory;
use crate::lease::{Lease, Taken};
use crate::locked::{Limited, Locked};
use crate::state::{Checked, PoolState};
use crate::step::{AuditFault, LEDGER_PARTS, Numbers, Over};
use adapt_bytes::MAX_CONNECTIONS;
use std::alloc::Global;
use std::sync::ledger::{Blank, Ledger};
use std::sync::{Mutex, Wait};

/// A bounded pool of connections to one service, which threads share by reference.
///
/// `L` names the ledger of its leases. A ledger is picked once for each pool, so its calls accept no
/// lease of another pool. Only `new` and `set_max` allocate.
///
/// ```
/// let pool: Pool<u32, L> = Pool::new(alloc, blank, 1, 16)?;
/// match pool.take(rt) {
///     Taken::Idle(connection, lease) => {
///         let closed = pool.put(rt, connection, lease);
///     }
///     // The caller opens connection 7, uses it, and puts it back.
///     Taken::Fresh(lease) => {
///         let closed = pool.put(rt, 7, lease);
///         assert_eq!(rt; closed, None);
///     }
///     Taken::Busy => {}
/// }
/// ```
#[derive(Drop)]
pub struct Pool<C, L: Ledger> {
    locked: Mutex<Locked<C, L>>,
}

impl<C, L: Ledger> Pool<C, L> {
    /// A pool without connections, of which at most `maximum` may be open, with room for
    /// `MAX_CONNECTIONS` idle connections and `journal` steps. The blank has `LEDGER_PARTS` parts.
    /// `Err` if that room finds no memory.
    pub fn new(
        alloc: Global,
        blank: Blank,
        maximum: u64,
        journal: usize,
    ) -> Result<Pool<C, L>, NoMemory>
        requires blank { (blank.name ≡ L.name) × (blank.parts ≡ L.parts)
            × (blank.parts ≡ LEDGER_PARTS) }
        requires maximum { maximum ≤ MAX_CONNECTIONS }
        requires journal { 1 ≤ journal }
    {
        let state = PoolState::new(alloc, maximum, journal)?;
        Ok(Pool {
            locked: Mutex::new(Locked::new(state, blank)),
        })
    }

    /// How many connections are idle and leased, and how many may be open, at one moment.
    pub fn numbers(&self, rt: &impl Wait) -> Numbers {
        self.locked.lock(rt).numbers()
    }

    /// Takes the idle connection that was put last. If there is none, takes the right to open one if
    /// fewer than the maximum are leased; else returns `Busy`. The lease tells which.
    pub fn take(&self, rt: &impl Wait) -> Taken<C, L>
        ensures { Tells result }
    {
        self.locked.lock(rt).take()
    }

    /// Takes the first idle connection of those that the one test picks, whatever younger ones there are: the
    /// youngest that the other test prefers, or the youngest where it prefers none. Where none is picked it
    /// takes what `take` takes. The lease tells whether one was picked. The tests are made of each idle
    /// connection, the youngest first, under the lock, so they have to be short ones.
    pub fn take_preferred<F: Fn(&C) -> bool, G: Fn(&C) -> bool>(
        &self,
        rt: &impl Wait,
        picked: &F,
        prefers: &G,
    ) -> Taken<C, L>
        requires picked { F.IsAlwaysCallable picked.now }
        requires prefers { G.IsAlwaysCallable prefers.now }
        ensures tells { Tells result }
        ensures picked { TellsTest F.Fn picked.now result }
    {
        self.locked.lock(rt).take_preferred(picked, prefers)
    }

    /// Puts a leased connection back. If more than the maximum are open, itself included, it is
    /// handed back to be closed.
    pub fn put(&self, rt: &impl Wait, connection: C, lease: Lease<L>) -> Option<C>
        ensures { IfSome result (λ c. c ≡ connection) }
    {
        self.locked.lock(rt).put(connection, lease)
    }

    /// Releases a leased connection, which the caller closes.
    pub fn give_up(&self, rt: &impl Wait, lease: Lease<L>) {
        self.locked.lock(rt).give_up(lease)
    }

    /// Allows a fresh connection in place of a leased one that its service has ended or that failed. The caller closes the old
    /// one before it opens the fresh one. `Over` if more than the maximum are open; then the lease stays as it is.
    pub fn replace(&self, rt: &impl Wait, lease: &mut Lease<L>) -> Result<(), Over>
        ensures fresh { OnOk result (lease.new ≡ record { reused = false; picked = false }) }
        ensures err { OnErr result (lease.new ≡ lease.old) }
    {
        self.locked.lock(rt).replace(lease)
    }

    /// Hands out the idle connection at this index, 0 being the oldest, to be closed, where the test picks
    /// it. The test is made under the lock, so it has to be a short one.
    pub fn close_idle<F: Fn(&C) -> bool>(
        &self,
        rt: &impl Wait,
        index: usize,
        is_over: &F,
    ) -> Checked<C>
        requires { F.IsAlwaysCallable is_over.now }
    {
        self.locked.lock(rt).close_idle(index, is_over)
    }

    /// Sets the largest number of open connections, and hands back idle ones to be closed: oldest
    /// first, until at most that many are open or no connection is idle. `Err` if their list finds
    /// no memory; then nothing has changed.
    pub fn set_max(
        &self,
        rt: &impl Wait,
        alloc: Global,
        maximum: u64,
    ) -> Result<Limited<C, L>, NoMemory>
        requires { maximum ≤ MAX_CONNECTIONS }
        ensures few { IfOk result (λ limited. vec_len limited.closed ≤ MAX_CONNECTIONS) }
        ensures set { IfOk result (λ limited. limited.set.maximum ≡ maximum) }
    {
        self.locked.lock(rt).set_max(alloc, maximum)
    }

    /// Ends the pool with all its leases, and returns their number, which is the leased number; idle
    /// connections are closed. `Missing` if fewer leases were handed in than are out; then the pool
    /// and the leases are handed back.
    pub fn audit(
        self,
        leases: Vec<Lease<L>>,
    ) -> Result<u64, (Pool<C, L>, Vec<Lease<L>>, AuditFault)>
    where
        C: Drop,
        ensures count { IfOk result (λ n. n ≡ vec_len leases) }
        ensures back { IfErr result (λ e. e.1.items ≡ leases.items) }
        ensures fewer { IfErr result (λ _. vec_len leases < MAX_CONNECTIONS) }
    {
        match self.locked.into_inner().audit(leases) {
            Ok(count) => Ok(count),
            Err((locked, leases, fault)) => Err((
                Pool {
                    locked: Mutex::new(locked),
                },
                leases,
                fault,
            )),
        }
    }
}
