//! A pool, as its rows and threads ask it, and calls whose leases are kept in a list.
use crate::questions::Subject;
use crate::resources::steps::{Lender, end_all, keep};
use crate::resources::words::{is_picked, is_preferred, number_after, put_back, put_closed};
use adapt_bytes::MAX_CONNECTIONS;
use service_pool::{AuditFault, Found, Lease, Pool, Taken};
use std::alloc::Global;
use std::sync::Wait;
use std::sync::ledger::Ledger;
use test_rows::{NoMemory, put_line, put_number, put_shown, says};

/// A pool, which lends leases.
pub trait Leasing: Lender {
    /// Takes a connection: what was found, with its lease.
    fn take(&self) -> Option<(Found<u32>, Self::Lent)>;

    /// Takes a connection, one above 20 before any other, and of those one above 30: what was found, with its lease.
    fn take_preferred(&self) -> Option<(Found<u32>, Self::Lent)>;

    /// Puts a connection back: the one that is closed, where one is.
    fn put(&self, connection: u32, lease: Self::Lent) -> Option<u32>;

    /// Opens a connection in place of a lease's: `fresh`, `reused` where the lease still says so, or `over`.
    fn replace(&self, lease: &mut Self::Lent) -> &'static [u8];

    /// Sets the maximum, within what one may have: the connections that are closed.
    fn limit(&self, alloc: Global, maximum: u64) -> Result<Vec<u32>, NoMemory>;
}

/// A pool, and what waits for its lock.
#[derive(Drop)]
pub struct Counter<'a, L: Ledger, R> {
    pub rt: &'a R,
    pub pool: &'a Pool<u32, L>,
}

impl<'a, L: Ledger, R: Wait> Lender for Counter<'a, L, R> {
    type Lent = Lease<L>;

    fn end(&self, lent: Lease<L>) {
        self.pool.give_up(self.rt, lent);
    }
}

/// What was found, with its lease.
fn found_of<L: Ledger>(taken: Taken<u32, L>) -> Option<(Found<u32>, Lease<L>)> {
    match taken {
        Taken::Idle(connection, lease) => Some((Found::Idle(connection), lease)),
        Taken::Fresh(lease) => Some((Found::Fresh, lease)),
        Taken::Busy => None,
    }
}

impl<'a, L: Ledger, R: Wait> Leasing for Counter<'a, L, R> {
    fn take(&self) -> Option<(Found<u32>, Lease<L>)> {
        found_of(self.pool.take(self.rt))
    }

    fn take_preferred(&self) -> Option<(Found<u32>, Lease<L>)> {
        let taken = self.pool.take_preferred(self.rt, &is_picked, &is_preferred);
        found_of(taken)
    }

    fn put(&self, connection: u32, lease: Lease<L>) -> Option<u32> {
        self.pool.put(self.rt, connection, lease)
    }

    fn replace(&self, lease: &mut Lease<L>) -> &'static [u8] {
        let answer = self.pool.replace(self.rt, lease);
        match (answer, lease.reused()) {
            (Ok(()), false) => b"fresh",
            (Ok(()), true) => b"reused",
            (Err(_), _) => b"over",
        }
    }

    fn limit(&self, alloc: Global, maximum: u64) -> Result<Vec<u32>, NoMemory> {
        let limited = self
            .pool
            .set_max(self.rt, alloc, maximum.min(MAX_CONNECTIONS))?;
        Ok(limited.into_closed())
    }
}

/// A pool with the leases that a row has.
#[derive(Drop)]
pub struct PoolAndLeases<'a, T: Leasing> {
    pub pool: &'a T,
    pub leases: &'a mut Vec<T::Lent>,
}

/// Keeps the lease of what was taken with the others, and says what came.
fn keep_one<T: Leasing>(
    pool: &T,
    leases: &mut Vec<T::Lent>,
    taken: Option<(Found<u32>, T::Lent)>,
) -> Found<u32> {
    match taken {
        Some((found, lease)) => {
            keep(pool, leases, lease);
            found
        }
        None => Found::Busy,
    }
}

/// Adds what a step of the last lease answers: `put 11`, `replace` or `give up`.
fn put_last<T: Leasing>(
    pool: &T,
    leases: &mut Vec<T::Lent>,
    step: &[u8],
    out: &mut Vec<u8>,
) -> Result<(), NoMemory> {
    let Some(mut lease) = leases.pop() else {
        return put_line(out, b"no lease");
    };
    if let Some(connection) = number_after(step, b"put") {
        return put_back(out, pool.put(connection.min(1000) as u32, lease));
    }
    if says(step, b"replace") {
        let answer = pool.replace(&mut lease);
        keep(pool, leases, lease);
        return put_line(out, answer);
    }
    pool.end(lease);
    put_line(out, b"closed")
}

impl<'a, T: Leasing> Subject for PoolAndLeases<'a, T> {
    /// `take`, `prefer`, `limit 1`, or a step of the last lease.
    fn put_said(&mut self, step: &[u8], out: &mut Vec<u8>) -> Result<(), NoMemory> {
        if says(step, b"take") || says(step, b"prefer") {
            let taken = if says(step, b"take") {
                self.pool.take()
            } else {
                self.pool.take_preferred()
            };
            return put_shown(out, b"found", &keep_one(self.pool, self.leases, taken));
        }
        if let Some(maximum) = number_after(step, b"limit") {
            let closed = self.pool.limit(*out.allocator(), maximum)?;
            return put_closed(out, &closed);
        }
        let is_of_lease = number_after(step, b"put").is_some();
        if is_of_lease || says(step, b"replace") || says(step, b"give up") {
            put_last(self.pool, self.leases, step, out)
        } else {
            put_line(out, b"no step")
        }
    }
}

/// The audit's number, or `None` where a lease is missing.
pub fn audited<L: Ledger, R: Wait>(
    rt: &R,
    pool: Pool<u32, L>,
    leases: Vec<Lease<L>>,
) -> Option<u64> {
    match pool.audit(leases) {
        Ok(count) => Some(count),
        Err((pool, leases, AuditFault::Missing)) => {
            end_all(&Counter { rt, pool: &pool }, leases);
            None
        }
    }
}

/// Adds the audit's number.
pub fn put_audit(out: &mut Vec<u8>, count: Option<u64>) -> Result<(), NoMemory> {
    match count {
        Some(count) => put_number(out, b"audit", count),
        None => put_line(out, b"a lease is missing"),
    }
}
