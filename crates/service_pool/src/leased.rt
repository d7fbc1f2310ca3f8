//! Leases of the pools of both points, and connections with theirs.

ghost use Rattle.std.specs.Prelude.{◌≡◌};
ghost use Rattle.service_pool.specs.Lending.{point_of, is_reused};
ghost use Rattle.service_pool.specs.Limits.{limited_point, maximum_of};

use crate::lease::Lease;
use crate::locked::SetTo;
use std::sync::ledger::Ledger;
use trace_core::Point;

/// A lease of the pool of one point. It has no `Drop`, as a pool's lease has none.
#[must_use]
pub enum Leased<Q: Ledger, A: Ledger> {
    Request(Lease<Q>),
    Response(Lease<A>),
}

impl<Q: Ledger, A: Ledger> Leased<Q, A> {
    /// The point whose service it is of.
    pub fn point(&self) -> Point
        ensures { result ≡ point_of self.now }
    {
        match self {
            Leased::Request(_) => Point::Reqmod,
            Leased::Response(_) => Point::Respmod,
        }
    }

    /// Whether the connection was idle when it was taken, and hasn't been replaced since.
    pub fn reused(&self) -> bool
        ensures { result ≡ is_reused self.now }
    {
        match self {
            Leased::Request(lease) => lease.reused(),
            Leased::Response(lease) => lease.reused(),
        }
    }
}

/// The maximum that the pool of one point was set to.
#[derive(Drop)]
pub enum Limit<Q: Ledger, A: Ledger> {
    Request(SetTo<Q>),
    Response(SetTo<A>),
}

/// That the pool of a point was set to a maximum, and to which. It is made of a `Limit` alone.
#[derive(Clone, Copy, Drop)]
pub struct Maximum {
    point: Point,
    connections: u64,
}

impl<Q: Ledger, A: Ledger> Limit<Q, A> {
    /// The same, by its point, where it is this maximum.
    pub(crate) fn maximum(&self, connections: u64) -> Maximum
        requires { connections ≡ maximum_of self.now }
        ensures { (result.point ≡ limited_point self.now) × (result.connections ≡ connections) }
    {
        let point = match self {
            Limit::Request(_) => Point::Reqmod,
            Limit::Response(_) => Point::Respmod,
        };
        Maximum { point, connections }
    }
}

/// A connection to a service, with its lease.
#[must_use]
pub struct LeasedConnection<U, Q: Ledger, A: Ledger> {
    pub wire: U,
    pub lease: Leased<Q, A>,
}

/// What a pool has for whoever is to be lent a connection.
#[must_use]
pub(crate) enum Lendable<I, Q: Ledger, A: Ledger> {
    /// An idle connection.
    Idle(I, Leased<Q, A>),
    /// The right to open one.
    Fresh(Leased<Q, A>),
    /// Neither.
    Busy,
}
