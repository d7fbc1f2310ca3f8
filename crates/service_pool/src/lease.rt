//! Leases: the shares of a pool's leased number.
ghost use Rattle.std.specs.Prelude.{◌≡◌, ◌+◌, ◌≤◌, ◌<◌, true, false};
ghost use Rattle.service_pool.specs.Leased.{leased_of};

use std::marker::Model;
use std::sync::ledger::{Book, Ledger, Share};

/// How the connection of a lease was found.
#[derive(Clone, Copy, Debug)]
pub(crate) enum Source {
    /// It was idle, and the test of the take picked it.
    Picked,
    /// It was idle.
    Idle,
    /// It was opened for the lease.
    Fresh,
}

/// A lease, or connection slot: the right to have one connection of a pool open.
///
/// `L` names the ledger of its pool, so a pool takes no lease of another pool. A lease has one part
/// of the ledger, and counts one in it. It has no `Drop`: it must go back to its pool, by `put`,
/// `give_up` or `audit`. Contracts see whether its connection was idle when it was taken, and whether
/// the test of a `take_preferred` picked it.
#[must_use]
pub struct Lease<L: Ledger> {
    source: Source,
    share: Share<L>,
}

impl<L: Ledger> Model for Lease<L> {
    ghost use Rattle.std.specs.Prelude.{◌≡◌};
    ghost use Rattle.service_pool.specs.Leased.{Leased, leased_of};

    ghost Value = { Leased };

    ghost view = { λ l. leased_of l.source };

    ghost invariant = { λ l. (l.share.parts ≡ 1) × (l.share.amount ≡ 1) };
}

/// The result of a `take` or a `take_preferred`.
#[must_use]
pub enum Taken<C, L: Ledger> {
    /// An idle connection, leased: the one that was put last, or the first of those that the test of a `take_preferred` picks.
    Idle(C, Lease<L>),
    /// No connection is idle: the lease of one that the caller may open.
    Fresh(Lease<L>),
    /// No connection is idle, and no more may be opened.
    Busy,
}

// One lease more, with a part of those that stay under the lock.
pub(crate) fn lend<L: Ledger>(leased: &mut Book<L>, rest: &mut Share<L>, source: Source) -> Lease<L>
    requires parts { 1 < rest.old.parts }
    requires none { rest.old.amount ≡ 0 }
    ensures total { leased.new.total ≡ leased.old.total + 1 }
    ensures parts { rest.new.parts + 1 ≡ rest.old.parts }
    ensures none { rest.new.amount ≡ 0 }
    ensures lease { result ≡ leased_of source }
{
    let mut share = rest.split_off(1, 0);
    leased.add(&mut share, 1);
    Lease { source, share }
}

// One lease less, whose part goes back to those that stay under the lock.
pub(crate) fn give_back<L: Ledger>(leased: &mut Book<L>, rest: &mut Share<L>, lease: Lease<L>)
    requires { rest.old.amount ≡ 0 }
    ensures total { leased.new.total + 1 ≡ leased.old.total }
    ensures parts { rest.new.parts ≡ rest.old.parts + 1 }
    ensures none { rest.new.amount ≡ 0 }
{
    // A lease has no `Drop`, so it ends here.
    let Lease {
        source: _,
        mut share,
    } = lease;
    leased.sub(&mut share, 1);
    rest.merge(share);
}

impl<L: Ledger> Lease<L> {
    /// Whether the connection was idle when it was taken, and hasn't been replaced since.
    pub fn reused(&self) -> bool
        ensures { result ≡ self.now.reused }
    {
        match self.source {
            Source::Picked | Source::Idle => true,
            Source::Fresh => false,
        }
    }

    // Changes nothing, and shows that the lease is counted.
    pub(crate) fn count(&mut self, leased: &mut Book<L>)
        ensures same { (self.new ≡ self.old) × (leased.new.total ≡ leased.old.total) }
        ensures counted { 1 ≤ leased.old.total }
    {
        leased.audit(&mut self.share);
    }

    // Its connection is one that was opened for it.
    pub(crate) fn renew(&mut self)
        ensures { self.new ≡ leased_of Source.Fresh }
    {
        self.source = Source::Fresh;
    }

    // Adds the lease to a share.
    pub(crate) fn join(self, all: &mut Share<L>)
        ensures parts { all.new.parts ≡ all.old.parts + 1 }
        ensures amount { all.new.amount ≡ all.old.amount + 1 }
        ensures apart { all.new.parts ≤ L.parts }
    {
        let Lease { source: _, share } = self;
        all.merge(share);
    }
}
