//! The locked part of a pool: its state, and the book of its leases.
ghost use Rattle.std.specs.Prelude.{◌≡◌, ◌↔◌, ◌+◌, ◌≤◌, ◌<◌, [], ◌∷◌, ◌++◌, false, IsErr, IfOk, IfErr, OnOk, OnErr, IfSome, IfNone, vec_len};
ghost use Rattle.service_pool.specs.Leasing.{found, chosen, Tells, TellsTest};
ghost use Rattle.service_pool.specs.Pooled.{Takes, Chooses, Closes, IsPicked, IsBusy, IsKept};
ghost use Rattle.service_pool.specs.Replay.{open_count};
ghost use Rattle.service_pool.specs.Journal.{slid, stepped};

use crate::NoMemory;
use crate::lease::{Lease, Source, Taken, give_back, lend};
use crate::state::{Checked, Choice, Found, PoolState};
use crate::step::{AuditFault, LEDGER_PARTS, Numbers, Over, PoolStep};
use crate::window::Window;
use adapt_bytes::MAX_CONNECTIONS;
use std::alloc::Global;
use std::marker::{Model, PhantomData};
use std::sync::ledger::{Blank, Book, Ledger, Share};

/// The locked part of a pool, between two calls of its methods.
///
/// The total of its leases is the leased number: each lease has one part of the ledger and counts
/// one in it, and the other parts lie here. Contracts see it as its state.
#[derive(Drop)]
pub struct Locked<C, L: Ledger> {
    state: PoolState<C, Window>,
    leased: Book<L>,
    rest: Share<L>,
}

/// The maximum that the pool of the ledger `L` was set to, under its lock. Only `set_max` makes one.
#[derive(Drop)]
pub struct SetTo<L: Ledger> {
    maximum: u64,
    ledger: PhantomData<L>,
}

/// The maximum that a pool was set to, and the idle connections that are to be closed.
#[derive(Drop)]
pub struct Limited<C, L: Ledger> {
    closed: Vec<C>,
    set: SetTo<L>,
}

impl<C, L: Ledger> Limited<C, L> {
    /// The connections that are to be closed, the oldest one first.
    pub fn into_closed(self) -> Vec<C>
        ensures { result ≡ self.closed }
    {
        let Limited { closed, set: _ } = self;
        closed
    }

    /// The maximum. The connections are dropped.
    pub fn limit(self) -> SetTo<L>
    where
        C: Drop,
        ensures { result ≡ self.set }
    {
        let Limited { closed: _, set } = self;
        set
    }
}

impl<C, L: Ledger> Model for Locked<C, L> {
    ghost use Rattle.std.specs.Prelude.{◌≡◌, ◌+◌};
    ghost use Rattle.service_pool.specs.declared.step.TheConstants.{LEDGER_PARTS};
    ghost use Rattle.service_pool.specs.Pooled.{Pooled, IsKept};

    ghost Value = { Pooled C };

    ghost view = { λ l. l.state };

    // The ledger's total is the leased number; each lease has a part, and the others lie here.
    ghost invariant = { λ l. IsKept l.state
        × (l.leased.total ≡ l.state.journal.numbers.leased)
        × (l.rest.parts + l.state.journal.numbers.leased ≡ L.parts)
        × (l.rest.amount ≡ 0) × (L.parts ≡ LEDGER_PARTS) };
}

impl<C, L: Ledger> Locked<C, L> {
    /// The locked part of a state with no lease. The blank has `LEDGER_PARTS` parts.
    pub fn new(state: PoolState<C, Window>, blank: Blank) -> Locked<C, L>
        requires blank { (blank.name ≡ L.name) × (blank.parts ≡ L.parts)
            × (blank.parts ≡ LEDGER_PARTS) }
        requires none { state.journal.numbers.leased ≡ 0 }
        ensures { result ≡ state }
    {
        // Shows what the state keeps.
        let _numbers = state.numbers();
        let (leased, rest) = blank.open::<L>();
        Locked {
            state,
            leased,
            rest,
        }
    }

    /// The numbers now.
    pub fn numbers(&self) -> Numbers
        ensures { result ≡ self.now.journal.numbers }
    {
        self.state.numbers()
    }

    /// Takes the idle connection that was put last, or the right to open one, with a lease, as the
    /// step `Take`.
    pub fn take(&mut self) -> Taken<C, L>
        ensures take { Takes slid self.old self.new (found result) }
        ensures tells { Tells result }

        // It is refused exactly if no connection is idle and the leased aren't below the maximum.
        ensures busy { (result ≡ Taken.Busy) ↔ IsBusy self.old }
        ensures kept { IsKept self.new }
    {
        let Locked {
            state,
            leased,
            rest,
        } = self;
        match state.take() {
            Found::Idle(connection) => Taken::Idle(connection, lend(leased, rest, Source::Idle)),
            Found::Fresh => Taken::Fresh(lend(leased, rest, Source::Fresh)),
            Found::Busy => Taken::Busy,
        }
    }

    /// Takes the first idle connection of those that the one test picks, whatever younger ones there are: the
    /// youngest that the other test prefers, or the youngest where it prefers none. Where none is picked it
    /// takes the youngest of all, or the right to open one. It comes with a lease, as the step `Take`, and the
    /// others keep their order.
    pub fn take_preferred<F: Fn(&C) -> bool, G: Fn(&C) -> bool>(
        &mut self,
        picked: &F,
        prefers: &G,
    ) -> Taken<C, L>
        requires picked { F.IsAlwaysCallable picked.now }
        requires prefers { G.IsAlwaysCallable prefers.now }
        ensures take { Chooses slid F.Fn picked.now G.Fn prefers.now self.old self.new (chosen result) }
        ensures tells { Tells result }
        ensures picked { TellsTest F.Fn picked.now result }

        // A preference refuses nothing.
        ensures busy { (result ≡ Taken.Busy) ↔ IsBusy self.old }
        ensures kept { IsKept self.new }
    {
        let Locked {
            state,
            leased,
            rest,
        } = self;
        match state.take_preferred(picked, prefers) {
            Choice::Picked(c) => Taken::Idle(c, lend(leased, rest, Source::Picked)),
            Choice::Unpicked(c) => Taken::Idle(c, lend(leased, rest, Source::Idle)),
            Choice::Fresh => Taken::Fresh(lend(leased, rest, Source::Fresh)),
            Choice::Busy => Taken::Busy,
        }
    }

    /// Puts a leased connection back and ends its lease, as the step `Put`. If more than the
    /// maximum are open, itself included, it is handed back to be closed.
    pub fn put(&mut self, connection: C, lease: Lease<L>) -> Option<C>
        ensures stays { IfNone result
            ((open_count self.old.journal.numbers ≤ self.old.journal.numbers.maximum)
            × (self.new.idle ≡ self.old.idle ++ connection ∷ [])) }
        ensures back { IfSome result (λ c. (c ≡ connection)
            × (self.old.journal.numbers.maximum < open_count self.old.journal.numbers)
            × (self.new.idle ≡ self.old.idle)) }
        ensures step { self.new.journal ≡ stepped slid self.old.journal PoolStep.Put }
        ensures leased { 1 ≤ self.old.journal.numbers.leased }
        ensures kept { IsKept self.new }
    {
        let Locked {
            state,
            leased,
            rest,
        } = self;
        give_back(leased, rest, lease);
        state.put(connection)
    }

    /// Releases a leased connection, which the caller closes, and ends its lease, as the step
    /// `GiveUp`.
    pub fn give_up(&mut self, lease: Lease<L>)
        ensures idle { self.new.idle ≡ self.old.idle }
        ensures step { self.new.journal ≡ stepped slid self.old.journal PoolStep.GiveUp }
        ensures leased { 1 ≤ self.old.journal.numbers.leased }
        ensures kept { IsKept self.new }
    {
        let Locked {
            state,
            leased,
            rest,
        } = self;
        give_back(leased, rest, lease);
        state.give_up();
    }

    /// Opens a connection in place of a leased one that broke and that the caller closes, as the
    /// step `Replace`. `Over` if more than the maximum are open; then nothing changes.
    pub fn replace(&mut self, lease: &mut Lease<L>) -> Result<(), Over>
        ensures over { IsErr result
            ↔ (self.old.journal.numbers.maximum < open_count self.old.journal.numbers) }
        ensures idle { self.new.idle ≡ self.old.idle }
        ensures step { OnOk result
            (self.new.journal ≡ stepped slid self.old.journal PoolStep.Replace) }
        ensures fresh { OnOk result (lease.new ≡ record { reused = false; picked = false }) }
        ensures err { OnErr result ((self.new ≡ self.old) × (lease.new ≡ lease.old)) }
        ensures leased { 1 ≤ self.old.journal.numbers.leased }
        ensures kept { IsKept self.new }
    {
        lease.count(&mut self.leased);
        self.state.replace()?;
        lease.renew();
        Ok(())
    }

    /// Hands out the idle connection at this index, 0 being the oldest, to be closed, where the test picks
    /// it, by the steps `Take` and `GiveUp`. No lease is made for it.
    pub fn close_idle<F: Fn(&C) -> bool>(&mut self, index: usize, is_over: &F) -> Checked<C>
        requires { F.IsAlwaysCallable is_over.now }
        ensures closes { Closes slid self.old self.new index result }
        ensures picked { IsPicked F.Fn is_over.now self.old.idle index result }
        ensures kept { IsKept self.new }
    {
        self.state.close_idle(index, is_over)
    }

    /// Sets the largest number of open connections, as the step `Limit`, and hands back idle ones to
    /// be closed: oldest first, until at most that many are open or no connection is idle. `Err` if
    /// their list finds no memory.
    pub fn set_max(&mut self, alloc: Global, maximum: u64) -> Result<Limited<C, L>, NoMemory>
        requires { maximum ≤ MAX_CONNECTIONS }
        ensures oldest { IfOk result (λ limited. limited.closed.items ++ self.new.idle ≡ self.old.idle) }
        ensures few { IfOk result (λ limited. vec_len limited.closed ≤ MAX_CONNECTIONS) }
        ensures set { IfOk result (λ limited. limited.set.maximum ≡ maximum) }
        ensures step { OnOk result
            (self.new.journal ≡ stepped slid self.old.journal (PoolStep.Limit maximum)) }
        ensures err { OnErr result (self.new ≡ self.old) }
        ensures kept { IsKept self.new }
    {
        let closed = self.state.set_max(alloc, maximum)?;
        Ok(Limited {
            closed,
            set: SetTo {
                maximum,
                ledger: PhantomData,
            },
        })
    }

    /// Ends the pool with all its leases, and returns their number, which is the leased number; idle
    /// connections are closed. `Missing` if fewer leases were handed in than are out; then
    /// everything is handed back as it was.
    pub fn audit(
        self,
        leases: Vec<Lease<L>>,
    ) -> Result<u64, (Locked<C, L>, Vec<Lease<L>>, AuditFault)>
    where
        C: Drop,
        ensures count { IfOk result (λ n. (n ≡ vec_len leases)
            × (n ≡ self.journal.numbers.leased)) }

        // A lease is missing exactly where there are fewer than are out.
        ensures missing { IsErr result ↔ (vec_len leases < self.journal.numbers.leased) }
        ensures back { IfErr result (λ e. (e.0 ≡ self) × (e.1.items ≡ leases.items)) }
        ensures kept { IsKept self }
    {
        let numbers = self.state.numbers();
        if (leases.len() as u64) < numbers.leased {
            return Err((self, leases, AuditFault::Missing));
        }
        let Locked {
            state: _,
            mut leased,
            mut rest,
        } = self;
        let mut leases = leases;
        while let Some(lease) = leases.pop() {
            lease.join(&mut rest);
        }
        leases.destroy_empty();
        leased.audit(&mut rest);
        Ok(numbers.leased)
    }
}
