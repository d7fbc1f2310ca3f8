//! What is still out when the loops have ended.

ghost use Rattle.std.specs.Prelude.{◌≡◌, ◌+◌, ◌-◌, ◌^◌, ◌≤◌, true, All, IfOk, IfSome, IsSome, None, Some, is_some, min, vec_capacity, vec_len};
ghost use Rattle.std.specs.Option.{ForSome};
ghost use Rattle.adapt_bytes.specs.declared.limits.TheConstants.{MAX_CONNECTIONS};
ghost use Rattle.span_bank.specs.Stakes.{held_sum};
ghost use Rattle.shard_loop.specs.Left.{Counts, HoldsNothing, Keeps, counts, lease_of, out_of, out_of_slots, with_one_more};

use adapt_bytes::MAX_CONNECTIONS;
use service_pool::{Lease, Leased, Pool};
use shard_desk::{SharedPools, Spare};
use shard_exchange::Exchange;
use shard_message::{Held, Holdings, Kinds};
use shard_report::{ProxyFault, StopAudit};
use span_bank::{Audit, Bank, Ledgers, Pages, Stake};
use std::alloc::Global;
use std::boxed::Box;
use std::sync::Wait;
use std::sync::ledger::Ledger;

/// The reservations and the leases that are still out, and why the first thread failed that did.
pub struct Left<B: Ledgers, Q: Ledger, A: Ledger> {
    fault: Option<ProxyFault>,
    stakes: Vec<Stake<B>>,
    requests: Vec<Lease<Q>>,
    responses: Vec<Lease<A>>,
    ghost idle: { All HoldsNothing stakes.items },
}

/// What is kept until it is audited.
pub trait Unaudited {
    // how many are kept
    ghost kept: { Self → Counts };

    // how many there is room for
    ghost room: { Self → Counts };
}

impl<B: Ledgers, Q: Ledger, A: Ledger> Unaudited for Left<B, Q, A> {
    ghost kept = { λ left. counts (vec_len left.stakes) (vec_len left.requests) (vec_len left.responses) };

    ghost room = { λ left. counts (vec_capacity left.stakes) (vec_capacity left.requests) (vec_capacity left.responses) };
}

/// How the proxy stopped. Only an audit makes one.
#[derive(Clone, Copy)]
pub struct Stopped {
    audit: StopAudit,
    fault: Option<ProxyFault>,
}

impl Stopped {
    /// What was still out.
    pub fn audit(&self) -> StopAudit
        ensures { result ≡ self.now.audit }
    {
        self.audit
    }

    /// What stopped it, if that wasn't the administrator: a loop failed, and all others had to stop.
    pub fn fault(&self) -> Option<ProxyFault>
        ensures { result ≡ self.now.fault }
    {
        self.fault
    }
}

/// What is still out of an exchange that has ended.
#[must_use]
pub struct StillOut<B: Ledgers, Q: Ledger, A: Ledger> {
    lease: Option<Leased<Q, A>>,
    stake: Option<Stake<B>>,
    ghost idle: { ForSome stake HoldsNothing },
}

/// What may still be out of an exchange that ends.
pub trait Outstanding<B: Ledgers, Q: Ledger, A: Ledger> {
    // how much is
    ghost out: { Self → Counts };

    /// Ends it. Its connections are closed.
    fn into_out<R: Wait>(self, rt: &R, bank: &Bank<B>) -> StillOut<B, Q, A>
        ensures { out_of (is_some result.stake) result.lease ≡ out self };
}

impl<B: Ledgers, Q: Ledger, A: Ledger, O: Kinds<Ledgers = B, Lease = Leased<Q, A>>> Outstanding<
    B,
    Q,
    A,
> for Exchange<Holdings<O>> {
    ghost use Rattle.std.specs.Prelude.{◌||◌, option_map};

    ghost out = { λ exchange. out_of (is_some exchange.holdings.room || is_some exchange.holdings.tx) (option_map (λ leased. leased.lease) exchange.holdings.connection) };

    fn into_out<R: Wait>(self, rt: &R, bank: &Bank<B>) -> StillOut<B, Q, A> {
        let Held { lease, stake } = self.into_holdings().into_held(rt, bank);
        StillOut { lease, stake }
    }
}

/// Keeps a lease where there is room for it. Else it comes back.
fn keep<L: Ledger>(leases: &mut Vec<Lease<L>>, lease: Lease<L>) -> Option<Lease<L>>
    ensures kept { leases.new.items ≡ with_one_more (vec_capacity leases.old) leases.old.items lease }
    ensures count { vec_len leases.new ≡ min (vec_capacity leases.old) (vec_len leases.old + 1) }
    ensures room { vec_capacity leases.new ≡ vec_capacity leases.old }
{
    if leases.len() < leases.capacity() {
        leases.push_reserved(lease);
        None
    } else {
        Some(lease)
    }
}

/// Gives leases up.
fn end_leases<L: Ledger, R: Wait>(rt: &R, pool: &Pool<Spare, L>, leases: Vec<Lease<L>>) {
    let mut leases = leases;
    while let Some(lease) = leases.pop() {
        pool.give_up(rt, lease);
    }
    leases.destroy_empty();
}

/// The number of a pool's leases that are out, if all are here.
fn audit_pool<L: Ledger, R: Wait>(
    rt: &R,
    pool: Pool<Spare, L>,
    leases: Vec<Lease<L>>,
) -> Option<u64>
    ensures { IfSome result (λ leased. leased ≡ vec_len leases) }
{
    match pool.audit(leases) {
        Ok(leased) => Some(leased),
        Err((pool, leases, _)) => {
            end_leases(rt, &pool, leases);
            None
        }
    }
}

/// Closes reservations.
fn end_stakes<B: Ledgers, R: Wait>(rt: &R, bank: &Bank<B>, stakes: Vec<Stake<B>>)
    requires { All HoldsNothing stakes.items }
{
    let mut stakes = stakes;
    while let Some(stake) = stakes.pop() {
        bank.close(rt, stake, Pages::none());
    }
    stakes.destroy_empty();
}

/// The sums of the open reservations, if all are here.
fn audit_bank<B: Ledgers, R: Wait>(rt: &R, bank: Bank<B>, stakes: Vec<Stake<B>>) -> Option<Audit>
    requires { All HoldsNothing stakes.items }
    ensures { IfSome result (λ audit. (audit.rows ≡ vec_len stakes) × (audit.held ≡ held_sum stakes.items)) }
{
    match bank.audit(stakes) {
        Ok(audit) => Some(audit),
        Err((bank, stakes, _)) => {
            end_stakes(rt, &bank, stakes);
            None
        }
    }
}

impl<B: Ledgers, Q: Ledger, A: Ledger> Left<B, Q, A> {
    /// Nothing yet.
    pub fn new(alloc: Global) -> Left<B, Q, A>
        ensures { ⟦<Self as Unaudited>⟧.kept result ≡ counts 0 0 0 }
    {
        Left {
            fault: None,
            stakes: Vec::new(alloc),
            requests: Vec::new(alloc),
            responses: Vec::new(alloc),
        }
    }

    /// Makes room for all that can be out. False where no memory was found.
    pub fn reserve(&mut self, rows: usize) -> bool
        ensures rows { result ≡ true → rows ≤ vec_capacity self.new.stakes }
        ensures leases { result ≡ true → (MAX_CONNECTIONS ≤ vec_capacity self.new.requests) × (MAX_CONNECTIONS ≤ vec_capacity self.new.responses) }
        ensures kept { ⟦<Self as Unaudited>⟧.kept self.new ≡ ⟦<Self as Unaudited>⟧.kept self.old }
    {
        let leases = MAX_CONNECTIONS as usize;
        self.stakes.reserve(rows).is_ok()
            && self.requests.reserve(leases).is_ok()
            && self.responses.reserve(leases).is_ok()
    }

    /// Takes note of a thread that failed. The first one stands.
    pub fn fail(&mut self, fault: ProxyFault)
        ensures first { self.old.fault ≡ None → self.new.fault ≡ Some fault }
        ensures stands { IsSome self.old.fault → self.new.fault ≡ self.old.fault }
    {
        if self.fault.is_none() {
            self.fault = Some(fault);
        }
    }

    /// Keeps a reservation that is still open, where there is room for it. Else it is closed.
    pub fn keep_stake<R: Wait>(&mut self, rt: &R, bank: &Bank<B>, stake: Stake<B>)
        requires { HoldsNothing stake }
        ensures stakes { self.new.stakes.items ≡ with_one_more (vec_capacity self.old.stakes) self.old.stakes.items stake }
        ensures kept { Keeps (⟦<Self as Unaudited>⟧.room self.old) (⟦<Self as Unaudited>⟧.kept self.old) (counts 1 0 0) (⟦<Self as Unaudited>⟧.kept self.new) }
        ensures room { ⟦<Self as Unaudited>⟧.room self.new ≡ ⟦<Self as Unaudited>⟧.room self.old }
    {
        if self.stakes.len() < self.stakes.capacity() {
            self.stakes.push_reserved(stake);
        } else {
            bank.close(rt, stake, Pages::none());
        }
    }

    /// Keeps a lease that is still out, where there is room for it. Else it is given up.
    pub fn keep_lease<R: Wait>(
        &mut self,
        rt: &R,
        pools: &SharedPools<'_, Q, A>,
        lease: Leased<Q, A>,
    )
        ensures kept { Keeps (⟦<Self as Unaudited>⟧.room self.old) (⟦<Self as Unaudited>⟧.kept self.old) (lease_of lease) (⟦<Self as Unaudited>⟧.kept self.new) }
        ensures room { ⟦<Self as Unaudited>⟧.room self.new ≡ ⟦<Self as Unaudited>⟧.room self.old }
    {
        let beyond = match lease {
            Leased::Request(lease) => match keep(&mut self.requests, lease) {
                Some(lease) => Leased::Request(lease),
                None => return,
            },
            Leased::Response(lease) => match keep(&mut self.responses, lease) {
                Some(lease) => Leased::Response(lease),
                None => return,
            },
        };
        pools.give_up(rt, beyond);
    }

    /// Takes what is still out of an exchange.
    fn take<R: Wait>(
        &mut self,
        rt: &R,
        bank: &Bank<B>,
        pools: &SharedPools<'_, Q, A>,
        out: StillOut<B, Q, A>,
    )
        ensures kept { Keeps (⟦<Self as Unaudited>⟧.room self.old) (⟦<Self as Unaudited>⟧.kept self.old)
            (out_of (is_some out.stake) out.lease) (⟦<Self as Unaudited>⟧.kept self.new) }
        ensures room { ⟦<Self as Unaudited>⟧.room self.new ≡ ⟦<Self as Unaudited>⟧.room self.old }
    {
        let StillOut { lease, stake } = out;
        if let Some(lease) = lease {
            self.keep_lease(rt, pools, lease);
        }
        if let Some(stake) = stake {
            self.keep_stake(rt, bank, stake);
        }
    }

    /// Takes what is held in a loop's slots: each reservation and each lease, where there is room for it.
    pub fn take_slots<E: Outstanding<B, Q, A>, R: Wait>(
        &mut self,
        rt: &R,
        bank: &Bank<B>,
        pools: &SharedPools<'_, Q, A>,
        slots: Vec<Option<Box<E>>>,
    )
        ensures kept { Keeps (⟦<Self as Unaudited>⟧.room self.old) (⟦<Self as Unaudited>⟧.kept self.old)
            (out_of_slots (λ exchange. E.Outstanding.out exchange.value) slots.items) (⟦<Self as Unaudited>⟧.kept self.new) }
    {
        let mut slots = slots;
        while let Some(slot) = slots.pop() {
            if let Some(exchange) = slot {
                let out = Box::into_inner(exchange).into_out(rt, bank);
                self.take(rt, bank, pools, out);
            }
        }
        slots.destroy_empty();
    }

    /// Audits the budget and the pools, and says why the first thread failed that did.
    pub fn audit<R: Wait>(
        self,
        rt: &R,
        bank: Bank<B>,
        request: Pool<Spare, Q>,
        response: Pool<Spare, A>,
    ) -> Result<Stopped, ProxyFault>
        ensures fault { IfOk result (λ stopped. stopped.fault ≡ self.fault) }
        ensures stakes { IfOk result (λ stopped. (stopped.audit.rows ≡ vec_len self.stakes)
            × (stopped.audit.held ≡ held_sum self.stakes.items)) }
        ensures leases { IfOk result (λ stopped. stopped.audit.leased
            ≡ min (vec_len self.requests + vec_len self.responses) (2 ^ 64 - 1)) }
    {
        let Left {
            fault,
            stakes,
            requests,
            responses,
        } = self;
        let requests = audit_pool(rt, request, requests);
        let responses = audit_pool(rt, response, responses);
        match (audit_bank(rt, bank, stakes), requests, responses) {
            (Some(audit), Some(requests), Some(responses)) => {
                let audit = StopAudit {
                    rows: audit.rows,
                    held: audit.held,
                    leased: requests.saturating_add(responses),
                };
                Ok(Stopped { audit, fault })
            }
            _ => Err(ProxyFault::Missing),
        }
    }
}
