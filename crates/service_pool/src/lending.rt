//! How connections are lent, renewed and put back.

ghost use Rattle.std.specs.Prelude.{◌≡◌, ◌↔◌, false, List, Err, Ok, IfOk, IfSome, OnOk, ◌∷◌};
ghost use Rattle.service_pool.specs.declared.connector.Act.{Act as AnyAct};
ghost use Rattle.service_pool.specs.Calls.{Calls};
ghost use Rattle.service_pool.specs.Lending.{point_of, is_reused, fault_in, Tells, HasLease, IsOf, FindsYoung, FindsOwn, FindsLeading, Leads, after_take, after_lend, TakesLive, Lends, Reopens, LaysDown, PutsBack};

use crate::breakers::Pass;
use crate::connector::{Act, Connector, Edge, Keeper, LendFault};
use crate::leased::{Leased, LeasedConnection, Lendable};
use crate::pools::Pools;
use crate::queue::Waiter;
use crate::queues::{Call, Turn};
use adapt_bytes::MAX_CONNECTIONS;
use std::sync::Wait;
use std::sync::ledger::Ledger;
use trace_core::Point;

/// Takes a connection out of use at this moment, if connections are kept and it may lie idle. `None` where it is closed.
fn lay_down<E: Edge, C: Keeper<E>>(
    connector: &mut C,
    used: C::Used,
    keeps: bool,
    now: u64,
) -> Option<E::Idle>
    ensures asked { LaysDown keeps (C.past connector.old) (C.past connector.new) result }
    ensures since { IfSome result (λ idle. E.since idle ≡ now) }
    ensures line { IfSome result (λ idle. C.is_line idle used) }
{
    if keeps && connector.may_rest(&used) {
        connector.rest(used, now)
    } else {
        connector.close(used);
        None
    }
}

impl<'a, E: Edge, Q: Ledger, A: Ledger> Pools<'a, E, Q, A> {
    /// Takes a connection. `None` where it is an idle one that isn't fit for use there: it is closed, and its lease given up.
    fn take_fit<R: Wait, C: Connector<E>>(
        &self,
        rt: &R,
        connector: &mut C,
        point: Point,
        place: C::Place,
        now: u64,
    ) -> Option<Lendable<E::Idle, Q, A>>
        ensures leads { IfSome result (FindsLeading (C.idle_leads place)) }
        ensures tells { IfSome result (Tells point) }
        ensures young { IfSome result (FindsYoung E.since now self.now.idle_seconds) }
        ensures own { IfSome result (FindsOwn E.home self.now.thread) }
        ensures looks { (p : List AnyAct) → C.past connector.old p → C.past connector.new (after_take result p) }
    {
        match self.take_young(rt, connector, point, now) {
            Lendable::Idle(idle, lease) => {
                if connector.is_fit(place, &idle) {
                    Some(Lendable::Idle(idle, lease))
                } else {
                    drop(idle);
                    self.give_up(rt, lease);
                    None
                }
            }
            Lendable::Fresh(lease) => Some(Lendable::Fresh(lease)),
            Lendable::Busy => Some(Lendable::Busy),
        }
    }

    /// Takes a connection, but never one that is too old, that its service has ended meanwhile, or on which it has said what nobody asked
    /// for, or that leads elsewhere.
    fn take_live<R: Wait, C: Connector<E>>(
        &self,
        rt: &R,
        connector: &mut C,
        point: Point,
        place: C::Place,
        now: u64,
    ) -> Lendable<E::Idle, Q, A>
        ensures leads { FindsLeading (C.idle_leads place) result }
        ensures tells { Tells point result }
        ensures young { FindsYoung E.since now self.now.idle_seconds result }
        ensures own { FindsOwn E.home self.now.thread result }
        ensures takes { TakesLive (C.past connector.old) (C.past connector.new) result }
    {
        for _ in 0..MAX_CONNECTIONS {
            if let Some(found) = self.take_fit(rt, connector, point, place, now) {
                return found;
            }
        }
        Lendable::Busy
    }

    /// A connection with its lease, which is given up where there is no connection.
    fn connection_of<R: Wait, U>(
        &self,
        rt: &R,
        used: Result<U, LendFault>,
        lease: Leased<Q, A>,
    ) -> Result<LeasedConnection<U, Q, A>, LendFault>
        ensures connection { IfOk result (λ connection. (connection.lease ≡ lease) × (used ≡ Ok connection.wire)) }
        ensures fault { fault_in result ≡ fault_in used }
    {
        match used {
            Ok(wire) => Ok(LeasedConnection { wire, lease }),
            Err(fault) => {
                self.give_up(rt, lease);
                Err(fault)
            }
        }
    }

    /// Lends what was found: an idle connection once it is brought into use, or one that is opened now.
    fn lend_found<R: Wait, C: Connector<E>>(
        &self,
        rt: &R,
        connector: &mut C,
        place: C::Place,
        found: Lendable<E::Idle, Q, A>,
    ) -> Result<LeasedConnection<C::Used, Q, A>, LendFault>
        requires leads { FindsLeading (C.idle_leads place) found }
        ensures leads { Leads (C.leads place) result }
        ensures busy { (result ≡ Err LendFault.Busy) ↔ (found ≡ Lendable.Busy) }
        ensures free { result ≡ Err LendFault.Paused → ⊥ }
        ensures lease { IfOk result (λ connection. HasLease found connection.lease) }
        ensures asked { (p : List AnyAct) → C.past connector.old p → C.past connector.new (after_lend E.since E.home found (fault_in result) p) }
    {
        match found {
            Lendable::Idle(idle, lease) => {
                let used = connector.resume(idle);
                self.connection_of(rt, used, lease)
            }
            Lendable::Fresh(lease) => {
                let used = connector.open(place);
                self.connection_of(rt, used, lease)
            }
            Lendable::Busy => Err(LendFault::Busy),
        }
    }

    /// Lends a connection to a point's service, which is there, at the moment of the pass, in seconds: an idle one first, and its
    /// own thread's before another's. It is the turn of the one who gets it, and the service's breaker lets it through.
    fn lend_now<R: Wait, C: Connector<E>>(
        &self,
        rt: &R,
        connector: &mut C,
        point: Point,
        place: C::Place,
        turn: Turn,
        pass: Pass,
    ) -> Result<LeasedConnection<C::Used, Q, A>, LendFault>
        requires turn { turn.seconds ≡ self.now.waiting.seconds }
        requires pass { pass.failures ≡ self.now.waiting.queues.now.breakers.rule.failures }
        ensures leads { Leads (C.leads place) result }
        ensures point { IsOf point result }
        ensures lends { Lends pass.moment self.now.idle_seconds self.now.thread (C.past connector.old) (C.past connector.new) result }
    {
        // That both are had is all that is asked of them.
        drop(turn);
        let now = pass.moment;
        drop(pass);
        let found = self.take_live(rt, connector, point, place, now);
        self.lend_found(rt, connector, place, found)
    }

    /// Lends a connection to a point's service, which is there, at this moment, in seconds, for a message of this one: an idle
    /// one first, and this thread's own before another's. Where exchanges wait, one who comes while others wait gets none.
    /// Nobody gets one while the service is paused.
    pub fn lend<R: Wait, C: Connector<E>>(
        &self,
        rt: &R,
        connector: &mut C,
        point: Point,
        place: C::Place,
        who: Waiter,
        now: u64,
    ) -> Result<LeasedConnection<C::Used, Q, A>, LendFault>
        ensures leads { Leads (C.leads place) result }
        ensures point { IsOf point result }
        ensures lends { Lends now self.now.idle_seconds self.now.thread (C.past connector.old) (C.past connector.new) result }
    {
        let Some(turn) = self.waiting.turn_of(rt, point, None) else {
            return Err(LendFault::Busy);
        };
        match self.waiting.pass_of(rt, point, who, now) {
            Some(pass) => self.lend_now(rt, connector, point, place, turn, pass),
            None => Err(LendFault::Paused),
        }
    }

    /// Lends a connection to one who waits, once it is its turn. With a connection it has left the queue, and the next one is called.
    pub fn lend_in_turn<R: Wait, C: Connector<E>>(
        &self,
        rt: &R,
        connector: &mut C,
        point: Point,
        place: C::Place,
        waiter: Waiter,
        now: u64,
    ) -> Result<LeasedConnection<C::Used, Q, A>, LendFault>
        ensures leads { Leads (C.leads place) result }
        ensures point { IsOf point result }
        ensures lends { Lends now self.now.idle_seconds self.now.thread (C.past connector.old) (C.past connector.new) result }
    {
        let Some(turn) = self.waiting.turn_of(rt, point, Some(waiter)) else {
            return Err(LendFault::Busy);
        };
        let Some(pass) = self.waiting.pass_of(rt, point, waiter, now) else {
            return Err(LendFault::Paused);
        };
        let lent = self.lend_now(rt, connector, point, place, turn, pass);
        if lent.is_ok() {
            self.waiting.leave(rt, point, waiter);
        }
        lent
    }

    /// Opens a fresh connection to the service that is there, in place of a leased one that broke, and that is closed.
    pub fn reopen<R: Wait, C: Connector<E>>(
        &self,
        rt: &R,
        connector: &mut C,
        place: C::Place,
        lease: &mut Leased<Q, A>,
    ) -> Result<C::Used, LendFault>
        ensures leads { IfOk result (λ used. C.leads place used) }
        ensures asked { Reopens (C.past connector.old) (C.past connector.new) result }
        ensures point { point_of lease.new ≡ point_of lease.old }
        ensures fresh { OnOk result (is_reused lease.new ≡ false) }
    {
        if self.replace(rt, lease) {
            connector.open(place)
        } else {
            Err(LendFault::Unreached)
        }
    }

    /// Closes a connection that broke, and opens a fresh one in its place to the service that is there. Where there is none, its lease is
    /// given up.
    pub fn renew<R: Wait, C: Connector<E>>(
        &self,
        rt: &R,
        connector: &mut C,
        place: C::Place,
        connection: LeasedConnection<C::Used, Q, A>,
    ) -> Result<LeasedConnection<C::Used, Q, A>, LendFault>
        ensures leads { Leads (C.leads place) result }
        ensures point { IsOf (point_of connection.lease) result }
        ensures fresh { IfOk result (λ renewed. is_reused renewed.lease ≡ false) }

        // The broken one is closed before another one is opened.
        ensures closes { Reopens (λ p. (q : List AnyAct) × (p ≡ Act.Closed ∷ q) × C.past connector.old q) (C.past connector.new) result }
    {
        let LeasedConnection { wire, lease } = connection;
        connector.close(wire);
        let mut lease = lease;
        let used = self.reopen(rt, connector, place, &mut lease);
        self.connection_of(rt, used, lease)
    }

    /// Puts a connection back at this moment, in seconds, that may serve again. One that its service has ended, or on which it says what
    /// nobody asked for, is closed, and its lease given up; so is any one where none may lie idle.
    pub fn put<R: Wait, C: Keeper<E>>(
        &self,
        rt: &R,
        connector: &mut C,
        connection: LeasedConnection<C::Used, Q, A>,
        now: u64,
    ) -> Call<E::Woken>
        ensures asked { PutsBack self.now.idle_seconds (C.past connector.old) (C.past connector.new) }
        ensures calls { Calls E.thread_of result }
    {
        let LeasedConnection { wire, lease } = connection;
        match lay_down(connector, wire, self.idle_seconds > 0, now) {
            Some(idle) => self.put_idle(rt, idle, lease),
            None => self.give_up(rt, lease),
        }
    }

    /// Closes a connection, and gives up its lease after that: others may open one in its place.
    pub fn close<R: Wait, C: Keeper<E>>(
        &self,
        rt: &R,
        connector: &mut C,
        connection: LeasedConnection<C::Used, Q, A>,
    ) -> Call<E::Woken>
        ensures asked { (p : List AnyAct) → C.past connector.old p → C.past connector.new (Act.Closed ∷ p) }
        ensures calls { Calls E.thread_of result }
    {
        let LeasedConnection { wire, lease } = connection;
        connector.close(wire);
        self.give_up(rt, lease)
    }
}
