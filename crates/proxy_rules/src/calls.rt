//! Calls of a running transaction, one after the other, whichever they are.

ghost use Rattle.std.specs.Prelude.{◌≡◌};
ghost use Rattle.proxy_rules.specs.Calls.{AreLines, IsFresh, IsLine};

use crate::own_ends::{OwnEnds, Wires};
use crate::running::{Lasting, Running};
use adapt_sides::Scratch;
use adapt_turn::{FreedConnection, Side, Tx};
use span_bank::{Bank, Ledgers};
use std::sync::Wait;
use trace_core::Cause;

/// A call of a running transaction. Those that are for a broken connection do nothing where none broke.
#[derive(Drop)]
pub enum RunningCall<C> {
    /// A turn of a side at a moment in seconds.
    Turn(Side, u64),
    /// The proxy stops.
    Halt,
    /// The request begins anew on this connection.
    Retry(Option<C>),
    /// The broken connection is closed.
    TakeBroken,
    /// No fresh connection can be had.
    FailUnretried(Cause),
    /// The service's connection is given up, if its exchange is over.
    TakeFreed,
}

impl<B: Ledgers, W: Wires> Running<B, W> {
    /// Begins anew on a connection where it may. Else that is closed.
    fn renew(&mut self, rt: &impl Wait, bank: &Bank<B>, fresh: Option<W::ServiceWire>)
        ensures renews { ⟦<Tx<B, OwnEnds<W>> as Lasting<W>>⟧.renews (λ old new. IsFresh old fresh new) self.old.tx self.new.tx }
    {
        if let Some(wire) = fresh
            && self.is_broken()
        {
            drop(self.retry(rt, bank, wire));
        }
    }

    /// Closes the broken connection, where one broke.
    fn close_broken(&mut self)
        ensures renews { ⟦<Tx<B, OwnEnds<W>> as Lasting<W>>⟧.renews (λ old new. new ≡ old) self.old.tx self.new.tx }
    {
        if self.is_broken() {
            drop(self.take_broken());
        }
    }

    /// Fails it, where a connection broke.
    fn fail_broken(&mut self, rt: &impl Wait, bank: &Bank<B>, cause: Cause)
        ensures lasts { ⟦<Tx<B, OwnEnds<W>> as Lasting<W>>⟧.lasts (λ s. s) self.old.tx self.new.tx }
    {
        if self.is_broken() {
            self.fail_unretried(rt, bank, cause);
        }
    }

    /// Closes the service's connection, where its exchange is over.
    fn close_freed(&mut self)
        ensures renews { ⟦<Tx<B, OwnEnds<W>> as Lasting<W>>⟧.renews (λ old new. new ≡ old) self.old.tx self.new.tx }
    {
        if let Some(
            FreedConnection {
                wire,
                is_reusable: _,
            },
        ) = self.take_freed()
        {
            drop(wire);
        }
    }

    /// One call. The connection that it brings is taken.
    pub fn call(
        &mut self,
        rt: &impl Wait,
        bank: &Bank<B>,
        scratch: &mut Scratch,
        call: &mut RunningCall<W::ServiceWire>,
    )
        ensures renews { ⟦<Tx<B, OwnEnds<W>> as Lasting<W>>⟧.renews (λ old new. IsLine old call.old new) self.old.tx self.new.tx }
    {
        match call {
            RunningCall::Turn(side, now) => {
                self.turn(rt, bank, scratch, *side, *now);
            }
            RunningCall::Halt => self.halt(rt, bank),
            RunningCall::Retry(fresh) => self.renew(rt, bank, fresh.take()),
            RunningCall::TakeBroken => self.close_broken(),
            RunningCall::FailUnretried(cause) => self.fail_broken(rt, bank, *cause),
            RunningCall::TakeFreed => self.close_freed(),
        }
    }

    /// Calls in their order.
    pub fn call_all(
        &mut self,
        rt: &impl Wait,
        bank: &Bank<B>,
        scratch: &mut Scratch,
        calls: &mut [RunningCall<W::ServiceWire>],
    )
        ensures renews { ⟦<Tx<B, OwnEnds<W>> as Lasting<W>>⟧.renews (λ old new. AreLines old calls.old new) self.old.tx self.new.tx }
    {
        match calls {
            [] => {}
            [call, later @ ..] => {
                self.call(rt, bank, scratch, call);
                self.call_all(rt, bank, scratch, later);
            }
        }
    }
}
