//! A pass of each side. It is lent what is held and one side with its wire, or the two writers with theirs; what isn't lent isn't changed.

ghost use Rattle.std.specs.Prelude.{◌≡◌, true, false, None, [], Some};
ghost use Rattle.trace_core.specs.declared.history.Event.TheVariants.{Fail};
ghost use Rattle.adapt_hold.specs.Holding.{shows, moved, IsRoomy};
ghost use Rattle.adapt_turn.specs.Reports.{outcome_by};

pub(crate) mod hop;
pub(crate) mod service;
pub(crate) mod source;

use crate::turn::Outcome;
use adapt_hold::{Hold, fail};
use span_bank::{Bank, Ledgers};
use std::sync::Wait;
use trace_core::Cause;

/// What a pass did.
#[derive(Clone, Copy)]
pub struct PassAnswer {
    /// Nothing moved, and nothing was stepped.
    pub waiting: bool,
    /// Why it closed the transaction, where it did.
    pub failed: Option<Cause>,
    /// The service's connection broke where the request may begin anew.
    pub broken: bool,
}

/// A pass that did nothing.
pub(crate) fn idle() -> PassAnswer
    ensures { result ≡ record { waiting = true; failed = None; broken = false } }
{
    PassAnswer {
        waiting: true,
        failed: None,
        broken: false,
    }
}

/// A pass that closed nothing.
pub(crate) fn went_on(waiting: bool) -> PassAnswer
    ensures { result ≡ record { waiting = waiting; failed = None; broken = false } }
{
    PassAnswer {
        waiting,
        failed: None,
        broken: false,
    }
}

/// Closes the transaction.
pub(crate) fn close<B: Ledgers>(
    rt: &impl Wait,
    bank: &Bank<B>,
    hold: &mut Hold<B>,
    cause: Cause,
) -> PassAnswer
    requires running { (shows hold.old.history).closed ≡ false }
    requires roomy { IsRoomy hold.old }
    ensures passed { result ≡ record { waiting = false; failed = Some cause; broken = false } }
    ensures moved { hold.new ≡ moved hold.old (Fail cause) [] }
    ensures roomy { IsRoomy hold.new }
{
    fail(rt, bank, hold, cause);
    PassAnswer {
        waiting: false,
        failed: Some(cause),
        broken: false,
    }
}

/// How a transaction ends that this failed, if anything did.
pub(crate) fn outcome_by(failed: Option<Cause>) -> Outcome
    ensures { result ≡ outcome_by failed }
{
    match failed {
        Some(cause) => Outcome::Fail(cause),
        None => Outcome::Done,
    }
}
