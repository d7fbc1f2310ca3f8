//! The numbers of a pool, the steps that change them, and why a call is refused.
ghost use Rattle.std.specs.Prelude.{◌≡◌};
ghost use Rattle.service_pool.specs.Faults.{audit_fault_number};
ghost use Rattle.service_pool.specs.Replay.{after};
ghost use Rattle.service_pool.specs.Journal.{IsAllowed, IsBounded};

use adapt_bytes::MAX_CONNECTIONS;
use thiserror::Error;

/// The number of parts of the ledger of a pool's leases: one for each lease that may be out, and one
/// that stays under the lock.
pub const LEDGER_PARTS: u64 = MAX_CONNECTIONS + 1;

/// The numbers of a pool. A connection is open while it is idle or leased.
#[derive(Clone, Copy)]
pub struct Numbers {
    /// Connections that wait in the pool.
    pub idle: u64,
    /// Connections that are leased.
    pub leased: u64,
    /// The largest number of open connections. After it was lowered more may still be open; then none of them is idle.
    pub maximum: u64,
}

/// A step of a pool.
#[derive(Clone, Copy, Debug)]
pub enum PoolStep {
    /// An idle connection is leased; if there is none, one is opened and leased.
    Take,
    /// A leased connection becomes idle, or is closed if more than the maximum are open.
    Put,
    /// A leased connection is closed.
    GiveUp,
    /// A leased connection that broke is closed, and another is opened in its place.
    Replace,
    /// The maximum is set, and idle connections above it are closed.
    Limit(u64),
}

/// A fresh connection in place of a broken one was refused: more than the maximum are open.
#[derive(Clone, Copy, Debug, Error)]
#[error("more connections are open than the maximum")]
pub struct Over;

/// Why an audit was refused.
#[derive(Clone, Copy, Debug, Error)]
pub enum AuditFault {
    /// Fewer leases were handed in than are out.
    #[error("a lease is missing")]
    Missing = 1,
}

impl AuditFault {
    /// The fault's number, 1.
    pub fn number(self) -> u64
        ensures { result ≡ audit_fault_number self }
    {
        self as u64
    }
}

impl Numbers {
    // The numbers after a step that they allow.
    pub(crate) fn after(self, step: PoolStep) -> Numbers
        requires bounded { IsBounded self }
        requires allowed { IsAllowed self step }
        ensures { result ≡ after self step }
    {
        let Numbers {
            idle,
            leased,
            maximum,
        } = self;
        match step {
            PoolStep::Take if idle == 0 => Numbers {
                leased: leased + 1,
                ..self
            },
            PoolStep::Take => Numbers {
                idle: idle - 1,
                leased: leased + 1,
                ..self
            },
            PoolStep::Put if idle + leased <= maximum => Numbers {
                idle: idle + 1,
                leased: leased - 1,
                ..self
            },
            PoolStep::Put | PoolStep::GiveUp => Numbers {
                leased: leased - 1,
                ..self
            },
            PoolStep::Replace => self,
            PoolStep::Limit(maximum) => Numbers {
                idle: idle.min(maximum.saturating_sub(leased)),
                maximum,
                ..self
            },
        }
    }
}
