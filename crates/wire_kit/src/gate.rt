//! Gates that hold a transaction back before its next hop is written, so that a test's order is certain.

ghost use Rattle.std.specs.Prelude.{◌≡◌, true};

use std::sync::atomic::{AtomicBool, Ordering};
use std::thread;
use std::time::{Clock, Duration};

/// The largest number of looks at a gate that stays shut, a millisecond apart.
const MAX_LOOKS: u32 = 10_000;

/// A gate that decides whether a transaction may go on.
pub trait Gate {
    /// Waits until the transaction of this number may go on. `false` if it never may: the test fails.
    fn may_pass<R: Clock>(&self, rt: &R, transaction: u64) -> bool;
}

/// A gate that holds nothing back.
#[derive(Drop)]
pub struct OpenGate;

impl Gate for OpenGate {
    fn may_pass<R: Clock>(&self, _rt: &R, _transaction: u64) -> bool
        ensures { result ≡ true }
    {
        true
    }
}

/// A gate that holds transaction 1 until transaction 2 is answered.
#[derive(Drop)]
pub struct HoldGate {
    second: AtomicBool,
}

impl HoldGate {
    /// A gate before transaction 2 is answered.
    pub fn new() -> HoldGate {
        HoldGate {
            second: AtomicBool::new(false),
        }
    }

    /// Says that transaction 2 is answered; its client calls this once it has read the answer.
    pub fn answered(&self) {
        self.second.store(true, Ordering::SeqCst);
    }
}

impl Gate for HoldGate {
    fn may_pass<R: Clock>(&self, rt: &R, transaction: u64) -> bool
        ensures { (transaction ≡ 1 → ⊥) → result ≡ true }
    {
        if transaction != 1 {
            return true;
        }
        for _ in 0..MAX_LOOKS {
            if self.second.load(Ordering::SeqCst) {
                return true;
            }
            thread::sleep(rt, Duration::from_millis(1));
        }
        false
    }
}
