//! A new capacity of the buffer budget, in steps that keep nobody waiting for long.

ghost use Rattle.std.specs.Prelude.{◌≡◌, ◌≤◌, ◌<◌, ◌+◌, ℕ, Err, IfErr};
ghost use Rattle.span_bank.specs.declared.limits.TheConstants.{MAX_CAPACITY};
ghost use Rattle.span_bank.specs.declared.step.CapacityFault.TheVariants.{TooLow};
ghost use Rattle.shard_report.specs.declared.capacity.TheConstants.{STRIDE};

use crate::log::Log;
use span_bank::{Bank, CapacityFault, Ledgers, MAX_CAPACITY};
use std::sync::Wait;

/// How many bytes of capacity come or go at once. Their pages join the others or leave them under the bank's lock, for which
/// users wait.
pub const STRIDE: u64 = 1 << 24;

/// The most steps of a walk.
const STRIDES: u64 = MAX_CAPACITY / STRIDE + 1;

/// A walk that ended on its way: with this capacity, for this reason.
#[derive(Drop)]
struct Halt {
    at: u64,
    fault: CapacityFault,
}

/// The capacity after one step from one towards another.
fn next_stop(from: u64, to: u64) -> u64
    ensures up { from ≤ to → (from ≤ result) × (result ≤ to) }
    ensures down { to ≤ from → (to ≤ result) × (result ≤ from) }
    ensures near { (result ≤ from + STRIDE) × (from ≤ result + STRIDE) }
    ensures last { to ≤ from + STRIDE → from ≤ to + STRIDE → result ≡ to }
{
    if from < to {
        from + (to - from).min(STRIDE)
    } else {
        from - (from - to).min(STRIDE)
    }
}

/// Takes a bank's capacity from one size to another, step by step. What is to be written of the log is written between them. `Err`
/// where a step isn't possible: those before it stand.
fn walk<R: Wait, B: Ledgers>(
    rt: &R,
    bank: &Bank<B>,
    log: &Log,
    from: u64,
    to: u64,
) -> Result<(), Halt>
    requires from { (1 ≤ from) × (from ≤ MAX_CAPACITY) }
    requires to { (1 ≤ to) × (to ≤ MAX_CAPACITY) }
    ensures at { IfErr result (λ h. (1 ≤ h.at) × (h.at ≤ MAX_CAPACITY)) }
    ensures low { IfErr result (λ h. (claimed : ℕ) → h.fault ≡ TooLow claimed → to < claimed) }
{
    let mut at = from;
    for _ in 0..STRIDES {
        if at == to {
            break;
        }
        let next = next_stop(at, to);
        match bank.set_capacity(rt, next) {
            Ok(()) => at = next,
            Err(fault) => {
                return Err(Halt {
                    at,
                    fault: fault_towards(to, fault),
                });
            }
        }
        log.write_out(rt);
    }
    Ok(())
}

/// Why a step towards this capacity wasn't possible. Never is more reserved than there is, so one upwards wants only memory.
fn fault_towards(to: u64, fault: CapacityFault) -> CapacityFault
    ensures low { (claimed : ℕ) → result ≡ TooLow claimed → (to < claimed) × (fault ≡ result) }
    ensures same { (claimed : ℕ) → fault ≡ TooLow claimed → to < claimed → result ≡ fault }
{
    match fault {
        CapacityFault::TooLow { claimed } if to < claimed => CapacityFault::TooLow { claimed },
        _ => CapacityFault::NoMemory,
    }
}

/// Sets a bank's capacity. `TooLow` where more bytes are reserved, with their number, `NoMemory` where pages find no memory.
///
/// It goes there by steps, and on the way requests reserve what the capacity of the moment has room for. Where a step isn't
/// possible, it goes back as far as memory and reservations let it: those that were granted from a capacity that grew are kept.
pub fn change_capacity<R: Wait, B: Ledgers>(
    rt: &R,
    bank: &Bank<B>,
    log: &Log,
    to: u64,
) -> Result<(), CapacityFault>
    requires { (1 ≤ to) × (to ≤ MAX_CAPACITY) }
    ensures { (claimed : ℕ) → result ≡ Err (TooLow claimed) → to < claimed }
{
    let book = bank.book(rt, None);
    if to < book.claimed {
        return Err(CapacityFault::TooLow {
            claimed: book.claimed,
        });
    }
    match walk(rt, bank, log, book.capacity.max(1), to) {
        Ok(()) => Ok(()),
        Err(Halt { at, fault }) => {
            let _ = walk(rt, bank, log, at, book.capacity.max(1));
            Err(fault)
        }
    }
}
