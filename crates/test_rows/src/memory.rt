//! Allocations that come before those of a table, so that any of these can be the one that is refused.
use std::alloc::{AllocError as NoMemory, Global};

/// Makes `count` allocations, each of which is given back.
pub fn allocate(alloc: Global, count: u64) -> Result<(), NoMemory> {
    for _ in 0..count {
        b"a".to_vec(alloc)?;
    }
    Ok(())
}
