//! Four threads on one pool.
use crate::resources::calls::Leasing;
use crate::resources::steps::keep;
use crate::tasks::{Four, ThreadTask, four};
use service_pool::Found;
use std::thread::Threads;

/// A thread's rounds, this many: what is taken is put back and given up by turns.
#[derive(Drop)]
pub struct Rounds<'a, T>(pub &'a T, pub u32);

/// Takes one more connection.
#[derive(Drop)]
pub struct Last<'a, T>(pub &'a T);

impl<'a, T: Leasing> ThreadTask for Rounds<'a, T> {
    type Kept = ();

    fn run(&self) {
        for round in 0..self.1 {
            let Some((found, lease)) = self.0.take() else {
                continue;
            };
            if round % 2 == 0 {
                let connection = match found {
                    Found::Idle(connection) => connection,
                    Found::Fresh | Found::Busy => round,
                };
                let _closed = self.0.put(connection, lease);
            } else {
                self.0.end(lease);
            }
        }
    }
}

impl<'a, T: Leasing> ThreadTask for Last<'a, T> {
    type Kept = Option<T::Lent>;

    fn run(&self) -> Option<T::Lent> {
        let (_, lease) = self.0.take()?;
        Some(lease)
    }
}

/// Keeps a lease that was taken.
fn keep_taken<T: Leasing>(pool: &T, leases: &mut Vec<T::Lent>, taken: Option<T::Lent>) {
    if let Some(lease) = taken {
        keep(pool, leases, lease);
    }
}

/// Keeps the leases that four threads took.
pub fn keep_all<T: Leasing>(pool: &T, leases: &mut Vec<T::Lent>, taken: Four<Option<T::Lent>>) {
    let (front, back) = taken;
    keep_taken(pool, leases, front.0);
    keep_taken(pool, leases, front.1);
    keep_taken(pool, leases, back.0);
    keep_taken(pool, leases, back.1);
}

/// Four threads make their rounds on a pool of at most three connections, and then each takes one, whose lease is kept.
pub fn share<T: Leasing + Sync, R: Threads + Sync>(rt: &R, pool: &T, leases: &mut Vec<T::Lent>)
where
    T::Lent: Send,
{
    four(rt, &Rounds(pool, 1000));
    keep_all(pool, leases, four(rt, &Last(pool)));
}
