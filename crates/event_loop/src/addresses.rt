//! How many connections each address of users has open. The loop that accepts them counts one; whichever thread ends it takes it off.

ghost use Rattle.std.specs.Prelude.{◌≡◌, ◌≢◌, ◌≤◌, ◌↔◌, IsTrue};

use std::alloc::Global;
use std::collections::BTreeMap;
use std::net::Ipv4Addr;
use std::sync::Arc;
use std::sync::atomic::{AtomicU64, Ordering};

/// How many addresses there are at least before those without a connection are forgotten.
const FEW: usize = 64;

/// A connection's part in the count of its address.
pub struct Counted {
    open: Arc<AtomicU64>,
}

impl Drop for Counted {
    fn drop(self) {
        let Counted { open } = self;
        let _ = open.fetch_sub(1, Ordering::SeqCst);
    }
}

/// What a connection has of the connections that its address may have open at once.
#[derive(Drop)]
pub enum Share {
    /// There is no such limit.
    Unlimited,
    /// It is one of them, until it is dropped.
    Counted(Counted),
    /// As many are open already, or no memory was found to count it.
    Over,
}

/// The addresses of users, and how many connections each has open.
#[derive(Drop)]
pub struct Addresses {
    alloc: Global,
    /// The most connections of one address at once; 0 where there is no such limit.
    most: u64,
    open: BTreeMap<u32, Arc<AtomicU64>>,
    /// At how many addresses those without a connection are forgotten.
    many: usize,
}

/// Whether an address that has so many connections open may have no further one.
fn is_over(count: u64, most: u64) -> bool
    ensures { IsTrue result ↔ ((most ≢ 0) × (most ≤ count)) }
{
    most != 0 && count >= most
}

impl Addresses {
    /// No connection is open, and at most so many of one address may be at once; 0 stands for no limit.
    pub fn new(alloc: Global, most: u64) -> Addresses
        ensures { result.most ≡ most }
    {
        Addresses {
            alloc,
            most,
            open: BTreeMap::new(alloc),
            many: FEW,
        }
    }

    /// Forgets the addresses without a connection, where there are many.
    fn forget(&mut self)
        ensures { self.new.most ≡ self.old.most }
    {
        if self.open.len() < self.many {
            return;
        }
        self.open.retain(|_, open| open.load(Ordering::SeqCst) != 0);
        self.many = self.open.len().saturating_mul(2).max(FEW);
    }

    /// The count of an address. `None` where no memory was found for it.
    fn count_of(&mut self, address: u32) -> Option<Arc<AtomicU64>>
        ensures { self.new.most ≡ self.old.most }
    {
        if let Some(open) = self.open.get(&address) {
            return Arc::clone(open).ok();
        }
        self.forget();
        let open = Arc::new(self.alloc, AtomicU64::new(0)).ok()?;
        let own = Arc::clone(&open).ok()?;
        self.open.insert(address, open).ok()?;
        Some(own)
    }

    /// Counts a further connection of an address, unless it may have none. No other thread counts one: so there are never more of one
    /// address than there may be.
    pub fn enter(&mut self, address: Ipv4Addr) -> Share
        ensures unlimited { self.old.most ≡ 0 → result ≡ Share.Unlimited }
        ensures most { self.new.most ≡ self.old.most }
    {
        if self.most == 0 {
            return Share::Unlimited;
        }
        let Some(open) = self.count_of(address.to_bits()) else {
            return Share::Over;
        };
        if is_over(open.load(Ordering::SeqCst), self.most) {
            return Share::Over;
        }
        let _ = open.fetch_add(1, Ordering::SeqCst);
        Share::Counted(Counted { open })
    }
}
