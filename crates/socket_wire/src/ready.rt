//! The readiness of a connection: what its poll reported.

use std::sync::atomic::{AtomicBool, AtomicU64, Ordering};

/// The readiness of a connection, shared by the loop that polls and by the wire that reads and writes.
///
/// A poll reports a change once. So what it reported stands here until a read or a write finds nothing more to do.
#[derive(Drop)]
pub struct Readiness {
    can_read: AtomicBool,
    can_write: AtomicBool,
    closed: AtomicBool,
    failed: AtomicBool,
    answered: AtomicBool,
    /// Whether it is still to be dialled.
    undialled: AtomicBool,
    /// Whether an event came before it was dialled.
    polled: AtomicBool,
    /// Whether a write waits for that.
    wanted: AtomicBool,
    taken: AtomicU64,
    /// Whether it was taken up after it lay idle, and no byte was written since.
    resumed: AtomicBool,
    /// How often the connection has left its line.
    departures: AtomicU64,
}

impl Readiness {
    /// Of a connection that may have been ready before anyone polled: the first read and the first write are tried.
    pub fn new() -> Readiness {
        Readiness {
            can_read: AtomicBool::new(true),
            can_write: AtomicBool::new(true),
            closed: AtomicBool::new(false),
            failed: AtomicBool::new(false),
            answered: AtomicBool::new(true),
            undialled: AtomicBool::new(false),
            polled: AtomicBool::new(false),
            wanted: AtomicBool::new(false),
            taken: AtomicU64::new(0),
            resumed: AtomicBool::new(false),
            departures: AtomicU64::new(0),
        }
    }

    /// Of a connection that was dialled just now: there is nothing to read before an event says so. The first write is tried.
    pub fn dialled() -> Readiness {
        let ready = Readiness::new();
        ready.read_out();
        ready.answered.store(false, Ordering::Relaxed);
        ready
    }

    /// Of a connection that is dialled at its first write. A poll reports once that its socket isn't connected, which says nothing of the
    /// connection: so the socket is connected only after that, when no such event can come any more.
    pub fn undialled() -> Readiness {
        let ready = Readiness::dialled();
        ready.undialled.store(true, Ordering::Relaxed);
        ready
    }

    /// Whether the connection is still to be dialled.
    pub fn is_undialled(&self) -> bool {
        self.undialled.load(Ordering::Relaxed)
    }

    /// Whether the connection may be dialled: the poll has reported its socket. If not, that event is news.
    pub fn may_dial(&self) -> bool {
        self.wanted.store(true, Ordering::Relaxed);
        self.polled.load(Ordering::Relaxed)
    }

    /// The connection is dialled now.
    pub fn dial(&self) {
        self.undialled.store(false, Ordering::Relaxed);
    }

    /// Takes note of an event: there may be bytes to read, there may be room to write, the other side has ended its
    /// bytes or the connection has failed. True if that is news: a read or a write that found nothing to do may find
    /// something now.
    pub fn note(&self, readable: bool, writable: bool, closed: bool) -> bool {
        if self.is_undialled() {
            self.polled.store(true, Ordering::Relaxed);
            return self.wanted.load(Ordering::Relaxed);
        }
        self.answered.store(true, Ordering::Relaxed);
        let reads = (readable || closed) && raise(&self.can_read);
        let writes = (writable || closed) && raise(&self.can_write);
        let ends = closed && raise(&self.closed);
        reads || writes || ends
    }

    /// Takes note that the connection is gone both ways, as after a reset by the other peer. True if that is news.
    pub fn fail(&self) -> bool {
        !self.is_undialled() && raise(&self.failed)
    }

    /// Whether the connection is gone both ways. One whose other side has only ended its bytes isn't.
    pub fn has_failed(&self) -> bool {
        self.failed.load(Ordering::Relaxed)
    }

    /// Whether the connection was dialled, and no event has said yet that the other side took or refused it.
    pub fn is_on_its_way(&self) -> bool {
        !self.is_undialled() && !self.answered.load(Ordering::Relaxed)
    }

    /// Takes note of bytes that were written.
    pub fn took(&self, count: u64) {
        self.resumed.store(false, Ordering::Relaxed);
        let _ = self.taken.fetch_add(count, Ordering::Relaxed);
    }

    /// How many bytes were written.
    pub fn taken(&self) -> u64 {
        self.taken.load(Ordering::Relaxed)
    }

    /// Whether a read may find something.
    pub fn can_read(&self) -> bool {
        self.can_read.load(Ordering::Relaxed)
    }

    /// Whether a write may be taken.
    pub fn can_write(&self) -> bool {
        self.can_write.load(Ordering::Relaxed)
    }

    /// Whether the other side has ended its bytes, or the connection has failed.
    pub fn is_closed(&self) -> bool {
        self.closed.load(Ordering::Relaxed)
    }

    /// Whether nothing was noted since a read or a look found nothing more to do, but room to write: no byte, no end and no failure.
    pub fn is_quiet(&self) -> bool {
        !self.can_read() && !self.is_closed() && !self.has_failed()
    }

    /// The connection is taken up after it lay idle: nothing may be heard on it before a byte is written.
    pub fn resume(&self) {
        self.resumed.store(true, Ordering::Relaxed);
    }

    /// Whether something was heard on it after it was taken up, and before a byte was written: that answers nothing, so no answer that
    /// comes on it is to be believed.
    pub fn is_spoiled(&self) -> bool {
        self.resumed.load(Ordering::Relaxed) && !self.is_quiet()
    }

    /// The connection leaves its line, which is free from now on, for another one. Any thread may say so.
    pub fn depart(&self) {
        let _ = self.departures.fetch_add(1, Ordering::SeqCst);
    }

    /// How often the connection has left its line: one that it came to after fewer departures is free.
    pub fn departures(&self) -> u64 {
        self.departures.load(Ordering::SeqCst)
    }

    /// Nothing more is there to read before the next event.
    pub fn read_out(&self) {
        self.can_read.store(false, Ordering::Relaxed);
    }

    /// Nothing more is taken before the next event.
    pub fn filled(&self) {
        self.can_write.store(false, Ordering::Relaxed);
    }
}

/// Sets a flag, and says whether it wasn't set.
fn raise(flag: &AtomicBool) -> bool {
    if flag.load(Ordering::Relaxed) {
        return false;
    }
    flag.store(true, Ordering::Relaxed);
    true
}
