//! What the threads of `icapd serve` share: the seats of the connections, and the connections that wait for a thread.
use crate::seats::ConnectionSeats;
use icap_server::{NoMemory, Settings};
use std::alloc::Global;
use std::net::{Shutdown, TcpStream};
use std::sync::{Arc, Condvar, CondvarTimeouts, Mutex, MutexGuard, Wait};
use std::time::{Clock, Duration};

/// How long a connection that has said nothing yet is left alone while another waits for a seat, in milliseconds.
const PATIENCE: u64 = 200;

/// A connection, and its seat.
#[derive(Drop)]
pub struct Seated {
    pub key: usize,
    pub stream: Arc<TcpStream, Global>,
}

/// What lies under the lock.
#[derive(Drop)]
struct Open {
    seats: ConnectionSeats,
    /// The connection of each seat.
    streams: Vec<Option<Arc<TcpStream, Global>>>,
    /// Connections that a waiting thread is to serve.
    given: Vec<Seated>,
    /// The threads that wait for a connection, and were given none yet.
    spare: u64,
    /// Whether a further connection waits for a seat.
    is_full: bool,
}

impl Open {
    /// Has a connection end for another, if one may. It is read to its end: what it has sent is answered.
    fn end_one(&mut self, first_too: bool) {
        if let Some(key) = self.seats.to_end(first_too) {
            self.seats.end(key);
            if let Some(Some(stream)) = self.streams.get(key) {
                let _ = stream.shutdown(Shutdown::Read);
            }
        }
    }
}

/// What the threads of all connections share.
#[derive(Drop)]
pub struct ServerShared {
    pub settings: Settings,
    /// Seconds after which a connection is closed that says nothing, or whose request's heads or last answer take longer.
    pub deadline: u64,
    open: Mutex<Open>,
    /// A connection has ended, or waits for a request, or has begun one, or has its last answer.
    changed: Condvar,
    /// A connection was given to a waiting thread.
    came: Condvar,
}

impl ServerShared {
    /// A server with these settings, and no connection. `NoMemory` if it finds no memory.
    pub fn new(
        alloc: Global,
        settings: Settings,
        deadline: u64,
    ) -> Result<Arc<ServerShared, Global>, NoMemory> {
        let max = settings.max as usize;
        let mut streams = Vec::with_capacity(alloc, max)?;
        for _ in 0..max {
            streams.push(None)?;
        }
        let open = Open {
            seats: ConnectionSeats::new(alloc, max)?,
            streams,
            given: Vec::with_capacity(alloc, max)?,
            spare: 0,
            is_full: false,
        };
        let shared = ServerShared {
            settings,
            deadline,
            open: Mutex::new(open),
            changed: Condvar::new(),
            came: Condvar::new(),
        };
        Ok(Arc::new(alloc, shared)?)
    }

    /// Waits for a free seat, and gives it to a connection that waits for its first request. If all seats are taken, a
    /// connection that has its last answer loses its own; if none has, that which has waited longest for a further request;
    /// if no connection waits so, that which has waited longest for its first one, unless something changes within a while.
    pub fn seat<R: Wait + Clock>(&self, rt: &R, stream: Arc<TcpStream, Global>) -> usize {
        let mut open = self.open.lock(rt);
        let mut first_too = false;
        for _ in rt.forever() {
            if let Some(key) = open.seats.free() {
                open.is_full = false;
                open.seats.wait(key, true);
                if let Some(place) = open.streams.get_mut(key) {
                    *place = Some(stream);
                }
                return key;
            }
            open.is_full = true;
            open.end_one(first_too);
            let patience = Duration::from_millis(PATIENCE);
            let (again, waited) = self.changed.wait_timeout(rt, open, patience);
            open = again;
            first_too = waited.timed_out();
        }
        unreachable!()
    }

    /// Gives a connection to a thread that waits for one. It comes back if no thread waits.
    pub fn give<R: Wait>(&self, rt: &R, seated: Seated) -> Option<Seated> {
        let mut open = self.open.lock(rt);
        if open.spare == 0 || open.given.len() >= open.given.capacity() {
            return Some(seated);
        }
        open.spare -= 1;
        open.given.push_reserved(seated);
        drop(open);
        self.came.notify_one();
        None
    }

    /// Waits for the next connection that a thread is to serve.
    pub fn next<R: Wait>(&self, rt: &R) -> Seated {
        let mut open = self.open.lock(rt);
        open.spare = open.spare.saturating_add(1);
        for _ in rt.forever() {
            if let Some(seated) = open.given.pop() {
                return seated;
            }
            open = self.came.wait(rt, open);
        }
        unreachable!()
    }

    /// Lets go of the lock, and wakes whoever waits for a seat.
    fn tell(&self, open: MutexGuard<'_, Open>) {
        let is_full = open.is_full;
        drop(open);
        if is_full {
            self.changed.notify_one();
        }
    }

    /// The connection on a seat waits for a further request.
    pub fn wait<R: Wait>(&self, rt: &R, key: usize) {
        let mut open = self.open.lock(rt);
        open.seats.wait(key, false);
        self.tell(open);
    }

    /// It has got a byte of one.
    pub fn ask<R: Wait>(&self, rt: &R, key: usize) {
        let mut open = self.open.lock(rt);
        open.seats.ask(key);
        self.tell(open);
    }

    /// It has its last answer.
    pub fn linger<R: Wait>(&self, rt: &R, key: usize) {
        let mut open = self.open.lock(rt);
        open.seats.linger(key);
        self.tell(open);
    }

    /// It has ended.
    pub fn leave<R: Wait>(&self, rt: &R, key: usize) {
        let mut open = self.open.lock(rt);
        open.seats.leave(key);
        if let Some(place) = open.streams.get_mut(key) {
            *place = None;
        }
        self.tell(open);
    }
}
