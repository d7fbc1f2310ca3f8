//! The descriptors of the process, and who may have them: users, and idle connections to services and origins.

ghost use Rattle.std.specs.Prelude.{◌≡◌, ◌≤◌, ◌<◌, ◌+◌, ◌*◌, ◌↔◌, true, false, ℕ, IfSome};
ghost use Rattle.event_loop.specs.declared.room.TheConstants.{USER};

use crate::addresses::Share;
use crate::asker::MAX_ASKERS;
use libc::types::rlimit;
use libc::{RLIMIT_NOFILE, getrlimit};
use std::sync::Arc;
use std::sync::atomic::{AtomicU64, Ordering};

/// Descriptors that belong neither to a user nor to a service: the three standard ones, the users' port, the log's file, a user that waits
/// for room, and one of the administrator's loop. That is the log's next file, a file that is read in a reload, or a connection that comes
/// where its port has as many as it may: the loop has one of them at a time, since it ends one thing before it begins the next.
const OWN: u64 = 7;

/// Descriptors of the administrator's port, and of that of the counters: its own, and its connections'.
const ASKERS: u64 = 1 + MAX_ASKERS as u64;

/// Descriptors of a loop: its poll, the same once more for other threads, and its waker.
const LOOP: u64 = 3;

/// Descriptors of a user: its connection's, and those of its exchange, one to the origin and one to a service.
pub const USER: u64 = 3;

/// The descriptors that users and idle connections share.
///
/// A user takes three of them, for its connection, its origin's and its service's, and an idle connection one. Together they
/// never take more than there are, so the first connections of an exchange find descriptors. Some are kept for idle connections
/// alone.
#[derive(Drop)]
pub struct Room {
    all: u64,
    most: u64,
    used: AtomicU64,
    users: AtomicU64,
    /// How many of the users have ended their side.
    ended: AtomicU64,
    /// How many connections were closed that came from elsewhere than users may.
    refused: AtomicU64,
    /// How many were refused since their address had as many as it may.
    over: AtomicU64,
    /// How many connections were closed that didn't begin with a header of the PROXY protocol.
    unannounced: AtomicU64,
}

/// A user's permit. There is room for another one once it is dropped.
pub struct UserPermit {
    room: Arc<Room>,
    /// Whether the user has ended its side: then it is counted among those.
    ended: bool,
    /// What it has of the connections of its address.
    share: Share,
}

impl UserPermit {
    ghost use Rattle.event_loop.specs.Shares.{has_none, is_over};

    /// The user has ended its side. That is counted once.
    pub fn end(&mut self)
        ensures { is_over self.new ≡ is_over self.old }
    {
        if !self.ended {
            self.ended = true;
            let _ = self.room.ended.fetch_add(1, Ordering::SeqCst);
        }
    }

    /// The user has this share of the connections of its address. One that has none is counted.
    pub fn have(&mut self, share: Share)
        ensures { is_over self.new ≡ has_none share }
    {
        if matches!(&share, Share::Over) {
            let _ = self.room.over.fetch_add(1, Ordering::SeqCst);
        }
        self.share = share;
    }

    /// Whether the user's address has as many connections as it may without this one.
    pub fn is_over(&self) -> bool
        ensures { result ≡ is_over self.now }
    {
        matches!(&self.share, Share::Over)
    }
}

impl Drop for UserPermit {
    fn drop(self) {
        let UserPermit {
            room,
            ended,
            share: _,
        } = self;
        if ended {
            let _ = room.ended.fetch_sub(1, Ordering::SeqCst);
        }
        let _ = room.users.fetch_sub(1, Ordering::SeqCst);
        room.give_back(USER);
    }
}

/// The permit of an idle connection, which it has until it is used or closed.
pub struct IdlePermit {
    room: Arc<Room>,
}

impl Drop for IdlePermit {
    fn drop(self) {
        let IdlePermit { room } = self;
        room.give_back(1);
    }
}

/// How many users there may be on so many descriptors, of which some are kept for idle connections: one at least.
fn most_users(all: u64, idle: u64) -> u64
    ensures one { 1 ≤ result }
    ensures within { idle + USER ≤ all → USER * result + idle ≤ all }
    ensures most { all < USER * (result + 1) + idle }
{
    (all.saturating_sub(idle) / USER).max(1)
}

/// Whether more descriptors are there beside those that are used.
fn fits(used: u64, more: u64, all: u64) -> bool
    ensures { result ≡ true ↔ used + more ≤ all }
{
    used <= all && more <= all - used
}

impl Room {
    ghost use Rattle.event_loop.specs.Shares.{is_over};

    /// Room for `most` users, and for `idle` idle connections beside them.
    pub fn new(most: u64, idle: u64) -> Room {
        Room {
            all: USER.saturating_mul(most).saturating_add(idle),
            most,
            used: AtomicU64::new(0),
            users: AtomicU64::new(0),
            ended: AtomicU64::new(0),
            refused: AtomicU64::new(0),
            over: AtomicU64::new(0),
            unannounced: AtomicU64::new(0),
        }
    }

    /// The room that the limit on open descriptors leaves beside these loops, and ports like the administrator's, of which so many are
    /// kept for idle connections. One user has room at least.
    pub fn of_system(loops: u64, askers: u64, idle: u64) -> Room {
        let mut limit = rlimit {
            rlim_cur: u64::MAX,
            rlim_max: u64::MAX,
        };
        let _ = getrlimit(RLIMIT_NOFILE, &mut limit);
        let others = OWN
            .saturating_add(LOOP.saturating_mul(loops))
            .saturating_add(ASKERS.saturating_mul(askers));
        let all = limit.rlim_cur.saturating_sub(others);
        let most = most_users(all, idle);
        Room::new(most, all.saturating_sub(USER.saturating_mul(most)))
    }

    /// Takes descriptors. False if there aren't so many.
    fn take(&self, count: u64) -> bool {
        let used = self.used.fetch_add(count, Ordering::SeqCst);
        let there = fits(used, count, self.all);
        if !there {
            self.give_back(count);
        }
        there
    }

    fn give_back(&self, count: u64) {
        let _ = self.used.fetch_sub(count, Ordering::SeqCst);
    }

    /// Whether there is no user.
    pub fn is_empty(&self) -> bool {
        self.users.load(Ordering::SeqCst) == 0
    }

    /// Whether a user of any thread has ended its side.
    pub fn has_ended(&self) -> bool {
        self.ended.load(Ordering::SeqCst) > 0
    }

    /// A connection was closed that came from elsewhere than users may.
    pub fn refuse(&self) {
        let _ = self.refused.fetch_add(1, Ordering::SeqCst);
    }

    /// How many connections were closed that came from elsewhere than users may.
    pub fn refused(&self) -> u64 {
        self.refused.load(Ordering::SeqCst)
    }

    /// A connection was closed that didn't begin with a header of the PROXY protocol.
    pub fn lack_header(&self) {
        let _ = self.unannounced.fetch_add(1, Ordering::SeqCst);
    }

    /// How many connections were closed that didn't begin with a header of the PROXY protocol.
    pub fn unannounced(&self) -> u64 {
        self.unannounced.load(Ordering::SeqCst)
    }

    /// How many users were refused since their address had as many connections as it may.
    pub fn over(&self) -> u64 {
        self.over.load(Ordering::SeqCst)
    }

    /// Whether only idle connections keep the next user out.
    pub fn has_too_many_idle(&self) -> bool {
        self.users.load(Ordering::SeqCst) < self.most
            && !fits(self.used.load(Ordering::SeqCst), USER, self.all)
    }

    /// A permit for one more user, if there is room.
    pub fn enter(room: &Arc<Room>) -> Option<UserPermit>
        ensures { IfSome result (λ permit. is_over permit ≡ false) }
    {
        if room.users.load(Ordering::SeqCst) >= room.most {
            return None;
        }
        let room = Arc::clone(room).ok()?;
        if !room.take(USER) {
            return None;
        }
        let _ = room.users.fetch_add(1, Ordering::SeqCst);
        Some(UserPermit {
            room,
            ended: false,
            share: Share::Unlimited,
        })
    }

    /// A permit for one more idle connection, if there is room.
    pub fn keep(room: &Arc<Room>) -> Option<IdlePermit> {
        let room = Arc::clone(room).ok()?;
        if room.take(1) {
            Some(IdlePermit { room })
        } else {
            None
        }
    }
}
