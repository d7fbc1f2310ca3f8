//! The connections of a schedule as the system has them, with an edge-triggered poll that tells a change once, and the queue for the
//! right to a connection of a service.

ghost use Rattle.std.specs.Prelude.{◌≡◌, length};
ghost use Rattle.wire_kit.specs.Past.{FitsPut, FitsRoom};

mod acts;

use crate::stage::shared::{LineOwner, RowStage};
use service_pool::{WaitQueue, Waiter};
use std::alloc::Global;
use test_rows::{NoMemory, Random, Scene, Values, number};
use wire_kit::{Got, Put};

/// A connection: what its other end does, what came and wasn't read, and what the poll has to tell of it.
#[derive(Drop)]
pub(crate) struct PolledLine {
    /// The exchange that has it, and whose connection it is.
    key: usize,
    peer: LineOwner,
    pub(crate) is_open: bool,
    /// How far the other end is in its words: the place of the next one, and how much of that one's text it gave.
    place: usize,
    given: usize,
    /// How many bytes it took since it last heard a text.
    heard: usize,
    /// What came, and how much of it was read.
    came: Vec<u8>,
    read: usize,
    /// How many bytes it takes now, and how many more later.
    room: usize,
    later: usize,
    has_ended: bool,
    has_failed: bool,
    pub(crate) is_finished: bool,
    /// What the poll tells next: there are bytes, there is room, there is an end.
    tells_bytes: bool,
    tells_room: bool,
    tells_end: bool,
    /// What was told and isn't used up: a read, or a write, may find something.
    pub(crate) can_read: bool,
    can_write: bool,
    knows_end: bool,
}

/// The connections of a schedule, its chances, and who waits for a connection of a service.
#[derive(Drop)]
pub(crate) struct Poll {
    random: Random,
    pub(crate) lines: Vec<PolledLine>,
    queue: WaitQueue,
    /// How many connections to services are free, and how many others have and give back some time.
    free: u64,
    lent: u64,
    /// Whether the first in the queue was called, and whether it is called where a connection is given back.
    is_called: bool,
    calls: bool,
    /// The exchange that is driven.
    driven: usize,
}

impl Poll {
    /// Before anything happened, with the chances of a seed.
    pub(crate) fn new(alloc: Global, scene: Scene<'_>, seed: u64) -> Result<Poll, NoMemory> {
        Ok(Poll {
            random: Random::new(seed),
            lines: Vec::new(alloc),
            queue: WaitQueue::new(alloc, 8)?,
            free: number(scene.get(b"free")).unwrap_or(u64::MAX),
            lent: number(scene.get(b"lent")).unwrap_or(0),
            is_called: false,
            calls: !scene.is(b"plant", b"no call"),
            driven: 0,
        })
    }

    /// One thing happens outside, at a connection that chance picks, or another gives a connection to a service back. False where nothing
    /// can happen any more.
    fn happen(&mut self, scene: Scene<'_>, values: Values) -> bool {
        let count = self.lines.len();
        let most = usize::try_from(self.random.below(200))
            .unwrap_or(0)
            .saturating_add(1);
        let first = usize::try_from(self.random.below(1000)).unwrap_or(0);
        for passed in 0..=count {
            let at = first
                .saturating_add(passed)
                .checked_rem(count.saturating_add(1));
            match self.lines.get_mut(at.unwrap_or(0)) {
                Some(line) => {
                    if line.is_open
                        && (most % 2 == 0 && line.make_room(most)
                            || line.go_on(scene, values, most)
                            || line.make_room(most))
                    {
                        return true;
                    }
                }
                None if self.lent > 0 => {
                    self.lent -= 1;
                    self.free = self.free.saturating_add(1);
                    self.is_called = self.is_called || self.calls;
                    return true;
                }
                None => {}
            }
        }
        false
    }

    /// Takes note of what the poll tells, and says for which of two exchanges that is news. The first in the queue hears its call.
    fn note(&mut self) -> [bool; 2] {
        let mut news = [false; 2];
        for line in self.lines.iter_mut() {
            if line.is_open
                && line.note()
                && let Some(is_news) = news.get_mut(line.key)
            {
                *is_news = true;
            }
        }
        if self.is_called
            && let Some(waiter) = self.queue.first().waiter()
            && let Some(is_news) = news.get_mut(waiter.key)
        {
            *is_news = true;
        }
        self.is_called = false;
        news
    }

    /// The exchange that is driven, as one that waits.
    fn waiter(&self) -> Waiter {
        Waiter {
            thread: 0,
            key: self.driven,
        }
    }
}

impl RowStage {
    /// A number below this one, by chance.
    pub fn below(&self, most: u64) -> u64 {
        match self.poll.try_borrow_mut() {
            Ok(mut poll) => poll.random.below(most),
            Err(_) => 0,
        }
    }

    /// This exchange is driven now. Whether its user is lost: its connection failed, or has ended where that is as good.
    pub fn turn_to(&self, key: usize, may_end: bool) -> bool {
        let Ok(mut poll) = self.poll.try_borrow_mut() else {
            return false;
        };
        poll.driven = key;
        for line in poll.lines.iter() {
            if line.peer == LineOwner::User && line.key == key && line.knows_end {
                return line.has_failed || may_end;
            }
        }
        false
    }

    /// One thing happens outside. False where nothing can happen any more.
    pub fn happen(&self, scene: Scene<'_>, values: Values) -> bool {
        match self.poll.try_borrow_mut() {
            Ok(mut poll) => poll.happen(scene, values),
            Err(_) => false,
        }
    }

    /// Takes note of what the poll tells, and says for which exchange that is news. `all` has it tell all that is so once more.
    pub fn hear(&self, all: bool) -> [bool; 2] {
        let Ok(mut poll) = self.poll.try_borrow_mut() else {
            return [false; 2];
        };
        if all {
            for line in poll.lines.iter_mut() {
                line.tells_bytes = true;
                line.tells_room = true;
                line.tells_end = line.has_ended;
            }
        }
        poll.note()
    }

    /// A connection of the exchange that is driven is opened: its number. What a user says may be there at once, and is read untold.
    pub(crate) fn open_line(&self, peer: LineOwner) -> usize {
        let Ok(mut poll) = self.poll.try_borrow_mut() else {
            return usize::MAX;
        };
        let number = poll.lines.len();
        let line = PolledLine {
            key: poll.driven,
            peer,
            is_open: true,
            place: 0,
            given: 0,
            heard: 0,
            came: Vec::new(self.alloc),
            read: 0,
            room: usize::try_from(poll.random.below(300)).unwrap_or(0),
            later: usize::MAX,
            has_ended: false,
            has_failed: false,
            is_finished: false,
            tells_bytes: false,
            tells_room: false,
            tells_end: false,
            can_read: peer == LineOwner::User,
            can_write: true,
            knows_end: false,
        };
        let _ = poll.lines.push(line);
        number
    }

    /// Takes the right to a connection of a service, in turn. False where there is none, or others wait.
    pub(crate) fn take_right(&self) -> bool {
        let Ok(mut poll) = self.poll.try_borrow_mut() else {
            return false;
        };
        let waiter = poll.waiter();
        let first = poll.queue.first().waiter().unwrap_or(waiter);
        if first != waiter || poll.free == 0 {
            return false;
        }
        poll.free -= 1;
        poll.is_called = poll.is_called || poll.queue.leave(waiter).waiter().is_some();
        true
    }

    /// Gives the right to a connection of a service back: the first in the queue is called.
    pub(crate) fn put_right(&self) {
        if let Ok(mut poll) = self.poll.try_borrow_mut() {
            poll.free = poll.free.saturating_add(1);
            poll.is_called = poll.is_called || poll.calls;
        }
    }

    /// Joins the queue. False where it is full.
    pub(crate) fn join_queue(&self) -> bool {
        match self.poll.try_borrow_mut() {
            Ok(mut poll) => {
                let waiter = poll.waiter();
                poll.queue.join(waiter).is_ok()
            }
            Err(_) => false,
        }
    }

    /// Leaves the queue. The one that is first then is called.
    pub(crate) fn leave_queue(&self) {
        if let Ok(mut poll) = self.poll.try_borrow_mut() {
            let waiter = poll.waiter();
            poll.is_called = poll.is_called || poll.queue.leave(waiter).waiter().is_some();
        }
    }

    /// Reads from a connection.
    pub(crate) fn give(&self, number: usize, buf: &mut [u8]) -> Got
        ensures fits { FitsRoom (length buf.old) result }
        ensures keeps { length buf.new ≡ length buf.old }
    {
        if let Ok(mut poll) = self.poll.try_borrow_mut()
            && let Some(line) = poll.lines.get_mut(number)
        {
            return line.give(buf);
        }
        Got::Wait
    }

    /// Writes to a connection. One that was taken up fails where something was heard on it meanwhile.
    pub(crate) fn put(&self, number: usize, bytes: &[u8], is_taken_up: bool) -> Put
        ensures { FitsPut (length bytes.now) result }
    {
        if let Ok(mut poll) = self.poll.try_borrow_mut()
            && let Some(line) = poll.lines.get_mut(number)
        {
            if is_taken_up && line.is_noisy() {
                return Put::Fault;
            }
            return line.take(bytes);
        }
        Put::Wait
    }
}
