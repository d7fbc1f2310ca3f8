//! Connections in memory: numbered in the order in which they are opened, and ended and spoken on from outside.

ghost use Rattle.std.specs.Prelude.{⊤};

use service_pool::{Connector, Edge, Keeper, LendFault};
use std::cell::Cell;
use test_rows::put_decimal;
use trace_core::Point;

/// What connections, threads and descriptors are in the midst of.
#[derive(Drop)]
pub struct ConnectionStage {
    /// How many connections were opened.
    pub opened: Cell<u64>,
    /// A bit for each connection that its service has ended.
    pub ended: Cell<u64>,
    /// A bit for each connection on which bytes lie unread.
    pub unread: Cell<u64>,
    /// How many idle connections find a descriptor.
    pub room: Cell<u64>,
    /// How many of those a user wants.
    pub wanted: Cell<u64>,
    /// Why connections can't be opened or brought into use.
    pub fault: Cell<Option<LendFault>>,
    /// The threads that were woken, the last one in the last digit.
    pub woken: Cell<u64>,
    /// How often connections were listened to.
    pub polls: Cell<u64>,
    /// The moment, in seconds.
    pub now: Cell<u64>,
}

impl ConnectionStage {
    /// Before the first connection, with descriptors for this many idle ones.
    pub fn new(room: u64) -> ConnectionStage {
        ConnectionStage {
            opened: Cell::new(0),
            ended: Cell::new(0),
            unread: Cell::new(0),
            room: Cell::new(room),
            wanted: Cell::new(0),
            fault: Cell::new(None),
            woken: Cell::new(0),
            polls: Cell::new(0),
            now: Cell::new(0),
        }
    }

    /// Whether a connection lives, and nothing lies unread on it.
    fn is_quiet(&self, number: u64) -> bool {
        let bit = bit_of(number);
        self.ended.get() & bit == 0 && self.unread.get() & bit == 0
    }
}

/// The bit of a connection.
pub fn bit_of(number: u64) -> u64 {
    1 << (number % 64)
}

/// The descriptor of an idle connection, which is given back once it is used or closed.
pub struct IdleDescriptor<'a> {
    stage: &'a ConnectionStage,
}

impl<'a> Drop for IdleDescriptor<'a> {
    fn drop(self) {
        let IdleDescriptor { stage } = self;
        stage.room.set(stage.room.get().saturating_add(1));
    }
}

/// A connection that lies idle.
#[derive(Drop)]
pub struct Idle<'a> {
    number: u64,
    since: u64,
    home: usize,
    /// How often connections had been listened to when it was laid down.
    laid: u64,
    berth: IdleDescriptor<'a>,
}

/// What threads share.
#[derive(Clone, Copy, Drop)]
pub struct StageEdge<'a> {
    pub stage: &'a ConnectionStage,
}

impl<'a> Edge for StageEdge<'a> {
    type Idle = Idle<'a>;

    type Woken = usize;

    ghost since = { λ idle. idle.since };

    ghost home = { λ idle. idle.home };

    ghost thread_of = { λ thread. thread };

    fn since(idle: &Idle<'a>) -> u64 {
        idle.since
    }

    fn home(idle: &Idle<'a>) -> usize {
        idle.home
    }

    fn is_quiet(&self, idle: &Idle<'a>) -> bool {
        self.stage.is_quiet(idle.number)
    }

    fn wake(&self, thread: usize) -> usize {
        let digit = thread as u64 % 10;
        let woken = self.stage.woken.get();
        self.stage
            .woken
            .set(woken.saturating_mul(10).saturating_add(digit));
        thread
    }

    fn is_crowded(&self) -> bool {
        self.stage.room.get() < self.stage.wanted.get()
    }
}

/// What opens connections, and says what it was asked.
#[derive(Drop)]
pub struct Hand<'a, 'o> {
    pub stage: &'a ConnectionStage,
    /// The number of the thread whose connections these are.
    pub thread: usize,
    pub out: &'o mut Vec<u8>,
}

impl<'a, 'o> Hand<'a, 'o> {
    /// Says what was done with a connection.
    fn say(&mut self, what: &[u8], number: u64) {
        let _ = self.out.extend_from_slice(what);
        let _ = self.out.extend_from_slice(b" ");
        let _ = put_decimal(self.out, number);
    }

    /// Says whether it is so.
    fn say_truth(&mut self, is_so: bool) {
        let text: &[u8] = if is_so { b" yes, " } else { b" no, " };
        let _ = self.out.extend_from_slice(text);
    }
}

impl<'a, 'o> Keeper<StageEdge<'a>> for Hand<'a, 'o> {
    type Used = u64;

    ghost past = { λ hand p. ⊤ };

    ghost thread = { λ hand. hand.thread };

    ghost is_line = { λ idle used. ⊤ };

    fn may_rest(&mut self, used: &u64) -> bool {
        let is_quiet = self.stage.is_quiet(*used);
        self.say(b"checks", *used);
        self.say_truth(is_quiet);
        is_quiet
    }

    fn rest(&mut self, used: u64, now: u64) -> Option<Idle<'a>> {
        let room = self.stage.room.get();
        let home = self.thread;
        self.say(b"rests", used);
        self.say_truth(room > 0);
        if room == 0 {
            return None;
        }
        self.stage.room.set(room - 1);
        Some(Idle {
            number: used,
            since: now,
            home,
            laid: self.stage.polls.get(),
            berth: IdleDescriptor { stage: self.stage },
        })
    }

    fn close(&mut self, used: u64) {
        self.say(b"closes", used);
        let _ = self.out.extend_from_slice(b", ");
    }
}

impl<'a, 'o> Connector<StageEdge<'a>> for Hand<'a, 'o> {
    type Place = Point;

    ghost leads = { λ place used. ⊤ };

    ghost idle_leads = { λ place idle. ⊤ };

    fn is_known_quiet(&self, idle: &Idle<'a>) -> bool {
        self.stage.is_quiet(idle.number) && idle.laid < self.stage.polls.get()
    }

    fn open(&mut self, place: Point) -> Result<u64, LendFault> {
        let name: &[u8] = match place {
            Point::Reqmod => b"opens",
            Point::Respmod => b"opens response",
        };
        let number = self.stage.opened.get().saturating_add(1);
        self.say(name, number);
        match self.stage.fault.get() {
            Some(LendFault::Busy | LendFault::Paused) | None => {
                self.stage.opened.set(number);
                self.say_truth(true);
                Ok(number)
            }
            Some(fault) => {
                self.say_truth(false);
                Err(fault)
            }
        }
    }

    fn is_fit(&mut self, _place: Point, idle: &Idle<'a>) -> bool {
        let is_quiet = self.stage.is_quiet(idle.number);
        self.say(b"looks", idle.number);
        self.say_truth(is_quiet);
        is_quiet
    }

    fn resume(&mut self, idle: Idle<'a>) -> Result<u64, LendFault> {
        let Idle {
            number,
            since: _,
            home,
            laid: _,
            berth,
        } = idle;
        drop(berth);
        let how: &[u8] = if home == self.thread {
            b"resumes"
        } else {
            b"moves"
        };
        self.say(how, number);
        match self.stage.fault.get() {
            Some(LendFault::Busy | LendFault::Paused) | None => {
                self.say_truth(true);
                Ok(number)
            }
            Some(fault) => {
                self.say_truth(false);
                Err(fault)
            }
        }
    }
}
