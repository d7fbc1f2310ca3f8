//! Lines: under which numbers the poll of a thread reports connections to origins and services, and whose these are.

ghost use Rattle.std.specs.Prelude.{◌≡◌, ◌<◌, ◌+◌, Some, None, IfSome};

use event_loop::Told;
use slab::Slab;
use socket_wire::Readiness;
use std::alloc::Global;
use std::sync::Arc;

/// The fewest lines at which those that were dropped elsewhere are looked for.
const FEW: usize = 32;

/// Whose a line is.
#[derive(Clone, Copy)]
pub(crate) enum LineHolder {
    /// That of the exchange under this key.
    Exchange(usize),
    /// Nobody's: its connection lies idle.
    Nobody,
    /// It was left in this turn. The number of the one that was left before it.
    Left(Option<usize>),
}

/// The registration of a connection to an origin or a service with the poll of a thread.
#[derive(Drop)]
pub(crate) struct RegisteredLine {
    ready: Arc<Readiness>,
    /// How often the connection had left a line when it came to this one: once it has left more often, this one is free.
    departures: u64,
    holder: LineHolder,
}

impl RegisteredLine {
    /// Whether its connection has left it.
    fn is_free(&self) -> bool {
        self.ready.departures() != self.departures
    }
}

/// What was noted of an idle connection since its line was laid down.
#[derive(Clone, Copy)]
pub enum SinceLaid {
    /// Nothing, and a poll was after it that reported all that there was: that is noted.
    Nothing,
    /// That there is something to read, or that the other side has ended its bytes, or that the connection has failed.
    Something,
    /// Nothing, but it was laid down in this turn, or the poll had no room for all: the system is to be asked.
    NotPolled,
}

/// The line of a connection that no exchange has: it lies idle, and its thread's poll still reports it.
///
/// Once it is dropped, by whichever thread, its number is free for another connection.
pub struct IdleLine {
    number: usize,
    ready: Arc<Readiness>,
    /// The turn of its thread's loop in which it was laid down.
    laid: u64,
}

impl Drop for IdleLine {
    fn drop(self) {
        let IdleLine {
            number: _,
            ready,
            laid: _,
        } = self;
        ready.depart();
    }
}

impl IdleLine {
    ghost use Rattle.shard_desk.specs.Lines.{IsNotPolled};

    /// Whether no event has said since it was laid down that there is something to read, or that the other side has ended its bytes, or
    /// that the connection has failed. The system isn't asked.
    pub fn is_quiet(&self) -> bool {
        self.ready.is_quiet()
    }

    /// What was noted since it was laid down, where this is the turn of its thread's loop whose poll reported all that there was; 0 where
    /// it had no room for all. The loop notes all events of its poll before it drives anybody. The system isn't asked.
    pub fn since_laid(&self, turn: u64) -> SinceLaid
        ensures whole { result ≡ SinceLaid.Nothing → self.now.laid < turn }
        ensures part { result ≡ SinceLaid.NotPolled → IsNotPolled turn self.now }
    {
        if !self.is_quiet() {
            return SinceLaid::Something;
        }
        if turn <= self.laid {
            SinceLaid::NotPolled
        } else {
            SinceLaid::Nothing
        }
    }

    /// Its number, where it lies idle no longer. Nothing may be heard on its connection before a byte is written.
    fn wake(self) -> usize
        ensures { result ≡ self.number }
    {
        let IdleLine {
            number,
            ready,
            laid: _,
        } = self;
        ready.resume();
        number
    }

    /// What was reported of its connection, which leaves it: it is free. Nothing may be heard on the connection before a byte is written.
    pub(crate) fn leave(self) -> Arc<Readiness> {
        let IdleLine {
            number: _,
            ready,
            laid: _,
        } = self;
        ready.depart();
        ready.resume();
        ready
    }
}

/// The lines of a thread, each under its number.
///
/// A number that was left is another connection's in a later turn alone: once all is noted that the poll reported of the one before.
#[derive(Drop)]
pub(crate) struct RegisteredLines {
    all: Slab<RegisteredLine>,
    /// The one that was left last in this turn.
    left: Option<usize>,
    /// At this number of lines those that were dropped elsewhere are looked for.
    many: usize,
}

impl RegisteredLines {
    ghost use Rattle.shard_desk.specs.Lines.{owner, IsOf};

    /// There is none.
    pub(crate) fn new(alloc: Global) -> RegisteredLines {
        RegisteredLines {
            all: Slab::new(alloc),
            left: None,
            many: FEW,
        }
    }

    /// A turn is over: the numbers of those that were left are free. Those that were dropped elsewhere are looked for where there are twice
    /// as many lines as were found in use the last time.
    pub(crate) fn turn_over(&mut self) {
        self.clear();
        if self.all.len() >= self.many {
            self.sweep();
            self.many = self.all.len().saturating_mul(2).max(FEW);
        }
    }

    /// Forgets the lines that were left.
    fn clear(&mut self) {
        for _ in 0..self.all.len() {
            let Some(number) = self.left else {
                return;
            };
            self.left = match self.all.try_remove(number) {
                Some(
                    RegisteredLine {
                        holder: LineHolder::Left(before),
                        ..
                    },
                ) => before,
                _ => None,
            };
        }
    }

    /// Forgets the lines that were dropped elsewhere.
    fn sweep(&mut self) {
        for number in 0..self.all.capacity() {
            if let Some(line) = self.all.get(number)
                && line.is_free()
            {
                let _ = self.all.try_remove(number);
            }
        }
    }

    /// A line for a connection of the exchange under this key. `None` if no memory was found.
    pub(crate) fn add(&mut self, ready: Arc<Readiness>, key: usize) -> Option<usize>
        ensures { IfSome result (λ number. owner self.new number ≡ Some key) }
    {
        if self.all.reserve(1).is_err() {
            return None;
        }
        let departures = ready.departures();
        Some(
            self.all.insert_reserved(RegisteredLine {
                ready,
                departures,
                holder: LineHolder::Exchange(key),
            }),
        )
    }

    /// Its connection has left it: its number is free once the turn is over.
    pub(crate) fn free(&mut self, number: usize)
        ensures { owner self.new number ≡ None }
    {
        if let Some(line) = self.all.get_mut(number)
            && !matches!(line.holder, LineHolder::Left(_))
        {
            line.holder = LineHolder::Left(self.left);
            self.left = Some(number);
        }
    }

    /// What was reported of its connection.
    pub(crate) fn ready(&self, number: usize) -> Option<&Readiness> {
        match self.all.get(number) {
            Some(line) => Some(&line.ready),
            None => None,
        }
    }

    /// It lies idle from this turn on: nothing was left to be read on its connection.
    pub(crate) fn lay_idle(&mut self, number: usize, turn: u64) -> Option<IdleLine>
        ensures { IfSome result (λ idle. (idle.number ≡ number) × (idle.laid ≡ turn) × (owner self.new number ≡ None)) }
    {
        let line = self.all.get_mut(number)?;
        let ready = Arc::clone(&line.ready).ok()?;
        line.holder = LineHolder::Nobody;
        ready.read_out();
        Some(IdleLine {
            number,
            ready,
            laid: turn,
        })
    }

    /// The exchange under this key has a line that lay idle here, whose number is this.
    pub(crate) fn hand(&mut self, idle: IdleLine, key: usize) -> usize
        ensures number { result ≡ idle.number }
        ensures owner { IsOf self.new idle.number key }
    {
        let number = idle.wake();
        if let Some(line) = self.all.get_mut(number) {
            line.holder = LineHolder::Exchange(key);
        }
        number
    }

    /// Takes note of an event of a connection. The key of the exchange for which it is news; none where the line lies idle, or was left.
    pub(crate) fn note(&self, number: usize, told: Told) -> Option<usize>
        ensures { IfSome result (λ key. owner self.now number ≡ Some key) }
    {
        let line = self.all.get(number)?;
        if line.is_free() {
            return None;
        }
        match line.holder {
            LineHolder::Exchange(key) if note_on(&line.ready, told) => Some(key),
            LineHolder::Nobody => {
                let _ = note_on(&line.ready, told);
                None
            }
            LineHolder::Exchange(_) | LineHolder::Left(_) => None,
        }
    }
}

/// Takes note of an event of a connection. False if it says nothing new.
pub(crate) fn note_on(ready: &Readiness, told: Told) -> bool {
    let gone = told.failed && ready.fail();
    ready.note(told.readable, told.writable, told.closed) || gone
}
