//! The work of one thread: its exchanges, each in a slot.

ghost use Rattle.std.specs.Prelude.{◌≡◌, ◌<◌, false, true, IfSome, Some, None, ⊤, length, slice_get};
ghost use Rattle.event_loop.specs.Deeds.{has_more};
ghost use Rattle.trace_core.specs.declared.history.Point.{Point as AnyPoint};
ghost use Rattle.shard_desk.specs.Driving.{IfBlocked};
ghost use Rattle.shard_desk.specs.Sparing.{GivesWay};
ghost use Rattle.shard_desk.specs.Slots.{ChangesOnly};

use crate::driving::{drive_on, leave_on};
use crate::exchanges::{Exchanges, Slotted};
use crate::hearing::{Hearing, Unannounced};
use crate::seat::Purpose;
use crate::seating::Seating;
use crate::seats::SECOND;
use crate::spot::Spot;
use event_loop::{Driven, Slots};
use http_side::own_refusal;
use mio::Registry;
use mio::net::TcpStream;
use shard_exchange::{Step, Task};
use socket_wire::{Calls, Dial, Readiness, Stream, User, UserWire};
use std::alloc::{AllocError, Global};
use std::boxed::Box;
use std::sync::Wait;
use std::time::Clock;
use wire_kit::Gate;

mod work;

/// How far the loop's users are served.
#[derive(Clone, Copy)]
enum Serving {
    /// All of their requests.
    Full,
    /// Each exchange is the last one of its connection.
    Draining,
    /// None: all exchanges were ended, but for those whose user is still to be refused, or that only close.
    Stopped,
}

/// The exchanges of one thread, each in the slot of its key. What is in a slot may have a reservation or a lease, so it has
/// no `Drop`, and nothing is lost.
pub struct Shard<'a, E: Exchanges, G> {
    alloc: Global,
    exchanges: E,
    slots: Slots<Box<E::Exchange>>,
    /// The connections whose header isn't whole yet.
    unannounced: Unannounced,
    /// How many queues there are for what another exchange gives back.
    queues: usize,
    gate: Option<&'a G>,
    serving: Serving,
}

/// Says to a user for whom there isn't even a seat to spare, or no memory, that it be back later, where that costs nothing. It has no
/// line of the log, and gets no page: that would take memory.
pub(crate) fn turn_away(stream: Stream<User>) {
    let mut stream = stream;
    let _ = stream.offer(own_refusal(503));
}

/// Ends an exchange that is over. It is moved off the heap in this call alone, so that no step makes room for it.
fn finish<X: Slotted>(exchange: Box<X>)
    requires { X.is_over exchange.value ≡ true }
{
    Box::into_inner(exchange).finish();
}

impl<'a, E: Exchanges + Drop, G: Gate> Shard<'a, E, G> {
    /// A thread's work before the first user. `Err` where no memory was found.
    pub fn new(
        alloc: Global,
        exchanges: E,
        gate: Option<&'a G>,
    ) -> Result<Shard<'a, E, G>, AllocError> {
        let bound = exchanges.users().seats().bound();
        let headers = if exchanges.users().has_headers() {
            bound
        } else {
            0
        };
        let unannounced = Unannounced::new(alloc, headers)?;
        let slots = Slots::new(alloc, bound)?;
        let queues = exchanges.users().queues();
        Ok(Shard {
            alloc,
            exchanges,
            slots,
            unannounced,
            queues,
            gate,
            serving: Serving::Full,
        })
    }

    /// The slots, once the exchanges that are still open are reported: those whose users haven't taken
    /// their refusal at the stop, or whose connections are still being closed. All else goes.
    pub fn into_slots<R: Wait + Clock>(self, rt: &R) -> Vec<Option<Box<E::Exchange>>> {
        let Shard {
            alloc: _,
            exchanges,
            slots,
            unannounced: _,
            queues: _,
            gate: _,
            serving: _,
        } = self;
        let mut exchanges = exchanges;
        for key in 0..slots.count() {
            exchanges.users_mut().report(rt, key);
        }
        slots.into_all()
    }

    /// Puts an exchange into the slot of its key, from which it was taken. What comes back, which is nothing, ends.
    fn keep<R: Wait + Dial + Clock>(&mut self, at: &Spot<'_, R, G>, exchange: Box<E::Exchange>)
        ensures only { ChangesOnly at.entry.now.key self.old.slots.all.items self.new.slots.all.items }
        ensures free { slice_get self.old.slots.all.items at.entry.now.key ≡ Some None → self.new.exchanges ≡ self.old.exchanges }
        ensures queues { self.new.queues ≡ self.old.queues }
    {
        if let Some(old) = self.slots.place(at.key, exchange) {
            let mut old = old;
            self.exchanges.act(at, &mut old, Task::Lose);
            finish(old);
        }
    }

    /// Begins the exchange of a user's connection in the slot of its key. False where no memory was found: then the user is turned away.
    fn begin<R: Wait + Dial + Clock>(
        &mut self,
        at: &Spot<'_, R, G>,
        user: UserWire,
        purpose: Purpose,
    ) -> bool
        ensures only { ChangesOnly at.entry.now.key self.old.slots.all.items self.new.slots.all.items }
        ensures queues { self.new.queues ≡ self.old.queues }
    {
        match self.exchanges.begin(user, purpose) {
            Some(exchange) => {
                self.keep(at, exchange);
                true
            }
            None => false,
        }
    }

    /// A user has taken the seat of this key: its exchange begins, or first its header is read. False where the system refuses, or no
    /// memory was found: then the user is turned away.
    fn seat<R: Wait + Dial + Clock>(
        &mut self,
        at: &Spot<'_, R, G>,
        stream: TcpStream,
        purpose: Purpose,
    ) -> bool
        ensures only { ChangesOnly at.entry.now.key self.old.slots.all.items self.new.slots.all.items }
        ensures queues { self.new.queues ≡ self.old.queues }
    {
        let has_header = self.exchanges.users().has_headers();
        let users = self.exchanges.users_mut();
        // What it is for is noted once its header says where it comes from.
        let noted = if has_header {
            Purpose::Requests
        } else {
            purpose
        };
        users.enter(at.key, noted, &stream);
        let stream: Stream<User> = Stream::accepted(stream);
        let ready = Readiness::new();
        match users.seats_mut().wire(at.registry, at.key, ready, stream) {
            Ok(user) if has_header => self.unannounced.place(at.key, user),
            Ok(user) => self.begin(at, user, purpose),
            Err(stream) => {
                turn_away(stream);
                false
            }
        }
    }

    /// Reads the header of the connection under this key. `None` where its exchange has begun by that, and is to be driven. Else there is
    /// no more to do: the header isn't whole yet, or the connection is closed, since that is no header, isn't whole in time or before users
    /// are let go, its user may not come or has no seat, or no memory was found.
    fn hear<R: Wait + Dial + Clock>(
        &mut self,
        at: &Spot<'_, R, G>,
        user: UserWire,
    ) -> Option<Driven>
        ensures only { ChangesOnly at.entry.now.key self.old.slots.all.items self.new.slots.all.items }
        ensures rests { IfSome result (λ driven. (has_more driven ≡ false)) }
        ensures queues { self.new.queues ≡ self.old.queues }
    {
        let mut user = user;
        let hearing = self
            .exchanges
            .users_mut()
            .hear_header(at.rt, at.key, at.now, &mut user);
        match hearing {
            Hearing::Waits if self.serving == Serving::Full => {
                let _ = self.unannounced.place(at.key, user);
                return Some(Driven::Waiting);
            }
            Hearing::Begins(purpose) => {
                if self.begin(at, user, purpose) {
                    return None;
                }
            }
            Hearing::Full => turn_away(user.into_stream()),
            Hearing::Waits | Hearing::Ends => {}
        }
        self.exchanges.users_mut().leave(at.rt, at.key);
        Some(Driven::Over)
    }

    /// Drives the exchange under this key, which is the last one of its connection where users are let go. Where the header of its
    /// connection isn't whole yet, that is read first. No other exchange is touched.
    fn drive_slot<R: Wait + Dial + Clock>(&mut self, at: &Spot<'_, R, G>) -> Driven
        ensures only { ChangesOnly at.entry.now.key self.old.slots.all.items self.new.slots.all.items }
        ensures blocked { IfBlocked result (λ other. (point : AnyPoint) × GivesWay (E.Seating.seats_of (E.users_of self.new.exchanges)) point other) }
        ensures there { has_more result ≡ true → at.entry.now.key < length self.old.slots.all.items }
        ensures queues { self.new.queues ≡ self.old.queues }
    {
        if let Some(user) = self.unannounced.take(at.key)
            && let Some(driven) = self.hear(at, user)
        {
            return driven;
        }
        let Some(exchange) = self.slots.take(at.key) else {
            return Driven::Over;
        };
        let mut exchange = exchange;
        if self.serving == Serving::Draining {
            exchange.drain();
        }
        match drive_on(&mut self.exchanges, at, &mut exchange) {
            Driven::Over => {
                finish(exchange);
                self.exchanges.users_mut().leave(at.rt, at.key);
                Driven::Over
            }
            driven => {
                self.keep(at, exchange);
                driven
            }
        }
    }

    /// Ends the exchange under this key, and all of its connections. One whose header isn't whole yet is closed.
    fn end_slot<R: Wait + Dial + Clock>(&mut self, at: &Spot<'_, R, G>)
        ensures only { ChangesOnly at.entry.now.key self.old.slots.all.items self.new.slots.all.items }
        ensures queues { self.new.queues ≡ self.old.queues }
    {
        if let Some(exchange) = self.slots.take(at.key) {
            let mut exchange = exchange;
            self.exchanges.act(at, &mut exchange, Task::Lose);
            finish(exchange);
        }
        let _ = self.unannounced.take(at.key);
        self.exchanges.users_mut().leave(at.rt, at.key);
    }

    /// Ends the exchange under this key, because the proxy stops. It stays where its user is still to be refused, or has got all and
    /// its connection is being closed: were it closed at once, the user might lose what it hasn't read yet.
    fn halt_slot<R: Wait + Dial + Clock>(&mut self, at: &Spot<'_, R, G>)
        ensures only { ChangesOnly at.entry.now.key self.old.slots.all.items self.new.slots.all.items }
        ensures queues { self.new.queues ≡ self.old.queues }
    {
        let Some(exchange) = self.slots.take(at.key) else {
            if self.unannounced.take(at.key).is_some() {
                self.exchanges.users_mut().leave(at.rt, at.key);
            }
            return;
        };
        let mut exchange = exchange;
        if self.exchanges.act(at, &mut exchange, Task::Halt) == Step::Over {
            finish(exchange);
            self.exchanges.users_mut().leave(at.rt, at.key);
        } else {
            self.keep(at, exchange);
        }
    }

    /// Drives on an exchange at a stop: its user takes its refusal, and may still send. Once it sends no more all is given back.
    fn take_leave<R: Wait + Dial + Clock>(&mut self, at: &Spot<'_, R, G>) -> Driven
        ensures only { ChangesOnly at.entry.now.key self.old.slots.all.items self.new.slots.all.items }
        ensures there { has_more result ≡ true → at.entry.now.key < length self.old.slots.all.items }
        ensures queues { self.new.queues ≡ self.old.queues }
    {
        let Some(exchange) = self.slots.take(at.key) else {
            return Driven::Over;
        };
        let mut exchange = exchange;
        match leave_on(&mut self.exchanges, at, &mut exchange) {
            Driven::Over => {
                finish(exchange);
                self.exchanges.users_mut().leave(at.rt, at.key);
                Driven::Over
            }
            driven => {
                self.keep(at, exchange);
                driven
            }
        }
    }

    /// The key of the user that can best be spared, of all or of those that have ended and idle ones. One whose request has just come
    /// isn't.
    fn best_spared(&mut self, only_idle: bool, millis: u64) -> Option<usize>
        ensures { (self.new.slots ≡ self.old.slots) × (self.new.queues ≡ self.old.queues) }
    {
        let youth = self.exchanges.users().seats().youth(millis);
        let mut best = None;
        for key in 0..self.slots.count() {
            if let Some(better) = self
                .exchanges
                .users()
                .seats()
                .better(key, millis, youth, best)
                && (!only_idle || better.is_idle())
            {
                if self.is_wanted(key) {
                    self.exchanges.users_mut().seats_mut().await_head(key);
                } else {
                    best = Some(better);
                }
            }
        }
        match best {
            Some(best) => Some(best.key),
            None => None,
        }
    }

    /// Closes the connection of the user that can best be spared, of all or of those that have ended and idle ones. False if there is
    /// no such user.
    fn spare_user<R: Wait + Dial + Clock>(
        &mut self,
        rt: &R,
        registry: &Registry,
        only_idle: bool,
        millis: u64,
    ) -> bool
        ensures { (length self.new.slots.all.items ≡ length self.old.slots.all.items) × (self.new.queues ≡ self.old.queues) }
    {
        let Some(key) = self.best_spared(only_idle, millis) else {
            return false;
        };
        let gate = self.gate;
        let now = millis / SECOND;
        self.end_slot(&Spot {
            rt,
            registry,
            gate,
            key,
            now,
        });
        true
    }

    /// Whether there is a seat for a further user. Where none is free, the user that can best be spared leaves its own: in the first
    /// round one that has ended its side, or is idle, since another thread may have a seat.
    fn has_seat<R: Wait + Dial + Clock>(
        &mut self,
        rt: &R,
        registry: &Registry,
        is_first_round: bool,
        millis: u64,
    ) -> bool
        ensures { (length self.new.slots.all.items ≡ length self.old.slots.all.items) × (self.new.queues ≡ self.old.queues) }
    {
        self.exchanges.users().seats().has_room()
            || self.spare_user(rt, registry, is_first_round, millis)
    }

    /// Whether no byte of a request was read on the connection under this key, but some have come that no event has reported yet.
    fn is_wanted(&self, key: usize) -> bool {
        match self.slots.get(key) {
            Some(exchange) => E::is_wanted(exchange),
            None => false,
        }
    }
}
