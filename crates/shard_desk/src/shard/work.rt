//! What a loop asks of the thread's exchanges.

ghost use Rattle.std.specs.Prelude.{◌≡◌, ⊤, length, slice_get};
ghost use Rattle.shard_desk.specs.Slots.{Slot};

use crate::exchanges::Exchanges;
use crate::seating::Seating;
use crate::seats::SECOND;
use crate::shard::{Serving, Shard, turn_away};
use crate::spot::Spot;
use event_loop::{Admitted, Driven, Handed, Question, Request, Sheet, Told, Work};
use mio::Registry;
use socket_wire::{Dial, Peer, Stream};
use std::alloc::AllocError;
use std::sync::Wait;
use std::time::Clock;
use wire_kit::Gate;

impl<'a, E: Exchanges + Drop, G: Gate> Work for Shard<'a, E, G> {
    // it keeps no record
    ghost past = { λ shard past. ⊤ };

    ghost Part = { Slot E.Exchange };

    // what lies in its slot
    ghost part = { λ shard key. slice_get shard.slots.all.items key };

    ghost bound = { λ shard. length shard.slots.all.items };

    ghost queues = { λ shard. shard.queues };

    fn admit<R: Wait + Dial + Clock>(
        &mut self,
        rt: &R,
        registry: &Registry,
        user: Handed,
        millis: u64,
    ) -> Admitted {
        // One that has no share of its address's connections takes no seat from another user.
        if !user.permit.is_over()
            && !self.has_seat(rt, registry, user.is_first_round(), millis)
            && user.may_go_on()
        {
            return Admitted::Full(user);
        }
        let Handed {
            stream,
            from,
            number,
            permit,
            loops: _,
            tried: _,
        } = user;
        let Some((key, purpose)) = self
            .exchanges
            .users_mut()
            .seats_mut()
            .take(number, from, permit, millis)
        else {
            turn_away(Stream::accepted(stream));
            return Admitted::Closed;
        };
        let at = Spot {
            rt,
            registry,
            gate: self.gate,
            key,
            now: millis / SECOND,
        };
        if self.seat(&at, stream, purpose) {
            Admitted::Seated(key)
        } else {
            self.exchanges.users_mut().leave(rt, key);
            Admitted::Closed
        }
    }

    /// Idle connections go first, where they keep the user out, and then users that have ended their side, of whichever
    /// thread.
    fn make_room<R: Wait + Dial + Clock>(
        &mut self,
        rt: &R,
        registry: &Registry,
        millis: u64,
    ) -> bool {
        match self.exchanges.users_mut().close_idle(rt) {
            Some(has_room) => has_room,
            None if self.exchanges.users().has_ended_elsewhere() => false,
            None => self.spare_user(rt, registry, false, millis),
        }
    }

    fn heard(&mut self, is_whole: bool) {
        self.exchanges.users_mut().seats_mut().heard(is_whole);
    }

    fn note(&mut self, number: usize, peer: Peer, told: Told) -> Option<usize> {
        let seats = self.exchanges.users_mut().seats_mut();
        let key = seats.note(number, peer, told)?;
        if key < self.slots.count() {
            Some(key)
        } else {
            None
        }
    }

    fn drive<R: Wait + Dial + Clock>(
        &mut self,
        rt: &R,
        registry: &Registry,
        key: usize,
        now: u64,
    ) -> Driven {
        let gate = self.gate;
        let at = Spot {
            rt,
            registry,
            gate,
            key,
            now,
        };
        match self.serving {
            Serving::Full | Serving::Draining => self.drive_slot(&at),
            Serving::Stopped => self.take_leave(&at),
        }
    }

    fn give_way<R: Wait + Dial + Clock>(
        &mut self,
        rt: &R,
        registry: &Registry,
        key: usize,
        now: u64,
    ) {
        let gate = self.gate;
        self.end_slot(&Spot {
            rt,
            registry,
            gate,
            key,
            now,
        });
    }

    fn queues(&self) -> usize {
        self.queues
    }

    fn first_of<R: Wait>(&mut self, rt: &R, queue: usize) -> Option<usize> {
        self.exchanges.users().first_of(rt, queue)
    }

    fn bound(&self) -> usize {
        self.slots.count()
    }

    fn is_idle(&self) -> bool {
        self.exchanges.users().seats().is_empty()
    }

    /// None comes here: the administrator has a loop of its own.
    fn answer<R: Wait + Clock>(
        &mut self,
        _rt: &R,
        _request: Request,
        _now: u64,
    ) -> Result<Vec<u8>, AllocError> {
        b"bad\n".to_vec(self.alloc)
    }

    /// What it drives, each exchange under its key.
    fn show<R: Clock>(&self, rt: &R, question: Question, now: u64, sheet: &mut Sheet) {
        for key in 0..self.slots.count() {
            if let Some(exchange) = self.slots.get(key) {
                self.exchanges.show(rt, key, exchange, question, now, sheet);
            }
        }
    }

    fn patience(&self) -> Option<u64> {
        self.exchanges.users().patience()
    }

    fn turn_over<R: Wait>(&mut self, _rt: &R, now: u64) {
        let users = self.exchanges.users_mut();
        users.seats_mut().turn_over();
        users.turn_over(now);
    }

    fn drain(&mut self) {
        self.serving = Serving::Draining;
        self.exchanges.users_mut().drain();
    }

    fn halt<R: Wait + Dial + Clock>(&mut self, rt: &R, registry: &Registry, now: u64) {
        self.serving = Serving::Stopped;
        self.exchanges.users_mut().drain();
        for key in 0..self.slots.count() {
            let gate = self.gate;
            self.halt_slot(&Spot {
                rt,
                registry,
                gate,
                key,
                now,
            });
        }
    }
}
