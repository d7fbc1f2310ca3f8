//! The administrator's connections, and those that read the counters.

use crate::admin_lines::Request;
use crate::asker::{AdminInput, Asker, MAX_ASKERS, Speech};
use crate::listening::{Accepted, Listening};
use crate::work::Told;
use mio::net::TcpStream;
use mio::{Registry, Token};
use slab::Slab;
use socket_wire::{Caller, Readiness, SocketWire, Stream};
use std::alloc::Global;
use std::mem;
use std::sync::Arc;
use std::time::Duration;

/// The administrator, as the peer of a connection.
struct Administrator;

impl Caller for Administrator {}

/// An administrator's connection.
type AdminWire = SocketWire<Administrator>;

/// A connection, its readiness, and when it was heard last.
#[derive(Drop)]
struct Seat {
    ready: Arc<Readiness>,
    asker: Asker<AdminWire>,
    heard: u64,
}

impl Seat {
    /// What the connection says next, once what waits to be written to it is out of the way.
    fn hear(&mut self, turn: u64) -> AdminInput {
        if !self.asker.flush() {
            return AdminInput::Over;
        }
        if let Some(wire) = self.asker.said_all() {
            let _ = wire.finish();
        }
        match self.asker.hear() {
            Ok(heard) => {
                if !matches!(heard, AdminInput::Waiting) {
                    self.heard = turn;
                }
                heard
            }
            Err(_) => AdminInput::Over,
        }
    }
}

/// The connections to one port, each under its key, which is below `MAX_ASKERS`.
#[derive(Drop)]
pub(crate) struct Askers {
    /// Where they come from, if there is such a port, and what is spoken there.
    listening: Option<Listening>,
    speech: Speech,
    /// The number that the key 0 has among the tokens.
    first: usize,
    seats: Slab<Seat>,
    /// How often one of them was heard, or came.
    turns: u64,
    /// Whether one may have said more than was heard.
    behind: bool,
}

/// The token of a key: no connection of an exchange has it.
fn token_of(key: usize) -> Token {
    Token(key.wrapping_mul(4).wrapping_add(3))
}

/// Has a poll report a connection under this token. False where that can't be had.
fn is_heard(wire: &mut AdminWire, registry: &Registry, token: Token) -> bool {
    wire.hurry().is_ok() && wire.register(registry, token).is_ok()
}

impl Askers {
    /// None has come yet. The tokens of their keys begin with that of the number `first`.
    pub(crate) fn new(
        alloc: Global,
        listening: Option<Listening>,
        speech: Speech,
        first: usize,
    ) -> Askers {
        Askers {
            listening,
            speech,
            first,
            seats: Slab::new(alloc),
            turns: 0,
            behind: false,
        }
    }

    /// The next turn.
    fn next_turn(&mut self) -> u64 {
        self.turns = self.turns.saturating_add(1);
        self.turns
    }

    /// The connection of which nothing was heard for longest.
    fn most_silent(&self) -> Option<usize> {
        let mut silent = None;
        let mut since = u64::MAX;
        for key in 0..MAX_ASKERS {
            if let Some(seat) = self.seats.get(key)
                && seat.heard < since
            {
                silent = Some(key);
                since = seat.heard;
            }
        }
        silent
    }

    /// Frees a seat where all are taken: the most silent connection is closed.
    fn make_room(&mut self) {
        if self.seats.len() >= MAX_ASKERS
            && let Some(key) = self.most_silent()
        {
            self.leave(key);
        }
    }

    /// How long a loop may wait at most before it asks for connections that no event reports.
    pub(crate) fn patience(&self) -> Option<Duration> {
        match &self.listening {
            Some(listening) => listening.patience(),
            None => None,
        }
    }

    /// The next connection that waits.
    fn next(&mut self) -> Accepted {
        match &mut self.listening {
            Some(listening) => listening.accept(),
            None => Accepted::None,
        }
    }

    /// Takes in the connections that wait. Where all seats are taken, each takes that of the most silent one.
    pub(crate) fn accept(&mut self, alloc: Global, registry: &Registry) {
        for _ in 0..MAX_ASKERS {
            match self.next() {
                Accepted::One(stream, _) => self.take_in(alloc, stream, registry),
                Accepted::Gone => {}
                Accepted::None | Accepted::Rest => return,
            }
        }
        if let Some(listening) = &mut self.listening {
            listening.fall_behind();
        }
    }

    /// Takes in connections that no event reports.
    pub(crate) fn accept_more(&mut self, alloc: Global, registry: &Registry) {
        if let Some(listening) = &self.listening
            && listening.may_have_more()
        {
            self.accept(alloc, registry);
        }
    }

    /// Takes in a connection. One for which no memory is found is closed.
    fn take_in(&mut self, alloc: Global, stream: TcpStream, registry: &Registry) {
        self.make_room();
        if let Ok(ready) = Arc::new(alloc, Readiness::new())
            && let Ok(told) = ready.clone()
        {
            let wire = SocketWire::new(Stream::accepted(stream), told);
            self.seat(alloc, wire, ready, registry);
        }
    }

    /// Gives a connection a seat, if one is free. It is closed where no memory was found, or its events can't be had.
    fn seat(&mut self, alloc: Global, wire: AdminWire, ready: Arc<Readiness>, registry: &Registry) {
        let mut wire = wire;
        let heard = self.next_turn();
        let key = self.seats.vacant_key();
        let token = token_of(self.first.saturating_add(key));
        if self.seats.reserve(1).is_ok()
            && key < MAX_ASKERS
            && is_heard(&mut wire, registry, token)
        {
            let asker = Asker::new(alloc, wire, self.speech);
            let _ = self.seats.insert_reserved(Seat {
                ready,
                asker,
                heard,
            });
        }
    }

    /// Takes note of an event of a connection: it may have said more than was heard.
    pub(crate) fn note(&mut self, key: usize, told: Told) {
        if let Some(seat) = self.seats.get_mut(key) {
            let _ = seat.ready.note(told.readable, told.writable, told.closed);
            self.behind = true;
        }
    }

    /// What a connection asks for next. One that asked for something may have said more, which no event reports. A connection that is
    /// over loses its seat; so does one whose line is too long or of HTTP, which is answered as bad.
    pub(crate) fn hear(&mut self, key: usize) -> Option<Request> {
        let turn = self.next_turn();
        let heard = self.seats.get_mut(key)?.hear(turn);
        match heard {
            AdminInput::Asked(request) => {
                self.behind = true;
                Some(request)
            }
            AdminInput::Refused => {
                self.behind = true;
                None
            }
            AdminInput::Waiting => None,
            AdminInput::TooLong | AdminInput::Http => {
                self.say(key, b"bad\n");
                self.leave(key);
                None
            }
            AdminInput::Over => {
                self.leave(key);
                None
            }
        }
    }

    /// Whether a connection may have said more than was heard.
    pub(crate) fn are_behind(&self) -> bool {
        self.behind
    }

    /// Whether a connection may have said more than was heard; that is forgotten, since they are heard next.
    pub(crate) fn catch_up(&mut self) -> bool {
        mem::replace(&mut self.behind, false)
    }

    /// Says an answer. A connection that can't take it loses its seat.
    pub(crate) fn say(&mut self, key: usize, answer: &[u8]) {
        let said = match self.seats.get_mut(key) {
            Some(seat) => match seat.asker.say(answer) {
                Ok(said) => said,
                Err(_) => false,
            },
            None => true,
        };
        if !said {
            self.leave(key);
        }
    }

    /// Closes a connection.
    pub(crate) fn leave(&mut self, key: usize) {
        let _ = self.seats.try_remove(key);
    }
}
