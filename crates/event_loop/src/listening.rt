//! Accepting connections.

use mio::net::{TcpListener, TcpStream};
use mio::{Interest, Registry, Token};
use std::io::{self, ErrorKind};
use std::net::SocketAddr;
use std::time::Duration;

/// What the system answers if it has no room for a connection, whoever it comes from: no memory, or no descriptor, of the
/// process or of the machine.
const ENOMEM: i32 = 12;

const ENFILE: i32 = 23;

const EMFILE: i32 = 24;

const ENOBUFS: i32 = 105;

/// How long a loop waits after the system refused a connection, in milliseconds.
const REST: u64 = 20;

/// What asking for a connection gave.
#[derive(Drop)]
pub enum Accepted {
    /// A connection, and where it comes from.
    One(TcpStream, SocketAddr),
    /// One that was gone before it was taken, or that was closed since no user may come from there: the next may be there.
    Gone,
    /// No connection waits.
    None,
    /// The system refuses for now, as when all descriptors are in use: the connection waits, and has to be asked for
    /// again a little later, since no event reports it twice.
    Rest,
}

/// What a listener waits for, beside an event.
#[derive(Clone, Copy)]
enum Pause {
    /// Nothing.
    None,
    /// Its turn: more connections may wait than were asked for.
    Turn,
    /// The system, which refused.
    System,
}

/// A listener, and what it waits for.
#[derive(Drop)]
pub struct Listening {
    listener: TcpListener,
    pause: Pause,
}

/// Whether an error says that the system has no room.
fn is_want_of_room(error: &io::Error) -> bool {
    matches!(
        error.raw_os_error(),
        Some(ENOMEM | ENFILE | EMFILE | ENOBUFS)
    )
}

impl Listening {
    /// A listener that a poll reports under this token.
    pub fn new(listener: TcpListener, registry: &Registry, token: Token) -> io::Result<Listening> {
        let mut listener = listener;
        registry.register(&mut listener, token, Interest::READABLE)?;
        Ok(Listening {
            listener,
            pause: Pause::None,
        })
    }

    /// Whether the system refused, so that connections may wait that no event reports.
    pub fn rests(&self) -> bool {
        self.pause == Pause::System
    }

    /// Whether more connections may wait than were asked for.
    pub fn is_behind(&self) -> bool {
        self.pause == Pause::Turn
    }

    /// Whether connections may wait that no event reports.
    pub fn may_have_more(&self) -> bool {
        self.pause != Pause::None
    }

    /// How long a loop may wait at most before it asks for connections that no event reports.
    pub fn patience(&self) -> Option<Duration> {
        match self.pause {
            Pause::None => None,
            Pause::Turn => Some(Duration::from_millis(0)),
            Pause::System => Some(Duration::from_millis(REST)),
        }
    }

    /// Has the loop ask again at its next turn.
    pub fn fall_behind(&mut self) {
        self.pause = Pause::Turn;
    }

    /// Has the loop ask again a little later.
    pub fn rest(&mut self) {
        self.pause = Pause::System;
    }

    /// Asks for the next connection.
    pub fn accept(&mut self) -> Accepted {
        self.pause = Pause::None;
        match self.listener.accept() {
            Ok((stream, from)) => Accepted::One(stream, from),
            Err(error) if error.kind() == ErrorKind::WouldBlock => Accepted::None,
            Err(error) if is_want_of_room(&error) => {
                self.rest();
                Accepted::Rest
            }
            Err(_) => Accepted::Gone,
        }
    }
}
