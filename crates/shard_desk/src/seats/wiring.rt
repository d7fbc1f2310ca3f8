//! Which connections the poll of a thread reports, and whose they are.

ghost use Rattle.std.specs.Prelude.{◌≡◌, None, IfSome, IfOk, IfErr};

use crate::lines::IdleLine;
use crate::seat::Purpose;
use crate::seats::Seats;
use event_loop::Told;
use mio::{Registry, Token};
use socket_wire::{MAX_KEY, Peer, Readiness, Role, SocketWire, Stream, token_of};
use std::sync::Arc;

impl Seats {
    ghost use Rattle.shard_desk.specs.Lines.{IsOf};
    ghost use Rattle.shard_desk.specs.Seats.{Has, IsLaid, line_of};

    /// Takes note of an event of the connection that is reported under this number and peer. The key of the exchange for which it is news;
    /// none where it says nothing new, or no exchange has that connection.
    pub fn note(&mut self, number: usize, peer: Peer, told: Told) -> Option<usize>
        ensures { IfSome result (λ key. Has self.old number peer key) }
    {
        match peer {
            Peer::User if self.note_user(number, told) => Some(number),
            Peer::User => None,
            Peer::Origin | Peer::Service => self.lines.note(number, told),
        }
    }

    /// Takes note of an event of a user's connection. False if it says nothing new.
    fn note_user(&mut self, key: usize, told: Told) -> bool {
        let Some(seat) = self.all.get_mut(key) else {
            return false;
        };
        let had_ended = seat.ended;
        let is_news = seat.note(told);
        if !had_ended && seat.ended && seat.purpose == Purpose::Requests {
            self.end(key);
        }
        is_news
    }

    /// A line is free, if it is one.
    pub(super) fn free(&mut self, line: Option<usize>) {
        if let Some(number) = line {
            self.lines.free(number);
        }
    }

    /// The exchange under this key has no line to this peer any more. What line it had.
    fn take_line(&mut self, key: usize, peer: Peer) -> Option<usize>
        ensures line { result ≡ line_of self.old key peer }
        ensures none { line_of self.new key peer ≡ None }
        ensures rest { self.new ≡ record self.old { all = self.new.all } }
    {
        self.all.get_mut(key)?.set_line(peer, None)
    }

    /// The exchange under this key has this line to this peer, and none before.
    fn give_line(&mut self, key: usize, peer: Peer, number: usize)
        ensures { self.new ≡ record self.old { all = self.new.all } }
    {
        if let Some(seat) = self.all.get_mut(key) {
            let _ = seat.set_line(peer, Some(number));
        }
    }

    /// The line of the connection to this peer that the exchange under this key had, if it had one, is free.
    fn free_line(&mut self, key: usize, peer: Peer) {
        let line = self.take_line(key, peer);
        self.free(line);
    }

    /// A wire over a stream to a peer of the role `P`, which the poll reports. The stream comes back if the system refuses, or no
    /// memory was found.
    pub fn wire<P: Role>(
        &mut self,
        registry: &Registry,
        key: usize,
        ready: Readiness,
        stream: Stream<P>,
    ) -> Result<SocketWire<P>, Stream<P>>
        ensures { IfOk result (λ wire. wire.stream ≡ stream) }
    {
        let Ok(ready) = Arc::new(self.alloc, ready) else {
            return Err(stream);
        };
        let Ok(told) = Arc::clone(&ready) else {
            return Err(stream);
        };
        let wire = SocketWire::new(stream, ready);
        match self.report(registry, key, wire, told) {
            Ok(wire) => Ok(wire),
            Err(wire) => Err(wire.into_stream()),
        }
    }

    /// Has the poll report a wire that lay idle with another thread, out of whose poll it was taken: the line that it had there is free.
    /// It comes back if the system refuses, or no memory was found.
    pub fn enlist<P: Role>(
        &mut self,
        registry: &Registry,
        key: usize,
        wire: SocketWire<P>,
        idle: IdleLine,
    ) -> Result<SocketWire<P>, SocketWire<P>>
        ensures ok { IfOk result (λ enlisted. enlisted ≡ wire) }
        ensures err { IfErr result (λ refused. refused ≡ wire) }
    {
        self.report(registry, key, wire, idle.leave())
    }

    /// Has the poll report a wire. It comes back if the system refuses, or no memory was found.
    fn report<P: Role>(
        &mut self,
        registry: &Registry,
        key: usize,
        wire: SocketWire<P>,
        ready: Arc<Readiness>,
    ) -> Result<SocketWire<P>, SocketWire<P>>
        ensures ok { IfOk result (λ enlisted. enlisted ≡ wire) }
        ensures err { IfErr result (λ refused. refused ≡ wire) }
    {
        let Some(number) = self.place(key, P::PEER, ready) else {
            return Err(wire);
        };
        let mut wire = wire;
        if number > MAX_KEY
            || wire
                .register(registry, Token(token_of(number, P::PEER)))
                .is_err()
        {
            self.free_line(key, P::PEER);
            return Err(wire);
        }
        Ok(wire)
    }

    /// Keeps the readiness of a connection, in place of that of another one, and says under which number it is reported. `None` if there
    /// is no such seat, or no memory was found.
    fn place(&mut self, key: usize, peer: Peer, ready: Arc<Readiness>) -> Option<usize>
        ensures { IfSome result (λ number. Has self.new number peer key) }
    {
        if peer == Peer::User {
            self.all.get_mut(key)?.user = Some(ready);
            return Some(key);
        }
        self.free_line(key, peer);
        if !self.all.contains(key) {
            return None;
        }
        let number = self.lines.add(ready, key)?;
        self.give_line(key, peer, number);
        Some(number)
    }

    /// The line of the exchange's connection to this peer lies idle from now on, and the exchange has none. Nothing was left to be read on
    /// the connection. `None` if it has none, or no count of its holders is left: then it is free, and the connection is to be closed.
    pub fn dismiss(&mut self, key: usize, peer: Peer) -> Option<IdleLine>
        ensures idle { IfSome result (λ idle. IsLaid self.old self.new key peer idle) }
    {
        let number = self.take_line(key, peer)?;
        let idle = self.lines.lay_idle(number, self.turn);
        if idle.is_none() {
            self.lines.free(number);
        }
        idle
    }

    /// The exchange under this key has the connection to this peer whose line lay idle with this thread. The system isn't asked.
    pub fn seize(&mut self, key: usize, peer: Peer, idle: IdleLine)
        ensures { IsOf self.new.lines idle.number key }
    {
        self.free_line(key, peer);
        let number = self.lines.hand(idle, key);
        self.give_line(key, peer, number);
    }
}
