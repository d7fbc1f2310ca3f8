//! What is known of a user, and of the connections of its exchange.

ghost use Rattle.std.specs.Prelude.{◌≡◌, ◌≢◌, ◌⊎◌, ◌-◌, ◌/◌, true, Some, IfSome};
ghost use Rattle.event_loop.specs.Sparing.{IsRank};
ghost use Rattle.shard_desk.specs.Sparing.{stay_of};

use crate::lines::{RegisteredLines, note_on};
use crate::seats::SECOND;
use crate::terms::AwaitedSince;
use event_loop::{Share, Spared, Stay, Told, UserPermit, spared_of};
use socket_wire::{Peer, Readiness};
use std::mem;
use std::net::Ipv4Addr;
use std::sync::Arc;
use trace_core::Point;

/// What a seat is for.
#[derive(Clone, Copy)]
pub enum Purpose {
    /// The requests of a user.
    Requests,
    /// The refusal of a user for whom there is no room.
    Refusal,
}

/// What is known of the connections of an exchange.
#[derive(Drop)]
pub(crate) struct Seat {
    pub(crate) purpose: Purpose,
    pub(crate) number: u64,
    /// The address that the user's connection comes from.
    pub(crate) from: Ipv4Addr,
    pub(crate) permit: UserPermit,
    /// When the user was taken in, in milliseconds.
    pub(crate) came: u64,
    pub(crate) moved: u64,
    pub(crate) stay: Stay,
    /// When the stay began, in the order of all stays.
    pub(crate) since: u64,
    /// When the message began to wait for a connection to its service.
    pub(crate) waits: Option<u64>,
    pub(crate) awaited: AwaitedSince,
    /// The point to whose service it has a connection.
    pub(crate) leases: Option<Point>,
    pub(crate) user: Option<Arc<Readiness>>,
    /// Whether an event has said that the user has ended its bytes, or that its connection is gone both ways.
    pub(crate) ended: bool,
    pub(crate) gone: bool,
    /// The lines of its connections to the origin and to a service.
    pub(crate) origin: Option<usize>,
    pub(crate) service: Option<usize>,
}

/// Since when a connection is awaited that nobody has taken yet.
fn awaited_since(
    lines: &RegisteredLines,
    line: Option<usize>,
    since: Option<u64>,
    now: u64,
) -> Option<u64> {
    let ready = lines.ready(line?)?;
    if ready.is_on_its_way() {
        Some(since.unwrap_or(now))
    } else {
        None
    }
}

impl Seat {
    ghost use Rattle.event_loop.specs.Shares.{has_none, is_over};
    ghost use Rattle.shard_desk.specs.Seats.{line_in};

    /// A seat for a user's connection of this number, from this address, at this moment, in milliseconds, whose stay is the one of this
    /// number.
    pub(crate) fn new(
        purpose: Purpose,
        number: u64,
        from: Ipv4Addr,
        permit: UserPermit,
        millis: u64,
        since: u64,
    ) -> Seat
        ensures { (result.purpose ≡ purpose) × (result.from ≡ from) × (result.moved ≡ millis / SECOND) }
    {
        Seat {
            purpose,
            number,
            from,
            permit,
            came: millis,
            moved: millis / SECOND,
            stay: match purpose {
                Purpose::Requests => Stay::Head,
                Purpose::Refusal => Stay::Exchange,
            },
            since,
            waits: None,
            awaited: AwaitedSince::nothing(),
            leases: None,
            user: None,
            ended: false,
            gone: false,
            origin: None,
            service: None,
        }
    }

    /// The user's connection comes from this address, and has this share of the connections of it.
    pub(crate) fn come_from(&mut self, from: Ipv4Addr, share: Share)
        ensures from { self.new.from ≡ from }
        ensures over { is_over self.new.permit ≡ has_none share }
        ensures kept { self.new.purpose ≡ self.old.purpose }
    {
        self.from = from;
        self.permit.have(share);
    }

    /// It is for the refusal of its user from now on.
    pub(crate) fn refuse(&mut self)
        ensures refused { self.new.purpose ≡ Purpose.Refusal }
        ensures kept { self.new.from ≡ self.old.from }
    {
        self.purpose = Purpose::Refusal;
        self.stay = Stay::Exchange;
    }

    /// How many bytes the user has taken.
    pub(crate) fn taken(&self) -> u64 {
        match &self.user {
            Some(ready) => ready.taken(),
            None => 0,
        }
    }

    /// Takes note of the connections that are awaited, of those which the exchange needs.
    pub(crate) fn await_connections(
        &mut self,
        lines: &RegisteredLines,
        now: u64,
        origin: bool,
        service: bool,
    ) {
        self.awaited.origin = if origin {
            awaited_since(lines, self.origin, self.awaited.origin, now)
        } else {
            None
        };
        self.awaited.service = if service {
            awaited_since(lines, self.service, self.awaited.service, now)
        } else {
            None
        };
    }

    /// It as one to be spared, if it may be, under this key at this moment, in milliseconds.
    pub(crate) fn spared(&self, key: usize, millis: u64, youth: u64) -> Option<Spared>
        ensures { IfSome result (λ spared. (spared.key ≡ key) × IsRank (stay_of self.now) (millis - self.now.came) youth spared.rank) }
    {
        let stay = if self.ended && self.purpose == Purpose::Requests {
            Stay::Ended
        } else {
            self.stay
        };
        let age = millis.saturating_sub(self.came);
        spared_of(key, stay, age, youth, self.since)
    }

    /// Takes note of an event of the user's connection. False if it says nothing new.
    pub(crate) fn note(&mut self, told: Told) -> bool
        ensures ended { self.new.ended ≡ true → (self.old.ended ≡ true) ⊎ (told.closed ≡ true) }
        ensures gone { self.new.gone ≡ true → (self.old.gone ≡ true) ⊎ (told.failed ≡ true) }
    {
        match &self.user {
            Some(ready) => {
                self.ended = self.ended || told.closed;
                self.gone = self.gone || told.failed;
                note_on(ready, told)
            }
            None => false,
        }
    }

    /// Its connection to this peer has another line, or none: what line it had. The user's connection has none.
    pub(crate) fn set_line(&mut self, peer: Peer, line: Option<usize>) -> Option<usize>
        ensures old { result ≡ line_in (Some self.old) peer }
        ensures new { peer ≢ Peer.User → line_in (Some self.new) peer ≡ line }
    {
        match peer {
            Peer::User => None,
            Peer::Origin => mem::replace(&mut self.origin, line),
            Peer::Service => mem::replace(&mut self.service, line),
        }
    }
}
