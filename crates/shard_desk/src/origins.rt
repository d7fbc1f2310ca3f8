//! Connections to origins over sockets that lie idle with their thread: how they are laid down, and taken again.

ghost use Rattle.std.specs.Prelude.{◌≡◌, ⊤, true, false, Some, IfSome};
ghost use Rattle.shard_desk.specs.Kept.{HasWire, LaysWire, TakesWire};
ghost use Rattle.shard_desk.specs.Lines.{IsNotPolled};
ghost use Rattle.shard_desk.specs.Seats.{heard_of};

use crate::kept::{Heard, IdleConnections, Moment, Rests};
use crate::lines::{IdleLine, SinceLaid};
use crate::seats::Seats;
use event_loop::{IdlePermit, Room};
use socket_wire::{OriginWire, Peer, Unread};
use std::net::SocketAddrV4;
use std::sync::Arc;

/// A connection to an origin that lies idle, with its line, its permit among the descriptors, and the moment since which it does, in seconds.
///
/// Only its own thread lets it go, which polls no more before its descriptor is closed and its line is free.
#[derive(Drop)]
pub struct KeptOrigin {
    pub wire: OriginWire,
    pub line: IdleLine,
    pub permit: IdlePermit,
    pub since: u64,
}

impl Rests for KeptOrigin {
    ghost place = { λ idle. idle.wire.stream.to };

    ghost since = { λ idle. idle.since };

    // what was heard on a socket is what its poll and the system answer
    ghost quiet = { λ idle. ⊤ };

    ghost loud = { λ idle. ⊤ };

    // nobody knows it before a poll after it was laid down has reported all
    ghost unsure = { λ turn idle. IsNotPolled turn idle.line };

    fn address(&self) -> Option<SocketAddrV4> {
        self.wire.address()
    }

    fn since(&self) -> u64 {
        self.since
    }

    fn heard(&self, turn: u64) -> Heard {
        match self.line.since_laid(turn) {
            SinceLaid::Nothing => Heard::Nothing,
            SinceLaid::Something => Heard::Something,
            SinceLaid::NotPolled => Heard::NotYet,
        }
    }

    fn is_quiet(&self) -> bool {
        self.wire.unread() == Unread::Nothing
    }
}

/// Connections to origins that lie idle with a thread.
pub(crate) type KeptOrigins = IdleConnections<KeptOrigin>;

/// Whether nothing was left to be read on a connection, and the origin hasn't ended it. The system is asked only where the last read didn't
/// find that out.
fn is_read_out(wire: &OriginWire) -> bool {
    wire.is_read_out() || wire.unread() == Unread::Nothing
}

/// The origin's connection of the exchange under this key, as one that lies idle since this moment. `None` where something lies unread on it,
/// or the origin has ended it, or there is no permit for it: then it is closed.
fn rest(
    seats: &mut Seats,
    key: usize,
    room: &Arc<Room>,
    used: OriginWire,
    now: u64,
) -> Option<KeptOrigin>
    ensures { IfSome result (λ idle. (idle.wire ≡ used) × (idle.since ≡ now)) }
{
    if !is_read_out(&used) {
        return None;
    }
    let permit = Room::keep(room)?;
    let line = seats.dismiss(key, Peer::Origin)?;
    Some(KeptOrigin {
        wire: used,
        line,
        permit,
        since: now,
    })
}

/// Lays the origin's connection of an exchange down, and says whether it lies there.
pub(crate) fn lay_origin(
    kept: &mut KeptOrigins,
    seats: &mut Seats,
    key: usize,
    room: &Arc<Room>,
    used: OriginWire,
    now: u64,
) -> bool
    ensures laid { result ≡ true → LaysWire (λ idle. idle.wire) (λ idle. idle.since) kept.old.most kept.old.all.items kept.new.all.items used now }
    ensures same { result ≡ false → kept.new.all.items ≡ kept.old.all.items }
    ensures most { kept.new.most ≡ kept.old.most }
{
    match rest(seats, key, room, used, now) {
        Some(idle) => kept.lay(idle),
        None => false,
    }
}

/// Takes the youngest connection to this address that is fit for use, for the exchange under this key.
pub(crate) fn take_origin(
    kept: &mut KeptOrigins,
    seats: &mut Seats,
    key: usize,
    address: SocketAddrV4,
    now: u64,
    seconds: u64,
) -> Option<OriginWire>
    ensures leads { IfSome result (λ wire. wire.stream.to ≡ Some address) }
    ensures kept { IfSome result (HasWire (λ idle. idle.wire) kept.old.all.items) }
    ensures taken { TakesWire (λ idle. idle.wire) (λ idle. idle.wire.stream.to ≡ Some address) (λ idle. idle.since)
        (λ idle. IsNotPolled (heard_of seats.old) idle.line) now seconds kept.old.all.items kept.new.all.items result }
    ensures most { kept.new.most ≡ kept.old.most }
{
    let at = Moment {
        now,
        turn: seats.heard_at(),
    };
    let KeptOrigin {
        wire,
        line,
        permit: _,
        since: _,
    } = kept.take(address, at, seconds)?;
    seats.seize(key, Peer::Origin, line);
    Some(wire)
}
