//! What a thread's users have in common, beside their exchanges.

ghost use Rattle.std.specs.Prelude.{◌≡◌};
ghost use Rattle.shard_desk.specs.declared.seats.Seats.{Seats as AnySeats};

use crate::hearing::Hearing;
use crate::seat::Purpose;
use crate::seats::Seats;
use mio::net::TcpStream;
use socket_wire::UserWire;
use std::sync::Wait;
use std::time::Clock;
use trace_core::Point;

/// Where the users of a thread sit: what is noted of them, and who of them waits for a connection to a service.
pub trait Seating {
    // the seats of the users
    ghost seats_of: { Self → AnySeats };

    fn seats(&self) -> &Seats
        ensures { result.now ≡ seats_of self.now };

    fn seats_mut(&mut self) -> &mut Seats;

    /// Whether each user's connection begins with a header that says where it comes from.
    fn has_headers(&self) -> bool;

    /// Reads the header of the connection under this key, if it is there, and takes note of where it comes from.
    fn hear_header<R: Wait>(
        &mut self,
        rt: &R,
        key: usize,
        now: u64,
        user: &mut UserWire,
    ) -> Hearing;

    /// A user comes to the seat of this key.
    fn enter(&mut self, key: usize, purpose: Purpose, stream: &TcpStream);

    /// The user under this key has left: the seat is free.
    fn leave<R: Wait + Clock>(&mut self, rt: &R, key: usize);

    /// The message under this key is over, if one was open: it is counted, and its line added to the log.
    fn report<R: Wait + Clock>(&mut self, rt: &R, key: usize);

    /// Closes idle connections to origins and services, where they keep the next user out, and says whether it has room then.
    /// `None` where they don't.
    fn close_idle<R: Wait>(&mut self, rt: &R) -> Option<bool>;

    /// How many milliseconds may pass before the next turn, while connections to origins lie idle. `None` where none does.
    fn patience(&self) -> Option<u64>;

    /// A turn of the loop is over: idle connections to origins that are of no use any more are closed.
    fn turn_over(&mut self, now: u64);

    /// No further user comes: no connection to an origin is kept from now on, and those that lie idle are closed.
    fn drain(&mut self);

    /// Whether users of other threads alone have ended their bytes: they are spared before one of this thread.
    fn has_ended_elsewhere(&self) -> bool;

    /// Whether no connection to the service of a point is free.
    fn lacks<R: Wait>(&self, rt: &R, point: Point) -> bool;

    /// Whether somebody waits for a connection to the service of a point, and none is free.
    fn awaits<R: Wait>(&self, rt: &R, point: Point) -> bool;

    /// How many queues there are for connections to services.
    fn queues(&self) -> usize;

    /// The key of the exchange that is first in a queue, where it is one of these. Else, where somebody waits in it, and no
    /// connection is free, that of one with a connection for it whose user has ended its bytes: it gives way.
    fn first_of<R: Wait>(&self, rt: &R, queue: usize) -> Option<usize>;
}
