//! How a connection to a peer is opened over a socket.

ghost use Rattle.std.specs.Prelude.{◌≡◌, Some, Ok, IfOk, IfErr};
ghost use Rattle.service_pool.specs.Lending.{IsOwn};

use crate::seats::Seats;
use mio::Registry;
use service_pool::LendFault;
use socket_wire::{Called, Dial, Readiness, Role, SocketWire, Stream};
use std::io;
use std::net::SocketAddrV4;

/// What the system answers where it has no room for a further connection: no port, no memory, or no descriptor, of the
/// process or of the machine.
const EAGAIN: i32 = 11;

const ENOMEM: i32 = 12;

const ENFILE: i32 = 23;

const EMFILE: i32 = 24;

const EADDRNOTAVAIL: i32 = 99;

const ENOBUFS: i32 = 105;

/// Whether an error says that the system has no room.
fn is_want_of_room(error: &io::Error) -> bool {
    matches!(
        error.raw_os_error(),
        Some(EAGAIN | ENOMEM | ENFILE | EMFILE | EADDRNOTAVAIL | ENOBUFS)
    )
}

/// A wire over a new socket, for the exchange under this key. Want of memory, of a descriptor or of a port is another answer than a host
/// that can't be reached. The fault is its own: neither `Busy` nor `Paused`.
fn wire_of<P: Role>(
    seats: &mut Seats,
    registry: &Registry,
    key: usize,
    ready: Readiness,
    opened: io::Result<Stream<P>>,
) -> Result<SocketWire<P>, LendFault>
    ensures own { IfErr result IsOwn }
    ensures stream { IfOk result (λ wire. opened ≡ Ok wire.stream) }
{
    match opened {
        Ok(stream) => match seats.wire(registry, key, ready, stream) {
            Ok(wire) => Ok(wire),
            Err(_) => Err(LendFault::NoMemory),
        },
        Err(error) if is_want_of_room(&error) => Err(LendFault::NoMemory),
        Err(_) => Err(LendFault::Unreached),
    }
}

/// A connection that is opened now, to a peer of the role `P` at this address, for the exchange under this key. The faults are as above.
pub(crate) fn dial<P: Role + Called, R: Dial>(
    rt: &R,
    seats: &mut Seats,
    registry: &Registry,
    key: usize,
    address: SocketAddrV4,
) -> Result<SocketWire<P>, LendFault>
    ensures own { IfErr result IsOwn }
    ensures leads { IfOk result (λ wire. wire.stream.to ≡ Some address) }
{
    let opened = rt.dial(address);
    wire_of(seats, registry, key, Readiness::dialled(), opened)
}

/// A connection that is opened at its first write. The faults are as above.
pub(crate) fn dial_late<P: Role + Called, R: Dial>(
    rt: &R,
    seats: &mut Seats,
    registry: &Registry,
    key: usize,
    address: SocketAddrV4,
) -> Result<SocketWire<P>, LendFault>
    ensures { IfOk result (λ wire. wire.stream.to ≡ Some address) }
{
    let opened = rt.dial_late(address);
    wire_of(seats, registry, key, Readiness::undialled(), opened)
}
