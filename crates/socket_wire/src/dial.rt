//! Opening connections from a thread that was handed only what it may do.

ghost use Rattle.std.specs.Prelude.{◌≡◌, Some, IfOk};

use crate::role::Called;
use crate::stream::Stream;
use mio::net::TcpStream;
use std::io;
use std::net::{SocketAddr, SocketAddrV4};

/// Opens connections. The system's runtime does; a test may count or refuse them.
pub trait Dial {
    /// A connection to the address, which may still be on its way: if it is refused, its first read or write fails.
    fn dial<R: Called>(&self, address: SocketAddrV4) -> io::Result<Stream<R>>
        ensures { IfOk result (λ stream. stream.to ≡ Some address) };

    /// A connection to the address that is dialled at its first write. Until then it is a socket.
    fn dial_late<R: Called>(&self, address: SocketAddrV4) -> io::Result<Stream<R>>
        ensures { IfOk result (λ stream. stream.to ≡ Some address) };
}

impl Dial for HostRuntime {
    fn dial<R: Called>(&self, address: SocketAddrV4) -> io::Result<Stream<R>> {
        match TcpStream::connect(self, SocketAddr::V4(address)) {
            Ok(inner) => Ok(Stream::dialled(inner, address)),
            Err(error) => Err(error),
        }
    }

    fn dial_late<R: Called>(&self, address: SocketAddrV4) -> io::Result<Stream<R>> {
        Stream::late(address)
    }
}
