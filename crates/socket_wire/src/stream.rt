//! Connections of the system's, by whom they lead to.

ghost use Rattle.std.specs.Prelude.{◌≡◌, ⊤, None, Some, IfOk};

use crate::calls::Calls;
use crate::role::{Called, Caller};
use libc::net::{_SS_SIZE, AF_INET, SOCK_CLOEXEC, SOCK_NONBLOCK, SOCK_STREAM, connect, socket};
use mio::net::TcpStream;
use os::{FromRawFd, errno};
use std::io::{self, Read, Write};
use std::marker::PhantomData;
use std::net::{Shutdown, SocketAddrV4};
use std::os::fd::AsRawFd;

/// How many bytes of an address the system reads.
const ADDRESS: u32 = 16;

/// What the system answers where a connection is on its way.
const EINPROGRESS: i32 = 115;

/// An address as the system reads it: the family, the port with its high byte first, and the four bytes of the host (ip(7)).
fn address_bytes(address: SocketAddrV4) -> [u8; _SS_SIZE] {
    let mut bytes = [0u8; _SS_SIZE];
    bytes[..2].copy_from_slice(&(AF_INET as u16).to_ne_bytes());
    bytes[2..4].copy_from_slice(&address.port().to_be_bytes());
    bytes[4..8].copy_from_slice(&address.ip().octets());
    bytes
}

/// Connects a socket to an address. False where that fails at once; the connection may still be on its way.
fn connect_to(stream: &TcpStream, address: SocketAddrV4) -> bool {
    let bytes = address_bytes(address);
    let status = unsafe { connect(stream.as_raw_fd(), &bytes, ADDRESS) };
    status >= 0 || errno() == EINPROGRESS
}

/// A connection that never blocks, to a peer of the role `R`. One to a peer that dials the proxy was accepted. One to a peer that the
/// proxy dials knows the address that it leads to.
///
/// A stream to a peer of one role is another type than one to a peer of another role, and nothing makes the one of the other.
#[derive(Drop)]
pub struct Stream<R> {
    pub(crate) inner: TcpStream,
    /// The address that is dialled. None where the peer dialled.
    to: Option<SocketAddrV4>,
    /// Whether it is still to be dialled.
    is_late: bool,
    role: PhantomData<R>,
}

impl<R> Stream<R> {
    /// The address that it was dialled to, or will be; none where the peer dialled.
    pub fn address(&self) -> Option<SocketAddrV4>
        ensures { result ≡ self.now.to }
    {
        self.to
    }

    /// Resets the connection (connect(2): an address of no family dissolves a connection).
    pub(crate) fn cut(&self) {
        let nowhere = [0u8; _SS_SIZE];
        let _ = unsafe { connect(self.inner.as_raw_fd(), &nowhere, ADDRESS) };
    }
}

impl<R: Caller> Stream<R> {
    /// A connection that was accepted from a peer of this role.
    pub fn accepted(inner: TcpStream) -> Stream<R>
        ensures { result.to ≡ None }
    {
        Stream {
            inner,
            to: None,
            is_late: false,
            role: PhantomData,
        }
    }
}

impl<R: Called> Stream<R> {
    /// A connection that was dialled to this address.
    pub(crate) fn dialled(inner: TcpStream, address: SocketAddrV4) -> Stream<R>
        ensures { result.to ≡ Some address }
    {
        Stream {
            inner,
            to: Some(address),
            is_late: false,
            role: PhantomData,
        }
    }

    /// The socket of a connection over IPv4 that is dialled to this address at its first write.
    pub(crate) fn late(address: SocketAddrV4) -> io::Result<Stream<R>>
        ensures { IfOk result (λ stream. stream.to ≡ Some address) }
    {
        let kind = SOCK_STREAM | SOCK_NONBLOCK | SOCK_CLOEXEC;
        let fd = unsafe { socket(AF_INET, kind, 0) };
        if fd < 0 {
            return Err(io::Error::from_raw_os_error(errno()));
        }
        Ok(Stream {
            inner: unsafe { TcpStream::from_raw_fd(fd) },
            to: Some(address),
            is_late: true,
            role: PhantomData,
        })
    }
}

impl<R> Calls for Stream<R> {
    ghost calls = { λ stream p. ⊤ };

    fn ask(&mut self, buf: &mut [u8]) -> io::Result<usize> {
        self.inner.read(buf)
    }

    fn offer(&mut self, bytes: &[u8]) -> io::Result<usize> {
        self.inner.write(bytes)
    }

    fn is_late(&self) -> bool {
        self.is_late
    }

    fn connect(&mut self) -> bool {
        self.is_late = false;
        match self.to {
            Some(address) => connect_to(&self.inner, address),
            None => true,
        }
    }

    fn give_up(&mut self) {
        let _ = self.inner.shutdown(Shutdown::Both);
    }

    fn hurry(&self) -> io::Result<()> {
        self.inner.set_nodelay(true)
    }
}
