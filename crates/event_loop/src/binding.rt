//! A port that a further process may listen on beside this one, as where a program takes the place of another (socket(7), SO_REUSEPORT).

ghost use Rattle.std.specs.Prelude.{◌≡◌};

use libc::net as c;
use mio::net::TcpListener;
use os::{FromRawFd, errno};
use std::io;
use std::net::{self, Net, SocketAddrV4};
use std::os::fd::{AsRawFd, OwnedFd};

/// The most connections that may wait to be accepted: the system cuts it to its own limit.
const BACKLOG: i32 = i32::MAX;

/// How many bytes of an address the system reads.
const ADDRESS: u32 = 16;

/// An address as the system reads it (ip(7)).
fn raw_address(address: SocketAddrV4) -> [u8; c::_SS_SIZE] {
    let mut raw = [0u8; c::_SS_SIZE];
    raw[..2].copy_from_slice(&(c::AF_INET as u16).to_ne_bytes());
    raw[2..4].copy_from_slice(&address.port().to_be_bytes());
    raw[4..8].copy_from_slice(&address.ip().octets());
    raw
}

/// The error of the call that has just answered this, if it failed.
fn check(answer: i32) -> io::Result<()> {
    if answer < 0 {
        Err(io::Error::from_raw_os_error(errno()))
    } else {
        Ok(())
    }
}

/// Listens on an address, on which others of the same user may listen too: the system shares out the connections among them.
pub fn listen_beside<R: Net>(_net: &R, address: SocketAddrV4) -> io::Result<TcpListener> {
    let kind = c::SOCK_STREAM | c::SOCK_NONBLOCK | c::SOCK_CLOEXEC;
    let fd = unsafe { c::socket(c::AF_INET, kind, 0) };
    if fd < 0 {
        return Err(io::Error::from_raw_os_error(errno()));
    }
    let socket = unsafe { OwnedFd::from_raw_fd(fd) };
    let fd = socket.as_raw_fd();
    let mut on = [0u8; 16];
    on[..4].copy_from_slice(&1i32.to_ne_bytes());
    check(unsafe { c::setsockopt(fd, c::SOL_SOCKET, c::SO_REUSEADDR, &on, 4) })?;
    check(unsafe { c::setsockopt(fd, c::SOL_SOCKET, c::SO_REUSEPORT, &on, 4) })?;
    check(unsafe { c::bind(fd, &raw_address(address), ADDRESS) })?;
    check(c::listen(fd, BACKLOG))?;
    Ok(TcpListener::from_std(net::TcpListener::from(socket)))
}
