//! Listeners on the loopback, and where they are.

use mio::net::TcpListener;
use std::io;
use std::net::{Ipv4Addr, SocketAddr};

/// Where users and the administrator connect.
#[derive(Clone, Copy)]
pub struct LoopbackPorts {
    pub users: SocketAddr,
    pub admin: SocketAddr,
}

/// Any port of the loopback.
pub fn local() -> SocketAddr {
    SocketAddr::from((Ipv4Addr::LOCALHOST, 0))
}

/// A listener for users and one for the administrator, and where they are.
pub fn listeners(rt: &HostRuntime) -> io::Result<((TcpListener, TcpListener), LoopbackPorts)> {
    let users = TcpListener::bind(rt, local())?;
    let admin = TcpListener::bind(rt, local())?;
    let ports = LoopbackPorts {
        users: users.local_addr()?,
        admin: admin.local_addr()?,
    };
    Ok(((users, admin), ports))
}
