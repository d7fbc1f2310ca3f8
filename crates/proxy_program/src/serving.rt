//! `adaptproxy serve` over sockets.

use mio::net::TcpListener;
use proxy_commands::{
    Error, ServeError, Source, audit_line, error_of, has_room, read_source, read_whole, say,
};
use proxy_config::Config;
use shard_loop::{AdminPorts, Append, Reloads, Rules, Stopped, listen_beside, serve};
use socket_wire::Dial;
use std::alloc::Global;
use std::fs::File;
use std::io::{self, ErrorKind, Write};
use std::net::{self, Net, SocketAddr, SocketAddrV4};
use std::rt::Files;
use std::sync::{Arc, Wait};
use std::thread::Threads;
use std::time::Clock;
use wire_kit::OpenGate;

/// The error of an address that can't be listened on.
fn listen_fault(alloc: Global, address: SocketAddrV4) -> ServeError {
    match format!(in alloc; "{address}") {
        Ok(text) => ServeError::CannotListenOn(text),
        Err(_) => ServeError::Ended(Error::NoMemory),
    }
}

/// Listens on an address.
fn listen_on<R: Net>(
    rt: &R,
    alloc: Global,
    address: SocketAddrV4,
) -> Result<TcpListener, ServeError> {
    match TcpListener::bind(rt, SocketAddr::V4(address)) {
        Ok(listener) => Ok(listener),
        Err(_) => Err(listen_fault(alloc, address)),
    }
}

/// A port that was handed over, which has to be that of `listen`.
fn take_over(handed: net::TcpListener, listen: SocketAddr) -> io::Result<TcpListener> {
    if handed.local_addr()? != listen {
        return Err(io::Error::from(ErrorKind::AddrNotAvailable));
    }
    handed.set_nonblocking(true)?;
    Ok(TcpListener::from_std(handed))
}

/// Listens where users connect: at the port that was handed over if one was, else beside a proxy that this one takes the place of.
fn listen_for_users<R: Net>(
    rt: &R,
    alloc: Global,
    handed: Option<net::TcpListener>,
    address: SocketAddrV4,
) -> Result<TcpListener, ServeError> {
    let users = match handed {
        Some(handed) => take_over(handed, SocketAddr::V4(address)),
        None => listen_beside(rt, address),
    };
    match users {
        Ok(users) => Ok(users),
        Err(_) => Err(listen_fault(alloc, address)),
    }
}

/// Listens where the administrator connects, and where the counters are read, if that is wanted.
fn listen_for_administrator<R: Net>(
    rt: &R,
    alloc: Global,
    config: &Config,
) -> Result<AdminPorts, ServeError> {
    let admin = listen_on(rt, alloc, config.admin)?;
    let metrics = match config.metrics {
        Some(address) => Some(listen_on(rt, alloc, address)?),
        None => None,
    };
    Ok(AdminPorts { admin, metrics })
}

/// Listens where users and the administrator connect.
fn listen_for_all<R: Net>(
    rt: &R,
    alloc: Global,
    handed: Option<net::TcpListener>,
    config: &Config,
) -> Result<(TcpListener, AdminPorts), ServeError> {
    let users = listen_for_users(rt, alloc, handed, config.listen)?;
    let admin = listen_for_administrator(rt, alloc, config)?;
    Ok((users, admin))
}

/// Opens the file of the log, where one is kept. The key is at fault where that can't be.
fn open_log<R: Append>(rt: &R, alloc: Global, config: &Config) -> Result<Option<File>, ServeError> {
    let Some(path) = &config.log else {
        return Ok(None);
    };
    match rt.append(path.as_str()) {
        Ok(file) => Ok(Some(file)),
        Err(_) => Err(log_fault(alloc)),
    }
}

/// The error of a log whose file can't be opened.
fn log_fault(alloc: Global) -> ServeError {
    match String::from_str(alloc, "log") {
        Ok(key) => ServeError::Key(key),
        Err(_) => ServeError::Ended(Error::NoMemory),
    }
}

/// Says what was still out. `Err` where the proxy wasn't stopped, but failed.
fn say_end<O: Write>(alloc: Global, output: &mut O, stopped: Stopped) -> Result<(), ServeError> {
    let Ok(line) = audit_line(alloc, stopped.audit()) else {
        return Err(ServeError::Ended(Error::NoMemory));
    };
    say(output, line.as_slice())?;
    match stopped.fault() {
        Some(fault) => Err(error_of(fault)),
        None => Ok(()),
    }
}

/// The configuration of this text, with what its files say, where the machine has the memory for its pages.
fn fitting<R: Files + AllocGlobal>(
    rt: &R,
    alloc: Global,
    text: &[u8],
) -> Result<Arc<Config>, ServeError> {
    let config = match Arc::new(alloc, read_whole(rt, alloc, text)?) {
        Ok(config) => config,
        Err(failed) => {
            // Written as a call, the drop is proved once, and not at each place.
            drop(failed.value);
            return Err(ServeError::Ended(Error::NoMemory));
        }
    };
    if has_room(rt, &config) {
        Ok(config)
    } else {
        Err(ServeError::Ended(Error::NoMemory))
    }
}

/// What the proxy runs by, as its source says it now.
fn rules_of<R: Files + AllocGlobal>(
    rt: &R,
    alloc: Global,
    source: Source,
) -> Result<Rules, ServeError> {
    let text = read_source(rt, alloc, &source)?;
    let config = fitting(rt, alloc, &text)?;
    Ok(Rules { config, source })
}

/// Reads the configuration and its files, looks whether the machine has the memory for its pages, opens the log, listens, at the users'
/// port that was handed over if one was, touches the pages, says that it listens, serves until the administrator says `stop` or the system
/// fails a loop, and says what was still out.
pub fn serve_from<
    O: Write,
    R: Threads + Wait + Net + Dial + Append + Reloads + Clock + Files + AllocGlobal + Sync,
>(
    rt: &R,
    alloc: Global,
    handed: Option<net::TcpListener>,
    source: Result<Source, ServeError>,
    output: &mut O,
) -> Result<(), ServeError> {
    let rules = rules_of(rt, alloc, source?)?;
    let log = open_log(rt, alloc, &rules.config)?;
    let (users, admin) = listen_for_all(rt, alloc, handed, &rules.config)?;
    // Only tests hold transactions back.
    let gate: Option<&OpenGate> = None;
    match serve(rt, alloc, rules, users, admin, log, gate, output) {
        Ok(stopped) => say_end(alloc, output, stopped),
        Err(fault) => Err(error_of(fault)),
    }
}
