//! A connection to a service, and the poll that reports it.

use crate::tap::Tap;
use mio::{Events, Poll, Token};
use proxy_config::Config;
use socket_wire::{Dial, Readiness, Service, ServiceWire, SocketWire, Unread};
use std::alloc::Global;
use std::boxed::Box;
use std::io::{self, ErrorKind};
use std::net::{Net, SocketAddrV4};
use std::sync::Arc;
use std::time::{Clock, Duration, Instant};

/// How many milliseconds a wait has at most before the clock is read again.
const PAUSE: u64 = 200;

/// What reports a connection.
#[derive(Drop)]
pub struct ProbeLine {
    poll: Poll,
    events: Events,
    ready: Arc<Readiness>,
}

impl ProbeLine {
    /// What reports a connection that is dialled now.
    fn new<R: Net>(rt: &R, alloc: Global) -> io::Result<ProbeLine> {
        let ready = Arc::new(alloc, Readiness::dialled())?;
        Ok(ProbeLine {
            poll: Poll::new(rt)?,
            events: Events::with_capacity(alloc, 4)?,
            ready,
        })
    }

    /// Waits for news of the connection, for a while.
    pub fn wait(&mut self) -> io::Result<()> {
        self.wait_for(Duration::from_millis(PAUSE))
    }

    /// Waits for news of the connection, for a while. False where so many seconds have passed since a moment: then it doesn't wait.
    pub fn wait_within<R: Clock>(
        &mut self,
        rt: &R,
        since: Instant,
        seconds: u64,
    ) -> io::Result<bool> {
        if since.elapsed(rt)?.as_secs() >= seconds {
            return Ok(false);
        }
        self.wait()?;
        Ok(true)
    }

    /// Waits for news of the connection for so long, and notes them.
    fn wait_for(&mut self, most: Duration) -> io::Result<()> {
        match self.poll.poll(&mut self.events, Some(most)) {
            Ok(()) => {}
            Err(error) if error.kind() == ErrorKind::Interrupted => return Ok(()),
            Err(error) => return Err(error),
        }
        for event in self.events.iter() {
            let closed = event.is_read_closed() || event.is_error();
            self.ready
                .note(event.is_readable(), event.is_writable(), closed);
            if event.is_write_closed() || event.is_error() {
                self.ready.fail();
            }
        }
        Ok(())
    }

    /// Waits until the other side has taken the connection, for so many seconds since a start.
    fn arrive<R: Clock>(&mut self, rt: &R, start: Instant, seconds: u64) -> io::Result<()> {
        for _ in 0..u64::MAX {
            if self.ready.has_failed() {
                return Err(io::Error::from(ErrorKind::ConnectionRefused));
            }
            if !self.ready.is_on_its_way() {
                return Ok(());
            }
            if !self.wait_within(rt, start, seconds)? {
                break;
            }
        }
        Err(io::Error::from(ErrorKind::TimedOut))
    }

    /// What lies unread on the connection, as far as it came by now.
    pub fn unread(&mut self, wire: &ServiceWire) -> Unread {
        if self.wait_for(Duration::from_millis(0)).is_err() {
            return Unread::End;
        }
        wire.unread()
    }

    /// A connection to an address, which may still be on its way.
    fn dial<R: Dial>(&self, rt: &R, address: SocketAddrV4) -> io::Result<ServiceWire> {
        let ready = self.ready.clone()?;
        let stream = rt.dial::<Service>(address)?;
        let mut wire: ServiceWire = SocketWire::new(stream, ready);
        wire.register(self.poll.registry(), Token(0))?;
        Ok(wire)
    }
}

/// A connection that may carry a request.
#[derive(Drop)]
pub struct ProbedConnection {
    pub line: ProbeLine,
    /// None while a transaction has it.
    pub wire: Option<Tap<ServiceWire>>,
}

impl ProbedConnection {
    /// Whether it may carry a request: nothing came on it since its last answer.
    pub fn is_quiet(&mut self) -> bool {
        match &self.wire {
            Some(tap) => self.line.unread(tap.wire()) == Unread::Nothing,
            None => false,
        }
    }
}

/// Dials an address, and waits for so many seconds for the connection.
fn open<R: Net + Dial + Clock>(
    rt: &R,
    alloc: Global,
    address: SocketAddrV4,
    seconds: u64,
) -> io::Result<ProbedConnection> {
    let start = Instant::now(rt)?;
    let mut line = ProbeLine::new(rt, alloc)?;
    let wire = line.dial(rt, address)?;
    line.arrive(rt, start, seconds)?;
    Ok(ProbedConnection {
        line,
        wire: Some(Tap::new(alloc, wire)),
    })
}

/// Dials an address, and waits for so many seconds for the connection. `None` where none can be had.
pub fn connect<R: Net + Dial + Clock>(
    rt: &R,
    alloc: Global,
    address: SocketAddrV4,
    seconds: u64,
) -> Option<Box<ProbedConnection>> {
    match open(rt, alloc, address, seconds) {
        Ok(connection) => Box::new(alloc, connection).ok(),
        Err(_) => None,
    }
}

/// How many seconds a connection may be on its way.
pub fn connect_seconds(config: &Config) -> u64 {
    match config.connect_deadline {
        0 => config.deadline,
        seconds => seconds,
    }
}

/// The connection to use: the one that is kept, where nothing came on it since, or a fresh one.
pub fn connection_of<R: Net + Dial + Clock>(
    rt: &R,
    alloc: Global,
    address: SocketAddrV4,
    seconds: u64,
    kept: Option<Box<ProbedConnection>>,
) -> Option<Box<ProbedConnection>> {
    if let Some(mut kept) = kept
        && kept.is_quiet()
    {
        return Some(kept);
    }
    connect(rt, alloc, address, seconds)
}
