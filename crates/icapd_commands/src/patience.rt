//! How long a connection of `icapd serve` may be silent, and how long it may take for the heads of a request, and after its
//! last answer.
ghost use Rattle.std.specs.Prelude.{◌≡◌, ◌+◌, ◌<◌, ◌≤◌, IfSome, IfNone};
ghost use Rattle.std.specs.Duration.{as_nanos};

use std::io::{self, ErrorKind};
use std::net::TcpStream;
use std::time::{Clock, Duration, Instant};

/// What is left of a time of which this much is spent. `None` if nothing is.
fn left_of(all: Duration, spent: Duration) -> Option<Duration>
    ensures some { IfSome result (λ left. (as_nanos left + as_nanos spent ≡ as_nanos all) × (0 < as_nanos left)) }
    ensures none { IfNone result (as_nanos all ≤ as_nanos spent) }
{
    match all.checked_sub(spent) {
        Some(left) if left > Duration::ZERO => Some(left),
        _ => None,
    }
}

/// How long the next read of a connection may take: the deadline, and within the heads of a request what is left of it since
/// their first byte.
#[derive(Drop)]
pub struct Patience<'a> {
    pub stream: &'a TcpStream,
    deadline: Duration,
    /// When the first byte of the heads came that aren't whole yet.
    began: Option<Instant>,
}

impl<'a> Patience<'a> {
    /// The patience with a connection that has sent nothing yet.
    pub fn new(stream: &'a TcpStream, deadline: Duration) -> io::Result<Patience<'a>> {
        stream.set_read_timeout(Some(deadline))?;
        stream.set_write_timeout(Some(deadline))?;
        Ok(Patience {
            stream,
            deadline,
            began: None,
        })
    }

    /// A piece has come, after which the heads of a request aren't whole. `anew` says that it ended an earlier request.
    pub fn within_heads<R: Clock>(&mut self, rt: &R, anew: bool) -> io::Result<()> {
        let began = match self.began {
            Some(began) if !anew => began,
            _ => Instant::now(rt)?,
        };
        self.began = Some(began);
        wait_at_most(rt, self.stream, began, self.deadline, self.deadline)
    }

    /// A piece has come, after which no heads are open.
    pub fn past_heads(&mut self) -> io::Result<()> {
        if self.began.take().is_some() {
            self.stream.set_read_timeout(Some(self.deadline))?;
        }
        Ok(())
    }
}

/// Has the next read of a connection wait for no longer than `each`, and no longer than what is left of `all` since a moment.
/// `TimedOut` if nothing is left.
pub fn wait_at_most<R: Clock>(
    rt: &R,
    stream: &TcpStream,
    since: Instant,
    all: Duration,
    each: Duration,
) -> io::Result<()> {
    match left_of(all, since.elapsed(rt)?) {
        Some(left) => stream.set_read_timeout(Some(left.min(each))),
        None => Err(io::Error::from(ErrorKind::TimedOut)),
    }
}
