//! A configured service that is tried.

use crate::attempt::{ProbeAttempt, failed, send};
use crate::bench::Bench;
use crate::finding::Fault;
use crate::line::{ProbedConnection, connect_seconds, connection_of};
use crate::options::{OptionsAnswer, ask};
use crate::prepared::prepare;
use crate::report::ConnectionUse;
use crate::samples::Trial;
use proxy_config::ServicePoint;
use socket_wire::Dial;
use span_bank::Ledgers;
use std::boxed::Box;
use std::io;
use std::net::Net;
use std::sync::Wait;
use std::time::Clock;
use trace_core::Point;

/// A service that is tried. What is printed of one is made by functions of any such: they see no sockets and no budget.
pub trait ProbedService {
    /// Where it is, and the point whose messages it adapts.
    fn place(&self) -> (&ServicePoint, Point);

    /// Asks it for its options, over a fresh connection, which is kept where it may carry another request.
    fn ask(&mut self) -> io::Result<OptionsAnswer>;

    /// Sends it a message: over the connection that is kept, and is kept then where it may carry another request, or over a fresh one.
    fn try_sample(&mut self, trial: &Trial, way: ConnectionUse) -> io::Result<ProbeAttempt>;
}

/// A service of a bench's configuration, and the connection to it that is kept.
#[derive(Drop)]
pub struct BenchedService<'a, B: Ledgers, R> {
    pub bench: &'a Bench<'a, B, R>,
    pub service: &'a ServicePoint,
    pub point: Point,
    pub kept: Option<Box<ProbedConnection>>,
}

impl<'a, B: Ledgers, R: Wait + Net + Dial + Clock> BenchedService<'a, B, R> {
    /// The connection for a message: that which is kept, where nothing came on it since, or a fresh one. `None` where none can be had.
    fn connection(&mut self, way: ConnectionUse) -> Option<Box<ProbedConnection>> {
        let bench = self.bench;
        let kept = match way {
            ConnectionUse::Kept => self.kept.take(),
            ConnectionUse::Fresh => None,
        };
        let seconds = connect_seconds(bench.config);
        connection_of(bench.rt, bench.alloc, self.service.address, seconds, kept)
    }
}

impl<'a, B: Ledgers, R: Wait + Net + Dial + Clock> ProbedService for BenchedService<'a, B, R> {
    fn place(&self) -> (&ServicePoint, Point) {
        (self.service, self.point)
    }

    fn ask(&mut self) -> io::Result<OptionsAnswer> {
        let (rt, alloc, config) = (self.bench.rt, self.bench.alloc, self.bench.config);
        ask(rt, alloc, config, self.service, self.point, &mut self.kept)
    }

    fn try_sample(&mut self, trial: &Trial, way: ConnectionUse) -> io::Result<ProbeAttempt> {
        let alloc = self.bench.alloc;
        let Some(prepared) = prepare(alloc, self.service, trial)? else {
            return Ok(failed(alloc, Fault::System));
        };
        let Some(connection) = self.connection(way) else {
            return Ok(failed(alloc, Fault::Refused));
        };
        let mut connection = connection;
        let attempt = send(self.bench, prepared, &mut connection)?;
        if attempt.serves && way == ConnectionUse::Kept {
            self.kept = Some(connection);
        }
        Ok(attempt)
    }
}
