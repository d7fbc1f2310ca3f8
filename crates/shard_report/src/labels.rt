//! The labels of the numbers that `stats` shows.

use crate::tally::{Bound, Class};
use exchange_report::{Family, Kind, Reason, Reply, Why};
use trace_core::Point;

/// A family of counters.
pub(crate) const fn counter(name: &'static [u8], help: &'static [u8]) -> Family {
    Family {
        name,
        kind: Kind::Counter,
        help,
    }
}

/// A family of numbers that rise and fall.
pub(crate) const fn gauge(name: &'static [u8], help: &'static [u8]) -> Family {
    Family {
        name,
        kind: Kind::Gauge,
        help,
    }
}

/// The labels of answers, by the class of their status.
pub(crate) const CLASSES: [(Class, &[u8]); 6] = [
    (Class::Informational, b"{class=\"1xx\"}"),
    (Class::Successful, b"{class=\"2xx\"}"),
    (Class::Redirection, b"{class=\"3xx\"}"),
    (Class::ClientError, b"{class=\"4xx\"}"),
    (Class::ServerError, b"{class=\"5xx\"}"),
    (Class::Other, b"{class=\"other\"}"),
];

/// The labels of requests, by the final reply of the service.
pub(crate) const REQMOD_REPLIES: [(Reply, &[u8]); 4] = [
    (Reply::Plain, b"{point=\"reqmod\",outcome=\"plain\"}"),
    (Reply::Unchanged, b"{point=\"reqmod\",outcome=\"204\"}"),
    (Reply::Changed, b"{point=\"reqmod\",outcome=\"200\"}"),
    (Reply::Missing, b"{point=\"reqmod\",outcome=\"failed\"}"),
];

/// The labels of responses, by the final reply of the service.
pub(crate) const RESPMOD_REPLIES: [(Reply, &[u8]); 4] = [
    (Reply::Plain, b"{point=\"respmod\",outcome=\"plain\"}"),
    (Reply::Unchanged, b"{point=\"respmod\",outcome=\"204\"}"),
    (Reply::Changed, b"{point=\"respmod\",outcome=\"200\"}"),
    (Reply::Missing, b"{point=\"respmod\",outcome=\"failed\"}"),
];

/// The reasons why an answer is cut, or a user without one.
pub(crate) const FAILURES: [Why; 11] = [
    Why::Failed(Reason::RequestBroken),
    Why::Failed(Reason::OriginBroken),
    Why::Failed(Reason::OriginDeadline),
    Why::Failed(Reason::ServiceRefused),
    Why::Failed(Reason::ServiceStatus),
    Why::Failed(Reason::ServiceBroken),
    Why::Failed(Reason::ServiceDeadline),
    Why::Failed(Reason::NoMemory),
    Why::Failed(Reason::UserDeadline),
    Why::UserGone,
    Why::Failed(Reason::Stopping),
];

/// The points, with their names.
pub(crate) const POINTS: [(Point, &[u8]); 2] = [
    (Point::Reqmod, b"reqmod"),
    (Point::Respmod, b"respmod"),
];

/// The labels of a histogram's bounds, in seconds.
pub(crate) const BOUNDS: [(Bound, &[u8]); 12] = [
    (Bound::Milliseconds5, b"{le=\"0.005\"}"),
    (Bound::Milliseconds10, b"{le=\"0.01\"}"),
    (Bound::Milliseconds25, b"{le=\"0.025\"}"),
    (Bound::Milliseconds50, b"{le=\"0.05\"}"),
    (Bound::Milliseconds100, b"{le=\"0.1\"}"),
    (Bound::Milliseconds250, b"{le=\"0.25\"}"),
    (Bound::Milliseconds500, b"{le=\"0.5\"}"),
    (Bound::Seconds1, b"{le=\"1.0\"}"),
    (Bound::Milliseconds2500, b"{le=\"2.5\"}"),
    (Bound::Seconds5, b"{le=\"5.0\"}"),
    (Bound::Seconds10, b"{le=\"10.0\"}"),
    (Bound::None, b"{le=\"+Inf\"}"),
];
