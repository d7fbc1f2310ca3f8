//! The answer to `stats`: the sums of what the loops count, and the numbers of what they share.

use crate::labels::{
    BOUNDS, CLASSES, FAILURES, POINTS, REQMOD_REPLIES, RESPMOD_REPLIES, counter, gauge,
};
use crate::tally::{Count, Dealing, LoopTally};
use exchange_report::{Family, Kind, Metric, REASONS, Why, metrics_text};
use service_pool::Numbers;
use span_bank::Book;
use std::alloc::{AllocError, Global};
use trace_core::Point;

/// What the loops share, at one moment.
#[derive(Clone, Copy)]
pub struct Figures {
    /// How many users can be served at once.
    pub seats: u64,
    /// The connections to the service of requests, how many exchanges wait for one, and whether it is paused.
    pub reqmod: Numbers,
    pub reqmod_waiting: u64,
    pub reqmod_paused: bool,
    /// The connections to the service of responses, how many exchanges wait for one, and whether it is paused.
    pub respmod: Numbers,
    pub respmod_waiting: u64,
    pub respmod_paused: bool,
    /// The buffer budget.
    pub book: Book,
    /// Connections that were closed, since they came from elsewhere than users may.
    pub refused: u64,
    /// Users that were refused, since their address had as many connections as it may.
    pub over: u64,
    /// Connections that were closed, since they didn't begin with a header of the PROXY protocol.
    pub unannounced: u64,
    /// Lines of the log that are lost.
    pub lost: u64,
    /// Seconds since the start.
    pub uptime: u64,
}

/// The numbers, in the order of the text.
#[derive(Drop)]
struct Sheet<'a> {
    metrics: Vec<Metric>,
    tallies: &'a [LoopTally],
}

impl<'a> Sheet<'a> {
    fn put(&mut self, metric: Metric) -> Result<(), AllocError> {
        self.metrics.push(metric)?;
        Ok(())
    }

    /// A family of one number.
    fn one(&mut self, family: Family, value: u64) -> Result<(), AllocError> {
        self.put(Metric::Family(family))?;
        self.put(Metric::Sample(family, b"", value))
    }

    /// The sum of what the loops count.
    fn sum(&self, count: Count) -> u64 {
        let mut sum = 0u64;
        for tally in self.tallies {
            sum = sum.wrapping_add(tally.get(count));
        }
        sum
    }

    /// What the loops count of requests and answers.
    fn put_counts(&mut self) -> Result<(), AllocError> {
        let requests = self.sum(Count::Requests);
        self.one(
            counter(
                b"adaptproxy_requests",
                b"Requests that were answered, refused or cut.",
            ),
            requests,
        )?;
        let answers = counter(
            b"adaptproxy_answers",
            b"Answers by the class of their status.",
        );
        self.put(Metric::Family(answers))?;
        for (class, label) in CLASSES {
            let value = self.sum(Count::Answers(class));
            self.put(Metric::Sample(answers, label, value))?;
        }
        Ok(())
    }

    /// The proxy's own refusals.
    fn put_refusals(&mut self) -> Result<(), AllocError> {
        let refusals = counter(
            b"adaptproxy_refusals",
            b"The proxy's own refusals by the point of their message and their reason.",
        );
        self.put(Metric::Family(refusals))?;
        for (point, name) in POINTS {
            for reason in REASONS {
                let value = self.sum(Count::Refusals(point, reason));
                self.put(Metric::Reason(refusals, name, Why::Failed(reason), value))?;
            }
        }
        Ok(())
    }

    /// What ended without a whole answer, and without a refusal.
    fn put_failures(&mut self) -> Result<(), AllocError> {
        let failures = counter(
            b"adaptproxy_failures",
            b"Exchanges without a whole answer and without a refusal, by point and reason.",
        );
        self.put(Metric::Family(failures))?;
        for (point, name) in POINTS {
            for why in FAILURES {
                let value = self.sum(Count::Failures(point, why));
                self.put(Metric::Reason(failures, name, why, value))?;
            }
        }
        Ok(())
    }

    /// How long exchanges took.
    fn put_times(&mut self) -> Result<(), AllocError> {
        let times = Family {
            name: b"adaptproxy_exchange_seconds",
            kind: Kind::Histogram,
            help: b"Seconds from a request's head to the end of its answer.",
        };
        self.put(Metric::Family(times))?;
        let mut count = 0u64;
        for (bound, label) in BOUNDS {
            count = count.wrapping_add(self.sum(Count::Times(bound)));
            self.put(Metric::Bucket(times, label, count))?;
        }
        let milliseconds = self.sum(Count::Milliseconds);
        self.put(Metric::Times(times, count, milliseconds))
    }

    /// What the loops count of messages, and of bytes.
    fn put_messages(&mut self) -> Result<(), AllocError> {
        let messages = counter(
            b"adaptproxy_messages",
            b"Messages by point and by the final reply of its service.",
        );
        self.put(Metric::Family(messages))?;
        for (reply, label) in REQMOD_REPLIES {
            let value = self.sum(Count::Messages(Point::Reqmod, reply));
            self.put(Metric::Sample(messages, label, value))?;
        }
        for (reply, label) in RESPMOD_REPLIES {
            let value = self.sum(Count::Messages(Point::Respmod, reply));
            self.put(Metric::Sample(messages, label, value))?;
        }
        let retries = self.sum(Count::Retries);
        self.one(
            counter(
                b"adaptproxy_retries",
                b"Messages that were sent to their service anew.",
            ),
            retries,
        )?;
        let bytes = counter(b"adaptproxy_user_bytes", b"Bytes from and to users.");
        let (read, sent) = (self.sum(Count::Read), self.sum(Count::Sent));
        self.put(Metric::Family(bytes))?;
        self.put(Metric::Sample(bytes, b"{direction=\"in\"}", read))?;
        self.put(Metric::Sample(bytes, b"{direction=\"out\"}", sent))
    }

    /// The connections to origins.
    fn put_origins(&mut self) -> Result<(), AllocError> {
        let origins = [
            (
                counter(
                    b"adaptproxy_origin_connections_opened",
                    b"Connections to origins that were opened, or prepared.",
                ),
                Dealing::Opened,
            ),
            (
                counter(
                    b"adaptproxy_origin_connections_reused",
                    b"Connections to origins that an earlier exchange had left, and that were taken.",
                ),
                Dealing::Reused,
            ),
            (
                counter(
                    b"adaptproxy_requests_begun_anew",
                    b"Requests that were begun anew, as such a connection was none for them.",
                ),
                Dealing::BegunAnew,
            ),
            (
                gauge(
                    b"adaptproxy_origin_connections_idle",
                    b"Connections to origins that lie idle.",
                ),
                Dealing::Idle,
            ),
        ];
        for (family, dealing) in origins {
            let value = self.sum(Count::Origins(dealing));
            self.one(family, value)?;
        }
        Ok(())
    }

    /// The connections to both services.
    fn put_pools(&mut self, reqmod: Numbers, respmod: Numbers) -> Result<(), AllocError> {
        let open = gauge(
            b"adaptproxy_service_connections",
            b"Connections to services, leased and idle.",
        );
        self.put(Metric::Family(open))?;
        let states: [(&'static [u8], u64); 4] = [
            (b"{point=\"reqmod\",state=\"leased\"}", reqmod.leased),
            (b"{point=\"reqmod\",state=\"idle\"}", reqmod.idle),
            (b"{point=\"respmod\",state=\"leased\"}", respmod.leased),
            (b"{point=\"respmod\",state=\"idle\"}", respmod.idle),
        ];
        for (label, value) in states {
            self.put(Metric::Sample(open, label, value))?;
        }
        let most = gauge(
            b"adaptproxy_service_connections_maximum",
            b"Connections to services that may be open.",
        );
        self.put(Metric::Family(most))?;
        self.put(Metric::Sample(most, b"{point=\"reqmod\"}", reqmod.maximum))?;
        self.put(Metric::Sample(most, b"{point=\"respmod\"}", respmod.maximum))
    }

    /// The exchanges that wait for a connection.
    fn put_waiting(&mut self, reqmod: u64, respmod: u64) -> Result<(), AllocError> {
        let waiting = gauge(
            b"adaptproxy_waiting",
            b"Exchanges that wait for a connection to a service.",
        );
        self.put(Metric::Family(waiting))?;
        self.put(Metric::Sample(waiting, b"{point=\"reqmod\"}", reqmod))?;
        self.put(Metric::Sample(waiting, b"{point=\"respmod\"}", respmod))
    }

    /// Whether the services are paused.
    fn put_paused(&mut self, reqmod: bool, respmod: bool) -> Result<(), AllocError> {
        let paused = gauge(
            b"adaptproxy_service_paused",
            b"1 from the pause of the point's service until it is known to answer again; else 0.",
        );
        self.put(Metric::Family(paused))?;
        let (reqmod, respmod) = (u64::from(reqmod), u64::from(respmod));
        self.put(Metric::Sample(paused, b"{point=\"reqmod\"}", reqmod))?;
        self.put(Metric::Sample(paused, b"{point=\"respmod\"}", respmod))
    }

    /// The buffer budget.
    fn put_book(&mut self, book: Book) -> Result<(), AllocError> {
        self.one(
            gauge(b"adaptproxy_budget_rows", b"Transactions that are open."),
            book.rows,
        )?;
        self.one(
            gauge(
                b"adaptproxy_budget_held_bytes",
                b"Body bytes that they hold.",
            ),
            book.held,
        )?;
        self.one(
            gauge(
                b"adaptproxy_budget_claimed_bytes",
                b"Body bytes that they have reserved.",
            ),
            book.claimed,
        )?;
        self.one(
            gauge(
                b"adaptproxy_budget_capacity_bytes",
                b"Body bytes that may be reserved.",
            ),
            book.capacity,
        )
    }

    /// The users, the seats for them, and those that weren't let in.
    fn put_users(&mut self, figures: &Figures) -> Result<(), AllocError> {
        let users = self.sum(Count::Users);
        self.one(
            gauge(b"adaptproxy_users", b"Users that are connected."),
            users,
        )?;
        self.one(
            gauge(b"adaptproxy_seats", b"Users that can be served at once."),
            figures.seats,
        )?;
        self.one(
            counter(
                b"adaptproxy_users_refused",
                b"Connections that were closed, since no user may come from their address.",
            ),
            figures.refused,
        )?;
        self.one(
            counter(
                b"adaptproxy_users_over_limit",
                b"Users that were refused, since their address had as many connections as it may.",
            ),
            figures.over,
        )?;
        self.one(
            counter(
                b"adaptproxy_users_unannounced",
                b"Connections that were closed, since they began with no header of the PROXY protocol.",
            ),
            figures.unannounced,
        )
    }

    /// What the loops count.
    fn put_loops(&mut self) -> Result<(), AllocError> {
        self.put_counts()?;
        self.put_refusals()?;
        self.put_failures()?;
        self.put_times()?;
        self.put_messages()
    }

    /// The lines of the log that are lost, and the seconds since the start.
    fn put_log(&mut self, lost: u64, uptime: u64) -> Result<(), AllocError> {
        self.one(
            counter(
                b"adaptproxy_log_lines_lost",
                b"Lines of the log that could not be written.",
            ),
            lost,
        )?;
        self.one(
            gauge(b"adaptproxy_uptime_seconds", b"Seconds since the start."),
            uptime,
        )
    }

    /// The numbers of what they share.
    fn put_shared(&mut self, figures: &Figures) -> Result<(), AllocError> {
        self.put_users(figures)?;
        self.put_pools(figures.reqmod, figures.respmod)?;
        self.put_waiting(figures.reqmod_waiting, figures.respmod_waiting)?;
        self.put_paused(figures.reqmod_paused, figures.respmod_paused)?;
        self.put_origins()?;
        self.put_book(figures.book)?;
        self.put_log(figures.lost, figures.uptime)
    }
}

/// The counters of all loops, and the numbers of what they share, as OpenMetrics text.
pub fn stats_text(
    alloc: Global,
    tallies: &[LoopTally],
    figures: &Figures,
) -> Result<Vec<u8>, AllocError> {
    let mut sheet = Sheet {
        metrics: Vec::new(alloc),
        tallies,
    };
    sheet.put_loops()?;
    sheet.put_shared(figures)?;
    metrics_text(alloc, sheet.metrics.as_slice())
}
