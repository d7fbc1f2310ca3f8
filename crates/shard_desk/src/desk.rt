//! What the exchanges of one thread have in common.

ghost use Rattle.std.specs.Prelude.{◌≡◌, ◌↔◌, IfOk, IfSome, IsSome, IsTrue, Some, slice_get};
ghost use Rattle.proxy_config.specs.declared.config.Config.{Config as AnyConfig};
ghost use Rattle.proxy_rules.specs.Plans.{AreLimits};
ghost use Rattle.shard_report.specs.Notes.{IsOpen};
ghost use Rattle.shard_desk.specs.Standings.{SameButAt};

use crate::headers::{announce, header_of};
use crate::hearing::Hearing;
use crate::kept::Moment;
use crate::origins::KeptOrigins;
use crate::pausing::tell_breakers;
use crate::pools::pools_of;
use crate::reporter::{Noted, Reporter};
use crate::seat::Purpose;
use crate::seating::Seating;
use crate::seats::{SECOND, Seats};
use crate::shared::Shares;
use crate::terms::Terms;
use adapt_sides::MAX_READ;
use event_loop::USER;
use mio::net::TcpStream;
use plan_rules::Limits;
use proxy_config::Config;
use proxy_header::Reading;
use proxy_rules::limits_of;
use service_pool::{Latest, POINTS, PointBook};
use shard_report::{Count, Dealing};
use socket_wire::UserWire;
use std::alloc::{AllocError, Global};
use std::net::Ipv4Addr;
use std::sync::Wait;
use std::time::Clock;
use trace_core::Point;

/// What the exchanges of one thread have in common: all but the exchanges themselves.
#[derive(Drop)]
pub struct Desk<S> {
    pub alloc: Global,
    pub shared: S,
    pub limits: Limits,
    /// The seconds without a moved byte after which an exchange is ended.
    pub deadline: u64,
    /// The seconds that a request's head and a connection that is opened have in all.
    pub terms: Terms,
    pub seats: Seats,
    pub(crate) reporter: Reporter,
    pub(crate) request_book: PointBook,
    pub(crate) response_book: PointBook,
    /// What a connector was asked last, where a connection to a service was lent or put back.
    pub(crate) asked: Latest,
    pub(crate) scratch: Vec<u8>,
    /// The connections to origins that lie idle between exchanges.
    pub(crate) kept: KeptOrigins,
    /// The second in which they were looked at last.
    pub(crate) looked: u64,
}

/// How many connections to origins may lie idle.
fn most_origins(config: &Config) -> usize
    ensures { result ≡ config.now.keep_origins }
{
    config.keep_origins as usize
}

/// The times that are configured.
fn terms_of(config: &Config) -> Terms
    ensures { result ≡ record { head = config.now.head_deadline; connection = config.now.connect_deadline } }
{
    Terms {
        head: config.head_deadline,
        connection: config.connect_deadline,
    }
}

impl<S: Shares> Desk<S> {
    /// A desk before the first user; `rows` users may be served at once. `Err` if no memory was found.
    pub fn new(alloc: Global, shared: S, rows: usize) -> Result<Desk<S>, AllocError>
    where
        S: Drop,
        ensures { IfOk result (λ desk. (config : AnyConfig) × S.config_is shared config × AreLimits config desk.limits × (desk.deadline ≡ config.deadline)
            × (desk.terms ≡ record { head = config.head_deadline; connection = config.connect_deadline }) × (desk.kept.most ≡ config.keep_origins)) }
    {
        let scratch = Vec::from_elem(alloc, 0u8, MAX_READ)?;
        let mut shared = shared;
        let config = shared.config();
        let limits = limits_of(config);
        let deadline = config.deadline;
        let terms = terms_of(config);
        let most = most_origins(config);
        let seats = Seats::new(alloc, rows)?;
        let reporter = Reporter::new(alloc, seats.bound())?;
        let kept = KeptOrigins::new(alloc, most)?;
        shared.seat(seats.bound())?;
        Ok(Desk {
            alloc,
            shared,
            limits,
            deadline,
            terms,
            seats,
            reporter,
            request_book: PointBook::new(),
            response_book: PointBook::new(),
            asked: Latest::new(),
            scratch,
            kept,
            looked: 0,
        })
    }

    /// The exchange under this key is served from now on. One that is open goes on by the configuration that stood when it began; another
    /// one by that which stands now.
    #[inline(always)]
    pub fn take_up<R: Wait>(&mut self, rt: &R, key: usize)
        ensures goes { S.config_is self.new.shared (S.goes_by self.new.shared key) }
        ensures open { IsOpen self.old.reporter.notes.notes.items key → S.goes_by self.new.shared key ≡ S.goes_by self.old.shared key }
        ensures others { SameButAt key (S.own self.old.shared) (S.own self.new.shared) }
        ensures deadline { (config : AnyConfig) × S.config_is self.new.shared config × (self.new.deadline ≡ config.deadline) }
        ensures kept { self.new ≡ record self.old { shared = self.new.shared; deadline = self.new.deadline } }
    {
        let is_open = self.reporter.is_open(key);
        self.shared.take_up(rt, key, is_open);
        self.deadline = self.shared.config().deadline;
    }

    /// What is noted of the exchange that goes on under this key. `None` where none does.
    pub fn noted(&self, key: usize) -> Option<Noted<'_>>
        ensures there { IsSome result ↔ IsOpen self.now.reporter.notes.notes.items key }
        ensures note { IfSome result (λ noted. slice_get self.now.reporter.notes.notes.items key ≡ Some noted.note) }
    {
        self.reporter.noted(key)
    }

    /// What the service of a point said last, to be changed.
    pub(crate) fn book_mut(&mut self, point: Point) -> &mut PointBook {
        match point {
            Point::Reqmod => &mut self.request_book,
            Point::Respmod => &mut self.response_book,
        }
    }

    /// Wakes the administrator's loop, whose inbox is the last one: it writes the lines that wait.
    fn have_lines_written(&self) {
        if let Some(office) = self.shared.inboxes().last() {
            office.wake();
        }
    }

    /// Wakes all threads where users have ended their bytes, and somebody waits for a connection to a point's service: one of these users
    /// that has one gives way. That is due where somebody begins to wait, and where the first has taken one and others still wait.
    pub(crate) fn call_ended<R: Wait>(&self, rt: &R, point: Point) {
        if !self.shared.room().has_ended()
            || !pools_of(&self.shared).waiting.is_awaited(rt, point)
        {
            return;
        }
        for inbox in self.shared.inboxes() {
            inbox.wake();
        }
    }

    /// Says how many connections to origins lie idle.
    pub(crate) fn tell_kept(&self) {
        let count = self.kept.count() as u64;
        self.shared
            .tally()
            .set(Count::Origins(Dealing::Idle), count);
    }

    /// Closes connections to origins that lie idle, the oldest first, while they keep the next user out, and as many as it needs at most.
    fn close_kept(&mut self) {
        for _ in 0..USER {
            if !self.shared.room().has_too_many_idle() || !self.kept.close_oldest() {
                break;
            }
        }
        self.tell_kept();
    }

    /// The header of the connection under this key is whole: it comes from there, or, where the header names no
    /// address, from its own.
    fn begin_user<R: Wait>(
        &mut self,
        rt: &R,
        key: usize,
        now: u64,
        from: Option<Ipv4Addr>,
    ) -> Hearing {
        let Some(from) = from.or(self.seats.user_address(key)) else {
            return Hearing::Ends;
        };
        self.seats.touch(key, now);
        announce(
            rt,
            &self.shared,
            &mut self.seats,
            &mut self.reporter,
            key,
            from,
        )
    }

    /// Has the services asked again before the next message is planned, where the administrator wants that.
    pub(crate) fn heed_refresh(&mut self)
        ensures { (self.new.shared ≡ self.old.shared) × (self.new.seats ≡ self.old.seats) }
    {
        heed_refresh(
            &self.shared,
            &mut self.request_book,
            &mut self.response_book,
        );
    }
}

/// Has the services asked again whose books these are, where the administrator wants that.
pub(crate) fn heed_refresh<S: Shares>(
    shared: &S,
    requests: &mut PointBook,
    responses: &mut PointBook,
) {
    if let Some(inbox) = shared.inboxes().get(shared.number())
        && inbox.take_refresh()
    {
        requests.expire();
        responses.expire();
    }
}

/// Takes note that the exchange under this key has a connection to the service of a point, where one was lent to it.
pub(crate) fn note_lease(seats: &mut Seats, key: usize, point: Point, is_lent: bool) {
    if is_lent {
        seats.lease(key, Some(point));
    }
}

impl<S: Shares> Seating for Desk<S> {
    ghost seats_of = { λ desk. desk.seats };

    fn seats(&self) -> &Seats {
        &self.seats
    }

    fn seats_mut(&mut self) -> &mut Seats {
        &mut self.seats
    }

    fn has_headers(&self) -> bool {
        self.shared.config().proxy_protocol
    }

    fn hear_header<R: Wait>(
        &mut self,
        rt: &R,
        key: usize,
        now: u64,
        user: &mut UserWire,
    ) -> Hearing {
        self.take_up(rt, key);
        match header_of(user) {
            Reading::Whole(header) => self.begin_user(rt, key, now, header.from),
            Reading::Partial if !self.seats.is_late(key, now, self.deadline) => Hearing::Waits,
            Reading::Partial | Reading::Fault => {
                self.shared.room().lack_header();
                Hearing::Ends
            }
        }
    }

    fn enter(&mut self, key: usize, purpose: Purpose, stream: &TcpStream) {
        self.reporter.enter(self.shared.log(), key, stream);
        self.shared.tally().add(Count::Users, 1);
        if purpose == Purpose::Refusal {
            self.reporter.turn_away(key);
        }
    }

    fn leave<R: Wait + Clock>(&mut self, rt: &R, key: usize) {
        self.report(rt, key);
        tell_breakers(&self.shared, rt, key);
        self.seats.leave(key);
        self.shared.leave(key);
        self.shared.tally().take(Count::Users, 1);
    }

    fn report<R: Wait + Clock>(&mut self, rt: &R, key: usize) {
        let taken = self.seats.taken(key);
        let number = self.shared.number();
        let is_half_full = self.reporter.report(
            rt,
            self.shared.tally(),
            self.shared.log(),
            number,
            key,
            taken,
        );
        if is_half_full {
            self.have_lines_written();
        }
    }

    /// The own thread's connections to origins go first: a service's is used by more messages. Where it has none, and none to a service lies
    /// idle, another thread is asked after a few milliseconds.
    fn close_idle<R: Wait>(&mut self, rt: &R) -> Option<bool> {
        if !self.shared.room().has_too_many_idle() {
            return None;
        }
        self.close_kept();
        Some(pools_of(&self.shared).make_room(rt, USER))
    }

    /// Looks once a second.
    fn turn_over(&mut self, now: u64) {
        if now == self.looked || self.kept.count() == 0 {
            return;
        }
        self.looked = now;
        let at = Moment {
            now,
            turn: self.seats.heard_at(),
        };
        let seconds = self.shared.config().origin_idle;
        self.kept.close_unfit(at, seconds);
        self.tell_kept();
    }

    fn patience(&self) -> Option<u64> {
        if self.kept.count() == 0 {
            None
        } else {
            Some(SECOND)
        }
    }

    fn drain(&mut self) {
        self.kept.end();
        self.tell_kept();
    }

    fn has_ended_elsewhere(&self) -> bool {
        !self.seats.have_ended() && self.shared.room().has_ended()
    }

    fn lacks<R: Wait>(&self, rt: &R, point: Point) -> bool {
        let numbers = match point {
            Point::Reqmod => self.shared.requests().numbers(rt),
            Point::Respmod => self.shared.responses().numbers(rt),
        };
        numbers.idle == 0 && numbers.leased >= numbers.maximum
    }

    fn awaits<R: Wait>(&self, rt: &R, point: Point) -> bool {
        pools_of(&self.shared).waiting.is_awaited(rt, point) && self.lacks(rt, point)
    }

    fn queues(&self) -> usize {
        POINTS.len()
    }

    fn first_of<R: Wait>(&self, rt: &R, queue: usize) -> Option<usize> {
        let point = *POINTS.get(queue)?;
        let number = self.shared.number();
        match pools_of(&self.shared).waiting.first_of(rt, point, number) {
            Some(key) => Some(key),
            None if self.seats.have_ended() && self.awaits(rt, point) => {
                self.seats.ended_with(point)
            }
            None => None,
        }
    }
}
