//! When something is noted of an exchange, and what becomes of it at its end.

ghost use Rattle.std.specs.Prelude.{◌≡◌, ◌↔◌, IfSome, IsSome, IsTrue, Some, slice_get};
ghost use Rattle.exchange_report.specs.Pages.{IsPageRefusal};
ghost use Rattle.http_side.specs.Refusals.{is_own_status};
ghost use Rattle.shard_report.specs.Notes.{IsOpen};

use crate::words::{evidence_of, is_of_service};
use adapt_turn::Outcome;
use exchange_report::{Destination, Entry, Reason, Reply, Why};
use http_side::{NextServer, Values};
use mio::net::TcpStream;
use proxy_config::MAX_SHARDS;
use proxy_rules::{Incoming, Route};
use shard_message::MessageEnd;
use shard_report::{
    Bound, Class, Count, Dealing, Evidence, Log, LoopTally, Note, Notes, address_of, elapsed_of,
    failed_word, kind_in, kind_of, moment, request_line, status_in, status_of, verdict_of,
    what_was_found, why_of, without_query,
};
use std::alloc::{AllocError, Global};
use std::net::{Ipv4Addr, SocketAddr, SocketAddrV4};
use std::sync::Wait;
use std::time::Clock;
use trace_core::{Point, Seen};

/// What is noted of an exchange that goes on.
#[derive(Clone, Copy)]
pub struct Noted<'a> {
    pub note: Note,
    /// As they came, cut where the log cuts them.
    pub method: &'a [u8],
    pub target: &'a [u8],
}

/// What is noted of a thread's exchanges. They are counted in its tally, and their lines added to the log.
#[derive(Drop)]
pub(crate) struct Reporter {
    notes: Notes,
    /// How many refusals were to have a page so far.
    pages: u64,
}

impl Reporter {
    /// A reporter of a thread that has this many keys. `Err` where no memory was found.
    pub fn new(alloc: Global, keys: usize) -> Result<Reporter, AllocError> {
        Ok(Reporter {
            notes: Notes::new(alloc, keys)?,
            pages: 0,
        })
    }

    /// What is noted of the exchange that goes on under this key, and its method and target. `None` where none does.
    pub fn noted(&self, key: usize) -> Option<Noted<'_>>
        ensures there { IsSome result ↔ IsOpen self.now.notes.notes.items key }
        ensures note { IfSome result (λ noted. slice_get self.now.notes.notes.items key ≡ Some noted.note) }
    {
        let note = self.notes.get(key)?;
        if !note.is_open {
            return None;
        }
        let Entry { method, target, .. } = self.notes.entry(key, note, 0, 0);
        Some(Noted {
            note: *note,
            method,
            target,
        })
    }

    /// A user comes. Where a line will say it, its address is noted.
    pub fn enter(&mut self, log: &Log, key: usize, stream: &TcpStream) {
        let address = if log.is_kept() {
            stream.peer_addr().ok()
        } else {
            None
        };
        let user = match address {
            Some(SocketAddr::V4(address)) => Some(address_of(address)),
            _ => None,
        };
        self.notes.enter(key, user);
    }

    /// The user's connection comes from this address.
    pub fn announce(&mut self, key: usize, from: Ipv4Addr) {
        if let Some(note) = self.notes.get_mut(key) {
            note.user = Some(address_of(SocketAddrV4::new(from, 0)));
        }
    }

    /// There is no seat for the user.
    pub fn turn_away(&mut self, key: usize) {
        self.notes.refuse(key, Reason::NoSeat);
    }

    /// A request's head was read, or is refused, when its user had taken so many bytes. `has_query`: targets are noted with their query.
    pub fn request<R: Clock>(
        &mut self,
        rt: &R,
        key: usize,
        taken: u64,
        request: &Incoming,
        has_query: bool,
    ) {
        let (method, target) = match request.user_head() {
            Some(head) => (head.method(), head.target()),
            None => request_line(request.raw()),
        };
        let target = if has_query {
            target
        } else {
            without_query(target)
        };
        self.notes.begin(key, moment(rt), taken, method, target);
    }

    /// Whether an exchange goes on under this key.
    pub fn is_open(&self, key: usize) -> bool
        ensures { IsTrue result ↔ IsOpen self.now.notes.notes.items key }
    {
        self.notes.is_open(key)
    }

    /// The head of the origin's response was read.
    pub fn response(&mut self, key: usize, response: &Incoming) {
        if let Some(head) = response.response_head() {
            let kind = match head.fields().values(b"content-type") {
                Values::One(value) => kind_of(value),
                _ => b"",
            };
            self.notes.answer(key, head.status(), kind);
        }
    }

    /// A request is to go there.
    pub fn route(&mut self, key: usize, route: Route) {
        if let Some(note) = self.notes.get_mut(key) {
            let address = address_of(route.address);
            note.dialled = Some(match route.next {
                NextServer::Origin => Destination::Origin(address),
                NextServer::Parent => Destination::Parent(address),
            });
        }
    }

    /// Why a service can't serve.
    pub fn blame(&mut self, key: usize, reason: Reason) {
        if let Some(note) = self.notes.get_mut(key) {
            note.blamed = Some(reason);
        }
    }

    /// Counts what was read of a user since the last time, of whom so many bytes were read in all.
    pub fn read(&mut self, tally: &LoopTally, key: usize, read: u64) {
        if let Some(note) = self.notes.get_mut(key) {
            let more = read.saturating_sub(note.read);
            note.read = read;
            tally.add(Count::Read, more);
        }
    }

    /// The proxy's own refusal is the answer, to a user that had taken so many bytes before.
    pub fn refusal(&mut self, tally: &LoopTally, key: usize, taken: u64, reason: Reason) {
        if !self.notes.is_open(key) {
            self.notes.begin(key, 0, taken, b"", b"");
        }
        if let Some(note) = self.notes.get_mut(key) {
            let reason = match note.blamed {
                Some(blamed) if is_of_service(reason) => blamed,
                _ => reason,
            };
            if is_of_service(reason) {
                // Its service gave no final reply: it wasn't even asked for one.
                tally.add(Count::Messages(note.point, Reply::Missing), 1);
            }
            self.notes.refuse(key, reason);
        }
    }

    /// The refusal of this status with this page. It says the reason that is noted, and a number that no other refusal of the process
    /// has, by the number of the thread; that is noted too. `None` where no memory was found.
    pub fn refusal_with(
        &mut self,
        alloc: Global,
        thread: usize,
        key: usize,
        status: u16,
        page: &[u8],
    ) -> Option<Vec<u8>>
        requires { IsTrue (is_own_status status) }
        ensures { IfSome result (λ text. IsPageRefusal status page.now text.items) }
    {
        self.pages = self.pages.saturating_add(1);
        let number = self
            .pages
            .saturating_mul(MAX_SHARDS)
            .saturating_add(thread as u64);
        self.notes.refuse_with(alloc, key, status, page, number)
    }

    /// A transaction is over: what became of its message, and of the answer where its user wasn't gone before.
    pub fn end(&mut self, tally: &LoopTally, key: usize, end: MessageEnd<'_>) {
        let evidence = evidence_of(&end);
        let MessageEnd {
            seen,
            outcome,
            service_fault: _,
            service_is_fresh: _,
            next_is_fresh,
            found,
            adapted_head,
            has_answered,
        } = end;
        self.message(tally, key, &seen, has_answered);
        if let Some(found) = found {
            let name = what_was_found(found.infection, found.virus);
            self.notes.find(key, name);
        }
        if seen.plan.point == Point::Reqmod {
            self.sent(key, seen.received, next_is_fresh);
        }
        let Some(outcome) = outcome else {
            return;
        };
        self.outcome(key, &seen, outcome, evidence);
        if seen.modified
            && let Some(text) = adapted_head
            && let Some(status) = status_in(text)
            && (outcome == Outcome::Done || has_answered)
        {
            self.notes.answer(key, status, kind_in(text));
            if outcome == Outcome::Done {
                self.ends(key, Why::Served);
            }
        }
    }

    /// What became of a message, of whose answer a byte went to the user or not.
    fn message(&mut self, tally: &LoopTally, key: usize, seen: &Seen, has_answered: bool) {
        let point = seen.plan.point;
        let verdict = verdict_of(seen);
        self.notes.judge(key, point, verdict);
        if let Some(note) = self.notes.get_mut(key) {
            note.answered = has_answered;
        }
        tally.add(Count::Messages(point, verdict.reply), 1);
        if verdict.retried {
            tally.add(Count::Retries, 1);
        }
    }

    /// A request's transaction is over, of whose body so many bytes came. A byte of it went there, unless its connection is fresh.
    fn sent(&mut self, key: usize, received: u64, next_is_fresh: bool) {
        if let Some(note) = self.notes.get_mut(key) {
            note.summary.received = received;
            if !next_is_fresh {
                note.destination = note.dialled;
            }
        }
    }

    /// The request is begun anew, on another connection: nothing that became of it before is said.
    pub fn anew(&mut self, tally: &LoopTally, key: usize) {
        tally.add(Count::Origins(Dealing::BegunAnew), 1);
        self.notes.withdraw(key);
    }

    /// The request is out: its response is under way.
    fn goes_on(&mut self, key: usize) {
        if let Some(note) = self.notes.get_mut(key) {
            note.point = Point::Respmod;
        }
    }

    /// The point of the message that is under way.
    pub fn point(&mut self, key: usize) -> Option<Point> {
        match self.notes.get_mut(key) {
            Some(note) => Some(note.point),
            None => None,
        }
    }

    /// What became of the answer.
    fn outcome(&mut self, key: usize, seen: &Seen, outcome: Outcome, evidence: Evidence) {
        let point = seen.plan.point;
        match outcome {
            Outcome::Done if point == Point::Respmod => self.ends(key, Why::Served),
            Outcome::Done => self.goes_on(key),
            Outcome::Fail(cause) => {
                let answered = self.has_answered(key);
                match failed_word(cause, seen, evidence) {
                    Why::Failed(reason) if !answered => self.notes.refuse(key, reason),
                    // A user that is gone gets no refusal.
                    why => self.ends(key, why),
                }
            }
        }
    }

    /// Whether a byte of the answer went to the user.
    fn has_answered(&mut self, key: usize) -> bool {
        match self.notes.get_mut(key) {
            Some(note) => note.answered,
            None => false,
        }
    }

    /// The exchange ends because the proxy stops.
    pub fn stop(&mut self, key: usize) {
        self.ends(key, Why::Failed(Reason::Stopping));
    }

    /// The answer ends for this reason.
    fn ends(&mut self, key: usize, why: Why) {
        if let Some(note) = self.notes.get_mut(key) {
            note.summary.why = why;
        }
    }

    /// An exchange that is open is over, when its user had taken so many bytes: it is counted, and its line added to the lines of this
    /// thread's number. True where half of their room is full with it, and wasn't before: the administrator's
    /// loop is to write them.
    pub fn report<R: Wait + Clock>(
        &mut self,
        rt: &R,
        tally: &LoopTally,
        log: &Log,
        number: usize,
        key: usize,
        taken: u64,
    ) -> bool {
        let Some(note) = self.notes.close(key) else {
            return false;
        };
        let mut note = note;
        if matches!(why_of(&note), Why::UserGone) && !note.answered {
            // The origin's status didn't reach a user that was gone before a byte of the answer.
            note.status = 0;
        }
        let sent = taken.saturating_sub(note.taken);
        let now = moment(rt);
        count(tally, &note, sent, elapsed_of(&note, now));
        if !log.is_kept() {
            return false;
        }
        let entry = self.notes.entry(key, &note, now, sent);
        log.add(rt, number, &entry)
    }
}

/// Counts an exchange that is over: the bytes that went to its user, and the milliseconds that it took.
fn count(tally: &LoopTally, note: &Note, sent: u64, elapsed: u64) {
    tally.add(Count::Requests, 1);
    tally.add(Count::Sent, sent);
    tally.add(Count::Milliseconds, elapsed);
    tally.add(Count::Times(Bound::of(elapsed)), 1);
    tally.add(Count::Answers(Class::of(status_of(note))), 1);
    match why_of(note) {
        Why::Served => {}
        Why::Failed(reason) if note.refused => tally.add(Count::Refusals(note.point, reason), 1),
        why => tally.add(Count::Failures(note.point, why), 1),
    }
}
