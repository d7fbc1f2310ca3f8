//! What other threads hand to an event loop: users' connections, that room is wanted, questions of the administrator, and the words to
//! refresh, to drain and to stop.

ghost use Rattle.std.specs.Prelude.{◌≡◌, ◌↔◌, ◌<◌, ◌+◌, ◌*◌, true};

use crate::admin_lines::Question;
use crate::question_slot::QuestionSlot;
use crate::room::UserPermit;
use crate::sheet::Sheet;
use mio::net::TcpStream;
use mio::{Registry, Waker};
use std::alloc::{AllocError, Global};
use std::mem;
use std::net::Ipv4Addr;
use std::sync::atomic::{AtomicBool, Ordering};
use std::sync::{Mutex, Wait};
use std::time::{Clock, Duration};

/// A user's connection, with the address that it comes from, its number in the order of acceptance, from 1, and its permit among the
/// users.
#[derive(Drop)]
pub struct Handed {
    pub stream: TcpStream,
    pub from: Ipv4Addr,
    pub number: u64,
    pub permit: UserPermit,
    /// How many loops take users, and how often one of them was asked that has no seat for this one.
    pub loops: usize,
    pub tried: usize,
}

impl Handed {
    /// Whether a loop that wasn't asked yet may have a seat for it, or an idle user to spare, beside the one that has it now.
    pub fn is_first_round(&self) -> bool
        ensures { result ≡ true ↔ self.now.tried + 1 < self.now.loops }
    {
        self.tried.saturating_add(1) < self.loops
    }

    /// Whether another loop is to be asked after the one that has it now. The last one of the first round is the first of the second, in
    /// which the others are asked again.
    pub fn may_go_on(&self) -> bool
        ensures { result ≡ true ↔ self.now.tried + 2 < 2 * self.now.loops }
    {
        self.tried / 2 + 1 < self.loops
    }
}

/// What was handed in and not yet taken, what the loop is to do, what it is asked about its exchanges, whether it has begun, what ends its
/// wait, and the registry of its poll.
#[derive(Drop)]
pub struct Inbox {
    users: Mutex<Vec<Handed>>,
    drains: AtomicBool,
    stops: AtomicBool,
    crowded: AtomicBool,
    refreshes: AtomicBool,
    begun: AtomicBool,
    questions: QuestionSlot,
    waker: Waker,
    registry: Registry,
}

impl Inbox {
    /// An empty one, of the loop that this waker wakes, and over whose poll this registry is.
    pub fn new(alloc: Global, waker: Waker, registry: Registry) -> Inbox {
        Inbox {
            users: Mutex::new(Vec::new(alloc)),
            drains: AtomicBool::new(false),
            stops: AtomicBool::new(false),
            crowded: AtomicBool::new(false),
            refreshes: AtomicBool::new(false),
            begun: AtomicBool::new(false),
            questions: QuestionSlot::new(),
            waker,
            registry,
        }
    }

    /// The registry of the loop's poll: by it any thread may take a connection out of that poll.
    pub fn registry(&self) -> &Registry {
        &self.registry
    }

    /// Lays a user in, and says whether it is alone there. `Err` where no memory was found for it: then its connection is closed.
    pub fn lay<R: Wait>(&self, rt: &R, user: Handed) -> Result<bool, AllocError> {
        let mut users = self.users.lock(rt);
        let is_first = users.is_empty();
        users.push(user)?;
        Ok(is_first)
    }

    /// Takes all that were handed in, the oldest first.
    pub fn take_all<R: Wait>(&self, rt: &R, alloc: Global) -> Vec<Handed> {
        let mut users = self.users.lock(rt);
        mem::replace(&mut *users, Vec::new(alloc))
    }

    /// Ends the wait of the loop.
    pub fn wake(&self) {
        let _ = self.waker.wake();
    }

    /// Has the loop let its users go, and wakes it.
    pub fn drain(&self) {
        self.drains.store(true, Ordering::SeqCst);
        self.wake();
    }

    /// Whether the loop is to let its users go.
    pub fn is_draining(&self) -> bool {
        self.drains.load(Ordering::SeqCst)
    }

    /// Has the loop stop, and wakes it. This takes no lock and no memory, so a loop that failed can do it too.
    pub fn stop(&self) {
        self.stops.store(true, Ordering::SeqCst);
        self.wake();
    }

    /// Whether the loop is to stop.
    pub fn is_stopping(&self) -> bool {
        self.stops.load(Ordering::SeqCst)
    }

    /// Asks the loop to make room for one user, at its next turn.
    pub fn crowd(&self) {
        self.crowded.store(true, Ordering::SeqCst);
    }

    /// Whether the loop was asked to make room. It is asked no more.
    pub fn take_crowded(&self) -> bool {
        self.crowded.swap(false, Ordering::SeqCst)
    }

    /// Asks for the services to be asked for their options again, before the next message is planned.
    pub fn refresh(&self) {
        self.refreshes.store(true, Ordering::SeqCst);
    }

    /// Whether the services are to be asked again. That is answered once.
    pub fn take_refresh(&self) -> bool {
        self.refreshes.load(Ordering::SeqCst) && self.refreshes.swap(false, Ordering::SeqCst)
    }

    /// Asks the loop about its exchanges, and wakes it: it answers on this sheet, at the end of a turn. False where it hasn't answered an
    /// earlier question yet.
    pub fn ask<R: Wait>(&self, rt: &R, question: Question, sheet: Sheet) -> bool {
        let is_asked = self.questions.ask(rt, question, sheet);
        if is_asked {
            self.wake();
        }
        is_asked
    }

    /// The loop's answer to what it was asked, for which it is waited so long at most. `None` where it didn't come.
    pub fn answer<R: Wait + Clock>(&self, rt: &R, most: Duration) -> Option<Sheet> {
        self.questions.answer(rt, most)
    }

    /// Whether the loop may be asked about its exchanges.
    pub(crate) fn is_asked(&self) -> bool {
        self.questions.is_asked()
    }

    /// What the loop is asked about its exchanges, if it is asked, and the sheet for its answer.
    pub(crate) fn take_question<R: Wait>(&self, rt: &R) -> Option<(Question, Sheet)> {
        self.questions.take(rt)
    }

    /// Hands over the loop's answer.
    pub(crate) fn lay_answer<R: Wait>(&self, rt: &R, sheet: Sheet) {
        self.questions.lay(rt, sheet);
    }

    /// Whether the loop has begun.
    pub fn has_begun(&self) -> bool {
        self.begun.load(Ordering::SeqCst)
    }
}

/// Says to every loop that the one of this number has begun.
pub fn begin(number: usize, inboxes: &[Inbox]) {
    if let Some(own) = inboxes.get(number) {
        own.begun.store(true, Ordering::SeqCst);
    }
    for inbox in inboxes {
        inbox.wake();
    }
}

/// Whether every loop has begun.
pub fn have_begun(inboxes: &[Inbox]) -> bool {
    for inbox in inboxes {
        if !inbox.has_begun() {
            return false;
        }
    }
    true
}

/// Has every loop let its users go.
pub fn drain_all(inboxes: &[Inbox]) {
    for inbox in inboxes {
        inbox.drain();
    }
}

/// Has every loop stop.
pub fn stop_all(inboxes: &[Inbox]) {
    for inbox in inboxes {
        inbox.stop();
    }
}
