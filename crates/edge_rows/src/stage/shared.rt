//! What a row's connections share: the bytes that each took, what happened in which order, how often all have waited, and whether the
//! user is owed an answer.

use crate::stage::poll::Poll;
use adapt_bytes::behind;
use std::alloc::Global;
use std::cell::{Cell, RefCell};
use std::fmt::Debug;
use test_rows::{NoMemory, Scene, has_word, put_all, put_line, put_number, put_shown};

/// Whose connection it is. Those of origins and of services are numbered in the order in which they are opened.
#[derive(Clone, Copy, PartialEq, Eq)]
pub enum LineOwner {
    User,
    Origin(u64),
    Service(u64),
}

impl LineOwner {
    /// What it is called, without its number.
    pub(crate) fn name(self) -> &'static [u8] {
        match self {
            LineOwner::User => b"user",
            LineOwner::Origin(_) => b"origin",
            LineOwner::Service(_) => b"service",
        }
    }

    /// The number of an origin's or a service's connection.
    pub(crate) fn number(self) -> Option<u64> {
        match self {
            LineOwner::User => None,
            LineOwner::Origin(number) | LineOwner::Service(number) => Some(number),
        }
    }

    /// Adds what it is called, with its number.
    pub(crate) fn put_name(self, out: &mut Vec<u8>) -> Result<(), NoMemory> {
        match self.number() {
            Some(number) => put_number(out, self.name(), number),
            None => put_line(out, self.name()),
        }
    }
}

/// What a connection took.
#[derive(Drop)]
pub(crate) struct TakenBytes {
    pub(crate) peer: LineOwner,
    pub(crate) bytes: Vec<u8>,
}

/// What a row's connections share.
#[derive(Drop)]
pub struct RowStage {
    pub(crate) alloc: Global,
    /// The connections of a schedule, and who waits for one of a service.
    pub(crate) poll: RefCell<Poll>,
    /// What each connection took, in the order in which they were opened.
    pub(crate) taken: RefCell<Vec<TakenBytes>>,
    /// A line for each thing that happened, where the row asks for them, and for each phase that the exchange came to, where it
    /// asks for these.
    pub(crate) happenings: RefCell<Vec<u8>>,
    tells_happenings: bool,
    tells_phases: bool,
    /// How often all have waited.
    waits: Cell<u64>,
    /// Whether the user was told that nothing more comes.
    is_finished: Cell<bool>,
    /// How many bytes the user had taken when its last request was read. `None` before its first one.
    asked_at: Cell<Option<usize>>,
    /// Whether nothing more reaches the user: its connection broke, it is lost, or it takes nothing any more.
    is_user_lost: Cell<bool>,
    /// Whether nothing more is noted.
    is_over: Cell<bool>,
    /// Whether memory was wanting for what is told here.
    is_short: Cell<bool>,
}

impl RowStage {
    /// Before anything happened in a row, which tells what its key `tell` says, with the chances of a seed.
    pub fn new(alloc: Global, scene: Scene<'_>, seed: u64) -> Result<RowStage, NoMemory> {
        Ok(RowStage {
            alloc,
            poll: RefCell::new(Poll::new(alloc, scene, seed)?),
            taken: RefCell::new(Vec::new(alloc)),
            happenings: RefCell::new(Vec::new(alloc)),
            tells_happenings: has_word(scene.get(b"tell"), b"happenings"),
            tells_phases: has_word(scene.get(b"tell"), b"phases"),
            waits: Cell::new(0),
            is_finished: Cell::new(false),
            asked_at: Cell::new(None),
            is_user_lost: Cell::new(false),
            is_over: Cell::new(false),
            is_short: Cell::new(false),
        })
    }

    /// How often all have waited.
    pub(crate) fn waits(&self) -> u64 {
        self.waits.get()
    }

    /// All have waited: what pauses goes on.
    pub fn wait(&self) {
        self.waits.set(self.waits.get().saturating_add(1));
    }

    /// Whether the user was told that nothing more comes.
    pub(crate) fn is_finished(&self) -> bool {
        self.is_finished.get()
    }

    /// The user is told that nothing more comes.
    pub(crate) fn finish(&self) {
        self.is_finished.set(true);
    }

    /// A request of the user was read.
    pub fn ask(&self) {
        if let Ok(taken) = self.taken.try_borrow() {
            self.asked_at
                .set(Some(taken_by(&taken, LineOwner::User).len()));
        }
    }

    /// Nothing more reaches the other end of a connection.
    pub fn lose(&self, peer: LineOwner) {
        if peer == LineOwner::User {
            self.is_user_lost.set(true);
        }
    }

    /// Whether a request was read whose user took no byte of an answer, though it wasn't lost. This text is no answer where it is whole.
    pub(crate) fn owes_answer(&self, interim: &[u8]) -> bool {
        let Some(before) = self.asked_at.get() else {
            return false;
        };
        let Ok(taken) = self.taken.try_borrow() else {
            return true;
        };
        let said = behind(taken_by(&taken, LineOwner::User), before);
        !self.is_user_lost.get() && (said.is_empty() || said == interim)
    }

    /// Nothing more is noted.
    pub fn end(&self) {
        self.is_over.set(true);
    }

    /// Whether what happens is noted.
    fn notes(&self) -> bool {
        self.tells_happenings && !self.is_over.get()
    }

    /// `Err` where memory was wanting for what is told here.
    pub(crate) fn check(&self) -> Result<(), NoMemory> {
        if self.is_short.get() {
            Err(NoMemory)
        } else {
            Ok(())
        }
    }

    /// Takes note of whether memory was found.
    fn keep(&self, written: Result<(), NoMemory>) {
        if written.is_err() {
            self.is_short.set(true);
        }
    }

    /// A connection is opened.
    pub(crate) fn open(&self, peer: LineOwner) {
        if let Ok(mut taken) = self.taken.try_borrow_mut() {
            let bytes = Vec::new(self.alloc);
            if taken.push(TakenBytes { peer, bytes }).is_err() {
                self.is_short.set(true);
            }
        }
    }

    /// A connection takes bytes.
    pub(crate) fn take(&self, peer: LineOwner, bytes: &[u8]) {
        if let Ok(mut taken) = self.taken.try_borrow_mut() {
            for each in taken.iter_mut() {
                if each.peer == peer {
                    self.keep(each.bytes.extend_from_slice(bytes));
                }
            }
        }
    }

    /// The exchange came to a phase.
    pub fn note_phase(&self, phase: &[u8]) {
        if self.tells_phases
            && let Ok(mut happenings) = self.happenings.try_borrow_mut()
        {
            self.keep(put_all(&mut happenings, &[b"  ", phase, b"\n"]));
        }
    }

    /// Something happened.
    pub fn note(&self, what: &[u8]) {
        if self.notes()
            && let Ok(mut happenings) = self.happenings.try_borrow_mut()
        {
            self.keep(put_line(&mut happenings, what));
        }
    }

    /// Something happened, which these texts tell together.
    pub fn note_all(&self, texts: &[&[u8]]) {
        if self.notes()
            && let Ok(mut happenings) = self.happenings.try_borrow_mut()
        {
            self.keep(put_all(&mut happenings, texts));
        }
    }

    /// Something happened with a connection.
    pub(crate) fn note_peer(&self, what: &[u8], peer: LineOwner) {
        if self.notes()
            && let Ok(mut happenings) = self.happenings.try_borrow_mut()
        {
            self.keep(put_peer(&mut happenings, what, peer));
        }
    }

    /// Something happened for a reason.
    pub fn note_shown(&self, what: &[u8], why: &impl Debug) {
        if self.notes()
            && let Ok(mut happenings) = self.happenings.try_borrow_mut()
        {
            self.keep(put_shown(&mut happenings, what, why));
        }
    }
}

/// What a connection took; nothing where it was never opened.
fn taken_by(taken: &[TakenBytes], peer: LineOwner) -> &[u8] {
    for each in taken {
        if each.peer == peer {
            return each.bytes.as_slice();
        }
    }
    &[]
}

/// Adds a line of a word and a connection.
fn put_peer(out: &mut Vec<u8>, what: &[u8], peer: LineOwner) -> Result<(), NoMemory> {
    out.extend_from_slice(what)?;
    out.extend_from_slice(b" ")?;
    peer.put_name(out)
}
