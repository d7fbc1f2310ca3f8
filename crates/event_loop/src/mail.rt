//! What a loop sends to others, and to itself.

ghost use Rattle.std.specs.Prelude.{List, ⊤};
ghost use Rattle.event_loop.specs.Sendings.{Sending, Adds, is_alone};
ghost use Rattle.event_loop.specs.Sendings.Sending.{Laid, Crowded, Woke};

use crate::inbox::{Handed, Inbox};
use std::alloc::AllocError;
use std::sync::Wait;

/// The way to the inboxes of all loops, each found by its number.
///
/// Contracts see it as its possible pasts: what may have been sent so far, the newest first. One that keeps no record may have had each
/// past: there a clause about sendings says what its sender did.
pub(crate) trait Mail {
    ghost past: { Self → List Sending → Type 0 };

    /// Lays a user into an inbox, and says whether it is alone there. `Err` where no memory was found for it, or there is no such loop:
    /// then its connection is closed.
    fn lay<R: Wait>(&mut self, rt: &R, to: usize, user: Handed) -> Result<bool, AllocError>
        ensures { Adds (past self.old) (past self.new) (Laid to user.number (is_alone result)) };

    /// Asks a loop to make room for one user, at its next turn.
    fn crowd(&mut self, to: usize)
        ensures { Adds (past self.old) (past self.new) (Crowded to) };

    /// Ends the wait of a loop.
    fn wake(&mut self, to: usize)
        ensures { Adds (past self.old) (past self.new) (Woke to) };
}

/// The inboxes, in the order of their loops.
#[derive(Drop)]
pub(crate) struct Inboxes<'a> {
    all: &'a [Inbox],
}

impl<'a> Inboxes<'a> {
    pub(crate) fn new(all: &'a [Inbox]) -> Inboxes<'a> {
        Inboxes { all }
    }
}

impl<'a> Mail for Inboxes<'a> {
    // it keeps no record
    ghost past = { λ inboxes past. ⊤ };

    fn lay<R: Wait>(&mut self, rt: &R, to: usize, user: Handed) -> Result<bool, AllocError> {
        match self.all.get(to) {
            Some(inbox) => inbox.lay(rt, user),
            None => Err(AllocError),
        }
    }

    fn crowd(&mut self, to: usize) {
        if let Some(inbox) = self.all.get(to) {
            inbox.crowd();
        }
    }

    fn wake(&mut self, to: usize) {
        if let Some(inbox) = self.all.get(to) {
            inbox.wake();
        }
    }
}
