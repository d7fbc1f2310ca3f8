//! The place of a question for a thread, and of its answer: one at a time.

use crate::admin_lines::Question;
use crate::sheet::Sheet;
use std::mem;
use std::sync::atomic::{AtomicBool, Ordering};
use std::sync::{Condvar, CondvarTimeouts, Mutex, Wait};
use std::time::{Clock, Duration};

/// What lies there.
#[derive(Drop)]
enum Slip {
    /// Nothing.
    Free,
    /// A question, and the sheet for its answer.
    Asked(Question, Sheet),
    /// Nothing: the thread writes its answer.
    Writing,
    /// The answer.
    Answered(Sheet),
}

/// One question at a time, and its answer.
#[derive(Drop)]
pub(crate) struct QuestionSlot {
    slip: Mutex<Slip>,
    /// Whether a question may lie there: a thread that isn't asked takes no lock to see so.
    asks: AtomicBool,
    /// An answer lies there.
    answered: Condvar,
}

impl QuestionSlot {
    /// One in which nothing lies.
    pub(crate) fn new() -> QuestionSlot {
        QuestionSlot {
            slip: Mutex::new(Slip::Free),
            asks: AtomicBool::new(false),
            answered: Condvar::new(),
        }
    }

    /// Lays a question in, in the place of an answer that nobody took. False where an earlier question isn't answered yet.
    pub(crate) fn ask<R: Wait>(&self, rt: &R, question: Question, sheet: Sheet) -> bool {
        let mut slip = self.slip.lock(rt);
        match *slip {
            Slip::Asked(_, _) | Slip::Writing => return false,
            Slip::Free | Slip::Answered(_) => {}
        }
        let untaken = mem::replace(&mut *slip, Slip::Asked(question, sheet));
        drop(slip);
        drop(untaken);
        self.asks.store(true, Ordering::SeqCst);
        true
    }

    /// Whether a question may lie there.
    pub(crate) fn is_asked(&self) -> bool {
        self.asks.load(Ordering::SeqCst)
    }

    /// Takes the question that lies there: its answer is written from now on.
    pub(crate) fn take<R: Wait>(&self, rt: &R) -> Option<(Question, Sheet)> {
        if !self.asks.swap(false, Ordering::SeqCst) {
            return None;
        }
        let mut slip = self.slip.lock(rt);
        match mem::replace(&mut *slip, Slip::Writing) {
            Slip::Asked(question, sheet) => Some((question, sheet)),
            other => {
                *slip = other;
                None
            }
        }
    }

    /// Lays the answer in, and wakes whoever waits for it.
    pub(crate) fn lay<R: Wait>(&self, rt: &R, sheet: Sheet) {
        let mut slip = self.slip.lock(rt);
        *slip = Slip::Answered(sheet);
        drop(slip);
        self.answered.notify_one();
    }

    /// Takes the answer, and waits for it so long at most. `None` where it didn't come.
    pub(crate) fn answer<R: Wait + Clock>(&self, rt: &R, most: Duration) -> Option<Sheet> {
        let slip = self.slip.lock(rt);
        let (mut slip, _) = self
            .answered
            .wait_timeout_while(rt, slip, most, |slip| !matches!(slip, Slip::Answered(_)));
        match mem::replace(&mut *slip, Slip::Free) {
            Slip::Answered(sheet) => Some(sheet),
            other => {
                *slip = other;
                None
            }
        }
    }
}
