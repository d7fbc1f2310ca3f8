//! The administrator's part in a loop, and that of those who read the counters.

ghost use Rattle.std.specs.Prelude.{⊤};
ghost use Rattle.event_loop.specs.Turns.{Answers, Did};

use crate::admin_lines::Request;
use crate::asker::MAX_ASKERS;
use crate::askers::Askers;
use crate::inbox::{Inbox, drain_all, stop_all};
use crate::looping::EventLoop;
use crate::work::Work;
use std::sync::Wait;
use std::time::Clock;

/// What each connection asks for next, where it asks for something. `stop` and `drain` are done here, before any other is answered.
fn hear_each(askers: &mut Askers, inboxes: &[Inbox]) -> [Option<Request>; MAX_ASKERS] {
    let mut asked = [None; MAX_ASKERS];
    for (key, request) in asked.iter_mut().enumerate() {
        match askers.hear(key) {
            Some(Request::Stop) => stop_all(inboxes),
            Some(Request::Drain) => {
                drain_all(inboxes);
                askers.say(key, b"ok\n");
            }
            heard => *request = heard,
        }
    }
    asked
}

/// Hears the connections of one port, where one may have said more, and answers them.
fn serve<K: Work, R: Wait + Clock>(
    rt: &R,
    work: &mut K,
    askers: &mut Askers,
    inboxes: &[Inbox],
    now: u64,
)
    ensures { Answers K.Work work.old work.new }
{
    if askers.catch_up() {
        serve_heard(rt, work, askers, inboxes, now);
    }
}

/// Hears the connections of a port, and answers them. All their requests have room in this call alone: most turns hear none.
fn serve_heard<K: Work, R: Wait + Clock>(
    rt: &R,
    work: &mut K,
    askers: &mut Askers,
    inboxes: &[Inbox],
    now: u64,
)
    ensures { Answers K.Work work.old work.new }
{
    let asked = hear_each(askers, inboxes);
    answer_each(rt, work, askers, &asked, now);
}

/// Answers what each connection asks for. One for whose answer no memory is found is closed.
fn answer_each<K: Work, R: Wait + Clock>(
    rt: &R,
    work: &mut K,
    askers: &mut Askers,
    asked: &[Option<Request>; MAX_ASKERS],
    now: u64,
)
    ensures { Answers K.Work work.old work.new }
{
    for (key, request) in asked.iter().enumerate() {
        match request {
            Some(Request::Bad) => askers.say(key, b"bad\n"),
            Some(request) => match work.answer(rt, *request, now) {
                Ok(answer) => askers.say(key, answer.as_slice()),
                Err(_) => askers.leave(key),
            },
            None => {}
        }
    }
}

impl<K: Work> EventLoop<K> {
    /// Hears one line of each connection of the administrator that may have said more, and one request of those that read the counters.
    pub(super) fn hear<R: Wait + Clock>(&mut self, rt: &R, inboxes: &[Inbox])
        ensures { Did K.Work self.old self.new (λ deeds. ⊤) }
    {
        let now = self.now();
        serve(rt, &mut self.work, &mut self.admin, inboxes, now);
        serve(rt, &mut self.work, &mut self.metrics, inboxes, now);
    }
}
