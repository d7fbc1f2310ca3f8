//! A turn of a loop: what is served between two waits.

ghost use Rattle.std.specs.Prelude.{◌≡◌, ◌<◌, [], ◌∷◌, ℕ, true, All, length, OnOk, ⊤};
ghost use Rattle.event_loop.specs.Deeds.Deed.{MadeRoom};
ghost use Rattle.event_loop.specs.Turns.{Does, Did, AreServed, AreNotes, IsServed, IsAsked, IsAdmitted, Serves};

use crate::asker::MAX_ASKERS;
use crate::ended::LoopFault;
use crate::event::Event;
use crate::inbox::{Handed, Inbox};
use crate::looping::{ADMIN, EventLoop, LISTENER, METRICS, WAKER};
use crate::mail::Inboxes;
use crate::ports::pass_on;
use crate::work::{Admitted, Work};
use socket_wire::{Dial, peer_of};
use std::alloc::Global;
use std::sync::Wait;
use std::time::Clock;

impl<K: Work> EventLoop<K> {
    /// Serves all events. All of them are noted before anybody is driven: so no exchange takes a connection of which an event stands
    /// further on. Users are taken in last: until then no key is another user's than the one that an event is about.
    pub(super) fn turn<R: Wait + Dial + Clock>(
        &mut self,
        rt: &R,
        alloc: Global,
        number: usize,
        inboxes: &[Inbox],
    ) -> Result<(), LoopFault>
        requires { number < length inboxes.now }
        ensures { Did K.Work self.old self.new (λ deeds.
            OnOk result (Serves K.Work self.old self.new self.old.reports.seen.items deeds)) }
    {
        let woken = self.serve_seen(rt, alloc, number, inboxes);
        self.drain_if_asked(rt, number, inboxes)?;
        self.drive_ready(rt)?;
        self.hear(rt, inboxes);
        self.crowd_out(rt, number, inboxes);
        self.wake_up(rt, woken)?;
        self.ask_ports(rt, alloc, number, inboxes);
        self.take_handed(rt, alloc, woken, number, inboxes)?;
        self.answer_question(rt, number, inboxes);
        Ok(())
    }

    /// Makes room for a user, if the loop was asked to.
    fn crowd_out<R: Wait + Dial + Clock>(&mut self, rt: &R, number: usize, inboxes: &[Inbox])
        requires { number < length inboxes.now }
        ensures { Did K.Work self.old self.new (λ deeds. ⊤) }
    {
        if inboxes[number].take_crowded() && self.make_room(rt) {
            inboxes[0].wake();
        }
    }

    /// Drives those that the queues name, where the loop was woken.
    fn wake_up<R: Wait + Dial + Clock>(&mut self, rt: &R, woken: bool) -> Result<(), LoopFault>
        ensures { Did K.Work self.old self.new (λ deeds. OnOk result (woken ≡ true → (queue : ℕ)
            → queue < K.queues self.old.work → IsAsked queue deeds self.new.ready)) }
    {
        if woken {
            self.drive_first(rt)?;
        }
        Ok(())
    }

    /// Takes in the users that lie in the inbox, where the loop was woken, or has laid some there itself.
    fn take_handed<R: Wait + Dial + Clock>(
        &mut self,
        rt: &R,
        alloc: Global,
        woken: bool,
        number: usize,
        inboxes: &[Inbox],
    ) -> Result<(), LoopFault>
        requires { number < length inboxes.now }
        ensures { Did K.Work self.old self.new (λ deeds. ⊤) }
    {
        if woken || self.laid {
            self.laid = false;
            self.take_in(rt, number, inboxes, inboxes[number].take_all(rt, alloc))?;
        }
        Ok(())
    }

    /// Answers what the administrator wants to know of its exchanges, if it was asked. No lock is held while its work writes.
    fn answer_question<R: Wait + Clock>(&self, rt: &R, number: usize, inboxes: &[Inbox])
        requires { number < length inboxes.now }
    {
        let inbox = &inboxes[number];
        if inbox.is_asked() {
            self.answer(rt, inbox);
        }
    }

    /// Takes the question and answers it. Its sheet has room in this call alone: most turns are asked nothing.
    #[inline(never)]
    fn answer<R: Wait + Clock>(&self, rt: &R, inbox: &Inbox) {
        if let Some((question, sheet)) = inbox.take_question(rt) {
            let mut sheet = sheet;
            self.work.show(rt, question, self.now(), &mut sheet);
            inbox.lay_answer(rt, sheet);
        }
    }

    /// Has its work make room for another user. False where there is none to be made.
    fn make_room<R: Wait + Dial + Clock>(&mut self, rt: &R) -> bool
        ensures { Does K.Work self.old self.new (MadeRoom result ∷ []) }
    {
        let millis = self.elapsed;
        self.work.make_room(rt, self.poll.registry(), millis)
    }

    /// Serves the events that were noted down, and says whether one of them was that the loop was woken.
    fn serve_seen<R: Wait>(
        &mut self,
        rt: &R,
        alloc: Global,
        number: usize,
        inboxes: &[Inbox],
    ) -> bool
        ensures { Did K.Work self.old self.new (λ deeds.
            AreServed self.old.reports.seen.items result deeds self.new.ready × AreNotes deeds) }
    {
        let mut woken = false;
        for at in 0..self.reports.count() {
            let event = self.reports.get(at);
            if event.token == WAKER.0 {
                woken = true;
            } else {
                self.serve(rt, alloc, number, inboxes, event);
            }
        }
        woken
    }

    /// Serves one event. An exchange for which it is news is marked: it is driven once all events are noted.
    fn serve<R: Wait>(
        &mut self,
        rt: &R,
        alloc: Global,
        number: usize,
        inboxes: &[Inbox],
        event: Event,
    )
        ensures { Did K.Work self.old self.new (λ deeds. IsServed event deeds self.new.ready × AreNotes deeds) }
    {
        if event.token == LISTENER.0 {
            self.accept(rt, number, inboxes);
            return;
        }
        if event.token == ADMIN.0 {
            self.admin.accept(alloc, self.poll.registry());
            return;
        }
        if event.token == METRICS.0 {
            self.metrics.accept(alloc, self.poll.registry());
            return;
        }
        match peer_of(event.token) {
            Some((number, peer)) => match self.work.note(number, peer, event.told) {
                Some(key) => self.ready.add(key),
                None => {}
            },
            None => {
                let key = event.token / 4;
                if key < MAX_ASKERS {
                    self.admin.note(key, event.told);
                } else {
                    self.metrics.note(key - MAX_ASKERS, event.told);
                }
            }
        }
    }

    /// Accepts users.
    fn accept<R: Wait>(&mut self, rt: &R, number: usize, inboxes: &[Inbox])
        ensures { Does K.Work self.old self.new [] }
    {
        let mut mail = Inboxes::new(inboxes);
        let Some(ports) = &mut self.ports else {
            return;
        };
        ports.renew(rt);
        if ports.accept(rt, number, &mut mail) {
            self.laid = true;
        }
    }

    /// Asks the ports for connections that no event reports.
    fn ask_ports<R: Wait>(&mut self, rt: &R, alloc: Global, number: usize, inboxes: &[Inbox])
        ensures { Does K.Work self.old self.new [] }
    {
        self.admin.accept_more(alloc, self.poll.registry());
        self.metrics.accept_more(alloc, self.poll.registry());
        if let Some(ports) = &self.ports
            && ports.has_users()
        {
            self.accept(rt, number, inboxes);
        }
    }

    /// Takes in the users that were handed to this loop. One for whom there is no seat is passed on, as long as another loop may have one.
    fn take_in<R: Wait + Dial + Clock>(
        &mut self,
        rt: &R,
        number: usize,
        inboxes: &[Inbox],
        users: Vec<Handed>,
    ) -> Result<(), LoopFault>
        ensures { Did K.Work self.old self.new (λ deeds.
            OnOk result (All (λ user. IsAdmitted user.number deeds self.new.ready) users.items)) }
    {
        let mut mail = Inboxes::new(inboxes);
        for user in users {
            let millis = self.elapsed;
            match self.work.admit(rt, self.poll.registry(), user, millis) {
                Admitted::Seated(key) => self.drive(rt, key)?,
                Admitted::Full(user) => pass_on(rt, number, &mut mail, user),
                Admitted::Closed => {}
            }
        }
        Ok(())
    }
}
