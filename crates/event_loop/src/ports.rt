//! The users' port, of the one loop that serves it: users that connect are handed out in rotation. A loop that has no seat for one passes
//! it on to the next.

ghost use Rattle.std.specs.Prelude.{◌≡◌, ◌<◌, ◌+◌, ◌-◌, ◌%◌, ◌^◌, [], Bool, false, Some, cond, min, nat_eq, nat_lt};
ghost use Rattle.event_loop.specs.Admission.{IsLetIn, networks_of};
ghost use Rattle.event_loop.specs.Mail.{Sends, HandsOut, asks, hands, is_own};

use crate::addresses::Addresses;
use crate::admission::{Admission, ip_of, judged};
use crate::inbox::Handed;
use crate::listening::{Accepted, Listening};
use crate::live::LatestConfig;
use crate::mail::Mail;
use crate::room::Room;
use mio::net::TcpStream;
use std::alloc::Global;
use std::net::SocketAddr;
use std::sync::{Arc, Wait};
use std::time::Duration;

/// How many connections are accepted before others get their turn.
const ACCEPTS: u32 = 256;

/// How often as many are accepted before the port is closed: 65,536 connections in all. Mostly the system lets fewer wait (listen(2)).
const LAST_ACCEPTS: u32 = 256;

/// How long a loop waits for room for a user, in milliseconds, before it asks again.
const CROWDED: u64 = 5;

/// How long a loop waits for the last user to go, in milliseconds, before it looks again.
const DRAINING: u64 = 50;

/// The users' port.
#[derive(Drop)]
pub struct Ports {
    /// Where users connect; none once no further one is taken.
    users: Option<Listening>,
    room: Arc<Room>,
    /// How many loops take users: the first ones.
    loops: usize,
    /// The configuration that says which networks users may come from; none where they may come from everywhere.
    admitted: Option<LatestConfig>,
    addresses: Addresses,
    /// A user for whom there is no room yet.
    waiting: Option<(TcpStream, SocketAddr)>,
    /// How many users were handed out.
    accepted: u64,
    /// How often a loop was asked to make room.
    asked: u64,
}

/// The loop that serves the connection of this number, in the order of acceptance: each in its turn.
fn loop_of(number: u64, loops: usize) -> usize
    requires { 0 < loops }
    ensures there { result < loops }
    ensures turn { result ≡ number % loops }
{
    (number % loops as u64) as usize
}

/// The loop after this one, of the first `loops` ones: after the last of them comes the first.
fn next_of(own: usize, loops: usize) -> usize
    requires { 0 < loops }
    ensures { result ≡ cond (nat_lt (own + 1) loops) (own + 1) 0 }
{
    if own < loops - 1 { own + 1 } else { 0 }
}

/// Hands a user to a loop, and wakes that one, unless it is the own one, or others lie in its inbox: it was woken for those. One for whom
/// no memory is found is closed.
fn hand_to<M: Mail, R: Wait>(rt: &R, mail: &mut M, to: usize, is_own: bool, user: Handed)
    ensures { (alone : Bool) × Sends M.Mail mail.old mail.new (hands is_own to user.number alone) }
{
    let is_alone = match mail.lay(rt, to, user) {
        Ok(is_alone) => is_alone,
        Err(_) => false,
    };
    if is_alone && !is_own {
        mail.wake(to);
    }
}

/// Passes a user on to the loop after this one, which has no seat for it. One for whom no memory is found is closed.
pub(crate) fn pass_on<M: Mail, R: Wait>(rt: &R, own: usize, mail: &mut M, user: Handed)
    ensures { 0 < user.loops → (alone : Bool)
        × Sends M.Mail mail.old mail.new (hands false (cond (nat_lt (own + 1) user.loops) (own + 1) 0) user.number alone) }
{
    let mut user = user;
    user.tried = user.tried.saturating_add(1);
    if user.loops > 0 {
        let to = next_of(own, user.loops);
        hand_to(rt, mail, to, false, user);
    }
}

/// What came of a user that has connected.
#[derive(Clone, Copy)]
enum Turn {
    /// It lies in the inbox of the loop that serves the port, which wasn't woken for it.
    Own,
    /// It was handed to another loop.
    Other,
    /// There is no room for it: it waits.
    Waits,
}

impl Ports {
    /// The port before the first user, with room for users; the first `loops` loops take them.
    pub fn new(
        alloc: Global,
        users: Listening,
        room: Arc<Room>,
        loops: usize,
        admission: Admission,
    ) -> Ports {
        Ports {
            users: Some(users),
            room,
            loops,
            admitted: admission.users,
            addresses: Addresses::new(alloc, admission.most),
            waiting: None,
            accepted: 0,
            asked: 0,
        }
    }

    /// How long a loop may wait at most before it asks for connections that no event reports.
    pub fn patience(&self) -> Option<Duration> {
        match &self.users {
            Some(users) if self.waiting.is_none() || users.is_behind() => users.patience(),
            None if self.waiting.is_none() => Some(Duration::from_millis(DRAINING)),
            _ => Some(Duration::from_millis(CROWDED)),
        }
    }

    /// Whether users may wait whom no event reports.
    pub fn has_users(&self) -> bool {
        match &self.users {
            Some(users) => self.waiting.is_some() || users.may_have_more(),
            None => self.waiting.is_some(),
        }
    }

    /// Whether the last call to accept took its most, so that others may have connected who can be taken in.
    fn is_behind(&self) -> bool {
        match &self.users {
            Some(users) => self.waiting.is_none() && users.is_behind(),
            None => false,
        }
    }

    /// Takes in those that have connected, as long as there is room, and closes the port: a further user is refused by the system. Each
    /// loop but that of the number `own` is woken for them.
    pub fn close<M: Mail, R: Wait>(&mut self, rt: &R, own: usize, mail: &mut M) {
        for _ in 0..LAST_ACCEPTS {
            let _ = self.accept(rt, own, mail);
            if !self.is_behind() {
                break;
            }
        }
        self.users = None;
    }

    /// Whether the port is closed, and the last user has gone.
    pub fn is_over(&self) -> bool {
        self.users.is_none() && self.waiting.is_none() && self.room.is_empty()
    }

    /// The user who waits for room, or the next one. One that comes from elsewhere than users may is closed.
    fn next(&mut self) -> Accepted
        ensures let_in { IsLetIn (networks_of self.old.admitted) self.old.waiting result }
        ensures kept { (self.new.accepted ≡ self.old.accepted) × (self.new.loops ≡ self.old.loops) }
        ensures admitted { self.new.admitted ≡ self.old.admitted }
    {
        if let Some((stream, from)) = self.waiting.take() {
            return Accepted::One(stream, from);
        }
        let next = match &mut self.users {
            Some(users) => users.accept(),
            None => Accepted::None,
        };
        match &self.admitted {
            Some(latest) => judged(&latest.config().users, &self.room, next),
            None => next,
        }
    }

    /// Users are let in by the configuration that stands now.
    pub fn renew<R: Wait>(&mut self, rt: &R)
        ensures { self.new ≡ record self.old { admitted = self.new.admitted } }
    {
        if let Some(latest) = &mut self.admitted {
            latest.renew(rt);
        }
    }

    /// Accepts users while there is room for them, and hands them out in rotation. One for whom no memory is found is closed. Says
    /// whether the inbox of the number `own` has got one: its loop isn't woken for it.
    pub fn accept<M: Mail, R: Wait>(&mut self, rt: &R, own: usize, mail: &mut M) -> bool
        ensures out { HandsOut M.Mail mail.old mail.new own self.old.loops self.old.accepted self.new.accepted result }
        ensures loops { self.new.loops ≡ self.old.loops }
    {
        let mut came = false;
        for _ in 0..ACCEPTS {
            match self.next() {
                Accepted::One(stream, from) => match self.hand(rt, own, mail, stream, from) {
                    Turn::Own => came = true,
                    Turn::Other => {}
                    Turn::Waits => return came,
                },
                Accepted::Gone => {}
                Accepted::None | Accepted::Rest => return came,
            }
        }
        if let Some(users) = &mut self.users {
            users.fall_behind();
        }
        came
    }

    /// Asks the loop whose turn it is to make room, and wakes it. The one that serves the port isn't woken: it is asked at its next turn,
    /// after a pause, so that it doesn't ask itself again and again.
    fn ask_for_room<M: Mail>(&mut self, own: usize, mail: &mut M)
        ensures asks { 0 < self.old.loops
            → Sends M.Mail mail.old mail.new (asks (nat_eq (self.new.asked % self.old.loops) own) (self.new.asked % self.old.loops)) }
        ensures none { self.old.loops ≡ 0 → Sends M.Mail mail.old mail.new [] }
        ensures kept { self.new ≡ record self.old { asked = self.new.asked } }
    {
        self.asked = self.asked.wrapping_add(1);
        if self.loops > 0 {
            let to = loop_of(self.asked, self.loops);
            mail.crowd(to);
            let is_own = to == own;
            if !is_own {
                mail.wake(to);
            }
        }
    }

    /// Hands a user to the loop whose turn it is. If there is no room for it, it waits, and a loop is asked to make some.
    fn hand<M: Mail, R: Wait>(
        &mut self,
        rt: &R,
        own: usize,
        mail: &mut M,
        stream: TcpStream,
        from: SocketAddr,
    ) -> Turn
        ensures out { HandsOut M.Mail mail.old mail.new own self.old.loops self.old.accepted self.new.accepted (is_own result) }
        ensures counted { (result ≡ Turn.Waits → ⊥) → self.new.accepted ≡ min (self.old.accepted + 1) (2 ^ 64 - 1) }
        ensures waits { result ≡ Turn.Waits → (self.new.waiting ≡ Some (stream, from)) × (self.new.accepted ≡ self.old.accepted) }
        ensures loops { self.new.loops ≡ self.old.loops }
    {
        let Some(permit) = Room::enter(&self.room) else {
            self.waiting = Some((stream, from));
            self.ask_for_room(own, mail);
            return Turn::Waits;
        };
        let mut permit = permit;
        let from = ip_of(from);
        permit.have(self.addresses.enter(from));
        self.accepted = self.accepted.saturating_add(1);
        let number = self.accepted;
        let user = Handed {
            stream,
            from,
            number,
            permit,
            loops: self.loops,
            tried: 0,
        };
        if self.loops == 0 {
            return Turn::Other;
        }
        let to = loop_of(number, self.loops);
        let is_own = to == own;
        hand_to(rt, mail, to, is_own, user);
        if is_own { Turn::Own } else { Turn::Other }
    }
}
