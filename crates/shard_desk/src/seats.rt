//! Users' connections by their keys: their readiness, when they last moved, and which can best be spared.

ghost use Rattle.std.specs.Prelude.{◌≡◌, ◌↔◌, ◌/◌, if◌then◌else◌, true, false, None, IfSome};
ghost use Rattle.shard_desk.specs.Sparing.{GivesWay, HasRank, has_ended, is_gone};

mod waiting;
mod wiring;

use crate::lines::RegisteredLines;
use crate::seat::{Purpose, Seat};
use event_loop::{Share, Spared, Stay, UserPermit, is_young, youth_of};
use slab::Slab;
use std::alloc::{AllocError, Global};
use std::mem;
use std::net::Ipv4Addr;
use trace_core::Point;

/// The milliseconds of a second.
pub(crate) const SECOND: u64 = 1000;

/// How many seats there are beyond those of the users that are served.
const SPARE: usize = 16;

/// The seats of a thread, each under its key.
#[derive(Drop)]
pub struct Seats {
    alloc: Global,
    all: Slab<Seat>,
    lines: RegisteredLines,
    most: usize,
    refused: usize,
    /// The number that was given last to a stay. One is used up too where a stay goes on.
    stays: u64,
    /// How many users that are served have ended their bytes.
    ended: usize,
    /// How many turns of the loop are over.
    turn: u64,
    /// This turn, where its poll reported all that there was to report; else 0.
    heard: u64,
}

impl Seats {
    ghost use Rattle.event_loop.specs.Shares.{has_none, is_over};
    ghost use Rattle.shard_desk.specs.Seats.{heard_of, HasRoom, IsAnnounced, IsFor, MayRefuse, IsTaken, sits_alone, user_address};
    ghost use Rattle.slab.specs.Slab.{get};

    /// No seat is taken, and at most `most` users may be served at once. `Err` if no memory was found for their seats.
    pub fn new(alloc: Global, most: usize) -> Result<Seats, AllocError> {
        let mut seats = Seats {
            alloc,
            all: Slab::new(alloc),
            lines: RegisteredLines::new(alloc),
            most,
            refused: 0,
            stays: 0,
            ended: 0,
            turn: 0,
            heard: 0,
        };
        let bound = seats.bound();
        seats.all.reserve(bound)?;
        Ok(seats)
    }

    /// All seats, which come back after the call that they are lent for. Until then there is none here, which takes no memory.
    pub fn lend(&mut self) -> Seats {
        let none = Seats {
            alloc: self.alloc,
            all: Slab::new(self.alloc),
            lines: RegisteredLines::new(self.alloc),
            most: 0,
            refused: 0,
            stays: 0,
            ended: 0,
            turn: 0,
            heard: 0,
        };
        mem::replace(self, none)
    }

    /// How many there may be: those of the users that are served, and those of some that are refused.
    pub fn bound(&self) -> usize {
        self.most.saturating_add(SPARE)
    }

    /// Whether a further user can be served.
    pub fn has_room(&self) -> bool
        ensures { result ≡ true ↔ HasRoom self.now }
    {
        self.all.len().saturating_sub(self.refused) < self.most
    }

    /// What the next seat is for, that of a user whose address has no share left or of another one. `None` if no seat is free.
    fn next_purpose(&self, is_over: bool) -> Option<Purpose>
        ensures some { IfSome result (IsFor is_over self.now) }
        ensures none { result ≡ None → (is_over ≡ false → HasRoom self.now → ⊥) × (MayRefuse self.now → ⊥) }
    {
        if !is_over && self.has_room() {
            Some(Purpose::Requests)
        } else if self.refused < SPARE {
            Some(Purpose::Refusal)
        } else {
            None
        }
    }

    /// How many bytes a user has taken, on its connection.
    pub fn taken(&self, key: usize) -> u64 {
        match self.all.get(key) {
            Some(seat) => seat.taken(),
            None => 0,
        }
    }

    /// Whether no seat is taken.
    pub fn is_empty(&self) -> bool {
        self.all.is_empty()
    }

    /// Whether nobody else sits here beside one user.
    pub fn sits_alone(&self) -> bool
        ensures { result ≡ sits_alone self.now }
    {
        self.all.len() < 2
    }

    /// Takes a seat for a user's connection of this number, from this address, at this moment, in milliseconds, and says what it is for.
    /// `None` if no seat is free.
    pub fn take(
        &mut self,
        number: u64,
        from: Ipv4Addr,
        permit: UserPermit,
        millis: u64,
    ) -> Option<(usize, Purpose)>
        ensures taken { IfSome result (λ taken. IsTaken (is_over permit) from self.old self.new taken.0 taken.1 (millis / SECOND)) }
    {
        let purpose = self.next_purpose(permit.is_over())?;
        let since = self.next_stay();
        if self.all.reserve(1).is_err() || self.all.vacant_key() >= self.bound() {
            return None;
        }
        let key = self
            .all
            .insert_reserved(Seat::new(purpose, number, from, permit, millis, since));
        if purpose == Purpose::Refusal {
            self.refused = self.refused.saturating_add(1);
        }
        Some((key, purpose))
    }

    /// Leaves a seat.
    pub fn leave(&mut self, key: usize) {
        let Some(seat) = self.all.try_remove(key) else {
            return;
        };
        self.free(seat.origin);
        self.free(seat.service);
        if seat.purpose == Purpose::Refusal {
            self.refused = self.refused.saturating_sub(1);
        } else if seat.ended {
            self.ended = self.ended.saturating_sub(1);
        }
    }

    /// The number of the user's connection, in the order of acceptance.
    pub fn number(&self, key: usize) -> u64 {
        match self.all.get(key) {
            Some(seat) => seat.number,
            None => 0,
        }
    }

    /// The address that a user's connection comes from.
    pub fn user_address(&self, key: usize) -> Option<Ipv4Addr>
        ensures { result ≡ user_address self.now key }
    {
        match self.all.get(key) {
            Some(seat) => Some(seat.from),
            None => None,
        }
    }

    /// The connection under this key comes from this address, and has this share of the connections of it. What its seat is for from now
    /// on: the refusal where it has none. `None` if no seat is free for that, or there is none under this key.
    pub fn announce(&mut self, key: usize, from: Ipv4Addr, share: Share) -> Option<Purpose>
        ensures { IfSome result (IsAnnounced (has_none share) from self.new key) }
    {
        let can_refuse = self.refused < SPARE;
        let seat = self.all.get_mut(key)?;
        seat.come_from(from, share);
        if seat.purpose == Purpose::Refusal || !seat.permit.is_over() {
            return Some(seat.purpose);
        }
        if !can_refuse {
            return None;
        }
        let had_ended = seat.ended;
        seat.refuse();
        self.refused = self.refused.saturating_add(1);
        if had_ended {
            self.ended = self.ended.saturating_sub(1);
        }
        Some(Purpose::Refusal)
    }

    /// The number of the next stay.
    fn next_stay(&mut self) -> u64
        ensures { self.new ≡ record self.old { stays = self.new.stays } }
    {
        self.stays = self.stays.saturating_add(1);
        self.stays
    }

    /// Takes note of what a user's connection is in the midst of from now on.
    pub fn begin_stay(&mut self, key: usize, stay: Stay) {
        let since = self.next_stay();
        if let Some(seat) = self.all.get_mut(key)
            && seat.purpose == Purpose::Requests
            && seat.stay != stay
        {
            seat.stay = stay;
            seat.since = since;
            seat.awaited.head = None;
        }
    }

    /// A byte of a request's head has come. Its time counts from the first one.
    pub fn begin_head(&mut self, key: usize, now: u64) {
        if let Some(seat) = self.all.get_mut(key)
            && seat.awaited.head.is_none()
        {
            seat.awaited.head = Some(now);
        }
    }

    /// Takes note of the connections that are awaited, of those which the exchange needs: their times count from now on.
    pub fn await_connections(&mut self, key: usize, now: u64, origin: bool, service: bool) {
        if let Some(seat) = self.all.get_mut(key) {
            seat.await_connections(&self.lines, now, origin, service);
        }
    }

    /// A request comes on a user's connection, of which nothing was read yet: it isn't spared before it is driven.
    pub fn await_head(&mut self, key: usize) {
        self.begin_stay(key, Stay::Exchange);
    }

    /// For how many milliseconds a head isn't spared at this moment, in milliseconds.
    pub fn youth(&self, millis: u64) -> u64 {
        let mut heads = 0usize;
        for key in 0..self.bound() {
            if let Some(seat) = self.all.get(key)
                && is_young(seat.stay, millis.saturating_sub(seat.came))
            {
                heads = heads.saturating_add(1);
            }
        }
        youth_of(heads, self.most)
    }

    /// The connection under a key at this moment, in milliseconds, where it is spared rather than the best one so far. For so many
    /// milliseconds a head isn't. A user for whom there is no room takes none from another: it isn't spared.
    pub fn better(
        &self,
        key: usize,
        millis: u64,
        youth: u64,
        best: Option<Spared>,
    ) -> Option<Spared>
        ensures { IfSome result (λ spared. (spared.key ≡ key) × HasRank self.now key millis youth spared.rank) }
    {
        let seat = self.all.get(key)?;
        let this = seat.spared(key, millis, youth)?;
        match best {
            Some(best) if !this.comes_before(&best) => None,
            _ => Some(this),
        }
    }

    /// Whether the user's connection is gone both ways.
    pub fn is_gone(&self, key: usize) -> bool
        ensures { result ≡ is_gone (get self.now.all key) }
    {
        match self.all.get(key) {
            Some(seat) => seat.gone,
            None => false,
        }
    }

    /// Whether the user has ended its bytes, or its connection is gone both ways.
    pub fn has_ended(&self, key: usize) -> bool
        ensures { result ≡ has_ended (get self.now.all key) }
    {
        match self.all.get(key) {
            Some(seat) => seat.ended,
            None => false,
        }
    }

    /// The exchange under this key has a connection to the service of this point, or none.
    pub fn lease(&mut self, key: usize, point: Option<Point>) {
        if let Some(seat) = self.all.get_mut(key) {
            seat.leases = point;
        }
    }

    /// The point to whose service the exchange under this key has a connection.
    pub fn leases(&self, key: usize) -> Option<Point> {
        match self.all.get(key) {
            Some(seat) => seat.leases,
            None => None,
        }
    }

    /// The exchange with a connection to the service of this point, whose user has ended its bytes: the one whose stay began first.
    pub fn ended_with(&self, point: Point) -> Option<usize>
        ensures { IfSome result (GivesWay self.now point) }
    {
        if self.ended == 0 {
            return None;
        }
        let mut first = None;
        let mut since = u64::MAX;
        for key in 0..self.bound() {
            if let Some(seat) = self.all.get(key)
                && seat.leases == Some(point)
                && seat.ended
                && seat.since < since
            {
                first = Some(key);
                since = seat.since;
            }
        }
        first
    }

    /// The poll of this turn reported all that there was to report, or only as much as it had room for.
    pub(crate) fn heard(&mut self, is_whole: bool)
        ensures { self.new ≡ record self.old { heard = if is_whole then self.old.turn else 0 } }
    {
        self.heard = if is_whole { self.turn } else { 0 };
    }

    /// The loop's turn, where its poll reported all that there was to report. Else 0: an idle connection of which it said nothing may have
    /// been heard on.
    pub fn heard_at(&self) -> u64
        ensures { result ≡ heard_of self.now }
    {
        self.heard
    }

    /// A turn of the loop is over.
    pub(crate) fn turn_over(&mut self) {
        self.turn = self.turn.saturating_add(1);
        self.lines.turn_over();
    }

    /// Whether a user that is served has ended its bytes.
    pub fn have_ended(&self) -> bool {
        self.ended > 0
    }

    /// A user that is served has ended its bytes.
    fn end(&mut self, key: usize) {
        self.ended = self.ended.saturating_add(1);
        if let Some(seat) = self.all.get_mut(key) {
            seat.permit.end();
        }
    }
}
