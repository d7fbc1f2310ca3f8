//! What an exchange holds.

ghost use Rattle.std.specs.Prelude.{◌≡◌, ◌&&◌, ◌||◌, is_some, option_map, None, Some, IfSome, IsSomeAnd, true, false};
ghost use Rattle.std.specs.Option.{ForSome};
ghost use Rattle.shard_exchange.specs.Hand.{IsEmpty};
ghost use Rattle.shard_message.specs.Lines.{HasLine};

use crate::connection::ServiceConnection;
use crate::connections::Remains;
use crate::moving::Moving;
use crate::outside::Kinds;
use crate::planning::Planned;
use crate::room::MessageRoom;
use crate::shown::{OnShow, Shown};
use crate::slots::put_in;
use icap_client::OptionsSide;
use proxy_rules::Incoming;
use shard_exchange::InHand;
use span_bank::{Bank, Stake};
use std::boxed::Box;
use std::sync::Wait;

/// What an exchange holds beside its course.
#[must_use]
pub struct Holdings<O: Kinds> {
    /// The user's connection, where no transaction has it.
    pub(crate) user: Option<O::User>,
    /// The message whose head comes, or was read, where no transaction has it.
    pub(crate) message: Option<Box<Incoming>>,
    /// What it was planned to be, until something is reserved for it.
    pub(crate) planned: Option<Box<Planned>>,
    /// Who asks the service for its options.
    pub(crate) asking: Option<Box<OptionsSide>>,
    /// How many bytes went out of the text that tells the user to send its body.
    pub(crate) told: usize,
    /// How many bytes went out of the refusal.
    pub(crate) refused: usize,
    /// The refusal with a page, where one was laid.
    pub(crate) page: Option<Vec<u8>>,
    /// Whether the user was told that nothing more comes.
    pub(crate) is_finished: bool,
    /// The leased connection of the service.
    pub(crate) connection: Option<ServiceConnection<O>>,
    /// The reservation, where no transaction has it.
    pub(crate) room: Option<MessageRoom<O::Ledgers>>,
    /// The connection to the origin, where no transaction has it.
    pub(crate) origin: Option<O::Origin>,
    /// How many bytes it had given, and taken, when it was dialed.
    pub(crate) before: (u64, u64),
    /// The transaction of the message.
    pub(crate) tx: Option<Moving<O>>,
    // a transaction has the reservation and the origin's connection
    pub(crate) ghost apart: { (is_some room && is_some tx) ≡ false },
    pub(crate) ghost aside: { (is_some origin && is_some tx) ≡ false },
}

/// What is still out of an exchange that isn't over.
#[must_use]
pub struct Held<O: Kinds> {
    pub lease: Option<O::Lease>,
    pub stake: Option<Stake<O::Ledgers>>,
    // the reservation holds nothing
    pub ghost empty: { ForSome stake (λ stake. (stake.held ≡ 0) × (stake.pages ≡ 0)) },
}

impl<O: Kinds> Holdings<O> {
    /// The user's connection, and the message whose head is to be read.
    pub fn new(user: O::User, message: Option<Box<Incoming>>) -> Holdings<O>
        ensures none { (result.connection ≡ None) × (result.room ≡ None) × (result.origin ≡ None) × (result.tx ≡ None) }
        ensures has { (result.user ≡ Some user) × (result.message ≡ message) × (result.planned ≡ None) × (result.asking ≡ None) }
        ensures silent { (result.told ≡ 0) × (result.refused ≡ 0) × (result.page ≡ None) × (result.is_finished ≡ false) }
    {
        Holdings {
            user: Some(user),
            message,
            planned: None,
            asking: None,
            told: 0,
            refused: 0,
            page: None,
            is_finished: false,
            connection: None,
            room: None,
            origin: None,
            before: (0, 0),
            tx: None,
        }
    }

    /// The user's connection, where no transaction has it.
    pub fn user(&self) -> Option<&O::User> {
        match &self.user {
            Some(user) => Some(user),
            None => None,
        }
    }

    /// What is shown of the message that moves, if one does.
    pub fn shown(&self) -> Option<Shown<'_>>
        ensures some { IfSome result (λ shown. IsSomeAnd self.now.tx (λ tx. (shown.state.now ≡ ⟦<Moving<O> as OnShow>⟧.history tx) × (shown.claim ≡ ⟦<Moving<O> as OnShow>⟧.claimed tx)
            × (shown.answers_user ≡ ⟦<Moving<O> as OnShow>⟧.answers tx))) }
        ensures none { is_some result ≡ is_some self.now.tx }
    {
        match &self.tx {
            Some(tx) => Some(tx.shown()),
            None => None,
        }
    }

    /// The bytes of the reservation, where no transaction has it; else 0.
    pub fn claim(&self) -> u64
        ensures some { IfSome self.now.room (λ room. result ≡ room.stake.claim) }
        ensures none { self.now.room ≡ None → result ≡ 0 }
    {
        match &self.room {
            Some(room) => room.stake.claim(),
            None => 0,
        }
    }

    /// The user's connection, where nothing is held of what a course counts. All else goes.
    pub fn into_user(self) -> Option<O::User>
        requires { IsEmpty (⟦<Self as InHand>⟧.hand self) }
        ensures { result ≡ self.user }
    {
        let Holdings {
            user,
            message: _,
            planned: _,
            asking: _,
            told: _,
            refused: _,
            page: _,
            is_finished: _,
            connection,
            room,
            origin: _,
            before: _,
            tx,
        } = self;
        match (connection, room, tx) {
            (None, None, None) => user,
            _ => unreachable!(),
        }
    }

    /// Takes back what a message stood over that doesn't move.
    pub(crate) fn take_back(&mut self, remains: Remains<O>)
        requires { (is_some self.old.room ≡ false) × (is_some self.old.tx ≡ false) }
        ensures leased { is_some self.new.connection ≡ is_some self.old.connection }
        ensures back { (is_some self.new.room ≡ true) × (self.new.origin ≡ Some remains.connections.origin) × (self.new.tx ≡ None) }
        ensures said { (self.new.told ≡ self.old.told) × (self.new.refused ≡ self.old.refused) × (self.new.page ≡ self.old.page) × (self.new.is_finished ≡ self.old.is_finished) }
        ensures kept { (self.new.message ≡ self.old.message) × (self.new.before ≡ self.old.before) }
        ensures user { self.new.user ≡ Some remains.connections.user }
        ensures line { IfSome remains.connections.service (HasLine (λ leased. leased.wire) self.new.connection) }
    {
        let Remains { room, connections } = remains;
        put_in(&mut self.room, room);
        connections.put_back(&mut self.user, &mut self.connection, &mut self.origin);
    }

    /// What has no `Drop`.
    pub(crate) fn into_parts(
        self,
    ) -> (
        Option<ServiceConnection<O>>,
        Option<MessageRoom<O::Ledgers>>,
        Option<Moving<O>>,
    )
        ensures { (result.0 ≡ self.connection) × (result.1 ≡ self.room) × (result.2 ≡ self.tx) }
    {
        let Holdings {
            user: _,
            message: _,
            planned: _,
            asking: _,
            told: _,
            refused: _,
            page: _,
            is_finished: _,
            connection,
            room,
            origin: _,
            before: _,
            tx,
        } = self;
        (connection, room, tx)
    }

    /// What is still out. All connections are closed, and a transaction ends.
    pub fn into_held<R: Wait>(self, rt: &R, bank: &Bank<O::Ledgers>) -> Held<O>
        ensures lease { result.lease ≡ option_map (λ leased. leased.lease) self.connection }
        ensures stake { is_some result.stake ≡ (is_some self.room || is_some self.tx) }
    {
        let (connection, room, tx) = self.into_parts();
        let lease = match connection {
            Some(ServiceConnection { wire: _, lease }) => Some(lease),
            None => None,
        };
        let stake = match (room, tx) {
            (Some(room), None) => Some(room.into_stake()),
            (None, Some(tx)) => Some(tx.into_stake(rt, bank)),
            (None, None) => None,
            (Some(_), Some(_)) => unreachable!(),
        };
        Held { lease, stake }
    }
}
