//! The surroundings of an exchange over sockets.

ghost use Rattle.std.specs.Prelude.{◌≡◌, ◌||◌};
ghost use Rattle.proxy_config.specs.declared.config.Config.{Config as AnyConfig};
ghost use Rattle.shard_desk.specs.Seats.{has_waited, is_late, is_overdue};
ghost use Rattle.shard_desk.specs.declared.outside.TheConstants.{GRACE};

mod noting;
mod origins;
mod services;

use crate::desk::Desk;
use crate::shared::Shares;
use crate::spot::Spot;
use event_loop::{Closing, close_turn};
use plan_rules::Limits;
use proxy_config::Config;
use service_pool::Leased;
use shard_exchange::Lingered;
use shard_message::{Clocked, Kinds, Outside, ThreadSettings, UserEnd};
use socket_wire::{Dial, OriginWire, ServiceWire, UserWire};
use span_bank::Bank;
use std::alloc::Global;
use std::sync::Wait;
use std::time::Clock;
use wire_kit::Gate;

/// How many seconds a user that is let go may say nothing: for a while a request may be on its way.
const GRACE: u64 = 1;

impl<S: Shares> Kinds for Desk<S> {
    type User = UserWire;

    type Origin = OriginWire;

    type Service = ServiceWire;

    type Lease = Leased<S::Requests, S::Responses>;

    type Ledgers = S::Ledgers;
}

impl<S: Shares> ThreadSettings for Desk<S> {
    ghost config_is = { λ desk config. S.config_is desk.shared config };

    ghost limits_are = { λ desk limits. limits ≡ desk.limits };

    fn alloc(&self) -> Global {
        self.alloc
    }

    fn config(&self) -> &Config {
        self.shared.config()
    }

    fn limits(&self) -> Limits {
        self.limits
    }

    fn bank(&self) -> &Bank<S::Ledgers> {
        self.shared.bank()
    }
}

impl<'r, S: Shares, R: Wait + Dial + Clock, G: Gate> Clocked<Spot<'r, R, G>> for Desk<S> {
    ghost is_late = { λ desk at. is_late desk.seats at.key at.now desk.deadline || is_overdue desk.seats at.key at.now desk.terms };

    ghost has_rested = { λ desk at. is_late desk.seats at.key at.now GRACE };

    ghost has_waited = { λ desk at waited. (config : AnyConfig) × S.config_is desk.shared config × (waited ≡ has_waited desk.seats at.key at.now config.wait) };

    ghost now_is = { λ desk at now. now ≡ at.now };

    fn now(&self, at: &Spot<'r, R, G>) -> u64 {
        at.now
    }

    fn is_late(&self, at: &Spot<'r, R, G>) -> bool {
        self.seats.is_late(at.key, at.now, self.deadline)
            || self.seats.is_overdue(at.key, at.now, self.terms)
    }

    fn has_rested(&self, at: &Spot<'r, R, G>) -> bool {
        self.seats.is_late(at.key, at.now, GRACE)
    }

    fn has_waited(&self, at: &Spot<'r, R, G>) -> bool {
        let seconds = self.shared.config().wait;
        self.seats.has_waited(at.key, at.now, seconds)
    }

    fn may_pass(&mut self, at: &Spot<'r, R, G>) -> bool {
        match at.gate {
            Some(gate) => gate.may_pass(at.rt, self.seats.number(at.key)),
            None => true,
        }
    }
}

impl<S: Shares> UserEnd for Desk<S> {
    fn finish(user: &UserWire) {
        let _ = user.finish();
    }

    fn cut(user: &UserWire) {
        user.cut();
    }

    fn linger(&mut self, user: &mut UserWire) -> Lingered {
        match close_turn(user, self.scratch.as_mut_slice()) {
            Closing::Over => Lingered::Over,
            Closing::Waiting => Lingered::Waiting,
            Closing::CutShort => Lingered::CutShort,
        }
    }
}

impl<'r, S: Shares, R: Wait + Dial + Clock, G: Gate> Outside<Spot<'r, R, G>> for Desk<S> {}
