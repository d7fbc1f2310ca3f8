//! What an exchange asks of its origins, answered over sockets.

ghost use Rattle.std.specs.Prelude.{◌≡◌, Some, None, IfOk, IfErr, IfSome, true, false};
ghost use Rattle.exchange_core.specs.declared.dialing.Dialing.TheVariants.{KeptFirst};
ghost use Rattle.proxy_config.specs.declared.config.Config.{Config as AnyConfig};
ghost use Rattle.shard_exchange.specs.Reasons.{lies_elsewhere};
ghost use Rattle.shard_message.specs.Taking.{taken_of};
ghost use Rattle.shard_desk.specs.Lines.{IsNotPolled};
ghost use Rattle.shard_desk.specs.Seats.{heard_of};
ghost use Rattle.shard_desk.specs.Kept.{HasWire, LaysWire, TakesWire};

use crate::connections::open_origin;
use crate::desk::Desk;
use crate::origins::{lay_origin, take_origin};
use crate::shared::Shares;
use crate::spot::Spot;
use exchange_core::Dialing;
use shard_exchange::Reason;
use shard_message::{Dialed, LastingOrigin, Origins};
use shard_report::{Count, Dealing};
use socket_wire::{Dial, OriginWire};
use std::net::SocketAddrV4;
use std::sync::Wait;
use std::time::Clock;
use wire_kit::Gate;

impl<S: Shares> Desk<S> {
    /// Takes the youngest connection to this address that lies idle and is fit for use, for the exchange under this key.
    fn take_origin(&mut self, key: usize, address: SocketAddrV4, now: u64) -> Option<OriginWire>
        ensures leads { IfSome result (λ wire. wire.stream.to ≡ Some address) }
        ensures kept { IfSome result (HasWire (λ idle. idle.wire) self.old.kept.all.items) }
        ensures taken { (config : AnyConfig) × S.config_is self.old.shared config × TakesWire (λ idle. idle.wire) (λ idle. idle.wire.stream.to ≡ Some address)
            (λ idle. idle.since) (λ idle. IsNotPolled (heard_of self.old.seats) idle.line) now config.origin_idle self.old.kept.all.items self.new.kept.all.items result }
    {
        let seconds = self.shared.config().origin_idle;
        let taken = take_origin(&mut self.kept, &mut self.seats, key, address, now, seconds);
        if taken.is_some() {
            self.shared.tally().add(Count::Origins(Dealing::Reused), 1);
        }
        self.tell_kept();
        taken
    }

    /// Takes one that lies idle, where it may.
    fn take_kept<R, G>(
        &mut self,
        at: &Spot<'_, R, G>,
        address: SocketAddrV4,
        dialing: Dialing,
    ) -> Option<OriginWire>
        ensures leads { IfSome result (λ wire. wire.stream.to ≡ Some address) }
        ensures allowed { IfSome result (λ _. dialing ≡ KeptFirst) }
        ensures kept { IfSome result (HasWire (λ idle. idle.wire) self.old.kept.all.items) }
        ensures takes { dialing ≡ KeptFirst → (config : AnyConfig) × S.config_is self.old.shared config × TakesWire (λ idle. idle.wire)
            (λ idle. idle.wire.stream.to ≡ Some address) (λ idle. idle.since)
            (λ idle. IsNotPolled (heard_of self.old.seats) idle.line) at.entry.now.now config.origin_idle self.old.kept.all.items self.new.kept.all.items result }
    {
        match dialing {
            Dialing::KeptFirst => self.take_origin(at.key, address, at.now),
            Dialing::Fresh => None,
        }
    }

    /// Opens a connection to an origin for an exchange.
    fn open_origin<R: Dial, G>(
        &mut self,
        at: &Spot<'_, R, G>,
        address: SocketAddrV4,
    ) -> Result<Dialed<OriginWire>, Reason>
        ensures leads { IfOk result (λ dialed. (dialed.wire.stream.to ≡ Some address) × (dialed.is_kept ≡ false)) }
        ensures elsewhere { IfErr result (λ reason. lies_elsewhere reason ≡ true) }
        ensures others { self.new.kept ≡ self.old.kept }
        ensures none { taken_of result ≡ None }
    {
        let when = self.shared.config().dial;
        match open_origin(&mut self.seats, at, address, when) {
            Ok(wire) => {
                self.shared.tally().add(Count::Origins(Dealing::Opened), 1);
                Ok(Dialed {
                    wire,
                    is_kept: false,
                })
            }
            Err(reason) => Err(reason),
        }
    }
}

impl<'r, S: Shares, R: Wait + Dial + Clock, G: Gate> Origins<Spot<'r, R, G>> for Desk<S> {
    ghost leads = { λ wire address. wire.stream.to ≡ Some address };

    ghost has_kept = { λ desk wire. HasWire (λ idle. idle.wire) desk.kept.all.items wire };

    ghost takes = { λ old new at address taken. (config : AnyConfig) × S.config_is old.shared config × TakesWire (λ idle. idle.wire)
        (λ idle. idle.wire.stream.to ≡ Some address) (λ idle. idle.since)
        (λ idle. IsNotPolled (heard_of old.seats) idle.line) at.now config.origin_idle
        old.kept.all.items new.kept.all.items taken };

    ghost lays = { λ old new at wire. LaysWire (λ idle. idle.wire) (λ idle. idle.since) old.kept.most old.kept.all.items new.kept.all.items wire at.now };

    ghost turns_down = { λ old new at wire. new.kept.all.items ≡ old.kept.all.items };

    fn dial(
        &mut self,
        at: &Spot<'r, R, G>,
        address: SocketAddrV4,
        dialing: Dialing,
    ) -> Result<Dialed<OriginWire>, Reason>
        ensures leads { IfOk result (λ dialed. dialed.wire.stream.to ≡ Some address) }
        ensures allowed { IfOk result (λ dialed. dialed.is_kept ≡ true → dialing ≡ KeptFirst) }
        ensures kept { IfOk result (λ dialed. dialed.is_kept ≡ true → HasWire (λ idle. idle.wire) self.old.kept.all.items dialed.wire) }
        ensures takes { dialing ≡ KeptFirst → (config : AnyConfig) × S.config_is self.old.shared config × TakesWire (λ idle. idle.wire)
            (λ idle. idle.wire.stream.to ≡ Some address) (λ idle. idle.since)
            (λ idle. IsNotPolled (heard_of self.old.seats) idle.line) at.entry.now.now config.origin_idle self.old.kept.all.items self.new.kept.all.items (taken_of result) }
        ensures elsewhere { IfErr result (λ reason. lies_elsewhere reason ≡ true) }
    {
        match self.take_kept(at, address, dialing) {
            Some(wire) => Ok(Dialed {
                wire,
                is_kept: true,
            }),
            None => self.open_origin(at, address),
        }
    }

    fn keep_origin(&mut self, at: &Spot<'r, R, G>, connection: LastingOrigin<OriginWire>) -> bool
        ensures laid { result ≡ true → LaysWire (λ idle. idle.wire) (λ idle. idle.since) self.old.kept.most self.old.kept.all.items self.new.kept.all.items connection.wire at.entry.now.now }
        ensures down { result ≡ false → self.new.kept.all.items ≡ self.old.kept.all.items }
    {
        let is_kept = lay_origin(
            &mut self.kept,
            &mut self.seats,
            at.key,
            self.shared.room(),
            connection.into_wire(),
            at.now,
        );
        self.tell_kept();
        is_kept
    }
}
