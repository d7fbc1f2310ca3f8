//! A reservation for a message.

ghost use Rattle.std.specs.Prelude.{◌≡◌, ◌≤◌, IfErr, IfOk, None, true};
ghost use Rattle.shard_message.specs.Taking.{taken_if};
ghost use Rattle.std.specs.Option.{ForSome};
ghost use Rattle.span_bank.specs.declared.limits.TheConstants.{MAX_CAPACITY};
ghost use Rattle.exchange_core.specs.declared.dialing.Dialing.TheVariants.{KeptFirst};
ghost use Rattle.exchange_core.specs.declared.event.RefusalCause.TheVariants.{Scarce};
ghost use Rattle.plan_rules.specs.Claims.{claim_of};
ghost use Rattle.exchange_report.specs.Reasons.{cause_of};
ghost use Rattle.shard_exchange.specs.Reasons.{lies_elsewhere};
ghost use Rattle.shard_message.specs.Dialed.{LeadsAsPlanned};

use crate::outside::{Dialed, Outside};
use crate::planning::Planned;
use exchange_core::Dialing;
use plan_rules::{Limits, claim};
use shard_exchange::{Reason, open_reason};
use span_bank::{Bank, Ledgers, Stake};
use std::boxed::Box;
use std::sync::Wait;

/// A reservation of which nothing is held, and the message that it was made for: it is just what that may need.
#[must_use]
pub struct MessageRoom<B: Ledgers> {
    pub stake: Stake<B>,
    /// None once the message moves, or is gone.
    pub planned: Option<Box<Planned>>,
    pub limits: Limits,
    pub ghost empty: { (stake.held ≡ 0) × (stake.pages ≡ 0) },
    pub ghost claim: { ForSome planned (λ planned. (stake.claim ≡ claim_of planned.value.offer.plan limits.window) × (stake.claim ≤ MAX_CAPACITY)) },
}

impl<B: Ledgers> MessageRoom<B> {
    /// The reservation alone.
    pub fn into_stake(self) -> Stake<B>
        ensures { (result.held ≡ 0) × (result.pages ≡ 0) }
    {
        let MessageRoom {
            stake,
            planned: _,
            limits: _,
        } = self;
        stake
    }
}

/// A reservation whose message is gone.
pub(crate) fn room_of<B: Ledgers>(stake: Stake<B>, limits: Limits) -> MessageRoom<B>
    requires { (stake.held ≡ 0) × (stake.pages ≡ 0) }
    ensures { (result.planned ≡ None) × (result.limits ≡ limits) }
{
    MessageRoom {
        stake,
        planned: None,
        limits,
    }
}

/// Reserves what a planned message may need.
pub fn make_room<B: Ledgers, R: Wait>(
    rt: &R,
    bank: &Bank<B>,
    limits: Limits,
    planned: &mut Option<Box<Planned>>,
) -> Result<MessageRoom<B>, Reason>
    ensures suits { IfErr result (λ reason. cause_of reason ≡ Scarce) }
    ensures has { IfOk result (λ room. (room.planned ≡ planned.old) × (planned.new ≡ None) × (room.limits ≡ limits)) }
    ensures keeps { IfErr result (λ reason. planned.new ≡ planned.old) }
{
    let Some(message) = planned else {
        return Err(Reason::NoMemory);
    };
    let bytes = claim(message.offer.plan(), &limits);
    if bytes == 0 {
        return Err(Reason::Full);
    }
    match bank.open(rt, bytes) {
        Ok(stake) => Ok(MessageRoom {
            stake,
            planned: planned.take(),
            limits,
        }),
        Err(fault) => Err(open_reason(fault)),
    }
}

/// Opens the connection that a message goes to for which this was reserved, or takes one that an earlier exchange left, where it may.
pub fn dial_for<P, O: Outside<P>>(
    at: &P,
    out: &mut O,
    room: &Option<MessageRoom<O::Ledgers>>,
    dialing: Dialing,
) -> Result<Dialed<O::Origin>, Reason>
    ensures leads { IfOk result (λ dialed. LeadsAsPlanned (λ room. room.planned) (O.leads dialed.wire) room.now) }
    ensures takes { IfOk result (λ dialed. dialing ≡ KeptFirst → LeadsAsPlanned (λ room. room.planned)
        (λ address. (later : O) × O.takes out.old later at.now address (taken_if dialed.is_kept dialed.wire)) room.now) }
    ensures allowed { IfOk result (λ dialed. dialed.is_kept ≡ true → dialing ≡ KeptFirst) }
    ensures kept { IfOk result (λ dialed. dialed.is_kept ≡ true → O.has_kept out.old dialed.wire) }
    ensures suits { IfErr result (λ reason. lies_elsewhere reason ≡ true) }
{
    let route = match room {
        Some(
            MessageRoom {
                planned: Some(planned),
                ..
            },
        ) => planned.route,
        _ => None,
    };
    let Some(route) = route else {
        return Err(Reason::UnknownHost);
    };
    match out.dial(at, route.address, dialing) {
        Ok(dialed) => {
            out.note_route(at, route);
            Ok(dialed)
        }
        Err(reason) => Err(reason),
    }
}
