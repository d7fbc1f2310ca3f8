//! A leased connection on which a service is asked for its options.

ghost use Rattle.std.specs.Prelude.{◌≡◌, is_some, Some, IfOk, IfErr, IsSomeAnd, false, true};
ghost use Rattle.shard_exchange.specs.Reasons.{lies_elsewhere};
ghost use Rattle.icap_client.specs.declared.options.OptionsStage.TheVariants.{Over};
ghost use Rattle.shard_exchange.specs.Saying.{past_of};
ghost use Rattle.shard_message.specs.Learning.{IsAsking};
ghost use Rattle.shard_message.specs.Lines.{line_in, IsRenewed};
ghost use Rattle.shard_message.specs.Waits.{MovesNone};

use crate::connection::{ServiceConnection, lay_wire};
use crate::options::{begin_asking, hear_turn};
use crate::outside::{Kinds, Outside};
use adapt_sides::WIRE_ROOM;
use icap_client::OptionsSide;
use shard_exchange::{OptionsTurn, Reason, lend_reason};
use std::boxed::Box;
use trace_core::Point;
use wire_kit::Wire;

/// A turn at asking. `None` where nobody asks, or there is no connection for it.
pub fn hear_on<O: Kinds>(
    asking: &mut Option<Box<OptionsSide>>,
    connection: &mut Option<ServiceConnection<O>>,
    buffer: &mut [u8; WIRE_ROOM],
) -> Option<OptionsTurn>
    ensures there { is_some connection.new ≡ is_some connection.old }
    ensures line { is_some (line_in (λ leased. leased.wire) connection.new) ≡ is_some (line_in (λ leased. leased.wire) connection.old) }
    ensures waits { result ≡ Some OptionsTurn.Nothing → MovesNone (IsSomeAnd asking.old (λ side. side.value.stage ≡ Over))
        (past_of O.Service.past (line_in (λ leased. leased.wire) connection.old)) (past_of O.Service.past (line_in (λ leased. leased.wire) connection.new)) }
{
    match (asking, connection) {
        (Some(side), Some(connection)) => match &mut connection.wire {
            Some(wire) => Some(hear_turn(side, wire, &mut buffer[..])),
            None => None,
        },
        _ => None,
    }
}

/// Whether nothing went over a connection.
pub fn is_fresh<O: Kinds>(connection: &Option<ServiceConnection<O>>) -> bool {
    match connection {
        Some(connection) => match &connection.wire {
            Some(wire) => wire.counts() == (0, 0),
            None => false,
        },
        None => false,
    }
}

/// Opens a fresh connection under a lease. The one before it is closed first: its descriptor is the one that the fresh one finds.
fn reopen<P, O: Outside<P>>(
    at: &P,
    out: &mut O,
    connection: &mut ServiceConnection<O>,
) -> Result<O::Service, Reason>
    ensures point { O.point_of connection.new.lease ≡ O.point_of connection.old.lease }
    ensures fresh { IfOk result (λ _. O.is_reused connection.new.lease ≡ false) }
    ensures opened { IfOk result (λ wire. O.serves out.old wire connection.new.lease × O.is_opened out.new at.now wire) }
    ensures suits { IfErr result (λ reason. lies_elsewhere reason ≡ true) }
{
    connection.wire = None;
    match out.reopen(at, &mut connection.lease) {
        Ok(wire) => Ok(wire),
        Err(fault) => Err(lend_reason(fault)),
    }
}

/// Puts a fresh connection in place of a leased one.
fn renew<P, O: Outside<P>>(
    at: &P,
    out: &mut O,
    connection: &mut Option<ServiceConnection<O>>,
) -> Result<(), Reason>
    ensures leased { is_some connection.new ≡ is_some connection.old }
    ensures fresh { IfOk result (λ _. IsRenewed (λ leased. leased.wire) (λ old new. (O.point_of new.lease ≡ O.point_of old.lease) × (O.is_reused new.lease ≡ false))
        (λ wire new. O.serves out.old wire new.lease × O.is_opened out.new at.now wire) connection.old connection.new) }
    ensures suits { IfErr result (λ reason. lies_elsewhere reason ≡ true) }
{
    let opened = match connection {
        Some(connection) => reopen(at, out, connection),
        None => Err(Reason::ServiceRefused),
    };
    match opened {
        Ok(wire) => {
            lay_wire(connection, wire);
            Ok(())
        }
        Err(reason) => Err(reason),
    }
}

/// Begins to ask the service of a point anew, on a fresh connection.
pub fn begin_anew<P, O: Outside<P>>(
    at: &P,
    out: &mut O,
    point: Point,
    asking: &mut Option<Box<OptionsSide>>,
    leased: &mut Option<ServiceConnection<O>>,
) -> Result<(), Reason>
    ensures leased { is_some leased.new ≡ is_some leased.old }
    ensures fresh { IfOk result (λ _. IsRenewed (λ leased. leased.wire) (λ old new. (O.point_of new.lease ≡ O.point_of old.lease) × (O.is_reused new.lease ≡ false))
        (λ wire new. O.serves out.old wire new.lease × O.is_opened out.new at.now wire) leased.old leased.new) }
    ensures asks { IfOk result (λ _. IsSomeAnd asking.new (λ side. IsAsking (O.config_is out.new) point side.value.waiting)) }
    ensures suits { IfErr result (λ reason. lies_elsewhere reason ≡ true) }
{
    match renew(at, out, leased) {
        Ok(()) => begin_asking(out, point, asking),
        Err(reason) => Err(reason),
    }
}
