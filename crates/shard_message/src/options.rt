//! Asking a service for its options.

ghost use Rattle.std.specs.Prelude.{◌≡◌, ◌<◌, IfOk, IfErr, IsSomeAnd, length, string_bytes, true, false};
ghost use Rattle.wire_kit.specs.Past.{Past};
ghost use Rattle.std.specs.Net.Socket.{v4_port};
ghost use Rattle.icap_client.specs.Asking.{options_request};
ghost use Rattle.icap_head.specs.Heads.{response_parts};
ghost use Rattle.shard_exchange.specs.Reasons.{lies_elsewhere};
ghost use Rattle.shard_message.specs.Learning.{IsAsking, IsLearned};
ghost use Rattle.shard_message.specs.Usable.{usable_by};
ghost use Rattle.icap_client.specs.declared.options.OptionsStage.TheVariants.{Over};
ghost use Rattle.shard_message.specs.Waits.{MovesNone};

use crate::outside::Outside;
use crate::planning::service_of;
use crate::slots::lay;
use icap_client::OptionsSide;
use icap_head::IcapResponse;
use options_book::read_record;
use proxy_config::ServicePoint;
use proxy_rules::{ask_options, is_reusable_after_options};
use shard_exchange::{OptionsTurn, Reason, record_reason};
use std::alloc::Global;
use std::boxed::Box;
use trace_core::Point;
use wire_kit::Wire;

/// Who asks a service for its options.
fn asker_of(alloc: Global, service: &ServicePoint) -> Result<Box<OptionsSide>, Reason>
    ensures asks { IfOk result (λ side. side.value.waiting ≡ options_request (string_bytes service.now.host) (v4_port service.now.address) (string_bytes service.now.path)) }
    ensures suits { IfErr result (λ reason. lies_elsewhere reason ≡ true) }
{
    let Ok(side) = ask_options(alloc, service) else {
        return Err(Reason::NoMemory);
    };
    match Box::new(alloc, side) {
        Ok(side) => Ok(side),
        Err(_) => Err(Reason::NoMemory),
    }
}

/// Who asks the service of a point for its options. `Err` where there is no service, or no memory was found.
fn asker<P, O: Outside<P>>(out: &O, point: Point) -> Result<Box<OptionsSide>, Reason>
    ensures asks { IfOk result (λ side. IsAsking (O.config_is out.now) point side.value.waiting) }
    ensures suits { IfErr result (λ reason. lies_elsewhere reason ≡ true) }
{
    match service_of(out.config(), point) {
        Some(service) => asker_of(out.alloc(), service),
        None => Err(Reason::ServiceRefused),
    }
}

/// Begins to ask the service of a point for its options.
pub fn begin_asking<P, O: Outside<P>>(
    out: &O,
    point: Point,
    asking: &mut Option<Box<OptionsSide>>,
) -> Result<(), Reason>
    ensures asks { IfOk result (λ _. IsSomeAnd asking.new (λ side. IsAsking (O.config_is out.now) point side.value.waiting)) }
    ensures suits { IfErr result (λ reason. lies_elsewhere reason ≡ true) }
{
    match asker(out, point) {
        Ok(side) => {
            lay(asking, side);
            Ok(())
        }
        Err(reason) => Err(reason),
    }
}

/// Whether a byte went over the wire since it had given and taken so many.
fn has_moved<W: Wire>(wire: &W, before: (u64, u64)) -> bool
    ensures still { result ≡ false → (p : Past) → W.past wire.now p → (length p.read ≡ before.0) × (length p.taken ≡ before.1) }
{
    wire.counts() != before
}

/// A turn at asking over this wire.
pub fn hear_turn<W: Wire>(side: &mut OptionsSide, wire: &mut W, buffer: &mut [u8]) -> OptionsTurn
    requires { 0 < length buffer.old }
    ensures waits { result ≡ OptionsTurn.Nothing → MovesNone (side.old.stage ≡ Over) (W.past wire.old) (W.past wire.new) }
{
    let before = wire.counts();
    match side.turn(wire, buffer) {
        Ok(Some(answer)) => OptionsTurn::Answer(answer),
        Ok(None) if has_moved(wire, before) => OptionsTurn::More,
        Ok(None) => OptionsTurn::Nothing,
        Err(fault) => OptionsTurn::Fault(fault),
    }
}

/// Keeps what the service of a point said of its options, for as long as it says, or as is configured.
pub fn keep<P, O: Outside<P>>(
    at: &P,
    out: &mut O,
    point: Point,
    answer: &IcapResponse,
) -> Result<(), Reason>
    ensures learned { IfOk result (λ _. IsLearned (O.config_is out.old) (O.now_is out.old at.now) (O.keeps out.old out.new at.now point)
        point (response_parts answer.now)) }
    ensures suits { IfErr result (λ reason. lies_elsewhere reason ≡ true) }
{
    match read_record(out.alloc(), answer, point, out.now(at)) {
        Ok(record) => {
            let mut record = record;
            record.set_default_ttl(out.config().options_ttl);
            match out.keep(at, point, record) {
                Ok(()) => Ok(()),
                Err(_) => Err(Reason::NoMemory),
            }
        }
        Err(fault) => Err(record_reason(fault)),
    }
}

/// Whether a connection on which this was said may serve again.
pub fn is_reusable(asking: &Option<Box<OptionsSide>>, answer: &IcapResponse) -> bool
    ensures { result ≡ usable_by (λ side. side.value.raw) asking.now (response_parts answer.now) }
{
    match asking {
        Some(side) => is_reusable_after_options(side, answer),
        None => false,
    }
}
