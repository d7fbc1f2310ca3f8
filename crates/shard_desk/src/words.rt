//! The reasons for which services fail, as the log says them.

ghost use Rattle.std.specs.Prelude.{◌≡◌};
ghost use Rattle.exchange_core.specs.declared.event.RefusalCause.TheVariants.{Elsewhere};
ghost use Rattle.exchange_report.specs.Reasons.{cause_of};

use adapt_sides::ClientFault;
use exchange_report::Reason;
use shard_message::MessageEnd;
use shard_report::{Evidence, status_in};
use trace_core::Point;

/// Why a service failed. `is_fresh`: nothing went over its connection.
pub(crate) fn service_reason(fault: Option<ClientFault>, is_fresh: bool) -> Reason
    ensures { cause_of result ≡ Elsewhere }
{
    match fault {
        Some(ClientFault::Status) => Reason::ServiceStatus,
        Some(ClientFault::Device) if is_fresh => Reason::ServiceRefused,
        _ => Reason::ServiceBroken,
    }
}

/// Why a service that was asked for its options can't serve. `None`: it said something that doesn't serve.
pub(crate) fn asked_reason(fault: Option<ClientFault>, is_fresh: bool) -> Reason
    ensures { cause_of result ≡ Elsewhere }
{
    match fault {
        None => Reason::ServiceStatus,
        fault => service_reason(fault, is_fresh),
    }
}

/// What tells why a transaction failed, if it did.
pub(crate) fn evidence_of(end: &MessageEnd<'_>) -> Evidence {
    let seen = &end.seen;
    Evidence {
        service: service_reason(end.service_fault, end.service_is_fresh),
        next_is_fresh: end.next_is_fresh,
        to_user: seen.plan.point == Point::Respmod || seen.modified && is_answer(end.adapted_head),
    }
}

/// Whether it is the service's doing that a message got no final reply.
pub(crate) fn is_of_service(reason: Reason) -> bool {
    matches!(
        reason,
        Reason::ServiceRefused
            | Reason::ServiceStatus
            | Reason::ServiceBroken
            | Reason::ServiceDeadline
    )
}

/// Whether this head of an adapted message is a response's, which the service answers in place of the origin.
pub(crate) fn is_answer(head: Option<&[u8]>) -> bool {
    match head {
        Some(text) => status_in(text).is_some(),
        None => false,
    }
}
