//! The reason for which the proxy refuses a request, by the fault that it met.

ghost use Rattle.std.specs.Prelude.{◌≡◌, IfSome, true};
ghost use Rattle.exchange_core.specs.declared.event.RefusalCause.TheVariants.{Scarce};
ghost use Rattle.exchange_core.specs.Dues.{lies_in_head};
ghost use Rattle.exchange_report.specs.Reasons.{cause_of};
ghost use Rattle.shard_exchange.specs.Reasons.{lies_elsewhere, request_reason, user_head_reason, origin_head_reason, is_end_of_wire, lend_reason, options_reason, record_reason, open_reason};

use adapt_sides::{ClientFault, RelayFault};
use exchange_report::Reason;
use http_side::HttpFault;
use options_book::OptFault;
use service_pool::LendFault;
use span_bank::OpenFault;

/// Why a user is refused whose request's head has this fault.
pub fn request_reason(fault: HttpFault) -> Reason
    ensures reason { result ≡ request_reason fault }
    ensures suits { lies_in_head (cause_of result) ≡ true }
{
    match fault {
        HttpFault::Coding | HttpFault::Connect => Reason::NotServed,
        HttpFault::NoMemory => Reason::NoMemory,
        _ => Reason::BadRequest,
    }
}

/// Why a user is refused whose request has no head. `None` where it ended or broke off before its head was whole: it gets no answer.
pub fn user_head_reason(fault: RelayFault, head: Option<HttpFault>) -> Option<Reason>
    ensures reason { result ≡ user_head_reason fault head }
    ensures suits { IfSome result (λ reason. lies_in_head (cause_of reason) ≡ true) }
{
    match fault {
        RelayFault::Head => Some(request_reason(head.unwrap_or(HttpFault::Bad))),
        RelayFault::NoMemory => Some(Reason::NoMemory),
        _ => None,
    }
}

/// Why a user is refused whose origin's response has no head.
pub fn origin_head_reason(fault: RelayFault, head: Option<HttpFault>) -> Reason
    ensures reason { result ≡ origin_head_reason fault head }
    ensures suits { lies_elsewhere result ≡ true }
{
    match (fault, head) {
        (RelayFault::NoMemory, _) | (RelayFault::Head, Some(HttpFault::NoMemory)) => {
            Reason::NoMemory
        }
        _ => Reason::OriginBroken,
    }
}

/// Whether a wire ended, or failed, where it should have given a head: that turn read nothing.
pub fn is_end_of_wire(fault: RelayFault) -> bool
    ensures { result ≡ is_end_of_wire fault }
{
    matches!(fault, RelayFault::Closed | RelayFault::Device)
}

/// Why a user is refused for whose message no connection to its service can be lent.
pub fn lend_reason(fault: LendFault) -> Reason
    ensures reason { result ≡ lend_reason fault }
    ensures suits { lies_elsewhere result ≡ true }
{
    match fault {
        LendFault::Busy => Reason::Busy,
        LendFault::Unreached => Reason::ServiceRefused,
        LendFault::NoMemory => Reason::NoMemory,
        LendFault::Paused => Reason::ServicePaused,
    }
}

/// Why a user is refused where the service's answer to OPTIONS can't be had.
pub fn options_reason(fault: ClientFault) -> Reason
    ensures reason { result ≡ options_reason fault }
    ensures suits { lies_elsewhere result ≡ true }
{
    match fault {
        ClientFault::NoMemory => Reason::NoMemory,
        ClientFault::Status => Reason::ServiceStatus,
        _ => Reason::ServiceBroken,
    }
}

/// Why a user is refused where the service's answer to OPTIONS is no record.
pub fn record_reason(fault: OptFault) -> Reason
    ensures reason { result ≡ record_reason fault }
    ensures suits { lies_elsewhere result ≡ true }
{
    match fault {
        OptFault::NoMemory => Reason::NoMemory,
        _ => Reason::ServiceStatus,
    }
}

/// Why a user is refused for whose message nothing can be reserved.
pub fn open_reason(fault: OpenFault) -> Reason
    ensures reason { result ≡ open_reason fault }
    ensures suits { cause_of result ≡ Scarce }
{
    match fault {
        OpenFault::Full { claimed: _ } => Reason::Full,
        OpenFault::NoRow => Reason::NoRow,
    }
}
