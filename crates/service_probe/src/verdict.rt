//! What came of a message, by what is left of its transaction.

use crate::excerpt::{find, find_head};
use crate::finding::{Fault, Finding, ProbeOutcome};
use crate::tap::Tap;
use adapt_sides::{ClientFault, Service};
use adapt_turn::Outcome;
use icap_client::ServiceSide;
use std::alloc::{AllocError, Global};
use trace_core::{Cause, Point, Seen};

/// A service's side whose transaction is over.
pub trait HeardService: Service {
    /// Why it failed.
    fn fault(&self) -> Option<ClientFault>;

    /// How many bytes came that weren't framed, or that no request asked for.
    fn raw_left(&self) -> usize;
}

impl HeardService for ServiceSide {
    fn fault(&self) -> Option<ClientFault> {
        ServiceSide::fault(self)
    }

    fn raw_left(&self) -> usize {
        ServiceSide::raw_left(self)
    }
}

/// The status of an adapted message that is an answer.
fn status_of(head: &[u8]) -> Option<u16> {
    match head {
        [b'H', b'T', b'T', b'P', b'/', _, _, _, b' ', a, b, c, ..]
            if a.is_ascii_digit() && b.is_ascii_digit() && c.is_ascii_digit() => {
            Some(100 * u16::from(*a - b'0') + 10 * u16::from(*b - b'0') + u16::from(*c - b'0'))
        }
        _ => None,
    }
}

/// What came of a message that went through.
fn came_of(seen: &Seen, status: Option<u16>) -> ProbeOutcome {
    let continued = seen.continued;
    let bytes = seen.adapted_received;
    if seen.no_mod {
        return ProbeOutcome::Unchanged { continued };
    }
    match status {
        Some(status) if status != 200 || seen.plan.point == Point::Reqmod => ProbeOutcome::Page {
            continued,
            status,
            bytes,
        },
        _ => ProbeOutcome::Changed { continued, bytes },
    }
}

/// The fault of a transaction that failed.
fn fault_of(cause: Cause, fault: Option<ClientFault>) -> Fault {
    match (cause, fault) {
        (Cause::Service, Some(fault)) => Fault::of_side(fault),
        (Cause::Service, None) => Fault::Message,
        (Cause::Deadline, _) => Fault::Deadline,
        _ => Fault::System,
    }
}

/// What came of a message, by how its transaction ended, and by the service's side and what it read.
pub fn judge<V: HeardService, W>(
    alloc: Global,
    outcome: Outcome,
    seen: &Seen,
    side: &V,
    tap: &Tap<W>,
) -> Result<ProbeOutcome, AllocError> {
    let head = side.adapted_head().unwrap_or(&[]);
    let left = side.raw_left();
    let fault = match outcome {
        Outcome::Fail(cause) => fault_of(cause, side.fault()),
        Outcome::Done if left > 0 => Fault::LeftOver,
        Outcome::Done => return Ok(came_of(seen, status_of(head))),
    };
    let finding = match fault {
        Fault::Message => find_head(alloc, tap, head),
        _ => find(alloc, tap, fault, left),
    };
    Ok(ProbeOutcome::Broken(finding?))
}

/// What came where bytes lay unread after the answer.
pub fn left_over<W>(alloc: Global, tap: &Tap<W>) -> ProbeOutcome {
    ProbeOutcome::Broken(Finding {
        fault: Fault::LeftOver,
        at: tap.given(),
        octets: Vec::new(alloc),
    })
}
