//! A message that a service is tried with, up to where it is sent.

use crate::message::{REQUEST, message_of};
use crate::samples::Trial;
use crate::text_stream::{TextWire, wire_of};
use adapt_sides::{Scratch, WIRE_ROOM};
use http_relay::{HeadProgress, SourceSide};
use http_side::{Encapsulated, Message, encapsulated_head};
use proxy_config::ServicePoint;
use proxy_rules::{Incoming, Offer};
use std::alloc::{AllocError, Global};
use std::boxed::Box;
use trace_core::{Plan, Point};
use wire_kit::Wire;

/// The most turns that a head takes.
const HEAD_TURNS: usize = 8;

/// A message whose head was read, and its offer.
#[derive(Drop)]
pub struct Prepared {
    pub offer: Box<Offer>,
    pub message: Box<Incoming>,
    /// Where its body comes from.
    pub source: TextWire,
    /// Where what comes of it goes.
    pub next: TextWire,
    /// The buffers of its turns.
    pub scratch: Box<Scratch>,
}

/// A value on the heap.
fn on_heap<T: Drop>(alloc: Global, value: T) -> Result<Box<T>, AllocError> {
    Ok(Box::new(alloc, value)?)
}

/// Reads a message's head. False where there is none.
fn reads_head(message: &mut Incoming, wire: &mut impl Wire, buffer: &mut [u8; WIRE_ROOM]) -> bool {
    for _ in 0..HEAD_TURNS {
        match message.head_turn(wire, &mut buffer[..]) {
            Ok(HeadProgress::Taken) => return true,
            Ok(_) => {}
            Err(_) => return false,
        }
    }
    false
}

/// The user's side of an answer, whose request was read to its end.
fn user_side(alloc: Global, buffer: &mut [u8; WIRE_ROOM]) -> Result<SourceSide, AllocError> {
    let mut wire = wire_of(alloc, REQUEST.to_vec(alloc)?)?;
    let mut side = SourceSide::request(alloc);
    let _ = side.head_turn(&mut wire, &mut buffer[..]);
    let _ = side.read_turn(&mut wire, &mut [], buffer);
    Ok(side)
}

/// A message of a point, before its first byte.
fn before(
    alloc: Global,
    point: Point,
    buffer: &mut [u8; WIRE_ROOM],
) -> Result<Box<Incoming>, AllocError> {
    let message = match point {
        Point::Reqmod => Incoming::request(alloc),
        Point::Respmod => Incoming::response(alloc, user_side(alloc, buffer)?, Vec::new(alloc)),
    };
    on_heap(alloc, message)
}

/// The message of a trial, whose head was read, and where its body comes from. `None` where no head was read.
fn arrive(
    alloc: Global,
    trial: &Trial,
    buffer: &mut [u8; WIRE_ROOM],
) -> Result<Option<(Box<Incoming>, TextWire)>, AllocError> {
    let point = trial.plan.point;
    let text = message_of(alloc, point, trial.sample, trial.size)?;
    let mut source = wire_of(alloc, text)?;
    let mut message = before(alloc, point, buffer)?;
    if reads_head(&mut message, &mut source, buffer) {
        Ok(Some((message, source)))
    } else {
        Ok(None)
    }
}

/// The heads of a message as they are offered: of the user's request, and of the answer where it is one. `None` where they weren't read.
fn heads_of(alloc: Global, message: &Incoming) -> Result<Option<(Vec<u8>, Vec<u8>)>, AllocError> {
    let Some(user) = message.user_head() else {
        return Ok(None);
    };
    let own = Message::Request(user);
    let req = encapsulated_head(alloc, &Encapsulated { user, message: own })?;
    let res = match message.response_head() {
        Some(response) => {
            let message = Message::Response(response);
            encapsulated_head(alloc, &Encapsulated { user, message })?
        }
        None => Vec::new(alloc),
    };
    Ok(Some((req, res)))
}

/// The offer of a message to a service by a plan. `None` where there is none.
fn offer_of(
    alloc: Global,
    service: &ServicePoint,
    plan: Plan,
    message: &Incoming,
) -> Result<Option<Box<Offer>>, AllocError> {
    let Some((req, res)) = heads_of(alloc, message)? else {
        return Ok(None);
    };
    let (host, path) = (service.host.as_bytes(), service.path.as_bytes());
    let port = service.address.port();
    match Offer::new(alloc, plan, None, &[], host, port, path, &req, &res)? {
        Some(offer) => Ok(Some(on_heap(alloc, offer)?)),
        None => Ok(None),
    }
}

/// The message of a trial, and its offer to a service. `None` where there is none.
pub fn prepare(
    alloc: Global,
    service: &ServicePoint,
    trial: &Trial,
) -> Result<Option<Box<Prepared>>, AllocError> {
    let mut scratch = Scratch::new(alloc)?;
    let Some((message, source)) = arrive(alloc, trial, &mut scratch.wire)? else {
        return Ok(None);
    };
    let Some(offer) = offer_of(alloc, service, trial.plan, &message)? else {
        return Ok(None);
    };
    let prepared = Prepared {
        offer,
        message,
        source,
        next: wire_of(alloc, Vec::new(alloc))?,
        scratch,
    };
    Ok(Some(on_heap(alloc, prepared)?))
}
