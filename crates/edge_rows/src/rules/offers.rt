//! Plans, and what is offered to a service.
use crate::rules::services::{record_of, service_of, wire_of};
use adapt_sides::WIRE_ROOM;
use http_side::{HttpRequest, HttpResponse, read_request, read_response};
use options_book::Record;
use plan_rules::{Limits, Plan};
use proxy_config::{ServicePoint, read_config};
use proxy_rules::{Offer, limits_of, request_plan, response_plan};
use span_tape::SpanTape;
use std::alloc::Global;
use test_rows::{NoMemory, Scene, plan_of, put_flag, put_line, put_shown};
use trace_core::State;

/// The limits of the row's configuration.
fn limits(alloc: Global, scene: Scene<'_>) -> Option<Limits> {
    match read_config(alloc, scene.get(b"config")) {
        Ok(config) => {
            let limits = limits_of(&config);
            // Written as a call, the drop is proved once, and not at each place.
            drop(config);
            Some(limits)
        }
        Err(_) => None,
    }
}

/// The row's request.
fn request(alloc: Global, scene: Scene<'_>) -> Option<HttpRequest> {
    match read_request(alloc, scene.get(b"request"), false) {
        Ok(head) => Some(head.value),
        Err(_) => None,
    }
}

/// The row's response; none where the message is the request.
fn response(alloc: Global, scene: Scene<'_>) -> Option<HttpResponse> {
    match read_response(alloc, scene.get(b"response"), false) {
        Ok(head) => Some(head.value),
        Err(_) => None,
    }
}

fn put_plan(out: &mut Vec<u8>, plan: &Plan) -> Result<(), NoMemory> {
    put_shown(out, b"kind", &plan.kind)?;
    put_shown(out, b"length", &plan.len)?;
    put_flag(out, b"allow", plan.allow)?;
    put_shown(out, b"point", &plan.point)
}

/// Adds the plan of the row's message.
fn put_planned(
    alloc: Global,
    limits: &Limits,
    user: &HttpRequest,
    record: Option<&Record>,
    scene: Scene<'_>,
    out: &mut Vec<u8>,
) -> Result<(), NoMemory> {
    let plan = match response(alloc, scene) {
        Some(response) => response_plan(record, limits, user, &response),
        None => request_plan(record, limits, user),
    };
    put_plan(out, &plan)
}

/// The offer of the row's message.
fn offer_of(
    alloc: Global,
    limits: &Limits,
    user: &HttpRequest,
    service: Option<&ServicePoint>,
    record: Option<&Record>,
    scene: Scene<'_>,
) -> Result<Offer, NoMemory> {
    let from = scene.address(b"from");
    let carried = scene.get(b"carried");
    match response(alloc, scene) {
        Some(response) => {
            Offer::of_response(
                alloc, service, record, limits, from, carried, user, &response,
            )
        }
        None => Offer::of_request(alloc, service, record, limits, from, user),
    }
}

/// Adds an offer's plan, and what is written to the service before a byte of a body came.
fn put_offer(alloc: Global, offer: Offer, out: &mut Vec<u8>) -> Result<(), NoMemory> {
    put_flag(out, b"offered", offer.is_offered())?;
    let (plan, side) = offer.into_plan();
    put_shown(out, b"kind", &plan.kind)?;
    let Some(mut side) = side else {
        return Ok(());
    };
    let mut wire = wire_of(alloc, b"")?;
    let _ = side.write_turn(
        &State::begin(plan),
        &SpanTape::new(),
        &mut wire,
        &mut [0; WIRE_ROOM],
    );
    out.extend_from_slice(wire.taken())
}

/// Adds how the row's message is offered.
fn put_offered(
    alloc: Global,
    limits: &Limits,
    user: &HttpRequest,
    record: Option<&Record>,
    scene: Scene<'_>,
    out: &mut Vec<u8>,
) -> Result<(), NoMemory> {
    let service = if scene.has(b"no-service") {
        None
    } else {
        service_of(alloc, scene)
    };
    let offer = offer_of(alloc, limits, user, service.as_ref(), record, scene)?;
    put_offer(alloc, offer, out)
}

/// Adds whether there is an offer by the row's plan.
fn put_new(alloc: Global, scene: Scene<'_>, out: &mut Vec<u8>) -> Result<(), NoMemory> {
    let Some(plan) = plan_of(scene.get(b"plan")) else {
        return put_line(out, b"no plan");
    };
    let request = scene.get(b"request");
    match Offer::new(
        alloc,
        plan,
        None,
        &[],
        b"127.0.0.1",
        1344,
        b"/",
        request,
        &[],
    )? {
        Some(offer) => put_flag(out, b"offered", offer.is_offered()),
        None => put_line(out, b"no offer"),
    }
}

/// Adds the answer to a row of these calls; nothing for another one.
pub fn put_answer(alloc: Global, scene: Scene<'_>, out: &mut Vec<u8>) -> Result<(), NoMemory> {
    if scene.is(b"call", b"new offer") {
        return put_new(alloc, scene, out);
    }
    let (Some(limits), Some(user)) = (limits(alloc, scene), request(alloc, scene)) else {
        return Ok(());
    };
    let record = record_of(alloc, scene)?;
    if scene.is(b"call", b"plan") {
        put_planned(alloc, &limits, &user, record.as_ref(), scene, out)
    } else if scene.is(b"call", b"offer") {
        put_offered(alloc, &limits, &user, record.as_ref(), scene, out)
    } else {
        Ok(())
    }
}
