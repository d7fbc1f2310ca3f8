//! The heads that go on, to an origin or a parent, to a service and to the user (RFC 9110, section 7.6; RFC 9112, section 3.2).
use crate::grammars::http_heads::put_request;
use crate::listed::index_of;
use http_side::{
    BodyKind, Encapsulated, Forward, HttpRequest, Message, NextServer, OriginUse, OriginWay,
    encapsulated_head, forward_head, read_request, read_response,
};
use std::alloc::Global;
use test_rows::{NoMemory, Row, put_line, put_shown, says};

fn part_of(row: &Row<'_>) -> BodyKind {
    let word = row.get(b"part");
    if says(word, b"null-body") {
        BodyKind::NullBody
    } else if says(word, b"body") {
        BodyKind::Body
    } else {
        BodyKind::Own
    }
}

/// The connection that a request goes out on.
fn use_of(row: &Row<'_>) -> OriginUse {
    let word = row.get(b"origin");
    if says(word, b"fresh") {
        OriginUse::Fresh
    } else if says(word, b"kept") {
        OriginUse::Kept
    } else {
        OriginUse::Once
    }
}

/// How a request goes to its origin: straight, or through a parent.
fn way_of(row: &Row<'_>) -> OriginWay {
    OriginWay {
        next: if says(row.get(b"next"), b"parent") {
            NextServer::Parent
        } else {
            NextServer::Origin
        },
        connection: use_of(row),
    }
}

fn put_forward(
    alloc: Global,
    out: &mut Vec<u8>,
    forward: &Forward<'_, '_>,
) -> Result<(), NoMemory> {
    put_shown(out, b"body", &forward.framing())?;
    if forward.closes() {
        put_line(out, b"the user's connection ends")?;
    }
    out.extend_from_slice(&forward_head(alloc, forward)?)
}

/// The user's own request as an origin or a parent gets it.
fn put_to_origin(
    alloc: Global,
    out: &mut Vec<u8>,
    user: &HttpRequest,
    origin: OriginWay,
) -> Result<(), NoMemory> {
    let forward = Forward {
        user,
        message: Message::Request(user),
        part: BodyKind::Own,
        carries_on: true,
        origin,
    };
    out.extend_from_slice(&forward_head(alloc, &forward)?)
}

/// The user's own request as a service gets it.
fn put_to_service(alloc: Global, out: &mut Vec<u8>, user: &HttpRequest) -> Result<(), NoMemory> {
    let message = Message::Request(user);
    out.extend_from_slice(&encapsulated_head(alloc, &Encapsulated { user, message })?)
}

/// How the request that goes on is read again.
fn put_read_again(
    alloc: Global,
    out: &mut Vec<u8>,
    user: &HttpRequest,
    origin: OriginWay,
) -> Result<(), NoMemory> {
    let mut text = Vec::new(alloc);
    put_to_origin(alloc, &mut text, user, origin)?;
    put_request(alloc, out, &text, true)
}

fn put_adapted(
    alloc: Global,
    out: &mut Vec<u8>,
    user: &HttpRequest,
    row: &Row<'_>,
) -> Result<(), NoMemory> {
    match read_request(alloc, row.get(b"text"), true) {
        Ok(adapted) => {
            let forward = Forward {
                user,
                message: Message::Request(&adapted.value),
                part: part_of(row),
                carries_on: true,
                origin: way_of(row),
            };
            put_forward(alloc, out, &forward)
        }
        Err(_) => put_line(out, b"the text is no request"),
    }
}

fn put_to_user(
    alloc: Global,
    out: &mut Vec<u8>,
    user: &HttpRequest,
    row: &Row<'_>,
) -> Result<(), NoMemory> {
    match read_response(alloc, row.get(b"text"), false) {
        Ok(response) => {
            let forward = Forward {
                user,
                message: Message::Response(&response.value),
                part: part_of(row),
                carries_on: !row.has(b"early"),
                origin: way_of(row),
            };
            put_forward(alloc, out, &forward)
        }
        Err(_) => put_line(out, b"the text is no response"),
    }
}

/// The calls of rows, in the order of `put_head`.
const CALLS: &[u8] =
    b"head to origin|head to service|read head to origin|adapted head to origin|head to user";

/// The head that the call of this place asks for, of the user's request.
fn put_head(
    alloc: Global,
    place: usize,
    row: &Row<'_>,
    out: &mut Vec<u8>,
    user: &HttpRequest,
) -> Result<(), NoMemory> {
    match place {
        0 => put_to_origin(alloc, out, user, way_of(row)),
        1 => put_to_service(alloc, out, user),
        2 => put_read_again(alloc, out, user, way_of(row)),
        3 => put_adapted(alloc, out, user, row),
        _ => put_to_user(alloc, out, user, row),
    }
}

/// Adds the answer to a row of these calls that has a user; nothing for another one.
pub fn put_answer(
    alloc: Global,
    call: &[u8],
    row: &Row<'_>,
    out: &mut Vec<u8>,
) -> Result<(), NoMemory> {
    let Some(place) = index_of(CALLS, call) else {
        return Ok(());
    };
    if !row.has(b"user") {
        return Ok(());
    }
    match read_request(alloc, row.get(b"user"), false) {
        Ok(user) => put_head(alloc, place, row, out, &user.value),
        Err(_) => put_line(out, b"the user's text is no request"),
    }
}
