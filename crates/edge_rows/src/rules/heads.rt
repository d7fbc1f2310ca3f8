//! The heads with which messages go on, and whether the user's connection ends after them.
use crate::rules::services::wire_of;
use adapt_sides::{MAX_READ, WIRE_ROOM};
use adapt_turn::Outcome;
use http_relay::SourceSide;
use http_side::{NextServer, OriginUse, OriginWay};
use proxy_rules::{HeadMaker, Headed, keeps_user};
use std::alloc::Global;
use test_rows::{NoMemory, Scene, history, point_of, put_flag, put_line, put_shown};
use trace_core::{Cause, Event, Payload, Point, State};

/// The side of a user with this request, of which the head was read, and its end if it has no body. A user that has said nothing
/// has an unread head.
fn user_side(alloc: Global, text: &[u8]) -> Result<SourceSide, NoMemory> {
    let mut side = SourceSide::request(alloc);
    if !text.is_empty() {
        let mut wire = wire_of(alloc, text)?;
        let _ = side.head_turn(&mut wire, &mut [0; MAX_READ]);
        let _ = side.read_turn(&mut wire, &mut [0; 16], &mut [0; WIRE_ROOM]);
    }
    Ok(side)
}

/// The side of an origin with this response.
fn origin_side(alloc: Global, text: &[u8]) -> Result<SourceSide, NoMemory> {
    let mut side = SourceSide::response(alloc, false);
    let _ = side.head_turn(&mut wire_of(alloc, text)?, &mut [0; MAX_READ]);
    Ok(side)
}

/// The connection that a request goes out on.
fn use_of(scene: Scene<'_>) -> OriginUse {
    if scene.is(b"origin", b"fresh") {
        OriginUse::Fresh
    } else if scene.is(b"origin", b"kept") {
        OriginUse::Kept
    } else {
        OriginUse::Once
    }
}

/// How a request goes to its origin: straight, or through a parent.
fn way_of(scene: Scene<'_>) -> OriginWay {
    OriginWay {
        next: if scene.is(b"next", b"parent") {
            NextServer::Parent
        } else {
            NextServer::Origin
        },
        connection: use_of(scene),
    }
}

/// The history of the row, at whose end the service may have answered without a body.
fn state_of(scene: Scene<'_>) -> Option<State> {
    let mut state = history(scene)?;
    if scene.has(b"null-body") && state.step(Event::Mod(Payload::NullBody)).is_err() {
        return None;
    }
    Some(state)
}

/// Adds a head that goes on, and what is said beside it.
fn put_headed(out: &mut Vec<u8>, made: &Result<Headed, Cause>) -> Result<(), NoMemory> {
    match made {
        Ok(headed) => {
            out.extend_from_slice(&headed.head)?;
            put_shown(out, b"framing", &headed.framing)?;
            put_flag(out, b"closes", headed.closes)
        }
        Err(cause) => put_shown(out, b"fails", cause),
    }
}

/// The head that goes on: of the original, or of what the row's service made.
fn made(
    alloc: Global,
    maker: &HeadMaker,
    state: &State,
    source: &SourceSide,
    scene: Scene<'_>,
) -> Result<Headed, Cause> {
    let adapted = if scene.has(b"adapted") {
        Some(scene.get(b"adapted"))
    } else {
        None
    };
    maker.make(alloc, state, source, adapted, scene.has(b"answers"))
}

/// Adds whether the user's connection is kept after the message is done, after it is done and closes, and after it failed.
fn put_kept(out: &mut Vec<u8>, user: &SourceSide, closes: bool) -> Result<(), NoMemory> {
    let is_kept = keeps_user(Outcome::Done, closes, user);
    let is_kept_closing = keeps_user(Outcome::Done, true, user);
    let is_kept_failed = keeps_user(Outcome::Fail(Cause::NextHop), false, user);
    put_flag(out, b"kept", is_kept)?;
    put_flag(out, b"kept where it closes", is_kept_closing)?;
    put_flag(out, b"kept after a failure", is_kept_failed)
}

/// Adds the head that goes on from this source.
fn put_made(
    alloc: Global,
    maker: HeadMaker,
    source: &SourceSide,
    scene: Scene<'_>,
    out: &mut Vec<u8>,
) -> Result<(), NoMemory> {
    let Some(state) = state_of(scene) else {
        return put_line(out, b"no history");
    };
    put_flag(out, b"closes without a head", maker.closes())?;
    let headed = made(alloc, &maker, &state, source, scene);
    put_headed(out, &headed)?;
    let closes = match headed {
        Ok(headed) => headed.closes,
        Err(_) => true,
    };
    match maker.into_user() {
        Some(user) => put_kept(out, &user, closes),
        None => Ok(()),
    }
}

/// Adds the answer to a row of this call; nothing for another one.
pub fn put_answer(alloc: Global, scene: Scene<'_>, out: &mut Vec<u8>) -> Result<(), NoMemory> {
    if !scene.is(b"call", b"head") {
        return Ok(());
    }
    let user = user_side(alloc, scene.get(b"request"))?;
    let last = scene.has(b"last");
    match point_of(scene.get(b"plan")) {
        Point::Reqmod => put_made(
            alloc,
            HeadMaker::for_request(last, way_of(scene)),
            &user,
            scene,
            out,
        ),
        Point::Respmod => {
            let origin = origin_side(alloc, scene.get(b"response"))?;
            put_made(
                alloc,
                HeadMaker::for_response(user, last),
                &origin,
                scene,
                out,
            )
        }
    }
}
