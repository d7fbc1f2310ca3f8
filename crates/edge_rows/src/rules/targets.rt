//! Where requests go, and what users wait for.
use http_side::{HttpRequest, NextServer, read_request};
use proxy_config::{Config, read_config};
use proxy_rules::{
    Unrouted, awaits_continue, interim_continue, is_head_request, origin_of, route_of,
};
use std::alloc::Global;
use test_rows::{NoMemory, Scene, put_all, put_flag, put_line, put_number, put_shown, put_word};

/// Adds the name and the port of a request's target, and where it goes.
fn put_origin(out: &mut Vec<u8>, config: &Config, user: &HttpRequest) -> Result<(), NoMemory> {
    let origin = origin_of(user);
    put_word(out, b"host", origin.host)?;
    match origin.port {
        Some(port) => put_number(out, b"port", u64::from(port))?,
        None => put_line(out, b"no port")?,
    }
    match route_of(config, user) {
        Ok(route) => match route.next {
            NextServer::Origin => put_shown(out, b"goes to", &route.address),
            NextServer::Parent => put_shown(out, b"goes to the parent", &route.address),
        },
        Err(Unrouted::Unknown) => put_line(out, b"goes nowhere"),
        Err(Unrouted::Denied) => put_line(out, b"is denied"),
    }
}

/// Adds where a request with the row's target goes, by the row's configuration.
fn put_target(alloc: Global, scene: Scene<'_>, out: &mut Vec<u8>) -> Result<(), NoMemory> {
    let mut text = Vec::new(alloc);
    put_all(
        &mut text,
        &[b"GET ", scene.get(b"target"), b" HTTP/1.0\r\n\r\n"],
    )?;
    let Ok(config) = read_config(alloc, scene.get(b"config")) else {
        return put_line(out, b"no configuration");
    };
    let put = match read_request(alloc, &text, false) {
        Ok(user) => put_origin(out, &config, &user.value),
        Err(_) => put_line(out, b"no request"),
    };
    // Written as a call, the drop is proved once, and not at each place.
    drop(config);
    put
}

/// Adds whether the row's user waits for `100 Continue`, and whether it wants a head alone.
fn put_user(alloc: Global, scene: Scene<'_>, out: &mut Vec<u8>) -> Result<(), NoMemory> {
    match read_request(alloc, scene.get(b"request"), false) {
        Ok(user) => {
            put_flag(out, b"waits", awaits_continue(&user.value))?;
            put_flag(out, b"wants a head alone", is_head_request(&user.value))
        }
        Err(_) => put_line(out, b"no request"),
    }
}

/// Adds the answer to a row of these calls; nothing for another one.
pub fn put_answer(alloc: Global, scene: Scene<'_>, out: &mut Vec<u8>) -> Result<(), NoMemory> {
    if scene.is(b"call", b"target") {
        put_target(alloc, scene, out)
    } else if scene.is(b"call", b"user") {
        put_user(alloc, scene, out)
    } else if scene.is(b"call", b"interim response") {
        out.extend_from_slice(interim_continue())
    } else {
        Ok(())
    }
}
