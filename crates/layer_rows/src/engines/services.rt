//! The texts of the answers, and each service at each kind of request.

use icap_services::{
    Service, Settings, Status, WholeRequest, answer, is_tag, put_continue, put_error, put_options,
};
use std::alloc::Global;
use test_rows::{NoMemory, Scene, index_of, point_of, put_flag, put_line, put_word};

/// What answers say of the server, in all rows.
pub fn settings(alloc: Global) -> Result<Settings, NoMemory> {
    match Settings::new(b"adapt-1".to_vec(alloc)?, 16, 3600, 1024) {
        Some(settings) => Ok(settings),
        None => Err(NoMemory),
    }
}

/// The services, in the order of `NAMES`.
const SERVICES: [Service; 4] = [
    Service::Pass,
    Service::Block,
    Service::Stamp,
    Service::Upper,
];

const NAMES: &[u8] = b"pass block stamp upper";

/// The statuses of errors, in the order of `NUMBERS`.
const STATUSES: [Status; 6] = [
    Status::BadRequest,
    Status::NotFound,
    Status::MethodNotAllowed,
    Status::ServerError,
    Status::NotImplemented,
    Status::VersionNotSupported,
];

const NUMBERS: &[u8] = b"400 404 405 500 501 505";

/// The service of a name.
fn service_of(name: &[u8]) -> Option<Service> {
    SERVICES.get(index_of(NAMES, name)?).copied()
}

/// The status of a number.
fn status_of(number: &[u8]) -> Option<Status> {
    STATUSES.get(index_of(NUMBERS, number)?).copied()
}

/// A text of the row, where it has one.
fn part_of<'a>(scene: Scene<'a>, key: &[u8]) -> Option<&'a [u8]> {
    if scene.has(key) {
        Some(scene.get(key))
    } else {
        None
    }
}

/// The row's request: `preview` says `rest` where more of the body is to come, and `whole` where the preview is all of it.
fn request_of(scene: Scene<'_>) -> WholeRequest<'_> {
    WholeRequest {
        point: point_of(scene.get(b"point")),
        req_hdr: part_of(scene, b"request"),
        res_hdr: part_of(scene, b"response"),
        body: if scene.is(b"body", b"empty") {
            Some(b"")
        } else {
            part_of(scene, b"body")
        },
        preview: if scene.has(b"preview") {
            Some(scene.is(b"preview", b"whole"))
        } else {
            None
        },
        allow: scene.is(b"allow", b"yes"),
    }
}

/// Adds what a service answers, or an answer that no service gives.
pub fn put_service(alloc: Global, scene: Scene<'_>, out: &mut Vec<u8>) -> Result<(), NoMemory> {
    let settings = settings(alloc)?;
    if let Some(service) = service_of(scene.get(b"service")) {
        let text = answer(alloc, service, &settings, &request_of(scene))?;
        return out.extend_from_slice(&text);
    }
    if let Some(status) = status_of(scene.get(b"service")) {
        return put_error(out, &settings, status);
    }
    match index_of(b"options continue", scene.get(b"service")) {
        Some(0) => put_options(out, &settings, point_of(scene.get(b"point"))),
        Some(1) => put_continue(out),
        _ => put_line(out, b"no such service"),
    }
}

/// The number of a key.
fn number_of(scene: Scene<'_>, key: &[u8]) -> u64 {
    test_rows::number(scene.get(key)).unwrap_or(0)
}

/// Adds whether these are settings, and whether the tag is one.
pub fn put_settings(alloc: Global, scene: Scene<'_>, out: &mut Vec<u8>) -> Result<(), NoMemory> {
    let found = Settings::new(
        scene.get(b"tag").to_vec(alloc)?,
        number_of(scene, b"max"),
        number_of(scene, b"ttl"),
        number_of(scene, b"preview"),
    );
    put_flag(out, b"tag", is_tag(scene.get(b"tag")))?;
    put_flag(out, b"settings", found.is_some())?;
    match found {
        Some(settings) => put_word(out, b"copied tag", &settings.try_clone(alloc)?.istag),
        None => Ok(()),
    }
}
