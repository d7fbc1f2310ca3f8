//! The engines, each over wires in memory: a service's replies and whole exchanges with it, its options, the HTTP ends, the ICAP server
//! and its services, and the wires themselves.

mod exchanges;
mod gives;
mod kept;
mod options;
mod pages;
mod relays;
mod replies;
mod servers;
mod services;
mod wires;

use std::alloc::Global;
use std::sync::Wait;
use std::time::Clock;
use test_rows::{NoMemory, Scene, Values, index_of};

/// The calls of rows that need no pages, in the order of `put_run`.
const CALLS: &[u8] = b"reply options serve feed lines service settings wire shared gate";

/// Adds what a run of a row reports.
pub fn put_run<R: Wait + Clock>(
    rt: &R,
    alloc: Global,
    scene: Scene<'_>,
    values: Values,
    out: &mut Vec<u8>,
) -> Result<(), NoMemory> {
    match index_of(CALLS, scene.get(b"call")) {
        Some(0) => replies::put_reply(alloc, scene, values, out),
        Some(1) => options::put_options(alloc, scene, values, out),
        Some(2) => servers::put_served(alloc, scene, values, out),
        Some(3) => servers::put_fed(alloc, scene, values, out),
        Some(4) => servers::put_lines(scene, out),
        Some(5) => services::put_service(alloc, scene, out),
        Some(6) => services::put_settings(alloc, scene, out),
        Some(7) => wires::put_wire(alloc, scene, values, out),
        Some(8) => wires::put_shared(alloc, scene, values, out),
        Some(9) => wires::put_gate(rt, scene, out),
        _ => pages::put_on_pages(rt, alloc, scene, values, out),
    }
}
