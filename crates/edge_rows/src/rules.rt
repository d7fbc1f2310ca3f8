//! What the proxy decides beside a message's transaction: where a request goes, what a service is offered, the heads that go on, which
//! connections to origins are kept, the statuses of refusals, and what an administrator's line asks.

mod administrators;
mod heads;
mod offers;
mod origins;
mod reasons;
mod services;
mod targets;

use std::alloc::Global;
use test_rows::{NoMemory, Scene};

/// Adds the answer to a row of these calls; nothing for another one.
pub fn put_answer(alloc: Global, scene: Scene<'_>, out: &mut Vec<u8>) -> Result<(), NoMemory> {
    targets::put_answer(alloc, scene, out)?;
    heads::put_answer(alloc, scene, out)?;
    offers::put_answer(alloc, scene, out)?;
    origins::put_answer(alloc, scene, out)?;
    services::put_answer(alloc, scene, out)?;
    reasons::put_answer(scene, out)?;
    administrators::put_answer(alloc, scene, out)
}
