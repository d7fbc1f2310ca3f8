//! The worked exchange, with a user, an origin and a service in a thread each.

use super::loopback::Others;
use super::player::Deed::{Gets, Says};
use super::player::ScenePeer::{Origin, Service, User};
use super::player::{Deed, ScenePeer, does_all, meet};
use super::scenes::{ADAPTS, ANSWERS, SAYS_PREVIEWS};
use super::texts::{ADAPTED, REQUEST};
use crate::ports::LoopbackPorts;
use std::alloc::Global;
use std::io;
use std::thread::{self, Threads};

const ASKS_AND_GETS: &[Deed] = &[Says(REQUEST), Gets(ADAPTED)];

/// Whether a side gets what it should, which does these one after the other on one connection.
fn does_each(
    host: &HostRuntime,
    alloc: Global,
    ports: LoopbackPorts,
    others: &Others,
    side: ScenePeer,
    lists: &[&[Deed]],
) -> io::Result<bool> {
    let stream = meet(host, ports, others, side)?;
    for deeds in lists {
        if !does_all(alloc, &stream, others, *deeds)? {
            return Ok(false);
        }
    }
    Ok(true)
}

/// Whether a user, an origin and a service get what they should, each in a thread of its own.
pub fn three_apart<R: Threads + Sync>(
    rt: &R,
    host: &HostRuntime,
    alloc: Global,
    ports: LoopbackPorts,
    others: &Others,
) -> io::Result<bool> {
    let mut user = Ok(false);
    let mut origin = Ok(false);
    let mut service = Ok(false);
    thread::join_mut(
        rt,
        &mut || user = does_each(host, alloc, ports, others, User, &[ASKS_AND_GETS]),
        &mut || {
            thread::join_mut(
                rt,
                &mut || origin = does_each(host, alloc, ports, others, Origin, &[ANSWERS]),
                &mut || {
                    service = does_each(
                        host,
                        alloc,
                        ports,
                        others,
                        Service,
                        &[SAYS_PREVIEWS, ADAPTS],
                    );
                },
            );
        },
    );
    Ok(user? && origin? && service?)
}
