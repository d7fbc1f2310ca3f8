//! What users of several shards get: one budget and one pool for all of them.

use super::loopback::Others;
use super::player::ScenePeer::{Origin, Service, User};
use super::player::{Deed, ScenePeer, TRIES, does_all, meet};
use super::scenes::{ADAPTS, ANSWERS, ASKS, IS_REFUSED, SAYS_ONE_CONNECTION};
use super::texts::{ADAPTED, HEAD_END, REQUEST, RESPONSE, STAMPED_TO_ORIGIN, UNAVAILABLE};
use crate::ports::LoopbackPorts;
use crate::streams::{gets, hears, say, until};
use std::alloc::Global;
use std::io;
use std::net::TcpStream;
use std::thread::{self, Threads};

/// How many users there are at once.
const USERS: usize = 64;

/// Whether the service's connection is used before the user is answered.
fn is_offered(line: &TcpStream, user: &TcpStream) -> io::Result<bool> {
    for _ in 0..TRIES {
        if hears(line)? {
            return Ok(true);
        }
        if hears(user)? {
            return Ok(false);
        }
    }
    Ok(false)
}

/// A connection of a side, on which this was done.
fn met(
    rt: &HostRuntime,
    alloc: Global,
    ports: LoopbackPorts,
    others: &Others,
    side: ScenePeer,
    deeds: &[Deed],
) -> io::Result<TcpStream> {
    let stream = meet(rt, ports, others, side)?;
    let _ = does_all(alloc, &stream, others, deeds)?;
    Ok(stream)
}

/// A user that has asked, and whose request the origin has answered.
fn asked(
    rt: &HostRuntime,
    alloc: Global,
    ports: LoopbackPorts,
    others: &Others,
) -> io::Result<TcpStream> {
    let user = met(rt, alloc, ports, others, User, ASKS)?;
    let _ = met(rt, alloc, ports, others, Origin, ANSWERS)?;
    Ok(user)
}

/// Whether the service adapts the response on its connection, and this user gets it.
fn is_adapted(
    alloc: Global,
    others: &Others,
    line: &TcpStream,
    user: &TcpStream,
) -> io::Result<bool> {
    Ok(does_all(alloc, line, others, ADAPTS)? && gets(user, ADAPTED)?)
}

/// Whether a user gets the adapted response; `None` if it is refused. Its shard may ask for the options first.
fn is_served(
    alloc: Global,
    others: &Others,
    line: &TcpStream,
    user: &TcpStream,
) -> io::Result<Option<bool>> {
    if !is_offered(line, user)? {
        return Ok(if gets(user, UNAVAILABLE)? {
            None
        } else {
            Some(false)
        });
    }
    let mut word = [0u8; 7];
    if line.peek(&mut word)? >= 7 && word == *b"OPTIONS" {
        let _ = does_all(alloc, line, others, SAYS_ONE_CONNECTION)?;
    }
    Ok(Some(is_adapted(alloc, others, line, user)?))
}

/// Whether a further user is served in the end.
fn third_user(
    rt: &HostRuntime,
    alloc: Global,
    ports: LoopbackPorts,
    others: &Others,
    line: &TcpStream,
) -> io::Result<bool> {
    for _ in 0..TRIES {
        let user = asked(rt, alloc, ports, others)?;
        if let Some(right) = is_served(alloc, others, line, &user)? {
            return Ok(right);
        }
    }
    Ok(false)
}

/// The service takes one connection, whatever was configured.
pub fn one_connection(
    rt: &HostRuntime,
    alloc: Global,
    ports: LoopbackPorts,
    others: &Others,
) -> io::Result<bool> {
    let first = asked(rt, alloc, ports, others)?;
    let line = met(rt, alloc, ports, others, Service, SAYS_ONE_CONNECTION)?;
    let mut byte = [0u8; 1];
    line.peek(&mut byte)?;
    let second = asked(rt, alloc, ports, others)?;
    Ok(
        does_all(alloc, &second, others, IS_REFUSED)?
            && is_adapted(alloc, others, &line, &first)?
            && third_user(rt, alloc, ports, others, &line)?,
    )
}

/// The origin answers all requests that `icapd` has stamped, until an empty one comes.
fn answers_all(alloc: Global, others: &Others) -> io::Result<()> {
    for _ in 0..2 * USERS {
        let (stream, _) = others.origin.accept()?;
        let request = until(alloc, &stream, HEAD_END)?;
        if request.as_slice() == HEAD_END {
            break;
        }
        if request.as_slice() == STAMPED_TO_ORIGIN {
            let _ = say(&stream, RESPONSE);
        }
    }
    Ok(())
}

/// An empty request ends the origin's work.
fn ends(rt: &HostRuntime, others: &Others) -> io::Result<()> {
    let stream = TcpStream::connect(rt, others.origin.local_addr()?)?;
    say(&stream, HEAD_END)
}

/// A user asks.
fn ask(rt: &HostRuntime, ports: LoopbackPorts) -> io::Result<TcpStream> {
    let user = TcpStream::connect(rt, ports.users)?;
    say(&user, REQUEST)?;
    Ok(user)
}

/// All users ask at once.
fn all_ask(rt: &HostRuntime, alloc: Global, ports: LoopbackPorts) -> io::Result<Vec<TcpStream>> {
    let mut users = Vec::new(alloc);
    for _ in 0..USERS {
        users.push(ask(rt, ports)?)?;
    }
    Ok(users)
}

/// Whether a user gets the whole adapted message or a refusal; `None` if it gets something else.
fn gets_all(alloc: Global, user: &TcpStream) -> io::Result<Option<bool>> {
    let answer = until(alloc, user, b"ABCDEF")?;
    if answer.as_slice() == ADAPTED {
        Ok(Some(true))
    } else if answer.as_slice() == UNAVAILABLE {
        Ok(Some(false))
    } else {
        Ok(None)
    }
}

/// Whether a user alone gets the whole adapted message, and then some of many, and all others the refusal.
fn are_served(rt: &HostRuntime, alloc: Global, ports: LoopbackPorts) -> io::Result<bool> {
    if !gets(&ask(rt, ports)?, ADAPTED)? {
        return Ok(false);
    }
    let users = all_ask(rt, alloc, ports)?;
    let mut some = false;
    for user in &users {
        match gets_all(alloc, user)? {
            Some(served) => some = some || served,
            None => return Ok(false),
        }
    }
    Ok(some)
}

/// A user alone gets the whole adapted message, and then some of many, and all others the refusal.
pub fn many_users<R: Threads + Sync>(
    rt: &R,
    host: &HostRuntime,
    alloc: Global,
    ports: LoopbackPorts,
    others: &Others,
) -> io::Result<bool> {
    let mut right = false;
    thread::join_mut(
        rt,
        &mut || {
            let _ = answers_all(alloc, others);
        },
        &mut || {
            right = are_served(host, alloc, ports).unwrap_or(false);
            let _ = ends(host, others);
        },
    );
    Ok(right)
}
