//! Scenes are tables of steps, and one player takes them: users, an origin, a service and the administrator in one thread.

use super::loopback::{Others, admin, stop};
use super::texts::{OFFERED, REQUEST, RESPONSE_HEAD};
use crate::ports::LoopbackPorts;
use crate::streams::{gets, hears, hears_end, say, until};
use std::alloc::Global;
use std::io::{self, ErrorKind};
use std::net::{Shutdown, TcpStream};
use std::thread;
use std::time::Duration;
use wire_kit::HoldGate;

/// How often something is tried again.
pub const TRIES: u32 = 1_000;

/// Who has a connection with the proxy.
#[derive(Clone, Copy)]
pub enum ScenePeer {
    User,
    Origin,
    Service,
}

/// What is done on a connection.
#[derive(Clone, Copy)]
pub enum Deed {
    /// This is written.
    Says(&'static [u8]),
    /// Just this comes next.
    Gets(&'static [u8]),
    /// Something comes that ends so.
    Passes(&'static [u8]),
    /// The worked request's response is offered with a preview.
    GetsOffer,
    /// Nothing comes for a while.
    HearsNothing,
    /// Nothing more comes: the proxy has closed.
    HearsEnd,
    /// Nothing more is written.
    Ends,
}

/// A step of a scene. Connections are numbered from 0, in the order in which they are made.
#[derive(Clone, Copy)]
pub enum SceneStep {
    /// A user connects, or the origin or the service gets a connection; then this is done on it.
    New(ScenePeer, &'static [Deed]),
    /// This is done on a connection.
    On(usize, &'static [Deed]),
    /// A connection is closed.
    Closes(usize),
    /// The administrator says the first line, and the second one is the answer.
    Admin(&'static str, &'static str),
    /// The administrator says the first line until the second one is the answer.
    Awaits(&'static str, &'static str),
    /// So many administrators connect, and say nothing.
    Silent(usize),
    /// The administrator stops the proxy.
    Stops,
    /// The first transaction may go on.
    Releases,
}

/// What a scene is played on, and the connections that were made so far.
#[derive(Drop)]
pub struct SceneStage<'a> {
    pub ports: LoopbackPorts,
    pub others: &'a Others,
    pub gate: &'a HoldGate,
    pub made: Vec<Option<TcpStream>>,
}

/// Whether the worked request's response is offered with a preview, to the service at this port.
fn gets_offer(alloc: Global, stream: &TcpStream, port: u16) -> io::Result<bool> {
    let head = format!(in alloc;
        "RESPMOD icap://127.0.0.1:{port}/respmod/upper ICAP/1.0\r\nHost: 127.0.0.1:{port}\r\nPreview: 4\r\n\
Encapsulated: req-hdr=0, res-hdr=50, res-body=88\r\n\r\n"
    )?;
    Ok(
        gets(stream, head.as_bytes())?
            && gets(stream, REQUEST)?
            && gets(stream, RESPONSE_HEAD)?
            && gets(stream, OFFERED)?,
    )
}

fn does(alloc: Global, stream: &TcpStream, port: u16, deed: Deed) -> io::Result<bool> {
    match deed {
        Deed::Gets(text) => gets(stream, text),
        Deed::Passes(end) => Ok(until(alloc, stream, end)?.ends_with(end)),
        Deed::GetsOffer => gets_offer(alloc, stream, port),
        Deed::HearsNothing => Ok(!hears(stream)?),
        Deed::HearsEnd => hears_end(stream),
        Deed::Says(text) => {
            say(stream, text)?;
            Ok(true)
        }
        Deed::Ends => {
            stream.shutdown(Shutdown::Write)?;
            Ok(true)
        }
    }
}

/// Does this on a connection. Whether all got what they should.
pub fn does_all(
    alloc: Global,
    stream: &TcpStream,
    others: &Others,
    deeds: &[Deed],
) -> io::Result<bool> {
    for deed in deeds {
        if !does(alloc, stream, others.port, *deed)? {
            return Ok(false);
        }
    }
    Ok(true)
}

/// A user connects, or the origin or the service gets a connection.
pub fn meet(
    rt: &HostRuntime,
    ports: LoopbackPorts,
    others: &Others,
    side: ScenePeer,
) -> io::Result<TcpStream> {
    let listener = match side {
        ScenePeer::User => return TcpStream::connect(rt, ports.users),
        ScenePeer::Origin => &others.origin,
        ScenePeer::Service => &others.service,
    };
    let (stream, _) = listener.accept()?;
    Ok(stream)
}

/// Whether the administrator gets this answer in the end.
fn awaits(rt: &HostRuntime, ports: LoopbackPorts, line: &str, answer: &str) -> io::Result<bool> {
    for _ in 0..TRIES {
        if admin(rt, ports, line, answer)? {
            return Ok(true);
        }
        thread::sleep(rt, Duration::from_millis(1));
    }
    Ok(false)
}

/// So many administrators connect, and say nothing.
fn connect_silent(rt: &HostRuntime, stage: &mut SceneStage<'_>, count: usize) -> io::Result<bool> {
    for _ in 0..count {
        let silent = TcpStream::connect(rt, stage.ports.admin)?;
        stage.made.push(Some(silent))?;
    }
    Ok(true)
}

fn take(
    rt: &HostRuntime,
    alloc: Global,
    stage: &mut SceneStage<'_>,
    step: SceneStep,
) -> io::Result<bool> {
    match step {
        SceneStep::New(side, deeds) => {
            let stream = meet(rt, stage.ports, stage.others, side)?;
            let right = does_all(alloc, &stream, stage.others, deeds)?;
            stage.made.push(Some(stream))?;
            Ok(right)
        }
        SceneStep::On(number, deeds) => match stage.made.get(number) {
            Some(Some(stream)) => does_all(alloc, stream, stage.others, deeds),
            _ => Err(io::Error::from(ErrorKind::NotConnected)),
        },
        SceneStep::Closes(number) => {
            if let Some(place) = stage.made.get_mut(number) {
                *place = None;
            }
            Ok(true)
        }
        SceneStep::Admin(line, answer) => admin(rt, stage.ports, line, answer),
        SceneStep::Awaits(line, answer) => awaits(rt, stage.ports, line, answer),
        SceneStep::Silent(count) => connect_silent(rt, stage, count),
        SceneStep::Stops => {
            stop(rt, stage.ports)?;
            Ok(true)
        }
        SceneStep::Releases => {
            stage.gate.answered();
            Ok(true)
        }
    }
}

/// Takes the steps of a scene. Whether all got what they should.
pub fn take_all(
    rt: &HostRuntime,
    alloc: Global,
    stage: &mut SceneStage<'_>,
    steps: &[SceneStep],
) -> io::Result<bool> {
    for step in steps {
        if !take(rt, alloc, stage, *step)? {
            return Ok(false);
        }
    }
    Ok(true)
}
