//! `serve` over loopback: users, an origin, a service and the administrator in one thread, the proxy in threads of its own.

use super::apart::three_apart;
use super::player::{SceneStage, SceneStep, take_all};
use super::shards::{many_users, one_connection};
use crate::ports::{LoopbackPorts, listeners, local};
use crate::streams::gets;
use icapd_commands::{ServerShared, Settings, serve_sockets};
use mio::net::TcpListener as Listener;
use proxy_commands::{Source, read_configuration};
use proxy_config::Config;
use shard_loop::{AdminPorts, Append, Reloads, Rules, StopAudit, Stopped, serve};
use socket_wire::Dial;
use std::alloc::{AllocError, Global};
use std::io::{self, ErrorKind, Write};
use std::net::{Net, TcpListener, TcpStream};
use std::sync::{Arc, Wait};
use std::thread::{self, Threads};
use std::time::Clock;
use wire_kit::HoldGate;

/// What is played.
#[derive(Clone, Copy)]
pub enum LoopbackScene {
    /// Nothing is adapted.
    Forwarded(&'static [SceneStep]),
    /// Responses are adapted.
    Adapted(&'static [SceneStep]),
    /// Requests and responses are adapted.
    AllAdapted(&'static [SceneStep]),
    /// Responses are adapted, and the first transaction is held back until a step releases it.
    HeldBack(&'static [SceneStep]),
    /// The service takes one connection: a second user is refused, the first one served, and then a third one.
    OneConnection,
    /// Requests and responses are adapted by `icapd`: of a user alone, and then of more than the budget has room for, all at once.
    ByIcapd,
    /// The worked exchange, with a user, an origin and a service in a thread each.
    Apart,
}

/// An origin and a service, and the service's port.
#[derive(Drop)]
pub struct Others {
    pub origin: TcpListener,
    pub service: TcpListener,
    pub port: u16,
}

fn make_others(rt: &HostRuntime) -> io::Result<Others> {
    let origin = TcpListener::bind(rt, local())?;
    let service = TcpListener::bind(rt, local())?;
    let port = service.local_addr()?.port();
    Ok(Others {
        origin,
        service,
        port,
    })
}

/// Starts `icapd` with a thread of its own, which serves as long as the tests run. Answers its port.
fn start_icapd<R: Threads + Wait + Clock + Copy + Send + 'static>(
    rt: R,
    host: &HostRuntime,
    alloc: Global,
) -> io::Result<u16> {
    let Some(settings) = Settings::new(b"adapt-1".to_vec(alloc)?, 64, 3600, 1024) else {
        return Err(io::Error::from(ErrorKind::InvalidInput));
    };
    let shared = ServerShared::new(alloc, settings, 60)?;
    let listener = TcpListener::bind(host, local())?;
    let port = listener.local_addr()?.port();
    if thread::spawn(&rt, move || serve_sockets(rt, alloc, &listener, &shared)).is_err() {
        return Err(io::Error::from(ErrorKind::WouldBlock));
    }
    Ok(port)
}

/// The table of a point's service, where messages of that point are adapted.
fn service_table(
    alloc: Global,
    is_adapted: bool,
    point: &str,
    port: u16,
    path: &str,
) -> Result<String, AllocError> {
    if !is_adapted {
        return Ok(String::new(alloc));
    }
    format!(in alloc; "[{point}]\nhost = \"127.0.0.1\"\nport = {port}\npath = \"{path}\"\n")
}

/// The configuration that a text says.
fn configured(alloc: Global, text: &str) -> io::Result<Arc<Config>> {
    match read_configuration(alloc, text.as_bytes()) {
        Ok(config) => Ok(Arc::new(alloc, config)?),
        Err(_) => Err(io::Error::from(ErrorKind::InvalidInput)),
    }
}

/// A configuration with the origin's name, and the service of each message that is adapted. The addresses that it listens on
/// aren't used.
fn configuration(
    alloc: Global,
    others: &Others,
    scene: LoopbackScene,
    more: &str,
) -> io::Result<Arc<Config>> {
    let origin = others.origin.local_addr()?.port();
    let service = others.port;
    let by_both = matches!(scene, LoopbackScene::AllAdapted(_) | LoopbackScene::ByIcapd);
    let requests = service_table(alloc, by_both, "reqmod", service, "/reqmod/stamp")?;
    let by_one = !matches!(scene, LoopbackScene::Forwarded(_));
    let responses = service_table(alloc, by_one, "respmod", service, "/respmod/upper")?;
    let text = format!(in alloc;
        "listen = \"127.0.0.1:1\"\nadmin = \"127.0.0.1:2\"\n{more}[hosts]\n\"o.test\" = \"127.0.0.1:{origin}\"\n{requests}{responses}"
    )?;
    configured(alloc, text.as_str())
}

/// Whether the admin port answers a line so.
pub fn admin(rt: &HostRuntime, ports: LoopbackPorts, line: &str, answer: &str) -> io::Result<bool> {
    let mut stream = TcpStream::connect(rt, ports.admin)?;
    stream.write_all(line.as_bytes())?;
    gets(&stream, answer.as_bytes())
}

/// Stops the proxy.
pub fn stop(rt: &HostRuntime, ports: LoopbackPorts) -> io::Result<()> {
    let mut stream = TcpStream::connect(rt, ports.admin)?;
    stream.write_all(b"stop\n")
}

/// Whether nothing was out, and the administrator stopped the proxy.
fn is_clean(stopped: &Stopped) -> bool {
    let nothing = StopAudit {
        rows: 0,
        held: 0,
        leased: 0,
    };
    stopped.audit() == nothing && stopped.fault().is_none()
}

/// Plays a scene. Whether all got what they should.
fn play<R: Threads + Sync>(
    rt: &R,
    host: &HostRuntime,
    alloc: Global,
    scene: LoopbackScene,
    ports: LoopbackPorts,
    others: &Others,
    gate: &HoldGate,
) -> io::Result<bool> {
    let mut stage = SceneStage {
        ports,
        others,
        gate,
        made: Vec::new(alloc),
    };
    match scene {
        LoopbackScene::HeldBack(_) => {}
        _ => gate.answered(),
    }
    match scene {
        LoopbackScene::Forwarded(steps)
        | LoopbackScene::Adapted(steps)
        | LoopbackScene::AllAdapted(steps)
        | LoopbackScene::HeldBack(steps) => take_all(host, alloc, &mut stage, steps),
        LoopbackScene::OneConnection => one_connection(host, alloc, ports, others),
        LoopbackScene::ByIcapd => many_users(rt, host, alloc, ports, others),
        LoopbackScene::Apart => three_apart(rt, host, alloc, ports, others),
    }
}

/// Runs the proxy until it is stopped, on listeners that are there once.
fn run_proxy<
    R: Threads
        + Wait
        + Net<Listener = TcpListener, Stream = TcpStream>
        + Dial
        + Append
        + Clock
        + Reloads
        + Sync,
>(
    rt: &R,
    alloc: Global,
    config: &Arc<Config>,
    listeners: &mut Option<(Listener, Listener)>,
    gate: &HoldGate,
) -> Option<Stopped> {
    let (users, admin) = listeners.take()?;
    let metrics = None;
    let admin = AdminPorts { admin, metrics };
    let mut said = Vec::new(alloc);
    let rules = Rules {
        config: Arc::clone(config).ok()?,
        source: Source::Text(Vec::new(alloc)),
    };
    serve(rt, alloc, rules, users, admin, None, Some(gate), &mut said).ok()
}

/// Runs the proxy with these lines of a configuration while a scene is played, and stops it. Whether all went as it should,
/// and nothing was out at the end. Both handles are the test's own: threads are started by a bound alone.
pub fn goes_well<
    R: Threads
        + Wait
        + Net<Listener = TcpListener, Stream = TcpStream>
        + Dial
        + Append
        + Clock
        + Reloads
        + Copy
        + Send
        + Sync
        + 'static,
>(rt: &R, host: &HostRuntime, scene: LoopbackScene, more: &str) -> io::Result<bool> {
    let alloc = host.alloc();
    let mut others = make_others(host)?;
    if matches!(scene, LoopbackScene::ByIcapd) {
        others.port = start_icapd(*rt, host, alloc)?;
    }
    let config = configuration(alloc, &others, scene, more)?;
    let (made, ports) = listeners(host)?;
    let gate = HoldGate::new();
    let mut made = Some(made);
    let mut stopped = None;
    let mut right = false;
    thread::join_mut(
        rt,
        &mut || stopped = run_proxy(rt, alloc, &config, &mut made, &gate),
        &mut || {
            right = play(rt, host, alloc, scene, ports, &others, &gate).unwrap_or(false);
            let _ = stop(host, ports);
        },
    );
    let Some(stopped) = stopped else {
        return Ok(false);
    };
    Ok(right && is_clean(&stopped))
}
