//! `icapd serve`: connections over sockets, each in a thread that serves one after another, and no more at once than are
//! configured.
use crate::patience::{Patience, wait_at_most};
use crate::places::{Seated, ServerShared};
use icap_server::ServerSide;
use std::alloc::Global;
use std::io::{Read, Write};
use std::net::{Shutdown, TcpListener, TcpStream};
use std::sync::{Arc, Wait};
use std::thread::Threads;
use std::time::{Clock, Duration, Instant};
use std::{io, thread};

/// How long the server waits after a connection that couldn't be accepted, in milliseconds.
const PAUSE: u64 = 20;

/// The bytes that are asked for at once.
const PIECE: usize = 16_384;

/// How long a connection that is closed waits for each further read, in seconds.
const LINGER: u64 = 1;

/// How often a connection that is closed is read, so that what the client still sends doesn't destroy the last answer.
const LAST_READS: u32 = 256;

/// How many bytes each of these reads drops at most.
const LAST_READ_BYTES: usize = 4096;

/// What a connection does after a piece of its input.
enum Next {
    /// It reads on.
    Read,
    /// It has its last answer, which still has to reach the client.
    Linger,
    /// It ends.
    End,
}

/// Accepts connections for ever.
pub fn serve_sockets<R: Threads + Wait + Clock + Copy + Send + 'static>(
    rt: R,
    alloc: Global,
    listener: &TcpListener,
    shared: &Arc<ServerShared, Global>,
) {
    for _ in rt.forever() {
        accept_one(rt, alloc, listener, shared);
    }
}

/// Accepts a connection, and has it served once one more may be: by a thread that has served one, or by a new one.
pub fn accept_one<R: Threads + Wait + Clock + Copy + Send + 'static>(
    rt: R,
    alloc: Global,
    listener: &TcpListener,
    shared: &Arc<ServerShared, Global>,
) {
    match listener.accept() {
        Ok((stream, _)) => start(rt, alloc, shared, stream),
        // The system is short of descriptors, as a rule, until a connection ends.
        Err(_) => thread::sleep(&rt, Duration::from_millis(PAUSE)),
    }
}

/// Has a connection served. If there is no thread, or no memory for it, it is closed.
fn start<R: Threads + Wait + Clock + Copy + Send + 'static>(
    rt: R,
    alloc: Global,
    shared: &Arc<ServerShared, Global>,
    stream: TcpStream,
) {
    let Ok(stream) = Arc::new(alloc, stream) else {
        return;
    };
    let (Ok(theirs), Ok(own)) = (Arc::try_clone(&stream), Arc::try_clone(shared)) else {
        return;
    };
    let key = shared.seat(&rt, stream);
    let Some(seated) = shared.give(
        &rt,
        Seated {
            key,
            stream: theirs,
        },
    ) else {
        return;
    };
    if thread::spawn(&rt, move || serve_all(&rt, alloc, &own, seated)).is_err() {
        shared.leave(&rt, key);
    }
}

/// A thread: serves a connection, and those that it is given after it.
fn serve_all<R: Wait + Clock>(rt: &R, alloc: Global, shared: &ServerShared, first: Seated) {
    let mut seated = first;
    for _ in rt.forever() {
        let Seated { key, stream } = seated;
        serve_stream(rt, alloc, shared, key, &stream);
        drop(stream);
        shared.leave(rt, key);
        seated = shared.next(rt);
    }
}

/// Serves a connection, whatever its end: it ends alone.
fn serve_stream<R: Wait + Clock>(
    rt: &R,
    alloc: Global,
    shared: &ServerShared,
    key: usize,
    stream: &TcpStream,
) {
    // Small answers aren't held back for more of them.
    let _ = stream.set_nodelay(true);
    let deadline = Duration::from_secs(shared.deadline);
    let (Ok(mut patience), Ok(settings)) = (
        Patience::new(stream, deadline),
        shared.settings.try_clone(alloc),
    ) else {
        return;
    };
    let mut side = ServerSide::new(alloc, settings);
    let mut buffer = [0u8; PIECE];
    let mut reader = stream;
    for turn in 0..u64::MAX {
        let waits = side.is_between();
        if waits && turn > 0 {
            shared.wait(rt, key);
        }
        let count = match reader.read(&mut buffer) {
            Err(_) => return,
            Ok(0) => break,
            Ok(count) => count,
        };
        if waits {
            shared.ask(rt, key);
        }
        match answer(rt, alloc, &mut side, &buffer[..count], &mut patience) {
            Next::Read => {}
            Next::Linger => {
                shared.linger(rt, key);
                break;
            }
            Next::End => return,
        }
    }
    let _ = linger(rt, stream, deadline);
}

/// Takes a piece of a connection's input, and writes what is due.
fn answer<R: Clock>(
    rt: &R,
    alloc: Global,
    side: &mut ServerSide,
    piece: &[u8],
    patience: &mut Patience<'_>,
) -> Next {
    let Ok(text) = side.feed(alloc, piece) else {
        return Next::End;
    };
    let mut writer = patience.stream;
    if !text.is_empty() && writer.write_all(&text).is_err() {
        return Next::End;
    }
    if side.is_closed() {
        return Next::Linger;
    }
    let waits = if side.is_within_heads() {
        // If an answer was due, these are the heads of a later request.
        patience.within_heads(rt, !text.is_empty())
    } else {
        patience.past_heads()
    };
    if waits.is_ok() { Next::Read } else { Next::End }
}

/// Says that nothing more is written, and drops what the client still sends, for a while: a connection that is closed with
/// bytes unread is reset, and its last answer may be lost. It takes as long as `all` at most.
fn linger<R: Clock>(rt: &R, stream: &TcpStream, all: Duration) -> io::Result<()> {
    stream.shutdown(Shutdown::Write)?;
    let since = Instant::now(rt)?;
    let mut reader = stream;
    let mut buffer = [0u8; LAST_READ_BYTES];
    for _ in 0..LAST_READS {
        wait_at_most(rt, stream, since, all, Duration::from_secs(LINGER))?;
        if reader.read(&mut buffer)? == 0 {
            return Ok(());
        }
    }
    Ok(())
}
