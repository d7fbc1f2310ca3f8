//! Connections of `icapd` over sockets on the loopback.

use crate::streams::{gets, hears_end, say};
use icapd_commands::{ServerShared, Settings, accept_one};
use std::alloc::{AllocError, Global};
use std::net::{Net, Shutdown, SocketAddr, TcpListener, TcpStream};
use std::sync::{Arc, Wait};
use std::test::Fail;
use std::thread::Threads;
use std::time::{Clock, Duration};
use std::{io, thread};

const REQUEST: &[u8] = b"REQMOD icap://127.0.0.1:1344/reqmod/block ICAP/1.0\r\n\
Host: 127.0.0.1:1344\r\nEncapsulated: req-hdr=0, null-body=45\r\n\r\n\
GET http://o.test/ HTTP/1.1\r\nHost: o.test\r\n\r\n";

const BLOCKED: &[u8] = b"ICAP/1.0 200 OK\r\nISTag: \"adapt-1\"\r\n\
Encapsulated: res-hdr=0, res-body=45\r\n\r\n\
HTTP/1.1 403 Forbidden\r\nContent-Length: 8\r\n\r\n8\r\nblocked\n\r\n0\r\n\r\n";

const BAD_REQUEST: &[u8] = b"ICAP/1.0 400 Bad Request\r\nISTag: \"adapt-1\"\r\n\
Encapsulated: null-body=0\r\n\r\n";

/// What a server shares that takes one connection at a time, with this deadline.
fn one_at_a_time(alloc: Global, deadline: u64) -> Result<Arc<ServerShared, Global>, AllocError> {
    let tag = b"adapt-1".to_vec(alloc)?;
    match Settings::new(tag, 1, 3600, 1024) {
        Some(settings) => ServerShared::new(alloc, settings, deadline),
        None => Err(AllocError),
    }
}

/// A connection that has sent these bytes.
fn connect<R: Net<Listener = TcpListener, Stream = TcpStream>>(
    rt: &R,
    address: SocketAddr,
    bytes: &[u8],
) -> io::Result<TcpStream> {
    let stream = TcpStream::connect(rt, address)?;
    say(&stream, bytes)?;
    Ok(stream)
}

/// Whether these bytes come next on the connection, and then its end where that is asked for.
fn receives(stream: &TcpStream, want: &[u8], end: bool) -> io::Result<bool> {
    Ok(gets(stream, want)? && (!end || hears_end(stream)?))
}

/// A server that listens, with what its connections share.
#[derive(Drop)]
struct Server {
    listener: TcpListener,
    address: SocketAddr,
    shared: Arc<ServerShared, Global>,
}

/// A server that takes one connection at a time, with this deadline.
fn listening<R: Net<Listener = TcpListener, Stream = TcpStream>>(
    rt: &R,
    alloc: Global,
    deadline: u64,
) -> io::Result<Server> {
    let shared = one_at_a_time(alloc, deadline)?;
    let listener = TcpListener::bind(rt, "127.0.0.1:0")?;
    let address = listener.local_addr()?;
    Ok(Server {
        listener,
        address,
        shared,
    })
}

/// A connection that has sent these bytes, and was taken.
fn taken<
    R: Net<Listener = TcpListener, Stream = TcpStream>
        + Threads
        + Wait
        + Clock
        + Copy
        + Send
        + Sync
        + 'static,
>(rt: R, alloc: Global, server: &Server, bytes: &[u8]) -> io::Result<TcpStream> {
    let stream = connect(&rt, server.address, bytes)?;
    accept_one(rt, alloc, &server.listener, &server.shared);
    Ok(stream)
}

/// Two requests on one connection.
fn serve_twice<
    R: Net<Listener = TcpListener, Stream = TcpStream>
        + Threads
        + Wait
        + Clock
        + Copy
        + Send
        + Sync
        + 'static,
>(rt: R, alloc: Global, server: &Server) -> io::Result<bool> {
    let kept = taken(rt, alloc, server, REQUEST)?;
    let first = receives(&kept, BLOCKED, false)?;
    say(&kept, REQUEST)?;
    Ok(first && receives(&kept, BLOCKED, false)?)
}

/// A client that writes no more is answered, and then the connection ends.
fn serve_half_closed<
    R: Net<Listener = TcpListener, Stream = TcpStream>
        + Threads
        + Wait
        + Clock
        + Copy
        + Send
        + Sync
        + 'static,
>(rt: R, alloc: Global, server: &Server) -> io::Result<bool> {
    let half = connect(&rt, server.address, REQUEST)?;
    half.shutdown(Shutdown::Write)?;
    accept_one(rt, alloc, &server.listener, &server.shared);
    receives(&half, BLOCKED, true)
}

/// A client that goes away in a request, and then one whose request is none.
fn serve_wrong_ones<
    R: Net<Listener = TcpListener, Stream = TcpStream>
        + Threads
        + Wait
        + Clock
        + Copy
        + Send
        + Sync
        + 'static,
>(rt: R, alloc: Global, server: &Server) -> io::Result<bool> {
    drop(connect(&rt, server.address, &REQUEST[..20])?);
    accept_one(rt, alloc, &server.listener, &server.shared);
    let wrong = taken(rt, alloc, server, b"x\r\nand more")?;
    receives(&wrong, BAD_REQUEST, true)
}

/// Requests on one connection, a half-closed client, clients that are gone or wrong, each alone.
fn serve_each<
    R: Net<Listener = TcpListener, Stream = TcpStream>
        + Threads
        + Wait
        + Clock
        + Copy
        + Send
        + Sync
        + 'static,
>(rt: R, alloc: Global) -> io::Result<bool> {
    let server = listening(&rt, alloc, 60)?;
    Ok(
        serve_twice(rt, alloc, &server)?
            && serve_half_closed(rt, alloc, &server)?
            && serve_wrong_ones(rt, alloc, &server)?,
    )
}

/// Whether a second connection waits until the first one has sent the rest of its request, and has its answer and its end.
fn waits_its_turn(first: &TcpStream, second: &TcpStream, rest: &[u8]) -> io::Result<bool> {
    second.set_read_timeout(Some(Duration::from_millis(600)))?;
    let waits = receives(second, BLOCKED, false).is_err();
    second.set_read_timeout(None)?;
    say(first, rest)?;
    Ok(waits && receives(first, BLOCKED, true)? && receives(second, BLOCKED, false)?)
}

/// A second connection waits while the first is within a request. Once that is answered, and waits for a further one, it
/// is closed, and the second served.
fn serve_one_at_a_time<
    R: Net<Listener = TcpListener, Stream = TcpStream>
        + Threads
        + Wait
        + Clock
        + Copy
        + Send
        + Sync
        + 'static,
>(rt: R, alloc: Global) -> io::Result<bool> {
    let server = listening(&rt, alloc, 60)?;
    let (front, rest) = REQUEST.split_at(20);
    let first = taken(rt, alloc, &server, front)?;
    let second = connect(&rt, server.address, REQUEST)?;
    let mut right = false;
    thread::join_mut(
        &rt,
        &mut || accept_one(rt, alloc, &server.listener, &server.shared),
        &mut || right = waits_its_turn(&first, &second, rest).unwrap_or(false),
    );
    Ok(right)
}

/// Whether the first connection ends unserved, and the second one served, and then with nothing more.
fn end_both(silent: &TcpStream, second: &TcpStream) -> io::Result<bool> {
    Ok(
        receives(silent, b"", true)?
            && receives(second, BLOCKED, false)?
            && receives(second, b"", true)?,
    )
}

/// A connection that has said nothing is closed for a further one, and one that says nothing for the deadline in any case.
fn close_silent<
    R: Net<Listener = TcpListener, Stream = TcpStream>
        + Threads
        + Wait
        + Clock
        + Copy
        + Send
        + Sync
        + 'static,
>(rt: R, alloc: Global) -> io::Result<bool> {
    let server = listening(&rt, alloc, 1)?;
    let silent = taken(rt, alloc, &server, b"")?;
    let second = taken(rt, alloc, &server, REQUEST)?;
    end_both(&silent, &second)
}

#[test]
fn connections_end_alone_and_make_room(rt: HostRuntime) -> Result<(), Fail> {
    let alloc = rt.alloc();
    let alone = serve_each(rt, alloc)?;
    let waits = serve_one_at_a_time(rt, alloc)?;
    let closed = close_silent(rt, alloc)?;
    assert_eq!(rt; [alone, waits, closed], [true; 3]);
    Ok(())
}
