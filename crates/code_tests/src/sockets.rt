//! The wire of a socket, over loopback: what it reads, takes and counts, step by step.

use crate::ports::local;
use mio::net::TcpListener;
use mio::{Events, Interest, Poll, Token};
use socket_wire::{Dial, Origin, OriginWire, Readiness, SocketWire, Stream, User, UserWire};
use std::alloc::Global;
use std::io;
use std::net::SocketAddr;
use std::sync::Arc;
use std::test::Fail;
use wire_kit::{Got, Put, Wire};

/// What is done, and its answer.
#[derive(Clone, Copy)]
enum Deed {
    /// Our end writes five bytes.
    Writes(Put),
    /// Their end reads.
    Reads(Got),
    /// Their end is told of an event, by what `Readiness::note` takes; whether that is news.
    IsTold((bool, bool, bool), bool),
    /// What our end has counted.
    WeCounted((u64, u64)),
    /// What their end has counted.
    TheyCounted((u64, u64)),
}

/// A deed with its name.
type Named = (&'static str, Deed);

/// Five bytes go over.
const FIVE_BYTES: &[Named] = &[
    ("nothing was sent", Deed::Reads(Got::Wait)),
    ("five bytes", Deed::Writes(Put::Took(5))),
    ("nobody has told of the bytes", Deed::Reads(Got::Wait)),
    (
        "the bytes are news",
        Deed::IsTold((true, false, false), true),
    ),
    ("that is known", Deed::IsTold((true, true, false), false)),
    ("the bytes", Deed::Reads(Got::Bytes(5))),
    ("no more bytes", Deed::Reads(Got::Wait)),
];

/// Our end has finished.
const THE_END: &[Named] = &[
    ("the end is news", Deed::IsTold((false, false, true), true)),
    ("the end", Deed::Reads(Got::Ended)),
    ("their counts", Deed::TheyCounted((5, 0))),
    ("our counts", Deed::WeCounted((0, 5))),
];

/// What an end reads.
fn read_once<T: Wire>(end: &mut T) -> Got {
    let mut buf = [0u8; 16];
    end.try_read(&mut buf)
}

/// Whether two pairs of counts are equal.
fn are_equal(one: (u64, u64), other: (u64, u64)) -> bool {
    one.0 == other.0 && one.1 == other.1
}

/// Whether this is answered as it should be.
fn is_answered<O: Wire, T: Wire>(
    ours: &mut O,
    theirs: &mut T,
    told: &Readiness,
    deed: Deed,
) -> bool {
    match deed {
        Deed::Writes(answer) => ours.try_write(b"hello") == answer,
        Deed::Reads(answer) => read_once(theirs) == answer,
        Deed::IsTold((readable, writable, closed), news) => {
            told.note(readable, writable, closed) == news
        }
        Deed::WeCounted(counts) => are_equal(ours.counts(), counts),
        Deed::TheyCounted(counts) => are_equal(theirs.counts(), counts),
    }
}

/// The name of the first deed that isn't answered as it should be.
fn first_wrong<O: Wire, T: Wire>(
    ours: &mut O,
    theirs: &mut T,
    told: &Readiness,
    deeds: &[Named],
) -> Option<&'static str> {
    for (name, deed) in deeds {
        if !is_answered(ours, theirs, told, *deed) {
            return Some(*name);
        }
    }
    None
}

/// A listener on the loopback, of which the poll reports.
fn listening(rt: &HostRuntime, poll: &Poll) -> io::Result<TcpListener> {
    let mut listener = TcpListener::bind(rt, local())?;
    poll.registry()
        .register(&mut listener, Token(9), Interest::READABLE)?;
    Ok(listener)
}

/// Waits for an event.
fn wait(alloc: Global, poll: &mut Poll) -> io::Result<()> {
    let mut events = Events::with_capacity(alloc, 8)?;
    poll.poll(&mut events, None)
}

/// Both ends of a connection over loopback.
fn connection(rt: &HostRuntime, poll: &mut Poll) -> io::Result<(Stream<Origin>, Stream<User>)> {
    let listener = listening(rt, poll)?;
    let SocketAddr::V4(address) = listener.local_addr()? else {
        return Err(io::Error::other("not over IPv4"));
    };
    let ours = rt.dial(address)?;
    wait(rt.alloc(), poll)?;
    let (theirs, _) = listener.accept()?;
    Ok((ours, Stream::accepted(theirs)))
}

/// Five bytes and an end go over, and the first deed that isn't answered as it should be.
fn goes_over(
    poll: &Poll,
    told: &Readiness,
    ours: &mut OriginWire,
    theirs: &mut UserWire,
) -> io::Result<Option<&'static str>> {
    ours.register(poll.registry(), Token(0))?;
    ours.hurry()?;
    theirs.register(poll.registry(), Token(1))?;
    let before = first_wrong(ours, theirs, told, FIVE_BYTES);
    ours.finish()?;
    let behind = first_wrong(ours, theirs, told, THE_END);
    theirs.deregister(poll.registry())?;
    Ok(before.or(behind))
}

/// The same between the ends of a new connection.
fn goes_over_loopback(rt: &HostRuntime, alloc: Global) -> io::Result<Option<&'static str>> {
    let mut poll = Poll::new(rt)?;
    let (ours, theirs) = connection(rt, &mut poll)?;
    let told = Arc::new(alloc, Readiness::new())?;
    let mut ours = SocketWire::new(ours, Arc::new(alloc, Readiness::new())?);
    let mut theirs = SocketWire::new(theirs, told.clone()?);
    goes_over(&poll, &told, &mut ours, &mut theirs)
}

#[test]
fn counts_what_goes_over_loopback(rt: HostRuntime) -> Result<(), Fail> {
    assert_eq!(rt; goes_over_loopback(&rt, rt.alloc())?, None);
    Ok(())
}
