//! A stream as a wire: its counts, and its readiness.

ghost use Rattle.std.specs.Prelude.{◌≡◌, ◌<◌, ◌≤◌, ◌+◌, ◌^◌, [], length};
ghost use Rattle.wire_kit.specs.Past.{Past, FitsRoom, FitsPut, nothing_yet, after_read, after_write, after_offer};
ghost use Rattle.socket_wire.specs.Answers.{but_waits};
ghost use Rattle.socket_wire.specs.Counting.{given_by, taken_by};
ghost use Rattle.socket_wire.specs.Dialling.{fault_of};
ghost use Rattle.socket_wire.specs.Socket.{IsPast};

use crate::calls::{Calls, ask_once, offer_once};
use crate::ready::Readiness;
use crate::stream::Stream;
use crate::tally::Tally;
use mio::{Interest, Registry, Token};
use std::io::{self, ErrorKind, Read};
use std::net::{Shutdown, SocketAddrV4};
use std::sync::Arc;
use wire_kit::{Got, Put, Wire};

/// Whether a connection is dialled.
#[derive(Clone, Copy)]
pub enum Dialled {
    Yes,
    /// The poll has to report its socket first.
    NotYet,
    /// The system refused.
    Failed,
}

/// What lies unread on a connection.
#[derive(Clone, Copy)]
pub enum Unread {
    /// No byte, and the other side may still send.
    Nothing,
    /// Bytes.
    Bytes,
    /// The other side has ended its bytes, or the connection has failed.
    End,
}

/// Reads once. Only no byte at all is the end of the other side's bytes.
fn got_from<S: Calls>(stream: &mut S, ready: &Readiness, buf: &mut [u8]) -> Got
    ensures fits { FitsRoom (length buf.old) result }
    ensures keeps { length buf.new ≡ length buf.old }
    ensures bound { given_by result ≤ length buf.old }
    ensures calls { (p : Past) → S.calls stream.old (but_waits p) → S.calls stream.new (but_waits (after_read p buf.new result)) }
{
    match ask_once(stream, buf) {
        Ok(0) => Got::Ended,
        Ok(n) => {
            // A short read is the last one, unless an end follows it.
            if n < buf.len() && !ready.is_closed() {
                ready.read_out();
            }
            Got::Bytes(n)
        }
        Err(error) => match error.kind() {
            ErrorKind::WouldBlock => {
                ready.read_out();
                Got::Wait
            }
            ErrorKind::Interrupted => {
                stream.give_up();
                Got::Fault
            }
            _ => Got::Fault,
        },
    }
}

/// Offers bytes once, on a stream that was dialled. One on which something was heard after it lay idle has failed.
fn put_to<S: Calls>(stream: &mut S, ready: &Readiness, bytes: &[u8]) -> Put
    ensures fits { FitsPut (length bytes.now) result }
    ensures bound { taken_by result ≤ length bytes.now }
    ensures calls { (p : Past) → S.calls stream.old (but_waits p) → S.calls stream.new (but_waits (after_write p bytes.now result)) }
{
    if ready.is_spoiled() {
        stream.give_up();
        return Put::Fault;
    }
    match offer_once(stream, bytes) {
        Ok(0) => Put::Wait,
        Ok(n) => {
            ready.took(n as u64);
            if n < bytes.len() {
                ready.filled();
            }
            Put::Took(n)
        }
        Err(error) => match error.kind() {
            ErrorKind::WouldBlock => {
                ready.filled();
                Put::Wait
            }
            ErrorKind::Interrupted => {
                stream.give_up();
                Put::Fault
            }
            _ => Put::Fault,
        },
    }
}

/// Dials a stream, if that is still to be done and the poll has reported its socket.
fn dial<S: Calls>(stream: &mut S, ready: &Readiness) -> Dialled
    ensures { (p : Past) → S.calls stream.old p → S.calls stream.new (after_offer p [] (fault_of result)) }
{
    if !stream.is_late() {
        return Dialled::Yes;
    }
    if !ready.may_dial() {
        return Dialled::NotYet;
    }
    ready.dial();
    if stream.connect() {
        Dialled::Yes
    } else {
        Dialled::Failed
    }
}

/// A connection over a stream, with its counts. A call that can give nothing before the next event answers Wait without asking the
/// stream. It may be one that is dialled at its first write: until then it waits.
#[derive(Drop)]
pub struct StreamWire<S> {
    stream: S,
    ready: Arc<Readiness>,
    tally: Tally,
}

/// A connection that never blocks, with its counts, to a peer of the role `R`.
///
/// A connection to a peer of one role is another type than one of another role, and nothing makes the one of the other: a wire that
/// is handed for another doesn't compile.
///
/// ```
/// let ready = Arc::new(alloc, Readiness::new())?;
/// let mut wire: UserWire = SocketWire::new(Stream::accepted(stream), Arc::clone(&ready)?);
/// wire.register(poll.registry(), Token(token_of(7, Peer::User)))?;
/// assert_eq!(rt; wire.try_read(&mut buf), Got::Wait);
/// // The other side sends five bytes. The poll reports token 28 as readable, and the loop notes it.
/// assert!(rt; ready.note(true, false, false));
/// assert_eq!(rt; wire.try_read(&mut buf), Got::Bytes(5));
/// assert_eq!(rt; wire.counts(), (5, 0));
/// ```
pub type SocketWire<R> = StreamWire<Stream<R>>;

impl<S: Calls> StreamWire<S> {
    /// A connection of which nothing was read and on which nothing was written.
    pub fn new(stream: S, ready: Arc<Readiness>) -> StreamWire<S>
        requires { S.calls stream nothing_yet }
        ensures past { IsPast S.calls result nothing_yet }
        ensures stream { result.stream ≡ stream }
    {
        StreamWire {
            stream,
            ready,
            tally: Tally::new(),
        }
    }

    /// Reads, where there may be something, and the count has room for it.
    fn ask(&mut self, buf: &mut [u8]) -> Got
        ensures fits { FitsRoom (length buf.old) result }
        ensures keeps { length buf.new ≡ length buf.old }
        ensures room { self.old.tally.read + given_by result < 2 ^ 64 }
        ensures calls { (p : Past) → S.calls self.old.stream (but_waits p) → S.calls self.new.stream (but_waits (after_read p buf.new result)) }
        ensures tally { self.new.tally ≡ self.old.tally }
    {
        let room = u64::MAX - self.tally.read;
        if !self.ready.can_read() || buf.len() as u64 > room {
            return Got::Wait;
        }
        got_from(&mut self.stream, &self.ready, buf)
    }

    /// Offers bytes, where the stream is dialled and may take some, and the count has room for them.
    fn offer(&mut self, bytes: &[u8]) -> Put
        ensures fits { FitsPut (length bytes.now) result }
        ensures room { self.old.tally.taken + taken_by result < 2 ^ 64 }
        ensures calls { (p : Past) → S.calls self.old.stream (but_waits p) → S.calls self.new.stream (but_waits (after_write p bytes.now result)) }
        ensures tally { self.new.tally ≡ self.old.tally }
    {
        let room = u64::MAX - self.tally.taken;
        match dial(&mut self.stream, &self.ready) {
            Dialled::Yes => {}
            Dialled::NotYet => return Put::Wait,
            Dialled::Failed => return Put::Fault,
        }
        if !self.ready.can_write() || bytes.len() as u64 > room {
            return Put::Wait;
        }

        // Without this a second small write may wait for 40 ms. The first one goes out at once anyway.
        if self.tally.writes == 1 {
            let _ = self.stream.hurry();
        }
        put_to(&mut self.stream, &self.ready, bytes)
    }

    /// The stream itself.
    pub fn into_stream(self) -> S
        ensures { result ≡ self.stream }
    {
        let StreamWire {
            stream,
            ready: _,
            tally: _,
        } = self;
        stream
    }

    /// Whether the last read found the end of what was there, no event has said since that more came, and none at any
    /// time that the other side has ended its bytes or that the connection has failed. The system isn't
    /// asked.
    pub fn is_read_out(&self) -> bool {
        !self.ready.can_read() && !self.ready.is_closed()
    }
}

impl<R> StreamWire<Stream<R>> {
    /// The address that it leads to; none where the peer dialled.
    pub fn address(&self) -> Option<SocketAddrV4>
        ensures { result ≡ self.now.stream.to }
    {
        self.stream.address()
    }

    /// Has a poll report it under a token. The poll also reports what is there already.
    pub fn register(&mut self, registry: &Registry, token: Token) -> io::Result<()>
        ensures { self.new ≡ self.old }
    {
        let interest = Interest::READABLE | Interest::WRITABLE;
        registry.register(&mut self.stream.inner, token, interest)
    }

    /// Has the poll report it no more.
    pub fn deregister(&mut self, registry: &Registry) -> io::Result<()>
        ensures { self.new ≡ self.old }
    {
        registry.deregister(&mut self.stream.inner)
    }

    /// Has small writes go out at once. Without it a second write may wait for 40 ms, so the wire does this before its second one.
    pub fn hurry(&self) -> io::Result<()> {
        self.stream.hurry()
    }

    /// Tells the other side that nothing more comes.
    pub fn finish(&self) -> io::Result<()> {
        self.stream.inner.shutdown(Shutdown::Write)
    }

    /// What lies unread. Nothing is read.
    pub fn unread(&self) -> Unread {
        let mut byte = [0u8; 1];
        match self.stream.inner.peek(&mut byte) {
            Ok(0) => Unread::End,
            Ok(_) => Unread::Bytes,
            Err(error) => match error.kind() {
                ErrorKind::WouldBlock | ErrorKind::Interrupted => Unread::Nothing,
                _ => Unread::End,
            },
        }
    }

    /// Looks at what lies unread, from its first byte on. Nothing is read.
    pub fn look(&self, buf: &mut [u8]) -> Got
        ensures fits { FitsRoom (length buf.old) result }
        ensures keeps { length buf.new ≡ length buf.old }
        ensures bound { given_by result ≤ length buf.old }
    {
        match self.stream.inner.peek(buf) {
            Ok(0) => Got::Ended,
            Ok(n) => Got::Bytes(n),
            Err(error) => match error.kind() {
                ErrorKind::WouldBlock | ErrorKind::Interrupted => Got::Wait,
                _ => Got::Fault,
            },
        }
    }

    /// Reads all of these bytes, which lie unread, beside the wire: it counts and gives those after them. False where the system gives
    /// fewer.
    pub fn skip(&mut self, bytes: &mut [u8]) -> bool
        ensures keeps { length bytes.new ≡ length bytes.old }
        ensures counts { (self.new.tally ≡ self.old.tally) × (self.new.ready ≡ self.old.ready) }
    {
        match self.stream.inner.read(bytes) {
            Ok(n) => n == bytes.len(),
            Err(_) => false,
        }
    }

    /// Whether an event has said that the other side has ended its bytes, or that the connection has failed.
    pub fn is_closed(&self) -> bool {
        self.ready.is_closed()
    }

    /// Has the next event that reports bytes be news.
    pub fn await_bytes(&self) {
        self.ready.read_out();
    }

    /// Resets the connection, so that the other side can't take the end of its bytes for the end of a message. What wasn't
    /// sent yet is dropped.
    pub fn cut(&self) {
        self.stream.cut();
    }
}

impl<S: Calls> Wire for StreamWire<S> {
    ghost past = { λ wire p. IsPast S.calls wire p };

    fn try_read(&mut self, buf: &mut [u8]) -> Got {
        let got = self.ask(buf);
        self.tally.note_got(got);
        got
    }

    fn may_give(&mut self) -> bool {
        // For the proof alone: its number has 64 bits.
        let _read = self.tally.read;
        if self.ready.can_read() {
            return true;
        }
        self.tally.note_got(Got::Wait);
        false
    }

    fn try_write(&mut self, bytes: &[u8]) -> Put {
        let put = self.offer(bytes);
        self.tally.note_put(put);
        put
    }

    fn counts(&self) -> (u64, u64) {
        (self.tally.read, self.tally.taken)
    }
}
