//! What a wire asks of a stream of the system's, and what an answer of the system means.

ghost use Rattle.std.specs.Prelude.{Some, []};
ghost use Rattle.std.specs.Io.{ReadsAtMost, WritesAtMost};
ghost use Rattle.wire_kit.specs.Past.{Past, after_ask, after_offer};
ghost use Rattle.socket_wire.specs.Answers.{got_in, put_in, put_by};

use std::io::{self, ErrorKind};
use wire_kit::Put;

/// How often a call that a signal broke off is made anew.
const CALLS: u32 = 16;

/// A stream that never blocks, as the system gives it.
///
/// Contracts see it as its possible pasts: what its calls gave, took and answered so far. A call that answers that nothing is there
/// now, or that a signal broke off, leaves no trace in them. Of a stream of the system's nothing is known, so each past is possible
/// there: that a call gives and takes the bytes of the slice that it is handed is a premise.
pub trait Calls {
    ghost calls: { Self → Past → Type 0 };

    /// Reads into the start of the buffer.
    fn ask(&mut self, buf: &mut [u8]) -> io::Result<usize>
        ensures bound { ReadsAtMost result buf.new }
        ensures calls { (p : Past) → calls self.old p → calls self.new (after_ask p buf.new (got_in result)) };

    /// Offers the bytes.
    fn offer(&mut self, bytes: &[u8]) -> io::Result<usize>
        ensures bound { WritesAtMost result bytes.now }
        ensures calls { (p : Past) → calls self.old p → calls self.new (after_offer p bytes.now (put_in result)) };

    /// Whether it is still to be connected.
    fn is_late(&self) -> bool;

    /// Connects it. False where that fails at once; the connection may still be on its way.
    fn connect(&mut self) -> bool
        ensures { (p : Past) → calls self.old p → calls self.new (after_offer p [] (put_by result)) };

    /// Gives it up, as after a call that signals broke off again and again: it counts as failed.
    fn give_up(&mut self)
        ensures { (p : Past) → calls self.old p → calls self.new (after_offer p [] (Some Put.Fault)) };

    /// Has small writes go out at once.
    fn hurry(&self) -> io::Result<()>;
}

/// Reads once. A call that a signal breaks off is made anew, `CALLS` times at most: no further event would report bytes that lie there.
pub(crate) fn ask_once<S: Calls>(stream: &mut S, buf: &mut [u8]) -> io::Result<usize>
    ensures bound { ReadsAtMost result buf.new }
    ensures calls { (p : Past) → S.calls stream.old p → S.calls stream.new (after_ask p buf.new (got_in result)) }
{
    for _ in 0..CALLS {
        match stream.ask(buf) {
            Err(error) if error.kind() == ErrorKind::Interrupted => {}
            answer => return answer,
        }
    }
    stream.ask(buf)
}

/// Offers bytes once. A call that a signal breaks off is made anew, `CALLS` times at most.
pub(crate) fn offer_once<S: Calls>(stream: &mut S, bytes: &[u8]) -> io::Result<usize>
    ensures bound { WritesAtMost result bytes.now }
    ensures calls { (p : Past) → S.calls stream.old p → S.calls stream.new (after_offer p bytes.now (put_in result)) }
{
    for _ in 0..CALLS {
        match stream.offer(bytes) {
            Err(error) if error.kind() == ErrorKind::Interrupted => {}
            answer => return answer,
        }
    }
    stream.offer(bytes)
}
