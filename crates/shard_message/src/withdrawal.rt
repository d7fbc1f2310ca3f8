//! A request that is withdrawn from its origin's connection, which was kept, before an answer to it was read.

ghost use Rattle.std.specs.Prelude.{◌≡◌, ℕ, List, true, false, None, IfSome, IsSomeAnd};
ghost use Rattle.proxy_rules.specs.Arrivals.{HasCome};
ghost use Rattle.shard_message.specs.Ended.{HasGiven, HasGivenSince};
ghost use Rattle.shard_message.specs.Told.{IsRequestAgain};

use http_relay::{HeadProgress, SourceSide};
use proxy_rules::Incoming;
use std::alloc::Global;
use std::boxed::Box;
use wire_kit::{Got, Put, Wire};

/// A connection that gives nothing and takes nothing: what is read over it was there before.
#[derive(Drop)]
struct Silent;

impl Wire for Silent {
    ghost use Rattle.std.specs.Prelude.{◌≡◌, []};

    ghost past = { λ silent p. (p.read ≡ []) × (p.taken ≡ []) };

    fn try_read(&mut self, _buf: &mut [u8]) -> Got {
        Got::Wait
    }

    fn try_write(&mut self, _bytes: &[u8]) -> Put {
        Put::Wait
    }

    fn counts(&self) -> (u64, u64) {
        (0, 0)
    }
}

/// Reads the head of a message anew whose bytes are all there. `None` where it can't be read, as for want of memory.
fn read_again(message: Incoming) -> Option<Incoming>
    ensures user { IfSome result (λ read. read.user ≡ message.user) }
    ensures came { (text : List ℕ) → HasCome text message.side → IfSome result (λ read. HasCome text read.side) }
{
    let mut read = message;
    match read.head_turn(&mut Silent, &mut [0]) {
        Ok(HeadProgress::Taken) => Some(read),
        _ => None,
    }
}

/// A user's request again, of which no byte of a body came: its head is read once more. `None` where it has a body, or no memory was found.
pub(crate) fn request_of(request: SourceSide) -> Option<Incoming>
    ensures { IfSome result (IsRequestAgain request) }
{
    read_again(Incoming::again(request)?)
}

/// Whether there is a connection, and it has given no byte since it had given so many.
pub fn has_given_none<W: Wire>(wire: &Option<W>, before: u64) -> bool
    ensures none { result ≡ true → IfSome wire.now (λ wire. HasGiven W.past wire before) }
    ensures some { result ≡ false → IfSome wire.now (λ wire. HasGivenSince W.past wire before) }
{
    match wire {
        Some(wire) => wire.counts().0 == before,
        None => false,
    }
}

/// The request again that this is to answer: its head is read once more. `None` where it has a body, or no memory was found.
fn request_answered(response: Incoming) -> Option<Incoming>
    ensures { IfSome result (λ again. IfSome response.user (λ request. IsRequestAgain request again)) }
{
    read_again(response.into_request()?)
}

/// It, on the heap.
fn request_in(alloc: Global, response: Box<Incoming>) -> Option<Box<Incoming>>
    ensures { IfSome result (λ again. IfSome response.value.user (λ request. IsRequestAgain request again.value)) }
{
    let again = request_answered(Box::into_inner(response))?;
    Box::new(alloc, again).ok()
}

/// Has the request again be the message, in place of the response that is to come. False where it can't be sent again, or no memory was found:
/// then there is no message.
pub fn request_again(alloc: Global, message: &mut Option<Box<Incoming>>) -> bool
    ensures again { result ≡ true → IsSomeAnd message.old (λ response. IsSomeAnd message.new (λ again. IfSome response.value.user (λ request. IsRequestAgain request again.value))) }
{
    *message = match message.take() {
        Some(response) => request_in(alloc, response),
        None => None,
    };
    message.is_some()
}
