//! The sides of a transaction, and its wires.

use adapt_sides::{MAX_READ, WIRE_ROOM};
use http_relay::{HeadProgress, RelayFault, SourceSide};
use proxy_rules::{Incoming, Offer};
use std::alloc::{AllocError, Global};
use trace_core::{Plan, Point};
use wire_kit::{MemoryWire, ReadAnswer, Wire};

/// Where the service is.
const HOST: &[u8] = b"127.0.0.1";

const PORT: u16 = 1344;

/// The most turns that a head takes.
const HEAD_TURNS: usize = 300;

/// What a transaction is of. Its message's head comes over its source's wire.
#[derive(Clone, Copy)]
pub struct Subject<'a> {
    pub plan: Plan,
    /// The head of the user's request, which is offered. Of an answer it is read to its end before.
    pub request: &'a [u8],
    /// The head of the answer that is offered; nothing of a request.
    pub head: &'a [u8],
    /// The service's path.
    pub path: &'a [u8],
}

/// The wires of a transaction.
#[derive(Drop)]
pub struct GameWires<A, C> {
    pub source: A,
    pub service: C,
    /// One that comes in the place of the service's.
    pub fresh: Option<C>,
    pub next_hop: C,
}

/// What stands of a transaction before its reservation.
#[derive(Drop)]
pub(crate) struct Sides<O, M> {
    pub offer: O,
    pub message: M,
}

/// The user's side of an answer, whose request was read to its end.
fn user_side(alloc: Global, request: &[u8]) -> Result<SourceSide, AllocError> {
    let reads = [ReadAnswer::Bytes(4096)].to_vec(alloc)?;
    let mut wire = MemoryWire::new(alloc, request.to_vec(alloc)?, reads, Vec::new(alloc))?;
    let mut side = SourceSide::request(alloc);
    if side.head_turn(&mut wire, &mut [0; MAX_READ]) == Err(RelayFault::NoMemory) {
        return Err(AllocError);
    }
    let _ = side.read_turn(&mut wire, &mut [], &mut [0; WIRE_ROOM]);
    Ok(side)
}

/// A message whose head is read from a wire.
pub(crate) trait OfferedMessage {
    /// The message before its first byte.
    fn before(alloc: Global, subject: &Subject<'_>) -> Result<Self, AllocError>;

    /// Reads its head. False if there is no head.
    fn reads_head(&mut self, wire: &mut impl Wire) -> Result<bool, AllocError>;
}

impl OfferedMessage for Incoming {
    fn before(alloc: Global, subject: &Subject<'_>) -> Result<Incoming, AllocError> {
        match subject.plan.point {
            Point::Respmod => Ok(Incoming::response(
                alloc,
                user_side(alloc, subject.request)?,
                Vec::new(alloc),
            )),
            Point::Reqmod => Ok(Incoming::request(alloc)),
        }
    }

    fn reads_head(&mut self, wire: &mut impl Wire) -> Result<bool, AllocError> {
        for _ in 0..HEAD_TURNS {
            match self.head_turn(wire, &mut [0; MAX_READ]) {
                Ok(HeadProgress::Taken) => return Ok(true),
                Err(RelayFault::NoMemory) => return Err(AllocError),
                _ => {}
            }
        }
        Ok(false)
    }
}

/// A message's offer.
pub(crate) trait Offering {
    /// The offer by the subject's plan: of an answer goes the user's request and the answer's head, and of a request that one's head.
    /// `None` where there is none.
    fn by(alloc: Global, subject: &Subject<'_>) -> Result<Option<Self>, AllocError>;
}

impl Offering for Offer {
    fn by(alloc: Global, subject: &Subject<'_>) -> Result<Option<Offer>, AllocError> {
        Offer::new(
            alloc,
            subject.plan,
            None,
            &[],
            HOST,
            PORT,
            subject.path,
            subject.request,
            subject.head,
        )
    }
}

/// All sides of a transaction. `None` where its source has no head, or where there is no offer by its plan.
pub(crate) fn make_sides<O: Offering + Drop, M: OfferedMessage + Drop>(
    alloc: Global,
    subject: &Subject<'_>,
    wire: &mut impl Wire,
) -> Result<Option<Sides<O, M>>, AllocError> {
    let Some(offer) = O::by(alloc, subject)? else {
        return Ok(None);
    };
    let mut message = M::before(alloc, subject)?;
    if !message.reads_head(wire)? {
        return Ok(None);
    }
    Ok(Some(Sides { offer, message }))
}
