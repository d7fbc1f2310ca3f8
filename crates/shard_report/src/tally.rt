//! What a loop counts. It alone adds; the administrator's loop reads.

ghost use Rattle.std.specs.Prelude.{◌≡◌, ◌<◌};
ghost use Rattle.shard_report.specs.Indexes.{class_of, class_number, bound_of, bound_number, point_number, reply_number, why_number, dealing_number, index_of};
ghost use Rattle.shard_report.specs.declared.tally.TheConstants.{COUNTS};

use exchange_report::{REASONS, Reason, Reply, Why};
use std::alloc::{AllocError, Global};
use std::sync::atomic::{AtomicU64, Ordering};
use trace_core::Point;

/// The class of a status (RFC 9110, section 15).
#[derive(Clone, Copy)]
pub enum Class {
    /// 100 to 199.
    Informational,
    /// 200 to 299.
    Successful,
    /// 300 to 399.
    Redirection,
    /// 400 to 499.
    ClientError,
    /// 500 to 599.
    ServerError,
    /// HTTP has no such class.
    Other,
}

/// How long an exchange took at most: the bounds of a histogram.
#[derive(Clone, Copy)]
pub enum Bound {
    Milliseconds5,
    Milliseconds10,
    Milliseconds25,
    Milliseconds50,
    Milliseconds100,
    Milliseconds250,
    Milliseconds500,
    Seconds1,
    Milliseconds2500,
    Seconds5,
    Seconds10,
    /// It took longer than any other bound.
    None,
}

/// What is counted.
#[derive(Clone, Copy)]
pub enum Count {
    /// Requests that were answered, refused or cut.
    Requests,
    /// Messages that were sent to their service anew.
    Retries,
    /// Bytes from users.
    Read,
    /// Bytes to users.
    Sent,
    /// Users that are connected.
    Users,
    /// The milliseconds that exchanges took in all.
    Milliseconds,
    /// Answers with a status of this class.
    Answers(Class),
    /// Messages of a point with this reply of their service.
    Messages(Point, Reply),
    /// The proxy's own refusals of a point's message, for this reason.
    Refusals(Point, Reason),
    /// Exchanges that ended in a point's message without a whole answer, and without a refusal, for this reason.
    Failures(Point, Why),
    /// Exchanges that took this long, and longer than the bound before.
    Times(Bound),
    /// Connections to origins, and what came of them.
    Origins(Dealing),
}

/// What is counted of connections to origins.
#[derive(Clone, Copy)]
pub enum Dealing {
    /// Connections that were opened, or prepared to be opened by the first byte on them.
    Opened,
    /// Connections which an earlier exchange had left, and that were taken for a request.
    Reused,
    /// Requests that were begun anew, since they couldn't go out on such a connection, or it had ended.
    BegunAnew,
    /// Connections that lie idle now.
    Idle,
}

/// How many reasons there are, and how many ends of an exchange: these, and two without a reason.
const REASON_COUNT: usize = REASONS.len();

const END_COUNT: usize = REASON_COUNT + 2;

/// How many numbers a loop has: six, one for each class, four for each point, one for each bound, four of connections to origins, one
/// for each reason of each point, and one for each end of each point.
const COUNTS: usize = 6 + 6 + 2 * 4 + 12 + 4 + 2 * REASON_COUNT + 2 * END_COUNT;

impl Bound {
    /// The least bound that so many milliseconds don't pass.
    pub fn of(milliseconds: u64) -> Bound
        ensures { result ≡ bound_of milliseconds }
    {
        match milliseconds {
            0..=5 => Bound::Milliseconds5,
            6..=10 => Bound::Milliseconds10,
            11..=25 => Bound::Milliseconds25,
            26..=50 => Bound::Milliseconds50,
            51..=100 => Bound::Milliseconds100,
            101..=250 => Bound::Milliseconds250,
            251..=500 => Bound::Milliseconds500,
            501..=1_000 => Bound::Seconds1,
            1_001..=2_500 => Bound::Milliseconds2500,
            2_501..=5_000 => Bound::Seconds5,
            5_001..=10_000 => Bound::Seconds10,
            _ => Bound::None,
        }
    }

    fn number(self) -> usize
        ensures { result ≡ bound_number self }
    {
        match self {
            Bound::Milliseconds5 => 0,
            Bound::Milliseconds10 => 1,
            Bound::Milliseconds25 => 2,
            Bound::Milliseconds50 => 3,
            Bound::Milliseconds100 => 4,
            Bound::Milliseconds250 => 5,
            Bound::Milliseconds500 => 6,
            Bound::Seconds1 => 7,
            Bound::Milliseconds2500 => 8,
            Bound::Seconds5 => 9,
            Bound::Seconds10 => 10,
            Bound::None => 11,
        }
    }
}

impl Class {
    /// The class of a status.
    pub fn of(status: u16) -> Class
        ensures { result ≡ class_of status }
    {
        match status / 100 {
            1 => Class::Informational,
            2 => Class::Successful,
            3 => Class::Redirection,
            4 => Class::ClientError,
            5 => Class::ServerError,
            _ => Class::Other,
        }
    }

    fn number(self) -> usize
        ensures { result ≡ class_number self }
    {
        match self {
            Class::Informational => 0,
            Class::Successful => 1,
            Class::Redirection => 2,
            Class::ClientError => 3,
            Class::ServerError => 4,
            Class::Other => 5,
        }
    }
}

fn point_number(point: Point) -> usize
    ensures { result ≡ point_number point }
{
    match point {
        Point::Reqmod => 0,
        Point::Respmod => 1,
    }
}

fn reply_number(reply: Reply) -> usize
    ensures { result ≡ reply_number reply }
{
    match reply {
        Reply::Plain => 0,
        Reply::Unchanged => 1,
        Reply::Changed => 2,
        Reply::Missing => 3,
    }
}

fn why_number(why: Why) -> usize
    ensures { result ≡ why_number why }
{
    match why {
        Why::Served => 0,
        Why::UserGone => 1,
        Why::Failed(reason) => 2 + reason.number(),
    }
}

fn dealing_number(dealing: Dealing) -> usize
    ensures { result ≡ dealing_number dealing }
{
    match dealing {
        Dealing::Opened => 0,
        Dealing::Reused => 1,
        Dealing::BegunAnew => 2,
        Dealing::Idle => 3,
    }
}

/// The index of a number among all of a loop. No two share one.
fn index(count: Count) -> usize
    ensures index { result ≡ index_of count }
    ensures within { result < COUNTS }
{
    match count {
        Count::Requests => 0,
        Count::Retries => 1,
        Count::Read => 2,
        Count::Sent => 3,
        Count::Users => 4,
        Count::Milliseconds => 5,
        Count::Answers(class) => 6 + class.number(),
        Count::Messages(point, reply) => 12 + 4 * point_number(point) + reply_number(reply),
        Count::Times(bound) => 20 + bound.number(),
        Count::Origins(dealing) => 32 + dealing_number(dealing),
        Count::Refusals(point, reason) => {
            36 + REASON_COUNT * point_number(point) + reason.number()
        }
        Count::Failures(point, why) => {
            36 + 2 * REASON_COUNT + END_COUNT * point_number(point) + why_number(why)
        }
    }
}

/// The numbers of one loop.
///
/// ```
/// let tally = LoopTally::new(alloc)?;
/// tally.add(Count::Answers(Class::of(204)), 1);
/// assert_eq!(rt; tally.get(Count::Answers(Class::Successful)), 1);
/// assert_eq!(rt; tally.get(Count::Requests), 0);
/// ```
#[derive(Drop)]
pub struct LoopTally {
    all: Vec<AtomicU64>,
}

impl LoopTally {
    /// All are 0. `Err` where no memory was found.
    pub fn new(alloc: Global) -> Result<LoopTally, AllocError> {
        let mut all = Vec::with_capacity(alloc, COUNTS)?;
        for _ in 0..COUNTS {
            all.push(AtomicU64::new(0))?;
        }
        Ok(LoopTally { all })
    }

    /// Adds to a number.
    pub fn add(&self, count: Count, more: u64) {
        if let Some(number) = self.all.get(index(count)) {
            let _ = number.fetch_add(more, Ordering::SeqCst);
        }
    }

    /// Takes from a number.
    pub fn take(&self, count: Count, fewer: u64) {
        if let Some(number) = self.all.get(index(count)) {
            let _ = number.fetch_sub(fewer, Ordering::SeqCst);
        }
    }

    /// Says what a number is, whatever it was.
    pub fn set(&self, count: Count, value: u64) {
        if let Some(number) = self.all.get(index(count)) {
            number.store(value, Ordering::SeqCst);
        }
    }

    /// A number.
    pub fn get(&self, count: Count) -> u64 {
        match self.all.get(index(count)) {
            Some(number) => number.load(Ordering::SeqCst),
            None => 0,
        }
    }
}
