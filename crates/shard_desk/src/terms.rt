//! What has a time in all, however slowly its bytes come: a request's head, and a connection that is opened.

ghost use Rattle.std.specs.Prelude.{◌≡◌};
ghost use Rattle.shard_desk.specs.Terms.{is_over, is_overdue};

/// How many seconds each has. 0: no time of its own, so that it is late only where no byte moves.
#[derive(Clone, Copy)]
pub struct Terms {
    /// A request's head, from its first byte to its last.
    pub head: u64,
    /// A connection, until the other side takes it.
    pub connection: u64,
}

/// Since which moment each is awaited, in seconds. `None` where it isn't.
#[derive(Clone, Copy)]
pub(crate) struct AwaitedSince {
    pub head: Option<u64>,
    pub origin: Option<u64>,
    pub service: Option<u64>,
}

/// Whether more than this number of seconds have passed since. Moments are whole seconds, so that is a second late at most, and never
/// early.
fn is_over(since: Option<u64>, now: u64, seconds: u64) -> bool
    ensures { result ≡ is_over since now seconds }
{
    match since {
        Some(since) => seconds > 0 && now.saturating_sub(since) > seconds,
        None => false,
    }
}

impl AwaitedSince {
    /// Nothing is awaited.
    pub fn nothing() -> AwaitedSince {
        AwaitedSince {
            head: None,
            origin: None,
            service: None,
        }
    }

    /// Whether something takes longer than it may.
    pub fn is_overdue(self, now: u64, terms: Terms) -> bool
        ensures { result ≡ is_overdue self now terms }
    {
        is_over(self.head, now, terms.head)
            || is_over(self.origin, now, terms.connection)
            || is_over(self.service, now, terms.connection)
    }
}
