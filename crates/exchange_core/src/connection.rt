//! The connection to a service that an exchange has leased.

ghost use Rattle.std.specs.Prelude.{◌≡◌};
ghost use Rattle.exchange_core.specs.Course.{is_leased, is_ready, is_in_use, is_spent, is_reused, in_use, said, learned, renewed};

/// The service's connection.
#[derive(Clone, Copy, Debug)]
pub enum Connection {
    /// None is leased.
    Absent,
    /// One is leased, and nothing is under way on it. It may have been used before.
    Ready { reused: bool },
    /// A request is under way on it.
    InUse { reused: bool },
    /// The service has said all, and it may not serve again: its request isn't whole, a byte is left over, or its service
    /// closes it.
    Spent,
}

impl Connection {
    /// Whether a connection is leased.
    #[inline(always)]
    pub fn is_leased(self) -> bool
        ensures { result ≡ is_leased self }
    {
        !matches!(self, Connection::Absent)
    }

    /// Whether one is leased that may serve, with nothing under way on it.
    #[inline(always)]
    pub fn is_ready(self) -> bool
        ensures { result ≡ is_ready self }
    {
        matches!(self, Connection::Ready { .. })
    }

    /// Whether a request is under way.
    #[inline(always)]
    pub fn is_in_use(self) -> bool
        ensures { result ≡ is_in_use self }
    {
        matches!(self, Connection::InUse { .. })
    }

    /// Whether it may not serve again.
    #[inline(always)]
    pub fn is_spent(self) -> bool
        ensures { result ≡ is_spent self }
    {
        matches!(self, Connection::Spent)
    }

    /// Whether it was used before, so that its service may have closed it meanwhile.
    #[inline(always)]
    pub fn is_reused(self) -> bool
        ensures { result ≡ is_reused self }
    {
        match self {
            Connection::Ready { reused } | Connection::InUse { reused } => reused,
            Connection::Absent | Connection::Spent => false,
        }
    }

    /// With a request under way.
    #[inline(always)]
    pub(crate) fn in_use(self) -> Connection
        ensures { result ≡ in_use self }
    {
        match self {
            Connection::Ready { reused } => Connection::InUse { reused },
            connection => connection,
        }
    }

    /// Once the service has said all.
    #[inline(always)]
    pub(crate) fn said(self, usable: bool) -> Connection
        ensures { result ≡ said self usable }
    {
        match self {
            Connection::InUse { reused } if usable => Connection::Ready { reused },
            Connection::InUse { .. } => Connection::Spent,
            connection => connection,
        }
    }

    /// Once the service has said its options: what serves again was used before.
    #[inline(always)]
    pub(crate) fn learned(self, usable: bool) -> Connection
        ensures { result ≡ learned self usable }
    {
        match self {
            Connection::InUse { .. } if usable => Connection::Ready { reused: true },
            Connection::InUse { .. } => Connection::Spent,
            connection => connection,
        }
    }

    /// A fresh one in its place.
    #[inline(always)]
    pub(crate) fn renewed(self) -> Connection
        ensures { result ≡ renewed self }
    {
        match self {
            Connection::InUse { .. } => Connection::InUse { reused: false },
            connection => connection,
        }
    }
}
