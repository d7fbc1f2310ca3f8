//! What opens connections and wakes threads, as traits.

ghost use Rattle.std.specs.Prelude.{◌≡◌, ℕ, List, ◌∷◌, IfOk, IfErr, IfSome, is_some, true};
ghost use Rattle.service_pool.specs.declared.connector.Act.{Act as AnyAct};
ghost use Rattle.service_pool.specs.Lending.{fault_in, IsOwn};

/// Why no connection to a service can be lent.
#[derive(Clone, Copy, Debug, Drop)]
pub enum LendFault {
    /// As many are leased as may be, or others wait for theirs.
    Busy,
    /// The service can't be reached, or no connection may be opened in place of one that broke.
    Unreached,
    /// No memory, no descriptor or no port was found.
    NoMemory,
    /// The service failed so often that it is paused.
    Paused,
}

/// What a connector was asked, with its answer.
#[derive(Clone, Copy, Drop)]
pub enum Act {
    /// It opened a connection, or failed for this.
    Opened(Option<LendFault>),
    /// Whether an idle connection is fit for use.
    Looked(bool),
    /// It brought a connection into use that lay idle since this moment, with the thread of this number, or failed for this.
    Resumed(u64, usize, Option<LendFault>),
    /// Whether a used connection may lie idle.
    Checked(bool),
    /// Whether it took a connection out of use, to lie idle. Otherwise it closed it.
    Rested(bool),
    /// It closed a used connection.
    Closed,
}

/// What threads share of the edge.
pub trait Edge: Copy + Drop {
    /// A connection that lies idle in a pool, with its place among the descriptors.
    type Idle: Drop;

    /// That a thread was woken. Only `wake` makes one.
    type Woken: Drop;

    ghost since: { Self.Idle → ℕ };

    // the number of the thread with which a connection lies idle
    ghost home: { Self.Idle → ℕ };

    // the number of the thread that was woken
    ghost thread_of: { Self.Woken → ℕ };

    /// The moment since which a connection lies idle, in seconds.
    fn since(idle: &Self::Idle) -> u64
        ensures { result ≡ since idle.now };

    /// The number of the thread with which a connection lies idle: the one that used it last, whose loop still hears of it.
    fn home(idle: &Self::Idle) -> usize
        ensures { result ≡ home idle.now };

    /// Whether an idle connection's service hasn't ended it, and has said nothing on it that nobody asked for.
    fn is_quiet(&self, idle: &Self::Idle) -> bool;

    /// Ends the wait of a thread, so that its first waiter is driven.
    fn wake(&self, thread: usize) -> Self::Woken
        ensures { thread_of result ≡ thread };

    /// Whether only idle connections keep the next user out.
    fn is_crowded(&self) -> bool;
}

/// What takes an exchange's connections to services out of use.
///
/// Contracts see it as its possible pasts: what it was asked so far, with its answers, the newest first. One that keeps no list of
/// them may have had any past.
pub trait Keeper<E: Edge> {
    /// A connection that an exchange uses.
    type Used;

    ghost past: { Self → List AnyAct → Type 0 };

    // the number of the thread whose exchange it is
    ghost thread: { Self → ℕ };

    // a connection that lies idle is this one, which was in use
    ghost is_line: { E.Idle → Self.Used → Type 0 };

    /// Whether a used connection may lie idle: its service hasn't ended it, and nothing lies unread on it.
    fn may_rest(&mut self, used: &Self::Used) -> bool
        ensures { (p : List AnyAct) → past self.old p → past self.new (Act.Checked result ∷ p) };

    /// Takes a connection out of use, to lie idle with this thread since this moment. `None` where it can't lie idle, as without a descriptor for it:
    /// then it is closed.
    fn rest(&mut self, used: Self::Used, now: u64) -> Option<E::Idle>
        ensures since { IfSome result (λ idle. E.since idle ≡ now) }
        ensures home { IfSome result (λ idle. E.home idle ≡ thread self.old) }
        ensures line { IfSome result (λ idle. is_line idle used) }
        ensures asked { (p : List AnyAct) → past self.old p → past self.new (Act.Rested (is_some result) ∷ p) };

    /// Closes a connection.
    fn close(&mut self, used: Self::Used)
        ensures { (p : List AnyAct) → past self.old p → past self.new (Act.Closed ∷ p) };
}

/// What opens connections to services for an exchange, and brings idle ones into use.
pub trait Connector<E: Edge>: Keeper<E> {
    /// Where a service is.
    type Place: Copy;

    // a connection, or one that lies idle, leads to the service that is there
    ghost leads: { Self.Place → Self.Used → Type 0 };

    ghost idle_leads: { Self.Place → E.Idle → Type 0 };

    /// Whether it is known without a further look that nothing came on an idle connection of this thread's since it was laid down. Such ones
    /// are lent first.
    fn is_known_quiet(&self, idle: &E::Idle) -> bool;

    /// Opens a connection to the service that is there. It may still be on its way. The fault is the connector's own: neither `Busy` nor `Paused`.
    fn open(&mut self, place: Self::Place) -> Result<Self::Used, LendFault>
        ensures own { IfErr result IsOwn }
        ensures leads { IfOk result (λ used. leads place used) }
        ensures asked { (p : List AnyAct) → Self.past self.old p → Self.past self.new (Act.Opened (fault_in result) ∷ p) };

    /// Whether an idle connection is fit for use: it leads to the service that is there, which hasn't ended it, and has said nothing on
    /// it that nobody asked for.
    fn is_fit(&mut self, place: Self::Place, idle: &E::Idle) -> bool
        ensures leads { result ≡ true → idle_leads place idle.now }
        ensures asked { (p : List AnyAct) → Self.past self.old p → Self.past self.new (Act.Looked result ∷ p) };

    /// Brings an idle connection into use. Where it fails, the connection is closed. The fault is the connector's own: neither `Busy` nor `Paused`.
    fn resume(&mut self, idle: E::Idle) -> Result<Self::Used, LendFault>
        ensures own { IfErr result IsOwn }
        ensures leads { (place : Self.Place) → idle_leads place idle → IfOk result (λ used. leads place used) }
        ensures asked { (p : List AnyAct) → Self.past self.old p → Self.past self.new (Act.Resumed (E.since idle) (E.home idle) (fault_in result) ∷ p) };
}
