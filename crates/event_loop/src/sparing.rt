//! Which users' connections are closed so that others are served.

ghost use Rattle.std.specs.Prelude.{◌≡◌, ◌↔◌, ℕ, true, None, IfSome, if◌then◌else◌, nat_lt, ◌*◌};
ghost use Rattle.event_loop.specs.Sparing.{IsRank, ComesBefore, IsIdle, youth};

/// What a user's connection is in the midst of, as far as it may be spared for another one.
#[derive(Clone, Copy, PartialEq, Eq)]
pub enum Stay {
    /// An exchange: it isn't spared.
    Exchange,
    /// Between two requests, with no byte of the next one's head.
    Idle,
    /// A head that isn't whole.
    Head,
    /// Its end: the last answer is being written, or is out.
    End,
    /// Whatever it is: its user has ended its side.
    Ended,
}

/// How many milliseconds a user that was just taken in has for its first head: it isn't spared within them.
const YOUNG: u64 = 200;

/// For how many milliseconds a user that was just taken in isn't spared, where this number of so many seats have a head that
/// isn't whole. Where these are more than half of all, the oldest of them goes at once.
pub fn youth_of(heads: usize, seats: usize) -> u64
    ensures { result ≡ youth heads seats }
{
    if heads > seats / 2 { 0 } else { YOUNG }
}

/// Whether a connection with this stay, whose user came `age` milliseconds ago, is one of a user that was just taken in.
pub fn is_young(stay: Stay, age: u64) -> bool {
    stay == Stay::Head && age < YOUNG
}

/// A user's connection in the order in which they are spared.
#[derive(Clone, Copy)]
pub struct Spared {
    pub key: usize,
    rank: u8,
    since: u64,
}

/// The connection under this key, where it is spared: its user came `age` milliseconds ago, and its stay has this number in the order of
/// all. Heads aren't spared within the first `youth` milliseconds. Users that have ended their side come first, and then idle ones
/// (RFC 9112, section 9.5, lets an idle connection be closed at any moment).
pub fn spared_of(key: usize, stay: Stay, age: u64, youth: u64, since: u64) -> Option<Spared>
    ensures some { IfSome result (λ spared. (spared.key ≡ key) × (spared.since ≡ since) × IsRank stay age youth spared.rank) }
    ensures none { result ≡ None → (rank : ℕ) → IsRank stay age youth rank → ⊥ }
{
    let rank = match stay {
        Stay::Ended => 0,
        Stay::Idle => 1,
        Stay::Head if age >= youth => 2,
        Stay::End => 3,
        Stay::Head | Stay::Exchange => return None,
    };
    Some(Spared { key, rank, since })
}

impl Spared {
    /// Whether its user has ended its side, or is idle: it is spared before any loop spares one that is in the midst of something.
    pub fn is_idle(&self) -> bool
        ensures { result ≡ true ↔ IsIdle self.now }
    {
        self.rank == 0 || self.rank == 1
    }

    /// Whether it is spared rather than the other one.
    pub fn comes_before(&self, other: &Spared) -> bool
        ensures { result ≡ true ↔ ComesBefore self.now other.now }
    {
        self.rank < other.rank || self.rank == other.rank && self.since < other.since
    }
}
