//! The deadline of a transaction, and the marks of its connection to the service.

ghost use Rattle.std.specs.Prelude.{◌≡◌, ◌↔◌, ◌+◌, ◌≤◌, true, false};

/// When the last byte moved, how long no byte may move, and how the service's connection stands.
#[derive(Clone, Copy)]
pub struct Pace {
    /// How many seconds may pass without a moved byte.
    pub deadline: u64,
    /// The moment of the last moved byte, in seconds.
    pub last_moved: u64,
    /// Whether the service's connection was used before.
    pub reused: bool,
    /// Whether it broke before a byte of a reply, and the request wasn't begun anew since.
    pub broken: bool,
}

impl Pace {
    /// Of a transaction that begins at this moment, in seconds, over a connection that was used before or is fresh.
    pub fn new(deadline: u64, now: u64, reused: bool) -> Pace
        ensures { result ≡ record { deadline = deadline; last_moved = now; reused = reused; broken = false } }
    {
        Pace {
            deadline,
            last_moved: now,
            reused,
            broken: false,
        }
    }

    /// Whether the deadline has passed at this moment, in seconds: for that long no byte has moved. A moment before that of the last
    /// moved byte counts as none passed.
    pub fn is_late(&self, now: u64) -> bool
        ensures { result ≡ true ↔ self.now.last_moved + self.now.deadline ≤ now }
    {
        now >= self.last_moved && now - self.last_moved >= self.deadline
    }
}
