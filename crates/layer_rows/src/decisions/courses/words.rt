//! The words of events.
use crate::listed::index_of;
use exchange_core::{Event, RefusalCause};

/// The words, in the order of the events.
pub const WORDS: &[u8] =
    b"head|request|response|stale|queued|lent|lent idle|asked|learned|learned spent|planned|planned waits|\
planned repeatable|offered|offered waits|offered repeatable|reserved|half told|stuck|told|dialed|\
dialed kept|started|let pass|renewed|served|served spent|begun|sent|heard|withdrawn|answered|\
answered lasts|answered keeps|answered keeps lasts|failed 400|failed 501|failed 502|failed 503|\
failed 504|failed stopping|closed|kept|released|hung up|hung up kept|refused|user closed|user lost|\
dropped|late|drain|stop|tried";

/// What the words mean.
pub const EVENTS: [Event; 54] = [
    Event::HeadBegun,
    Event::RequestRead,
    Event::ResponseRead,
    Event::Stale,
    Event::Queued,
    Event::Lent { reused: false },
    Event::Lent { reused: true },
    Event::Asked,
    Event::Learned { usable: true },
    Event::Learned { usable: false },
    Event::Planned {
        offered: false,
        waits: false,
        repeatable: false,
    },
    Event::Planned {
        offered: false,
        waits: true,
        repeatable: false,
    },
    Event::Planned {
        offered: false,
        waits: false,
        repeatable: true,
    },
    Event::Planned {
        offered: true,
        waits: false,
        repeatable: false,
    },
    Event::Planned {
        offered: true,
        waits: true,
        repeatable: false,
    },
    Event::Planned {
        offered: true,
        waits: false,
        repeatable: true,
    },
    Event::Reserved,
    Event::HalfTold,
    Event::Stuck,
    Event::Told,
    Event::Dialed { kept: false },
    Event::Dialed { kept: true },
    Event::Started,
    Event::LetPass,
    Event::Renewed,
    Event::Served { usable: true },
    Event::Served { usable: false },
    Event::Begun,
    Event::Sent,
    Event::Heard,
    Event::Withdrawn,
    Event::Answered {
        keeps: false,
        lasts: false,
    },
    Event::Answered {
        keeps: false,
        lasts: true,
    },
    Event::Answered {
        keeps: true,
        lasts: false,
    },
    Event::Answered {
        keeps: true,
        lasts: true,
    },
    Event::Failed(RefusalCause::Faulty),
    Event::Failed(RefusalCause::Unserved),
    Event::Failed(RefusalCause::Elsewhere),
    Event::Failed(RefusalCause::Scarce),
    Event::Failed(RefusalCause::Deadline),
    Event::Failed(RefusalCause::Stopping),
    Event::Returned { kept: false },
    Event::Returned { kept: true },
    Event::Released,
    Event::HungUp { kept: false },
    Event::HungUp { kept: true },
    Event::Refused,
    Event::UserClosed,
    Event::UserLost,
    Event::Dropped,
    Event::Late,
    Event::Drain,
    Event::Stop,
    Event::Tried,
];

/// The event that a text means.
pub fn read_event(text: &[u8]) -> Option<Event> {
    EVENTS.get(index_of(WORDS, text)?).copied()
}
