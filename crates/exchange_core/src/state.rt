//! Where a user's connection stands and what it holds, and what an event makes of that.

ghost use Rattle.std.specs.Prelude.{◌≡◌};

use crate::connection::Connection;
use crate::event::{Event, RefusalCause};
use crate::phase::Phase;
use trace_core::Point;

/// Where a user's connection stands, and what it holds: a lease, a reservation, and a connection to the origin.
#[derive(Clone, Copy)]
pub struct CourseState {
    pub phase: Phase,
    /// The service's connection.
    pub connection: Connection,
    /// A reservation is open.
    pub stake: bool,
    /// The origin's connection is open.
    pub origin: bool,
    /// The origin's newest connection was kept from an earlier exchange.
    pub kept: bool,
    /// The origin's connection lasts: its answer was read whole, and another request may go out there.
    pub lasts: bool,
    /// The service said its options for the sake of this message.
    pub asked: bool,
    /// The newest plan says that its message may be sent again.
    pub repeatable: bool,
    /// This request was withdrawn from a kept connection.
    pub withdrawn: bool,
    /// A byte of the origin's answer to this request was read.
    pub heard: bool,
    /// The user was told to send the body of this request.
    pub told: bool,
    /// A part of the text that tells it went out, and not all.
    pub half_told: bool,
    /// A byte of the answer to this request went to the user, and not all.
    pub begun: bool,
    /// The answer of the message that moves is the last one of its connection, and its head says so: its transaction started while the
    /// proxy drained.
    pub closes: bool,
    /// The proxy drains.
    pub draining: bool,
    /// The proxy stops.
    pub stopping: bool,
}

impl CourseState {
    ghost use Rattle.exchange_core.specs.Course.{start, after, is_mid_text, phase_when_late, phase_when_stopping, phase_when_failed, phase_after};

    /// Before the first event.
    pub fn start() -> CourseState
        ensures { result ≡ start }
    {
        CourseState {
            phase: Phase::Head,
            connection: Connection::Absent,
            stake: false,
            origin: false,
            kept: false,
            lasts: false,
            asked: false,
            repeatable: false,
            withdrawn: false,
            heard: false,
            told: false,
            half_told: false,
            begun: false,
            closes: false,
            draining: false,
            stopping: false,
        }
    }

    /// Whether what the user got makes no whole text yet, so that it would read a refusal as a part of that text.
    #[inline(always)]
    pub fn is_mid_text(self) -> bool
        ensures { result ≡ is_mid_text self }
    {
        self.begun || self.half_told
    }

    /// Where what goes no further goes: to a refusal, where that stands alone.
    #[inline(always)]
    fn phase_when_failed(self, why: RefusalCause) -> Phase
        ensures { result ≡ phase_when_failed self why }
    {
        if self.is_mid_text() {
            Phase::Closing
        } else {
            Phase::Refusing { why }
        }
    }

    /// Where a deadline leads. A message that waits fails: `Failed(RefusalCause::Deadline)`, which the proxy tells there, leads to the same
    /// phase. Any other user is let go.
    #[inline(always)]
    fn phase_when_late(self) -> Phase
        ensures { result ≡ phase_when_late self }
    {
        match self.phase {
            Phase::Asking { .. }
            | Phase::InQueue { .. }
            | Phase::Telling
            | Phase::Answer
            | Phase::Moving { .. } => self.phase_when_failed(RefusalCause::Deadline),
            _ => Phase::Gone,
        }
    }

    /// Where the end of the proxy leads.
    #[inline(always)]
    fn phase_when_stopping(self) -> Phase
        ensures { result ≡ phase_when_stopping self }
    {
        match self.phase {
            Phase::Refusing { why } => Phase::Refusing { why },
            Phase::Idle | Phase::Head | Phase::Closing | Phase::Gone => Phase::Gone,
            _ if self.is_mid_text() => Phase::Gone,
            _ => Phase::Refusing {
                why: RefusalCause::Stopping,
            },
        }
    }

    /// Where an event leads.
    #[inline(always)]
    fn phase_after(self, event: Event) -> Phase
        ensures { result ≡ phase_after self event }
    {
        let point = self.phase.point();
        let offered = self.phase.is_offered();
        match event {
            Event::HeadBegun => Phase::Head,
            Event::RequestRead => Phase::Planning {
                point: Point::Reqmod,
            },
            Event::ResponseRead => Phase::Planning {
                point: Point::Respmod,
            },
            Event::Stale => Phase::Asking { point },
            Event::Queued => Phase::InQueue { point },
            Event::Lent { .. } => self.phase.lent(),
            Event::Learned { .. } => Phase::Planning { point },
            Event::Planned { offered, waits, .. } => Phase::Preparing {
                point,
                offered,
                waits,
            },
            Event::Stuck => Phase::Telling,
            Event::Told => self.phase.told(),
            Event::Started => Phase::AtGate { point, offered },
            Event::LetPass => Phase::Moving { point, offered },
            Event::Sent => Phase::Answer,
            Event::Withdrawn => Phase::Withdrawing,
            Event::Answered { keeps, .. } if keeps && !self.closes => Phase::Idle,
            Event::Answered { .. } | Event::Refused => Phase::Closing,
            Event::Failed(why) => self.phase_when_failed(why),
            Event::UserClosed | Event::UserLost | Event::Dropped | Event::Tried => Phase::Gone,
            Event::Late => self.phase_when_late(),
            Event::Stop => self.phase_when_stopping(),
            _ => self.phase,
        }
    }

    /// What an event leaves.
    #[inline(always)]
    pub(crate) fn after(self, event: Event) -> CourseState
        ensures { result ≡ after self event }
    {
        let mut course = self;
        course.phase = self.phase_after(event);
        match event {
            Event::RequestRead => {
                course.asked = false;
                course.withdrawn = false;
                course.heard = false;
                course.told = false;
                course.half_told = false;
                course.begun = false;
                course.closes = false;
            }
            Event::ResponseRead => {
                course.asked = false;
                course.heard = true;
            }
            Event::Lent { reused } => course.connection = Connection::Ready { reused },
            Event::Asked | Event::LetPass => course.connection = self.connection.in_use(),
            Event::Learned { usable } => {
                course.connection = self.connection.learned(usable);
                course.asked = true;
            }
            Event::Planned { repeatable, .. } => course.repeatable = repeatable,
            Event::Reserved => course.stake = true,
            Event::HalfTold => course.half_told = true,
            Event::Told => {
                course.told = true;
                course.half_told = false;
            }
            Event::Dialed { kept } => {
                course.origin = true;
                course.kept = kept;
            }
            Event::Heard => course.heard = true,
            Event::Withdrawn => course.withdrawn = true,
            Event::Renewed => course.connection = self.connection.renewed(),
            Event::Served { usable } => course.connection = self.connection.said(usable),
            Event::Started => course.closes = self.draining,
            Event::Begun => course.begun = true,
            Event::Answered { lasts, .. } => {
                course.lasts = lasts;
                course.begun = false;
                course.closes = false;
            }
            Event::Returned { .. } => course.connection = Connection::Absent,
            Event::Released => course.stake = false,
            Event::HungUp { .. } => {
                course.origin = false;
                course.lasts = false;
            }
            Event::Drain => course.draining = true,
            Event::Stop => course.stopping = true,
            // These change the phase alone.
            Event::HeadBegun
            | Event::Stale
            | Event::Queued
            | Event::Stuck
            | Event::Sent
            | Event::Failed(_)
            | Event::Refused
            | Event::UserClosed
            | Event::UserLost
            | Event::Dropped
            | Event::Late
            | Event::Tried => {}
        }
        course
    }
}
