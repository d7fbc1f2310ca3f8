//! Which event may come next.

ghost use Rattle.std.specs.Prelude.{◌≡◌, true};
ghost use Rattle.exchange_core.specs.May.{may_come, is_free, holds_nothing, is_to_plan, may_take_kept, dialing_of, may_keep_origin, is_provided, is_bidden, may_tell, ends_with, goes_on_with};

use crate::dialing::Dialing;
use crate::event::Event;
use crate::phase::Phase;
use crate::state::CourseState;

impl CourseState {
    /// Neither a lease nor a reservation is out.
    #[inline(always)]
    pub fn is_free(self) -> bool
        ensures { result ≡ is_free self }
    {
        !self.connection.is_leased() && !self.stake
    }

    /// Nor a connection to the origin.
    #[inline(always)]
    pub fn holds_nothing(self) -> bool
        ensures { result ≡ holds_nothing self }
    {
        self.is_free() && !self.origin
    }

    /// Whether the message may be planned: what a withdrawn one held has gone back.
    #[inline(always)]
    fn is_to_plan(self) -> bool
        ensures { result ≡ is_to_plan self }
    {
        matches!(self.phase, Phase::Planning { .. })
            || (self.phase == Phase::Withdrawing && self.holds_nothing())
    }

    /// Whether the request may go out on a kept connection: it may be sent again, and wasn't withdrawn from one.
    #[inline(always)]
    fn may_take_kept(self) -> bool
        ensures { result ≡ may_take_kept self }
    {
        self.repeatable && !self.withdrawn
    }

    /// How the origin of the request is to be dialed.
    #[inline(always)]
    pub fn dialing(self) -> Dialing
        ensures { result ≡ dialing_of self }
    {
        if self.may_take_kept() {
            Dialing::KeptFirst
        } else {
            Dialing::Fresh
        }
    }

    /// Whether the origin's connection may be kept for later exchanges: it lasts, and the proxy neither drains nor stops.
    #[inline(always)]
    pub fn may_keep_origin(self) -> bool
        ensures { result ≡ may_keep_origin self }
    {
        self.lasts && !self.draining && !self.stopping
    }

    /// Whether the connection that an offer wants is there, or none, and the reservation.
    #[inline(always)]
    fn is_provided(self) -> bool
        ensures { result ≡ is_provided self }
    {
        let connection = if self.phase.is_offered() {
            self.connection.is_ready()
        } else {
            !self.connection.is_leased()
        };
        matches!(self.phase, Phase::Preparing { .. }) && connection && self.stake
    }

    /// Whether its user doesn't wait to be told to send its body, or was told.
    #[inline(always)]
    fn is_bidden(self) -> bool
        ensures { result ≡ is_bidden self }
    {
        !self.phase.waits() || self.told
    }

    /// Whether a byte of the text that tells it may go out.
    #[inline(always)]
    fn may_tell(self) -> bool
        ensures { result ≡ may_tell self }
    {
        let waits = self.phase.waits() && self.is_provided();
        let is_told = self.phase == Phase::Telling && self.holds_nothing();
        !self.told && (waits || is_told)
    }

    /// Whether an event may come next.
    #[inline(always)]
    pub fn may(self, event: Event) -> bool
        ensures { result ≡ may_come self event }
    {
        let phase = self.phase;
        let connection = self.connection;
        match event {
            Event::HeadBegun => phase == Phase::Idle && self.holds_nothing(),
            Event::RequestRead => phase == Phase::Head && self.holds_nothing(),
            Event::ResponseRead => phase == Phase::Answer && self.is_free(),
            Event::Stale => self.is_to_plan() && !self.asked && !connection.is_spent(),
            Event::Queued => {
                phase.wants_connection() && self.is_free() && (!phase.is_request() || !self.origin)
            }
            Event::Lent { .. } => {
                (phase.wants_connection() || matches!(phase, Phase::InQueue { .. }))
                    && !connection.is_leased()
            }
            Event::Asked => matches!(phase, Phase::Asking { .. }) && connection.is_ready(),
            Event::Learned { .. } => matches!(phase, Phase::Asking { .. })
                && connection.is_in_use(),
            Event::Planned { waits, .. } => {
                self.is_to_plan()
                    && !connection.is_spent()
                    && (!waits || (phase.is_request() && !self.told))
            }
            Event::Reserved => matches!(phase, Phase::Preparing { .. }) && !self.stake,
            Event::HalfTold => self.may_tell() && !self.half_told,
            Event::Stuck => phase.waits() && self.is_provided() && !self.told,
            Event::Told => self.may_tell(),
            Event::Dialed { kept } => {
                self.is_provided()
                    && self.is_bidden()
                    && phase.is_request()
                    && !self.origin
                    && (!kept || self.may_take_kept())
            }
            Event::Started => self.is_provided() && self.is_bidden() && self.origin,
            Event::Failed(_) => phase.may_fail(),
            _ => self.may_go_on(event),
        }
    }

    /// Whether an event may come with which a message moves, what is held goes back, or a connection ends.
    #[inline(always)]
    fn may_go_on(self, event: Event) -> bool
        ensures { goes_on_with event ≡ true → result ≡ may_come self event }
    {
        let phase = self.phase;
        let connection = self.connection;
        let is_moving = matches!(phase, Phase::Moving { .. });
        match event {
            Event::LetPass => matches!(phase, Phase::AtGate { .. }),
            Event::Renewed => {
                connection.is_in_use()
                    && connection.is_reused()
                    && (matches!(phase, Phase::Asking { .. }) || (is_moving && !self.begun))
            }
            Event::Served { .. } => is_moving && connection.is_in_use(),
            Event::Begun => {
                is_moving && !self.begun && (!phase.is_request() || phase.is_offered())
            }
            Event::Sent => is_moving
                && phase.is_request()
                && !self.begun
                && !connection.is_in_use(),
            Event::Heard => phase.awaits_origin() && !self.heard,
            Event::Withdrawn => phase.awaits_origin() && self.kept && !self.heard && !self.begun,
            Event::Answered { lasts, .. } => {
                is_moving
                    && self.begun
                    && !connection.is_in_use()
                    && (!lasts || !phase.is_request())
            }
            Event::Returned { kept } => {
                connection.is_leased()
                    && (connection.is_spent() || !phase.needs_connection(connection.is_in_use()))
                    && (!kept || connection.is_ready())
            }
            Event::Released => self.stake && !phase.needs_stake(),
            Event::HungUp { kept } => {
                self.origin && !phase.needs_origin() && (!kept || self.may_keep_origin())
            }
            _ => self.may_end(event),
        }
    }

    /// Whether an event may come that ends a connection, or brings its end nearer.
    #[inline(always)]
    fn may_end(self, event: Event) -> bool
        ensures { ends_with event ≡ true → result ≡ may_come self event }
    {
        let phase = self.phase;
        let is_refusing = matches!(phase, Phase::Refusing { .. });
        match event {
            Event::Refused => is_refusing && self.holds_nothing() && !self.stopping,
            Event::UserClosed => phase == Phase::Closing && self.holds_nothing(),
            Event::UserLost => phase != Phase::Gone && !self.stopping,
            Event::Dropped => phase.may_drop() && !self.stopping,
            Event::Late => phase.may_wait() && !self.stopping,
            Event::Drain => phase != Phase::Gone && !self.draining && !self.stopping,
            Event::Stop => phase != Phase::Gone && !self.stopping,
            Event::Tried => is_refusing && self.stopping,
            _ => false,
        }
    }
}
