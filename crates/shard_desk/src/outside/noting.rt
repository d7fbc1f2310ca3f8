//! What is noted of an exchange over sockets.

ghost use Rattle.std.specs.Prelude.{◌≡◌, Some};
ghost use Rattle.proxy_config.specs.Pages.{page_of};
ghost use Rattle.shard_desk.specs.Seats.{waiting_not};
ghost use Rattle.slab.specs.Slab.{get, Updates};
ghost use Rattle.proxy_config.specs.declared.config.Config.{Config as AnyConfig};

use crate::desk::Desk;
use crate::pausing::{message_end, refusal_end, tell_breaker};
use crate::shared::Shares;
use crate::spot::Spot;
use crate::words::asked_reason;
use adapt_sides::ClientFault;
use proxy_rules::{Incoming, Route};
use shard_exchange::Reason;
use shard_message::{MessageEnd, Noting};
use socket_wire::{Dial, UserWire};
use std::sync::Wait;
use std::time::Clock;
use wire_kit::{Gate, Wire};

impl<S: Shares> Desk<S> {
    /// Tells the breaker of its service that a message was refused for this reason.
    fn tell_refusal<R: Wait>(&mut self, rt: &R, key: usize, now: u64, reason: Reason) {
        let is_leased = self.seats.leases(key).is_some();
        if let Some(point) = self.reporter.point(key) {
            let end = refusal_end(reason, is_leased);
            tell_breaker(&self.shared, rt, key, now, point, end);
        }
    }
}

impl<'r, S: Shares, R: Wait + Dial + Clock, G: Gate> Noting<Spot<'r, R, G>> for Desk<S> {
    ghost has_page = { λ desk at status page. (config : AnyConfig) × S.config_is desk.shared config × (page_of config.pages status ≡ Some page) };

    ghost begins = { λ old new at. Updates old.seats.all new.seats.all at.key (waiting_not (get old.seats.all at.key)) };

    fn note_request(&mut self, at: &Spot<'r, R, G>, request: &Incoming) {
        self.heed_refresh();
        self.seats.end_wait(at.key);
        let taken = self.seats.taken(at.key);
        let has_query = self.shared.config().log_query;
        self.reporter
            .request(at.rt, at.key, taken, request, has_query);
    }

    fn note_response(&mut self, at: &Spot<'r, R, G>, response: &Incoming) {
        self.heed_refresh();
        self.seats.end_wait(at.key);
        self.reporter.response(at.key, response);
    }

    fn note_route(&mut self, at: &Spot<'r, R, G>, route: Route) {
        self.reporter.route(at.key, route);
    }

    fn note_anew(&mut self, at: &Spot<'r, R, G>) {
        self.reporter.anew(self.shared.tally(), at.key);
    }

    fn blame_service(&mut self, at: &Spot<'r, R, G>, fault: Option<ClientFault>, is_fresh: bool) {
        self.reporter.blame(at.key, asked_reason(fault, is_fresh));
    }

    fn note_refusal(
        &mut self,
        at: &Spot<'r, R, G>,
        user: &UserWire,
        message: Option<&Incoming>,
        reason: Reason,
    ) {
        let (read, _) = user.counts();
        self.reporter.read(self.shared.tally(), at.key, read);
        let taken = self.seats.taken(at.key);
        if !self.reporter.is_open(at.key)
            && let Some(message) = message
        {
            let has_query = self.shared.config().log_query;
            self.reporter
                .request(at.rt, at.key, taken, message, has_query);
        }
        self.reporter
            .refusal(self.shared.tally(), at.key, taken, reason);
        self.tell_refusal(at.rt, at.key, at.now, reason);
    }

    fn refusal_page(&mut self, at: &Spot<'r, R, G>, status: u16) -> Option<Vec<u8>> {
        let page = self.shared.config().pages.of(status)?;
        let thread = self.shared.number();
        self.reporter
            .refusal_with(self.alloc, thread, at.key, status, page)
    }

    fn note_end(&mut self, at: &Spot<'r, R, G>, user: &UserWire, end: MessageEnd<'_>) {
        let point = end.seen.plan.point;
        let said = message_end(&end);
        tell_breaker(&self.shared, at.rt, at.key, at.now, point, said);
        let (read, _) = user.counts();
        self.reporter.read(self.shared.tally(), at.key, read);
        self.reporter.end(self.shared.tally(), at.key, end);
    }

    fn note_stop(&mut self, at: &Spot<'r, R, G>) {
        self.reporter.stop(at.key);
    }
}
