//! What an exchange asks of its surroundings in memory, answered.

ghost use Rattle.std.specs.Prelude.{◌≡◌, IfOk, IfErr, true, ⊤};
ghost use Rattle.exchange_core.specs.declared.dialing.Dialing.TheVariants.{KeptFirst};
ghost use Rattle.shard_exchange.specs.Reasons.{lies_elsewhere};
ghost use Rattle.shard_message.specs.Waits.{GivesNone};

use crate::exchanges::memory::{MemoryOutside, RowLease, RowMoment};
use crate::exchanges::services::NOW;
use crate::exchanges::words::{either, end_name};
use crate::stage::StageWire;
use adapt_sides::ClientFault;
use exchange_core::Dialing;
use exchange_report::{Why, page_refusal};
use http_side::NextServer;
use options_book::Record;
use plan_rules::Limits;
use proxy_config::Config;
use proxy_rules::{Incoming, Route, limits_of};
use service_pool::{LendFault, PointBook};
use shard_exchange::{Lingered, Reason};
use shard_message::{
    Clocked, Dialed, LastingOrigin, MessageEnd, Noting, Origins, Outside, Reusable, Services,
    ThreadSettings, UserEnd,
};
use shard_report::{request_line, what_was_found};
use span_bank::{Bank, Ledgers};
use std::alloc::{AllocError, Global};
use std::net::{Ipv4Addr, SocketAddrV4};
use trace_core::Point;
use wire_kit::{Got, Wire};

impl<'a, W: StageWire<'a>, B: Ledgers> ThreadSettings for MemoryOutside<'a, W, B> {
    fn alloc(&self) -> Global {
        self.alloc
    }

    fn config(&self) -> &Config {
        self.config
    }

    fn limits(&self) -> Limits {
        limits_of(self.config)
    }

    fn bank(&self) -> &Bank<B> {
        self.bank
    }
}

impl<'a, W: StageWire<'a>, B: Ledgers> Clocked<RowMoment> for MemoryOutside<'a, W, B> {
    ghost is_late = { λ memory at. at.late };

    ghost has_rested = { λ memory at. at.rested };

    fn now(&self, _at: &RowMoment) -> u64 {
        NOW
    }

    fn is_late(&self, at: &RowMoment) -> bool {
        at.late
    }

    fn has_rested(&self, at: &RowMoment) -> bool {
        at.rested
    }

    fn has_waited(&self, at: &RowMoment) -> bool {
        at.waited
    }

    fn may_pass(&mut self, _at: &RowMoment) -> bool {
        !self.scene.is(b"gate", b"shut")
    }
}

impl<'a, W: StageWire<'a>, B: Ledgers> Services<RowMoment> for MemoryOutside<'a, W, B> {
    ghost point_of = { λ lease. lease.point };

    ghost is_reused = { λ lease. lease.reused };

    fn book(&self, point: Point) -> &PointBook {
        match point {
            Point::Reqmod => &self.request,
            Point::Respmod => &self.response,
        }
    }

    fn user_address(&self, _at: &RowMoment) -> Option<Ipv4Addr> {
        self.scene.address(b"from")
    }

    fn keep(&mut self, _at: &RowMoment, point: Point, record: Record) -> Result<(), AllocError> {
        if self.scene.is(b"keeps", b"memory") {
            return Err(AllocError);
        }
        self.stage.note(b"keeps options");
        match point {
            Point::Reqmod => self.request.keep(record),
            Point::Respmod => self.response.keep(record),
        }
        Ok(())
    }

    fn note_tag(&mut self, point: Point, tag: &[u8]) {
        match point {
            Point::Reqmod => self.request.note_tag(self.alloc, tag),
            Point::Respmod => self.response.note_tag(self.alloc, tag),
        }
    }

    fn lend(&mut self, _at: &RowMoment, point: Point) -> Result<(W, RowLease), LendFault> {
        self.lease_noted(point)
    }

    fn lend_in_turn(&mut self, _at: &RowMoment, point: Point) -> Result<(W, RowLease), LendFault> {
        self.lease_noted(point)
    }

    fn join_queue(&mut self, _at: &RowMoment, _point: Point) -> bool {
        let joins = !self.scene.is(b"queue", b"full") && self.stage.join_queue();
        self.stage
            .note(either(joins, b"joins the queue", b"finds the queue full"));
        joins
    }

    fn leave_queue(&mut self, _at: &RowMoment, _point: Point) {
        self.stage.note(b"leaves the queue");
        self.stage.leave_queue();
    }

    fn reopen(&mut self, _at: &RowMoment, lease: &mut RowLease) -> Result<W, LendFault> {
        match self.next_lend() {
            b"unreached" => return Err(LendFault::Unreached),
            b"memory" => return Err(LendFault::NoMemory),
            _ => {}
        }
        let wire = self.open_service();
        wire.note(b"reopens");
        lease.reused = false;
        Ok(wire)
    }

    fn is_reused(lease: &RowLease) -> bool {
        lease.reused
    }

    fn put(&mut self, _at: &RowMoment, connection: Reusable<W>, lease: RowLease)
        ensures { ⊤ }
    {
        let connection = connection.into_wire();
        let RowLease { point, reused: _ } = lease;
        connection.note(b"puts back");
        let _ = match point {
            Point::Reqmod => self.request_idle.push(connection),
            Point::Respmod => self.response_idle.push(connection),
        };
        self.stage.put_right();
    }

    fn give_up(&mut self, _at: &RowMoment, lease: RowLease) {
        let RowLease {
            point: _,
            reused: _,
        } = lease;
        self.stage.note(b"gives up the lease");
        self.stage.put_right();
    }
}

impl<'a, W: StageWire<'a>, B: Ledgers> Origins<RowMoment> for MemoryOutside<'a, W, B> {
    fn dial(
        &mut self,
        _at: &RowMoment,
        address: SocketAddrV4,
        dialing: Dialing,
    ) -> Result<Dialed<W>, Reason>
        ensures leads { IfOk result (λ dialed. ⊤) }
        ensures allowed { IfOk result (λ dialed. dialed.is_kept ≡ true → dialing ≡ KeptFirst) }
        ensures kept { IfOk result (λ dialed. dialed.is_kept ≡ true → ⊤) }
        ensures takes { dialing ≡ KeptFirst → ⊤ }
        ensures suits { IfErr result (λ reason. lies_elsewhere reason ≡ true) }
    {
        if dialing == Dialing::KeptFirst
            && let Some(mut wire) = self.take_kept(address)
        {
            wire.take_up();
            return Ok(Dialed {
                wire,
                is_kept: true,
            });
        }
        match self.open_origin(address) {
            Ok(wire) => Ok(Dialed {
                wire,
                is_kept: false,
            }),
            Err(reason) => Err(reason),
        }
    }

    fn keep_origin(&mut self, _at: &RowMoment, connection: LastingOrigin<W>) -> bool
        ensures { ⊤ }
    {
        let mut wire = connection.into_wire();
        let most = usize::try_from(self.config.keep_origins).unwrap_or(0);
        if most == 0 || !wire.is_quiet() {
            return false;
        }
        if self.kept.len() >= most {
            drop(self.kept.remove(0));
        }
        wire.note(b"keeps");
        self.kept.push(wire).is_ok()
    }
}

impl<'a, W: StageWire<'a>, B: Ledgers> UserEnd for MemoryOutside<'a, W, B> {
    fn finish(user: &W) {
        user.finish();
    }

    fn cut(user: &W) {
        user.note(b"cuts");
    }

    fn linger(&mut self, user: &mut W) -> Lingered {
        drop_sent(user)
    }
}

/// Reads and drops what a user still sends, in four reads of 64 bytes at most.
fn drop_sent<W: Wire>(user: &mut W) -> Lingered
    ensures { result ≡ Lingered.Waiting → GivesNone (W.past user.old) (W.past user.new) }
{
    let mut scratch = [0; 64];
    for _ in 0..4 {
        match user.try_read(&mut scratch) {
            Got::Bytes(_) => {}
            Got::Wait => return Lingered::Waiting,
            Got::Ended | Got::Fault => return Lingered::Over,
        }
    }
    Lingered::CutShort
}

/// The key of a row that says the page of a status.
fn page_key(status: u16) -> &'static [u8] {
    match status {
        400 => b"page-400",
        501 => b"page-501",
        502 => b"page-502",
        503 => b"page-503",
        _ => b"page-504",
    }
}

impl<'a, W: StageWire<'a>, B: Ledgers> Noting<RowMoment> for MemoryOutside<'a, W, B> {
    fn note_request(&mut self, _at: &RowMoment, request: &Incoming) {
        if let Some(head) = request.user_head() {
            self.is_head = head.method() == b"HEAD".as_slice();
        }
        self.stage.ask();
        self.stage.note(b"has the request");
    }

    fn note_response(&mut self, _at: &RowMoment, _response: &Incoming) {
        self.stage.note(b"has the response");
    }

    fn note_route(&mut self, _at: &RowMoment, route: Route) {
        match route.next {
            NextServer::Origin => self.stage.note_shown(b"dials", &route.address),
            NextServer::Parent => self.stage.note_shown(b"dials the parent", &route.address),
        }
    }

    fn note_anew(&mut self, _at: &RowMoment) {
        self.stage.note(b"begins the request anew");
    }

    fn blame_service(&mut self, _at: &RowMoment, fault: Option<ClientFault>, is_fresh: bool) {
        let what = either(
            is_fresh,
            b"blames the fresh service:",
            b"blames the service:",
        );
        match fault {
            Some(fault) => self.stage.note_shown(what, &fault),
            None => self.stage.note(b"blames what the service says"),
        }
    }

    fn note_refusal(
        &mut self,
        _at: &RowMoment,
        _user: &W,
        message: Option<&Incoming>,
        reason: Reason,
    ) {
        self.why = Why::Failed(reason);
        self.stage.note_all(&[b"refuses: ", reason.word(), b"\n"]);
        if let Some(message) = message {
            let (method, target) = request_line(message.raw());
            if !method.is_empty() {
                self.is_head = method == b"HEAD".as_slice();
                self.stage.note_all(&[b"of ", method, b" ", target, b"\n"]);
            }
        }
    }

    fn refusal_page(&mut self, _at: &RowMoment, status: u16) -> Option<Vec<u8>> {
        let page = self.scene.get(page_key(status));
        if page.is_empty() {
            return None;
        }
        self.pages = self.pages.saturating_add(1);
        match page_refusal(self.alloc, status, page, self.why, self.pages, self.is_head) {
            Ok(text) => Some(text),
            Err(AllocError) => None,
        }
    }

    fn note_end(&mut self, _at: &RowMoment, _user: &W, end: MessageEnd<'_>) {
        let name = end_name(&end);
        match end.outcome {
            Some(outcome) => self.stage.note_shown(name, &outcome),
            None => self.stage.note(b"the user was gone"),
        }
        if end.seen.plan.point == Point::Reqmod && end.next_is_fresh {
            self.stage.note(b"nothing went to the origin");
        }
        if let Some(found) = end.found {
            let name = what_was_found(found.infection, found.virus);
            if !name.is_empty() {
                self.stage.note_all(&[b"found ", name, b"\n"]);
            }
        }
    }

    fn note_stop(&mut self, _at: &RowMoment) {
        self.stage.note(b"stops in an answer");
    }
}

impl<'a, W: StageWire<'a>, B: Ledgers> Outside<RowMoment> for MemoryOutside<'a, W, B> {}
