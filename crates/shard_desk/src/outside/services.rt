//! What an exchange asks of its services, answered over sockets.

ghost use Rattle.std.specs.Prelude.{◌≡◌, Some, None, IfOk, IfErr, false};
ghost use Rattle.proxy_config.specs.declared.config.Config.{Config as AnyConfig};
ghost use Rattle.service_pool.specs.declared.connector.Act.TheVariants.{Opened};
ghost use Rattle.service_pool.specs.Lending.{point_of, is_reused};
ghost use Rattle.shard_message.specs.Planning.{service_of as service_at};
ghost use Rattle.shard_desk.specs.Asked.{LendsBy, FailsBy, PutsBy};
ghost use Rattle.shard_desk.specs.Books.{book_at, KeepsAt};
ghost use Rattle.shard_desk.specs.Places.{place_at};
ghost use Rattle.shard_desk.specs.Seats.{user_address};

use crate::connections::{keep_record, lend_anew, lend_now, lend_waiting, put_back, waiter_of};
use crate::desk::{Desk, heed_refresh, note_lease};
use crate::pools::pools_of;
use crate::shared::Shares;
use crate::spot::Spot;
use options_book::Record;
use service_pool::{Leased, LendFault, PointBook};
use shard_message::{Reusable, Services};
use socket_wire::{Dial, ServiceWire};
use std::alloc::AllocError;
use std::net::Ipv4Addr;
use std::sync::Wait;
use std::time::Clock;
use trace_core::Point;
use wire_kit::Gate;

impl<'r, S: Shares, R: Wait + Dial + Clock, G: Gate> Services<Spot<'r, R, G>> for Desk<S> {
    ghost point_of = { λ lease. point_of lease };

    ghost is_reused = { λ lease. is_reused lease };

    ghost serves = { λ desk wire lease. (config : AnyConfig) × S.config_is desk.shared config × (wire.stream.to ≡ place_at config (point_of lease)) };

    ghost fails = { λ desk at fault. FailsBy desk.asked fault };

    ghost puts = { λ old new at connection lease. (config : AnyConfig) × S.config_is old.shared config × PutsBy config.service_idle new.asked };

    ghost book_is = { λ desk point book. book ≡ book_at desk.request_book desk.response_book point };

    ghost user_is_at = { λ desk at address. address ≡ user_address desk.seats at.key };

    ghost keeps = { λ old new at point said. (config : AnyConfig) × S.config_is old.shared config
        × KeepsAt point (service_at config point) said (book_at old.request_book old.response_book) (book_at new.request_book new.response_book) };

    ghost is_opened = { λ desk at connection. desk.asked.last ≡ Some (Opened None) };

    fn book(&self, point: Point) -> &PointBook {
        match point {
            Point::Reqmod => &self.request_book,
            Point::Respmod => &self.response_book,
        }
    }

    fn user_address(&self, at: &Spot<'r, R, G>) -> Option<Ipv4Addr> {
        self.seats.user_address(at.key)
    }

    fn keep(
        &mut self,
        at: &Spot<'r, R, G>,
        point: Point,
        record: Record,
    ) -> Result<(), AllocError> {
        let alloc = self.alloc;
        match point {
            Point::Reqmod => keep_record(
                &self.shared,
                at,
                alloc,
                point,
                &mut self.request_book,
                record,
            ),
            Point::Respmod => keep_record(
                &self.shared,
                at,
                alloc,
                point,
                &mut self.response_book,
                record,
            ),
        }
    }

    fn note_tag(&mut self, point: Point, tag: &[u8]) {
        let alloc = self.alloc;
        self.book_mut(point).note_tag(alloc, tag);
    }

    fn lend(
        &mut self,
        at: &Spot<'r, R, G>,
        point: Point,
    ) -> Result<(ServiceWire, Leased<S::Requests, S::Responses>), LendFault>
        ensures point { IfOk result (λ lent. point_of lent.1 ≡ point) }
        ensures serves { IfOk result (λ lent. (config : AnyConfig) × S.config_is self.old.shared config × (lent.0.stream.to ≡ place_at config (point_of lent.1))) }
        ensures lends { IfOk result (λ lent. (config : AnyConfig) × S.config_is self.old.shared config × LendsBy at.entry.now.now config.service_idle self.new.asked lent.1) }
        ensures fails { IfErr result (FailsBy self.new.asked) }
    {
        let lent = lend_now(&self.shared, &mut self.seats, &mut self.asked, at, point);
        note_lease(&mut self.seats, at.key, point, lent.is_ok());
        lent
    }

    fn lend_in_turn(
        &mut self,
        at: &Spot<'r, R, G>,
        point: Point,
    ) -> Result<(ServiceWire, Leased<S::Requests, S::Responses>), LendFault>
        ensures point { IfOk result (λ lent. point_of lent.1 ≡ point) }
        ensures serves { IfOk result (λ lent. (config : AnyConfig) × S.config_is self.old.shared config × (lent.0.stream.to ≡ place_at config (point_of lent.1))) }
        ensures lends { IfOk result (λ lent. (config : AnyConfig) × S.config_is self.old.shared config × LendsBy at.entry.now.now config.service_idle self.new.asked lent.1) }
        ensures fails { IfErr result (FailsBy self.new.asked) }
    {
        heed_refresh(
            &self.shared,
            &mut self.request_book,
            &mut self.response_book,
        );
        let lent = lend_waiting(&self.shared, &mut self.seats, &mut self.asked, at, point);
        note_lease(&mut self.seats, at.key, point, lent.is_ok());
        if lent.is_ok() {
            self.call_ended(at.rt, point);
        }
        lent
    }

    fn join_queue(&mut self, at: &Spot<'r, R, G>, point: Point) -> bool {
        let waiter = waiter_of(&self.shared, at.key);
        let joins = pools_of(&self.shared).waiting.join(at.rt, point, waiter);
        if joins {
            self.seats.begin_wait(at.key, at.now);
            self.call_ended(at.rt, point);
        }
        joins
    }

    fn leave_queue(&mut self, at: &Spot<'r, R, G>, point: Point) {
        let waiter = waiter_of(&self.shared, at.key);
        pools_of(&self.shared).waiting.leave(at.rt, point, waiter);
    }

    fn reopen(
        &mut self,
        at: &Spot<'r, R, G>,
        lease: &mut Leased<S::Requests, S::Responses>,
    ) -> Result<ServiceWire, LendFault>
        ensures point { point_of lease.new ≡ point_of lease.old }
        ensures fresh { IfOk result (λ _. is_reused lease.new ≡ false) }
        ensures serves { IfOk result (λ wire. (config : AnyConfig) × S.config_is self.old.shared config × (wire.stream.to ≡ place_at config (point_of lease.new))) }
        ensures opened { IfOk result (λ _. self.new.asked.last ≡ Some (Opened None)) }
    {
        lend_anew(&self.shared, &mut self.seats, &mut self.asked, at, lease)
    }

    fn is_reused(lease: &Leased<S::Requests, S::Responses>) -> bool {
        lease.reused()
    }

    fn put(
        &mut self,
        at: &Spot<'r, R, G>,
        connection: Reusable<ServiceWire>,
        lease: Leased<S::Requests, S::Responses>,
    )
        ensures { (config : AnyConfig) × S.config_is self.old.shared config × PutsBy config.service_idle self.new.asked }
    {
        self.seats.lease(at.key, None);
        let connection = connection.into_wire();
        put_back(
            &self.shared,
            &mut self.seats,
            &mut self.asked,
            at,
            connection,
            lease,
        );
    }

    fn give_up(&mut self, at: &Spot<'r, R, G>, lease: Leased<S::Requests, S::Responses>) {
        self.seats.lease(at.key, None);
        pools_of(&self.shared).give_up(at.rt, lease);
    }
}
