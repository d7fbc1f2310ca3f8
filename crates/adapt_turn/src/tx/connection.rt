//! The service's connection, given up once the service's exchange is over, or where it broke.

ghost use Rattle.std.specs.Prelude.{◌≡◌, ℕ, List, true, false, None, Some, IfSome};
ghost use Rattle.adapt_hold.specs.Holding.{shows};
ghost use Rattle.adapt_turn.specs.ChosenHead.{wire_of, without_wire};
ghost use Rattle.adapt_turn.specs.ServiceOver.{MayFree};
ghost use Rattle.adapt_turn.specs.Stands.{Texts};

use crate::ends::{EndTypes, FreedConnection, ServiceEnd};
use crate::tx::{Answering, Standing, Tx};
use adapt_sides::{Hop, Service, Source};
use span_bank::Ledgers;
use wire_kit::Wire;

/// Takes the wire, and leaves the side.
fn take_wire<V: Service, W>(service: &mut Option<ServiceEnd<V, W>>) -> Option<FreedConnection<W>>
    ensures left { service.new ≡ without_wire service.old }
    ensures none { result ≡ None → wire_of service.old ≡ None }
    ensures taken { IfSome result (λ free. wire_of service.old ≡ Some free.wire) }
    ensures reusable { IfSome result (λ free. IfSome service.old (λ line. free.is_reusable ≡ V.reusable line.side)) }
{
    match service {
        Some(line) => match line.wire.take() {
            Some(wire) => Some(FreedConnection {
                wire,
                is_reusable: line.side.is_reusable(),
            }),
            None => None,
        },
        None => None,
    }
}

/// Takes the wire alone.
fn take_held<V: Service, W>(service: &mut Option<ServiceEnd<V, W>>) -> Option<W>
    ensures left { service.new ≡ without_wire service.old }
    ensures taken { result ≡ wire_of service.old }
{
    match service {
        Some(line) => line.wire.take(),
        None => None,
    }
}

impl<B: Ledgers, E: EndTypes> Tx<B, E> {
    /// Whether the service's exchange is over for this transaction: it leaves the message as it is, or the adapted message has ended,
    /// or the transaction is closed.
    fn may_free(&self) -> bool
        ensures yes { result ≡ true → MayFree (shows self.now.hold.history) }
        ensures no { result ≡ false → MayFree (shows self.now.hold.history) → ⊥ }
    {
        self.hold.state().is_service_over()
    }

    /// Gives up the connection to the service, and says whether it may carry another request. `None` if no connection is held, or
    /// as long as the service's exchange goes on. No byte of this transaction goes over it any more: what its wire took and gave
    /// stays what it was, and later turns of the service find nothing due.
    pub fn take_freed(&mut self) -> Option<FreedConnection<E::ServiceWire>>
        ensures over { IfSome result (λ free. MayFree (shows self.old.hold.history)) }
        ensures due { result ≡ None → MayFree (shows self.old.hold.history) → wire_of self.old.ends.service ≡ None }
        ensures wire { IfSome result (λ free. wire_of self.old.ends.service ≡ Some free.wire) }
        ensures reusable { IfSome result (λ free. IfSome self.old.ends.service (λ line. free.is_reusable ≡ E.Client.reusable line.side)) }
        ensures freed { IfSome result (λ free. self.new.ends.service ≡ without_wire self.old.ends.service) }
        ensures same { result ≡ None → self.new.ends.service ≡ self.old.ends.service }
        ensures stands { (request : List ℕ) (t : Texts) → ⟦<Self as Standing>⟧.stands self.old request t → ⟦<Self as Standing>⟧.stands self.new request t }
        ensures faultless { ⟦<Self as Answering>⟧.faultless self.old → ⟦<Self as Answering>⟧.faultless self.new }
        ensures apart { self.new.ends ≡ record self.old.ends { service = self.new.ends.service } }
        ensures kept { (self.new.hold ≡ self.old.hold) × (self.new.outcome ≡ self.old.outcome) × (self.new.refusing ≡ self.old.refusing) }
        ensures pace { self.new.pace ≡ self.old.pace }
    {
        if !self.may_free() {
            return None;
        }
        take_wire(&mut self.ends.service)
    }

    /// Takes out the connection that broke, so that it is closed before a fresh one is opened in its place. What its wire took and
    /// gave stays what it was.
    pub fn take_broken(&mut self) -> Option<E::ServiceWire>
        requires broken { self.old.pace.broken ≡ true }
        ensures wire { result ≡ wire_of self.old.ends.service }
        ensures taken { self.new.ends.service ≡ without_wire self.old.ends.service }
        ensures stands { (request : List ℕ) (t : Texts) → ⟦<Self as Standing>⟧.stands self.old request t → ⟦<Self as Standing>⟧.stands self.new request t }
        ensures faultless { ⟦<Self as Answering>⟧.faultless self.old → ⟦<Self as Answering>⟧.faultless self.new }
        ensures apart { self.new.ends ≡ record self.old.ends { service = self.new.ends.service } }
        ensures kept { (self.new.hold ≡ self.old.hold) × (self.new.outcome ≡ self.old.outcome) × (self.new.refusing ≡ self.old.refusing) }
        ensures pace { self.new.pace ≡ self.old.pace }
    {
        take_held(&mut self.ends.service)
    }
}
