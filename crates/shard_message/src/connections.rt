//! The connections that messages move over.

ghost use Rattle.std.specs.Prelude.{◌≡◌, is_some, None, Some, true, IfSome};
ghost use Rattle.shard_message.specs.Lines.{HasLine, line_for};

use crate::connection::{ServiceConnection, lay_wire, take_wire};
use crate::moving::{RequestWires, ResponseWires};
use crate::outside::Kinds;
use crate::room::MessageRoom;
use crate::slots::take_out;
use proxy_rules::Way;

/// The connections that a message moves over.
#[derive(Drop)]
pub struct Connections<O: Kinds> {
    pub user: O::User,
    /// None where the message isn't offered, or the connection was given up.
    pub service: Option<O::Service>,
    pub origin: O::Origin,
}

impl<O: Kinds> Connections<O> {
    /// Puts them back once a message doesn't move any more: the service's connection beside its lease.
    pub fn put_back(
        self,
        user: &mut Option<O::User>,
        leased: &mut Option<ServiceConnection<O>>,
        origin: &mut Option<O::Origin>,
    )
        ensures leased { is_some leased.new ≡ is_some leased.old }
        ensures back { (user.new ≡ Some self.user) × (origin.new ≡ Some self.origin) }
        ensures line { IfSome self.service (λ wire. HasLine (λ line. line.wire) leased.new wire) }
    {
        let Connections {
            user: back,
            service,
            origin: opened,
        } = self;
        if let Some(wire) = service {
            lay_wire(leased, wire);
        }
        *user = Some(back);
        *origin = Some(opened);
    }
}

/// The connections for a message: the service's one where it is offered. `None` where the user is gone.
pub fn take_connections<O: Kinds>(
    user: &mut Option<O::User>,
    leased: &mut Option<ServiceConnection<O>>,
    origin: &mut Option<O::Origin>,
    is_offered: bool,
) -> Option<Connections<O>>
    requires { is_some origin.old ≡ true }
    ensures leased { is_some leased.new ≡ is_some leased.old }
    ensures taken { IfSome result (λ taken. (user.old ≡ Some taken.user) × (origin.old ≡ Some taken.origin) × (taken.service ≡ line_for (λ line. line.wire) is_offered leased.old)) }
    ensures none { IfSome result (λ taken. (user.new ≡ None) × (origin.new ≡ None)) }
    ensures left { result ≡ None → (user.old ≡ None) × (origin.new ≡ origin.old) × (leased.new ≡ leased.old) }
{
    let Some(user) = user.take() else {
        return None;
    };
    let service = if is_offered { take_wire(leased) } else { None };
    let origin = take_out(origin);
    Some(Connections {
        user,
        service,
        origin,
    })
}

/// What a message stood over: its reservation, and its connections.
#[must_use]
pub struct Remains<O: Kinds> {
    pub room: MessageRoom<O::Ledgers>,
    pub connections: Connections<O>,
}

/// What a request stood over.
pub(crate) fn request_remains<O: Kinds>(
    room: MessageRoom<O::Ledgers>,
    way: Way<RequestWires<O>>,
) -> Remains<O>
    ensures { (result.room ≡ room) × (result.connections ≡ record { user = way.source; service = way.service; origin = way.next }) }
{
    let Way {
        source: user,
        service,
        next: origin,
    } = way;
    let connections = Connections {
        user,
        service,
        origin,
    };
    Remains { room, connections }
}

/// What a response stood over.
pub(crate) fn response_remains<O: Kinds>(
    room: MessageRoom<O::Ledgers>,
    way: Way<ResponseWires<O>>,
) -> Remains<O>
    ensures { (result.room ≡ room) × (result.connections ≡ record { user = way.next; service = way.service; origin = way.source }) }
{
    let Way {
        source: origin,
        service,
        next: user,
    } = way;
    let connections = Connections {
        user,
        service,
        origin,
    };
    Remains { room, connections }
}
