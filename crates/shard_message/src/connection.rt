//! A leased connection to a service.

ghost use Rattle.std.specs.Prelude.{◌≡◌, is_some, IfSome};
ghost use Rattle.shard_message.specs.Lines.{line_in, HasLine};

use crate::outside::Kinds;

/// A leased connection to a service.
#[must_use]
pub struct ServiceConnection<O: Kinds> {
    /// The connection itself, where no transaction has it, and it isn't closed.
    pub wire: Option<O::Service>,
    pub lease: O::Lease,
}

/// Takes the connection from its lease.
pub(crate) fn take_wire<O: Kinds>(
    connection: &mut Option<ServiceConnection<O>>,
) -> Option<O::Service>
    ensures leased { is_some connection.new ≡ is_some connection.old }
    ensures taken { result ≡ line_in (λ leased. leased.wire) connection.old }
{
    match connection {
        Some(connection) => connection.wire.take(),
        None => None,
    }
}

/// Puts a connection beside its lease. Without one it is closed.
pub fn lay_wire<O: Kinds>(connection: &mut Option<ServiceConnection<O>>, wire: O::Service)
    ensures leased { is_some connection.new ≡ is_some connection.old }
    ensures lease { IfSome connection.old (λ old. IfSome connection.new (λ new. new.lease ≡ old.lease)) }
    ensures laid { HasLine (λ leased. leased.wire) connection.new wire }
{
    if let Some(connection) = connection {
        connection.wire = Some(wire);
    }
}
