//! Fields of the answer to a request that go on with the response to it.

ghost use Rattle.std.specs.Prelude.{◌≡◌, IfSome, map, string_bytes};
ghost use Rattle.shard_message.specs.Told.{carried_by};

use crate::sides::Served;
use adapt_turn::ServiceEnd;
use std::alloc::{AllocError, Global};

/// The lines of the service's last answer to a request that go on with the response, by their names. `None` where no memory was found.
pub(crate) fn carried_by<V: Served, W>(
    alloc: Global,
    names: &[String],
    service: &Option<ServiceEnd<V, W>>,
) -> Option<Vec<u8>>
    ensures { IfSome result (λ lines. lines.items ≡ carried_by V.fields (map string_bytes names.now) service.now) }
{
    match service {
        Some(line) => match line.side.carried(alloc, names) {
            Ok(lines) => Some(lines),
            Err(AllocError) => None,
        },
        None => Some(Vec::new(alloc)),
    }
}
