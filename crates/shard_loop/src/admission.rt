//! Which users are served, as the configuration says it.

ghost use Rattle.std.specs.Prelude.{◌≡◌, IfOk, None};
ghost use Rattle.shard_loop.specs.Admission.{HasUsers, most_by};

use event_loop::{Admission, LatestConfig, LiveConfig};
use proxy_config::Config;
use std::alloc::AllocError;
use std::sync::{Arc, Wait};

/// Which users are served, by the address of their connection: all of them where a header says another one, which is judged later. `Err`
/// where the configuration that stands can't be had.
pub(crate) fn admission_of<R: Wait>(
    rt: &R,
    config: &Config,
    live: &Arc<LiveConfig>,
) -> Result<Admission, AllocError>
    ensures users { IfOk result (λ admission. HasUsers config.now admission.users) }
    ensures most { IfOk result (λ admission. admission.most ≡ most_by config.now) }
{
    if config.proxy_protocol {
        return Ok(Admission {
            users: None,
            most: 0,
        });
    }
    match LatestConfig::of(rt, live) {
        Some(latest) => Ok(Admission {
            users: Some(latest),
            most: config.user_connections,
        }),
        None => Err(AllocError),
    }
}
