//! The descriptors that a configuration may need, and how many the system gives.

ghost use Rattle.std.specs.Prelude.{◌≡◌, ◌≤◌};
ghost use Rattle.adapt_bytes.specs.declared.limits.TheConstants.{MAX_CONNECTIONS};
ghost use Rattle.proxy_commands.specs.Descriptors.{connections_of, descriptors_of};

use adapt_bytes::read_decimal;
use proxy_config::{Config, ServicePoint};

/// Beside its users and theirs each thread has a poll, the same once more for the other threads, a waker, and users that it
/// refuses.
const OF_A_THREAD: u64 = 19;

/// The standard streams, the ports, the administrator's connections, the poll of their loop, the same once more, its waker, and
/// what the system's library may open.
const OF_THE_PROGRAM: u64 = 25;

/// How the line on descriptors begins in what the system says of a process's limits.
const OPEN_FILES: &[u8] = b"Max open files ";

/// The most connections to the service of a point.
fn connections(service: &Option<ServicePoint>) -> u64
    ensures most { result ≤ MAX_CONNECTIONS }
    ensures count { result ≡ connections_of service.now }
{
    match service {
        Some(service) => service.connections,
        None => 0,
    }
}

/// The most descriptors that a configuration may need: each thread may have `rows` users, each with an origin's connection and
/// a service's, and as many connections to services and to origins as are configured may be idle.
pub fn descriptors(config: &Config) -> u64
    ensures { result ≡ descriptors_of config.now }
{
    let users = config.shards * config.rows;
    let services = connections(&config.reqmod) + connections(&config.respmod);
    let origins = config.shards * config.keep_origins;
    users * 3 + services + origins + config.shards * OF_A_THREAD + OF_THE_PROGRAM
}

/// The number of descriptors that a process may have, by `/proc/self/limits`; `None` if that gives no number.
pub fn limit_in(text: &[u8]) -> Option<u64> {
    number_after(text, OPEN_FILES)
}

/// The number that the first word is, of the first line that begins so, after its beginning.
pub(crate) fn number_after(text: &[u8], front: &[u8]) -> Option<u64> {
    for line in text.split(|byte| *byte == b'\n') {
        if let Some(rest) = line.strip_prefix(front) {
            return first_number(rest);
        }
    }
    None
}

/// The number that the first word of a text is.
fn first_number(text: &[u8]) -> Option<u64> {
    for word in text.split(|byte| *byte == b' ') {
        if !word.is_empty() {
            return read_decimal(word);
        }
    }
    None
}
