//! The memory that a configuration's pages take, and how much the machine has.

ghost use Rattle.std.specs.Prelude.{◌≡◌};
ghost use Rattle.proxy_commands.specs.Memory.{memory_of};

use crate::descriptors::number_after;
use proxy_config::Config;

/// The bytes of the pages that a transaction may fill in part: four of them.
const OF_A_ROW: u64 = 16_384;

/// How the line on the memory begins in what the system says of it.
const TOTAL: &[u8] = b"MemTotal:";

/// The bytes of all pages that a configuration asks for.
pub fn memory(config: &Config) -> u64
    ensures { result ≡ memory_of config.now }
{
    config.capacity + config.rows * OF_A_ROW
}

/// The bytes that the machine has, by `/proc/meminfo`; `None` if that gives no number.
pub fn memory_in(text: &[u8]) -> Option<u64> {
    number_after(text, TOTAL)?.checked_mul(1_024)
}
