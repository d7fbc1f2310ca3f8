//! The connections to a service (RFC 3507, sections 4.3.1 and 4.10.2).

ghost use Rattle.std.specs.Prelude.{◌≡◌, ◌≤◌, option_copied, option_and_then};
ghost use Rattle.adapt_bytes.specs.declared.limits.TheConstants.{MAX_CONNECTIONS};
ghost use Rattle.icap_head.specs.Fields.{field_list};
ghost use Rattle.options_book.specs.Options.{most_connections};
ghost use Rattle.proxy_rules.specs.Pools.{is_reusable_after, maximum_of};

use icap_client::{OptionsSide, says_close};
use icap_head::IcapResponse;
use options_book::Record;
use proxy_config::ServicePoint;

/// Whether a connection on which a service was asked for its options may be used again, after this answer.
pub fn is_reusable_after_options(side: &OptionsSide, answer: &IcapResponse) -> bool
    ensures { result ≡ is_reusable_after side.now.raw (field_list answer.now.fields) }
{
    side.raw_left() == 0 && !says_close(&answer.fields)
}

/// The most connections that may be open to a service: what its record says, else what is configured.
pub fn pool_maximum(options: Option<&Record>, service: &ServicePoint) -> u64
    ensures maximum { result ≡ maximum_of (option_and_then most_connections (option_copied options.entry)) service.now.connections }
    ensures few { result ≤ MAX_CONNECTIONS }
{
    let said = match options {
        Some(record) => record.max(),
        None => None,
    };
    said.unwrap_or(service.connections)
}
