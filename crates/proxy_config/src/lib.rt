//! The configuration of `adaptproxy serve`: TOML text in, checked values out.
//!
//! Each key has one kind of value, a number also a range, and most have a default. The first fault in the order of [`Config`]'s keys is
//! answered; keys that nothing here has come last, in the order of their bytes.
//!
//! It stands above the bank, which says how large a budget may be.
#![tactic(auto)]

mod carry;
mod changes;
mod config;
mod dial;
mod entrance;
mod fault;
mod file_path;
mod host;
mod host_table;
mod hosts;
mod hosts_file;
mod limits;
mod membership;
mod network;
mod networks;
mod number_key;
mod numbers;
mod origins;
mod pages;
mod parent;
mod places;
mod point;
mod ports;
mod reach;
mod reading;
mod services;
mod sorting;
mod turn_size;
mod unknown;
mod values;
mod words;

pub use changes::fixed_change;
pub use config::{Config, SIZES, TIMES};
pub use dial::Dial;
pub use fault::ConfigFault;
pub use host_table::Hosts;
pub use hosts_file::HostsFault;
pub use limits::MAX_SHARDS;
pub use membership::{is_in, may_use};
pub use network::Network;
pub use number_key::NumberKey;
pub use numbers::number_named;
pub use pages::{MAX_PAGE, OWN_STATUSES, Pages};
pub use point::ServicePoint;
pub use reach::reaches;
pub use reading::read_config;
