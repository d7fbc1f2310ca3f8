//! What a service's OPTIONS response says, and for how long it stays fresh (RFC 3507, section 4.10).
//!
//! A record is a value: `icap_client` asks for it, `service_pool` keeps it, and `plan_rules` plans by it.
#![tactic(auto)]

mod faults;
mod judged;
pub mod laws;
mod numbers;
mod path;
mod reading;
mod record;
mod transfer;
mod words;

pub use faults::OptFault;
pub use path::extension;
pub use reading::read_record;
pub use record::Record;
pub use transfer::Treat;
