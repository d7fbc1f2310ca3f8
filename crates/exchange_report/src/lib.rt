//! What operators read: the log's line of an exchange, and the text of the counters; and the table of the reasons that both name. What a
//! user reads of a reason is here too: the page of a refusal. Of an exchange that isn't over there are its line and its script.
//!
//! The texts are functions of records. No value from outside can end a line or begin a field: it is written as one word.
//!
//! What is noted and counted under a lock is in `shard_report`, so that each text is proved from its record alone.
#![tactic(auto)]

mod awaited;
mod caption;
mod entry;
mod exchange_id;
pub mod laws;
mod live;
mod metrics;
mod page;
mod reason;
mod script;
mod verdict;
mod why;
mod words;

pub use awaited::{Awaited, Outgoing, awaited_by, awaited_in, point_word};
pub use caption::{Caption, write_script};
pub use entry::{Address, Destination, Entry, LINE_ROOM, Summary, write_line};
pub use exchange_id::{ExchangeId, read_id, write_id};
pub use live::{Live, live_room, write_live};
pub use metrics::{Family, Kind, Metric, metrics_text};
pub use page::page_refusal;
pub use reason::{REASONS, Reason};
pub use script::{write_event, write_history, write_needs, write_plan, write_range};
pub use verdict::{Reply, Verdict};
pub use why::Why;
pub use words::{MAX_FOUND, MAX_KIND, MAX_METHOD, MAX_TARGET};
