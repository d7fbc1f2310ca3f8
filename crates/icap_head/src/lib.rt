//! ICAP heads, read and written (RFC 3507, section 4.3).
//!
//! A head is a start line, field lines and an empty line. The start line has a grammar of its own,
//! field lines are those that `httparse` takes (RFC 9112, sections 2 and 5), in a response once folds are written over, and URIs are read by
//! `http_uri`. A head that is read ends within 16,384 bytes and has at most 100 fields; writing has
//! no such limit.
//!
//! What a head means is decided by `options_book`, `icap_client` and `icap_server`.
#![tactic(auto)]

mod field_lines;
mod field_list;
mod folds;
pub mod laws;
mod line_front;
mod methods;
mod reading;
mod requests;
mod responses;
mod start_lines;

pub use adapt_bytes::{MAX_FIELDS, MAX_HEAD};
pub use field_list::{Fields, Values};
pub use line_front::is_still_front;
pub use methods::{OtherMethod, RequestMethod};
pub use reading::{Head, HeadFault};
pub use requests::{IcapRequest, judge_request_line, read_request, write_request};
pub use responses::{IcapResponse, read_response, write_response};
pub use std::alloc::AllocError as NoMemory;
