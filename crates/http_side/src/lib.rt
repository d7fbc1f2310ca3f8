//! HTTP/1.1 heads, the framing of bodies, and the heads that a proxy sends on (RFC 9112, sections 2 to 7; RFC 9110,
//! section 7.6).
//!
//! Start lines and field lines are those that `httparse` takes, targets those of `http_uri`. A head is kept as its text
//! and offsets; contracts see its parts as lists.
//!
//! How heads and bodies go over a connection is in `http_relay`, and what the proxy decides by them in `proxy_rules`.
#![tactic(auto)]

mod body;
mod connection;
mod fault;
mod fields;
mod forward;
mod framing;
mod head;
mod items;
mod lasting;
pub mod laws;
mod lengths;
mod names;
mod refusal;
mod request;
mod response;
mod sizes;
mod targets;
mod writing;

pub use body::{BodyReader, Framing, ends_with_the_body};
pub use fault::HttpFault;
pub use fields::{Fields, Values};
pub use forward::{
    BodyKind, Encapsulated, Forward, Message, NextServer, OriginUse, OriginWay, encapsulated_head,
    forward_head,
};
pub use head::Head;
pub use refusal::own_refusal;
pub use request::{HttpRequest, read_request};
pub use response::{HttpResponse, read_response};
pub use std::alloc::AllocError as NoMemory;
