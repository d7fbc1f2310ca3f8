//! Digits, comma lists and tokens: the small grammars that HTTP and ICAP share (RFC 9110, section 5.6), and the methods of ICAP
//! (RFC 3507, sections 4.8 to 4.10).
#![tactic(auto)]

mod commas;
mod digits;
pub mod laws;
mod limits;
mod method;
mod pieces;
mod room;
mod text;

pub use commas::{CommaItems, CommaParts, comma_items, comma_parts, has_item};
pub use digits::{Small, put_decimal, put_hex, read_decimal, read_hex, three_digits};
pub use limits::{
    COUNT_LIMIT, MAX_ALLOW_LIMIT, MAX_CONNECTIONS, MAX_FIELDS, MAX_HEAD, MAX_INPUT, MAX_PORT,
    MAX_PREVIEW, MAX_SMALL, MAX_WINDOW,
};
pub use method::Method;
pub use pieces::{behind, front};
pub use room::Room;
pub use text::{is_blank, is_token, same_ascii, trim};
