//! One ICAP request and its response, over a Wire (RFC 3507, section 4).
//!
//! It is the `Service` of a transaction (`adapt_sides`), and asks for OPTIONS. It owns no socket and no pool.
#![tactic(auto)]

mod answered;
mod blank_line;
mod body;
mod carried;
mod contract;
mod due;
mod events;
mod kept;
pub mod laws;
mod lists;
mod options;
mod reader;
mod replies;
mod request;
mod said;
mod service;
mod side;
mod stage;

pub use events::Framed;
pub use options::{OptionsSide, OptionsStage};
pub use reader::ReplyReader;
pub use said::{Found, says_close};
pub use service::ServiceSide;
pub use side::ReplySide;
pub use stage::Stage;
