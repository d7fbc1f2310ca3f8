//! The stage of a row's exchange: connections in memory whose other ends do one thing after another, in words, and what the row's
//! answer says of the exchange once it has ended.
//!
//! The connections of a row share a `RowStage`, which keeps what each of them took and what happened. A `TalkWire` is one of them,
//! which the others see as a `StageWire`. Its other end does what a key of the row says: the name of a text is given, `<NAME` is heard before what comes after it, and further
//! words have it pause, take no more bytes, end its bytes, fail or stay. `put_ended` adds what the row asks of the exchange.
//!
//! A `PolledWire` is another one: what its other end does comes by chance, and the connection knows only what an edge-triggered poll told.

mod poll;
mod polled;
mod shared;
mod talk;
mod told;
mod words;

pub use polled::PolledWire;
pub use shared::{LineOwner, RowStage};
pub use talk::{StageWire, TalkWire};
pub use told::{EndedRow, put_ended, put_happenings};
pub use words::{ORIGINS, SERVICES, first_word, key_of, name_of};
