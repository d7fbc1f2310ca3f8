//! One event loop per thread: readiness by `mio`, connections handed from thread to thread, and the admin port.
//!
//! A loop polls its sockets, drives the exchanges of which an event says something new, and waits again. What it drives is
//! [`Work`], of which it knows no more than that: exchanges found by a key.
#![tactic(auto)]

mod addresses;
mod admin_lines;
mod admission;
mod asker;
mod askers;
mod binding;
mod closing;
mod ended;
mod event;
mod inbox;
mod listening;
mod live;
mod looping;
mod mail;
mod overview;
mod ports;
mod question_slot;
mod ready_list;
mod reports;
mod room;
mod scrape;
mod sheet;
mod slots;
mod sparing;
mod threads;
mod work;

pub use addresses::{Addresses, Counted, Share};
pub use admin_lines::{MAX_ADMIN_LINE, Question, Request, is_http, read_request};
pub use admission::Admission;
pub use asker::{AdminInput, Asker, MAX_ASKERS, Speech};
pub use binding::listen_beside;
pub use closing::{Closing, close_turn};
pub use ended::{Ended, LoopFault};
pub use inbox::{Handed, Inbox, stop_all};
pub use listening::{Accepted, Listening};
pub use live::{DatedConfig, LatestConfig, LiveConfig};
pub use overview::shown;
pub use ready_list::ReadyList;
pub use room::{IdlePermit, Room, USER, UserPermit};
pub use sheet::{Sheet, SheetLine};
pub use slots::Slots;
pub use sparing::{Spared, Stay, is_young, spared_of, youth_of};
pub use threads::{AdminPorts, Base, Entrance, add_loop, name_thread, run_loop};
pub use work::{Admitted, Driven, Told, Work};
