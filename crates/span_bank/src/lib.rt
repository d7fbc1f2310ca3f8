//! The buffer budget of all transactions: reservations, use, and a log that replays to the totals.
//!
//! It knows no transaction. What stands on it meets a lock by its calls alone.
#![tactic(auto)]

mod bank;
mod chain;
mod journal;
pub mod laws;
mod ledgers;
mod limits;
mod locked;
mod pages;
mod rebasing;
mod stake;
mod state;
mod step;
mod window;

pub use crate::bank::{Bank, Book};
pub use crate::chain::{Chain, MAX_PAGES, Page};
pub use crate::journal::Journal;
pub use crate::ledgers::{Blanks, Ledgers};
pub use crate::limits::{MAX_CAPACITY, MAX_ROWS};
pub use crate::locked::Locked;
pub use crate::pages::Pages;
pub use crate::rebasing::RebasingJournal;
pub use crate::stake::Stake;
pub use crate::state::BankState;
pub use crate::step::{
    Audit, AuditFault, BankStep, CapacityFault, Numbers, OpenFault, PAGE_BYTES, Resized,
    SPARE_PAGES, Store,
};
pub use crate::window::Window;
pub use std::alloc::AllocError as NoMemory;
