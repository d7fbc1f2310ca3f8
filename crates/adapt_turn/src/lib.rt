//! One transaction, a bounded IO step at a time.
//!
//! It knows its sides by `adapt_sides` alone, and no HTTP. `proxy_rules` gives it the proxy's own sides.
#![tactic(auto)]

mod ends;
mod head;
mod pass;
mod turn;
mod tx;

pub use ends::{EndTypes, Ends, FreedConnection, ServiceEnd, Start, TxParts};
pub use head::MakesHead;
pub use pass::PassAnswer;
pub use turn::{Outcome, Side, TurnAnswer};
pub use tx::{Answering, Going, Making, Refusing, Standing, Tx};
