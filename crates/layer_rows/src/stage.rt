//! The stage of a transaction of the proxy's own sides: it begins on a budget over any wires, is played turn by turn and ended, and says
//! then how it ended and what went over its wires.

mod beginning;
mod game;
mod sides;
mod told;

pub use beginning::{BEGIN, begin, game_size};
pub use game::{Game, GameOnBank, GameRemains};
pub use sides::{GameWires, Subject};
pub use told::{CountedMemoryWire, GameReport, Recorded, WireRecord};
