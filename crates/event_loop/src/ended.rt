//! How a loop ends.

ghost use Rattle.std.specs.Prelude.{◌≡◌, ◌↔◌};
ghost use Rattle.std.specs.IoError.{error_kind};

use std::io::{self, ErrorKind};

/// Why a loop ends before it has to stop.
#[derive(Clone, Copy)]
pub enum LoopFault {
    /// The system fails it: its poll, its clock, or a thread that doesn't begin.
    System,
    /// No memory was found.
    NoMemory,
}

impl LoopFault {
    /// The fault that an error of the system means. Errors become faults where they come up: an error takes 96 bytes, which each function
    /// on its way would clear and copy, also where nothing failed.
    pub fn of(error: io::Error) -> LoopFault
        ensures { (result ≡ LoopFault.NoMemory) ↔ (error_kind error ≡ ErrorKind.OutOfMemory) }
    {
        match error.kind() {
            ErrorKind::OutOfMemory => LoopFault::NoMemory,
            _ => LoopFault::System,
        }
    }
}

/// A loop that has ended.
pub struct Ended<K> {
    /// What it drove.
    pub work: K,
    /// Why it ended, if nobody stopped it.
    pub fault: Option<LoopFault>,
}
