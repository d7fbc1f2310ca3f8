//! The log: lines wait in the room of their loop, and the administrator's loop writes them. So no exchange waits for a disk.

ghost use Rattle.std.specs.Prelude.{◌≡◌, is_some};

use crate::lines::LogRoom;
use crate::output::Output;
use exchange_report::Entry;
use std::alloc::{AllocError, Global};
use std::fs::File;
use std::sync::atomic::{AtomicU64, Ordering};
use std::sync::{Mutex, Wait};

/// A log that is kept: where its lines go, and the room of each loop.
#[derive(Drop)]
struct Kept {
    output: Mutex<Output>,
    rooms: Vec<Mutex<LogRoom>>,
}

/// The log of all loops; it may be that none is kept.
///
/// ```
/// let log = Log::new(alloc, Some(rt.append("/var/log/adaptproxy/access.log")?), 2)?;
/// let is_half_full = log.add(rt, 0, &entry);
/// log.write_out(rt);
/// ```
#[derive(Drop)]
pub struct Log {
    kept: Option<Kept>,
    lost: AtomicU64,
}

/// A log that is kept in this file, of so many loops.
fn keep(alloc: Global, file: File, loops: u64) -> Result<Kept, AllocError> {
    let mut rooms = Vec::new(alloc);
    for _ in 0..loops {
        rooms.push(Mutex::new(LogRoom::new(alloc)?))?;
    }
    let output = Mutex::new(Output::new(alloc, file)?);
    Ok(Kept { output, rooms })
}

impl Log {
    /// A log in this file of so many loops, or none. `Err` where no memory was found.
    pub fn new(alloc: Global, file: Option<File>, loops: u64) -> Result<Log, AllocError> {
        let kept = match file {
            Some(file) => Some(keep(alloc, file, loops)?),
            None => None,
        };
        Ok(Log {
            kept,
            lost: AtomicU64::new(0),
        })
    }

    /// Whether a log is kept.
    pub fn is_kept(&self) -> bool
        ensures { result ≡ is_some self.now.kept }
    {
        self.kept.is_some()
    }

    /// How many lines were lost.
    pub fn lost(&self) -> u64 {
        self.lost.load(Ordering::SeqCst)
    }

    /// Adds a line of a loop to those that wait. Where there is no room for it, it is lost. True where half of the room is full with it,
    /// and wasn't before: then the administrator's loop has to be woken.
    pub fn add<R: Wait>(&self, rt: &R, number: usize, entry: &Entry<'_>) -> bool {
        let Some(kept) = &self.kept else {
            return false;
        };
        let Some(room) = kept.rooms.get(number) else {
            return false;
        };
        let mut room = room.lock(rt);
        let was_half_full = room.is_half_full();
        if !room.add(entry) {
            let _ = self.lost.fetch_add(1, Ordering::SeqCst);
        }
        !was_half_full && room.is_half_full()
    }

    /// Writes the lines that wait, with one write for each loop. What the file doesn't take waits on.
    pub fn write_out<R: Wait>(&self, rt: &R) {
        let Some(kept) = &self.kept else {
            return;
        };
        let mut output = kept.output.lock(rt);
        let count = kept.rooms.len();
        for _ in 0..count {
            if !output.write_out() {
                return;
            }
            let next = output.next_loop(count);
            if let Some(room) = kept.rooms.get(next) {
                output.take_from(&mut room.lock(rt));
            }
        }
        let _ = output.write_out();
    }

    /// Lines go to this file from now on. Those that wait go to the one before, as far as it takes them: the rest goes on in this.
    pub fn change<R: Wait>(&self, rt: &R, file: File) {
        self.write_out(rt);
        if let Some(kept) = &self.kept {
            kept.output.lock(rt).change(file);
        }
    }
}
