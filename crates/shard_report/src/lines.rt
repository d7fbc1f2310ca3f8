//! Lines of the log that wait to be written.

ghost use Rattle.std.specs.Prelude.{◌≡◌, ◌+◌, ◌*◌, ◌≤◌, ◌++◌, ◌↔◌, [], IfOk, IsTrue, false, length};
ghost use Rattle.std.specs.Vec.{vec_capacity};
ghost use Rattle.exchange_report.specs.Entry.{line_text};
ghost use Rattle.shard_report.specs.declared.lines.TheConstants.{ROOM};

use exchange_report::{Entry, LINE_ROOM, write_line};
use std::alloc::{AllocError, Global};
use std::mem;

/// How many bytes of lines may wait, of one loop.
pub const ROOM: usize = 4_194_304;

/// Lines that wait to be written, one after another.
#[derive(Drop)]
pub struct Lines {
    text: Vec<u8>,
    ghost room: { ROOM ≤ vec_capacity text },
}

impl Lines {
    /// No line yet, and room for `ROOM` bytes. `Err` where no memory was found.
    pub fn new(alloc: Global) -> Result<Lines, AllocError>
        ensures { IfOk result (λ lines. lines.text.items ≡ []) }
    {
        let text = Vec::with_capacity(alloc, ROOM)?;
        Ok(Lines { text })
    }

    /// Their text.
    pub fn text(&self) -> &[u8]
        ensures { result.now ≡ self.now.text.items }
    {
        self.text.as_slice()
    }

    /// Whether they fill half of the room.
    fn fill_half(&self) -> bool
        ensures { IsTrue result ↔ ROOM ≤ 2 * length self.now.text.items }
    {
        self.text.len() >= ROOM / 2
    }

    /// Leaves all of them out.
    pub fn clear(&mut self)
        ensures { self.new.text.items ≡ [] }
    {
        self.text.clear();
    }

    /// Adds a line. False exactly where it doesn't fit into the room: then it is lost, and all others stay.
    fn add(&mut self, line: &[u8]) -> bool
        ensures fits { IsTrue result ↔ length self.old.text.items + length line.now ≤ ROOM }
        ensures added { IsTrue result → self.new.text.items ≡ self.old.text.items ++ line.now }
        ensures lost { result ≡ false → self.new.text.items ≡ self.old.text.items }
    {
        line.len() <= ROOM
            && self.text.len() <= ROOM - line.len()
            && self.text.extend_from_slice(line).is_ok()
    }
}

/// Where a loop leaves its lines.
#[derive(Drop)]
pub struct LogRoom {
    lines: Lines,
    /// The line that is being written.
    line: Vec<u8>,
}

impl LogRoom {
    /// No line yet. `Err` where no memory was found.
    pub fn new(alloc: Global) -> Result<LogRoom, AllocError>
        ensures { IfOk result (λ room. room.lines.text.items ≡ []) }
    {
        let lines = Lines::new(alloc)?;
        let line = Vec::with_capacity(alloc, LINE_ROOM)?;
        Ok(LogRoom { lines, line })
    }

    /// Adds the line of an exchange. False where there is no room for it, or no memory: then it is lost, and all others stay.
    pub fn add(&mut self, entry: &Entry<'_>) -> bool
        ensures added { IsTrue result → self.new.lines.text.items ≡ self.old.lines.text.items ++ line_text entry.now }
        ensures lost { result ≡ false → self.new.lines.text.items ≡ self.old.lines.text.items }
    {
        self.line.clear();
        if write_line(&mut self.line, entry).is_err() {
            return false;
        }
        self.lines.add(self.line.as_slice())
    }

    /// Whether half of the room is full, or more.
    pub fn is_half_full(&self) -> bool
        ensures { IsTrue result ↔ ROOM ≤ 2 * length self.now.lines.text.items }
    {
        self.lines.fill_half()
    }

    /// Has the loop go on with other lines, and gives those that wait.
    pub fn exchange(&mut self, other: &mut Lines)
        ensures { (self.new.lines ≡ other.old) × (other.new ≡ self.old.lines) }
    {
        mem::swap(&mut self.lines, other);
    }
}
