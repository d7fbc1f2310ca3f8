//! Where the lines of the log go.

ghost use Rattle.std.specs.Prelude.{◌≡◌, ◌+◌, ◌<◌, ◌≤◌, ◌⊎◌, [], IsTrue, false, length};

use crate::lines::{Lines, LogRoom};
use adapt_bytes::behind;
use std::alloc::{AllocError, Global};
use std::fs::File;
use std::io::{ErrorKind, Write};

/// How often a write is made at most, where a signal breaks it off each time.
const CALLS: u32 = 16;

/// Writes once: how many bytes were taken.
fn write_once(file: &mut File, text: &[u8]) -> usize
    ensures { result ≤ length text.now }
{
    for _ in 0..CALLS {
        match file.write(text) {
            Ok(count) => return count,
            Err(error) if error.kind() == ErrorKind::Interrupted => {}
            Err(_) => return 0,
        }
    }
    0
}

/// The file of the log, and lines on their way to it: those before an offset are out.
#[derive(Drop)]
pub struct Output {
    file: File,
    lines: Lines,
    out: usize,
    /// The number of the loop whose lines come next.
    next: usize,
    ghost within: { out ≤ length lines.text.items },
}

impl Output {
    /// No line is on its way. `Err` where no memory was found.
    pub fn new(alloc: Global, file: File) -> Result<Output, AllocError> {
        let lines = Lines::new(alloc)?;
        Ok(Output {
            file,
            lines,
            out: 0,
            next: 0,
        })
    }

    /// Writes what isn't out, with one write at most. False where the file doesn't take all of it: the rest stays, and goes out
    /// later.
    pub fn write_out(&mut self) -> bool
        ensures whole { IsTrue result → self.new.lines.text.items ≡ [] }
        ensures rest { result ≡ false → (self.new.lines ≡ self.old.lines) × (self.old.out ≤ self.new.out) × (self.new.out < length self.new.lines.text.items) }
    {
        let rest = behind(self.lines.text(), self.out);
        if !rest.is_empty() {
            self.out += write_once(&mut self.file, rest);
        }
        if self.out < self.lines.text().len() {
            return false;
        }
        self.out = 0;
        self.lines.clear();
        true
    }

    /// Takes the lines of a loop, which goes on without them; not where some are still on their way.
    pub fn take_from(&mut self, room: &mut LogRoom)
        ensures taken { length self.old.lines.text.items ≡ 0 → (self.new.lines ≡ room.old.lines) × (room.new.lines ≡ self.old.lines) }
        ensures kept { 0 < length self.old.lines.text.items → (self.new ≡ self.old) × (room.new ≡ room.old) }
    {
        if self.lines.text().is_empty() {
            room.exchange(&mut self.lines);
        }
    }

    /// The number of the loop whose lines come next, of so many: each has its turn.
    pub fn next_loop(&mut self, count: usize) -> usize
        ensures result { result ≡ self.old.next }
        ensures turns { (self.new.next ≡ self.old.next + 1) ⊎ (self.new.next ≡ 0) }
        ensures lines { (self.new.lines ≡ self.old.lines) × (self.new.out ≡ self.old.out) }
    {
        let next = self.next;
        self.next = if next < count.saturating_sub(1) {
            next + 1
        } else {
            0
        };
        next
    }

    /// Has lines go to another file from now on: what isn't out goes there.
    pub fn change(&mut self, file: File)
        ensures { (self.new.lines ≡ self.old.lines) × (self.new.out ≡ self.old.out) }
    {
        self.file = file;
    }
}
