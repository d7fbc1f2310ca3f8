//! What a thread writes of its exchanges: lines, in memory that was taken beforehand.

ghost use Rattle.std.specs.Prelude.{◌≡◌, ◌↔◌, IsTrue, IsSome, IfSome, IfOk, take};
ghost use Rattle.event_loop.specs.Sheets.{IsBlank, HasRoom, TakesLine, IsCut, IsCounted, IsEnded, CountsIdle, written_to};
ghost use Rattle.event_loop.specs.declared.sheet.TheConstants.{MAX_TEXT};

use std::alloc::{AllocError, Global};

/// The bytes of all lines for which a sheet has room.
const MAX_TEXT: usize = 65_536;

/// The lines for which it has room.
const MAX_LINES: usize = 1_024;

/// Where a line stands in the text of its sheet, and for how many seconds nothing has moved in its exchange.
#[derive(Clone, Copy)]
pub struct SheetLine {
    pub still: u64,
    pub from: usize,
    pub end: usize,
}

/// The lines of one thread, and how many of its users are in no exchange. It takes its memory when it is made, and has no room for more
/// lines than that.
///
/// ```
/// let mut sheet = Sheet::new(alloc)?;
/// if let Some(text) = sheet.begin_line(live_room(&live)) {
///     write_live(text, &live)?;
///     sheet.end_line(live.still);
/// }
/// ```
#[derive(Drop)]
pub struct Sheet {
    text: Vec<u8>,
    lines: Vec<SheetLine>,
    idle: u64,
    left_out: u64,
}

impl Sheet {
    /// A sheet without a line. `Err` where no memory was found for it.
    pub fn new(alloc: Global) -> Result<Sheet, AllocError>
        ensures blank { IfOk result IsBlank }
        ensures room { IfOk result (HasRoom MAX_TEXT) }
    {
        Ok(Sheet {
            text: Vec::with_capacity(alloc, MAX_TEXT)?,
            lines: Vec::with_capacity(alloc, MAX_LINES)?,
            idle: 0,
            left_out: 0,
        })
    }

    /// Whether it has room for one more line of so many bytes.
    pub fn has_room(&self, bytes: usize) -> bool
        ensures { IsTrue result ↔ HasRoom bytes self.now }
    {
        bytes <= self.text.capacity() - self.text.len() && self.lines.len() < self.lines.capacity()
    }

    /// Where its last line ends.
    fn end(&self) -> usize
        ensures { result ≡ written_to self.now.lines.items }
    {
        match self.lines.last() {
            Some(line) => line.end,
            None => 0,
        }
    }

    /// What stands after its last line goes: a line that was begun and not ended.
    fn cut(&mut self)
        ensures { IsCut self.old self.new }
    {
        let end = self.end();
        self.text.truncate(end);
    }

    /// Whether there is room for one more line of so many bytes. Where there is none, that line is counted.
    fn make_room(&mut self, bytes: usize) -> bool
        ensures room { IsTrue result ↔ HasRoom bytes self.old }
        ensures same { IsTrue result → self.new ≡ self.old }
        ensures counted { (IsTrue result → ⊥) → IsCounted self.old self.new }
    {
        let has_room = self.has_room(bytes);
        if !has_room {
            self.left_out = self.left_out.saturating_add(1);
        }
        has_room
    }

    /// The text to which the next line is to be added, which has at most so many bytes. `None` where there is no room for so many: the line
    /// is counted as left out.
    pub fn begin_line(&mut self, room: usize) -> Option<&mut Vec<u8>>
        ensures room { IsSome result ↔ TakesLine room self.old }
        ensures text { IfSome result (λ text. text.now.items ≡ take (written_to self.old.lines.items) self.old.text.items) }
    {
        self.cut();
        if self.make_room(room) {
            Some(&mut self.text)
        } else {
            None
        }
    }

    /// What was added to the text since the last line is the next one, of an exchange in which nothing has moved for `still` seconds.
    pub fn end_line(&mut self, still: u64)
        ensures added { HasRoom 0 self.old → IsEnded still self.old self.new }
        ensures counted { (HasRoom 0 self.old → ⊥) → IsCounted self.old self.new }
    {
        if self.has_room(0) {
            let from = self.end();
            let end = self.text.len();
            self.lines.push_reserved(SheetLine { still, from, end });
        } else {
            self.left_out = self.left_out.saturating_add(1);
        }
    }

    /// One more user is in no exchange.
    pub fn count_idle(&mut self)
        ensures { CountsIdle self.old self.new }
    {
        self.idle = self.idle.saturating_add(1);
    }

    /// All that was written.
    pub fn text(&self) -> &[u8]
        ensures { result.now ≡ self.now.text.items }
    {
        self.text.as_slice()
    }

    /// Its lines, the oldest first.
    pub fn lines(&self) -> &[SheetLine]
        ensures { result.now ≡ self.now.lines.items }
    {
        self.lines.as_slice()
    }

    /// How many users are in no exchange.
    pub fn idle(&self) -> u64
        ensures { result ≡ self.now.idle }
    {
        self.idle
    }

    /// For how many lines there was no room.
    pub fn left_out(&self) -> u64
        ensures { result ≡ self.now.left_out }
    {
        self.left_out
    }

    /// Takes all off that was written, and counts anew.
    pub fn clear(&mut self)
        ensures { IsBlank self.new }
    {
        self.text.clear();
        self.lines.clear();
        self.idle = 0;
        self.left_out = 0;
    }
}
