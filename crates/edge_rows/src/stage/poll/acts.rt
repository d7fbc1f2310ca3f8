//! What a connection's other end does, what the poll tells of it, and what a read and a write find.

ghost use Rattle.std.specs.Prelude.{◌≡◌, length};
ghost use Rattle.wire_kit.specs.Past.{FitsPut, FitsRoom};

use crate::stage::poll::PolledLine;
use crate::stage::talk::{TalkAct, read_act};
use crate::stage::words::{first_word, script_key};
use adapt_bytes::behind;
use test_rows::{Scene, Values};
use wire_kit::{Got, Put};

impl PolledLine {
    /// Whether a read would find something.
    pub(crate) fn is_noisy(&self) -> bool {
        self.read < self.came.len() || self.has_ended || self.has_failed
    }

    /// The other end takes bytes again. False where it does already, or never will.
    pub(super) fn make_room(&mut self, most: usize) -> bool {
        if self.room > 0 || self.later == 0 || self.has_failed {
            return false;
        }
        self.room = self.later.min(most);
        self.later = self.later.saturating_sub(self.room);
        self.tells_room = true;
        true
    }

    /// The other end ends its bytes, or the connection fails. False where it did before.
    fn end(&mut self, has_failed: bool) -> bool {
        let is_news = !self.has_ended;
        self.has_ended = true;
        self.has_failed = has_failed;
        self.tells_end = self.tells_end || is_news;
        is_news
    }

    /// The other end does what is next in its words, or gives a part of a text. False where it does nothing now.
    pub(super) fn go_on(&mut self, scene: Scene<'_>, values: Values, most: usize) -> bool {
        let script = scene.get(script_key(self.peer, self.key));
        let (word, _) = first_word(behind(script, self.place));
        match read_act(scene, values, word) {
            TalkAct::Gives(text) if self.given < text.len() => {
                let left = behind(text, self.given);
                let count = left.len().min(most);
                self.tells_bytes = self.tells_bytes || self.read == self.came.len();
                self.given = self.given.saturating_add(count);
                return self.came.extend_from_slice(&left[..count]).is_ok();
            }
            TalkAct::Hears(count) if self.heard < count => {
                return self.is_finished && self.end(false);
            }
            TalkAct::Hears(count) => self.heard = self.heard.saturating_sub(count),
            TalkAct::Takes(count) => self.later = count,
            TalkAct::Gives(_) | TalkAct::Pauses => self.given = 0,
            TalkAct::Ends => return self.end(false),
            TalkAct::Fails => return self.end(true),
            TalkAct::Rests => return self.is_finished && self.end(false),
            TalkAct::Stays => return false,
        }
        self.place = self.place.saturating_add(word.len()).saturating_add(1);
        true
    }

    /// Takes note of what the poll tells. Whether that is news: a read or a write that found nothing may find something now.
    pub(super) fn note(&mut self) -> bool {
        let reads = self.tells_bytes || self.tells_end;
        let writes = self.tells_room || self.tells_end;
        let is_news = reads && !self.can_read
            || writes && !self.can_write
            || self.tells_end && !self.knows_end;
        self.can_read = self.can_read || reads;
        self.can_write = self.can_write || writes;
        self.knows_end = self.knows_end || self.tells_end;
        self.tells_bytes = false;
        self.tells_room = false;
        self.tells_end = false;
        is_news
    }

    /// Reads what came. A read that finds less than it asks for is the last one until more is told.
    pub(super) fn give(&mut self, buf: &mut [u8]) -> Got
        ensures fits { FitsRoom (length buf.old) result }
        ensures keeps { length buf.new ≡ length buf.old }
    {
        if !self.can_read {
            return Got::Wait;
        }
        if self.has_failed {
            return Got::Fault;
        }
        let left = behind(&self.came, self.read);
        let count = left.len().min(buf.len());
        if count == 0 {
            self.can_read = self.has_ended;
            return if self.has_ended {
                Got::Ended
            } else {
                Got::Wait
            };
        }
        buf[..count].copy_from_slice(&left[..count]);
        self.read = self.read.saturating_add(count);
        self.can_read = count == buf.len() || self.knows_end;
        Got::Bytes(count)
    }

    /// Takes bytes. A write that isn't taken whole is the last one until room is told.
    pub(super) fn take(&mut self, bytes: &[u8]) -> Put
        ensures { FitsPut (length bytes.now) result }
    {
        if !self.can_write {
            return Put::Wait;
        }
        if self.has_failed {
            return Put::Fault;
        }
        let count = bytes.len().min(self.room);
        self.can_write = count == bytes.len();
        self.room = self.room.saturating_sub(count);
        self.heard = self.heard.saturating_add(count);
        if count == 0 {
            Put::Wait
        } else {
            Put::Took(count)
        }
    }
}
