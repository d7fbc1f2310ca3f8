//! A connection that asks the system only where a poll has told that it may find something.

ghost use Rattle.std.specs.Prelude.{◌≡◌, length};

use crate::stage::shared::{LineOwner, RowStage};
use crate::stage::talk::StageWire;
use test_rows::{Scene, Values};
use wire_kit::{Got, Put, Wire};

/// A connection of a schedule.
pub struct PolledWire<'a> {
    stage: &'a RowStage,
    peer: LineOwner,
    number: usize,
    read: u64,
    taken: u64,
    is_taken_up: bool,
}

impl<'a> StageWire<'a> for PolledWire<'a> {
    fn open(
        stage: &'a RowStage,
        _scene: Scene<'a>,
        _values: Values,
        peer: LineOwner,
        _key: &[u8],
    ) -> PolledWire<'a> {
        PolledWire {
            stage,
            peer,
            number: stage.open_line(peer),
            read: 0,
            taken: 0,
            is_taken_up: false,
        }
    }

    fn take_up(&mut self) {
        self.note(b"takes up");
        self.is_taken_up = true;
    }

    fn note(&self, what: &[u8]) {
        self.stage.note_peer(what, self.peer);
    }

    fn number(&self) -> Option<u64> {
        self.peer.number()
    }

    fn is_quiet(&mut self) -> bool {
        match self.stage.poll.try_borrow() {
            Ok(poll) => match poll.lines.get(self.number) {
                Some(line) => !line.is_noisy(),
                None => false,
            },
            Err(_) => false,
        }
    }

    fn finish(&self) {
        self.note(b"finishes");
        if let Ok(mut poll) = self.stage.poll.try_borrow_mut()
            && let Some(line) = poll.lines.get_mut(self.number)
        {
            line.is_finished = true;
        }
    }
}

impl<'a> Wire for PolledWire<'a> {
    ghost past = { λ wire p. (wire.read ≡ length p.read) × (wire.taken ≡ length p.taken) };

    fn try_read(&mut self, buf: &mut [u8]) -> Got {
        if buf.len() as u64 > u64::MAX - self.read {
            return Got::Wait;
        }
        match self.stage.give(self.number, buf) {
            Got::Bytes(count) => {
                self.read += count as u64;
                Got::Bytes(count)
            }
            got => got,
        }
    }

    fn may_give(&mut self) -> bool {
        match self.stage.poll.try_borrow() {
            Ok(poll) => match poll.lines.get(self.number) {
                Some(line) => line.can_read,
                None => false,
            },
            Err(_) => false,
        }
    }

    fn try_write(&mut self, bytes: &[u8]) -> Put {
        if bytes.len() as u64 > u64::MAX - self.taken {
            return Put::Wait;
        }
        match self.stage.put(self.number, bytes, self.is_taken_up) {
            Put::Took(count) => {
                self.taken += count as u64;
                self.is_taken_up = false;
                Put::Took(count)
            }
            put => put,
        }
    }

    fn counts(&self) -> (u64, u64) {
        (self.read, self.taken)
    }
}

impl<'a> Drop for PolledWire<'a> {
    fn drop(self) {
        self.note(b"closes");
        if let Ok(mut poll) = self.stage.poll.try_borrow_mut()
            && let Some(line) = poll.lines.get_mut(self.number)
        {
            line.is_open = false;
        }
        let PolledWire {
            stage: _,
            peer: _,
            number: _,
            read: _,
            taken: _,
            is_taken_up: _,
        } = self;
    }
}
