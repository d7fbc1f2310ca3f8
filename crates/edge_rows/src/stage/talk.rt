//! A connection in memory, whose other end does one thing after another, in words.

ghost use Rattle.std.specs.Prelude.{◌≡◌, ◌≤◌, length};

use crate::stage::shared::{LineOwner, RowStage};
use crate::stage::words::first_word;
use test_rows::{Scene, Values, has_word, is, number_by, words_of};
use wire_kit::{Got, Put, Wire};

/// What the other end does.
#[derive(Clone, Copy)]
pub(crate) enum TalkAct<'a> {
    /// It gives these bytes.
    Gives(&'a [u8]),
    /// It waits until it has taken so many bytes since the last time.
    Hears(usize),
    /// It waits until all wait.
    Pauses,
    /// It takes so many bytes, and then none.
    Takes(usize),
    /// It ends its bytes.
    Ends,
    /// The connection fails.
    Fails,
    /// It stays, and does nothing more.
    Stays,
    /// It does nothing more. A user ends its bytes once it is told that nothing more comes.
    Rests,
}

/// How bytes go over.
#[derive(Clone, Copy)]
struct Pace {
    /// Where the bytes that are given pause next.
    cut: Option<u64>,
    /// Whether they pause after each byte.
    drips: bool,
    /// Whether one byte at most is taken until all have waited.
    sips: bool,
}

impl Pace {
    /// That of a peer: `cut: user` has its bytes pause after the first n, `drip: user` after each byte, and for `sip: user` it
    /// takes a byte at a time.
    fn of(scene: Scene<'_>, values: Values, peer: LineOwner) -> Pace {
        let drips = has_word(scene.get(b"drip"), peer.name());
        let is_cut = has_word(scene.get(b"cut"), peer.name());
        Pace {
            cut: if drips {
                Some(1)
            } else if is_cut {
                Some(values.n as u64)
            } else {
                None
            },
            drips,
            sips: has_word(scene.get(b"sip"), peer.name()),
        }
    }
}

/// The text that a word names: `NAME/NUMBER` are so many first bytes of one.
fn named_text<'a>(scene: Scene<'a>, values: Values, word: &'a [u8]) -> &'a [u8] {
    let mut parts = word.splitn(2, |byte| *byte == b'/');
    let text = scene.get(parts.next().unwrap_or(b""));
    match parts.next() {
        Some(count) => {
            let count = number_by(count, values).unwrap_or(0).min(text.len());
            &text[..count]
        }
        None => text,
    }
}

/// What an act's word says: `<NAME` that a text is heard, `takes=NUMBER`, `takes`, `pause`, `ends`, `fails` and `stays`, and else the
/// name of a text that is given.
pub(crate) fn read_act<'a>(scene: Scene<'a>, values: Values, word: &'a [u8]) -> TalkAct<'a> {
    match word {
        b"" => TalkAct::Rests,
        b"pause" => TalkAct::Pauses,
        b"ends" => TalkAct::Ends,
        b"fails" => TalkAct::Fails,
        b"stays" => TalkAct::Stays,
        b"takes" => TalkAct::Takes(usize::MAX),
        [b'<', name @ ..] => TalkAct::Hears(scene.get(name).len()),
        [b't', b'a', b'k', b'e', b's', b'=', count @ ..] => {
            TalkAct::Takes(number_by(count, values).unwrap_or(0))
        }
        name => TalkAct::Gives(named_text(scene, values, name)),
    }
}

/// Whether some of these words have bytes taken again.
fn takes_again(script: &[u8]) -> bool {
    for word in words_of(script) {
        if word.starts_with(b"takes") && !is(word, b"takes=0") {
            return true;
        }
    }
    false
}

/// The other end of a connection.
#[derive(Drop)]
struct Talk<'a> {
    stage: &'a RowStage,
    scene: Scene<'a>,
    values: Values,
    pace: Pace,
    peer: LineOwner,
    /// What it does, and the words of what it does then.
    act: TalkAct<'a>,
    script: &'a [u8],
    /// How many bytes it took since it last heard a text.
    heard: usize,
    /// How many bytes it takes.
    room: usize,
    /// Since when it pauses, in waits of all.
    paused: Option<u64>,
    /// When it last took a byte, in waits of all.
    sipped: Option<u64>,
}

/// A connection in memory.
pub struct TalkWire<'a> {
    talk: Talk<'a>,
    read: u64,
    taken: u64,
    /// Whether nothing went out on it since it was taken up: if something was heard on it meanwhile, nothing goes.
    is_taken_up: bool,
}

/// The most acts of a script that are over at once.
const ACTS: usize = 32;

impl<'a> Talk<'a> {
    /// Whether it pauses until all have waited.
    fn pauses(&mut self) -> bool {
        let now = self.stage.waits();
        let since = self.paused.unwrap_or(now);
        self.paused = if since == now { Some(now) } else { None };
        since == now
    }

    /// Whether the act is over.
    fn is_past(&mut self) -> bool {
        match self.act {
            TalkAct::Gives(text) => text.is_empty(),
            TalkAct::Hears(count) => self.heard >= count,
            TalkAct::Pauses => !self.pauses(),
            TalkAct::Takes(_) => true,
            TalkAct::Ends | TalkAct::Fails | TalkAct::Stays | TalkAct::Rests => false,
        }
    }

    /// Ends acts that are over, and says which one it is at.
    fn go_on(&mut self) -> TalkAct<'a> {
        for _ in 0..ACTS {
            if !self.is_past() {
                return self.act;
            }
            match self.act {
                TalkAct::Hears(count) => self.heard = self.heard.saturating_sub(count),
                TalkAct::Takes(count) => self.room = count,
                _ => {}
            }
            let (word, script) = first_word(self.script);
            self.act = read_act(self.scene, self.values, word);
            self.script = script;
        }
        self.act
    }

    /// Whether it takes nothing any more, whatever comes.
    fn is_deaf(&self) -> bool {
        self.room == 0 && !takes_again(self.script)
    }

    /// Nothing more reaches it.
    fn lose(&self) {
        self.stage.lose(self.peer);
    }

    /// How many bytes it gives at most now, after so many.
    fn most(&mut self, given: u64) -> usize {
        let Some(at) = self.pace.cut else {
            return usize::MAX;
        };
        if given < at {
            return usize::try_from(at - given).unwrap_or(usize::MAX);
        }
        if self.pauses() {
            return 0;
        }
        if self.pace.drips {
            self.pace.cut = Some(given.saturating_add(1));
            return 1;
        }
        self.pace.cut = None;
        usize::MAX
    }

    /// Gives the first of these bytes, after so many.
    fn give(&mut self, given: u64, text: &'a [u8], buf: &mut [u8]) -> usize
        ensures fits { result ≤ length buf.old }
        ensures keeps { length buf.new ≡ length buf.old }
    {
        let count = text.len().min(buf.len()).min(self.most(given));
        let (front, rest) = text.split_at(count);
        buf[..count].copy_from_slice(front);
        self.act = TalkAct::Gives(rest);
        count
    }

    /// Takes the first of these bytes.
    fn take(&mut self, bytes: &[u8]) -> usize
        ensures { result ≤ length bytes.now }
    {
        let now = self.stage.waits();
        let most = if !self.pace.sips {
            usize::MAX
        } else if self.sipped == Some(now) {
            0
        } else {
            1
        };
        let count = bytes.len().min(self.room).min(most);
        if count > 0 {
            self.stage.take(self.peer, &bytes[..count]);
            self.sipped = Some(now);
            self.heard = self.heard.saturating_add(count);
            self.room = self.room.saturating_sub(count);
        }
        count
    }
}

/// A connection of a row's exchange, whose other end plays a part of the row.
pub trait StageWire<'a>: Wire + Drop {
    /// A connection whose other end does what the key says.
    fn open(
        stage: &'a RowStage,
        scene: Scene<'a>,
        values: Values,
        peer: LineOwner,
        key: &[u8],
    ) -> Self;

    /// It is taken up, as one that lay idle. Another request may go out on it as long as nothing is heard on it.
    fn take_up(&mut self);

    /// What happens at this end.
    fn note(&self, what: &[u8]);

    /// The number of an origin's or a service's connection.
    fn number(&self) -> Option<u64>;

    /// Whether nothing is to be read, and the other end hasn't ended its bytes.
    fn is_quiet(&mut self) -> bool;

    /// This end says that nothing more comes.
    fn finish(&self);
}

impl<'a> StageWire<'a> for TalkWire<'a> {
    fn open(
        stage: &'a RowStage,
        scene: Scene<'a>,
        values: Values,
        peer: LineOwner,
        key: &[u8],
    ) -> TalkWire<'a> {
        stage.open(peer);
        let (word, script) = first_word(scene.get(key));
        let talk = Talk {
            stage,
            scene,
            values,
            pace: Pace::of(scene, values, peer),
            peer,
            act: read_act(scene, values, word),
            script,
            heard: 0,
            room: usize::MAX,
            paused: None,
            sipped: None,
        };
        TalkWire {
            talk,
            read: 0,
            taken: 0,
            is_taken_up: false,
        }
    }

    fn take_up(&mut self) {
        self.note(b"takes up");
        self.is_taken_up = true;
    }

    fn note(&self, what: &[u8]) {
        self.talk.stage.note_peer(what, self.talk.peer);
    }

    fn number(&self) -> Option<u64> {
        self.talk.peer.number()
    }

    fn is_quiet(&mut self) -> bool {
        !matches!(
            self.talk.go_on(),
            TalkAct::Gives(_) | TalkAct::Ends | TalkAct::Fails
        )
    }

    fn finish(&self) {
        self.note(b"finishes");
        self.talk.stage.finish();
    }
}

impl<'a> Wire for TalkWire<'a> {
    ghost past = { λ wire p. (wire.read ≡ length p.read) × (wire.taken ≡ length p.taken) };

    fn try_read(&mut self, buf: &mut [u8]) -> Got {
        if buf.len() as u64 > u64::MAX - self.read {
            return Got::Wait;
        }
        match self.talk.go_on() {
            TalkAct::Ends => Got::Ended,
            TalkAct::Fails => {
                self.talk.lose();
                Got::Fault
            }
            TalkAct::Rests if self.talk.stage.is_finished() => Got::Ended,
            TalkAct::Gives(text) => match self.talk.give(self.read, text, buf) {
                0 => Got::Wait,
                count => {
                    self.read += count as u64;
                    Got::Bytes(count)
                }
            },
            _ => Got::Wait,
        }
    }

    fn try_write(&mut self, bytes: &[u8]) -> Put {
        if bytes.len() as u64 > u64::MAX - self.taken {
            return Put::Wait;
        }
        let act = self.talk.go_on();
        if matches!(act, TalkAct::Fails) {
            self.talk.lose();
            return Put::Fault;
        }
        if self.is_taken_up && matches!(act, TalkAct::Gives(_) | TalkAct::Ends) {
            return Put::Fault;
        }
        match self.talk.take(bytes) {
            0 => Put::Wait,
            count => {
                self.taken += count as u64;
                self.is_taken_up = false;
                Put::Took(count)
            }
        }
    }

    fn counts(&self) -> (u64, u64) {
        (self.read, self.taken)
    }
}

impl<'a> Drop for TalkWire<'a> {
    fn drop(self) {
        self.note(b"closes");
        if self.talk.is_deaf() {
            self.talk.lose();
        }
        let TalkWire {
            talk: _,
            read: _,
            taken: _,
            is_taken_up: _,
        } = self;
    }
}
