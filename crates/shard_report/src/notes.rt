//! What is noted of an exchange while it goes on: what its line in the log says, and what is counted.

ghost use Rattle.std.specs.Prelude.{◌≡◌, ◌↔◌, ◌<◌, ◌+◌, ◌-◌, ◌^◌, IfNone, IfSome, IsSome, IsSomeAnd, IsTrue, slice_get};
ghost use Rattle.std.specs.Option.{option_copied};
ghost use Rattle.http_side.specs.Refusals.{is_own_status};
ghost use Rattle.shard_report.specs.Notes.{IsOpen, SaysPage, Withdraws, noted_why};

use adapt_bytes::front;
use exchange_report::{
    Address, Destination, Entry, MAX_FOUND, MAX_KIND, MAX_METHOD, MAX_TARGET, Reason, Summary,
    Verdict, Why, page_refusal,
};
use std::alloc::{AllocError, Global};
use trace_core::Point;

/// What is noted of the exchange under a key.
#[derive(Clone, Copy)]
pub struct Note {
    /// Whether a request was read, or refused, and its answer isn't over.
    pub is_open: bool,
    /// The number of its newest exchange among those of its loop, from 1. No other exchange of the loop has it. 0 before the first one.
    pub number: u64,
    pub user: Option<Address>,
    /// The moment at which the request's head was there, in milliseconds since 1970.
    pub begun: u64,
    /// How many bytes the user had taken before.
    pub taken: u64,
    /// How many bytes were read of the user, as far as they are counted.
    pub read: u64,
    /// The origin or the parent to which a connection is, or is to be, opened.
    pub dialled: Option<Destination>,
    /// The one that got a byte of the request.
    pub destination: Option<Destination>,
    /// Which message is under way: the request, or the response.
    pub point: Point,
    pub refused: bool,
    pub status: u16,
    /// Whether a byte of an answer went to the user, and no refusal's.
    pub answered: bool,
    /// Why a service can't serve, where that was found.
    pub blamed: Option<Reason>,
    /// Whether it is a HEAD request.
    pub is_head: bool,
    /// What became of it, as far as that is noted.
    pub summary: Summary,
}

/// Texts from outside: the method, the target and the answer's media type, one after another; and what a service found.
#[derive(Drop)]
struct Words {
    text: Vec<u8>,
    method: usize,
    target: usize,
    found: Vec<u8>,
}

/// The notes of a loop, one for each key.
///
/// ```
/// let mut notes = Notes::new(alloc, 2)?;
/// notes.enter(0, None);
/// notes.begin(0, 1_000, 0, b"GET", b"http://o.test/");
/// notes.answer(0, 200, b"text/html");
/// if let Some(note) = notes.close(0) {
///     let entry = notes.entry(0, &note, 1_004, 258);
///     assert_eq!(rt; (entry.status, entry.elapsed, entry.sent), (200, 4, 258));
/// }
/// // It is closed, so it gives no second line.
/// assert!(rt; !notes.is_open(0));
/// ```
#[derive(Drop)]
pub struct Notes {
    notes: Vec<Note>,
    words: Vec<Words>,
    /// How many exchanges have begun.
    begun: u64,
}

/// Before a user.
fn blank() -> Note {
    Note {
        is_open: false,
        number: 0,
        user: None,
        begun: 0,
        taken: 0,
        read: 0,
        dialled: None,
        destination: None,
        point: Point::Reqmod,
        refused: false,
        status: 0,
        answered: false,
        blamed: None,
        is_head: false,
        summary: Summary::NONE,
    }
}

impl Words {
    /// Notes a method and a target. Where no memory is found, there is none.
    fn begin(&mut self, method: &[u8], target: &[u8]) {
        let method = front(method, MAX_METHOD);
        let target = front(target, MAX_TARGET);
        self.clear();
        if self.text.extend_from_slice(method).is_ok() {
            self.method = method.len();
        }
        if self.text.extend_from_slice(target).is_ok() {
            self.target = target.len();
        }
    }

    /// Notes a media type.
    fn answer(&mut self, kind: &[u8]) {
        let end = self.method.saturating_add(self.target);
        if end < self.text.len() {
            self.text.truncate(end);
        }
        let _ = self.text.extend_from_slice(front(kind, MAX_KIND));
    }

    /// Notes what a service found.
    fn find(&mut self, found: &[u8]) {
        self.found.clear();
        let _ = self.found.extend_from_slice(front(found, MAX_FOUND));
    }

    fn clear(&mut self) {
        self.text.clear();
        self.method = 0;
        self.target = 0;
        self.found.clear();
    }

    /// The method, the target and the media type.
    fn all(&self) -> (&[u8], &[u8], &[u8]) {
        let end = self.method.saturating_add(self.target);
        let text = self.text.as_slice();
        (
            text.get(..self.method).unwrap_or(b""),
            text.get(self.method..end).unwrap_or(b""),
            text.get(end..).unwrap_or(b""),
        )
    }
}

impl Notes {
    /// A note for each of these keys. `Err` where no memory was found.
    pub fn new(alloc: Global, keys: usize) -> Result<Notes, AllocError> {
        let mut notes = Vec::with_capacity(alloc, keys)?;
        let mut words = Vec::with_capacity(alloc, keys)?;
        for _ in 0..keys {
            notes.push(blank())?;
            words.push(Words {
                text: Vec::new(alloc),
                method: 0,
                target: 0,
                found: Vec::new(alloc),
            })?;
        }
        Ok(Notes {
            notes,
            words,
            begun: 0,
        })
    }

    /// A note.
    pub fn get(&self, key: usize) -> Option<&Note>
        ensures { option_copied result ≡ slice_get self.now.notes.items key }
    {
        self.notes.get(key)
    }

    /// The number of an exchange that begins: one more than that of the newest one.
    fn next_number(&mut self) -> u64
        ensures number { self.old.begun + 1 < 2 ^ 64 → (result ≡ self.old.begun + 1) × (self.new.begun ≡ result) }
        ensures kept { (self.new.notes ≡ self.old.notes) × (self.new.words ≡ self.old.words) }
    {
        self.begun = self.begun.saturating_add(1);
        self.begun
    }

    /// A note, to be changed.
    pub fn get_mut(&mut self, key: usize) -> Option<&mut Note> {
        self.notes.get_mut(key)
    }

    /// Whether an exchange goes on under this key: a request was read, or refused, and its answer isn't over.
    pub fn is_open(&self, key: usize) -> bool
        ensures { IsTrue result ↔ IsOpen self.now.notes.items key }
    {
        match self.notes.get(key) {
            Some(note) => note.is_open,
            None => false,
        }
    }

    /// A user comes.
    pub fn enter(&mut self, key: usize, user: Option<Address>) {
        if let Some(note) = self.notes.get_mut(key) {
            *note = Note { user, ..blank() };
        }
        if let Some(words) = self.words.get_mut(key) {
            words.clear();
        }
    }

    /// An exchange begins, with this request.
    pub fn begin(&mut self, key: usize, moment: u64, taken: u64, method: &[u8], target: &[u8]) {
        let number = self.next_number();
        if let Some(note) = self.notes.get_mut(key) {
            let user = note.user;
            let read = note.read;
            *note = blank();
            note.is_open = true;
            note.number = number;
            note.user = user;
            note.read = read;
            note.begun = moment;
            note.taken = taken;
            note.is_head = method == b"HEAD".as_slice();
        }
        if let Some(words) = self.words.get_mut(key) {
            words.begin(method, target);
        }
    }

    /// The request is begun anew: from now on it is noted as one that went nowhere yet, and of which nothing became.
    pub fn withdraw(&mut self, key: usize)
        ensures { Withdraws key self.old self.new }
    {
        if let Some(note) = self.notes.get_mut(key) {
            note.point = Point::Reqmod;
            note.dialled = None;
            note.destination = None;
            note.summary = Summary::NONE;
        }
        if let Some(words) = self.words.get_mut(key) {
            words.found.clear();
        }
    }

    /// The answer has this status, and this media type.
    pub fn answer(&mut self, key: usize, status: u16, kind: &[u8]) {
        if let Some(note) = self.notes.get_mut(key) {
            note.status = status;
        }
        if let Some(words) = self.words.get_mut(key) {
            words.answer(kind);
        }
    }

    /// The proxy's own refusal is the answer, with the status of this reason. It has no media type.
    pub fn refuse(&mut self, key: usize, reason: Reason) {
        if !self.is_open(key) {
            self.begin(key, 0, 0, b"", b"");
        }
        self.answer(key, reason.status(), b"");
        if let Some(note) = self.notes.get_mut(key) {
            note.refused = true;
            note.summary.why = Why::Failed(reason);
        }
    }

    /// Notes what became of a message.
    pub fn judge(&mut self, key: usize, point: Point, verdict: Verdict) {
        if let Some(note) = self.notes.get_mut(key) {
            match point {
                Point::Reqmod => note.summary.reqmod = verdict,
                Point::Respmod => note.summary.respmod = verdict,
            }
        }
    }

    /// A service said that it found this in a message.
    pub fn find(&mut self, key: usize, found: &[u8]) {
        if let Some(words) = self.words.get_mut(key) {
            words.find(found);
        }
    }

    /// Closes an exchange that is open, and gives its note.
    pub fn close(&mut self, key: usize) -> Option<Note>
        ensures some { IsSome result ↔ IsOpen self.old.notes.items key }
        ensures closed { IsOpen self.new.notes.items key → ⊥ }
    {
        let note = self.notes.get_mut(key)?;
        if !note.is_open {
            return None;
        }
        note.is_open = false;
        Some(*note)
    }

    /// The refusal of this status, with this page. It says the reason that is noted of the exchange, and this number, which is noted too.
    /// `None` where no memory was found, or no refusal is noted: then nothing has changed.
    pub fn refuse_with(
        &mut self,
        alloc: Global,
        key: usize,
        status: u16,
        page: &[u8],
        number: u64,
    ) -> Option<Vec<u8>>
        requires { IsTrue (is_own_status status) }
        ensures says { IfSome result (λ text. IsSomeAnd (slice_get self.new.notes.items key) (λ note. SaysPage status page.now number note text.items)) }
        ensures none { IfNone result (self.new ≡ self.old) }
    {
        let note = self.notes.get(key)?;
        if !note.refused {
            return None;
        }
        let (why, is_head) = (why_of(note), note.is_head);
        let Ok(text) = page_refusal(alloc, status, page, why, number, is_head) else {
            return None;
        };
        let note = self.notes.get_mut(key)?;
        note.summary.refusal = Some(number);
        Some(text)
    }

    /// What the log says of an exchange that ended at this moment, when so many bytes had gone to the user: among it what became of it,
    /// as it is noted, and what a service found.
    pub fn entry(&self, key: usize, note: &Note, ended: u64, sent: u64) -> Entry<'_>
        ensures noted { result.summary ≡ note.now.summary }
        ensures found { IfSome (slice_get self.now.words.items key) (λ words. result.found.now ≡ words.found.items) }
    {
        let nothing: &[u8] = b"";
        let ((method, target, kind), found) = match self.words.get(key) {
            Some(words) => (words.all(), words.found.as_slice()),
            None => ((nothing, nothing, nothing), nothing),
        };
        Entry {
            ended,
            elapsed: elapsed_of(note, ended),
            user: note.user,
            refused: note.refused,
            status: status_of(note),
            sent,
            method,
            target,
            destination: note.destination,
            kind,
            found,
            summary: note.summary,
        }
    }
}

/// How many milliseconds an exchange took that ended at this moment. 0 where the moment of its beginning isn't known.
pub fn elapsed_of(note: &Note, ended: u64) -> u64
    ensures known { 0 < note.now.begun → result ≡ ended - note.now.begun }
    ensures unknown { note.now.begun ≡ 0 → result ≡ 0 }
{
    if note.begun == 0 {
        0
    } else {
        ended.saturating_sub(note.begun)
    }
}

/// The status of an exchange whose user was gone before it had one.
const CLOSED_REQUEST: u16 = 499;

/// The status of an exchange.
pub fn status_of(note: &Note) -> u16
    ensures known { 0 < note.now.status → result ≡ note.now.status }
    ensures gone { note.now.status ≡ 0 → result ≡ 499 }
{
    if note.status == 0 {
        CLOSED_REQUEST
    } else {
        note.status
    }
}

/// Why an exchange ended as it did.
pub fn why_of(note: &Note) -> Why
    ensures { result ≡ noted_why note.now }
{
    note.summary.why
}
