//! The letters of a row, and the values that they go through.
use crate::part_iterator::words_of;
use crate::row::number;
use crate::scene::Scene;
use crate::words::{is, parts};
use wire_kit::Answer;

/// What the letters stand for in one run.
#[derive(Clone, Copy)]
pub struct Values {
    pub n: usize,
    pub m: usize,
    pub s: usize,
    pub e: Answer,
}

/// How many values each letter has.
#[derive(Clone, Copy)]
pub(crate) struct Counts {
    pub(crate) n: usize,
    pub(crate) m: usize,
    pub(crate) s: usize,
    pub(crate) e: usize,
}

/// The number that decimal digits write.
fn decimal(word: &[u8]) -> Option<usize> {
    match number(word) {
        Some(value) => usize::try_from(value).ok(),
        None => None,
    }
}

/// A letter, or a number.
fn atom(word: &[u8], values: Values) -> Option<usize> {
    match word {
        [b'n'] => Some(values.n),
        [b'm'] => Some(values.m),
        [b's'] => Some(values.s),
        _ => decimal(word),
    }
}

/// The number that a word stands for: a letter or a number, or two of them with `+` or `-` between them. A difference stops at 0.
pub fn number_by(word: &[u8], values: Values) -> Option<usize> {
    if let Some((left, right)) = parts(word, b'+') {
        return atom(left, values)?.checked_add(atom(right, values)?);
    }
    if let Some((left, right)) = parts(word, b'-') {
        return Some(atom(left, values)?.saturating_sub(atom(right, values)?));
    }
    atom(word, values)
}

/// The first and the last value of a word: one number, or two with `-` between them.
fn range(word: &[u8]) -> (usize, usize) {
    let (first, last) = parts(word, b'-').unwrap_or((word, word));
    (decimal(first).unwrap_or(0), decimal(last).unwrap_or(0))
}

/// How many values a word lists.
fn width(word: &[u8]) -> usize {
    let (first, last) = range(word);
    last.saturating_sub(first).saturating_add(1)
}

/// How many values the words list; one if there are no words.
fn count(words: &[u8]) -> usize {
    let mut count: usize = 0;
    for word in words_of(words) {
        count = count.saturating_add(width(word));
    }
    count.max(1)
}

/// The word that lists the value of this index, and the index in it.
fn word_at(words: &[u8], index: usize) -> (&[u8], usize) {
    let mut left = index;
    for word in words_of(words) {
        if left < width(word) {
            return (word, left);
        }
        left = left.saturating_sub(width(word));
    }
    (b"", 0)
}

/// The number of this index.
fn number_at(words: &[u8], index: usize) -> usize {
    let (word, left) = word_at(words, index);
    let (first, _) = range(word);
    first.saturating_add(left)
}

/// The answer of a word; a failure for another word.
pub(crate) fn answer_of(word: &[u8]) -> Answer {
    if is(word, b"wait") {
        return Answer::Wait;
    }
    if is(word, b"ended") {
        return Answer::Ended;
    }
    Answer::Fault
}

impl Counts {
    /// Those of a row.
    pub(crate) fn of(scene: Scene<'_>) -> Counts {
        Counts {
            n: count(scene.get(b"n")),
            m: count(scene.get(b"m")),
            s: count(scene.get(b"s")),
            e: count(scene.get(b"e")),
        }
    }

    /// How many choices there are of the letters but n.
    pub(crate) fn choices(self) -> usize {
        self.m.saturating_mul(self.s).saturating_mul(self.e)
    }
}

/// The values of a choice of the letters but n, and of an index of n.
pub(crate) fn values_at(scene: Scene<'_>, counts: Counts, choice: usize, at: usize) -> Values {
    let (m, s) = (counts.m.max(1), counts.s.max(1));
    let (word, _) = word_at(scene.get(b"e"), choice / m / s);
    Values {
        n: number_at(scene.get(b"n"), at),
        m: number_at(scene.get(b"m"), choice % m),
        s: number_at(scene.get(b"s"), choice / m % s),
        e: answer_of(word),
    }
}
