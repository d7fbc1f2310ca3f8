//! The answers of wires, and wires that give them.
use crate::part_iterator::words_of;
use crate::random::Random;
use crate::scene::Scene;
use crate::values::{Values, answer_of, number_by};
use crate::words::{is, parts};
use std::alloc::{AllocError as NoMemory, Global};
use wire_kit::{Answer, MemoryWire, ReadAnswer, WriteAnswer};

/// What a word lists.
#[derive(Clone, Copy)]
enum Listed {
    /// An answer, this many times.
    Times(Answer, usize),
    /// This many bytes in pieces of this size.
    Pieces(usize, usize),
    /// This many answers by a seed.
    Random(u64, usize),
}

/// An answer by chance: one time in four Wait, else one to nine bytes.
fn random_answer(random: &mut Random) -> Answer {
    let number = random.next();
    if number % 4 == 0 {
        Answer::Wait
    } else {
        Answer::Moved((number / 4 % 9) as usize + 1)
    }
}

/// One answer: a word, the letter e, or how many bytes go over at most.
fn one(word: &[u8], values: Values) -> Answer {
    if is(word, b"e") {
        return values.e;
    }
    match number_by(word, values) {
        Some(count) => Answer::Moved(count),
        None => answer_of(word),
    }
}

/// What a word lists: one answer, one several times (`wait*3`), bytes in pieces of a size (`129/7`), or answers by the seed n
/// (`random*60`).
fn read_listed(word: &[u8], values: Values) -> Listed {
    if let Some((what, times)) = parts(word, b'*') {
        let times = number_by(times, values).unwrap_or(0);
        return if is(what, b"random") {
            Listed::Random(values.n as u64, times)
        } else {
            Listed::Times(one(what, values), times)
        };
    }
    if let Some((bytes, size)) = parts(word, b'/') {
        let bytes = number_by(bytes, values).unwrap_or(0);
        return Listed::Pieces(bytes, number_by(size, values).unwrap_or(0));
    }
    Listed::Times(one(word, values), 1)
}

/// Adds an answer, `times` times.
fn put_times(list: &mut Vec<Answer>, answer: Answer, times: usize) -> Result<(), NoMemory> {
    for _ in 0..times {
        list.push(answer)?;
    }
    Ok(())
}

/// Adds what a word lists.
fn put_listed(list: &mut Vec<Answer>, listed: Listed, salt: u64) -> Result<(), NoMemory> {
    match listed {
        Listed::Times(answer, times) => put_times(list, answer, times),
        Listed::Pieces(bytes, size) => {
            let size = size.max(1);
            put_times(list, Answer::Moved(size), bytes / size)?;
            put_times(
                list,
                Answer::Moved(bytes % size),
                usize::from(bytes % size > 0),
            )
        }
        Listed::Random(seed, times) => {
            let mut random = Random::new(seed.wrapping_mul(31).wrapping_add(salt));
            for _ in 0..times {
                list.push(random_answer(&mut random))?;
            }
            Ok(())
        }
    }
}

/// The answers that a key lists.
pub fn answers(
    alloc: Global,
    scene: Scene<'_>,
    key: &[u8],
    values: Values,
) -> Result<Vec<Answer>, NoMemory> {
    let mut list = Vec::new(alloc);
    let salt = key.len() as u64;
    for word in words_of(scene.get(key)) {
        if !word.is_empty() {
            put_listed(&mut list, read_listed(word, values), salt)?;
        }
    }
    Ok(list)
}

/// What a reader answers.
fn reads(alloc: Global, answers: &[Answer]) -> Result<Vec<ReadAnswer>, NoMemory> {
    let mut list = Vec::new(alloc);
    for answer in answers {
        list.push(match answer {
            Answer::Moved(count) => ReadAnswer::Bytes(*count),
            Answer::Ended => ReadAnswer::Ended,
            Answer::Wait => ReadAnswer::Wait,
            Answer::Fault => ReadAnswer::Fault,
        })?;
    }
    Ok(list)
}

/// What a writer answers, which has no end.
fn writes(alloc: Global, answers: &[Answer]) -> Result<Vec<WriteAnswer>, NoMemory> {
    let mut list = Vec::new(alloc);
    for answer in answers {
        list.push(match answer {
            Answer::Moved(count) => WriteAnswer::Took(*count),
            Answer::Ended | Answer::Wait => WriteAnswer::Wait,
            Answer::Fault => WriteAnswer::Fault,
        })?;
    }
    Ok(list)
}

/// A wire that gives the text of a key as the second key says, and takes bytes as the third says.
pub fn wire(
    alloc: Global,
    scene: Scene<'_>,
    text: &[u8],
    read: &[u8],
    written: &[u8],
    values: Values,
) -> Result<MemoryWire, NoMemory> {
    let reads = reads(alloc, &answers(alloc, scene, read, values)?)?;
    let writes = writes(alloc, &answers(alloc, scene, written, values)?)?;
    let input = scene.get(text).to_vec(alloc)?;
    MemoryWire::new(alloc, input, reads, writes)
}
