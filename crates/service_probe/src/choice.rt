//! Which samples are tried, and how often.

ghost use Rattle.std.specs.Prelude.{◌≤◌};
ghost use Rattle.service_probe.specs.declared.choice.TheConstants.{MAX_COUNT};

use crate::samples::{SAMPLES, Sample};
use adapt_bytes::read_decimal;

/// The most times that a sample is tried.
pub const MAX_COUNT: u64 = 100_000;

/// Which samples are tried, and how often.
#[derive(Clone, Copy, Debug)]
pub struct SampleChoice {
    /// The only one; all where there is none.
    pub only: Option<Sample>,
    /// How often each is tried: on one connection, and on fresh ones.
    pub count: u64,
    pub ghost some: { 1 ≤ count },
    pub ghost few: { count ≤ MAX_COUNT },
}

impl SampleChoice {
    /// Whether a sample is tried.
    pub fn has(&self, sample: Sample) -> bool {
        match self.only {
            Some(only) => only == sample,
            None => true,
        }
    }
}

/// The sample of a name.
fn sample_of(name: &[u8]) -> Option<Sample> {
    for sample in SAMPLES.iter() {
        if sample.name() == name {
            return Some(*sample);
        }
    }
    None
}

/// A choice with one more word and its value.
fn with(choice: SampleChoice, word: &str, value: &[u8]) -> Option<SampleChoice> {
    match word {
        "--only" => Some(SampleChoice {
            only: Some(sample_of(value)?),
            count: choice.count,
        }),
        "--count" => match read_decimal(value) {
            Some(count) if count >= 1 && count <= MAX_COUNT => Some(SampleChoice {
                only: choice.only,
                count,
            }),
            _ => None,
        },
        _ => None,
    }
}

/// The choice that the words after `probe` say: `--only NAME` and `--count N`, each of which may be missing. `None` for other words, for a
/// name that no sample has, and for a number below 1 or above [`MAX_COUNT`].
pub fn read_choice(words: &[String]) -> Option<SampleChoice> {
    let all = SampleChoice {
        only: None,
        count: 1,
    };
    match words {
        [] => Some(all),
        [word, value] => with(all, word.as_str(), value.as_bytes()),
        [word, value, other, its] => {
            let one = with(all, word.as_str(), value.as_bytes())?;
            with(one, other.as_str(), its.as_bytes())
        }
        _ => None,
    }
}
