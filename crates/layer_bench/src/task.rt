//! What the arguments ask for.
use adapt_bytes::read_decimal;
use anyhow::Result;
use std::alloc::Global;
use std::env;
use std::io::ErrorKind;
use std::rt::Env;

/// What can be measured.
#[derive(Clone, Copy)]
pub enum Layer {
    /// Chunked bodies, in MiB.
    Chunks,
    /// Heads.
    Heads,
    /// The buffer budget, in rounds.
    Bank,
}

/// What is measured, and how often.
#[derive(Clone, Copy)]
pub struct Measurement {
    pub layer: Layer,
    /// At least 1.
    pub times: u32,
}

/// The layers, by their words.
const LAYERS: [(&str, Layer); 3] = [
    ("chunks", Layer::Chunks),
    ("heads", Layer::Heads),
    ("bank", Layer::Bank),
];

/// The layer that a word names.
fn layer_of(word: &str) -> Option<Layer> {
    for (name, layer) in LAYERS.iter() {
        if *name == word {
            return Some(*layer);
        }
    }
    None
}

/// The number that a word writes, from 1 to 4,294,967,295.
fn times_of(word: &str) -> Option<u32> {
    let times = u32::try_from(read_decimal(word.as_bytes())?).ok()?;
    if times == 0 { None } else { Some(times) }
}

/// The tasks that the arguments name, each by two words. `None` if there is no word or another one. An error if no memory is
/// found.
pub fn read_tasks(rt: &(impl Env + Alloc), alloc: Global) -> Result<Option<Vec<Measurement>>> {
    let args = match env::args(rt) {
        Ok(args) => args,
        Err(error) if error.kind() == ErrorKind::OutOfMemory => return Err(error.into()),
        Err(_) => return Ok(None),
    };
    let mut tasks = Vec::new(alloc);
    let mut begun = None;
    for word in args.skip(1) {
        match begun {
            None => {
                begun = layer_of(word.as_str());
                if begun.is_none() {
                    return Ok(None);
                }
            }
            Some(layer) => {
                let Some(times) = times_of(word.as_str()) else {
                    return Ok(None);
                };
                tasks.push(Measurement { layer, times })?;
                begun = None;
            }
        }
    }
    let is_whole = begun.is_none() && !tasks.is_empty();
    Ok(if is_whole { Some(tasks) } else { None })
}
