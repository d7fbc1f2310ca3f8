//! All runs of a row.
use crate::answer::put_decimal;
use crate::scene::Scene;
use crate::values::{Counts, Values, values_at};
use std::alloc::{AllocError as NoMemory, Global};

/// What plays a row.
pub trait Player {
    /// Adds what a run of a row reports.
    fn put_run(&self, scene: Scene<'_>, values: Values, out: &mut Vec<u8>) -> Result<(), NoMemory>;
}

/// What was reported up to a place.
#[derive(Drop)]
struct Told {
    all: Vec<u8>,
    /// What the places from `first` to `last` report.
    lines: Vec<u8>,
    first: usize,
    last: usize,
}

impl Told {
    /// Adds the places with equal reports.
    fn close(&mut self) -> Result<(), NoMemory> {
        if self.lines.is_empty() {
            return Ok(());
        }
        self.all.extend_from_slice(b"n ")?;
        put_decimal(&mut self.all, self.first as u64)?;
        if self.last != self.first {
            self.all.extend_from_slice(b" to ")?;
            put_decimal(&mut self.all, self.last as u64)?;
        }
        self.all.extend_from_slice(b"\n")?;
        self.all.extend_from_slice(&self.lines)
    }

    /// Takes what the next place reports.
    fn take(&mut self, place: usize, lines: &[u8]) -> Result<(), NoMemory> {
        if self.lines.as_slice() != lines {
            self.close()?;
            self.lines.clear();
            self.lines.extend_from_slice(lines)?;
            self.first = place;
        }
        self.last = place;
        Ok(())
    }
}

/// What all places report for a choice of the other letters.
fn tell<P: Player>(
    alloc: Global,
    player: &P,
    scene: Scene<'_>,
    counts: Counts,
    choice: usize,
) -> Result<Vec<u8>, NoMemory> {
    let mut told = Told {
        all: Vec::new(alloc),
        lines: Vec::new(alloc),
        first: 0,
        last: 0,
    };
    let mut lines = Vec::new(alloc);
    for at in 0..counts.n {
        let values = values_at(scene, counts, choice, at);
        lines.clear();
        player.put_run(scene, values, &mut lines)?;
        told.take(values.n, &lines)?;
    }
    if !scene.has(b"n") {
        return Ok(lines);
    }
    told.close()?;
    Ok(told.all)
}

/// Adds what the runs of a row report: once, if all choices give equal reports.
pub fn put_runs<P: Player>(
    alloc: Global,
    player: &P,
    scene: Scene<'_>,
    out: &mut Vec<u8>,
) -> Result<(), NoMemory> {
    let counts = Counts::of(scene);
    let mut first = Vec::new(alloc);
    for choice in 0..counts.choices() {
        let next = tell(alloc, player, scene, counts, choice)?;
        if next.as_slice() != first.as_slice() {
            if !first.is_empty() {
                out.extend_from_slice(b"other letters tell otherwise:\n")?;
            }
            out.extend_from_slice(&next)?;
            first = next;
        }
    }
    Ok(())
}
