//! What a programmer is told of faults.
use std::fmt::Display;
use test_rows::{NoMemory, put_line};

/// Adds what a programmer is told of a fault.
pub fn put_told(out: &mut Vec<u8>, fault: &impl Display) -> Result<(), NoMemory> {
    let text = format!(in *out.allocator(); "{fault}")?;
    put_line(out, text.as_bytes())
}
