//! What arguments ask for.
use proxy_commands::{config_path, read_task, words_after};
use std::alloc::Global;
use std::fmt::Debug;
use test_rows::{NoMemory, Row, put_line, put_shown, says, words_of};

/// The row's arguments, between which one space stands; none where the row has no such key.
pub fn arguments_of(alloc: Global, row: &Row<'_>) -> Result<Vec<String>, NoMemory> {
    let mut args = Vec::new(alloc);
    if !row.has(b"arguments") {
        return Ok(args);
    }
    for word in words_of(row.get(b"arguments")) {
        let text = std::str::from_utf8(word).unwrap_or("");
        args.push(String::from_str(alloc, text)?)?;
    }
    Ok(args)
}

/// Adds what the arguments ask for.
fn put_asked<T: Debug + Copy>(out: &mut Vec<u8>, asked: Option<T>) -> Result<(), NoMemory> {
    match asked {
        Some(asked) => put_shown(out, b"asks", &asked),
        None => put_line(out, b"asks nothing"),
    }
}

/// Adds the path of the configuration, where the arguments give one, and the words after it.
fn put_path(out: &mut Vec<u8>, args: &[String]) -> Result<(), NoMemory> {
    let Some(path) = config_path(args) else {
        return Ok(());
    };
    out.extend_from_slice(b"configuration ")?;
    put_line(out, path.as_bytes())?;
    for word in words_after(args) {
        out.extend_from_slice(b"word ")?;
        put_line(out, word.as_bytes())?;
    }
    Ok(())
}

/// Adds the answer to a row of these calls; nothing for another one.
pub fn put_answer(
    alloc: Global,
    call: &[u8],
    row: &Row<'_>,
    out: &mut Vec<u8>,
) -> Result<(), NoMemory> {
    if says(call, b"adaptproxy") {
        let args = arguments_of(alloc, row)?;
        put_asked(out, read_task(&args))?;
        put_path(out, &args)
    } else if says(call, b"icapd") {
        put_asked(
            out,
            icapd_commands::read_command(&arguments_of(alloc, row)?),
        )
    } else {
        Ok(())
    }
}
