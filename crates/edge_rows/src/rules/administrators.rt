//! What an administrator's lines ask, and how a connection carries them; requests for the counters over HTTP; and what is shown of the
//! exchanges of all threads.
use event_loop::{AdminInput, Asker, Sheet, Speech, read_request, shown};
use std::alloc::Global;
use test_rows::{NoMemory, Scene, Values, is, number, parts, put_flag, put_shown, wire, words_of};
use wire_kit::{Answer, MemoryWire};

/// No letter stands for a number here.
const VALUES: Values = Values {
    n: 0,
    m: 0,
    s: 0,
    e: Answer::Wait,
};

/// Adds what is heard until the connection is over, or `calls` times.
fn put_heard(
    asker: &mut Asker<MemoryWire>,
    calls: usize,
    out: &mut Vec<u8>,
) -> Result<(), NoMemory> {
    for _ in 0..calls {
        let heard = asker.hear()?;
        put_shown(out, b"heard", &heard)?;
        if matches!(
            heard,
            AdminInput::Over | AdminInput::Http | AdminInput::TooLong
        ) {
            return Ok(());
        }
    }
    Ok(())
}

/// Adds whether an answer can be said, and the rest of it be written by two more calls.
fn put_said(
    asker: &mut Asker<MemoryWire>,
    answer: &[u8],
    out: &mut Vec<u8>,
) -> Result<(), NoMemory> {
    put_flag(out, b"said", asker.say(answer)?)?;
    put_flag(out, b"written", asker.flush())?;
    put_flag(out, b"written", asker.flush())
}

/// Adds what the row's connection carries.
fn put_connection(alloc: Global, scene: Scene<'_>, out: &mut Vec<u8>) -> Result<(), NoMemory> {
    let wire = wire(alloc, scene, b"input", b"reads", b"writes", VALUES)?;
    let mut asker = Asker::new(alloc, wire, Speech::Lines);
    put_heard(&mut asker, scene.number_or(b"calls", VALUES, 1), out)?;
    if scene.has(b"answer") {
        put_said(&mut asker, scene.get(b"answer"), out)?;
    }
    Ok(())
}

/// Adds what a connection asks that speaks HTTP, and all that is written on it.
fn put_scrape(alloc: Global, scene: Scene<'_>, out: &mut Vec<u8>) -> Result<(), NoMemory> {
    let wire = wire(alloc, scene, b"input", b"reads", b"writes", VALUES)?;
    let mut asker = Asker::new(alloc, wire, Speech::Http);
    let heard = asker.hear()?;
    put_shown(out, b"heard", &heard)?;
    if let AdminInput::Asked(_) = heard {
        put_flag(out, b"said", asker.say(scene.get(b"answer"))?)?;
    }
    put_flag(out, b"written", asker.flush())?;
    put_shown(out, b"then", &asker.hear()?)?;
    match asker.said_all() {
        Some(wire) => {
            out.extend_from_slice(wire.taken())?;
            Ok(())
        }
        None => put_flag(out, b"said all", false),
    }
}

/// Writes on a sheet what a word says: a line, as `3=a`, that a user is `idle`, or that a line is too `long`.
fn write_word(sheet: &mut Sheet, word: &[u8]) -> Result<(), NoMemory> {
    if is(word, b"idle") {
        sheet.count_idle();
    } else if is(word, b"long") {
        let _ = sheet.begin_line(usize::MAX);
    } else if let Some((still, line)) = parts(word, b'=') {
        if let Some(text) = sheet.begin_line(line.len().saturating_add(1)) {
            text.extend_from_slice(line)?;
            text.extend_from_slice(b"\n")?;
            sheet.end_line(number(still).unwrap_or(0));
        }
    }
    Ok(())
}

/// Adds a thread, or has the last one write a word.
fn add_word(alloc: Global, sheets: &mut Vec<Option<Sheet>>, word: &[u8]) -> Result<(), NoMemory> {
    if is(word, b"thread") {
        sheets.push(Some(Sheet::new(alloc)?))?;
    } else if is(word, b"silent") {
        sheets.push(None)?;
    } else if let Some(Some(sheet)) = sheets.last_mut() {
        write_word(sheet, word)?;
    }
    Ok(())
}

/// Adds what the administrator gets to see of the row's threads.
fn put_overview(alloc: Global, scene: Scene<'_>, out: &mut Vec<u8>) -> Result<(), NoMemory> {
    let mut sheets = Vec::new(alloc);
    for word in words_of(scene.get(b"threads")) {
        add_word(alloc, &mut sheets, word)?;
    }
    let text = shown(alloc, sheets.as_slice(), scene.is(b"order", b"waiting"))?;
    out.extend_from_slice(text.as_slice())
}

/// Adds the answer to a row of these calls; nothing for another one.
pub fn put_answer(alloc: Global, scene: Scene<'_>, out: &mut Vec<u8>) -> Result<(), NoMemory> {
    if scene.is(b"call", b"line") {
        put_shown(out, b"asks", &read_request(scene.get(b"line")))
    } else if scene.is(b"call", b"connection") {
        put_connection(alloc, scene, out)
    } else if scene.is(b"call", b"scrape") {
        put_scrape(alloc, scene, out)
    } else if scene.is(b"call", b"overview") {
        put_overview(alloc, scene, out)
    } else {
        Ok(())
    }
}
