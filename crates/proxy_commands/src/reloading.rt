//! A new configuration for a proxy that runs.

ghost use Rattle.std.specs.Prelude.{◌≡◌, ◌++◌, ◌⊎◌, ℕ, List, [], None, Some, codes, IfOk, IfErr, IfNone, IfSome};
ghost use Rattle.adapt_bytes.specs.Numeral.{numeral};
ghost use Rattle.proxy_config.specs.Changes.{fixed_rows, IsFirstChange};
ghost use Rattle.proxy_commands.specs.ServeErrors.{serve_error_text};
ghost use Rattle.proxy_commands.specs.Reloads.{Answers, IsNotTaken, IsReadFault, IsSourceFault, IsTaken, said_in};
ghost use Rattle.proxy_commands.specs.Sources.{Says};
ghost use Rattle.proxy_commands.specs.Whole.{IsWhole};
ghost use Rattle.proxy_commands.specs.declared.whole.WholeFault.TheVariants.{NoMemory as NothingLeft};

use crate::answers::write_after;
use crate::checking::has_room;
use crate::error::Error;
use crate::serve_error::{ServeError, put_error};
use crate::source::{Source, comes_at_once, read_source};
use crate::whole::{WholeFault, whole_of};
use proxy_config::{Config, fixed_change};
use std::alloc::{AllocError as NoMemory, Global};
use std::rt::Files;

/// The first words of a line on standard error.
const NAME: &[u8] = b"adaptproxy: ";

/// A line of the program without its name and the LF.
fn said_in(line: &[u8]) -> &[u8]
    ensures { result.now ≡ said_in line.now }
{
    let text = &line[..line.len().saturating_sub(1)];
    match text.get(NAME.len()..) {
        Some(said) => said,
        None => &[],
    }
}

/// What the line on standard error says of an error, without the program's name and the LF.
fn said_of(alloc: Global, error: &ServeError) -> Result<Vec<u8>, NoMemory>
    ensures { IfOk result (λ said. said.items ≡ said_in (serve_error_text error.now)) }
{
    let mut line = Vec::new(alloc);
    if put_error(error, &mut line).is_err() {
        return Err(NoMemory);
    }
    said_in(&line).to_vec(alloc)
}

/// What is said of a line of a hosts file that can't be read.
fn bad_line(alloc: Global, number: u64) -> Result<Vec<u8>, NoMemory>
    ensures { IfOk result (λ text. text.items ≡ codes "bad line " ++ numeral 10 number) }
{
    let mut text = Vec::new(alloc);
    write_after(&mut text, b"bad line ", number)?;
    Ok(text)
}

/// Why a new configuration isn't taken.
fn text_of(alloc: Global, fault: &WholeFault) -> Result<Vec<u8>, NoMemory>
    ensures { IfOk result (λ text. Answers fault.now text.items) }
{
    match fault {
        WholeFault::Refused(error) => said_of(alloc, error),
        WholeFault::Hosts => b"cannot open".to_vec(alloc),
        WholeFault::HostsLine(number) => bad_line(alloc, *number),
        WholeFault::Page => b"config refusal_pages".to_vec(alloc),
        WholeFault::NoMemory => b"out of memory".to_vec(alloc),
    }
}

/// The answer to a fault; empty where it finds no memory.
fn answer_of(alloc: Global, fault: &WholeFault) -> Vec<u8>
    ensures { (result.items ≡ []) ⊎ Answers fault.now result.items }
{
    match text_of(alloc, fault) {
        Ok(answer) => answer,
        Err(_) => Vec::new(alloc),
    }
}

/// What is said where this key differs.
fn restart_text(alloc: Global, key: &str) -> Result<Vec<u8>, NoMemory>
    ensures { IfOk result (λ text. text.items ≡ codes "restart " ++ key.now) }
{
    let mut text = b"restart ".to_vec(alloc)?;
    text.extend_from_slice(key.as_bytes())?;
    Ok(text)
}

/// The answer where a key changes that can't while the proxy runs; empty where it finds no memory.
fn restart_answer(alloc: Global, key: &str) -> Vec<u8>
    ensures { (result.items ≡ []) ⊎ (result.items ≡ codes "restart " ++ key.now) }
{
    match restart_text(alloc, key) {
        Ok(answer) => answer,
        Err(_) => Vec::new(alloc),
    }
}

/// The fault of a source that can't be read: like a hosts file, it can't be opened.
fn source_fault(error: &ServeError) -> WholeFault
    ensures { IsReadFault error.now result }
{
    match error {
        ServeError::Ended(Error::NoMemory) => WholeFault::NoMemory,
        _ => WholeFault::Hosts,
    }
}

/// The text of a source, which isn't waited for where it doesn't come at once.
fn read_anew<R: Files>(rt: &R, alloc: Global, source: &Source) -> Result<Vec<u8>, WholeFault>
    ensures text { IfOk result (λ text. Says source.now text.items) }
    ensures fault { IfErr result (IsSourceFault source.now) }
{
    if !comes_at_once(rt, source) {
        return Err(WholeFault::Hosts);
    }
    match read_source(rt, alloc, source) {
        Ok(text) => Ok(text),
        Err(error) => Err(source_fault(&error)),
    }
}

/// The configuration that a source says, with its files, and how many names its hosts file has.
fn whole_of_source<R: Files>(
    rt: &R,
    alloc: Global,
    source: &Source,
) -> Result<(Config, u64), WholeFault>
    ensures ok { IfOk result (λ whole. (text : List ℕ) × Says source.now text × IsWhole text whole.0 whole.1) }
    ensures err { IfErr result (IsSourceFault source.now) }
{
    match read_anew(rt, alloc, source) {
        Ok(text) => whole_of(rt, alloc, &text),
        Err(fault) => Err(fault),
    }
}

/// What is said where a proxy that runs can't take a configuration over: a key that can't change differs, or it needs more memory than the
/// machine has.
fn refusal<R: Files + AllocGlobal>(
    rt: &R,
    alloc: Global,
    old: &Config,
    new: &Config,
) -> Option<Vec<u8>>
    ensures none { IfNone result (IsFirstChange fixed_rows old.now new.now None) }
    ensures some { IfSome result (λ line. (line.items ≡ []) ⊎ Answers NothingLeft line.items
        ⊎ ((key : List ℕ) × IsFirstChange fixed_rows old.now new.now (Some key) × (line.items ≡ codes "restart " ++ key))) }
{
    if let Some(key) = fixed_change(old, new) {
        return Some(restart_answer(alloc, key));
    }
    if has_room(rt, new) {
        None
    } else {
        Some(answer_of(alloc, &WholeFault::NoMemory))
    }
}

/// Reads the configuration of a source anew, with its files, for a proxy that runs with another one. Answers it, and how many names
/// its hosts file has; or what is said of it, without LF, which is empty where no memory was found for that.
///
/// `cannot open` where the source or the hosts file can't be read; `bad line N` for the hosts file; `restart KEY` with the first key
/// that differs, and can't while the proxy runs; `out of memory` also where the machine lacks it for the pages; else what `check`
/// says: `config KEY`, `config` or `input too long`.
pub fn reload<R: Files + AllocGlobal>(
    rt: &R,
    alloc: Global,
    source: &Source,
    old: &Config,
) -> Result<(Config, u64), Vec<u8>>
    ensures taken { IfOk result (λ taken. IsTaken source.now old.now taken.0 taken.1) }
    ensures not_taken { IfErr result (λ line. IsNotTaken source.now old.now line.items) }
{
    match whole_of_source(rt, alloc, source) {
        Ok((config, count)) => match refusal(rt, alloc, old, &config) {
            None => Ok((config, count)),
            Some(line) => {
                // Written as a call, the drop is proved once, and not at each place.
                drop(config);
                Err(line)
            }
        },
        Err(fault) => Err(answer_of(alloc, &fault)),
    }
}
