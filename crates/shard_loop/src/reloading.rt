//! The admin word `reload`: the configuration and its files are read again, and what can change while the proxy runs is taken over.

ghost use Rattle.std.specs.Prelude.{◌≡◌, ◌↔◌, IsNone, IfSome};

use crate::replaced::Replaced;
use event_loop::LiveConfig;
use proxy_commands::{Source, reload};
use proxy_config::Config;
use shard_desk::Shares;
use shard_report::{Append, change_capacity};
use span_bank::{CapacityFault, MAX_CAPACITY};
use std::alloc::{AllocError, Global};
use std::fs::File;
use std::io;
use std::sync::{Arc, Wait};

/// Reads a configuration anew. The system's runtime does.
pub trait Reloads {
    /// The configuration that its source says now, with what its files say, and how many names its hosts file has; or why it can't take the
    /// place of the old one, as [`reload`](proxy_commands::reload) answers it.
    fn reload(
        &self,
        alloc: Global,
        source: &Source,
        old: &Config,
    ) -> Result<(Config, u64), Vec<u8>>;
}

impl Reloads for HostRuntime {
    fn reload(
        &self,
        alloc: Global,
        source: &Source,
        old: &Config,
    ) -> Result<(Config, u64), Vec<u8>> {
        reload(self, alloc, source, old)
    }
}

/// What became of a new capacity, as a line.
pub(crate) fn changed_text(
    alloc: Global,
    changed: Result<(), CapacityFault>,
) -> Result<Vec<u8>, AllocError> {
    match changed {
        Ok(()) => b"ok\n".to_vec(alloc),
        Err(CapacityFault::TooLow { claimed }) => {
            let text = format!(in alloc; "refused {claimed}\n")?;
            Ok(text.into_bytes())
        }
        Err(CapacityFault::NoMemory) => b"out of memory\n".to_vec(alloc),
    }
}

/// What is answered once another configuration stands: with how many names its hosts file has, where it has one.
fn taken_text(alloc: Global, config: &Config, names: u64) -> Result<Vec<u8>, AllocError> {
    if config.hosts_file.is_none() {
        return b"ok\n".to_vec(alloc);
    }
    let text = format!(in alloc; "ok {names}\n")?;
    Ok(text.into_bytes())
}

/// The log's file, where another configuration names another one. `Err` where it can't be opened.
fn other_log<F: Append>(files: &F, old: &Config, new: &Config) -> io::Result<Option<File>> {
    match (&old.log, &new.log) {
        (Some(old), Some(new)) if old != new => Ok(Some(files.append(new.as_str())?)),
        _ => Ok(None),
    }
}

/// A number that takes the place of another one, where it is another one.
fn changed(old: u64, new: u64) -> Option<u64>
    ensures kept { IsNone result ↔ (old ≡ new) }
    ensures said { IfSome result (λ number. number ≡ new) }
{
    if old == new {
        return None;
    }
    Some(new)
}

/// The capacity that another configuration says, where it is another one: an administrator's own stays where it isn't.
fn other_capacity(old: &Config, new: &Config) -> Option<u64>
    ensures kept { IsNone result ↔ (old.now.capacity ≡ new.now.capacity) }
    ensures said { IfSome result (λ capacity. capacity ≡ new.now.capacity) }
{
    changed(old.capacity, new.capacity)
}

/// Whether more bytes are reserved than this capacity has: how many they are then.
fn reserved_over<S: Shares, R: Wait>(rt: &R, shared: &S, capacity: u64) -> Option<u64> {
    let claimed = shared.bank().book(rt, None).claimed;
    if claimed > capacity {
        Some(claimed)
    } else {
        None
    }
}

/// Has the budget this capacity, if one is given.
fn resize<S: Shares, R: Wait>(
    rt: &R,
    shared: &S,
    capacity: Option<u64>,
) -> Result<(), CapacityFault> {
    let Some(capacity) = capacity else {
        return Ok(());
    };
    let size = capacity.max(1).min(MAX_CAPACITY);
    change_capacity(rt, shared.bank(), shared.log(), size)
}

/// Takes another configuration over, and says so; or why not: then nothing has changed. The old one is put to those that were replaced.
fn take_over<S: Shares, F: Append, R: Wait>(
    rt: &R,
    alloc: Global,
    shared: &mut S,
    live: &LiveConfig,
    replaced: &mut Replaced,
    files: &F,
    new: (Config, u64),
) -> Result<Vec<u8>, AllocError> {
    let (config, names) = new;
    let config = Arc::new(alloc, config)?;
    let capacity = other_capacity(shared.config(), &config);
    if let Some(capacity) = capacity
        && let Some(claimed) = reserved_over(rt, shared, capacity)
    {
        return changed_text(alloc, Err(CapacityFault::TooLow { claimed }));
    }
    let Ok(log) = other_log(files, shared.config(), &config) else {
        return b"config log\n".to_vec(alloc);
    };
    let text = taken_text(alloc, &config, names)?;
    replaced.reserve()?;
    if let Err(fault) = resize(rt, shared, capacity) {
        return changed_text(alloc, Err(fault));
    }
    if let Some(file) = log {
        shared.log().change(rt, file);
    }
    replaced.put(live.change(rt, config));
    shared.take_up(rt, 0, false);
    Ok(text)
}

/// What isn't taken over, as a line. `Err` where there was no memory to say it.
fn line_of(said: Vec<u8>) -> Result<Vec<u8>, AllocError> {
    if said.is_empty() {
        return Err(AllocError);
    }
    let mut line = said;
    line.push(b'\n')?;
    Ok(line)
}

/// Reads the configuration and its files again, takes over what can change, and answers what became of that. Where it can't be read, or
/// needs a start, nothing has changed.
pub(crate) fn reload_from<S: Shares, F: Append + Reloads, R: Wait>(
    rt: &R,
    alloc: Global,
    shared: &mut S,
    live: &LiveConfig,
    replaced: &mut Replaced,
    source: &Source,
    files: &F,
) -> Result<Vec<u8>, AllocError> {
    match files.reload(alloc, source, shared.config()) {
        Ok(new) => take_over(rt, alloc, shared, live, replaced, files, new),
        Err(line) => line_of(line),
    }
}
