//! A configuration with the files that it names: its hosts file, and the pages of its refusals.

ghost use Rattle.std.specs.Prelude.{◌≡◌, ◌<◌, ◌^◌, ℕ, ◌⊎◌, IfOk, IfErr, OnOk};
ghost use Rattle.proxy_commands.specs.Whole.{EndsAs, HasFiles, HasNames, HasPages, IsHostsFault, IsOfKey, IsPageFault, IsRefused, IsWhole, IsWholeFault, Lacks};
ghost use Rattle.proxy_commands.specs.declared.whole.WholeFault.TheVariants.{NoMemory as NothingLeft};

use crate::error::Error;
use crate::serve::configuration_of;
use crate::serve_error::ServeError;
use crate::source::open_regular;
use proxy_config::{Config, HostsFault, MAX_PAGE, OWN_STATUSES, Pages};
use std::alloc::Global;
use std::io::{self, ErrorKind, Read};
use std::rt::Files;

/// The most bytes of a hosts file.
const MAX_HOSTS_FILE: usize = 67_108_864;

/// Why a text and the files that it names are no configuration.
#[derive(Drop)]
pub(crate) enum WholeFault {
    /// The text is none.
    Refused(ServeError),
    /// The hosts file can't be read, or is too long; in a reload also: the source can't be read.
    Hosts,
    /// This line of the hosts file, counted from 1, can't be read.
    HostsLine(u64),
    /// A page can't be read, or is too long.
    Page,
    /// Memory ran out.
    NoMemory,
}

/// The fault of a file that can't be read: the one that is given, unless memory ran out.
fn file_fault(error: &io::Error, other: WholeFault) -> WholeFault
    ensures { (result ≡ other) ⊎ (result ≡ NothingLeft) }
{
    if error.kind() == ErrorKind::OutOfMemory {
        WholeFault::NoMemory
    } else {
        other
    }
}

/// Reads a file of at most so many bytes. `InvalidData` for a longer one.
fn read_short<F: Read + Drop>(alloc: Global, file: F, most: usize) -> io::Result<Vec<u8>>
    requires { most < 2 ^ 32 }
{
    let mut text = Vec::new(alloc);
    file.take(most as u64 + 1).read_to_end(&mut text)?;
    if text.len() > most {
        return Err(io::Error::from(ErrorKind::InvalidData));
    }
    Ok(text)
}

/// Reads the text of a hosts file.
fn read_hosts_file<R: Files>(rt: &R, alloc: Global, path: &str) -> io::Result<Vec<u8>> {
    read_short(alloc, open_regular(rt, path)?, MAX_HOSTS_FILE)
}

/// Reads the hosts file, where there is one, and answers how many names it has.
fn take_hosts<R: Files>(rt: &R, alloc: Global, config: &mut Config) -> Result<u64, WholeFault>
    ensures ok { IfOk result (HasNames config.old.hosts_file config.old config.new) }
    ensures err { IfErr result (λ fault. IsHostsFault fault config.old.hosts_file) }
{
    let Some(path) = &config.hosts_file else {
        return Ok(0);
    };
    let text = match read_hosts_file(rt, alloc, path.as_str()) {
        Ok(text) => text,
        Err(error) => return Err(file_fault(&error, WholeFault::Hosts)),
    };
    match config.name_hosts(alloc, &text) {
        Ok(count) => Ok(count),
        Err(HostsFault::Line(number)) => Err(WholeFault::HostsLine(number)),
        Err(HostsFault::NoMemory) => Err(WholeFault::NoMemory),
    }
}

/// Reads the page of a status. `None` where its file isn't there.
fn read_page<R: Files>(
    rt: &R,
    alloc: Global,
    folder: &str,
    status: u16,
) -> io::Result<Option<Vec<u8>>> {
    let path = format!(in alloc; "{folder}/{status}.html")?;
    match open_regular(rt, path.as_str()) {
        Ok(file) => Ok(Some(read_short(alloc, file, MAX_PAGE)?)),
        Err(error) if error.kind() == ErrorKind::NotFound => Ok(None),
        Err(error) => Err(error),
    }
}

/// Reads the pages of a folder, each in the place of the one of its status.
fn read_pages<R: Files>(rt: &R, alloc: Global, folder: &str, pages: &mut Pages) -> io::Result<()> {
    for status in OWN_STATUSES {
        if let Some(page) = read_page(rt, alloc, folder, status)? {
            pages.set(status, page);
        }
    }
    Ok(())
}

/// Reads the pages of refusals, where there are some.
fn take_pages<R: Files>(rt: &R, alloc: Global, config: &mut Config) -> Result<(), WholeFault>
    ensures ok { OnOk result (HasPages config.old.refusal_pages config.old config.new) }
    ensures err { IfErr result (λ fault. IsPageFault fault config.old.refusal_pages) }
{
    let Some(folder) = &config.refusal_pages else {
        return Ok(());
    };
    match read_pages(rt, alloc, folder.as_str(), &mut config.pages) {
        Ok(()) => Ok(()),
        Err(error) => Err(file_fault(&error, WholeFault::Page)),
    }
}

/// Reads the files that a configuration names, and answers how many names its hosts file has.
fn take_files<R: Files>(rt: &R, alloc: Global, config: &mut Config) -> Result<u64, WholeFault>
    ensures ok { IfOk result (HasFiles config.old config.new) }
    ensures err { IfErr result (Lacks config.old) }
{
    let count = take_hosts(rt, alloc, config)?;
    take_pages(rt, alloc, config)?;
    Ok(count)
}

/// A configuration with the files that it names, and how many names its hosts file has.
fn with_files<R: Files>(
    rt: &R,
    alloc: Global,
    mut config: Config,
) -> Result<(Config, u64), WholeFault>
    ensures ok { IfOk result (λ whole. HasFiles config whole.0 whole.1) }
    ensures err { IfErr result (Lacks config) }
{
    match take_files(rt, alloc, &mut config) {
        Ok(count) => Ok((config, count)),
        Err(fault) => {
            // Written as a call, the drop is proved once, and not at each place.
            drop(config);
            Err(fault)
        }
    }
}

/// The configuration that a text says, with the files that it names, and how many names its hosts file has.
pub(crate) fn whole_of<R: Files>(
    rt: &R,
    alloc: Global,
    text: &[u8],
) -> Result<(Config, u64), WholeFault>
    ensures ok { IfOk result (λ whole. IsWhole text.now whole.0 whole.1) }
    ensures err { IfErr result (IsWholeFault text.now) }
{
    match configuration_of(alloc, text) {
        Ok(config) => with_files(rt, alloc, config),
        Err(error) => Err(WholeFault::Refused(error)),
    }
}

/// The error of a key.
fn key_error(alloc: Global, key: &str) -> ServeError
    ensures { IsOfKey key.now result }
{
    match String::from_str(alloc, key) {
        Ok(key) => ServeError::Key(key),
        Err(_) => ServeError::Ended(Error::NoMemory),
    }
}

/// The error that a fault ends the program with.
fn error_of_whole(alloc: Global, fault: WholeFault) -> ServeError
    ensures { EndsAs fault result }
{
    match fault {
        WholeFault::Refused(error) => error,
        WholeFault::Hosts => key_error(alloc, "hosts_file"),
        WholeFault::HostsLine(number) => match String::from_str(alloc, "hosts_file") {
            Ok(key) => ServeError::KeyLine(key, number),
            Err(_) => ServeError::Ended(Error::NoMemory),
        },
        WholeFault::Page => key_error(alloc, "refusal_pages"),
        WholeFault::NoMemory => ServeError::Ended(Error::NoMemory),
    }
}

/// The configuration that a text says, with the names of its hosts file and the pages of its refusals.
///
/// `KeyLine` with the first line of the hosts file that can't be read; `Key` where that file can't be or is too long, or a page
/// can't be, or is longer than [`MAX_PAGE`]. A page that isn't there is no fault. Else as [`configuration_of`].
pub fn read_whole<R: Files>(rt: &R, alloc: Global, text: &[u8]) -> Result<Config, ServeError>
    ensures ok { IfOk result (λ config. (count : ℕ) × IsWhole text.now config count) }
    ensures err { IfErr result (IsRefused text.now) }
{
    match whole_of(rt, alloc, text) {
        Ok((config, _)) => Ok(config),
        Err(fault) => Err(error_of_whole(alloc, fault)),
    }
}
