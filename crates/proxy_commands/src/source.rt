//! Where a configuration comes from: a file, or standard input.

ghost use Rattle.std.specs.Prelude.{◌≡◌, false, map, string_bytes, IfOk, IfErr};
ghost use Rattle.proxy_commands.specs.Reloads.{IsFile};
ghost use Rattle.proxy_commands.specs.Task.{config_path};
ghost use Rattle.proxy_commands.specs.Sources.{IsOfPath, IsSourceOf, IsUnread, Says};

use crate::error::Error;
use crate::run::{read_error, read_input};
use crate::serve_error::ServeError;
use crate::task::config_path;
use std::alloc::Global;
use std::fs::{self, File};
use std::io::{self, ErrorKind, Read};
use std::rt::Files;

/// Where a configuration comes from.
#[derive(Drop)]
pub enum Source {
    /// This file, which is read anew for each new configuration.
    Path(String),
    /// This text, all of standard input.
    Text(Vec<u8>),
}

/// Where the arguments say that the configuration comes from: the file after `--config`, else all that a reader has.
pub fn source_of<I: Read + Drop>(
    alloc: Global,
    args: &[String],
    reader: I,
) -> Result<Source, ServeError>
    ensures { IfOk result (IsSourceOf (config_path (map string_bytes args.now)) (I.remaining reader)) }
{
    if let Some(path) = config_path(args) {
        return match String::from_str(alloc, path) {
            Ok(path) => Ok(Source::Path(path)),
            Err(_) => Err(ServeError::Ended(Error::NoMemory)),
        };
    }
    match read_input(alloc, reader) {
        Ok(text) => Ok(Source::Text(text)),
        Err(error) => Err(ServeError::Ended(error)),
    }
}

/// Reads a file to its end, but no more than one byte past `adapt_bytes::MAX_INPUT`.
fn read_file<R: Files>(rt: &R, alloc: Global, path: &str) -> Result<Vec<u8>, Error> {
    match File::open(rt, path) {
        Ok(file) => read_input(alloc, file),
        Err(error) => Err(read_error(&error)),
    }
}

/// The error of a file that can't be read: it names the path, unless memory ran out.
fn path_error(alloc: Global, path: &str, error: Error) -> ServeError
    ensures { IsOfPath path.now result }
{
    if matches!(error, Error::NoMemory) {
        return ServeError::Ended(error);
    }
    match String::from_str(alloc, path) {
        Ok(path) => ServeError::CannotRead(path),
        Err(_) => ServeError::Ended(Error::NoMemory),
    }
}

/// The text of a configuration. `CannotRead` with the path of its file, where that can't be read.
pub fn read_source<R: Files>(rt: &R, alloc: Global, source: &Source) -> Result<Vec<u8>, ServeError>
    ensures text { IfOk result (λ text. Says source.now text.items) }
    ensures fault { IfErr result (IsUnread source.now) }
{
    match source {
        Source::Path(path) => match read_file(rt, alloc, path.as_str()) {
            Ok(text) => Ok(text),
            Err(error) => Err(path_error(alloc, path.as_str(), error)),
        },
        Source::Text(text) => match text.to_vec(alloc) {
            Ok(text) => Ok(text),
            Err(_) => Err(ServeError::Ended(Error::NoMemory)),
        },
    }
}

/// Whether a source can be read again without waiting for somebody: a file that is no regular one, as a FIFO, keeps its reader until
/// somebody writes to it.
pub(crate) fn comes_at_once<R: Files>(rt: &R, source: &Source) -> bool
    ensures { (result ≡ false) → IsFile source.now }
{
    match source {
        Source::Path(path) => is_regular(rt, path.as_str()),
        Source::Text(_) => true,
    }
}

/// Whether a path names a regular file.
fn is_regular<R: Files>(rt: &R, path: &str) -> bool {
    match fs::metadata(rt, path) {
        Ok(metadata) => metadata.is_file(),
        Err(_) => false,
    }
}

/// Opens a regular file to read it. `InvalidInput` for another one, which isn't waited for.
pub(crate) fn open_regular<R: Files>(rt: &R, path: &str) -> io::Result<R::File> {
    if !fs::metadata(rt, path)?.is_file() {
        return Err(io::Error::from(ErrorKind::InvalidInput));
    }
    File::open(rt, path)
}
