//! What `adaptproxy serve` reads, and how it prints a line.

ghost use Rattle.std.specs.Prelude.{◌≡◌, IfOk, IfErr, IfSome};
ghost use Rattle.proxy_commands.specs.Serve.{IsRefusedAs, IsConfigured, IsUnconfigured};

use crate::error::Error;
use crate::run::{read_input, write_out};
use crate::serve_error::ServeError;
use adapt_bytes::MAX_INPUT;
use proxy_config::{Config, ConfigFault, read_config};
use std::alloc::Global;
use std::io::{Read, Write};

/// The error of a configuration that is refused.
fn refused_as(fault: ConfigFault) -> ServeError
    ensures { IsRefusedAs fault result }
{
    match fault {
        ConfigFault::Text => ServeError::Config,
        ConfigFault::Key(key) => ServeError::Key(key),
        ConfigFault::NoMemory => ServeError::Ended(Error::NoMemory),
    }
}

/// The configuration that a text says.
pub fn configuration_of(alloc: Global, text: &[u8]) -> Result<Config, ServeError>
    ensures ok { IfOk result (IsConfigured text.now) }
    ensures err { IfErr result (IsUnconfigured text.now) }
{
    if text.len() > MAX_INPUT {
        return Err(ServeError::Ended(Error::InputTooLong));
    }
    match read_config(alloc, text) {
        Ok(config) => Ok(config),
        Err(fault) => Err(refused_as(fault)),
    }
}

/// Reads the configuration: all bytes of a reader.
///
/// `ReadFailed` where the reader fails; `InputTooLong` for more than [`MAX_INPUT`] bytes; `Config` for a text that is no
/// UTF-8 or no TOML; `Key` with the first key that is missing and has no default, of another kind, out of its range, or
/// unknown; `NoMemory` where memory ran out.
pub fn read_configuration<R: Read + Drop>(alloc: Global, reader: R) -> Result<Config, ServeError>
    ensures ok { IfOk result (λ config. IfSome (R.remaining reader) (λ bytes. IsConfigured bytes config)) }
    ensures err { IfErr result (λ error. IfSome (R.remaining reader) (λ bytes. IsUnconfigured bytes error)) }
{
    match read_input(alloc, reader) {
        Ok(input) => configuration_of(alloc, input.as_slice()),
        Err(error) => Err(ServeError::Ended(error)),
    }
}

/// Writes a line to standard output.
pub fn say<W: Write>(output: &mut W, line: &[u8]) -> Result<(), ServeError> {
    match write_out(output, line) {
        Ok(()) => Ok(()),
        Err(error) => Err(ServeError::Ended(error)),
    }
}
