//! `icapd once`: standard input is one connection's bytes.
ghost use Rattle.std.specs.Prelude.{◌≡◌, ◌+◌, ◌≢◌, ◌⊎◌, IfOk, IfErr, IfSome, OnOk, take};
ghost use Rattle.adapt_bytes.specs.declared.limits.TheConstants.{MAX_INPUT};
ghost use Rattle.icap_server.specs.Connection.{AnswersAll};
ghost use Rattle.icapd_commands.specs.Once.{default_shown};
ghost use Rattle.icap_services.specs.Texts.{shown};

use crate::config::{DEFAULT_MAX, DEFAULT_PREVIEW, DEFAULT_TAG, DEFAULT_TTL};
use crate::error::IcapdError;
use adapt_bytes::MAX_INPUT;
use icap_server::{NoMemory, ServeFault, Settings, serve};
use std::alloc::Global;
use std::io::{self, ErrorKind, Read, Write};

/// The error that a failed read ends the program with: want of memory, or a failed read.
fn read_error(error: &io::Error) -> IcapdError
    ensures { (result ≡ IcapdError.NoMemory) ⊎ (result ≡ IcapdError.ReadFailed) }
{
    if error.kind() == ErrorKind::OutOfMemory {
        IcapdError::NoMemory
    } else {
        IcapdError::ReadFailed
    }
}

/// Reads to the end, but no more than one byte past [`MAX_INPUT`].
pub fn read_input<R: Read + Drop>(alloc: Global, reader: R) -> Result<Vec<u8>, IcapdError>
    ensures read { IfOk result (λ input. IfSome (R.remaining reader) (λ bytes. input.items ≡ take (MAX_INPUT + 1) bytes)) }
    ensures failed { IfErr result (λ error. (error ≡ IcapdError.NoMemory) ⊎ (error ≡ IcapdError.ReadFailed)) }
{
    let mut input = Vec::new(alloc);
    match reader.take(MAX_INPUT as u64 + 1).read_to_end(&mut input) {
        Ok(_) => Ok(input),
        Err(error) => Err(read_error(&error)),
    }
}

/// What answers say of the server if nothing is configured.
fn default_settings(alloc: Global) -> Result<Settings, NoMemory>
    ensures { IfOk result (λ settings. shown settings ≡ default_shown) }
{
    Ok(Settings {
        istag: DEFAULT_TAG.to_vec(alloc)?,
        max: DEFAULT_MAX,
        ttl: DEFAULT_TTL,
        preview: DEFAULT_PREVIEW,
    })
}

/// Serves the reader's bytes as one connection, with the default settings: writes the answers to all of them, or those up to
/// an error that was answered.
///
/// `ReadFailed` and `WriteFailed` where the reader or the writer fails; `NoMemory` where memory ran out.
pub fn once<R: Read + Drop, W: Write>(
    alloc: Global,
    mut reader: R,
    writer: &mut W,
) -> Result<(), IcapdError>
    ensures all { OnOk result (AnswersAll default_shown (R.remaining reader) (W.contents writer.old) (W.contents writer.new)) }
    ensures failed { IfErr result (λ error. (error ≡ IcapdError.NoMemory) ⊎ (error ≡ IcapdError.ReadFailed) ⊎ (error ≡ IcapdError.WriteFailed)) }
{
    let Ok(settings) = default_settings(alloc) else {
        return Err(IcapdError::NoMemory);
    };
    match serve(alloc, settings, &mut reader, writer) {
        Ok(()) => Ok(()),
        Err(ServeFault::Read) => Err(IcapdError::ReadFailed),
        Err(ServeFault::Write) => Err(IcapdError::WriteFailed),
        Err(ServeFault::NoMemory) => Err(IcapdError::NoMemory),
    }
}
