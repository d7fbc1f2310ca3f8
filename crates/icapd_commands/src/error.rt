//! Why the program ends without an answer.
ghost use Rattle.std.specs.Prelude.{◌≡◌, ◌++◌, OnOk, codes};
ghost use Rattle.std.specs.Io.KnownBytes.{Appends};
ghost use Rattle.icapd_commands.specs.Errors.{error_text, reason_text, key_text, status_of};

use std::io::{self, Write};

/// Why the program ends without an answer: its line on standard error, and its exit status.
#[derive(Drop)]
pub enum IcapdError {
    /// The arguments name no command.
    Usage,
    /// Standard input couldn't be read.
    ReadFailed,
    /// Standard output couldn't be written.
    WriteFailed,
    /// Standard input has more bytes than a configuration may have.
    InputTooLong,
    /// The configuration is no TOML, or no UTF-8.
    Config,
    /// This key of the configuration is missing, unknown, of another kind or out of its range.
    Key(Key),
    /// The address can't be listened on.
    CannotListen,
    /// Memory ran out.
    NoMemory,
}

/// A key of the configuration.
#[derive(Drop)]
pub enum Key {
    Listen,
    Istag,
    Max,
    Ttl,
    Preview,
    Deadline,
    /// Any other key.
    Unknown(String),
}

impl Key {
    /// The key as the configuration has it.
    pub fn text(&self) -> &[u8]
        ensures { result.now ≡ key_text self.now }
    {
        match self {
            Key::Listen => b"listen",
            Key::Istag => b"istag",
            Key::Max => b"max",
            Key::Ttl => b"ttl",
            Key::Preview => b"preview",
            Key::Deadline => b"deadline",
            Key::Unknown(key) => key.as_bytes(),
        }
    }
}

impl IcapdError {
    /// The reason, without a key.
    fn reason(&self) -> &'static [u8]
        ensures { result.now ≡ reason_text self.now }
    {
        match self {
            IcapdError::Usage => b"usage",
            IcapdError::ReadFailed => b"read failed",
            IcapdError::WriteFailed => b"write failed",
            IcapdError::InputTooLong => b"input too long",
            IcapdError::Config => b"config",
            IcapdError::Key(_) => b"config ",
            IcapdError::CannotListen => b"cannot listen",
            IcapdError::NoMemory => b"out of memory",
        }
    }

    /// The exit status: 1 where the system failed, 2 where the arguments or the input are at fault.
    pub fn status(&self) -> u8
        ensures { result ≡ status_of self.now }
    {
        match self {
            IcapdError::ReadFailed
            | IcapdError::WriteFailed
            | IcapdError::NoMemory
            | IcapdError::CannotListen => 1,
            IcapdError::Usage
            | IcapdError::InputTooLong
            | IcapdError::Config
            | IcapdError::Key(_) => 2,
        }
    }
}

/// Writes the line for standard error: `icapd: `, the reason and LF.
pub fn put_error<W: Write>(error: &IcapdError, errors: &mut W) -> io::Result<()>
    ensures { OnOk result (Appends (W.contents errors.old) (W.contents errors.new) (error_text error.now)) }
{
    errors.write_all(b"icapd: ")?;
    errors.write_all(error.reason())?;
    match error {
        IcapdError::Key(key) => errors.write_all(key.text())?,
        _ => {}
    }
    errors.write_all(b"\n")?;
    Ok(())
}
