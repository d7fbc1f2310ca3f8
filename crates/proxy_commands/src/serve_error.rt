//! Why `serve` ends though nobody stopped it.

ghost use Rattle.std.specs.Prelude.{◌≡◌, ◌++◌, OnOk};
ghost use Rattle.std.specs.Io.KnownBytes.{Appends};
ghost use Rattle.proxy_commands.specs.ServeErrors.{line_end, serve_error_text, serve_status_of};

use crate::error::{Error, put};
use adapt_bytes::{Small, put_decimal};
use std::io::{self, Write};

/// Why `serve` ends though nobody stopped it, or without its audit, and why `check`, `tell` and `probe` fail: its line on
/// standard error, and its exit status.
#[derive(Drop)]
pub enum ServeError {
    /// What any command may end with.
    Ended(Error),
    /// The file of this path can't be read.
    CannotRead(String),
    /// The configuration is no TOML, or no UTF-8.
    Config,
    /// This key of the configuration is missing, unknown, of another kind or out of its range.
    Key(String),
    /// In the file of this key this line, counted from 1, is the first that can't be read.
    KeyLine(String, u64),
    /// The system gives no poll, or fails a loop that listens.
    CannotListen,
    /// This address, an IPv4 address and its port as text, can't be listened on.
    CannotListenOn(String),
    /// The administrator's port doesn't answer.
    NoAnswer,
    /// A reservation or a lease was out that nobody gave back.
    AuditMissing,
}

impl ServeError {
    /// The exit status: 1 where the system failed, 2 where the configuration is at fault.
    pub fn status(&self) -> u8
        ensures { result ≡ serve_status_of self.now }
    {
        match self {
            ServeError::Ended(error) => error.status(),
            ServeError::Config | ServeError::Key(_) | ServeError::KeyLine(..) => 2,
            ServeError::CannotRead(_)
            | ServeError::CannotListen
            | ServeError::CannotListenOn(_)
            | ServeError::NoAnswer
            | ServeError::AuditMissing => 1,
        }
    }
}

/// The end of a line that names another one: ` line `, the number and LF.
fn line_end(number: u64) -> Small
    ensures { result.items ≡ line_end number }
{
    let mut text = Small::new();
    put(b" line ", &mut text);
    put_decimal(number, &mut text);
    put(b"\n", &mut text);
    text
}

/// Writes a name between words.
fn put_named<W: Write>(out: &mut W, before: &[u8], name: &[u8], after: &[u8]) -> io::Result<()>
    ensures { OnOk result (Appends (W.contents out.old) (W.contents out.new) ((before.now ++ name.now) ++ after.now)) }
{
    out.write_all(before)?;
    out.write_all(name)?;
    out.write_all(after)
}

/// Writes the line for standard error: `adaptproxy: `, the reason and LF.
pub fn put_error<W: Write>(error: &ServeError, errors: &mut W) -> io::Result<()>
    ensures { OnOk result (Appends (W.contents errors.old) (W.contents errors.new) (serve_error_text error.now)) }
{
    match error {
        ServeError::Ended(error) => errors.write_all(error.text().as_slice()),
        ServeError::Config => errors.write_all(b"adaptproxy: config\n"),
        ServeError::Key(key) => put_named(errors, b"adaptproxy: config ", key.as_bytes(), b"\n"),
        ServeError::KeyLine(key, number) => {
            put_named(
                errors,
                b"adaptproxy: config ",
                key.as_bytes(),
                line_end(*number).as_slice(),
            )
        }
        ServeError::CannotRead(path) => {
            put_named(errors, b"adaptproxy: cannot read: ", path.as_bytes(), b"\n")
        }
        ServeError::CannotListen => errors.write_all(b"adaptproxy: cannot listen\n"),
        ServeError::CannotListenOn(address) => {
            put_named(
                errors,
                b"adaptproxy: cannot listen: ",
                address.as_bytes(),
                b"\n",
            )
        }
        ServeError::NoAnswer => errors.write_all(b"adaptproxy: no answer\n"),
        ServeError::AuditMissing => errors.write_all(b"adaptproxy: audit missing\n"),
    }
}
