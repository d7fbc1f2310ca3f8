//! Why the program ends without an answer.

ghost use Rattle.std.specs.Prelude.{◌≡◌, ◌+◌, ◌≤◌, ◌++◌, length};
ghost use Rattle.adapt_bytes.specs.declared.limits.TheConstants.{MAX_SMALL};
ghost use Rattle.arrayvec.specs.ArrayVec.{array_vec_len};
ghost use Rattle.proxy_commands.specs.Errors.{error_text, status_of};

use adapt_bytes::{Small, put_decimal};

/// Why the program ends without an answer: its text on standard error, and its exit status.
#[derive(Clone, Copy)]
pub enum Error {
    /// The arguments name no command.
    Usage,
    /// Standard input couldn't be read.
    ReadFailed,
    /// Standard output couldn't be written.
    WriteFailed,
    /// Standard input, or the file of a configuration, has more bytes than `adapt_bytes::MAX_INPUT`.
    InputTooLong,
    /// This line of the script, counted from 1, is the first one of another form.
    Line { number: u64 },
    /// Memory ran out.
    NoMemory,
}

impl Error {
    /// The line for standard error: `adaptproxy: `, the reason and LF.
    pub fn text(self) -> Small
        ensures { result.items ≡ error_text self }
    {
        let mut text = Small::new();
        put(b"adaptproxy: ", &mut text);
        match self {
            Error::Usage => put(b"usage", &mut text),
            Error::ReadFailed => put(b"read failed", &mut text),
            Error::WriteFailed => put(b"write failed", &mut text),
            Error::InputTooLong => put(b"input too long", &mut text),
            Error::Line { number } => {
                put(b"line ", &mut text);
                put_decimal(number, &mut text);
            }
            Error::NoMemory => put(b"out of memory", &mut text),
        }
        put(b"\n", &mut text);
        text
    }

    /// The exit status: 1 where the system failed, 2 where the arguments or the input are at fault.
    pub fn status(self) -> u8
        ensures { result ≡ status_of self }
    {
        match self {
            Error::ReadFailed | Error::WriteFailed | Error::NoMemory => 1,
            Error::Usage | Error::InputTooLong | Error::Line { .. } => 2,
        }
    }
}

/// Adds bytes to a short text that has room for them.
pub fn put(bytes: &[u8], text: &mut Small)
    requires { array_vec_len text.old + length bytes.now ≤ MAX_SMALL }
    ensures items { text.new.items ≡ text.old.items ++ bytes.now }
    ensures len { array_vec_len text.new ≡ array_vec_len text.old + length bytes.now }
{
    match text.try_extend_from_slice(bytes) {
        Ok(()) => (),
        Err(_) => unreachable!(),
    }
}
