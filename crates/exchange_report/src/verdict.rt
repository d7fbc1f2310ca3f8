//! What became of a message at one point, the request's or the response's.

ghost use Rattle.std.specs.Prelude.{◌≡◌, ◌++◌, OnOk};
ghost use Rattle.exchange_report.specs.Entry.{reply_word, verdict_text};

use std::alloc::AllocError;

/// The final reply of a service to a message.
#[derive(Clone, Copy)]
pub enum Reply {
    /// The message didn't come so far, or no reply came.
    Missing,
    /// The message isn't offered to a service.
    Plain,
    /// The message goes on as it is: 204.
    Unchanged,
    /// Another message goes on: 200.
    Changed,
}

/// What became of a message at its point.
#[derive(Clone, Copy)]
pub struct Verdict {
    /// Its request was sent anew, on a fresh connection.
    pub retried: bool,
    /// The service asked for more than the preview: 100.
    pub continued: bool,
    pub reply: Reply,
}

impl Reply {
    /// The word for it.
    pub fn word(self) -> &'static [u8]
        ensures { result.now ≡ reply_word self }
    {
        match self {
            Reply::Missing => b"-",
            Reply::Plain => b"plain",
            Reply::Unchanged => b"204",
            Reply::Changed => b"200",
        }
    }
}

impl Verdict {
    /// Before a message.
    pub const NONE: Verdict = Verdict {
        retried: false,
        continued: false,
        reply: Reply::Missing,
    };
}

/// Adds a verdict, as `retry+100+204`.
pub(crate) fn write_verdict(out: &mut Vec<u8>, verdict: Verdict) -> Result<(), AllocError>
    ensures { OnOk result (out.new.items ≡ out.old.items ++ verdict_text verdict) }
{
    if verdict.retried {
        out.extend_from_slice(b"retry+")?;
    }
    if verdict.continued {
        out.extend_from_slice(b"100+")?;
    }
    out.extend_from_slice(verdict.reply.word())
}
