//! The script of an exchange: its history after comments that say whose it is.

ghost use Rattle.std.specs.Prelude.{◌≡◌, ◌++◌, OnOk};
ghost use Rattle.exchange_report.specs.Live.{moment_comments, request_comment, caption_text, exchange_script};

use crate::awaited::point_word;
use crate::entry::write_moment;
use crate::exchange_id::{ExchangeId, write_id};
use crate::live::write_request_words;
use crate::script::{write_history, write_needs};
use std::alloc::AllocError;
use trace_core::{Point, State};

/// Whose script it is.
#[derive(Clone, Copy)]
pub struct Caption<'a> {
    pub id: ExchangeId,
    /// When it is written, in milliseconds since the beginning of 1970.
    pub at: u64,
    pub method: &'a [u8],
    pub target: &'a [u8],
}

/// Adds comments on whose script it is and when it was written.
fn write_moment_comments(out: &mut Vec<u8>, caption: &Caption<'_>) -> Result<(), AllocError>
    ensures { OnOk result (out.new.items ≡ out.old.items ++ moment_comments caption.now) }
{
    out.extend_from_slice(b"# exchange ")?;
    write_id(out, caption.id)?;
    out.extend_from_slice(b"\n# at ")?;
    write_moment(out, caption.at)?;
    out.extend_from_slice(b"\n")
}

/// Adds a comment on its point and its request.
fn write_request_comment(
    out: &mut Vec<u8>,
    caption: &Caption<'_>,
    point: Point,
) -> Result<(), AllocError>
    ensures { OnOk result (out.new.items ≡ out.old.items ++ request_comment caption.now point) }
{
    out.extend_from_slice(b"# ")?;
    out.extend_from_slice(point_word(point))?;
    write_request_words(out, caption.method, caption.target)?;
    out.extend_from_slice(b"\n")
}

/// Adds those comments.
#[tactic(auto, unfolding(crate::specs::Live::caption_text))]
fn write_caption(out: &mut Vec<u8>, caption: &Caption<'_>, point: Point) -> Result<(), AllocError>
    ensures { OnOk result (out.new.items ≡ out.old.items ++ caption_text caption.now point) }
{
    write_moment_comments(out, caption)?;
    write_request_comment(out, caption, point)
}

/// Adds the script of a transaction: comments that say whose it is, its history, and a question for the first and for the last byte that
/// is held of each body. `adaptproxy trace` reads it. `Err` where no memory was found for it: then a part of it may be there.
pub fn write_script(
    out: &mut Vec<u8>,
    caption: &Caption<'_>,
    state: &State,
) -> Result<(), AllocError>
    ensures { OnOk result (out.new.items ≡ out.old.items ++ exchange_script caption.now state.now.plan state.now.events) }
{
    write_caption(out, caption, state.point())?;
    write_history(out, state.trace())?;
    write_needs(out, state)
}
