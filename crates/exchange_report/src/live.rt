//! The line of an exchange that isn't over.

ghost use Rattle.std.specs.Prelude.{◌≡◌, ◌++◌, ◌≤◌, OnOk, length};
ghost use Rattle.adapt_bytes.specs.Numeral.{numeral};
ghost use Rattle.exchange_report.specs.Live.{age_text, waits_text, still_text, standing_text, asked_text, held_text, counts_text, request_words, live_text};

use crate::awaited::{Awaited, point_word};
use crate::entry::{Address, write_user};
use crate::exchange_id::{ExchangeId, write_id};
use crate::script::write_range;
use crate::words::{MAX_METHOD, MAX_TARGET, write_field, write_number};
use std::alloc::AllocError;
use trace_core::Point;

/// An exchange that isn't over, and how its message stands.
#[derive(Clone, Copy)]
pub struct Live<'a> {
    pub id: ExchangeId,
    /// Seconds since the head of its request was read.
    pub age: u64,
    pub point: Point,
    pub awaited: Awaited,
    /// Seconds since anything moved.
    pub still: u64,
    /// The offsets of the original body that are held, the second one not among them.
    pub held: (u64, u64),
    /// The offsets of the adapted body that are held.
    pub adapted: (u64, u64),
    /// Body bytes that came from the source.
    pub received: u64,
    /// Body bytes that went to the service.
    pub sent: u64,
    /// Bytes of the adapted body that came.
    pub adapted_received: u64,
    /// Body bytes that went to the next hop.
    pub delivered: u64,
    /// Bytes that are reserved for it.
    pub claim: u64,
    /// Where the user is; none where nobody knows.
    pub user: Option<Address>,
    pub method: &'a [u8],
    pub target: &'a [u8],
}

/// Adds words and a number.
fn write_count(out: &mut Vec<u8>, words: &[u8], n: u64) -> Result<(), AllocError>
    ensures { OnOk result (out.new.items ≡ out.old.items ++ words.now ++ numeral 10 n) }
{
    out.extend_from_slice(words)?;
    write_number(out, n)
}

/// Adds whose line it is, and how old the exchange is.
fn write_age(out: &mut Vec<u8>, live: &Live<'_>) -> Result<(), AllocError>
    ensures { OnOk result (out.new.items ≡ out.old.items ++ age_text live.now) }
{
    write_id(out, live.id)?;
    write_count(out, b" ", live.age)?;
    out.extend_from_slice(b"s ")
}

/// Adds what it waits for.
fn write_waits(out: &mut Vec<u8>, live: &Live<'_>) -> Result<(), AllocError>
    ensures { OnOk result (out.new.items ≡ out.old.items ++ waits_text live.now) }
{
    out.extend_from_slice(point_word(live.point))?;
    out.extend_from_slice(b" waits-for ")?;
    out.extend_from_slice(live.awaited.word())
}

/// Adds since when nothing has moved.
fn write_still(out: &mut Vec<u8>, live: &Live<'_>) -> Result<(), AllocError>
    ensures { OnOk result (out.new.items ≡ out.old.items ++ still_text live.now) }
{
    write_count(out, b" ", live.still)?;
    out.extend_from_slice(b"s")
}

/// Adds the fields up to the held places.
fn write_standing(out: &mut Vec<u8>, live: &Live<'_>) -> Result<(), AllocError>
    ensures { OnOk result (out.new.items ≡ out.old.items ++ standing_text live.now) }
{
    write_age(out, live)?;
    write_waits(out, live)?;
    write_still(out, live)
}

/// Adds the places of both bodies that are held.
fn write_held(out: &mut Vec<u8>, live: &Live<'_>) -> Result<(), AllocError>
    ensures { OnOk result (out.new.items ≡ out.old.items ++ held_text live.now) }
{
    out.extend_from_slice(b" held ")?;
    write_range(out, live.held)?;
    out.extend_from_slice(b" adapted ")?;
    write_range(out, live.adapted)
}

/// Adds the body bytes that came and went at each side, and the bytes that are reserved.
fn write_counts(out: &mut Vec<u8>, live: &Live<'_>) -> Result<(), AllocError>
    ensures { OnOk result (out.new.items ≡ out.old.items ++ counts_text live.now) }
{
    write_count(out, b" in ", live.received)?;
    write_count(out, b" svc ", live.sent)?;
    write_count(out, b" ad ", live.adapted_received)?;
    write_count(out, b" usr ", live.delivered)?;
    write_count(out, b" claim ", live.claim)
}

/// Adds a method and a target, each as one word of the log.
pub(crate) fn write_request_words(
    out: &mut Vec<u8>,
    method: &[u8],
    target: &[u8],
) -> Result<(), AllocError>
    ensures { OnOk result (out.new.items ≡ out.old.items ++ request_words method.now target.now) }
{
    write_field(out, MAX_METHOD, method)?;
    write_field(out, MAX_TARGET, target)
}

/// Adds the user and what it asked for, with the end of the line.
fn write_asked(out: &mut Vec<u8>, live: &Live<'_>) -> Result<(), AllocError>
    ensures { OnOk result (out.new.items ≡ out.old.items ++ asked_text live.now) }
{
    out.extend_from_slice(b" ")?;
    write_user(out, live.user)?;
    write_request_words(out, live.method, live.target)?;
    out.extend_from_slice(b"\n")
}

/// Adds the line of an exchange that isn't over, with its end. `Err` where no memory was found for it: then a part of it may be there.
pub fn write_live(out: &mut Vec<u8>, live: &Live<'_>) -> Result<(), AllocError>
    ensures { OnOk result (out.new.items ≡ out.old.items ++ live_text live.now) }
{
    write_standing(out, live)?;
    write_held(out, live)?;
    write_counts(out, live)?;
    write_asked(out, live)
}

/// The most bytes of a line without its method and its target: fourteen numbers, an address and the words between.
const MOST_FIXED: usize = 512;

/// No fewer bytes than the line has, so that whoever has no room for it needn't begin it.
pub fn live_room(live: &Live<'_>) -> usize
    ensures { length (live_text live.now) ≤ result }
{
    // For the proof alone: its numbers have 64 bits.
    let _age = live.age;
    let method = live.method.len().min(MAX_METHOD);
    let target = live.target.len().min(MAX_TARGET);
    MOST_FIXED + 3 * method + 3 * target
}
