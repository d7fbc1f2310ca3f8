//! The log's line of an exchange: the fields of the native format of Squid's `access.log`, and those that it hasn't.

ghost use Rattle.std.specs.Prelude.{◌≡◌, ◌++◌, ◌<◌, OnOk};
ghost use Rattle.exchange_report.specs.Words.{word_of};
ghost use Rattle.exchange_report.specs.Entry.{address_text, moment_text, user_text, destination_text, tag_text, status_text, head_text, request_text, field_text, with_fields, fields_of, end_text, line_text};
ghost use Rattle.exchange_report.specs.Entry.Field.{Judged, Ended, Outside, Number, Optional};

use crate::verdict::{Verdict, write_verdict};
use crate::why::Why;
use crate::words::{
    MAX_FOUND, MAX_KIND, MAX_METHOD, MAX_TARGET, write_field, write_number, write_word,
};
use adapt_bytes::three_digits;
use std::alloc::AllocError;

/// Room for a line: each byte of a value from outside takes three at most, and all else far less than a kilobyte.
pub const LINE_ROOM: usize = 3 * (MAX_METHOD + MAX_TARGET + MAX_KIND + MAX_FOUND) + 1_024;

/// An IPv4 address.
#[derive(Clone, Copy)]
pub struct Address {
    pub first: u8,
    pub second: u8,
    pub third: u8,
    pub fourth: u8,
}

/// Where a request went.
#[derive(Clone, Copy)]
pub enum Destination {
    /// Straight to its origin, at this address.
    Origin(Address),
    /// To the parent, at this address.
    Parent(Address),
}

/// What became of an exchange, as fields say it that Squid's format hasn't.
#[derive(Clone, Copy)]
pub struct Summary {
    pub reqmod: Verdict,
    pub respmod: Verdict,
    pub why: Why,
    /// How many bytes of the request's body came.
    pub received: u64,
    /// The number in the page of the proxy's own answer; none where that has no page.
    pub refusal: Option<u64>,
}

impl Summary {
    /// Nothing became of it yet. If it ends so, its user is gone.
    pub const NONE: Summary = Summary {
        reqmod: Verdict::NONE,
        respmod: Verdict::NONE,
        why: Why::UserGone,
        received: 0,
        refusal: None,
    };
}

/// An exchange that is over: a user's request, and what went back.
///
/// ```
/// let entry = Entry {
///     ended: 1066036250603,
///     elapsed: 310,
///     user: Some(Address { first: 192, second: 0, third: 2, fourth: 7 }),
///     refused: false,
///     status: 200,
///     sent: 1015,
///     method: b"GET",
///     target: b"http://o.test/a b",
///     destination: None,
///     kind: b"text/html",
///     found: b"",
///     summary: Summary {
///         respmod: Verdict { retried: false, continued: true, reply: Reply::Unchanged },
///         why: Why::Served,
///         ..Summary::NONE
///     },
/// };
/// write_line(&mut out, &entry)?;
/// // 1066036250.603 310 192.0.2.7 TCP_MISS/200 1015 GET http://o.test/a%20b - HIER_NONE/- text/html
/// // reqmod=- respmod=100+204 why=- found=- in=0, in one line
/// ```
#[derive(Clone, Copy)]
pub struct Entry<'a> {
    /// The moment of its end, in milliseconds since the beginning of 1970.
    pub ended: u64,
    /// How many milliseconds it took.
    pub elapsed: u64,
    /// Where the user is; none where nobody knows.
    pub user: Option<Address>,
    /// Whether the answer was the proxy's own.
    pub refused: bool,
    /// The status of the answer; written with three digits.
    pub status: u16,
    /// How many bytes went to the user.
    pub sent: u64,
    pub method: &'a [u8],
    pub target: &'a [u8],
    /// Where the request went; none where it went nowhere.
    pub destination: Option<Destination>,
    /// The media type of the answer.
    pub kind: &'a [u8],
    /// What a service found in a message, as the name of a virus.
    pub found: &'a [u8],
    pub summary: Summary,
}

/// Adds an address, as `192.0.2.1`.
fn write_address(out: &mut Vec<u8>, address: Address) -> Result<(), AllocError>
    ensures { OnOk result (out.new.items ≡ out.old.items ++ address_text address) }
{
    write_number(out, u64::from(address.first))?;
    out.extend_from_slice(b".")?;
    write_number(out, u64::from(address.second))?;
    out.extend_from_slice(b".")?;
    write_number(out, u64::from(address.third))?;
    out.extend_from_slice(b".")?;
    write_number(out, u64::from(address.fourth))
}

/// Adds the user's address.
pub(crate) fn write_user(out: &mut Vec<u8>, user: Option<Address>) -> Result<(), AllocError>
    ensures { OnOk result (out.new.items ≡ out.old.items ++ user_text user) }
{
    match user {
        Some(address) => write_address(out, address),
        None => out.extend_from_slice(b"-"),
    }
}

/// Adds where the request went.
fn write_destination(out: &mut Vec<u8>, destination: Option<Destination>) -> Result<(), AllocError>
    ensures { OnOk result (out.new.items ≡ out.old.items ++ destination_text destination) }
{
    match destination {
        Some(Destination::Origin(address)) => {
            out.extend_from_slice(b"HIER_DIRECT/")?;
            write_address(out, address)
        }
        Some(Destination::Parent(address)) => {
            out.extend_from_slice(b"FIRSTUP_PARENT/")?;
            write_address(out, address)
        }
        None => out.extend_from_slice(b"HIER_NONE/-"),
    }
}

/// Whose answer it is.
fn tag(refused: bool) -> &'static [u8]
    ensures { result.now ≡ tag_text refused }
{
    if refused {
        b" TCP_DENIED/"
    } else {
        b" TCP_MISS/"
    }
}

/// Adds a status, with three digits.
fn write_status(out: &mut Vec<u8>, status: u16) -> Result<(), AllocError>
    ensures { OnOk result (out.new.items ≡ out.old.items ++ status_text status) }
{
    if status < 1000 {
        out.extend_from_slice(&three_digits(status))
    } else {
        write_number(out, u64::from(status))
    }
}

/// Adds a moment in seconds, with three decimals.
pub(crate) fn write_moment(out: &mut Vec<u8>, milliseconds: u64) -> Result<(), AllocError>
    ensures { OnOk result (out.new.items ≡ out.old.items ++ moment_text milliseconds) }
{
    write_number(out, milliseconds / 1000)?;
    out.extend_from_slice(b".")?;
    out.extend_from_slice(&three_digits((milliseconds % 1000) as u16))
}

/// Adds the fields up to the bytes that went to the user.
fn write_head(out: &mut Vec<u8>, entry: &Entry<'_>) -> Result<(), AllocError>
    ensures { OnOk result (out.new.items ≡ out.old.items ++ head_text entry.now) }
{
    write_moment(out, entry.ended)?;
    out.extend_from_slice(b" ")?;
    write_number(out, entry.elapsed)?;
    out.extend_from_slice(b" ")?;
    write_user(out, entry.user)?;
    out.extend_from_slice(tag(entry.refused))?;
    write_status(out, entry.status)?;
    out.extend_from_slice(b" ")?;
    write_number(out, entry.sent)
}

/// Adds the fields of the request, and the one for a login, which is always `-`.
fn write_request(out: &mut Vec<u8>, entry: &Entry<'_>) -> Result<(), AllocError>
    ensures { OnOk result (out.new.items ≡ out.old.items ++ request_text entry.now) }
{
    write_field(out, MAX_METHOD, entry.method)?;
    write_field(out, MAX_TARGET, entry.target)?;
    out.extend_from_slice(b" - ")?;
    write_destination(out, entry.destination)?;
    write_field(out, MAX_KIND, entry.kind)
}

/// Adds what became of a message.
#[tactic(auto, unfolding(crate::specs::Entry::field_text))]
fn write_judged(out: &mut Vec<u8>, name: &[u8], verdict: Verdict) -> Result<(), AllocError>
    ensures { OnOk result (out.new.items ≡ out.old.items ++ field_text (Judged name.now verdict)) }
{
    out.extend_from_slice(name)?;
    write_verdict(out, verdict)
}

/// Adds why the exchange ended as it did.
#[tactic(auto, unfolding(crate::specs::Entry::field_text))]
fn write_ended(out: &mut Vec<u8>, name: &[u8], why: Why) -> Result<(), AllocError>
    ensures { OnOk result (out.new.items ≡ out.old.items ++ field_text (Ended name.now why)) }
{
    out.extend_from_slice(name)?;
    out.extend_from_slice(why.word())
}

/// Adds the first `most` bytes of a value from outside.
#[tactic(auto, unfolding(crate::specs::Entry::field_text))]
fn write_outside(
    out: &mut Vec<u8>,
    name: &[u8],
    most: usize,
    value: &[u8],
) -> Result<(), AllocError>
    ensures { OnOk result (out.new.items ≡ out.old.items ++ field_text (Outside name.now most value.now)) }
{
    out.extend_from_slice(name)?;
    write_word(out, most, value)
}

/// Adds a number.
#[tactic(auto, unfolding(crate::specs::Entry::field_text))]
fn write_counted(out: &mut Vec<u8>, name: &[u8], number: u64) -> Result<(), AllocError>
    ensures { OnOk result (out.new.items ≡ out.old.items ++ field_text (Number name.now number)) }
{
    out.extend_from_slice(name)?;
    write_number(out, number)
}

/// Adds a number, or nothing where there is none.
#[tactic(auto, unfolding(crate::specs::Entry::field_text))]
fn write_optional(out: &mut Vec<u8>, name: &[u8], number: Option<u64>) -> Result<(), AllocError>
    ensures { OnOk result (out.new.items ≡ out.old.items ++ field_text (Optional name.now number)) }
{
    match number {
        Some(number) => {
            out.extend_from_slice(name)?;
            write_number(out, number)
        }
        None => Ok(()),
    }
}

/// Adds the fields that Squid's format hasn't.
fn write_fields(out: &mut Vec<u8>, entry: &Entry<'_>) -> Result<(), AllocError>
    ensures { OnOk result (out.new.items ≡ with_fields out.old.items (fields_of entry.now)) }
{
    write_judged(out, b" reqmod=", entry.summary.reqmod)?;
    write_judged(out, b" respmod=", entry.summary.respmod)?;
    write_ended(out, b" why=", entry.summary.why)?;
    write_outside(out, b" found=", MAX_FOUND, entry.found)?;
    write_counted(out, b" in=", entry.summary.received)?;
    write_optional(out, b" refusal=", entry.summary.refusal)
}

/// Adds these fields, and the line's end.
#[tactic(auto, using(crate::proofs::Fields::ended))]
fn write_end(out: &mut Vec<u8>, entry: &Entry<'_>) -> Result<(), AllocError>
    ensures { OnOk result (out.new.items ≡ out.old.items ++ end_text entry.now) }
{
    write_fields(out, entry)?;
    out.extend_from_slice(b"\n")
}

/// Adds the line of an exchange. `Err` where no memory was found for it: then a part of it may be there.
pub fn write_line(out: &mut Vec<u8>, entry: &Entry<'_>) -> Result<(), AllocError>
    ensures { OnOk result (out.new.items ≡ out.old.items ++ line_text entry.now) }
{
    write_head(out, entry)?;
    write_request(out, entry)?;
    write_end(out, entry)
}
