//! The text of a request before its chunks.

ghost use Rattle.std.specs.Prelude.{◌≡◌, ◌+◌, ◌-◌, ◌*◌, ◌^◌, ◌<◌, ◌++◌, length, min, OnOk, IfOk};
ghost use Rattle.std.specs.Net.Addr.{ipv4_octets};
ghost use Rattle.adapt_bytes.specs.declared.limits.TheConstants.{COUNT_LIMIT};
ghost use Rattle.adapt_bytes.specs.Numeral.{numeral};
ghost use Rattle.icap_client.specs.RequestHead.{joined, start_pieces, host_pieces, address_text, user_pieces, carried_pieces, allow_pieces, preview_pieces, body_name, list_pieces, head_pieces, request_head};
ghost use Rattle.icap_client.specs.RequestText.{is_null};
ghost use Rattle.icap_client.specs.Asking.{options_pieces, options_request};

use adapt_bytes::{Small, put_decimal};
use arrayvec::ArrayVec;
use std::alloc::{AllocError, Global};
use std::net::Ipv4Addr;
use trace_core::{Kind, Plan, Point};

/// The ICAP head that offers a message of this plan to the service there, followed by the encapsulated heads: at REQMOD
/// the request's head alone. It says the address of the user, where there is one, and the field lines that are carried on.
pub(crate) fn request_head(
    alloc: Global,
    plan: &Plan,
    from: Option<Ipv4Addr>,
    carried: &[u8],
    host: &[u8],
    port: u16,
    path: &[u8],
    req: &[u8],
    res: &[u8],
) -> Result<Vec<u8>, AllocError>
    requires { length req.now + length res.now < COUNT_LIMIT }
    ensures { IfOk result (λ text. text.items ≡ request_head plan.now from carried.now host.now port path.now req.now res.now) }
{
    let heads = req.len() + res.len();
    let size = room_of(carried.len(), host.len(), path.len(), heads);
    let mut out = Vec::with_capacity(alloc, size)?;
    put_start(&mut out, plan.point, host, port, path)?;
    put_host(&mut out, host, port)?;
    put_user(&mut out, from)?;
    put_carried(&mut out, carried)?;
    put_allow(&mut out, plan.allow)?;
    put_preview(&mut out, plan.kind)?;
    put_list(
        &mut out,
        plan.point,
        plan.len == Some(0),
        req.len(),
        res.len(),
    )?;
    put_heads(&mut out, plan.point, req, res)?;
    Ok(out)
}

/// Bytes for the words of a head, its numbers and the user's address: they take at most 208.
const WORDS_ROOM: usize = 224;

/// Room for a whole head and the heads that follow it, whose parts have these lengths: its text is then written into one allocation.
fn room_of(carried: usize, host: usize, path: usize, heads: usize) -> usize
    ensures { result ≡ min (224 + carried + 2 * host + path + heads) (2 ^ 64 - 1) }
{
    WORDS_ROOM
        .saturating_add(carried)
        .saturating_add(host)
        .saturating_add(host)
        .saturating_add(path)
        .saturating_add(heads)
}

/// The text of an OPTIONS request to the service there.
pub(crate) fn options_request(
    alloc: Global,
    host: &[u8],
    port: u16,
    path: &[u8],
) -> Result<Vec<u8>, AllocError>
    ensures { IfOk result (λ text. text.items ≡ options_request host.now port path.now) }
{
    let mut out = Vec::new(alloc);
    put_asking(&mut out, host, port, path)?;
    put_host(&mut out, host, port)?;
    put(&mut out, b"Encapsulated: null-body=0")?;
    put(&mut out, b"\r\n")?;
    put(&mut out, b"\r\n")?;
    Ok(out)
}

fn put_asking(out: &mut Vec<u8>, host: &[u8], port: u16, path: &[u8]) -> Result<(), AllocError>
    ensures { OnOk result (out.new.items ≡ joined (options_pieces host.now port path.now) out.old.items) }
{
    put(out, b"OPTIONS icap://")?;
    put(out, host)?;
    put(out, b":")?;
    put_number(out, u64::from(port))?;
    put(out, path)?;
    put(out, b" ICAP/1.0")?;
    put(out, b"\r\n")
}

fn put(out: &mut Vec<u8>, text: &[u8]) -> Result<(), AllocError>
    ensures { OnOk result (out.new.items ≡ out.old.items ++ text.now) }
{
    out.extend_from_slice(text)
}

fn put_number(out: &mut Vec<u8>, n: u64) -> Result<(), AllocError>
    ensures { OnOk result (out.new.items ≡ out.old.items ++ numeral 10 n) }
{
    let mut digits: Small = ArrayVec::new();
    put_decimal(n, &mut digits);
    put(out, digits.as_slice())
}

fn put_start(
    out: &mut Vec<u8>,
    point: Point,
    host: &[u8],
    port: u16,
    path: &[u8],
) -> Result<(), AllocError>
    ensures { OnOk result (out.new.items ≡ joined (start_pieces point host.now port path.now) out.old.items) }
{
    put(out, point.method().name())?;
    put(out, b" icap://")?;
    put(out, host)?;
    put(out, b":")?;
    put_number(out, u64::from(port))?;
    put(out, path)?;
    put(out, b" ICAP/1.0")?;
    put(out, b"\r\n")
}

fn put_host(out: &mut Vec<u8>, host: &[u8], port: u16) -> Result<(), AllocError>
    ensures { OnOk result (out.new.items ≡ joined (host_pieces host.now port) out.old.items) }
{
    put(out, b"Host: ")?;
    put(out, host)?;
    put(out, b":")?;
    put_number(out, u64::from(port))?;
    put(out, b"\r\n")
}

/// Adds an address, as `192.0.2.1`.
fn put_address(out: &mut Vec<u8>, address: Ipv4Addr) -> Result<(), AllocError>
    ensures { OnOk result (out.new.items ≡ out.old.items ++ address_text (ipv4_octets address)) }
{
    let [first, second, third, fourth] = address.octets();
    put_number(out, u64::from(first))?;
    put(out, b".")?;
    put_number(out, u64::from(second))?;
    put(out, b".")?;
    put_number(out, u64::from(third))?;
    put(out, b".")?;
    put_number(out, u64::from(fourth))
}

fn put_user(out: &mut Vec<u8>, from: Option<Ipv4Addr>) -> Result<(), AllocError>
    ensures { OnOk result (out.new.items ≡ joined (user_pieces from) out.old.items) }
{
    let Some(address) = from else {
        return Ok(());
    };
    put(out, b"X-Client-IP: ")?;
    put_address(out, address)?;
    put(out, b"\r\n")
}

/// Adds field lines as they are.
fn put_carried(out: &mut Vec<u8>, lines: &[u8]) -> Result<(), AllocError>
    ensures { OnOk result (out.new.items ≡ joined (carried_pieces lines.now) out.old.items) }
{
    put(out, lines)
}

fn put_allow(out: &mut Vec<u8>, allow: bool) -> Result<(), AllocError>
    ensures { OnOk result (out.new.items ≡ joined (allow_pieces allow) out.old.items) }
{
    if !allow {
        return Ok(());
    }
    put(out, b"Allow: 204")?;
    put(out, b"\r\n")
}

fn put_preview(out: &mut Vec<u8>, kind: Kind) -> Result<(), AllocError>
    ensures { OnOk result (out.new.items ≡ joined (preview_pieces kind) out.old.items) }
{
    match kind {
        Kind::Plain => Ok(()),
        Kind::Whole => Ok(()),
        Kind::Preview(size) => {
            put(out, b"Preview: ")?;
            put_number(out, size)?;
            put(out, b"\r\n")
        }
    }
}

/// The body part's name.
fn body_name(point: Point, null: bool) -> &'static [u8]
    ensures { result.now ≡ body_name point null }
{
    match (point, null) {
        (Point::Reqmod, true) => b"null-body=",
        (Point::Reqmod, false) => b"req-body=",
        (Point::Respmod, true) => b"null-body=",
        (Point::Respmod, false) => b"res-body=",
    }
}

fn put_list(
    out: &mut Vec<u8>,
    point: Point,
    null: bool,
    req: usize,
    res: usize,
) -> Result<(), AllocError>
    requires { req + res < COUNT_LIMIT }
    ensures { OnOk result (out.new.items ≡ joined (list_pieces point null req res) out.old.items) }
{
    match point {
        Point::Reqmod => {
            put(out, b"Encapsulated: req-hdr=0, ")?;
            put(out, body_name(Point::Reqmod, null))?;
            put_number(out, req as u64)?;
        }
        Point::Respmod => {
            put(out, b"Encapsulated: req-hdr=0, res-hdr=")?;
            put_number(out, req as u64)?;
            put(out, b", ")?;
            put(out, body_name(Point::Respmod, null))?;
            put_number(out, (req + res) as u64)?;
        }
    }
    put(out, b"\r\n")?;
    put(out, b"\r\n")
}

fn put_heads(out: &mut Vec<u8>, point: Point, req: &[u8], res: &[u8]) -> Result<(), AllocError>
    ensures { OnOk result (out.new.items ≡ joined (head_pieces point req.now res.now) out.old.items) }
{
    put(out, req)?;
    match point {
        Point::Reqmod => Ok(()),
        Point::Respmod => put(out, res),
    }
}
