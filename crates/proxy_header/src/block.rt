//! Version 2: a block of bytes (proxy-protocol.txt, section 2.2).

ghost use Rattle.std.specs.Prelude.{◌≡◌, ◌<◌, ◌++◌, length, IfSome, IfNone};
ghost use Rattle.proxy_header.specs.Blocks.{IsBlock, IsCutBlock, IsFixed, Tells, signature};
ghost use Rattle.proxy_header.specs.Headers.{Answers, IsSaid};

use crate::reading::{Reading, Said, reading_of};
use adapt_bytes::front;
use std::net::Ipv4Addr;

/// What each such header begins with.
pub(crate) const SIGNATURE: [u8; 12] = *b"\r\n\r\n\0\r\nQUIT\n";

/// The bytes before the addresses.
const FIXED: usize = 16;

/// The most bytes after these.
const MAX_BLOCK: usize = 520;

/// The command of a connection that the load balancer made for itself.
const LOCAL: u8 = 0x20;

/// The command of a connection that it made for a user.
const PROXY: u8 = 0x21;

/// The family of a connection whose address isn't known.
const UNSPEC: u8 = 0x00;

/// TCP over IPv4.
const TCP4: u8 = 0x11;

/// The first address of a block of addresses over IPv4.
fn source_of(block: &[u8]) -> Said
    ensures { IsSaid (Tells 33 17 block.now) result }
{
    match block {
        [a, b, c, d, _, _, _, _, _, _, _, _, ..] => Said::From(Ipv4Addr::new(*a, *b, *c, *d)),
        _ => Said::Nothing,
    }
}

/// What a block says with this command and family.
fn told_by(command: u8, family: u8, block: &[u8]) -> Said
    ensures { IsSaid (Tells command family block.now) result }
{
    if command == LOCAL {
        Said::Unknown
    } else if command != PROXY {
        Said::Nothing
    } else if family == UNSPEC {
        Said::Unknown
    } else if family == TCP4 {
        source_of(block)
    } else {
        Said::Nothing
    }
}

/// What stands between the signature and the addresses, and after it.
struct Fixed<'a> {
    command: u8,
    family: u8,
    /// How many bytes follow.
    count: usize,
    behind: &'a [u8],
}

/// Reads what stands between the signature and the addresses. `None` where it isn't whole.
fn fixed_of(rest: &[u8]) -> Option<Fixed<'_>>
    ensures found { IfSome result (λ fixed. IsFixed rest.now fixed.command fixed.family fixed.count fixed.behind.now) }
    ensures none { IfNone result (length rest.now < 4) }
{
    match rest {
        [command, family, high, low, behind @ ..] => Some(Fixed {
            command: *command,
            family: *family,
            count: usize::from(*high) * 256 + usize::from(*low),
            behind,
        }),
        _ => None,
    }
}

/// Reads a header of version 2, whose signature is there.
pub(crate) fn read_block(bytes: &[u8], rest: &[u8]) -> Reading
    requires { bytes.now ≡ signature ++ rest.now }
    ensures { Answers IsBlock IsCutBlock bytes.now result }
{
    let Some(fixed) = fixed_of(rest) else {
        return Reading::Partial;
    };
    let Fixed {
        command,
        family,
        count,
        behind,
    } = fixed;
    if count > MAX_BLOCK {
        return Reading::Fault;
    }
    if behind.len() < count {
        return Reading::Partial;
    }
    reading_of(
        told_by(command, family, front(behind, count)),
        FIXED + count,
    )
}
