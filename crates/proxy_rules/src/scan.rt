//! The parts of a request's target, where they lie in it (RFC 9112, section 3.2.2).

ghost use Rattle.std.specs.Prelude.{◌≡◌, ◌≤◌, length};
ghost use Rattle.http_side.specs.Targets.{authority_of, count_before};
ghost use Rattle.proxy_rules.specs.Origins.{is_any, bare_path};

use adapt_bytes::{behind, front};

/// How long `http://` is.
const SCHEME: usize = 7;

/// How many bytes stand before the first of these three.
pub(crate) fn count_before(text: &[u8], first: u8, second: u8, third: u8) -> usize
    ensures count { result ≡ count_before (is_any first second third) text.now }
    ensures within { result ≤ length text.now }
{
    let mut rest = text;
    let mut count = 0;
    while let [byte, behind @ ..] = rest {
        if *byte == first || (*byte == second || *byte == third) {
            return count;
        }
        rest = behind;
        count += 1;
    }
    count
}

/// The authority of an `http://` target, as it came.
pub(crate) fn authority(target: &[u8]) -> &[u8]
    ensures { result.now ≡ authority_of target.now }
{
    let rest = behind(target, SCHEME);
    front(rest, count_before(rest, b'/', b'?', b'#'))
}

/// The path of an `http://` target, without its query and its fragment.
pub(crate) fn bare_path(target: &[u8]) -> &[u8]
    ensures { result.now ≡ bare_path target.now }
{
    let rest = behind(target, SCHEME);
    let path = behind(rest, count_before(rest, b'/', b'?', b'#'));
    front(path, count_before(path, b'?', b'?', b'#'))
}
