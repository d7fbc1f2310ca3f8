//! A range of a piece, and the beginning of a buffer.

ghost use Rattle.std.specs.Prelude.{◌≡◌, ◌≤◌, ◌-◌, length, take, slice_range};

/// This range of the bytes.
pub fn part_of(piece: &[u8], part: (usize, usize)) -> &[u8]
    requires order { part.0 ≤ part.1 }
    requires within { part.1 ≤ length piece.now }
    ensures part { result.now ≡ slice_range piece.now part.0 part.1 }
    ensures len { length result.now ≡ part.1 - part.0 }
{
    &piece[part.0..part.1]
}

/// Copies the bytes to the beginning of the buffer.
pub fn put_front(part: &[u8], out: &mut [u8])
    requires { length part.now ≤ length out.old }
    ensures { take (length part.now) out.new ≡ part.now }
{
    out[..part.len()].copy_from_slice(part);
}
