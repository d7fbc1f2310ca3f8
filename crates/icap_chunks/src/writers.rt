//! Writing a chunked body.
ghost use Rattle.std.specs.Prelude.{◌≡◌, ◌+◌, ◌<◌, ◌≤◌, ◌++◌, length};
ghost use Rattle.arrayvec.specs.ArrayVec.{array_vec_len};
ghost use Rattle.adapt_bytes.specs.declared.limits.TheConstants.{COUNT_LIMIT, MAX_SMALL};
ghost use Rattle.icap_chunks.specs.Grammar.{chunk_head, last_chunk, crlf};

use adapt_bytes::{Small, put_hex};

/// Writes the size line of a chunk of `n` bytes: lower-case hexadecimal without leading zeros, and CR LF. It needs room
/// for 18 bytes.
pub fn put_chunk_head(n: u64, out: &mut Small)
    requires some { 1 ≤ n }
    requires fits { n < COUNT_LIMIT }
    requires room { array_vec_len out.old + 18 ≤ MAX_SMALL }
    ensures items { out.new.items ≡ out.old.items ++ chunk_head n }
    ensures len { array_vec_len out.new ≡ array_vec_len out.old + length (chunk_head n) }
    ensures short { length (chunk_head n) ≤ 18 }
{
    put_hex(n, out);
    put_line_end(out);
}

/// Writes the CR LF that ends a chunk's data. It needs room for 2 bytes.
pub fn put_chunk_tail(out: &mut Small)
    requires { array_vec_len out.old + 2 ≤ MAX_SMALL }
    ensures items { out.new.items ≡ out.old.items ++ crlf }
    ensures len { array_vec_len out.new ≡ array_vec_len out.old + 2 }
{
    put_line_end(out);
}

/// Writes the last chunk without trailers: `0 CRLF CRLF`, or with `ieof` `0; ieof CRLF CRLF` (RFC 3507, section 4.5).
/// It needs room for 11 bytes.
pub fn put_last(ieof: bool, out: &mut Small)
    requires { array_vec_len out.old + 11 ≤ MAX_SMALL }
    ensures items { out.new.items ≡ out.old.items ++ last_chunk ieof }
    ensures len { array_vec_len out.new ≡ array_vec_len out.old + length (last_chunk ieof) }
    ensures short { length (last_chunk ieof) ≤ 11 }
{
    if ieof {
        put_text(b"0; ieof\r\n\r\n", out);
    } else {
        put_text(b"0\r\n\r\n", out);
    }
}

fn put_text(text: &[u8], out: &mut Small)
    requires { array_vec_len out.old + length text.now ≤ MAX_SMALL }
    ensures items { out.new.items ≡ out.old.items ++ text.now }
    ensures len { array_vec_len out.new ≡ array_vec_len out.old + length text.now }
{
    match out.try_extend_from_slice(text) {
        Ok(()) => (),
        Err(_) => unreachable!(),
    }
}

fn put_line_end(out: &mut Small)
    requires { array_vec_len out.old + 2 ≤ MAX_SMALL }
    ensures items { out.new.items ≡ out.old.items ++ crlf }
    ensures len { array_vec_len out.new ≡ array_vec_len out.old + 2 }
{
    out.push(b'\r');
    out.push(b'\n');
}
