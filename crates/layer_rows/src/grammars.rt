//! The grammars of bytes: words and numbers, lists, chunked bodies, heads of ICAP and HTTP, and the heads that are sent on.

mod chunks;
mod cuts;
mod feeds;
mod forwarding;
mod http_heads;
mod icap_heads;
mod icap_writing;
mod lists;
mod proxy_headers;
mod random;
mod words;

use std::alloc::Global;
use test_rows::{NoMemory, Row};

/// Adds the answer to a row of these calls; nothing for another one.
pub fn put_answer(
    alloc: Global,
    call: &[u8],
    row: &Row<'_>,
    out: &mut Vec<u8>,
) -> Result<(), NoMemory> {
    words::put_answer(alloc, call, row, out)?;
    lists::put_answer(alloc, call, row, out)?;
    chunks::put_answer(alloc, call, row, out)?;
    feeds::put_answer(call, row, out)?;
    icap_heads::put_answer(alloc, call, row, out)?;
    icap_writing::put_answer(alloc, call, row, out)?;
    http_heads::put_answer(alloc, call, row, out)?;
    proxy_headers::put_answer(call, row, out)?;
    forwarding::put_answer(alloc, call, row, out)
}
