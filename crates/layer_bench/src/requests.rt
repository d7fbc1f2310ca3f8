//! Requests: one of 400 bytes with 10 fields, and one of 16,384 bytes with 100 fields, whose Connection has as many items as fit.
use http_side::NoMemory;
use std::alloc::Global;

pub const REQUEST: &[u8] =
    b"GET http://shop.example.test/items?page=2 HTTP/1.1\r\nHost: shop.example.test\r\nUser-Agent: Mozilla/5.0 (X11; Linux x86_64; rv:128.0)\r\nAccept: text/html,application/xhtml+xml,*/*;q=0.8\r\nAccept-Language: en-US,en;q=0.5\r\nAccept-Encoding: gzip, deflate\r\nReferer: http://shop.example.test/\r\nConnection: keep-alive\r\nCookie: session=0123456789\r\nCache-Control: max-age=0\r\nX-Request-Id: 0123456789abcdef0123\r\n\r\n";

/// The parts of a request of 100 fields in 16,384 bytes, and how often each of them stands there. Its Connection has as many items as
/// fit, and they name no field: the names and the items have one letter each.
const PARTS: [(&[u8], u32); 5] = [
    (b"GET http://o/ HTTP/1.0\r\n", 1),
    (b"a:\r\n", 99),
    (b"Connection: b", 1),
    (b",b", 7_973),
    (b"\r\n\r\n", 1),
];

/// The request whose Connection has many items.
pub fn hostile_request(alloc: Global) -> Result<Vec<u8>, NoMemory> {
    let mut text = Vec::new(alloc);
    for (part, times) in PARTS.iter() {
        for _ in 0..*times {
            text.extend_from_slice(part)?;
        }
    }
    Ok(text)
}
