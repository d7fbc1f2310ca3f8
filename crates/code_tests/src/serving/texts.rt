//! What is said on the wires.

pub const REQUEST: &[u8] = b"GET http://o.test/a.txt HTTP/1.1\r\nHost: o.test\r\n\r\n";

pub const TO_ORIGIN: &[u8] =
    b"GET /a.txt HTTP/1.1\r\nHost: o.test\r\nConnection: close\r\nVia: 1.1 adaptproxy\r\n\r\n";

/// What the origin gets of it if `icapd` has stamped it.
pub const STAMPED_TO_ORIGIN: &[u8] = b"GET /a.txt HTTP/1.1\r\nHost: o.test\r\nX-Adapted: stamp\r\n\
Connection: close\r\nVia: 1.1 adaptproxy\r\n\r\n";

pub const RESPONSE_HEAD: &[u8] = b"HTTP/1.1 200 OK\r\nContent-Length: 6\r\n\r\n";

pub const RESPONSE: &[u8] = b"HTTP/1.1 200 OK\r\nContent-Length: 6\r\n\r\nabcdef";

/// The response but for its last two bytes.
pub const RESPONSE_FRONT: &[u8] = b"HTTP/1.1 200 OK\r\nContent-Length: 6\r\n\r\nabcd";

pub const FORWARDED: &[u8] =
    b"HTTP/1.1 200 OK\r\nContent-Length: 6\r\nVia: 1.1 adaptproxy\r\n\r\nabcdef";

pub const ADAPTED: &[u8] =
    b"HTTP/1.1 200 OK\r\nContent-Length: 6\r\nVia: 1.1 adaptproxy\r\n\r\nABCDEF";

pub const UNAVAILABLE: &[u8] =
    b"HTTP/1.1 503 Service Unavailable\r\nContent-Length: 0\r\nConnection: close\r\n\r\n";

/// A request with two lengths: a number, and a coding that ends by itself.
pub const TWO_LENGTHS: &[u8] = b"POST http://o.test/a.txt HTTP/1.1\r\nHost: o.test\r\n\
Content-Length: 3\r\nTransfer-Encoding: chunked\r\n\r\n";

pub const BAD_REQUEST: &[u8] =
    b"HTTP/1.1 400 Bad Request\r\nContent-Length: 0\r\nConnection: close\r\n\r\n";

pub const BAD_GATEWAY: &[u8] =
    b"HTTP/1.1 502 Bad Gateway\r\nContent-Length: 0\r\nConnection: close\r\n\r\n";

pub const TIMEOUT: &[u8] =
    b"HTTP/1.1 504 Gateway Timeout\r\nContent-Length: 0\r\nConnection: close\r\n\r\n";

/// What ends a head.
pub const HEAD_END: &[u8] = b"\r\n\r\n";

/// The service's options: previews of four bytes.
pub const PREVIEWS: &[u8] = b"ICAP/1.0 200 OK\r\nMethods: RESPMOD\r\nISTag: \"adapt-1\"\r\n\
Preview: 4\r\nTransfer-Preview: *\r\nEncapsulated: null-body=0\r\n\r\n";

/// Previews, and one connection.
pub const ONE_CONNECTION: &[u8] = b"ICAP/1.0 200 OK\r\nMethods: RESPMOD\r\nISTag: \"adapt-1\"\r\n\
Preview: 4\r\nTransfer-Preview: *\r\nMax-Connections: 1\r\nEncapsulated: null-body=0\r\n\r\n";

/// Previews, and one connection, which isn't this one.
pub const CLOSED: &[u8] = b"ICAP/1.0 200 OK\r\nMethods: RESPMOD\r\nISTag: \"adapt-1\"\r\n\
Preview: 4\r\nTransfer-Preview: *\r\nMax-Connections: 1\r\nConnection: close\r\n\
Encapsulated: null-body=0\r\n\r\n";

/// No connection.
pub const NO_CONNECTIONS: &[u8] = b"ICAP/1.0 200 OK\r\nMethods: RESPMOD\r\nISTag: \"adapt-1\"\r\n\
Max-Connections: 0\r\nEncapsulated: null-body=0\r\n\r\n";

/// The preview of the worked response's body.
pub const OFFERED: &[u8] = b"4\r\nabcd\r\n0\r\n\r\n";

/// What follows the preview.
pub const BEHIND: &[u8] = b"2\r\nef\r\n0\r\n\r\n";

pub const CONTINUE: &[u8] = b"ICAP/1.0 100 Continue\r\n\r\n";

pub const UNMODIFIED: &[u8] =
    b"ICAP/1.0 204 No Modifications\r\nISTag: \"adapt-1\"\r\nEncapsulated: null-body=0\r\n\r\n";

/// A 204 with another tag: the record of the service's options is no longer fresh.
pub const RETAGGED: &[u8] =
    b"ICAP/1.0 204 No Modifications\r\nISTag: \"adapt-2\"\r\nEncapsulated: null-body=0\r\n\r\n";

pub const FINAL: &[u8] = b"ICAP/1.0 200 OK\r\nISTag: \"adapt-1\"\r\n\
Encapsulated: res-hdr=0, res-body=38\r\n\r\n\
HTTP/1.1 200 OK\r\nContent-Length: 6\r\n\r\n6\r\nABCDEF\r\n0\r\n\r\n";

/// The request but for its last byte.
pub const ALMOST_A_REQUEST: &[u8] = b"GET http://o.test/a.txt HTTP/1.1\r\nHost: o.test\r\n\r";

/// A request with a body of three bytes.
pub const POST: &[u8] =
    b"POST http://o.test/a.txt HTTP/1.1\r\nHost: o.test\r\nContent-Length: 3\r\n\r\n";

/// That request from a user that waits for `100 Continue`.
pub const WAITING_POST: &[u8] = b"POST http://o.test/a.txt HTTP/1.1\r\nHost: o.test\r\n\
Expect: 100-continue\r\nContent-Length: 3\r\n\r\n";

/// What makes such a user send its body.
pub const GO_AHEAD: &[u8] = b"HTTP/1.1 100 Continue\r\n\r\n";

pub const POST_TO_ORIGIN: &[u8] = b"POST /a.txt HTTP/1.1\r\nHost: o.test\r\nContent-Length: 3\r\n\
Connection: close\r\nVia: 1.1 adaptproxy\r\n\r\n";

/// The body of those requests, as the service of requests gets it.
pub const POSTED: &[u8] = b"3\r\nabc\r\n0\r\n\r\n";

/// The options of the service of requests: one connection.
pub const ONE_REQUEST: &[u8] = b"ICAP/1.0 200 OK\r\nMethods: REQMOD\r\nISTag: \"adapt-1\"\r\n\
Max-Connections: 1\r\nEncapsulated: null-body=0\r\n\r\n";

/// Another request in place of the worked one, of another path and with another Host.
pub const CHANGED: &[u8] = b"ICAP/1.0 200 OK\r\nISTag: \"adapt-1\"\r\n\
Encapsulated: req-hdr=0, null-body=32\r\n\r\nGET /b.exe HTTP/1.1\r\nHost: b\r\n\r\n";

pub const CHANGED_TO_ORIGIN: &[u8] =
    b"GET /b.exe HTTP/1.1\r\nHost: o.test\r\nConnection: close\r\nVia: 1.1 adaptproxy\r\n\r\n";

/// Previews for the worked request's extension, and nothing for the other one's.
pub const BY_EXTENSION: &[u8] = b"ICAP/1.0 200 OK\r\nMethods: RESPMOD\r\nISTag: \"adapt-1\"\r\n\
Preview: 4\r\nTransfer-Preview: txt\r\nTransfer-Ignore: exe\r\nEncapsulated: null-body=0\r\n\r\n";

/// Seventy lines in one piece, all of them empty.
pub const EMPTY_LINES: &str =
    "\n\n\n\n\n\n\n\n\n\n\n\n\n\n\n\n\n\n\n\n\n\n\n\n\n\n\n\n\n\n\n\n\n\n\n\
\n\n\n\n\n\n\n\n\n\n\n\n\n\n\n\n\n\n\n\n\n\n\n\n\n\n\n\n\n\n\n\n\n\n\n";

/// What the administrator gets for each of them.
pub const BAD_LINES: &str = "bad\nbad\nbad\nbad\nbad\nbad\nbad\nbad\nbad\nbad\nbad\nbad\nbad\nbad\n\
bad\nbad\nbad\nbad\nbad\nbad\nbad\nbad\nbad\nbad\nbad\nbad\nbad\nbad\n\
bad\nbad\nbad\nbad\nbad\nbad\nbad\nbad\nbad\nbad\nbad\nbad\nbad\nbad\n\
bad\nbad\nbad\nbad\nbad\nbad\nbad\nbad\nbad\nbad\nbad\nbad\nbad\nbad\n\
bad\nbad\nbad\nbad\nbad\nbad\nbad\nbad\nbad\nbad\nbad\nbad\nbad\nbad\n";
