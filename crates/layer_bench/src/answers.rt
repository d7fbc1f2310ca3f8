//! Responses of a service, of 509 bytes with 10 fields and of 1,489 bytes with 30 fields, read again and again.
use icap_head::NoMemory;
use std::alloc::Global;

pub const TEN_FIELDS: &[u8] = b"ICAP/1.0 200 OK\r\n\
    Date: Mon, 10 Jan 2000 09:55:21 GMT\r\n\
    Methods: RESPMOD\r\n\
    Service: Content scanner of the examples, 4.2.0\r\n\
    ISTag: \"W3E4R7U9-L2E4-2-0123456789abcdef\"\r\n\
    Encapsulated: null-body=0\r\n\
    Max-Connections: 1000\r\n\
    Options-TTL: 7200\r\n\
    Allow: 204\r\n\
    Preview: 2048\r\n\
    Transfer-Complete: asp, bat, exe, com, dll, doc, docx, xls, xlsx, ppt, pptx, pdf, rtf, zip, rar, gz, tar, cab, iso, js, jar, msi, ps1, vbs, wsf, lnk, hta, scr, cpl, sys, ocx, 7z, xz, bz2, tgz, arj, lzh, ace, uue, eml, msg, swf, rb, py, sh, pl, x\r\n\
    \r\n";

pub const THIRTY_FIELDS: &[u8] = b"ICAP/1.0 200 OK\r\n\
    Date: Mon, 10 Jan 2000 09:55:21 GMT\r\n\
    Methods: RESPMOD\r\n\
    Service: Content scanner of the examples, 4.2.0\r\n\
    ISTag: \"W3E4R7U9-L2E4-2-0123456789abcdef\"\r\n\
    Encapsulated: null-body=0\r\n\
    Max-Connections: 1000\r\n\
    Options-TTL: 7200\r\n\
    Allow: 204\r\n\
    Preview: 2048\r\n\
    Transfer-Complete: asp, bat, exe, com, dll, doc, docx, xls, xlsx, ppt, pptx, pdf, rtf, zip, rar, gz, tar, cab, iso, js, jar, msi, ps1, vbs, wsf, lnk, hta, scr, cpl, sys, ocx, 7z, xz, bz2, tgz, arj, lzh, ace, uue, eml, msg, swf, rb, py, sh, pl, x\r\n\
    X-Scanner: Content scanner of the examples\r\n\
    X-Engine-Version: 4.2.0-1234-g0123456\r\n\
    X-Definitions: 2026-11-22T00:00:00Z build 27001\r\n\
    Server: ICAP-Server-Software/1.0\r\n\
    Connection: keep-alive\r\n\
    Opt-body-type: X-Options\r\n\
    X-Include: X-Client-IP, X-Server-IP, X-Authenticated-User\r\n\
    Transfer-Ignore: html, htm, css, png, jpg, gif\r\n\
    Transfer-Preview: *\r\n\
    X-Rule-1: archives up to depth 8 and 1 GiB\r\n\
    X-Rule-2: macros of office documents\r\n\
    X-Rule-3: scripts of pages and mails\r\n\
    X-Rule-4: executables of any platform\r\n\
    X-Quota: 100000 requests an hour\r\n\
    X-Region: eu-central-1\r\n\
    X-Cluster: scanners-17\r\n\
    X-Node: node-0042.scanners.example.test\r\n\
    X-Contact: operations@scanners.example.test\r\n\
    X-Licence: site licence 0123-4567-89ab-cdef\r\n\
    X-Request-Id: 0123456789abcdef0123456789abcdef0123456789abcdef0123456789abcdef0123456789abcdef0123456789abcdef0123456789abcdef0123456789abcdef0123456789abcdef0123456789abcdef0123456789abcdef0123456789abcdef0123456789abcdef0123456789abcdef0123456789abcdef01234567\r\n\
    \r\n";

/// The head of an answer as HTTP's, with `HTTP/1.1` in place of `ICAP/1.0`: `httparse` reads no other.
pub fn as_http(alloc: Global, text: &[u8]) -> Result<Vec<u8>, NoMemory> {
    let mut http = b"HTTP/1.1".to_vec(alloc)?;
    http.extend_from_slice(&text[text.len().min(8)..])?;
    Ok(http)
}
