//! What is said and heard on a connection.

use std::alloc::Global;
use std::io::{self, Read, Write};
use std::net::TcpStream;
use std::time::Duration;

pub fn say(stream: &TcpStream, text: &[u8]) -> io::Result<()> {
    let mut writer = stream;
    writer.write_all(text)
}

/// Whether just this comes next.
pub fn gets(stream: &TcpStream, wanted: &[u8]) -> io::Result<bool> {
    let mut reader = stream;
    let mut byte = [0u8; 1];
    for want in wanted {
        if reader.read(&mut byte)? == 0 || byte[0] != *want {
            return Ok(false);
        }
    }
    Ok(true)
}

/// Reads on until the text ends so, or the connection does.
pub fn until(alloc: Global, stream: &TcpStream, end: &[u8]) -> io::Result<Vec<u8>> {
    let mut reader = stream;
    let mut text = Vec::new(alloc);
    let mut byte = [0u8; 1];
    for _ in 0..100_000 {
        if text.ends_with(end) || reader.read(&mut byte)? == 0 {
            break;
        }
        text.push(byte[0])?;
    }
    Ok(text)
}

/// Whether something comes on a connection, or it ends, before 20 ms have passed.
pub fn hears(stream: &TcpStream) -> io::Result<bool> {
    let mut byte = [0u8; 1];
    stream.set_read_timeout(Some(Duration::from_millis(20)))?;
    let heard = stream.peek(&mut byte).is_ok();
    stream.set_read_timeout(None)?;
    Ok(heard)
}

/// Whether a connection ends with nothing more.
pub fn hears_end(stream: &TcpStream) -> io::Result<bool> {
    let mut byte = [0u8; 1];
    let mut reader = stream;
    Ok(reader.read(&mut byte)? == 0)
}
