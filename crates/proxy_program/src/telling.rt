//! `adaptproxy tell` over a socket.

use proxy_commands::{
    Error, ServeError, Source, ask, configuration_of, line_of_words, read_source,
};
use std::alloc::Global;
use std::io::Write;
use std::net::{Net, OpenStream, SocketAddr, SocketAddrV4, TcpStream};
use std::rt::Files;
use std::time::Duration;

/// How many seconds the connection may take, and each part of the answer.
const PATIENCE: u64 = 10;

/// Connects to the administrator's port, with an end to each wait.
fn connect<R: Net>(rt: &R, address: SocketAddrV4) -> Result<R::Stream, ServeError> {
    let patience = Duration::from_secs(PATIENCE);
    let Ok(stream) = TcpStream::connect_timeout(rt, &SocketAddr::V4(address), patience) else {
        return Err(ServeError::NoAnswer);
    };
    if stream.set_read_timeout(Some(patience)).is_err()
        || stream.set_write_timeout(Some(patience)).is_err()
    {
        return Err(ServeError::NoAnswer);
    }
    Ok(stream)
}

/// The line that words say; `Usage` where one of them has an LF, which would end it.
fn line_of(alloc: Global, words: &[String]) -> Result<Vec<u8>, ServeError> {
    for word in words {
        if word.as_bytes().contains(&b'\n') {
            return Err(ServeError::Ended(Error::Usage));
        }
    }
    match line_of_words(alloc, words) {
        Ok(line) => Ok(line),
        Err(_) => Err(ServeError::Ended(Error::NoMemory)),
    }
}

/// The administrator's address in the configuration of a source. The files that the configuration names aren't read.
fn admin_of<R: Files>(rt: &R, alloc: Global, source: &Source) -> Result<SocketAddrV4, ServeError> {
    let text = read_source(rt, alloc, source)?;
    let config = configuration_of(alloc, &text)?;
    let admin = config.admin;
    // Written as a call, the drop is proved once, and not at each place.
    drop(config);
    Ok(admin)
}

/// Says words to the administrator's port that the configuration of a source names, prints the answer, and answers its exit status.
pub fn tell_from<O: Write, R: Net + Files>(
    rt: &R,
    alloc: Global,
    source: Result<Source, ServeError>,
    words: &[String],
    output: &mut O,
) -> Result<u8, ServeError> {
    let line = line_of(alloc, words)?;
    let admin = admin_of(rt, alloc, &source?)?;
    let mut stream = connect(rt, admin)?;
    ask(alloc, &mut stream, &line, output)
}
