//! How the file of the log is opened: so that nothing waits for whoever reads it.

use os::set_nonblocking;
use std::fs::{self, File, OpenOptions};
use std::io::{self, ErrorKind};
use std::os::fd::AsRawFd;
use std::os::unix::fs::FileTypeExt;

/// Opens the file of the log, for lines to be added. The system's runtime does; a test may refuse.
pub trait Append {
    /// The file at this path, which is made where there is none. `Err` where the system can't open it.
    ///
    /// Neither the call nor a write to the file waits for a reader of a pipe.
    fn append(&self, path: &str) -> io::Result<File>;
}

/// Whether there is a named pipe at this path.
fn is_pipe(files: &HostRuntime, path: &str) -> bool {
    match fs::metadata(files, path) {
        Ok(found) => found.file_type().is_fifo(),
        Err(_) => false,
    }
}

impl Append for HostRuntime {
    /// A pipe is opened for reading too: then the call doesn't wait for a reader, and no write fails for want of one.
    fn append(&self, path: &str) -> io::Result<File> {
        let file = OpenOptions::new()
            .append(true)
            .create(true)
            .read(is_pipe(self, path))
            .open(self, path)?;
        if set_nonblocking(file.as_raw_fd(), true) != 0 {
            return Err(ErrorKind::Other.into());
        }
        Ok(file)
    }
}
