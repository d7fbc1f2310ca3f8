//! What `adaptproxy serve` says at its end, and what it ends with if it failed.

ghost use Rattle.std.specs.Prelude.{◌≡◌, IfOk};
ghost use Rattle.proxy_commands.specs.Endings.{audit_text, serve_error_of};

use crate::answers::write_after;
use crate::error::Error;
use crate::serve_error::ServeError;
use shard_report::{ProxyFault, StopAudit};
use std::alloc::{AllocError as NoMemory, Global};

/// The error that a fault of the proxy's ends the program with.
pub fn error_of(fault: ProxyFault) -> ServeError
    ensures { result ≡ serve_error_of fault }
{
    match fault {
        ProxyFault::System | ProxyFault::Loop => ServeError::CannotListen,
        ProxyFault::Missing => ServeError::AuditMissing,
        ProxyFault::NoMemory => ServeError::Ended(Error::NoMemory),
        ProxyFault::Unheard => ServeError::Ended(Error::WriteFailed),
    }
}

/// The line that is printed at the end: how many reservations were still out, the bytes that they held, and the leases.
pub fn audit_line(alloc: Global, audit: StopAudit) -> Result<Vec<u8>, NoMemory>
    ensures { IfOk result (λ line. line.items ≡ audit_text audit) }
{
    let mut line = Vec::new(alloc);
    write_after(&mut line, b"audit rows ", audit.rows)?;
    write_after(&mut line, b" held ", audit.held)?;
    write_after(&mut line, b" leased ", audit.leased)?;
    line.extend_from_slice(b"\n")?;
    Ok(line)
}
