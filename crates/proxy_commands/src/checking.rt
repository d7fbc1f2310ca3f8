//! `adaptproxy check`: says whether a text is a configuration, and why not, and binds nothing.

use crate::descriptors::{descriptors, limit_in};
use crate::keys::put_value_of_key;
use crate::memory::{memory, memory_in};
use crate::serve::say;
use crate::serve_error::{ServeError, put_error};
use crate::source::{Source, read_source};
use crate::whole::read_whole;
use proxy_config::{Config, OWN_STATUSES};
use std::alloc::Global;
use std::fs;
use std::io::{self, Write};
use std::net::Ipv4Addr;
use std::rt::Files;

/// The file in which the system gives the limits of this process.
const LIMITS: &str = "/proc/self/limits";

/// The file in which the system says how much memory the machine has.
const MEMORY: &str = "/proc/meminfo";

/// What the system says of this process and of the machine; empty where it doesn't.
#[derive(Clone, Copy)]
pub struct Machine<'a> {
    /// The text of `/proc/self/limits`.
    pub limits: &'a [u8],
    /// The text of `/proc/meminfo`.
    pub memory: &'a [u8],
}

/// Whether a byte may stand in a host's name (RFC 3986, section 3.2.2). Not so an asterisk, which
/// that section allows: here it stands for no other names.
fn is_of_name(byte: u8) -> bool {
    byte.is_ascii_alphanumeric() || b"-._~%!$&'()+,;=".contains(&byte)
}

/// Whether a request may name such a host: a name, or an IPv6 address in brackets. An IPv4 address is never looked up.
fn may_be_asked(name: &[u8]) -> bool {
    if name.starts_with(b"[") {
        return name.ends_with(b"]");
    }
    !name.is_empty()
        && name.iter().all(|byte| is_of_name(*byte))
        && Ipv4Addr::parse_ascii(name).is_err()
}

/// Warns of each host that no request names.
fn warn_of_hosts<E: Write>(alloc: Global, text: &[u8], errors: &mut E) -> io::Result<()> {
    let Ok(document) = toml::table_from_slice(alloc, text) else {
        return Ok(());
    };
    let Some(hosts) = document.get("hosts") else {
        return Ok(());
    };
    let Some(hosts) = hosts.as_table() else {
        return Ok(());
    };
    for name in hosts.keys() {
        if !may_be_asked(name.as_bytes()) {
            let name = name.as_str();
            writeln!(errors, "adaptproxy: hosts: no request is for {name:?}")?;
        }
    }
    Ok(())
}

/// Warns where the configuration may need more than the machine gives, as far as that is known.
fn warn_of_needs<E: Write>(
    config: &Config,
    machine: Machine<'_>,
    errors: &mut E,
) -> io::Result<()> {
    let needed = descriptors(config);
    if let Some(limit) = limit_in(machine.limits)
        && limit < needed
    {
        writeln!(
            errors,
            "adaptproxy: {needed} descriptors may be needed, and the limit is {limit}"
        )?;
    }
    let needed = memory(config);
    if let Some(total) = memory_in(machine.memory)
        && total < needed
    {
        writeln!(
            errors,
            "adaptproxy: {needed} bytes are needed for capacity and rows, and the machine has {total}"
        )?;
    }
    Ok(())
}

/// Warns where everyone who reaches the users' port may use the proxy, and it isn't on the loopback.
fn warn_of_users<E: Write>(config: &Config, errors: &mut E) -> io::Result<()> {
    if config.users.is_some() || config.listen.ip().is_loopback() {
        return Ok(());
    }
    let listen = config.listen;
    writeln!(
        errors,
        "adaptproxy: users: everyone who reaches {listen} may use the proxy"
    )
}

/// Warns where there is no page of a refusal in the folder of pages.
fn warn_of_pages<E: Write>(config: &Config, errors: &mut E) -> io::Result<()> {
    let Some(folder) = &config.refusal_pages else {
        return Ok(());
    };
    for status in OWN_STATUSES {
        if config.pages.of(status).is_some() {
            return Ok(());
        }
    }
    let folder = folder.as_str();
    writeln!(
        errors,
        "adaptproxy: refusal_pages: no page is in {folder:?}"
    )
}

/// Says what is at fault: where a text is no document, and what the value of a key may be.
fn explain<E: Write>(
    alloc: Global,
    error: &ServeError,
    text: &[u8],
    errors: &mut E,
) -> io::Result<()> {
    put_error(error, errors)?;
    match error {
        ServeError::Config => match toml::table_from_slice(alloc, text) {
            Ok(_) => Ok(()),
            Err(fault) => write!(errors, "adaptproxy: {fault}"),
        },
        ServeError::Key(key) | ServeError::KeyLine(key, _) => {
            put_value_of_key(key.as_str(), errors)
        }
        _ => Ok(()),
    }
}

/// Warns of what may be meant otherwise in a text that is this configuration. A warning that can't be written changes nothing.
fn warn<E: Write>(
    alloc: Global,
    text: &[u8],
    config: &Config,
    machine: Machine<'_>,
    errors: &mut E,
) {
    let _ = warn_of_needs(config, machine, errors);
    let _ = warn_of_users(config, errors);
    let _ = warn_of_hosts(alloc, text, errors);
    let _ = warn_of_pages(config, errors);
}

/// Judges a text, says that it is a configuration, and warns of what may be meant otherwise.
fn judge<O: Write, E: Write, R: Files>(
    rt: &R,
    alloc: Global,
    text: &[u8],
    output: &mut O,
    errors: &mut E,
    machine: Machine<'_>,
) -> Result<(), ServeError> {
    let config = read_whole(rt, alloc, text)?;
    warn(alloc, text, &config, machine, errors);
    // Written as a call, the drop is proved once, and not at each place.
    drop(config);
    say(output, b"ok\n")
}

/// Judges the text of a configuration, with the files that it names, and says that it is one; or why not, beginning with the line
/// with which `serve` would end. Answers the exit status, which is that of `serve`. Warns if the configuration may need more
/// descriptors or memory than there are, as far as the system says how many, of users who may come from everywhere, of hosts that no
/// request names, and of a folder without pages.
pub fn check_with<O: Write, E: Write, R: Files>(
    rt: &R,
    alloc: Global,
    text: &[u8],
    output: &mut O,
    errors: &mut E,
    machine: Machine<'_>,
) -> u8 {
    match judge(rt, alloc, text, output, errors, machine) {
        Ok(()) => 0,
        Err(error) => {
            // If standard error can't be written, nothing is left to report it to.
            let _ = explain(alloc, &error, text, errors);
            error.status()
        }
    }
}

/// What a file of the system says; nothing where it can't be read.
fn text_of<R: Files + AllocGlobal>(rt: &R, path: &str) -> Vec<u8> {
    match fs::read(rt, path) {
        Ok(text) => text,
        Err(_) => Vec::new(rt.alloc()),
    }
}

/// Checks the configuration of a source against this machine.
pub fn check_from<O: Write, E: Write, R: Files + AllocGlobal>(
    rt: &R,
    source: &Source,
    output: &mut O,
    errors: &mut E,
) -> u8 {
    let text = match read_source(rt, rt.alloc(), source) {
        Ok(text) => text,
        Err(error) => {
            let _ = put_error(&error, errors);
            return error.status();
        }
    };
    let (limits, memory) = (text_of(rt, LIMITS), text_of(rt, MEMORY));
    let machine = Machine {
        limits: &limits,
        memory: &memory,
    };
    check_with(rt, rt.alloc(), &text, output, errors, machine)
}

/// Whether the machine has the memory for a configuration's pages, as far as it says how much it has.
pub fn has_room<R: Files + AllocGlobal>(rt: &R, config: &Config) -> bool {
    match memory_in(&text_of(rt, MEMORY)) {
        Some(total) => memory(config) <= total,
        None => true,
    }
}
