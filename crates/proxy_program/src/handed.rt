//! The users' port that systemd has opened, and hands over (sd_listen_fds(3)). It stays open while one process ends and the
//! next one begins: a user who connects meanwhile waits, and is not refused.

use os::FromRawFd;
use std::net::TcpListener;
use std::{env, process};

/// The first descriptor that is handed over.
const FIRST: i32 = 3;

/// Whether a variable of the environment has this value.
fn says(rt: &HostRuntime, name: &str, value: &str) -> bool {
    match env::var(rt, name) {
        Ok(text) => text.as_str() == value,
        Err(_) => false,
    }
}

/// Whether a variable of the environment is this process's number.
fn names_this_process(rt: &HostRuntime, name: &str) -> bool {
    match env::var(rt, name) {
        Ok(text) => text.parse::<u32>() == Ok(process::id(rt.process())),
        Err(_) => false,
    }
}

/// The port that was handed to this very process, if one was.
pub fn handed_port(rt: &HostRuntime) -> Option<TcpListener> {
    if !says(rt, "LISTEN_FDS", "1") || !names_this_process(rt, "LISTEN_PID") {
        return None;
    }
    // The two variables say that it is open, and that it is this process's own.
    Some(unsafe { TcpListener::from_raw_fd(FIRST) })
}
