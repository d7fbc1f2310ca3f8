//! The command line of the ICAP server.
//!
//! What it does is in libraries, which rows and tests call.
#![tactic(auto)]

mod texts;

use icapd_commands::{
    IcapdCommand, IcapdConfig, IcapdError, ServerShared, once, put_error, read_command,
    read_config, read_input, serve_sockets,
};
use std::alloc::Global;
use std::env;
use std::io::{ErrorKind, Write};
use std::net::{SocketAddr, TcpListener};
use std::process::ExitCode;
use std::sync::Arc;
use texts::{HELP, VERSION};

/// The arguments after the program's name.
fn arguments(rt: &HostRuntime) -> Result<Vec<String>, IcapdError> {
    let mut args = Vec::new(rt.alloc());
    let all = match env::args(rt) {
        Ok(all) => all,
        Err(error) if error.kind() == ErrorKind::OutOfMemory => return Err(IcapdError::NoMemory),
        Err(_) => return Err(IcapdError::Usage),
    };
    for arg in all.skip(1) {
        if args.push(arg).is_err() {
            return Err(IcapdError::NoMemory);
        }
    }
    Ok(args)
}

/// Reads the configuration.
fn configuration(rt: &HostRuntime) -> Result<IcapdConfig, IcapdError> {
    let input = read_input(rt.alloc(), rt.stdin())?;
    read_config(rt.alloc(), input.as_slice())
}

/// Writes all of a text.
fn say(rt: &HostRuntime, text: &[u8]) -> Result<(), IcapdError> {
    let mut output = rt.stdout();
    if output.write_all(text).is_err() || output.flush().is_err() {
        return Err(IcapdError::WriteFailed);
    }
    Ok(())
}

/// Reads the configuration, and says that it is one.
fn check(rt: &HostRuntime) -> Result<(), IcapdError> {
    configuration(rt)?;
    say(rt, b"ok\n")
}

/// Reads the configuration, listens, and says so.
fn listen(rt: &HostRuntime) -> Result<(TcpListener, Arc<ServerShared, Global>), IcapdError> {
    let IcapdConfig {
        listen,
        settings,
        deadline,
    } = configuration(rt)?;
    let Ok(listener) = TcpListener::bind(rt, SocketAddr::V4(listen)) else {
        return Err(IcapdError::CannotListen);
    };
    let Ok(shared) = ServerShared::new(rt.alloc(), settings, deadline) else {
        return Err(IcapdError::NoMemory);
    };
    say(rt, b"listening\n")?;
    Ok((listener, shared))
}

/// What a command asks for, but for `serve`.
fn perform(rt: &HostRuntime, command: IcapdCommand) -> Result<(), IcapdError> {
    match command {
        IcapdCommand::Once => once(rt.alloc(), rt.stdin(), &mut rt.stdout()),
        IcapdCommand::Check => check(rt),
        IcapdCommand::Help => say(rt, HELP),
        IcapdCommand::Version => say(rt, VERSION),
        IcapdCommand::Serve => Ok(()),
    }
}

fn main(rt: HostRuntime) -> ExitCode {
    let ended = match arguments(&rt) {
        Ok(args) => match read_command(args.as_slice()) {
            Some(IcapdCommand::Serve) => match listen(&rt) {
                Ok((listener, shared)) => {
                    serve_sockets(rt, rt.alloc(), &listener, &shared);
                    Ok(())
                }
                Err(error) => Err(error),
            },
            Some(command) => perform(&rt, command),
            None => Err(IcapdError::Usage),
        },
        Err(error) => Err(error),
    };
    match ended {
        Ok(()) => ExitCode::from(0),
        Err(error) => {
            // If standard error can't be written, nothing is left to report it to.
            let _ = put_error(&error, &mut rt.stderr());
            ExitCode::from(error.status())
        }
    }
}
