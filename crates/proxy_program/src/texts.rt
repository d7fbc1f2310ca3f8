//! What the program says of itself.

/// The commands, one line each.
pub const HELP: &[u8] = b"\
adaptproxy trace        answers a script of one transaction's events
adaptproxy chunks N     reads a chunked body in pieces of N bytes, N from 1 to 65,536
adaptproxy serve        is the proxy: reads its configuration, listens, and serves until it is stopped
adaptproxy check        reads a configuration as serve does, and says ok, or its fault
adaptproxy tell WORD..  says a line to the admin port that a configuration names, and prints the answer
adaptproxy probe        tries the services that a configuration names, and says what they answer
adaptproxy --help       prints these lines
adaptproxy --version    prints the version, and the kit that it is proved with

serve, check and tell read their configuration from the standard input, or from the file after --config:
adaptproxy serve --config PATH
";

/// The version, and the identity of the kit that the program is proved and built with.
pub const VERSION: &[u8] = b"adaptproxy 0.1.0 (rattle-kit-13f logic dac8208d650f15bf)\n";
