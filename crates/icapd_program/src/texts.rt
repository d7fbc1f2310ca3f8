//! What the program says of itself.

/// The commands, one line each.
pub const HELP: &[u8] = b"\
icapd once         treats standard input as one connection's bytes, and writes the answers to standard output
icapd serve        reads a configuration (TOML) from standard input, prints `listening`, and serves connections
icapd check        reads a configuration as serve does, and says ok, or its fault
icapd --help       prints these lines
icapd --version    prints the version, and the kit that it is proved with
";

/// The version, and the identity of the kit that the program is proved and built with.
pub const VERSION: &[u8] = b"icapd 0.1.0 (rattle-kit-13f logic dac8208d650f15bf)\n";
